//! The statuses of calls. `include/rudekpi.h` says what each means.

pub(crate) const DONE: u32 = 0;

pub(crate) const BAD_LINE: u32 = 1;

pub(crate) const LOG_FULL: u32 = 2;

pub(crate) const MEMORY: u32 = 3;

pub(crate) const NO_SESSION: u32 = 4;

pub(crate) const BAD_ARGUMENT: u32 = 5;

pub(crate) const REFUSED: u32 = 6;

pub(crate) const DAMAGED: u32 = 7;

pub(crate) const NOT_SILENT: u32 = 8;

pub(crate) const NOT_SHOWN: u32 = 9;

pub(crate) const NOT_COUNTED: u32 = 10;

/// The value in an option; without one the function returns this.
macro_rules! some_or {
    ($option:expr, $status:expr) => {
        match $option {
            Some(value) => value,
            None => return $status,
        }
    };
}

/// The value in a result; without one the function returns this.
macro_rules! ok_or {
    ($result:expr, $status:expr) => {
        match $result {
            Ok(value) => value,
            Err(_) => return $status,
        }
    };
}

pub(crate) use ok_or;
pub(crate) use some_or;
