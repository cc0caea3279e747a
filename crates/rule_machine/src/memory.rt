//! Failed allocations.

use std::alloc::AllocError;

/// The error of a failed allocation.
/// A function that returns it has changed nothing, unless the function's comment says otherwise.
pub type Want = AllocError;
