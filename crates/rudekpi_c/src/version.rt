//! The version of the library.

ghost use Rattle.std.specs.Prelude.{◌≡◌};

/// Returns the version as one number.
///
/// The number is 1,000,000 times the major, plus 1,000 times the minor, plus the patch number. A program
/// compares the number with the `RUDEKPI_VERSION_NUMBER` of the header that the program was compiled with.
#[unsafe(no_mangle)]
pub extern "C" fn rudekpi_version() -> u32
    ensures { result ≡ 1000000 }
{
    1_000_000
}
