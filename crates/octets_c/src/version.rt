//! The version number of the library.
ghost use Rattle.std.specs.Prelude.{◌≡◌};

/// Returns the version of the linked library as a number: 30703 is 0.3.7+3.
///
/// Returns OCTETS_VERSION if the linked library has the version of this header.
#[unsafe(no_mangle)]
pub extern "C" fn octets_version() -> u32
    ensures { result ≡ 30703 }
{
    30703
}
