//! An error type of your own.
//!
//! It needs an `impl From<E>` for each error `E` that `?` converts into it. The ghost member
//! `from_gives` of this impl says which value the conversion returns. To name a variant in a
//! clause, import it from the module `TheVariants` that the kit generates for the enum.
//!
//! Say of each error exactly when it is returned, as the clauses `short` and `wrong` do.
//! Otherwise a function that returns the wrong error meets the contract.
ghost use Rattle.std.specs.Prelude.{◌≡◌, ◌↔◌, ◌≤◌, ◌<◌, length, ◌≢◌, IsErrOf};
ghost use Rattle.octets.specs.Bytes.{number, part};
ghost use Rattle.octets.specs.Cursor.{rest};
ghost use Rattle.octets_formats.specs.declared.versions.VersionError.TheVariants.{Short, Wrong};

use octets::{BufferTooShortError, Octets, Result};

/// Why no version was read.
#[derive(Clone, Copy, Debug, PartialEq, Eq)]
pub enum VersionError {
    /// Fewer than four bytes remain.
    Short,
    /// The version isn't 1.
    Wrong,
}

impl From<BufferTooShortError> for VersionError {
    ghost from_gives = { λ _ r. r ≡ Short };

    fn from(_: BufferTooShortError) -> VersionError {
        VersionError::Short
    }
}

/// Reads a version, which has to be 1.
pub fn read_version(cursor: &mut Octets<'_>) -> std::result::Result<(), VersionError>
    ensures short { IsErrOf result Short ↔ (length (rest cursor.old) < 4) }
    ensures wrong { IsErrOf result Wrong ↔ ((4 ≤ length (rest cursor.old))
        × (number (part (rest cursor.old) 0 4) ≢ 1)) }
{
    if cursor.get_u32()? != 1 {
        return Err(VersionError::Wrong);
    }
    Ok(())
}

/// Two results that meet the clauses of `read_version` for the same bytes are equal.
pub fn version_is_decided(
    r: std::result::Result<(), VersionError>,
    q: std::result::Result<(), VersionError>,
    l: &[u8],
)
    requires r_short { IsErrOf r Short ↔ (length l.now < 4) }
    requires r_wrong { IsErrOf r Wrong ↔ ((4 ≤ length l.now) × (number (part l.now 0 4) ≢ 1)) }
    requires q_short { IsErrOf q Short ↔ (length l.now < 4) }
    requires q_wrong { IsErrOf q Wrong ↔ ((4 ≤ length l.now) × (number (part l.now 0 4) ≢ 1)) }
    ensures { r ≡ q }
{}
