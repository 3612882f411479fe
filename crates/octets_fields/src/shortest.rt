//! A varint that must not be wider than its value needs, as the type of a QUIC frame (RFC 9000,
//! section 12.4).
//!
//! `get_varint_shortest` returns a `VarintError`, whose variant `Overlong` says that the varint
//! is wider. These readers have an error type of their own, which tells such a varint from
//! missing bytes. `shortest n` is the least number of bytes of a varint of n. `HasNoVarint l`
//! says that the list l doesn't begin with a whole varint, and `BeginsOverlong l` that it
//! begins with one that is wider than its value needs.
//!
//! `overlong` and `short` of `read_typed` say exactly when each error is returned, and `every`
//! says what is returned for all other bytes. `advances` is also true after an error: the
//! buffer is unchanged, and the offset hasn't decreased. (It may be after the type.) If the
//! fields depend on the type, use a `match`, as in the module `kinds`.
ghost use Rattle.std.specs.Prelude.{◌≡◌, ◌↔◌, ◌+◌, ◌≤◌, ◌<◌, ℕ, length, drop, IsOkAnd, ◌⊎◌, IsErrOf};
ghost use Rattle.octets.specs.Bytes.{number, part};
ghost use Rattle.octets.specs.Varints.{BeginsVarint, shortest, BeginsOverlong, HasNoVarint};
ghost use Rattle.octets.specs.Cursor.{rest, Passes, Advances};
ghost use Rattle.octets.specs.declared.error.VarintError.TheVariants as VarintErrors;
ghost use Rattle.octets_fields.specs.declared.shortest.FrameError.TheVariants as FrameErrors;

use octets::{BufferTooShortError, Octets, Result, VarintError};

/// Why no frame was read.
#[derive(Clone, Copy, Debug, PartialEq, Eq)]
pub enum FrameError {
    /// More bytes are needed.
    Short,
    /// The type has more bytes than it needs.
    Overlong,
}

impl From<BufferTooShortError> for FrameError {
    ghost from_gives = { λ _ r. r ≡ FrameErrors.Short };

    fn from(_: BufferTooShortError) -> FrameError {
        FrameError::Short
    }
}

impl From<VarintError> for FrameError {
    ghost from_gives = { λ e r. (e ≡ VarintErrors.Short → r ≡ FrameErrors.Short)
        × (e ≡ VarintErrors.Overlong → r ≡ FrameErrors.Overlong) };

    fn from(error: VarintError) -> FrameError {
        match error {
            VarintError::Short => FrameError::Short,
            VarintError::Overlong => FrameError::Overlong,
        }
    }
}

/// Reads the type of a frame, and the number after it.
#[tactic(auto, using(octets::proofs::CallerLemmas::passes_more))]
pub fn read_typed(cursor: &mut Octets<'_>) -> std::result::Result<(u64, u64), FrameError>
    ensures overlong { IsErrOf result FrameErrors.Overlong ↔ BeginsOverlong (rest cursor.old) }
    ensures short { IsErrOf result FrameErrors.Short ↔ (HasNoVarint (rest cursor.old)
        ⊎ ((kind : ℕ) × BeginsVarint (rest cursor.old) (shortest kind) kind
        × HasNoVarint (drop (shortest kind) (rest cursor.old)))) }
    ensures every { (kind w n : ℕ) → BeginsVarint (rest cursor.old) (shortest kind) kind
        → BeginsVarint (drop (shortest kind) (rest cursor.old)) w n
        → IsOkAnd result (λ f. (f.0 ≡ kind) × (f.1 ≡ n))
        × Passes cursor.old cursor.new (shortest kind + w) }
    ensures advances { Advances cursor.old cursor.new }
{
    let kind = cursor.get_varint_shortest()?;
    Ok((kind, cursor.get_varint()?))
}

// A function that reads more fields calls `read_typed` first. For given bytes exactly one of its
// clauses `overlong`, `lacking`, `cut` and `every` says what it returns.
/// Reads the type of a frame, the number after it, and a number of two bytes.
pub fn read_longer(cursor: &mut Octets<'_>) -> std::result::Result<(u64, u64, u16), FrameError>
    ensures overlong { IsErrOf result FrameErrors.Overlong ↔ BeginsOverlong (rest cursor.old) }
    ensures lacking { HasNoVarint (rest cursor.old)
        ⊎ ((kind : ℕ) × BeginsVarint (rest cursor.old) (shortest kind) kind
        × HasNoVarint (drop (shortest kind) (rest cursor.old))) → IsErrOf result FrameErrors.Short }
    ensures cut { (kind w n : ℕ) → BeginsVarint (rest cursor.old) (shortest kind) kind
        → BeginsVarint (drop (shortest kind) (rest cursor.old)) w n
        → length (rest cursor.old) < shortest kind + w + 2 → IsErrOf result FrameErrors.Short }
    ensures every { (kind w n : ℕ) → BeginsVarint (rest cursor.old) (shortest kind) kind
        → BeginsVarint (drop (shortest kind) (rest cursor.old)) w n
        → shortest kind + w + 2 ≤ length (rest cursor.old)
        → IsOkAnd result (λ f. (f.0 ≡ kind) × (f.1 ≡ n)
        × (f.2 ≡ number (part (rest cursor.old) (shortest kind + w) 2)))
        × Passes cursor.old cursor.new (shortest kind + w + 2) }
    ensures advances { Advances cursor.old cursor.new }
{
    let (kind, n) = read_typed(cursor)?;
    Ok((kind, n, cursor.get_u16()?))
}
