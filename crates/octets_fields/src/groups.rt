//! A number in groups of seven bits, as in MQTT (version 5.0, section 1.5.5).
//!
//! The length of a packet is a number below 2 ^ 28 in one to four bytes. Each byte has seven
//! bits of the number, the lowest bits first. In all bytes but the last, the highest bit is 1.
//! A number has as few bytes as possible. The definition `groups` says this by cases.
//!
//! The clauses of `read_groups` don't mention `groups`: there is one clause for each width. Its
//! clauses `short` and `malformed` say exactly when each error is returned, so a program that
//! reads a stream can wait for more bytes after `Short`. The caller `read_len` and the writer
//! expand the definition.
//!
//! If no byte remains at position i, `part (rest cursor.old) i 1` is `[]`, and `number []` is
//! 0. So the condition `128 ≤ number (part (rest cursor.old) 0 1)` also says that a byte
//! remains. For numbers of up to nine bytes, see `integer::read_groups`, which is recursive.
ghost use Rattle.std.specs.Prelude.{◌≡◌, ◌↔◌, ◌+◌, ◌≤◌, ◌<◌, ◌^◌, ◌++◌, ℕ, List, length, IsOk, IsOkAnd, OnOk};
ghost use Rattle.std.specs.Prelude.{◌/◌, ◌%◌, ◌⊎◌, IsErrOf};
ghost use Rattle.octets.specs.Bytes.{network, number, part};
ghost use Rattle.octets.specs.Cursor.{rest, Writes};
ghost use Rattle.octets_fields.specs.Groups.{groups};
ghost use Rattle.octets_fields.specs.declared.groups.LenError.TheVariants as LenErrors;

use octets::{BufferTooShortError, Octets, OctetsMut, Result};

/// Why no length was read.
#[derive(Clone, Copy, Debug, PartialEq, Eq)]
pub enum LenError {
    /// More bytes are needed.
    Short,
    /// No length begins with these bytes.
    Malformed,
}

impl From<BufferTooShortError> for LenError {
    ghost from_gives = { λ _ r. r ≡ LenErrors.Short };

    fn from(_: BufferTooShortError) -> LenError {
        LenError::Short
    }
}

/// Reads a number in groups of seven bits, and refuses a last byte of 0, which isn't needed.
#[tactic(auto, using(octets::proofs::CallerLemmas::parts))]
fn read_groups(cursor: &mut Octets<'_>) -> std::result::Result<u32, LenError>
    ensures one { (n : ℕ) (after : List ℕ) → n < 128 → rest cursor.old ≡ network 1 n ++ after
        → IsOkAnd result (λ r. r ≡ n) × (rest cursor.new ≡ after) }
    ensures two { (n : ℕ) (after : List ℕ) → 128 ≤ n → n < 16384
        → rest cursor.old ≡ network 1 (n % 128 + 128) ++ network 1 (n / 128) ++ after
        → IsOkAnd result (λ r. r ≡ n) × (rest cursor.new ≡ after) }
    ensures three { (n : ℕ) (after : List ℕ) → 16384 ≤ n → n < 2097152
        → rest cursor.old ≡ network 1 (n % 128 + 128) ++ network 1 (n / 128 % 128 + 128)
        ++ network 1 (n / 16384) ++ after
        → IsOkAnd result (λ r. r ≡ n) × (rest cursor.new ≡ after) }
    ensures four { (n : ℕ) (after : List ℕ) → 2097152 ≤ n → n < 2 ^ 28
        → rest cursor.old ≡ network 1 (n % 128 + 128) ++ network 1 (n / 128 % 128 + 128)
        ++ network 1 (n / 16384 % 128 + 128) ++ network 1 (n / 2097152) ++ after
        → IsOkAnd result (λ r. r ≡ n) × (rest cursor.new ≡ after) }
    ensures short { IsErrOf result LenErrors.Short ↔ ((length (rest cursor.old) < 1)
        ⊎ ((128 ≤ number (part (rest cursor.old) 0 1)) × (length (rest cursor.old) < 2))
        ⊎ ((128 ≤ number (part (rest cursor.old) 0 1)) × (128 ≤ number (part (rest cursor.old) 1 1))
        × (length (rest cursor.old) < 3))
        ⊎ ((128 ≤ number (part (rest cursor.old) 0 1)) × (128 ≤ number (part (rest cursor.old) 1 1))
        × (128 ≤ number (part (rest cursor.old) 2 1)) × (length (rest cursor.old) < 4))) }
    ensures malformed { IsErrOf result LenErrors.Malformed ↔ (
        ((128 ≤ number (part (rest cursor.old) 0 1)) × (2 ≤ length (rest cursor.old))
        × (number (part (rest cursor.old) 1 1) ≡ 0))
        ⊎ ((128 ≤ number (part (rest cursor.old) 0 1)) × (128 ≤ number (part (rest cursor.old) 1 1))
        × (3 ≤ length (rest cursor.old)) × (number (part (rest cursor.old) 2 1) ≡ 0))
        ⊎ ((128 ≤ number (part (rest cursor.old) 0 1)) × (128 ≤ number (part (rest cursor.old) 1 1))
        × (128 ≤ number (part (rest cursor.old) 2 1)) × (4 ≤ length (rest cursor.old))
        × ((number (part (rest cursor.old) 3 1) ≡ 0) ⊎ (128 ≤ number (part (rest cursor.old) 3 1))))) }
{
    let a = u32::from(cursor.get_u8()?);
    if a < 128 {
        return Ok(a);
    }
    let b = u32::from(cursor.get_u8()?);
    if b == 0 {
        return Err(LenError::Malformed);
    }
    if b < 128 {
        return Ok(a - 128 + 128 * b);
    }
    let c = u32::from(cursor.get_u8()?);
    if c == 0 {
        return Err(LenError::Malformed);
    }
    if c < 128 {
        return Ok(a - 128 + 128 * (b - 128) + 16384 * c);
    }
    let d = u32::from(cursor.get_u8()?);
    if d == 0 || 128 <= d {
        return Err(LenError::Malformed);
    }
    Ok(a - 128 + 128 * (b - 128) + 16384 * (c - 128) + 2097152 * d)
}

/// Reads the length of a packet.
#[tactic(auto, unfolding(crate::specs::Groups::groups))]
pub fn read_len(cursor: &mut Octets<'_>) -> std::result::Result<u32, LenError>
    ensures every { (n : ℕ) (after : List ℕ) → n < 2 ^ 28 → rest cursor.old ≡ groups n ++ after
        → IsOkAnd result (λ r. r ≡ n) × (rest cursor.new ≡ after) }
{
    read_groups(cursor)
}

/// Writes the length of a packet, or a part of it if it doesn't fit.
#[tactic(auto, using(octets::proofs::CallerLemmas::rows, octets::proofs::CallerLemmas::length_network), unfolding(crate::specs::Groups::groups))]
pub fn write_len(cursor: &mut OctetsMut<'_>, n: u32) -> Result<()>
    requires { n < 2 ^ 28 }
    ensures fits { IsOk result ↔ (length (groups n) ≤ length (rest cursor.old)) }
    ensures writes { OnOk result (Writes cursor.old cursor.new (groups n)) }
{
    if n < 128 {
        return cursor.write_u8(n as u8);
    }
    if n < 16384 {
        cursor.write_u8((n % 128 + 128) as u8)?;
        return cursor.write_u8((n / 128) as u8);
    }
    if n < 2097152 {
        cursor.write_u8((n % 128 + 128) as u8)?;
        cursor.write_u8((n / 128 % 128 + 128) as u8)?;
        return cursor.write_u8((n / 16384) as u8);
    }
    cursor.write_u8((n % 128 + 128) as u8)?;
    cursor.write_u8((n / 128 % 128 + 128) as u8)?;
    cursor.write_u8((n / 16384 % 128 + 128) as u8)?;
    cursor.write_u8((n / 2097152) as u8)
}
