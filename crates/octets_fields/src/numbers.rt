//! Numbers that the library has no call for: of six bytes, and little-endian.
//!
//! They are read and written in parts. A clause by positions and a writer need no attribute, and the
//! clause `every` needs the set `parts`. We haven't tried little-endian numbers of eight bytes.
ghost use Rattle.std.specs.Prelude.{◌≡◌, ◌↔◌, ◌+◌, ◌*◌, ◌/◌, ◌%◌, ◌≤◌, ◌<◌, ◌^◌, ◌++◌, ℕ, List, length};
ghost use Rattle.std.specs.Prelude.{IsOk, IsOkAnd, IfOk, OnOk};
ghost use Rattle.octets.specs.Bytes.{network, number, part};
ghost use Rattle.octets.specs.Cursor.{rest, Passes, Writes};

use octets::{Octets, OctetsMut, Result};

/// Reads a number of six bytes, as the sequence number of DTLS. It would be proved without its file of
/// hand-written proofs, if an attribute named the set `parts`.
pub fn read_u48(cursor: &mut Octets<'_>) -> Result<u64>
    ensures fits { IsOk result ↔ (6 ≤ length (rest cursor.old)) }
    ensures value { IfOk result (λ n. n ≡ 4294967296 * number (part (rest cursor.old) 0 2)
        + number (part (rest cursor.old) 2 4)) }
    ensures passes { OnOk result (Passes cursor.old cursor.new 6) }
    ensures every { (n : ℕ) (after : List ℕ) → n < 2 ^ 48
        → rest cursor.old ≡ network 2 (n / 4294967296) ++ network 4 (n % 4294967296) ++ after
        → IsOkAnd result (λ r. r ≡ n) × (rest cursor.new ≡ after) }
{
    let high = u64::from(cursor.get_u16()?);
    let low = u64::from(cursor.get_u32()?);
    Ok(4294967296 * high + low)
}

/// Writes a number of six bytes.
pub fn write_u48(cursor: &mut OctetsMut<'_>, n: u64) -> Result<()>
    requires { n < 2 ^ 48 }
    ensures writes { OnOk result (Writes cursor.old cursor.new
        (network 2 (n / 4294967296) ++ network 4 (n % 4294967296))) }
{
    cursor.write_u16((n / 4294967296) as u16)?;
    cursor.write_u32((n % 4294967296) as u32)
}

/// Reads a number of two bytes, the least significant first.
#[tactic(auto, using(octets::proofs::CallerLemmas::parts))]
pub fn read_u16_le(cursor: &mut Octets<'_>) -> Result<u16>
    ensures fits { IsOk result ↔ (2 ≤ length (rest cursor.old)) }
    ensures value { IfOk result (λ n. n ≡ number (part (rest cursor.old) 0 1)
        + 256 * number (part (rest cursor.old) 1 1)) }
    ensures every { (n : ℕ) (after : List ℕ) → n < 2 ^ 16
        → rest cursor.old ≡ network 1 (n % 256) ++ network 1 (n / 256) ++ after
        → IsOkAnd result (λ r. r ≡ n) × (rest cursor.new ≡ after) }
    ensures passes { OnOk result (Passes cursor.old cursor.new 2) }
{
    let low = cursor.get_u8()?;
    let high = cursor.get_u8()?;
    Ok(u16::from(low) + 256 * u16::from(high))
}

/// Writes a number of two bytes, the least significant first.
pub fn write_u16_le(cursor: &mut OctetsMut<'_>, n: u16) -> Result<()>
    ensures fits { IsOk result ↔ (2 ≤ length (rest cursor.old)) }
    ensures writes { OnOk result (Writes cursor.old cursor.new
        (network 1 (n % 256) ++ network 1 (n / 256))) }
{
    cursor.write_u8((n % 256) as u8)?;
    cursor.write_u8((n / 256) as u8)
}

/// Reads a number of four bytes, the least significant first.
#[tactic(auto, using(octets::proofs::CallerLemmas::parts))]
pub fn read_u32_le(cursor: &mut Octets<'_>) -> Result<u32>
    ensures fits { IsOk result ↔ (4 ≤ length (rest cursor.old)) }
    ensures value { IfOk result (λ n. n ≡ number (part (rest cursor.old) 0 1)
        + 256 * number (part (rest cursor.old) 1 1) + 65536 * number (part (rest cursor.old) 2 1)
        + 16777216 * number (part (rest cursor.old) 3 1)) }
    ensures every { (n : ℕ) (after : List ℕ) → n < 2 ^ 32
        → rest cursor.old ≡ network 1 (n % 256) ++ network 1 (n / 256 % 256)
        ++ network 1 (n / 65536 % 256) ++ network 1 (n / 16777216) ++ after
        → IsOkAnd result (λ r. r ≡ n) × (rest cursor.new ≡ after) }
    ensures passes { OnOk result (Passes cursor.old cursor.new 4) }
{
    let a = u32::from(cursor.get_u8()?);
    let b = u32::from(cursor.get_u8()?);
    let c = u32::from(cursor.get_u8()?);
    let d = u32::from(cursor.get_u8()?);
    Ok(a + 256 * b + 65536 * c + 16777216 * d)
}

/// Writes a number of four bytes, the least significant first.
pub fn write_u32_le(cursor: &mut OctetsMut<'_>, n: u32) -> Result<()>
    ensures writes { OnOk result (Writes cursor.old cursor.new (network 1 (n % 256)
        ++ network 1 (n / 256 % 256) ++ network 1 (n / 65536 % 256) ++ network 1 (n / 16777216))) }
{
    cursor.write_u8((n % 256) as u8)?;
    cursor.write_u8((n / 256 % 256) as u8)?;
    cursor.write_u8((n / 65536 % 256) as u8)?;
    cursor.write_u8((n / 16777216) as u8)?;
    Ok(())
}
