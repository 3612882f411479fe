//! A number whose width depends on its value: below 128 it has one byte, and otherwise three
//! bytes.
//!
//! The writer and the reader both expand `length_bytes`. `fits` of the writer needs the length
//! of a list, and the lemmas for it, which the sets `rows` and `length_network` have.
ghost use Rattle.std.specs.Prelude.{◌≡◌, ◌↔◌, ◌≤◌, ◌<◌, ◌^◌, ◌++◌, ℕ, List, length, IsOk, IsOkAnd, IfOk};
ghost use Rattle.octets.specs.Cursor.{rest, Writes};
ghost use Rattle.octets_fields.specs.Lengths.{length_bytes};

use octets::{BufferTooShortError, Octets, OctetsMut, Result};

/// Writes a number, or a part of it if it doesn't fit.
#[tactic(auto, using(octets::proofs::CallerLemmas::rows, octets::proofs::CallerLemmas::length_network), unfolding(crate::specs::Lengths::length_bytes))]
pub fn write_length(cursor: &mut OctetsMut<'_>, n: u16) -> Result<()>
    ensures fits { IsOk result ↔ (length (length_bytes n) ≤ length (rest cursor.old)) }
    ensures writes { IfOk result (λ _. Writes cursor.old cursor.new (length_bytes n)) }
{
    if n < 128 {
        return cursor.write_u8(n as u8);
    }
    cursor.write_u8(130)?;
    cursor.write_u16(n)
}

/// Reads a number. It also accepts one below 128 in three bytes.
#[tactic(auto, using(octets::proofs::CallerLemmas::parts), unfolding(crate::specs::Lengths::length_bytes))]
pub fn read_length(cursor: &mut Octets<'_>) -> Result<u16>
    ensures every { (n : ℕ) (after : List ℕ) → n < 2 ^ 16
        → rest cursor.old ≡ length_bytes n ++ after
        → IsOkAnd result (λ r. r ≡ n) × (rest cursor.new ≡ after) }
{
    let first = cursor.get_u8()?;
    if first < 128 {
        return Ok(u16::from(first));
    }
    if first != 130 {
        return Err(BufferTooShortError);
    }
    cursor.get_u16()
}
