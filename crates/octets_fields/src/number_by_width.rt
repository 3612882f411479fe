//! A number whose width is in another byte.
//!
//! A QUIC packet may have a packet number, of 1 to 4 bytes. The two lowest bits of the packet's
//! first byte give the number of these bytes, minus one. (Header protection has to be removed
//! first: see RFC 9000, section 17.) Each width has a call of its own. Only the clause `every`
//! needs the set `parts`. The writer takes the width as a parameter, and its `requires` says
//! that the number fits in this width.
ghost use Rattle.std.specs.Prelude.{◌≡◌, ◌↔◌, ◌+◌, ◌*◌, ◌≤◌, ◌<◌, ◌^◌, ◌++◌, ℕ, List, length, IsOk, IsOkAnd};
ghost use Rattle.std.specs.Prelude.{IfOk, OnOk, ◌%◌};
ghost use Rattle.octets.specs.Bytes.{network, number, part};
ghost use Rattle.octets.specs.Cursor.{rest, Passes, Writes};

use octets::{Octets, OctetsMut, Result};

/// Reads a number of 1 to 4 bytes. It has one byte more than the two lowest bits of `flags` say.
#[tactic(auto, using(octets::proofs::CallerLemmas::parts))]
pub fn read_by_width(cursor: &mut Octets<'_>, flags: u8) -> Result<u32>
    ensures fits { IsOk result ↔ (flags % 4 + 1 ≤ length (rest cursor.old)) }
    ensures value { IfOk result (λ n. n ≡ number (part (rest cursor.old) 0 (flags % 4 + 1))) }
    ensures passes { OnOk result (Passes cursor.old cursor.new (flags % 4 + 1)) }
    ensures every { (n : ℕ) (after : List ℕ) → n < 2 ^ (8 * (flags % 4 + 1))
        → rest cursor.old ≡ network (flags % 4 + 1) n ++ after
        → IsOkAnd result (λ r. r ≡ n) × (rest cursor.new ≡ after) }
{
    match flags % 4 {
        0 => Ok(u32::from(cursor.get_u8()?)),
        1 => Ok(u32::from(cursor.get_u16()?)),
        2 => cursor.get_u24(),
        _ => cursor.get_u32(),
    }
}

/// Writes a number of 1 to 4 bytes.
pub fn write_by_width(cursor: &mut OctetsMut<'_>, n: u32, width: u8) -> Result<()>
    requires { (1 ≤ width) × (width ≤ 4) × (n < 2 ^ (8 * width)) }
    ensures fits { IsOk result ↔ (width ≤ length (rest cursor.old)) }
    ensures writes { OnOk result (Writes cursor.old cursor.new (network width n)) }
{
    match width {
        1 => cursor.write_u8(n as u8),
        2 => cursor.write_u16(n as u16),
        3 => cursor.write_u24(n),
        _ => cursor.write_u32(n),
    }
}
