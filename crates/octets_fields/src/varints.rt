//! Varints of any width.
//!
//! A varint of any width is stated by `BeginsVarint l w n`: the list l begins with a varint of
//! n in w bytes.
//!
//! QUIC's ACK frame has four varints after its type. The checker finds no proof of `every` for
//! a function that reads all four. So `BeginsTwo` defines what two varints are. The function
//! `read_two` expands it, and `read_four` calls `read_two` twice and expands nothing.
ghost use Rattle.std.specs.Prelude.{◌≡◌, ◌↔◌, ◌+◌, ◌≤◌, ℕ, length, drop, IsOk, IsOkAnd, IfOk};
ghost use Rattle.octets.specs.Bytes.{part};
ghost use Rattle.octets.specs.Varints.{BeginsVarint};
ghost use Rattle.octets.specs.Cursor.{bytes, position, rest, Passes};
ghost use Rattle.octets_fields.specs.TwoVarints.{BeginsTwo};

use octets::{Octets, Result};

/// Reads two varints.
#[tactic(auto, unfolding(crate::specs::TwoVarints::BeginsTwo))]
pub fn read_two(cursor: &mut Octets<'_>) -> Result<(u64, u64)>
    ensures every { (n a b : ℕ) → BeginsTwo (rest cursor.old) n a b
        → IsOkAnd result (λ r. (r.0 ≡ a) × (r.1 ≡ b)) × Passes cursor.old cursor.new n }
{
    Ok((cursor.get_varint()?, cursor.get_varint()?))
}

/// Reads four varints, as after the type of QUIC's ACK frame.
pub fn read_four(cursor: &mut Octets<'_>) -> Result<(u64, u64, u64, u64)>
    ensures every { (n m a b c d : ℕ) → BeginsTwo (rest cursor.old) n a b
        → BeginsTwo (drop n (rest cursor.old)) m c d
        → IsOkAnd result (λ r. (r.0 ≡ a) × (r.1 ≡ b) × (r.2 ≡ c) × (r.3 ≡ d))
        × Passes cursor.old cursor.new (n + m) }
{
    let (a, b) = read_two(cursor)?;
    let (c, d) = read_two(cursor)?;
    Ok((a, b, c, d))
}

/// Reads a varint, and a run after its length, which is a varint too.
///
/// `fits` says nothing about bytes that don't begin with two whole varints. For these, the call
/// returns an error, because `value` says that after `Ok` there were two.
pub fn read_frame<'a>(cursor: &mut Octets<'a>) -> Result<(u64, Octets<'a>)>
    ensures fits { (i j kind len : ℕ) → BeginsVarint (rest cursor.old) i kind
        → BeginsVarint (drop i (rest cursor.old)) j len
        → IsOk result ↔ (i + j + len ≤ length (rest cursor.old)) }
    ensures value { IfOk result (λ f. (i j : ℕ) × BeginsVarint (rest cursor.old) i f.0
        × BeginsVarint (drop i (rest cursor.old)) j (length (bytes f.1))
        × (bytes f.1 ≡ part (rest cursor.old) (i + j) (length (bytes f.1)))
        × (position f.1 ≡ 0) × Passes cursor.old cursor.new (i + j + length (bytes f.1))) }
{
    Ok((cursor.get_varint()?, cursor.get_bytes_with_varint_length()?))
}
