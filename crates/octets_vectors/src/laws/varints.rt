//! The law of a varint that is written and read back.
ghost use Rattle.std.specs.Prelude.{◌≡◌, ◌↔◌, ◌+◌, ◌^◌, ◌<◌, ◌≤◌, ℕ, length, IsOk, IfOk, OnErr};
ghost use Rattle.std.specs.Fn.{FnOnceReturnsAtMut};
ghost use Rattle.octets.specs.Varints.{shortest, varint, BeginsVarint};
ghost use Rattle.octets.specs.Cursor.{position, rest, IsUnchanged, Writes};
ghost use Rattle.octets_vectors.specs.Between.{IsVarintRead, ReadsAgain};

use crate::nested::was_lent;
use octets::{OctetsMut, Result, varint_len, varint_parse_len};

/// What was read of a varint.
#[derive(Clone, Copy, Debug, PartialEq, Eq)]
pub struct ReadBack {
    /// The width in bytes that the first byte says, which is how many bytes were read.
    pub width: usize,
    /// The value of the varint.
    pub value: u64,
}

/// Writes the varint of `v`, goes back by `varint_len(v)`, calls `meet` with the cursor, and reads
/// the varint at the offset where `meet` left the cursor. If `meet` left the remaining bytes
/// unchanged, that is the varint of `v`, whose width its first byte says.
///
/// It returns what `meet` returned and what was read, which is `None` if there is no varint. It
/// fails exactly if the varint of `v` in its least width doesn't fit.
pub fn put_varint_meet_and_read<'a, T, F: Drop + FnOnce(&mut OctetsMut<'a>) -> T>(
    cursor: &mut OctetsMut<'a>,
    v: u64,
    meet: F,
) -> Result<(T, Option<ReadBack>)>
    requires held { v < 2 ^ 62 }
    requires callable { F.IsAlwaysCallable meet }
    ensures fits { IsOk result ↔ (shortest v ≤ length (rest cursor.old)) }
    ensures reads { IfOk result (λ r. ReadsAgain cursor.old cursor.new v
        (λ back left. FnOnceReturnsAtMut F.FnOnce meet back r.0 left) r.1) }
    ensures unchanged { OnErr result (IsUnchanged cursor.old cursor.new) }
{
    put_as_lent(cursor, v)?;
    cursor.rewind(varint_len(v))?;
    let met = meet(cursor);
    Ok((met, next_varint(cursor)))
}

/// Writes the varint of `v`, and leaves the bytes that it lends unchanged.
fn put_as_lent(cursor: &mut OctetsMut<'_>, v: u64) -> Result<()>
    requires { v < 2 ^ 62 }
    ensures fits { IsOk result ↔ (shortest v ≤ length (rest cursor.old)) }
    ensures writes { IfOk result (λ _. Writes cursor.old cursor.new (varint (shortest v) v)) }
    ensures past { IfOk result (λ _. position cursor.new ≡ position cursor.old + shortest v) }
    ensures unchanged { OnErr result (IsUnchanged cursor.old cursor.new) }
// The proof is hand-written, so any edit of the body breaks it: see CONTRIBUTING.md.
{
    was_lent(cursor.put_varint(v))
}

/// Reads the varint at the offset, if there is one.
fn next_varint(cursor: &mut OctetsMut<'_>) -> Option<ReadBack>
    ensures { IsVarintRead cursor.old cursor.new result }
{
    let width = told_width(cursor)?;
    let Ok(value) = cursor.get_varint() else {
        return None;
    };
    Some(ReadBack { width, value })
}

/// Returns the width that the first byte of a varint says, if there is a byte.
#[tactic(auto, using(crate::proofs::Sets::varints))]
fn told_width(cursor: &OctetsMut<'_>) -> Option<usize>
    ensures tells { (w n : ℕ) → BeginsVarint (rest cursor.now) w n → result ≡ Some w }
{
    match cursor.as_ref() {
        [first, ..] => Some(varint_parse_len(*first)),
        [] => None,
    }
}
