//! Calls with the greatest numbers that their contracts allow. The functions are public for the
//! edits that the checker must reject: each of these edits asks for one number more.
ghost use Rattle.std.specs.Prelude.{◌≡◌, ◌↔◌, ◌≤◌, length, IsTrue, IsOk, IfOk, OnErr};
ghost use Rattle.std.specs.Borrow.{sem};
ghost use Rattle.octets.specs.Cursor.{rest, IsUnchanged, Writes};
ghost use Rattle.octets.specs.Varints.{varint};
ghost use Rattle.octets.specs.Loans.{LendsPut};

use octets::{MAX_VAR_INT, OctetsMut, Result, varint_len};

/// Writes the greatest number that a varint holds, and returns its width.
pub fn write_greatest(cursor: &mut OctetsMut<'_>) -> Result<usize>
    ensures fits { IsOk result ↔ (8 ≤ length (rest cursor.old)) }
    ensures width { IfOk result (λ w. w ≡ 8) }
    ensures writes { IfOk result (λ _. Writes cursor.old cursor.new
        (varint 8 4611686018427387903)) }
    ensures unchanged { OnErr result (IsUnchanged cursor.old cursor.new) }
{
    cursor.write_varint(MAX_VAR_INT)?;
    Ok(varint_len(MAX_VAR_INT))
}

/// Writes the greatest number that a varint of one byte holds.
pub fn write_greatest_in_one(cursor: &mut OctetsMut<'_>) -> Result<()>
    ensures fits { IsOk result ↔ (1 ≤ length (rest cursor.old)) }
    ensures writes { IfOk result (λ _. Writes cursor.old cursor.new (varint 1 63)) }
    ensures unchanged { OnErr result (IsUnchanged cursor.old cursor.new) }
{
    cursor.write_varint_with_len(63, 1)
}

/// Writes the greatest number that a varint holds, and lends its bytes.
pub fn put_greatest<'a>(cursor: &'a mut OctetsMut<'_>) -> Result<&'a mut [u8]>
    ensures* writes_back { sem 𝓛 (LendsPut cursor.entry (varint 8 4611686018427387903) 8 result) }
    ensures fits { IsOk result ↔ (8 ≤ length (rest cursor.old)) }
    ensures shows { IfOk result (λ lent. lent.now ≡ varint 8 4611686018427387903) }
// The proof is hand-written, so any edit of the body breaks it: see CONTRIBUTING.md.
{
    cursor.put_varint(MAX_VAR_INT)
}

/// Returns whether the greatest number that a varint holds fits, and leaves the lent bytes as they
/// are.
pub fn could_put_greatest(room: &mut OctetsMut<'_>) -> bool
    ensures { IsTrue result ↔ (8 ≤ length (rest room.old)) }
{
    room.put_varint(MAX_VAR_INT).is_ok()
}

/// Writes the greatest number that a varint of one byte holds, and lends its byte.
pub fn put_greatest_in_one<'a>(cursor: &'a mut OctetsMut<'_>) -> Result<&'a mut [u8]>
    ensures* writes_back { sem 𝓛 (LendsPut cursor.entry (varint 1 63) 1 result) }
    ensures fits { IsOk result ↔ (1 ≤ length (rest cursor.old)) }
    ensures shows { IfOk result (λ lent. lent.now ≡ varint 1 63) }
// The proof is hand-written, so any edit of the body breaks it: see CONTRIBUTING.md.
{
    cursor.put_varint_with_len(63, 1)
}

/// Returns whether the greatest number that a varint of one byte holds fits, and leaves the lent
/// byte as it is.
pub fn could_put_greatest_in_one(room: &mut OctetsMut<'_>) -> bool
    ensures { IsTrue result ↔ (1 ≤ length (rest room.old)) }
{
    room.put_varint_with_len(63, 1).is_ok()
}
