//! Calls that lend a slice, each of which writes bytes into it.
ghost use Rattle.std.specs.Prelude.{◌≡◌, ◌↔◌, ◌+◌, ◌-◌, ◌*◌, ◌^◌, ◌<◌, ◌≤◌};
ghost use Rattle.std.specs.Prelude.{length, take, drop, IsOk, IfOk, OnErr};
ghost use Rattle.octets.specs.Bytes.{network, over, splice};
ghost use Rattle.octets.specs.Cursor.{bytes, position, rest, IsUnchanged};
ghost use Rattle.octets.specs.Slices.{reference};
ghost use Rattle.octets.specs.Varints.{IsWidth, shortest, varint};
ghost use Rattle.octets_script.specs.Left.{Left};

use octets::{OctetsMut, Result};

/// Writes `w` over the first bytes of `part`, as many as both have.
pub(crate) fn write_over(part: &mut [u8], w: &[u8])
    ensures { part.new ≡ over part.old w.now }
{
    let len = part.len().min(w.len());
    part[..len].copy_from_slice(&w[..len]);
}

/// Writes `w` over the first bytes that were lent, as many as both have.
pub(crate) fn over_part(lent: Result<&mut [u8]>, w: &[u8]) -> Result<()>
    ensures tells { IsOk result ↔ IsOk lent.entry }
    ensures left { Left lent.entry lent.exit w.now }
{
    match lent {
        Ok(part) => {
            write_over(part, w);
            Ok(())
        }
        Err(short) => Err(short),
    }
}

/// Writes `w` over the next `len` bytes, as many as both have.
pub(crate) fn over_slice(cursor: &mut OctetsMut<'_>, len: usize, w: &[u8]) -> Result<()>
    ensures fits { IsOk result ↔ (len ≤ length (rest cursor.old)) }
    ensures bytes { IfOk result (λ _. bytes cursor.new ≡
        splice (bytes cursor.old) (position cursor.old)
        (over (take len (rest cursor.old)) w.now)) }
    ensures position { IfOk result (λ _. position cursor.new ≡ position cursor.old) }
    ensures unchanged { OnErr result (IsUnchanged cursor.old cursor.new) }
    ensures same_reference { reference cursor.new ≡ reference cursor.old }
// The proof is hand-written, so any edit of the body breaks it: see CONTRIBUTING.md.
{
    over_part(cursor.slice(len), w)
}

/// Writes `w` over the last `len` bytes, as many as both have.
pub(crate) fn over_last(cursor: &mut OctetsMut<'_>, len: usize, w: &[u8]) -> Result<()>
    ensures fits { IsOk result ↔ (len ≤ length (rest cursor.old)) }
    ensures bytes { IfOk result (λ _. bytes cursor.new ≡
        splice (bytes cursor.old) (length (bytes cursor.old) - len)
        (over (drop (length (bytes cursor.old) - len) (bytes cursor.old)) w.now)) }
    ensures position { IfOk result (λ _. position cursor.new ≡ position cursor.old) }
    ensures unchanged { OnErr result (IsUnchanged cursor.old cursor.new) }
    ensures same_reference { reference cursor.new ≡ reference cursor.old }
// The proof is hand-written, so any edit of the body breaks it: see CONTRIBUTING.md.
{
    over_part(cursor.slice_last(len), w)
}

/// Writes `v` as 1 byte, and then `w` over it, as many bytes as both have.
pub(crate) fn put_u8_then_overwrite(cursor: &mut OctetsMut<'_>, v: u8, w: &[u8]) -> Result<()>
    ensures fits { IsOk result ↔ (1 ≤ length (rest cursor.old)) }
    ensures bytes { IfOk result (λ _. bytes cursor.new ≡
        splice (splice (bytes cursor.old) (position cursor.old) (network 1 v))
        (position cursor.old) (over (network 1 v) w.now)) }
    ensures position { IfOk result (λ _. position cursor.new ≡ position cursor.old + 1) }
    ensures unchanged { OnErr result (IsUnchanged cursor.old cursor.new) }
    ensures same_reference { reference cursor.new ≡ reference cursor.old }
// The proof is hand-written, so any edit of the body breaks it: see CONTRIBUTING.md.
{
    over_part(cursor.put_u8(v), w)
}

/// Writes `v` as 2 bytes, and then `w` over them, as many bytes as both have.
pub(crate) fn put_u16_then_overwrite(cursor: &mut OctetsMut<'_>, v: u16, w: &[u8]) -> Result<()>
    ensures fits { IsOk result ↔ (2 ≤ length (rest cursor.old)) }
    ensures bytes { IfOk result (λ _. bytes cursor.new ≡
        splice (splice (bytes cursor.old) (position cursor.old) (network 2 v))
        (position cursor.old) (over (network 2 v) w.now)) }
    ensures position { IfOk result (λ _. position cursor.new ≡ position cursor.old + 2) }
    ensures unchanged { OnErr result (IsUnchanged cursor.old cursor.new) }
    ensures same_reference { reference cursor.new ≡ reference cursor.old }
// The proof is hand-written, so any edit of the body breaks it: see CONTRIBUTING.md.
{
    over_part(cursor.put_u16(v), w)
}

/// Writes `v` as 3 bytes, and then `w` over them, as many bytes as both have.
pub(crate) fn put_u24_then_overwrite(cursor: &mut OctetsMut<'_>, v: u32, w: &[u8]) -> Result<()>
    ensures fits { IsOk result ↔ (3 ≤ length (rest cursor.old)) }
    ensures bytes { IfOk result (λ _. bytes cursor.new ≡
        splice (splice (bytes cursor.old) (position cursor.old) (network 3 v))
        (position cursor.old) (over (network 3 v) w.now)) }
    ensures position { IfOk result (λ _. position cursor.new ≡ position cursor.old + 3) }
    ensures unchanged { OnErr result (IsUnchanged cursor.old cursor.new) }
    ensures same_reference { reference cursor.new ≡ reference cursor.old }
// The proof is hand-written, so any edit of the body breaks it: see CONTRIBUTING.md.
{
    over_part(cursor.put_u24(v), w)
}

/// Writes `v` as 4 bytes, and then `w` over them, as many bytes as both have.
pub(crate) fn put_u32_then_overwrite(cursor: &mut OctetsMut<'_>, v: u32, w: &[u8]) -> Result<()>
    ensures fits { IsOk result ↔ (4 ≤ length (rest cursor.old)) }
    ensures bytes { IfOk result (λ _. bytes cursor.new ≡
        splice (splice (bytes cursor.old) (position cursor.old) (network 4 v))
        (position cursor.old) (over (network 4 v) w.now)) }
    ensures position { IfOk result (λ _. position cursor.new ≡ position cursor.old + 4) }
    ensures unchanged { OnErr result (IsUnchanged cursor.old cursor.new) }
    ensures same_reference { reference cursor.new ≡ reference cursor.old }
// The proof is hand-written, so any edit of the body breaks it: see CONTRIBUTING.md.
{
    over_part(cursor.put_u32(v), w)
}

/// Writes `v` as 8 bytes, and then `w` over them, as many bytes as both have.
pub(crate) fn put_u64_then_overwrite(cursor: &mut OctetsMut<'_>, v: u64, w: &[u8]) -> Result<()>
    ensures fits { IsOk result ↔ (8 ≤ length (rest cursor.old)) }
    ensures bytes { IfOk result (λ _. bytes cursor.new ≡
        splice (splice (bytes cursor.old) (position cursor.old) (network 8 v))
        (position cursor.old) (over (network 8 v) w.now)) }
    ensures position { IfOk result (λ _. position cursor.new ≡ position cursor.old + 8) }
    ensures unchanged { OnErr result (IsUnchanged cursor.old cursor.new) }
    ensures same_reference { reference cursor.new ≡ reference cursor.old }
// The proof is hand-written, so any edit of the body breaks it: see CONTRIBUTING.md.
{
    over_part(cursor.put_u64(v), w)
}

/// Writes the varint of `v`, and then `w` over it, as many bytes as both have.
pub(crate) fn put_varint_then_overwrite(cursor: &mut OctetsMut<'_>, v: u64, w: &[u8]) -> Result<()>
    requires { v < 2 ^ 62 }
    ensures fits { IsOk result ↔ (shortest v ≤ length (rest cursor.old)) }
    ensures bytes { IfOk result (λ _. bytes cursor.new ≡
        splice (splice (bytes cursor.old) (position cursor.old) (varint (shortest v) v))
        (position cursor.old) (over (varint (shortest v) v) w.now)) }
    ensures position { IfOk result (λ _. position cursor.new ≡ position cursor.old + shortest v) }
    ensures unchanged { OnErr result (IsUnchanged cursor.old cursor.new) }
    ensures same_reference { reference cursor.new ≡ reference cursor.old }
// The proof is hand-written, so any edit of the body breaks it: see CONTRIBUTING.md.
{
    over_part(cursor.put_varint(v), w)
}

/// Writes the varint of `v` in `len` bytes, and then `w` over it, as many bytes as both have.
pub(crate) fn put_wide_then_overwrite(
    cursor: &mut OctetsMut<'_>,
    v: u64,
    len: usize,
    w: &[u8],
) -> Result<()>
    requires width { IsWidth len }
    requires held { v < 2 ^ (8 * len - 2) }
    ensures fits { IsOk result ↔ (len ≤ length (rest cursor.old)) }
    ensures bytes { IfOk result (λ _. bytes cursor.new ≡
        splice (splice (bytes cursor.old) (position cursor.old) (varint len v))
        (position cursor.old) (over (varint len v) w.now)) }
    ensures position { IfOk result (λ _. position cursor.new ≡ position cursor.old + len) }
    ensures unchanged { OnErr result (IsUnchanged cursor.old cursor.new) }
    ensures same_reference { reference cursor.new ≡ reference cursor.old }
// The proof is hand-written, so any edit of the body breaks it: see CONTRIBUTING.md.
{
    over_part(cursor.put_varint_with_len(v, len), w)
}
