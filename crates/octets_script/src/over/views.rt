//! Calls that lend a view, each of which writes bytes into it.
ghost use Rattle.std.specs.Prelude.{◌≡◌, ◌↔◌, ◌+◌, ◌≤◌, length, take, IsOk, IfOk, OnErr};
ghost use Rattle.octets.specs.Bytes.{over, splice};
ghost use Rattle.octets.specs.Cursor.{bytes, position, rest, IsUnchanged};
ghost use Rattle.octets.specs.Slices.{reference};
ghost use Rattle.octets.specs.Loans.{LendsBytes};
ghost use Rattle.std.specs.Borrow.{sem};
ghost use Rattle.octets_script.specs.Left.{Hands};

use crate::over::slices::over_part;
use octets::{OctetsMut, Result};

/// Returns all bytes of the view that was lent, so that `over_part` can write into views as it does
/// into slices.
fn slice_of<'a>(lent: Result<OctetsMut<'a>>) -> Result<&'a mut [u8]>
    ensures hands { Hands lent.entry result bytes }
{
    match lent {
        Ok(view) => Ok(view.into_inner()),
        Err(short) => Err(short),
    }
}

/// Returns the next `len` bytes, by the call that lends them as a view and moves the offset past
/// them.
fn next_slice<'a>(cursor: &'a mut OctetsMut<'_>, len: usize) -> Result<&'a mut [u8]>
    ensures* writes_back { sem 𝓛 (LendsBytes cursor.entry (bytes cursor.old)
        (position cursor.old) (position cursor.old + len) result) }
    ensures fits { IsOk result ↔ (len ≤ length (rest cursor.old)) }
    ensures shows { IfOk result (λ r. r.now ≡ take len (rest cursor.old)) }
// The proof is hand-written, so any edit of the body breaks it: see CONTRIBUTING.md.
{
    slice_of(cursor.get_bytes_mut(len))
}

/// Returns the next `len` bytes, by the call that lends them as a view and leaves the offset.
fn peeked_slice<'a>(cursor: &'a mut OctetsMut<'_>, len: usize) -> Result<&'a mut [u8]>
    ensures* writes_back { sem 𝓛 (LendsBytes cursor.entry (bytes cursor.old)
        (position cursor.old) (position cursor.old) result) }
    ensures fits { IsOk result ↔ (len ≤ length (rest cursor.old)) }
    ensures shows { IfOk result (λ r. r.now ≡ take len (rest cursor.old)) }
// The proof is hand-written, so any edit of the body breaks it: see CONTRIBUTING.md.
{
    slice_of(cursor.peek_bytes_mut(len))
}

/// Moves the offset past the next `len` bytes, and writes `w` over them, as many as both have.
pub(crate) fn over_next(cursor: &mut OctetsMut<'_>, len: usize, w: &[u8]) -> Result<()>
    ensures fits { IsOk result ↔ (len ≤ length (rest cursor.old)) }
    ensures bytes { IfOk result (λ _. bytes cursor.new ≡
        splice (bytes cursor.old) (position cursor.old)
        (over (take len (rest cursor.old)) w.now)) }
    ensures position { IfOk result (λ _. position cursor.new ≡ position cursor.old + len) }
    ensures unchanged { OnErr result (IsUnchanged cursor.old cursor.new) }
    ensures same_reference { reference cursor.new ≡ reference cursor.old }
// The proof is hand-written, so any edit of the body breaks it: see CONTRIBUTING.md.
{
    over_part(next_slice(cursor, len), w)
}

/// Writes `w` over the next `len` bytes, as many as both have.
pub(crate) fn over_peeked(cursor: &mut OctetsMut<'_>, len: usize, w: &[u8]) -> Result<()>
    ensures fits { IsOk result ↔ (len ≤ length (rest cursor.old)) }
    ensures bytes { IfOk result (λ _. bytes cursor.new ≡
        splice (bytes cursor.old) (position cursor.old)
        (over (take len (rest cursor.old)) w.now)) }
    ensures position { IfOk result (λ _. position cursor.new ≡ position cursor.old) }
    ensures unchanged { OnErr result (IsUnchanged cursor.old cursor.new) }
    ensures same_reference { reference cursor.new ≡ reference cursor.old }
// The proof is hand-written, so any edit of the body breaks it: see CONTRIBUTING.md.
{
    over_part(peeked_slice(cursor, len), w)
}
