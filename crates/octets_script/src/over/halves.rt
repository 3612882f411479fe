//! The call that lends two views, and writes bytes into both.
ghost use Rattle.std.specs.Prelude.{◌≡◌, ◌↔◌, ◌≤◌, ◌++◌, length, take, drop, IsOk, IfOk, OnErr};
ghost use Rattle.octets.specs.Bytes.{over, splice};
ghost use Rattle.octets.specs.Cursor.{bytes, position, rest, IsUnchanged};
ghost use Rattle.octets.specs.Slices.{reference};
ghost use Rattle.octets_script.specs.Left.{HandsBoth};

use crate::over::slices::write_over;
use octets::{BufferTooShortError, OctetsMut, Result};

/// Writes into the remaining bytes of each half, and returns all bytes of both. By the slices that
/// it returns, the caller's proof knows what both halves contain when the loans end.
fn over_both<'a>(
    lent: Result<(OctetsMut<'a>, OctetsMut<'a>)>,
    left: &[u8],
    right: &[u8],
) -> Result<(&'a mut [u8], &'a mut [u8])>
    ensures { HandsBoth lent.entry result
        (λ v. splice (bytes v) (position v) (over (rest v) left.now))
        (λ v. splice (bytes v) (position v) (over (rest v) right.now)) }
{
    match lent {
        Ok((mut before, mut after)) => {
            write_over(before.as_mut(), left);
            write_over(after.as_mut(), right);
            Ok((before.into_inner(), after.into_inner()))
        }
        Err(short) => Err(short),
    }
}

/// Splits the buffer at position `off`. It writes `left` over the first bytes before that position,
/// and `right` over the first bytes from it on, as many as both have.
pub(crate) fn over_halves(
    cursor: &mut OctetsMut<'_>,
    off: usize,
    left: &[u8],
    right: &[u8],
) -> Result<()>
    ensures fits { IsOk result ↔ (off ≤ length (bytes cursor.old)) }
    ensures bytes { IfOk result (λ _. bytes cursor.new ≡
        over (take off (bytes cursor.old)) left.now
        ++ over (drop off (bytes cursor.old)) right.now) }
    ensures position { position cursor.new ≡ position cursor.old }
    ensures unchanged { OnErr result (IsUnchanged cursor.old cursor.new) }
    ensures same_reference { reference cursor.new ≡ reference cursor.old }
// The proof is hand-written, so any edit of the body breaks it: see CONTRIBUTING.md.
{
    match over_both(cursor.split_at(off), left, right) {
        Ok(_) => Ok(()),
        Err(_) => Err(BufferTooShortError),
    }
}
