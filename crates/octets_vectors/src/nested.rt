//! Views of views. The loans of these callers are followed in hand-written proofs. The functions
//! are public for the edits that the checker must reject.
ghost use Rattle.std.specs.Prelude.{◌≡◌, ◌↔◌, ◌+◌, ◌≤◌, length, take, [], ◌∷◌, IsOk, IfOk, OnErr};
ghost use Rattle.octets.specs.Bytes.{splice};
ghost use Rattle.octets.specs.Cursor.{bytes, position, rest, IsUnchanged};
ghost use Rattle.octets.specs.Slices.{reference};
ghost use Rattle.octets_script.specs.Left.{Hands, LeftSame};

use octets::{OctetsMut, Result};

/// Returns whether something was lent, and leaves it as it is.
pub(crate) fn was_lent(lent: Result<&mut [u8]>) -> Result<()>
    ensures tells { IsOk result ↔ IsOk lent.entry }
    ensures left { LeftSame lent.entry lent.exit }
{
    match lent {
        Ok(_) => Ok(()),
        Err(short) => Err(short),
    }
}

/// Writes `b` into the view, and returns all bytes of the view.
fn put_first<'a>(lent: Result<OctetsMut<'a>>, b: u8) -> Result<&'a mut [u8]>
    requires { IfOk lent (λ v. 1 ≤ length (rest v)) }
    ensures { Hands lent.entry result (λ v. splice (bytes v) (position v) (b ∷ [])) }
{
    match lent {
        Ok(mut view) => {
            view.put_bytes(&[b])?;
            Ok(view.into_inner())
        }
        Err(short) => Err(short),
    }
}

/// Lends a view of the next `len` bytes, and writes `b` there.
pub fn put_in_view(cursor: &mut OctetsMut<'_>, len: usize, b: u8) -> Result<()>
    requires { 1 ≤ len }
    ensures fits { IsOk result ↔ (len ≤ length (rest cursor.old)) }
    ensures bytes { IfOk result (λ _. bytes cursor.new
        ≡ splice (bytes cursor.old) (position cursor.old)
        (splice (take len (rest cursor.old)) 0 (b ∷ []))) }
    ensures position { IfOk result (λ _. position cursor.new ≡ position cursor.old + len) }
    ensures unchanged { OnErr result (IsUnchanged cursor.old cursor.new) }
    ensures same_reference { reference cursor.new ≡ reference cursor.old }
// The proof is hand-written, so any edit of the body breaks it: see CONTRIBUTING.md.
{
    was_lent(put_first(cursor.get_bytes_mut(len), b))
}

/// Lends a view of the next `len` bytes of the view, writes `b` there, and returns all bytes of the
/// first view.
fn put_within<'a>(lent: Result<OctetsMut<'a>>, len: usize, b: u8) -> Result<&'a mut [u8]>
    requires some { 1 ≤ len }
    requires fits { IfOk lent (λ v. len ≤ length (rest v)) }
    ensures { Hands lent.entry result
        (λ v. splice (bytes v) (position v) (splice (take len (rest v)) 0 (b ∷ []))) }
{
    match lent {
        Ok(mut view) => {
            put_in_view(&mut view, len, b)?;
            Ok(view.into_inner())
        }
        Err(short) => Err(short),
    }
}

/// Lends a view of the next `outer` bytes, lends a view of the first `inner` bytes of that view,
/// and writes `b` there.
pub fn put_in_view_of_view(
    cursor: &mut OctetsMut<'_>,
    outer: usize,
    inner: usize,
    b: u8,
) -> Result<()>
    requires some { 1 ≤ inner }
    requires inside { inner ≤ outer }
    ensures fits { IsOk result ↔ (outer ≤ length (rest cursor.old)) }
    ensures bytes { IfOk result (λ _. bytes cursor.new
        ≡ splice (bytes cursor.old) (position cursor.old)
        (splice (take outer (rest cursor.old)) 0
        (splice (take inner (take outer (rest cursor.old))) 0 (b ∷ [])))) }
    ensures position { IfOk result (λ _. position cursor.new ≡ position cursor.old + outer) }
    ensures unchanged { OnErr result (IsUnchanged cursor.old cursor.new) }
    ensures same_reference { reference cursor.new ≡ reference cursor.old }
// The proof is hand-written, so any edit of the body breaks it: see CONTRIBUTING.md.
{
    was_lent(put_within(cursor.get_bytes_mut(outer), inner, b))
}
