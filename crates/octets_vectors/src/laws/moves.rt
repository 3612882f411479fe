//! Laws of a move and the move back, and of equality. A function that gets a cursor exists once for
//! each kind of cursor, because no bound can be stated on a function of a `Cursor<B>`.
ghost use Rattle.std.specs.Prelude.{◌≡◌, ◌↔◌, ◌≤◌, length, take, IsOk, IfOk, IsTrue};
ghost use Rattle.std.specs.Fn.{FnOnceReturnsAt};
ghost use Rattle.octets.specs.Cursor.{bytes, position, rest, IsUnchanged, IsViewOf};
ghost use Rattle.octets_vectors.specs.Between.{HoldsPast, HoldsOfView};

use octets::{Bytes, Cursor, Octets, OctetsMut, Result};

/// Moves the offset past `len` bytes, calls `look` with the cursor, and moves back, which gives the
/// same cursor again. It returns what `look` returned. It fails exactly if fewer bytes remain: the
/// cursor can always go back over what it passed.
pub fn skip_and_rewind<'a, T: Drop, F: Drop + FnOnce(&Octets<'a>) -> T>(
    cursor: &mut Octets<'a>,
    len: usize,
    look: F,
) -> Result<T>
    requires { F.IsAlwaysCallable look }
    ensures fits { IsOk result ↔ (len ≤ length (rest cursor.old)) }
    ensures between { IfOk result (λ seen.
        HoldsPast cursor.old len (λ past. FnOnceReturnsAt F.FnOnce look past seen)) }
    ensures gives_back { IsUnchanged cursor.old cursor.new }
{
    cursor.skip(len)?;
    let seen = look(cursor);
    cursor.rewind(len)?;
    Ok(seen)
}

/// Does the same with a cursor for writing.
pub fn skip_and_rewind_mut<'a, T: Drop, F: Drop + FnOnce(&OctetsMut<'a>) -> T>(
    cursor: &mut OctetsMut<'a>,
    len: usize,
    look: F,
) -> Result<T>
    requires { F.IsAlwaysCallable look }
    ensures fits { IsOk result ↔ (len ≤ length (rest cursor.old)) }
    ensures between { IfOk result (λ seen.
        HoldsPast cursor.old len (λ past. FnOnceReturnsAt F.FnOnce look past seen)) }
    ensures gives_back { IsUnchanged cursor.old cursor.new }
{
    cursor.skip(len)?;
    let looked = look(cursor);
    cursor.rewind(len)?;
    Ok(looked)
}

/// Reads the next `len` bytes and moves back, which gives the same cursor again. It returns the
/// view, which outlives the loan of the cursor. It fails exactly if fewer bytes remain.
pub fn get_bytes_and_rewind<'a>(cursor: &mut Octets<'a>, len: usize) -> Result<Octets<'a>>
    ensures fits { IsOk result ↔ (len ≤ length (rest cursor.old)) }
    ensures view { IfOk result (IsViewOf (take len (rest cursor.old))) }
    ensures gives_back { IsUnchanged cursor.old cursor.new }
{
    let run = cursor.get_bytes(len)?;
    cursor.rewind(len)?;
    Ok(run)
}

/// Does the same with a cursor for writing. Its view borrows the cursor, so `look` is called with
/// the view before the cursor moves back. It returns what `look` returned.
pub fn get_bytes_and_rewind_mut<T: Drop, F: Drop + FnOnce(&Octets<'_>) -> T>(
    cursor: &mut OctetsMut<'_>,
    len: usize,
    look: F,
) -> Result<T>
    requires { F.IsAlwaysCallable look }
    ensures fits { IsOk result ↔ (len ≤ length (rest cursor.old)) }
    ensures shown { IfOk result (λ seen.
        HoldsOfView (take len (rest cursor.old))
        (λ view. FnOnceReturnsAt F.FnOnce look view seen)) }
    ensures gives_back { IsUnchanged cursor.old cursor.new }
{
    let view = cursor.get_bytes(len)?;
    let seen = look(&view);
    cursor.rewind(len)?;
    Ok(seen)
}

/// Returns whether two cursors are equal, which they are if their whole buffers and their offsets
/// are.
pub fn are_equal<B: Bytes>(left: &Cursor<B>, right: &Cursor<B>) -> bool
    ensures { IsTrue result
        ↔ ((bytes left.now ≡ bytes right.now) × (position left.now ≡ position right.now)) }
{
    left == right
}
