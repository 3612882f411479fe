//! Bytes that are lent for writing, and filled by another function.
//!
//! The loan is filled in a function of its own, because the checker finds no proof of one function
//! that does both. `Spliced old new w` says that the bytes w were written at the old offset, and that
//! the offset is now after them. All other bytes are unchanged. A loan that was filled is a write like
//! those of `write_..`, so a function can make it together with others. Its clause `Writes` needs a
//! hand-written proof of one line.
ghost use Rattle.std.specs.Prelude.{◌≡◌, ◌≤◌, ◌++◌, length};
ghost use Rattle.octets.specs.Bytes.{network};
ghost use Rattle.octets.specs.Cursor.{rest, Writes};
ghost use Rattle.octets.specs.Laws.{Spliced};

use octets::OctetsMut;

/// Writes a kind and a number over the slice, by a cursor over it.
fn write_fields(part: &mut [u8], kind: u8, number: u16)
    requires { length part.old ≡ 3 }
    ensures { part.new ≡ network 1 kind ++ network 2 number }
{
    let mut view = OctetsMut::with_slice(part);
    // Ok, for both fit.
    let _ = view.write_u8(kind);
    let _ = view.write_u16(number);
}

/// Lends three bytes, and has them filled.
#[tactic(auto, using(octets::proofs::CallerLemmas::lent))]
pub fn put_fields(cursor: &mut OctetsMut<'_>, kind: u8, number: u16)
    requires { 3 ≤ length (rest cursor.old) }
    ensures spliced { Spliced cursor.old cursor.new (network 1 kind ++ network 2 number) }
{
    write_fields(cursor.lend(3), kind, number);
}

/// Does the same, stated as a write.
pub fn write_by_loan(cursor: &mut OctetsMut<'_>, kind: u8, number: u16)
    requires { 3 ≤ length (rest cursor.old) }
    ensures writes { Writes cursor.old cursor.new (network 1 kind ++ network 2 number) }
{
    put_fields(cursor, kind, number);
}
