//! A message that is built by several calls of a struct's methods.
//!
//! A struct may hold an `OctetsMut`. Its methods write through the field, and their clauses
//! name the field, as `self.old.cursor`. They need no attribute. We found no proof of a clause
//! about the slice, in a function that makes a builder over a slice and returns when the
//! builder has written. Such a clause is proved if the function makes a cursor over the slice
//! and passes the cursor to a writer.
ghost use Rattle.std.specs.Prelude.{◌≡◌, ◌↔◌, ◌+◌, ◌≤◌, ◌++◌, length, IsOk, OnOk};
ghost use Rattle.octets.specs.Bytes.{network};
ghost use Rattle.octets.specs.Cursor.{position, rest, Writes};

use octets::{OctetsMut, Result};

/// Builds a message in a buffer.
#[derive(Debug, Drop)]
pub struct Builder<'a> {
    cursor: OctetsMut<'a>,
}

impl<'a> Builder<'a> {
    /// A builder that writes from the cursor's offset on.
    pub fn of(cursor: OctetsMut<'a>) -> Builder<'a>
        ensures { result.cursor ≡ cursor.entry }
    {
        Builder { cursor }
    }

    /// Writes a kind and a number.
    pub fn put_pair(&mut self, kind: u8, n: u16) -> Result<()>
        ensures fits { IsOk result ↔ (3 ≤ length (rest self.old.cursor)) }
        ensures writes { OnOk result (Writes self.old.cursor self.new.cursor (network 1 kind ++ network 2 n)) }
        ensures past { OnOk result (position self.new.cursor ≡ position self.old.cursor + 3) }
    {
        self.cursor.write_u8(kind)?;
        self.cursor.write_u16(n)
    }

    /// Writes two pairs.
    pub fn put_two(&mut self, a: u16, b: u16) -> Result<()>
        ensures fits { IsOk result ↔ (6 ≤ length (rest self.old.cursor)) }
        ensures writes { OnOk result (Writes self.old.cursor self.new.cursor
            (network 1 1 ++ network 2 a ++ network 1 2 ++ network 2 b)) }
    {
        self.put_pair(1, a)?;
        self.put_pair(2, b)
    }
}
