//! A cursor as a sink.
ghost use Rattle.std.specs.Prelude.{◌≡◌, ◌≤◌, ◌↔◌, ◌++◌, Some};
ghost use Rattle.std.specs.Prelude.{true, length, IsOk, OnOk, OnErr};
ghost use Rattle.octets.specs.Sinks.{AppendsFront, capacity_of};
ghost use Rattle.octets.specs.Bytes.{splice};
ghost use Rattle.octets.specs.Cursor.{bytes, holder, passed, position};
ghost use Rattle.octets.specs.Cursor.{rest, IsUnchanged, Keeps, Writes};

use crate::cursor::Cursor;
use crate::cursor::buffer::Buffer;
use crate::error::BufferTooShortError;
use crate::writer::OctetsWriter;

/// For a cursor, the bytes before the offset are those that were written, and `room` is `cap()`.
impl<B: Buffer> OctetsWriter for Cursor<B> {
    type Error = BufferTooShortError;

    ghost written = { passed };

    ghost room = { λ c. Some (length (rest c)) };

    ghost whole = { λ _. true };

    fn put_bytes(&mut self, v: &[u8]) -> std::result::Result<(), BufferTooShortError>
        // The clauses of the trait, for a sink that is whole.
        ensures ok { OnOk result (passed self.new ≡ passed self.old ++ v.now) }
        ensures err { OnErr result (AppendsFront (passed self.old) (passed self.new) v.now) }
        ensures nothing_where_whole { OnErr result (passed self.new ≡ passed self.old) }
        ensures fits { IsOk result ↔ (length v.now ≤ length (rest self.old)) }
        ensures capacity { capacity_of (passed self.new) (Some (length (rest self.new)))
            ≡ capacity_of (passed self.old) (Some (length (rest self.old))) }

        // What the cursor's own `put_bytes` ensures, and that the cursor still has the same buffer.
        ensures writes { OnOk result (Writes self.old self.new v.now) }
        ensures bytes { OnOk result
            (bytes self.new ≡ splice (bytes self.old) (position self.old) v.now) }
        ensures unchanged { OnErr result (IsUnchanged self.old self.new) }
        ensures keeps { Keeps self.old self.new }
        ensures same_holder { holder self.new ≡ holder self.old }
    {
        Cursor::put_bytes(self, v)
    }
}
