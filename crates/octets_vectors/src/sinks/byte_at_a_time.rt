//! A sink that isn't whole.
ghost use Rattle.std.specs.Prelude.{◌≡◌, ◌≤◌, length};

use octets::{BufferTooShortError, OctetsWriter};

/// A sink that writes into the caller's buffer, one byte after the other. Of a piece that doesn't
/// fit, it writes the prefix that fits.
///
/// Its `room` is the number of bytes that remain, and it isn't whole.
#[derive(Debug, Drop)]
pub struct ByteAtATimeSink<'a> {
    buf: &'a mut [u8],
    off: usize,
    ghost within: { off ≤ length buf.now },
}

impl<'a> ByteAtATimeSink<'a> {
    ghost use Rattle.octets_vectors.specs.Sinks.{buffer, count, reference};

    /// Returns a sink that writes at the start of `buf`.
    pub fn new(buf: &'a mut [u8]) -> ByteAtATimeSink<'a>
        ensures bytes { buffer result ≡ buf.old }
        ensures start { count result ≡ 0 }
        ensures same_reference { reference result ≡ buf.entry.ghost_name }
    {
        ByteAtATimeSink { buf, off: 0 }
    }
}

impl OctetsWriter for ByteAtATimeSink<'_> {
    ghost use Rattle.std.specs.Prelude.{◌≡◌, ◌-◌, ◌≤◌, ◌↔◌, ◌++◌, Some, false, length, take, drop};
    ghost use Rattle.std.specs.Prelude.{IsTrue, IsOk, OnOk, OnErr};
    ghost use Rattle.octets.specs.Sinks.{AppendsFront, capacity_of};
    ghost use Rattle.octets_vectors.specs.Sinks.{buffer, count, front, room, reference};

    type Error = BufferTooShortError;

    ghost written = { front };

    ghost room = { λ s. Some (room s) };

    ghost whole = { λ _. false };

    /// Writes the prefix of the piece that fits, and fails if that isn't the whole piece.
    fn put_bytes(&mut self, v: &[u8]) -> Result<(), BufferTooShortError>
        // All clauses of the trait's method. The clauses of an impl replace those of the trait.
        ensures ok { OnOk result (front self.new ≡ front self.old ++ v.now) }
        ensures err { OnErr result (AppendsFront (front self.old) (front self.new) v.now) }
        ensures nothing_where_whole { IsTrue false
            → OnErr result (front self.new ≡ front self.old) }
        ensures fits { IsOk result ↔ (length v.now ≤ room self.old) }
        ensures capacity { capacity_of (front self.new) (Some (room self.new))
            ≡ capacity_of (front self.old) (Some (room self.old)) }
        ensures same_kind { false ≡ false }

        // What this sink has written.
        ensures kept { front self.new ≡ front self.old ++ take (room self.old) v.now }
        ensures beyond { drop (count self.new) (buffer self.new)
            ≡ drop (count self.new) (buffer self.old) }
        ensures same_reference { reference self.new ≡ reference self.old }
    {
        for byte in v {
            if self.off == self.buf.len() {
                return Err(BufferTooShortError);
            }
            self.buf[self.off] = *byte;
            self.off += 1;
        }
        Ok(())
    }
}
