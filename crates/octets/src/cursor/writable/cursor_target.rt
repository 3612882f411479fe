//! A cursor as the target of an encode. Unlike for a sink, a proof also knows the bytes after the
//! offset.
ghost use Rattle.std.specs.Prelude.{◌≡◌, ◌≤◌, ◌++◌, Some, true, length, take, drop, IfSome};
ghost use Rattle.std.specs.Int.{to_be_bytes, w64};

use crate::cursor::Cursor;
use crate::cursor::buffer::Buffer;
use crate::error::BufferTooShortError;
use crate::huffman::encode::front::put_front;
use crate::huffman::encode::target::Target;

impl<B: Buffer> Target for Cursor<B> {
    type Error = BufferTooShortError;

    ghost use Rattle.std.specs.Prelude.{refl};
    ghost use Rattle.octets.specs.Cursor.{rest, Writes};
    ghost use Rattle.octets.specs.Writing.{writes_nothing, writes_more, room_falls};

    ghost room = { λ c. Some (length (rest c)) };

    ghost whole = { λ _. true };

    ghost name = { λ _. 0 };

    ghost appends = { Writes };

    ghost law = { record {
      none = writes_nothing;
      more = writes_more;
      falls = room_falls;
      kind = λ a b w h. refl;
    } };

    ghost same_name = { λ a b w h. refl };

    #[tactic(auto, using(crate::proofs::lemmas::Writes::writes_unchanged))]
    fn put_piece(&mut self, piece: &[u8]) -> Result<(), BufferTooShortError> {
        self.put_bytes(piece)
    }

    /// Writes exactly `len` bytes, if they fit, and reads none of the buffer.
    #[tactic(auto, using(crate::proofs::lemmas::Splices::spliced))]
    fn put_at_once(&mut self, word: u64, len: usize) -> bool {
        // The offset is never past the end, but rustc can't know that. After this comparison it
        // leaves out the bounds checks below.
        if self.off > self.buf.len() || self.cap() < len {
            return false;
        }
        let from = self.off;
        put_front(self.buf.part_mut(from, len), word);
        self.off = from + len;
        true
    }
}
