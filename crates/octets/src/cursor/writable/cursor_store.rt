//! A cursor as the store of a decode: the decoded bytes overwrite the bytes of the cursor's buffer.
ghost use Rattle.std.specs.Prelude.{length};

use crate::cursor::Cursor;
use crate::cursor::buffer::Buffer;
use crate::huffman::decode::store::Store;

impl<B: Buffer> Store for Cursor<B> {
    ghost use Rattle.octets.specs.Cursor.{bytes, passed, Writes};
    ghost use Rattle.octets.specs.Writing.{writes_nothing, writes_more, same_length};

    ghost held = { passed };

    ghost room = { λ c. length (bytes c) };

    ghost adds = { Writes };

    ghost adds_nothing = { writes_nothing };

    ghost adds_more = { writes_more };

    ghost held_after = { λ a b w h. h.before };

    ghost room_after = { same_length };

    fn count(&self) -> usize {
        self.off()
    }

    fn put(&mut self, byte: u8) {
        self.put_fitting(&[byte]);
    }

    #[inline(always)]
    fn put_word(&mut self, word: u64, count: usize) {
        self.put_fitting(&word.to_le_bytes()[..count]);
    }

    #[inline(always)]
    fn put_first(&mut self, bytes: &[u8; 32], count: usize) {
        self.put_fitting(&bytes[..count]);
    }
}
