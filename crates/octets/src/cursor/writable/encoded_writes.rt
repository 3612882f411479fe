//! The Huffman encode into the cursor's buffer (RFC 7541, section 5.2).
ghost use Rattle.std.specs.Prelude.{◌≡◌, ◌≤◌, ◌↔◌, true, length, take, IsOk, OnOk, OnErr};
ghost use Rattle.octets.specs.Encodes.{cased, text_of};
ghost use Rattle.octets.specs.Bytes.{AreBytes, splice};
ghost use Rattle.octets.specs.Pieces.{pieces, kept_length};

use crate::cursor::Cursor;
use crate::cursor::buffer::Buffer;
use crate::error::BufferTooShortError;
use crate::huffman::encode::put_words;

impl<B: Buffer> Cursor<B> {
    ghost use Rattle.octets.specs.Does.{Does, done_answer, put_text};
    ghost use Rattle.octets.specs.Cursor.{bytes, holder, position, rest, Keeps, Writes};

    /// Writes the Huffman encoding of `v` (RFC 7541, section 5.2), or of `v` in lower case if
    /// `LOWER_CASE` is true, and advances the offset past it.
    ///
    /// It writes the encoding in pieces of eight bytes, then one piece of four bytes if at least
    /// four are left, then single bytes. It fails if fewer bytes remain than the encoding has. Then
    /// the pieces that fit before the first one that doesn't are written, and the offset is after
    /// them. To avoid that, call [`huffman_encoding_len`](crate::huffman_encoding_len) first, or
    /// write to a buffer that you can discard.
    ///
    /// ```
    /// let mut bytes = [0, 0, 0];
    /// let mut cursor = OctetsMut::with_slice(&mut bytes);
    /// cursor.put_huffman_encoded::<true>(b"AA")?;
    /// assert_eq!(cursor.buf(), [0x18, 0xff, 0].as_slice());
    /// ```
    #[inline(always)]
    #[tactic(auto, using(crate::proofs::Cursors::texts))]
    pub fn put_huffman_encoded<const LOWER_CASE: bool>(
        &mut self,
        v: &[u8],
    ) -> Result<(), BufferTooShortError>
        ensures fits { IsOk result
            ↔ (length (text_of LOWER_CASE v.now) ≤ length (rest self.old)) }
        ensures ok { OnOk result (Writes self.old self.new (text_of LOWER_CASE v.now)) }
        ensures err { OnErr result (Writes self.old self.new
            (take (kept_length (length (rest self.old)) (cased LOWER_CASE v.now))
            (text_of LOWER_CASE v.now))) }

        // The following clauses follow from those above. They serve a caller that knows the whole
        // buffer, or that gets several errors one after the other.
        ensures bytes { OnOk result (bytes self.new
            ≡ splice (bytes self.old) (position self.old) (text_of LOWER_CASE v.now)) }
        ensures same_holder { holder self.new ≡ holder self.old }
        ensures keeps { Keeps self.old self.new }

        // Each element of `v` is below 256. A caller that reads the encoding back needs to know
        // that.
        ensures are_bytes { AreBytes v.now }
        ensures performs { Does (put_text LOWER_CASE v.now) self.old (done_answer result) self.new }
    {
        put_words(self, v, LOWER_CASE)
    }
}
