//! Calls that move the offset.
ghost use Rattle.std.specs.Prelude.{◌≡◌, ◌↔◌, ◌≤◌, ◌++◌, length, take, drop, IsOk, OnOk, OnErr};

use crate::cursor::Cursor;
use crate::cursor::buffer::Bytes;
use crate::error::{BufferTooShortError, Result};

#[tactic(auto, unfolding(crate::specs::Does::Does))]
impl<B: Bytes> Cursor<B> {
    ghost use Rattle.octets.specs.Calls.{Call};
    ghost use Rattle.octets.specs.Does.{Does, done_answer};
    ghost use Rattle.octets.specs.Cursor.{position, rest, passed, Passes, IsUnchanged};

    /// Moves the offset forward by `len` bytes, which must remain.
    #[inline(always)]
    pub(crate) fn advance(&mut self, len: usize)
        requires { len ≤ length (rest self.old) }
        ensures { Passes self.old self.new len }
    {
        // The proof needs this call: its clause `small` bounds the sum below.
        let _whole = self.buf.len();
        self.off += len;
    }

    /// Moves the offset past a varint of `width` bytes, which must remain. Each width has a case of
    /// its own, so that the compiler adds a constant.
    #[inline(always)]
    pub(crate) fn advance_by_width(&mut self, width: usize)
        requires { width ≤ length (rest self.old) }
        ensures { Passes self.old self.new width }
    {
        match width {
            1 => self.advance(1),
            2 => self.advance(2),
            4 => self.advance(4),
            _ => self.advance(width),
        }
    }

    /// Moves the offset back by `len` bytes.
    ///
    /// It fails if the offset is less than `len`. Then the offset is unchanged.
    ///
    /// ```
    /// let mut cursor = Octets::with_slice(&[1, 2, 3]);
    /// cursor.skip(2)?;
    /// cursor.rewind(1)?;
    /// assert_eq!(cursor.off(), 1);
    /// assert_eq!(cursor.rewind(2), Err(BufferTooShortError));
    /// ```
    #[inline(always)]
    pub fn rewind(&mut self, len: usize) -> Result<()>
        ensures fits { IsOk result ↔ (len ≤ position self.old) }
        ensures goes_back { OnOk result (Passes self.new self.old len) }
        ensures refused { OnErr result (IsUnchanged self.old self.new) }

        // The following clauses follow from those above. They say which bytes are now before the
        // offset, and which remain.
        ensures stays_before { OnOk result
            (passed self.new ≡ take (position self.new) (passed self.old)) }
        ensures stands_again { OnOk result
            (rest self.new ≡ drop (position self.new) (passed self.old) ++ rest self.old) }
        ensures performs { Does (Call.Rewind len) self.old (done_answer result) self.new }
    {
        if self.off < len {
            return Err(BufferTooShortError);
        }
        self.off -= len;
        Ok(())
    }

    /// Advances the offset by `skip` bytes.
    ///
    /// It fails if fewer than `skip` bytes remain. Then the offset is unchanged.
    ///
    /// ```
    /// let mut cursor = Octets::with_slice(&[1, 2, 3]);
    /// cursor.skip(2)?;
    /// assert_eq!(cursor.off(), 2);
    /// assert_eq!(cursor.skip(2), Err(BufferTooShortError));
    /// ```
    #[inline(always)]
    #[tactic(auto, using(crate::proofs::CallerLemmas::passes_passed), unfolding(crate::specs::Does::Does))]
    pub fn skip(&mut self, skip: usize) -> Result<()>
        ensures fits { IsOk result ↔ (skip ≤ length (rest self.old)) }
        ensures passes { OnOk result (Passes self.old self.new skip) }
        ensures refused { OnErr result (IsUnchanged self.old self.new) }

        // This clause follows from `passes`. It says which bytes are now before the offset.
        ensures before { OnOk result
            (passed self.new ≡ passed self.old ++ take skip (rest self.old)) }
        ensures performs { Does (Call.Skip skip) self.old (done_answer result) self.new }
    {
        if skip > self.cap() {
            return Err(BufferTooShortError);
        }
        self.advance(skip);
        Ok(())
    }
}
