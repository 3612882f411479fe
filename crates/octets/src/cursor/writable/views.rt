//! Calls that return a range of the bytes as a view for reading. Each view borrows the cursor for
//! as long as the view lives.
ghost use Rattle.std.specs.Prelude.{◌↔◌, ◌+◌, ◌≤◌, ◌<◌, ℕ, length, take, IsOk, IfOk, OnErr};
ghost use Rattle.std.specs.Borrow.{sem};
ghost use Rattle.octets.specs.Bytes.{number, part};
ghost use Rattle.octets.specs.Varints.{BeginsVarint, HoldsPrefixed, LacksPrefixed};
ghost use Rattle.octets.specs.Octets.{ShowsPrefixed};

use crate::cursor::Cursor;
use crate::cursor::buffer::Buffer;
use crate::cursor::read_only::Octets;
use crate::error::{BufferTooShortError, Result};

#[tactic(auto, unfolding(crate::specs::Does::Does))]
impl<B: Buffer> Cursor<B> {
    ghost use Rattle.octets.specs.Calls.{Call};
    ghost use Rattle.octets.specs.Does.{DoesWhere, view_answer};
    ghost use Rattle.octets.specs.Cursor.{rest, IsUnchanged, IsViewOf};
    ghost use Rattle.octets.specs.Ends.{EndsPast, EndsPastPrefix, EndsPastVarint, EndsUnchanged};
    ghost use Rattle.octets.specs.Ends.{IsPast, IsPastPrefix, IsPastVarint};

    /// Returns a cursor over the next `len` bytes, and leaves the offset unchanged.
    ///
    /// It fails if fewer than `len` bytes remain.
    ///
    /// ```
    /// let mut bytes = [1, 2, 3];
    /// let mut cursor = OctetsMut::with_slice(&mut bytes);
    /// let mut view = cursor.peek_bytes(2)?;
    /// assert_eq!(view.get_u16()?, 0x0102);
    /// assert_eq!(cursor.off(), 0);
    /// ```
    #[inline(always)]
    pub fn peek_bytes(&mut self, len: usize) -> Result<Octets<'_>>
        ensures* leaves { sem 𝓛 (EndsUnchanged B.row B.Bytes self.entry) }
        ensures fits { IsOk result ↔ (len ≤ length (rest self.old)) }
        ensures view { IfOk result (IsViewOf (take len (rest self.old))) }
        ensures performs { DoesWhere (IsUnchanged self.old)
            (Call.PeekBytes len) self.old (view_answer result) }
    {
        if len > self.cap() {
            return Err(BufferTooShortError);
        }
        Ok(Octets::with_slice(&self.as_ref()[..len]))
    }

    /// Returns a cursor over the next `len` bytes, and advances the offset past them.
    ///
    /// It fails if fewer than `len` bytes remain. Then the offset is unchanged.
    ///
    /// ```
    /// let mut bytes = [1, 2, 3];
    /// let mut cursor = OctetsMut::with_slice(&mut bytes);
    /// let mut view = cursor.get_bytes(2)?;
    /// assert_eq!(view.get_u16()?, 0x0102);
    /// assert_eq!(cursor.off(), 2);
    /// assert_eq!(cursor.get_bytes(2), Err(BufferTooShortError));
    /// ```
    #[inline(always)]
    pub fn get_bytes(&mut self, len: usize) -> Result<Octets<'_>>
        ensures* leaves { sem 𝓛 (EndsPast B.row B.Bytes self.entry result len) }
        ensures fits { IsOk result ↔ (len ≤ length (rest self.old)) }
        ensures view { IfOk result (IsViewOf (take len (rest self.old))) }
        ensures performs { DoesWhere (IsPast self.old result len)
            (Call.GetBytes len) self.old (view_answer result) }
    {
        if len > self.cap() {
            return Err(BufferTooShortError);
        }
        let from = self.off;
        self.advance(len);
        Ok(Octets::with_slice(&self.buf.as_slice()[from..from + len]))
    }

    /// Reads a length of one byte, and returns a cursor over that many bytes after it. It advances
    /// the offset past both.
    ///
    /// It fails if no byte remains; then the offset is unchanged. It also fails if fewer bytes
    /// follow the length than the length says; then the offset is after the length.
    ///
    /// ```
    /// let mut bytes = [2, 97, 98, 0];
    /// let mut cursor = OctetsMut::with_slice(&mut bytes);
    /// let run = cursor.get_bytes_with_u8_length()?;
    /// assert_eq!(run.buf(), b"ab".as_slice());
    /// assert_eq!(cursor.off(), 3);
    /// ```
    #[inline(always)]
    pub fn get_bytes_with_u8_length(&mut self) -> Result<Octets<'_>>
        ensures* leaves { sem 𝓛 (EndsPastPrefix B.row B.Bytes self.entry result 1) }
        ensures fits { IsOk result
            ↔ (1 + number (take 1 (rest self.old)) ≤ length (rest self.old)) }
        ensures view { IfOk result
            (IsViewOf (part (rest self.old) 1 (number (take 1 (rest self.old))))) }
        ensures performs { DoesWhere (IsPastPrefix self.old result 1)
            Call.GetBytesU8 self.old (view_answer result) }
    {
        let len = self.get_u8()?;
        self.get_bytes(usize::from(len))
    }

    /// Reads a length of two bytes, and returns a cursor over that many bytes after it. It advances
    /// the offset past both.
    ///
    /// It fails if fewer than two bytes remain; then the offset is unchanged. It also fails if
    /// fewer bytes follow the length than the length says; then the offset is after the length.
    ///
    /// ```
    /// let mut bytes = [0, 2, 97, 98, 0];
    /// let mut cursor = OctetsMut::with_slice(&mut bytes);
    /// let run = cursor.get_bytes_with_u16_length()?;
    /// assert_eq!(run.buf(), b"ab".as_slice());
    /// assert_eq!(cursor.off(), 4);
    /// ```
    #[inline(always)]
    pub fn get_bytes_with_u16_length(&mut self) -> Result<Octets<'_>>
        ensures* leaves { sem 𝓛 (EndsPastPrefix B.row B.Bytes self.entry result 2) }
        ensures fits { IsOk result
            ↔ (2 + number (take 2 (rest self.old)) ≤ length (rest self.old)) }
        ensures view { IfOk result
            (IsViewOf (part (rest self.old) 2 (number (take 2 (rest self.old))))) }
        ensures performs { DoesWhere (IsPastPrefix self.old result 2)
            Call.GetBytesU16 self.old (view_answer result) }
    {
        let len = self.get_u16()?;
        self.get_bytes(usize::from(len))
    }

    /// Reads a length that is a varint, and returns a cursor over that many bytes after it. It
    /// advances the offset past both.
    ///
    /// It fails if no complete varint remains; then the offset is unchanged. It also fails if fewer
    /// bytes follow the length than the length says; then the offset is after the length.
    ///
    /// ```
    /// let mut bytes = [0x40, 2, 97, 98, 0];
    /// let mut cursor = OctetsMut::with_slice(&mut bytes);
    /// let run = cursor.get_bytes_with_varint_length()?;
    /// assert_eq!(run.buf(), b"ab".as_slice());
    /// assert_eq!(cursor.off(), 4);
    /// ```
    #[inline(always)]
    pub fn get_bytes_with_varint_length(&mut self) -> Result<Octets<'_>>
        ensures* leaves { sem 𝓛 (EndsPastVarint B.row B.Bytes self.entry result) }
        ensures fits { IsOk result ↔ HoldsPrefixed (rest self.old) }
        ensures one { (w n : ℕ) → BeginsVarint (rest self.old) w n
            → (IsOk result ↔ (w + n ≤ length (rest self.old)))
            × IfOk result (IsViewOf (part (rest self.old) w n)) }
        ensures view { IfOk result (ShowsPrefixed (rest self.old)) }
        ensures refused { OnErr result (LacksPrefixed (rest self.old)) }
        ensures performs { DoesWhere (IsPastVarint self.old result)
            Call.GetBytesVarint self.old (view_answer result) }
    {
        let len = self.get_varint()?;
        if len > self.cap() as u64 {
            return Err(BufferTooShortError);
        }
        self.get_bytes(len as usize)
    }
}
