//! Calls that return a range of the bytes as a view or as a slice, and copy nothing.
ghost use Rattle.std.specs.Prelude.{◌≡◌, ◌↔◌, ◌+◌, ◌-◌, ◌≤◌, ◌<◌, ◌^◌, ◌++◌, ℕ};
ghost use Rattle.std.specs.Prelude.{length, take, drop, IsOk, IfOk, OnOk, OnErr};
ghost use Rattle.octets.specs.Bytes.{number, part, prefixed};
ghost use Rattle.octets.specs.Varints.{BeginsVarint, HoldsPrefixed, varint};

use crate::cursor::read_only::Octets;
use crate::error::{BufferTooShortError, Result};

#[tactic(auto, unfolding(crate::specs::Does::Does))]
impl<'a> Octets<'a> {
    ghost use Rattle.std.specs.Prelude.{[]};
    ghost use Rattle.octets.specs.Calls.{Call};
    ghost use Rattle.octets.specs.Does.{Does, slice_answer, view_answer};
    ghost use Rattle.octets.specs.Cursor.{bytes, remaining, rest, Passes, IsUnchanged};
    ghost use Rattle.octets.specs.Cursor.{IsViewOf, Reads};
    ghost use Rattle.octets.specs.Octets.{ReadsPrefixed, RefusesPrefixed};

    /// Returns a cursor over the next `len` bytes, and advances the offset past them.
    ///
    /// It fails if fewer than `len` bytes remain. Then the offset is unchanged.
    ///
    /// ```
    /// let mut cursor = Octets::with_slice(&[1, 2, 3]);
    /// let mut view = cursor.get_bytes(2)?;
    /// assert_eq!(view.get_u16()?, 0x0102);
    /// assert_eq!(cursor.off(), 2);
    /// assert_eq!(cursor.get_bytes(2), Err(BufferTooShortError));
    /// ```
    #[inline(always)]
    #[tactic(auto, unfolding(crate::specs::Cursor::Reads, crate::specs::Does::Does))]
    pub fn get_bytes(&mut self, len: usize) -> Result<Octets<'a>>
        ensures fits { IsOk result ↔ (len ≤ length (rest self.old)) }
        ensures view { IfOk result (IsViewOf (take len (rest self.old))) }
        ensures spelled { IfOk result (λ v. Reads self.old self.new (bytes v)) }
        ensures passes { OnOk result (Passes self.old self.new len) }
        ensures refused { OnErr result (IsUnchanged self.old self.new) }
        ensures performs { Does (Call.GetBytes len) self.old (view_answer result) self.new }
    {
        let view = self.peek_bytes(len)?;
        self.advance(len);
        Ok(view)
    }

    /// Returns a cursor over the next `len` bytes, and leaves the offset unchanged.
    ///
    /// It fails if fewer than `len` bytes remain.
    ///
    /// ```
    /// let cursor = Octets::with_slice(&[1, 2, 3]);
    /// let mut view = cursor.peek_bytes(2)?;
    /// assert_eq!(view.get_u16()?, 0x0102);
    /// assert_eq!(cursor.off(), 0);
    /// ```
    #[inline(always)]
    pub fn peek_bytes(&self, len: usize) -> Result<Octets<'a>>
        ensures fits { IsOk result ↔ (len ≤ length (rest self.now)) }
        ensures view { IfOk result (IsViewOf (take len (rest self.now))) }
        ensures performs { Does (Call.PeekBytes len) self.now (view_answer result) self.now }
    {
        Ok(Octets::with_slice(self.slice(len)?))
    }

    /// Returns the next `len` bytes, and leaves the offset unchanged.
    ///
    /// It fails if fewer than `len` bytes remain.
    ///
    /// ```
    /// let cursor = Octets::with_slice(&[1, 2, 3]);
    /// assert_eq!(cursor.slice(2)?, [1, 2].as_slice());
    /// assert_eq!(cursor.off(), 0);
    /// ```
    #[inline(always)]
    #[tactic(auto, using(crate::proofs::lemmas::Performs::nothing_over), unfolding(crate::specs::Does::Does))]
    pub fn slice(&self, len: usize) -> Result<&'a [u8]>
        ensures fits { IsOk result ↔ (len ≤ length (rest self.now)) }
        ensures shows { IfOk result (λ s. s.now ≡ take len (rest self.now)) }
        ensures performs { Does (Call.Slice len []) self.now (slice_answer result) self.now }
    {
        if len > self.cap() {
            return Err(BufferTooShortError);
        }
        let all = self.buf;
        Ok(&all[self.off..self.off + len])
    }

    /// Returns the last `len` bytes of the buffer, and leaves the offset unchanged.
    ///
    /// It fails if fewer than `len` bytes remain from the offset on.
    ///
    /// ```
    /// let cursor = Octets::with_slice(&[1, 2, 3]);
    /// assert_eq!(cursor.slice_last(2)?, [2, 3].as_slice());
    /// ```
    #[inline(always)]
    pub fn slice_last(&self, len: usize) -> Result<&'a [u8]>
        ensures fits { IsOk result ↔ (len ≤ length (rest self.now)) }
        ensures shows { IfOk result
            (λ s. s.now ≡ drop (length (bytes self.now) - len) (bytes self.now)) }
        ensures performs { Does (Call.SliceLast len []) self.now (slice_answer result) self.now }
    {
        if self.cap() < len {
            return Err(BufferTooShortError);
        }
        let all = self.buf;
        Ok(&all[all.len() - len..])
    }

    /// Reads a length of one byte, and returns a cursor over that many bytes after it. It advances
    /// the offset past both.
    ///
    /// It fails if no byte remains; then the offset is unchanged. It also fails if fewer bytes
    /// follow the length than the length says; then the offset is after the length.
    ///
    /// ```
    /// let mut cursor = Octets::with_slice(&[2, 97, 98, 0]);
    /// let run = cursor.get_bytes_with_u8_length()?;
    /// assert_eq!(run.buf(), b"ab".as_slice());
    /// assert_eq!(cursor.off(), 3);
    /// ```
    #[inline(always)]
    #[tactic(auto, using(crate::proofs::Cursors::runs), unfolding(crate::specs::Does::Does))]
    pub fn get_bytes_with_u8_length(&mut self) -> Result<Octets<'a>>
        ensures fits { IsOk result
            ↔ (1 + number (take 1 (rest self.old)) ≤ length (rest self.old)) }
        ensures view { IfOk result
            (IsViewOf (part (rest self.old) 1 (number (take 1 (rest self.old))))) }
        ensures spelled { IfOk result (λ v. Reads self.old self.new (prefixed 1 (bytes v))) }
        ensures passes { OnOk result
            (Passes self.old self.new (1 + number (take 1 (rest self.old)))) }
        ensures past_length { 1 ≤ length (rest self.old)
            → OnErr result (Passes self.old self.new 1) }
        ensures refused { length (rest self.old) < 1 → IsUnchanged self.old self.new }

        // This clause follows from those above. It serves a caller that states what it read by
        // `spelled`.
        ensures small { IfOk result (λ v. length (bytes v) < 2 ^ 8) }
        ensures performs { Does Call.GetBytesU8 self.old (view_answer result) self.new }
    {
        let len = self.get_u8()?;
        self.get_bytes(usize::from(len))
    }

    /// Reads a length of two bytes, and returns a cursor over that many bytes after it. It advances
    /// the offset past both.
    ///
    /// It fails if fewer than two bytes remain; then the offset is unchanged. It also fails if
    /// fewer bytes follow the length than the length says; then the offset is after the length.
    ///
    /// ```
    /// let mut cursor = Octets::with_slice(&[0, 2, 97, 98, 0]);
    /// let run = cursor.get_bytes_with_u16_length()?;
    /// assert_eq!(run.buf(), b"ab".as_slice());
    /// assert_eq!(cursor.off(), 4);
    /// ```
    #[inline(always)]
    #[tactic(auto, using(crate::proofs::Cursors::runs), unfolding(crate::specs::Does::Does))]
    pub fn get_bytes_with_u16_length(&mut self) -> Result<Octets<'a>>
        ensures fits { IsOk result
            ↔ (2 + number (take 2 (rest self.old)) ≤ length (rest self.old)) }
        ensures view { IfOk result
            (IsViewOf (part (rest self.old) 2 (number (take 2 (rest self.old))))) }
        ensures spelled { IfOk result (λ v. Reads self.old self.new (prefixed 2 (bytes v))) }
        ensures passes { OnOk result
            (Passes self.old self.new (2 + number (take 2 (rest self.old)))) }
        ensures past_length { 2 ≤ length (rest self.old)
            → OnErr result (Passes self.old self.new 2) }
        ensures refused { length (rest self.old) < 2 → IsUnchanged self.old self.new }

        // This clause follows from those above. It serves a caller that states what it read by
        // `spelled`.
        ensures small { IfOk result (λ v. length (bytes v) < 2 ^ 16) }
        ensures performs { Does Call.GetBytesU16 self.old (view_answer result) self.new }
    {
        let len = self.get_u16()?;
        self.get_bytes(usize::from(len))
    }

    /// Reads a length that is a varint, and returns a cursor over that many bytes after it. It
    /// advances the offset past both.
    ///
    /// It fails if no complete varint remains; then the offset is unchanged. It also fails if fewer
    /// bytes follow the length than the length says; then the offset is after the length.
    ///
    /// ```
    /// let mut cursor = Octets::with_slice(&[0x40, 2, 97, 98, 0]);
    /// let run = cursor.get_bytes_with_varint_length()?;
    /// assert_eq!(run.buf(), b"ab".as_slice());
    /// assert_eq!(cursor.off(), 4);
    /// ```
    #[inline(always)]
    pub fn get_bytes_with_varint_length(&mut self) -> Result<Octets<'a>>
        ensures fits { IsOk result ↔ HoldsPrefixed (rest self.old) }
        ensures reads { IfOk result (ReadsPrefixed self.old self.new) }
        ensures refused { OnErr result (RefusesPrefixed self.old self.new) }

        // The following clauses follow from those above. They serve a caller that knows the varint,
        // that states which bytes it read, that calls in a loop, or that goes back.
        ensures one { (w n : ℕ) → BeginsVarint (rest self.old) w n
            → (IsOk result ↔ (w + n ≤ length (rest self.old)))
            × IfOk result (IsViewOf (part (rest self.old) w n))
            × OnOk result (Passes self.old self.new (w + n))
            × OnErr result (Passes self.old self.new w) }
        ensures spelled { IfOk result (λ v. (w : ℕ)
            × BeginsVarint (rest self.old) w (length (bytes v))
            × Reads self.old self.new (varint w (length (bytes v)) ++ bytes v)) }
        ensures shorter { OnOk result (remaining self.new < remaining self.old) }
        ensures same_bytes { bytes self.new ≡ bytes self.old }
        ensures performs { Does Call.GetBytesVarint self.old (view_answer result) self.new }
    {
        let len = self.get_varint()?;
        if len > self.cap() as u64 {
            return Err(BufferTooShortError);
        }
        self.get_bytes(len as usize)
    }
}
