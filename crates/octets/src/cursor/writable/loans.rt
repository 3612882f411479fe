//! Calls that lend ranges of the buffer for writing.
//!
//! To lend bytes is to return a mutable borrow of them, and a loan is such a borrow. The cursor
//! can't be used until the loan ends. Then the lent range contains the bytes that were last written
//! there, all other bytes are unchanged, and the offset is where the call left it.
ghost use Rattle.std.specs.Prelude.{◌≡◌, ◌↔◌, ◌+◌, ◌-◌, ◌^◌, ◌*◌, ◌<◌, ◌≤◌, length};
ghost use Rattle.std.specs.Prelude.{take, drop, IsOk, IfOk, ◌++◌, MatchOption};
ghost use Rattle.std.specs.Borrow.{sem, LendsBothIf, Array, u8 as byte};
ghost use Rattle.octets.specs.Bytes.{network};
ghost use Rattle.octets.specs.Varints.{IsWidth, shortest, varint};
ghost use Rattle.octets.specs.Marked.{marked};
ghost use Rattle.octets.specs.Loans.{Viewed, BothViewed};

mod followed;
mod parts;

use crate::cursor::writable::OctetsMut;
use crate::cursor::writable::loans::parts::Part;
use crate::error::{BufferTooShortError, Result};

/// Returns a cursor over the slice, at its start, if there is a slice.
#[inline(always)]
fn view_of(lent: Result<&mut [u8]>) -> Result<OctetsMut<'_>>
    ensures { Viewed lent.entry result }
{
    match lent {
        Ok(part) => Ok(OctetsMut::with_slice(part)),
        Err(short) => Err(short),
    }
}

/// Splits the bytes at position `off`, if there are at least `off` bytes.
#[inline(always)]
fn halves(whole: &mut [u8], off: usize) -> Option<(&mut [u8], &mut [u8])>
    ensures* writes_back { sem 𝓛 (LendsBothIf (Array byte 0) (Array byte 0) (Array byte 0)
        whole.entry result ◌++◌ whole.old) }
    ensures shows { MatchOption result (length whole.old < off) (λ p.
        (off ≤ length whole.old) × (p.0.now ≡ take off whole.old)
        × (p.1.now ≡ drop off whole.old)) }
{
    whole.split_at_mut_checked(off)
}

/// Returns a cursor over each of the two slices, at its start, if there are two slices.
#[inline(always)]
fn views_of<'b>(
    halves: Option<(&'b mut [u8], &'b mut [u8])>,
) -> Result<(OctetsMut<'b>, OctetsMut<'b>)>
    ensures { BothViewed halves.entry result }
{
    match halves {
        Some((front, back)) => Ok((OctetsMut::with_slice(front), OctetsMut::with_slice(back))),
        None => Err(BufferTooShortError),
    }
}

impl<'a> OctetsMut<'a> {
    ghost use Rattle.octets.specs.Cursor.{bytes, position, rest, IsViewOf};
    ghost use Rattle.octets.specs.Loans.{LendsBytes, LendsPut, LendsView, LendsHalves};
    ghost use Rattle.octets.specs.Parts.{IsWithin, from_of, the_part};

    /// Lends the range, if there is one, and leaves the offset where it is.
    #[inline(always)]
    fn lend_part(&mut self, part: Result<Part>) -> Result<&mut [u8]>
        requires { IfOk part (λ p. IsWithin p (bytes self.old)) }
        ensures* writes_back { sem 𝓛 (LendsBytes self.entry (bytes self.old)
            (from_of part) (position self.old) result) }
        ensures fits { IsOk result ↔ IsOk part }
        ensures shows { IfOk result (λ r. r.now ≡ the_part part (bytes self.old)) }
    // The proof is hand-written, so any edit of the body breaks it: see CONTRIBUTING.md.
    {
        match part {
            Ok(part) => Ok(self.lend_at(part.from, part.len)),
            Err(short) => Err(short),
        }
    }

    /// Lends the range as a cursor, if there is one, and leaves the offset where it is.
    #[inline(always)]
    fn lend_view(&mut self, part: Result<Part>) -> Result<OctetsMut<'_>>
        requires { IfOk part (λ p. IsWithin p (bytes self.old)) }
        ensures* writes_back { sem 𝓛 (LendsView self.entry (bytes self.old)
            (from_of part) (position self.old) result) }
        ensures fits { IsOk result ↔ IsOk part }
        ensures shows { IfOk result (λ v. IsViewOf (the_part part (bytes self.old)) v) }
    // The proof is hand-written, so any edit of the body breaks it: see CONTRIBUTING.md.
    {
        view_of(self.lend_part(part))
    }

    /// Lends the next `len` bytes for writing, and leaves the offset unchanged.
    ///
    /// It fails if fewer than `len` bytes remain.
    ///
    /// ```
    /// let mut bytes = [1, 2, 3];
    /// let mut cursor = OctetsMut::with_slice(&mut bytes);
    /// cursor.slice(2)?[0] = 9;
    /// assert_eq!(cursor.get_u8()?, 9);
    /// ```
    #[inline(always)]
    pub fn slice(&mut self, len: usize) -> Result<&mut [u8]>
        ensures* writes_back { sem 𝓛 (LendsBytes self.entry (bytes self.old)
            (position self.old) (position self.old) result) }
        ensures fits { IsOk result ↔ (len ≤ length (rest self.old)) }
        ensures shows { IfOk result (λ r. r.now ≡ take len (rest self.old)) }
    // The proof is hand-written, so any edit of the body breaks it: see CONTRIBUTING.md.
    {
        let part = self.part_ahead(len);
        self.lend_part(part)
    }

    /// Lends the last `len` bytes of the buffer for writing, and leaves the offset unchanged.
    ///
    /// It fails if fewer than `len` bytes remain from the offset on.
    ///
    /// ```
    /// let mut bytes = [1, 2, 3];
    /// let mut cursor = OctetsMut::with_slice(&mut bytes);
    /// cursor.slice_last(1)?[0] = 9;
    /// assert_eq!(cursor.buf(), [1, 2, 9].as_slice());
    /// ```
    #[inline(always)]
    pub fn slice_last(&mut self, len: usize) -> Result<&mut [u8]>
        ensures* writes_back { sem 𝓛 (LendsBytes self.entry (bytes self.old)
            (length (bytes self.old) - len) (position self.old) result) }
        ensures fits { IsOk result ↔ (len ≤ length (rest self.old)) }
        ensures shows { IfOk result
            (λ r. r.now ≡ drop (length (bytes self.old) - len) (bytes self.old)) }
    // The proof is hand-written, so any edit of the body breaks it: see CONTRIBUTING.md.
    {
        let part = self.part_at_end(len);
        self.lend_part(part)
    }

    /// Returns a cursor for writing over the next `len` bytes, and advances the offset past them.
    ///
    /// It fails if fewer than `len` bytes remain. Then the offset is unchanged.
    ///
    /// ```
    /// let mut bytes = [0, 0, 0];
    /// let mut cursor = OctetsMut::with_slice(&mut bytes);
    /// cursor.get_bytes_mut(2)?.put_u16(0x0102)?;
    /// assert_eq!(cursor.buf(), [1, 2, 0].as_slice());
    /// assert_eq!(cursor.off(), 2);
    /// ```
    #[inline(always)]
    pub fn get_bytes_mut(&mut self, len: usize) -> Result<OctetsMut<'_>>
        ensures* writes_back { sem 𝓛 (LendsView self.entry (bytes self.old)
            (position self.old) (position self.old + len) result) }
        ensures fits { IsOk result ↔ (len ≤ length (rest self.old)) }
        ensures shows { IfOk result (λ v. IsViewOf (take len (rest self.old)) v) }
    // The proof is hand-written, so any edit of the body breaks it: see CONTRIBUTING.md.
    {
        let part = self.part_passed(len);
        self.lend_view(part)
    }

    /// Returns a cursor for writing over the next `len` bytes, and leaves the offset unchanged.
    ///
    /// It fails if fewer than `len` bytes remain.
    ///
    /// ```
    /// let mut bytes = [0, 0, 0];
    /// let mut cursor = OctetsMut::with_slice(&mut bytes);
    /// cursor.peek_bytes_mut(2)?.put_u16(0x0102)?;
    /// assert_eq!(cursor.get_u16()?, 0x0102);
    /// ```
    #[inline(always)]
    pub fn peek_bytes_mut(&mut self, len: usize) -> Result<OctetsMut<'_>>
        ensures* writes_back { sem 𝓛 (LendsView self.entry (bytes self.old)
            (position self.old) (position self.old) result) }
        ensures fits { IsOk result ↔ (len ≤ length (rest self.old)) }
        ensures shows { IfOk result (λ v. IsViewOf (take len (rest self.old)) v) }
    // The proof is hand-written, so any edit of the body breaks it: see CONTRIBUTING.md.
    {
        let ahead = self.part_ahead(len);
        self.lend_view(ahead)
    }

    /// Returns two cursors for writing: one over the first `off` bytes of the whole buffer, and one
    /// over the bytes after them. The offset is ignored and unchanged.
    ///
    /// It fails if the buffer has fewer than `off` bytes.
    ///
    /// ```
    /// let mut bytes = [1, 2, 3];
    /// let mut cursor = OctetsMut::with_slice(&mut bytes);
    /// let (left, right) = cursor.split_at(1)?;
    /// assert_eq!(left.buf(), [1].as_slice());
    /// assert_eq!(right.buf(), [2, 3].as_slice());
    /// ```
    #[inline(always)]
    pub fn split_at(&mut self, off: usize) -> Result<(OctetsMut<'_>, OctetsMut<'_>)>
        ensures* writes_back { sem 𝓛 (LendsHalves self.entry result) }
        ensures fits { IsOk result ↔ (off ≤ length (bytes self.old)) }
        ensures shows { IfOk result
            (λ v. IsViewOf (take off (bytes self.old)) v.0
            × IsViewOf (drop off (bytes self.old)) v.1) }
    // The proof is hand-written, so any edit of the body breaks it: see CONTRIBUTING.md.
    {
        let parts = halves(&mut *self.buf, off);
        views_of(parts)
    }

    /// Writes a number of one byte, advances the offset past it, and returns a mutable slice of the
    /// written byte.
    ///
    /// It fails if no byte remains. Then nothing is written, and the offset is unchanged.
    ///
    /// ```
    /// let mut bytes = [0, 0];
    /// let mut cursor = OctetsMut::with_slice(&mut bytes);
    /// cursor.put_u8(7)?;
    /// assert_eq!(cursor.buf(), [7, 0].as_slice());
    /// ```
    #[inline(always)]
    pub fn put_u8(&mut self, v: u8) -> Result<&mut [u8]>
        ensures* writes_back { sem 𝓛 (LendsPut self.entry (network 1 v) 1 result) }
        ensures fits { IsOk result ↔ (1 ≤ length (rest self.old)) }
        ensures shows { IfOk result (λ r. r.now ≡ network 1 v) }
    // The proof is hand-written, so any edit of the body breaks it: see CONTRIBUTING.md.
    {
        let part = self.part_of_u8(v);
        self.lend_part(part)
    }

    /// Writes a number of two bytes, most significant byte first, advances the offset past it, and
    /// returns a mutable slice of the written bytes.
    ///
    /// It fails if fewer than two bytes remain. Then nothing is written, and the offset is
    /// unchanged.
    ///
    /// ```
    /// let mut bytes = [0, 0, 0];
    /// let mut cursor = OctetsMut::with_slice(&mut bytes);
    /// cursor.put_u16(0x0102)?[1] = 9;
    /// assert_eq!(cursor.buf(), [1, 9, 0].as_slice());
    /// ```
    #[inline(always)]
    pub fn put_u16(&mut self, v: u16) -> Result<&mut [u8]>
        ensures* writes_back { sem 𝓛 (LendsPut self.entry (network 2 v) 2 result) }
        ensures fits { IsOk result ↔ (2 ≤ length (rest self.old)) }
        ensures shows { IfOk result (λ r. r.now ≡ network 2 v) }
    // The proof is hand-written, so any edit of the body breaks it: see CONTRIBUTING.md.
    {
        let part = self.part_of_u16(v);
        self.lend_part(part)
    }

    /// Writes the least significant three bytes of a number, most significant byte first, advances
    /// the offset past them, and returns a mutable slice of the written bytes.
    ///
    /// It fails if fewer than three bytes remain. Then nothing is written, and the offset is
    /// unchanged.
    ///
    /// ```
    /// let mut bytes = [0, 0, 0];
    /// let mut cursor = OctetsMut::with_slice(&mut bytes);
    /// cursor.put_u24(0x09010203)?;
    /// assert_eq!(cursor.buf(), [1, 2, 3].as_slice());
    /// ```
    #[inline(always)]
    pub fn put_u24(&mut self, v: u32) -> Result<&mut [u8]>
        ensures* writes_back { sem 𝓛 (LendsPut self.entry (network 3 v) 3 result) }
        ensures fits { IsOk result ↔ (3 ≤ length (rest self.old)) }
        ensures shows { IfOk result (λ r. r.now ≡ network 3 v) }
    // The proof is hand-written, so any edit of the body breaks it: see CONTRIBUTING.md.
    {
        let part = self.part_of_u24(v);
        self.lend_part(part)
    }

    /// Writes a number of four bytes, most significant byte first, advances the offset past it, and
    /// returns a mutable slice of the written bytes.
    ///
    /// It fails if fewer than four bytes remain. Then nothing is written, and the offset is
    /// unchanged.
    ///
    /// ```
    /// let mut bytes = [0, 0, 0, 0];
    /// let mut cursor = OctetsMut::with_slice(&mut bytes);
    /// cursor.put_u32(0x01020304)?;
    /// assert_eq!(cursor.buf(), [1, 2, 3, 4].as_slice());
    /// ```
    #[inline(always)]
    pub fn put_u32(&mut self, v: u32) -> Result<&mut [u8]>
        ensures* writes_back { sem 𝓛 (LendsPut self.entry (network 4 v) 4 result) }
        ensures fits { IsOk result ↔ (4 ≤ length (rest self.old)) }
        ensures shows { IfOk result (λ r. r.now ≡ network 4 v) }
    // The proof is hand-written, so any edit of the body breaks it: see CONTRIBUTING.md.
    {
        let part = self.part_of_u32(v);
        self.lend_part(part)
    }

    /// Writes a number of eight bytes, most significant byte first, advances the offset past it,
    /// and returns a mutable slice of the written bytes.
    ///
    /// It fails if fewer than eight bytes remain. Then nothing is written, and the offset is
    /// unchanged.
    ///
    /// ```
    /// let mut bytes = [9, 9, 9, 9, 9, 9, 9, 9];
    /// let mut cursor = OctetsMut::with_slice(&mut bytes);
    /// cursor.put_u64(0x0102)?;
    /// assert_eq!(cursor.buf(), [0, 0, 0, 0, 0, 0, 1, 2].as_slice());
    /// ```
    #[inline(always)]
    pub fn put_u64(&mut self, v: u64) -> Result<&mut [u8]>
        ensures* writes_back { sem 𝓛 (LendsPut self.entry (network 8 v) 8 result) }
        ensures fits { IsOk result ↔ (8 ≤ length (rest self.old)) }
        ensures shows { IfOk result (λ r. r.now ≡ network 8 v) }
    // The proof is hand-written, so any edit of the body breaks it: see CONTRIBUTING.md.
    {
        let part = self.part_of_u64(v);
        self.lend_part(part)
    }

    /// Writes `v` as a varint of the least width that holds it (RFC 9000, section 16), moves the
    /// offset past it, and lends its bytes for writing. `v` must be below 2 to the power 62.
    ///
    /// It fails if fewer bytes remain than that width, and then writes nothing.
    ///
    /// ```
    /// let mut bytes = [0, 0, 0];
    /// let mut cursor = OctetsMut::with_slice(&mut bytes);
    /// assert_eq!(cursor.put_varint(15293)?.len(), 2);
    /// assert_eq!(cursor.buf(), [0x7b, 0xbd, 0].as_slice());
    /// ```
    #[inline(always)]
    pub fn put_varint(&mut self, v: u64) -> Result<&mut [u8]>
        requires { v < 2 ^ 62 }
        ensures* writes_back { sem 𝓛
            (LendsPut self.entry (varint (shortest v) v) (shortest v) result) }
        ensures fits { IsOk result ↔ (shortest v ≤ length (rest self.old)) }
        ensures shows { IfOk result (λ r. r.now ≡ varint (shortest v) v) }
    // The proof is hand-written, so any edit of the body breaks it: see CONTRIBUTING.md.
    {
        let part = self.part_of_varint(v);
        self.lend_part(part)
    }

    /// Writes `v` as a varint of `len` bytes (RFC 9000, section 16), moves the offset past it, and
    /// lends its bytes for writing. `len` must be 1, 2, 4 or 8, and `v` must be below 2 to the
    /// power `8 * len - 2`. `varint_fits` checks both conditions.
    ///
    /// It fails if fewer than `len` bytes remain, and then writes nothing.
    ///
    /// ```
    /// let mut bytes = [0, 0, 0];
    /// let mut cursor = OctetsMut::with_slice(&mut bytes);
    /// cursor.put_varint_with_len(37, 2)?;
    /// assert_eq!(cursor.buf(), [0x40, 0x25, 0].as_slice());
    /// ```
    #[inline(always)]
    pub fn put_varint_with_len(&mut self, v: u64, len: usize) -> Result<&mut [u8]>
        requires width { IsWidth len }
        requires held { v < 2 ^ (8 * len - 2) }
        ensures* writes_back { sem 𝓛 (LendsPut self.entry (varint len v) len result) }
        ensures fits { IsOk result ↔ (len ≤ length (rest self.old)) }
        ensures shows { IfOk result (λ r. r.now ≡ varint len v) }
    // The proof is hand-written, so any edit of the body breaks it: see CONTRIBUTING.md.
    {
        let part = self.part_of_varint_with_len(v, len);
        self.lend_part(part)
    }

    /// Writes the lowest `len` bytes of `v`, with the mark of the width over the top two bits, moves
    /// the offset past them, and lends these bytes for writing. `len` must be 1, 2, 4 or 8.
    ///
    /// ```
    /// let mut bytes = [0, 0, 0];
    /// let mut cursor = OctetsMut::with_slice(&mut bytes);
    /// cursor.put_marked(0x123456, 2)?;
    /// assert_eq!(cursor.buf(), [0x74, 0x56, 0].as_slice());
    /// ```
    #[inline(always)]
    pub fn put_marked(&mut self, v: u64, len: usize) -> Result<&mut [u8]>
        requires { IsWidth len }
        ensures* writes_back { sem 𝓛 (LendsPut self.entry (network len (marked len v)) len result) }
        ensures fits { IsOk result ↔ (len ≤ length (rest self.old)) }
        ensures shows { IfOk result (λ r. r.now ≡ network len (marked len v)) }
    // The proof is hand-written, so any edit of the body breaks it: see CONTRIBUTING.md.
    {
        let part = self.part_of_marked(v, len);
        self.lend_part(part)
    }
}
