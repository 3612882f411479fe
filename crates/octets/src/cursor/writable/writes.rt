//! Writes that lend nothing.
ghost use Rattle.std.specs.Prelude.{◌≡◌, ◌↔◌, ◌+◌, ◌-◌, ◌*◌, ◌^◌, ◌<◌};
ghost use Rattle.std.specs.Prelude.{◌≤◌, length, IsOk, IfOk, OnErr};
ghost use Rattle.octets.specs.Bytes.{network, splice};
ghost use Rattle.octets.specs.Varints.{IsWidth, shortest, varint};
ghost use Rattle.octets.specs.Marked.{marked};

use crate::copies::{copy, put_first};
use crate::cursor::Cursor;
use crate::cursor::buffer::Buffer;
use crate::error::{BufferTooShortError, Result};

/// Writes that lend nothing. Each call moves the offset past what it wrote. It fails if and only if
/// fewer bytes remain than it writes, and then writes nothing. After two writes the buffer contains
/// what the first wrote, followed by what the second wrote.
///
/// The clauses `past`, `bytes` and `keeps` follow from the other clauses. `past` is for a caller
/// whose contract counts bytes, `bytes` for one whose contract is about the whole buffer, and
/// `keeps` for one that makes several calls, each of which can fail.
impl<B: Buffer> Cursor<B> {
    ghost use Rattle.octets.specs.Calls.{Call};
    ghost use Rattle.octets.specs.Does.{Does, done_answer};
    ghost use Rattle.octets.specs.Cursor.{bytes, position, rest, IsUnchanged, Keeps, Writes};

    /// Writes all of `v`, and advances the offset past it.
    ///
    /// It fails if fewer bytes remain than `v` has. Then nothing is written, and the offset is
    /// unchanged.
    ///
    /// ```
    /// let mut bytes = [0, 0, 0];
    /// let mut cursor = OctetsMut::with_slice(&mut bytes);
    /// cursor.put_bytes(b"ab")?;
    /// assert_eq!(cursor.put_bytes(b"cd"), Err(BufferTooShortError));
    /// assert_eq!(cursor.buf(), [97, 98, 0].as_slice());
    /// ```
    #[inline(always)]
    #[tactic(auto, unfolding(crate::specs::Does::Does))]
    pub fn put_bytes(&mut self, v: &[u8]) -> Result<()>
        ensures fits { IsOk result ↔ (length v.now ≤ length (rest self.old)) }
        ensures writes { IfOk result (λ _. Writes self.old self.new v.now) }
        ensures bytes { IfOk result (λ _. bytes self.new
            ≡ splice (bytes self.old) (position self.old) v.now) }
        ensures unchanged { OnErr result (IsUnchanged self.old self.new) }
        ensures keeps { Keeps self.old self.new }
        ensures performs { Does (Call.PutBytes v.now) self.old (done_answer result) self.new }
    {
        // The offset is never past the end, but rustc can't know that. After this comparison it
        // leaves out the bounds checks below.
        if self.off > self.buf.len() || self.cap() < v.len() {
            return Err(BufferTooShortError);
        }
        self.put_fitting(v);
        Ok(())
    }

    /// Writes all bytes of `v`, which must fit, and moves the offset past them.
    #[inline(always)]
    #[tactic(auto, using(crate::proofs::lemmas::Splices::spliced))]
    pub(crate) fn put_fitting(&mut self, v: &[u8])
        requires { length v.now ≤ length (rest self.old) }
        ensures writes { Writes self.old self.new v.now }
        ensures bytes { bytes self.new ≡ splice (bytes self.old) (position self.old) v.now }
        ensures keeps { Keeps self.old self.new }
    {
        // The proof needs this call: its clauses bound the sum below.
        let _cap = self.cap();
        let from = self.off;
        copy(self.buf.part_mut(from, v.len()), v);
        self.off = from + v.len();
    }

    /// Writes all bytes of the array, and moves the offset past them. rustc copies an array without
    /// a call, also where it optimizes for size or not at all.
    #[inline(always)]
    #[tactic(auto, using(crate::proofs::lemmas::Splices::spliced))]
    fn put_array<const N: usize>(&mut self, v: &[u8; N]) -> Result<()>
        ensures fits { IsOk result ↔ (N ≤ length (rest self.old)) }
        ensures writes { IfOk result (λ _. Writes self.old self.new v.now) }
        ensures bytes { IfOk result (λ _. bytes self.new
            ≡ splice (bytes self.old) (position self.old) v.now) }
        ensures unchanged { OnErr result (IsUnchanged self.old self.new) }
        ensures keeps { Keeps self.old self.new }
    {
        if self.off > self.buf.len() || self.cap() < N {
            return Err(BufferTooShortError);
        }
        put_first(self.buf.part_mut(self.off, N), v);
        self.off += N;
        Ok(())
    }

    /// Writes as `put_bytes` does, but by a single copy. A loop that writes three bytes in each
    /// iteration isn't vectorized if each write is two overlapping copies.
    #[inline(always)]
    #[tactic(auto, using(crate::proofs::lemmas::Splices::spliced))]
    fn put_in_one_run(&mut self, v: &[u8]) -> Result<()>
        ensures fits { IsOk result ↔ (length v.now ≤ length (rest self.old)) }
        ensures writes { IfOk result (λ _. Writes self.old self.new v.now) }
        ensures bytes { IfOk result (λ _. bytes self.new
            ≡ splice (bytes self.old) (position self.old) v.now) }
        ensures unchanged { OnErr result (IsUnchanged self.old self.new) }
        ensures keeps { Keeps self.old self.new }
    {
        if self.off > self.buf.len() || self.cap() < v.len() {
            return Err(BufferTooShortError);
        }
        self.buf.part_mut(self.off, v.len()).copy_from_slice(v);
        self.off += v.len();
        Ok(())
    }

    /// Writes `v` as one byte.
    ///
    /// ```
    /// let mut bytes = [0, 0];
    /// let mut cursor = OctetsMut::with_slice(&mut bytes);
    /// cursor.write_u8(7)?;
    /// assert_eq!(cursor.buf(), [7, 0].as_slice());
    /// ```
    #[inline(always)]
    #[tactic(auto, unfolding(crate::specs::Bytes::network))]
    pub fn write_u8(&mut self, v: u8) -> Result<()>
        ensures fits { IsOk result ↔ (1 ≤ length (rest self.old)) }
        ensures writes { IfOk result (λ _. Writes self.old self.new (network 1 v)) }
        ensures past { IfOk result (λ _. position self.new ≡ position self.old + 1) }
        ensures bytes { IfOk result (λ _. bytes self.new
            ≡ splice (bytes self.old) (position self.old) (network 1 v)) }
        ensures unchanged { OnErr result (IsUnchanged self.old self.new) }
        ensures keeps { Keeps self.old self.new }
    {
        self.put_array(&[v])
    }

    /// Writes `v` as two bytes in network order.
    ///
    /// ```
    /// let mut bytes = [0, 0, 0];
    /// let mut cursor = OctetsMut::with_slice(&mut bytes);
    /// cursor.write_u16(0x0102)?;
    /// assert_eq!(cursor.buf(), [1, 2, 0].as_slice());
    /// ```
    #[inline(always)]
    #[tactic(auto, using(crate::proofs::Cursors::numbers), unfolding(crate::specs::Bytes::network))]
    pub fn write_u16(&mut self, v: u16) -> Result<()>
        ensures fits { IsOk result ↔ (2 ≤ length (rest self.old)) }
        ensures writes { IfOk result (λ _. Writes self.old self.new (network 2 v)) }
        ensures past { IfOk result (λ _. position self.new ≡ position self.old + 2) }
        ensures bytes { IfOk result (λ _. bytes self.new
            ≡ splice (bytes self.old) (position self.old) (network 2 v)) }
        ensures unchanged { OnErr result (IsUnchanged self.old self.new) }
        ensures keeps { Keeps self.old self.new }
    {
        let two = v.to_be_bytes();
        self.put_array(&two)
    }

    /// Writes the lowest three bytes of `v` in network order.
    ///
    /// ```
    /// let mut bytes = [0, 0, 0];
    /// let mut cursor = OctetsMut::with_slice(&mut bytes);
    /// cursor.write_u24(0x010203)?;
    /// assert_eq!(cursor.buf(), [1, 2, 3].as_slice());
    /// ```
    #[inline(always)]
    #[tactic(auto, unfolding(crate::specs::Bytes::network))]
    pub fn write_u24(&mut self, v: u32) -> Result<()>
        ensures fits { IsOk result ↔ (3 ≤ length (rest self.old)) }
        ensures writes { IfOk result (λ _. Writes self.old self.new (network 3 v)) }
        ensures past { IfOk result (λ _. position self.new ≡ position self.old + 3) }
        ensures bytes { IfOk result (λ _. bytes self.new
            ≡ splice (bytes self.old) (position self.old) (network 3 v)) }
        ensures unchanged { OnErr result (IsUnchanged self.old self.new) }
        ensures keeps { Keeps self.old self.new }
    {
        self.put_in_one_run(&v.to_be_bytes()[1..])
    }

    /// Writes `v` as four bytes in network order.
    ///
    /// ```
    /// let mut bytes = [0, 0, 0, 0];
    /// let mut cursor = OctetsMut::with_slice(&mut bytes);
    /// cursor.write_u32(0x01020304)?;
    /// assert_eq!(cursor.buf(), [1, 2, 3, 4].as_slice());
    /// ```
    #[inline(always)]
    #[tactic(auto, unfolding(crate::specs::Bytes::network))]
    pub fn write_u32(&mut self, v: u32) -> Result<()>
        ensures fits { IsOk result ↔ (4 ≤ length (rest self.old)) }
        ensures writes { IfOk result (λ _. Writes self.old self.new (network 4 v)) }
        ensures past { IfOk result (λ _. position self.new ≡ position self.old + 4) }
        ensures bytes { IfOk result (λ _. bytes self.new
            ≡ splice (bytes self.old) (position self.old) (network 4 v)) }
        ensures unchanged { OnErr result (IsUnchanged self.old self.new) }
        ensures keeps { Keeps self.old self.new }
    {
        let four = v.to_be_bytes();
        self.put_array(&four)
    }

    /// Writes `v` as eight bytes in network order.
    ///
    /// ```
    /// let mut bytes = [9, 9, 9, 9, 9, 9, 9, 9];
    /// let mut cursor = OctetsMut::with_slice(&mut bytes);
    /// cursor.write_u64(0x0102)?;
    /// assert_eq!(cursor.buf(), [0, 0, 0, 0, 0, 0, 1, 2].as_slice());
    /// ```
    #[inline(always)]
    #[tactic(auto, using(crate::proofs::Cursors::numbers), unfolding(crate::specs::Bytes::network))]
    pub fn write_u64(&mut self, v: u64) -> Result<()>
        ensures fits { IsOk result ↔ (8 ≤ length (rest self.old)) }
        ensures writes { IfOk result (λ _. Writes self.old self.new (network 8 v)) }
        ensures past { IfOk result (λ _. position self.new ≡ position self.old + 8) }
        ensures bytes { IfOk result (λ _. bytes self.new
            ≡ splice (bytes self.old) (position self.old) (network 8 v)) }
        ensures unchanged { OnErr result (IsUnchanged self.old self.new) }
        ensures keeps { Keeps self.old self.new }
    {
        let eight = v.to_be_bytes();
        self.put_array(&eight)
    }

    /// Writes `v` as a varint of `len` bytes (RFC 9000, section 16). `len` must be 1, 2, 4 or 8,
    /// and `v` must be below 2 to the power `8 * len - 2`. `varint_fits` checks both conditions.
    ///
    /// ```
    /// let mut bytes = [0, 0, 0];
    /// let mut cursor = OctetsMut::with_slice(&mut bytes);
    /// cursor.write_varint_with_len(37, 2)?;
    /// assert_eq!(cursor.buf(), [0x40, 0x25, 0].as_slice());
    /// ```
    #[inline(always)]
    #[tactic(auto, unfolding(crate::specs::Varints::varint))]
    pub fn write_varint_with_len(&mut self, v: u64, len: usize) -> Result<()>
        requires width { IsWidth len }
        requires held { v < 2 ^ (8 * len - 2) }
        ensures fits { IsOk result ↔ (len ≤ length (rest self.old)) }
        ensures writes { IfOk result (λ _. Writes self.old self.new (varint len v)) }
        ensures past { IfOk result (λ _. position self.new ≡ position self.old + len) }
        ensures bytes { IfOk result (λ _. bytes self.new
            ≡ splice (bytes self.old) (position self.old) (varint len v)) }
        ensures unchanged { OnErr result (IsUnchanged self.old self.new) }
        ensures keeps { Keeps self.old self.new }
    {
        match len {
            1 => self.write_u8(v as u8),
            2 => self.write_u16(v as u16 + 0x4000),
            4 => self.write_u32(v as u32 + 0x8000_0000),
            _ => self.write_u64(v + 0xc000_0000_0000_0000),
        }
    }

    /// Writes the lowest `len` bytes of `v`, with the mark of the width over the top two bits. `len`
    /// must be 1, 2, 4 or 8. If a varint of `len` bytes holds `v`, it is that varint.
    ///
    /// ```
    /// let mut bytes = [0, 0, 0];
    /// let mut cursor = OctetsMut::with_slice(&mut bytes);
    /// cursor.write_marked(0x123456, 2)?;
    /// assert_eq!(cursor.buf(), [0x74, 0x56, 0].as_slice());
    /// ```
    #[inline(always)]
    pub fn write_marked(&mut self, v: u64, len: usize) -> Result<()>
        requires { IsWidth len }
        ensures fits { IsOk result ↔ (len ≤ length (rest self.old)) }
        ensures writes { IfOk result (λ _. Writes self.old self.new (network len (marked len v))) }
        ensures past { IfOk result (λ _. position self.new ≡ position self.old + len) }
        ensures bytes { IfOk result (λ _. bytes self.new
            ≡ splice (bytes self.old) (position self.old) (network len (marked len v))) }
        ensures unchanged { OnErr result (IsUnchanged self.old self.new) }
        ensures keeps { Keeps self.old self.new }
    {
        match len {
            1 => self.write_u8((v % 0x100) as u8),
            2 => self.write_u16((v % 0x1_0000) as u16 | 0x4000),
            4 => self.write_u32((v % 0x1_0000_0000) as u32 | 0x8000_0000),
            _ => self.write_u64(v | 0xc000_0000_0000_0000),
        }
    }

    /// Writes `v` as a varint of the least width that holds it (RFC 9000, section 16). `v` must be
    /// below 2 to the power 62.
    ///
    /// ```
    /// let mut bytes = [0, 0, 0];
    /// let mut cursor = OctetsMut::with_slice(&mut bytes);
    /// cursor.write_varint(15293)?;
    /// assert_eq!(cursor.buf(), [0x7b, 0xbd, 0].as_slice());
    /// ```
    #[inline(always)]
    pub fn write_varint(&mut self, v: u64) -> Result<()>
        requires { v < 2 ^ 62 }
        ensures fits { IsOk result ↔ (shortest v ≤ length (rest self.old)) }
        ensures writes { IfOk result (λ _. Writes self.old self.new (varint (shortest v) v)) }
        ensures past { IfOk result (λ _. position self.new ≡ position self.old + shortest v) }
        ensures bytes { IfOk result (λ _. bytes self.new
            ≡ splice (bytes self.old) (position self.old) (varint (shortest v) v)) }
        ensures unchanged { OnErr result (IsUnchanged self.old self.new) }
        ensures keeps { Keeps self.old self.new }
    {
        // Each width has a call of its own, so that no further branch depends on the width.
        if v < 1 << 6 {
            self.write_varint_with_len(v, 1)
        } else if v < 1 << 14 {
            self.write_varint_with_len(v, 2)
        } else if v < 1 << 30 {
            self.write_varint_with_len(v, 4)
        } else {
            self.write_varint_with_len(v, 8)
        }
    }
}
