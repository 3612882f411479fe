//! Functions that say which range of the buffer a call is to lend.
//!
//! Each function does what a call of `loans.rt` does before its loan: it moves the offset or
//! writes. It returns the range, which `lend_part` then lends.

ghost use Rattle.std.specs.Prelude.{◌↔◌, ◌+◌, ◌-◌, ◌*◌, ◌^◌, ◌<◌, ◌≤◌, length, IsOk};
ghost use Rattle.octets.specs.Bytes.{network};
ghost use Rattle.octets.specs.Varints.{IsWidth, shortest, varint};
ghost use Rattle.octets.specs.Marked.{marked};

use crate::cursor::writable::OctetsMut;
use crate::error::{BufferTooShortError, Result};
use crate::varint::varint_len;

/// The range of a buffer from position `from` on that has `len` bytes.
#[derive(Drop)]
pub(crate) struct Part {
    pub(crate) from: usize,
    pub(crate) len: usize,
}

impl<'a> OctetsMut<'a> {
    ghost use Rattle.octets.specs.Cursor.{bytes, position, rest};
    ghost use Rattle.octets.specs.Parts.{Leaves, LeavesPut};

    /// Returns the range of the next `len` bytes, and leaves the offset where it is.
    #[inline(always)]
    pub(crate) fn part_ahead(&mut self, len: usize) -> Result<Part>
        ensures fits { IsOk result ↔ (len ≤ length (rest self.old)) }
        ensures leaves { Leaves self.old self.new result
            (bytes self.old) (position self.old) len (position self.old) }
    {
        if len > self.cap() {
            return Err(BufferTooShortError);
        }
        let here = self.off;
        Ok(Part { from: here, len })
    }

    /// Returns the range of the next `len` bytes, and moves the offset past them.
    #[inline(always)]
    pub(crate) fn part_passed(&mut self, len: usize) -> Result<Part>
        ensures fits { IsOk result ↔ (len ≤ length (rest self.old)) }
        ensures leaves { Leaves self.old self.new result
            (bytes self.old) (position self.old) len (position self.old + len) }
    {
        let part = self.part_ahead(len)?;
        self.off += len;
        Ok(part)
    }

    /// Returns the range of the last `len` bytes of the whole buffer, and leaves the offset where
    /// it is.
    #[inline(always)]
    pub(crate) fn part_at_end(&mut self, len: usize) -> Result<Part>
        ensures fits { IsOk result ↔ (len ≤ length (rest self.old)) }
        ensures leaves { Leaves self.old self.new result
            (bytes self.old) (length (bytes self.old) - len) len (position self.old) }
    {
        if self.cap() < len {
            return Err(BufferTooShortError);
        }
        Ok(Part {
            from: self.len() - len,
            len,
        })
    }

    /// Writes `v` as one byte, moves the offset past it, and returns its range.
    #[inline(always)]
    pub(crate) fn part_of_u8(&mut self, v: u8) -> Result<Part>
        ensures fits { IsOk result ↔ (1 ≤ length (rest self.old)) }
        ensures leaves { LeavesPut self.old self.new result (network 1 v) 1 }
    {
        let from = self.off;
        self.write_u8(v)?;
        Ok(Part { from, len: 1 })
    }

    /// Writes `v` as two bytes, moves the offset past them, and returns their range.
    #[inline(always)]
    pub(crate) fn part_of_u16(&mut self, v: u16) -> Result<Part>
        ensures fits { IsOk result ↔ (2 ≤ length (rest self.old)) }
        ensures leaves { LeavesPut self.old self.new result (network 2 v) 2 }
    {
        let from = self.off;
        self.write_u16(v)?;
        Ok(Part { from, len: 2 })
    }

    /// Writes the lowest three bytes of `v`, moves the offset past them, and returns their range.
    #[inline(always)]
    pub(crate) fn part_of_u24(&mut self, v: u32) -> Result<Part>
        ensures fits { IsOk result ↔ (3 ≤ length (rest self.old)) }
        ensures leaves { LeavesPut self.old self.new result (network 3 v) 3 }
    {
        let from = self.off;
        self.write_u24(v)?;
        Ok(Part { from, len: 3 })
    }

    /// Writes `v` as four bytes, moves the offset past them, and returns their range.
    #[inline(always)]
    pub(crate) fn part_of_u32(&mut self, v: u32) -> Result<Part>
        ensures fits { IsOk result ↔ (4 ≤ length (rest self.old)) }
        ensures leaves { LeavesPut self.old self.new result (network 4 v) 4 }
    {
        let from = self.off;
        self.write_u32(v)?;
        Ok(Part { from, len: 4 })
    }

    /// Writes `v` as eight bytes, moves the offset past them, and returns their range.
    #[inline(always)]
    pub(crate) fn part_of_u64(&mut self, v: u64) -> Result<Part>
        ensures fits { IsOk result ↔ (8 ≤ length (rest self.old)) }
        ensures leaves { LeavesPut self.old self.new result (network 8 v) 8 }
    {
        let from = self.off;
        self.write_u64(v)?;
        Ok(Part { from, len: 8 })
    }

    /// Writes the varint of `v` of least width, moves the offset past it, and returns its range.
    /// `v` must be below 2 to the power 62.
    #[inline(always)]
    pub(crate) fn part_of_varint(&mut self, v: u64) -> Result<Part>
        requires { v < 2 ^ 62 }
        ensures fits { IsOk result ↔ (shortest v ≤ length (rest self.old)) }
        ensures leaves { LeavesPut self.old self.new result (varint (shortest v) v) (shortest v) }
    {
        self.part_of_varint_with_len(v, varint_len(v))
    }

    /// Writes the varint of `v` in `len` bytes, moves the offset past it, and returns its range.
    /// `len` must be a width that holds `v`.
    #[inline(always)]
    pub(crate) fn part_of_varint_with_len(&mut self, v: u64, len: usize) -> Result<Part>
        requires width { IsWidth len }
        requires held { v < 2 ^ (8 * len - 2) }
        ensures fits { IsOk result ↔ (len ≤ length (rest self.old)) }
        ensures leaves { LeavesPut self.old self.new result (varint len v) len }
    {
        let from = self.off;
        self.write_varint_with_len(v, len)?;
        Ok(Part { from, len })
    }

    /// Writes the lowest `len` bytes of `v` with the mark of the width, moves the offset past them,
    /// and returns their range. `len` must be a width.
    #[inline(always)]
    pub(crate) fn part_of_marked(&mut self, v: u64, len: usize) -> Result<Part>
        requires { IsWidth len }
        ensures fits { IsOk result ↔ (len ≤ length (rest self.old)) }
        ensures leaves { LeavesPut self.old self.new result (network len (marked len v)) len }
    {
        let from = self.off;
        self.write_marked(v, len)?;
        Ok(Part { from, len })
    }
}
