//! Reads of numbers and of varints.
ghost use Rattle.std.specs.Prelude.{◌≡◌, ◌↔◌, ◌+◌, ◌^◌, ◌≤◌, ◌<◌, ℕ, length};
ghost use Rattle.std.specs.Prelude.{take, IsOk, IfOk, Ok, Err, OnOk, OnErr};
ghost use Rattle.octets.specs.Bytes.{network, number};
ghost use Rattle.octets.specs.Varints.{BeginsVarint, BeginsOverlong, HasNoVarint};
ghost use Rattle.octets.specs.Varints.{HoldsVarint, shortest, varint};
ghost use Rattle.octets.specs.declared.error.VarintError.TheVariants.{Short, Overlong};

use crate::cursor::Cursor;
use crate::cursor::buffer::Bytes;
use crate::error::{Result, VarintError};
use crate::number::{read_u8, read_u16, read_u24, read_u32, read_u64};
use crate::varint::{read_varint, read_varint_shortest, varint_len};

/// Reads of numbers in network order. Each fails if and only if fewer bytes remain than its number
/// has.
#[tactic(auto, unfolding(crate::specs::Does::Does))]
impl<B: Bytes> Cursor<B> {
    ghost use Rattle.octets.specs.Calls.{Call};
    ghost use Rattle.octets.specs.Does.{Does, number_answer, varint_answer};
    ghost use Rattle.octets.specs.Cursor.{remaining, rest, Passes, IsUnchanged, Reads, ReadsVarint};

    /// Reads a number of one byte, and advances the offset past it.
    ///
    /// It fails if no byte remains. Then the offset is unchanged.
    ///
    /// ```
    /// let mut cursor = Octets::with_slice(&[7, 1]);
    /// assert_eq!(cursor.get_u8()?, 7);
    /// assert_eq!(cursor.off(), 1);
    /// ```
    #[inline(always)]
    #[tactic(auto, unfolding(crate::specs::Cursor::Reads, crate::specs::Does::Does))]
    pub fn get_u8(&mut self) -> Result<u8>
        ensures fits { IsOk result ↔ (1 ≤ length (rest self.old)) }
        ensures value { IfOk result (λ n. n ≡ number (take 1 (rest self.old))) }
        ensures spelled { IfOk result (λ n. Reads self.old self.new (network 1 n)) }
        ensures passes { OnOk result (Passes self.old self.new 1) }
        ensures refused { OnErr result (IsUnchanged self.old self.new) }
        ensures performs { Does Call.GetU8 self.old (number_answer result) self.new }
    {
        let value = read_u8(self.buf.as_slice(), self.off)?;
        self.advance(1);
        Ok(value)
    }

    /// Reads a number of two bytes, most significant byte first, and advances the offset past it.
    ///
    /// It fails if fewer than two bytes remain. Then the offset is unchanged.
    ///
    /// ```
    /// let mut cursor = Octets::with_slice(&[1, 2, 3]);
    /// assert_eq!(cursor.get_u16()?, 0x0102);
    /// assert_eq!(cursor.get_u16(), Err(BufferTooShortError));
    /// assert_eq!(cursor.off(), 2);
    /// ```
    #[inline(always)]
    #[tactic(auto, unfolding(crate::specs::Cursor::Reads, crate::specs::Does::Does))]
    pub fn get_u16(&mut self) -> Result<u16>
        ensures fits { IsOk result ↔ (2 ≤ length (rest self.old)) }
        ensures value { IfOk result (λ n. n ≡ number (take 2 (rest self.old))) }
        ensures spelled { IfOk result (λ n. Reads self.old self.new (network 2 n)) }
        ensures passes { OnOk result (Passes self.old self.new 2) }
        ensures refused { OnErr result (IsUnchanged self.old self.new) }
        ensures performs { Does Call.GetU16 self.old (number_answer result) self.new }
    {
        let value = read_u16(self.buf.as_slice(), self.off)?;
        self.advance(2);
        Ok(value)
    }

    /// Reads a number of three bytes, most significant byte first, and advances the offset past it.
    ///
    /// It fails if fewer than three bytes remain. Then the offset is unchanged.
    ///
    /// ```
    /// let mut cursor = Octets::with_slice(&[1, 2, 3]);
    /// assert_eq!(cursor.get_u24()?, 0x010203);
    /// ```
    #[inline(always)]
    #[tactic(auto, unfolding(crate::specs::Cursor::Reads, crate::specs::Does::Does))]
    pub fn get_u24(&mut self) -> Result<u32>
        ensures fits { IsOk result ↔ (3 ≤ length (rest self.old)) }
        ensures value { IfOk result (λ n. n ≡ number (take 3 (rest self.old))) }
        ensures spelled { IfOk result (λ n. Reads self.old self.new (network 3 n)) }
        ensures passes { OnOk result (Passes self.old self.new 3) }
        ensures refused { OnErr result (IsUnchanged self.old self.new) }

        // This clause follows from those above. It serves a caller that states what it read by
        // `spelled`.
        ensures small { IfOk result (λ n. n < 2 ^ 24) }
        ensures performs { Does Call.GetU24 self.old (number_answer result) self.new }
    {
        let value = read_u24(self.buf.as_slice(), self.off)?;
        self.advance(3);
        Ok(value)
    }

    /// Reads a number of four bytes, most significant byte first, and advances the offset past it.
    ///
    /// It fails if fewer than four bytes remain. Then the offset is unchanged.
    ///
    /// ```
    /// let mut cursor = Octets::with_slice(&[1, 2, 3, 4]);
    /// assert_eq!(cursor.get_u32()?, 0x01020304);
    /// ```
    #[inline(always)]
    #[tactic(auto, unfolding(crate::specs::Cursor::Reads, crate::specs::Does::Does))]
    pub fn get_u32(&mut self) -> Result<u32>
        ensures fits { IsOk result ↔ (4 ≤ length (rest self.old)) }
        ensures value { IfOk result (λ n. n ≡ number (take 4 (rest self.old))) }
        ensures spelled { IfOk result (λ n. Reads self.old self.new (network 4 n)) }
        ensures passes { OnOk result (Passes self.old self.new 4) }
        ensures refused { OnErr result (IsUnchanged self.old self.new) }
        ensures performs { Does Call.GetU32 self.old (number_answer result) self.new }
    {
        let value = read_u32(self.buf.as_slice(), self.off)?;
        self.advance(4);
        Ok(value)
    }

    /// Reads a number of eight bytes, most significant byte first, and advances the offset past it.
    ///
    /// It fails if fewer than eight bytes remain. Then the offset is unchanged.
    ///
    /// ```
    /// let mut cursor = Octets::with_slice(&[0, 0, 0, 0, 1, 2, 3, 4]);
    /// assert_eq!(cursor.get_u64()?, 0x01020304);
    /// ```
    #[inline(always)]
    #[tactic(auto, unfolding(crate::specs::Cursor::Reads, crate::specs::Does::Does))]
    pub fn get_u64(&mut self) -> Result<u64>
        ensures fits { IsOk result ↔ (8 ≤ length (rest self.old)) }
        ensures value { IfOk result (λ n. n ≡ number (take 8 (rest self.old))) }
        ensures spelled { IfOk result (λ n. Reads self.old self.new (network 8 n)) }
        ensures passes { OnOk result (Passes self.old self.new 8) }
        ensures refused { OnErr result (IsUnchanged self.old self.new) }
        ensures performs { Does Call.GetU64 self.old (number_answer result) self.new }
    {
        let value = read_u64(self.buf.as_slice(), self.off)?;
        self.advance(8);
        Ok(value)
    }

    /// Reads a number of one byte, and leaves the offset unchanged.
    ///
    /// It fails if no byte remains.
    ///
    /// ```
    /// let mut cursor = Octets::with_slice(&[7, 1]);
    /// assert_eq!(cursor.peek_u8()?, 7);
    /// assert_eq!(cursor.off(), 0);
    /// ```
    #[inline(always)]
    pub fn peek_u8(&mut self) -> Result<u8>
        ensures fits { IsOk result ↔ (1 ≤ length (rest self.old)) }
        ensures value { IfOk result (λ n. n ≡ number (take 1 (rest self.old))) }
        ensures stays { IsUnchanged self.old self.new }
        ensures performs { Does Call.PeekU8 self.old (number_answer result) self.new }
    {
        read_u8(self.buf.as_slice(), self.off)
    }

    /// Reads a varint (RFC 9000, section 16), of any width, and advances the offset past it.
    ///
    /// It also reads a varint that is wider than its value needs. It fails if no byte remains, or
    /// if fewer bytes remain than the first byte announces. Then the offset is unchanged.
    ///
    /// ```
    /// let mut cursor = Octets::with_slice(&[0x40, 0x25]);
    /// assert_eq!(cursor.get_varint()?, 37);
    /// assert_eq!(cursor.off(), 2);
    /// ```
    #[inline(always)]
    #[tactic(auto, using(crate::proofs::Cursors::varints), unfolding(crate::specs::Does::Does))]
    pub fn get_varint(&mut self) -> Result<u64>
        ensures fits { IsOk result ↔ HoldsVarint (rest self.old) }
        ensures value { IfOk result
            (λ n. (w : ℕ) × BeginsVarint (rest self.old) w n × Passes self.old self.new w) }
        ensures one { (w n : ℕ) → BeginsVarint (rest self.old) w n
            → (result ≡ Ok n) × Passes self.old self.new w }
        ensures spelled { IfOk result (λ n. ReadsVarint self.old self.new n) }
        ensures none { OnErr result (HasNoVarint (rest self.old)) }
        ensures refused { OnErr result (IsUnchanged self.old self.new) }

        // The following clauses follow from those above. They serve a caller that has eight bytes,
        // that calls in a loop, or that adds widths.
        ensures eight_suffice { 8 ≤ length (rest self.old) → IsOk result }
        ensures shorter { OnOk result (remaining self.new < remaining self.old) }
        ensures eight_at_most { OnOk result (remaining self.old ≤ remaining self.new + 8) }
        ensures small { IfOk result (λ n. n < 2 ^ 62) }
        ensures performs { Does Call.GetVarint self.old (number_answer result) self.new }
    {
        let (width, value) = read_varint(self.buf.as_slice(), self.off)?;
        self.advance_by_width(width);
        Ok(value)
    }

    /// Reads a varint as [`get_varint`](Self::get_varint) does, and also fails if the varint is
    /// wider than its value needs.
    ///
    /// It fails with [`VarintError::Short`] if no complete varint remains, and with
    /// [`VarintError::Overlong`] if a shorter varint holds the same value. Then the offset is
    /// unchanged.
    ///
    /// ```
    /// let mut cursor = Octets::with_slice(&[0x25, 0x40, 0x25]);
    /// assert_eq!(cursor.get_varint_shortest(), Ok(37));
    /// assert_eq!(cursor.get_varint_shortest(), Err(VarintError::Overlong));
    /// assert_eq!(cursor.off(), 1);
    /// ```
    #[inline(always)]
    #[tactic(auto, using(crate::proofs::Cursors::varints), unfolding(crate::specs::Does::Does))]
    pub fn get_varint_shortest(&mut self) -> std::result::Result<u64, VarintError>
        ensures value { IfOk result (λ n. BeginsVarint (rest self.old) (shortest n) n
            × Passes self.old self.new (shortest n)) }
        ensures every { (n : ℕ) → BeginsVarint (rest self.old) (shortest n) n → result ≡ Ok n }
        ensures spelled { IfOk result (λ n. Reads self.old self.new (varint (shortest n) n)) }
        ensures short { (result ≡ Err Short) ↔ HasNoVarint (rest self.old) }
        ensures overlong { (result ≡ Err Overlong) ↔ BeginsOverlong (rest self.old) }
        ensures refused { OnErr result (IsUnchanged self.old self.new) }

        // The following clauses follow from those above. They serve a caller that calls in a loop
        // or that adds widths.
        ensures shorter { OnOk result (remaining self.new < remaining self.old) }
        ensures small { IfOk result (λ n. n < 2 ^ 62) }
        ensures performs { Does Call.GetVarintShortest self.old (varint_answer result) self.new }
    {
        let value = read_varint_shortest(self.buf.as_slice(), self.off)?;
        self.advance(varint_len(value));
        Ok(value)
    }
}
