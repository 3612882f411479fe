//! The bits of codes that don't fill a word yet.
ghost use Rattle.std.specs.Prelude.{◌≡◌, ◌+◌, ◌-◌, ◌*◌, ◌/◌, ◌%◌, ◌^◌, ◌<◌, ◌≤◌, ◌++◌, ◌↔◌};
ghost use Rattle.std.specs.Prelude.{IsTrue, Bool, List, [], IfNone, IfSome, length};
ghost use Rattle.octets_code.specs.Bits.{bits_of};
ghost use Rattle.octets_code.specs.Codes.{code};
ghost use Rattle.octets_code.specs.Texts.{ones};

use octets_code::code_of;
use std::marker::Model;

/// The bits of codes that don't fill a word of 64 bits yet (RFC 7541, section 5.2). There are fewer
/// than 64 of them. With this type you can write an encoder of your own that stops at any byte and
/// continues in a later call. In a contract a `Pending` is the list of its bits.
#[derive(Drop)]
pub struct Pending {
    count: u32,
    bits: u64,
}

impl Model for Pending {
    ghost use Rattle.std.specs.Prelude.{◌≡◌, ◌-◌, ◌*◌, ◌/◌, ◌<◌, ◌^◌, Bool, List};
    ghost use Rattle.octets_code.specs.Bits.{bits_of};

    ghost Value = { List Bool };

    ghost view = { λ p. bits_of p.count (p.bits / 2 ^ (64 - p.count)) };

    ghost invariant = { λ p. (p.count < 64)
        × (p.bits ≡ p.bits / 2 ^ (64 - p.count) * 2 ^ (64 - p.count))
        × (p.bits / 2 ^ (64 - p.count) < 2 ^ p.count) };
}

impl Pending {
    /// Returns a value with no bits.
    ///
    /// ```
    /// let mut pending = Pending::new();
    /// assert!(pending.push_code(b'a').is_none());
    /// assert_eq!(pending.count(), 5);
    /// ```
    #[tactic(auto, unfolding(octets_code::specs::Bits::bits_of))]
    pub fn new() -> Pending
        ensures { result ≡ [] }
    {
        Pending { count: 0, bits: 0 }
    }

    /// Returns the bits of the code of `byte`.
    #[inline]
    #[tactic(auto, using(crate::proofs::lemmas::WordOps::moved))]
    pub(super) fn of_byte(byte: u8) -> Pending
        ensures { result ≡ code byte }
    {
        let code = code_of(u16::from(byte));
        let count = u32::from(code.len);
        Pending {
            count,
            bits: u64::from(code.bits) << (64 - count),
        }
    }

    /// Returns the `count` most significant bits of `bits`, most significant bit first. The other
    /// bits of `bits` must be zero.
    ///
    /// ```
    /// let pending = Pending::of_bits(5, 0x1800000000000000);
    /// assert_eq!(pending.count(), 5);
    /// ```
    #[inline]
    pub fn of_bits(count: u32, bits: u64) -> Pending
        requires few { count < 64 }
        requires no_others { bits % 2 ^ (64 - count) ≡ 0 }
        ensures { result ≡ bits_of count (bits / 2 ^ (64 - count)) }
    {
        Pending { count, bits }
    }

    /// Returns the number of bits.
    ///
    /// ```
    /// assert_eq!(Pending::new().count(), 0);
    /// ```
    #[inline]
    #[tactic(auto, using(crate::proofs::lemmas::WordOps::bits_left))]
    pub fn count(&self) -> u32
        ensures length { result ≡ length self.now }
        ensures few { result < 64 }
    {
        self.count
    }

    /// Returns the bits as the most significant bits of a word, whose other bits are zero.
    ///
    /// ```
    /// let mut pending = Pending::new();
    /// assert!(pending.push_code(b'a').is_none());
    /// assert_eq!(pending.bits(), 0x1800000000000000);
    /// ```
    #[inline]
    pub fn bits(&self) -> u64
        ensures no_others { result % 2 ^ (64 - length self.now) ≡ 0 }
        ensures is { bits_of (length self.now) (result / 2 ^ (64 - length self.now)) ≡ self.now }
    {
        self.bits
    }

    #[tactic(auto, unfolding(octets_code::specs::Bits::bits_of))]
    pub(super) fn is_empty(&self) -> bool
        ensures { IsTrue result ↔ (self.now ≡ []) }
    {
        self.count == 0
    }

    /// Returns how many bytes the bits need.
    #[tactic(auto, using(crate::proofs::lemmas::WordOps::bits_left))]
    pub(super) fn byte_len(&self) -> usize
        ensures bytes { result ≡ (length self.now + 7) / 8 }
        ensures few { length self.now < 64 }
    {
        (self.count as usize + 7) / 8
    }

    /// Adds the code of `byte`. If there are now at least 64 bits, it takes the first 64 and
    /// returns them.
    ///
    /// ```
    /// let mut pending = Pending::of_bits(63, 0);
    /// assert_eq!(pending.push_code(b'a'), Some(0));
    /// assert_eq!(pending.count(), 4);
    /// ```
    #[inline]
    pub fn push_code(&mut self, byte: u8) -> Option<u64>
        ensures none { IfNone result (self.new ≡ self.old ++ code byte) }
        ensures word { IfSome result (λ w. self.old ++ code byte ≡ bits_of 64 w ++ self.new) }
    {
        let code = code_of(u16::from(byte));
        self.push_bits(u32::from(code.len), u64::from(code.bits))
    }

    /// Adds the codes of two bytes at once. If there are now at least 64 bits, it takes the first
    /// 64 and returns them.
    #[inline]
    #[tactic(auto, using(crate::proofs::lemmas::WordOps::shl_or))]
    pub(super) fn push_pair(&mut self, first: u8, second: u8) -> Option<u64>
        ensures none { IfNone result (self.new ≡ self.old ++ (code first ++ code second)) }
        ensures word { IfSome result
            (λ w. self.old ++ (code first ++ code second) ≡ bits_of 64 w ++ self.new) }
    {
        let first = code_of(u16::from(first));
        let second = code_of(u16::from(second));
        let len = u32::from(second.len);
        let bits = u64::from(first.bits) << len | u64::from(second.bits);
        self.push_bits(u32::from(first.len) + len, bits)
    }

    /// Adds the lowest `len` bits of `bits`, whose other bits must be zero. If there are now at
    /// least 64 bits, it takes the first 64 and returns them.
    #[inline]
    fn push_bits(&mut self, len: u32, bits: u64) -> Option<u64>
        requires some { 1 ≤ len }
        requires few { len ≤ 60 }
        requires below { bits < 2 ^ len }
        ensures none { IfNone result (self.new ≡ self.old ++ bits_of len bits) }
        ensures word { IfSome result (λ w. self.old ++ bits_of len bits
            ≡ bits_of 64 w ++ self.new) }
    {
        let count = self.count + len;
        if count < 64 {
            self.bits |= bits << (64 - count);
            self.count = count;
            return None;
        }
        let over = count - 64;
        let word = self.bits | bits >> over;
        // There are two shifts since `over` may be 0, and a shift by 64 bits would overflow.
        self.bits = bits << 1 << (63 - over);
        self.count = over;
        Some(word)
    }

    /// Returns the bits as the most significant bits of a word, whose other bits are ones.
    #[tactic(auto, using(crate::proofs::lemmas::WordOps::bits_left))]
    pub(super) fn last_word(&self) -> u64
        requires { 0 < length self.now }
        ensures { bits_of 64 result ≡ self.now ++ ones (64 - length self.now) }
    {
        self.bits | u64::MAX >> self.count
    }
}
