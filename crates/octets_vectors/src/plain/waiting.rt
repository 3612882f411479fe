//! The bits that don't fill a byte yet.
ghost use Rattle.std.specs.Prelude.{◌≡◌, ◌<◌, ◌++◌, ◌↔◌, [], ◌∷◌, IsTrue, IfNone, IfSome, length};
ghost use Rattle.octets_code.specs.Bits.{bits_of};
ghost use Rattle.octets_code.specs.Codes.{code};
ghost use Rattle.octets_code.specs.Texts.{bytes_of};

use octets_code::code_of;
use std::marker::Model;

/// The lowest `count` bits of `bits`, the highest of them first.
#[derive(Drop)]
pub(super) struct Waiting {
    count: u32,
    bits: u64,
}

impl Model for Waiting {
    ghost use Rattle.std.specs.Prelude.{◌<◌, ◌^◌, Bool, List};
    ghost use Rattle.octets_code.specs.Bits.{bits_of};

    ghost Value = { List Bool };

    ghost view = { λ p. bits_of p.count p.bits };

    ghost invariant = { λ p. (p.count < 64) × (p.bits < 2 ^ p.count) };
}

impl Waiting {
    #[tactic(auto, unfolding(octets_code::specs::Bits::bits_of))]
    pub(super) fn new() -> Waiting
        ensures { result ≡ [] }
    {
        Waiting { count: 0, bits: 0 }
    }

    #[tactic(auto, using(crate::proofs::Sets::codes), unfolding(octets_code::specs::Bits::bits_of))]
    pub(super) fn is_empty(&self) -> bool
        ensures { IsTrue result ↔ (self.now ≡ []) }
    {
        self.count == 0
    }

    /// Adds the code of `byte`.
    pub(super) fn push(&mut self, byte: u8)
        requires { length self.old < 8 }
        ensures { self.new ≡ self.old ++ code byte }
    {
        let code = code_of(u16::from(byte));
        self.bits = self.bits << code.len | u64::from(code.bits);
        self.count += u32::from(code.len);
    }

    /// Takes the first eight bits, if there are as many.
    pub(super) fn take_byte(&mut self) -> Option<u8>
        ensures none { IfNone result ((self.new ≡ self.old) × (length self.old < 8)) }
        ensures byte { IfSome result (λ b. self.old ≡ bits_of 8 b ++ self.new) }
    {
        if self.count < 8 {
            return None;
        }
        let rest = self.count - 8;
        let byte = self.bits >> rest;
        self.bits &= (1 << rest) - 1;
        self.count = rest;
        Some(byte as u8)
    }

    /// Returns the waiting bits, filled up with one bits to a byte.
    pub(super) fn last_byte(&self) -> u8
        requires some { 0 < length self.now }
        requires few { length self.now < 8 }
        ensures { bytes_of self.now ≡ result ∷ [] }
    {
        let fill = 8 - self.count;
        (self.bits << fill | (1 << fill) - 1) as u8
    }
}
