//! Numbers that a command writes as varints (RFC 9000, section 16).
ghost use Rattle.std.specs.Prelude.{◌≡◌, ◌↔◌, ◌-◌, ◌*◌, ◌^◌, ◌<◌, IsSome, IfSome};
ghost use Rattle.octets.specs.Varints.{IsWidth};

use octets::{MAX_VAR_INT, varint_fits};
use std::marker::Model;

/// A number that a varint can hold. Contracts see it as the number.
#[derive(Clone, Copy, Debug, PartialEq, Eq)]
pub struct Varint {
    number: u64,
}

impl Model for Varint {
    ghost use Rattle.std.specs.Prelude.{ℕ, ◌<◌, ◌^◌};

    ghost Value = { ℕ };

    ghost view = { λ v. v.number };

    ghost inverse = { λ n. record { number = n } };

    ghost invariant = { λ v. v.number < 2 ^ 62 };
}

impl Varint {
    /// Returns `v`, if a varint can hold it.
    pub fn new(v: u64) -> Option<Varint>
        ensures held { IsSome result ↔ (v < 2 ^ 62) }
        ensures value { IfSome result (λ n. n ≡ v) }
    {
        if v > MAX_VAR_INT {
            return None;
        }
        Some(Varint { number: v })
    }

    /// Returns the number.
    pub fn get(&self) -> u64
        ensures value { result ≡ self.now }
        ensures held { result < 2 ^ 62 }
    {
        self.number
    }
}

/// A number, and the width of its varint in bytes. Contracts see it as these two numbers.
#[derive(Clone, Copy, Debug, PartialEq, Eq)]
pub struct Wide {
    value: u64,
    width: usize,
}

impl Model for Wide {
    ghost use Rattle.std.specs.Prelude.{◌-◌, ◌*◌, ◌^◌, ◌<◌};
    ghost use Rattle.octets.specs.Varints.{IsWidth};
    ghost use Rattle.octets_script.specs.Wides.{WideNumber};

    ghost Value = { WideNumber };

    ghost view = { λ n. record { value = n.value; width = n.width } };

    ghost inverse = { λ n. record { value = n.value; width = n.width } };

    ghost invariant = { λ n. IsWidth n.width × (n.value < 2 ^ (8 * n.width - 2)) };
}

impl Wide {
    /// Returns `v` with `width`, if varints have that width and one of that width holds `v`.
    pub fn new(v: u64, width: usize) -> Option<Wide>
        ensures held { IsSome result ↔ (IsWidth width × (v < 2 ^ (8 * width - 2))) }
        ensures value { IfSome result (λ n. (n.value ≡ v) × (n.width ≡ width)) }
    {
        if !varint_fits(v, width) {
            return None;
        }
        Some(Wide { value: v, width })
    }

    /// Returns the number.
    pub fn value(&self) -> u64
        ensures value { result ≡ self.now.value }
        ensures held { result < 2 ^ (8 * self.now.width - 2) }
    {
        self.value
    }

    /// Returns the width in bytes: 1, 2, 4 or 8.
    pub fn width(&self) -> usize
        ensures width { result ≡ self.now.width }
        ensures is_width { IsWidth result }
    {
        self.width
    }
}
