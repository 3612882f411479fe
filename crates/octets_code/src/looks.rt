//! The lookup table of the codes with which 12 bits begin.

ghost use Rattle.std.specs.Prelude.{◌<◌, ◌^◌};
ghost use Rattle.octets_code.specs.Bits.{bits_of};
ghost use Rattle.octets_code.specs.Looks.{IsLook};

use crate::tables::looks::{CUTS, PAIRS};

/// The codes that are complete in 12 bits, at most two.
#[derive(Clone, Copy, Debug, PartialEq, Eq)]
pub struct Look {
    /// The length of these codes in bits, plus 64 times their number. One byte of the table so has
    /// both, and a decoder that adds up the cuts of several lookups adds up both at once.
    pub cut: u8,
    /// The bytes of these codes. The first byte is the lower one.
    pub pair: u16,
}

/// Returns the codes with which the 12 bits of `index` begin. `index` must be below 4096.
#[inline(always)]
pub fn look_at(index: u16) -> Look
    requires { index < 4096 }
    // There are at most two. If there is none, the 12 bits are the beginning of a longer code.
    ensures { IsLook (bits_of 12 index) result.cut result.pair }
{
    // There are two tables, since each entry of a single one would have a byte of padding.
    Look {
        cut: CUTS[index as usize],
        pair: PAIRS[index as usize],
    }
}
