//! The symbol of a code, found by the one bits with which the code begins.

ghost use Rattle.std.specs.Prelude.{◌≡◌, ◌/◌, ◌%◌, ◌-◌, ◌*◌, ◌+◌, ◌^◌};
ghost use Rattle.std.specs.Prelude.{◌<◌, ◌≤◌, IfSome, IfNone, length};
ghost use Rattle.octets_code.specs.Bits.{bits_of};
ghost use Rattle.octets_code.specs.Codes.{code};
ghost use Rattle.octets_code.specs.Looks.{BeginsWithCode};

use crate::tables::symbols::SYMBOLS;

/// A byte, and the length of its code.
#[derive(Clone, Copy, Debug, PartialEq, Eq)]
pub struct Coded {
    /// The byte.
    pub byte: u8,
    /// The length of its code in bits, from 5 to 30.
    pub len: u8,
}

/// Reads `ones` one bits, a zero and the five bits of `more`. It returns the byte whose code these
/// bits begin with, or `None` for thirty one bits, which are the end code. `ones` must be at most
/// 30, and `more` below 32. No code has more than five bits after its first zero.
#[inline(always)]
pub fn code_behind(ones: u32, more: u8) -> Option<Coded>
    requires few { ones ≤ 30 }
    requires five { more < 32 }
    ensures code { IfSome result (λ c. BeginsWithCode
        (bits_of (ones + 6) ((2 ^ ones - 1) * 64 + more)) c.byte) }
    ensures len { IfSome result (λ c. c.len ≡ length (code c.byte)) }
    ensures zero { IfSome result (λ _. ones < 30) }
    ensures end { IfNone result (ones ≡ 30) }
{
    let entry = entry_at(ones, more);
    let symbol = entry >> 5;
    if symbol > 255 {
        return None;
    }
    Some(Coded {
        byte: symbol as u8,
        len: (entry & 31) as u8,
    })
}

/// Returns 32 times the symbol whose code these bits begin with, plus the length of this code, so
/// that the table is read by one load. Thirty ones begin with the code of 256.
#[inline(always)]
fn entry_at(ones: u32, more: u8) -> u16
    requires few { ones ≤ 30 }
    requires five { more < 32 }
    ensures byte { result / 32 < 256 → (ones < 30) × (result % 32 ≡ length (code (result / 32)))
        × BeginsWithCode (bits_of (ones + 6) ((2 ^ ones - 1) * 64 + more)) (result / 32) }
    ensures end { 256 ≤ result / 32 → ones ≡ 30 }
{
    SYMBOLS[ones as usize * 32 + usize::from(more)]
}
