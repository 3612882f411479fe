//! The code of each symbol, and the symbol of each code.

ghost use Rattle.std.specs.Prelude.{◌≡◌, ◌<◌, ◌^◌, ◌≤◌, ℕ, MatchOption, length};
ghost use Rattle.octets_code.specs.Bits.{bits_of};
ghost use Rattle.octets_code.specs.Codes.{code, HasCode};

use crate::entries::Code;
use crate::tables::codes::CODES;
use crate::tables::lengths::CODE_LENGTHS;

/// Returns the code of the symbol `sym` (RFC 7541, Appendix B).
///
/// A symbol is a byte, or 256 for the end of a string. No text contains the code of 256.
#[inline(always)]
pub fn code_of(sym: u16) -> Code
    requires { sym ≤ 256 }
    // It is the code of the table in `specs/Table.antt`, as a number and as bits.
    ensures row { HasCode sym result.len result.bits }
    ensures bits { bits_of result.len result.bits ≡ code sym }
    ensures small { (5 ≤ result.len) × (result.len ≤ 30) × (result.bits < 2 ^ result.len) }
{
    // Each field is copied by itself. If the whole code is copied, the compiler loads it as one
    // word, and then takes it apart.
    let code = &CODES[sym as usize];
    Code {
        len: code.len,
        bits: code.bits,
    }
}

/// Returns the length of the code of `byte` in bits.
///
/// It reads a table of 1 KiB; [`code_of`] reads one of 2 KiB.
#[inline(always)]
pub fn code_len(byte: u8) -> u32
    ensures len { result ≡ length (code byte) }
    ensures small { (5 ≤ result) × (result ≤ 30) }
{
    CODE_LENGTHS[byte as usize]
}

/// Returns the symbol whose code is the number `bits` in `len` bits.
///
/// It searches the whole table, and is meant for tests. It returns `None` if no code has this
/// length and these bits. That includes bits that don't fit into `len` bits.
pub fn lookup(len: u8, bits: u32) -> Option<u16>
    ensures { MatchOption result
        ((s : ℕ) → s ≤ 256 → ¬ HasCode s len bits)
        (λ s. (s ≤ 256) × HasCode s len bits) }
{
    for symbol in 0..257 {
        let code = code_of(symbol);
        if code.len == len && code.bits == bits {
            return Some(symbol);
        }
    }
    None
}
