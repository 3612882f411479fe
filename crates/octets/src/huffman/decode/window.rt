//! The bits of an encoding in windows of 64 bits, with one bits after its end.
ghost use Rattle.std.specs.Prelude.{◌≡◌, ◌+◌, ◌-◌, ◌*◌, ◌<◌, ◌≤◌, ◌++◌};
ghost use Rattle.std.specs.Prelude.{◌^◌, ℕ, List, length, take, drop, min};
ghost use Rattle.octets_code.specs.Bits.{bits_of};
ghost use Rattle.octets_code.specs.Texts.{ones};
ghost use Rattle.octets.specs.Windows.{IsWindow, IsBehind, IsLast};

use crate::huffman::words::{half_of, word_of};

/// Returns the last eight bytes of the encoding, or all bytes if there are fewer. The last byte is
/// the least significant one.
#[inline(always)]
pub(super) fn last_word(text: &[u8]) -> u64
    ensures { IsLast text.now result }
{
    let len = text.len();
    if len >= 8 {
        return word_of(&text[len - 8..]);
    }
    if len >= 4 {
        let first = half_of(&text[..4]);
        let last = half_of(&text[len - 4..]);
        // The left operand has those of the first four bytes that aren't among the last four.
        return u64::from(first) >> (8 * (8 - len)) << 32 | u64::from(last);
    }
    let mut word: u64 = 0;
    for byte in text {
        word = word << 8 | u64::from(*byte);
    }
    word
}

/// Returns `last` without its first `past` bits, followed by one bits.
#[inline(always)]
#[tactic(auto, using(crate::proofs::lemmas::WindowBits::ended_none, crate::proofs::lemmas::WindowBits::ended_some))]
fn rest_and_ones(last: u64, past: usize) -> u64
    ensures bits { bits_of 64 result ≡ drop past (bits_of 64 last) ++ ones (min past 64) }
{
    if past >= 64 {
        return u64::MAX;
    }
    last << past | ((1 << past) - 1)
}

/// Returns the first 64 bits of the encoding.
#[inline(always)]
pub(super) fn first_window(text: &[u8], last: u64) -> u64
    requires last { IsLast text.now last }
    ensures { IsWindow text.now 0 result }
{
    if text.len() >= 8 {
        return word_of(&text[..8]);
    }
    rest_and_ones(last, 64 - 8 * text.len())
}

/// Returns the bits that follow the window that begins at the bit `at`.
#[inline(always)]
#[tactic(auto, using(crate::proofs::lemmas::WindowBits::behind_within, crate::proofs::lemmas::WindowBits::behind_end))]
pub(super) fn bits_behind(text: &[u8], last: u64, at: usize) -> u64
    requires last { IsLast text.now last }
    requires short { length text.now < 2 ^ 60 }
    requires inside { at ≤ 8 * length text.now }
    ensures { IsBehind text.now at result }
{
    let from = at / 8;
    if text.len() - from >= 16 {
        return word_of(&text[from + 8..from + 16]) << (at % 8);
    }
    rest_and_ones(last, at + 128 - 8 * text.len())
}

/// Returns the window that begins `count` bits later.
#[inline(always)]
#[tactic(auto, using(crate::proofs::lemmas::WindowBits::moved_on))]
pub(super) fn next_window(window: u64, behind: u64, count: usize) -> u64
    requires few { count ≤ 57 }
    ensures { (t : List ℕ) (at : ℕ) → IsWindow t at window → IsBehind t at behind
        → IsWindow t (at + count) result }
{
    // There are two shifts since `count` may be 0, and a shift by 64 bits would overflow.
    window << count | behind >> 1 >> (63 - count)
}
