//! Words that spell decimal numbers.

ghost use Rattle.std.specs.Prelude.{◌≡◌, ◌↔◌, ℕ, ◌^◌, ◌<◌, ◌≤◌, if◌then◌else◌, nat_le, Some, None};
ghost use Rattle.std.specs.Fmt.{decimal};
ghost use Rattle.octets_tool.specs.Limits.{most_count};

use std::str;

/// The greatest limit, position or number of bytes that a word may spell. It fits in a `usize` of
/// 32 bits too.
pub const MOST_COUNT: u64 = 4_294_967_295;

/// Returns the decimal number that a word spells. It has no sign, and no leading zero except in
/// `0`.
#[tactic(auto, using(crate::proofs::Decimals::decimals))]
pub fn number_of(word: &[u8]) -> Option<u64>
    ensures { (n : ℕ) → (result ≡ Some n) ↔ ((n < 2 ^ 64) × (word.now ≡ decimal n)) }
{
    match word.first()? {
        // `parse` accepts a plus sign and leading zeros. Here a number is spelled in one way only.
        b'+' => None,
        b'0' if word.len() > 1 => None,
        _ => str::from_utf8(word).ok()?.parse().ok(),
    }
}

/// Returns the decimal number that a word spells, if it may be a limit, a position or a number of
/// bytes.
#[tactic(auto, using(crate::proofs::Rows::counted))]
pub fn count_of(word: &[u8]) -> Option<usize>
    ensures { (n : ℕ) → (result ≡ Some n) ↔ ((n ≤ most_count) × (word.now ≡ decimal n)) }
{
    count(number_of(word)?)
}

/// Returns the number, if it may be a limit, a position or a number of bytes.
pub fn count(number: u64) -> Option<usize>
    ensures { result ≡ (if nat_le number most_count then Some number else None) }
{
    (number <= MOST_COUNT).then_some(number as usize)
}
