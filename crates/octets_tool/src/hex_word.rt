//! Words that spell bytes in hexadecimal.

ghost use Rattle.std.specs.Prelude.{◌≡◌, ◌↔◌, ℕ, List, [], ◌∷◌, ◌<◌};
ghost use Rattle.std.specs.Prelude.{Some, option_map, vec_items};
ghost use Rattle.octets.specs.Bytes.{AreBytes};
ghost use Rattle.octets_tool.specs.Lines.{hex, hex_digit, byte_digits};
ghost use Rattle.octets_tool.specs.Requests.{OrRefused};

use crate::memory::{push, reserved};
use std::alloc::{AllocError, Global};

/// Returns the bytes that a word spells, with two lower-case digits for each byte, or `-` for none:
/// without it, no bytes would be an empty word, which no reader of the line sees.
pub fn bytes_of(alloc: Global, word: &[u8]) -> Result<Option<Vec<u8>>, AllocError>
    ensures { OrRefused result (λ found. (b : List ℕ)
        → (option_map vec_items found ≡ Some b) ↔ (AreBytes b × (word.now ≡ hex b))) }
{
    if word == b"-".as_slice() {
        return Ok(Some(Vec::new(alloc)));
    }
    if word.is_empty() {
        return Ok(None);
    }
    let mut bytes = reserved(alloc, word.len() / 2)?;
    let mut rest = word;
    while let [high, low, after @ ..] = rest {
        let Some(byte) = byte_value(*high, *low) else {
            return Ok(None);
        };
        push(&mut bytes, byte)?;
        rest = after;
    }
    if !rest.is_empty() {
        return Ok(None);
    }
    Ok(Some(bytes))
}

/// Returns the byte that two digits spell, the higher one first.
fn byte_value(high: u8, low: u8) -> Option<u8>
    ensures { (b : ℕ) → (result ≡ Some b) ↔ ((b < 256) × (high ∷ low ∷ [] ≡ byte_digits b)) }
{
    Some(16 * digit_value(high)? + digit_value(low)?)
}

/// Returns the number of a digit.
fn digit_value(digit: u8) -> Option<u8>
    ensures { (d : ℕ) → (result ≡ Some d) ↔ ((d < 16) × (digit ≡ hex_digit d)) }
{
    match digit {
        b'0'..=b'9' => Some(digit - b'0'),
        b'a'..=b'f' => Some(digit - b'a' + 10),
        _ => None,
    }
}
