//! Which failure a decode into a slice met first.
ghost use Rattle.std.specs.Prelude.{◌≡◌, ◌≤◌, ◌<◌, ◌*◌, ℕ, ◌⊎◌, ◌++◌};
ghost use Rattle.std.specs.Prelude.{List, Bool, false, IsTrue, length, take, drop};
ghost use Rattle.octets_code.specs.Bits.{bits_of};
ghost use Rattle.octets_code.specs.Codes.{code};
ghost use Rattle.octets_code.specs.Texts.{bits, HasNoCode};
ghost use Rattle.octets.specs.Reading.{IsReadBefore};
ghost use Rattle.octets.specs.Stops.{IsStoppedBy};

use crate::error::IntoError;
use crate::huffman::decode::reading::front_state;
use crate::huffman::length::bit_len;
use octets_code::{Step, Steps};

/// Returns the half byte number `half` of `text`. The four most significant bits of each byte come
/// first.
#[tactic(auto, using(crate::proofs::lemmas::Fronts::half_bytes))]
fn half_byte(text: &[u8], half: usize) -> u8
    requires inside { half < 2 * length text.now }
    ensures small { result < 16 }
    ensures bits { bits_of 4 result ≡ take 4 (drop (4 * half) (bits text.now)) }
{
    let byte = text[half / 2];
    if half % 2 == 0 { byte >> 4 } else { byte & 0xf }
}

/// Returns whether the code of a byte begins at the bit `at`, by reading 4 bits at a time. If not,
/// EOS or no code begins there.
fn is_byte_at(text: &[u8], at: usize) -> bool
    requires inside { at ≤ 8 * length text.now }
    ensures yes { IsTrue result → (b : ℕ) × (r : List Bool) × (b < 256)
        × (drop at (bits text.now) ≡ code b ++ r) }
    ensures no { result ≡ false
        → ((r : List Bool) × (drop at (bits text.now) ≡ code 256 ++ r))
        ⊎ HasNoCode (drop at (bits text.now)) }
{
    let mut state = front_state(text, at);
    let mut steps = Steps::new();
    for half in at.div_ceil(4)..2 * text.len() {
        match state.step(half_byte(text, half), &mut steps) {
            Step::On(next) => state = next,
            Step::Byte(_, _) => return true,
            Step::End => return false,
        }
    }
    false
}

/// Does the same as `is_byte_at`, for a bit position that may be too large for a `usize`.
fn begins_byte(text: &[u8], at: u128) -> bool
    requires inside { at ≤ 8 * length text.now }
    ensures yes { IsTrue result → (b : ℕ) × (r : List Bool) × (b < 256)
        × (drop at (bits text.now) ≡ code b ++ r) }
    ensures no { result ≡ false
        → ((r : List Bool) × (drop at (bits text.now) ≡ code 256 ++ r))
        ⊎ HasNoCode (drop at (bits text.now)) }
{
    is_byte_at(&text[(at / 8) as usize..], (at % 8) as usize)
}

/// Returns the failure that stopped a decode of `text` into `room` bytes after it wrote `value`. If
/// `value` has `room` bytes, the function reads what follows the codes of `value`.
pub(crate) fn first_fault(text: &[u8], value: &[u8], room: usize) -> IntoError
    requires read { IsReadBefore value.now text.now room }
    requires within { length value.now ≤ room }
    ensures { IsStoppedBy result value.now text.now room }
{
    let written = value.len();
    if written < room {
        return IntoError::NotText { written };
    }
    if begins_byte(text, bit_len(value, false)) {
        IntoError::NoRoom
    } else {
        IntoError::NotText { written }
    }
}
