//! Huffman encoding (RFC 7541, section 5.2) piece by piece, for a caller that keeps the state
//! between the calls.
ghost use Rattle.std.specs.Prelude.{◌≡◌, ◌≢◌, ◌⊎◌, ◌↔◌, ◌+◌, ◌/◌, [], ◌∷◌, ◌++◌, ◌<◌};
ghost use Rattle.std.specs.Prelude.{◌≤◌, length, take, drop, IsTrue, IfNone, IfSome};
ghost use Rattle.octets_code.specs.Bits.{bits_of};
ghost use Rattle.octets_code.specs.Codes.{code};
ghost use Rattle.octets_code.specs.Texts.{bytes_of};
ghost use Rattle.octets.specs.Encodes.{cased, text_of};
ghost use Rattle.octets.specs.Pieces.{pieces};
ghost use Rattle.octets_c.specs.Pieces.{waiting, bits_left, next_of, HoldsBits};
ghost use Rattle.octets_c.specs.Pieces.{CanBePlace, IsStart, text_left, pieces_left};
ghost use Rattle.octets_c.specs.Statuses.{done, unfit};

use crate::status::{DONE, UNFIT};
use octets::{Pending, cased_byte};

/// The state of an encode. At its start all fields are zero.
#[derive(Clone, Copy)]
#[repr(C)]
pub struct Place {
    /// How many bytes of the value were taken.
    pub at: usize,
    /// The bits of their codes that weren't given yet, as the highest bits; the others are zero.
    pub bits: u64,
    /// How many bits these are, below 64.
    pub count: u32,
    /// How many of the last bytes were given. The last bytes come after the last whole word.
    pub given: u32,
}

/// Returns whether fewer than 64 bits wait, and no other bit is set.
fn holds_bits(place: &Place) -> bool
    ensures { IsTrue result ↔ HoldsBits place.now }
{
    place.count < 64 && place.bits & (u64::MAX >> place.count) == 0
}

/// Adds the code of `byte` to the bits that wait. If there are now at least 64 bits, it takes the
/// first 64 and returns them.
fn push_code(place: &mut Place, byte: u8) -> Option<u64>
    requires { HoldsBits place.old }
    ensures holds { HoldsBits place.new }
    ensures none { IfNone result (waiting place.new ≡ waiting place.old ++ code byte) }
    ensures word { IfSome result
        (λ w. waiting place.old ++ code byte ≡ bits_of 64 w ++ waiting place.new) }
    ensures stays { (place.new.at ≡ place.old.at) × (place.new.given ≡ place.old.given) }
{
    let mut pending = Pending::of_bits(place.count, place.bits);
    let word = pending.push_code(byte);
    place.count = pending.count();
    place.bits = pending.bits();
    word
}

/// Returns the next word of the encoding, if the bits that wait and the codes that follow fill one.
/// Otherwise all codes wait.
#[tactic(auto, using(crate::proofs::Waiting::code_on, crate::proofs::Waiting::codes_over))]
fn next_word(place: &mut Place, value: &[u8], to_lower: bool) -> Option<u64>
    requires { HoldsBits place.old }
    ensures holds { HoldsBits place.new }
    ensures given { place.new.given ≡ place.old.given }
    ensures within { place.old.at ≤ length value.now → place.new.at ≤ length value.now }
    ensures word { IfSome result (λ w. (place.old.at < length value.now)
        × (bits_left to_lower value.now place.old
        ≡ bits_of 64 w ++ bits_left to_lower value.now place.new)) }
    ensures none { IfNone result ((length value.now ≤ place.new.at)
        × (bits_left to_lower value.now place.old ≡ waiting place.new)) }
    ensures all_wait { IfNone result
        (bits_left to_lower value.now place.new ≡ waiting place.new) }
{
    for at in place.at..value.len() {
        place.at = at + 1;
        if let Some(word) = push_code(place, cased_byte(value[at], to_lower)) {
            return Some(word);
        }
    }
    None
}

/// Returns how many bytes the next piece of the last bytes has, or 0 if none is left. The last
/// bytes are those that `count` bits need, and `given` of them were given before.
///
/// These are the pieces of `octets_put_huffman_encoded`: one of four bytes, if there are as many,
/// and then single bytes. Once the first piece was given, each further one is a single byte.
#[tactic(auto, using(crate::proofs::Places::pieces), unfolding(crate::specs::Pieces::next_of))]
fn next_len(count: u32, given: u32) -> usize
    requires { count < 64 }
    ensures len { result ≡ next_of count given }
    ensures within { 0 < result → given + result ≤ (count + 7) / 8 }
    ensures end { (result ≡ 0) ↔ ((count + 7) / 8 ≤ given) }
    ensures few { result ≤ 4 }
{
    let all = (count + 7) / 8;
    if all <= given {
        return 0;
    }
    if given == 0 && 4 <= all {
        return 4;
    }
    1
}

/// Gives the next of the last bytes, and returns how many these are, which is 0 if none is left.
fn give_last(place: &mut Place, piece: &mut [u8; 8]) -> usize
    requires { HoldsBits place.old }
    ensures same { (place.new.at ≡ place.old.at) × (place.new.count ≡ place.old.count)
        × (place.new.bits ≡ place.old.bits) }
    ensures bytes { drop place.old.given (bytes_of (waiting place.old))
        ≡ take result piece.new ++ drop place.new.given (bytes_of (waiting place.old)) }
    ensures behind { drop result piece.new ≡ drop result piece.old }
    ensures given { place.new.given ≡ place.old.given + result }
    ensures len { result ≡ next_of place.old.count place.old.given }
    ensures end { (result ≡ 0) ↔ ((place.old.count + 7) / 8 ≤ place.old.given) }
{
    let len = next_len(place.count, place.given);
    if len == 0 {
        return 0;
    }
    let from = place.given as usize;
    let bytes = (place.bits | u64::MAX >> place.count).to_be_bytes();
    piece[..len].copy_from_slice(&bytes[from..from + len]);
    place.given += len as u32;
    len
}

/// Returns whether the place can be one that an encode of `value` leaves: it holds bits, it isn't
/// past `value`, and the last bytes are begun only after all of `value`.
fn can_be_place(place: &Place, value: &[u8]) -> bool
    ensures { IsTrue result ↔ CanBePlace value.now place.now }
{
    holds_bits(place) && place.at <= value.len() && (place.given == 0 || value.len() <= place.at)
}

/// Gives the next piece, and returns how many bytes it has, which is 0 if none is left.
fn give_piece(place: &mut Place, value: &[u8], to_lower: bool, piece: &mut [u8; 8]) -> usize
    requires { CanBePlace value.now place.old }
    ensures text { text_left to_lower value.now place.old
        ≡ take result piece.new ++ text_left to_lower value.now place.new }
    ensures pieces { 0 < result → pieces_left to_lower value.now place.old
        ≡ result ∷ pieces_left to_lower value.now place.new }
    ensures behind { drop result piece.new ≡ drop result piece.old }
    ensures ends { (result ≡ 0) ↔ (text_left to_lower value.now place.old ≡ []) }
    ensures goes_on { CanBePlace value.now place.new }
{
    if let Some(word) = next_word(place, value, to_lower) {
        *piece = word.to_be_bytes();
        return 8;
    }
    give_last(place, piece)
}

/// Writes the next piece of the encoding of value to the first *len bytes of *piece. The pieces are
/// those into which octets_put_huffman_encoded divides the encoding. *len is the size of the piece:
/// 8, 4 or 1, or 0 if no piece was left. The other bytes of *piece are unchanged. Zero-initialize
/// *place before the first call, and pass the same value, lower_case and place to each call.
///
/// Returns OCTETS_UNFIT if and only if at least one of these is true: `count` is 64 or more; `bits`
/// has a 1 after its first `count` bits; `at` is above value_len; `at` is below value_len while
/// `given` isn't 0. Otherwise it returns OCTETS_DONE. A zero-initialized state, and every state
/// that a call with the same value left, is accepted. A wrong state that meets none of these
/// conditions isn't detected, for example if value was changed. The call then continues with the
/// contents of `bits`, and with the bytes of value from index `at` on, whatever these are.
#[unsafe(no_mangle)]
pub extern "C" fn octets_next_piece(
    value: &[u8],
    lower_case: bool,
    place: &mut Place,
    piece: &mut [u8; 8],
    len: &mut usize,
) -> u8
    ensures fits { (result ≡ done) ↔ CanBePlace value.now place.old }
    ensures status { (result ≡ done) ⊎ (result ≡ unfit) }
    ensures text { result ≡ done → text_left lower_case value.now place.old
        ≡ take len.new piece.new ++ text_left lower_case value.now place.new }
    ensures pieces { result ≡ done → 0 < len.new → pieces_left lower_case value.now place.old
        ≡ len.new ∷ pieces_left lower_case value.now place.new }
    ensures behind { result ≡ done → drop len.new piece.new ≡ drop len.new piece.old }
    ensures ends { result ≡ done
        → (len.new ≡ 0) ↔ (text_left lower_case value.now place.old ≡ []) }
    ensures goes_on { result ≡ done → CanBePlace value.now place.new }

    // From the start on, the pieces together are the encoding, in the pieces in which
    // `octets_put_huffman_encoded` writes it. After an error nothing has changed.
    ensures starts { IsStart place.old → (result ≡ done)
        × (text_left lower_case value.now place.old ≡ text_of lower_case value.now)
        × (pieces_left lower_case value.now place.old ≡ pieces (cased lower_case value.now)) }
    ensures refused { result ≢ done → (place.new ≡ place.old) × (piece.new ≡ piece.old)
        × (len.new ≡ len.old) }
{
    if can_be_place(place, value) {
        *len = give_piece(place, value, lower_case, piece);
        DONE
    } else {
        UNFIT
    }
}
