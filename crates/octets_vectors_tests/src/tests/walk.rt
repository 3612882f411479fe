//! A decoder that reads bit by bit, and whether the calls of the library return what it returns.
ghost use Rattle.std.specs.Prelude.{◌<◌, ◌^◌};

use super::decoding::{ANY, Wanted, all_decode};
use octets::{Octets, OctetsMut};
use octets_code::{State, Step};
use std::alloc::{AllocError, Global};

/// What the decoder by bits found: the bytes that it read, and whether they are the value or it
/// failed; where it stopped; and the steps.
#[derive(Drop)]
pub struct Walked {
    pub bytes: Vec<u8>,
    pub is_value: bool,
    pub off: usize,
    pub steps: u128,
}

/// Returns a failure at a symbol that ends with the bit at `place` of byte `i`.
fn refused_in(bytes: Vec<u8>, i: usize, place: u32) -> Walked
    requires { i < 2 ^ 63 }
{
    let halves = if place < 4 { 1 } else { 2 };
    Walked {
        bytes,
        is_value: false,
        off: i + 1,
        steps: 2 * i as u128 + halves,
    }
}

/// Returns what a decode is expected to return, by reading bit by bit.
pub fn walk(alloc: Global, text: &[u8], limit: usize) -> Result<Walked, AllocError> {
    let mut bytes = Vec::new(alloc);
    let mut state = State::root();
    for (i, byte) in text.iter().enumerate() {
        for place in 0..8 {
            match state.step_bit(*byte >> (7 - place) & 1 == 1) {
                Step::On(next) => state = next,
                Step::Byte(next, symbol) if bytes.len() < limit => {
                    bytes.push(symbol)?;
                    state = next;
                }
                _ => return Ok(refused_in(bytes, i, place)),
            }
        }
    }
    Ok(Walked {
        bytes,
        is_value: state.is_fill(),
        off: text.len(),
        steps: 2 * text.len() as u128,
    })
}

/// Whether a decode into a slice of `room` bytes writes what was found, and leaves the rest
/// unchanged.
fn is_put(alloc: Global, text: &[u8], room: usize, walked: &Walked) -> Result<bool, AllocError> {
    let mut out = vec![in alloc; 0x2e; room]?;
    let mut cursor = Octets::with_slice(text);
    let len = cursor.get_huffman_decoded_into(&mut out).ok();
    let wanted = walked.is_value.then_some(walked.bytes.len());
    let Some((front, rest)) = out.split_at_checked(walked.bytes.len()) else {
        return Ok(false);
    };
    Ok(
        len == wanted
            && cursor.off() == walked.off
            && *front == *walked.bytes.as_slice()
            && rest.iter().all(|byte| *byte == 0x2e),
    )
}

/// Whether the four decodes return what the decoder by bits returns. Without a limit the slice is
/// long enough for every value.
pub fn agrees(alloc: Global, text: &[u8], limit: usize) -> Result<bool, AllocError> {
    let walked = walk(alloc, text, limit)?;
    let wanted = Wanted {
        value: walked.is_value.then_some(walked.bytes.as_slice()),
        off: walked.off,
        steps: walked.steps,
    };
    let room = if limit == ANY {
        text.len().saturating_mul(2)
    } else {
        limit
    };
    Ok(all_decode(alloc, text, limit, &wanted) && is_put(alloc, text, room, &walked)?)
}

/// Whether both cursors copy all the bytes.
pub fn is_copied(alloc: Global, bytes: &[u8]) -> Result<bool, AllocError> {
    let mut copy = Octets::with_slice(bytes).to_vec(alloc)?;
    if copy.as_slice() != bytes {
        return Ok(false);
    }
    let again = OctetsMut::with_slice(&mut copy).to_vec(alloc)?;
    Ok(again.as_slice() == bytes)
}
