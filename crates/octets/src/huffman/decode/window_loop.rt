//! Reads the codes of an encoding in windows of 64 bits.
ghost use Rattle.std.specs.Prelude.{◌≡◌, ◌*◌, ◌+◌, ◌<◌, ◌≤◌, ◌^◌, false, []};
ghost use Rattle.std.specs.Prelude.{length, drop, min, IfSome, IfNone, IsTrue};
ghost use Rattle.octets_code.specs.Bits.{bits_of};
ghost use Rattle.octets_code.specs.Steps.{IsFill};
ghost use Rattle.octets_code.specs.Texts.{bits, AreBytes};
ghost use Rattle.octets.specs.Windows.{IsGroup, AreCut, BeginsWithByte};

use crate::huffman::decode::group::{Group, long_code, look_ahead};
use crate::huffman::decode::short::look_through;
use crate::huffman::decode::store::Store;
use crate::huffman::decode::window::{bits_behind, first_window, last_word, next_window};

/// Returns the codes of bytes at the start of the window: at most `room` codes, of at most `left`
/// bits together. It returns `None` if the first code isn't that of a byte or has more than `left`
/// bits, or if `room` is 0.
#[inline(always)]
fn codes_at_start(window: u64, left: usize, room: usize) -> Option<Group>
    ensures group { IfSome result (λ g. IsGroup (bits_of 64 window) g.len g.count g.bytes) }
    ensures within { IfSome result (λ g. (1 ≤ g.len) × (g.len ≤ left) × (g.count ≤ room)) }
    ensures none { IfNone result (0 < room → ¬ BeginsWithByte (bits_of 64 window) left) }
{
    match look_ahead(window) {
        Some(seen) if seen.len <= left && seen.count <= room => Some(seen),
        // Here only the padding is left, in which there is no code.
        None if left <= 12 => None,
        _ => one_at_start(window, left, room),
    }
}

/// Returns the one code of a byte at the start of the window, under the limits of `codes_at_start`.
fn one_at_start(window: u64, left: usize, room: usize) -> Option<Group>
    ensures group { IfSome result (λ g. IsGroup (bits_of 64 window) g.len g.count g.bytes) }
    ensures within { IfSome result (λ g. (1 ≤ g.len) × (g.len ≤ left) × (g.count ≤ room)) }
    ensures none { IfNone result (0 < room → ¬ BeginsWithByte (bits_of 64 window) left) }
{
    if room == 0 {
        return None;
    }
    let found = long_code(window)?;
    let len = usize::from(found.len);
    if len > left {
        return None;
    }
    Some(Group {
        len,
        count: 1,
        bytes: u64::from(found.byte),
    })
}

/// The part of an encoding that was read in windows.
#[derive(Drop)]
pub(super) struct Whole {
    /// The number of bits of the codes that were read.
    pub(super) at: usize,
    /// Whether the remaining bits are the padding.
    pub(super) filled: bool,
}

/// Adds the bytes whose codes are at the start of `text`. It stops at the padding, at the limit, or
/// if no code of a byte follows. It reads nothing of an encoding of 2^60 bytes or more (of 2^28
/// bytes, if `usize` has 32 bits), so that the number of bits plus 128 fits in a `usize`.
#[inline(always)]
pub(super) fn read_whole<S: Store>(text: &[u8], value: &mut S, max_len: usize) -> Whole
    requires empty { S.held value.old ≡ [] }
    requires room { min (2 * length text.now) max_len ≤ S.room value.old }
    ensures inside { result.at ≤ 8 * length text.now }
    ensures cut { AreCut text.now result.at (S.held value.new) }
    ensures filled { IsTrue result.filled → IsFill (drop result.at (bits text.now)) }
    ensures stopped { result.filled ≡ false → length text.now < 2 ^ 60
        → length (S.held value.new) < max_len
        → ¬ BeginsWithByte (drop result.at (bits text.now)) 30 }
    ensures bytes { AreBytes (S.held value.new) }
    ensures within { length (S.held value.new) ≤ max_len }
    ensures added { S.adds value.old value.new (S.held value.new) }
{
    if text.len() >= 1 << (usize::BITS - 4) {
        return Whole {
            at: 0,
            filled: false,
        };
    }
    let total = 8 * text.len();
    let last = last_word(text);
    let mut window = first_window(text, last);
    let mut at = 0;
    if text.len() <= 8 {
        let mut bytes = [0; 32];
        let found = look_through(window, &mut bytes);
        if found.count > 0 && found.at <= total && found.count <= max_len {
            value.put_first(&bytes, found.count);
            window = !found.inverse;
            at = found.at;
        }
    }
    'groups: while total - at >= 8 || window != u64::MAX {
        let Some(codes) = codes_at_start(window, total - at, max_len - value.count()) else {
            return Whole { at, filled: false };
        };
        let next = bits_behind(text, last, at);
        value.put_word(codes.bytes, codes.count);
        window = next_window(window, next, codes.len);
        at += codes.len;
    }
    Whole { at, filled: true }
}
