//! The length of a Huffman encoding.
ghost use Rattle.std.specs.Prelude.{◌≡◌, ◌+◌, ◌*◌, ◌^◌, ◌<◌, ◌≤◌, ◌↔◌, length, IsOk, IfOk};
ghost use Rattle.octets_code.specs.Codes.{code};
ghost use Rattle.octets_code.specs.Texts.{codes};
ghost use Rattle.octets.specs.Encodes.{cased, cased_byte, text_of};

use crate::error::{BufferTooShortError, Result};
use crate::huffman::case::cased_byte;
use octets_code::code_len;

/// Returns how many bits the code of `byte` has.
#[inline(always)]
fn byte_bit_len(byte: u8, to_lower: bool) -> u32
    ensures len { result ≡ length (code (cased_byte to_lower byte)) }
    ensures few { result ≤ 30 }
{
    code_len(cased_byte(byte, to_lower))
}

/// Returns how many bits the code of each byte of `pair` has.
#[inline(always)]
#[tactic(auto, using(crate::proofs::lemmas::CasedCodes::pair_loaded))]
fn pair_bit_lens(pair: &[u8; 2], to_lower: bool) -> (u32, u32)
    ensures len { result.0 + result.1 ≡ length (codes (cased to_lower pair.now)) }
    ensures few { (result.0 ≤ 30) × (result.1 ≤ 30) }
{
    // As a little-endian number, both bytes are one load.
    let both = u16::from_le_bytes(*pair);
    (
        byte_bit_len((both & 0xff) as u8, to_lower),
        byte_bit_len((both >> 8) as u8, to_lower),
    )
}

/// Returns how many bits the codes of `src` have. `src` must have fewer than 2 to the power 27
/// bytes, so that sums of 32 bits don't overflow. There are two sums, so that one addition needn't
/// wait for the other.
#[inline(always)]
#[tactic(auto, using(crate::proofs::lemmas::CasedCodes::code_lengths))]
fn short_bit_len(src: &[u8], to_lower: bool) -> u32
    requires short { length src.now < 2 ^ 27 }
    ensures bits { result ≡ length (codes (cased to_lower src.now)) }
    ensures few { result ≤ 30 * length src.now }
{
    let (pairs, last) = src.as_chunks::<2>();
    let mut first = 0;
    let mut second = 0;
    for pair in pairs {
        let lens = pair_bit_lens(pair, to_lower);
        first += lens.0;
        second += lens.1;
    }
    if let [odd] = last {
        first += byte_bit_len(*odd, to_lower);
    }
    first + second
}

/// Returns how many bits the codes of `src` have. The sum has 128 bits, so it can't overflow. The
/// function isn't inlined, so that a call on a short value has less code.
#[inline(never)]
#[tactic(auto, using(crate::proofs::lemmas::CasedCodes::code_lengths))]
fn long_bit_len(src: &[u8], to_lower: bool) -> u128
    ensures bits { result ≡ length (codes (cased to_lower src.now)) }
    ensures few { result ≤ 30 * length src.now }
{
    let mut bits = 0;
    for byte in src {
        bits += u128::from(byte_bit_len(*byte, to_lower));
    }
    bits
}

/// Returns how many bits the codes of `src` have.
#[inline(always)]
pub(super) fn bit_len(src: &[u8], to_lower: bool) -> u128
    ensures bits { result ≡ length (codes (cased to_lower src.now)) }
    ensures few { result ≤ 30 * length src.now }
{
    if src.len() < 1 << 27 {
        u128::from(short_bit_len(src, to_lower))
    } else {
        long_bit_len(src, to_lower)
    }
}

/// Returns the length in bytes of the Huffman encoding of `src`, in lower case if `LOWER_CASE` is
/// true (RFC 7541, section 5.2), even if the encoding is longer than `src`.
///
/// ```
/// assert_eq!(huffman_text_len::<false>(b"custom-key"), 8);
/// assert_eq!(huffman_text_len::<false>(&[0]), 2);
/// ```
#[tactic(auto, using(crate::proofs::lemmas::CasedCodes::code_lengths))]
pub fn huffman_text_len<const LOWER_CASE: bool>(src: &[u8]) -> u128
    ensures { result ≡ length (text_of LOWER_CASE src.now) }
{
    (bit_len(src, LOWER_CASE) + 7) / 8
}

/// Returns the number of bytes of the Huffman encoding of `src` (RFC 7541, section 5.2), or of `src`
/// in lower case if `LOWER_CASE` is true.
///
/// It fails if the encoding is longer than `src`: then HPACK sends fewer bytes without the Huffman
/// code.
///
/// ```
/// assert_eq!(huffman_encoding_len::<false>(b"www.example.com"), Ok(12));
/// assert_eq!(huffman_encoding_len::<false>(b"\n"), Err(BufferTooShortError));
/// ```
#[tactic(auto, using(crate::proofs::lemmas::CasedCodes::code_lengths))]
pub fn huffman_encoding_len<const LOWER_CASE: bool>(src: &[u8]) -> Result<usize>
    ensures shorter { IsOk result
        ↔ (length (text_of LOWER_CASE src.now) ≤ length src.now) }
    ensures len { IfOk result (λ n. n ≡ length (text_of LOWER_CASE src.now)) }
{
    let most = src.len();
    let len = huffman_text_len::<LOWER_CASE>(src);
    if len > most as u128 {
        return Err(BufferTooShortError);
    }
    Ok(len as usize)
}
