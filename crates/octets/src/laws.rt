//! Laws of numbers, varints, pieces, writes and results. The contract of each function states a
//! law. All functions except `answers_are_equal` do nothing.
ghost use Rattle.std.specs.Prelude.{◌≡◌, ◌↔◌, ℕ, List, IsTrue};
ghost use Rattle.octets.specs.Pieces.{kept_of, IsGreatestFront};
ghost use Rattle.octets.specs.Laws.{NetworkIsNumber, NumberIsNetwork, BeginsOne, HasOneVarint};
ghost use Rattle.octets.specs.Laws.{VarintIsWritten, ShortestHolds, ShortestIsLeast, WriteIsSplice};

use crate::cursor::buffer::Buffer;
use crate::error::Result;

/// Writing the lowest n bytes of a number in network order and reading them gives the number modulo
/// 256 to the power n. Reading n bytes as a number and writing its lowest n bytes gives the same
/// bytes.
///
/// ```
/// laws::number_read_back();
/// let mut bytes = [0, 0];
/// OctetsMut::with_slice(&mut bytes).write_u16(0x0102)?;
/// assert_eq!(Octets::with_slice(&bytes).get_u16()?, 0x0102);
/// ```
pub fn number_read_back()
    ensures written { NetworkIsNumber }
    ensures read { NumberIsNetwork }
{}

/// A list of bytes begins with at most one varint: it determines the width and the value.
///
/// ```
/// laws::varint_once();
/// let mut cursor = Octets::with_slice(&[0x40, 0x25, 0x25]);
/// assert_eq!(cursor.get_varint()?, 37);
/// assert_eq!(cursor.off(), 2);
/// ```
#[tactic(auto, using(crate::proofs::lemmas::Varints::begins_one))]
pub fn varint_once()
    ensures { BeginsOne }
{}

/// Each value has exactly one varint in each width that holds it (RFC 9000, section 16).
///
/// ```
/// laws::varint_in_width();
/// let mut bytes = [0, 0];
/// OctetsMut::with_slice(&mut bytes).write_varint_with_len(37, 2)?;
/// assert_eq!(bytes, [0x40, 0x25]);
/// ```
pub fn varint_in_width()
    ensures one { HasOneVarint }
    ensures written { VarintIsWritten }
{}

/// The width that `varint_len` returns is the least one: a varint of that width holds the value,
/// and none of a smaller width does.
///
/// ```
/// laws::varint_least_width();
/// assert_eq!(varint_len(64), 2);
/// assert!(varint_fits(64, 2));
/// assert!(!varint_fits(64, 1));
/// ```
pub fn varint_least_width()
    ensures holds { ShortestHolds }
    ensures least { ShortestIsLeast }
{}

/// What an encode that fails has written is the greatest prefix of its pieces that fits.
///
/// ```
/// laws::kept_is_greatest();
/// let mut bytes = [0, 0, 0, 0, 0, 0, 0];
/// let mut cursor = OctetsMut::with_slice(&mut bytes);
/// assert!(cursor.put_huffman_encoded::<false>(b"aaaaaaaaaaaa").is_err());
/// assert_eq!(cursor.off(), 7);
/// ```
pub fn kept_is_greatest()
    ensures { (c : ℕ) (ps : List ℕ) → IsGreatestFront c ps (kept_of c ps) }
{}

/// The definition `Writes`, which the contract of each write of a cursor uses, says exactly this:
/// the bytes overwrite those at the offset, in the same buffer, and the offset moves past them.
///
/// ```
/// laws::write_is_splice::<&mut [u8]>();
/// let mut bytes = [9, 9, 9];
/// let mut cursor = OctetsMut::with_slice(&mut bytes);
/// cursor.write_u16(0x0102)?;
/// assert_eq!(cursor.buf(), [1, 2, 9].as_slice());
/// ```
pub fn write_is_splice<B: Buffer>()
    ensures { WriteIsSplice B.Bytes }
{}

/// Returns whether two results are equal: whether both are the same number or both are errors.
///
/// ```
/// let read = Octets::with_slice(&[0x25]).get_varint();
/// assert!(laws::answers_are_equal(read, Ok(37)));
/// assert!(!laws::answers_are_equal(read, Err(BufferTooShortError)));
/// ```
pub fn answers_are_equal(left: Result<u64>, right: Result<u64>) -> bool
    ensures { IsTrue result ↔ (left ≡ right) }
{
    left == right
}
