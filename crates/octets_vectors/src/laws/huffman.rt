//! A law of the encoder and the decoder together.
ghost use Rattle.std.specs.Prelude.{◌*◌, ◌<◌, ◌≤◌, length, take, min, IsErr};
ghost use Rattle.octets.specs.Encodes.{cased, text_of};
ghost use Rattle.octets.specs.Decodes.{Gives, OnMemory};
ghost use Rattle.octets.specs.Cursor.{rest, Writes};
ghost use Rattle.octets.specs.Pieces.{kept_length};
ghost use Rattle.octets_vectors.specs.Answers.{IsShort};

use octets::{DecodeError, OctetsMut};
use std::alloc::Global;

/// Writes the Huffman encoding of `value`, in lower case if `LOWER_CASE` is true, goes back, and
/// decodes a view of what was written under the limit `max_len`.
///
/// If the encoding fits and the value is within the limit, the result is the value, or its lower
/// case, unless an allocation fails. Under a smaller limit the decode fails. If the encoding
/// doesn't fit, a prefix of it is written, as every encode does.
pub fn encode_rewind_decode<const LOWER_CASE: bool>(
    cursor: &mut OctetsMut<'_>,
    alloc: Global,
    value: &[u8],
    max_len: usize,
) -> Result<Vec<u8>, DecodeError>
    // If the encoding fits.
    ensures gives_back { length (text_of LOWER_CASE value.now) ≤ length (rest cursor.old)
        → length value.now ≤ max_len → Gives result (cased LOWER_CASE value.now) }
    ensures limited { length (text_of LOWER_CASE value.now) ≤ length (rest cursor.old)
        → max_len < length value.now → IsErr result }
    ensures written { length (text_of LOWER_CASE value.now) ≤ length (rest cursor.old)
        → Writes cursor.old cursor.new (text_of LOWER_CASE value.now) }

    // If the encoding doesn't fit.
    ensures refused { length (rest cursor.old) < length (text_of LOWER_CASE value.now)
        → IsShort result }
    ensures kept { length (rest cursor.old) < length (text_of LOWER_CASE value.now)
        → Writes cursor.old cursor.new
        (take (kept_length (length (rest cursor.old)) (cased LOWER_CASE value.now))
        (text_of LOWER_CASE value.now)) }

    // An allocation can only fail if the decode asks for memory at all.
    ensures reserved { OnMemory result
        (0 < min (2 * length (text_of LOWER_CASE value.now)) max_len) }
{
    let start = cursor.off();
    cursor.put_huffman_encoded::<LOWER_CASE>(value)?;
    let len = cursor.off() - start;
    cursor.rewind(len)?;
    let mut text = cursor.get_bytes(len)?;
    text.get_huffman_decoded_with_max_length(alloc, max_len)
}
