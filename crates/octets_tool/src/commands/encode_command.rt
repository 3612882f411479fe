//! `encode` and `encode-lower` print the Huffman encoding of the input.

ghost use Rattle.std.specs.Prelude.{◌≡◌, ◌≤◌, ◌++◌, length, drop};
ghost use Rattle.octets.specs.Encodes.{text_of};
ghost use Rattle.octets_tool.specs.Limits.{most_input};
ghost use Rattle.octets_tool.specs.Output.{encode_output, shown};
ghost use Rattle.octets_tool.specs.Requests.{OrRefused};

use crate::hex::Hex;
use crate::memory::zeros;
use crate::output::Output;
use octets::{OctetsMut, huffman_encoding_len};
use std::alloc::{AllocError, Global};

/// Returns the whole output for a value, in lower case if `LOWER_CASE` is true. It fails only if an
/// allocation fails.
pub fn output<const LOWER_CASE: bool>(alloc: Global, value: &[u8]) -> Result<Output, AllocError>
    requires { length value.now ≤ most_input }
    ensures { OrRefused result (λ output.
        shown output ≡ encode_output (text_of LOWER_CASE value.now) value.now) }
{
    let encoded = encoding_of::<LOWER_CASE>(alloc, value)?;
    let hex = Hex(&encoded);
    let text = match huffman_encoding_len::<LOWER_CASE>(value) {
        Ok(len) => format!(in alloc; "text {hex} len {len}\n")?,
        Err(_) => format!(in alloc; "text {hex} longer\n")?,
    };
    Ok(Output::answered(text))
}

/// Returns the encoding of a value. Four bytes for each byte of the value are always enough for it.
#[tactic(auto, using(crate::proofs::Texts::texts, octets_code::proofs::TextLemmas::each_byte))]
fn encoding_of<const LOWER_CASE: bool>(alloc: Global, value: &[u8]) -> Result<Vec<u8>, AllocError>
    requires { length value.now ≤ most_input }
    ensures { OrRefused result (λ text. text.items ≡ text_of LOWER_CASE value.now) }
{
    let mut buffer = zeros(alloc, 4 * value.len())?;
    let len = put_text::<LOWER_CASE>(&mut buffer, value);
    buffer.truncate(len);
    Ok(buffer)
}

/// Writes the encoding of a value at the start of the buffer, and returns its length.
fn put_text<const LOWER_CASE: bool>(buffer: &mut [u8], value: &[u8]) -> usize
    requires { length (text_of LOWER_CASE value.now) ≤ length buffer.old }
    ensures len { result ≡ length (text_of LOWER_CASE value.now) }
    ensures written { buffer.new ≡ text_of LOWER_CASE value.now
        ++ drop (length (text_of LOWER_CASE value.now)) buffer.old }
{
    let mut cursor = OctetsMut::with_slice(buffer);
    // This returns `Ok`, since the encoding fits.
    let _ = cursor.put_huffman_encoded::<LOWER_CASE>(value);
    cursor.off()
}
