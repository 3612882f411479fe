//! Huffman encodings of HPACK (RFC 7541, section 5.2), and lengths of their codes.
//!
//! A decoder reads all bytes that remain in the cursor, so give it a view of the encoding alone, as
//! `read_text` does. `WhereText t P` says that P holds for every value whose text is t. `Gives r v`
//! says that r is `Ok` with the value v, unless an allocation failed.
ghost use Rattle.std.specs.Prelude.{◌≡◌, ◌↔◌, ◌+◌, ◌<◌, ◌≤◌, length, take, IsTrue, IfOk};
ghost use Rattle.octets_code.specs.Codes.{code};
ghost use Rattle.octets_code.specs.Texts.{text};
ghost use Rattle.octets.specs.Bytes.{number, part, prefixed};
ghost use Rattle.octets.specs.Cursor.{rest, IsUnchanged, Passes, Reads};
ghost use Rattle.octets.specs.Decodes.{Gives, WhereText};

use octets::{DecodeError, Octets};
use octets_code::code_len;
use std::alloc::Global;

/// Reads the value whose text follows the length of the text, which has two bytes.
///
/// If the length is incomplete, the call fails and leaves the offset where it was. If fewer bytes
/// follow than the length says, it fails and leaves the offset after the length. Otherwise the
/// offset is afterwards behind these bytes, also if they aren't a text or an allocation failed.
pub fn read_text(alloc: Global, cursor: &mut Octets<'_>) -> Result<Vec<u8>, DecodeError>
    ensures reads { IfOk result (λ v. Reads cursor.old cursor.new (prefixed 2 (text v.items))) }
    ensures given { 2 + number (take 2 (rest cursor.old)) ≤ length (rest cursor.old)
        → WhereText (part (rest cursor.old) 2 (number (take 2 (rest cursor.old))))
        (λ v. Gives result v) }
    ensures passes { 2 + number (take 2 (rest cursor.old)) ≤ length (rest cursor.old)
        → Passes cursor.old cursor.new (2 + number (take 2 (rest cursor.old))) }
    ensures past_length { 2 ≤ length (rest cursor.old)
        → length (rest cursor.old) < 2 + number (take 2 (rest cursor.old))
        → Passes cursor.old cursor.new 2 }
    ensures refused { length (rest cursor.old) < 2 → IsUnchanged cursor.old cursor.new }
{
    let mut text = cursor.get_bytes_with_u16_length()?;
    text.get_huffman_decoded(alloc)
}

/// Reads the value of which all bytes are the text.
pub fn decode(alloc: Global, bytes: &[u8]) -> Result<Vec<u8>, DecodeError>
    ensures text { IfOk result (λ v. bytes.now ≡ text v.items) }
    ensures given { WhereText bytes.now (λ v. Gives result v) }
{
    Octets::with_slice(bytes).get_huffman_decoded(alloc)
}

/// Whether the code of `byte` fits one byte.
pub fn is_short(byte: u8) -> bool
    ensures { IsTrue result ↔ (length (code byte) ≤ 8) }
{
    code_len(byte) <= 8
}
