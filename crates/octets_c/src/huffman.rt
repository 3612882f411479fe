//! Huffman-encoded strings (RFC 7541, section 5.2) in the caller's buffers.
ghost use Rattle.std.specs.Prelude.{◌≡◌, ◌≢◌, ◌⊎◌, ◌↔◌, ℕ, ◌+◌, ◌^◌, ◌<◌, ◌≤◌, ◌++◌};
ghost use Rattle.std.specs.Prelude.{List, drop, length, IsOk, OnOk, OnErr};
ghost use Rattle.octets_code.specs.Answers.{IsAnswer, IsRefusal};
ghost use Rattle.octets.specs.Bytes.{splice};
ghost use Rattle.octets.specs.Encodes.{text_of};
ghost use Rattle.octets.specs.Reading.{IsReadBefore};
ghost use Rattle.octets.specs.Cursor.{bytes, position};
ghost use Rattle.octets.specs.Slices.{reference};
ghost use Rattle.octets_c.specs.Fronts.{kept_front, WritesFront};
ghost use Rattle.octets_c.specs.Statuses.{done, short, long, not_text, no_room};
ghost use Rattle.octets_c.specs.Refusals.{status_of_stop, written_at, TellsStop};

use crate::cursors::at;
use crate::status::{DONE, LONG, NO_ROOM, NOT_TEXT, SHORT};
use octets::{IntoError, OctetsMut, Result, huffman_encoding_len, huffman_text_len};

/// Sets *len to the number of bytes of the Huffman encoding of value. If lower_case is true, A to Z
/// are encoded as a to z.
///
/// Returns OCTETS_SHORT if and only if the encoding is longer than value, otherwise OCTETS_DONE.
/// After OCTETS_SHORT, send value itself, which is shorter than the encoding; if lower_case is
/// true, convert value to lower case yourself.
#[unsafe(no_mangle)]
pub extern "C" fn octets_huffman_encoding_len(value: &[u8], lower_case: bool, len: &mut usize) -> u8
    ensures fits { (result ≡ done) ↔ (length (text_of lower_case value.now) ≤ length value.now) }
    ensures status { (result ≡ done) ⊎ (result ≡ short) }
    ensures len { result ≡ done → len.new ≡ length (text_of lower_case value.now) }
    ensures refused { result ≢ done → len.new ≡ len.old }
{
    let answer = if lower_case {
        huffman_encoding_len::<true>(value)
    } else {
        huffman_encoding_len::<false>(value)
    };
    let Ok(text_len) = answer else {
        return SHORT;
    };
    *len = text_len;
    DONE
}

/// Sets *len as octets_huffman_encoding_len does, but succeeds also if the encoding is longer than
/// value.
///
/// Returns OCTETS_LONG if and only if size_t can't hold the length, otherwise OCTETS_DONE.
#[unsafe(no_mangle)]
pub extern "C" fn octets_huffman_text_len(value: &[u8], lower_case: bool, len: &mut usize) -> u8
    ensures fits { (result ≡ done) ↔ (length (text_of lower_case value.now) < 2 ^ 64) }
    ensures status { (result ≡ done) ⊎ (result ≡ long) }
    ensures len { result ≡ done → len.new ≡ length (text_of lower_case value.now) }
    ensures refused { result ≢ done → len.new ≡ len.old }
{
    let text_len = if lower_case {
        huffman_text_len::<true>(value)
    } else {
        huffman_text_len::<false>(value)
    };
    if text_len > usize::MAX as u128 {
        return LONG;
    }
    *len = text_len as usize;
    DONE
}

/// Writes the Huffman encoding of `value` at the cursor, in lower case if `lower_case` is true.
fn put_text(cursor: &mut OctetsMut<'_>, value: &[u8], lower_case: bool) -> Result<()>
    ensures fits { IsOk result ↔ (position cursor.old
        + length (text_of lower_case value.now) ≤ length (bytes cursor.old)) }
    ensures ok { OnOk result (WritesFront (bytes cursor.old) (bytes cursor.new)
        (position cursor.old) (position cursor.new) (λ _. text_of lower_case value.now)) }
    ensures err { OnErr result (WritesFront (bytes cursor.old) (bytes cursor.new)
        (position cursor.old) (position cursor.new) (kept_front lower_case value.now)) }
    ensures same_reference { reference cursor.new ≡ reference cursor.old }
{
    if lower_case {
        cursor.put_huffman_encoded::<true>(value)
    } else {
        cursor.put_huffman_encoded::<false>(value)
    }
}

/// Writes the Huffman encoding of value. If lower_case is true, A to Z are encoded as a to z.
/// OCTETS_TEXT_MOST(value_len) bytes always suffice.
///
/// Returns OCTETS_SHORT if and only if fewer bytes remain than the encoding has, otherwise
/// OCTETS_DONE.
///
/// On error: unless the offset was past the end of the buffer, a prefix of the encoding was
/// written, and the offset is after it. The encoding is divided into pieces: one of eight bytes for
/// each full 64 bits of the codes. The remaining bits are padded to whole bytes. If there are at
/// least four of these bytes, the first four are one piece. Each other byte is a piece of its own.
/// The prefix ends before the first piece that doesn't fit. To write the rest elsewhere, call
/// octets_next_piece from the start of the encoding until its pieces have as many bytes as the
/// prefix. The next calls return the rest.
#[unsafe(no_mangle)]
pub extern "C" fn octets_put_huffman_encoded(
    bytes: &mut [u8],
    off: &mut usize,
    value: &[u8],
    lower_case: bool,
) -> u8
    ensures fits { (result ≡ done)
        ↔ (off.old + length (text_of lower_case value.now) ≤ length bytes.old) }
    ensures status { (result ≡ done) ⊎ (result ≡ short) }
    ensures writes { result ≡ done
        → bytes.new ≡ splice bytes.old off.old (text_of lower_case value.now) }
    ensures passes { result ≡ done
        → off.new ≡ off.old + length (text_of lower_case value.now) }
    ensures refused { result ≢ done → off.old ≤ length bytes.old
        → WritesFront bytes.old bytes.new off.old off.new (kept_front lower_case value.now) }
    ensures outside { length bytes.old < off.old
        → (bytes.new ≡ bytes.old) × (off.new ≡ off.old) }
{
    let mut cursor = OctetsMut::with_slice(bytes);
    if cursor.skip(*off).is_err() {
        return SHORT;
    }
    // Unlike other writes, this one moves the offset if it fails, past the prefix that it wrote.
    let answer = put_text(&mut cursor, value, lower_case);
    *off = cursor.off();
    match answer {
        Ok(()) => DONE,
        Err(_) => SHORT,
    }
}

/// Returns the status for what stopped a decode.
pub(crate) fn stop_status(why: IntoError) -> u8
    ensures status { result ≡ status_of_stop why }
    ensures one_of { (result ≡ not_text) ⊎ (result ≡ no_room) }
{
    match why {
        IntoError::NotText { written: _ } => NOT_TEXT,
        IntoError::NoRoom => NO_ROOM,
    }
}

/// Returns how many bytes a decode into `room` bytes had written when it stopped.
pub(crate) fn stop_written(why: IntoError, room: usize) -> usize
    ensures { result ≡ written_at why room }
{
    match why {
        IntoError::NotText { written } => written,
        IntoError::NoRoom => room,
    }
}

/// Decodes all bytes from the offset to the end of the buffer, writes the value to the first *len
/// bytes of out, and leaves the other bytes of out unchanged. If other bytes follow the encoding,
/// pass as bytes_len only the number of bytes from the start of the buffer to the end of the
/// encoding. An out_len of OCTETS_VALUE_MOST(bytes_len - *off) always suffices.
///
/// Returns OCTETS_SHORT if and only if the offset is past the end of the buffer. Otherwise it
/// returns OCTETS_DONE if the encoding has no error, and else its first error: OCTETS_NO_ROOM if
/// out has no space for the next byte of the value; OCTETS_NOT_TEXT if the next code is that of the
/// symbol EOS, or if the last bits are neither a code nor a padding of at most seven one bits.
///
/// On error: the first *len bytes of out are what was decoded before the error. If out has no space
/// for a symbol, or the symbol is EOS, the offset is now after the byte of the buffer in which the
/// code of this symbol ends. If the last bits are the error, the offset is at the end of the
/// buffer. Decoding can't be resumed at either offset, since a code may begin within a byte. An
/// offset that was past the end of the buffer is unchanged.
#[unsafe(no_mangle)]
pub extern "C" fn octets_get_huffman_decoded(
    bytes: &[u8],
    off: &mut usize,
    out: &mut [u8],
    len: &mut usize,
) -> u8
    ensures value { result ≡ done → (v : List ℕ)
        × IsAnswer (drop off.old bytes.now) (length out.old) v
        × (length v ≡ len.new) × (out.new ≡ v ++ drop len.new out.old) }
    ensures every { (v : List ℕ) → off.old ≤ length bytes.now
        → IsAnswer (drop off.old bytes.now) (length out.old) v → result ≡ done }
    ensures within { result ≡ done → off.old ≤ length bytes.now }
    ensures few { result ≡ done → len.new ≤ length out.old }

    // Which errors there are, and where the offset is after the call.
    ensures status { (result ≡ done) ⊎ (result ≡ short) ⊎ (result ≡ not_text)
        ⊎ (result ≡ no_room) }
    ensures short { (result ≡ short) ↔ (length bytes.now < off.old) }
    ensures passed { result ≡ done → off.new ≡ length bytes.now }
    ensures refused { result ≢ done → off.old ≤ length bytes.now → (n : ℕ)
        × IsRefusal (drop off.old bytes.now) (length out.old) n × (off.new ≡ off.old + n) }

    // What an error leaves in `out`, and which number of bytes it stores in `len`.
    ensures front { result ≢ done → off.old ≤ length bytes.now → (v : List ℕ)
        × IsReadBefore v (drop off.old bytes.now) (length out.old)
        × (length v ≤ length out.old) × (out.new ≡ v ++ drop (length v) out.old) }
    ensures fault { result ≢ done → off.old ≤ length bytes.now
        → TellsStop result len.new (drop off.old bytes.now) out.old out.new }
    ensures outside { length bytes.now < off.old
        → (off.new ≡ off.old) × (out.new ≡ out.old) × (len.new ≡ 0) }
{
    let Ok(mut cursor) = at(bytes, *off) else {
        *len = 0;
        return SHORT;
    };
    let room = out.len();
    let answer = cursor.get_huffman_decoded_into(out);
    *off = cursor.off();
    match answer {
        Ok(value_len) => {
            *len = value_len;
            DONE
        }
        Err(why) => {
            *len = stop_written(why, room);
            stop_status(why)
        }
    }
}
