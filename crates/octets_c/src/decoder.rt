//! Huffman decoding (RFC 7541, section 5.2) of an encoding that comes in pieces, for a caller that
//! keeps the state between the calls.
ghost use Rattle.std.specs.Prelude.{◌≡◌, ◌≢◌, ◌⊎◌, ◌↔◌, ◌+◌, ◌-◌, ◌*◌, ◌^◌, ◌<◌, ◌≤◌};
ghost use Rattle.std.specs.Prelude.{[], drop, length};
ghost use Rattle.octets_code.specs.States.{path};
ghost use Rattle.octets_code.specs.Steps.{IsFill};
ghost use Rattle.octets_pieces.specs.Pieces.{HasRead, StopsForRoom, StopsForEnd};
ghost use Rattle.octets_c.specs.Statuses.{done, short, not_text, no_room};

use crate::status::{DONE, NO_ROOM, NOT_TEXT, SHORT};

/// The state of a decode. At its start the field is zero.
#[derive(Clone, Copy)]
#[repr(C)]
pub struct Decoder {
    /// The number of the bits that were read since the last code. Each byte is such a number.
    pub state: u8,
}

/// Decodes the piece at the offset.
#[inline(always)]
fn decode_at(
    piece: &[u8],
    off: &mut usize,
    decoder: &mut Decoder,
    out: &mut [u8],
    len: &mut usize,
) -> u8
    requires small { off.old + length piece.now < 2 ^ 64 }
    ensures read { HasRead (path decoder.old.state) (path decoder.new.state) piece.now out.old
        out.new (off.new - off.old) len.new }
    ensures moves { off.old ≤ off.new }
    ensures few { len.new ≤ 2 * (off.new - off.old) }
    ensures full { result ≡ no_room → length out.old < len.new + 2 }
    ensures status { (result ≡ done) ⊎ (result ≡ not_text) ⊎ (result ≡ no_room) }
    ensures all { result ≡ done → off.new ≡ off.old + length piece.now }
    ensures room { result ≡ no_room → StopsForRoom (path decoder.new.state) piece.now
        (off.new - off.old) (length out.old - len.new) }
    ensures end { result ≡ not_text → StopsForEnd (path decoder.new.state) piece.now
        (off.new - off.old) }
{
    let mut state = octets_pieces::Decoder::of_byte(decoder.state);
    let result = state.decode(piece, out);
    decoder.state = state.to_byte();
    match result {
        Ok(progress) => {
            *off += progress.read;
            *len = progress.written;
            if progress.read < piece.len() {
                NO_ROOM
            } else {
                DONE
            }
        }
        Err(end) => {
            *off += end.read;
            *len = end.written;
            NOT_TEXT
        }
    }
}

/// Decodes the piece at the offset. This is a function of its own, so that a piece of one byte
/// saves no registers for the loop.
#[inline(never)]
fn decode_many(
    piece: &[u8],
    off: &mut usize,
    decoder: &mut Decoder,
    out: &mut [u8],
    len: &mut usize,
) -> u8
    requires small { off.old + length piece.now < 2 ^ 64 }
    ensures read { HasRead (path decoder.old.state) (path decoder.new.state) piece.now out.old
        out.new (off.new - off.old) len.new }
    ensures moves { off.old ≤ off.new }
    ensures few { len.new ≤ 2 * (off.new - off.old) }
    ensures full { result ≡ no_room → length out.old < len.new + 2 }
    ensures status { (result ≡ done) ⊎ (result ≡ not_text) ⊎ (result ≡ no_room) }
    ensures all { result ≡ done → off.new ≡ off.old + length piece.now }
    ensures room { result ≡ no_room → StopsForRoom (path decoder.new.state) piece.now
        (off.new - off.old) (length out.old - len.new) }
    ensures end { result ≡ not_text → StopsForEnd (path decoder.new.state) piece.now
        (off.new - off.old) }
{
    decode_at(piece, off, decoder, out, len)
}

/// Decodes the bytes from the offset to the end of the buffer, which continue the encoding that
/// earlier calls with the same decoder have read, writes the bytes whose codes they complete to the
/// first *len bytes of out, and leaves the other bytes of out unchanged. The offset moves past the
/// bytes that were read. Zero-initialize *decoder before the first piece. However an encoding is
/// cut into pieces, the bytes that were written are the value that octets_get_huffman_decoded
/// decodes of the whole encoding. An out_len of twice the number of bytes of the piece always
/// suffices.
///
/// Returns OCTETS_DONE if it read all bytes; OCTETS_NO_ROOM if the byte at the offset completes
/// more bytes than out has space for, which are at most two; OCTETS_NOT_TEXT if the code of the
/// symbol EOS ends in the byte at the offset, so that the encoding has an error; OCTETS_SHORT if
/// and only if the offset was past the end of the buffer.
///
/// On error: after OCTETS_NO_ROOM or OCTETS_NOT_TEXT, the bytes before the offset were read, and
/// *len bytes were written. After OCTETS_NO_ROOM, decoding continues if you call again at this
/// offset with space for two bytes; after OCTETS_NOT_TEXT, each such call fails again.
#[unsafe(no_mangle)]
pub extern "C" fn octets_decode_piece(
    bytes: &[u8],
    off: &mut usize,
    decoder: &mut Decoder,
    out: &mut [u8],
    len: &mut usize,
) -> u8
    ensures read { off.old ≤ length bytes.now → HasRead (path decoder.old.state)
        (path decoder.new.state) (drop off.old bytes.now) out.old out.new (off.new - off.old)
        len.new }
    ensures moves { off.old ≤ off.new }
    ensures few { result ≢ short → len.new ≤ 2 * (off.new - off.old) }
    ensures full { result ≡ no_room → length out.old < len.new + 2 }

    // Which statuses there are, and where the offset then is.
    ensures status { (result ≡ done) ⊎ (result ≡ short) ⊎ (result ≡ not_text)
        ⊎ (result ≡ no_room) }
    ensures all { result ≡ done → off.new ≡ length bytes.now }
    ensures room { result ≡ no_room → StopsForRoom (path decoder.new.state)
        (drop off.old bytes.now) (off.new - off.old) (length out.old - len.new) }
    ensures end { result ≡ not_text → StopsForEnd (path decoder.new.state)
        (drop off.old bytes.now) (off.new - off.old) }
    ensures short { (result ≡ short) ↔ (length bytes.now < off.old) }

    // A decoder of zero has read no bits. An offset past the end changes nothing but `len`.
    ensures starts { decoder.old.state ≡ 0 → path decoder.old.state ≡ [] }
    ensures outside { length bytes.now < off.old → (off.new ≡ off.old) × (out.new ≡ out.old)
        × (len.new ≡ 0) × (decoder.new ≡ decoder.old) }
{
    if bytes.len() < *off {
        *len = 0;
        return SHORT;
    }
    let piece = &bytes[*off..];
    if piece.len() == 1 {
        decode_at(piece, off, decoder, out, len)
    } else {
        decode_many(piece, off, decoder, out, len)
    }
}

/// Returns OCTETS_DONE if the encoding that a decoder has read may end here: the bits after its last
/// code are a padding of at most seven one bits, or there are none. Otherwise it returns
/// OCTETS_NOT_TEXT.
#[unsafe(no_mangle)]
pub extern "C" fn octets_decode_end(decoder: &Decoder) -> u8
    ensures fits { (result ≡ done) ↔ IsFill (path decoder.now.state) }
    ensures status { (result ≡ done) ⊎ (result ≡ not_text) }
{
    match octets_pieces::Decoder::of_byte(decoder.state).finish() {
        Ok(()) => DONE,
        Err(_) => NOT_TEXT,
    }
}
