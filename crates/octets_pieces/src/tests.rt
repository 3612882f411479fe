//! Tests with the encodings of RFC 7541, Appendix C.4 and C.6, cut at every place; with EOS; and
//! with too little space.
use crate::{
    Decoder, EosError, IncompleteError, PiecesError, Progress, decode_pieces, decode_whole,
};
use octets::IntoError;

/// An encoding and its value.
type Row = (&'static [u8], &'static [u8]);

#[rattlefmt::skip]
static ROWS: [Row; 12] = [
    (b"\xf1\xe3\xc2\xe5\xf2\x3a\x6b\xa0\xab\x90\xf4\xff", b"www.example.com"),
    (b"\xa8\xeb\x10\x64\x9c\xbf", b"no-cache"),
    (b"\x25\xa8\x49\xe9\x5b\xa9\x7d\x7f", b"custom-key"),
    (b"\x25\xa8\x49\xe9\x5b\xb8\xe8\xb4\xbf", b"custom-value"),
    (b"\x64\x02", b"302"),
    (b"\xae\xc3\x77\x1a\x4b", b"private"),
    (b"\xd0\x7a\xbe\x94\x10\x54\xd4\x44\xa8\x20\x05\x95\x04\x0b\x81\x66\xe0\x82\xa6\x2d\x1b\xff",
     b"Mon, 21 Oct 2013 20:13:21 GMT"),
    (b"\x9d\x29\xad\x17\x18\x63\xc7\x8f\x0b\x97\xc8\xe9\xae\x82\xae\x43\xd3",
     b"https://www.example.com"),
    (b"\x64\x0e\xff", b"307"),
    (b"\xd0\x7a\xbe\x94\x10\x54\xd4\x44\xa8\x20\x05\x95\x04\x0b\x81\x66\xe0\x84\xa6\x2d\x1b\xff",
     b"Mon, 21 Oct 2013 20:13:22 GMT"),
    (b"\x9b\xd9\xab", b"gzip"),
    (&[
        0x94, 0xe7, 0x82, 0x1d, 0xd7, 0xf2, 0xe6, 0xc7, 0xb3, 0x35, 0xdf, 0xdf, 0xcd, 0x5b, 0x39,
        0x60, 0xd5, 0xaf, 0x27, 0x08, 0x7f, 0x36, 0x72, 0xc1, 0xab, 0x27, 0x0f, 0xb5, 0x29, 0x1f,
        0x95, 0x87, 0x31, 0x60, 0x65, 0xc0, 0x03, 0xed, 0x4e, 0xe5, 0xb1, 0x06, 0x3d, 0x50, 0x07,
     ],
     b"foo=ASDJKHQKBZXOQWEOPIUAXQWEOIU; max-age=3600; version=1"),
];

/// Whether the two parts of the encoding have the value, and with too little space its beginning.
fn is_decoded_in_two(text: &[u8], cut: usize, value: &[u8]) -> bool {
    let (Some(first), Some(second)) = (text.get(..cut), text.get(cut..)) else {
        return false;
    };
    let pieces = [first, second];
    for room in 0..value.len().min(64) {
        let (mut out, mut other) = ([0; 64], [0; 64]);
        let result = decode_pieces(&pieces, &mut out[..room]);
        if result.map_err(|error| error.why) != Err(IntoError::NoRoom)
            || result != decode_whole(text, &mut other[..room])
            || out != other
            || !value.starts_with(&out[..room])
        {
            return false;
        }
    }
    let mut out = [0; 64];
    decode_pieces(&pieces, &mut out) == Ok(value.len()) && out.starts_with(value)
}

/// Whether the encoding, byte by byte, has the value.
fn is_decoded_by_bytes(text: &[u8], value: &[u8]) -> bool {
    let mut decoder = Decoder::new();
    let mut out = [0; 64];
    let mut len = 0;
    for byte in text {
        let Some(room) = out.get_mut(len..) else {
            return false;
        };
        let Ok(Progress { read: 1, written }) = decoder.decode(&[*byte], room) else {
            return false;
        };
        len += written;
        decoder = Decoder::of_byte(decoder.to_byte());
    }
    decoder.finish() == Ok(()) && len == value.len() && out.starts_with(value)
}

#[test]
fn decodes_whatever_the_pieces(rt: HostRuntime) {
    for (text, value) in &ROWS {
        assert!(rt; is_decoded_by_bytes(text, value));
        for cut in 0..=text.len() {
            assert!(rt; is_decoded_in_two(text, cut, value));
        }
    }
}

#[test]
fn stops_at_the_end_code(rt: HostRuntime) {
    let mut decoder = Decoder::new();
    let end = |read| Err(EosError { read, written: 0 });
    assert!(rt; decoder.decode(&[0xff; 4], &mut []) == end(3));
    assert!(rt; decoder.finish() == Err(IncompleteError));
    assert!(rt; decoder.decode(&[0xff], &mut []) == end(0));
}

#[test]
fn stops_for_want_of_room(rt: HostRuntime) {
    // The codes of `0`, `1` and `2` have five bits each: 00000, 00001 and 00010; one bit is left.
    let mut decoder = Decoder::new();
    let mut out = [0xaa; 4];
    let progress = |read, written| Ok(Progress { read, written });
    assert!(rt; decoder.decode(&[0x00, 0x44], &mut out[..2]) == progress(1, 1));
    assert!(rt; out == [b'0', 0xaa, 0xaa, 0xaa]);
    assert!(rt; decoder.decode(&[0x44], &mut out[1..2]) == progress(0, 0));
    assert!(rt; decoder.decode(&[0x44], &mut out[1..3]) == progress(1, 2));
    assert!(rt; out == [b'0', b'1', b'2', 0xaa]);
}

#[test]
fn fills_the_slice_that_is_too_short(rt: HostRuntime) {
    let mut out = [0xaa; 2];
    let result = decode_pieces(&[&[0x00], &[0x44]], &mut out);
    let why = IntoError::NoRoom;
    assert!(rt; result == Err(PiecesError { passed: 2, why }));
    assert!(rt; &out == b"01");
}
