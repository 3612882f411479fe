//! The Huffman code: encodings that are invalid, and the examples of RFC 7541, Appendix C.

use crate::{ByteAtATimeSink, FailingSink, SinkError};
use octets::{DecodeError, Octets, OctetsMut, huffman_encoding_len, put_huffman_encoded};
use std::process::Abort;

/// Whether a decode failed because of the encoding.
fn is_short(answer: Result<Vec<u8>, DecodeError>) -> bool {
    match answer {
        Err(DecodeError::Short(_)) => true,
        _ => false,
    }
}

/// A padding of twelve ones, one of zeros, and the end code within the encoding.
#[rattlefmt::skip]
static INVALID: [&[u8]; 3] = [
    b"\x00\x85\xf2\xb2\x4a\x84\xff\x84\x49\x50\x9f\xff",
    b"\x00\x85\xf2\xb2\x4a\x84\xff\x83\x49\x50\x90",
    b"\x00\x85\xf2\xb2\x4a\x84\xff\x87\x49\x51\xff\xff\xff\xfa\x7f",
];

#[test]
fn invalid_huffman(rt: HostRuntime) {
    for text in &INVALID {
        let answer = Octets::with_slice(text).get_huffman_decoded(rt.alloc());
        assert!(rt; is_short(answer), "of {text:?}");
    }
    // The end code comes after fourteen symbols, and the limit is four.
    let mut cursor = Octets::with_slice(INVALID[2]);
    assert!(rt; is_short(cursor.get_huffman_decoded_with_max_length(rt.alloc(), 4)));
}

/// Whether the bytes begin with the encoding, and all others are zeros.
fn begins(bytes: &[u8], text: &[u8]) -> bool {
    bytes.starts_with(text) && bytes.iter().skip(text.len()).all(|byte| *byte == 0)
}

/// Whether a sink over 64 zeros is given the encoding of the value.
fn is_given<const LOWER_CASE: bool>(value: &[u8], text: &[u8]) -> bool {
    let mut bytes = [0; 64];
    let mut sink = ByteAtATimeSink::new(&mut bytes);
    put_huffman_encoded::<LOWER_CASE, _>(&mut sink, value).is_ok() && begins(&bytes, text)
}

/// Whether a cursor over 64 zeros writes the encoding of the value.
fn is_put<const LOWER_CASE: bool>(value: &[u8], text: &[u8]) -> bool {
    let mut bytes = [0; 64];
    let mut cursor = OctetsMut::with_slice(&mut bytes);
    cursor.put_huffman_encoded::<LOWER_CASE>(value).is_ok()
        && cursor.off() == text.len()
        && begins(cursor.buf(), text)
}

/// The length of each value's encoding is computed, and a sink and a cursor get the encoding.
fn assert_encodings<const LOWER_CASE: bool>(rt: &impl Abort, rows: &[(&[u8], &[u8])]) {
    for (case, (value, text)) in rows.iter().enumerate() {
        let len = huffman_encoding_len::<LOWER_CASE>(value);
        assert!(rt; len == Ok(text.len()), "case {case}: {len:?}");
        assert!(rt; is_given::<LOWER_CASE>(value, text), "case {case}: sink");
        assert!(rt; is_put::<LOWER_CASE>(value, text), "case {case}: cursor");
    }
}

#[rattlefmt::skip]
static VECTORS: [(&[u8], &[u8]); 4] = [
    (b"www.example.com", b"\xf1\xe3\xc2\xe5\xf2\x3a\x6b\xa0\xab\x90\xf4\xff"),
    (b"no-cache", b"\xa8\xeb\x10\x64\x9c\xbf"),
    (b"custom-key", b"\x25\xa8\x49\xe9\x5b\xa9\x7d\x7f"),
    (b"custom-value", b"\x25\xa8\x49\xe9\x5b\xb8\xe8\xb4\xbf"),
];

#[rattlefmt::skip]
static VECTORS_IN_LOWER_CASE: [(&[u8], &[u8]); 1] = [
    (b"WWW.EXAMPLE.COM", b"\xf1\xe3\xc2\xe5\xf2\x3a\x6b\xa0\xab\x90\xf4\xff"),
];

#[test]
fn octets_writer_huffman_matches_rfc_vectors(rt: HostRuntime) {
    assert_encodings::<false>(&rt, &VECTORS);
    assert_encodings::<true>(&rt, &VECTORS_IN_LOWER_CASE);
}

#[test]
fn octets_writer_huffman_propagates_sink_error(rt: HostRuntime) {
    let answer = put_huffman_encoded::<false, _>(&mut FailingSink, b"abcdefghijklmnopqrstuvwxyz");
    assert!(rt; answer == Err(SinkError));
}
