//! Values and their literals, and bytes at which a read fails.

use octets_literal::LiteralError;

/// A value and its literal.
pub type Row = (&'static [u8], &'static [u8]);

/// Values and the literals that are written for them: values of a few bytes, and those of RFC 7541,
/// Appendices C.4 and C.6. The encoding of `307` is as long as the value, and so isn't written.
#[rattlefmt::skip]
pub static WRITTEN: [Row; 17] = [
    (b"", b"\x00"),
    (b"A", b"\x01\x41"),
    (b"a", b"\x01\x61"),
    (b"aa", b"\x02\x61\x61"),
    (b"aaa", b"\x82\x18\xc7"),
    (b"www.example.com", b"\x8c\xf1\xe3\xc2\xe5\xf2\x3a\x6b\xa0\xab\x90\xf4\xff"),
    (b"no-cache", b"\x86\xa8\xeb\x10\x64\x9c\xbf"),
    (b"custom-key", b"\x88\x25\xa8\x49\xe9\x5b\xa9\x7d\x7f"),
    (b"custom-value", b"\x89\x25\xa8\x49\xe9\x5b\xb8\xe8\xb4\xbf"),
    (b"302", b"\x82\x64\x02"),
    (b"private", b"\x85\xae\xc3\x77\x1a\x4b"),
    (b"Mon, 21 Oct 2013 20:13:21 GMT",
     b"\x96\xd0\x7a\xbe\x94\x10\x54\xd4\x44\xa8\x20\x05\x95\x04\x0b\x81\x66\xe0\x82\xa6\x2d\x1b\xff"),
    (b"https://www.example.com",
     b"\x91\x9d\x29\xad\x17\x18\x63\xc7\x8f\x0b\x97\xc8\xe9\xae\x82\xae\x43\xd3"),
    (b"Mon, 21 Oct 2013 20:13:22 GMT",
     b"\x96\xd0\x7a\xbe\x94\x10\x54\xd4\x44\xa8\x20\x05\x95\x04\x0b\x81\x66\xe0\x84\xa6\x2d\x1b\xff"),
    (b"307", b"\x03307"),
    (b"gzip", b"\x83\x9b\xd9\xab"),
    (b"foo=ASDJKHQKBZXOQWEOPIUAXQWEOIU; max-age=3600; version=1",
     b"\xad\x94\xe7\x82\x1d\xd7\xf2\xe6\xc7\xb3\x35\xdf\xdf\xcd\x5b\x39\x60\xd5\xaf\x27\x08\x7f\x36\x72\xc1\xab\x27\x0f\xb5\x29\x1f\x95\x87\x31\x60\x65\xc0\x03\xed\x4e\xe5\xb1\x06\x3d\x50\x07"),
];

/// Values in upper case, and the literals that are written for them in lower case.
pub static LOWERED: [Row; 3] = [
    (b"A", b"\x01\x61"),
    (b"AAA", b"\x82\x18\xc7"),
    (b"Zz@[", b"\x04\x7a\x7a\x40\x5b"),
];

/// Values whose encoding is longer, since the code of a zero has 13 bits, and the lengths that are
/// written for them.
#[rattlefmt::skip]
pub static PLAIN: [(&[u8], &[u8]); 4] = [
    (&[0; 126], b"\x7e"),
    (&[0; 127], b"\x7f\x00"),
    (&[0; 128], b"\x7f\x01"),
    (&[0; 255], b"\x7f\x80\x01"),
];

/// Literals that are never written: those of RFC 7541, Appendices C.2 and C.3, an empty encoding,
/// and encodings that are as long as their value, one of them from Appendix C.6.
#[rattlefmt::skip]
pub static READ: [Row; 6] = [
    (b"307", b"\x83\x64\x0e\xff"),
    (b"custom-key", b"\x0acustom-key"),
    (b"custom-header", b"\x0dcustom-header"),
    (b"www.example.com", b"\x0fwww.example.com"),
    (b"", b"\x80"),
    (b"a", b"\x81\x1f"),
];

/// Bytes, a limit, and the error of a read of the bytes. From the sixth case to the eleventh the
/// length is 2 ^ 32 and -1, 0, 1, 1, -6 and 126 more, and then 2 ^ 35 and 126. In 32 bits each of
/// these lengths, or its sum with its own six bytes, would be another number.
#[rattlefmt::skip]
pub static REFUSED: [(&[u8], usize, LiteralError); 17] = [
    (b"", 100, LiteralError::Short),
    (b"\x03\x61", 100, LiteralError::Short),
    (b"\x05\x61", 0, LiteralError::Short),
    (b"\x7f\x80", 100, LiteralError::Short),
    (b"\x7f\x80\x80\x80\x80", 100, LiteralError::Short),
    (b"\x7f\x80\xff\xff\xff\x0f", 100, LiteralError::Short),
    (b"\x7f\x81\xff\xff\xff\x0f", 100, LiteralError::Length),
    (b"\x7f\x82\xff\xff\xff\x0faaaaa", 100, LiteralError::Length),
    (b"\xff\x82\xff\xff\xff\x0f\x1f", 100, LiteralError::Length),
    (b"\x7f\xfb\xfe\xff\xff\x0faaaaa", 100, LiteralError::Short),
    (b"\x7f\xff\xff\xff\xff\x0f", 100, LiteralError::Length),
    (b"\x7f\xff\xff\xff\xff\x7f", 100, LiteralError::Length),
    (b"\x7f\x80\x80\x80\x80\x80", 100, LiteralError::Length),
    (b"\x81\xff", 9, LiteralError::Value),
    (b"\x81\x1f", 0, LiteralError::Value),
    (b"\x01\x61", 0, LiteralError::Value),
    (b"\x83\x18\xc7\xff", 100, LiteralError::Value),
];
