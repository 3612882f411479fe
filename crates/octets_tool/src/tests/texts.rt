//! Huffman encodings and string literals. The code of `a` is 00011, that of `A` 100001, and that of
//! the byte 0 1111111111000.

use super::{Row, assert_answered};
use std::test::Fail;

#[rattlefmt::skip]
static ENCODES: [Row; 9] = [
    ("encode", "", b"", 0, "text - len 0\n"),
    ("encode", "", b"a", 0, "text 1f len 1\n"),
    ("encode", "", b"A", 0, "text 87 len 1\n"),
    ("encode", "", b"\x00", 0, "text ffc7 longer\n"),
    ("encode", "", b"custom-key", 0, "text 25a849e95ba97d7f len 8\n"),
    ("encode", "", b"www.example.com", 0, "text f1e3c2e5f23a6ba0ab90f4ff len 12\n"),
    ("encode-lower", "", b"", 0, "text - len 0\n"),
    ("encode-lower", "", b"A", 0, "text 1f len 1\n"),
    ("encode-lower", "", b"WWW.EXAMPLE.COM", 0, "text f1e3c2e5f23a6ba0ab90f4ff len 12\n"),
];

#[rattlefmt::skip]
static DECODES: [Row; 9] = [
    ("decode", "1", b"\x1f", 0, "value 61\n"),
    ("decode", "0", b"\x1f", 1, "refused at 1\n"),
    ("decode", "0", b"", 0, "value -\n"),
    ("decode", "100", b"\xff", 1, "refused at 1\n"),
    ("decode", "4294967295", b"\x1f", 0, "value 61\n"),
    ("decode", "15", b"\x00\x85\xf2\xb2\x4a\x84\xff\x83\x49\x50\x9f", 0, "value 3032322a2d746573743f6174657374\n"),
    ("decode", "99", b"\x00\x85\xf2\xb2\x4a\x84\xff\x84\x49\x50\x9f\xff", 1, "refused at 12\n"),
    ("decode", "4", b"\x00\x85\xf2\xb2\x4a\x84\xff\x87\x49\x51\xff\xff\xff\xfa\x7f", 1, "refused at 4\n"),
    ("decode", "99", b"\x00\x85\xf2\xb2\x4a\x84\xff\x87\x49\x51\xff\xff\xff\xfa\x7f", 1, "refused at 14\n"),
];

#[rattlefmt::skip]
static LITERALS: [Row; 17] = [
    ("string", "100", b"\x81\x1f\x00", 0, "value 61 rest 1 canon 0161\n"),
    ("string", "0", b"\x01a", 1, "refused value\n"),
    ("string", "100", b"\x03aaa", 0, "value 616161 rest 0 canon 8218c7\n"),
    ("string", "100", b"\x83\x18\xc7\xff", 1, "refused value\n"),
    ("string", "100", b"\x7f\x80\x80\x80\x80\x80", 1, "refused length\n"),
    ("string", "100", b"", 1, "refused short\n"),
    ("string", "0", b"\x80", 0, "value - rest 0 canon 00\n"),
    ("string", "1", b"\x01a", 0, "value 61 rest 0 canon 0161\n"),
    ("string", "4294967295", b"\x01a", 0, "value 61 rest 0 canon 0161\n"),
    ("string", "10", b"\x0acustom-key\x00\x00", 0, "value 637573746f6d2d6b6579 rest 2 canon 8825a849e95ba97d7f\n"),
    ("string", "0", b"\x81\x1f", 1, "refused value\n"),
    ("string", "9", b"\x81\xff", 1, "refused value\n"),
    ("string", "100", b"\x03a", 1, "refused short\n"),
    ("string", "0", b"\x05a", 1, "refused short\n"),
    ("string", "100", b"\x7f\x80", 1, "refused short\n"),
    ("string", "100", b"\x7f\x80\xff\xff\xff\x0f", 1, "refused short\n"),
    ("string", "100", b"\x7f\x81\xff\xff\xff\x0f", 1, "refused length\n"),
];

#[test]
fn prints_encodings_values_and_literals(rt: HostRuntime) -> Result<(), Fail> {
    assert_answered(&rt, rt.alloc(), &ENCODES)?;
    assert_answered(&rt, rt.alloc(), &DECODES)?;
    assert_answered(&rt, rt.alloc(), &LITERALS)
}
