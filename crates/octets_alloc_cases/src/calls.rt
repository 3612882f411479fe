//! The calls by their names, each with what it is made on.

/// A call, and what it is made on.
#[derive(Clone, Copy)]
pub enum Call {
    Decode(&'static [u8]),
    DecodeLong,
    DecodeWithin(&'static [u8], usize),
    DecodeCounted(&'static [u8], usize),
    DecodeTwo(&'static [u8], &'static [u8]),
    EncodeAndDecode(usize),
    ToVec(usize),
    ToVecMut(usize),
    ToVecLong,
    ToVecMutLong,
    PieceSink(usize, usize),
    ListOfFour,
    ListOfTen,
    ListOfNone,
    ListShort,
    ListLong,
    Replies,
    GetString(&'static [u8], usize),
    GetStrings(&'static [u8], usize),
    GetStringLong,
    GetTextLong,
    GetStringsLong,
    PutString(&'static [u8]),
    PutLower(&'static [u8]),
    Records(&'static [u8]),
    Edges(&'static [u8], usize),
    HeaderField(&'static [u8], usize),
    Text(&'static [u8]),
    GrowingSink(&'static [u8], &'static [u8], &'static [u8]),
}

/// Calls of `octets`, and of its cursors by `octets_script`.
#[rattlefmt::skip]
static CURSORS: [(&str, Call); 29] = [
    ("decode", Call::Decode(&[7, 0x1f])),
    ("decode-eight-ones", Call::Decode(&[7, 0xff])),
    ("decode-nothing", Call::Decode(&[7])),
    ("decode-long", Call::DecodeLong),
    ("decode-under-1", Call::DecodeWithin(&[7, 0x1f], 1)),
    ("decode-under-0", Call::DecodeWithin(&[7, 0x1f], 0)),
    ("decode-nothing-under-1", Call::DecodeWithin(&[7], 1)),
    ("decode-counted", Call::DecodeCounted(&[7, 0x1f], 1)),
    ("decode-counted-end-code", Call::DecodeCounted(&[7, 0xff, 0xff, 0xff, 0xff, 0], 9)),
    ("decode-counted-under-0", Call::DecodeCounted(&[7, 0x1f], 0)),
    ("decode-counted-nothing", Call::DecodeCounted(&[7], 1)),
    ("decode-counted-nothing-under-0", Call::DecodeCounted(&[7], 0)),
    ("to-vec", Call::ToVec(5)),
    ("to-vec-nothing", Call::ToVec(10)),
    ("to-vec-mut", Call::ToVecMut(5)),
    ("to-vec-mut-nothing", Call::ToVecMut(10)),
    ("piece-sink", Call::PieceSink(16, 8)),
    ("piece-sink-of-nothing", Call::PieceSink(0, 0)),
    ("list", Call::ListOfFour),
    ("list-of-ten", Call::ListOfTen),
    ("list-of-nothing", Call::ListOfNone),
    ("replies", Call::Replies),
    ("encode-and-decode", Call::EncodeAndDecode(1)),
    ("encode-and-decode-under-0", Call::EncodeAndDecode(0)),
    ("to-vec-long", Call::ToVecLong),
    ("to-vec-mut-long", Call::ToVecMutLong),
    ("list-long", Call::ListLong),
    ("list-short", Call::ListShort),
    ("texts", Call::DecodeTwo(&[0x1f], &[0x87])),
];

/// Calls of `octets_literal`.
#[rattlefmt::skip]
static LITERALS: [(&str, Call); 19] = [
    ("get-string", Call::GetString(&[1, 0x61], 9)),
    ("get-string-text", Call::GetString(&[0x81, 0x1f], 9)),
    ("get-string-eight-ones", Call::GetString(&[0x81, 0xff], 9)),
    ("get-string-nothing", Call::GetString(&[0], 9)),
    ("get-string-text-under-0", Call::GetString(&[0x81, 0x1f], 0)),
    ("get-string-under-0", Call::GetString(&[1, 0x61], 0)),
    ("get-string-cut", Call::GetString(&[3, 0x61], 9)),
    ("get-string-of-seven-bytes", Call::GetString(&[0x7f, 0x80, 0x80, 0x80, 0x80, 0x80], 9)),
    ("get-strings", Call::GetStrings(&[1, 0x61, 1, 0x62], 9)),
    ("get-strings-of-none", Call::GetStrings(&[], 9)),
    ("get-strings-five", Call::GetStrings(&[1, 0x61, 1, 0x62, 1, 0x63, 1, 0x64, 1, 0x65], 9)),
    ("get-strings-cut", Call::GetStrings(&[0x81, 0x1f, 3, 0x62], 9)),
    ("get-string-long", Call::GetStringLong),
    ("get-string-text-long", Call::GetTextLong),
    ("get-strings-long", Call::GetStringsLong),
    ("put-string", Call::PutString(b"ab")),
    ("put-string-lower", Call::PutLower(b"AB")),
    ("put-string-of-nothing", Call::PutString(b"")),
    ("put-string-lower-of-nothing", Call::PutLower(b"")),
];

/// Calls of `octets_lists`.
#[rattlefmt::skip]
static LISTS: [(&str, Call); 17] = [
    ("records", Call::Records(&[1, 2, 0xaa, 0xbb, 2, 0])),
    ("records-five", Call::Records(&[1, 0, 2, 0, 3, 0, 4, 0, 5, 0])),
    ("records-cut", Call::Records(&[1, 0, 2, 3, 0xaa])),
    ("records-cut-at-once", Call::Records(&[1])),
    ("records-of-nothing", Call::Records(&[])),
    ("edges", Call::Edges(&[0, 0, 1, 0, 0, 0, 2, 1, 9], 2)),
    ("edges-cut", Call::Edges(&[0, 0, 1, 0, 0, 0, 2], 2)),
    ("edges-of-none", Call::Edges(&[9], 0)),
    ("header-field", Call::HeaderField(&[0, 1, 0x61, 1, 0x62], 1)),
    ("header-field-of-nothing", Call::HeaderField(&[0x10, 0, 0], 1)),
    ("header-field-under-0", Call::HeaderField(&[0, 1, 0x61, 1, 0x62], 0)),
    ("header-field-of-an-index", Call::HeaderField(&[0x41, 1, 0x61], 1)),
    ("text", Call::Text(b"custom-key")),
    ("text-long", Call::Text(b"Mon, 21 Oct 2013 20:13:21 GMT")),
    ("text-of-nothing", Call::Text(b"")),
    ("growing-sink", Call::GrowingSink(&[1, 2, 3], &[4, 5, 6, 7, 8, 9], &[10])),
    ("growing-sink-of-nothing", Call::GrowingSink(&[], &[], &[])),
];

/// Returns the call of this name, if there is one among these.
fn call_among(calls: &[(&str, Call)], name: &str) -> Option<Call> {
    for (word, call) in calls {
        if *word == name {
            return Some(*call);
        }
    }
    None
}

/// Returns the call of this name.
pub fn call_of(name: &str) -> Option<Call> {
    call_among(&CURSORS, name)
        .or(call_among(&LITERALS, name))
        .or(call_among(&LISTS, name))
}
