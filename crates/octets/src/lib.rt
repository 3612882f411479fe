//! Cursors over bytes that the caller owns, for reading and building packets. They read and write
//! numbers in network order, variable-length integers (RFC 9000, section 16), byte strings, and
//! strings in the Huffman code of HPACK (RFC 7541, section 5.2). They return views of bytes without
//! copying them. The crate is a port of the Rust crate `octets` 0.3.7.
#![tactic(auto)]

mod copies;
mod cursor;
mod error;
mod huffman;
#[doc(hidden)]
pub mod laws;
mod memory;
mod number;
mod sink_writes;
mod slices;
mod varint;
mod writer;

pub use cursor::Cursor;
pub use cursor::buffer::{Buffer, Bytes};
pub use cursor::read_only::Octets;
pub use cursor::writable::OctetsMut;
pub use error::{BufferTooShortError, DecodeError, IntoError, Result, VarintError};
pub use huffman::{
    Pending, cased_byte, huffman_encoding_len, huffman_text_len, put_huffman_encoded,
};
pub use sink_writes::{
    write_bytes_with_varint_length, write_u8, write_u16, write_u24, write_u32, write_u64,
    write_varint, write_varint_with_len,
};
pub use varint::{MAX_VAR_INT, varint_fits, varint_len, varint_parse_len};
pub use writer::OctetsWriter;
