//! The errors of calls that fail.
ghost use Rattle.std.specs.Prelude.{◌≡◌, Some, codes};

use std::alloc::{AllocError, AllocFailed};
use std::error::Error;
use std::fmt;

/// Fewer bytes remain than a call needs, or `rewind` would move the offset before the start of the
/// buffer.
///
/// Three other calls fail with this error: `split_at` at a position past the end,
/// `huffman_encoding_len` if the encoding is longer than the value, and a Huffman decode if the
/// bytes aren't the encoding of a value within the limit.
#[derive(Clone, Copy, Debug, PartialEq, Eq)]
pub struct BufferTooShortError;

impl fmt::Display for BufferTooShortError {
    ghost output = { λ _. Some (codes "BufferTooShortError") };

    fn fmt<W: fmt::Write>(&self, f: &mut fmt::Formatter<W>) -> fmt::Result {
        write!(f, "BufferTooShortError")
    }
}

impl Error for BufferTooShortError {}

/// The result of most calls of a cursor.
pub type Result<T> = std::result::Result<T, BufferTooShortError>;

/// Why a read of a varint in its least width fails.
#[derive(Clone, Copy, Debug, PartialEq, Eq)]
pub enum VarintError {
    /// The bytes from the offset on don't begin with a complete varint.
    Short,
    /// The varint at the offset is wider than its value needs.
    Overlong,
}

impl fmt::Display for VarintError {
    ghost use Rattle.octets.specs.ErrorTexts.{varint_error_text};

    ghost output = { λ e. Some (varint_error_text e) };

    fn fmt<W: fmt::Write>(&self, f: &mut fmt::Formatter<W>) -> fmt::Result {
        match self {
            VarintError::Short => write!(f, "fewer bytes remain than the varint has"),
            VarintError::Overlong => write!(f, "the varint is wider than its value needs"),
        }
    }
}

impl Error for VarintError {}

/// Why a decode into a slice fails. If several errors apply, the first in input order is returned.
#[derive(Clone, Copy, Debug, PartialEq, Eq)]
pub enum IntoError {
    /// The bytes are no Huffman encoding, whatever the length of the slice. `written` bytes of a
    /// value were decoded and written before EOS, or before bits that are neither a code nor
    /// padding.
    NotText { written: usize },
    /// The value has more bytes than the slice. The whole slice was written.
    NoRoom,
}

impl fmt::Display for IntoError {
    ghost use Rattle.octets.specs.ErrorTexts.{into_error_text};

    ghost output = { λ e. Some (into_error_text e) };

    fn fmt<W: fmt::Write>(&self, f: &mut fmt::Formatter<W>) -> fmt::Result {
        match self {
            IntoError::NotText { written: _ } => write!(f, "the bytes are no Huffman text"),
            IntoError::NoRoom => write!(f, "the value is longer than the slice"),
        }
    }
}

impl Error for IntoError {}

/// Why a Huffman decode fails.
///
/// `Octets::get_huffman_decoded_with_max_length` says where the offset is after each error.
#[derive(Clone, Copy, Debug, PartialEq, Eq)]
pub enum DecodeError {
    /// The remaining bytes aren't the Huffman encoding of a value within the limit.
    Short(BufferTooShortError),
    /// The allocation for the value failed, and nothing was read.
    Memory(AllocError),
}

impl fmt::Display for DecodeError {
    ghost use Rattle.octets.specs.ErrorTexts.{decode_error_text};

    ghost output = { λ e. Some (decode_error_text e) };

    fn fmt<W: fmt::Write>(&self, f: &mut fmt::Formatter<W>) -> fmt::Result {
        match self {
            DecodeError::Short(_) => write!(
                f,
                "the bytes are no Huffman text of a value within the limit"
            ),
            DecodeError::Memory(_) => write!(f, "out of memory"),
        }
    }
}

impl Error for DecodeError {}

impl From<BufferTooShortError> for DecodeError {
    ghost use Rattle.octets.specs.declared.error.DecodeError.TheVariants.{Short};

    ghost from_gives = { λ e r. r ≡ Short e };

    fn from(error: BufferTooShortError) -> DecodeError {
        DecodeError::Short(error)
    }
}

impl From<AllocError> for DecodeError {
    ghost use Rattle.octets.specs.declared.error.DecodeError.TheVariants.{Memory};

    ghost from_gives = { λ e r. r ≡ Memory e };

    fn from(error: AllocError) -> DecodeError {
        DecodeError::Memory(error)
    }
}

/// The conversion drops the value that couldn't be stored.
impl<T: Drop> From<AllocFailed<T>> for DecodeError {
    ghost use Rattle.std.specs.declared.alloc.AllocError.{AllocError};
    ghost use Rattle.octets.specs.declared.error.DecodeError.TheVariants.{Memory};

    ghost from_gives = { λ e r. (why : AllocError) × (r ≡ Memory why) };

    fn from(_failed: AllocFailed<T>) -> DecodeError {
        DecodeError::Memory(AllocError)
    }
}
