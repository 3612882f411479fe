//! The commands by their names, with arguments of each kind.

ghost use Rattle.std.specs.Prelude.{◌≡◌, ◌^◌, nat_lt, if◌then◌else◌, [], ◌∷◌};
ghost use Rattle.std.specs.Prelude.{Some, None, option_map};
ghost use Rattle.octets_script.specs.Calls.{call_of};
ghost use Rattle.octets_tool.specs.Names.{command_for, decimal_word, hex_word};

use crate::decimal::count;
use octets_script::{Command, Varint, Wide};

/// Returns the command of a name without arguments.
pub fn plain(name: &str) -> Option<Command>
    ensures { option_map call_of result
        ≡ command_for name.now [] }
{
    match name {
        "get_u8" => Some(Command::GetU8),
        "get_u16" => Some(Command::GetU16),
        "get_u24" => Some(Command::GetU24),
        "get_u32" => Some(Command::GetU32),
        "get_u64" => Some(Command::GetU64),
        "peek_u8" => Some(Command::PeekU8),
        "get_varint" => Some(Command::GetVarint),
        "get_varint_shortest" => Some(Command::GetVarintShortest),
        "get_bytes_with_u8_length" => Some(Command::GetBytesU8),
        "get_bytes_with_u16_length" => Some(Command::GetBytesU16),
        "get_bytes_with_varint_length" => Some(Command::GetBytesVarint),
        "cap" => Some(Command::Cap),
        "len" => Some(Command::Len),
        "off" => Some(Command::Off),
        "is_empty" => Some(Command::IsEmpty),
        "buf" => Some(Command::Buf),
        "to_vec" => Some(Command::ToVec),
        _ => None,
    }
}

/// Returns the command of a name and a number.
pub fn with_number(name: &str, number: u64) -> Option<Command>
    ensures { option_map call_of result
        ≡ command_for name.now (decimal_word number ∷ []) }
{
    let count = count(number)?;
    match name {
        "get_bytes" => Some(Command::GetBytes(count)),
        "peek_bytes" => Some(Command::PeekBytes(count)),
        "decode" => Some(Command::Decode(count)),
        "rewind" => Some(Command::Rewind(count)),
        "skip" => Some(Command::Skip(count)),
        _ => None,
    }
}

/// Returns the command of a name and bytes.
pub fn with_bytes(name: &str, bytes: Vec<u8>) -> Option<Command>
    ensures { option_map call_of result
        ≡ command_for name.now (hex_word bytes.items ∷ []) }
{
    match name {
        "put_bytes" => Some(Command::PutBytes(bytes)),
        "put_huffman" => Some(Command::PutHuffman(bytes)),
        "put_huffman_lower" => Some(Command::PutHuffmanLower(bytes)),
        "as_mut" => Some(Command::AsMut(bytes)),
        _ => None,
    }
}

/// Returns the command of a name, a number and bytes.
pub fn with_number_and_bytes(name: &str, number: u64, bytes: Vec<u8>) -> Option<Command>
    ensures { option_map call_of result
        ≡ command_for name.now (decimal_word number ∷ hex_word bytes.items ∷ []) }
{
    match name {
        "get_bytes_mut" => Some(Command::GetBytesMut(count(number)?, bytes)),
        "peek_bytes_mut" => Some(Command::PeekBytesMut(count(number)?, bytes)),
        "slice" => Some(Command::Slice(count(number)?, bytes)),
        "slice_last" => Some(Command::SliceLast(count(number)?, bytes)),
        "put_u8" => Some(Command::PutU8(as_u8(number)?, bytes)),
        "put_u16" => Some(Command::PutU16(as_u16(number)?, bytes)),
        "put_u24" => Some(Command::PutU24(as_u32(number)?, bytes)),
        "put_u32" => Some(Command::PutU32(as_u32(number)?, bytes)),
        "put_u64" => Some(Command::PutU64(number, bytes)),
        "put_varint" => Some(Command::PutVarint(as_varint(number)?, bytes)),
        _ => None,
    }
}

/// Returns the number, if it has at most 8 bits.
fn as_u8(number: u64) -> Option<u8>
    ensures { result ≡ (if nat_lt number (2 ^ 8) then Some number else None) }
{
    u8::try_from(number).ok()
}

/// Returns the number, if it has at most 16 bits.
fn as_u16(number: u64) -> Option<u16>
    ensures { result ≡ (if nat_lt number (2 ^ 16) then Some number else None) }
{
    u16::try_from(number).ok()
}

/// Returns the number, if it has at most 32 bits.
fn as_u32(number: u64) -> Option<u32>
    ensures { result ≡ (if nat_lt number (2 ^ 32) then Some number else None) }
{
    u32::try_from(number).ok()
}

/// Returns the number, if it has at most 62 bits.
fn as_varint(number: u64) -> Option<Varint>
    ensures { result ≡ (if nat_lt number (2 ^ 62) then Some number else None) }
{
    Varint::new(number)
}

/// Returns the command of a name, two numbers and bytes.
pub fn with_two_numbers(name: &str, value: u64, width: u64, bytes: Vec<u8>) -> Option<Command>
    ensures { option_map call_of result
        ≡ command_for name.now
        (decimal_word value ∷ decimal_word width ∷ hex_word bytes.items ∷ []) }
{
    match name {
        "put_varint_with_len" => {
            let wide = Wide::new(value, count(width)?)?;
            Some(Command::PutVarintWithLen(wide, bytes))
        }
        _ => None,
    }
}

/// Returns the command of a name, a number and two byte strings.
pub fn with_two_byte_strings(
    name: &str,
    place: u64,
    left: Vec<u8>,
    right: Vec<u8>,
) -> Option<Command>
    ensures { option_map call_of result
        ≡ command_for name.now
        (decimal_word place ∷ hex_word left.items ∷ hex_word right.items ∷ []) }
{
    match name {
        "split_at" => Some(Command::SplitAt(count(place)?, left, right)),
        _ => None,
    }
}
