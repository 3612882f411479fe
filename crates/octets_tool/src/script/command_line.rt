//! Reads of one line of a script.
#![tactic(auto, using(crate::proofs::LineWords::unread))]

ghost use Rattle.std.specs.Prelude.{◌≡◌, ◌↔◌, ℕ, List, [], ◌∷◌, Some, option_map, vec_items};
ghost use Rattle.octets_script.specs.Calls.{Call, call_of};
ghost use Rattle.octets_tool.specs.Commands.{IsLineOf};
ghost use Rattle.octets_tool.specs.Names.{AreWordsOf, AreWordsBy, number_word, bytes_word};
ghost use Rattle.octets_tool.specs.Scripts.{IsBufferLine};
ghost use Rattle.octets_tool.specs.Requests.{OrRefused};

use crate::cut::cut;
use crate::decimal::number_of;
use crate::hex_word::bytes_of;
use crate::script::names::{
    plain, with_bytes, with_number, with_number_and_bytes, with_two_byte_strings, with_two_numbers,
};
use octets_script::Command;
use std::alloc::{AllocError, Global};
use std::str;

/// The greatest length of the buffer of a script in bytes.
const MOST_BUFFER: usize = 4_096;

/// Returns the buffer that the first line of a script spells, if it spells one.
pub fn read_buffer(alloc: Global, line: &[u8]) -> Result<Option<Vec<u8>>, AllocError>
    ensures { OrRefused result (λ found. (b : List ℕ)
        → (option_map vec_items found ≡ Some b) ↔ IsBufferLine line.now b) }
{
    let Some(word) = line.strip_prefix(b"buffer ".as_slice()) else {
        return Ok(None);
    };
    let Some(bytes) = bytes_of(alloc, word)? else {
        return Ok(None);
    };
    if bytes.as_slice().len() > MOST_BUFFER {
        return Ok(None);
    }
    Ok(Some(bytes))
}

/// Returns the command that a line spells, if it spells one.
pub fn read_command(alloc: Global, line: &[u8]) -> Result<Option<Command>, AllocError>
    ensures { OrRefused result (λ found. (c : Call)
        → (option_map call_of found ≡ Some c) ↔ IsLineOf line.now c) }
{
    let (name, rest) = cut(line, b' ');
    let Ok(name) = str::from_utf8(name) else {
        return Ok(None);
    };
    let Some(rest) = rest else {
        return Ok(plain(name));
    };
    let (first, rest) = cut(rest, b' ');
    let Some(rest) = rest else {
        return with_one_word(alloc, name, first);
    };
    let (second, rest) = cut(rest, b' ');
    let Some(rest) = rest else {
        return with_two_words(alloc, name, first, second);
    };
    let (third, rest) = cut(rest, b' ');
    // No command has a fourth argument.
    if rest.is_some() {
        return Ok(None);
    }
    with_three_words(alloc, name, first, second, third)
}

/// Returns the command of a name and one more word, which is a number or bytes.
fn with_one_word(alloc: Global, name: &str, word: &[u8]) -> Result<Option<Command>, AllocError>
    ensures { OrRefused result (λ found. (c : Call)
        → (option_map call_of found ≡ Some c) ↔ AreWordsOf (name.now ∷ word.now ∷ []) c) }
{
    match with_number_word(name, word) {
        Some(command) => Ok(Some(command)),
        None => with_bytes_word(alloc, name, word),
    }
}

/// Returns the command of a name and a word that is a number.
fn with_number_word(name: &str, word: &[u8]) -> Option<Command>
    ensures { (c : Call) → (option_map call_of result ≡ Some c)
        ↔ AreWordsBy (number_word ∷ []) (name.now ∷ word.now ∷ []) c }
{
    with_number(name, number_of(word)?)
}

/// Returns the command of a name and a word that is bytes.
fn with_bytes_word(alloc: Global, name: &str, word: &[u8]) -> Result<Option<Command>, AllocError>
    ensures { OrRefused result (λ found. (c : Call) → (option_map call_of found ≡ Some c)
        ↔ AreWordsBy (bytes_word ∷ []) (name.now ∷ word.now ∷ []) c) }
{
    match bytes_of(alloc, word)? {
        Some(bytes) => Ok(with_bytes(name, bytes)),
        None => Ok(None),
    }
}

/// Returns the command of a name and two more words, a number and bytes.
fn with_two_words(
    alloc: Global,
    name: &str,
    first: &[u8],
    second: &[u8],
) -> Result<Option<Command>, AllocError>
    ensures { OrRefused result (λ found. (c : Call) → (option_map call_of found ≡ Some c)
        ↔ AreWordsBy (number_word ∷ bytes_word ∷ [])
        (name.now ∷ first.now ∷ second.now ∷ []) c) }
{
    let Some(number) = number_of(first) else {
        return Ok(None);
    };
    match bytes_of(alloc, second)? {
        Some(bytes) => Ok(with_number_and_bytes(name, number, bytes)),
        None => Ok(None),
    }
}

/// Returns the command of a name and three more words.
fn with_three_words(
    alloc: Global,
    name: &str,
    first: &[u8],
    second: &[u8],
    third: &[u8],
) -> Result<Option<Command>, AllocError>
    ensures { OrRefused result (λ found. (c : Call) → (option_map call_of found ≡ Some c)
        ↔ AreWordsOf (name.now ∷ first.now ∷ second.now ∷ third.now ∷ []) c) }
{
    if name == "split_at" {
        with_parts(alloc, name, first, second, third)
    } else {
        with_width(alloc, name, first, second, third)
    }
}

/// Returns the command of a name and three words that are a number and two byte strings.
fn with_parts(
    alloc: Global,
    name: &str,
    place: &[u8],
    left: &[u8],
    right: &[u8],
) -> Result<Option<Command>, AllocError>
    ensures { OrRefused result (λ found. (c : Call) → (option_map call_of found ≡ Some c)
        ↔ AreWordsBy (number_word ∷ bytes_word ∷ bytes_word ∷ [])
        (name.now ∷ place.now ∷ left.now ∷ right.now ∷ []) c) }
{
    let Some(place) = number_of(place) else {
        return Ok(None);
    };
    let Some(left) = bytes_of(alloc, left)? else {
        return Ok(None);
    };
    match bytes_of(alloc, right)? {
        Some(right) => Ok(with_two_byte_strings(name, place, left, right)),
        None => Ok(None),
    }
}

/// Returns the command of a name and three words that are two numbers and bytes.
fn with_width(
    alloc: Global,
    name: &str,
    value: &[u8],
    width: &[u8],
    bytes: &[u8],
) -> Result<Option<Command>, AllocError>
    ensures { OrRefused result (λ found. (c : Call) → (option_map call_of found ≡ Some c)
        ↔ AreWordsBy (number_word ∷ number_word ∷ bytes_word ∷ [])
        (name.now ∷ value.now ∷ width.now ∷ bytes.now ∷ []) c) }
{
    let Some(value) = number_of(value) else {
        return Ok(None);
    };
    let Some(width) = number_of(width) else {
        return Ok(None);
    };
    match bytes_of(alloc, bytes)? {
        Some(bytes) => Ok(with_two_numbers(name, value, width, bytes)),
        None => Ok(None),
    }
}
