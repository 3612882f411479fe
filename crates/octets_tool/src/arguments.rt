//! The words of the command line.
ghost use Rattle.std.specs.Prelude.{◌≡◌, ◌↔◌, [], ◌∷◌, map};
ghost use Rattle.std.specs.String.{string_bytes};
ghost use Rattle.octets_tool.specs.Words.{IsCommandLine};

use crate::decimal::count_of;

/// A command, with all that its words say.
#[derive(Clone, Copy)]
pub enum Task {
    /// Reads a packet, which must be the whole input.
    Packet,
    /// Reads such a packet, whose kind is a varint of the least width that holds it.
    Packet2,
    /// Prints the Huffman encoding of the input.
    Encode,
    /// Prints the Huffman encoding of the input in lower case.
    EncodeLower,
    /// Prints the value of which the input is the Huffman encoding, if the value has at most so
    /// many bytes.
    Decode(usize),
    /// Reads a string literal at the start of the input, whose value has at most so many bytes, and
    /// prints the literal that is written for this value.
    Literal(usize),
    /// Makes the calls of a script, and prints the replies.
    Script,
}

/// Returns the task that the words after the program's name ask for, if any.
pub fn parse_args(words: &[String]) -> Option<Task>
    ensures { (task : Task)
        → (result ≡ Some task) ↔ IsCommandLine (map string_bytes words.now) task }
{
    match words {
        [command] => task_of_word(command.as_str()),
        [command, limit] => task_of_words(command.as_str(), limit.as_str()),
        _ => None,
    }
}

/// Returns the task of one word.
fn task_of_word(command: &str) -> Option<Task>
    ensures { (task : Task) → (result ≡ Some task) ↔ IsCommandLine (command.now ∷ []) task }
{
    match command {
        "packet" => Some(Task::Packet),
        "packet2" => Some(Task::Packet2),
        "encode" => Some(Task::Encode),
        "encode-lower" => Some(Task::EncodeLower),
        "script" => Some(Task::Script),
        _ => None,
    }
}

/// Returns the task of two words.
fn task_of_words(command: &str, limit: &str) -> Option<Task>
    ensures { (task : Task)
        → (result ≡ Some task) ↔ IsCommandLine (command.now ∷ limit.now ∷ []) task }
{
    match command {
        "decode" => Some(Task::Decode(count_of(limit.as_bytes())?)),
        "string" => Some(Task::Literal(count_of(limit.as_bytes())?)),
        _ => None,
    }
}
