//! The replies, and what a run returns that stops before its end.
ghost use Rattle.std.specs.Prelude.{◌≡◌, Some, codes, IfOk, OnOk, OnErr};
ghost use Rattle.octets.specs.Does.{done_answer, number_answer, varint_answer};
ghost use Rattle.octets_script.specs.Calls.{Answer, answer_of};

use octets::VarintError;
use std::error::Error;
use std::fmt;

/// The result of a command.
#[derive(Debug, Drop, PartialEq, Eq)]
pub enum Reply {
    /// The call succeeded, and returns nothing.
    Done,
    /// The number that the call read or returned.
    Number(u64),
    /// The bytes that were read, or the value that was decoded. Of bytes that were lent, these are
    /// the bytes before the write.
    Bytes(Vec<u8>),
    /// The bytes of both halves, as they were before the write.
    Two(Vec<u8>, Vec<u8>),
    /// The call failed. Fewer bytes remain than it needs; or fewer were passed, for `Rewind`; or
    /// the buffer has fewer, for `SplitAt`; or the bytes to be decoded aren't the encoding of a
    /// value within the limit.
    Short,
    /// The call failed because the varint is wider than its value needs.
    Overlong,
}

/// A run that stopped before its end because an allocation failed.
#[derive(Debug, Drop)]
pub struct Stopped {
    /// The replies to the commands that were performed.
    pub replies: Vec<Reply>,
    /// How many commands were performed.
    pub done: usize,
}

impl fmt::Display for Stopped {
    ghost output = { λ _. Some (codes "out of memory") };

    fn fmt<W: fmt::Write>(&self, f: &mut fmt::Formatter<W>) -> fmt::Result {
        write!(f, "out of memory")
    }
}

impl Error for Stopped {}

/// Returns `Done` if the call succeeded, and `Short` if it failed.
pub(crate) fn done_or_short(answer: octets::Result<()>) -> Reply
    ensures { answer_of result ≡ done_answer answer }
{
    match answer {
        Ok(()) => Reply::Done,
        Err(_) => Reply::Short,
    }
}

/// Returns the `Number` that was read, or `Short` if the call failed.
pub(crate) fn number_or_short(answer: octets::Result<u64>) -> Reply
    ensures { answer_of result ≡ number_answer answer }
{
    match answer {
        Ok(number) => Reply::Number(number),
        Err(_) => Reply::Short,
    }
}

/// Returns the `Number` that was read as a varint in its least width, or why there is none.
pub(crate) fn varint_or_fault(answer: Result<u64, VarintError>) -> Reply
    ensures { answer_of result ≡ varint_answer answer }
{
    match answer {
        Ok(number) => Reply::Number(number),
        Err(VarintError::Short) => Reply::Short,
        Err(VarintError::Overlong) => Reply::Overlong,
    }
}

/// Returns the `Bytes` that were lent, as they were before the write, or `Short` if the call
/// failed.
pub(crate) fn bytes_or_short(answer: octets::Result<()>, before: Vec<u8>) -> Reply
    ensures bytes { OnOk answer (answer_of result ≡ Answer.Bytes before.items) }
    ensures short { OnErr answer (answer_of result ≡ Answer.Short) }
{
    match answer {
        Ok(()) => Reply::Bytes(before),
        Err(_) => Reply::Short,
    }
}
