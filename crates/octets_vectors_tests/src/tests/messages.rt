//! The messages of the errors.

use super::assert_held;
use octets::{BufferTooShortError, DecodeError, IntoError, VarintError};
use octets_script::Stopped;
use octets_vectors::SinkError;
use std::alloc::{AllocError, Global};
use std::fmt::{self, Display, Write};

/// A writer that takes no text.
#[derive(Drop)]
struct Full;

impl Write for Full {
    fn write_str(&mut self, _text: &str) -> fmt::Result {
        Err(fmt::Error)
    }
}

/// Whether the error has this message, whatever the width, and `fmt` fails if the writer fails.
fn says<E: Display>(alloc: Global, error: &E, text: &str) -> Result<bool, AllocError> {
    let said = format!(in alloc; "{error}")?;
    let wide = format!(in alloc; "{error:99}")?;
    Ok(said.as_str() == text && wide.as_str() == text && write!(Full, "{error}").is_err())
}

/// Whether the errors of varints and of buffers have their messages.
fn cursors_say(alloc: Global) -> Result<bool, AllocError> {
    let short = "fewer bytes remain than the varint has";
    let overlong = "the varint is wider than its value needs";
    Ok(
        says(alloc, &BufferTooShortError, "BufferTooShortError")?
            && says(alloc, &VarintError::Short, short)?
            && says(alloc, &VarintError::Overlong, overlong)?,
    )
}

/// Whether the errors of decodes have their messages.
fn decodes_say(alloc: Global) -> Result<bool, AllocError> {
    let short = "the bytes are no Huffman text of a value within the limit";
    let no_text = "the bytes are no Huffman text";
    let no_room = "the value is longer than the slice";
    Ok(
        says(alloc, &DecodeError::from(BufferTooShortError), short)?
            && says(alloc, &DecodeError::from(AllocError), "out of memory")?
            && says(alloc, &IntoError::NotText { written: 7 }, no_text)?
            && says(alloc, &IntoError::NoRoom, no_room)?,
    )
}

/// Whether the errors of the sink and of a script have their messages.
fn others_say(alloc: Global) -> Result<bool, AllocError> {
    let stopped = Stopped {
        replies: Vec::new(alloc),
        done: 0,
    };
    Ok(
        says(alloc, &SinkError, "the sink takes nothing")?
            && says(alloc, &stopped, "out of memory")?,
    )
}

#[test]
fn errors_have_messages(rt: HostRuntime) {
    assert_held(&rt, "cursors", 0, cursors_say(rt.alloc()));
    assert_held(&rt, "decodes", 1, decodes_say(rt.alloc()));
    assert_held(&rt, "others", 2, others_say(rt.alloc()));
}
