//! The words of the command line.

use crate::arguments::{Task, parse_args};
use std::alloc::{AllocError, Global};
use std::test::Fail;

/// Whether the task is the expected one, or there is neither.
fn is_task(task: Option<Task>, wanted: Option<Task>) -> bool {
    match (task, wanted) {
        (Some(Task::Packet), Some(Task::Packet)) | (Some(Task::Packet2), Some(Task::Packet2)) =>
            true,
        (Some(Task::Encode), Some(Task::Encode)) | (Some(Task::Script), Some(Task::Script)) => true,
        (Some(Task::EncodeLower), Some(Task::EncodeLower)) | (None, None) => true,
        (Some(Task::Decode(limit)), Some(Task::Decode(most))) => limit == most,
        (Some(Task::Literal(limit)), Some(Task::Literal(most))) => limit == most,
        _ => false,
    }
}

/// Whether the words ask for the task, or for none.
fn is_read(alloc: Global, texts: &[&str], wanted: Option<Task>) -> Result<bool, AllocError> {
    let mut words = Vec::new(alloc);
    for text in texts {
        words.push(String::from_str(alloc, text)?)?;
    }
    Ok(is_task(parse_args(&words), wanted))
}

#[rattlefmt::skip]
static COMMAND_LINES: [(&[&str], Option<Task>); 40] = [
    (&["packet"], Some(Task::Packet)),
    (&["packet2"], Some(Task::Packet2)),
    (&["encode"], Some(Task::Encode)),
    (&["encode-lower"], Some(Task::EncodeLower)),
    (&["script"], Some(Task::Script)),
    (&["decode", "0"], Some(Task::Decode(0))),
    (&["decode", "100"], Some(Task::Decode(100))),
    (&["decode", "4294967295"], Some(Task::Decode(4_294_967_295))),
    (&["string", "0"], Some(Task::Literal(0))),
    (&["string", "4294967295"], Some(Task::Literal(4_294_967_295))),
    // No words, and words that aren't a command.
    (&[], None),
    (&[""], None),
    (&["", "packet"], None),
    (&["Packet"], None),
    (&["packet "], None),
    (&["packets"], None),
    (&["String", "1"], None),
    // A word after a command that has no limit.
    (&["packet", ""], None),
    (&["packet", "packet"], None),
    (&["packet", "1"], None),
    (&["packet2", "1"], None),
    (&["encode", "1"], None),
    (&["encode-lower", "1"], None),
    (&["script", "1"], None),
    // A limit that is missing, that isn't a number, or that is too great, and a word after a limit.
    (&["decode"], None),
    (&["decode", ""], None),
    (&["decode", "01"], None),
    (&["decode", "+1"], None),
    (&["decode", "-1"], None),
    (&["decode", "0x1"], None),
    (&["decode", "1 "], None),
    (&["decode", "4294967296"], None),
    (&["decode", "18446744073709551617"], None),
    (&["decode", "1", "1"], None),
    (&["decode", "1", ""], None),
    (&["string"], None),
    (&["string", ""], None),
    (&["string", "01"], None),
    (&["string", "4294967296"], None),
    (&["string", "1", "1"], None),
];

#[test]
fn reads_command_lines(rt: HostRuntime) -> Result<(), Fail> {
    for (words, task) in &COMMAND_LINES {
        assert!(rt; is_read(rt.alloc(), words, *task)?, "of {words:?}");
    }
    Ok(())
}
