//! The program in memory, from words and bytes to lines and an exit status. The expected lines were
//! calculated manually from the code of RFC 7541, Appendix B, and the varints of RFC 9000, section
//! 16. `gate/program` runs the built program.

use crate::arguments::parse_args;
use crate::ending::ending;
use crate::fault::RunFault;
use crate::output::Status;
use crate::run::run;
use std::alloc::{AllocError, Global};
use std::io::{Read, Write};
use std::process::Abort;
use std::test::Fail;

mod devices;
mod limits;
mod packets;
mod scripts;
mod texts;
mod words;

/// An exit status, and the line on standard error.
type End = (u8, &'static str);

/// Returns how the program ends for a command, a limit that is empty if there is none, a reader and
/// a writer.
fn ended<R: Read, W: Write>(
    alloc: Global,
    command: &str,
    limit: &str,
    reader: &mut R,
    writer: &mut W,
) -> Result<End, AllocError> {
    let mut words = Vec::new(alloc);
    words.push(String::from_str(alloc, command)?)?;
    if !limit.is_empty() {
        words.push(String::from_str(alloc, limit)?)?;
    }
    match parse_args(&words) {
        Some(task) => Ok(ending(Some(run(alloc, task, reader, writer)))),
        None => Ok(ending(None)),
    }
}

/// Whether the program ended with this status and this line.
fn is_end(end: End, status: u8, line: &str) -> bool {
    end.0 == status && end.1 == line
}

/// A command, its limit if it has one, an input, the exit status, and what the program writes.
type Row = (&'static str, &'static str, &'static [u8], u8, &'static str);

/// Whether the program ends for the input with this status and without a fault, and writes this
/// text.
fn is_answered(
    alloc: Global,
    command: &str,
    limit: &str,
    input: &[u8],
    status: u8,
    text: &[u8],
) -> Result<bool, AllocError> {
    let mut reader = input;
    let mut output = Vec::new(alloc);
    let end = ended(alloc, command, limit, &mut reader, &mut output)?;
    Ok(is_end(end, status, "") && output.as_slice() == text)
}

/// The program ends as each row says.
fn assert_answered(rt: &impl Abort, alloc: Global, rows: &[Row]) -> Result<(), Fail> {
    for (command, limit, input, status, text) in rows {
        let is_answered = is_answered(alloc, command, limit, input, *status, text.as_bytes())?;
        assert!(rt; is_answered, "{command} {limit} of {input:?}");
    }
    Ok(())
}

#[rattlefmt::skip]
static ENDINGS: [(Option<Result<Status, RunFault>>, u8, &str); 7] = [
    (Some(Ok(Status::Answered)), 0, ""),
    (Some(Ok(Status::Refused)), 1, ""),
    (Some(Err(RunFault::Read)), 2, "read failed"),
    (Some(Err(RunFault::Write)), 2, "write failed"),
    (Some(Err(RunFault::TooLong)), 2, "input too long"),
    (Some(Err(RunFault::Memory)), 2, "out of memory"),
    (None, 2, "usage: octets_tool COMMAND [LIMIT]"),
];

#[test]
fn ends_with_a_status_and_a_line(rt: HostRuntime) {
    for (answer, status, line) in &ENDINGS {
        assert!(rt; is_end(ending(*answer), *status, line), "of {line}");
    }
}
