//! Inputs at the limits of the program, and past them.

use super::devices::ByteReader;
use super::{ended, is_answered, is_end};
use std::alloc::{AllocError, Global};
use std::test::Fail;

/// Whether the program ends so for a packet with so many zeros, and writes this text.
fn is_packet(
    alloc: Global,
    zeros: u32,
    status: u8,
    line: &str,
    text: &[u8],
) -> Result<bool, AllocError> {
    let mut reader = ByteReader {
        head: b"\x00\x00\x00\x80\x00\xff\xf9",
        zeros,
        fails: false,
    };
    let mut output = Vec::new(alloc);
    let end = ended(alloc, "packet", "", &mut reader, &mut output)?;
    Ok(is_end(end, status, line) && output.as_slice() == text)
}

/// A packet of 65,536 bytes, whose payload is zeros, and one with one byte more.
#[test]
fn reads_65536_bytes_and_no_more(rt: HostRuntime) -> Result<(), Fail> {
    let digits = "00".repeat(rt.alloc(), 65_529)?;
    let text = format!(in rt.alloc(); "kind 0 number 0 payload {digits}\n")?;
    assert!(rt; is_packet(rt.alloc(), 65_529, 0, "", text.as_bytes())?);
    assert!(rt; is_packet(rt.alloc(), 65_530, 2, "input too long", b"")?);
    Ok(())
}

/// Whether a script ends with this status, and writes this text.
fn is_script(alloc: Global, input: &str, status: u8, text: &str) -> Result<bool, AllocError> {
    is_answered(
        alloc,
        "script",
        "",
        input.as_bytes(),
        status,
        text.as_bytes(),
    )
}

/// Whether a script of so many calls, which all return the length, runs to its end.
fn is_run(alloc: Global, count: usize) -> Result<bool, AllocError> {
    let calls = "len\n".repeat(alloc, count)?;
    let replies = "number 1\n".repeat(alloc, count)?;
    let input = format!(in alloc; "buffer 00\n{calls}")?;
    let text = format!(in alloc; "{replies}buffer 00 off 0\n")?;
    is_script(alloc, input.as_str(), 0, text.as_str())
}

/// Whether a script of so many such calls, and then one more line, is refused with this text.
fn is_refused(alloc: Global, count: usize, last: &str, text: &str) -> Result<bool, AllocError> {
    let calls = "len\n".repeat(alloc, count)?;
    let input = format!(in alloc; "buffer 00\n{calls}{last}\n")?;
    is_script(alloc, input.as_str(), 1, text)
}

/// Line 4,098 is that of the command after the 4,096th, whether or not it is one.
#[test]
fn runs_4096_commands_and_no_more(rt: HostRuntime) -> Result<(), Fail> {
    assert!(rt; is_run(rt.alloc(), 4_096)?);
    assert!(rt; is_refused(rt.alloc(), 4_096, "len", "refused at line 4098\n")?);
    assert!(rt; is_refused(rt.alloc(), 4_096, "length", "refused at line 4098\n")?);
    assert!(rt; is_refused(rt.alloc(), 4_095, "length", "refused at line 4097\n")?);
    Ok(())
}

/// Whether a script without calls, over a buffer of so many zeros, has this output.
fn is_buffer(alloc: Global, count: usize, status: u8) -> Result<bool, AllocError> {
    let digits = "00".repeat(alloc, count)?;
    let input = format!(in alloc; "buffer {digits}\n")?;
    let text = match status {
        0 => format!(in alloc; "buffer {digits} off 0\n")?,
        _ => format!(in alloc; "refused at line 1\n")?,
    };
    is_script(alloc, input.as_str(), status, text.as_str())
}

#[test]
fn takes_a_buffer_of_4096_bytes_and_no_more(rt: HostRuntime) -> Result<(), Fail> {
    assert!(rt; is_buffer(rt.alloc(), 4_096, 0)?);
    assert!(rt; is_buffer(rt.alloc(), 4_097, 1)?);
    Ok(())
}
