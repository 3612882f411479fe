//! Readers that give a byte in a call or fail, and writers that take few bytes, take none or fail.

use super::{ended, is_end};
use std::alloc::{AllocError, Global};
use std::io;
use std::io::{ErrorKind, Read, Write};
use std::test::Fail;

/// A reader that gives the bytes of its head and then so many zeros, one in each call, and then
/// fails or is at its end.
#[derive(Drop)]
pub struct ByteReader<'a> {
    pub head: &'a [u8],
    pub zeros: u32,
    pub fails: bool,
}

impl Read for ByteReader<'_> {
    fn read(&mut self, buf: &mut [u8]) -> io::Result<usize> {
        if buf.is_empty() {
            return Ok(0);
        }
        if let [first, rest @ ..] = self.head {
            buf[0] = *first;
            self.head = rest;
            return Ok(1);
        }
        if self.zeros > 0 {
            buf[0] = 0;
            self.zeros -= 1;
            return Ok(1);
        }
        if self.fails {
            return Err(io::Error::from(ErrorKind::Other));
        }
        Ok(0)
    }
}

/// A writer that takes so many bytes, and then fails or takes none.
#[derive(Drop)]
struct NarrowWriter {
    room: usize,
    fails: bool,
}

impl Write for NarrowWriter {
    fn write(&mut self, buf: &[u8]) -> io::Result<usize> {
        if self.room > 0 {
            let count = buf.len().min(self.room);
            self.room -= count;
            return Ok(count);
        }
        if self.fails {
            return Err(io::Error::from(ErrorKind::Other));
        }
        Ok(0)
    }

    fn flush(&mut self) -> io::Result<()> {
        Ok(())
    }
}

/// A command, its limit if it has one, an input that it answers, and what it then writes.
type Case = (&'static str, &'static str, &'static [u8], &'static str);

#[rattlefmt::skip]
static CASES: [Case; 7] = [
    ("packet", "", b"\x07\x01\x02\x03abc", "kind 7 number 258 payload 616263\n"),
    ("packet2", "", b"\x40\x40\x01\x02\x00", "kind 64 number 258 payload -\n"),
    ("encode", "", b"custom-key", "text 25a849e95ba97d7f len 8\n"),
    ("encode-lower", "", b"A", "text 1f len 1\n"),
    ("decode", "1", b"\x1f", "value 61\n"),
    ("string", "1", b"\x81\x1f\x00", "value 61 rest 1 canon 0161\n"),
    ("script", "", b"buffer 00\nput_u8 7 -\n", "done\nbuffer 07 off 1\n"),
];

/// Whether the program answers if it gets one byte in each call.
fn is_answered(alloc: Global, case: &Case) -> Result<bool, AllocError> {
    let mut reader = ByteReader {
        head: case.2,
        zeros: 0,
        fails: false,
    };
    let mut output = Vec::new(alloc);
    let end = ended(alloc, case.0, case.1, &mut reader, &mut output)?;
    Ok(is_end(end, 0, "") && output.as_slice() == case.3.as_bytes())
}

/// Whether the program ends with this line and writes nothing, if its reader gives so many zeros,
/// one in each call, and then fails.
fn ends_unwritten(alloc: Global, case: &Case, zeros: u32, line: &str) -> Result<bool, AllocError> {
    let mut reader = ByteReader {
        head: b"",
        zeros,
        fails: true,
    };
    let mut output = Vec::new(alloc);
    let end = ended(alloc, case.0, case.1, &mut reader, &mut output)?;
    Ok(is_end(end, 2, line) && output.is_empty())
}

/// The reader fails at its first, second and third call, or gives a byte in each call for ever.
#[test]
fn reads_a_byte_in_a_call_or_reports_the_fault(rt: HostRuntime) -> Result<(), Fail> {
    for case in &CASES {
        assert!(rt; is_answered(rt.alloc(), case)?, "{case:?}");
        for zeros in 0..3 {
            let ends = ends_unwritten(rt.alloc(), case, zeros, "read failed")?;
            assert!(rt; ends, "{case:?} after {zeros} bytes");
        }
        let ends = ends_unwritten(rt.alloc(), case, u32::MAX, "input too long")?;
        assert!(rt; ends, "{case:?} without an end");
    }
    Ok(())
}

/// Whether the write is reported as failed, if the writer takes so many bytes.
fn fails_to_write(
    alloc: Global,
    case: &Case,
    room: usize,
    fails: bool,
) -> Result<bool, AllocError> {
    let mut reader = case.2;
    let mut writer = NarrowWriter { room, fails };
    let end = ended(alloc, case.0, case.1, &mut reader, &mut writer)?;
    Ok(is_end(end, 2, "write failed"))
}

/// The writer fails at its first call or after some bytes, or takes no byte there.
#[test]
fn reports_writes_that_fail(rt: HostRuntime) -> Result<(), Fail> {
    for case in &CASES {
        for room in 0..3 {
            for fails in [false, true] {
                let is_reported = fails_to_write(rt.alloc(), case, room, fails)?;
                assert!(rt; is_reported, "{case:?} after {room} bytes");
            }
        }
    }
    Ok(())
}
