//! Scripts, and texts that aren't scripts.

use super::{Row, assert_answered, is_answered};
use crate::script::{ScriptFault, parse_script};
use std::alloc::{AllocError, Global};
use std::test::Fail;

#[rattlefmt::skip]
static SCRIPTS: [Row; 17] = [
    ("script", "", b"buffer 00000000\nput_u16 258 -\nrewind 1\nget_u8\nput_varint 37 40\nskip 2\n", 0, "done\ndone\nnumber 2\ndone\nshort\nbuffer 01024000 off 3\n"),
    ("script", "", b"", 1, "refused at line 1\n"),
    ("script", "", b"buffer 00\nput_varint 4611686018427387904 -\n", 1, "refused at line 2\n"),
    ("script", "", b"buffer -", 0, "buffer - off 0\n"),
    ("script", "", b"buffer 0", 1, "refused at line 1\n"),
    ("script", "", b"buffer 00\n\n", 1, "refused at line 2\n"),
    ("script", "", b"buffer 00\nput_u8 256 -\n", 1, "refused at line 2\n"),
    ("script", "", b"buffer 000000\nput_u24 16909060 -\n", 0, "done\nbuffer 020304 off 3\n"),
    ("script", "", b"buffer 4025\nget_varint_shortest\nget_varint\n", 0, "overlong\nnumber 37\nbuffer 4025 off 2\n"),
    ("script", "", b"buffer 4040\nget_varint_shortest\n", 0, "number 64\nbuffer 4040 off 2\n"),
    ("script", "", b"buffer 40\nget_varint_shortest\n", 0, "short\nbuffer 40 off 0\n"),
    ("script", "", b"buffer -\nget_varint_shortest\n", 0, "short\nbuffer - off 0\n"),
    ("script", "", b"buffer -\n", 0, "buffer - off 0\n"),
    ("script", "", b"buffer 00\nput_bytes 0a\nskip 4294967295", 0, "done\nshort\nbuffer 0a off 1\n"),
    ("script", "", b"buffer 010203\nsplit_at 1 aa bbccdd\nbuf\n", 0, "two 01 0203\nbytes aabbcc\nbuffer aabbcc off 0\n"),
    // The greatest number of each width.
    ("script", "", b"buffer 000000000000000000000000000000000000\nput_u8 255 -\nput_u16 65535 -\nput_u24 4294967295 -\nput_u32 4294967295 -\nput_u64 18446744073709551615 -\n", 0, "done\ndone\ndone\ndone\ndone\nbuffer ffffffffffffffffffffffffffffffffffff off 18\n"),
    ("script", "", b"buffer 0000000000000000000000000000000000000000000000\nput_varint 4611686018427387903 -\nput_varint_with_len 63 1 -\nput_varint_with_len 16383 2 -\nput_varint_with_len 1073741823 4 -\nput_varint_with_len 4611686018427387903 8 -\n", 0, "done\ndone\ndone\ndone\ndone\nbuffer ffffffffffffffff3f7fffbfffffffffffffffffffffff off 23\n"),
];

#[test]
fn runs_scripts_or_names_the_line(rt: HostRuntime) -> Result<(), Fail> {
    assert_answered(&rt, rt.alloc(), &SCRIPTS)
}

const FIRST: &str = "buffer 000000000000000000000000000000000000000000000000\n";

/// Calls, each with its reply.
#[rattlefmt::skip]
static CALLS: [(&str, &str); 106] = [
    ("len", "number 24"),
    ("off", "number 0"),
    ("cap", "number 24"),
    ("is_empty", "number 0"),
    ("put_u8 7 -", "done"),
    ("put_u16 258 -", "done"),
    ("put_u24 16909060 -", "done"),
    ("put_u32 84281096 -", "done"),
    ("put_u64 651345242494996240 -", "done"),
    ("off", "number 18"),
    ("cap", "number 6"),
    ("put_u64 1 -", "short"),
    ("put_u8 255 01", "done"),
    ("rewind 19", "done"),
    ("get_u8", "number 7"),
    ("get_u16", "number 258"),
    ("get_u24", "number 131844"),
    ("get_u32", "number 84281096"),
    ("get_u64", "number 651345242494996240"),
    ("get_u8", "number 1"),
    ("off", "number 19"),
    ("rewind 20", "short"),
    ("rewind 19", "done"),
    ("peek_u8", "number 7"),
    ("get_u64", "number 504686840905991430"),
    ("get_u64", "number 506664896818842894"),
    ("get_u64", "number 1085368609707917312"),
    ("skip 3", "short"),
    ("get_u32", "short"),
    ("get_u24", "short"),
    ("rewind 1", "done"),
    ("get_u16", "short"),
    ("get_u8", "number 0"),
    ("skip 1", "short"),
    ("skip 0", "done"),
    ("peek_u8", "short"),
    ("rewind 24", "done"),
    ("put_varint 37 -", "done"),
    ("put_varint 15293 -", "done"),
    ("put_varint 494878333 -", "done"),
    ("put_varint 151288809941952652 -", "done"),
    ("put_varint 4611686018427387903 -", "done"),
    ("off", "number 23"),
    ("rewind 15", "done"),
    ("get_varint", "number 25"),
    ("get_varint", "number 15454"),
    ("get_varint", "number 4545513616211705855"),
    ("get_varint", "short"),
    ("rewind 15", "done"),
    ("put_varint 37 40", "done"),
    ("put_varint_with_len 37 2 -", "done"),
    ("put_varint_with_len 0 8 c1", "done"),
    ("rewind 11", "done"),
    ("get_varint", "number 64"),
    ("rewind 2", "done"),
    ("get_varint_shortest", "number 64"),
    ("rewind 1", "done"),
    ("get_varint_shortest", "overlong"),
    ("rewind 1", "done"),
    ("get_bytes 3", "bytes 404025"),
    ("peek_bytes 4", "bytes c1000000"),
    ("peek_bytes 25", "short"),
    ("get_bytes 0", "bytes -"),
    ("buf", "bytes 257bbd9d404025c100000000000000ffffffffffffffff00"),
    ("rewind 3", "done"),
    ("put_u8 2 -", "done"),
    ("put_bytes 6869", "done"),
    ("put_u16 3 -", "done"),
    ("put_bytes 616263", "done"),
    ("put_bytes -", "done"),
    ("put_varint 4 -", "done"),
    ("put_bytes 77787980", "done"),
    ("rewind 13", "done"),
    ("get_bytes_with_u8_length", "bytes 6869"),
    ("get_bytes_with_u16_length", "bytes 616263"),
    ("get_bytes_with_varint_length", "bytes 77787980"),
    ("to_vec", "bytes ffffffffffff00"),
    ("rewind 4", "done"),
    ("get_bytes_mut 2 4142", "bytes 7778"),
    ("peek_bytes_mut 2 43", "bytes 7980"),
    ("get_bytes_mut 30 44", "short"),
    ("slice 3 313233", "bytes 4380ff"),
    ("slice 40 -", "short"),
    ("slice_last 2 ee", "bytes ff00"),
    ("slice_last 20 -", "short"),
    ("split_at 5 aa bbcc", "two 257bbd9d02 68690003616263044142313233ffffffffee00"),
    ("split_at 25 - -", "short"),
    ("as_mut 5a5a5a", "bytes 313233ffffffffee00"),
    ("rewind 11", "done"),
    ("put_huffman 637573746f6d2d6b6579", "done"),
    ("put_huffman_lower 41", "done"),
    ("rewind 9", "done"),
    ("decode 4", "short"),
    ("rewind 3", "done"),
    ("as_mut 1fff", "bytes a849e95ba97d7f1f41425a5a5affffffffee00"),
    ("decode 0", "short"),
    ("get_u8", "number 255"),
    ("put_huffman 6161616161616161616161616161", "done"),
    ("put_huffman_lower 41424344", "done"),
    ("cap", "number 5"),
    ("rewind 24", "short"),
    ("put_bytes 1f", "done"),
    ("rewind 1", "done"),
    ("as_mut 1f1f1f1f1f1f1f1f1f1f1f1f1f1f1f1f1f1f1f1f1f1f1f1f", "bytes 1fffffee00"),
    ("decode 100", "bytes 6156772626"),
    ("off", "number 24"),
];

const LAST: &str = "buffer aa7bbd9d251fff18c6318c6318c6318f1c64931f1f1f1f1f off 24\n";

/// Returns the lines of a column of the calls.
fn lines(alloc: Global, is_call: bool) -> Result<String, AllocError> {
    let mut lines = String::new(alloc);
    for (call, reply) in &CALLS {
        lines.push_str(if is_call { call } else { reply })?;
        lines.push('\n')?;
    }
    Ok(lines)
}

/// A script with each call, most of them fitting and not fitting.
#[test]
fn replies_to_each_call(rt: HostRuntime) -> Result<(), Fail> {
    let (calls, replies) = (lines(rt.alloc(), true)?, lines(rt.alloc(), false)?);
    let input = format!(in rt.alloc(); "{FIRST}{calls}")?;
    let text = format!(in rt.alloc(); "{replies}{LAST}")?;
    let (input, text) = (input.as_bytes(), text.as_bytes());
    assert!(rt; is_answered(rt.alloc(), "script", "", input, 0, text)?);
    Ok(())
}

/// Whether the text is a script with this buffer and so many commands.
fn is_script(alloc: Global, input: &[u8], buffer: &[u8], commands: usize) -> bool {
    match parse_script(alloc, input) {
        Ok(script) => script.buffer.as_slice() == buffer && script.commands.len() == commands,
        Err(_) => false,
    }
}

/// Whether the line with this number is the first that breaks a rule.
fn is_fault(alloc: Global, input: &str, line: usize) -> bool {
    match parse_script(alloc, input.as_bytes()) {
        Err(ScriptFault::Line(number)) => number == line,
        _ => false,
    }
}

/// Texts that aren't scripts, each with the number of the first line that breaks a rule.
#[rattlefmt::skip]
static FAULTS: [(&str, usize); 60] = [
    // A line for the buffer.
    ("", 1),
    ("\n", 1),
    ("len\n", 1),
    ("buffer\n", 1),
    ("buffer 0", 1),
    ("buffer 0A\n", 1),
    ("Buffer 00\n", 1),
    (" buffer 00\n", 1),
    ("buffer  00\n", 1),
    ("buffer\t00\n", 1),
    ("buffer 00 \n", 1),
    ("buffer 00\r\n", 1),
    ("buffer 00 00\n", 1),
    // Lines and spaces.
    ("buffer 00\n\n", 2),
    ("buffer 00\nlen\r\n", 2),
    ("buffer 00\nlen\r", 2),
    ("buffer 00\nlen \n", 2),
    ("buffer 00\n len\n", 2),
    ("buffer 00\nskip\t1\n", 2),
    ("buffer 00\nlen\nskip  0\nlen\n", 3),
    ("buffer 00\nlen\nlength\nskip\n", 3),
    // Numbers and bytes.
    ("buffer 00\nskip 01\n", 2),
    ("buffer 00\nskip +1\n", 2),
    ("buffer 00\nskip -1\n", 2),
    ("buffer 00\nput_bytes 0A\n", 2),
    ("buffer 00\nput_bytes 000\n", 2),
    // A count that is greater than 4294967295, as each command takes it.
    ("buffer 00\nskip 4294967296\n", 2),
    ("buffer 00\nrewind 4294967296\n", 2),
    ("buffer 00\nget_bytes 4294967296\n", 2),
    ("buffer 00\npeek_bytes 4294967296\n", 2),
    ("buffer 00\ndecode 4294967296\n", 2),
    ("buffer 00\nget_bytes_mut 4294967296 -\n", 2),
    ("buffer 00\npeek_bytes_mut 4294967296 -\n", 2),
    ("buffer 00\nslice 4294967296 -\n", 2),
    ("buffer 00\nslice_last 4294967296 -\n", 2),
    ("buffer 00\nsplit_at 4294967296 - -\n", 2),
    // A number that is greater than its width holds, and widths that no varint has.
    ("buffer 00\nput_u8 256 -\n", 2),
    ("buffer 00\nput_u16 65536 -\n", 2),
    ("buffer 00\nput_u24 4294967296 -\n", 2),
    ("buffer 00\nput_u32 4294967296 -\n", 2),
    ("buffer 00\nput_u64 18446744073709551616 -\n", 2),
    ("buffer 00\nput_varint 4611686018427387904 -\n", 2),
    ("buffer 00\nput_varint 4611686018427387904 -", 2),
    ("buffer 00\nput_varint_with_len 64 1 -\n", 2),
    ("buffer 00\nput_varint_with_len 16384 2 -\n", 2),
    ("buffer 00\nput_varint_with_len 1073741824 4 -\n", 2),
    ("buffer 00\nput_varint_with_len 4611686018427387904 8 -\n", 2),
    ("buffer 00\nput_varint_with_len 0 0 -\n", 2),
    ("buffer 00\nput_varint_with_len 0 3 -\n", 2),
    ("buffer 00\nput_varint_with_len 0 4294967297 -\n", 2),
    // A word that is missing, and one too many.
    ("buffer 00\nskip\n", 2),
    ("buffer 00\nput_u8 1\n", 2),
    ("buffer 00\nsplit_at 0 -\n", 2),
    ("buffer 00\nput_varint_with_len 0 1\n", 2),
    ("buffer 00\nlen 1\n", 2),
    ("buffer 00\nskip 1 -\n", 2),
    ("buffer 00\nput_bytes - -\n", 2),
    ("buffer 00\nput_u8 1 - -\n", 2),
    ("buffer 00\nsplit_at 0 - - -\n", 2),
    ("buffer 00\nput_varint_with_len 0 1 - -\n", 2),
];

#[test]
fn parses_scripts_or_names_the_line(rt: HostRuntime) {
    assert!(rt; is_script(rt.alloc(), b"buffer 0102\nlen\nskip 1", &[1, 2], 2));
    for (input, line) in &FAULTS {
        assert!(rt; is_fault(rt.alloc(), input, *line), "of {input}");
    }
}
