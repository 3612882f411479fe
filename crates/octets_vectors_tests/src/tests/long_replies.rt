//! Replies of each length up to 64 bytes, and of some lengths up to 4,096.

use super::assert_holds;
use octets::OctetsMut;
use octets_script::{Command, Reply, run};
use std::alloc::Global;
use std::process::Abort;

/// The length of the buffer.
const MOST: usize = 4096;

/// Returns the bytes of the buffer: those before `len` have one value, and those from it on
/// another.
fn marked(len: usize) -> [u8; MOST] {
    let mut bytes = [2; MOST];
    for (at, byte) in bytes.iter_mut().enumerate() {
        if at < len {
            *byte = 1;
        }
    }
    bytes
}

/// Whether the reply is these bytes.
fn is_bytes(reply: &Reply, bytes: &[u8]) -> bool {
    match reply {
        Reply::Bytes(given) => given.as_slice() == bytes,
        _ => false,
    }
}

/// Whether the reply is these two.
fn are_two(reply: &Reply, first: &[u8], second: &[u8]) -> bool {
    match reply {
        Reply::Two(left, right) => left.as_slice() == first && right.as_slice() == second,
        _ => false,
    }
}

/// Whether each command that reads or lends the first `len` bytes replies with them.
fn is_front(alloc: Global, len: usize) -> bool {
    let commands = [
        Command::PeekBytes(len),
        Command::PeekBytesMut(len, Vec::new(alloc)),
        Command::Slice(len, Vec::new(alloc)),
        Command::GetBytes(len),
        Command::Rewind(len),
        Command::GetBytesMut(len, Vec::new(alloc)),
    ];
    let mut bytes = marked(len);
    let mut cursor = OctetsMut::with_slice(&mut bytes);
    let Ok(replies) = run(alloc, &mut cursor, &commands) else {
        return false;
    };
    let all = marked(len);
    let (Some(front), [peeked, viewed, sliced, got, moved, lent]) = (
        all.get(..len),
        replies.as_slice(),
    ) else {
        return false;
    };
    is_bytes(peeked, front)
        && is_bytes(viewed, front)
        && is_bytes(sliced, front)
        && is_bytes(got, front)
        && *moved == Reply::Done
        && is_bytes(lent, front)
        && cursor.off() == len
}

/// Whether each command that reads or lends the last bytes replies with all bytes except the first
/// `len`, and a split with those before and after.
fn is_rest(alloc: Global, len: usize) -> bool {
    let commands = [
        Command::SplitAt(len, Vec::new(alloc), Vec::new(alloc)),
        Command::Buf,
        Command::SliceLast(MOST.saturating_sub(len), Vec::new(alloc)),
        Command::Skip(len),
        Command::ToVec,
        Command::AsMut(Vec::new(alloc)),
    ];
    let mut bytes = marked(len);
    let mut cursor = OctetsMut::with_slice(&mut bytes);
    let Ok(replies) = run(alloc, &mut cursor, &commands) else {
        return false;
    };
    let all = marked(len);
    let (Some((front, rest)), [split, whole, sliced, moved, copied, lent]) = (
        all.split_at_checked(len),
        replies.as_slice(),
    ) else {
        return false;
    };
    are_two(split, front, rest)
        && is_bytes(whole, &all)
        && is_bytes(sliced, rest)
        && *moved == Reply::Done
        && is_bytes(copied, rest)
        && is_bytes(lent, rest)
}

/// Both hold of a mark at this place.
fn assert_replied(rt: &impl Abort, alloc: Global, len: usize) {
    assert_holds(rt, "the first bytes", len, is_front(alloc, len));
    assert_holds(rt, "the last bytes", len, is_rest(alloc, len));
}

#[test]
fn answers_bytes_of_each_length(rt: HostRuntime) {
    for len in 0..=64 {
        assert_replied(&rt, rt.alloc(), len);
    }
    for count in 1..=16 {
        assert_replied(&rt, rt.alloc(), count * 256);
    }
}
