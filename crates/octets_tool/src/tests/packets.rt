//! Packets: a kind of one byte, or one that is a varint of the least width.

use super::{Row, assert_answered};
use crate::packet::{Packet, PacketFault, read_packet, read_packet2};
use std::test::Fail;

#[rattlefmt::skip]
static PACKETS: [Row; 12] = [
    ("packet", "", b"\x07\x01\x02\x03abc", 0, "kind 7 number 258 payload 616263\n"),
    ("packet", "", b"\x07\x01\x02\x03a", 1, "refused at 4\n"),
    ("packet", "", b"\x07\x01", 1, "refused at 1\n"),
    ("packet", "", b"", 1, "refused at 0\n"),
    ("packet", "", b"\x07\x01\x02\x00", 0, "kind 7 number 258 payload -\n"),
    ("packet", "", b"\x07\x01\x02\x00\xff", 1, "trailing 1\n"),
    ("packet", "", b"\x07\x01\x02\x40\x01a", 0, "kind 7 number 258 payload 61\n"),
    ("packet", "", b"\x07", 1, "refused at 1\n"),
    ("packet", "", b"\x07\x01\x02", 1, "refused at 3\n"),
    ("packet", "", b"\x07\x01\x02\xff\xff\xff\xff\xff\xff\xff\xff", 1, "refused at 11\n"),
    ("packet", "", b"\xff\xff\xff\x01\x00", 0, "kind 255 number 65535 payload 00\n"),
    ("packet", "", b"\x07\x01\x02\x01abc", 1, "trailing 2\n"),
];

#[rattlefmt::skip]
static PACKETS_OF_LEAST_WIDTH: [Row; 10] = [
    ("packet2", "", b"\x80\x00\x40\x00\x01\x02\x00", 0, "kind 16384 number 258 payload -\n"),
    ("packet2", "", b"\x40", 1, "refused at 0\n"),
    ("packet2", "", b"\x40\x40\x01", 1, "refused at 2\n"),
    ("packet2", "", b"\x07\x01\x02", 1, "refused at 3\n"),
    ("packet2", "", b"\x40\x40\x01\x02\x05a", 1, "refused at 5\n"),
    ("packet2", "", b"\x07\x01\x02\x40\x01a", 0, "kind 7 number 258 payload 61\n"),
    ("packet2", "", b"\x40\x07\x01\x02\x00", 1, "refused at 0\n"),
    ("packet2", "", b"\x40\x40\x01\x02\x00", 0, "kind 64 number 258 payload -\n"),
    ("packet2", "", b"", 1, "refused at 0\n"),
    ("packet2", "", b"\x07\x01\x02\x00\xff", 1, "trailing 1\n"),
];

#[test]
fn prints_packets_or_where_they_end(rt: HostRuntime) -> Result<(), Fail> {
    assert_answered(&rt, rt.alloc(), &PACKETS)?;
    assert_answered(&rt, rt.alloc(), &PACKETS_OF_LEAST_WIDTH)
}

/// Whether a packet was read with the number 258 and these fields, and its payload is at its start.
fn has_fields(read: Result<Packet<'_>, PacketFault>, kind: u64, payload: &[u8]) -> bool {
    match read {
        Ok(packet) => {
            packet.kind == kind
                && packet.number == 258
                && packet.payload.off() == 0
                && packet.payload.as_ref() == payload
        }
        Err(_) => false,
    }
}

/// Whether a field is incomplete that begins at this offset.
fn is_refused(read: Result<Packet<'_>, PacketFault>, offset: usize) -> bool {
    match read {
        Err(PacketFault::Refused(at)) => at == offset,
        _ => false,
    }
}

/// Whether so many bytes follow the packet.
fn is_trailed(read: Result<Packet<'_>, PacketFault>, count: usize) -> bool {
    match read {
        Err(PacketFault::Trailing(trailing)) => trailing == count,
        _ => false,
    }
}

#[test]
fn reads_fields_or_names_the_fault(rt: HostRuntime) {
    assert!(rt; has_fields(read_packet(b"\x07\x01\x02\x03abc"), 7, b"abc"));
    assert!(rt; is_refused(read_packet(b"\x07\x01\x02\x03a"), 4));
    assert!(rt; is_trailed(read_packet(b"\x07\x01\x02\x00\x00\x00"), 2));
    assert!(rt; has_fields(read_packet2(b"\x80\x00\x40\x00\x01\x02\x00"), 16_384, b""));
    assert!(rt; is_refused(read_packet2(b"\x40\x07\x01\x02\x00"), 0));
    assert!(rt; is_trailed(read_packet2(b"\x07\x01\x02\x00\xff"), 1));
}
