//! Prints the ports of a UDP header.
#![tactic(auto)]

ghost use Rattle.std.specs.Prelude.{◌≡◌, ◌↔◌, ◌≤◌, length, IsOk, IfOk, OnOk};
ghost use Rattle.octets.specs.Bytes.{number, part};
ghost use Rattle.octets.specs.Cursor.{rest, Passes};

use octets::{Octets, Result};
use std::io;

fn read_ports(cursor: &mut Octets<'_>) -> Result<(u16, u16)>
    ensures fits { IsOk result ↔ (4 ≤ length (rest cursor.old)) }
    ensures from { IfOk result (λ ports. ports.0 ≡ number (part (rest cursor.old) 0 2)) }
    ensures to { IfOk result (λ ports. ports.1 ≡ number (part (rest cursor.old) 2 2)) }
    ensures passes { OnOk result (Passes cursor.old cursor.new 4) }
{
    Ok((cursor.get_u16()?, cursor.get_u16()?))
}

fn main(rt: HostRuntime) -> io::Result<()> {
    let packet = [0x30, 0x39, 0, 53, 0, 8, 0, 0];
    match read_ports(&mut Octets::with_slice(&packet)) {
        Ok((from, to)) => println!(rt; "from {from} to {to}"),
        Err(_) => println!(rt; "too short"),
    }
}
