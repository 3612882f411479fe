//! IP addresses, as the kit's `std::net` has them.
//!
//! In a contract `ipv4_octets a` is the list of the four bytes of the address a. For `Ipv6Addr`
//! the same module has `ipv6_segments`, the list of its eight numbers of two bytes. We haven't
//! tried a reader of such an address.
ghost use Rattle.std.specs.Prelude.{◌≡◌, ◌↔◌, ◌≤◌, length, IsOk, IfOk, OnOk};
ghost use Rattle.octets.specs.Bytes.{part};
ghost use Rattle.octets.specs.Cursor.{rest, Passes};
ghost use Rattle.std.specs.Net.Addr.{ipv4_octets};

use octets::{Octets, Result};
use std::net::Ipv4Addr;

/// Reads an IPv4 address.
pub fn read_address(cursor: &mut Octets<'_>) -> Result<Ipv4Addr>
    ensures fits { IsOk result ↔ (4 ≤ length (rest cursor.old)) }
    ensures value { IfOk result (λ a. ipv4_octets a ≡ part (rest cursor.old) 0 4) }
    ensures passes { OnOk result (Passes cursor.old cursor.new 4) }
{
    let mut octets = [0; 4];
    octets.copy_from_slice(cursor.get_bytes(4)?.buf());
    Ok(Ipv4Addr::from(octets))
}
