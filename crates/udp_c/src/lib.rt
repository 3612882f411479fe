//! Exports for C: a reader of the header of a UDP datagram (RFC 768), and records.
#![tactic(auto)]

ghost use Rattle.std.specs.Prelude.{◌≡◌, ◌≢◌, ◌⊎◌, ◌↔◌, ◌≤◌, ◌-◌, length, IsOk, IfOk};
ghost use Rattle.octets.specs.Bytes.{number, part};
ghost use Rattle.octets.specs.Cursor.{rest};

use octets::{Octets, Result};

mod records;

/// The call did what it says.
pub const DONE: u8 = 0;

/// The buffer ends too early.
pub const SHORT: u8 = 1;

/// The value is longer than 255 bytes.
pub const LONG: u8 = 2;

/// The fields of a header, in host byte order.
#[repr(C)]
#[derive(Clone, Copy, Debug, PartialEq, Eq)]
pub struct UdpHeader {
    /// The port of the sender.
    pub source: u16,
    /// The port of the receiver.
    pub destination: u16,
    /// The length of header and payload, in bytes.
    pub length: u16,
    /// The checksum, which is not verified.
    pub checksum: u16,
}

/// Reads the four fields, and leaves the cursor after them.
fn read_header(cursor: &mut Octets<'_>) -> Result<UdpHeader>
    ensures fits { IsOk result ↔ (8 ≤ length (rest cursor.old)) }
    ensures source { IfOk result (λ h. h.source ≡ number (part (rest cursor.old) 0 2)) }
    ensures destination { IfOk result (λ h. h.destination ≡ number (part (rest cursor.old) 2 2)) }
    ensures length { IfOk result (λ h. h.length ≡ number (part (rest cursor.old) 4 2)) }
    ensures checksum { IfOk result (λ h. h.checksum ≡ number (part (rest cursor.old) 6 2)) }
{
    Ok(UdpHeader {
        source: cursor.get_u16()?,
        destination: cursor.get_u16()?,
        length: cursor.get_u16()?,
        checksum: cursor.get_u16()?,
    })
}

/// Reads the header of a datagram.
///
/// It returns DONE and fills in the header if the datagram has at least 8 bytes. Otherwise it
/// returns SHORT and changes nothing.
#[unsafe(no_mangle)]
pub extern "C" fn udp_read_header(datagram: &[u8], header: &mut UdpHeader) -> u8
    ensures fits { (result ≡ 0) ↔ (8 ≤ length datagram.now) }
    ensures status { (result ≡ 0) ⊎ (result ≡ 1) }
    ensures source { result ≡ 0 → header.new.source ≡ number (part datagram.now 0 2) }
    ensures destination { result ≡ 0 → header.new.destination ≡ number (part datagram.now 2 2) }
    ensures unchanged { result ≢ 0 → header.new ≡ header.old }
{
    match read_header(&mut Octets::with_slice(datagram)) {
        Ok(read) => {
            *header = read;
            DONE
        }
        Err(_) => SHORT,
    }
}
