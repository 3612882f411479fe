//! Reads of numbers in network order.
ghost use Rattle.std.specs.Prelude.{◌≡◌, ◌≢◌, ◌⊎◌, ◌↔◌, ◌+◌, ◌≤◌, length};
ghost use Rattle.octets.specs.Bytes.{number, part};
ghost use Rattle.octets_c.specs.Statuses.{done, short};

use crate::cursors::{over, read_at};
use crate::status::{DONE, SHORT};

/// Read an integer of 1, 2, 3, 4 or 8 bytes, the most significant byte first, and set *value to it.
///
/// Returns OCTETS_SHORT if and only if fewer bytes remain than the integer has, otherwise
/// OCTETS_DONE.
#[unsafe(no_mangle)]
pub extern "C" fn octets_get_u8(bytes: &[u8], off: &mut usize, value: &mut u8) -> u8
    ensures fits { (result ≡ done) ↔ (off.old + 1 ≤ length bytes.now) }
    ensures status { (result ≡ done) ⊎ (result ≡ short) }
    ensures value { result ≡ done → value.new ≡ number (part bytes.now off.old 1) }
    ensures passes { result ≡ done → off.new ≡ off.old + 1 }
    ensures refused { result ≢ done → (off.new ≡ off.old) × (value.new ≡ value.old) }
{
    read_at!(bytes, off, value, 1, cursor => cursor.get_u8())
}

/// As octets_get_u8.
#[unsafe(no_mangle)]
pub extern "C" fn octets_get_u16(bytes: &[u8], off: &mut usize, value: &mut u16) -> u8
    ensures fits { (result ≡ done) ↔ (off.old + 2 ≤ length bytes.now) }
    ensures status { (result ≡ done) ⊎ (result ≡ short) }
    ensures value { result ≡ done → value.new ≡ number (part bytes.now off.old 2) }
    ensures passes { result ≡ done → off.new ≡ off.old + 2 }
    ensures refused { result ≢ done → (off.new ≡ off.old) × (value.new ≡ value.old) }
{
    read_at!(bytes, off, value, 2, cursor => cursor.get_u16())
}

/// As octets_get_u8.
#[unsafe(no_mangle)]
pub extern "C" fn octets_get_u24(bytes: &[u8], off: &mut usize, value: &mut u32) -> u8
    ensures fits { (result ≡ done) ↔ (off.old + 3 ≤ length bytes.now) }
    ensures status { (result ≡ done) ⊎ (result ≡ short) }
    ensures value { result ≡ done → value.new ≡ number (part bytes.now off.old 3) }
    ensures passes { result ≡ done → off.new ≡ off.old + 3 }
    ensures refused { result ≢ done → (off.new ≡ off.old) × (value.new ≡ value.old) }
{
    read_at!(bytes, off, value, 3, cursor => cursor.get_u24())
}

/// As octets_get_u8.
#[unsafe(no_mangle)]
pub extern "C" fn octets_get_u32(bytes: &[u8], off: &mut usize, value: &mut u32) -> u8
    ensures fits { (result ≡ done) ↔ (off.old + 4 ≤ length bytes.now) }
    ensures status { (result ≡ done) ⊎ (result ≡ short) }
    ensures value { result ≡ done → value.new ≡ number (part bytes.now off.old 4) }
    ensures passes { result ≡ done → off.new ≡ off.old + 4 }
    ensures refused { result ≢ done → (off.new ≡ off.old) × (value.new ≡ value.old) }
{
    read_at!(bytes, off, value, 4, cursor => cursor.get_u32())
}

/// As octets_get_u8.
#[unsafe(no_mangle)]
pub extern "C" fn octets_get_u64(bytes: &[u8], off: &mut usize, value: &mut u64) -> u8
    ensures fits { (result ≡ done) ↔ (off.old + 8 ≤ length bytes.now) }
    ensures status { (result ≡ done) ⊎ (result ≡ short) }
    ensures value { result ≡ done → value.new ≡ number (part bytes.now off.old 8) }
    ensures passes { result ≡ done → off.new ≡ off.old + 8 }
    ensures refused { result ≢ done → (off.new ≡ off.old) × (value.new ≡ value.old) }
{
    read_at!(bytes, off, value, 8, cursor => cursor.get_u64())
}
