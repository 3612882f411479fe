//! Numbers in network order, which is most significant byte first.
ghost use Rattle.std.specs.Prelude.{◌≡◌, ◌↔◌, ◌≤◌, ◌<◌, ◌^◌, ◌++◌, length, take, drop, IsOk, IfOk};
ghost use Rattle.octets.specs.Bytes.{network, number};

use crate::error::{BufferTooShortError, Result};

/// Returns the `N` bytes from the position `from` on.
#[inline(always)]
fn chunk<const N: usize>(bytes: &[u8], from: usize) -> Result<&[u8; N]>
    requires within { from ≤ length bytes.now }
    requires few { N ≤ 8 }
    ensures fits { IsOk result ↔ (N ≤ length (drop from bytes.now)) }
    ensures value { IfOk result (λ c. c.now ≡ take N (drop from bytes.now)) }
{
    // `from` is never past the end, but rustc can't know that: an index would panic there.
    match bytes.get(from..from + N) {
        Some(part) => match part.first_chunk::<N>() {
            Some(found) => Ok(found),
            None => Err(BufferTooShortError),
        },
        None => Err(BufferTooShortError),
    }
}

/// Returns the byte at the position `from`.
#[inline(always)]
#[tactic(auto, unfolding(crate::specs::Bytes::network))]
pub(crate) fn read_u8(bytes: &[u8], from: usize) -> Result<u8>
    requires { from ≤ length bytes.now }
    ensures fits { IsOk result ↔ (1 ≤ length (drop from bytes.now)) }
    ensures value { IfOk result (λ n. n ≡ number (take 1 (drop from bytes.now))) }
    ensures spells { IfOk result (λ n. drop from bytes.now ≡ network 1 n ++ drop 1 (drop from bytes.now)) }
{
    match bytes.get(from) {
        Some(byte) => Ok(*byte),
        None => Err(BufferTooShortError),
    }
}

/// Returns the two bytes from the position `from` on as a big-endian number.
#[inline(always)]
#[tactic(auto, unfolding(crate::specs::Bytes::network))]
pub(crate) fn read_u16(bytes: &[u8], from: usize) -> Result<u16>
    requires { from ≤ length bytes.now }
    ensures fits { IsOk result ↔ (2 ≤ length (drop from bytes.now)) }
    ensures value { IfOk result (λ n. n ≡ number (take 2 (drop from bytes.now))) }
    ensures spells { IfOk result (λ n. drop from bytes.now ≡ network 2 n ++ drop 2 (drop from bytes.now)) }
{
    Ok(u16::from_be_bytes(*chunk(bytes, from)?))
}

/// Returns the three bytes from the position `from` on as a big-endian number.
#[inline(always)]
#[tactic(auto, unfolding(crate::specs::Bytes::network))]
pub(crate) fn read_u24(bytes: &[u8], from: usize) -> Result<u32>
    requires { from ≤ length bytes.now }
    ensures fits { IsOk result ↔ (3 ≤ length (drop from bytes.now)) }
    ensures value { IfOk result (λ n. n ≡ number (take 3 (drop from bytes.now))) }
    ensures spells { IfOk result (λ n. drop from bytes.now ≡ network 3 n ++ drop 3 (drop from bytes.now)) }
    ensures small { IfOk result (λ n. n < 2 ^ 24) }
{
    let [a, b, c] = *chunk::<3>(bytes, from)?;
    Ok(u32::from_be_bytes([0, a, b, c]))
}

/// Returns the four bytes from the position `from` on as a big-endian number.
#[inline(always)]
#[tactic(auto, unfolding(crate::specs::Bytes::network))]
pub(crate) fn read_u32(bytes: &[u8], from: usize) -> Result<u32>
    requires { from ≤ length bytes.now }
    ensures fits { IsOk result ↔ (4 ≤ length (drop from bytes.now)) }
    ensures value { IfOk result (λ n. n ≡ number (take 4 (drop from bytes.now))) }
    ensures spells { IfOk result (λ n. drop from bytes.now ≡ network 4 n ++ drop 4 (drop from bytes.now)) }
{
    Ok(u32::from_be_bytes(*chunk(bytes, from)?))
}

/// Returns the eight bytes from the position `from` on as a big-endian number.
#[inline(always)]
#[tactic(auto, unfolding(crate::specs::Bytes::network))]
pub(crate) fn read_u64(bytes: &[u8], from: usize) -> Result<u64>
    requires { from ≤ length bytes.now }
    ensures fits { IsOk result ↔ (8 ≤ length (drop from bytes.now)) }
    ensures value { IfOk result (λ n. n ≡ number (take 8 (drop from bytes.now))) }
    ensures spells { IfOk result (λ n. drop from bytes.now ≡ network 8 n ++ drop 8 (drop from bytes.now)) }
{
    Ok(u64::from_be_bytes(*chunk(bytes, from)?))
}
