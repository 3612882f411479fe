//! Numbers, varints and byte strings for any sink.
//!
//! Each number is one call of the sink's `put_bytes`, so a sink that is whole takes all bytes of a
//! number, or none of them.
ghost use Rattle.std.specs.Prelude.{◌≡◌, ◌↔◌, ◌+◌, ◌-◌, ◌*◌, ◌^◌, ◌<◌, ◌≤◌, ◌⊎◌, ◌++◌};
ghost use Rattle.std.specs.Prelude.{length, IsTrue, IsOk, OnOk, OnErr, IfSome};
ghost use Rattle.octets.specs.Bytes.{network};
ghost use Rattle.octets.specs.Sinks.{AppendsFront, capacity_of};
ghost use Rattle.octets.specs.Varints.{IsWidth, shortest, varint};

use crate::writer::OctetsWriter;

/// Appends `v` to `sink` as one byte.
///
/// It makes one call of the sink, and returns the error of this call.
///
/// ```
/// let mut bytes = [0, 0];
/// let mut sink = OctetsMut::with_slice(&mut bytes);
/// write_u8(&mut sink, 7)?;
/// assert_eq!(sink.buf(), [7, 0].as_slice());
/// ```
#[inline(always)]
#[tactic(auto, unfolding(crate::specs::Bytes::network))]
pub fn write_u8<W: OctetsWriter>(sink: &mut W, v: u8) -> Result<(), W::Error>
    ensures ok { OnOk result (W.written sink.new ≡ W.written sink.old ++ network 1 v) }
    ensures err { OnErr result
        (AppendsFront (W.written sink.old) (W.written sink.new) (network 1 v)) }
    ensures nothing_where_whole { IsTrue (W.whole sink.old)
        → OnErr result (W.written sink.new ≡ W.written sink.old) }
    ensures fits { IfSome (W.room sink.old) (λ c. IsOk result ↔ (1 ≤ c)) }
    ensures capacity { capacity_of (W.written sink.new) (W.room sink.new)
        ≡ capacity_of (W.written sink.old) (W.room sink.old) }
    ensures same_kind { W.whole sink.new ≡ W.whole sink.old }
{
    sink.put_bytes(&[v])
}

/// Appends `v` to `sink` as two bytes in network order.
///
/// It makes one call of the sink, and returns the error of this call.
///
/// ```
/// let mut bytes = [0, 0, 0];
/// let mut sink = OctetsMut::with_slice(&mut bytes);
/// write_u16(&mut sink, 0x0102)?;
/// assert_eq!(sink.buf(), [1, 2, 0].as_slice());
/// ```
#[inline(always)]
#[tactic(auto, using(crate::proofs::Cursors::numbers), unfolding(crate::specs::Bytes::network))]
pub fn write_u16<W: OctetsWriter>(sink: &mut W, v: u16) -> Result<(), W::Error>
    ensures ok { OnOk result (W.written sink.new ≡ W.written sink.old ++ network 2 v) }
    ensures err { OnErr result
        (AppendsFront (W.written sink.old) (W.written sink.new) (network 2 v)) }
    ensures nothing_where_whole { IsTrue (W.whole sink.old)
        → OnErr result (W.written sink.new ≡ W.written sink.old) }
    ensures fits { IfSome (W.room sink.old) (λ c. IsOk result ↔ (2 ≤ c)) }
    ensures capacity { capacity_of (W.written sink.new) (W.room sink.new)
        ≡ capacity_of (W.written sink.old) (W.room sink.old) }
    ensures same_kind { W.whole sink.new ≡ W.whole sink.old }
{
    sink.put_bytes(&v.to_be_bytes())
}

/// Appends the lowest three bytes of `v` to `sink`, in network order.
///
/// It makes one call of the sink, and returns the error of this call.
///
/// ```
/// let mut bytes = [0, 0, 0];
/// let mut sink = OctetsMut::with_slice(&mut bytes);
/// write_u24(&mut sink, 0x09010203)?;
/// assert_eq!(sink.buf(), [1, 2, 3].as_slice());
/// ```
#[inline(always)]
#[tactic(auto, unfolding(crate::specs::Bytes::network))]
pub fn write_u24<W: OctetsWriter>(sink: &mut W, v: u32) -> Result<(), W::Error>
    ensures ok { OnOk result (W.written sink.new ≡ W.written sink.old ++ network 3 v) }
    ensures err { OnErr result
        (AppendsFront (W.written sink.old) (W.written sink.new) (network 3 v)) }
    ensures nothing_where_whole { IsTrue (W.whole sink.old)
        → OnErr result (W.written sink.new ≡ W.written sink.old) }
    ensures fits { IfSome (W.room sink.old) (λ c. IsOk result ↔ (3 ≤ c)) }
    ensures capacity { capacity_of (W.written sink.new) (W.room sink.new)
        ≡ capacity_of (W.written sink.old) (W.room sink.old) }
    ensures same_kind { W.whole sink.new ≡ W.whole sink.old }
{
    sink.put_bytes(&v.to_be_bytes()[1..])
}

/// Appends `v` to `sink` as four bytes in network order.
///
/// It makes one call of the sink, and returns the error of this call.
///
/// ```
/// let mut bytes = [0, 0, 0, 0];
/// let mut sink = OctetsMut::with_slice(&mut bytes);
/// write_u32(&mut sink, 0x01020304)?;
/// assert_eq!(sink.buf(), [1, 2, 3, 4].as_slice());
/// ```
#[inline(always)]
#[tactic(auto, unfolding(crate::specs::Bytes::network))]
pub fn write_u32<W: OctetsWriter>(sink: &mut W, v: u32) -> Result<(), W::Error>
    ensures ok { OnOk result (W.written sink.new ≡ W.written sink.old ++ network 4 v) }
    ensures err { OnErr result
        (AppendsFront (W.written sink.old) (W.written sink.new) (network 4 v)) }
    ensures nothing_where_whole { IsTrue (W.whole sink.old)
        → OnErr result (W.written sink.new ≡ W.written sink.old) }
    ensures fits { IfSome (W.room sink.old) (λ c. IsOk result ↔ (4 ≤ c)) }
    ensures capacity { capacity_of (W.written sink.new) (W.room sink.new)
        ≡ capacity_of (W.written sink.old) (W.room sink.old) }
    ensures same_kind { W.whole sink.new ≡ W.whole sink.old }
{
    sink.put_bytes(&v.to_be_bytes())
}

/// Appends `v` to `sink` as eight bytes in network order.
///
/// It makes one call of the sink, and returns the error of this call.
///
/// ```
/// let mut bytes = [9, 9, 9, 9, 9, 9, 9, 9];
/// let mut sink = OctetsMut::with_slice(&mut bytes);
/// write_u64(&mut sink, 0x0102)?;
/// assert_eq!(sink.buf(), [0, 0, 0, 0, 0, 0, 1, 2].as_slice());
/// ```
#[inline(always)]
#[tactic(auto, using(crate::proofs::Cursors::numbers), unfolding(crate::specs::Bytes::network))]
pub fn write_u64<W: OctetsWriter>(sink: &mut W, v: u64) -> Result<(), W::Error>
    ensures ok { OnOk result (W.written sink.new ≡ W.written sink.old ++ network 8 v) }
    ensures err { OnErr result
        (AppendsFront (W.written sink.old) (W.written sink.new) (network 8 v)) }
    ensures nothing_where_whole { IsTrue (W.whole sink.old)
        → OnErr result (W.written sink.new ≡ W.written sink.old) }
    ensures fits { IfSome (W.room sink.old) (λ c. IsOk result ↔ (8 ≤ c)) }
    ensures capacity { capacity_of (W.written sink.new) (W.room sink.new)
        ≡ capacity_of (W.written sink.old) (W.room sink.old) }
    ensures same_kind { W.whole sink.new ≡ W.whole sink.old }
{
    sink.put_bytes(&v.to_be_bytes())
}

/// Appends `v` to `sink` as a varint of `len` bytes (RFC 9000, section 16). `len` must be 1, 2, 4
/// or 8, and `v` must be below 2 to the power `8 * len - 2`. `varint_fits` checks both conditions.
///
/// It makes one call of the sink, and returns the error of this call.
///
/// ```
/// let mut bytes = [0, 0, 0];
/// let mut sink = OctetsMut::with_slice(&mut bytes);
/// write_varint_with_len(&mut sink, 37, 2)?;
/// assert_eq!(sink.buf(), [0x40, 0x25, 0].as_slice());
/// ```
#[inline(always)]
#[tactic(auto, unfolding(crate::specs::Varints::varint))]
pub fn write_varint_with_len<W: OctetsWriter>(
    sink: &mut W,
    v: u64,
    len: usize,
) -> Result<(), W::Error>
    requires width { IsWidth len }
    requires held { v < 2 ^ (8 * len - 2) }
    ensures ok { OnOk result (W.written sink.new ≡ W.written sink.old ++ varint len v) }
    ensures err { OnErr result
        (AppendsFront (W.written sink.old) (W.written sink.new) (varint len v)) }
    ensures nothing_where_whole { IsTrue (W.whole sink.old)
        → OnErr result (W.written sink.new ≡ W.written sink.old) }
    ensures fits { IfSome (W.room sink.old) (λ c. IsOk result ↔ (len ≤ c)) }
    ensures capacity { capacity_of (W.written sink.new) (W.room sink.new)
        ≡ capacity_of (W.written sink.old) (W.room sink.old) }
    ensures same_kind { W.whole sink.new ≡ W.whole sink.old }
{
    match len {
        1 => write_u8(sink, v as u8),
        2 => write_u16(sink, v as u16 + 0x4000),
        4 => write_u32(sink, v as u32 + 0x8000_0000),
        _ => write_u64(sink, v + 0xc000_0000_0000_0000),
    }
}

/// Appends `v` to `sink` as a varint of the least width that holds it (RFC 9000, section 16). `v`
/// must be below 2 to the power 62.
///
/// It makes one call of the sink, and returns the error of this call.
///
/// ```
/// let mut bytes = [0, 0, 0];
/// let mut sink = OctetsMut::with_slice(&mut bytes);
/// write_varint(&mut sink, 15293)?;
/// assert_eq!(sink.buf(), [0x7b, 0xbd, 0].as_slice());
/// ```
#[inline(always)]
pub fn write_varint<W: OctetsWriter>(sink: &mut W, v: u64) -> Result<(), W::Error>
    requires { v < 2 ^ 62 }
    ensures ok { OnOk result (W.written sink.new ≡ W.written sink.old ++ varint (shortest v) v) }
    ensures err { OnErr result
        (AppendsFront (W.written sink.old) (W.written sink.new) (varint (shortest v) v)) }
    ensures nothing_where_whole { IsTrue (W.whole sink.old)
        → OnErr result (W.written sink.new ≡ W.written sink.old) }
    ensures fits { IfSome (W.room sink.old) (λ c. IsOk result ↔ (shortest v ≤ c)) }
    ensures capacity { capacity_of (W.written sink.new) (W.room sink.new)
        ≡ capacity_of (W.written sink.old) (W.room sink.old) }
    ensures same_kind { W.whole sink.new ≡ W.whole sink.old }
{
    // Each width has a call of its own, so that the sink's call is compiled for that width.
    if v < 1 << 6 {
        write_varint_with_len(sink, v, 1)
    } else if v < 1 << 14 {
        write_varint_with_len(sink, v, 2)
    } else if v < 1 << 30 {
        write_varint_with_len(sink, v, 4)
    } else {
        write_varint_with_len(sink, v, 8)
    }
}

/// Appends to `sink` the number of bytes of `v`, as a varint of the least width that holds it
/// (RFC 9000, section 16), and then the bytes. `v` must have fewer than 2 to the power 62 bytes.
///
/// It makes one call of the sink for the length, and one for the bytes if there are any. It stops
/// at the first call that fails, and returns its error. What was appended before stays appended.
///
/// ```
/// let mut bytes = [0, 0, 0, 0];
/// let mut sink = OctetsMut::with_slice(&mut bytes);
/// write_bytes_with_varint_length(&mut sink, b"ab")?;
/// assert_eq!(sink.buf(), [2, 97, 98, 0].as_slice());
/// ```
#[inline]
#[tactic(auto, using(crate::proofs::CallerLemmas::sinks, crate::proofs::CallerLemmas::length_varint))]
pub fn write_bytes_with_varint_length<W: OctetsWriter>(
    sink: &mut W,
    v: &[u8],
) -> Result<(), W::Error>
    requires { length v.now < 2 ^ 62 }
    ensures ok { OnOk result (W.written sink.new
        ≡ W.written sink.old ++ varint (shortest (length v.now)) (length v.now) ++ v.now) }
    ensures err { OnErr result (AppendsFront (W.written sink.old) (W.written sink.new)
        (varint (shortest (length v.now)) (length v.now) ++ v.now)) }
    ensures fits { IfSome (W.room sink.old)
        (λ c. IsOk result ↔ (shortest (length v.now) + length v.now ≤ c)) }

    // A sink whose `whole` is true keeps the length if the length fits, and otherwise nothing.
    ensures kept_where_whole { IsTrue (W.whole sink.old)
        → OnErr result ((W.written sink.new ≡ W.written sink.old)
        ⊎ (W.written sink.new
        ≡ W.written sink.old ++ varint (shortest (length v.now)) (length v.now))) }
    ensures length_kept { IsTrue (W.whole sink.old)
        → IfSome (W.room sink.old) (λ c. shortest (length v.now) ≤ c
        → OnErr result (W.written sink.new
        ≡ W.written sink.old ++ varint (shortest (length v.now)) (length v.now))) }
    ensures nothing_kept { IsTrue (W.whole sink.old)
        → IfSome (W.room sink.old) (λ c. c < shortest (length v.now)
        → OnErr result (W.written sink.new ≡ W.written sink.old)) }
    ensures capacity { capacity_of (W.written sink.new) (W.room sink.new)
        ≡ capacity_of (W.written sink.old) (W.room sink.old) }
    ensures same_kind { W.whole sink.new ≡ W.whole sink.old }
{
    write_varint(sink, v.len() as u64)?;
    if v.is_empty() {
        return Ok(());
    }
    sink.put_bytes(v)
}
