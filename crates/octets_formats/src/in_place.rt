//! Bytes that are changed in place.
//!
//! `splice l i w` is the list l with the list w in place of its bytes from position i on. If
//! the position is fixed, as in `skip(2)`, the clause `packet.new ≡ take 2 packet.old ++
//! network 2 n ++ drop 4 packet.old` is proved too.
//!
//! In the contract of `apply_mask`, `EachIndex l P` says that P is true of each index of the
//! list l, and `bit_xor a b` is the XOR of a and b. The invariant says of the bytes before i
//! that they are masked, and of the others that they are as they were at the call.
ghost use Rattle.std.specs.Prelude.{◌≡◌, ◌↔◌, ◌+◌, ◌≤◌, length, IsOk, OnOk, OnErr, ◌%◌, EachIndex, bit_xor};
ghost use Rattle.std.specs.Prelude.{slice_index};
ghost use Rattle.octets.specs.Bytes.{network, splice};

use octets::{OctetsMut, Result};

/// Writes `n` at the position `at`. If it doesn't fit there, the packet is unchanged.
pub fn set_u16(packet: &mut [u8], at: usize, n: u16) -> Result<()>
    ensures fits { IsOk result ↔ (at + 2 ≤ length packet.old) }
    ensures changed { OnOk result (packet.new ≡ splice packet.old at (network 2 n)) }
    ensures unchanged { OnErr result (packet.new ≡ packet.old) }
{
    let mut cursor = OctetsMut::with_slice(packet);
    cursor.skip(at)?;
    cursor.write_u16(n)
}

/// Masks a payload, or removes the mask.
pub fn apply_mask(payload: &mut [u8], mask: [u8; 4])
    ensures masked { EachIndex payload.new (λ k. slice_index payload.new k
        ≡ bit_xor (slice_index payload.old k) (slice_index mask (k % 4))) }
{
    for (i, byte) in payload.iter_mut().enumerate() {
        *byte ^= mask[i % 4];
    }
}
