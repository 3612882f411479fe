//! Lists of numbers of a fixed width, or of varints.
//!
//! In a contract, `flat_map f l` appends the lists `f x` for the elements x of l, in their
//! order. So `flat_map (λ id. network 4 id) ids.items` is the bytes of all numbers, four bytes
//! for each. `slice_index l k` is element number k of the list l of numbers, counted from 0. It
//! is 0 if l has no such element.
ghost use Rattle.std.specs.Prelude.{◌≡◌, ◌↔◌, ◌+◌, ◌*◌, ◌≤◌, ◌<◌, ◌^◌, ◌++◌, ℕ, length, drop, flat_map, IsOk};
ghost use Rattle.std.specs.Prelude.{IfOk, OnOk, OnErr, All, slice_index, take};
ghost use Rattle.octets.specs.Bytes.{network, number, part};
ghost use Rattle.octets.specs.Varints.{shortest, varint};
ghost use Rattle.octets.specs.Cursor.{rest, IsUnchanged, Passes, Reads, Writes};
ghost use Rattle.octets.specs.Decodes.{OnShort, OnMemory};

use octets::{BufferTooShortError, DecodeError, Octets, OctetsMut, Result};
use std::alloc::Global;

/// Writes the ids as varints, each as short as it can be, or a part of them if they don't fit.
#[tactic(auto, using(octets::proofs::CallerLemmas::each))]
pub fn write_ids(cursor: &mut OctetsMut<'_>, ids: &[u64]) -> Result<()>
    requires { All (λ id. id < 2 ^ 62) ids.now }
    ensures fits { IsOk result ↔ (length (flat_map (λ id. varint (shortest id) id) ids.now)
        ≤ length (rest cursor.old)) }
    ensures writes { IfOk result (λ _. Writes cursor.old cursor.new
        (flat_map (λ id. varint (shortest id) id) ids.now)) }
{
    for id in ids {
        cursor.write_varint(*id)?;
    }
    Ok(())
}

// A function without an allocator needs this form, such as a reader of the sources (CSRC) in an RTP
// header, or an export of a C library. The function compares n with both lengths before the loop, so
// `get_u32` never fails in the loop. The checker proves this by means of `Passes` in the invariant.
// No clause says that the slice keeps its length, because the proof of a caller knows this of every
// `&mut` slice. A caller may pass an array: `let mut ids = [0; 15]; read_ids_into(&mut cursor, n,
// &mut ids)?;`. To fill a whole slice `ids`, write `for id in ids.iter_mut() { *id =
// cursor.get_u32()?; }`; the invariant then has `l.id-index` in place of `l.i`.

/// Reads n numbers into the first n elements of `out`.
#[tactic(auto, unfolding(octets::specs::Cursor::Reads))]
pub fn read_ids_into(cursor: &mut Octets<'_>, n: usize, out: &mut [u32]) -> Result<()>
    ensures fits { IsOk result ↔ ((n ≤ length out.old) × (4 * n ≤ length (rest cursor.old))) }
    ensures values { OnOk result ((k : ℕ) → k < n
        → slice_index out.new k ≡ number (part (rest cursor.old) (4 * k) 4)) }
    ensures others { drop n out.new ≡ drop n out.old }
    ensures passes { OnOk result (Passes cursor.old cursor.new (4 * n)) }
    ensures spelled { OnOk result (Reads cursor.old cursor.new
        (flat_map (λ id. network 4 id) (take n out.new))) }
    ensures unchanged { OnErr result (IsUnchanged cursor.old cursor.new × (out.new ≡ out.old)) }
{
    if out.len() < n || cursor.cap() / 4 < n {
        return Err(BufferTooShortError);
    }
    for i in 0..n {
        out[i] = cursor.get_u32()?;
    }
    Ok(())
}

/// Reads n numbers of four bytes into a vector.
#[tactic(auto, using(octets::proofs::CallerLemmas::spelled, std::proofs::lemmas::List::flat_map_more), unfolding(octets::specs::Cursor::Reads))]
pub fn read_ids(
    alloc: Global,
    cursor: &mut Octets<'_>,
    n: usize,
) -> std::result::Result<Vec<u32>, DecodeError>
    ensures spelled { IfOk result (λ ids. Reads cursor.old cursor.new
        (flat_map (λ id. network 4 id) ids.items)) }
    ensures count { IfOk result (λ ids. length ids.items ≡ n) }
    ensures short { OnShort result (length (rest cursor.old) < 4 * n) }
    ensures memory { OnMemory result ((1 ≤ n) × (4 ≤ length (rest cursor.old))) }
{
    let mut ids = Vec::new(alloc);
    'ids: while ids.len() < n {
        let id = cursor.get_u32()?;
        ids.push(id)?;
    }
    Ok(ids)
}

/// Reads the number of the ids, which has one byte, and the ids.
#[tactic(auto, using(octets::proofs::CallerLemmas::reads_more))]
pub fn read_counted_ids(
    alloc: Global,
    cursor: &mut Octets<'_>,
) -> std::result::Result<Vec<u32>, DecodeError>
    ensures spelled { IfOk result (λ ids. Reads cursor.old cursor.new
        (network 1 (length ids.items) ++ flat_map (λ id. network 4 id) ids.items)) }
    ensures count { IfOk result (λ ids. length ids.items ≡ number (part (rest cursor.old) 0 1)) }
    ensures short { OnShort result (length (rest cursor.old)
        < 1 + 4 * number (part (rest cursor.old) 0 1)) }
{
    let n = cursor.get_u8()?;
    read_ids(alloc, cursor, usize::from(n))
}
