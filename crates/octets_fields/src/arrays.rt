//! Byte strings of a fixed length that are copied into an array.
//!
//! The clause `every` of a reader that copies a run into an array needs a function of its own
//! for the run, which takes the length as a parameter: here `read_run`. `read_id` copies the run
//! by `copy_from_slice`, which requires that both slices have the same length. In a contract an
//! array is the list of its N numbers. A clause that states the array by its position needs no
//! such function and no attribute, also in a reader that is generic in the length.
//!
//! A clause `every` may also quantify over a whole struct, as that of `read_point`. Its
//! premises give the ranges of the fields.
ghost use Rattle.std.specs.Prelude.{◌≡◌, ◌↔◌, ◌≤◌, ◌<◌, ◌^◌, ◌++◌, ℕ, List, length, IsOk, IsOkAnd, IfOk, OnOk};
ghost use Rattle.octets.specs.Bytes.{network, part};
ghost use Rattle.octets.specs.Cursor.{bytes, rest, Passes, Writes};
ghost use Rattle.octets_fields.specs.declared.arrays.Point.{Point};

use octets::{Octets, OctetsMut, Result};

/// Reads a run of a length that the caller knows.
fn read_run<'a>(cursor: &mut Octets<'a>, len: usize) -> Result<Octets<'a>>
    ensures fits { IsOk result ↔ (len ≤ length (rest cursor.old)) }
    ensures view { IfOk result (λ v. bytes v ≡ part (rest cursor.old) 0 len) }
    ensures every { (run after : List ℕ) → len ≡ length run → rest cursor.old ≡ run ++ after
        → IsOkAnd result (λ v. bytes v ≡ run) × (rest cursor.new ≡ after) }
    ensures passes { OnOk result (Passes cursor.old cursor.new len) }
{
    cursor.get_bytes(len)
}

/// Reads an id.
pub fn read_id(cursor: &mut Octets<'_>) -> Result<[u8; 12]>
    ensures fits { IsOk result ↔ (12 ≤ length (rest cursor.old)) }
    ensures value { IfOk result (λ id. id ≡ part (rest cursor.old) 0 12) }
    ensures every { (id after : List ℕ) → 12 ≡ length id → rest cursor.old ≡ id ++ after
        → IsOkAnd result (λ r. r ≡ id) × (rest cursor.new ≡ after) }
    ensures passes { OnOk result (Passes cursor.old cursor.new 12) }
{
    let mut id = [0; 12];
    id.copy_from_slice(read_run(cursor, 12)?.buf());
    Ok(id)
}

/// Reads a kind, and an id.
#[tactic(auto, using(octets::proofs::CallerLemmas::parts))]
pub fn read_kind_and_id(cursor: &mut Octets<'_>) -> Result<(u16, [u8; 12])>
    ensures fits { IsOk result ↔ (14 ≤ length (rest cursor.old)) }
    ensures every { (kind : ℕ) (id after : List ℕ) → kind < 2 ^ 16 → 12 ≡ length id
        → rest cursor.old ≡ network 2 kind ++ id ++ after
        → IsOkAnd result (λ r. (r.0 ≡ kind) × (r.1 ≡ id)) × (rest cursor.new ≡ after) }
{
    let kind = cursor.get_u16()?;
    Ok((kind, read_id(cursor)?))
}

/// Reads an array of any length.
pub fn read_array<const N: usize>(cursor: &mut Octets<'_>) -> Result<[u8; N]>
    ensures fits { IsOk result ↔ (N ≤ length (rest cursor.old)) }
    ensures value { IfOk result (λ a. a ≡ part (rest cursor.old) 0 N) }
    ensures passes { OnOk result (Passes cursor.old cursor.new N) }
{
    let mut array = [0; N];
    array.copy_from_slice(cursor.get_bytes(N)?.buf());
    Ok(array)
}

/// The header of a STUN message without its length: a kind, and the id of a transaction.
#[derive(Clone, Copy, Debug, PartialEq, Eq)]
pub struct Transaction {
    /// What the message is.
    pub kind: u16,
    /// The id.
    pub id: [u8; 12],
}

/// Writes a kind and an id.
pub fn write_transaction(cursor: &mut OctetsMut<'_>, t: Transaction) -> Result<()>
    ensures writes { OnOk result (Writes cursor.old cursor.new (network 2 t.kind ++ t.id)) }
{
    cursor.write_u16(t.kind)?;
    cursor.put_bytes(&t.id)
}

/// A point.
#[derive(Clone, Copy, Debug, PartialEq, Eq)]
pub struct Point {
    /// Its position from the left.
    pub x: u16,
    /// Its position from above.
    pub y: u32,
}

/// Reads a point.
#[tactic(auto, using(octets::proofs::CallerLemmas::parts))]
pub fn read_point(cursor: &mut Octets<'_>) -> Result<Point>
    ensures fits { IsOk result ↔ (6 ≤ length (rest cursor.old)) }
    ensures every { (p : Point) (after : List ℕ) → p.x < 2 ^ 16 → p.y < 2 ^ 32
        → rest cursor.old ≡ network 2 p.x ++ network 4 p.y ++ after
        → IsOkAnd result (λ r. r ≡ p) × (rest cursor.new ≡ after) }
{
    Ok(Point {
        x: cursor.get_u16()?,
        y: cursor.get_u32()?,
    })
}
