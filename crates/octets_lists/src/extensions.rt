//! A slice of structs that is written, such as the extensions of TLS.
//!
//! A loop writes structs as `ids::write_ids` writes numbers, by a function that writes one
//! struct. A definition gives the bytes of one struct. In a definition and in an invariant, a
//! field that is a reference is written with `.now`, as in a clause. The function that writes
//! one names the set `rows`, and the function with the loop the set `each`.
ghost use Rattle.std.specs.Prelude.{◌↔◌, ◌+◌, ◌≤◌, ◌<◌, ◌^◌, length, flat_map, IsOk, OnOk, All};
ghost use Rattle.octets.specs.Cursor.{rest, Writes};
ghost use Rattle.octets_lists.specs.Extensions.{extension};

use octets::{OctetsMut, Result};

/// A kind and a value.
#[derive(Clone, Copy, Debug)]
pub struct Extension<'a> {
    pub kind: u16,
    pub value: &'a [u8],
}

/// Writes an extension.
#[tactic(auto, using(octets::proofs::CallerLemmas::rows))]
pub fn write_extension(cursor: &mut OctetsMut<'_>, one: &Extension<'_>) -> Result<()>
    requires { length one.now.value.now < 2 ^ 16 }
    ensures fits { IsOk result ↔ (4 + length one.now.value.now ≤ length (rest cursor.old)) }
    ensures writes { OnOk result (Writes cursor.old cursor.new (extension one.now)) }
{
    cursor.write_u16(one.kind)?;
    cursor.write_u16(one.value.len() as u16)?;
    cursor.put_bytes(one.value)
}

/// Writes extensions one after the other.
#[tactic(auto, using(octets::proofs::CallerLemmas::each))]
pub fn write_extensions(cursor: &mut OctetsMut<'_>, all: &[Extension<'_>]) -> Result<()>
    requires { All (λ one. length one.value.now < 2 ^ 16) all.now }
    ensures fits { IsOk result ↔ (length (flat_map extension all.now) ≤ length (rest cursor.old)) }
    ensures writes { OnOk result (Writes cursor.old cursor.new (flat_map extension all.now)) }
{
    for one in all {
        write_extension(cursor, one)?;
    }
    Ok(())
}
