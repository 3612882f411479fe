//! Byte strings that are copied into vectors.
//!
//! If the call fails, the vectors that it read are dropped, so a clause can't name them. The clause
//! `short` says that there are a list `names` of vectors and a list `after` of bytes, that the bytes at
//! the call were the encodings of `names`, followed by `after`, and that `after` doesn't begin with a
//! whole name.
ghost use Rattle.std.specs.Prelude.{◌≡◌, ◌+◌, ◌≤◌, ◌<◌, ◌++◌, ℕ, List, Vec, length, flat_map, IfOk};
ghost use Rattle.std.specs.Global.{Global};
ghost use Rattle.octets.specs.Bytes.{number, part, prefixed};
ghost use Rattle.octets.specs.Cursor.{rest, Reads};
ghost use Rattle.octets.specs.Decodes.{OnShort};

use octets::{DecodeError, Octets};
use std::alloc::Global;

/// Reads n names, each after its length in one byte.
#[tactic(auto, using(octets::proofs::CallerLemmas::spelled, std::proofs::lemmas::List::flat_map_more), unfolding(octets::specs::Cursor::Reads))]
pub fn read_names(
    alloc: Global,
    cursor: &mut Octets<'_>,
    n: usize,
) -> std::result::Result<Vec<Vec<u8>>, DecodeError>
    ensures spelled { IfOk result (λ names. Reads cursor.old cursor.new
        (flat_map (λ name. prefixed 1 name.items) names.items)) }
    ensures count { IfOk result (λ names. length names.items ≡ n) }
    ensures short { OnShort result ((names : List (Vec ℕ Global)) × (after : List ℕ)
        × (rest cursor.old ≡ flat_map (λ name. prefixed 1 name.items) names ++ after)
        × (length names < n) × (length after < 1 + number (part after 0 1))) }
{
    let mut names = Vec::new(alloc);
    'names: while names.len() < n {
        let name = cursor.get_bytes_with_u8_length()?;
        let copy = name.to_vec(alloc)?;
        names.push(copy)?;
    }
    Ok(names)
}
