//! The functions that call the allocator, apart from those that format a line.
#![tactic(auto, using(octets::specs::Requests::may_refuse))]

ghost use Rattle.std.specs.Prelude.{◌≡◌, ◌∷◌, ◌++◌, [], if◌then◌else◌, is_ok};
ghost use Rattle.std.specs.Prelude.{OnErr, vec_len, IfOk};
ghost use Rattle.octets.specs.Requests.{WasRefused};

use std::alloc::{AllocError, Global};

/// Returns an empty `Vec` with this capacity.
pub(crate) fn reserved(alloc: Global, len: usize) -> Result<Vec<u8>, AllocError>
    ensures empty { IfOk result (λ v. v.items ≡ []) }
    ensures refused { OnErr result WasRefused }
{
    Vec::with_capacity(alloc, len)
}

/// Returns a `Vec` of so many zeros.
pub(crate) fn zeros(alloc: Global, len: usize) -> Result<Vec<u8>, AllocError>
    ensures len { IfOk result (λ v. vec_len v ≡ len) }
    ensures refused { OnErr result WasRefused }
{
    vec![in alloc; 0u8; len]
}

/// Appends an item to a list, or leaves the list unchanged if there is no memory for it.
pub(crate) fn push<T: Drop>(list: &mut Vec<T>, item: T) -> Result<(), AllocError>
    ensures items { list.new.items
        ≡ (if is_ok result then list.old.items ++ item ∷ [] else list.old.items) }
    ensures refused { OnErr result WasRefused }
{
    Ok(list.push(item)?)
}
