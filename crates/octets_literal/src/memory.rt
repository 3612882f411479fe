//! The only function of this crate that calls the allocator; the others call those of `octets`.
ghost use Rattle.std.specs.Prelude.{◌≡◌, ◌+◌, ◌∷◌, ◌++◌, [], if◌then◌else◌, is_ok, vec_len, OnErr};
ghost use Rattle.octets.specs.Requests.{Refused};

use std::alloc::AllocError;

/// Appends a value to a list, or leaves the list unchanged if there is no memory for it.
#[tactic(auto, using(octets::specs::Requests::may_refuse))]
pub(crate) fn append(list: &mut Vec<Vec<u8>>, value: Vec<u8>) -> Result<(), AllocError>
    ensures appended { list.new.items
        ≡ (if is_ok result then list.old.items ++ value ∷ [] else list.old.items) }
    ensures refused { OnErr result (Refused (vec_len list.old + 1)) }
{
    Ok(list.push(value)?)
}
