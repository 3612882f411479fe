//! The memory for a list of replies.
ghost use Rattle.std.specs.Prelude.{◌≡◌, [], vec_capacity, IfOk, OnErr, IsOk};
ghost use Rattle.octets.specs.Requests.{WasRefused};

use crate::reply::Reply;
use std::alloc::{AllocError, Global};

/// Returns an empty list with this capacity. A request for no reply is never refused.
#[tactic(auto, using(octets::specs::Requests::may_refuse))]
pub(crate) fn list_of(alloc: Global, len: usize) -> Result<Vec<Reply>, AllocError>
    ensures empty { IfOk result (λ v. v.items ≡ []) }
    ensures room { IfOk result (λ v. vec_capacity v ≡ len) }
    ensures none { len ≡ 0 → IsOk result }
    ensures memory { OnErr result WasRefused }
{
    Vec::with_capacity(alloc, len)
}
