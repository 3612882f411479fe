//! The only functions of this crate that call the allocator.
ghost use Rattle.std.specs.Prelude.{◌≡◌, [], vec_capacity, IfOk, OnOk, OnErr, IsOk};
ghost use Rattle.octets.specs.Requests.{Granted, Refused};

use std::alloc::{AllocError, Global};

/// The right to ask the allocator for memory once.
///
/// It can be neither copied nor let go, and its field is private. So a function that is passed one,
/// and no allocator, asks exactly once.
pub(crate) struct Request {
    alloc: Global,
}

impl Request {
    /// Returns the right to ask this allocator once.
    #[inline(always)]
    pub(crate) fn to(alloc: Global) -> Request {
        Request { alloc }
    }

    /// Returns an empty `Vec` with this capacity, or an error if there is no memory for it. A
    /// capacity of 0 needs none.
    #[inline(always)]
    #[tactic(auto, using(crate::specs::Requests::may_grant, crate::specs::Requests::may_refuse))]
    pub(crate) fn reserve(self, len: usize) -> Result<Vec<u8>, AllocError>
        ensures granted { OnOk result (Granted len) }
        ensures refused { OnErr result (Refused len) }
        ensures empty { IfOk result (λ v. v.items ≡ []) }
        ensures room { IfOk result (λ v. vec_capacity v ≡ len) }
        ensures none { len ≡ 0 → IsOk result }
    {
        let Request { alloc } = self;
        Vec::with_capacity(alloc, len)
    }
}
