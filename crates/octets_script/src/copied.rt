//! Copies of bytes, for replies.
ghost use Rattle.std.specs.Prelude.{◌≡◌, ◌<◌, length, IfOk, OnErr};
ghost use Rattle.octets.specs.Requests.{WasRefused};

use octets::Octets;
use std::alloc::{AllocError, Global};

/// Copies the bytes into a new `Vec`. For no bytes it allocates nothing.
pub(crate) fn copied(alloc: Global, bytes: &[u8]) -> Result<Vec<u8>, AllocError>
    ensures bytes { IfOk result (λ copy. copy.items ≡ bytes.now) }
    ensures some { OnErr result (0 < length bytes.now) }
    ensures memory { OnErr result WasRefused }
{
    Octets::with_slice(bytes).to_vec(alloc)
}
