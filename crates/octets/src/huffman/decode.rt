//! The decoder. It reads codes from a window, a word with the next 64 bits of the input. If a
//! window has no complete code, it reads 4 bits at a time.
ghost use Rattle.std.specs.Prelude.{◌≡◌, ◌*◌, ◌<◌, [], min, vec_capacity};
ghost use Rattle.std.specs.Prelude.{IfOk, OnOk, OnErr, IsOk};
ghost use Rattle.octets.specs.Requests.{Granted, Refused};

pub(crate) mod fault;
mod group;
pub(crate) mod reading;
mod short;
pub(crate) mod store;
mod window;
mod window_loop;

use crate::memory::Request;
use std::alloc::AllocError;

/// Reserves capacity for the value of an encoding of `len` bytes within the limit: two bytes for
/// each byte, since a code has more than four bits.
pub(crate) fn reserve(request: Request, len: usize, max_len: usize) -> Result<Vec<u8>, AllocError>
    ensures granted { OnOk result (Granted (min (2 * len) max_len)) }
    ensures refused { OnErr result (Refused (min (2 * len) max_len)) }
    ensures empty { IfOk result (λ v. v.items ≡ []) }
    ensures room { IfOk result (λ v. vec_capacity v ≡ min (2 * len) max_len) }
    ensures none { min (2 * len) max_len ≡ 0 → IsOk result }
{
    request.reserve(len.saturating_mul(2).min(max_len))
}
