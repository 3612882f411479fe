//! A function whose contract says that the elements of a slice are bytes, and one that copies a
//! slice into a `Vec`.
ghost use Rattle.std.specs.Prelude.{◌≡◌, [], length, IfOk, OnOk, OnErr, IsOk};
ghost use Rattle.octets.specs.Bytes.{AreBytes};
ghost use Rattle.octets.specs.Requests.{Granted, Refused};

use crate::memory::Request;
use std::alloc::AllocError;

/// Returns its argument. A caller's proof learns from the clause `bytes` that each element is below
/// 256.
#[inline]
pub(crate) fn known_bytes(bytes: &[u8]) -> &[u8]
    ensures is { result.now ≡ bytes.now }
    ensures bytes { AreBytes bytes.now }
{
    bytes
}

/// Copies the bytes into a new `Vec`. An empty slice allocates nothing, so it can't fail.
pub(crate) fn vec_of(request: Request, bytes: &[u8]) -> Result<Vec<u8>, AllocError>
    ensures bytes { IfOk result (λ v. v.items ≡ bytes.now) }
    ensures empty { bytes.now ≡ [] → IsOk result }
    ensures granted { OnOk result (Granted (length bytes.now)) }
    ensures refused { OnErr result (Refused (length bytes.now)) }
{
    let mut copy = request.reserve(bytes.len())?;
    copy.extend_from_slice(bytes)?;
    Ok(copy)
}
