//! A sink of your own, whose memory grows with what is written.
ghost use Rattle.std.specs.Prelude.{◌≡◌, [], false, IsOk, IfOk};
ghost use Rattle.octets.specs.Encodes.{text_of};

use octets::{OctetsWriter, put_huffman_encoded};
use std::alloc::{AllocError, Global};

/// A sink that takes bytes as long as memory can be allocated. Its `room` is unknown. A call that
/// fails leaves the sink unchanged.
#[derive(Debug, Drop)]
pub struct GrowingSink {
    bytes: Vec<u8>,
}

impl GrowingSink {
    ghost use Rattle.octets_lists.specs.GrowingSink.{held, taken};

    /// Returns an empty sink. It allocates nothing, so it can't fail.
    pub fn new(alloc: Global) -> GrowingSink
        ensures { (taken result ≡ []) × (held result ≡ 0) }
    {
        GrowingSink {
            bytes: Vec::new(alloc),
        }
    }

    /// Returns the bytes that the sink has taken, without copying them.
    pub fn into_bytes(self) -> Vec<u8>
        ensures { result.items ≡ taken self }
    {
        let GrowingSink { bytes } = self;
        bytes
    }
}

impl OctetsWriter for GrowingSink {
    ghost use Rattle.std.specs.Prelude.{◌+◌, ◌++◌, ◌<◌, None, true, length, OnOk, OnErr};
    ghost use Rattle.octets_lists.specs.GrowingSink.{held, taken};

    type Error = AllocError;

    ghost written = { taken };

    ghost room = { λ _. None };

    ghost whole = { λ _. true };

    /// Appends `v`. It fails if an allocation fails, and the sink is then unchanged.
    fn put_bytes(&mut self, v: &[u8]) -> Result<(), AllocError>
        ensures ok { OnOk result (taken self.new ≡ taken self.old ++ v.now) }
        ensures nothing { OnErr result (taken self.new ≡ taken self.old) }

        // It fails only if it had to allocate memory.
        ensures full { OnErr result (held self.old < length (taken self.old) + length v.now) }
    {
        self.bytes.extend_from_slice(v)
    }
}

/// Returns the Huffman encoding of `value` (RFC 7541, section 5.2), in memory that grows with it.
///
/// It fails if an allocation for the encoding fails. An empty value allocates nothing.
pub fn huffman_text(alloc: Global, value: &[u8]) -> Result<Vec<u8>, AllocError>
    ensures text { IfOk result (λ text. text.items ≡ text_of false value.now) }
    ensures empty { value.now ≡ [] → IsOk result }
{
    let mut sink = GrowingSink::new(alloc);
    put_huffman_encoded::<false, GrowingSink>(&mut sink, value)?;
    Ok(sink.into_bytes())
}
