//! `decode LIMIT` prints the value of which the input is the Huffman encoding.
ghost use Rattle.octets_tool.specs.Output.{IsDecodeOutput, shown};
ghost use Rattle.octets_tool.specs.Requests.{OrRefused};

use crate::hex::Hex;
use crate::output::Output;
use octets::{DecodeError, Octets};
use std::alloc::{AllocError, Global};

/// Returns the whole output for an input. It fails only if an allocation fails.
pub fn output(alloc: Global, limit: usize, text: &[u8]) -> Result<Output, AllocError>
    ensures { OrRefused result (λ output. IsDecodeOutput limit text.now (shown output)) }
{
    let mut cursor = Octets::with_slice(text);
    match cursor.get_huffman_decoded_with_max_length(alloc, limit) {
        Ok(value) => {
            let value = Hex(&value);
            let text = format!(in alloc; "value {value}\n")?;
            Ok(Output::answered(text))
        }
        Err(DecodeError::Short(_)) => {
            let offset = cursor.off();
            let text = format!(in alloc; "refused at {offset}\n")?;
            Ok(Output::refused(text))
        }
        Err(DecodeError::Memory(refused)) => Err(refused),
    }
}
