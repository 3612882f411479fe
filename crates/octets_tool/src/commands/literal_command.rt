//! `string LIMIT` reads the string literal with which the input begins, and prints the literal that
//! is written for its value.
#![tactic(auto, using(crate::proofs::Texts::literals))]

ghost use Rattle.std.specs.Prelude.{◌≡◌, ◌≤◌, ◌++◌, length, drop, vec_len};
ghost use Rattle.octets_literal.specs.Literals.{canon};
ghost use Rattle.octets_tool.specs.Limits.{most_input};
ghost use Rattle.octets_tool.specs.Output.{IsLiteralOutput, literal_output, shown};
ghost use Rattle.octets_tool.specs.Requests.{OrRefused};

use crate::hex::Hex;
use crate::memory::zeros;
use crate::output::Output;
use octets::{Octets, OctetsMut};
use octets_literal::{LiteralError, get_string, write_string};
use std::alloc::{AllocError, Global};

/// Returns the whole output for an input. It fails only if an allocation fails.
pub fn output(alloc: Global, limit: usize, input: &[u8]) -> Result<Output, AllocError>
    requires { length input.now ≤ most_input }
    ensures { OrRefused result (λ output. IsLiteralOutput limit input.now (shown output)) }
{
    let mut cursor = Octets::with_slice(input);
    let text = match get_string(alloc, &mut cursor, limit) {
        Ok(value) => return answered_literal(alloc, value, cursor.cap()),
        Err(LiteralError::Short) => format!(in alloc; "refused short\n")?,
        Err(LiteralError::Length) => format!(in alloc; "refused length\n")?,
        Err(LiteralError::Value) => format!(in alloc; "refused value\n")?,
        Err(LiteralError::OutOfMemory) => return Err(AllocError),
    };
    Ok(Output::refused(text))
}

/// Returns the output for a value, with the number of bytes after its literal.
fn answered_literal(alloc: Global, value: Vec<u8>, rest: usize) -> Result<Output, AllocError>
    requires { vec_len value ≤ 4294967295 }
    ensures { OrRefused result (λ output. shown output ≡ literal_output value.items rest) }
{
    let literal = literal_of(alloc, &value)?;
    let (value, literal) = (Hex(&value), Hex(&literal));
    let text = format!(in alloc; "value {value} rest {rest} canon {literal}\n")?;
    Ok(Output::answered(text))
}

/// Returns the literal that is written for a value. At most six bytes come before its data, which
/// are at most as long as the value.
fn literal_of(alloc: Global, value: &[u8]) -> Result<Vec<u8>, AllocError>
    requires { length value.now ≤ 4294967295 }
    ensures { OrRefused result (λ literal. literal.items ≡ canon value.now) }
{
    let mut buffer = zeros(alloc, value.len() + 6)?;
    let len = put_literal(&mut buffer, value);
    buffer.truncate(len);
    Ok(buffer)
}

/// Writes the literal of a value at the start of the buffer, and returns its length.
#[tactic(auto, unfolding(octets::specs::Encodes::cased))]
fn put_literal(buffer: &mut [u8], value: &[u8]) -> usize
    requires few { length value.now ≤ 4294967295 }
    requires room { length (canon value.now) ≤ length buffer.old }
    ensures len { result ≡ length (canon value.now) }
    ensures written { buffer.new ≡ canon value.now ++ drop (length (canon value.now)) buffer.old }
{
    let mut cursor = OctetsMut::with_slice(buffer);
    // This returns `Ok`, since the literal fits.
    let _ = write_string::<false>(&mut cursor, value);
    cursor.off()
}
