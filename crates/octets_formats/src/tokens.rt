//! An error for each field, stated by positions.
//!
//! `map_err` converts an error where it occurs, so each field can have an error of its own. If
//! only four bytes remain, `part (rest cursor.old) 4 1` is `[]`, and `number []` is 0, so
//! `LacksToken` includes this case.
ghost use Rattle.std.specs.Prelude.{◌↔◌, ◌<◌, length, IfOk, OnErr, IsErrOf};
ghost use Rattle.octets.specs.Cursor.{rest, Advances, IsUnchanged};
ghost use Rattle.octets_formats.specs.Tokens.{LacksToken, IsToken};
ghost use Rattle.octets_formats.specs.declared.tokens.TokenError.TheVariants.{NoVersion, NoToken};

use octets::{Octets, Result};

/// Why no token was read.
#[derive(Clone, Copy, Debug, PartialEq, Eq)]
pub enum TokenError {
    /// The version isn't complete.
    NoVersion,
    /// The token isn't complete, or its length is missing.
    NoToken,
}

/// Reads a version, and a token after its length.
pub fn read_token<'a>(cursor: &mut Octets<'a>) -> std::result::Result<(u32, Octets<'a>), TokenError>
    ensures no_version { IsErrOf result NoVersion ↔ (length (rest cursor.old) < 4) }
    ensures no_token { IsErrOf result NoToken ↔ LacksToken (rest cursor.old) }
    ensures token { IfOk result (IsToken (rest cursor.old)) }
    ensures advances { Advances cursor.old cursor.new }
{
    let version = cursor.get_u32().map_err(|_| TokenError::NoVersion)?;
    let token = cursor
        .get_bytes_with_u8_length()
        .map_err(|_| TokenError::NoToken)?;
    Ok((version, token))
}

/// Does the same, but leaves the cursor unchanged if it fails. Its clauses are those of `read_token`,
/// word for word.
pub fn next_token<'a>(cursor: &mut Octets<'a>) -> std::result::Result<(u32, Octets<'a>), TokenError>
    ensures no_version { IsErrOf result NoVersion ↔ (length (rest cursor.old) < 4) }
    ensures no_token { IsErrOf result NoToken ↔ LacksToken (rest cursor.old) }
    ensures token { IfOk result (IsToken (rest cursor.old)) }
    ensures unchanged { OnErr result (IsUnchanged cursor.old cursor.new) }
{
    let before = cursor.off();
    match read_token(cursor) {
        Ok(token) => Ok(token),
        Err(error) => {
            let _ = cursor.rewind(cursor.off() - before);
            Err(error)
        }
    }
}
