//! Bytes as hexadecimal text.
ghost use Rattle.std.specs.Prelude.{◌≡◌, ◌<◌, Some};
ghost use Rattle.octets_tool.specs.Lines.{hex, hex_digit};

use std::fmt;

const DIGITS: &[u8; 16] = b"0123456789abcdef";

/// Displays two lower-case digits for each byte, and `-` for no bytes.
#[derive(Clone, Copy)]
pub struct Hex<'a>(pub &'a [u8]);

impl fmt::Display for Hex<'_> {
    ghost output = { λ text. Some (hex text.0.now) };

    fn fmt<W: fmt::Write>(&self, f: &mut fmt::Formatter<W>) -> fmt::Result {
        if self.0.is_empty() {
            return write!(f, "-");
        }
        for byte in self.0 {
            let (high, low) = (digit(byte / 16), digit(byte % 16));
            write!(f, "{high}{low}")?;
        }
        Ok(())
    }
}

/// Returns the digit of a number below 16.
fn digit(value: u8) -> char
    requires { value < 16 }
    ensures digit { result ≡ hex_digit value }
    ensures ascii { result < 128 }
{
    char::from(DIGITS[value as usize])
}
