//! A text that is cut at a byte.

ghost use Rattle.std.specs.Prelude.{◌≡◌, ◌∷◌, ◌<◌, length, IfSome, ◌==◌};
ghost use Rattle.std.specs.List.{slice_split, position};
ghost use Rattle.octets_tool.specs.Cuts.{parts_of};

/// Returns what comes before the first byte that is equal to `byte`, and what follows that byte. If
/// there is no such byte, the first part is the whole text, and there is no second one.
#[tactic(auto, using(crate::proofs::Cutting::cut_none))]
pub fn cut(text: &[u8], byte: u8) -> (&[u8], Option<&[u8]>)
    ensures parts { slice_split (λ b. b == byte) text.now ≡ result.0.now ∷ parts_of byte result.1 }
    ensures shorter { IfSome result.1 (λ rest. length rest.now < length text.now) }
{
    match find(text, byte) {
        Some(at) => (&text[..at], Some(&text[at + 1..])),
        None => (text, None),
    }
}

/// Returns the position of the first such byte.
fn find(text: &[u8], byte: u8) -> Option<usize>
    ensures { result ≡ position (λ b. b == byte) text.now }
{
    text.iter().position(|b| *b == byte)
}
