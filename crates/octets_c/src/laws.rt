//! How many bytes are always enough, as `octets.h` computes them. The contract of each function is
//! the law; the functions do nothing.
ghost use Rattle.std.specs.Prelude.{◌≡◌, ℕ, ◌+◌, ◌*◌, ◌/◌, ◌≤◌, Bool, List, length};
ghost use Rattle.octets_code.specs.Answers.{IsAnswer};
ghost use Rattle.octets_code.specs.Texts.{AreBytes};
ghost use Rattle.octets.specs.Encodes.{cased, text_of};
ghost use Rattle.octets_literal.specs.Literals.{canon, BeginsLiteral};

/// `OCTETS_TEXT_MOST`: the Huffman encoding of a value of n bytes has at most 4 n bytes.
pub fn text_most()
    ensures { (to_lower : Bool) (v : List ℕ) → AreBytes v
        → length (text_of to_lower v) ≤ 4 * length v }
{}

/// `OCTETS_VALUE_MOST`: the value of a Huffman encoding of n bytes has at most 8 n / 5 bytes.
pub fn value_most()
    ensures { (t v : List ℕ) (m : ℕ) → IsAnswer t m v → length v ≤ 8 * length t / 5 }
{}

/// `OCTETS_VALUE_MOST`: the value of a string literal at the start of n bytes has at most 8 n / 5
/// bytes.
#[tactic(auto, using(crate::proofs::Rooms::value_within))]
pub fn string_most()
    ensures { (l v : List ℕ) (k : ℕ) → BeginsLiteral l k v → length v ≤ 8 * length l / 5 }
{}

/// `OCTETS_LITERAL_MOST`: the literal that is written for a value of n bytes has at most n + 6
/// bytes.
#[tactic(auto, using(crate::proofs::Rooms::literal_within))]
pub fn literal_most()
    ensures { (to_lower : Bool) (v : List ℕ) → length (canon (cased to_lower v)) ≤ length v + 6 }
{}
