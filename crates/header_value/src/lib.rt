//! A Huffman-encoded header value (RFC 7541, section 5.2) that comes in pieces, as the frames of a
//! header block carry it.
#![tactic(auto)]

ghost use Rattle.std.specs.Prelude.{◌≡◌, ℕ, ◌≤◌, ◌++◌, List, [], length, take, IfOk, OnOk, OnErr};
ghost use Rattle.octets_code.specs.Answers.{HasNoAnswer};
ghost use Rattle.octets_code.specs.Texts.{text, AreBytes};
ghost use Rattle.header_value.specs.Values.{HasCome};

use octets_pieces::{Decoder, laws};

/// What is kept of a value between two frames.
#[derive(Clone, Copy)]
pub struct HeaderValue {
    /// The decoder of the encoding that came so far.
    pub decoder: Decoder,
    /// How many bytes of the value were decoded.
    pub len: usize,
}

/// Why a value is refused.
#[derive(Clone, Copy, Debug, PartialEq, Eq)]
pub enum Refusal {
    /// The encoding contains EOS, or ends within a code.
    NotText,
    /// The value is longer than the buffer.
    TooLong,
}

/// Returns the value before its first piece.
pub fn begin() -> HeaderValue
    ensures come { (out : List ℕ) → HasCome [] out result }
    ensures none { result.len ≡ 0 }
{
    HeaderValue {
        decoder: Decoder::new(),
        len: 0,
    }
}

/// Decodes one more piece of the value. The bytes of the value that were decoded are the beginning
/// of `out`.
pub fn add_piece(value: &mut HeaderValue, piece: &[u8], out: &mut [u8]) -> Result<(), Refusal>
    requires fits { value.old.len ≤ length out.old }
    ensures come { (t : List ℕ) → HasCome t out.old value.old
        → OnOk result (HasCome (t ++ piece.now) out.new value.new) }
    ensures refused { (t more : List ℕ) → HasCome t out.old value.old
        → OnErr result (HasNoAnswer (t ++ (piece.now ++ more)) (length out.old)) }
    ensures len { length out.new ≡ length out.old }
    ensures fits { value.new.len ≤ length out.old }
{
    let Ok(progress) = value.decoder.decode(piece, &mut out[value.len..]) else {
        return Err(Refusal::NotText);
    };
    value.len += progress.written;
    if progress.read < piece.len() {
        return Err(Refusal::TooLong);
    }
    Ok(())
}

/// Returns the length of the value, if all its pieces have come.
pub fn end(value: &HeaderValue) -> Result<usize, Refusal>
    ensures value { (t out : List ℕ) → AreBytes t → HasCome t out value.now
        → OnOk result (t ≡ text (take value.now.len out)) }
    ensures refused { (t out : List ℕ) → HasCome t out value.now
        → OnErr result (HasNoAnswer t (length out)) }
    ensures len { IfOk result (λ n. n ≡ value.now.len) }
{
    laws::reads_join();
    match value.decoder.finish() {
        Ok(()) => Ok(value.len),
        Err(_) => Err(Refusal::NotText),
    }
}

#[cfg(test)]
mod tests {
    use super::*;

    #[test]
    fn a_value_comes_in_two_frames(rt: HostRuntime) {
        // RFC 7541, Appendix C.4.1.
        let mut value = begin();
        let mut out = [0; 16];
        let first = add_piece(&mut value, b"\xf1\xe3\xc2\xe5\xf2", &mut out);
        let second = add_piece(&mut value, b"\x3a\x6b\xa0\xab\x90\xf4\xff", &mut out);
        assert!(rt; first == Ok(()) && second == Ok(()));
        assert!(rt; end(&value) == Ok(15) && out.starts_with(b"www.example.com"));
    }
}
