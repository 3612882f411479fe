//! A decode of a list of pieces, which returns what one decode of the joined bytes returns.

ghost use Rattle.std.specs.Prelude.{◌≡◌, ℕ, ◌+◌, ◌<◌, ◌≤◌, ◌^◌, ◌++◌, List, Bool, length, take};
ghost use Rattle.std.specs.Prelude.{drop, IfOk, IfErr, OnOk};
ghost use Rattle.std.specs.List.{flat_map};
ghost use Rattle.octets_code.specs.Answers.{IsAnswer};
ghost use Rattle.octets_code.specs.Texts.{bits, AreBytes};
ghost use Rattle.octets_pieces.specs.Pieces.{AreRead};
ghost use Rattle.octets_pieces.specs.Joined.{Fails, FailsFrom, FailsInto, Answers};

use crate::decoder::Decoder;
use crate::error::PiecesError;
use octets::{IntoError, Octets};

/// How far a decode of the joined bytes came.
#[derive(Clone, Copy)]
struct SoFar {
    /// How many bytes were read.
    read: u128,
    /// How many bytes were written.
    written: usize,
}

/// Decodes the joined bytes of `pieces` into the beginning of `out`, whose length is the limit, and
/// returns the number of bytes of the value.
///
/// However the bytes are cut into pieces, the result is that of one decode of the joined bytes: the
/// value, or the error with its place. If it fails, `out` begins with the bytes that were decoded
/// before the error, as after one decode.
pub fn decode_pieces(pieces: &[&[u8]], out: &mut [u8]) -> Result<usize, PiecesError>
    ensures value { IfOk result (Answers (flat_map (λ p. p.now) pieces.now) out.old out.new) }
    ensures failed { IfErr result (λ e. FailsInto e (flat_map (λ p. p.now) pieces.now)
        out.old out.new) }
{
    let mut decoder = Decoder::new();
    let mut so_far = SoFar {
        read: 0,
        written: 0,
    };
    for piece in pieces {
        decode_next(&mut decoder, piece, out, &mut so_far)?;
    }
    end(&decoder, &so_far)?;
    Ok(so_far.written)
}

/// Decodes `text` by one call of `octets`. Its contract is that of `decode_pieces`, with one piece.
pub fn decode_whole(text: &[u8], out: &mut [u8]) -> Result<usize, PiecesError>
    ensures value { IfOk result (Answers text.now out.old out.new) }
    ensures failed { IfErr result (λ e. FailsInto e text.now out.old out.new) }
{
    let mut cursor = Octets::with_slice(text);
    match cursor.get_huffman_decoded_into(out) {
        Ok(len) => Ok(len),
        Err(why) => Err(PiecesError {
            passed: cursor.off() as u128,
            why,
        }),
    }
}

/// Decodes one more piece.
fn decode_next(
    decoder: &mut Decoder,
    piece: &[u8],
    out: &mut [u8],
    so_far: &mut SoFar,
) -> Result<(), PiecesError>
    requires fits { so_far.old.written ≤ length out.old }
    requires small { so_far.old.read + 2 ^ 64 < 2 ^ 128 }
    ensures len { length out.new ≡ length out.old }
    ensures bytes { AreBytes piece.now }
    ensures fits { OnOk result (so_far.new.written ≤ length out.old) }
    ensures place { OnOk result (so_far.new.read ≡ so_far.old.read + length piece.now) }
    ensures behind { OnOk result (drop so_far.new.written out.new
        ≡ drop so_far.new.written out.old) }
    ensures more { OnOk result (so_far.old.written ≤ so_far.new.written) }
    ensures read { (x : List Bool) → AreRead x (take so_far.old.written out.old) decoder.old
        → OnOk result (AreRead (x ++ bits piece.now) (take so_far.new.written out.new)
        decoder.new) }
    ensures failed { IfErr result (λ e. (a c : List ℕ) → so_far.old.read ≡ length a
        → AreRead (bits a) (take so_far.old.written out.old) decoder.old
        → FailsFrom so_far.old.written e (a ++ (piece.now ++ c)) out.old out.new) }
{
    match decoder.decode(piece, &mut out[so_far.written..]) {
        Ok(progress) => {
            if progress.read < piece.len() {
                decoder.fill(piece[progress.read], out, so_far.written + progress.written);
                return Err(PiecesError {
                    passed: so_far.read + progress.read as u128 + 1,
                    why: IntoError::NoRoom,
                });
            }
            so_far.read += progress.read as u128;
            so_far.written += progress.written;
            Ok(())
        }
        Err(end) => Err(PiecesError {
            passed: so_far.read + end.read as u128 + 1,
            why: IntoError::NotText {
                written: so_far.written + end.written,
            },
        }),
    }
}

/// Returns `Ok` if the encoding may end after what was read so far.
fn end(decoder: &Decoder, so_far: &SoFar) -> Result<(), PiecesError>
    ensures answer { (t o : List ℕ) → AreRead (bits t) (take so_far.now.written o) decoder.now
        → so_far.now.written ≤ length o → AreBytes t
        → OnOk result (IsAnswer t (length o) (take so_far.now.written o)) }
    ensures failed { (t o : List ℕ) → AreRead (bits t) (take so_far.now.written o) decoder.now
        → so_far.now.written ≤ length o → so_far.now.read ≡ length t
        → IfErr result (λ e. Fails e (take so_far.now.written o) t (length o)) }
{
    match decoder.finish() {
        Ok(()) => Ok(()),
        Err(_) => Err(PiecesError {
            passed: so_far.read,
            why: IntoError::NotText {
                written: so_far.written,
            },
        }),
    }
}
