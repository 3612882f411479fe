//! Calls that read a literal into a slice, without allocating.
ghost use Rattle.std.specs.Prelude.{◌≡◌, ◌≢◌, ℕ, ◌<◌, ◌≤◌, ◌++◌, true, false, List, length};
ghost use Rattle.std.specs.Prelude.{take, drop, IsOk, IfOk, IfErr, IfSome, IfNone, OnOk, OnErr};
ghost use Rattle.std.specs.Prelude.{MatchResult};
ghost use Rattle.octets.specs.Cursor.{remaining, rest, Passes, IsUnchanged};
ghost use Rattle.octets_literal.specs.Literals.{WhereLiteral};
ghost use Rattle.octets_literal.specs.Laws.{CanonBegins, CanonAlone};
ghost use Rattle.octets_literal.specs.Faults.{HoldsData, IsRefused};
ghost use Rattle.octets_literal.specs.Values.{IsFaultOf, IsNoValue, LeavesRead};
ghost use Rattle.octets_literal.specs.Values.{ReadsInto, WritesValue};
ghost use Rattle.octets_literal.specs.declared.error.LiteralError.TheVariants.{Value, OutOfMemory};

use crate::data::find_data;
use crate::error::{LiteralError, ValueError};
use octets::Octets;

/// Reads a string literal (RFC 7541, section 5.2) into the beginning of `out`, whose length is the
/// limit, moves the offset past the literal, and returns the length of its value. It allocates
/// nothing.
///
/// It reads what `get_string` reads and fails when that call fails. If it fails, the offset is
/// unchanged. `out` is unchanged too, with one exception: after a `Value` error of Huffman-encoded
/// data, `out` begins with what was decoded before the fault.
///
/// ```
/// let mut cursor = Octets::with_slice(&[2, 97, 98, 7]);
/// let mut out = [0; 4];
/// assert_eq!(get_string_into(&mut cursor, &mut out)?, 2);
/// assert_eq!(out, [97, 98, 0, 0]);
/// ```
#[tactic(auto, using(crate::proofs::Refusals::answers))]
pub fn get_string_into(cursor: &mut Octets<'_>, out: &mut [u8]) -> Result<usize, LiteralError>
    // The result is `Ok` exactly if the rest begins with a literal of a value that fits into `out`.
    ensures value { IfOk result (ReadsInto cursor.old cursor.new out.old out.new) }
    ensures every { WhereLiteral (rest cursor.old)
        (λ _ v. length v ≤ length out.old → IsOk result) }
    ensures within { IfOk result (λ n. n ≤ length out.old) }
    ensures behind { IfOk result (λ n. drop n out.new ≡ drop n out.old) }

    // A literal of v is read as v, and the offset moves past exactly this literal.
    ensures one { WhereLiteral (rest cursor.old)
        (λ _ v. IfOk result (λ n. (n ≡ length v) × (take n out.new ≡ v))) }
    ensures passes { WhereLiteral (rest cursor.old)
        (λ k _. OnOk result (Passes cursor.old cursor.new k)) }
    ensures shorter { OnOk result (remaining cursor.new < remaining cursor.old) }

    // What is written for a value is a literal of the value, whether or not other bytes follow.
    ensures written { CanonBegins (rest cursor.old) }
    ensures written_last { CanonAlone (rest cursor.old) }

    // The error is the first fault. A complete literal fails only because of its value.
    ensures refused { IfErr result (IsRefused (rest cursor.old) (length out.old)) }
    ensures no_memory { IfErr result (λ why. why ≢ OutOfMemory) }
    ensures for_value { WhereLiteral (rest cursor.old)
        (λ _ _. IfErr result (λ why. why ≡ Value)) }
    ensures unchanged { OnErr result (IsUnchanged cursor.old cursor.new) }

    // After an error other than `Value`, `out` is unchanged. After `Value`, it may begin with what
    // was decoded of the data.
    ensures kept { IfErr result (λ why. why ≢ Value → out.new ≡ out.old) }
    ensures front { IfErr result (λ why. why ≡ Value → HoldsData (rest cursor.old)
        (λ huffman d. LeavesRead huffman d out.old out.new)) }
{
    // This call doesn't say why data have no value.
    let mut fault = ValueError::Long;
    read_string_into(cursor, out, &mut fault)
}

/// Reads a literal as `get_string_into` does. Its contract says which literal it is, or why there
/// is none; the clauses of `get_string_into` follow from it. If the call fails with `Value`,
/// `fault` says why the data have no value; otherwise `fault` is unchanged.
///
/// ```
/// let mut cursor = Octets::with_slice(&[0x82, 0x18, 0xff]);
/// let mut fault = ValueError::Long;
/// assert!(read_string_into(&mut cursor, &mut [0], &mut fault).is_err());
/// assert_eq!(fault, ValueError::Text(IntoError::NoRoom));
/// ```
pub fn read_string_into(
    cursor: &mut Octets<'_>,
    out: &mut [u8],
    fault: &mut ValueError,
) -> Result<usize, LiteralError>
    ensures value { IfOk result (ReadsInto cursor.old cursor.new out.old out.new) }
    ensures within { IfOk result (λ n. n ≤ length out.old) }
    ensures refused { IfErr result (IsRefused (rest cursor.old) (length out.old)) }
    ensures no_memory { IfErr result (λ why. why ≢ OutOfMemory) }
    ensures unchanged { OnErr result (IsUnchanged cursor.old cursor.new) }

    // What an error leaves in `out`, and what it says in `fault`.
    ensures kept { IfErr result (λ why. why ≢ Value → out.new ≡ out.old) }
    ensures front { IfErr result (λ why. why ≡ Value → HoldsData (rest cursor.old)
        (λ huffman d. LeavesRead huffman d out.old out.new)) }
    ensures fault { IfErr result (λ why. why ≡ Value → HoldsData (rest cursor.old)
        (λ huffman d. IsFaultOf fault.new huffman d out.old out.new)) }
    ensures no_fault { MatchResult result (λ _. fault.new ≡ fault.old)
        (λ why. why ≢ Value → fault.new ≡ fault.old) }
{
    let data = find_data(cursor.as_ref())?;
    let whole = data.whole;
    let Some(len) = read_value_into(data.huffman, data.content, out, fault) else {
        return Err(LiteralError::Value);
    };
    cursor.skip(whole)?;
    Ok(len)
}

/// Writes the value of the data into `out`, and returns its length. The data are Huffman-encoded if
/// the flag is set.
fn read_value_into(
    huffman: bool,
    content: &[u8],
    out: &mut [u8],
    fault: &mut ValueError,
) -> Option<usize>
    ensures value { IfSome result (WritesValue huffman content.now out.old out.new) }
    ensures none { IfNone result (IsNoValue huffman content.now (length out.old) Value) }
    ensures front { IfNone result (LeavesRead huffman content.now out.old out.new) }
    ensures fault { IfNone result (IsFaultOf fault.new huffman content.now out.old out.new) }
    ensures no_fault { IfSome result (λ _. fault.new ≡ fault.old) }
{
    if huffman {
        decoded_into(content, out, fault)
    } else {
        copied_into(content, out, fault)
    }
}

/// Writes the value of Huffman-encoded data into `out`.
fn decoded_into(content: &[u8], out: &mut [u8], fault: &mut ValueError) -> Option<usize>
    ensures value { IfSome result (WritesValue true content.now out.old out.new) }
    ensures none { IfNone result (IsNoValue true content.now (length out.old) Value) }
    ensures front { IfNone result (LeavesRead true content.now out.old out.new) }
    ensures fault { IfNone result (IsFaultOf fault.new true content.now out.old out.new) }
    ensures no_fault { IfSome result (λ _. fault.new ≡ fault.old) }
{
    match Octets::with_slice(content).get_huffman_decoded_into(out) {
        Ok(len) => Some(len),
        Err(why) => {
            *fault = ValueError::Text(why);
            None
        }
    }
}

/// Copies the data, which are the value, into `out`.
#[tactic(auto, using(crate::proofs::Values::values))]
fn copied_into(content: &[u8], out: &mut [u8], fault: &mut ValueError) -> Option<usize>
    ensures value { IfSome result (WritesValue false content.now out.old out.new) }
    ensures none { IfNone result (IsNoValue false content.now (length out.old) Value) }
    ensures front { IfNone result (LeavesRead false content.now out.old out.new) }
    ensures fault { IfNone result (IsFaultOf fault.new false content.now out.old out.new) }
    ensures no_fault { IfSome result (λ _. fault.new ≡ fault.old) }
{
    let len = content.len();
    if len > out.len() {
        *fault = ValueError::Long;
        return None;
    }
    out[..len].copy_from_slice(content);
    Some(len)
}
