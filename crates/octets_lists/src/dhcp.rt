//! Options of DHCP (RFC 2132, section 2): a code, a length and a value. The pad option and the end
//! option consist of their code alone. An iterator skips the pad options, and ends at the end
//! option.
ghost use Rattle.std.specs.Prelude.{◌≡◌, ◌≢◌, ◌+◌, ◌≤◌, ◌⊎◌, ℕ, List, length, take, drop, true, false};
ghost use Rattle.std.specs.Iterator.{at_most};
ghost use Rattle.std.specs.Prelude.{MatchOption, MatchResult, IsOkAnd, IfOk, IfSome, IfNone, OnErr, None};
ghost use Rattle.octets.specs.Bytes.{number, part};
ghost use Rattle.octets.specs.Cursor.{bytes, position, rest, Advances, IsUnchanged, Passes};
ghost use Rattle.octets_lists.specs.DhcpOptions.{BeginsPads, BeginsOption, BeginsEnd, EndsInOption};
ghost use Rattle.octets_lists.specs.DhcpOptions.{IsOption, IsEnd, IsCut, not_ended};

use octets::{Octets, Result};

/// An option that has a value.
#[derive(Debug, Drop, PartialEq, Eq)]
pub struct DhcpOption<'a> {
    /// The code, which says what the value is. It is neither 0 nor 255.
    pub code: u8,
    /// A cursor over the value, at its start.
    pub value: Octets<'a>,
}

/// The options with which a buffer begins.
#[derive(Debug, Drop)]
pub struct DhcpOptions<'a> {
    cursor: Octets<'a>,
    ended: bool,
}

impl<'a> DhcpOptions<'a> {
    /// Returns the options from the cursor's offset on.
    pub fn of(cursor: Octets<'a>) -> DhcpOptions<'a>
        ensures start { rest result.cursor ≡ rest cursor.entry }
        ensures open { result.ended ≡ false }
    {
        DhcpOptions {
            cursor,
            ended: false,
        }
    }
}

impl<'a> Iterator for DhcpOptions<'a> {
    type Item = Result<DhcpOption<'a>>;

    ghost remaining = { λ s. at_most (length (rest s.cursor) + not_ended s.ended) };

    // After the end option, and after an error, no item comes.
    ghost next_gives = { λ s item t. MatchOption item
        ((t.ended ≡ true) × ((s.ended ≡ true) ⊎ ((n : ℕ) × BeginsEnd (rest s.cursor) n)))
        (λ r. (s.ended ≡ false) × MatchResult r
        (λ o. (t.ended ≡ false) × (position o.value ≡ 0)
        × ((n : ℕ) × BeginsOption (rest s.cursor) n o.code (bytes o.value)
        × (rest t.cursor ≡ drop (n + (2 + length (bytes o.value))) (rest s.cursor))))
        (λ _. (t.ended ≡ true) × EndsInOption (rest s.cursor))) };

    #[tactic(auto, unfolding(crate::specs::DhcpOptions::not_ended))]
    fn next(&mut self) -> Option<Result<DhcpOption<'a>>> {
        if self.ended {
            return None;
        }
        match read_option(&mut self.cursor) {
            Ok(Some(option)) => Some(Ok(option)),
            Ok(None) => {
                self.ended = true;
                None
            }
            Err(error) => {
                self.ended = true;
                Some(Err(error))
            }
        }
    }
}

/// Reads the next option that has a value, and passes the pad options before it. It returns `None`
/// if the end option comes first, and passes that.
///
/// It fails if the buffer ends before the end option, or within an option. Then it leaves the
/// offset where it was.
///
/// ```
/// // A pad option, and the message type (code 53) of a request.
/// let mut cursor = Octets::with_slice(&[0, 53, 1, 3, 255]);
/// let option = read_option(&mut cursor)?.expect("an option");
/// assert_eq!(option.code, 53);
/// assert!(option.value.buf() == [3].as_slice());
/// assert_eq!(read_option(&mut cursor)?, None);
/// ```
#[tactic(auto, unfolding(crate::specs::DhcpOptions::BeginsEnd, crate::specs::DhcpOptions::BeginsOption, crate::specs::DhcpOptions::EndsInOption))]
pub fn read_option<'a>(cursor: &mut Octets<'a>) -> Result<Option<DhcpOption<'a>>>
    ensures option { IfOk result (λ o. IfSome o (λ v. (position v.value ≡ 0)
        × ((n : ℕ) × BeginsOption (rest cursor.old) n v.code (bytes v.value)
        × Passes cursor.old cursor.new (n + (2 + length (bytes v.value)))))) }
    ensures every { (n code : ℕ) (value : List ℕ) → BeginsOption (rest cursor.old) n code value
        → IsOkAnd result
        (λ o. MatchOption o ⊥ (λ v. (v.code ≡ code) × (bytes v.value ≡ value))) }
    ensures end { IfOk result (λ o. IfNone o ((n : ℕ) × BeginsEnd (rest cursor.old) n
        × Passes cursor.old cursor.new (n + 1))) }
    ensures ends { (n : ℕ) → BeginsEnd (rest cursor.old) n → IsOkAnd result (λ o. o ≡ None) }
    ensures refused { OnErr result (EndsInOption (rest cursor.old)) }
    ensures unchanged { OnErr result (IsUnchanged cursor.old cursor.new) }
{
    let before = cursor.off();
    skip_pads(cursor);
    match read_after_pads(cursor) {
        Ok(option) => Ok(option),
        Err(error) => {
            cursor.rewind(cursor.off() - before)?;
            Err(error)
        }
    }
}

/// Passes pad options.
#[tactic(auto, using(crate::proofs::DhcpOptions::not_pad))]
fn skip_pads(cursor: &mut Octets<'_>)
    ensures pads { (n : ℕ) × BeginsPads (rest cursor.old) n × Passes cursor.old cursor.new n }
    ensures every { (n : ℕ) → BeginsPads (rest cursor.old) n → Passes cursor.old cursor.new n }
    ensures not_pad { 1 ≤ length (rest cursor.new) → number (take 1 (rest cursor.new)) ≢ 0 }
{
    let pads = count_pads(cursor.as_ref());
    let _ = cursor.skip(pads);
}

/// Returns how many pad options the bytes begin with.
#[tactic(auto, unfolding(crate::specs::DhcpOptions::BeginsPads))]
fn count_pads(bytes: &[u8]) -> usize
    ensures pads { BeginsPads bytes.now result }
    ensures every { (n : ℕ) → BeginsPads bytes.now n → result ≡ n }
    ensures within { result ≤ length bytes.now }
{
    match bytes.iter().position(|byte| *byte != 0) {
        Some(pads) => pads,
        None => bytes.len(),
    }
}

/// Reads the end option, or an option that has a value.
fn read_after_pads<'a>(cursor: &mut Octets<'a>) -> Result<Option<DhcpOption<'a>>>
    ensures option { IfOk result (λ o. IfSome o (λ v. (position v.value ≡ 0)
        × IsOption (rest cursor.old) v.code (bytes v.value)
        × Passes cursor.old cursor.new (2 + length (bytes v.value)))) }
    ensures every { (code : ℕ) (value : List ℕ) → IsOption (rest cursor.old) code value
        → IsOkAnd result
        (λ o. MatchOption o ⊥ (λ v. (v.code ≡ code) × (bytes v.value ≡ value))) }
    ensures end { IfOk result (λ o. IfNone o (IsEnd (rest cursor.old)
        × Passes cursor.old cursor.new 1)) }
    ensures ends { IsEnd (rest cursor.old) → IsOkAnd result (λ o. o ≡ None) }
    ensures refused { OnErr result (IsCut (rest cursor.old)) }
    ensures advances { Advances cursor.old cursor.new }
{
    let code = cursor.get_u8()?;
    if code == 255 {
        return Ok(None);
    }
    let value = cursor.get_bytes_with_u8_length()?;
    Ok(Some(DhcpOption { code, value }))
}
