//! The decode of an encoding under a limit. Windows of 64 bits read several codes at once, and the
//! automaton reads what remains, 4 bits at a time.
ghost use Rattle.std.specs.Prelude.{◌≡◌, ◌↔◌, ◌+◌, ◌-◌, ◌*◌, ◌<◌, ◌≤◌, ◌^◌, ◌++◌};
ghost use Rattle.std.specs.Prelude.{◌/◌, ◌%◌, ◌⊎◌, [], length, take, drop, min};
ghost use Rattle.std.specs.Prelude.{ℕ, List, IfSome, IfOk, IfErr, OnOk, OnErr, MatchOption};
ghost use Rattle.octets_code.specs.Answers.{IsAnswer, IsRefusal, AreSteps};
ghost use Rattle.octets_code.specs.Bits.{bits_of};
ghost use Rattle.octets_code.specs.Steps.{IsOpen};
ghost use Rattle.octets_code.specs.Texts.{bits, codes, AreBytes};
ghost use Rattle.octets.specs.Reading.{IsRead, IsReadBefore, IsStopped, CountsToStop};
ghost use Rattle.octets.specs.Decodes.{Counts};
ghost use Rattle.octets.specs.Windows.{AreCut};

use crate::huffman::decode::store::Store;
use crate::huffman::decode::window_loop::read_whole;
use octets_code::{State, Step, Steps};

/// How many bytes were passed before a decode failed.
#[derive(Drop)]
pub(crate) struct Refusal {
    pub(crate) passed: usize,
}

/// Encodings of fewer bytes are read only by the automaton, since starting with windows takes
/// longer.
const WINDOWED: usize = 3;

/// Appends the value of the encoding `text` to `value`, which is empty at the call.
#[inline(always)]
pub(crate) fn read_text<S: Store>(
    text: &[u8],
    value: &mut S,
    max_len: usize,
    steps: &mut Steps,
) -> Result<(), Refusal>
    requires empty { S.held value.old ≡ [] }
    requires room { min (2 * length text.now) max_len ≤ S.room value.old }
    requires count { steps.old + 2 * length text.now < 2 ^ 128 }
    ensures answer { OnOk result (IsAnswer text.now max_len (S.held value.new)) }
    ensures refused { IfErr result (λ r. IsRefusal text.now max_len r.passed) }
    ensures small { length (S.held value.new) ≤ min (2 * length text.now) max_len }
    ensures counted { Counts text.now max_len steps.old steps.new }
    ensures added { S.adds value.old value.new (S.held value.new) }
    ensures behind { OnErr result (IsReadBefore (S.held value.new) text.now max_len) }
{
    if text.len() < WINDOWED {
        let state = read_part(text, 0, State::root(), value, max_len, steps)?;
        return end_text(text, state);
    }
    let whole = read_whole(text, value, max_len);
    if whole.filled {
        steps.spare(2 * text.len());
        return Ok(());
    }
    read_rest(text, whole.at, value, max_len, steps)
}

/// Reads the encoding from the bit `at` to its end, 4 bits at a time. A code ends just before the
/// bit `at`. Each 4 bits before `at` count as a step.
pub(super) fn read_rest<S: Store>(
    text: &[u8],
    at: usize,
    value: &mut S,
    max_len: usize,
    steps: &mut Steps,
) -> Result<(), Refusal>
    requires inside { at ≤ 8 * length text.now }
    requires cut { AreCut text.now at (S.held value.old) }
    requires bytes { AreBytes (S.held value.old) }
    requires within { length (S.held value.old) ≤ max_len }
    requires room { min (2 * length text.now) max_len ≤ S.room value.old }
    requires count { steps.old + 2 * length text.now < 2 ^ 128 }
    ensures answer { OnOk result (IsAnswer text.now max_len (S.held value.new)) }
    ensures refused { IfErr result (λ r. IsRefusal text.now max_len r.passed) }
    ensures small { length (S.held value.new) ≤ min (2 * length text.now) max_len }
    ensures counted { Counts text.now max_len steps.old steps.new }
    ensures added { (w : List ℕ) × S.adds value.old value.new w }
    ensures behind { OnErr result (IsReadBefore (S.held value.new) text.now max_len) }
{
    let halves = at.div_ceil(4);
    steps.spare(halves);
    let front = front_state(text, at);
    let Some(state) = read_half(text, halves, front, value, max_len, steps) else {
        return Err(Refusal {
            passed: halves / 2 + 1,
        });
    };
    let state = read_part(text, halves.div_ceil(2), state, value, max_len, steps)?;
    end_text(text, state)
}

/// Returns the state after the bits from `at` to the end of the half byte that contains it.
#[tactic(auto, using(crate::proofs::lemmas::Fronts::half_bytes))]
pub(super) fn front_state(text: &[u8], at: usize) -> State
    requires inside { at ≤ 8 * length text.now }
    ensures path { result ≡ drop at (take (4 * ((at + 3) / 4)) (bits text.now)) }
    ensures open { IsOpen result }
{
    let past = at % 4;
    if past == 0 {
        return State::root();
    }
    let byte = text[at / 8];
    let half = if at % 8 < 4 { byte >> 4 } else { byte & 0xf };
    State::of_front((4 - past) as u8, half & ((1 << (4 - past)) - 1))
}

/// Reads the lower half of a byte whose higher half was already read, which is the case if the
/// number `halves` of half bytes is odd. It returns `None` if a symbol in it makes the decode fail.
fn read_half<S: Store>(
    text: &[u8],
    halves: usize,
    state: State,
    value: &mut S,
    max_len: usize,
    steps: &mut Steps,
) -> Option<State>
    requires inside { halves ≤ 2 * length text.now }
    requires begun { IsRead (take (4 * halves) (bits text.now)) max_len (S.held value.old) state }
    requires room { min max_len (length (S.held value.old) + 1) ≤ S.room value.old
        ⊎ (halves % 2 ≡ 0) }
    requires count { steps.old + 1 < 2 ^ 128 ⊎ (halves % 2 ≡ 0) }
    ensures few { length (S.held value.new) ≤ length (S.held value.old) + halves % 2 }
    ensures limit { length (S.held value.new) ≤ max_len }
    ensures added { (w : List ℕ) × S.adds value.old value.new w }
    ensures counted { steps.new ≡ steps.old + halves % 2 }
    ensures read { MatchOption result
        (IsRefusal text.now max_len (halves / 2 + 1) × AreSteps text.now max_len (halves + 1)
        × IsReadBefore (S.held value.new) text.now max_len × (halves % 2 ≡ 1))
        (IsRead (bits (take ((halves + 1) / 2) text.now)) max_len (S.held value.new)) }
{
    if halves % 2 == 0 {
        return Some(state);
    }
    read_nibble(state, text[halves / 2] & 0xf, value, max_len, steps)
}

/// Returns `Ok` if an encoding may end in `state`, in which `text` was read to its end.
pub(super) fn end_text(text: &[u8], state: State) -> Result<(), Refusal>
    ensures answer { (m : ℕ) (v : List ℕ) → IsRead (bits text.now) m v state
        → OnOk result (IsAnswer text.now m v) }
    ensures refused { (m : ℕ) (v : List ℕ) → IsRead (bits text.now) m v state
        → IfErr result (λ r. IsRefusal text.now m r.passed) }
    ensures behind { (m : ℕ) (v : List ℕ) → IsRead (bits text.now) m v state
        → OnErr result (IsReadBefore v text.now m) }
{
    if state.is_fill() {
        Ok(())
    } else {
        Err(Refusal { passed: text.len() })
    }
}

/// Reads the encoding from the byte `from` to its end. It is inlined so that a short decode keeps
/// the count of steps in registers.
#[inline(always)]
fn read_part<S: Store>(
    text: &[u8],
    from: usize,
    state: State,
    value: &mut S,
    max_len: usize,
    steps: &mut Steps,
) -> Result<State, Refusal>
    requires begun { IsRead (bits (take from text.now)) max_len (S.held value.old) state }
    requires inside { from ≤ length text.now }
    requires room { min max_len (length (S.held value.old) + 2 * (length text.now - from))
        ≤ S.room value.old }
    requires count { steps.old + 2 * (length text.now - from) < 2 ^ 128 }
    ensures read { IfOk result (IsRead (bits text.now) max_len (S.held value.new)) }
    ensures whole { IfOk result (λ _. steps.new ≡ steps.old + 2 * (length text.now - from)) }
    ensures refused { IfErr result (λ r. IsRefusal text.now max_len r.passed) }
    ensures counted { OnErr result
        ((n : ℕ) × AreSteps text.now max_len n × (steps.new + 2 * from ≡ steps.old + n)) }
    ensures behind { OnErr result (IsReadBefore (S.held value.new) text.now max_len) }
    ensures limit { length (S.held value.new) ≤ max_len }
    ensures few { length (S.held value.new)
        ≤ length (S.held value.old) + 2 * (length text.now - from) }
    ensures added { (w : List ℕ) × S.adds value.old value.new w }
{
    let mut state = state;
    for (i, byte) in text[from..].iter().enumerate() {
        match read_halves(state, *byte, value, max_len, steps) {
            Some(next) => state = next,
            None => {
                return Err(Refusal {
                    passed: from + i + 1,
                });
            }
        }
    }
    Ok(state)
}

/// Reads the two halves of `byte`. It returns `None` if a symbol in it makes the decode fail.
fn read_halves<S: Store>(
    state: State,
    byte: u8,
    value: &mut S,
    max_len: usize,
    steps: &mut Steps,
) -> Option<State>
    requires open { IsOpen state }
    requires bytes { AreBytes (S.held value.old) }
    requires within { length (S.held value.old) ≤ max_len }
    requires room { min max_len (length (S.held value.old) + 2) ≤ S.room value.old }
    requires count { steps.old + 2 < 2 ^ 128 }
    ensures few { length (S.held value.new) ≤ length (S.held value.old) + 2 }
    ensures limit { length (S.held value.new) ≤ max_len }
    ensures added { (w : List ℕ) × S.adds value.old value.new w }
    ensures read { MatchOption result
        (CountsToStop (S.held value.new) (codes (S.held value.old) ++ state) (bits_of 8 byte)
        max_len steps.old steps.new)
        (IsRead ((codes (S.held value.old) ++ state) ++ bits_of 8 byte) max_len
        (S.held value.new)) }
    ensures two { IfSome result (λ _. steps.new ≡ steps.old + 2) }
{
    let half = read_nibble(state, byte >> 4, value, max_len, steps)?;
    read_nibble(half, byte & 0xf, value, max_len, steps)
}

/// Reads half a byte. It returns `None` if a symbol in it makes the decode fail.
fn read_nibble<S: Store>(
    state: State,
    nibble: u8,
    value: &mut S,
    max_len: usize,
    steps: &mut Steps,
) -> Option<State>
    requires small { nibble < 16 }
    requires open { IsOpen state }
    requires bytes { AreBytes (S.held value.old) }
    requires within { length (S.held value.old) ≤ max_len }
    requires room { min max_len (length (S.held value.old) + 1) ≤ S.room value.old }
    requires count { steps.old + 1 < 2 ^ 128 }
    ensures few { length (S.held value.new) ≤ length (S.held value.old) + 1 }
    ensures limit { length (S.held value.new) ≤ max_len }
    ensures added { (w : List ℕ) × S.adds value.old value.new w }
    ensures counted { steps.new ≡ steps.old + 1 }
    ensures read { MatchOption result
        (IsStopped (S.held value.new) (codes (S.held value.old) ++ state) (bits_of 4 nibble)
        max_len 1)
        (IsRead ((codes (S.held value.old) ++ state) ++ bits_of 4 nibble) max_len
        (S.held value.new)) }
{
    match state.step(nibble, steps) {
        Step::On(next) => Some(next),
        Step::Byte(next, byte) => {
            if value.count() == max_len {
                return None;
            }
            value.put(byte);
            Some(next)
        }
        Step::End => None,
    }
}
