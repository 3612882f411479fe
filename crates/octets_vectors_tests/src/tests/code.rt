//! The codes and the automaton of `octets_code`: worked examples, and a search of all states.

use octets_code::{State, Step, Steps, code_len, code_of, lookup};

/// Returns how many bits the codes of `value` have.
fn codes_len(value: &[u8]) -> u32 {
    let mut bits: u32 = 0;
    for byte in value {
        bits = bits.saturating_add(u32::from(code_of(u16::from(*byte)).len));
    }
    bits
}

#[test]
fn the_bits_of_codes_are_counted(rt: HostRuntime) {
    assert!(rt;
        codes_len(b"") == 0
            && codes_len(b"aaaaaaaa    ") == 64
            && codes_len(b"022*-test?otes") == 79
    );
}

/// Symbols, and the lengths and bits of their codes.
static CODES: [(u16, u8, u32); 3] = [(48, 5, 0x0), (32, 6, 0x14), (256, 30, 0x3fffffff)];

/// Lengths and bits, and the symbols whose codes have them.
#[rattlefmt::skip]
static LOOKUPS: [(u8, u32, Option<u16>); 7] = [
    (5, 0x3, Some(97)),
    (6, 0x14, Some(32)),
    (30, 0x3fffffff, Some(256)),
    (5, 0xa, None),
    (5, 0x23, None),
    (0, 0, None),
    (255, 0, None),
];

/// Whether the symbol has this code.
fn is_code(symbol: u16, len: u8, bits: u32) -> bool {
    if symbol > 256 {
        return false;
    }
    let code = code_of(symbol);
    code.len == len && code.bits == bits
}

#[test]
fn codes_stand_in_the_table(rt: HostRuntime) {
    for (symbol, len, bits) in &CODES {
        assert!(rt; is_code(*symbol, *len, *bits));
    }
    for (len, bits, symbol) in &LOOKUPS {
        assert!(rt; lookup(*len, *bits) == *symbol);
    }
}

/// Bytes, and the lengths of their codes in bits (RFC 7541, Appendix B).
static LENGTHS: [(u8, u32); 6] = [(0, 13), (1, 23), (10, 30), (33, 10), (97, 5), (255, 26)];

#[test]
fn the_bits_of_a_code_are_counted(rt: HostRuntime) {
    for (byte, bits) in &LENGTHS {
        assert!(rt; code_len(*byte) == *bits);
    }
}

/// The number of states.
const STATES: usize = 256;

/// Returns the states that `step_bit` reaches from the root, if they are as many.
fn states_by_bits() -> Option<[State; STATES]> {
    let mut states = [State::root(); STATES];
    let mut count = 1;
    for at in 0..STATES {
        let state = states[at];
        for bit in [false, true] {
            if let Step::On(next) | Step::Byte(next, _) = state.step_bit(bit)
                && !states.get(..count)?.contains(&next)
            {
                *states.get_mut(count)? = next;
                count += 1;
            }
        }
    }
    if count == STATES { Some(states) } else { None }
}

/// Returns the result of four steps over single bits, and how many of them completed a byte.
fn four_bits(start: State, nibble: u8) -> (Step, usize) {
    let mut state = start;
    let mut last = None;
    let mut completed: usize = 0;
    for place in 0u8..4 {
        match state.step_bit(nibble & (8 >> place) != 0) {
            Step::On(next) => state = next,
            Step::Byte(next, byte) => {
                state = next;
                last = Some(byte);
                completed = completed.saturating_add(1);
            }
            Step::End => return (Step::End, completed),
        }
    }
    match last {
        Some(byte) => (Step::Byte(state, byte), completed),
        None => (Step::On(state), completed),
    }
}

/// Whether each step over half a byte is four steps over its bits, of which at most one completes a
/// byte, and all steps are counted.
fn are_four_steps(states: &[State; STATES]) -> bool {
    let mut steps = Steps::new();
    for state in states {
        for nibble in 0u8..16 {
            let (step, completed) = four_bits(*state, nibble);
            if steps.count() >= 4096 || completed > 1 || state.step(nibble, &mut steps) != step {
                return false;
            }
        }
    }
    steps.count() == 4096
}

#[test]
fn a_step_is_four_steps_by_a_bit(rt: HostRuntime) {
    assert!(rt; states_by_bits().is_some_and(|states| are_four_steps(&states)));
}
