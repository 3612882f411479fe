//! The types of the entries of the tables.

/// The code of one symbol (RFC 7541, Appendix B): the number `bits`, written in `len` bits,
/// the most significant bit first.
#[derive(Clone, Copy, Debug, PartialEq, Eq)]
pub struct Code {
    /// The length of the code in bits, from 5 to 30.
    pub len: u8,
    /// The bits of the code as a number, which is below 2 to the power `len`.
    pub bits: u32,
}

/// Where a move of the automaton leads: the number of the next state, and the byte that was
/// completed.
#[derive(Clone, Copy)]
pub(crate) enum Move {
    On(u8),
    Byte(u8, u8),
    End,
}
