//! Laws of the code, of its texts, and of what a decoder returns for them. A text is the Huffman
//! encoding of a byte string.
//!
//! Each function does nothing. Its contract is the law, whose statement is in `specs/Laws.antt`.

ghost use Rattle.octets_code.specs.Laws.{CodesApart, FrontsGoOn, OnlyEndIsOnes};
ghost use Rattle.octets_code.specs.Laws.{StatesAreFronts, StatesApart};
ghost use Rattle.octets_code.specs.Laws.{EachHasOneText, TextsApart, TextIsText};
ghost use Rattle.octets_code.specs.Laws.{TextIsInjective, LengthsAreBounded};
ghost use Rattle.octets_code.specs.Laws.{EachHasOneCut, TextIsCut, CutIsText};
ghost use Rattle.octets_code.specs.Laws.{TextIsAnswered, TextHasNoFault};
ghost use Rattle.octets_code.specs.Laws.{FaultOrNone, FaultIsOne, FaultEndsWithin, FaultIsRead};
ghost use Rattle.octets_code.specs.Laws.{EachIsDecided, AnswersAreOne, WorkIsBounded};

/// No code is a prefix of another.
pub fn codes_apart()
    ensures { CodesApart }
{}

/// If a prefix of a code isn't a code, each bit extends it to a prefix of a code.
pub fn fronts_go_on()
    ensures { FrontsGoOn }
{}

/// The end code is the only code that consists of one bits.
pub fn only_end_is_ones()
    ensures { OnlyEndIsOnes }
{}

/// The 256 states of the automaton are exactly the prefixes of codes that aren't codes, each once.
pub fn states_are_fronts()
    ensures each { StatesAreFronts }
    ensures apart { StatesApart }
{}

/// Each value has exactly one text, and different values have different texts.
pub fn texts_apart()
    ensures one { EachHasOneText }
    ensures apart { TextsApart }
    ensures value { TextIsText }
    ensures injective { TextIsInjective }
{}

/// A decoder returns the value that was encoded, under every limit that the value is within. And
/// bytes that are cut into codes of bytes and 0 to 7 one bits are a text.
pub fn text_read_back()
    ensures one { EachHasOneCut }
    ensures read { TextIsCut }
    ensures answered { TextIsAnswered }
    ensures clear { TextHasNoFault }
    ensures back { CutIsText }
{}

/// Bits have at most one fault under a limit, and a decoder that reads from the start meets it.
pub fn fault_read_once()
    ensures told { FaultOrNone }
    ensures one { FaultIsOne }
    ensures within { FaultEndsWithin }
    ensures read { FaultIsRead }
{}

/// Under each limit, bytes have a value, or a decode of them fails after one number of bytes. The
/// number of steps is determined, and at most two for each byte.
pub fn answers_decided()
    ensures each { EachIsDecided }
    ensures one { AnswersAreOne }
    ensures bounded { WorkIsBounded }
{}

/// A value has at most 1.6 times as many bytes as its text, and a text at most four bytes for each
/// byte of its value.
pub fn lengths_bounded()
    ensures { LengthsAreBounded }
{}
