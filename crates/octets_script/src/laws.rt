//! Laws of runs.
//!
//! Each function does nothing. Its contract is the law, whose statement is in `specs/Laws.antt`.
ghost use Rattle.octets_script.specs.Laws.{EachHasAnOutcome, OutcomesAreOne};
ghost use Rattle.octets_script.specs.Laws.{EachIsPlayed, PlaysAreOne, EachIsAnswered};
ghost use Rattle.octets_script.specs.Laws.{PlaysGoOn, PlaysComeApart};

use octets_code::laws::{answers_decided, texts_apart};

/// The outcome of a command is its reply, and what it leaves of the buffer.
///
/// - `some`: each command on a list of bytes has an outcome.
/// - `one`: no command has two. Its reply, and the bytes and the position that it leaves, are
///   determined.
#[tactic(auto, using(crate::proofs::OneOutcome::outcome_laws))]
pub fn one_outcome()
    ensures some { EachHasAnOutcome }
    ensures one { OutcomesAreOne }
{
    answers_decided();
}

/// The run of a list of commands is their replies, and what they leave of the buffer.
///
/// - `some`: each list of commands that write bytes has a run on a list of bytes, which leaves as
///   many bytes.
/// - `one`: no list has two. Its replies, and what it leaves, are determined.
/// - `answered`: a run has one reply for each command.
/// - `go_on`: a run of one list, and a run of a second one on what the first leaves, are one run of
///   the two lists joined.
/// - `come_apart`: a run can be cut anywhere. It is a run of its first commands, and a run of the
///   others on what those leave, with the replies joined.
#[tactic(auto, using(crate::proofs::EachPlayed::all_play_laws))]
pub fn one_play()
    ensures some { EachIsPlayed }
    ensures one { PlaysAreOne }
    ensures answered { EachIsAnswered }
    ensures go_on { PlaysGoOn }
    ensures come_apart { PlaysComeApart }
{
    answers_decided();
    texts_apart();
}
