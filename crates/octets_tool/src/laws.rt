//! Laws of the program's output.
//!
//! Each function does nothing. Its contract is the law, whose statement is in `specs/Laws.antt`.
ghost use Rattle.octets_tool.specs.Laws.{NamesAreApart, LinesAreApart};
ghost use Rattle.octets_tool.specs.Laws.{TextIsScript, ScriptsAreOne, ScriptOrFault};
ghost use Rattle.octets_tool.specs.Laws.{ScriptHasNoFault, FaultsAreOne};
ghost use Rattle.octets_tool.specs.Laws.{EachHasAnOutput, OutputsAreOne};

use octets_code::laws::answers_decided;
use octets_literal::laws::{each_decided, literal_once, refused_once};
use octets_script::laws::one_play;

/// Two commands in the table of a script's commands have different names, and two different
/// commands have different lines.
pub fn commands_apart()
    ensures names { NamesAreApart }
    ensures lines { LinesAreApart }
{}

/// The text of a script spells this script and no other. Each input either spells a script or has a
/// first line that breaks a rule, and there is just one such line.
pub fn script_read_back()
    ensures spelled { TextIsScript }
    ensures one_script { ScriptsAreOne }
    ensures decided { ScriptOrFault }
    ensures not_both { ScriptHasNoFault }
    ensures one_fault { FaultsAreOne }
{}

/// What a task writes for an input, and its status, are determined by the bytes of the input.
pub fn one_output()
    ensures some { EachHasAnOutput }
    ensures one { OutputsAreOne }
{
    answers_decided();
    each_decided();
    literal_once();
    refused_once();
    one_play();
}
