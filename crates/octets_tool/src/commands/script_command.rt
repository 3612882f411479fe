//! `script` makes calls of a cursor over a buffer, and prints a line for each reply.
ghost use Rattle.std.specs.Prelude.{◌≡◌, ℕ, List, map, flat_map};
ghost use Rattle.std.specs.String.{string_bytes};
ghost use Rattle.octets_script.specs.Calls.{Answer, call_of, answer_of};
ghost use Rattle.octets_script.specs.Plays.{Plays};
ghost use Rattle.octets_tool.specs.Output.{IsScriptOutput, replies_output, shown};
ghost use Rattle.octets_tool.specs.Replies.{ended_line};
ghost use Rattle.octets_tool.specs.Requests.{OrRefused};

use crate::hex::Hex;
use crate::output::Output;
use crate::reply_line::ReplyLine;
use crate::script::{ScriptFault, parse_script};
use octets::OctetsMut;
use octets_script::{Command, Reply, run};
use std::alloc::{AllocError, Global};

/// Returns the whole output for the text of a script. It fails only if an allocation fails.
pub fn output(alloc: Global, input: &[u8]) -> Result<Output, AllocError>
    ensures { OrRefused result (λ output. IsScriptOutput input.now (shown output)) }
{
    match parse_script(alloc, input) {
        Ok(script) => script_output(alloc, script.buffer, &script.commands),
        Err(ScriptFault::Line(number)) => {
            let text = format!(in alloc; "refused at line {number}\n")?;
            Ok(Output::refused(text))
        }
        Err(ScriptFault::Memory) => Err(AllocError),
    }
}

/// Returns the output of a script that was read.
fn script_output(
    alloc: Global,
    mut buffer: Vec<u8>,
    commands: &[Command],
) -> Result<Output, AllocError>
    ensures { OrRefused result (λ output. (rs : List Answer) × (l : List ℕ) × (p : ℕ)
        × Plays (map call_of commands.now) buffer.items 0 rs l p
        × (shown output ≡ replies_output rs l p)) }
{
    let (replies, offset) = play(alloc, &mut buffer, commands)?;
    let lines = lines_of(alloc, &replies)?;
    let lines = lines.as_str();
    let buffer = Hex(&buffer);
    let text = format!(in alloc; "{lines}buffer {buffer} off {offset}\n")?;
    Ok(Output::answered(text))
}

/// Performs the commands on a cursor at the start of the buffer, and returns the replies and the
/// offset after them.
fn play(
    alloc: Global,
    buffer: &mut [u8],
    commands: &[Command],
) -> Result<(Vec<Reply>, usize), AllocError>
    ensures { OrRefused result (λ end. Plays (map call_of commands.now) buffer.old 0
        (map answer_of end.0.items) buffer.new end.1) }
{
    let mut cursor = OctetsMut::with_slice(buffer);
    match run(alloc, &mut cursor, commands) {
        Ok(replies) => {
            let offset = cursor.off();
            Ok((replies, offset))
        }
        Err(_) => Err(AllocError),
    }
}

/// Returns a line for each reply.
fn lines_of(alloc: Global, replies: &[Reply]) -> Result<String, AllocError>
    ensures { OrRefused result (λ lines. string_bytes lines
        ≡ flat_map ended_line (map answer_of replies.now)) }
{
    let mut lines = String::new(alloc);
    for reply in replies {
        let line = ReplyLine(reply);
        let line = format!(in alloc; "{line}\n")?;
        lines.push_str(line.as_str())?;
    }
    Ok(lines)
}
