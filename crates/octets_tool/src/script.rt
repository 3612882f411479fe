//! Scripts. A script has a line with a buffer, and then a line for each call of a cursor over it.
ghost use Rattle.std.specs.Prelude.{◌≡◌, ◌↔◌, ℕ};
ghost use Rattle.octets_tool.specs.Scripts.{ScriptText, IsScript, IsFaultLine};
ghost use Rattle.octets_tool.specs.Scripts.{unended, shown, UnlessMemory};
ghost use Rattle.octets_tool.specs.Requests.{OnMemory};

use crate::cut::cut;
use crate::memory::push;
use octets_script::Command;
use std::alloc::{AllocError, Global};

mod command_line;
mod names;

use command_line::{read_buffer, read_command};

/// The greatest number of commands of a script.
pub const MOST_COMMANDS: usize = 4_096;

/// A buffer, and the calls that are made of a cursor at its start.
#[derive(Drop)]
pub struct Script {
    /// The bytes of the buffer.
    pub buffer: Vec<u8>,
    /// The calls, in order.
    pub commands: Vec<Command>,
}

/// Why a text isn't a script.
#[derive(Clone, Copy)]
pub enum ScriptFault {
    /// The number of the first line that breaks a rule, counted from 1.
    Line(usize),
    /// An allocation failed.
    Memory,
}

impl From<AllocError> for ScriptFault {
    ghost use Rattle.std.specs.Prelude.{◌≡◌};
    ghost use Rattle.octets_tool.specs.declared.script.ScriptFault.TheVariants.{Memory};

    ghost from_gives = { λ _ fault. fault ≡ Memory };

    fn from(_: AllocError) -> ScriptFault {
        ScriptFault::Memory
    }
}

/// Reads a script: a line `buffer HEX` with at most 4,096 bytes, and then a line for each command,
/// at most 4,096 in all. Each line ends with a line feed, which the last line may lack.
pub fn parse_script(alloc: Global, input: &[u8]) -> Result<Script, ScriptFault>
    ensures script { UnlessMemory result ((s : ScriptText)
        → (shown result ≡ Ok s) ↔ IsScript input.now s) }
    ensures line { UnlessMemory result ((n : ℕ)
        → (shown result ≡ Err (ScriptFault.Line n)) ↔ IsFaultLine input.now n) }
    ensures memory { OnMemory result }
{
    let (line, mut rest) = cut(unended(input), b'\n');
    let Some(buffer) = read_buffer(alloc, line)? else {
        return Err(ScriptFault::Line(1));
    };
    let mut commands = Vec::new(alloc);
    while let Some(lines) = rest {
        let (line, after) = cut(lines, b'\n');
        // Lines are counted from 1, and the first has the buffer.
        let number = commands.len() + 2;
        if commands.len() == MOST_COMMANDS {
            return Err(ScriptFault::Line(number));
        }
        let Some(command) = read_command(alloc, line)? else {
            return Err(ScriptFault::Line(number));
        };
        if push(&mut commands, command).is_err() {
            return Err(ScriptFault::Memory);
        }
        rest = after;
    }
    Ok(Script { buffer, commands })
}

/// Returns the input without the line feed that ends its last line.
fn unended(input: &[u8]) -> &[u8]
    ensures { result.now ≡ unended input.now }
{
    match input.strip_suffix(b"\n".as_slice()) {
        Some(text) => text,
        None => input,
    }
}
