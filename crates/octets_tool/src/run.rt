//! The function that runs one command, from the bytes that are read to the text that is written.

ghost use Rattle.std.specs.Prelude.{◌≡◌, ◌≢◌, ◌≤◌, length, IfOk, IfErr, IfSome, OnOk};
ghost use Rattle.std.specs.Io.KnownBytes.{Consumes, IsAtEnd};
ghost use Rattle.octets.specs.Requests.{WasRefused};
ghost use Rattle.octets_tool.specs.Limits.{most_input};
ghost use Rattle.octets_tool.specs.Streams.{ReadsMoreThan, WritesOutput};

use crate::arguments::Task;
use crate::commands;
use crate::fault::RunFault;
use crate::output::Status;
use crate::reading::read_whole;
use std::alloc::Global;
use std::io::{Read, Write};

/// Runs a command: it reads the whole input, up to the reader's end, then makes the whole output,
/// and then writes the output. So nothing is written before it is known that the command has an
/// output.
///
/// What the contract says of the bytes holds for a reader and a writer whose bytes are known to
/// contracts, as those in memory are. It says nothing of a file or a terminal.
pub fn run<R: Read, W: Write>(
    alloc: Global,
    task: Task,
    reader: &mut R,
    writer: &mut W,
) -> Result<Status, RunFault>
    ensures ended { OnOk result (IsAtEnd (R.remaining reader.new)) }

    // The whole input was read: no byte of the reader remains.
    ensures used_up { OnOk result (IfSome (R.remaining reader.old)
        (Consumes (R.remaining reader.old) (R.remaining reader.new))) }
    ensures within { OnOk result (IfSome (R.remaining reader.old) (λ input.
        length input ≤ most_input)) }
    ensures output { IfOk result (λ status. IfSome (R.remaining reader.old) (λ input.
        WritesOutput task input status (W.contents writer.old) (W.contents writer.new))) }

    // Nothing was written, unless the write failed.
    ensures unwritten { IfErr result (λ fault. fault ≢ RunFault.Write → writer.new ≡ writer.old) }
    ensures too_long { result ≡ Err RunFault.TooLong
        → ReadsMoreThan most_input (R.remaining reader.old) (R.remaining reader.new) }

    // An allocation is reported to have failed only if a request for memory was refused.
    ensures memory { result ≡ Err RunFault.Memory → WasRefused }
{
    let input = read_whole(alloc, reader)?;
    let output = commands::output(alloc, task, &input)?;
    match writer.write_all(output.text.as_bytes()) {
        Ok(()) => Ok(output.status),
        Err(_) => Err(RunFault::Write),
    }
}
