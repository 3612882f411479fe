//! Reads of the whole input.
ghost use Rattle.std.specs.Prelude.{◌≡◌, ◌≢◌, ◌<◌, ◌≤◌, length, take, vec_len, IfOk, IfErr, OnOk};
ghost use Rattle.std.specs.Io.KnownBytes.{Consumes, IsAtEnd};
ghost use Rattle.octets_tool.specs.Limits.{most_input};
ghost use Rattle.octets_tool.specs.Streams.{ReadsMoreThan};
ghost use Rattle.octets.specs.Requests.{WasRefused};

use crate::fault::RunFault;
use crate::memory::zeros;
use std::alloc::Global;
use std::io::Read;

/// The greatest length of an input in bytes.
pub const MOST_INPUT: usize = 65_536;

/// The greatest number of calls of the reader, so that the end of the loop doesn't depend on the
/// reader. 65,538 iterations are enough: each except the last reads at least one byte, 65,537 bytes
/// fill the buffer, and the iteration after that returns an error.
const MOST_READS: u32 = 70_000;

/// Reads up to the end of the reader. The only allocation comes before the first read.
pub fn read_whole<R: Read>(alloc: Global, reader: &mut R) -> Result<Vec<u8>, RunFault>
    ensures whole { IfOk result (λ input.
        Consumes (R.remaining reader.old) (R.remaining reader.new) input.items) }
    ensures ended { OnOk result (IsAtEnd (R.remaining reader.new)) }
    ensures within { IfOk result (λ input. vec_len input ≤ most_input) }
    ensures too_long { result ≡ Err RunFault.TooLong
        → ReadsMoreThan most_input (R.remaining reader.old) (R.remaining reader.new) }
    ensures reading_alone { IfErr result (λ fault. fault ≢ RunFault.Write) }
    ensures memory { result ≡ Err RunFault.Memory → WasRefused }
{
    // One more byte than an input may have, so that a full buffer means that the input is too long.
    let mut buffer = zeros(alloc, MOST_INPUT + 1)?;
    let filled = fill(reader, &mut buffer)?;
    buffer.truncate(filled);
    Ok(buffer)
}

/// Reads into the buffer up to the end of the reader, and returns how many bytes were read. It
/// fails if the buffer is full before the end.
#[tactic(auto, using(crate::proofs::Filling::consumed))]
fn fill<R: Read>(reader: &mut R, buffer: &mut [u8]) -> Result<usize, RunFault>
    ensures within { IfOk result (λ filled. filled < length buffer.new) }
    ensures whole { IfOk result (λ filled.
        Consumes (R.remaining reader.old) (R.remaining reader.new) (take filled buffer.new)) }
    ensures ended { OnOk result (IsAtEnd (R.remaining reader.new)) }
    ensures too_long { result ≡ Err RunFault.TooLong
        → Consumes (R.remaining reader.old) (R.remaining reader.new) buffer.new }
    ensures reading_alone { IfErr result (λ fault. fault ≢ RunFault.Write) }
    ensures no_memory { IfErr result (λ fault. fault ≢ RunFault.Memory) }
{
    let mut filled = 0;
    for _ in 0..MOST_READS {
        if filled == buffer.len() {
            return Err(RunFault::TooLong);
        }
        match reader.read(&mut buffer[filled..]) {
            Ok(0) => return Ok(filled),
            Ok(count) => filled += count,
            Err(_) => return Err(RunFault::Read),
        }
    }
    Err(RunFault::Read)
}
