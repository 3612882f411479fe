//! The commands. Each computes the whole output from the input.
ghost use Rattle.std.specs.Prelude.{◌≤◌, length};
ghost use Rattle.octets_tool.specs.Limits.{most_input};
ghost use Rattle.octets_tool.specs.Output.{IsOutput, shown};
ghost use Rattle.octets_tool.specs.Requests.{OrRefused};

use crate::arguments::Task;
use crate::output::Output;
use std::alloc::{AllocError, Global};

mod decode_command;
mod encode_command;
mod literal_command;
mod packet_command;
mod script_command;

/// Returns the output of a task for an input.
#[tactic(auto, unfolding(octets::specs::Encodes::cased))]
pub fn output(alloc: Global, task: Task, input: &[u8]) -> Result<Output, AllocError>
    requires { length input.now ≤ most_input }
    ensures { OrRefused result (λ output. IsOutput task input.now (shown output)) }
{
    match task {
        Task::Packet => packet_command::output(alloc, input),
        Task::Packet2 => packet_command::output2(alloc, input),
        Task::Encode => encode_command::output::<false>(alloc, input),
        Task::EncodeLower => encode_command::output::<true>(alloc, input),
        Task::Decode(limit) => decode_command::output(alloc, limit, input),
        Task::Literal(limit) => literal_command::output(alloc, limit, input),
        Task::Script => script_command::output(alloc, input),
    }
}
