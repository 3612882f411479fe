//! The function that performs a list of commands in order.
ghost use Rattle.std.specs.Prelude.{◌≡◌, ◌<◌, length, take, map, slice_get};
ghost use Rattle.std.specs.Prelude.{vec_len, IfSome, IfOk, IfErr, OnErr};
ghost use Rattle.octets.specs.Cursor.{bytes, position};
ghost use Rattle.octets.specs.Slices.{reference};
ghost use Rattle.octets_script.specs.Calls.{call_of, answer_of};
ghost use Rattle.octets.specs.Requests.{WasRefused};
ghost use Rattle.octets_script.specs.Plays.{Plays, NeedsRoom};

use crate::command::Command;
use crate::memory::list_of;
use crate::perform::perform;
use crate::reply::{Reply, Stopped};
use octets::OctetsMut;
use std::alloc::Global;

/// Performs the commands in order on the cursor, and returns one reply for each.
///
/// The memory for the list of replies is allocated first. The run stops early only if an allocation
/// fails. The cursor is then as it was after the commands that were performed, so that the rest can
/// be run later.
pub fn run(
    alloc: Global,
    cursor: &mut OctetsMut<'_>,
    commands: &[Command],
) -> Result<Vec<Reply>, Stopped>
    // The replies to all commands, and what they leave.
    ensures plays { IfOk result (λ rs.
        Plays (map call_of commands.now) (bytes cursor.old) (position cursor.old)
        (map answer_of rs.items) (bytes cursor.new) (position cursor.new)) }

    // If the run stopped, the same for the commands that were performed.
    ensures stopped { IfErr result (λ s.
        Plays (map call_of (take s.done commands.now)) (bytes cursor.old) (position cursor.old)
        (map answer_of s.replies.items) (bytes cursor.new) (position cursor.new)) }
    ensures some_left { IfErr result (λ s. s.done < length commands.now) }
    ensures counted { IfErr result (λ s. s.done ≡ vec_len s.replies) }

    // If the run stopped after the first command, the next command needed memory.
    ensures needs_room { IfErr result (λ s. 0 < s.done →
        IfSome (slice_get commands.now s.done)
        (λ c. NeedsRoom (call_of c) (bytes cursor.new) (position cursor.new))) }

    // It stopped because a request for memory was refused.
    ensures memory { OnErr result WasRefused }
    ensures same_reference { reference cursor.new ≡ reference cursor.old }
{
    let mut replies = match list_of(alloc, commands.len()) {
        Ok(replies) => replies,
        Err(_) => return Err(Stopped {
            replies: Vec::new(alloc),
            done: 0,
        }),
    };
    for (done, command) in commands.iter().enumerate() {
        match perform(alloc, cursor, command) {
            Ok(reply) => replies.push_reserved(reply),
            Err(_) => return Err(Stopped { replies, done }),
        }
    }
    Ok(replies)
}
