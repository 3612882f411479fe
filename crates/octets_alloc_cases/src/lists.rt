//! Lists of calls. If a run stops, the rest of its list is run after it.

use crate::print;
use octets::OctetsMut;
use octets_script::{Command, Stopped, run};
use octets_vectors::scripts::replies;
use std::io;

/// Runs `Buf`, `SplitAt(1, [], [09])`, `GetBytes(1)` and `ToVec` on 1f 02 03.
pub fn four<R: Print + AllocGlobal>(rt: &R) -> io::Result<()> {
    let Ok(nine) = Vec::from_slice(rt.alloc(), &[9]) else {
        return print::line(rt, "no list");
    };
    let commands = [
        Command::Buf,
        Command::SplitAt(1, Vec::new(rt.alloc()), nine),
        Command::GetBytes(1),
        Command::ToVec,
    ];
    perform(rt, &mut OctetsMut::with_slice(&mut [0x1f, 2, 3]), &commands)
}

/// Runs the other ten commands that allocate memory, on 01 07, 00 01 08, 01 09, 05 and 1f.
pub fn ten<R: Print + AllocGlobal>(rt: &R) -> io::Result<()> {
    let commands = [
        Command::GetBytesU8,
        Command::GetBytesU16,
        Command::GetBytesVarint,
        Command::PeekBytes(1),
        Command::PeekBytesMut(1, Vec::new(rt.alloc())),
        Command::Slice(1, Vec::new(rt.alloc())),
        Command::SliceLast(1, Vec::new(rt.alloc())),
        Command::AsMut(Vec::new(rt.alloc())),
        Command::GetBytesMut(1, Vec::new(rt.alloc())),
        Command::Decode(1),
    ];
    let mut bytes = [1, 7, 0, 1, 8, 1, 9, 5, 0x1f];
    perform(rt, &mut OctetsMut::with_slice(&mut bytes), &commands)
}

/// Runs commands on 09 09 09 that each fail as too short. The first passes a byte, and those after
/// a length pass the length if it is complete.
pub fn short<R: Print + AllocGlobal>(rt: &R) -> io::Result<()> {
    let commands = [
        Command::Decode(0),
        Command::GetBytes(3),
        Command::PeekBytes(3),
        Command::PeekBytesMut(3, Vec::new(rt.alloc())),
        Command::GetBytesMut(3, Vec::new(rt.alloc())),
        Command::Slice(3, Vec::new(rt.alloc())),
        Command::SliceLast(3, Vec::new(rt.alloc())),
        Command::SplitAt(4, Vec::new(rt.alloc()), Vec::new(rt.alloc())),
        Command::GetBytesU8,
        Command::GetBytesU16,
        Command::GetBytesVarint,
    ];
    perform(rt, &mut OctetsMut::with_slice(&mut [9, 9, 9]), &commands)
}

/// Runs no commands, on 1f 02 03.
pub fn none<R: Print + AllocGlobal>(rt: &R) -> io::Result<()> {
    perform(rt, &mut OctetsMut::with_slice(&mut [0x1f, 2, 3]), &[])
}

/// Calls only `replies`, with one command, `ToVec`.
pub fn replies_alone<R: Print + AllocGlobal>(rt: &R) -> io::Result<()> {
    print::answer(
        rt,
        &replies(rt.alloc(), &mut [0x1f, 2, 3], &[Command::ToVec]),
    )
}

/// Prints the replies of a run that stopped, and how many commands were performed.
fn print_stopped<R: Print>(rt: &R, stopped: &Stopped) -> io::Result<()> {
    println!(rt; "{:?} done {}", stopped.replies, stopped.done)
}

/// Performs the commands. If the run stops, it prints how, and then performs the rest.
fn perform<R: Print + AllocGlobal>(
    rt: &R,
    cursor: &mut OctetsMut<'_>,
    commands: &[Command],
) -> io::Result<()> {
    match run(rt.alloc(), cursor, commands) {
        Ok(replies) => print::answer(rt, &replies)?,
        Err(stopped) => {
            print_stopped(rt, &stopped)?;
            print::answer_at(rt, &cursor.buf(), cursor.off())?;
            match run(rt.alloc(), cursor, &commands[stopped.done..]) {
                Ok(replies) => print::answer(rt, &replies)?,
                Err(again) => print_stopped(rt, &again)?,
            }
        }
    }
    print::answer_at(rt, &cursor.buf(), cursor.off())
}
