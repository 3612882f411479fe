//! A program for the command line, for packets, Huffman-encoded strings and scripts of cursor
//! calls.
#![tactic(auto)]

mod arguments;
mod commands;
mod cut;
mod decimal;
mod ending;
mod fault;
mod hex;
mod hex_word;
mod laws;
mod memory;
mod output;
mod packet;
mod reading;
mod reply_line;
mod run;
mod script;
#[cfg(test)]
mod tests;

use crate::arguments::parse_args;
use crate::ending::ending;
use crate::run::run;
use std::env;
use std::process::ExitCode;
use std::rt::Env;

fn main(rt: HostRuntime) -> ExitCode {
    let task = words(&rt).and_then(|words| parse_args(&words));
    let answer = task.map(|task| run(rt.alloc(), task, &mut rt.stdin(), &mut rt.stdout()));
    let (status, line) = ending(answer);
    if !line.is_empty() {
        // If this fails, the status still tells that the program did.
        let _ = eprintln!(rt; "{line}");
    }
    ExitCode::from(status)
}

/// Returns the words after the program's name, if they can be read: each must be a text, and their
/// allocation must succeed.
fn words<R: Env + AllocGlobal>(rt: &R) -> Option<Vec<String>> {
    env::args(rt).ok()?.skip(1).collect(rt.alloc()).ok()
}
