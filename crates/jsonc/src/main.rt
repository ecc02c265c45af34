//! Checks, reads and changes JSON with comments: `jsonc COMMAND`, on files or on standard input.
#![tactic(auto)]

mod findings;
mod in_place;
mod inputs;
mod layouts;
mod mends;
mod runs;
mod telling;
mod work;

use crate::runs::run_call;
use jsonc_words::arguments::{ArgumentsFault, arguments};
use jsonc_words::read_words;
use std::process::ExitCode;

/// Runs on the process's arguments, and answers the status. Where standard error fails too, the status alone tells.
fn run(rt: &HostRuntime) -> u8 {
    let arguments = match arguments(rt) {
        Ok(arguments) => arguments,
        Err(fault) => {
            let _ = eprintln!(rt; "jsonc: {fault}");
            return match fault {
                ArgumentsFault::OutOfMemory => 1,
                ArgumentsFault::NotUtf8(_) => 2,
            };
        }
    };
    let mut words = Vec::new(rt.alloc());
    for argument in arguments.iter() {
        if words.push(argument.as_str()).is_err() {
            let _ = eprintln!(rt; "jsonc: Out of memory");
            return 1;
        }
    }
    match read_words(rt.alloc(), words.as_slice()) {
        Ok(call) => run_call(rt, &call),
        Err(reply) => {
            let _ = reply.print(rt);
            reply.status()
        }
    }
}

fn main(rt: HostRuntime) -> ExitCode {
    ExitCode::from(run(&rt))
}
