//! Makes one call on a text again and again, for whoever times the process: `docs/proofs/SPEED.md`.
//!
//! The words are the name of the call and how often to make it, the text is standard input, and the
//! sum of what the calls answered is written.
#![tactic(auto)]

mod call;
mod documents;
mod edits;
mod patches;

use call::Call;
use jsonc_engine::fault::Fault;
use std::alloc::Global;
use std::env::Env;
use std::io::Read;
use std::process::ExitCode;
use std::{env, io};

/// The call, and how often to make it, that the process's arguments name.
fn asked<R: Env + AllocGlobal>(rt: &R) -> Result<(Call, u64), Fault<Global>> {
    let Ok(arguments) = env::args(rt) else {
        return Err(Fault::Usage);
    };
    let words: Vec<String> = arguments.skip(1).collect(rt.alloc())?;
    let [call, count] = words.as_slice() else {
        return Err(Fault::Usage);
    };
    let Some(call) = Call::from_word(call.as_str()) else {
        return Err(Fault::Usage);
    };
    let Ok(count) = count.as_str().parse::<u64>() else {
        return Err(Fault::Usage);
    };
    Ok((call, count))
}

fn run<R: Env + AllocGlobal + Input + Print>(rt: &R) -> Result<(), Fault<Global>> {
    let (call, count) = asked(rt)?;
    let mut input = Vec::new(rt.alloc());
    let Ok(_) = rt.reader().read_to_end(&mut input) else {
        return Err(Fault::Read);
    };
    input.shrink_to_fit();
    let sum = call.repeat(rt.alloc(), input.as_slice(), count)?;
    let Ok(()) = println!(rt; "{sum}") else {
        return Err(Fault::Write);
    };
    Ok(())
}

fn main(rt: HostRuntime) -> ExitCode {
    match run(&rt) {
        Ok(()) => ExitCode::SUCCESS,
        Err(fault) => {
            // Where standard error fails too, the status alone tells.
            let _ = eprintln!(rt; "{fault}");
            ExitCode::from(fault.status())
        }
    }
}
