//! What is asked of a text: a command of the program `jsonc`, its words as bytes.
ghost use Rattle.std.specs.Prelude.{◌≡◌, ◌≤◌, IfErr, IfOk, IfSome, IsUtf8, MatchOption, OnOk, string_bytes, true};
ghost use Rattle.std.specs.declared.alloc.Global.{Global};
ghost use Rattle.jsonc_engine.specs.Command.{request_of, writes};
ghost use Rattle.jsonc_engine.specs.Input.{IsInputOf};
ghost use Rattle.jsonc_engine.specs.Output.{IsLeft};
ghost use Rattle.jsonc_c.specs.Commands.{HasNoText, IsRefused, asked_of};
ghost use Rattle.jsonc_c.specs.Options.{options_of};
ghost use Rattle.jsonc_c.specs.Told.{TellsOfTexts, no_fault};

use crate::fault::{JsoncFault, OTHER, WORD_NOT_UTF8, no_fault, tell};
use crate::options::options_of;
use jsonc_engine::command::{Command, Place};
use jsonc_engine::engine::run_with;
use std::alloc::Global;

/// A command that writes, with its words.
#[derive(Clone, Copy)]
pub(crate) enum Asked<'a> {
    Print,
    Set(&'a [u8], &'a [u8]),
    Append(&'a [u8]),
    Remove(&'a [u8]),
    Sort,
    Get(&'a [u8]),
    Put(&'a [u8], &'a [u8]),
    Drop(&'a [u8]),
}

/// A word, if it is UTF-8.
fn word(bytes: &[u8]) -> Option<&str>
    ensures { MatchOption result (¬ (IsUtf8 bytes.now)) (λ word. word.now ≡ bytes.now) }
{
    str::from_utf8(bytes).ok()
}

/// The command, if its words are UTF-8.
fn command_of<'a>(asked: Asked<'a>) -> Option<Command<'a>>
    ensures read { MatchOption result (HasNoText (asked_of asked.entry))
        (λ command. request_of command ≡ asked_of asked.entry) }
    ensures writes { IfSome result (λ command. writes (request_of command) ≡ true) }
{
    Some(match asked {
        Asked::Print => Command::Print,
        Asked::Set(name, json) => Command::Set {
            name: word(name)?,
            json: word(json)?,
        },
        Asked::Append(json) => Command::Append { json: word(json)? },
        Asked::Remove(name) => Command::Remove { name: word(name)? },
        Asked::Sort => Command::Sort,
        Asked::Get(path) => Command::Get {
            place: Place::Names(word(path)?),
        },
        Asked::Put(path, json) => Command::Put {
            names: word(path)?,
            json: word(json)?,
        },
        Asked::Drop(path) => Command::Drop { names: word(path)? },
    })
}

/// What the command writes of a text.
#[tactic(auto, using(crate::proofs::Telling::tells_none, crate::proofs::Telling::tells_of))]
pub(crate) fn written(
    alloc: Global,
    asked: Asked,
    text: &[u8],
    options: u32,
    fault: &mut JsoncFault,
) -> Result<String, u32>
    ensures written { IfOk result
        (λ made. IsLeft Global (options_of options) (asked_of asked.entry) text.now (string_bytes made)) }
    ensures accepted { OnOk result (IsInputOf (options_of options) text.now) }
    ensures status { IfErr result (λ status. 1 ≤ status) }
    ensures other { IfErr result (λ status. ¬ (status ≡ 17)) }
    ensures words { IfErr result (λ status. status ≡ 2 → HasNoText (asked_of asked.entry)) }
    ensures refused { IfErr result (λ status. 3 ≤ status →
        IsRefused (options_of options) (asked_of asked.entry) text.now status fault.new) }
    ensures untold { OnOk result (fault.new ≡ no_fault) }
    ensures told { IfErr result (λ status. TellsOfTexts status fault.new) }
{
    *fault = no_fault();
    let Some(command) = command_of(asked) else {
        return Err(WORD_NOT_UTF8);
    };
    match run_with(alloc, &options_of(options), command, text) {
        Ok(Some(made)) => Ok(made),
        // (the command writes)
        Ok(None) => Err(OTHER),
        Err(told) => Err(tell(alloc, &told, fault)),
    }
}
