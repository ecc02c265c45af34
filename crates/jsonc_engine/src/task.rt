//! What a command asks for, once its words are read.
ghost use Rattle.std.specs.Prelude.{◌≡◌, IfErr, IfOk};
ghost use Rattle.jsonc_text.specs.Options.{Options};
ghost use Rattle.jsonc_text.specs.OptionsOf.{parse_options};
ghost use Rattle.jsonc_engine.specs.Argument.{IsFaultOfArgument};
ghost use Rattle.jsonc_engine.specs.Change.{IsTaskFor, IsWorkFor};
ghost use Rattle.jsonc_engine.specs.Command.{request_of, value_at};
ghost use Rattle.jsonc_engine.specs.declared.task.Task.TheVariants.{OnDocument};
ghost use Rattle.jsonc_engine.specs.declared.task.Work.TheVariants.{Make};

use crate::argument::{argument_of, pointer_of, put_of, read_path};
use crate::command::{Command, Place};
use crate::fault::Fault;
use crate::patching::{merge_patch_of, patch_of};
use jsonc_parser::ParseOptions;
use jsonc_parser::cst::CstInputValue;
use jsonc_parser::patch::{Patch, Pointer};
use std::alloc::Allocator;

/// What a command makes of the document.
#[derive(Drop)]
pub(crate) enum Change<'a, A: Allocator> {
    /// The first property of the name gets the value, or such a property is inserted after the last.
    Set(&'a str, CstInputValue<A>),
    /// The value is inserted after the last element.
    Append(CstInputValue<A>),
    /// The first property of the name is removed.
    Remove(&'a str),
    /// The properties are sorted by their names as they are written.
    Sort,
    /// The value is put at the names.
    Put(Vec<String<A>, A>, CstInputValue<A>),
    /// What is at the names is dropped.
    Drop(Vec<String<A>, A>),
}

/// What is written of the document.
#[derive(Drop)]
pub(crate) enum Work<'a, A: Allocator> {
    /// The document, with this change made.
    Make(Change<'a, A>),
    /// The value at the names.
    Get(Vec<String<A>, A>),
    /// The value that the pointer refers to.
    Find(Pointer<A>),
    /// The document, with the operations made, after each of which its text has at most so many bytes.
    Apply(Patch<A>, usize),
    /// The document, with the patch merged into it.
    Merge(CstInputValue<A>),
}

/// What is written of the input. No document is made but for work on it.
#[derive(Drop)]
pub(crate) enum Task<'a, A: Allocator> {
    /// Its text as it is, where that is a document.
    Stay,
    /// Its text as JSON.
    Json,
    /// What this is of its document.
    OnDocument(Work<'a, A>),
}

/// The value at a place.
fn look_of<'a, A: Allocator + Copy>(alloc: A, place: Place<'_>) -> Result<Work<'a, A>, Fault<A>>
    ensures work { (o : Options) → IfOk result (IsWorkFor o (value_at place.entry)) }
    ensures refused { (o : Options) → IfErr result (IsFaultOfArgument o (value_at place.entry)) }
{
    match place {
        Place::Names(path) => match read_path(alloc, path) {
            Ok(names) => Ok(Work::Get(names)),
            Err(fault) => Err(fault),
        },
        Place::Pointer(text) => match pointer_of(alloc, text) {
            Ok(pointer) => Ok(Work::Find(pointer)),
            Err(fault) => Err(fault),
        },
    }
}

/// The document with a change made, as a task.
fn making<'a, A: Allocator>(change: Change<'a, A>) -> Task<'a, A>
    ensures { result ≡ OnDocument (Make change.entry) }
{
    Task::OnDocument(Work::Make(change))
}

/// What the command asks for, with the names of its path, the value of its JSON text, its pointer, or its patch, which is
/// read under the options.
pub(crate) fn task_of<'a, A: Allocator + Copy>(
    alloc: A,
    options: &ParseOptions,
    command: Command<'a>,
) -> Result<Task<'a, A>, Fault<A>>
    ensures task { IfOk result (IsTaskFor (parse_options options.now) (request_of command.entry)) }
    ensures refused { IfErr result (IsFaultOfArgument (parse_options options.now) (request_of command.entry)) }
{
    match command {
        Command::Check => Ok(Task::Stay),
        Command::Print => Ok(Task::Stay),
        Command::Set { name, json } => Ok(making(Change::Set(name, argument_of(alloc, json)?))),
        Command::Append { json } => Ok(making(Change::Append(argument_of(alloc, json)?))),
        Command::Remove { name } => Ok(making(Change::Remove(name))),
        Command::Sort => Ok(making(Change::Sort)),
        Command::Get { place } => Ok(Task::OnDocument(look_of(alloc, place)?)),
        Command::Put { names, json } => Ok(making(put_of(alloc, names, json)?)),
        Command::Drop { names } => Ok(making(Change::Drop(read_path(alloc, names)?))),
        Command::Patch { text, most } => {
            let patch = patch_of(alloc, options, text)?;
            Ok(Task::OnDocument(Work::Apply(patch, most)))
        }
        Command::Merge { text } => {
            let patch = merge_patch_of(alloc, options, text)?;
            Ok(Task::OnDocument(Work::Merge(patch)))
        }
        Command::Json => Ok(Task::Json),
    }
}
