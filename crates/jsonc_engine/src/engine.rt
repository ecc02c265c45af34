//! One run of the program, over any source and sink.
ghost use Rattle.std.specs.Prelude.{◌≡◌, ◌<◌, ◌+◌, ◌++◌, length, vec_capacity, vec_len, string_bytes, IsTrue, false};
ghost use Rattle.std.specs.Prelude.{IfSome, IfOk, IfErr, OnOk, OnErr, IsErrOf, IsUtf8};
ghost use Rattle.std.specs.Io.KnownBytes.{Appends, Keeps};
ghost use Rattle.jsonc_text.specs.Options.{Options};
ghost use Rattle.jsonc_sound.specs.SoundTrees.{SoundTree};
ghost use Rattle.jsonc_cst.specs.Document.{tree_of};
ghost use Rattle.jsonc_engine.specs.Argument.{IsReady};
ghost use Rattle.jsonc_engine.specs.Calls.{one_more};
ghost use Rattle.jsonc_engine.specs.Change.{IsChangeFor, IsTaskFor, IsWorkFor};
ghost use Rattle.jsonc_engine.specs.Command.{Request, as_json, request_of, writes};
ghost use Rattle.jsonc_engine.specs.Fault.{EndsBehindInput, EndsRun, EndsUnread, IsBeforeOrForMemory, IsCause, IsFaultOn};
ghost use Rattle.jsonc_engine.specs.Fault.{IsNoText, TellsOfArgument, TellsOfInput};
ghost use Rattle.jsonc_engine.specs.Input.{IsInput, IsInputOf};
ghost use Rattle.jsonc_engine.specs.Output.{IsLeft, IsWritten, IsWrittenBy, Puts, made_bytes, output_bytes, written_bytes};
ghost use Rattle.jsonc_engine.specs.Parser.{all_on, parse_options, printed_of, HasNoDeeperValue, LiesIn};

use crate::calls::{Sink, Source};
use crate::command::Command;
use crate::edit::make;
use crate::fault::Fault;
use crate::find::find_value;
use crate::json::{JsonError, to_json};
use crate::output::{Made, Output, Written};
use crate::patching::{merged, patched};
use crate::settings::get_setting;
use crate::task::{Change, Task, Work, task_of};
use jsonc_parser::cst::{CstRootNode, EditError};
use jsonc_parser::{ParseOptions, check_document, line_and_column};
use std::alloc::{AllocError, Allocator};

const BUFFER_LEN: usize = 65536;

/// Room for one read.
fn make_buffer<A: Allocator>(alloc: A) -> Result<Vec<u8, A>, AllocError>
    ensures { IfOk result (λ buffer. 0 < vec_len buffer) }
{
    Vec::from_elem(alloc, 0u8, BUFFER_LEN)
}

/// Reads the source to its end, behind what was read before.
///
/// A read of no bytes is the last one, and only that ends it, or a failed read, or the allocation failure where the room
/// that there was does not hold what was read and one read more. Reads of no bytes and failed ones are counted, and
/// any read may be one of them, so none is made behind one.
fn read_on<A: Allocator, S: Source>(
    source: &mut S,
    buffer: &mut [u8],
    read: &mut Vec<u8, A>,
) -> Result<(), Fault<A>>
    requires { 0 < length buffer.old }
    ensures bytes { OnOk result (IfSome (S.remaining source.old) (λ input. read.new.items ≡ read.old.items ++ input)) }
    ensures ended { OnOk result (S.empty_reads source.new ≡ one_more (S.empty_reads source.old)) }
    ensures not_ended { OnErr result (S.empty_reads source.new ≡ S.empty_reads source.old) }
    ensures failed { IsErrOf result Fault.Read
        → S.failed_reads source.new ≡ one_more (S.failed_reads source.old) }
    ensures kept { ¬ (IsErrOf result Fault.Read) → S.failed_reads source.new ≡ S.failed_reads source.old }
    ensures causes { OnErr result (¬ (IsErrOf result Fault.Read)
        → IsErrOf result (Fault.Edit EditError.OutOfMemory)) }
    ensures full { IsErrOf result (Fault.Edit EditError.OutOfMemory)
        → vec_capacity read.old < vec_len read.new + length buffer.old }
{
    // Each of these reads gives a byte or ends it.
    for _done in 0..u64::MAX {
        let Ok(count) = source.read(buffer) else {
            return Err(Fault::Read);
        };
        if count == 0 {
            return Ok(());
        }
        let Ok(()) = read.extend_from_slice(&buffer[..count]) else {
            return Err(Fault::Edit(EditError::OutOfMemory));
        };
    }
    // So many bytes fit in no memory.
    Err(Fault::Edit(EditError::OutOfMemory))
}

/// All that the source has left.
pub fn read_whole<A: Allocator + Copy, S: Source>(
    alloc: A,
    source: &mut S,
) -> Result<Vec<u8, A>, Fault<A>>
    ensures bytes { IfOk result (λ read. IfSome (S.remaining source.old) (λ input. read.items ≡ input)) }
    ensures ended { OnOk result (S.empty_reads source.new ≡ one_more (S.empty_reads source.old)) }
    ensures not_ended { OnErr result (S.empty_reads source.new ≡ S.empty_reads source.old) }
    ensures failed { IsErrOf result Fault.Read
        → S.failed_reads source.new ≡ one_more (S.failed_reads source.old) }
    ensures kept { ¬ (IsErrOf result Fault.Read) → S.failed_reads source.new ≡ S.failed_reads source.old }
    ensures causes { OnErr result (¬ (IsErrOf result Fault.Read)
        → IsErrOf result (Fault.Edit EditError.OutOfMemory)) }
{
    let mut buffer = make_buffer(alloc)?;
    let mut read = Vec::new(alloc);
    match read_on(source, buffer.as_mut_slice(), &mut read) {
        Ok(()) => Ok(read),
        Err(fault) => Err(fault),
    }
}

/// Sees that what was written has left.
fn finish<A: Allocator, K: Sink>(sink: &mut K) -> Result<(), Fault<A>>
    ensures bytes { OnOk result (Keeps (K.contents sink.old) (K.contents sink.new)) }
    ensures flushed { OnOk result (K.is_flushed sink.new) }
    ensures kept { OnOk result (K.failed_writes sink.new ≡ K.failed_writes sink.old) }
    ensures cause { OnErr result (IsErrOf result Fault.Write) }
    ensures failed { OnErr result (K.failed_writes sink.new ≡ one_more (K.failed_writes sink.old)) }
{
    match sink.flush() {
        Ok(()) => Ok(()),
        Err(_) => Err(Fault::Write),
    }
}

/// Writes the document piece by piece, and sees that it has left.
///
/// The first write that fails is told, and as each may fail none is made behind it, and no flush.
fn write_document<A: Allocator, K: Sink>(
    sink: &mut K,
    document: &CstRootNode<A>,
) -> Result<(), Fault<A>>
    ensures written { OnOk result (Appends (K.contents sink.old) (K.contents sink.new) (printed_of document.now)) }
    ensures flushed { OnOk result (K.is_flushed sink.new) }
    ensures kept { OnOk result (K.failed_writes sink.new ≡ K.failed_writes sink.old) }
    ensures cause { OnErr result (IsErrOf result Fault.Write) }
    ensures failed { OnErr result (K.failed_writes sink.new ≡ one_more (K.failed_writes sink.old)) }
{
    for piece in document.pieces() {
        let Ok(()) = sink.write(piece) else {
            return Err(Fault::Write);
        };
    }
    finish(sink)
}

/// Writes a text, and sees that it has left.
fn write_text<A: Allocator, K: Sink>(sink: &mut K, text: &str) -> Result<(), Fault<A>>
    ensures written { OnOk result (Appends (K.contents sink.old) (K.contents sink.new) text.now) }
    ensures flushed { OnOk result (K.is_flushed sink.new) }
    ensures kept { OnOk result (K.failed_writes sink.new ≡ K.failed_writes sink.old) }
    ensures cause { OnErr result (IsErrOf result Fault.Write) }
    ensures failed { OnErr result (K.failed_writes sink.new ≡ one_more (K.failed_writes sink.old)) }
{
    let Ok(()) = sink.write(text.as_bytes()) else {
        return Err(Fault::Write);
    };
    finish(sink)
}

/// The text of what is to be written. Memory is wanted for that of a document alone.
fn text_of<'a, A: Allocator + Copy>(made: Made<'a, A>) -> Result<Written<'a, A>, Fault<A>>
    ensures printed { IfOk result (λ written. written_bytes written ≡ made_bytes made.entry) }
    ensures memory { IfErr result (λ fault. fault ≡ Fault.Edit EditError.OutOfMemory) }
{
    match made {
        Made::Same(text) => Ok(Written::Input(text)),
        Made::Other(Output::Document(document)) => match document.text() {
            Ok(text) => Ok(Written::Text(text)),
            Err(_) => Err(Fault::Edit(EditError::OutOfMemory)),
        },
        Made::Other(Output::Text(text)) => Ok(Written::Text(text)),
    }
}

/// Writes what is to be written, a document piece by piece.
fn write_made<A: Allocator, K: Sink>(sink: &mut K, made: &Made<'_, A>) -> Result<(), Fault<A>>
    ensures written { OnOk result (Appends (K.contents sink.old) (K.contents sink.new) (made_bytes made.now)) }
    ensures flushed { OnOk result (K.is_flushed sink.new) }
    ensures kept { OnOk result (K.failed_writes sink.new ≡ K.failed_writes sink.old) }
    ensures cause { OnErr result (IsErrOf result Fault.Write) }
    ensures failed { OnErr result (K.failed_writes sink.new ≡ one_more (K.failed_writes sink.old)) }
{
    match made {
        Made::Same(text) => write_text(sink, text),
        Made::Other(Output::Document(document)) => write_document(sink, document),
        Made::Other(Output::Text(text)) => write_text(sink, text.as_str()),
    }
}

/// The document with a change made, to be written.
///
/// The change may be refused as its page says.
fn changed<A: Allocator + Copy>(
    document: CstRootNode<A>,
    change: Change<'_, A>,
) -> Result<Output<A>, Fault<A>>
    ensures left { (o : Options) (request : Request)
        → IsChangeFor request change.entry
        → SoundTree o (tree_of document) → LiesIn o (printed_of document) (tree_of document)
        → HasNoDeeperValue o (printed_of document)
        → IfOk result (λ output. IsLeft A o request (printed_of document) (output_bytes output)) }
    ensures refused { (o : Options) (request : Request)
        → IsChangeFor request change.entry
        → SoundTree o (tree_of document)
        → IfErr result (IsFaultOn o request (printed_of document)) }
{
    let mut document = document;
    match make(&mut document, change) {
        Ok(()) => Ok(Output::Document(document)),
        Err(fault) => Err(fault),
    }
}

/// What is to be written of a document.
fn outcome_of<A: Allocator + Copy>(
    document: CstRootNode<A>,
    work: Work<'_, A>,
) -> Result<Output<A>, Fault<A>>
    ensures left { (o : Options) (request : Request)
        → IsWorkFor o request work.entry
        → SoundTree o (tree_of document) → LiesIn o (printed_of document) (tree_of document)
        → HasNoDeeperValue o (printed_of document)
        → IfOk result (λ output. IsLeft A o request (printed_of document) (output_bytes output)) }
    ensures refused { (o : Options) (request : Request)
        → IsWorkFor o request work.entry
        → SoundTree o (tree_of document)
        → IfErr result (IsFaultOn o request (printed_of document)) }
{
    match work {
        Work::Make(change) => changed(document, change),
        Work::Get(names) => get_setting(&document, &names),
        Work::Find(pointer) => find_value(&document, &pointer),
        Work::Apply(patch, most) => patched(document, &patch, most),
        Work::Merge(patch) => merged(document, &patch),
    }
}

/// What is to be written of the document of a text, given what that may hold beyond JSON.
fn done_with<'a, A: Allocator + Copy>(
    alloc: A,
    options: &ParseOptions,
    work: Work<'_, A>,
    text: &str,
) -> Result<Made<'a, A>, Fault<A>>
    ensures left { (request : Request)
        → IsWorkFor (parse_options options.now) request work.entry
        → IfOk result (λ made. IsLeft A (parse_options options.now) request text.now (made_bytes made)) }
    ensures accepted { OnOk result (IsInputOf (parse_options options.now) text.now) }
    ensures refused { (request : Request)
        → IsWorkFor (parse_options options.now) request work.entry
        → IfErr result (IsFaultOn (parse_options options.now) request text.now) }
{
    let document = match CstRootNode::parse(alloc, text, options) {
        Ok(document) => document,
        Err(error) => return Err(Fault::Input(error)),
    };
    match outcome_of(document, work) {
        Ok(output) => Ok(Made::Other(output)),
        Err(fault) => Err(fault),
    }
}

/// The document of a text as JSON, given what the text may hold beyond that.
fn json_of<'a, A: Allocator + Copy>(
    alloc: A,
    options: &ParseOptions,
    text: &str,
) -> Result<Made<'a, A>, Fault<A>>
    ensures left { IfOk result (λ made. IsLeft A (parse_options options.now) as_json text.now (made_bytes made)) }
    ensures accepted { OnOk result (IsInputOf (parse_options options.now) text.now) }
    ensures refused { IfErr result (IsFaultOn (parse_options options.now) as_json text.now) }
{
    match to_json(alloc, text, options) {
        Ok(written) => Ok(Made::Other(Output::Text(written))),
        Err(JsonError::Text(error)) => Err(Fault::Input(error)),
        Err(JsonError::NoValue) => Err(Fault::NoRoot),
        Err(JsonError::NonFinite(place)) => Err(Fault::NonFinite(line_and_column(text, place))),
        Err(JsonError::OutOfMemory) => Err(Fault::Edit(EditError::OutOfMemory)),
    }
}

/// A text as it is, where it is a document: it asks for no memory.
fn unchanged<'a, A: Allocator + Copy>(
    alloc: A,
    options: &ParseOptions,
    text: &'a str,
) -> Result<Made<'a, A>, Fault<A>>
    ensures left { IfOk result (λ made. made_bytes made ≡ text.now) }
    ensures accepted { OnOk result (IsInputOf (parse_options options.now) text.now) }
    ensures refused { (request : Request) → IfErr result (IsFaultOn (parse_options options.now) request text.now) }
{
    match check_document(alloc, text, options) {
        Ok(()) => Ok(Made::Same(text)),
        Err(error) => Err(Fault::Input(error)),
    }
}

/// What is to be written of the input's bytes, given what their text may hold beyond JSON.
///
/// The bytes may be refused as `Fault::NotUtf8` or `Fault::Input`, and the rest as its page says.
fn made_of<'a, A: Allocator + Copy>(
    alloc: A,
    options: &ParseOptions,
    task: Task<'_, A>,
    input: &'a [u8],
) -> Result<Made<'a, A>, Fault<A>>
    ensures left { (request : Request)
        → IsTaskFor (parse_options options.now) request task.entry
        → IfOk result (λ made. IsLeft A (parse_options options.now) request input.now (made_bytes made)) }
    ensures accepted { OnOk result (IsInputOf (parse_options options.now) input.now) }
    ensures not_utf8 { ¬ (IsUtf8 input.now) → IfErr result (λ fault. fault ≡ Fault.NotUtf8) }
    ensures refused { (request : Request)
        → IsTaskFor (parse_options options.now) request task.entry
        → IfErr result (IsFaultOn (parse_options options.now) request input.now) }
{
    let Ok(text) = str::from_utf8(input) else {
        return Err(Fault::NotUtf8);
    };
    match task {
        Task::Stay => unchanged(alloc, options, text),
        Task::Json => json_of(alloc, options, text),
        Task::OnDocument(work) => done_with(alloc, options, work, text),
    }
}

/// What the command writes, given the bytes of the input and what their text may hold beyond JSON, or `None` where
/// it writes nothing. The command's own path and JSON text may hold all that can be allowed, and a patch what the input
/// may.
///
/// A path may be refused as `Fault::Path` or `Fault::NotNames`, then that text as `Fault::Argument` or
/// `Fault::NoValue`; a pointer as `Fault::Pointer`, and a patch as `Fault::Patch` or `Fault::MergePatch`. Then the
/// bytes may be refused as `Fault::NotUtf8` or `Fault::Input`, a value that would be nested too deep as `Fault::Edit`,
/// the command as `Fault::NotObject`, `NotArray`, `NoSetting`, `NoSuchValue`, `OnTheWay`, `RepeatedName`, `Operation`,
/// `TooLarge`, `NoRoot` or `NonFinite`, and memory as `Fault::Edit`, or as the error of a parse. What is written, but
/// for a value that is got and JSON, `check` accepts.
///
/// `check` and `print` want no memory, and what `print` writes is the input itself, which is not copied.
pub fn written_by<'a, A: Allocator + Copy>(
    alloc: A,
    options: &ParseOptions,
    command: Command<'_>,
    input: &'a [u8],
) -> Result<Option<Written<'a, A>>, Fault<A>>
    ensures written { IfOk result (IsWrittenBy (parse_options options.now) (request_of command.entry) input.now) }
    ensures ready { OnOk result (IsReady (request_of command.entry)) }
    ensures accepted { OnOk result (IsInputOf (parse_options options.now) input.now) }
    ensures not_utf8 { ¬ (IsUtf8 input.now)
        → IfErr result (IsNoText (parse_options options.now) (request_of command.entry)) }
    ensures refused { IfErr result (IsCause (parse_options options.now) (request_of command.entry) input.now) }
{
    let task = match task_of(alloc, options, command) {
        Ok(task) => task,
        Err(fault) => return Err(fault),
    };
    let made = match made_of(alloc, options, task, input) {
        Ok(made) => made,
        Err(fault) => return Err(fault),
    };
    if !command.writes() {
        return Ok(None);
    }
    match text_of(made) {
        Ok(written) => Ok(Some(written)),
        Err(fault) => Err(fault),
    }
}

/// What [`written_by`] answers, as a text of its own.
pub fn run_with<A: Allocator + Copy>(
    alloc: A,
    options: &ParseOptions,
    command: Command,
    input: &[u8],
) -> Result<Option<String<A>>, Fault<A>>
    ensures written { IfOk result (IsWritten (parse_options options.now) (request_of command.entry) input.now) }
    ensures accepted { OnOk result (IsInputOf (parse_options options.now) input.now) }
    ensures not_utf8 { ¬ (IsUtf8 input.now)
        → IfErr result (IsNoText (parse_options options.now) (request_of command.entry)) }
    ensures refused { IfErr result (IsCause (parse_options options.now) (request_of command.entry) input.now) }
{
    let written = match written_by(alloc, options, command, input) {
        Ok(Some(written)) => written,
        Ok(None) => return Ok(None),
        Err(fault) => return Err(fault),
    };
    match written.into_text(alloc) {
        Ok(text) => Ok(Some(text)),
        Err(_) => Err(Fault::Edit(EditError::OutOfMemory)),
    }
}

/// The same under the default options, which allow comments and all else.
pub fn run_on<A: Allocator + Copy>(
    alloc: A,
    command: Command,
    input: &[u8],
) -> Result<Option<String<A>>, Fault<A>>
    ensures written { IfOk result (IsWritten all_on (request_of command.entry) input.now) }
    ensures accepted { OnOk result (IsInput input.now) }
    ensures not_utf8 { ¬ (IsUtf8 input.now) → IfErr result (IsNoText all_on (request_of command.entry)) }
    ensures refused { IfErr result (IsCause all_on (request_of command.entry) input.now) }
{
    run_with(alloc, &ParseOptions::default(), command, input)
}

/// Does what the command asks: reads the source to its end, and writes what the command makes of it to the sink.
///
/// Failed calls are `Fault::Read` and `Fault::Write`; else the faults are those of `run_on`. A command's path is read
/// before its JSON text, and these, a pointer and a patch before the source is. A document is written piece by piece,
/// which needs no memory; `print` writes the text that was read, and a value that is got and JSON are a text first.
pub fn engine<A: Allocator + Copy, S: Source, K: Sink>(
    alloc: A,
    command: Command<'_>,
    source: &mut S,
    sink: &mut K,
) -> Result<(), Fault<A>>
    // A path, a JSON text, a pointer and a patch are refused before anything is read.
    ensures unread { IfErr result (λ fault. EndsUnread fault → source.new ≡ source.old) }

    // What a success wrote.
    ensures written { OnOk result (IsTrue (writes (request_of command.entry))
        → IfSome (S.remaining source.old)
        (Puts A (request_of command.entry) (K.contents sink.old) (K.contents sink.new))) }
    ensures flushed { OnOk result (IsTrue (writes (request_of command.entry)) → K.is_flushed sink.new) }
    ensures checked { OnOk result (writes (request_of command.entry) ≡ false → sink.new ≡ sink.old) }
    ensures accepted { OnOk result (IfSome (S.remaining source.old) IsInput) }

    // The cause that an error names holds, and it names no other.
    ensures refused { IfErr result (λ fault. IfSome (S.remaining source.old)
        (λ input. TellsOfInput (request_of command.entry) input fault)) }
    ensures argument { IfErr result (TellsOfArgument (request_of command.entry)) }
    ensures read { IsErrOf result Fault.Read
        → S.failed_reads source.new ≡ one_more (S.failed_reads source.old) }
    ensures write { IsErrOf result Fault.Write
        → K.failed_writes sink.new ≡ one_more (K.failed_writes sink.old) }
    ensures causes { IfErr result EndsRun }
    ensures memory { IsErrOf result (Fault.Edit EditError.OutOfMemory)
        → IsBeforeOrForMemory (request_of command.entry) (S.empty_reads source.old) (S.empty_reads source.new)
        (S.remaining source.old) }

    // The source is read until one read gives nothing, and no further: a read more might give nothing again.
    ensures ended { OnOk result (S.empty_reads source.new ≡ one_more (S.empty_reads source.old)) }
    ensures behind { IfErr result (λ fault. EndsBehindInput fault
        → S.empty_reads source.new ≡ one_more (S.empty_reads source.old)) }
    ensures not_ended { IsErrOf result Fault.Read → S.empty_reads source.new ≡ S.empty_reads source.old }

    // A failed call is told as such, and as nothing else.
    ensures no_failed_read { ¬ (IsErrOf result Fault.Read)
        → S.failed_reads source.new ≡ S.failed_reads source.old }
    ensures no_failed_write { ¬ (IsErrOf result Fault.Write)
        → K.failed_writes sink.new ≡ K.failed_writes sink.old }

    // Only a failed write leaves anything written.
    ensures unwritten { OnErr result (¬ (IsErrOf result Fault.Write) → sink.new ≡ sink.old) }
{
    let options = ParseOptions::default();
    let task = match task_of(alloc, &options, command) {
        Ok(task) => task,
        Err(fault) => return Err(fault),
    };
    let input = match read_whole(alloc, source) {
        Ok(input) => input,
        Err(fault) => return Err(fault),
    };
    let made = match made_of(alloc, &options, task, input.as_slice()) {
        Ok(made) => made,
        Err(fault) => return Err(fault),
    };
    if !command.writes() {
        return Ok(());
    }
    write_made(sink, &made)
}
