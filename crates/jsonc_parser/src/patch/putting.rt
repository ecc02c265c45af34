//! Values put where pointers lead.

ghost use Rattle.std.specs.Bool.{Decides};
ghost use Rattle.std.specs.Fmt.{WritesOnOk, WritesStyledOnOk, decimal};
ghost use Rattle.std.specs.List.{All};
ghost use Rattle.std.specs.Prelude.{◌<◌, ◌≤◌, ◌+◌, ◌++◌, ◌^◌, drop, chars, length, IfErr, IfNone, IfOk, IfSome, OnErr, OnOk, Some};
ghost use Rattle.jsonc_edit.specs.Paths.{IsAt};
ghost use Rattle.jsonc_layout.specs.input.Views.{plain};
ghost use Rattle.jsonc_run.specs.Edits.{EditStep, PlainEdit};
ghost use Rattle.jsonc_cst.specs.Document.{nodes_of, HasNode};
ghost use Rattle.jsonc_cst.specs.Nodes.{number_of};
ghost use Rattle.jsonc_parser.specs.paths.Found.{names_of};
ghost use Rattle.jsonc_parser.specs.patch.Applied.{IsKept};
ghost use Rattle.jsonc_parser.specs.patch.Found.{IsOfShown};
ghost use Rattle.jsonc_parser.specs.patch.Pointer.{tokens_of};
ghost use Rattle.jsonc_parser.specs.patch.PutCalls.{FailsToPut, PutsWhatShown};
ghost use Rattle.jsonc_parser.specs.patch.PutMessages.{put_error_text};
ghost use Rattle.jsonc_parser.specs.patch.PutSteps.{IsChosen, IsFirstIndex, IsUnnested, IsUnprepared, StopsAtNode};
ghost use Rattle.jsonc_parser.specs.patch.Putting.{IsNested, MayBeIndex};

use super::entry::{Led, Stop, is_index, lead};
use super::pointer::Pointer;
use super::reference::is_hyphen;
use crate::paths::put::{copy_of, fits_at, nested};
use jsonc_cst::cst::{CstInputValue, CstNode, CstRootNode, EditError, TypedNode};
use jsonc_run::{Edit, Over};
use std::alloc::Allocator;
use std::error::Error;
use std::fmt;

/// Why a value was not put where a pointer leads. Tokens are counted from 0.
#[derive(Clone, Copy, Debug, PartialEq, Eq, Drop)]
pub enum PutError {
    /// The tokens before the one of this number lead to a value of another kind: neither array nor object, or an array,
    /// and the token is no index.
    OtherKind(usize),
    /// The token of this number is an index that is greater than the number of the array's elements.
    NoSuchIndex(usize),
    /// The token of this number may be a name or an index, and the value that it would lead into is missing.
    AmbiguousToken(usize),
    /// The edit was refused: a value would be nested too deep, or there was no memory.
    Edit(EditError),
}

impl fmt::Display for PutError {
    ghost output = { λ e. Some (put_error_text e) };

    ghost styled_output = { λ e _. Some (put_error_text e) };

    fn fmt<W: fmt::Write>(&self, f: &mut fmt::Formatter<W>) -> fmt::Result {
        match self {
            PutError::OtherKind(number) => write_number(
                "Value of another kind before token ",
                *number,
                f,
            ),
            PutError::NoSuchIndex(number) => write_number(
                "Array is shorter than the index at token ",
                *number,
                f,
            ),
            PutError::AmbiguousToken(number) => write_number(
                "Neither array nor object for token ",
                *number,
                f,
            ),
            PutError::Edit(error) => error.fmt(f),
        }
    }
}

impl Error for PutError {}

// Writes a text, and a number after it.
fn write_number<W: fmt::Write>(text: &str, number: usize, f: &mut fmt::Formatter<W>) -> fmt::Result
    ensures writes { WritesOnOk W.write_str_gives f.old result (text.now ++ decimal number) f.new }
    ensures styled { WritesStyledOnOk W.write_str_gives f.old result (text.now ++ decimal number) f.new }
{
    f.write_str(text)?;
    let mut digits = itoa::Buffer::new();
    f.write_str(digits.format(number))
}

// Whether a token may be meant for an array: an index, or `-`.
fn may_be_index(token: &str) -> bool
    ensures { Decides result (MayBeIndex (chars token.now)) }
{
    if is_hyphen(token) {
        return true;
    }
    is_index(token)
}

// The number of the first of these tokens that may be an index.
fn first_index<A: Allocator>(tokens: &[String<A>]) -> Option<usize>
    ensures some { IfSome result (IsFirstIndex (names_of tokens.now)) }
    ensures within { IfSome result (λ number. number < length tokens.now) }
    ensures none { IfNone result (All (λ name. ¬ (MayBeIndex name)) (names_of tokens.now)) }
{
    for (number, token) in tokens.iter().enumerate() {
        if may_be_index(token) {
            return Some(number);
        }
    }
    None
}

// A value nested by the tokens that are left, before which are so many others.
fn nested_by<A: Allocator + Copy>(
    alloc: A,
    left: &[String<A>],
    before: usize,
    value: CstInputValue<A>,
) -> Result<CstInputValue<A>, PutError>
    requires { before + length left.now < 2 ^ 64 }
    ensures nested { IfOk result (λ u. IsNested (names_of left.now) (plain value) (plain u)) }
    ensures fails { IfErr result (IsUnnested (names_of left.now) before (plain value)) }
{
    if let Some(number) = first_index(left) {
        return Err(PutError::AmbiguousToken(before + number));
    }
    // The depth is seen first, before anything is nested.
    if !fits_at(left, &value) {
        return Err(PutError::Edit(EditError::NestingDepthExceeded));
    }
    match nested(alloc, left, value) {
        Ok(nested) => Ok(nested),
        Err(error) => Err(PutError::Edit(error)),
    }
}

// The path of a node, and what is to be written there: a value nested by the tokens from the one of this number on.
fn prepare<A: Allocator + Copy>(
    doc: &CstRootNode<A>,
    node: CstNode,
    tokens: &[String<A>],
    from: usize,
    value: CstInputValue<A>,
) -> Result<(Vec<usize, A>, CstInputValue<A>), PutError>
    requires in_document { HasNode doc.now node }
    requires within { from ≤ length tokens.now }
    ensures at { IfOk result (λ p. IsAt (nodes_of doc.now) p.0.items (number_of node)) }
    ensures nested { IfOk result (λ p. IsNested (drop from (names_of tokens.now)) (plain value) (plain p.1)) }
    ensures fails { IfErr result (IsUnprepared doc.now node (drop from (names_of tokens.now)) from (plain value)) }
{
    let value = match nested_by(*doc.allocator(), &tokens[from..], from, value) {
        Ok(value) => value,
        Err(error) => return Err(error),
    };
    match doc.path(node) {
        Ok(Some(path)) => Ok((path, value)),
        Ok(None) => Err(PutError::Edit(EditError::NoSuchPlace)),
        Err(error) => Err(PutError::Edit(error)),
    }
}

// The edit that puts a value where the token of this number leads from a node to nothing.
fn choose_beyond<A: Allocator + Copy>(
    doc: &CstRootNode<A>,
    tokens: &[String<A>],
    node: CstNode,
    number: usize,
    stop: Stop,
    value: CstInputValue<A>,
    over: Over,
) -> Result<Edit<A>, PutError>
    requires in_document { HasNode doc.now node }
    requires within { number < length tokens.now }
    requires stops { IsOfShown doc.now (λ d. StopsAtNode d (nodes_of doc.now) (names_of tokens.now) (number_of node) number stop) }
    ensures chosen { IfOk result (IsChosen doc.now (plain value) over (names_of tokens.now)) }
    ensures fails { IfErr result (FailsToPut doc.now (plain value) over (names_of tokens.now)) }
{
    match stop {
        Stop::NoMember => match prepare(doc, node, tokens, number + 1, value) {
            Ok((path, value)) => match copy_of(*doc.allocator(), &tokens[number]) {
                Ok(name) => Ok(Edit::AppendProperty(path, name, value)),
                Err(error) => Err(PutError::Edit(error)),
            },
            Err(error) => Err(error),
        },
        Stop::AfterLast => match prepare(doc, node, tokens, number + 1, value) {
            Ok((path, value)) => Ok(Edit::AppendElement(path, value)),
            Err(error) => Err(error),
        },
        Stop::PastEnd => Err(PutError::NoSuchIndex(number)),
        Stop::OtherKind => match over {
            Over::Keep => Err(PutError::OtherKind(number)),
            Over::Replace => match prepare(doc, node, tokens, number, value) {
                Ok((path, value)) => Ok(Edit::Replace(path, value)),
                Err(error) => Err(error),
            },
        },
    }
}

// The edit that puts a value where tokens lead.
fn choose<A: Allocator + Copy>(
    doc: &CstRootNode<A>,
    tokens: &[String<A>],
    value: CstInputValue<A>,
    over: Over,
) -> Result<Edit<A>, PutError>
    ensures chosen { IfOk result (IsChosen doc.now (plain value) over (names_of tokens.now)) }
    ensures fails { IfErr result (FailsToPut doc.now (plain value) over (names_of tokens.now)) }
{
    if tokens.is_empty() {
        return Ok(Edit::SetRoot(value));
    }
    match lead(doc, tokens) {
        Ok(Led::Nothing) => match nested_by(*doc.allocator(), tokens, 0, value) {
            Ok(value) => Ok(Edit::SetRoot(value)),
            Err(error) => Err(error),
        },
        Ok(Led::To(node)) => match prepare(doc, node, tokens, tokens.len(), value) {
            Ok((path, value)) => Ok(Edit::Replace(path, value)),
            Err(error) => Err(error),
        },
        Ok(Led::Stops(node, number, stop)) => {
            choose_beyond(doc, tokens, node, number, stop, value, over)
        }
        Err(error) => Err(PutError::Edit(error)),
    }
}

/// Puts a value where a pointer leads, through objects and arrays, by one edit.
///
/// From the document's value each token leads on: in an object to the first member of that name, in an array to the
/// element of that index. The value that all of them lead to is replaced; the empty pointer sets the document's value.
/// Where a member is missing it is appended to its object, and where an array ends, at the index after its last
/// element's or at `-`, an element is appended, in both with objects for the tokens that are left. `{"a": [1]}` with 2
/// at `/a/-` is `{"a": [1, 2]}`.
///
/// An array is never made: where one of the tokens that are left may be an index, the error is
/// [`PutError::AmbiguousToken`]. An index past the end of an array is [`PutError::NoSuchIndex`]. A value of another kind
/// on the way, neither array nor object, or an array and a token that is no index, is [`PutError::OtherKind`] with
/// `Over::Keep`; with `Over::Replace` it is replaced by objects for that token and the rest. Each tells the token's
/// number.
///
/// A value that would be nested deeper than [`CstRootNode::parse`] accepts is refused. Memory is allocated only to look
/// up a name in an object that has a name with a backslash, or where nothing else is wrong. On an error the document
/// and each of its nodes stay as they were.
pub fn put<A: Allocator + Copy>(
    doc: &mut CstRootNode<A>,
    pointer: &Pointer<A>,
    value: CstInputValue<A>,
    over: Over,
) -> Result<(), PutError>
    ensures put { OnOk result (PutsWhatShown doc.old (plain value) over (tokens_of pointer.now) doc.new) }
    ensures one { OnOk result ((edit : PlainEdit) × EditStep (nodes_of doc.old) edit (nodes_of doc.new)) }
    ensures kept { OnErr result (IsKept doc.old doc.new) }
    ensures fails { IfErr result (FailsToPut doc.old (plain value) over (tokens_of pointer.now)) }
{
    let edit = match choose(doc, pointer.tokens(), value, over) {
        Ok(edit) => edit,
        Err(refused) => return Err(refused),
    };
    match doc.make(&edit) {
        Ok(()) => Ok(()),
        Err(error) => Err(PutError::Edit(error)),
    }
}
