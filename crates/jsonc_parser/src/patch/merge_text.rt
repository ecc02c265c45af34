//! Merge patches, and how they are read from their texts.

ghost use Rattle.std.specs.Prelude.{chars, IfErr, IfOk, Some};
ghost use Rattle.jsonc_edit.specs.Writing.{IsOfNumbers};
ghost use Rattle.jsonc_layout.specs.input.Views.{plain};
ghost use Rattle.jsonc_parser.specs.patch.MergeMessages.{merge_patch_error_text};
ghost use Rattle.jsonc_parser.specs.patch.MergeTexts.{IsFaultOfMergePatch, IsMergePatch, IsReportedAs};
ghost use Rattle.jsonc_text.specs.OptionsOf.{parse_options};

use super::operation::OperationFault;
use super::quoting::write_repeated_name;
use super::values::value_of;
use jsonc_ast::to_ast::parse_to_ast;
use jsonc_cst::cst::CstInputValue;
use jsonc_text::errors::ParseError;
use jsonc_text::options::ParseOptions;
use jsonc_walk::collect::CollectOptions;
use std::alloc::Allocator;
use std::error::Error;
use std::fmt;

/// Why a text is no merge patch.
#[derive(Debug, Drop)]
pub enum MergePatchError<A: Allocator> {
    /// The text is refused under its options, or there was no memory to parse it.
    Parse(ParseError),
    /// The text has no value.
    NoValue,
    /// More than one member of an object of the value has this name.
    RepeatedName(String<A>),
    /// An allocation failed after the parse.
    OutOfMemory,
}

impl<A: Allocator> fmt::Display for MergePatchError<A> {
    ghost output = { λ e. Some (merge_patch_error_text e) };

    ghost styled_output = { λ e _. Some (merge_patch_error_text e) };

    fn fmt<W: fmt::Write>(&self, f: &mut fmt::Formatter<W>) -> fmt::Result {
        match self {
            MergePatchError::Parse(error) => error.fmt(f),
            MergePatchError::NoValue => f.write_str("Patch has no value"),
            MergePatchError::RepeatedName(name) => write_repeated_name(name.as_str(), f),
            MergePatchError::OutOfMemory => f.write_str("Out of memory"),
        }
    }
}

impl<A: Allocator + fmt::Debug> Error for MergePatchError<A> {}

/// The value of a JSON text, for [`merge`](super::merge).
///
/// Where [`from_json`](jsonc_cst::cst::input::from_json) takes the last of equal names, a name that occurs twice
/// in an object of the value is an error here. The text is parsed under the options as by `parse_to_ast`, with the
/// same errors, and its numbers are numbers of these options.
pub fn merge_patch_from_json<A: Allocator + Copy>(
    alloc: A,
    text: &str,
    options: &ParseOptions,
) -> Result<CstInputValue<A>, MergePatchError<A>>
    ensures patch { IfOk result (λ v. IsMergePatch (parse_options options.now) (chars text.now) (plain v)) }
    ensures fits { IfOk result (λ v. IsOfNumbers (parse_options options.now) (plain v)) }
    ensures fault { IfErr result (IsFaultOfMergePatch (parse_options options.now) text.now) }
{
    let read = match parse_to_ast(alloc, text, &CollectOptions::default(), options) {
        Ok(read) => read,
        Err(error) => return Err(MergePatchError::Parse(error)),
    };
    let Some(value) = &read.value else {
        return Err(MergePatchError::NoValue);
    };
    match value_of(alloc, value) {
        Ok(value) => Ok(value),
        Err(fault) => Err(error_of(fault)),
    }
}

// The error of the fault of a value.
fn error_of<A: Allocator>(fault: OperationFault<A>) -> MergePatchError<A>
    ensures { IsReportedAs fault result }
{
    match fault {
        OperationFault::RepeatedName(name) => MergePatchError::RepeatedName(name),
        _ => MergePatchError::OutOfMemory,
    }
}
