//! Edits of a text that is no document yet.

ghost use Rattle.std.specs.Prelude.{◌≡◌, IfErr, IfOk, Some, chars, string_bytes};
ghost use Rattle.jsonc_text.specs.OptionsOf.{parse_options};
ghost use Rattle.jsonc_sound.specs.Documents.{ShowsText};
ghost use Rattle.jsonc_cst.specs.declared.cst.CstRootNode.{CstRootNode};
ghost use Rattle.jsonc_cst.specs.Document.{printed_of, tree_of, LiesIn};
ghost use Rattle.jsonc_parser.specs.Lists.{RunOk, MayBeAsked, StopsInDocument};
ghost use Rattle.jsonc_parser.specs.Promise.{IsEditedText, IsNotEdited};
ghost use Rattle.jsonc_parser.specs.Errors.{edit_text_error_text};

use crate::cst::lists::run;
use jsonc_cst::cst::{CstNode, CstRootNode, EditError};
use jsonc_cst::typed::DocumentArg;
use jsonc_run::Edit;
use jsonc_text::errors::ParseError;
use jsonc_text::options::ParseOptions;
use std::alloc::Allocator;
use std::cmp::Ordering;
use std::error::Error;
use std::fmt;

/// Why a text was not edited.
#[derive(Debug, Drop)]
pub enum EditTextError {
    /// The text is no document.
    Parse(ParseError),
    /// So many edits were made, and this is why the next was not. Where it is as many as there are,
    /// there was no memory for the text after them.
    Edit(usize, EditError),
}

impl fmt::Display for EditTextError {
    ghost output = { λ e. Some (edit_text_error_text e) };

    ghost styled_output = { λ e _. Some (edit_text_error_text e) };

    fn fmt<W: fmt::Write>(&self, f: &mut fmt::Formatter<W>) -> fmt::Result {
        match self {
            EditTextError::Parse(error) => error.fmt(f),
            EditTextError::Edit(count, error) => {
                error.fmt(f)?;
                f.write_str(", edits made before: ")?;
                let mut digits = itoa::Buffer::new();
                f.write_str(digits.format(*count))
            }
        }
    }
}

impl Error for EditTextError {}

/// Makes edits of a text, in order, and answers the text after them.
///
/// It parses the text as [`CstRootNode::parse`] does, makes the edits as [`run`] does, and answers
/// what the document then prints. All that is outside of what an edit works on stays, byte for byte,
/// and so do the comments. `compare` says how the elements or properties are ordered that an
/// edit sorts. The text that it answers can be parsed again.
///
/// A text that is no document is the error of parsing. Of an edit that failed, the error has its
/// number in the list, counted from 0, and why it failed.
pub fn edit_text<A: Allocator + Copy, D: DocumentArg<A>, C: Fn(&D, CstNode, CstNode) -> Ordering>(
    alloc: A,
    text: &str,
    options: &ParseOptions,
    edits: Vec<Edit<A>, A>,
    compare: &C,
) -> Result<String<A>, EditTextError>
    requires callable { MayBeAsked C.Fn compare.now D.same }
    ensures edited { IfOk result
        (λ s. IsEditedText (parse_options options.now) (chars text.now) edits.items (chars (string_bytes s))) }
    ensures made { IfOk result (λ s. (old new : CstRootNode A)
        × ShowsText (parse_options options.now) (chars text.now) (tree_of old)
        × RunOk C.Fn compare.now D.same old edits.items new × (printed_of new ≡ string_bytes s)
        × LiesIn (parse_options options.now) text.now (tree_of old)) }
    ensures refused { IfErr result (IsNotEdited (parse_options options.now) text.now edits.items) }
    ensures stopped { IfErr result
        (StopsInDocument C.Fn compare.now D.same (parse_options options.now) text.now edits.items) }
{
    let mut doc = match CstRootNode::parse(alloc, text, options) {
        Ok(doc) => doc,
        Err(fault) => return Err(EditTextError::Parse(fault)),
    };
    let count = edits.len();
    if let Err((made, why)) = run(&mut doc, edits, compare) {
        return Err(EditTextError::Edit(made, why));
    }
    match doc.text() {
        Ok(edited) => Ok(edited),
        Err(why) => Err(EditTextError::Edit(count, why)),
    }
}
