//! What is answered to a question.

use crate::decoded::decoded;
use crate::edited::edited;
use crate::lookup::looked_up;
use crate::member::looked_up_in_tree;
use crate::mends::mended;
use crate::program::{outcome, printed};
use crate::scanned::tokens;
use crate::syntax::syntax;
use crate::value::{equal, value};
use jsonc_cases::case::Question;
use std::alloc::{AllocError, Global};

/// The answer without its name.
pub fn answer(alloc: Global, question: Question) -> Result<String, AllocError> {
    match question {
        Question::Print { options, input } => printed(alloc, &options, input.as_slice()),
        Question::Program { words, input } => { outcome(alloc, words.as_slice(), input.as_slice()) }
        Question::Scan { options, text } => tokens(alloc, text.as_str(), &options),
        Question::Value { options, text } => value(alloc, text.as_str(), &options),
        Question::Mends { options, text } => mended(alloc, text.as_str(), &options),
        Question::Equal {
            options,
            one,
            other,
        } => equal(alloc, one.as_str(), other.as_str(), &options),
        Question::Object {
            options,
            text,
            lookups,
            in_tree: false,
        } => looked_up(alloc, text.as_str(), &options, lookups.as_slice()),
        Question::Object {
            options,
            text,
            lookups,
            in_tree: true,
        } => looked_up_in_tree(alloc, text.as_str(), &options, lookups.as_slice()),
        Question::Edit {
            options,
            text,
            edits,
            reads,
        } => edited(alloc, text.as_str(), &options, edits, reads),
        Question::Decode { text } => decoded(alloc, text.as_str()),
        Question::Ast {
            options,
            collect,
            text,
        } => syntax(alloc, text.as_str(), &collect, &options),
    }
}
