//! Values for edits: what an edit writes, and what a document gives.

ghost use Rattle.std.specs.Prelude.{◌≡◌, IfErr, IfNone, IfOk, IfSome, OnErr, chars, option_map, true};
ghost use Rattle.jsonc_text.specs.Faults.{IsFault};
ghost use Rattle.jsonc_text.specs.Numbers.{NumberLit};
ghost use Rattle.jsonc_text.specs.OptionsOf.{parse_options};
ghost use Rattle.jsonc_text.specs.Plain.{number};
ghost use Rattle.jsonc_walk.specs.Faults.{ParseFault};
ghost use Rattle.jsonc_walk.specs.Refusals.{RefusesText};
ghost use Rattle.jsonc_layout.specs.input.Views.{plain};
ghost use Rattle.jsonc_edit.specs.Writing.{IsOfNumbers, IsWritable};
ghost use Rattle.jsonc_input.specs.Reads.{IsValueOfText};
ghost use Rattle.jsonc_cst.specs.Values.{IsDocumentTaken};

use super::{CstRootNode, EditError};
use jsonc_input::parse_to_input;
pub use jsonc_input::to_json;
pub use jsonc_layout::input::CstInputValue;
use jsonc_scan::is_number;
use jsonc_text::errors::ParseError;
use jsonc_text::options::ParseOptions;
use std::alloc::{AllocError, Allocator};

/// The number of this text, if it is, whole, a number that the options allow.
///
/// Nothing may be before or after the number, blanks neither. `1e5` is one, and so is `0x1F` where
/// hexadecimal numbers are allowed; `01`, `1.` and `one` give None under the options of JSON, and ask
/// for no memory.
pub fn number<A: Allocator>(
    alloc: A,
    text: &str,
    options: &ParseOptions,
) -> Result<Option<CstInputValue<A>>, AllocError>
    ensures value { IfOk result (λ found. IfSome found (λ v. plain v ≡ number (chars text.now))) }
    ensures numbers { IfOk result (λ found. IfSome found (λ v. IsOfNumbers (parse_options options.now) (plain v))) }
    ensures none { IfOk result (λ found. IfNone found (NumberLit (parse_options options.now) (chars text.now) → ⊥)) }
    ensures memory { OnErr result (NumberLit (parse_options options.now) (chars text.now)) }
{
    if !is_number(text, options) {
        return Ok(None);
    }
    Ok(Some(CstInputValue::Number(String::from_str(alloc, text)?)))
}

/// The value of a JSON text, for an edit to write.
///
/// None where the text has no value. Of equal names the last value is at the first place. The
/// text is parsed under the options as by `CstRootNode::parse`, with the same errors, and its numbers
/// are numbers of these options.
pub fn from_json<A: Allocator + Copy>(
    alloc: A,
    text: &str,
    options: &ParseOptions,
) -> Result<Option<CstInputValue<A>>, ParseError>
    ensures value { IfOk result (λ v. IsValueOfText (parse_options options.now) text.now (option_map plain v)) }
    ensures writable { IfOk result (λ found. IfSome found (λ v. IsWritable (parse_options options.now) (plain v))) }
    ensures refused { IfErr result (RefusesText (parse_options options.now) text.now) }
    ensures fault { IfErr result (IsFault text.now) }
    ensures error { IfErr result (ParseFault (parse_options options.now) text.now true) }
{
    parse_to_input(alloc, text, options)
}

impl<A: Allocator + Copy> CstRootNode<A> {
    /// The document's value, as a value for edits.
    ///
    /// For a parsed document that is the text's value; of equal names the last value is at the
    /// first place.
    pub fn to_value(&self) -> Result<Option<CstInputValue<A>>, EditError>
        ensures value { IfOk result (IsDocumentTaken self.now) }
        ensures memory { IfErr result (λ e. e ≡ EditError.OutOfMemory) }
    {
        let Ok(value) = jsonc_layout::to_input::to_value(self.alloc, &self.tree, 0) else {
            return Err(EditError::OutOfMemory);
        };
        Ok(value)
    }
}
