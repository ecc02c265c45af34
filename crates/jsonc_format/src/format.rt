//! A text, formatted.
ghost use Rattle.std.specs.Prelude.{IfOk, IfErr, chars, true};
ghost use Rattle.jsonc_text.specs.Faults.{IsFault};
ghost use Rattle.jsonc_text.specs.OptionsOf.{parse_options};
ghost use Rattle.jsonc_walk.specs.Faults.{ParseFault};
ghost use Rattle.jsonc_walk.specs.Refusals.{RefusesText};
ghost use Rattle.jsonc_format.specs.Styles.{IsFormattedAs};
ghost use Rattle.jsonc_format.specs.Wishes.{wish_of};
ghost use Rattle.jsonc_format.specs.Writing.{text_of};

use crate::style::Style;
use crate::whole::format_pieces;
use jsonc_check::check_document;
use jsonc_text::errors::ParseError;
use jsonc_text::options::ParseOptions;
use std::alloc::Allocator;

/// A text, formatted: the same literals, comments and punctuation in the same order, with other blanks between them.
///
/// `{"a":1,"b":[1,2]}` becomes `{ "a": 1, "b": [1, 2] }` and the end of a line; what is on several lines has each entry on a line of its own.
/// It accepts what `check_document` does, with the errors of that call. The result can be longer than the text by its depth: a line begins with
/// one level of indent for each array and object that is open.
pub fn format_text<A: Allocator + Copy>(
    alloc: A,
    text: &str,
    options: &ParseOptions,
    style: &Style,
) -> Result<String<A>, ParseError>
    ensures formatted { IfOk result (λ s. IsFormattedAs (parse_options options.now) (wish_of style.now) (chars text.now) (text_of s)) }
    ensures refused { IfErr result (RefusesText (parse_options options.now) text.now) }
    ensures fault { IfErr result (IsFault text.now) }
    ensures error { IfErr result (ParseFault (parse_options options.now) text.now true) }
{
    check_document(alloc, text, options)?;
    // An accepted text is lexemes and comments with blanks between them, so memory alone is wanted.
    let Ok(formatted) = format_pieces(alloc, text, options, style) else {
        return Err(ParseError::out_of_memory());
    };
    Ok(formatted)
}
