//! What a string that was passed stands for.
ghost use Rattle.std.specs.Prelude.{◌≡◌, IfOk, IsCharBoundary, chars, string_bytes};
ghost use Rattle.jsonc_text.specs.OptionsOf.{parse_options};
ghost use Rattle.jsonc_text.specs.StringValue.{string_value};
ghost use Rattle.jsonc_text.specs.string.Quotes.{OpensNoString, OpensString};
ghost use Rattle.jsonc_walk.specs.Handed.{HasEscapedString};

use jsonc_text::chars::has_byte;
use jsonc_text::common::Range;
use jsonc_text::errors::ParseStringErrorKind;
use jsonc_text::options::ParseOptions;
use jsonc_text::string::decode::decode_string;
use jsonc_text::string::escape::Literal;
use std::alloc::{AllocError, Allocator};

// The quote that opens the string at a place.
fn opening_quote(text: &str, start: usize, options: &ParseOptions) -> u8
    requires boundary { IsCharBoundary text.now start }
    requires opens { OpensNoString (parse_options options.now) text.now start → ⊥ }
    ensures { OpensString (parse_options options.now) text.now start result }
{
    if has_byte(text, start, b'"') {
        return b'"';
    }
    if options.allow_single_quoted_strings && has_byte(text, start, b'\'') {
        return b'\'';
    }
    unreachable!()
}

/// The characters that the string in a range stands for, for a receiver that keeps them.
#[cold]
#[inline(never)]
pub fn decode_passed<A: Allocator + Copy>(
    alloc: A,
    text: &str,
    range: Range,
    options: &ParseOptions,
) -> Result<String<A>, AllocError>
    requires { HasEscapedString (record { bytes = text.now; options = parse_options options.now }) range
        (string_value text.now range.start range.end) }
    ensures { IfOk result (λ s. chars (string_bytes s) ≡ string_value text.now range.start range.end) }
{
    let literal = Literal {
        start: range.start,
        quote: opening_quote(text, range.start, options),
        extended: options.allow_extended_string_escapes,
    };
    match decode_string(alloc, text, literal) {
        Ok(decoded) => decoded.string.into_owned(alloc),
        Err(fault) => match fault.kind {
            ParseStringErrorKind::OutOfMemory => Err(AllocError),
            _ => unreachable!(),
        },
    }
}
