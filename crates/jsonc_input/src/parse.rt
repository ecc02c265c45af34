//! A text, read to its value.
ghost use Rattle.std.specs.Prelude.{IfErr, IfOk, option_map, true};
ghost use Rattle.jsonc_text.specs.Faults.{IsFault};
ghost use Rattle.jsonc_text.specs.OptionsOf.{parse_options};
ghost use Rattle.jsonc_walk.specs.Faults.{ParseFault};
ghost use Rattle.jsonc_walk.specs.Refusals.{RefusesText};
ghost use Rattle.jsonc_layout.specs.input.Views.{plain};
ghost use Rattle.jsonc_input.specs.Reads.{IsValueOfText};

use crate::maker::InputMaker;
use jsonc_layout::input::CstInputValue;
use jsonc_text::errors::ParseError;
use jsonc_text::options::ParseOptions;
use jsonc_walk::collect::CollectOptions;
use jsonc_walk::context::Context;
use jsonc_walk::walk::read_document;
use std::alloc::Allocator;

/// Parses a text to its value, as a value for edits.
///
/// A text of blanks and comments alone has none. Of properties with one name the first gives the
/// place and the last the value. A value with more than 512 containers and properties around it is
/// an error. The error says what is wrong, in which bytes, and in which line and column; an
/// allocation failure is an error too.
pub fn parse_to_input<A: Allocator + Copy>(
    alloc: A,
    text: &str,
    options: &ParseOptions,
) -> Result<Option<CstInputValue<A>>, ParseError>
    ensures value { IfOk result (λ v. IsValueOfText (parse_options options.now) text.now (option_map plain v)) }
    ensures refused { IfErr result (RefusesText (parse_options options.now) text.now) }
    ensures fault { IfErr result (IsFault text.now) }
    ensures error { IfErr result (ParseFault (parse_options options.now) text.now true) }
{
    let mut context = Context::new(alloc, text, &CollectOptions::default(), options);
    let mut to = InputMaker::new(alloc, text, options);
    read_document(&mut context, &mut to)
}
