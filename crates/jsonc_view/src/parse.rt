//! A view, made of a text.
ghost use Rattle.std.specs.Prelude.{◌<◌, ◌^◌, false, length, chars, IfOk, IfErr, Option};
ghost use Rattle.jsonc_text.specs.Faults.{IsFault};
ghost use Rattle.jsonc_text.specs.OptionsOf.{parse_options};
ghost use Rattle.jsonc_walk.specs.Faults.{ParseFault};
ghost use Rattle.jsonc_walk.specs.Refusals.{Refuses};
ghost use Rattle.jsonc_text.specs.Plain.{Plain};
ghost use Rattle.jsonc_view.specs.Reads.{IsViewed, IsViewOf};
ghost use Rattle.jsonc_view.specs.Shown.{ShowsRoot};

use crate::maker::ViewMaker;
use crate::rows::{Row, Rows};
use crate::view::JsonView;
use jsonc_text::errors::ParseError;
use jsonc_text::options::ParseOptions;
use jsonc_walk::collect::CollectOptions;
use jsonc_walk::context::Context;
use jsonc_walk::walk::read_document;
use std::alloc::Allocator;

// The view of what was read of these rows, or the fault.
fn viewed<'a, A: Allocator>(
    rows: Rows<'a, A>,
    read: Result<Option<Row>, ParseError>,
) -> Result<JsonView<'a, A>, ParseError>
    requires { IfOk read (λ root. (v : Option Plain) × ShowsRoot rows root v) }
    ensures { IsViewed rows.entry read result }
{
    match read {
        Ok(root) => Ok(JsonView::of(rows, root)),
        Err(fault) => Err(fault),
    }
}

// The view of a text whose places have 32 bits.
fn read_view<'a, A: Allocator + Copy>(
    alloc: A,
    text: &'a str,
    options: &ParseOptions,
) -> Result<JsonView<'a, A>, ParseError>
    requires { length text.now < 2 ^ 32 }
    ensures accepted { IfOk result (IsViewOf (parse_options options.now) (chars text.now)) }
    ensures refused { IfErr result (Refuses (parse_options options.now) false text.now) }
    ensures fault { IfErr result (IsFault text.now) }
    ensures error { IfErr result (ParseFault (parse_options options.now) text.now false) }
{
    let mut context = Context::new(alloc, text, &CollectOptions::default(), options);
    let mut to = ViewMaker::new(alloc, text, options);
    let read = read_document(&mut context, &mut to);
    let ViewMaker { rows, .. } = to;
    viewed(rows, read)
}

/// Parses a text to a view of its value, which is read by its places in the text.
///
/// It reads what `parse_to_value` reads, and refuses what that refuses, with the same fault. A view keeps the properties of
/// an object as they were written: of several with one name all are counted, and a name's value is that of the last. A text
/// of 4 GiB or more wants more memory than there can be.
pub fn parse_to_view<'a, A: Allocator + Copy>(
    alloc: A,
    text: &'a str,
    options: &ParseOptions,
) -> Result<JsonView<'a, A>, ParseError>
    ensures accepted { IfOk result (IsViewOf (parse_options options.now) (chars text.now)) }
    ensures refused { IfErr result (Refuses (parse_options options.now) false text.now) }
    ensures fault { IfErr result (IsFault text.now) }
    ensures error { IfErr result (ParseFault (parse_options options.now) text.now false) }
{
    let is_long = text.len() > u32::MAX as usize;
    if is_long {
        return Err(ParseError::out_of_memory());
    }
    read_view(alloc, text, options)
}
