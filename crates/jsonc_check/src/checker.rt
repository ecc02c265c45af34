//! The check of a text, by its places alone.
ghost use Rattle.std.specs.Prelude.{◌≢◌, IfErr, OnOk, chars, false, true};
ghost use Rattle.jsonc_walk.specs.Faults.{ParseFault};
ghost use Rattle.jsonc_walk.specs.Refusals.{Refuses};
ghost use Rattle.jsonc_check.specs.Checker.{HasValueWithin};
ghost use Rattle.jsonc_text.specs.Faults.{IsFault, kind_of};
ghost use Rattle.jsonc_text.specs.OptionsOf.{parse_options};

use jsonc_text::common::Range;
use jsonc_text::errors::{ParseError, ParseErrorKind};
use jsonc_text::options::ParseOptions;
use jsonc_walk::context::Context;
use jsonc_walk::receiver::Receiver;
use jsonc_walk::walk::read_document;
use std::alloc::Allocator;
use std::convert::Infallible;

/// What counts towards the depth.
pub(crate) trait Depth: Drop {
    ghost use Rattle.std.specs.Prelude.{Bool, ◌≡◌};

    ghost whole: { Bool };

    /// Whether properties count beside containers.
    fn is_whole(&self) -> bool
        ensures { result ≡ whole };
}

/// Containers alone count, as in values.
#[derive(Drop)]
struct Containers;

impl Depth for Containers {
    ghost use Rattle.std.specs.Prelude.{false};

    ghost whole = { false };

    #[inline(always)]
    fn is_whole(&self) -> bool {
        false
    }
}

/// Properties count too, as in documents.
#[derive(Drop)]
struct ContainersAndProperties;

impl Depth for ContainersAndProperties {
    ghost use Rattle.std.specs.Prelude.{true};

    ghost whole = { true };

    #[inline(always)]
    fn is_whole(&self) -> bool {
        true
    }
}

/// What makes nothing of a text as it is read, and needs no memory.
#[derive(Drop)]
pub(crate) struct Checker<'a, D: Depth> {
    text: &'a str,
    options: ParseOptions,
    depth: D,
}

impl<'a, A: Allocator, D: Depth> Receiver<String<A>> for Checker<'a, D> {
    ghost use Rattle.jsonc_check.specs.Checker.{source_in};

    type Item = ();

    type Array = ();

    type Object = ();

    type Property = ();

    type Error = Infallible;

    ghost whole = { D.whole };

    ghost source = { source_in };

    ghost makes = { λ s t i x. Unit {0} };

    ghost names = { λ s t p n. Unit {0} };

    ghost holds_elements = { λ s t a i xs. Unit {0} };

    ghost holds_properties = { λ s t o i ms. Unit {0} };

    ghost reached = { λ s i. Unit {0} };

    ghost passes = { λ s t. Unit {0} };

    #[inline(always)]
    fn is_whole(&self) -> bool {
        self.depth.is_whole()
    }

    #[inline(always)]
    fn pass_gap(&mut self, from: usize) -> Result<usize, Infallible> {
        Ok(from)
    }

    #[inline(always)]
    fn string(&mut self, _range: Range) -> Result<(), Infallible> {
        Ok(())
    }

    #[inline(always)]
    fn decoded(&mut self, _range: Range, _value: String<A>) -> Result<(), Infallible> {
        Ok(())
    }

    #[inline(always)]
    fn passed(&mut self, _range: Range) -> Result<(), Infallible> {
        Ok(())
    }

    #[inline(always)]
    fn number(&mut self, _range: Range) -> Result<(), Infallible> {
        Ok(())
    }

    #[inline(always)]
    fn boolean(&mut self, _range: Range, _value: bool) -> Result<(), Infallible> {
        Ok(())
    }

    #[inline(always)]
    fn null(&mut self, _range: Range) -> Result<(), Infallible> {
        Ok(())
    }

    #[inline(always)]
    fn open_array(&mut self, _start: usize) -> Result<(), Infallible> {
        Ok(())
    }

    #[inline(always)]
    fn element(&mut self, _array: &mut (), _item: ()) -> Result<(), Infallible> {
        Ok(())
    }

    #[inline(always)]
    fn close_array(&mut self, _array: (), _range: Range) -> Result<(), Infallible> {
        Ok(())
    }

    #[inline(always)]
    fn open_object(&mut self, _start: usize) -> Result<(), Infallible> {
        Ok(())
    }

    #[inline(always)]
    fn string_name(&mut self, _range: Range) -> Result<(), Infallible> {
        Ok(())
    }

    #[inline(always)]
    fn decoded_name(&mut self, _range: Range, _value: String<A>) -> Result<(), Infallible> {
        Ok(())
    }

    #[inline(always)]
    fn passed_name(&mut self, _range: Range) -> Result<(), Infallible> {
        Ok(())
    }

    #[inline(always)]
    fn word_name(&mut self, _range: Range) -> Result<(), Infallible> {
        Ok(())
    }

    #[inline(always)]
    fn property(
        &mut self,
        _object: &mut (),
        _property: (),
        _item: (),
        _range: Range,
    ) -> Result<(), Infallible> {
        Ok(())
    }

    #[inline(always)]
    fn close_object(&mut self, _object: (), _range: Range) -> Result<(), Infallible> {
        Ok(())
    }
}

/// Reads a text by its places, and makes nothing of it.
fn check_by<A: Allocator + Copy, D: Depth>(
    alloc: A,
    text: &str,
    options: &ParseOptions,
    depth: D,
) -> Result<(), ParseError>
    ensures accepted { OnOk result (HasValueWithin D.whole (parse_options options.now) (chars text.now)) }
    ensures refused { IfErr result (Refuses (parse_options options.now) D.whole text.now) }
    ensures fault { IfErr result (IsFault text.now) }
    ensures error { IfErr result (ParseFault (parse_options options.now) text.now D.whole) }
    ensures memory { IfErr result (λ e. kind_of e ≢ ParseErrorKind.OutOfMemory) }
{
    let mut context = Context::of_places(alloc, text, options);
    let mut to = Checker {
        text,
        options: options.copied(),
        depth,
    };
    read_document(&mut context, &mut to)?;
    Ok(())
}

/// Checks a text, and keeps nothing of it: no string is decoded, and no memory is asked for.
///
/// It accepts what `parse_to_value` does, a text without a value too, and its errors are
/// those of that call: a text with more than 512 containers inside one another is an error.
pub fn check<A: Allocator + Copy>(
    alloc: A,
    text: &str,
    options: &ParseOptions,
) -> Result<(), ParseError>
    ensures accepted { OnOk result (HasValueWithin false (parse_options options.now) (chars text.now)) }
    ensures refused { IfErr result (Refuses (parse_options options.now) false text.now) }
    ensures fault { IfErr result (IsFault text.now) }
    ensures error { IfErr result (ParseFault (parse_options options.now) text.now false) }
    ensures memory { IfErr result (λ e. kind_of e ≢ ParseErrorKind.OutOfMemory) }
{
    check_by(alloc, text, options, Containers)
}

/// The same of a document: it accepts what `CstRootNode::parse` does, with the errors
/// of that call. At most 512 containers and properties may be around a value.
pub fn check_document<A: Allocator + Copy>(
    alloc: A,
    text: &str,
    options: &ParseOptions,
) -> Result<(), ParseError>
    ensures accepted { OnOk result (HasValueWithin true (parse_options options.now) (chars text.now)) }
    ensures refused { IfErr result (Refuses (parse_options options.now) true text.now) }
    ensures fault { IfErr result (IsFault text.now) }
    ensures error { IfErr result (ParseFault (parse_options options.now) text.now true) }
    ensures memory { IfErr result (λ e. kind_of e ≢ ParseErrorKind.OutOfMemory) }
{
    check_by(alloc, text, options, ContainersAndProperties)
}
