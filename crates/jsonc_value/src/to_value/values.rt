//! A value, made of a text.
ghost use Rattle.std.specs.Prelude.{◌≡◌, ◌≤◌, length, take, drop, IfOk, IfErr, OnOk, false, chars};
ghost use Rattle.std.specs.Cow.{IsOwnedStr, cow_str_bytes};
ghost use Rattle.std.specs.Str.{IsUtf8};
ghost use Rattle.jsonc_value.specs.to_value.Views.{plain, name_of, items_plain, members_plain};
ghost use Rattle.jsonc_value.specs.to_value.Lent.{IsLentBy, texts, texts_in_elements, texts_in_properties};
ghost use Rattle.jsonc_value.specs.to_value.Reads.{IsValueOf};
ghost use Rattle.jsonc_value.specs.to_value.Refusals.{RefusesText};
ghost use Rattle.jsonc_walk.specs.Faults.{ParseFault};
ghost use Rattle.jsonc_text.specs.Faults.{IsFault};
ghost use Rattle.jsonc_text.specs.OptionsOf.{parse_options};
ghost use Rattle.jsonc_text.specs.Plain.{array, object};

use crate::to_value::names::are_few_distinct;
use crate::{JsonArray, JsonObject, JsonValue, Map};
use jsonc_text::common::Range;
use jsonc_text::errors::ParseError;
use jsonc_text::options::ParseOptions;
use jsonc_walk::collect::CollectOptions;
use jsonc_walk::context::Context;
use jsonc_walk::passed::decode_passed;
use jsonc_walk::receiver::Receiver;
use jsonc_walk::stack::taken_from;
use jsonc_walk::walk::read_document;
use std::alloc::{AllocError, Allocator};
use std::borrow::CowStr;

/// A name that the text lends.
#[inline(always)]
fn lent<'a, A: Allocator>(text: &'a str) -> CowStr<'a, A>
    ensures name { name_of result ≡ chars text.now }
    ensures utf8 { IsUtf8 (cow_str_bytes result) }
    ensures lent { ¬ (IsOwnedStr result) }
{
    CowStr::Borrowed(text)
}

/// An array of these elements.
#[inline(always)]
fn array_of<'a, A: Allocator>(elements: Vec<JsonValue<'a, A>, A>) -> JsonValue<'a, A>
    ensures plain { plain result ≡ array (items_plain elements.entry.items) }
    ensures texts { texts result ≡ texts_in_elements elements.entry.items }
{
    JsonValue::Array(JsonArray::new(elements))
}

/// An object of these properties.
#[inline(always)]
fn object_of<'a, A: Allocator>(
    properties: Map<CowStr<'a, A>, JsonValue<'a, A>, A>,
) -> JsonValue<'a, A>
    ensures plain { plain result ≡ object (members_plain properties.entry) }
    ensures texts { texts result ≡ texts_in_properties properties.entry }
{
    JsonValue::Object(JsonObject::new(properties))
}

/// What makes a value of a text as it is read.
#[derive(Drop)]
pub(crate) struct ValueMaker<'a, A: Allocator> {
    text: &'a str,
    options: ParseOptions,
    // The elements of the arrays that have not ended, those of the outer ones first.
    elements: Vec<JsonValue<'a, A>, A>,
    // The properties of the objects that have not ended.
    properties: Vec<(CowStr<'a, A>, JsonValue<'a, A>), A>,
}

impl<'a, A: Allocator + Copy> Receiver<String<A>> for ValueMaker<'a, A> {
    ghost use Rattle.std.specs.Prelude.{false};
    ghost use Rattle.jsonc_value.specs.to_value.Made.{source_in, HoldsElements, HoldsProperties, IsMade, IsNamed};

    type Item = JsonValue<'a, A>;

    // Where its elements begin among those of the arrays that have not ended.
    type Array = usize;

    // The same of its properties.
    type Object = usize;

    type Property = CowStr<'a, A>;

    type Error = AllocError;

    ghost whole = { false };

    ghost source = { source_in };

    ghost makes = { IsMade };

    ghost names = { IsNamed };

    ghost holds_elements = { λ s t a i xs. HoldsElements s t a xs };

    ghost holds_properties = { λ s t o i ms. HoldsProperties s t o ms };

    ghost reached = { λ s i. Unit {0} };

    ghost passes = { λ s t. t ≡ s };

    #[inline(always)]
    fn is_whole(&self) -> bool {
        false
    }

    #[inline(always)]
    fn pass_gap(&mut self, from: usize) -> Result<usize, AllocError> {
        Ok(from)
    }

    #[inline(always)]
    fn string(&mut self, range: Range) -> Result<JsonValue<'a, A>, AllocError> {
        Ok(JsonValue::String(CowStr::Borrowed(&self.text[range.start + 1..range.end - 1])))
    }

    #[inline(always)]
    fn decoded(&mut self, _range: Range, value: String<A>) -> Result<JsonValue<'a, A>, AllocError> {
        Ok(JsonValue::String(CowStr::Owned(value)))
    }

    fn passed(&mut self, range: Range) -> Result<JsonValue<'a, A>, AllocError> {
        let alloc = *self.elements.allocator();
        let value = decode_passed(alloc, self.text, range, &self.options)?;
        Ok(JsonValue::String(CowStr::Owned(value)))
    }

    #[inline(always)]
    fn number(&mut self, range: Range) -> Result<JsonValue<'a, A>, AllocError> {
        Ok(JsonValue::Number(&self.text[range.start..range.end]))
    }

    #[inline(always)]
    fn boolean(&mut self, _range: Range, value: bool) -> Result<JsonValue<'a, A>, AllocError> {
        Ok(JsonValue::Boolean(value))
    }

    #[inline(always)]
    fn null(&mut self, _range: Range) -> Result<JsonValue<'a, A>, AllocError> {
        Ok(JsonValue::Null)
    }

    #[inline(always)]
    fn open_array(&mut self, _start: usize) -> Result<usize, AllocError> {
        Ok(self.elements.len())
    }

    #[inline(always)]
    fn element(&mut self, _array: &mut usize, item: JsonValue<'a, A>) -> Result<(), AllocError> {
        self.elements.push(item)?;
        Ok(())
    }

    #[inline(always)]
    fn close_array(&mut self, array: usize, _range: Range) -> Result<JsonValue<'a, A>, AllocError> {
        let elements = taken_from(&mut self.elements, array)?;
        Ok(array_of(elements))
    }

    #[inline(always)]
    fn open_object(&mut self, _start: usize) -> Result<usize, AllocError> {
        Ok(self.properties.len())
    }

    #[inline(always)]
    fn string_name(&mut self, range: Range) -> Result<CowStr<'a, A>, AllocError> {
        Ok(lent(&self.text[range.start + 1..range.end - 1]))
    }

    #[inline(always)]
    fn decoded_name(
        &mut self,
        _range: Range,
        value: String<A>,
    ) -> Result<CowStr<'a, A>, AllocError> {
        Ok(CowStr::Owned(value))
    }

    fn passed_name(&mut self, range: Range) -> Result<CowStr<'a, A>, AllocError> {
        let alloc = *self.elements.allocator();
        let value = decode_passed(alloc, self.text, range, &self.options)?;
        Ok(CowStr::Owned(value))
    }

    #[inline(always)]
    fn word_name(&mut self, range: Range) -> Result<CowStr<'a, A>, AllocError> {
        Ok(lent(&self.text[range.start..range.end]))
    }

    #[inline(always)]
    fn property(
        &mut self,
        _object: &mut usize,
        property: CowStr<'a, A>,
        item: JsonValue<'a, A>,
        _range: Range,
    ) -> Result<(), AllocError> {
        self.properties.push((property, item))?;
        Ok(())
    }

    #[inline(always)]
    fn close_object(
        &mut self,
        object: usize,
        _range: Range,
    ) -> Result<JsonValue<'a, A>, AllocError> {
        let properties = taken_from(&mut self.properties, object)?;
        if are_few_distinct(properties.as_slice()) {
            return Ok(object_of(Map::of_few(properties)));
        }
        Ok(object_of(Map::from_vec(properties)?))
    }
}

/// Parses a text to its value, without ranges and comments.
///
/// A text of blanks and comments alone has none. Of properties with one name the first gives the
/// place and the last the value. Strings and names without a backslash are lent by the text. A value
/// with more than 512 containers inside one another is an error. The error says what is wrong, in which bytes, and in which line and column; an allocation
/// failure is an error too.
pub fn parse_to_value<'a, A: Allocator + Copy>(
    alloc: A,
    text: &'a str,
    options: &ParseOptions,
) -> Result<Option<JsonValue<'a, A>>, ParseError>
    ensures accepted { IfOk result (IsValueOf (parse_options options.now) (chars text.now)) }
    ensures lent { IfOk result (IsLentBy (parse_options options.now) text.now) }
    ensures refused { IfErr result (RefusesText (parse_options options.now) text.now) }
    ensures fault { IfErr result (IsFault text.now) }
    ensures error { IfErr result (ParseFault (parse_options options.now) text.now false) }
{
    let mut context = Context::new(alloc, text, &CollectOptions::default(), options);
    let mut to = ValueMaker {
        text,
        options: options.copied(),
        elements: Vec::new(alloc),
        properties: Vec::new(alloc),
    };
    read_document(&mut context, &mut to)
}
