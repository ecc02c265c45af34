//! What makes the values of a text as it is read.
ghost use Rattle.std.specs.Prelude.{◌≡◌, ◌<◌, ◌^◌, length};

use crate::rows::{Member, Name, Row, Rows, Span, moved, next_number};
use jsonc_text::common::Range;
use jsonc_text::options::ParseOptions;
use jsonc_walk::passed::decode_passed;
use jsonc_walk::receiver::Receiver;
use std::alloc::{AllocError, Allocator};

/// What makes the values of a text as it is read.
#[derive(Drop)]
pub(crate) struct ViewMaker<'a, A: Allocator> {
    pub(crate) rows: Rows<'a, A>,
    options: ParseOptions,
    // The elements of the arrays that have not ended, those of the outer ones first.
    elements: Vec<Row, A>,
    // The members of the objects that have not ended.
    members: Vec<Member, A>,
    ghost small: { length rows.text.now < 2 ^ 32 },
}

// From one place to another.
#[inline(always)]
fn span(start: usize, end: usize) -> Span
    requires start { start < 2 ^ 32 }
    requires end { end < 2 ^ 32 }
    ensures start { result.start ≡ start }
    ensures end { result.end ≡ end }
{
    Span {
        start: start as u32,
        end: end as u32,
    }
}

impl<'a, A: Allocator + Copy> ViewMaker<'a, A> {
    ghost use Rattle.std.specs.Prelude.{IfOk, chars, string_bytes};
    ghost use Rattle.jsonc_text.specs.OptionsOf.{parse_options};
    ghost use Rattle.jsonc_walk.specs.Handed.{HasEscapedString, value_in};
    ghost use Rattle.jsonc_view.specs.Made.{Leads, source_in};
    ghost use Rattle.jsonc_view.specs.Shown.{WasDecoded};

    /// A maker that has read nothing.
    pub(crate) fn new(alloc: A, text: &'a str, options: &ParseOptions) -> Self
        requires { length text.now < 2 ^ 32 }
        ensures { source_in result ≡ record { bytes = text.now; options = parse_options options.now } }
    {
        ViewMaker {
            rows: Rows {
                text,
                decoded: Vec::new(alloc),
                elements: Vec::new(alloc),
                members: Vec::new(alloc),
            },
            options: options.copied(),
            elements: Vec::new(alloc),
            members: Vec::new(alloc),
        }
    }

    /// Keeps a string that was decoded, and answers its number.
    fn keep(&mut self, value: String<A>) -> Result<u32, AllocError>
        ensures { IfOk result (λ n. Leads self.old self.new (WasDecoded self.new.rows n (chars (string_bytes value)))) }
    {
        let number = next_number(&self.rows.decoded)?;
        self.rows.decoded.push(value)?;
        Ok(number)
    }

    /// Decodes a string that was passed, and keeps it.
    fn keep_passed(&mut self, range: Range) -> Result<u32, AllocError>
        requires { HasEscapedString (source_in self.old) range (value_in (source_in self.old) range) }
        ensures { IfOk result (λ n. Leads self.old self.new (WasDecoded self.new.rows n (value_in (source_in self.old) range))) }
    {
        let alloc = *self.elements.allocator();
        let value = decode_passed(alloc, self.rows.text, range, &self.options)?;
        self.keep(value)
    }
}

impl<'a, A: Allocator + Copy> Receiver<String<A>> for ViewMaker<'a, A> {
    ghost use Rattle.std.specs.Prelude.{false};
    ghost use Rattle.jsonc_view.specs.Made.{source_in, HoldsElements, HoldsMembers, IsMade, IsNamed};

    type Item = Row;

    // Where its elements begin among those of the arrays that have not ended.
    type Array = usize;

    // The same of its members.
    type Object = usize;

    type Property = Name;

    type Error = AllocError;

    ghost whole = { false };

    ghost source = { source_in };

    ghost makes = { IsMade };

    ghost names = { IsNamed };

    ghost holds_elements = { λ s t a i xs. HoldsElements s t a xs };

    ghost holds_properties = { λ s t o i ms. HoldsMembers s t o ms };

    ghost reached = { λ s i. Unit {0} };

    ghost passes = { λ s t. t ≡ s };

    #[inline(always)]
    fn is_whole(&self) -> bool {
        false
    }

    #[inline(always)]
    fn pass_gap(&mut self, from: usize) -> Result<usize, AllocError> {
        Ok(from)
    }

    #[inline(always)]
    fn string(&mut self, range: Range) -> Result<Row, AllocError> {
        Ok(Row::Lent(span(range.start + 1, range.end - 1)))
    }

    fn decoded(&mut self, _range: Range, value: String<A>) -> Result<Row, AllocError> {
        Ok(Row::Decoded(self.keep(value)?))
    }

    fn passed(&mut self, range: Range) -> Result<Row, AllocError> {
        Ok(Row::Decoded(self.keep_passed(range)?))
    }

    #[inline(always)]
    fn number(&mut self, range: Range) -> Result<Row, AllocError> {
        Ok(Row::Number(span(range.start, range.end)))
    }

    #[inline(always)]
    fn boolean(&mut self, _range: Range, value: bool) -> Result<Row, AllocError> {
        Ok(Row::Boolean(value))
    }

    #[inline(always)]
    fn null(&mut self, _range: Range) -> Result<Row, AllocError> {
        Ok(Row::Null)
    }

    #[inline(always)]
    fn open_array(&mut self, _start: usize) -> Result<usize, AllocError> {
        Ok(self.elements.len())
    }

    #[inline(always)]
    fn element(&mut self, _array: &mut usize, item: Row) -> Result<(), AllocError> {
        self.elements.push(item)?;
        Ok(())
    }

    #[inline(always)]
    fn close_array(&mut self, array: usize, _range: Range) -> Result<Row, AllocError> {
        Ok(Row::Array(moved(&mut self.elements, array, &mut self.rows.elements)?))
    }

    #[inline(always)]
    fn open_object(&mut self, _start: usize) -> Result<usize, AllocError> {
        Ok(self.members.len())
    }

    #[inline(always)]
    fn string_name(&mut self, range: Range) -> Result<Name, AllocError> {
        Ok(Name::Lent(span(range.start + 1, range.end - 1)))
    }

    fn decoded_name(&mut self, _range: Range, value: String<A>) -> Result<Name, AllocError> {
        Ok(Name::Decoded(self.keep(value)?))
    }

    fn passed_name(&mut self, range: Range) -> Result<Name, AllocError> {
        Ok(Name::Decoded(self.keep_passed(range)?))
    }

    #[inline(always)]
    fn word_name(&mut self, range: Range) -> Result<Name, AllocError> {
        Ok(Name::Lent(span(range.start, range.end)))
    }

    #[inline(always)]
    fn property(
        &mut self,
        _object: &mut usize,
        property: Name,
        item: Row,
        _range: Range,
    ) -> Result<(), AllocError> {
        self.members.push(Member {
            name: property,
            value: item,
        })?;
        Ok(())
    }

    #[inline(always)]
    fn close_object(&mut self, object: usize, _range: Range) -> Result<Row, AllocError> {
        Ok(Row::Object(moved(&mut self.members, object, &mut self.rows.members)?))
    }
}
