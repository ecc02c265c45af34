//! What makes a value for edits of a text as it is read.
ghost use Rattle.std.specs.Prelude.{◌≡◌, IfOk};
ghost use Rattle.jsonc_text.specs.OptionsOf.{parse_options};
ghost use Rattle.jsonc_text.specs.Text.{Spans};
ghost use Rattle.jsonc_walk.specs.Handed.{chars_between};
ghost use Rattle.jsonc_layout.specs.input.Views.{chars_of};
ghost use Rattle.jsonc_input.specs.Made.{source_in};

use indexmap::IndexMap;
use jsonc_layout::input::CstInputValue;
use jsonc_text::common::Range;
use jsonc_text::options::ParseOptions;
use jsonc_walk::passed::decode_passed;
use jsonc_walk::receiver::Receiver;
use std::alloc::{AllocError, Allocator};
use std::hash::{BuildHasherDefault, FoldHasher};

// Names with values, each name once, in the order of their first places.
type Properties<A> = IndexMap<String<A>, CstInputValue<A>, BuildHasherDefault<FoldHasher>, A>;

/// What makes a value of a text as it is read. It owns its texts.
#[derive(Drop)]
pub(crate) struct InputMaker<'a, A: Allocator> {
    alloc: A,
    text: &'a str,
    options: ParseOptions,
}

impl<'a, A: Allocator + Copy> InputMaker<'a, A> {
    /// A text that is still to be read.
    pub(crate) fn new(alloc: A, text: &'a str, options: &ParseOptions) -> InputMaker<'a, A>
        ensures { source_in result ≡ record { bytes = text.now; options = parse_options options.now } }
    {
        InputMaker {
            alloc,
            text,
            options: options.copied(),
        }
    }

    // The characters from one place to another.
    fn part(&self, start: usize, end: usize) -> Result<String<A>, AllocError>
        requires { Spans self.now.text.now start end }
        ensures { IfOk result (λ s. chars_of s ≡ chars_between (source_in self.now) start end) }
    {
        String::from_str(self.alloc, &self.text[start..end])
    }
}

impl<'a, A: Allocator + Copy> Receiver<String<A>> for InputMaker<'a, A> {
    ghost use Rattle.std.specs.Prelude.{true};
    ghost use Rattle.jsonc_input.specs.Made.{source_in, AreElements, AreProperties, IsMade, IsName};

    type Item = CstInputValue<A>;

    type Array = Vec<CstInputValue<A>, A>;

    type Object = Properties<A>;

    type Property = String<A>;

    type Error = AllocError;

    ghost whole = { true };

    ghost source = { source_in };

    ghost makes = { λ s t v x. IsMade v x };

    ghost names = { λ s t k n. IsName k n };

    ghost holds_elements = { λ s t vs i xs. AreElements vs.items xs };

    ghost holds_properties = { λ s t ps i ms. AreProperties ps.entries ms };

    ghost reached = { λ s i. Unit {0} };

    ghost passes = { λ s t. Unit {0} };

    #[inline(always)]
    fn is_whole(&self) -> bool {
        true
    }

    #[inline(always)]
    fn pass_gap(&mut self, from: usize) -> Result<usize, AllocError> {
        Ok(from)
    }

    fn string(&mut self, range: Range) -> Result<CstInputValue<A>, AllocError> {
        let value = self.part(range.start + 1, range.end - 1)?;
        Ok(CstInputValue::from(value))
    }

    fn decoded(&mut self, _range: Range, value: String<A>) -> Result<CstInputValue<A>, AllocError> {
        Ok(CstInputValue::from(value))
    }

    fn passed(&mut self, range: Range) -> Result<CstInputValue<A>, AllocError> {
        let value = decode_passed(self.alloc, self.text, range, &self.options)?;
        Ok(CstInputValue::from(value))
    }

    fn number(&mut self, range: Range) -> Result<CstInputValue<A>, AllocError> {
        let text = self.part(range.start, range.end)?;
        Ok(CstInputValue::Number(text))
    }

    fn boolean(&mut self, _range: Range, value: bool) -> Result<CstInputValue<A>, AllocError> {
        Ok(CstInputValue::from(value))
    }

    fn null(&mut self, _range: Range) -> Result<CstInputValue<A>, AllocError> {
        Ok(CstInputValue::Null)
    }

    fn open_array(&mut self, _start: usize) -> Result<Vec<CstInputValue<A>, A>, AllocError> {
        Ok(Vec::new(self.alloc))
    }

    fn element(
        &mut self,
        array: &mut Vec<CstInputValue<A>, A>,
        item: CstInputValue<A>,
    ) -> Result<(), AllocError> {
        array.push(item)?;
        Ok(())
    }

    fn close_array(
        &mut self,
        array: Vec<CstInputValue<A>, A>,
        _range: Range,
    ) -> Result<CstInputValue<A>, AllocError> {
        Ok(CstInputValue::from(array))
    }

    fn open_object(&mut self, _start: usize) -> Result<Properties<A>, AllocError> {
        Ok(IndexMap::new(self.alloc))
    }

    fn string_name(&mut self, range: Range) -> Result<String<A>, AllocError> {
        self.part(range.start + 1, range.end - 1)
    }

    fn decoded_name(&mut self, _range: Range, value: String<A>) -> Result<String<A>, AllocError> {
        Ok(value)
    }

    fn passed_name(&mut self, range: Range) -> Result<String<A>, AllocError> {
        decode_passed(self.alloc, self.text, range, &self.options)
    }

    fn word_name(&mut self, range: Range) -> Result<String<A>, AllocError> {
        self.part(range.start, range.end)
    }

    fn property(
        &mut self,
        object: &mut Properties<A>,
        property: String<A>,
        item: CstInputValue<A>,
        _range: Range,
    ) -> Result<(), AllocError> {
        match object.insert(property, item) {
            Ok(_) => Ok(()),
            Err(_) => Err(AllocError),
        }
    }

    fn close_object(
        &mut self,
        object: Properties<A>,
        _range: Range,
    ) -> Result<CstInputValue<A>, AllocError> {
        let mut properties = Vec::with_capacity(self.alloc, object.len())?;
        for property in object {
            properties.push(property)?;
        }
        Ok(CstInputValue::from(properties))
    }
}
