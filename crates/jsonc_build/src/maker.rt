//! What makes the tree of a document as its text is read.
ghost use Rattle.std.specs.Prelude.{ℕ, List, [], ◌≡◌, ◌+◌, ◌-◌, ◌<◌, ◌==◌, true, IfOk, OnOk, IsCharBoundary, IsTrue, length, slice_range};
ghost use Rattle.std.specs.Rc.{rc_str_bytes};
ghost use Rattle.jsonc_text.specs.OptionsOf.{parse_options};
ghost use Rattle.jsonc_text.specs.Text.{Spans, next, rest, starts};
ghost use Rattle.jsonc_tree.specs.Content.{Content, array, is_container, object, property, token};
ghost use Rattle.jsonc_tree.specs.Growing.{IsGrowing};
ghost use Rattle.jsonc_tree.specs.OrderedTree.{OrderedTree, none};
ghost use Rattle.jsonc_tree.specs.Stored.{content_of};
ghost use Rattle.jsonc_tree.specs.Tree.{children_at, is_container_at};
ghost use Rattle.jsonc_text.specs.Gaps.{Gap};
ghost use Rattle.jsonc_walk.specs.Located.{Between};
ghost use Rattle.jsonc_walk.specs.Handed.{Follows, IsBehind};
ghost use Rattle.jsonc_sound.specs.Filling.{is_separator};
ghost use Rattle.jsonc_build.specs.Laid.{EndsGap, FillsGap, NameLaid, is_quote_at};
ghost use Rattle.jsonc_build.specs.Making.{container_in, source_in, nodes_in, Closes, Holds, IsAt, Names, Opens, Passes, Puts, PutsLeaf};

use crate::fill::fill_gap;
use crate::room::make_room;
use jsonc_text::chars::{char_at, has_byte};
use jsonc_text::common::Range;
use jsonc_text::options::ParseOptions;
use jsonc_tree::{Ends, Growing, Kind, Part, Tree};
use jsonc_walk::receiver::Receiver;
use std::alloc::{AllocError, Allocator};
use std::rc::RcStr;

/// What makes the tree of a text as it is read.
#[derive(Drop)]
pub(crate) struct DocumentMaker<'a, A: Allocator> {
    tree: Growing<A>,
    text: &'a str,
    // The same text, of which the leaves have parts.
    whole: RcStr<A>,
    options: ParseOptions,
    // Up to where the tree has the text.
    place: usize,
}

// Whether a quote stands at a place.
fn is_quote_at(text: &str, place: usize) -> bool
    requires { IsCharBoundary text.now place }
    ensures { result ≡ is_quote_at text.now place }
{
    match char_at(text, place) {
        Some(c) => (c == '"') | (c == '\''),
        None => false,
    }
}

// The comma or colon at a place.
#[inline(always)]
fn mark_at(text: &str, place: usize) -> char
    requires boundary { IsCharBoundary text.now place }
    requires stands { IsTrue (starts is_separator (next (rest text.now place))) }
    ensures here { IsTrue (starts (λ c. c == result) (next (rest text.now place))) }
    ensures mark { IsTrue (is_separator result) }
{
    if has_byte(text, place, b',') {
        ','
    } else {
        ':'
    }
}

impl<'a, A: Allocator + Copy> DocumentMaker<'a, A> {
    /// A document whose text is still to be read.
    pub(crate) fn new(
        alloc: A,
        text: &'a str,
        options: &ParseOptions,
    ) -> Result<DocumentMaker<'a, A>, AllocError>
        ensures source { IfOk result (λ m. source_in m ≡ record { bytes = text.now; options = parse_options options.now }) }
        ensures reached { IfOk result (λ m. IsAt m 0) }
        ensures root { IfOk result (λ m. container_in m ≡ 0) }
        ensures one { IfOk result (λ m. length (nodes_in m) ≡ 1) }
        ensures bare { IfOk result (λ m. children_at (nodes_in m) 0 ≡ []) }
    {
        Ok(DocumentMaker {
            tree: Growing::new(alloc)?,
            text,
            whole: RcStr::from_str(alloc, text)?,
            options: options.copied(),
            place: 0,
        })
    }

    /// The tree.
    pub(crate) fn finish(self) -> Tree<A>
        requires { IsAt self self.place }
        ensures { result.nodes ≡ nodes_in self.entry }
    {
        let DocumentMaker { tree, .. } = self;
        tree.finish()
    }

    // The text in a range, as written.
    fn written(&self, range: Range) -> Result<Part<A>, AllocError>
        requires whole { rc_str_bytes self.now.whole ≡ self.now.text.now }
        requires spans { Spans self.now.text.now range.start range.end }
        ensures { IfOk result (λ s. s ≡ slice_range self.now.text.now range.start range.end) }
    {
        Part::new(&self.whole, range.start, range.end)
    }

    // A name in a range, as written: a string in quotes, or a word.
    fn name_in(&self, range: Range) -> Result<Kind<A>, AllocError>
        requires whole { rc_str_bytes self.now.whole ≡ self.now.text.now }
        requires spans { Spans self.now.text.now range.start range.end }
        ensures { IfOk result (λ k. NameLaid self.now.text.now range (content_of k)) }
    {
        let name = self.written(range)?;
        if is_quote_at(self.text, range.start) {
            return Ok(Kind::StringPart(name));
        }
        Ok(Kind::WordPart(name))
    }

    // Adds the comma or colon that stands before a place, if one does.
    #[inline(always)]
    fn mark(&mut self, from: usize) -> Result<(), AllocError>
        requires behind { IsBehind (source_in self.old) (IsAt self.old) from }
        requires boundary { IsCharBoundary self.old.text.now from }
        ensures rest { OnOk result (self.new ≡ record self.old { tree = self.new.tree }) }
        ensures container { OnOk result (container_in self.new ≡ container_in self.old) }
        ensures growing { OnOk result (IsGrowing self.new.tree) }
        ensures filled { OnOk result (FillsGap (nodes_in self.old) (nodes_in self.new) (container_in self.old)
            self.old.text.now self.old.place from) }
    {
        if self.place == from {
            return Ok(());
        }
        let mark = mark_at(self.text, self.place);
        self.tree.push(Kind::token(mark))?;
        Ok(())
    }

    // Adds it, and the leaves of the gap at the place, and answers where that ends.
    #[inline(always)]
    fn pass(&mut self, from: usize) -> Result<usize, AllocError>
        requires behind { IsBehind (source_in self.old) (IsAt self.old) from }
        requires boundary { IsCharBoundary self.old.text.now from }
        ensures passes { OnOk result (Passes self.old self.new) }
        ensures at { IfOk result (IsAt self.new) }
        ensures gap { IfOk result (Between self.old.text.now (Gap (source_in self.old).options) from) }
        ensures ends { IfOk result (EndsGap (source_in self.old).options self.old.text.now) }
    {
        self.mark(from)?;
        let end = fill_gap(&mut self.tree, &self.whole, self.text, from, &self.options)?;
        self.place = end;
        Ok(end)
    }

    // Adds a node.
    #[inline(always)]
    fn put(&mut self, start: usize, kind: Kind<A>) -> Result<usize, AllocError>
        requires { Follows (source_in self.old) (IsAt self.old) start }
        ensures rest { OnOk result (self.new ≡ record self.old { tree = self.new.tree }) }
        ensures container { OnOk result (container_in self.new ≡ container_in self.old) }
        ensures growing { OnOk result (IsGrowing self.new.tree) }
        ensures put { IfOk result (Puts (nodes_in self.old) (nodes_in self.new) (container_in self.old)
            self.old.text.now self.old.place start (content_of kind)) }
    {
        make_room(&mut self.tree, start, self.text.len())?;
        self.tree.push(kind)
    }

    // Adds a value that is a leaf.
    #[inline(always)]
    fn leaf(&mut self, range: Range, kind: Kind<A>) -> Result<(), AllocError>
        requires { Follows (source_in self.old) (IsAt self.old) range.start }
        ensures kept { OnOk result (source_in self.new ≡ source_in self.old) }
        ensures reached { OnOk result (IsAt self.new range.end) }
        ensures put { OnOk result (PutsLeaf self.old self.new range (content_of kind)) }
    {
        self.put(range.start, kind)?;
        self.place = range.end;
        Ok(())
    }

    // Opens an array or an object, and answers the container around it.
    fn open(&mut self, start: usize, kind: Kind<A>, bracket: char) -> Result<usize, AllocError>
        requires follows { Follows (source_in self.old) (IsAt self.old) start }
        requires container { is_container (content_of kind) ≡ true }
        ensures kept { OnOk result (source_in self.new ≡ source_in self.old) }
        ensures reached { OnOk result (IsAt self.new (start + 1)) }
        ensures held { IfOk result (λ c. Holds self.old self.new c start (content_of kind) bracket none) }
    {
        let around = self.tree.container();
        let node = self.put(start, kind)?;
        self.tree.enter(node);
        self.tree.push(Kind::token(bracket))?;
        self.place = start + 1;
        Ok(around)
    }

    // Closes it, in the container around it.
    fn close(&mut self, around: usize, range: Range, bracket: char) -> Result<(), AllocError>
        requires follows { Follows (source_in self.old) (IsAt self.old) (range.end - 1) }
        requires ends { 0 < range.end }
        requires in_tree { around < length (nodes_in self.old) }
        requires container { IsTrue (is_container_at (nodes_in self.old) around) }
        ensures kept { OnOk result (source_in self.new ≡ source_in self.old) }
        ensures reached { OnOk result (IsAt self.new range.end) }
        ensures closes { OnOk result (Closes self.old self.new around range bracket) }
    {
        self.put(range.end - 1, Kind::token(bracket))?;
        self.tree.enter(around);
        self.place = range.end;
        Ok(())
    }

    // Opens a property, puts its name into it, and answers the container around it.
    fn name(&mut self, range: Range) -> Result<usize, AllocError>
        requires follows { Follows (source_in self.old) (IsAt self.old) range.start }
        requires spans { Spans self.old.text.now range.start range.end }
        ensures kept { OnOk result (source_in self.new ≡ source_in self.old) }
        ensures reached { OnOk result (IsAt self.new range.end) }
        ensures named { IfOk result (λ c. (x : List ℕ) → Names self.old self.new c (record { range = range; name = x })) }
    {
        let around = self.tree.container();
        let name = self.name_in(range)?;
        let property = self.put(range.start, Kind::Property(Ends::none()))?;
        self.tree.enter(property);
        self.tree.push(name)?;
        self.place = range.end;
        Ok(around)
    }
}

impl<'a, A: Allocator + Copy> Receiver<String<A>> for DocumentMaker<'a, A> {
    ghost use Rattle.std.specs.Prelude.{true};
    ghost use Rattle.jsonc_build.specs.Making.{source_in, Adds, HoldsElements, HoldsProperties, IsAt, Names, Passes};

    type Item = ();

    // The container around it.
    type Array = usize;

    type Object = usize;

    type Property = usize;

    type Error = AllocError;

    ghost whole = { true };

    ghost source = { source_in };

    ghost makes = { λ s t i x. Adds s t x };

    ghost names = { Names };

    ghost holds_elements = { HoldsElements };

    ghost holds_properties = { HoldsProperties };

    ghost reached = { IsAt };

    ghost passes = { Passes };

    #[inline(always)]
    fn is_whole(&self) -> bool {
        true
    }

    #[inline(always)]
    fn pass_gap(&mut self, from: usize) -> Result<usize, AllocError> {
        let end = self.pass(from)?;
        Ok(end)
    }

    fn string(&mut self, range: Range) -> Result<(), AllocError> {
        let text = self.written(range)?;
        self.leaf(range, Kind::StringPart(text))
    }

    fn decoded(&mut self, range: Range, _value: String<A>) -> Result<(), AllocError> {
        let text = self.written(range)?;
        self.leaf(range, Kind::StringPart(text))
    }

    fn passed(&mut self, range: Range) -> Result<(), AllocError> {
        let text = self.written(range)?;
        self.leaf(range, Kind::StringPart(text))
    }

    fn number(&mut self, range: Range) -> Result<(), AllocError> {
        let text = self.written(range)?;
        self.leaf(range, Kind::NumberPart(text))
    }

    fn boolean(&mut self, range: Range, value: bool) -> Result<(), AllocError> {
        self.leaf(range, Kind::Boolean(value))
    }

    fn null(&mut self, range: Range) -> Result<(), AllocError> {
        self.leaf(range, Kind::Null)
    }

    fn open_array(&mut self, start: usize) -> Result<usize, AllocError> {
        self.open(start, Kind::Array(Ends::none()), '[')
    }

    #[inline(always)]
    fn element(&mut self, _array: &mut usize, _item: ()) -> Result<(), AllocError> {
        Ok(())
    }

    fn close_array(&mut self, array: usize, range: Range) -> Result<(), AllocError> {
        self.close(array, range, ']')
    }

    fn open_object(&mut self, start: usize) -> Result<usize, AllocError> {
        self.open(start, Kind::Object(Ends::none()), '{')
    }

    fn string_name(&mut self, range: Range) -> Result<usize, AllocError> {
        self.name(range)
    }

    fn decoded_name(&mut self, range: Range, _value: String<A>) -> Result<usize, AllocError> {
        self.name(range)
    }

    fn passed_name(&mut self, range: Range) -> Result<usize, AllocError> {
        self.name(range)
    }

    fn word_name(&mut self, range: Range) -> Result<usize, AllocError> {
        self.name(range)
    }

    #[inline(always)]
    fn property(
        &mut self,
        _object: &mut usize,
        property: usize,
        _item: (),
        _range: Range,
    ) -> Result<(), AllocError> {
        self.tree.enter(property);
        Ok(())
    }

    fn close_object(&mut self, object: usize, range: Range) -> Result<(), AllocError> {
        self.close(object, range, '}')
    }
}
