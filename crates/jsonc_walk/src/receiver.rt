//! What a walk over a text hands what it reads to.

use jsonc_text::common::Range;
use std::alloc::Allocator;

/// A string that owns its characters.
pub trait Text: Drop {
    ghost use Rattle.std.specs.Prelude.{List, ℕ};

    ghost chars_of: { Self → List ℕ };
}

impl<A: Allocator> Text for String<A> {
    ghost use Rattle.std.specs.Prelude.{chars, string_bytes};

    ghost chars_of = { λ s. chars (string_bytes s) };
}

/// What is made of a text as it is read. The receiver has the text itself, and is told of literals by their places.
///
/// Between two of its states an item is made of a value, and a property is named. An array or an object
/// that was opened at one state holds elements or properties at a later one. It fails for want of memory alone, and one
/// that wants none has an `Error` without a value.
///
/// At each state it has come to a place of the text. What is handed next begins there. Gaps are passed between what
/// is handed, and with them the comma or colon before each.
pub trait Receiver<S: Text> {
    ghost use Rattle.std.specs.Prelude.{ℕ, ◌+◌, ◌-◌, ◌<◌, ◌≡◌, Bool, List, [], ◌∷◌, ◌++◌, IfOk, OnOk};
    ghost use Rattle.jsonc_text.specs.Plain.{string, number, boolean, null};
    ghost use Rattle.std.specs.Prelude.{IsCharBoundary};
    ghost use Rattle.jsonc_text.specs.Gaps.{Gap};
    ghost use Rattle.jsonc_text.specs.Text.{Spans};
    ghost use Rattle.jsonc_walk.specs.Located.{Between, Located, LocatedName, leaf_at, array_at, object_at, LocatedMember, items_of, members_of};
    ghost use Rattle.jsonc_walk.specs.Handed.{Source, chars_between, HasEscapedString, HasLooseName, HasNumber, HasPlainString, Covers, Follows, IsBehind, StaysHeld, value_in};

    type Item: Drop;

    type Array: Drop;

    type Object: Drop;

    type Property: Drop;

    /// That memory was wanted and there was none.
    type Error: Drop;

    ghost whole: { Bool };

    /// The text, and its options.
    ghost source: { Self → Source };

    ghost makes: { Self → Self → Self.Item → Located → Type 0 };

    ghost names: { Self → Self → Self.Property → LocatedName → Type 0 };

    /// An array that began at a place.
    ghost holds_elements: { Self → Self → Self.Array → ℕ → List Located → Type 0 };

    ghost holds_properties: { Self → Self → Self.Object → ℕ → List LocatedMember → Type 0 };

    /// The place that it has come to.
    ghost reached: { Self → ℕ → Type 0 };

    /// Between two states a gap was passed, and nothing else.
    ghost passes: { Self → Self → Type 0 };

    /// Whether properties count towards the depth beside containers. If so, faults of a container
    /// are told from where it begins.
    fn is_whole(&self) -> bool
        ensures { result ≡ whole };

    /// Passes as much as it likes of the gap at a place that it has come to, or that stands after a comma or a
    /// colon there. Answers up to where. It has come to whatever place the rest of the gap leads to.
    fn pass_gap(&mut self, from: usize) -> Result<usize, Self::Error>
        requires behind { IsBehind (source self.old) (reached self.old) from }
        requires boundary { IsCharBoundary (source self.old).bytes from }
        ensures kept { OnOk result (source self.new ≡ source self.old) }
        ensures gap { IfOk result (Between (source self.old).bytes (Gap (source self.old).options) from) }
        ensures reached { IfOk result
            (λ p. (i : ℕ) → Between (source self.old).bytes (Gap (source self.old).options) p i → reached self.new i) }
        ensures passes { OnOk result (passes self.old self.new) }
        ensures held { OnOk result (StaysHeld names holds_elements holds_properties self.old self.new) };

    /// A string without a backslash: it means what stands between its quotes.
    fn string(&mut self, range: Range) -> Result<Self::Item, Self::Error>
        requires inside { Spans (source self.old).bytes (range.start + 1) (range.end - 1) }
        requires stands { HasPlainString (source self.old) range }
        requires follows { Follows (source self.old) (reached self.old) range.start }
        ensures kept { OnOk result (source self.new ≡ source self.old) }
        ensures reached { OnOk result (reached self.new range.end) }
        ensures made { IfOk result (λ i. makes self.old self.new i
            (leaf_at range (string (chars_between (source self.old) (range.start + 1) (range.end - 1))))) };

    /// A string with a backslash, and what it means.
    fn decoded(&mut self, range: Range, value: S) -> Result<Self::Item, Self::Error>
        requires stands { HasEscapedString (source self.old) range (S.chars_of value) }
        requires follows { Follows (source self.old) (reached self.old) range.start }
        ensures kept { OnOk result (source self.new ≡ source self.old) }
        ensures reached { OnOk result (reached self.new range.end) }
        ensures made { IfOk result (λ i. makes self.old self.new i (leaf_at range (string (S.chars_of value)))) };

    /// A string with a backslash that was passed: its place alone is told.
    fn passed(&mut self, range: Range) -> Result<Self::Item, Self::Error>
        requires inside { Spans (source self.old).bytes range.start range.end }
        requires stands { HasEscapedString (source self.old) range (value_in (source self.old) range) }
        requires follows { Follows (source self.old) (reached self.old) range.start }
        ensures kept { OnOk result (source self.new ≡ source self.old) }
        ensures reached { OnOk result (reached self.new range.end) }
        ensures made { IfOk result (λ i. makes self.old self.new i (leaf_at range (string (value_in (source self.old) range)))) };

    /// A number.
    fn number(&mut self, range: Range) -> Result<Self::Item, Self::Error>
        requires inside { Spans (source self.old).bytes range.start range.end }
        requires stands { HasNumber (source self.old) range }
        requires follows { Follows (source self.old) (reached self.old) range.start }
        ensures kept { OnOk result (source self.new ≡ source self.old) }
        ensures reached { OnOk result (reached self.new range.end) }
        ensures made { IfOk result (λ i. makes self.old self.new i
            (leaf_at range (number (chars_between (source self.old) range.start range.end)))) };

    /// `true` or `false`.
    fn boolean(&mut self, range: Range, value: bool) -> Result<Self::Item, Self::Error>
        requires inside { Spans (source self.old).bytes range.start range.end }
        requires follows { Follows (source self.old) (reached self.old) range.start }
        ensures kept { OnOk result (source self.new ≡ source self.old) }
        ensures reached { OnOk result (reached self.new range.end) }
        ensures made { IfOk result (λ i. makes self.old self.new i (leaf_at range (boolean value))) };

    /// `null`.
    fn null(&mut self, range: Range) -> Result<Self::Item, Self::Error>
        requires inside { Spans (source self.old).bytes range.start range.end }
        requires follows { Follows (source self.old) (reached self.old) range.start }
        ensures kept { OnOk result (source self.new ≡ source self.old) }
        ensures reached { OnOk result (reached self.new range.end) }
        ensures made { IfOk result (λ i. makes self.old self.new i (leaf_at range null)) };

    /// The `[` of an array.
    fn open_array(&mut self, start: usize) -> Result<Self::Array, Self::Error>
        requires follows { Follows (source self.old) (reached self.old) start }
        ensures kept { OnOk result (source self.new ≡ source self.old) }
        ensures reached { OnOk result (reached self.new (start + 1)) }
        ensures held { IfOk result (λ a. holds_elements self.old self.new a start []) };

    /// An element of an array, after the others.
    fn element(&mut self, array: &mut Self::Array, item: Self::Item) -> Result<(), Self::Error>
        requires held { (s : Self) × (m : Self) × (i : ℕ) × (xs : List Located) × (x : Located)
            × holds_elements s m array.old i xs × makes m self.old item x }
        ensures kept { OnOk result (source self.new ≡ source self.old) }
        ensures reached { OnOk result ((i : ℕ) → reached self.old i → reached self.new i) }
        ensures held { OnOk result
            ((s m : Self) (i : ℕ) (xs : List Located) (x : Located) → holds_elements s m array.old i xs
            → makes m self.old item x → holds_elements s self.new array.new i (xs ++ x ∷ [])) };

    /// The array of these elements, whose `]` was read.
    fn close_array(&mut self, array: Self::Array, range: Range) -> Result<Self::Item, Self::Error>
        requires held { (s : Self) × (xs : List Located) × holds_elements s self.old array range.start xs }
        requires ends { 0 < range.end }
        requires follows { Follows (source self.old) (reached self.old) (range.end - 1) }
        ensures kept { OnOk result (source self.new ≡ source self.old) }
        ensures reached { OnOk result (reached self.new range.end) }
        ensures made { IfOk result
            (λ i. (s : Self) (xs : List Located) → holds_elements s self.old array range.start xs
            → makes s self.new i (array_at range (items_of xs))) };

    /// The `{` of an object.
    fn open_object(&mut self, start: usize) -> Result<Self::Object, Self::Error>
        requires follows { Follows (source self.old) (reached self.old) start }
        ensures kept { OnOk result (source self.new ≡ source self.old) }
        ensures reached { OnOk result (reached self.new (start + 1)) }
        ensures held { IfOk result (λ o. holds_properties self.old self.new o start []) };

    /// A name in quotes without a backslash.
    fn string_name(&mut self, range: Range) -> Result<Self::Property, Self::Error>
        requires inside { Spans (source self.old).bytes (range.start + 1) (range.end - 1) }
        requires stands { HasPlainString (source self.old) range }
        requires follows { Follows (source self.old) (reached self.old) range.start }
        ensures kept { OnOk result (source self.new ≡ source self.old) }
        ensures reached { OnOk result (reached self.new range.end) }
        ensures named { IfOk result (λ p. names self.old self.new p
            (record { range = range; name = chars_between (source self.old) (range.start + 1) (range.end - 1) })) };

    /// A name in quotes with a backslash, and what it means.
    fn decoded_name(&mut self, range: Range, value: S) -> Result<Self::Property, Self::Error>
        requires stands { HasEscapedString (source self.old) range (S.chars_of value) }
        requires follows { Follows (source self.old) (reached self.old) range.start }
        ensures kept { OnOk result (source self.new ≡ source self.old) }
        ensures reached { OnOk result (reached self.new range.end) }
        ensures named { IfOk result (λ p. names self.old self.new p (record { range = range; name = S.chars_of value })) };

    /// A name in quotes with a backslash that was passed.
    fn passed_name(&mut self, range: Range) -> Result<Self::Property, Self::Error>
        requires inside { Spans (source self.old).bytes range.start range.end }
        requires stands { HasEscapedString (source self.old) range (value_in (source self.old) range) }
        requires follows { Follows (source self.old) (reached self.old) range.start }
        ensures kept { OnOk result (source self.new ≡ source self.old) }
        ensures reached { OnOk result (reached self.new range.end) }
        ensures named { IfOk result (λ p. names self.old self.new p
            (record { range = range; name = value_in (source self.old) range })) };

    /// A name without quotes.
    fn word_name(&mut self, range: Range) -> Result<Self::Property, Self::Error>
        requires inside { Spans (source self.old).bytes range.start range.end }
        requires stands { HasLooseName (source self.old) range }
        requires follows { Follows (source self.old) (reached self.old) range.start }
        ensures kept { OnOk result (source self.new ≡ source self.old) }
        ensures reached { OnOk result (reached self.new range.end) }
        ensures named { IfOk result (λ p. names self.old self.new p
            (record { range = range; name = chars_between (source self.old) range.start range.end })) };

    /// A property of an object, put among the others.
    fn property(
        &mut self,
        object: &mut Self::Object,
        property: Self::Property,
        item: Self::Item,
        range: Range,
    ) -> Result<(), Self::Error>
        requires held { (s : Self) × (m : Self) × (k : Self) × (i : ℕ) × (ms : List LocatedMember) × (n : LocatedName)
            × (x : Located) × holds_properties s m object.old i ms × names m k property n × makes k self.old item x
            × Covers range n x }
        ensures kept { OnOk result (source self.new ≡ source self.old) }
        ensures reached { OnOk result ((i : ℕ) → reached self.old i → reached self.new i) }
        ensures held { OnOk result
            ((s m k : Self) (i : ℕ) (ms : List LocatedMember) (n : LocatedName) (x : Located)
            → holds_properties s m object.old i ms → names m k property n → makes k self.old item x → Covers range n x
            → holds_properties s self.new object.new i (ms ++ record { range = range; name = n; value = x } ∷ [])) };

    /// The object of these properties, whose `}` was read.
    fn close_object(
        &mut self,
        object: Self::Object,
        range: Range,
    ) -> Result<Self::Item, Self::Error>
        requires held { (s : Self) × (ms : List LocatedMember) × holds_properties s self.old object range.start ms }
        requires ends { 0 < range.end }
        requires follows { Follows (source self.old) (reached self.old) (range.end - 1) }
        ensures kept { OnOk result (source self.new ≡ source self.old) }
        ensures reached { OnOk result (reached self.new range.end) }
        ensures made { IfOk result
            (λ i. (s : Self) (ms : List LocatedMember) → holds_properties s self.old object range.start ms
            → makes s self.new i (object_at range (members_of ms))) };
}
