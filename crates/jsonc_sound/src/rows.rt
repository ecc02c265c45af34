//! Laws of rows from which an element is removed, into which a value is put, or in which a property is
//! replaced. Each is the contract of a function that does nothing.
ghost use Rattle.std.specs.Prelude.{List, ℕ};
ghost use Rattle.jsonc_text.specs.Options.{Options};
ghost use Rattle.jsonc_text.specs.Plain.{Plain};
ghost use Rattle.jsonc_tree.specs.OrderedTree.{OrderedTree};
ghost use Rattle.jsonc_tree.specs.OrderedTree.{Top};
ghost use Rattle.jsonc_sound.specs.EntryLaws.{SoundWithoutElement, ItemsWithoutElement, MembersWithoutElement, ValueWithoutElement, MarksWithoutElement};
ghost use Rattle.jsonc_sound.specs.EntryLaws.{SoundWithoutValue, NoValueWithoutValue, MarksWithoutValue};
ghost use Rattle.jsonc_sound.specs.EntryLaws.{SoundWithFirstValue, HasFirstValue, MarksWithFirstValue};
ghost use Rattle.jsonc_sound.specs.Properties.{SoundWithProperty, MembersWithProperty, ValueWithProperty, MarksWithProperty};

/// A sound document stays sound where an element is removed from one of its containers, under all options.
pub fn documents_without_an_element_are_sound()
    ensures { (o : Options) (t : OrderedTree) → SoundWithoutElement o t }
{}

/// The plain value loses that entry, and nothing else of it changes.
pub fn values_without_an_element()
    ensures items { (o : Options) (top : Top) (row left new : OrderedTree) → ItemsWithoutElement o top row left new }
    ensures members { (o : Options) (top : Top) (row left new : OrderedTree)
        → MembersWithoutElement o top row left new }
    ensures document { (o : Options) (t : OrderedTree) (x : Plain) → ValueWithoutElement o t x }
{}

/// Of the marks those of the element are removed, and those of comments beside it.
pub fn marks_without_an_element()
    ensures { (t : OrderedTree) → MarksWithoutElement t }
{}

/// Where its value is removed from a sound document, this stays sound and has none, and of its marks those
/// of the value are removed, and those of comments beside it.
pub fn documents_without_a_value()
    ensures sound { (o : Options) (top : Top) (row left new : OrderedTree) → SoundWithoutValue o top row left new }
    ensures value { (o : Options) (top : Top) (row left new : OrderedTree) → NoValueWithoutValue o top row left new }
    ensures marks { (top : Top) (row left new : OrderedTree) → MarksWithoutValue top row left new }
{}

/// Where a whole value is put into a sound document that had none, this is sound and has the value, and
/// the value's marks are new.
pub fn documents_with_a_first_value()
    ensures sound { (o : Options) (top : Top) (v : Plain) (row new : OrderedTree)
        → SoundWithFirstValue o top v row new }
    ensures value { (o : Options) (top : Top) (v : Plain) (row new : OrderedTree) → HasFirstValue o top v row new }
    ensures marks { (top : Top) (row new : OrderedTree) → MarksWithFirstValue top row new }
{}

/// Where a property of a sound document is replaced by a whole property of a name and a value, and no two
/// literals without quotes meet beside it, the document stays sound, its plain value changes in that one
/// entry, and the marks of the property are replaced by those of the new one.
pub fn properties_give_way()
    ensures sound { (o : Options) (t : OrderedTree) → SoundWithProperty o t }
    ensures members { (o : Options) (name : List ℕ) (v : Plain) → MembersWithProperty o name v }
    ensures document { (o : Options) (t : OrderedTree) (x : Plain) → ValueWithProperty o t x }
    ensures marks { (t : OrderedTree) → MarksWithProperty t }
{}
