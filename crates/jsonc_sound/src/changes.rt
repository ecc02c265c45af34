//! Laws of changes: what a value, or trivia, that is replaced by another makes of a document. Each is the
//! contract of a function that does nothing.
ghost use Rattle.std.specs.Prelude.{Bool, List, Option, ℕ};
ghost use Rattle.jsonc_text.specs.Options.{Options};
ghost use Rattle.jsonc_text.specs.Plain.{Plain, Items, Members};
ghost use Rattle.jsonc_tree.specs.OrderedTree.{OrderedTree, Top};
ghost use Rattle.jsonc_sound.specs.Followers.{StandsInRows};
ghost use Rattle.jsonc_sound.specs.ChangeLaws.{ChangesValue, HoldsSoundValues, KeepsLeavesAround};
ghost use Rattle.jsonc_sound.specs.RowLaws.{ItemsComeApart, MembersComeApart, LinesComeApart};
ghost use Rattle.jsonc_sound.specs.Sound.{IsValueBefore};
ghost use Rattle.jsonc_sound.specs.TriviaValueLaws.{KeepsOtherLeaves, KeepsValue};
ghost use Rattle.jsonc_sound.specs.WorkedChanges.{AreElements, IsWorkedChange};

/// A node that is a value before some text is one before a blank, `/`, `,`, `]`, `}` and the end,
/// so wherever commas stand between values.
pub fn values_end_before_separators()
    ensures { (o : Options) (x : Top) (r : List ℕ) → IsValueBefore o x r → StandsInRows o x }
{}

/// Where a value of a document is replaced by another, so is its plain value at the same path, and
/// nothing else does.
pub fn changed_documents_have_changed_values()
    ensures { (o : Options) (t : OrderedTree) (x : Plain) → ChangesValue o t x }
{}

/// The leaves before and after a value that is replaced stay, and with them what they print.
pub fn changes_keep_the_leaves_around()
    ensures { (t : OrderedTree) → KeepsLeavesAround t }
{}

/// A worked row: in `{a:[1,_]}` the value in the place of the `_` stands at the path 0, 1.
pub fn worked_changes()
    ensures { (was now : Top) → AreElements was now → IsWorkedChange was now }
{}

/// Where trivia is replaced by trivia, a document has the value that it had.
pub fn changes_of_trivia_keep_the_value()
    ensures { (o : Options) (t : OrderedTree) (w : Option Plain) → KeepsValue o t w }
{}

/// Where trivia is replaced by trivia, all other leaves stay.
pub fn changes_of_trivia_keep_the_leaves_around()
    ensures { (t : OrderedTree) → KeepsOtherLeaves t }
{}

/// The plain values of one row after another are those of the one and then those of the other.
pub fn values_come_apart()
    ensures items { (o : Options) (first second : OrderedTree) (us : Items) → ItemsComeApart o first second us }
    ensures members { (o : Options) (first second : OrderedTree) (ms : Members) → MembersComeApart o first second ms }
{}

/// The line comments of one row after another end with their lines exactly where those of both do.
pub fn lines_come_apart()
    ensures { (at_end : Bool) (first second : OrderedTree) → LinesComeApart at_end first second }
{}

/// What may give way in a sound document is a value, and its line comments end with their lines.
pub fn sound_documents_hold_sound_values()
    ensures { (o : Options) (t : OrderedTree) → HoldsSoundValues o t }
{}
