//! Laws of marks: literals and comments, as they are written. Each is the contract of a function that
//! does nothing.
ghost use Rattle.std.specs.Prelude.{List, ℕ};
ghost use Rattle.jsonc_text.specs.Options.{Options};
ghost use Rattle.jsonc_text.specs.Plain.{Plain};
ghost use Rattle.jsonc_tree.specs.Content.{Content};
ghost use Rattle.jsonc_tree.specs.OrderedTree.{OrderedTree};
ghost use Rattle.jsonc_layout.specs.from_input.Layout.{Layout};
ghost use Rattle.jsonc_sound.specs.Marks.{Mark};
ghost use Rattle.jsonc_sound.specs.MarkLaws.{HasOneListOfMarks, HasMarksOfTokens, EndsWithNoBlank, LeavesOutBlanks, PrintsItsMarks};
ghost use Rattle.jsonc_sound.specs.MarkLaws.{MarksJoin, MarksReplaced, PrintedMarksReplaced, ValuesMarksReplaced, TriviasMarksReplaced};
ghost use Rattle.jsonc_sound.specs.MarkLaws.{TriviaHasComments, LastMarkIsComment, OneMarkLeaves, BlanksKeepMarks, SpaceKeepsMarks};
ghost use Rattle.jsonc_sound.specs.MarkLaws.{LaidAsWritten, LaidAsWrittenNamed, WritesNoComments, KeepsOtherComments, HasOtherCommentsAlone};
ghost use Rattle.jsonc_sound.specs.WorkedMarks.{WorkedMarks};

/// A text has at most one list of marks, whatever the options, and has one where it is lexemes and
/// comments with blanks between them.
pub fn one_list_of_marks()
    ensures one { (o : Options) (t : List ℕ) → HasOneListOfMarks o t }
    ensures some { (o : Options) (t : List ℕ) → HasMarksOfTokens o t }
{}

/// What the mark of a comment leaves out: of a block comment nothing, and after a line comment all
/// blanks, whether they are the comment's or stand in whitespace after it.
pub fn comments_without_end_blanks()
    ensures block { (s : List ℕ) → EndsWithNoBlank s }
    ensures line { (s blanks : List ℕ) → LeavesOutBlanks s blanks }
{}

/// The marks of a sound document's leaves are those of the text that it prints.
pub fn sound_trees_print_their_marks()
    ensures { (o : Options) (t : OrderedTree) → PrintsItsMarks o t }
{}

/// Where in leaves one stretch is replaced by another, its marks are replaced by those of the other, and no
/// other mark changes: in the leaves, and in the texts that sound documents print.
pub fn marks_give_way()
    ensures join { (first second : List Content) → MarksJoin first second }
    ensures leaves { (was now x y : List Content) → MarksReplaced was now x y }
    ensures printed { (o : Options) (t u : OrderedTree) → PrintedMarksReplaced o t u }
{}

/// So where a value of a document is replaced by another, and where trivia does: all marks of trivia are
/// comments, and of trivia that ends in a comment the last mark is one.
pub fn values_and_trivia_give_way()
    ensures value { (t : OrderedTree) → ValuesMarksReplaced t }
    ensures trivia { (t : OrderedTree) → TriviasMarksReplaced t }
    ensures comments { (contents : List Content) → TriviaHasComments contents }
    ensures last { (contents : List Content) → LastMarkIsComment contents }
{}

/// Blanks and line ends have no marks: with a comment and blanks before it one mark is removed, and a space
/// that is put before an element changes none.
pub fn blanks_have_no_marks()
    ensures comment { (blanks : List Content) (s : List ℕ) (x y : List Content) → OneMarkLeaves blanks s x y }
    ensures kept { (was now x y : List Content) → BlanksKeepMarks was now x y }
    ensures space { (t : OrderedTree) → SpaceKeepsMarks t }
{}

/// The marks of what a value is laid out as are the literals that are written for the value, in any
/// layout, and no comments; and so with a property.
pub fn laid_values_are_written()
    ensures value { (l : Layout) (v : Plain) → LaidAsWritten l v }
    ensures property { (l : Layout) (s : List ℕ) (v : Plain) → LaidAsWrittenNamed l s v }
    ensures comments { (v : Plain) → WritesNoComments v }
{}

/// Where one stretch of marks is replaced by another, every comment outside of it is still there, in
/// order.
pub fn other_comments_stay()
    ensures kept { (was now x y : List Mark) → KeepsOtherComments was now x y }
    ensures alone { (was now x y : List Mark) → HasOtherCommentsAlone was now x y }
{}

/// Worked rows: `{a:1, // x `, a line's end and ` "b":[null]}` has the marks `a`, `1`, `// x`, `"b"` and
/// `null`, and so has each of two trees that print it, in one of which the blank before the line's end is
/// the comment's, in the other a leaf of its own.
pub fn worked_marks()
    ensures { WorkedMarks }
{}
