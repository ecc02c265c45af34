//! Laws of comments that are inserted: each is the contract of a function that does nothing.
ghost use Rattle.std.specs.Prelude.{List, ℕ};
ghost use Rattle.jsonc_text.specs.Options.{Options};
ghost use Rattle.jsonc_tree.specs.Tree.{Node};
ghost use Rattle.jsonc_edit.specs.commenting.Laws.{GainsAbove, GainsBehind, InsertsAbove, InsertsBehind};

/// Where a comment has been inserted above an entry of a sound document, or after it, the text is a document
/// again, of the same value; of its literals and comments this one is new, and all others stay; and
/// the document is sound. It is so under all options that allow comments. After an entry a line comment
/// may be inserted where its line ends.
pub fn comments_are_inserted()
    ensures above { (o : Options) (old new : List Node) (n : ℕ) (text : List ℕ) → InsertsAbove o old new n text }
    ensures behind { (o : Options) (old new : List Node) (n : ℕ) (text : List ℕ) → InsertsBehind o old new n text }
{}

/// In every document, also one that is not sound, the comment is inserted with whitespace and ends of lines
/// alone, and all other leaves stay, in order. Above an entry the comment's line ends after it, and
/// blanks alone stand between that and the entry. After it a space stands before the comment, and
/// whitespace and comments alone stand between the two, and the entry's comma: in a sound document
/// always where it follows on the line.
pub fn comments_come_among_leaves()
    ensures above { (old new : List Node) (n : ℕ) (text : List ℕ) → GainsAbove old new n text }
    ensures behind { (old new : List Node) (n : ℕ) (text : List ℕ) → GainsBehind old new n text }
{}
