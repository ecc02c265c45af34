//! Laws of trailing commas that are set: each is the contract of a function that does nothing.
ghost use Rattle.std.specs.Prelude.{◌≡◌, [], ◌∷◌, List, None, Some, codes, ℕ};
ghost use Rattle.jsonc_text.specs.Options.{Options};
ghost use Rattle.jsonc_tree.specs.Tree.{Node};
ghost use Rattle.jsonc_text.specs.declared.edit.TrailingCommaMode.{TrailingCommaMode};
ghost use Rattle.jsonc_tree.specs.Order.{printed_at};
ghost use Rattle.jsonc_edit.specs.commas.Commas.{comma_gone, comma_wanted_behind};
ghost use Rattle.jsonc_edit.specs.commas.InTurn.{holders};
ghost use Rattle.jsonc_edit.specs.commas.Laws.{KeepsDocument, KeepsDocumentInPart, KeepsHolders};
ghost use Rattle.jsonc_edit.specs.commas.Laws.{LeavesAll, LeavesNone, LeavesNoneAnywhere};
ghost use Rattle.jsonc_edit.specs.commas.Laws.{LeavesOthers, LeavesOthersInPart, LeavesWhatIsSet};
ghost use Rattle.jsonc_edit.specs.commas.Laws.{SetsAll, SetsAllButSeveral, SetsOnce, SetsThoseDone};
ghost use Rattle.jsonc_edit.specs.commas.Worked.{bare_array, colonless_object, comma_array, open_array};

/// Where the commas of a node of a sound document, and of all below it, are set, the text is a document
/// again, of the same value and with the same literals and comments, and the document is sound. With
/// `Never` commas have left and with `IfMultiline` they have come, and nothing else has changed. It is so
/// under all options, with trailing commas allowed where the mode sets some, and where memory was refused
/// on the way. Where the node is none of the document, this stays, there too.
pub fn documents_say_the_same()
    ensures whole { (mode : TrailingCommaMode) (o : Options) (old : List Node) (c : ℕ) (new : List Node)
        → KeepsDocument mode o old c new }
    ensures part { (mode : TrailingCommaMode) (o : Options) (old : List Node) (c : ℕ) (new : List Node)
        → KeepsDocumentInPart mode o old c new }
    ensures others { (mode : TrailingCommaMode) (old : List Node) (c : ℕ) (new : List Node)
        → LeavesOthers mode old c new }
    ensures apart { (mode : TrailingCommaMode) (old : List Node) (c : ℕ) (new : List Node)
        → LeavesOthersInPart mode old c new }
{}

/// Then each array or object there is as the mode says: with `Never` none has a trailing comma, with
/// `IfMultiline` none wants one. Where memory was refused, each of those before is so. So it is in any
/// document, but that `Never` keeps a comma where several stood after the last element, which is in no
/// sound one. Where all is so before, nothing changes; so of a sound document nothing does a second time.
/// The same arrays and objects are there afterwards, in the same order. After `Never` the array or object,
/// or the document, is one of options that allow no trailing comma. After `IfMultiline` no trailing comma is
/// missing there, in the document as it is printed.
pub fn commas_are_set()
    ensures all { (mode : TrailingCommaMode) (o : Options) (old : List Node) (c : ℕ) (new : List Node)
        → SetsAll mode o old c new }
    ensures bare { (o : Options) (old : List Node) (c : ℕ) (new : List Node) → LeavesNone o old c new }
    ensures document { (o : Options) (old new : List Node) → LeavesNoneAnywhere o old new }
    ensures full { (o : Options) (old : List Node) (c : ℕ) (new : List Node) → LeavesAll o old c new }
    ensures part { (mode : TrailingCommaMode) (o : Options) (old : List Node) (c : ℕ) (new : List Node)
        → SetsThoseDone mode o old c new }
    ensures several { (mode : TrailingCommaMode) (old : List Node) (c : ℕ) (new : List Node)
        → SetsAllButSeveral mode old c new }
    ensures left { (mode : TrailingCommaMode) (old : List Node) (c : ℕ) (new : List Node)
        → LeavesWhatIsSet mode old c new }
    ensures once { (mode : TrailingCommaMode) (o : Options) (old now : List Node) (c : ℕ) (new : List Node)
        → SetsOnce mode o old now c new }
    ensures holders { (mode : TrailingCommaMode) (old : List Node) (c : ℕ) (new : List Node)
        → KeepsHolders mode old c new }
{}

/// Worked documents: in `[`, `  1,`, `  {"a": [2]}`, `]`, each on a line, a comma is wanted after the
/// object alone, and once it is there it is the one that is removed; so is a comma that is last in the
/// row, in the place of the bracket. What stands in a property that has lost its colon is not reached from above,
/// but its own comma can be set.
pub fn worked_documents()
    ensures holders { holders bare_array 0 ≡ 1 ∷ 9 ∷ 15 ∷ [] }
    ensures text { printed_at bare_array 0 ≡ codes "[\n  1,\n  {\"a\": [2]}\n]" }
    ensures wanted { comma_wanted_behind bare_array 1 ≡ Some 9 }
    ensures inner { comma_wanted_behind bare_array 9 ≡ None }
    ensures set { printed_at comma_array 0 ≡ codes "[\n  1,\n  {\"a\": [2]},\n]" }
    ensures once { comma_wanted_behind comma_array 1 ≡ None }
    ensures gone { comma_gone comma_array 1 ≡ Some 22 }
    ensures none { comma_gone bare_array 1 ≡ None }
    ensures open { comma_gone open_array 1 ≡ Some 22 }
    ensures lost { holders colonless_object 0 ≡ 1 ∷ [] }
    ensures itself { holders colonless_object 6 ≡ 6 ∷ [] }
{}
