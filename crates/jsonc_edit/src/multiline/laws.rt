//! Laws of arrays and objects on several lines: each is the contract of a function that does nothing.
ghost use Rattle.std.specs.Prelude.{◌≡◌, [], ◌∷◌, List, ℕ, codes};
ghost use Rattle.jsonc_text.specs.Options.{Options};
ghost use Rattle.jsonc_tree.specs.OrderedTree.{OrderedTree};
ghost use Rattle.jsonc_tree.specs.Tree.{Node};
ghost use Rattle.jsonc_text.specs.declared.edit.EditError.TheVariants.{MissingBrackets};
ghost use Rattle.jsonc_edit.specs.multiline.Laws.{HasItsBrackets, HasLineEnd, KeepsDocument, KeepsLeavesOutside, KeepsNodesInside};
ghost use Rattle.jsonc_edit.specs.multiline.Laws.{SpreadAt, SpreadsAt, StaysSpread};
ghost use Rattle.jsonc_edit.specs.multiline.Lines.{lines_for};
ghost use Rattle.jsonc_edit.specs.multiline.Multiline.{IsUnspread};
ghost use Rattle.jsonc_edit.specs.multiline.Worked.{at_front, inside, one_level_in, text_inside, text_on_lines};
ghost use Rattle.jsonc_edit.specs.multiline.Worked.{commented_array, object_nodes, open_array, spaced_array};

/// Where an array or object at a path of a sound document is put on several lines, its row stays if a
/// line ended in it. Any other row reflows: ends of lines are inserted, with an indent or none, and
/// whitespace beside them is removed. All else in it stays, and nothing outside of it changes.
pub fn containers_are_spread_out()
    ensures { (o : Options) (old new : List Node) (path : List ℕ) (c : ℕ) → SpreadsAt o old new path c }
{}

/// The text is a document again, of the same value and with the same literals and comments, and the
/// document is sound. It is so under all options. All leaves outside of the array or object stay, and in
/// its row all nodes but whitespace and ends of lines, each with what is below it.
pub fn spread_documents_say_the_same()
    ensures document { (o : Options) (t u : OrderedTree) (path : List ℕ) → KeepsDocument o t u path }
    ensures outside { (path : List ℕ) (t u : OrderedTree) (s : SpreadAt path t u) → KeepsLeavesOutside s }
    ensures inside { (path : List ℕ) (t u : OrderedTree) (s : SpreadAt path t u) → KeepsNodesInside s }
{}

/// What was put on several lines has the end of a line among its children, so a second time nothing
/// changes. An array or object at a path of a sound document has its brackets.
pub fn spread_containers_stay_spread()
    ensures line_end { (old new : List Node) (c : ℕ) → HasLineEnd old new c }
    ensures once { (old now new : List Node) (c : ℕ) → StaysSpread old now new c }
    ensures brackets { (o : Options) (ns : List Node) (path : List ℕ) (c : ℕ) → HasItsBrackets o ns path c }
{}

/// Worked rows: `[ 1 , 2 ]` on several lines keeps the space before its comma alone, and an array without
/// elements holds the end of a line.
pub fn worked_rows()
    ensures front { text_on_lines at_front spaced_array inside ≡ codes "\n  1 ,\n  2\n" }
    ensures deeper { text_on_lines one_level_in spaced_array inside ≡ codes "\r\n    1 ,\r\n    2\r\n  " }
    ensures comma { text_on_lines at_front spaced_array (3 ∷ 5 ∷ 6 ∷ []) ≡ codes "\n  1,\n" }
    ensures first { text_on_lines at_front spaced_array (2 ∷ 5 ∷ 3 ∷ []) ≡ codes "\n  ,\n  1\n" }
    ensures blank { text_on_lines at_front spaced_array (2 ∷ []) ≡ codes "\n" }
    ensures empty { text_on_lines at_front spaced_array [] ≡ codes "\n" }
{}

/// Worked documents: `{"a":1, "b":[2]}` takes two spaces a level, and each property a line; comments stay
/// in their parts, and nothing stands after a trailing comma; `[1` lacks a bracket.
pub fn worked_documents()
    ensures lines { lines_for object_nodes 1 ≡ at_front }
    ensures object { text_inside at_front object_nodes 1 ≡ codes "\n  \"a\":1,\n  \"b\":[2]\n" }
    ensures comments { text_inside at_front commented_array 1 ≡ codes "\n  /*a*/ 1 /*b*/,\n  2,\n" }
    ensures lacking { IsUnspread open_array 1 MissingBrackets }
{}
