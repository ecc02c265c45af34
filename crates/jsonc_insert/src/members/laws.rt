//! Laws of properties that are inserted into objects: each is the contract of a function that does nothing.
ghost use Rattle.std.specs.Prelude.{◌≡◌, List, ℕ, codes};
ghost use Rattle.jsonc_text.specs.Options.{Options};
ghost use Rattle.jsonc_text.specs.Plain.{Plain};
ghost use Rattle.jsonc_tree.specs.Tree.{Node};
ghost use Rattle.jsonc_insert.specs.members.Laws.{ChangesObjectAlone, ChangesOneRow, FitsAsTold, IsTheProperty};
ghost use Rattle.jsonc_insert.specs.members.Laws.{LosesBlanksAlone, PastTheEnd, SpreadsFirst, TakesItsNumber};
ghost use Rattle.jsonc_insert.specs.members.Laws.{OnlyOutOfMemory};
ghost use Rattle.jsonc_insert.specs.members.Worked.{b, c_is_two, commented, empty_inside, on_one_line};
ghost use Rattle.jsonc_insert.specs.members.Worked.{text_with, two, with_comma};

/// Worked insertions into objects on one line: what they print with one more property.
pub fn worked_on_one_line()
    ensures appended { text_with on_one_line 1 9 b two ≡ codes "{\n  \"a\":1,\n  \"b\": 2\n}" }
    ensures first { text_with on_one_line 1 0 b two ≡ codes "{\n  \"b\": 2,\n  \"a\":1\n}" }
    ensures behind_comment { text_with commented 1 1 b two ≡ codes "{\n  \"a\":1, /*x*/\n  \"b\": 2\n}" }
{}

/// The same into objects on several lines: the indents and the comma after the last property are kept.
pub fn worked_on_lines()
    ensures comma { text_with with_comma 1 1 b two ≡ codes "{\n  \"a\":1,\n  \"b\": 2,\n}" }
    ensures inner { text_with empty_inside 6 0 b two ≡ codes "{\n\t\t\"b\": 2\n\t}" }
    ensures object { text_with empty_inside 1 1 b c_is_two ≡ codes "{\n\t\"a\":{},\n\t\"b\": {\n\t\t\"c\": 2\n\t}\n}" }
{}

/// Where a property has been inserted into an object, the object's row is the new one, and every other node
/// is what it was; and the new node is the property of the number that was asked for, or the last one where there
/// were fewer.
pub fn properties_come_in()
    ensures row { (old new : List Node) (c i : ℕ) (name : List ℕ) (v : Plain) (m : ℕ)
        → ChangesOneRow old new c i name v m }
    ensures number { (old new : List Node) (c i : ℕ) (name : List ℕ) (v : Plain) (m : ℕ)
        → TakesItsNumber old new c i name v m }
{}

/// After the last property all numbers do the same, so that each of them appends.
pub fn numbers_past_the_end_append()
    ensures { (old new : List Node) (c i j : ℕ) (name : List ℕ) (v : Plain) (m : ℕ)
        → PastTheEnd old new c i j name v m }
{}

/// Of the object's children only whitespace and ends of lines are removed, and they are detached then.
pub fn blanks_alone_leave()
    ensures { (old new : List Node) (c i : ℕ) (name : List ℕ) (v : Plain) (m : ℕ)
        → LosesBlanksAlone old new c i name v m }
{}

/// Nothing outside of the object changes, and the node that is answered is the property of the name and
/// the value.
pub fn objects_change_alone()
    ensures object { (old new : List Node) (c i : ℕ) (name : List ℕ) (v : Plain) (m : ℕ)
        → ChangesObjectAlone old new c i name v m }
    ensures property { (old new : List Node) (c i : ℕ) (name : List ℕ) (v : Plain) (m : ℕ)
        → IsTheProperty old new c i name v m }
{}

/// Where a property has been inserted into an object at a path of a sound document, the object was put on
/// several lines before, unless a line ended in it already, and the layout that its row tells is one that documents
/// of these options may have. Such an object has its brackets, so nothing but allocation failure keeps a
/// property from being inserted.
pub fn objects_are_spread_first()
    ensures spread { (o : Options) (old new : List Node) (path : List ℕ) (c i : ℕ) (name : List ℕ) (v : Plain) (m : ℕ)
        → SpreadsFirst o old new path c i name v m }
    ensures layout { (o : Options) (old new : List Node) (path : List ℕ) (c i : ℕ) (name : List ℕ) (v : Plain) (m : ℕ)
        → FitsAsTold o old new path c i name v m }
    ensures memory { (o : Options) (ns : List Node) (path : List ℕ) (c : ℕ) → OnlyOutOfMemory o ns path c }
{}
