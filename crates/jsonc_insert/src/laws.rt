//! Laws of elements that are inserted into arrays: each is the contract of a function that does nothing.
ghost use Rattle.std.specs.Prelude.{List, ℕ};
ghost use Rattle.jsonc_text.specs.Plain.{Plain};
ghost use Rattle.jsonc_tree.specs.Tree.{Node};
ghost use Rattle.jsonc_insert.specs.Laws.{ChangesOneRow, LosesBlanksAlone, PastTheEnd, TakesItsNumber};
ghost use Rattle.jsonc_insert.specs.Worked.{WorkedInsertions};

/// Worked insertions: what arrays print with one more element.
pub fn worked_insertions()
    ensures { WorkedInsertions }
{}

/// Where a value has been inserted into a container, the container's row is the new one, and every other node
/// is what it was; and the new node is the element of the number that was asked for, or the last one where
/// there were fewer.
pub fn elements_come_in()
    ensures row { (old new : List Node) (c i : ℕ) (v : Plain) (m : ℕ) → ChangesOneRow old new c i v m }
    ensures number { (old new : List Node) (c i : ℕ) (v : Plain) (m : ℕ) → TakesItsNumber old new c i v m }
{}

/// After the last element all numbers do the same, so that each of them appends.
pub fn numbers_past_the_end_append()
    ensures { (old new : List Node) (c i j : ℕ) (v : Plain) (m : ℕ) → PastTheEnd old new c i j v m }
{}

/// Of the container's children only whitespace and ends of lines are removed, and they are detached then.
pub fn blanks_alone_leave()
    ensures { (old new : List Node) (c i : ℕ) (v : Plain) (m : ℕ) → LosesBlanksAlone old new c i v m }
{}
