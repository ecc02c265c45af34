//! Laws of groups and of second sorts: each is the contract of a function that does nothing.
ghost use Rattle.std.specs.Prelude.{Bool, List, Option, ℕ};
ghost use Rattle.jsonc_tree.specs.Content.{Content};
ghost use Rattle.jsonc_tree.specs.OrderedTree.{Top};
ghost use Rattle.jsonc_tree.specs.Tree.{Node};
ghost use Rattle.jsonc_sort.specs.Sorting.{Headers};
ghost use Rattle.jsonc_sort.specs.again.Again.{ComesInOrder, SortsOnce, SortsTextsOnce};
ghost use Rattle.jsonc_sort.specs.again.Parted.{SeparatedStay};

/// Where blank lines part the elements of an array or object with its brackets, an order of these that goes
/// by such groups first names at the places of each group these places, each once.
pub fn blank_lines_part_groups<N>()
    ensures { (ns : List Node) (c : ℕ) (lt : N → N → Bool) (nodes : List (Option N)) (order : List ℕ)
        → SeparatedStay ns c lt nodes order }
{}

/// Where the elements of an array, or the properties of an object, with its brackets have come in an order,
/// they are, read anew, the old ones in that order, and each is what it was, with what is below it.
pub fn elements_come_in_order()
    ensures { (old new : List Node) (c : ℕ) (h : Headers) (order : List ℕ) → ComesInOrder old new c h order }
{}

/// Where they have come in an order of what they are, each with what is below it, as by their texts, a second
/// sort by that order changes no node. So it is without groups, and whatever comments are pinned each time.
pub fn second_sorts_change_nothing()
    ensures once { (lt : Top → Top → Bool) (asked : Content → Bool) (old now new : List Node) (c : ℕ) (h k : Headers)
        (order again : List ℕ) → SortsOnce lt asked old now new c h k order again }
    ensures texts { (lt : List ℕ → List ℕ → Bool) (asked : Content → Bool) (old now new : List Node) (c : ℕ)
        (h k : Headers) (order again : List ℕ) → SortsTextsOnce lt asked old now new c h k order again }
{}
