//! Laws of settings: each is the contract of a function that does nothing.

ghost use Rattle.std.specs.Prelude.{true, List, Option, ℕ};
ghost use Rattle.jsonc_text.specs.Documents.{Document};
ghost use Rattle.jsonc_text.specs.Plain.{Plain};
ghost use Rattle.jsonc_tree.specs.Tree.{Node};
ghost use Rattle.jsonc_text.specs.declared.edit.EditError.{EditError};
ghost use Rattle.jsonc_text.specs.declared.edit.Over.{Over};
ghost use Rattle.jsonc_parser.specs.declared.paths.which.Which.TheVariants.{First};
ghost use Rattle.jsonc_parser.specs.paths.Operations.{PlainEdit};
ghost use Rattle.jsonc_parser.specs.paths.Positions.{DropsByIt, IsPutByOne, LeadToWhatIsThere, PutsByIt, Reaches};
ghost use Rattle.jsonc_parser.specs.paths.Worked.{a, both, one};
ghost use Rattle.jsonc_parser.specs.paths.AtPaths.{FindsFirst, IsAtItsPlace, NodesHaveValues, PropertyHolds, RootHolds};
ghost use Rattle.jsonc_parser.specs.paths.Calls.{DropsButForMemory, DropsByOneEdit, PutsUnlessOutOfMemory, PutsByOneEdit};
ghost use Rattle.jsonc_parser.specs.paths.Settings.{At, Put, Dropped};
ghost use Rattle.jsonc_parser.specs.paths.NamedNodes.{BeginsThere, CountsItsNumber, LeadsOn, StopsThere};
ghost use Rattle.jsonc_parser.specs.paths.Laws.{DropsInOneWay, DropsWhatIsThere, HasOneAt, IsSameElsewhere};
ghost use Rattle.jsonc_parser.specs.paths.Laws.{NeverBoth, PutsInOneWay, PutsOrMustStay};

use std::alloc::Allocator;

/// At a path of names there is at most one value.
pub fn one_value_at_names()
    ensures { (w : Option Plain) (names : List (List ℕ)) → HasOneAt w names }
{}

/// A value can be put at every path of names, unless one of another kind than an object is on the way and is to stay;
/// and in one way alone.
pub fn values_are_put()
    ensures puts { (v : Plain) (how : Over) (w : Option Plain) (names : List (List ℕ)) → PutsOrMustStay v how w names }
    ensures never_both { (v : Plain) (how : Over) (w : Option Plain) (names : List (List ℕ)) → NeverBoth v how w names }
    ensures one_way { (v : Plain) (how : Over) (w : Option Plain) (names : List (List ℕ)) → PutsInOneWay v how w names }
{}

/// A value that was put at names is there, and what was there already is put there by no change; at each path that
/// differs from the names at a step that both have is what was there before.
pub fn what_was_put_stands_there()
    ensures there { (v : Plain) (how : Over) (w x : Option Plain) (names : List (List ℕ))
        → Put v how w names x → At x names v }
    ensures again { (v : Plain) (how : Over) (w : Option Plain) (names : List (List ℕ))
        → At w names v → Put v how w names w }
    ensures elsewhere { (v : Plain) (how : Over) (w x : Option Plain) (names : List (List ℕ))
        → Put v how w names x → IsSameElsewhere names w x }
{}

/// What is at names can be removed, exactly where something is there, and in one way alone; at each path that differs
/// from the names at a step that both have is what was there before.
pub fn what_stands_can_leave()
    ensures exactly { (w : Option Plain) (names : List (List ℕ)) → DropsWhatIsThere w names }
    ensures one_way { (w : Option Plain) (names : List (List ℕ)) → DropsInOneWay w names }
    ensures elsewhere { (w x : Option Plain) (names : List (List ℕ)) → Dropped w names x → IsSameElsewhere names w x }
{}

/// Names lead over positions to what is at them; and one edit at such positions puts a value at the names, or removes
/// what is there: it has its place, and the operation that it asks for makes what is put, or removed, and nothing else.
pub fn one_operation_puts_or_drops()
    ensures leads { (w : Option Plain) (names : List (List ℕ)) (v : Plain) → LeadToWhatIsThere w names v }
    ensures reaches { (x : Plain) (names : List (List ℕ)) → Reaches x names }
    ensures one { (v : Plain) (how : Over) (w : Option Plain) (names : List (List ℕ)) → IsPutByOne v how w names }
    ensures puts { (v : Plain) (how : Over) (w : Option Plain) (names : List (List ℕ)) (e : PlainEdit)
        → PutsByIt First v how w names e }
    ensures drops { (w : Option Plain) (names : List (List ℕ)) (e : PlainEdit) → DropsByIt w names e }
{}

/// Worked examples: of two properties of one name the first is put, and not the last; where the first is removed, the
/// second is there.
pub fn worked_equal_names()
    ensures first { (u v w : Plain) (how : Over) → Put u how (both v w) a (both u w) }
    ensures not_last { (how : Over) → Put (Plain.boolean true) how (both Plain.null Plain.null) a
        (both Plain.null (Plain.boolean true)) → ⊥ }
    ensures removed { (v w : Plain) → Dropped (both v w) a (one w) }
    ensures shows { (w : Plain) → At (one w) a w }
{}

/// In a document that nodes show, no names lead to the value's node; a name leads on from an object's node to the value
/// of what is found as the first property of the name, whose number it counts, and from nothing else.
pub fn names_lead_over_nodes()
    ensures begins { (d : Document) (ns : List Node) → BeginsThere First d ns }
    ensures stops { (d : Document) (ns : List Node) (names : List (List ℕ)) (n : ℕ) → StopsThere First d ns names n }
    ensures on { (d : Document) (ns : List Node) (names : List (List ℕ)) (n : ℕ) (name : List ℕ)
        → LeadsOn First d ns names n name }
    ensures numbers { (d : Document) (ns : List Node) (path : List ℕ) (c i r : ℕ) → CountsItsNumber d ns path c i r }
{}

/// In a document that nodes show, the node at a path has the value that the document's value has there, and what is
/// taken of it as a value for edits represents that.
pub fn nodes_have_their_values<A: Allocator>()
    ensures { (d : Document) (ns : List Node) (path : List ℕ) (n : ℕ) → NodesHaveValues A d ns path n }
{}

/// In a document that nodes show, the root holds the node at the empty path, and none exactly where the document has no
/// value; the property that a path leads to holds the node at this path; and of a name in the object at a path the first
/// property is found, by its number, and none exactly where the plain object has none of the name.
pub fn what_is_read_stands_at_paths()
    ensures root { (d : Document) (ns : List Node) → RootHolds d ns }
    ensures property { (d : Document) (ns : List Node) (path : List ℕ) (r : ℕ) → PropertyHolds d ns path r }
    ensures named { (d : Document) (ns : List Node) (path : List ℕ) (n : ℕ) (name : List ℕ) (found : Option ℕ)
        → FindsFirst d ns path n name found }
{}

/// Each node in a document that nodes show is its root, a value at a path, a property of an object at a path, the name
/// of a property, trivia or a token.
pub fn each_node_stands_at_its_place()
    ensures { (d : Document) (ns : List Node) (n : ℕ) → IsAtItsPlace d ns n }
{}

/// The one edit that puts a value at names, or removes what is there, was made. Then the nodes show a document to which
/// it leads, in whose value the value is put there, or removed; and at any path that differs is what was there before.
/// Where it was refused, allocation failed.
pub fn one_edit_puts_or_drops()
    ensures puts { (d : Document) (v : Plain) (how : Over) (names : List (List ℕ)) (edit : PlainEdit)
        (old new : List Node) → PutsByOneEdit First d v how names edit old new }
    ensures put_memory { (d : Document) (v : Plain) (how : Over) (names : List (List ℕ)) (edit : PlainEdit)
        (old : List Node) (why : EditError) → PutsUnlessOutOfMemory First d v how names edit old why }
    ensures drops { (d : Document) (names : List (List ℕ)) (edit : PlainEdit) (old new : List Node)
        → DropsByOneEdit d names edit old new }
    ensures drop_memory { (d : Document) (names : List (List ℕ)) (edit : PlainEdit) (old : List Node)
        (why : EditError) → DropsButForMemory d names edit old why }
{}
