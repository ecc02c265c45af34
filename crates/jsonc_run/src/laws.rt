//! Laws of lists of edits: each is the contract of a function that does nothing.
ghost use Rattle.std.specs.Prelude.{◌≡◌, ℕ, List};
ghost use Rattle.jsonc_text.specs.Options.{Options};
ghost use Rattle.jsonc_tree.specs.Tree.{IsTree, Node};
ghost use Rattle.jsonc_run.specs.Edits.{EditSteps, PlainEdit};
ghost use Rattle.jsonc_run.specs.Named.{PlacesAreNamed};
ghost use Rattle.jsonc_run.specs.Parents.{CallKeepsParents, CallsKeepParents, EditIsCall, RefusalIsCall};
ghost use Rattle.jsonc_run.specs.Parents.{CallStaysApart, CallsStayApart, StaysWithItsNodes};
ghost use Rattle.jsonc_run.specs.Steps.{MakesSteps};

pub use jsonc_insert::named::laws::names_are_those_of_values;
pub use jsonc_sort::laws::{sorted_containers_keep_their_children, sorted_rows_keep_their_nodes};

/// Where edits have their place: in a sound document the nodes have what an edit needs at its path exactly
/// where the document's value has it there, whatever that is, a value, a truth value, an array, an object
/// or a property; and there is the comment of a number exactly where the document's text has more comments
/// than that.
pub fn places_are_named()
    ensures { (o : Options) (ns : List Node) (e : PlainEdit) → PlacesAreNamed o ns e }
{}

/// One chain: edits that were made in order in a sound document lead from one sound document to the next.
/// Each is named in the document before it, and makes of its value, its marks and its leaves the next one's.
pub fn edits_make_steps()
    ensures { (o : Options) (old new : List Node) (es : List PlainEdit) → IsTree old
        → EditSteps old es new → MakesSteps o old es new }
{}

/// No call, raw or structured, by a path or by the number of a node, made or refused, moves a node from one
/// parent to another: what had a parent has it still, or is detached, at place 0. So after any list of
/// calls the nodes are a tree, and what has another parent than it had was detached between two of them.
/// A call that changes no node that was there leaves the document, as an error, and so does a call of a node
/// that does not stand in the document, and any list of such calls, so it prints what it did. An edit, made or
/// refused, is a call of the document; where trailing commas were refused those of the first may be set.
pub fn calls_keep_parents()
    ensures one { (old new : List Node) (n : ℕ) → CallKeepsParents old new n }
    ensures list { (old new : List Node) → CallsKeepParents old new }
    ensures document { (old new : List Node) → StaysWithItsNodes old new }
    ensures apart { (old new : List Node) (n : ℕ) → CallStaysApart old new n }
    ensures quiet { (old new : List Node) → CallsStayApart old new }
    ensures edit { (old : List Node) (e : PlainEdit) (new : List Node) → EditIsCall old e new }
    ensures refused { (old : List Node) (e : PlainEdit) (new : List Node) → RefusalIsCall old e new }
{}
