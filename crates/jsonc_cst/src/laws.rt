//! Laws of documents: each is the contract of a function that does nothing.

ghost use Rattle.std.specs.Prelude.{ℕ, Bool, List, Option};
ghost use Rattle.jsonc_text.specs.Options.{Options};
ghost use Rattle.jsonc_text.specs.Plain.{Plain};
ghost use Rattle.jsonc_tree.specs.Content.{Content};
ghost use Rattle.jsonc_tree.specs.OrderedTree.{OrderedTree};
ghost use Rattle.jsonc_text.specs.declared.edit.TrailingCommaMode.{TrailingCommaMode};
ghost use Rattle.jsonc_text.specs.declared.edit.Over.{Over};
ghost use Rattle.jsonc_text.specs.declared.edit.Place.{Place};
ghost use Rattle.jsonc_text.specs.declared.edit.Shape.{Shape};
ghost use Rattle.jsonc_sort.specs.Sorting.{Headers};
ghost use Rattle.jsonc_cst.specs.declared.cst.CstRootNode.{CstRootNode};
ghost use Rattle.jsonc_cst.specs.declared.cst.node.CstNode.{CstNode};
ghost use Rattle.jsonc_cst.specs.declared.cst.node.CstObjectProp.{CstObjectProp};
ghost use Rattle.jsonc_cst.specs.Descendants.{AreAllBelow};
ghost use Rattle.jsonc_cst.specs.Document.{nodes_of, HasNode};
ghost use Rattle.jsonc_cst.specs.EntryComments.{MoveTheirComments};
ghost use Rattle.jsonc_cst.specs.Nodes.{number_of, object_prop_node};
ghost use Rattle.jsonc_cst.specs.Readings.{descendants_of};
ghost use Rattle.jsonc_cst.specs.Values.{GivesTheValue};
ghost use Rattle.jsonc_cst.specs.objects.Members.{HasInsertedProperty};
ghost use Rattle.jsonc_cst.specs.objects.Named.{HasEnsured};
ghost use Rattle.jsonc_cst.specs.sorting.Sorted.{IsPlaced};
ghost use Rattle.jsonc_cst.specs.typed.AsCalls.{IsCallIf, IsRootCallIf, LoneRemovalIsCall, RemovalIsCall};
ghost use Rattle.jsonc_cst.specs.typed.Commas.{CommasSet, CommasSetInPart};
ghost use Rattle.jsonc_cst.specs.typed.Commenting.{HasCommentInserted};
ghost use Rattle.jsonc_cst.specs.typed.Edits.{IsReplacedBy, IsUntouched, Unchanged};
ghost use Rattle.jsonc_cst.specs.typed.Inserting.{HasInsertedElement};
ghost use Rattle.jsonc_cst.specs.typed.Lines.{HasSpreadOut};
ghost use Rattle.jsonc_cst.specs.typed.Raw.{HasBecome};
ghost use Rattle.jsonc_cst.specs.typed.Removing.{IsCleared};
ghost use Rattle.jsonc_cst.specs.typed.Renaming.{HasBeenRenamed};
ghost use Rattle.jsonc_cst.specs.typed.Setting.{FindsOrCreates, FindsOrSets, HasBecomeProperty, RootBecomes};
ghost use Rattle.jsonc_cst.specs.typed.Values.{HasSetBoolean, NodeValueIs, NowHolds};

use std::alloc::Allocator;

/// What `to_value` answers of a document that was parsed represents the text's value, of equal names
/// the last at the first place: `parse` says that its tree has the shape of the grammar and this value.
pub fn documents_give_their_value<A: Allocator>()
    ensures { (o : Options) (tree : OrderedTree) → GivesTheValue A o tree }
{}

/// What an iterator over a node and all below it gives: the node and each node of the document that it is
/// above, each once, and no other. In what order says `in_order`, by which the tree is walked.
pub fn descendants_are_those_below<A: Allocator>()
    ensures { (d : CstRootNode A) (node : CstNode) → HasNode d node → AreAllBelow d node (descendants_of d node) }
{}

/// The comments of an entry are those that move with it: of an array or object that is sorted with the comments above
/// blank lines kept, each entry, as the sort reads it, has its own comments in what goes with it, and no others.
pub fn entries_move_their_comments<A: Allocator>()
    ensures { (d : CstRootNode A) (node : CstNode) → MoveTheirComments d node }
{}

/// What typed calls say is what lists of calls are made of: from what each says of the nodes, word for word,
/// to a call of its node, of which `jsonc_run`'s law of lists speaks. `kept` is what each refusal says,
/// and `untouched` what is said where nothing changes. That a document's nodes are a tree is a field of its
/// value.
pub fn typed_calls_are_calls<A: Allocator>()
    ensures kept { (old new : CstRootNode A) (node : CstNode) → IsCallIf old new node (Unchanged old new) }
    ensures untouched { (old new : CstRootNode A) (node : CstNode) → IsCallIf old new node (IsUntouched old new) }
    ensures raw { (old new : CstRootNode A) (node : CstNode) (now : Content)
        → IsCallIf old new node (HasBecome old new node now) }
    ensures removed { (old new : CstRootNode A) (node : CstNode) → RemovalIsCall old new node }
    ensures alone { (old new : CstRootNode A) (node : CstNode) → LoneRemovalIsCall old new node }
    ensures replaced { (old new : CstRootNode A) (node : CstNode) (v : Plain) (now : CstNode)
        → IsCallIf old new node (IsReplacedBy old new node v now) }
    ensures property { (old new : CstRootNode A) (node : CstNode) (name : List ℕ) (v : Plain) (now : CstNode)
        → IsCallIf old new node (HasBecomeProperty old new node name v now) }
    ensures renamed { (old new : CstRootNode A) (node : CstNode) (name : List ℕ) (now : CstNode)
        → IsCallIf old new node (HasBeenRenamed old new node name now) }
    ensures commented { (old new : CstRootNode A) (node : CstNode) (place : Place) (text : List ℕ)
        → IsCallIf old new node (HasCommentInserted old new node place text) }
    ensures cleared { (old new : CstRootNode A) → IsRootCallIf old new (IsCleared (nodes_of old) (nodes_of new)) }
    ensures root { (old new : CstRootNode A) (v : Plain) (now : CstNode)
        → IsRootCallIf old new (RootBecomes (nodes_of old) (nodes_of new) v now) }
    ensures root_created { (old new : CstRootNode A) (shape : Shape) (x : Option ℕ)
        → IsRootCallIf old new (FindsOrCreates (nodes_of old) (nodes_of new) shape x) }
    ensures root_set { (old new : CstRootNode A) (shape : Shape) (x : ℕ)
        → IsRootCallIf old new (FindsOrSets (nodes_of old) (nodes_of new) shape x) }
    ensures value { (old new : CstRootNode A) (p : CstObjectProp) (v : Plain) (now : CstNode)
        → IsCallIf old new (object_prop_node p) (NodeValueIs old new (object_prop_node p) v now) }
    ensures held { (old new : CstRootNode A) (p : CstObjectProp) (shape : Shape) (x : ℕ)
        → IsCallIf old new (object_prop_node p) (NowHolds old new shape (object_prop_node p) x) }
    ensures boolean { (old new : CstRootNode A) (node : CstNode) (b : Bool)
        → IsCallIf old new node (HasSetBoolean old new node b) }
    ensures lines { (old new : CstRootNode A) (node : CstNode) → IsCallIf old new node (HasSpreadOut old new node) }
    ensures element { (old new : CstRootNode A) (node : CstNode) (i : ℕ) (v : Plain) (now : CstNode)
        → IsCallIf old new node (HasInsertedElement old new node i v now) }
    ensures named { (old new : CstRootNode A) (node : CstNode) (i : ℕ) (name : List ℕ) (v : Plain) (now : CstObjectProp)
        → IsCallIf old new node (HasInsertedProperty old new node i name v now) }
    ensures ensured { (old new : CstRootNode A) (node : CstNode) (shape : Shape) (how : Over) (name : List ℕ) (x : Option ℕ)
        → IsCallIf old new node (HasEnsured old new shape how node name x) }
    ensures commas { (old new : CstRootNode A) (node : CstNode) (mode : TrailingCommaMode)
        → IsCallIf old new node (CommasSet (nodes_of old) (nodes_of new) mode (number_of node)) }
    ensures some_commas { (old new : CstRootNode A) (node : CstNode) (mode : TrailingCommaMode)
        → IsCallIf old new node (CommasSetInPart (nodes_of old) (nodes_of new) mode (number_of node)) }
    ensures sorted { (old new : CstRootNode A) (node : CstNode) (h : Headers) (order : List ℕ)
        → IsCallIf old new node (IsPlaced (nodes_of old) (nodes_of new) (number_of node) h order) }
{}
