//! Nodes that are taken out of a document.

ghost use Rattle.std.specs.Prelude.{◌≡◌, ◌<◌, None, length, IsTrue};
ghost use Rattle.std.specs.List.{All};
ghost use Rattle.jsonc_tree.specs.Tree.{is_container_at, parent_at};
ghost use Rattle.jsonc_cst.specs.Document.{parent_of, HasNode};
ghost use Rattle.jsonc_cst.specs.Nodes.{comment_node, newline_node, object_prop_node, token_node, whitespace_node};
ghost use Rattle.jsonc_cst.specs.Nodes.{array_node, boolean_lit_node, name_node, null_keyword_node, number_lit_node};
ghost use Rattle.jsonc_cst.specs.Nodes.{object_node, string_lit_node, word_lit_node};
ghost use Rattle.jsonc_cst.specs.Tree.{NodesAreTree};
ghost use Rattle.jsonc_cst.specs.typed.Calls.{IsEntryRemoval, IsRemoval, IsRemovalWithComments};
ghost use Rattle.jsonc_cst.specs.typed.Edits.{NodeIsDetached, IsDetached, IsUntouched, KeepsDocument};
ghost use Rattle.jsonc_cst.specs.typed.Edits.{KeepsDocumentOf, HandlesStay, NodesStillThere};
ghost use Rattle.jsonc_cst.specs.declared.typed.removing.Removal.{Removal};
ghost use Rattle.jsonc_cst.specs.typed.Removing.{is_name_or_value, removal_of, AreClearedIfAny, NodeRemovedAlone, RemovedAlone};

use crate::cst::{
    CstArray, CstBooleanLit, CstComment, CstContainerNode, CstLeafNode, CstNewline, CstNode,
    CstNullKeyword, CstNumberLit, CstObject, CstObjectProp, CstRootNode, CstStringLit, CstToken,
    CstWhitespace, CstWordLit, EditError, ObjectPropName, TypedNode,
};
use jsonc_layout::nodes::{is_element, is_property_kind};
use jsonc_tree::Tree;
use std::alloc::Allocator;

// How a node is taken out.
#[derive(Clone, Copy)]
enum Removal {
    Clearing,
    OfComment,
    OfElement,
    OfLeaf,
}

fn removal_of(node: CstNode) -> Removal
    ensures { result ≡ removal_of node }
{
    match node {
        CstNode::Container(CstContainerNode::Root(_)) => Removal::Clearing,
        CstNode::Leaf(CstLeafNode::Comment(_)) => Removal::OfComment,
        CstNode::Leaf(
            CstLeafNode::Token(_) | CstLeafNode::Whitespace(_) | CstLeafNode::Newline(_),
        ) => Removal::OfLeaf,
        _ => Removal::OfElement,
    }
}

// Takes a node, and nothing else, out of the container that it has.
fn remove_alone<A: Allocator>(tree: &mut Tree<A>, number: usize)
    requires { number < length tree.old.nodes }
    ensures taken { RemovedAlone tree.old.nodes tree.new.nodes number }
    ensures detached { KeepsDocumentOf tree.old.nodes tree.new.nodes number }
    ensures gone { IsDetached tree.new.nodes number }
    ensures untouched { parent_at tree.old.nodes number ≡ None → tree.new.nodes ≡ tree.old.nodes }
    ensures handles { NodesStillThere tree.old.nodes tree.new.nodes }
{
    let Some(container) = tree.parent(number) else {
        return;
    };
    tree.remove_between(container, number, number);
}

// Takes a node out of the document, with what is removed with it.
fn remove_node<A: Allocator + Copy, N: TypedNode>(
    doc: &mut CstRootNode<A>,
    node: N,
) -> Result<(), EditError>
    requires { HasNode doc.old (N.node_of node) }
    ensures { IsRemoval doc.old doc.new (N.node_of node) result }
{
    let node = node.node();
    let number = node.number();
    match removal_of(node) {
        Removal::Clearing => {
            jsonc_edit::set::clear_root(&mut doc.tree);
            Ok(())
        }
        Removal::OfComment => jsonc_edit::remove_comment(doc.alloc, &mut doc.tree, number),
        Removal::OfElement => jsonc_edit::remove::remove(doc.alloc, &mut doc.tree, number),
        Removal::OfLeaf => {
            remove_alone(&mut doc.tree, number);
            Ok(())
        }
    }
}

// Takes comments out of their container, if there are any.
fn clear_any<A: Allocator>(tree: &mut Tree<A>, container: usize, comments: &[usize])
    requires in_tree { container < length tree.old.nodes }
    requires container { IsTrue (is_container_at tree.old.nodes container) }
    requires comments { All (λ n. n < length tree.old.nodes) comments.now }
    ensures { AreClearedIfAny tree.old.nodes tree.new.nodes container comments.now }
{
    if !comments.is_empty() {
        jsonc_edit::remove::clear_comments(tree, container, comments);
    }
}

// Takes a node out of the document, and with an entry the comments that belong to it.
fn remove_entry<A: Allocator + Copy, N: TypedNode>(
    doc: &mut CstRootNode<A>,
    node: N,
) -> Result<(), EditError>
    requires { HasNode doc.old (N.node_of node) }
    ensures { IsRemovalWithComments doc.old doc.new (N.node_of node) result }
{
    let entry = node.node();
    let Some(container) = doc.tree.parent(entry.number()) else {
        return remove_node(doc, entry);
    };
    // All memory is allocated before the first node is removed.
    let Ok(comments) = doc.comment_numbers(entry) else {
        return Err(EditError::OutOfMemory);
    };
    let removed = remove_node(doc, entry);
    if removed.is_ok() {
        clear_any(&mut doc.tree, container, &comments);
    }
    removed
}

// Whether a node is the name or the value of a property.
fn is_name_or_value<A: Allocator>(tree: &Tree<A>, number: usize) -> bool
    requires { number < length tree.now.nodes }
    ensures { result ≡ is_name_or_value tree.now.nodes number }
{
    match tree.parent(number) {
        Some(container) => is_element(tree, number) && is_property_kind(tree.kind(container)),
        None => false,
    }
}

impl CstNode {
    /// Removes it from the document.
    ///
    /// With an element of an array, a property of an object or the document's value are removed the
    /// whitespace and comments directly before it, one comma, and the rest of its line where
    /// nothing else is on that; with a line comment the whitespace directly before it and the
    /// newline before that. A token, whitespace or a newline is removed alone; and of the root all
    /// its children are. Where two literals without quotes would then be directly beside each
    /// other, a space is inserted between them. `{ "a": 1, "b": 2 }` without `b` is `{ "a": 1 }`.
    ///
    /// **A property's name or value is removed without its property: `{"a": 1}` without 1 is `{"a":}`,
    /// which is no JSON.** With it are removed the whitespace and comments directly before it, and no
    /// comma. Remove the property instead, its parent.
    ///
    /// If the document is sound, and the node is in an array or object at a path, or is the
    /// document's value, the document is one again, without that entry or that value, and sound. If
    /// the node is a comment of it, the document keeps its value and all literals and other
    /// comments, and is sound. The call is one step then, the edit that removes what is at that
    /// path, or the comment of that number.
    ///
    /// Memory is allocated for a space alone. An array or object from which an element is to be
    /// removed, and that lacks a bracket, is the error `MissingBrackets`, which no node of a sound
    /// document has. On an error the document stays as it was. Where the node is detached no node
    /// changes.
    pub fn remove<A: Allocator + Copy>(self, doc: &mut CstRootNode<A>) -> Result<(), EditError>
        requires { HasNode doc.old self }
        ensures { IsRemoval doc.old doc.new self result }
    {
        remove_node(doc, self)
    }

    /// Removes it from the document, and with an entry the comments that belong to it.
    ///
    /// These are those that [`CstRootNode::comments_of`] answers. Each that is alone on its line is removed
    /// with the line, any other alone or with whitespace directly before it. If the document is sound, so is what
    /// [`CstNode::remove`] makes of it, and what the removal of each comment makes of that: the value and all
    /// other literals and comments stay. A comment stays where a space would be needed in its place, between
    /// two literals without quotes; without `allow_missing_commas` that is none.
    ///
    /// The name and the value of a property are no entries: of these the error is `NotAnEntry`, before
    /// anything changes. Their parent is the property, which is one. Of any other node that is no
    /// entry, and in all else, it is as [`CstNode::remove`] says. On an error the document stays as it was.
    pub fn remove_with_comments<A: Allocator + Copy>(
        self,
        doc: &mut CstRootNode<A>,
    ) -> Result<(), EditError>
        requires { HasNode doc.old self }
        ensures { IsEntryRemoval doc.old doc.new self result }
    {
        if is_name_or_value(&doc.tree, self.number()) {
            return Err(EditError::NotAnEntry);
        }
        remove_entry(doc, self)
    }
}

impl CstContainerNode {
    /// Removes it from the document. [`CstNode::remove`] says what is removed with it.
    pub fn remove<A: Allocator + Copy>(self, doc: &mut CstRootNode<A>) -> Result<(), EditError>
        requires { HasNode doc.old (CstNode.Container self) }
        ensures { IsRemoval doc.old doc.new (CstNode.Container self) result }
    {
        remove_node(doc, self)
    }
}

impl CstLeafNode {
    /// Removes it from the document. [`CstNode::remove`] says what is removed with it.
    pub fn remove<A: Allocator + Copy>(self, doc: &mut CstRootNode<A>) -> Result<(), EditError>
        requires { HasNode doc.old (CstNode.Leaf self) }
        ensures { IsRemoval doc.old doc.new (CstNode.Leaf self) result }
    {
        remove_node(doc, self)
    }
}

impl CstArray {
    /// Removes it from the document. [`CstNode::remove`] says what is removed with it.
    pub fn remove<A: Allocator + Copy>(self, doc: &mut CstRootNode<A>) -> Result<(), EditError>
        requires { HasNode doc.old (array_node self) }
        ensures { IsRemoval doc.old doc.new (array_node self) result }
    {
        remove_node(doc, self)
    }
}

impl CstObject {
    /// Removes it from the document. [`CstNode::remove`] says what is removed with it.
    pub fn remove<A: Allocator + Copy>(self, doc: &mut CstRootNode<A>) -> Result<(), EditError>
        requires { HasNode doc.old (object_node self) }
        ensures { IsRemoval doc.old doc.new (object_node self) result }
    {
        remove_node(doc, self)
    }
}

impl CstObjectProp {
    /// Removes it from the document. [`CstNode::remove`] says what is removed with it.
    pub fn remove<A: Allocator + Copy>(self, doc: &mut CstRootNode<A>) -> Result<(), EditError>
        requires { HasNode doc.old (object_prop_node self) }
        ensures { IsRemoval doc.old doc.new (object_prop_node self) result }
    {
        remove_node(doc, self)
    }

    /// Removes it from the document with the comments that belong to it. [`CstNode::remove_with_comments`] says which.
    pub fn remove_with_comments<A: Allocator + Copy>(
        self,
        doc: &mut CstRootNode<A>,
    ) -> Result<(), EditError>
        requires { HasNode doc.old (object_prop_node self) }
        ensures { IsRemovalWithComments doc.old doc.new (object_prop_node self) result }
    {
        remove_entry(doc, self)
    }
}

impl CstBooleanLit {
    /// Removes it from the document. [`CstNode::remove`] says what is removed with it.
    pub fn remove<A: Allocator + Copy>(self, doc: &mut CstRootNode<A>) -> Result<(), EditError>
        requires { HasNode doc.old (boolean_lit_node self) }
        ensures { IsRemoval doc.old doc.new (boolean_lit_node self) result }
    {
        remove_node(doc, self)
    }
}

impl CstNullKeyword {
    /// Removes it from the document. [`CstNode::remove`] says what is removed with it.
    pub fn remove<A: Allocator + Copy>(self, doc: &mut CstRootNode<A>) -> Result<(), EditError>
        requires { HasNode doc.old (null_keyword_node self) }
        ensures { IsRemoval doc.old doc.new (null_keyword_node self) result }
    {
        remove_node(doc, self)
    }
}

impl CstNumberLit {
    /// Removes it from the document. [`CstNode::remove`] says what is removed with it.
    pub fn remove<A: Allocator + Copy>(self, doc: &mut CstRootNode<A>) -> Result<(), EditError>
        requires { HasNode doc.old (number_lit_node self) }
        ensures { IsRemoval doc.old doc.new (number_lit_node self) result }
    {
        remove_node(doc, self)
    }
}

impl CstStringLit {
    /// Removes it from the document. [`CstNode::remove`] says what is removed with it.
    pub fn remove<A: Allocator + Copy>(self, doc: &mut CstRootNode<A>) -> Result<(), EditError>
        requires { HasNode doc.old (string_lit_node self) }
        ensures { IsRemoval doc.old doc.new (string_lit_node self) result }
    {
        remove_node(doc, self)
    }
}

impl CstWordLit {
    /// Removes it from the document. [`CstNode::remove`] says what is removed with it.
    pub fn remove<A: Allocator + Copy>(self, doc: &mut CstRootNode<A>) -> Result<(), EditError>
        requires { HasNode doc.old (word_lit_node self) }
        ensures { IsRemoval doc.old doc.new (word_lit_node self) result }
    {
        remove_node(doc, self)
    }
}

impl CstComment {
    /// Removes it from the document. [`CstNode::remove`] says what is removed with it.
    pub fn remove<A: Allocator + Copy>(self, doc: &mut CstRootNode<A>) -> Result<(), EditError>
        requires { HasNode doc.old (comment_node self) }
        ensures { IsRemoval doc.old doc.new (comment_node self) result }
    {
        remove_node(doc, self)
    }
}

impl ObjectPropName {
    /// Removes it from the document. [`CstNode::remove`] says what is removed with it.
    pub fn remove<A: Allocator + Copy>(self, doc: &mut CstRootNode<A>) -> Result<(), EditError>
        requires { HasNode doc.old (name_node self) }
        ensures { IsRemoval doc.old doc.new (name_node self) result }
    {
        remove_node(doc, self)
    }
}

impl CstToken {
    /// Removes it, and nothing else, from the document.
    ///
    /// Nothing is allocated, and where it is detached no node changes. `[1, 2]` without its comma
    /// is `[1 2]`.
    pub fn remove<A: Allocator>(self, doc: &mut CstRootNode<A>)
        requires { HasNode doc.old (token_node self) }
        ensures removed { NodeRemovedAlone doc.old doc.new (token_node self) }
        ensures detached { KeepsDocument doc.old doc.new (token_node self) }
        ensures gone { NodeIsDetached doc.old doc.new (token_node self) }
        ensures untouched { parent_of doc.old (token_node self) ≡ None → IsUntouched doc.old doc.new }
        ensures handles { HandlesStay doc.old doc.new }
    {
        remove_alone(&mut doc.tree, self.node().number());
    }
}

impl CstWhitespace {
    /// Removes it, and nothing else, from the document.
    ///
    /// Nothing is allocated, and where it is detached no node changes. `[1, 2]` without its blank
    /// is `[1,2]`.
    pub fn remove<A: Allocator>(self, doc: &mut CstRootNode<A>)
        requires { HasNode doc.old (whitespace_node self) }
        ensures removed { NodeRemovedAlone doc.old doc.new (whitespace_node self) }
        ensures detached { KeepsDocument doc.old doc.new (whitespace_node self) }
        ensures gone { NodeIsDetached doc.old doc.new (whitespace_node self) }
        ensures untouched { parent_of doc.old (whitespace_node self) ≡ None → IsUntouched doc.old doc.new }
        ensures handles { HandlesStay doc.old doc.new }
    {
        remove_alone(&mut doc.tree, self.node().number());
    }
}

impl CstNewline {
    /// Removes it, and nothing else, from the document.
    ///
    /// Nothing is allocated, and where it is detached no node changes. [`CstWhitespace::remove`]
    /// has an example.
    pub fn remove<A: Allocator>(self, doc: &mut CstRootNode<A>)
        requires { HasNode doc.old (newline_node self) }
        ensures removed { NodeRemovedAlone doc.old doc.new (newline_node self) }
        ensures detached { KeepsDocument doc.old doc.new (newline_node self) }
        ensures gone { NodeIsDetached doc.old doc.new (newline_node self) }
        ensures untouched { parent_of doc.old (newline_node self) ≡ None → IsUntouched doc.old doc.new }
        ensures handles { HandlesStay doc.old doc.new }
    {
        remove_alone(&mut doc.tree, self.node().number());
    }
}
