//! What a document says of its nodes.

ghost use Rattle.std.specs.Prelude.{◌≡◌, ◌↔◌, ◌<◌, length, slice_get};
ghost use Rattle.std.specs.Prelude.{IfOk, IfSome, IsTrue};
ghost use Rattle.std.specs.Iterator.{YieldsFirst, item_count};
ghost use Rattle.std.specs.List.{All};
ghost use Rattle.jsonc_tree.specs.Content.{Content};
ghost use Rattle.jsonc_tree.specs.Tree.{is_container_at};
ghost use Rattle.jsonc_cst.specs.Document.{allocator_of, content_of, nodes_of, HasNode};
ghost use Rattle.jsonc_cst.specs.Nodes.{container_of, root_node, typed_at};
ghost use Rattle.jsonc_cst.specs.Nodes.{parent_node, child_nodes, IsAs, IsNodeOf};
ghost use Rattle.jsonc_cst.specs.Tree.{NodesAreTree};

use super::CstRootNode;
use super::node::{
    CstArray, CstBooleanLit, CstComment, CstContainerNode, CstNewline, CstNode, CstNullKeyword,
    CstNumberLit, CstObject, CstObjectProp, CstRoot, CstStringLit, CstToken, CstWhitespace,
    CstWordLit,
};
use jsonc_tree::{Ancestors, Kind, Tree};
use std::alloc::{AllocError, Allocator};
use std::marker::Model;

/// The node of a number.
pub fn node_at<A: Allocator>(tree: &Tree<A>, number: usize) -> CstNode
    requires { number < length tree.now.nodes }
    ensures node { result ≡ typed_at tree.now.nodes number }
    ensures in_document { IsNodeOf tree.now.nodes result }
{
    match tree.kind(number) {
        Kind::Root(_) => CstRoot { number }.into(),
        Kind::Object(_) => CstObject { number }.into(),
        Kind::Array(_) => CstArray { number }.into(),
        Kind::Property(_) => CstObjectProp { number }.into(),
        Kind::String(_) | Kind::StringPart(_) => CstStringLit { number }.into(),
        Kind::Word(_) | Kind::WordPart(_) => CstWordLit { number }.into(),
        Kind::Number(_) | Kind::NumberPart(_) => CstNumberLit { number }.into(),
        Kind::Boolean(_) => CstBooleanLit { number }.into(),
        Kind::Null => CstNullKeyword { number }.into(),
        Kind::Token(_) => CstToken { number }.into(),
        Kind::Whitespace(_) | Kind::WhitespacePart(_) => CstWhitespace { number }.into(),
        Kind::Newline(_) => CstNewline { number }.into(),
        Kind::Comment(_) | Kind::CommentPart(_) => CstComment { number }.into(),
    }
}

// The container of a number.
fn container_at<A: Allocator>(tree: &Tree<A>, number: usize) -> CstContainerNode
    requires in_tree { number < length tree.now.nodes }
    requires container { IsTrue (is_container_at tree.now.nodes number) }
    ensures node { result ≡ container_of tree.now.nodes number }
    ensures in_document { IsNodeOf tree.now.nodes (CstNode.Container result) }
{
    match tree.kind(number) {
        Kind::Root(_) => CstRoot { number }.into(),
        Kind::Object(_) => CstObject { number }.into(),
        Kind::Array(_) => CstArray { number }.into(),
        Kind::Property(_) => CstObjectProp { number }.into(),
        _ => unreachable!(),
    }
}

// The container that a node is a child of.
pub(super) fn parent_of<A: Allocator>(tree: &Tree<A>, number: usize) -> Option<CstContainerNode>
    requires { number < length tree.now.nodes }
    ensures parent { result ≡ parent_node tree.now.nodes number }
    ensures in_document { IfSome result (λ c. IsNodeOf tree.now.nodes (CstNode.Container c)) }
{
    let Some(parent) = tree.parent(number) else {
        return None;
    };
    Some(container_at(tree, parent))
}

// The child at a place, if there is one.
pub(super) fn child_of<A: Allocator>(tree: &Tree<A>, number: usize, place: usize) -> Option<CstNode>
    requires { number < length tree.now.nodes }
    ensures child { result ≡ slice_get (child_nodes tree.now.nodes number) place }
    ensures in_document { IfSome result (IsNodeOf tree.now.nodes) }
{
    if place >= tree.child_count(number) {
        return None;
    }
    Some(node_at(tree, tree.child_at(number, place)))
}

// All children, in order.
pub(super) fn children_of<A: Allocator>(
    alloc: A,
    tree: &Tree<A>,
    number: usize,
) -> Result<Vec<CstNode, A>, AllocError>
    requires { number < length tree.now.nodes }
    ensures children { IfOk result (λ v. v.items ≡ child_nodes tree.now.nodes number) }
    ensures in_document { IfOk result (λ v. All (IsNodeOf tree.now.nodes) v.items) }
{
    let mut children = Vec::new(alloc);
    for child in tree.children(number) {
        children.push(node_at(tree, child))?;
    }
    Ok(children)
}

impl<A: Allocator> CstRootNode<A> {
    // Its tree, for calls by the numbers of nodes.
    #[doc(hidden)]
    pub fn tree(&self) -> &Tree<A>
        ensures { result.now.nodes ≡ nodes_of self.now }
    {
        &self.tree
    }

    /// The allocator of the document.
    ///
    /// It gives the memory for all that is read of the document and written into it.
    pub fn allocator(&self) -> &A
        ensures { result.now ≡ allocator_of self.now }
    {
        &self.alloc
    }

    /// The root, as a node.
    pub fn root(&self) -> CstRoot
        ensures first { result.number ≡ 0 }
        ensures in_document { HasNode self.now (root_node result) }
        ensures tree { NodesAreTree self.now }
    {
        CstRoot { number: 0 }
    }

    /// Whether the document has this node.
    ///
    /// It has where the node of its number there is of this kind. That may be so of a node of
    /// another document too, since nodes are known by their numbers.
    pub fn holds(&self, node: CstNode) -> bool
        ensures { IsTrue result ↔ HasNode self.now node }
    {
        let number = node.number();
        if number >= self.tree.len() {
            return false;
        }
        node_at(&self.tree, number) == node
    }
}

impl CstNode {
    /// Its character, if it is a bracket, comma or colon.
    pub fn token_char<A: Allocator>(self, doc: &CstRootNode<A>) -> Option<char>
        requires { HasNode doc.now self }
        ensures { IsAs Content.token (content_of doc.now self) result }
    {
        match doc.tree.kind(self.number()) {
            Kind::Token(c) => Some(c.get()),
            _ => None,
        }
    }

    /// Whether it is a comma.
    pub fn is_comma<A: Allocator>(self, doc: &CstRootNode<A>) -> bool
        requires { HasNode doc.now self }
        ensures { IsTrue result ↔ (content_of doc.now self ≡ Content.token 44) }
    {
        match doc.tree.kind(self.number()) {
            Kind::Token(c) => c.get() == ',',
            _ => false,
        }
    }
}

/// An iterator over the containers above a node, nearest first.
///
/// It is seen as the list of those that remain.
#[derive(Drop)]
pub struct AncestorIterator<'a, A: Allocator> {
    pub(super) tree: &'a Tree<A>,
    pub(super) above: Ancestors<'a, A>,
}

impl<'a, A: Allocator> Model for AncestorIterator<'a, A> {
    ghost use Rattle.std.specs.Prelude.{List, IsTrue, map};
    ghost use Rattle.std.specs.List.{list_all};
    ghost use Rattle.jsonc_tree.specs.Tree.{is_container_at};
    ghost use Rattle.jsonc_cst.specs.declared.cst.node.CstContainerNode.{CstContainerNode};
    ghost use Rattle.jsonc_cst.specs.Nodes.{container_of};

    ghost Value = { List CstContainerNode };

    ghost view = { λ it. map (container_of it.tree.now.nodes) it.above };

    ghost invariant = { λ it. IsTrue (list_all (is_container_at it.tree.now.nodes) it.above) };
}

impl<'a, A: Allocator> Iterator for AncestorIterator<'a, A> {
    type Item = CstContainerNode;

    ghost next_gives = { YieldsFirst (λ rest. rest) };

    ghost remaining = { item_count (λ rest. rest) };

    fn next(&mut self) -> Option<CstContainerNode> {
        let Some(number) = self.above.next() else {
            return None;
        };
        Some(container_at(self.tree, number))
    }
}
