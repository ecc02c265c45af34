//! The comments that belong to an entry.

ghost use Rattle.std.specs.Prelude.{◌≡◌, ◌<◌, length, not, IfErr, IfOk, IfSome, IsTrue, OnErr};
ghost use Rattle.std.specs.List.{All, take_while};
ghost use Rattle.jsonc_tree.specs.Tree.{content_at, parent_at};
ghost use Rattle.jsonc_layout.specs.nodes.Kinds.{is_element_at};
ghost use Rattle.jsonc_layout.specs.nodes.Siblings.{siblings_after, siblings_before};
ghost use Rattle.jsonc_cst.specs.Document.{HasNode, nodes_of};
ghost use Rattle.jsonc_cst.specs.EntryComments.{comment_numbers, comments_around, comments_at, comments_of_entry, entry_around, entry_of_node};
ghost use Rattle.jsonc_cst.specs.EntryComments.{is_entry_at};
ghost use Rattle.jsonc_cst.specs.EntryComments.{tail_of};
ghost use Rattle.jsonc_cst.specs.Nodes.{comment_node, number_of};

use super::access::node_at;
use super::elements::is_property;
use super::layout::comments_under;
use super::node::{CstComment, CstNode};
use super::{CstRootNode, EditError};
use jsonc_edit::multiline::has_brackets;
use jsonc_layout::lines::is_array_or_object;
use jsonc_layout::nodes::{
    is_comment, is_element, next_element, next_siblings, previous_element, previous_siblings,
};
use jsonc_sort::{own_lead, tail_length};
use jsonc_tree::Tree;
use std::alloc::{AllocError, Allocator};

// The comments of an entry, by what is before it, and what is between it and what follows.
fn comments_around<A: Allocator>(
    alloc: A,
    tree: &Tree<A>,
    lead: &[usize],
    last: bool,
    gap: &[usize],
) -> Result<Vec<usize, A>, AllocError>
    ensures { IfOk result (λ v. v.items
        ≡ comments_around (content_at tree.now.nodes) lead.now (tail_of (content_at tree.now.nodes) last gap.now)) }
{
    let own = &lead[own_lead(tree, lead)..];
    let tail = &gap[..tail_length(tree, last, gap)];
    own.iter()
        .chain(tail.iter())
        .copied()
        .filter(|node| is_comment(tree, *node))
        .collect(alloc)
}

// The nodes between an entry and the one before it, nearest first; where it is the first, the bracket is the last of them.
fn gap_before<A: Allocator>(
    alloc: A,
    tree: &Tree<A>,
    node: usize,
) -> Result<Vec<usize, A>, AllocError>
    requires { node < length tree.now.nodes }
    ensures { IfOk result (λ v. v.items
        ≡ take_while (λ m. not (is_element_at tree.now.nodes m)) (siblings_before tree.now.nodes node)) }
{
    let mut gap = Vec::new(alloc);
    for sibling in previous_siblings(tree, node) {
        if is_element(tree, sibling) {
            return Ok(gap);
        }
        gap.push(sibling)?;
    }
    Ok(gap)
}

// The nodes between an entry and the next one; where it is the last, the bracket is the last of them.
fn gap_after<A: Allocator>(
    alloc: A,
    tree: &Tree<A>,
    node: usize,
) -> Result<Vec<usize, A>, AllocError>
    requires { node < length tree.now.nodes }
    ensures { IfOk result (λ v. v.items
        ≡ take_while (λ m. not (is_element_at tree.now.nodes m)) (siblings_after tree.now.nodes node)) }
{
    let mut gap = Vec::new(alloc);
    for sibling in next_siblings(tree, node) {
        if is_element(tree, sibling) {
            return Ok(gap);
        }
        gap.push(sibling)?;
    }
    Ok(gap)
}

// Whether a node is an entry: an element between the brackets of an array or object.
fn is_entry<A: Allocator>(tree: &Tree<A>, node: usize) -> bool
    requires { node < length tree.now.nodes }
    ensures { result ≡ is_entry_at tree.now.nodes node }
{
    match tree.parent(node) {
        Some(container) => {
            is_element(tree, node)
                && is_array_or_object(tree.kind(container))
                && has_brackets(tree, container)
        }
        None => false,
    }
}

// The property that a node is the name or the value of, where it is an entry.
fn entry_around<A: Allocator>(tree: &Tree<A>, node: usize) -> Option<usize>
    requires { node < length tree.now.nodes }
    ensures entry { result ≡ entry_around tree.now.nodes node (parent_at tree.now.nodes node) }
    ensures in_tree { IfSome result (λ n. n < length tree.now.nodes) }
{
    let parent = tree.parent(node)?;
    if is_element(tree, node) && is_property(tree, parent) && is_entry(tree, parent) {
        return Some(parent);
    }
    None
}

// The comments of an entry.
fn comments_of<A: Allocator + Copy>(
    alloc: A,
    tree: &Tree<A>,
    node: usize,
) -> Result<Vec<usize, A>, AllocError>
    requires in_tree { node < length tree.now.nodes }
    requires entry { IsTrue (is_entry_at tree.now.nodes node) }
    ensures { IfOk result (λ v. v.items ≡ comments_at tree.now.nodes node) }
{
    let mut before = gap_before(alloc, tree, node)?;
    before.reverse();
    let after = gap_after(alloc, tree, node)?;
    let last = next_element(tree, node).is_none();
    let from = match previous_element(tree, node) {
        Some(_) => tail_length(tree, false, &before),
        None => 1,
    };
    let upto = if last { after.len() - 1 } else { after.len() };
    comments_around(alloc, tree, &before[from..], last, &after[..upto])
}

impl<A: Allocator + Copy> CstRootNode<A> {
    /// The entry of a node: the element of an array or the property of an object that it is, or whose name or value it is.
    ///
    /// In `{"a": [1]}` the entry of the 1 is the 1, and that of the array, of the name `"a"` and of the property is
    /// the property. None of the document's value, of a bracket, comma or colon, of blanks and comments, and where the
    /// array or object lacks a bracket. What removes, renames or comments takes an entry.
    pub fn entry_of(&self, node: CstNode) -> Option<CstNode>
        requires { HasNode self.now node }
        ensures entry { result ≡ entry_of_node self.now node }
        ensures in_document { IfSome result (HasNode self.now) }
    {
        let number = node.number();
        if is_entry(&self.tree, number) {
            return Some(node_at(&self.tree, number));
        }
        let property = entry_around(&self.tree, number)?;
        Some(node_at(&self.tree, property))
    }

    /// The comments that belong to an entry, an element of an array or a property of an object, as they are printed.
    ///
    /// Before it they are those below the last blank line, but none on the line of the entry or bracket before it if
    /// a line ends in between. Then those up to its comma, and those after it if nothing else follows on that
    /// line. They move with it in a sort that keeps those above blank lines. None of another node, and where a
    /// bracket is missing. In `[1, // one` and, on the next lines, `// two` and `2]` the 2 has `// two`.
    pub fn comments_of(&self, node: CstNode) -> Result<Vec<CstComment, A>, EditError>
        requires { HasNode self.now node }
        ensures comments { IfOk result (λ v. v.items ≡ comments_of_entry self.now node) }
        ensures in_document { IfOk result (λ v. All (λ c. HasNode self.now (comment_node c)) v.items) }
        ensures memory { IfErr result (λ e. e ≡ EditError.OutOfMemory) }
        ensures oom_only_if { OnErr result (IsTrue (is_entry_at (nodes_of self.now) (number_of node))) }
    {
        let number = node.number();
        if !is_entry(&self.tree, number) {
            return Ok(Vec::new(self.alloc));
        }
        let Ok(numbers) = comments_of(self.alloc, &self.tree, number) else {
            return Err(EditError::OutOfMemory);
        };
        let Ok(comments) = comments_under(self.alloc, &numbers) else {
            return Err(EditError::OutOfMemory);
        };
        Ok(comments)
    }

    // The numbers of these comments.
    pub(crate) fn comment_numbers(&self, node: CstNode) -> Result<Vec<usize, A>, EditError>
        requires { HasNode self.now node }
        ensures numbers { IfOk result (λ v. v.items ≡ comment_numbers self.now node) }
        ensures in_tree { IfOk result (λ v. All (λ n. n < length (nodes_of self.now)) v.items) }
        ensures memory { IfErr result (λ e. e ≡ EditError.OutOfMemory) }
        ensures oom_only_if { OnErr result (IsTrue (is_entry_at (nodes_of self.now) (number_of node))) }
    {
        let number = node.number();
        if !is_entry(&self.tree, number) {
            return Ok(Vec::new(self.alloc));
        }
        match comments_of(self.alloc, &self.tree, number) {
            Ok(numbers) => Ok(numbers),
            Err(_) => Err(EditError::OutOfMemory),
        }
    }
}
