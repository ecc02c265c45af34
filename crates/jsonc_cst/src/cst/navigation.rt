//! The calls that every kind of node has: what is above, beside and below it, how it is laid out, and what it
//! prints and gives.

ghost use Rattle.std.specs.Prelude.{◌≡◌, option_map, string_bytes, IfErr, IfOk, IfSome, OnErr};
ghost use Rattle.std.specs.List.{All, slice_get};
ghost use Rattle.jsonc_layout.specs.lines.Lines.{blank_line_before};
ghost use Rattle.jsonc_layout.specs.to_input.Wanted.{MayTakeMemory};
ghost use Rattle.jsonc_tree.specs.Tree.{place_at};
ghost use Rattle.jsonc_cst.specs.Document.{nodes_of, HasNode};
ghost use Rattle.jsonc_cst.specs.Document.{parent_of, ancestors_of, children_of, content_of};
ghost use Rattle.jsonc_cst.specs.Layout.{indent_of, leading_comments_of, trailing_comma_of};
ghost use Rattle.jsonc_cst.specs.Layout.{trailing_comments_of, uses_trailing_commas_of};
ghost use Rattle.jsonc_cst.specs.Nodes.{comment_node, number_of, root_node, token_node};
ghost use Rattle.jsonc_cst.specs.Readings.{elements_of};
ghost use Rattle.jsonc_cst.specs.Readings.{next_siblings_of, previous_siblings_of, root_above_of};
ghost use Rattle.jsonc_cst.specs.Tree.{NodesAreTree};
ghost use Rattle.jsonc_cst.specs.Values.{IsValueTaken};

use super::access::{AncestorIterator, child_of, children_of, node_at, parent_of};
use super::elements::nodes_at;
use super::layout::comments_under;
use super::node::{CstComment, CstContainerNode, CstNode, CstRoot, CstToken};
use super::siblings::{NextSiblingIterator, PreviousSiblingIterator};
use super::{CstRootNode, EditError};
use jsonc_layout::input::CstInputValue;
use jsonc_tree::Shown;
use std::alloc::Allocator;

/// A node of a document; these calls are those of all kinds.
///
/// A type that has it is of one kind of node, of some kinds, or of any.
pub trait TypedNode: Copy {
    ghost use Rattle.jsonc_cst.specs.declared.cst.node.CstNode.{CstNode};

    ghost node_of: { Self → CstNode };

    /// The same node, as a `CstNode`.
    fn node(self) -> CstNode
        ensures { result ≡ node_of self };

    /// The container that it is a child of.
    ///
    /// None for the root and for a detached node, one that was removed or replaced.
    final fn parent<A: Allocator>(self, doc: &CstRootNode<A>) -> Option<CstContainerNode>
        requires { HasNode doc.now (node_of self) }
        ensures parent { result ≡ parent_of doc.now (node_of self) }
        ensures in_document { IfSome result (λ c. HasNode doc.now (CstNode.Container c)) }
    {
        parent_of(&doc.tree, self.node().number())
    }

    /// The containers above it, nearest first.
    final fn ancestors<A: Allocator>(self, doc: &CstRootNode<A>) -> AncestorIterator<'_, A>
        requires { HasNode doc.now (node_of self) }
        ensures above { result ≡ ancestors_of doc.now (node_of self) }
        ensures in_document { All (λ c. HasNode doc.now (CstNode.Container c)) result }
    {
        AncestorIterator {
            tree: &doc.tree,
            above: doc.tree.ancestors(self.node().number()),
        }
    }

    /// Its place among its parent's children, counted from 0.
    ///
    /// It is 0 where the node has no parent.
    final fn child_index<A: Allocator>(self, doc: &CstRootNode<A>) -> usize
        requires { HasNode doc.now (node_of self) }
        ensures place { result ≡ place_at (nodes_of doc.now) (number_of (node_of self)) }
    {
        doc.tree.child_index(self.node().number())
    }

    /// The root, if it is below it.
    ///
    /// None for the root itself, and for a detached node and all below it.
    final fn root_node<A: Allocator>(self, doc: &CstRootNode<A>) -> Option<CstRoot>
        requires { HasNode doc.now (node_of self) }
        ensures root { result ≡ root_above_of doc.now (node_of self) }
        ensures in_document { IfSome result (λ r. HasNode doc.now (root_node r)) }
    {
        let Some(number) = jsonc_layout::nodes::root_node(&doc.tree, self.node().number()) else {
            return None;
        };
        Some(CstRoot { number })
    }

    /// The sibling directly before it.
    final fn previous_sibling<A: Allocator>(self, doc: &CstRootNode<A>) -> Option<CstNode>
        requires { HasNode doc.now (node_of self) }
        ensures sibling { result ≡ slice_get (previous_siblings_of doc.now (node_of self)) 0 }
        ensures in_document { IfSome result (HasNode doc.now) }
    {
        let Some(number) = jsonc_layout::nodes::previous_sibling(&doc.tree, self.node().number())
        else {
            return None;
        };
        Some(node_at(&doc.tree, number))
    }

    /// The sibling directly after it.
    final fn next_sibling<A: Allocator>(self, doc: &CstRootNode<A>) -> Option<CstNode>
        requires { HasNode doc.now (node_of self) }
        ensures sibling { result ≡ slice_get (next_siblings_of doc.now (node_of self)) 0 }
        ensures in_document { IfSome result (HasNode doc.now) }
    {
        let Some(number) = jsonc_layout::nodes::next_sibling(&doc.tree, self.node().number()) else {
            return None;
        };
        Some(node_at(&doc.tree, number))
    }

    /// The siblings before it, nearest first.
    final fn previous_siblings<A: Allocator>(
        self,
        doc: &CstRootNode<A>,
    ) -> PreviousSiblingIterator<'_, A>
        requires { HasNode doc.now (node_of self) }
        ensures before { result ≡ previous_siblings_of doc.now (node_of self) }
        ensures in_document { All (HasNode doc.now) result }
    {
        PreviousSiblingIterator {
            tree: &doc.tree,
            before: jsonc_layout::nodes::previous_siblings(&doc.tree, self.node().number()),
        }
    }

    /// The siblings after it, nearest first.
    final fn next_siblings<A: Allocator>(self, doc: &CstRootNode<A>) -> NextSiblingIterator<'_, A>
        requires { HasNode doc.now (node_of self) }
        ensures after { result ≡ next_siblings_of doc.now (node_of self) }
        ensures in_document { All (HasNode doc.now) result }
    {
        NextSiblingIterator {
            tree: &doc.tree,
            after: jsonc_layout::nodes::next_siblings(&doc.tree, self.node().number()),
        }
    }

    /// Prints the node, and all below it, as it is in the text.
    ///
    /// The answer has `Display`.
    final fn shown<A: Allocator>(self, doc: &CstRootNode<A>) -> Shown<'_, A>
        requires { HasNode doc.now (node_of self) }
        ensures nodes { result.nodes ≡ nodes_of doc.now }
        ensures node { result.node ≡ number_of (node_of self) }
    {
        doc.tree.shown(self.node().number())
    }

    /// The whitespace that its line begins with, if only blanks and comments are before it.
    ///
    /// None also where the line does not begin with whitespace.
    final fn indent_text<A: Allocator + Copy>(
        self,
        doc: &CstRootNode<A>,
    ) -> Result<Option<String<A>>, EditError>
        requires { HasNode doc.now (node_of self) }
        ensures indent { IfOk result (λ o. option_map string_bytes o ≡ indent_of doc.now (node_of self)) }
        ensures memory { IfErr result (λ e. e ≡ EditError.OutOfMemory) }
    {
        let Ok(indent) = jsonc_layout::lines::indent_text(
            doc.alloc,
            &doc.tree,
            self.node().number(),
        ) else {
            return Err(EditError::OutOfMemory);
        };
        Ok(indent)
    }

    /// Whether a blank line is among the blanks, line ends and comments directly before it.
    ///
    /// A blank line is two line ends with nothing but whitespace between them.
    final fn has_blank_line_before<A: Allocator>(self, doc: &CstRootNode<A>) -> bool
        requires { HasNode doc.now (node_of self) }
        ensures { result ≡ blank_line_before (nodes_of doc.now) (number_of (node_of self)) }
    {
        jsonc_layout::lines::has_blank_line_before(&doc.tree, self.node().number())
    }

    /// The comma after it, if only blanks, line ends and comments are between.
    final fn trailing_comma<A: Allocator>(self, doc: &CstRootNode<A>) -> Option<CstToken>
        requires { HasNode doc.now (node_of self) }
        ensures comma { result ≡ trailing_comma_of doc.now (node_of self) }
        ensures in_document { IfSome result (λ t. HasNode doc.now (token_node t)) }
    {
        let Some(number) = jsonc_layout::lines::trailing_comma(&doc.tree, self.node().number())
        else {
            return None;
        };
        Some(CstToken { number })
    }

    /// Whether the nearest laid-out array or object, from the node down, has a comma after its
    /// last element.
    ///
    /// Laid out is one that has whitespace between its brackets and an element, and the nearest is
    /// the first of them, level after level. False where there is none.
    final fn uses_trailing_commas<A: Allocator + Copy>(self, doc: &CstRootNode<A>) -> bool
        requires { HasNode doc.now (node_of self) }
        ensures { result ≡ uses_trailing_commas_of doc.now (node_of self) }
    {
        jsonc_layout::lines::uses_trailing_commas(&doc.tree, self.node().number())
    }

    /// The comments directly before it on its line, nearest first.
    final fn leading_comments_same_line<A: Allocator + Copy>(
        self,
        doc: &CstRootNode<A>,
    ) -> Result<Vec<CstComment, A>, EditError>
        requires { HasNode doc.now (node_of self) }
        ensures comments { IfOk result (λ v. v.items ≡ leading_comments_of doc.now (node_of self)) }
        ensures in_document { IfOk result (λ v. All (λ c. HasNode doc.now (comment_node c)) v.items) }
        ensures memory { IfErr result (λ e. e ≡ EditError.OutOfMemory) }
    {
        let number = self.node().number();
        let Ok(numbers) = jsonc_layout::nodes::leading_comments_same_line(
            doc.alloc, &doc.tree, number,
        ) else {
            return Err(EditError::OutOfMemory);
        };
        let Ok(comments) = comments_under(doc.alloc, &numbers) else {
            return Err(EditError::OutOfMemory);
        };
        Ok(comments)
    }

    /// The comments after it on its line, where only whitespace and comments are there.
    ///
    /// None of them where anything else is there.
    final fn trailing_comments_same_line<A: Allocator + Copy>(
        self,
        doc: &CstRootNode<A>,
    ) -> Result<Vec<CstComment, A>, EditError>
        requires { HasNode doc.now (node_of self) }
        ensures comments { IfOk result (λ v. v.items ≡ trailing_comments_of doc.now (node_of self)) }
        ensures in_document { IfOk result (λ v. All (λ c. HasNode doc.now (comment_node c)) v.items) }
        ensures memory { IfErr result (λ e. e ≡ EditError.OutOfMemory) }
    {
        let number = self.node().number();
        let Ok(numbers) = jsonc_layout::nodes::trailing_comments_same_line(
            doc.alloc, &doc.tree, number,
        ) else {
            return Err(EditError::OutOfMemory);
        };
        let Ok(comments) = comments_under(doc.alloc, &numbers) else {
            return Err(EditError::OutOfMemory);
        };
        Ok(comments)
    }

    /// What it represents, as a value for edits.
    ///
    /// A property gives its value's, the root its value's. Numbers are as written, strings decoded;
    /// of equal names the last value is at the first place. A word, a token, trivia and a
    /// string that does not decode give None. What gives None inside a container, or has no name
    /// that decodes, is passed over. Of a leaf only a number and a string that decodes need memory.
    final fn to_value<A: Allocator + Copy>(
        self,
        doc: &CstRootNode<A>,
    ) -> Result<Option<CstInputValue<A>>, EditError>
        requires { HasNode doc.now (node_of self) }
        ensures value { IfOk result (IsValueTaken doc.now (node_of self)) }
        ensures memory { IfErr result (λ e. e ≡ EditError.OutOfMemory) }
        ensures oom_only_if { OnErr result (MayTakeMemory (content_of doc.now (node_of self))) }
    {
        let number = self.node().number();
        let Ok(value) = jsonc_layout::to_input::to_value(doc.alloc, &doc.tree, number) else {
            return Err(EditError::OutOfMemory);
        };
        Ok(value)
    }
}

/// A node that may have children.
///
/// That is a container, and so a node of any kind.
pub trait ParentNode: TypedNode {
    /// Its child at a place, counted from 0, if there is one. A leaf has none.
    final fn child_at_index<A: Allocator>(
        self,
        doc: &CstRootNode<A>,
        index: usize,
    ) -> Option<CstNode>
        requires { HasNode doc.now (Self.node_of self) }
        ensures child { result ≡ slice_get (children_of doc.now (Self.node_of self)) index }
        ensures in_document { IfSome result (HasNode doc.now) }
    {
        child_of(&doc.tree, self.node().number(), index)
    }

    /// All its children, in order. A leaf has none.
    final fn children<A: Allocator + Copy>(
        self,
        doc: &CstRootNode<A>,
    ) -> Result<Vec<CstNode, A>, EditError>
        requires { HasNode doc.now (Self.node_of self) }
        ensures children { IfOk result (λ v. v.items ≡ children_of doc.now (Self.node_of self)) }
        ensures in_document { IfOk result (λ v. All (HasNode doc.now) v.items) }
        ensures memory { IfErr result (λ e. e ≡ EditError.OutOfMemory) }
    {
        let Ok(children) = children_of(doc.alloc, &doc.tree, self.node().number()) else {
            return Err(EditError::OutOfMemory);
        };
        Ok(children)
    }

    /// Its children but trivia, brackets, commas and colons, in order.
    ///
    /// Trivia are blanks, line ends and comments.
    final fn children_exclude_trivia_and_tokens<A: Allocator + Copy>(
        self,
        doc: &CstRootNode<A>,
    ) -> Result<Vec<CstNode, A>, EditError>
        requires { HasNode doc.now (Self.node_of self) }
        ensures children { IfOk result (λ v. v.items ≡ elements_of doc.now (Self.node_of self)) }
        ensures in_document { IfOk result (λ v. All (HasNode doc.now) v.items) }
        ensures memory { IfErr result (λ e. e ≡ EditError.OutOfMemory) }
    {
        let number = self.node().number();
        let Ok(numbers) = jsonc_layout::nodes::elements(doc.alloc, &doc.tree, number) else {
            return Err(EditError::OutOfMemory);
        };
        let Ok(elements) = nodes_at(doc.alloc, &doc.tree, &numbers) else {
            return Err(EditError::OutOfMemory);
        };
        Ok(elements)
    }
}
