//! Edits of nodes, each as the edit of the path at which the node is.

ghost use Rattle.std.specs.Prelude.{◌≡◌, ◌≢◌, ◌<◌, ℕ, IfErr, List, None, chars, length};
ghost use Rattle.jsonc_tree.specs.Content.{Content};
ghost use Rattle.jsonc_tree.specs.Tree.{parent_at};
ghost use Rattle.jsonc_layout.specs.input.Views.{plain};
ghost use Rattle.jsonc_run.specs.Edits as op;
ghost use Rattle.jsonc_cst.specs.Document.{content_of, nodes_of, HasNode};
ghost use Rattle.jsonc_cst.specs.Nodes.{number_of};
ghost use Rattle.jsonc_cst.specs.typed.There.{entry_above, IsMadeThere};

use crate::cst::{CstInputValue, CstNode, CstRootNode, EditError, TypedNode};
use jsonc_edit::remove::remove;
use jsonc_edit::replace;
use jsonc_edit::set::{rename_property, set_root};
use jsonc_insert::insert_element;
use jsonc_insert::members::insert_property;
use jsonc_layout::nodes::is_property_kind;
use jsonc_run::is_too_deep_below;
use jsonc_tree::Tree;
use jsonc_walk::context::MAXIMUM_NESTING;
use std::alloc::Allocator;

// The property that a value is in, or the value itself where it is in none.
fn entry_of<A: Allocator>(tree: &Tree<A>, value: usize) -> usize
    requires { value < length tree.now.nodes }
    ensures entry { result ≡ entry_above tree.now.nodes value }
    ensures in_tree { result < length tree.now.nodes }
{
    match tree.parent(value) {
        Some(container) if is_property_kind(tree.kind(container)) => container,
        _ => value,
    }
}

impl<A: Allocator + Copy> CstRootNode<A> {
    /// Sets the document's value, as [`Edit::SetRoot`](jsonc_run::Edit::SetRoot) does.
    #[doc(hidden)]
    pub fn set_root_there(&mut self, value: &CstInputValue<A>) -> Result<(), EditError>
        ensures set { IsMadeThere self.old self.new 0 (op.set_root (plain value.now)) result }
        ensures error { IfErr result (λ e. e ≢ EditError.NoSuchPlace) }
    {
        if !value.is_within(MAXIMUM_NESTING) {
            return Err(EditError::NestingDepthExceeded);
        }
        match set_root(self.alloc, &mut self.tree, value) {
            Ok(_) => Ok(()),
            Err(error) => Err(error),
        }
    }

    /// Replaces a value by another, as [`Edit::Replace`](jsonc_run::Edit::Replace) does at its path.
    #[doc(hidden)]
    pub fn replace_there(
        &mut self,
        node: CstNode,
        value: &CstInputValue<A>,
    ) -> Result<(), EditError>
        requires { HasNode self.old node }
        ensures { (path : List ℕ)
            → IsMadeThere self.old self.new (number_of node) (op.replace path (plain value.now)) result }
    {
        let number = node.number();
        if is_too_deep_below(&self.tree, number, 0, value) {
            return Err(EditError::NestingDepthExceeded);
        }
        match replace(self.alloc, &mut self.tree, number, value) {
            Ok(Some(_)) => Ok(()),
            Ok(None) => Err(EditError::NoSuchPlace),
            Err(error) => Err(error),
        }
    }

    /// Removes the entry that a value is, or whose value it is, as [`Edit::Remove`](jsonc_run::Edit::Remove) does at
    /// its path.
    #[doc(hidden)]
    pub fn remove_there(&mut self, node: CstNode) -> Result<(), EditError>
        requires { HasNode self.old node }
        ensures removed { (path : List ℕ)
            → IsMadeThere self.old self.new (entry_above (nodes_of self.old) (number_of node)) (op.remove path) result }
        ensures untouched { parent_at (nodes_of self.old) (entry_above (nodes_of self.old) (number_of node)) ≡ None
            → nodes_of self.new ≡ nodes_of self.old }
    {
        let entry = entry_of(&self.tree, node.number());
        remove(self.alloc, &mut self.tree, entry)
    }

    /// Gives the property whose value a node is another name, as [`Edit::RenameProperty`](jsonc_run::Edit::RenameProperty)
    /// does at its path.
    #[doc(hidden)]
    pub fn rename_there(&mut self, node: CstNode, name: &str) -> Result<(), EditError>
        requires { HasNode self.old node }
        ensures { (path : List ℕ) → IsMadeThere self.old self.new (entry_above (nodes_of self.old) (number_of node))
            (op.rename_property path (chars name.now)) result }
    {
        let property = entry_of(&self.tree, node.number());
        match rename_property(self.alloc, &mut self.tree, property, name) {
            Ok(_) => Ok(()),
            Err(error) => Err(error),
        }
    }

    /// Inserts a value into an array, as [`Edit::InsertElement`](jsonc_run::Edit::InsertElement) does at its path.
    #[doc(hidden)]
    pub fn insert_element_there(
        &mut self,
        array: CstNode,
        index: usize,
        value: &CstInputValue<A>,
    ) -> Result<(), EditError>
        requires in_document { HasNode self.old array }
        requires array { content_of self.old array ≡ Content.array }
        ensures { (path : List ℕ)
            → IsMadeThere self.old self.new (number_of array) (op.insert_element path index (plain value.now)) result }
    {
        let number = array.number();
        if is_too_deep_below(&self.tree, number, 1, value) {
            return Err(EditError::NestingDepthExceeded);
        }
        match insert_element(self.alloc, &mut self.tree, number, index, value) {
            Ok(_) => Ok(()),
            Err(error) => Err(error),
        }
    }

    /// Appends a value to an array, as [`Edit::AppendElement`](jsonc_run::Edit::AppendElement) does at its path.
    #[doc(hidden)]
    pub fn append_element_there(
        &mut self,
        array: CstNode,
        value: &CstInputValue<A>,
    ) -> Result<(), EditError>
        requires in_document { HasNode self.old array }
        requires array { content_of self.old array ≡ Content.array }
        ensures { (path : List ℕ)
            → IsMadeThere self.old self.new (number_of array) (op.append_element path (plain value.now)) result }
    {
        let number = array.number();
        if is_too_deep_below(&self.tree, number, 1, value) {
            return Err(EditError::NestingDepthExceeded);
        }
        // There are fewer elements than nodes.
        let count = self.tree.len();
        match insert_element(self.alloc, &mut self.tree, number, count, value) {
            Ok(_) => Ok(()),
            Err(error) => Err(error),
        }
    }

    /// Appends a property to an object, as [`Edit::AppendProperty`](jsonc_run::Edit::AppendProperty) does at its path.
    #[doc(hidden)]
    pub fn append_property_there(
        &mut self,
        object: CstNode,
        name: &str,
        value: &CstInputValue<A>,
    ) -> Result<(), EditError>
        requires in_document { HasNode self.old object }
        requires object { content_of self.old object ≡ Content.object }
        ensures { (path : List ℕ) → IsMadeThere self.old self.new (number_of object)
            (op.append_property path (chars name.now) (plain value.now)) result }
    {
        let number = object.number();
        if is_too_deep_below(&self.tree, number, 2, value) {
            return Err(EditError::NestingDepthExceeded);
        }
        // There are fewer properties than nodes.
        let count = self.tree.len();
        match insert_property(self.alloc, &mut self.tree, number, count, name, value) {
            Ok(_) => Ok(()),
            Err(error) => Err(error),
        }
    }
}
