//! Elements that are inserted into arrays.

ghost use Rattle.std.specs.Prelude.{min};
ghost use Rattle.jsonc_layout.specs.input.Views.{plain};
ghost use Rattle.jsonc_cst.specs.Document.{nodes_of, HasNode};
ghost use Rattle.jsonc_cst.specs.Nodes.{array_node, number_of};
ghost use Rattle.jsonc_cst.specs.typed.Calls.{IsInsertion};
ghost use Rattle.jsonc_cst.specs.typed.Inserting.{element_count};
ghost use Rattle.jsonc_cst.specs.typed.Steps.{IsAppending, IsInserting};

use crate::cst::{CstArray, CstNode, CstRootNode, EditError, TypedNode, node_at};
use jsonc_insert::insert_element;
use jsonc_layout::input::CstInputValue;
use std::alloc::Allocator;

impl CstArray {
    /// Appends a value, and answers its node.
    ///
    /// It does what [`CstArray::insert`] does with the number of its elements, or a greater one.
    pub fn append<A: Allocator + Copy>(
        self,
        doc: &mut CstRootNode<A>,
        value: CstInputValue<A>,
    ) -> Result<CstNode, EditError>
        requires { HasNode doc.old (array_node self) }
        ensures { IsInsertion doc.old doc.new (array_node self) (element_count doc.old (array_node self))
            (element_count doc.old (array_node self)) (plain value)
            (IsAppending (nodes_of doc.old) (nodes_of doc.new) (number_of (array_node self)) (plain value)) result }
    {
        // There are fewer elements than nodes.
        let count = doc.tree.len();
        self.insert(doc, count, value)
    }

    /// Inserts a value before its element of this number, and answers the value's node.
    ///
    /// The number counts from 0; where the array has fewer elements, the value is inserted after
    /// the last.
    ///
    /// The array determines how: on several lines the value has a line of its own, one level deeper. A
    /// comma is inserted between it and its neighbours, and after it where the array's last
    /// elements have one. Blank lines directly inside the brackets are removed. Comments stay where
    /// they are. `[1, 2]` with 9 at 1 is `[1, 9,  2]`.
    ///
    /// If the document is sound, it is sound again, and its value is the old one with this value in
    /// the array: if the array is in it, the call is one step, the edit that inserts the value
    /// at the array's path. An array that lacks a bracket, which is so only after edits of single
    /// leaves, is the error `MissingBrackets`, and none that is in a sound document. On an
    /// error the document stays as it was.
    pub fn insert<A: Allocator + Copy>(
        self,
        doc: &mut CstRootNode<A>,
        index: usize,
        value: CstInputValue<A>,
    ) -> Result<CstNode, EditError>
        requires { HasNode doc.old (array_node self) }
        ensures { IsInsertion doc.old doc.new (array_node self) index (min index (element_count doc.old (array_node self)))
            (plain value)
            (IsInserting (nodes_of doc.old) (nodes_of doc.new) (number_of (array_node self)) index (plain value)) result }
    {
        let number = self.node().number();
        match insert_element(doc.alloc, &mut doc.tree, number, index, &value) {
            Ok(element) => Ok(node_at(&doc.tree, element)),
            Err(error) => Err(error),
        }
    }
}
