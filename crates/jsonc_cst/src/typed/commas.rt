//! Trailing commas that are set, or taken away.

ghost use Rattle.jsonc_cst.specs.Document.{HasNode};
ghost use Rattle.jsonc_cst.specs.Nodes.{array_node, number_of, object_node, root_node};
ghost use Rattle.jsonc_cst.specs.Tree.{NodesAreTree};
ghost use Rattle.jsonc_cst.specs.typed.Calls.{AreCommasSet, IfHolder, InAnyCase};

use crate::cst::{
    CstArray, CstObject, CstRoot, CstRootNode, EditError, TrailingCommaMode, TypedNode,
};
use std::alloc::Allocator;

// Sets the trailing commas of a node, and of all arrays and objects below it, by a mode.
fn set_commas_of<A: Allocator, N: TypedNode>(
    doc: &mut CstRootNode<A>,
    node: N,
    mode: TrailingCommaMode,
) -> Result<(), EditError>
    requires { HasNode doc.old (N.node_of node) }
    ensures { AreCommasSet doc.old doc.new mode (number_of (N.node_of node)) (IfHolder (N.node_of node)) result }
{
    let number = node.node().number();
    match jsonc_edit::commas::set_trailing_commas(&mut doc.tree, number, mode) {
        Ok(()) => Ok(()),
        Err(error) => Err(error),
    }
}

impl<A: Allocator> CstRootNode<A> {
    /// Sets or removes the trailing commas of all arrays and objects, as the mode says.
    ///
    /// It does what [`CstRoot::set_trailing_commas`] of its root does.
    pub fn set_trailing_commas(&mut self, mode: TrailingCommaMode) -> Result<(), EditError>
        ensures { AreCommasSet self.old self.new mode 0 InAnyCase result }
    {
        let root = self.root();
        set_commas_of(self, root, mode)
    }
}

impl CstRoot {
    /// Sets or removes its trailing commas, and those of all arrays and objects below it.
    ///
    /// With `Never` the comma after the last element or property is removed. With `IfMultiline`
    /// one is inserted directly after the last element or property of each array and object that
    /// has a line end among its children, where none is there. `[1, 2,]` stays with
    /// `IfMultiline`, and is `[1, 2]` with `Never`.
    ///
    /// If the document is sound, its text is a document again, of the same value and with the same
    /// literals and comments, and sound: under options that allow trailing commas, where the mode
    /// sets some; and a further call by the same mode changes nothing. If the node is in it,
    /// the call is one step. In a damaged document, and below a detached node, each array and
    /// object is then as the mode says too, but that `Never` removes one comma where more than one
    /// was after the last element.
    ///
    /// Memory is allocated only where a comma is inserted. Where that fails, the commas of arrays
    /// and objects before have been set, and nothing else has changed: that too is a step. A
    /// document that the node is not in prints what it did, on an error too.
    pub fn set_trailing_commas<A: Allocator>(
        self,
        doc: &mut CstRootNode<A>,
        mode: TrailingCommaMode,
    ) -> Result<(), EditError>
        requires { HasNode doc.old (root_node self) }
        ensures { AreCommasSet doc.old doc.new mode (number_of (root_node self)) (IfHolder (root_node self)) result }
    {
        set_commas_of(doc, self, mode)
    }
}

impl CstArray {
    /// Sets or removes its trailing commas, and those of all arrays and objects below it.
    ///
    /// [`CstRoot::set_trailing_commas`] says how.
    pub fn set_trailing_commas<A: Allocator>(
        self,
        doc: &mut CstRootNode<A>,
        mode: TrailingCommaMode,
    ) -> Result<(), EditError>
        requires { HasNode doc.old (array_node self) }
        ensures { AreCommasSet doc.old doc.new mode (number_of (array_node self)) (IfHolder (array_node self)) result }
    {
        set_commas_of(doc, self, mode)
    }
}

impl CstObject {
    /// Sets or removes its trailing commas, and those of all arrays and objects below it.
    ///
    /// [`CstRoot::set_trailing_commas`] says how.
    pub fn set_trailing_commas<A: Allocator>(
        self,
        doc: &mut CstRootNode<A>,
        mode: TrailingCommaMode,
    ) -> Result<(), EditError>
        requires { HasNode doc.old (object_node self) }
        ensures { AreCommasSet doc.old doc.new mode (number_of (object_node self)) (IfHolder (object_node self)) result }
    {
        set_commas_of(doc, self, mode)
    }
}
