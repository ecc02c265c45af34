//! Arrays and objects that are put on several lines.

ghost use Rattle.jsonc_cst.specs.Document.{HasNode};
ghost use Rattle.jsonc_cst.specs.Nodes.{array_node, object_node};
ghost use Rattle.jsonc_cst.specs.Tree.{NodesAreTree};
ghost use Rattle.jsonc_cst.specs.typed.Calls.{IsPutOnLines};

use crate::cst::{CstArray, CstObject, CstRootNode, EditError, TypedNode};
use std::alloc::Allocator;

impl CstArray {
    /// Puts each entry, and the closing bracket, on a line of its own, where no line ends between
    /// the brackets yet.
    ///
    /// An entry is each part of what is between the brackets, through its comma. It is put one
    /// level deeper, without the whitespace around it. Only line ends among its own children count.
    /// `{"a":1, "b":[2]}` is then:
    ///
    /// ```text
    /// {
    ///   "a":1,
    ///   "b":[2]
    /// }
    /// ```
    ///
    /// If the document is sound, the text is a document again, of the same value and with the same
    /// literals and comments, and sound: if the node is in it, the call is one step. An array
    /// or object that lacks a bracket is the error `MissingBrackets`, which none that is in a
    /// sound document is. On an error the document stays as it was.
    pub fn ensure_multiline<A: Allocator + Copy>(
        self,
        doc: &mut CstRootNode<A>,
    ) -> Result<(), EditError>
        requires { HasNode doc.old (array_node self) }
        ensures { IsPutOnLines doc.old doc.new (array_node self) result }
    {
        let array = self.node().number();
        jsonc_edit::multiline::ensure_multiline(doc.alloc, &mut doc.tree, array)
    }
}

impl CstObject {
    /// Puts each entry, and the closing bracket, on a line of its own, where no line ends between
    /// the brackets yet.
    ///
    /// An entry is each part of what is between the brackets, through its comma. It is put one
    /// level deeper, without the whitespace around it. Only line ends among its own children count.
    /// `{"a":1, "b":[2]}` is then:
    ///
    /// ```text
    /// {
    ///   "a":1,
    ///   "b":[2]
    /// }
    /// ```
    ///
    /// If the document is sound, the text is a document again, of the same value and with the same
    /// literals and comments, and sound: if the node is in it, the call is one step. An array
    /// or object that lacks a bracket is the error `MissingBrackets`, which none that is in a
    /// sound document is. On an error the document stays as it was.
    pub fn ensure_multiline<A: Allocator + Copy>(
        self,
        doc: &mut CstRootNode<A>,
    ) -> Result<(), EditError>
        requires { HasNode doc.old (object_node self) }
        ensures { IsPutOnLines doc.old doc.new (object_node self) result }
    {
        let object = self.node().number();
        jsonc_edit::multiline::ensure_multiline(doc.alloc, &mut doc.tree, object)
    }
}
