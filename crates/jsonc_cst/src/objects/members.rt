//! Properties that are inserted into objects.

ghost use Rattle.std.specs.Prelude.{◌≡◌, ◌<◌, chars, length, min};
ghost use Rattle.jsonc_layout.specs.input.Views.{plain};
ghost use Rattle.jsonc_tree.specs.Content.{Content};
ghost use Rattle.jsonc_tree.specs.Tree.{content_at};
ghost use Rattle.jsonc_cst.specs.Document.{nodes_of, HasNode};
ghost use Rattle.jsonc_cst.specs.Nodes.{number_of, object_node, object_prop_node, IsNodeOf};
ghost use Rattle.jsonc_cst.specs.objects.Calls.{IsNamedInsertion};
ghost use Rattle.jsonc_cst.specs.objects.Members.{IsAppendingNamed, IsInsertingNamed};
ghost use Rattle.jsonc_cst.specs.typed.Inserting.{element_count};

use crate::cst::{
    CstContainerNode, CstNode, CstObject, CstObjectProp, CstRootNode, EditError, TypedNode, node_at,
};
use jsonc_insert::members::insert_property;
use jsonc_layout::input::CstInputValue;
use jsonc_tree::Tree;
use std::alloc::Allocator;

// The property of a number.
fn property_at<A: Allocator>(tree: &Tree<A>, number: usize) -> CstObjectProp
    requires in_tree { number < length tree.now.nodes }
    requires property { content_at tree.now.nodes number ≡ Content.property }
    ensures number { result.number ≡ number }
    ensures in_document { IsNodeOf tree.now.nodes (object_prop_node result) }
{
    match node_at(tree, number) {
        CstNode::Container(CstContainerNode::ObjectProp(property)) => property,
        _ => unreachable!(),
    }
}

impl CstObject {
    /// Appends a property of this name and value, and answers it.
    ///
    /// It does what [`CstObject::insert`] does with the number of its properties, or a greater one.
    /// Another property of the name, if there is one, stays: [`CstObject::get`] then answers that.
    pub fn append<A: Allocator + Copy>(
        self,
        doc: &mut CstRootNode<A>,
        name: &str,
        value: CstInputValue<A>,
    ) -> Result<CstObjectProp, EditError>
        requires { HasNode doc.old (object_node self) }
        ensures { IsNamedInsertion doc.old doc.new (object_node self) (element_count doc.old (object_node self))
            (element_count doc.old (object_node self)) (chars name.now) (plain value)
            (IsAppendingNamed (nodes_of doc.old) (nodes_of doc.new) (number_of (object_node self)) (chars name.now)
            (plain value)) result }
    {
        // There are fewer properties than nodes.
        let count = doc.tree.len();
        self.insert(doc, count, name, value)
    }

    /// Inserts a property before its property of this number, and answers the new one.
    ///
    /// The number counts from 0; where the object has fewer properties, the new one is inserted
    /// after the last.
    ///
    /// An object in which no line ends is put on several lines first. The property is inserted on a
    /// line of its own, one level deeper than the object's. A comma is inserted between it and its
    /// neighbours, and after it where the object's last property has one, or where the document's
    /// other containers on several lines do. Blank lines directly inside the brackets are removed.
    /// Comments stay where they are. `{"a":1}` with `"b": true` at 1:
    ///
    /// ```text
    /// {
    ///   "a":1,
    ///   "b": true
    /// }
    /// ```
    ///
    /// If the document is sound, it is sound again, and its value is the old one with this property
    /// in the object: if the object is in it, the call is one step, the edit that inserts the
    /// property at the object's path. An object that lacks a bracket, which is so only after edits
    /// of single leaves, is the error `MissingBrackets`, and none that is in a sound document.
    /// On an error the document stays as it was.
    pub fn insert<A: Allocator + Copy>(
        self,
        doc: &mut CstRootNode<A>,
        index: usize,
        name: &str,
        value: CstInputValue<A>,
    ) -> Result<CstObjectProp, EditError>
        requires { HasNode doc.old (object_node self) }
        ensures { IsNamedInsertion doc.old doc.new (object_node self) index
            (min index (element_count doc.old (object_node self))) (chars name.now) (plain value)
            (IsInsertingNamed (nodes_of doc.old) (nodes_of doc.new) (number_of (object_node self)) index (chars name.now)
            (plain value)) result }
    {
        let number = self.node().number();
        match insert_property(doc.alloc, &mut doc.tree, number, index, name, &value) {
            Ok(property) => Ok(property_at(&doc.tree, property)),
            Err(error) => Err(error),
        }
    }
}
