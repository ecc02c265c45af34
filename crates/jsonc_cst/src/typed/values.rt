//! A property's value is set, and a truth value.

ghost use Rattle.jsonc_text.specs.declared.edit.Shape.{Shape};
ghost use Rattle.jsonc_layout.specs.input.Views.{plain};
ghost use Rattle.jsonc_cst.specs.Document.{HasNode};
ghost use Rattle.jsonc_cst.specs.Nodes.{array_node, boolean_lit_node, object_node, object_prop_node};
ghost use Rattle.jsonc_cst.specs.typed.SetCalls.{IsBooleanSet, IsValueEnsured, IsValueSet};

use crate::cst::{
    CstArray, CstBooleanLit, CstNode, CstObject, CstObjectProp, CstRootNode, EditError, TypedNode,
    node_at,
};
use crate::typed::setting::{array_at, object_at};
use jsonc_edit::Shape;
use jsonc_edit::set::property_value_or_set;
use jsonc_layout::input::CstInputValue;
use std::alloc::Allocator;

impl CstObjectProp {
    /// Sets its value, and answers the value's node.
    ///
    /// The old value is replaced by the new one, as by `replace_with` of a value, and is detached
    /// then. `{a:[1]b:2}` with 7 as the value of `a` is `{a:7 b:2}`.
    ///
    /// If the document is sound, it is sound again, and its value is the old one but for that
    /// entry: if the property is in it, the call is one step, the edit that sets the value at
    /// its path. Where there was no value, which is so only after edits of single leaves, the new
    /// one is laid out as the document determines and is inserted after all that the property holds. On
    /// an error the document stays as it was.
    pub fn set_value<A: Allocator + Copy>(
        self,
        doc: &mut CstRootNode<A>,
        value: CstInputValue<A>,
    ) -> Result<CstNode, EditError>
        requires { HasNode doc.old (object_prop_node self) }
        ensures { IsValueSet doc.old doc.new (object_prop_node self) (plain value) result }
    {
        let number = self.node().number();
        let new = jsonc_edit::set::set_property_value(doc.alloc, &mut doc.tree, number, &value)?;
        Ok(node_at(&doc.tree, new))
    }

    /// Answers the value if it is an object; sets an empty one where there is none, or in the place
    /// of any other.
    ///
    /// It is set as by [`CstObjectProp::set_value`]. For a property that is in a sound document
    /// the call is one step. A property without its name or its colon, which is so only after edits
    /// of single leaves, is the error `MissingName`, and none of a sound document is. On an error
    /// the document stays as it was.
    pub fn object_value_or_set<A: Allocator + Copy>(
        self,
        doc: &mut CstRootNode<A>,
    ) -> Result<CstObject, EditError>
        requires { HasNode doc.old (object_prop_node self) }
        ensures { IsValueEnsured doc.old doc.new Shape.Object (object_prop_node self) object_node result }
    {
        let number = self.node().number();
        match property_value_or_set(doc.alloc, &mut doc.tree, number, Shape::Object) {
            Ok(object) => Ok(object_at(&doc.tree, object)),
            Err(error) => Err(error),
        }
    }

    /// Answers the value if it is an array; sets an empty one where there is none, or in the place
    /// of any other.
    ///
    /// It is set as by [`CstObjectProp::set_value`]. For a property that is in a sound document
    /// the call is one step. A property without its name or its colon, which is so only after edits
    /// of single leaves, is the error `MissingName`, and none of a sound document is. On an error
    /// the document stays as it was.
    pub fn array_value_or_set<A: Allocator + Copy>(
        self,
        doc: &mut CstRootNode<A>,
    ) -> Result<CstArray, EditError>
        requires { HasNode doc.old (object_prop_node self) }
        ensures { IsValueEnsured doc.old doc.new Shape.Array (object_prop_node self) array_node result }
    {
        let number = self.node().number();
        match property_value_or_set(doc.alloc, &mut doc.tree, number, Shape::Array) {
            Ok(array) => Ok(array_at(&doc.tree, array)),
            Err(error) => Err(error),
        }
    }
}

impl CstBooleanLit {
    /// Sets it to `true` or `false`, in its place.
    ///
    /// Where `false` would then be directly after a hexadecimal number, whose digits would
    /// read on into it, a space is inserted between them: `[0x1true]` is `[0x1 false]` then. Memory
    /// is allocated for that space alone, and on an error the document stays as it was. If the
    /// document is sound, and the node a value in it, the document is sound again, and its value is
    /// the old one with this truth value at the node's path: one step, the edit that sets it there.
    pub fn set_value<A: Allocator + Copy>(
        self,
        doc: &mut CstRootNode<A>,
        value: bool,
    ) -> Result<(), EditError>
        requires { HasNode doc.old (boolean_lit_node self) }
        ensures { IsBooleanSet doc.old doc.new (boolean_lit_node self) value result }
    {
        let number = self.node().number();
        jsonc_edit::set::set_boolean(doc.alloc, &mut doc.tree, number, value)
    }
}
