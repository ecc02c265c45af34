//! Values of properties by the properties' names: found, or set.

ghost use Rattle.std.specs.Prelude.{chars};
ghost use Rattle.jsonc_text.specs.declared.edit.Over.{Over};
ghost use Rattle.jsonc_text.specs.declared.edit.Shape.{Shape};
ghost use Rattle.jsonc_cst.specs.Document.{HasNode};
ghost use Rattle.jsonc_cst.specs.Nodes.{array_node, object_node};
ghost use Rattle.jsonc_cst.specs.objects.Calls.{number_if, number_in, IsNamedEnsured, IsSaidIf, IsSaidOf};

use crate::cst::{CstArray, CstObject, CstRootNode, EditError, TypedNode};
use crate::typed::{array_at, object_at};
use jsonc_edit::{Over, Shape};
use jsonc_insert::named::ensure_property;
use std::alloc::Allocator;

impl CstObject {
    /// Answers the value at a name if it is an object; appends an empty one where no property has
    /// the name; answers None, and changes nothing, where it is another.
    ///
    /// The value is that of its first property of the name; where that has no value, the answer is
    /// None too. An empty object is appended with the name, as by [`CstObject::append`], and is the
    /// answer.
    ///
    /// For an object that is in a sound document the call is one step, and the one error is an
    /// allocation failure. An object that a property is to be appended to, and that lacks a
    /// bracket, which is so only after edits of single leaves, is the error `MissingBrackets`. On
    /// an error the document stays as it was.
    pub fn object_value_or_create<A: Allocator + Copy>(
        self,
        doc: &mut CstRootNode<A>,
        name: &str,
    ) -> Result<Option<CstObject>, EditError>
        requires { HasNode doc.old (object_node self) }
        ensures { IsNamedEnsured doc.old doc.new Shape.Object Over.Keep (object_node self) (chars name.now)
            (number_if object_node) (IsSaidIf object_node) result }
    {
        let number = self.node().number();
        let tree = &mut doc.tree;
        match ensure_property(doc.alloc, tree, number, name, Shape::Object, Over::Keep) {
            Ok(Some(object)) => Ok(Some(object_at(tree, object))),
            Ok(None) => Ok(None),
            Err(error) => Err(error),
        }
    }

    /// Answers the value at a name if it is an object; sets an empty one where there is none, or in
    /// the place of any other.
    ///
    /// The value is that of its first property of the name, and is set as by `set_value` of a
    /// property. Where no property has the name, one with an empty object is appended, as by
    /// [`CstObject::append`].
    ///
    /// For an object that is in a sound document the call is one step, and the one error is an
    /// allocation failure. A property whose value is to be set, and that lacks its colon, is the
    /// error `MissingName`; an object that one is to be appended to, and that lacks a bracket, is
    /// `MissingBrackets`. Both are so only after edits of single leaves. On an error the document
    /// stays as it was.
    pub fn object_value_or_set<A: Allocator + Copy>(
        self,
        doc: &mut CstRootNode<A>,
        name: &str,
    ) -> Result<CstObject, EditError>
        requires { HasNode doc.old (object_node self) }
        ensures { IsNamedEnsured doc.old doc.new Shape.Object Over.Replace (object_node self) (chars name.now)
            (number_in object_node) (IsSaidOf object_node) result }
    {
        let number = self.node().number();
        let tree = &mut doc.tree;
        match ensure_property(doc.alloc, tree, number, name, Shape::Object, Over::Replace) {
            Ok(Some(object)) => Ok(object_at(tree, object)),
            Ok(None) => unreachable!(),
            Err(error) => Err(error),
        }
    }

    /// Answers the value at a name if it is an array; appends an empty one where no property has
    /// the name; answers None, and changes nothing, where it is another.
    ///
    /// The value is that of its first property of the name; where that has no value, the answer is
    /// None too. An empty array is appended with the name, as by [`CstObject::append`], and is the
    /// answer.
    ///
    /// For an object that is in a sound document the call is one step, and the one error is an
    /// allocation failure. An object that a property is to be appended to, and that lacks a
    /// bracket, which is so only after edits of single leaves, is the error `MissingBrackets`. On
    /// an error the document stays as it was.
    pub fn array_value_or_create<A: Allocator + Copy>(
        self,
        doc: &mut CstRootNode<A>,
        name: &str,
    ) -> Result<Option<CstArray>, EditError>
        requires { HasNode doc.old (object_node self) }
        ensures { IsNamedEnsured doc.old doc.new Shape.Array Over.Keep (object_node self) (chars name.now)
            (number_if array_node) (IsSaidIf array_node) result }
    {
        let number = self.node().number();
        let tree = &mut doc.tree;
        match ensure_property(doc.alloc, tree, number, name, Shape::Array, Over::Keep) {
            Ok(Some(array)) => Ok(Some(array_at(tree, array))),
            Ok(None) => Ok(None),
            Err(error) => Err(error),
        }
    }

    /// Answers the value at a name if it is an array; sets an empty one where there is none, or in
    /// the place of any other.
    ///
    /// The value is that of its first property of the name, and is set as by `set_value` of a
    /// property. Where no property has the name, one with an empty array is appended, as by
    /// [`CstObject::append`].
    ///
    /// For an object that is in a sound document the call is one step, and the one error is an
    /// allocation failure. A property whose value is to be set, and that lacks its colon, is the
    /// error `MissingName`; an object that one is to be appended to, and that lacks a bracket, is
    /// `MissingBrackets`. Both are so only after edits of single leaves. On an error the document
    /// stays as it was.
    pub fn array_value_or_set<A: Allocator + Copy>(
        self,
        doc: &mut CstRootNode<A>,
        name: &str,
    ) -> Result<CstArray, EditError>
        requires { HasNode doc.old (object_node self) }
        ensures { IsNamedEnsured doc.old doc.new Shape.Array Over.Replace (object_node self) (chars name.now)
            (number_in array_node) (IsSaidOf array_node) result }
    {
        let number = self.node().number();
        let tree = &mut doc.tree;
        match ensure_property(doc.alloc, tree, number, name, Shape::Array, Over::Replace) {
            Ok(Some(array)) => Ok(array_at(tree, array)),
            Ok(None) => unreachable!(),
            Err(error) => Err(error),
        }
    }
}
