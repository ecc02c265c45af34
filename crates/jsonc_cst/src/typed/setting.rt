//! A document's value is set, and a property is replaced by another.

ghost use Rattle.std.specs.Prelude.{◌≡◌, chars};
ghost use Rattle.jsonc_text.specs.Options.{Options};
ghost use Rattle.jsonc_text.specs.declared.edit.Shape.{Shape};
ghost use Rattle.jsonc_layout.specs.input.Views.{plain};
ghost use Rattle.jsonc_tree.specs.Content.{Content};
ghost use Rattle.jsonc_tree.specs.Tree.{content_at};
ghost use Rattle.jsonc_edit.specs.set.Laws.{IsBareDocument};
ghost use Rattle.jsonc_cst.specs.Document.{nodes_of, tree_of, HasNode};
ghost use Rattle.jsonc_cst.specs.Nodes.{array_node, object_node, object_prop_node, IsNodeOf};
ghost use Rattle.jsonc_cst.specs.typed.Edits.{HandlesStay};
ghost use Rattle.jsonc_cst.specs.typed.Removing.{IsCleared};
ghost use Rattle.jsonc_cst.specs.typed.SetCalls.{IsPropertyReplacement, IsRootCreated, IsRootEnsured, IsRootSet};
ghost use Rattle.jsonc_cst.specs.typed.Steps.{IsClearing};

use crate::cst::{
    CstArray, CstNode, CstObject, CstObjectProp, CstRootNode, EditError, TypedNode, node_at,
};
use jsonc_edit::Shape;
use jsonc_edit::set::{root_value_or_create, root_value_or_set};
use jsonc_layout::input::CstInputValue;
use jsonc_tree::Tree;
use std::alloc::Allocator;

/// The object of a number.
pub fn object_at<A: Allocator>(tree: &Tree<A>, number: usize) -> CstObject
    requires { content_at tree.now.nodes number ≡ Content.object }
    ensures number { result.number ≡ number }
    ensures in_document { IsNodeOf tree.now.nodes (object_node result) }
{
    let Some(object) = node_at(tree, number).as_object() else {
        unreachable!()
    };
    object
}

/// The array of a number.
pub fn array_at<A: Allocator>(tree: &Tree<A>, number: usize) -> CstArray
    requires { content_at tree.now.nodes number ≡ Content.array }
    ensures number { result.number ≡ number }
    ensures in_document { IsNodeOf tree.now.nodes (array_node result) }
{
    let Some(array) = node_at(tree, number).as_array() else {
        unreachable!()
    };
    array
}

impl<A: Allocator + Copy> CstRootNode<A> {
    /// Sets the document's value, and answers its node.
    ///
    /// Where there is a value, it is replaced by the new one, as by `replace_with` of a value. Where
    /// there is none, the new value is laid out as the document determines and is inserted before the
    /// newline that the document ends with, if it does, and else after all. Where a comment is
    /// directly before that place, a newline is inserted between them, and where nothing is
    /// after it, a newline is inserted after the value. The document of a comment alone, and with
    /// 1:
    ///
    /// ```text
    /// // c                   // c
    ///                        1
    /// ```
    ///
    /// If the document is sound, it is sound again, and its value is the new one: one step, the
    /// edit that sets the document's value. On an error the document stays as it was.
    pub fn set_value(&mut self, value: CstInputValue<A>) -> Result<CstNode, EditError>
        ensures { IsRootSet self.old self.new (plain value) result }
    {
        let number = jsonc_edit::set::set_root(self.alloc, &mut self.tree, &value)?;
        Ok(node_at(&self.tree, number))
    }

    /// Takes everything out of the document: its value, its comments and all else.
    ///
    /// The document is sound then: one step, if it was sound before. Nothing is allocated.
    pub fn clear_children(&mut self)
        ensures cleared { IsCleared (nodes_of self.old) (nodes_of self.new) }
        ensures written { (o : Options) → IsBareDocument o (tree_of self.new) }
        ensures step { IsClearing (nodes_of self.old) (nodes_of self.new) }
        ensures handles { HandlesStay self.old self.new }
    {
        jsonc_edit::set::clear_root(&mut self.tree);
    }

    /// Answers the value if it is an object; sets an empty one where there is none; answers None,
    /// and changes nothing, where it is another.
    ///
    /// It is set as by [`CstRootNode::set_value`]. For a sound document the call is one step. On an
    /// error the document stays as it was.
    pub fn object_value_or_create(&mut self) -> Result<Option<CstObject>, EditError>
        ensures { IsRootCreated self.old self.new Shape.Object object_node result }
    {
        let Some(number) = root_value_or_create(self.alloc, &mut self.tree, Shape::Object)? else {
            return Ok(None);
        };
        Ok(Some(object_at(&self.tree, number)))
    }

    /// Answers the value if it is an object; sets an empty one where there is none, or in the place
    /// of any other.
    ///
    /// It is set as by [`CstRootNode::set_value`]. For a sound document the call is one step. On an
    /// error the document stays as it was.
    pub fn object_value_or_set(&mut self) -> Result<CstObject, EditError>
        ensures { IsRootEnsured self.old self.new Shape.Object object_node result }
    {
        let number = root_value_or_set(self.alloc, &mut self.tree, Shape::Object)?;
        Ok(object_at(&self.tree, number))
    }

    /// Answers the value if it is an array; sets an empty one where there is none; answers None,
    /// and changes nothing, where it is another.
    ///
    /// It is set as by [`CstRootNode::set_value`]. For a sound document the call is one step. On an
    /// error the document stays as it was.
    pub fn array_value_or_create(&mut self) -> Result<Option<CstArray>, EditError>
        ensures { IsRootCreated self.old self.new Shape.Array array_node result }
    {
        let Some(number) = root_value_or_create(self.alloc, &mut self.tree, Shape::Array)? else {
            return Ok(None);
        };
        Ok(Some(array_at(&self.tree, number)))
    }

    /// Answers the value if it is an array; sets an empty one where there is none, or in the place
    /// of any other.
    ///
    /// It is set as by [`CstRootNode::set_value`]. For a sound document the call is one step. On an
    /// error the document stays as it was.
    pub fn array_value_or_set(&mut self) -> Result<CstArray, EditError>
        ensures { IsRootEnsured self.old self.new Shape.Array array_node result }
    {
        let number = root_value_or_set(self.alloc, &mut self.tree, Shape::Array)?;
        Ok(array_at(&self.tree, number))
    }
}

impl CstObjectProp {
    /// Replaces it by a property of this name and value, and answers that.
    ///
    /// The document determines how it is laid out, as for `replace_with` of a value. Where the value is
    /// a literal without quotes that would then be directly before another, a space is
    /// inserted between them. The first property replaced by `c` with an array of 1 and 2:
    ///
    /// ```text
    /// {                      {
    ///   "a": 1,                "c": [1, 2],
    ///   "b": 2                 "b": 2
    /// }                      }
    /// ```
    ///
    /// If the document is sound, it is sound again, and its value is the old one but for that
    /// entry: if the property is in it, the call is one step, the edit that replaces the
    /// property at its path. The old property is detached then. Where it had no parent before, the
    /// answer is None, and the document stays as it was, as it does on an error.
    pub fn replace_with<A: Allocator + Copy>(
        self,
        doc: &mut CstRootNode<A>,
        name: &str,
        value: CstInputValue<A>,
    ) -> Result<Option<CstNode>, EditError>
        requires { HasNode doc.old (object_prop_node self) }
        ensures { IsPropertyReplacement doc.old doc.new (object_prop_node self) (chars name.now) (plain value) result }
    {
        let Some(_) = self.parent(doc) else {
            return Ok(None);
        };
        let number = self.node().number();
        match jsonc_edit::set::replace_property(doc.alloc, &mut doc.tree, number, name, &value) {
            Ok(Some(new)) => Ok(Some(node_at(&doc.tree, new))),
            Ok(None) => Ok(None),
            Err(error) => Err(error),
        }
    }
}
