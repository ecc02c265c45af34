//! A property gets another name.

ghost use Rattle.std.specs.Prelude.{chars};
ghost use Rattle.jsonc_cst.specs.Document.{HasNode};
ghost use Rattle.jsonc_cst.specs.Nodes.{object_prop_node};
ghost use Rattle.jsonc_cst.specs.typed.Renaming.{IsRenaming};

use crate::cst::{CstNode, CstObjectProp, CstRootNode, EditError, TypedNode, node_at};
use std::alloc::Allocator;

impl CstObjectProp {
    /// Gives it another name, and answers the name's node.
    ///
    /// The name is written in double quotes, with JSON's escapes, as `append` of an object writes it.
    /// The value, the comments and all else stay as they are, to the byte, and no space is inserted:
    /// `{a:1b:2}` with `c` as the name of `b` is `{a:1"c":2}`. The old name is detached then.
    ///
    /// If the document is sound, it is sound again, and its value is the old one but for that name,
    /// which an earlier property of the object may have too. A property without its name or its
    /// colon, which is so only after edits of single leaves, is the error `MissingName`, and none of
    /// a sound document is. On an error no node changes.
    pub fn rename<A: Allocator + Copy>(
        self,
        doc: &mut CstRootNode<A>,
        name: &str,
    ) -> Result<CstNode, EditError>
        requires { HasNode doc.old (object_prop_node self) }
        ensures { IsRenaming doc.old doc.new (object_prop_node self) (chars name.now) result }
    {
        let number = self.node().number();
        match jsonc_edit::set::rename_property(doc.alloc, &mut doc.tree, number, name) {
            Ok(new) => Ok(node_at(&doc.tree, new)),
            Err(error) => Err(error),
        }
    }
}
