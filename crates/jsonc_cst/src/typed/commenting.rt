//! A comment is inserted above an entry or after it.

ghost use Rattle.jsonc_cst.specs.Document.{HasNode};
ghost use Rattle.jsonc_cst.specs.Nodes.{object_prop_node};
ghost use Rattle.jsonc_cst.specs.typed.Commenting.{IsCommentInsertion};

use crate::cst::{CstNode, CstObjectProp, CstRootNode, EditError, TypedNode};
use jsonc_edit::commenting;
use jsonc_text::edit::Place;
use std::alloc::Allocator;

impl CstNode {
    /// Inserts a comment above it on a line of its own, or after it on its line.
    ///
    /// The node is an entry (an element of an array or a property of an object) or the document's
    /// value. The text is one whole comment: from `//`, without a line end, or from `/*` to the first
    /// `*/`. Above, the comment has the node's indent and the document's line ends. Where something
    /// precedes the node on its line, a line end and the indent precede the comment too: `// c` above
    /// the 2 of `[1, 2]` makes the lines `[1,`, `  // c` and `  2]`. After, the comment follows the
    /// node's comma and one space: `/* c */` after the 1 of `[1, 2]` makes `[1, /* c */ 2]`.
    ///
    /// If the document is sound, the options that it is read with allow comments, and the node is one
    /// of it, the document is sound again. It has the same value, the same literals and comments and
    /// this one, and no byte of its text is removed. Options without comments are not asked: the text
    /// is no document of theirs then.
    ///
    /// The error is `InvalidComment` where the text is anything else; `NotAnEntry` where the node is
    /// anything else, as a property's value or a detached node; and `LineContinues` where a line
    /// comment after the node would comment out the rest of its line. On an error the document, and
    /// each node, stays as it was.
    pub fn insert_comment<A: Allocator + Copy>(
        self,
        doc: &mut CstRootNode<A>,
        text: &str,
        place: Place,
    ) -> Result<(), EditError>
        requires { HasNode doc.old self }
        ensures { IsCommentInsertion doc.old doc.new self place text.now result }
    {
        commenting::insert_comment(doc.alloc, &mut doc.tree, self.number(), text, place)
    }
}

impl CstObjectProp {
    /// Inserts a comment above it on a line of its own, or after it on its line. [`CstNode::insert_comment`] says how.
    pub fn insert_comment<A: Allocator + Copy>(
        self,
        doc: &mut CstRootNode<A>,
        text: &str,
        place: Place,
    ) -> Result<(), EditError>
        requires { HasNode doc.old (object_prop_node self) }
        ensures { IsCommentInsertion doc.old doc.new (object_prop_node self) place text.now result }
    {
        self.node().insert_comment(doc, text, place)
    }
}
