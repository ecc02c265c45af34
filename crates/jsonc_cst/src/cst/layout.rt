//! How a document is laid out.

ghost use Rattle.std.specs.Prelude.{◌≡◌, map, option_map, string_bytes, IfErr, IfOk};
ghost use Rattle.jsonc_layout.specs.lines.Breadth.{newline_kind_of};
ghost use Rattle.jsonc_cst.specs.Document.{nodes_of};
ghost use Rattle.jsonc_cst.specs.Layout.{level_indent};
ghost use Rattle.jsonc_cst.specs.Readings.{comment_under};

use super::node::CstComment;
use super::{CstRootNode, EditError};
use jsonc_tree::CstNewlineKind;
use std::alloc::{AllocError, Allocator};

// The comments of these numbers, in order.
pub(super) fn comments_under<A: Allocator>(
    alloc: A,
    numbers: &[usize],
) -> Result<Vec<CstComment, A>, AllocError>
    ensures { IfOk result (λ v. v.items ≡ map comment_under numbers.now) }
{
    numbers
        .iter()
        .map(|number| CstComment { number: *number })
        .collect(alloc)
}

impl<A: Allocator + Copy> CstRootNode<A> {
    /// The whitespace that indents one level, if the document determines it.
    ///
    /// It is what is directly after the nearest line end before the first element of the
    /// document's value. None where no line ends there, or something else follows.
    pub fn single_indent_text(&self) -> Result<Option<String<A>>, EditError>
        ensures indent { IfOk result (λ o. option_map string_bytes o ≡ level_indent self.now) }
        ensures memory { IfErr result (λ e. e ≡ EditError.OutOfMemory) }
    {
        let Ok(indent) = jsonc_layout::lines::single_indent_text(self.alloc, &self.tree) else {
            return Err(EditError::OutOfMemory);
        };
        Ok(indent)
    }

    /// How the document's lines end.
    ///
    /// They end as the first of them, level after level from the root down, or by LF.
    pub fn newline_kind(&self) -> CstNewlineKind
        ensures { result ≡ newline_kind_of (nodes_of self.now) }
    {
        jsonc_layout::lines::newline_kind(&self.tree)
    }
}
