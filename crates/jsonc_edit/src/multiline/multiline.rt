//! Arrays and objects that are put on several lines.

ghost use Rattle.std.specs.Prelude.{◌≡◌, ◌<◌, IfErr, IsTrue, OnErr, OnOk, length};
ghost use Rattle.jsonc_tree.specs.Building.{Keeps};
ghost use Rattle.jsonc_tree.specs.OrderedTree.{ordered_tree};
ghost use Rattle.jsonc_tree.specs.Tree.{content_at};
ghost use Rattle.jsonc_layout.specs.lines.Kinds.{is_array_or_object};
ghost use Rattle.jsonc_edit.specs.multiline.Multiline.{IsUnspread, MadeMultiline};

use crate::multiline::lines::lines_for;
use crate::multiline::plan::plan_lines;
use crate::remove::has_brackets;
use crate::{EditError, set_between};
use jsonc_tree::Tree;
use std::alloc::Allocator;

/// Puts an array or object on several lines, where no line ends among its children yet.
///
/// Each part of what stands between the brackets, through its comma, is put on a line of its own, one
/// level deeper, without the whitespace around it, and the last bracket on one too. All memory is asked
/// for before the row changes, and an error leaves the document, and every node that was there, as it
/// was.
pub fn ensure_multiline<A: Allocator + Copy>(
    alloc: A,
    tree: &mut Tree<A>,
    container: usize,
) -> Result<(), EditError>
    requires in_tree { container < length tree.old.nodes }
    requires holds { IsTrue (is_array_or_object (content_at tree.old.nodes container)) }
    ensures made { OnOk result (MadeMultiline tree.old.nodes tree.new.nodes container) }
    ensures error { IfErr result (IsUnspread tree.old.nodes container) }
    ensures kept { OnErr result (Keeps (length tree.old.nodes) tree.old.nodes tree.new.nodes) }
    ensures document { OnErr result (ordered_tree tree.new.nodes 0 ≡ ordered_tree tree.old.nodes 0) }
{
    if !has_brackets(tree, container) {
        return Err(EditError::MissingBrackets);
    }
    if tree.has_line_end(container) {
        return Ok(());
    }
    let lines = lines_for(alloc, tree, container)?;
    let row = plan_lines(alloc, tree, container, &lines)?;
    set_between(tree, container, &row);
    Ok(())
}
