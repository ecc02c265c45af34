//! A container's row, planned before it changes.

ghost use Rattle.std.specs.Prelude.{◌≡◌, ◌==◌, ◌<◌, ◌≤◌, IfOk, IsTrue, OnOk, length};
ghost use Rattle.jsonc_layout.specs.Building.{Gains};
ghost use Rattle.jsonc_edit.specs.Put.{Extends};
ghost use Rattle.jsonc_edit.specs.remove.Removed.{has_brackets};
ghost use Rattle.jsonc_edit.specs.multiline.Lines.{last_leaves, without_back};
ghost use Rattle.jsonc_edit.specs.multiline.LineViews.{lines_of};
ghost use Rattle.jsonc_edit.specs.multiline.Plans.{begins_after, PlansLines, PutsChild};

use crate::multiline::lines::Lines;
use jsonc_layout::building::Row;
use jsonc_layout::nodes::{children, is_comma, is_whitespace};
use jsonc_tree::{Kind, Tree};
use std::alloc::{AllocError, Allocator};

// Whether a text is empty.
fn is_empty(text: &str) -> bool
    ensures { result ≡ (length text.now == 0) }
{
    text.len() == 0
}

// Ends the last line between the brackets, and indents the bracket.
fn push_last_line<A: Allocator + Copy>(
    tree: &mut Tree<A>,
    row: &mut Row<A>,
    lines: &Lines<A>,
) -> Result<(), AllocError>
    ensures gains { OnOk result
        (Gains tree.old.nodes row.old.nodes.items tree.new.nodes row.new.nodes.items (last_leaves (lines_of lines.now))) }
    ensures prepared { Extends tree.old.nodes tree.new.nodes }
{
    row.push(tree, Kind::Newline(lines.newline))?;
    if is_empty(lines.outer.as_str()) {
        return Ok(());
    }
    row.push_blank(tree, lines.outer.as_str())
}

// Puts a child after a row that is being planned, on a new line where a part begins with it, and
// answers whether one begins after it.
fn push_child<A: Allocator + Copy>(
    tree: &mut Tree<A>,
    row: &mut Row<A>,
    lines: &Lines<A>,
    begins: bool,
    child: usize,
) -> Result<bool, AllocError>
    requires { child < length tree.old.nodes }
    ensures gains { OnOk result
        (PutsChild tree.old.nodes row.old.nodes.items tree.new.nodes row.new.nodes.items (lines_of lines.now) begins child) }
    ensures begins { IfOk result (λ b. b ≡ begins_after tree.old.nodes begins child) }
    ensures prepared { Extends tree.old.nodes tree.new.nodes }
{
    let blank = is_whitespace(tree, child);
    let comma = is_comma(tree, child);
    if begins {
        if blank {
            return Ok(true);
        }
        row.push_line(tree, lines.newline, lines.inner.as_str())?;
    }
    row.nodes.push(child)?;
    Ok(comma)
}

// How many nodes it is up to the whitespace that a row ends with.
fn blanks_from<A: Allocator>(tree: &Tree<A>, row: &[usize]) -> usize
    ensures from { result ≡ length (without_back tree.now.nodes row.now) }
    ensures within { result ≤ length row.now }
{
    let mut end = row.len();
    while end > 0 {
        if !is_whitespace(tree, row[end - 1]) {
            return end;
        }
        end -= 1;
    }
    0
}

/// The row of an array or object on several lines: what stands between its brackets, by the numbers of
/// the nodes. The leaves that are inserted are made, and have no parent yet.
pub fn plan_lines<A: Allocator + Copy>(
    alloc: A,
    tree: &mut Tree<A>,
    container: usize,
    lines: &Lines<A>,
) -> Result<Vec<usize, A>, AllocError>
    requires in_tree { container < length tree.old.nodes }
    requires brackets { IsTrue (has_brackets tree.old.nodes container) }
    ensures planned { IfOk result
        (λ row. PlansLines tree.old.nodes tree.new.nodes container (lines_of lines.now) row.items) }
    ensures prepared { Extends tree.old.nodes tree.new.nodes }
{
    let children = children(alloc, tree, container)?;
    let inside = &children[1..children.len() - 1];
    let end = blanks_from(tree, inside);
    let mut row = Row::new(alloc);
    let mut begins = true;
    for child in &inside[..end] {
        begins = push_child(tree, &mut row, lines, begins, *child)?;
    }
    push_last_line(tree, &mut row, lines)?;
    Ok(row.nodes)
}
