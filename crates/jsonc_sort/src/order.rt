//! Arrays and objects whose elements come in another order.

ghost use Rattle.std.specs.Prelude.{◌≡◌, ◌<◌, IfOk, IsTrue, OnErr, OnOk, length};
ghost use Rattle.jsonc_tree.specs.Building.{Keeps};
ghost use Rattle.jsonc_tree.specs.OrderedTree.{ordered_tree};
ghost use Rattle.jsonc_tree.specs.Tree.{content_at};
ghost use Rattle.jsonc_edit.specs.Put.{Extends};
ghost use Rattle.jsonc_layout.specs.lines.Kinds.{is_array_or_object};
ghost use Rattle.jsonc_sort.specs.Rearranged.{headers_of, IsOrderIn, moves, PlansSort, Rearranged};
ghost use Rattle.jsonc_sort.specs.Sorting.{is_unchanged};

use crate::places::entries;
use crate::plan::plan_row;
use jsonc_edit::multiline::has_brackets;
use jsonc_edit::set_between;
use jsonc_layout::lines::newline_kind_at;
use jsonc_layout::nodes::children;
use jsonc_tree::Tree;
use std::alloc::{AllocError, Allocator};

// Whether an order names each number at its own place.
fn is_unchanged(order: &[usize]) -> bool
    ensures { result ≡ is_unchanged order.now }
{
    for place in 0..order.len() {
        if order[place] != place {
            return false;
        }
    }
    true
}

// Whether something moves.
fn moves<A: Allocator>(tree: &Tree<A>, container: usize, order: &[usize]) -> bool
    requires { container < length tree.now.nodes }
    ensures { result ≡ moves tree.now.nodes container order.now }
{
    has_brackets(tree, container) && !is_unchanged(order)
}

// The row of an array or object with its elements in an order, by the numbers of the nodes.
fn sorted_row<A: Allocator + Copy>(
    alloc: A,
    tree: &mut Tree<A>,
    container: usize,
    pinned: &[Option<usize>],
    groups: bool,
    order: &[usize],
) -> Result<Vec<usize, A>, AllocError>
    requires in_tree { container < length tree.old.nodes }
    requires moves { IsTrue (moves tree.old.nodes container order.now) }
    requires order { IsOrderIn tree.old.nodes container order.now }
    ensures planned { IfOk result
        (λ v. PlansSort tree.old.nodes tree.new.nodes container (headers_of pinned.now groups) order.now v.items) }
    ensures prepared { Extends tree.old.nodes tree.new.nodes }
{
    let newline = newline_kind_at(tree, container);
    let children = children(alloc, tree, container)?;
    let row = &children[1..children.len() - 1];
    let entries = entries(alloc, tree, row, pinned, groups)?;
    let sorted = plan_row(alloc, tree, newline, row, &entries, order)?;
    Ok(sorted)
}

/// Puts the elements of an array, or the properties of an object, in another order, which names the old
/// number of each.
///
/// What belongs to an element goes with it: its comma, the comments after it on its line, and those
/// above it, but for so many as are pinned before it; where groups are kept, all above an element with a
/// blank line before it stay. Each element but the last gets a comma, and the last keeps or loses one as
/// the last had one. Where nothing moves, nothing changes. All memory is asked for before the row
/// changes, and an error leaves the document, and every node that was there, as it was.
pub fn rearrange<A: Allocator + Copy>(
    alloc: A,
    tree: &mut Tree<A>,
    container: usize,
    pinned: &[Option<usize>],
    groups: bool,
    order: &[usize],
) -> Result<(), AllocError>
    requires in_tree { container < length tree.old.nodes }
    requires holds { IsTrue (is_array_or_object (content_at tree.old.nodes container)) }
    requires order { IsOrderIn tree.old.nodes container order.now }
    ensures made { OnOk result
        (Rearranged tree.old.nodes tree.new.nodes container (headers_of pinned.now groups) order.now) }
    ensures error { OnErr result (IsTrue (moves tree.old.nodes container order.now)) }
    ensures kept { OnErr result (Keeps (length tree.old.nodes) tree.old.nodes tree.new.nodes) }
    ensures document { OnErr result (ordered_tree tree.new.nodes 0 ≡ ordered_tree tree.old.nodes 0) }
{
    if !moves(tree, container, order) {
        return Ok(());
    }
    let row = sorted_row(alloc, tree, container, pinned, groups, order)?;
    set_between(tree, container, &row);
    Ok(())
}
