//! Room for the nodes that are still to come.
ghost use Rattle.std.specs.Prelude.{◌≡◌};
ghost use Rattle.jsonc_tree.specs.Growing.{IsGrowing, container_of, nodes_so_far};

use jsonc_tree::Growing;
use std::alloc::{AllocError, Allocator};

// How many nodes to make room for: as many as the rest of a text has where it goes on as up to this place,
// and somewhat more. No more than there are already, as a guess may be wrong, and no less than an eighth of
// those, so that nodes move seldom.
fn nodes_to_come(count: usize, place: usize, len: usize) -> usize {
    if place == 0 {
        return 16;
    }
    let left = len.saturating_sub(place);
    let expected = count.saturating_mul(left) / place;
    let most = expected.saturating_add(expected / 16).max(count / 8);
    most.min(count).saturating_add(16)
}

// Makes room for nodes before there is none, so that a tree takes little more memory than it fills.
pub(crate) fn make_room<A: Allocator>(
    tree: &mut Growing<A>,
    place: usize,
    len: usize,
) -> Result<(), AllocError>
    ensures nodes { nodes_so_far tree.new ≡ nodes_so_far tree.old }
    ensures container { container_of tree.new ≡ container_of tree.old }
    ensures growing { IsGrowing tree.old → IsGrowing tree.new }
{
    if tree.spare() >= 16 {
        return Ok(());
    }
    tree.reserve_nodes(nodes_to_come(tree.len(), place, len))
}
