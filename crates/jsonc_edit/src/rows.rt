//! Rows of children that are exchanged.

ghost use Rattle.std.specs.Prelude.{◌<◌, ◌≤◌, ◌+◌, ◌-◌, ◌≡◌, [], IsTrue, Some, length};
ghost use Rattle.jsonc_tree.specs.Changes.{CanJoin, Splices};
ghost use Rattle.jsonc_tree.specs.Tree.{children_at, is_container_at, parent_at, place_at};

use jsonc_tree::Tree;
use std::alloc::Allocator;

/// Takes all children of a container out. No memory is wanted.
pub fn clear_row<A: Allocator>(tree: &mut Tree<A>, container: usize)
    requires { container < length tree.old.nodes }
    ensures { Splices tree.old.nodes tree.new.nodes container 0 (length (children_at tree.old.nodes container)) [] }
{
    let Some(first) = tree.first_child(container) else {
        return;
    };
    let Some(last) = tree.last_child(container) else {
        unreachable!()
    };
    tree.remove_between(container, first, last);
}

// Takes out what stands between two children of a container.
fn clear_between<A: Allocator>(tree: &mut Tree<A>, container: usize, first: usize, last: usize)
    requires first { parent_at tree.old.nodes first ≡ Some container }
    requires last { parent_at tree.old.nodes last ≡ Some container }
    requires order { place_at tree.old.nodes first < place_at tree.old.nodes last }
    ensures { Splices tree.old.nodes tree.new.nodes container (place_at tree.old.nodes first + 1)
        (place_at tree.old.nodes last) [] }
{
    let Some(from) = tree.next_sibling(first) else {
        unreachable!()
    };
    if from == last {
        return;
    }
    let Some(to) = tree.previous_sibling(last) else {
        unreachable!()
    };
    tree.remove_between(container, from, to);
}

/// Puts nodes in the place of what stands between a container's first and last child. No memory is wanted.
pub fn set_between<A: Allocator>(tree: &mut Tree<A>, container: usize, new: &[usize])
    requires in_tree { container < length tree.old.nodes }
    requires container { IsTrue (is_container_at tree.old.nodes container) }
    requires two { 2 ≤ length (children_at tree.old.nodes container) }
    requires join { CanJoin tree.old.nodes container 1 (length (children_at tree.old.nodes container) - 1) new.now }
    ensures { Splices tree.old.nodes tree.new.nodes container 1 (length (children_at tree.old.nodes container) - 1) new.now }
{
    let Some(first) = tree.first_child(container) else {
        unreachable!()
    };
    let Some(last) = tree.last_child(container) else {
        unreachable!()
    };
    clear_between(tree, container, first, last);
    tree.insert_between(container, Some(first), Some(last), new);
}
