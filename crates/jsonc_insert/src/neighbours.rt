//! Where an element is inserted between two neighbours, read in the tree as it is, and how.

ghost use Rattle.std.specs.Prelude.{◌≡◌, ◌≤◌, ◌<◌, ◌+◌, ◌-◌, ◌∷◌, ◌++◌, IfOk, IfSome, None, OnOk, Some, is_some, length, option_map};
ghost use Rattle.std.specs.Prelude.{Bool, slice_get, slice_index, true, ℕ};
ghost use Rattle.jsonc_tree.specs.Changes.{CanJoin, Splices};
ghost use Rattle.jsonc_tree.specs.Siblings.{siblings_after};
ghost use Rattle.jsonc_tree.specs.Tree.{children_at, parent_at, place_at};
ghost use Rattle.jsonc_layout.specs.nodes.Siblings.{IsThere};
ghost use Rattle.jsonc_insert.specs.Neighbours.{IsBeside};
ghost use Rattle.jsonc_insert.specs.Planned.{element_before, elements, has_brackets, plan_by, planned, through_element};

use crate::plan::{Plan, plan_behind, plan_front};
use jsonc_layout::lines::last_child_element;
use jsonc_layout::nodes::{element_at, is_element};
use jsonc_tree::{Children, Tree};
use std::alloc::{AllocError, Allocator};

/// Where a new element is inserted, by the children that stand before it, and what is inserted with it.
#[derive(Clone, Copy)]
pub(crate) struct Neighbours {
    /// What is inserted with it; its places are counted from one of the children on.
    pub(crate) plan: Plan,
    /// The child after which it is inserted.
    pub(crate) after: usize,
    /// The child after which a comma is inserted, if one is wanted.
    pub(crate) comma: Option<usize>,
}

// The element after which another is inserted that is to have this number.
fn element_before<A: Allocator>(tree: &Tree<A>, container: usize, index: usize) -> Option<usize>
    requires in_tree { container < length tree.now.nodes }
    ensures element { result ≡ element_before tree.now.nodes (children_at tree.now.nodes container) index }
    ensures in_tree { IsThere tree.now.nodes result }
{
    if index == 0 {
        return None;
    }
    if index >= tree.len() {
        // There are fewer elements than nodes.
        return last_child_element(tree, container);
    }
    match element_at(tree, container, index - 1) {
        Some(node) => Some(node),
        None => last_child_element(tree, container),
    }
}

// Whether a container has an element of this number.
fn has_element<A: Allocator>(tree: &Tree<A>, container: usize, index: usize) -> bool
    requires { container < length tree.now.nodes }
    ensures { result ≡ is_some (slice_get (elements tree.now.nodes (children_at tree.now.nodes container)) index) }
{
    if index >= tree.len() {
        return false;
    }
    element_at(tree, container, index).is_some()
}

// Adds nodes to a row, through the first element.
fn push_through_element<A: Allocator>(
    row: &mut Vec<usize, A>,
    tree: &Tree<A>,
    nodes: Children<A>,
) -> Result<(), AllocError>
    ensures { OnOk result (row.new.items ≡ row.old.items ++ through_element tree.now.nodes nodes.entry) }
{
    for node in nodes {
        row.push(node)?;
        if is_element(tree, node) {
            return Ok(());
        }
    }
    Ok(())
}

// The children of a container, through its first element.
fn row_front<A: Allocator + Copy>(
    alloc: A,
    tree: &Tree<A>,
    container: usize,
) -> Result<Vec<usize, A>, AllocError>
    requires { container < length tree.now.nodes }
    ensures { IfOk result (λ v. v.items ≡ through_element tree.now.nodes (children_at tree.now.nodes container)) }
{
    let mut row = Vec::new(alloc);
    push_through_element(&mut row, tree, tree.children(container))?;
    Ok(row)
}

// A node and the siblings after it, through the first element among these.
fn row_from<A: Allocator + Copy>(
    alloc: A,
    tree: &Tree<A>,
    node: usize,
) -> Result<Vec<usize, A>, AllocError>
    requires { node < length tree.now.nodes }
    ensures { IfOk result
        (λ v. v.items ≡ node ∷ through_element tree.now.nodes (siblings_after tree.now.nodes node)) }
{
    let mut row = Vec::new(alloc);
    row.push(node)?;
    push_through_element(&mut row, tree, tree.next_siblings(node))?;
    Ok(row)
}

// The node before a place of a row, where one is told.
fn node_before(row: &[usize], place: Option<usize>) -> Option<usize>
    requires { IfSome place (λ k. (1 ≤ k) × (k ≤ length row.now)) }
    ensures { result ≡ option_map (λ k. slice_index row.now (k - 1)) place }
{
    match place {
        Some(place) => Some(row[place - 1]),
        None => None,
    }
}

// Where a plan in a row puts an element.
fn beside(row: &[usize], plan: Plan) -> Neighbours
    requires place { 1 ≤ plan.place }
    requires within { plan.place ≤ length row.now }
    requires comma { IfSome plan.comma (λ k. (1 ≤ k) × (k ≤ length row.now)) }
    ensures plan { result.plan ≡ plan }
    ensures after { result.after ≡ slice_index row.now (plan.place - 1) }
    ensures comma { result.comma ≡ option_map (λ k. slice_index row.now (k - 1)) plan.comma }
{
    Neighbours {
        plan,
        after: row[plan.place - 1],
        comma: node_before(row, plan.comma),
    }
}

// Where an element is inserted that has none before it.
fn beside_front<A: Allocator + Copy>(
    alloc: A,
    tree: &Tree<A>,
    container: usize,
    several: bool,
) -> Result<Neighbours, AllocError>
    requires in_tree { container < length tree.now.nodes }
    requires brackets { has_brackets tree.now.nodes (children_at tree.now.nodes container) ≡ true }
    ensures { IfOk result (λ b. (commas : Bool) (i : ℕ) → IsBeside tree.now.nodes container
        (plan_by tree.now.nodes several commas (children_at tree.now.nodes container) i None) b) }
{
    let row = row_front(alloc, tree, container)?;
    let plan = plan_front(tree, several, &row);
    Ok(beside(&row, plan))
}

// Where an element is inserted after another.
fn beside_element<A: Allocator + Copy>(
    alloc: A,
    tree: &Tree<A>,
    several: bool,
    commas: bool,
    more: bool,
    node: usize,
) -> Result<Neighbours, AllocError>
    requires { node < length tree.now.nodes }
    ensures { IfOk result (λ b. (c i : ℕ) → parent_at tree.now.nodes node ≡ Some c
        → is_some (slice_get (elements tree.now.nodes (children_at tree.now.nodes c)) i) ≡ more
        → IsBeside tree.now.nodes c
        (plan_by tree.now.nodes several commas (children_at tree.now.nodes c) i (Some node)) b) }
{
    let row = row_from(alloc, tree, node)?;
    let plan = plan_behind(tree, several, commas, &row, more, 1);
    Ok(beside(&row, plan))
}

/// Where an element is inserted as this number of a container, put on a line of its own or not, where the
/// last of several lines has a comma or not.
pub(crate) fn neighbours_of<A: Allocator + Copy>(
    alloc: A,
    tree: &Tree<A>,
    container: usize,
    several: bool,
    commas: bool,
    index: usize,
) -> Result<Neighbours, AllocError>
    requires in_tree { container < length tree.now.nodes }
    requires brackets { has_brackets tree.now.nodes (children_at tree.now.nodes container) ≡ true }
    ensures { IfOk result (λ b. IsBeside tree.now.nodes container
        (planned tree.now.nodes several commas (children_at tree.now.nodes container) index) b) }
{
    let Some(node) = element_before(tree, container, index) else {
        return beside_front(alloc, tree, container, several);
    };
    let more = has_element(tree, container, index);
    beside_element(alloc, tree, several, commas, more, node)
}

/// Puts nodes without a parent directly after a child of a container, in the time that they take.
pub(crate) fn insert_after<A: Allocator>(
    tree: &mut Tree<A>,
    container: usize,
    node: usize,
    new: &[usize],
)
    requires child { parent_at tree.old.nodes node ≡ Some container }
    requires join { CanJoin tree.old.nodes container (place_at tree.old.nodes node + 1)
        (place_at tree.old.nodes node + 1) new.now }
    ensures splices { Splices tree.old.nodes tree.new.nodes container (place_at tree.old.nodes node + 1)
        (place_at tree.old.nodes node + 1) new.now }
{
    let behind = tree.next_sibling(node);
    tree.insert_between(container, Some(node), behind, new);
}
