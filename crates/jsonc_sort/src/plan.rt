//! A container's row with its elements in another order, planned before it changes.
//!
//! The row is planned from its end on: whether a line comment gets a line's end depends on what follows it.

ghost use Rattle.std.specs.Prelude.{◌≡◌, ◌&&◌, ◌<◌, ◌≤◌, ◌||◌, ◌∷◌, [], IfOk, IsPermutation, OnOk, false};
ghost use Rattle.std.specs.Prelude.{length, nat_lt, slice_index};
ghost use Rattle.std.specs.List.{range_with_len, All};
ghost use Rattle.jsonc_tree.specs.Content.{is_container, token};
ghost use Rattle.jsonc_tree.specs.Stored.{content_of};
ghost use Rattle.jsonc_tree.specs.Tree.{content_at};
ghost use Rattle.jsonc_sound.specs.Lines.{is_line_comment};
ghost use Rattle.jsonc_edit.specs.Put.{Extends};
ghost use Rattle.jsonc_layout.specs.nodes.Siblings.{AreThere};
ghost use Rattle.jsonc_sort.specs.Places.{IsRead, IsWithin, end_after, has_comma_of};
ghost use Rattle.jsonc_sort.specs.Plans.{Gains, GainsLeaf, GainsNode, RowPlanned, entry_by, goes_before};
ghost use Rattle.jsonc_sort.specs.Plans.{last_has_comma, tail_by, travels_from};
ghost use Rattle.jsonc_sort.specs.Slots.{all_stay, comes, stays};

use crate::places::Places;
use jsonc_edit::is_line_comment;
use jsonc_layout::nodes::{is_newline, is_whitespace};
use jsonc_tree::{CstNewlineKind, Kind, Tree};
use std::alloc::{AllocError, Allocator};

/// The end of a row, planned.
#[derive(Drop)]
pub(crate) struct Plan<A: Allocator> {
    /// How a line ends.
    pub(crate) newline: CstNewlineKind,
    /// The nodes, the last of the row first.
    pub(crate) nodes: Vec<usize, A>,
    /// Whether something else than whitespace and a line's end comes next, if it is the last bracket.
    pub(crate) goes_on: bool,
}

// Makes a leaf, and puts it before what is planned.
fn put_leaf<A: Allocator>(
    tree: &mut Tree<A>,
    plan: &mut Plan<A>,
    kind: Kind<A>,
) -> Result<(), AllocError>
    requires { is_container (content_of kind) ≡ false }
    ensures gains { OnOk result (GainsLeaf tree.old.nodes plan.old tree.new.nodes plan.new (content_of kind)) }
    ensures prepared { Extends tree.old.nodes tree.new.nodes }
{
    let leaf = tree.add(kind)?;
    plan.nodes.push(leaf)?;
    Ok(())
}

// Puts a comma before what is planned.
fn put_comma<A: Allocator>(tree: &mut Tree<A>, plan: &mut Plan<A>) -> Result<(), AllocError>
    ensures gains { OnOk result (Gains tree.old.nodes plan.old tree.new.nodes plan.new (comes (token 0x2C) ∷ [])) }
    ensures prepared { Extends tree.old.nodes tree.new.nodes }
{
    put_leaf(tree, plan, Kind::token(','))?;
    plan.goes_on = true;
    Ok(())
}

// Whether the row goes on, where a node is put before what is planned.
fn goes_before<A: Allocator>(tree: &Tree<A>, node: usize, goes_on: bool) -> bool
    ensures { result ≡ goes_before tree.now.nodes node goes_on }
{
    if is_whitespace(tree, node) {
        return goes_on;
    }
    !is_newline(tree, node)
}

// Puts a child before what is planned, and nothing else.
fn put_child<A: Allocator>(
    tree: &Tree<A>,
    plan: &mut Plan<A>,
    node: usize,
) -> Result<(), AllocError>
    ensures { OnOk result (GainsNode tree.now.nodes plan.old plan.new node) }
{
    plan.nodes.push(node)?;
    plan.goes_on = goes_before(tree, node, plan.goes_on);
    Ok(())
}

// Whether a node is a line comment on whose line something else would follow.
fn lacks_end<A: Allocator>(tree: &Tree<A>, plan: &Plan<A>, node: usize) -> bool
    ensures { result ≡ (is_line_comment (content_at tree.now.nodes node) && plan.now.goes_on) }
{
    is_line_comment(tree, node) && plan.goes_on
}

// Puts a child before what is planned, with a line's end after it where it lacks one.
fn put_node<A: Allocator>(
    tree: &mut Tree<A>,
    plan: &mut Plan<A>,
    node: usize,
) -> Result<(), AllocError>
    ensures gains { OnOk result (Gains tree.old.nodes plan.old tree.new.nodes plan.new (stays node ∷ [])) }
    ensures prepared { Extends tree.old.nodes tree.new.nodes }
{
    if lacks_end(tree, plan, node) {
        put_leaf(tree, plan, Kind::Newline(plan.newline))?;
        put_child(tree, plan, node)?;
        return Ok(());
    }
    put_child(tree, plan, node)?;
    Ok(())
}

// Puts a stretch of children before what is planned.
fn put_stretch<A: Allocator>(
    tree: &mut Tree<A>,
    plan: &mut Plan<A>,
    nodes: &[usize],
) -> Result<(), AllocError>
    ensures gains { OnOk result (Gains tree.old.nodes plan.old tree.new.nodes plan.new (all_stay nodes.now)) }
    ensures prepared { Extends tree.old.nodes tree.new.nodes }
{
    let mut place = nodes.len();
    while place > 0 {
        place -= 1;
        put_node(tree, plan, nodes[place])?;
    }
    Ok(())
}

// Whether an entry has a comma.
fn has_comma(entry: &Places) -> bool
    ensures { result ≡ has_comma_of entry.now }
{
    entry.comma < entry.behind
}

// Puts what belongs to an element before what is planned, with its comma or without.
fn put_tail<A: Allocator>(
    tree: &mut Tree<A>,
    plan: &mut Plan<A>,
    row: &[usize],
    comma: bool,
    entry: &Places,
) -> Result<(), AllocError>
    requires { IsWithin row.now entry.now }
    ensures gains { OnOk result
        (Gains tree.old.nodes plan.old tree.new.nodes plan.new (tail_by row.now comma entry.now)) }
    ensures prepared { Extends tree.old.nodes tree.new.nodes }
{
    if has_comma(entry) && !comma {
        put_stretch(tree, plan, &row[entry.behind..entry.end])?;
        put_stretch(tree, plan, &row[entry.element + 1..entry.comma])?;
        return Ok(());
    }
    put_stretch(tree, plan, &row[entry.element + 1..entry.end])?;
    if has_comma(entry) || !comma {
        return Ok(());
    }
    put_comma(tree, plan)?;
    Ok(())
}

// Where what travels with an element begins, which comes first or not.
fn travelling(first: bool, entry: &Places) -> usize
    ensures { result ≡ travels_from first entry.now }
{
    if first { entry.solid } else { entry.travels }
}

// Puts an entry in the place of another before what is planned.
fn put_entry<A: Allocator>(
    tree: &mut Tree<A>,
    plan: &mut Plan<A>,
    row: &[usize],
    first: bool,
    comma: bool,
    place: &Places,
    entry: &Places,
) -> Result<(), AllocError>
    requires place { IsWithin row.now place.now }
    requires entry { IsWithin row.now entry.now }
    ensures gains { OnOk result
        (Gains tree.old.nodes plan.old tree.new.nodes plan.new (entry_by row.now first comma place.now entry.now)) }
    ensures prepared { Extends tree.old.nodes tree.new.nodes }
{
    put_tail(tree, plan, row, comma, entry)?;
    put_node(tree, plan, row[entry.element])?;
    put_stretch(tree, plan, &row[place.indent..place.element])?;
    put_stretch(tree, plan, &row[travelling(first, entry)..entry.indent])?;
    put_stretch(tree, plan, &row[place.lead..place.travels])?;
    Ok(())
}

// Whether the last of the entries has a comma.
fn ends_with_comma(entries: &[Places]) -> bool
    ensures { result ≡ last_has_comma entries.now }
{
    match entries.last() {
        Some(entry) => has_comma(entry),
        None => false,
    }
}

// Where the last of the entries ends, or the row begins.
fn end_after(row: &[usize], entries: &[Places]) -> usize
    requires { All (IsWithin row.now) entries.now }
    ensures end { result ≡ end_after 0 entries.now }
    ensures within { result ≤ length row.now }
{
    match entries.last() {
        Some(entry) => entry.end,
        None => 0,
    }
}

// Whether the entry before a place has a comma: each but the last, and the last if the last has had one.
fn comma_before(place: usize, count: usize, commas: bool) -> bool
    ensures { result ≡ (nat_lt place count || commas) }
{
    place < count || commas
}

// The number of the entry that comes to a place.
fn number_at(order: &[usize], count: usize, place: usize) -> usize
    requires order { IsPermutation (range_with_len 0 count) order.now }
    requires place { place < length order.now }
    ensures number { result ≡ slice_index order.now place }
    ensures within { result < count }
{
    order[place]
}

/// The row with its elements in an order, which names the old number of each, by the numbers of the
/// nodes. The leaves that are inserted are made, and have no parent yet.
pub(crate) fn plan_row<A: Allocator>(
    alloc: A,
    tree: &mut Tree<A>,
    newline: CstNewlineKind,
    row: &[usize],
    entries: &[Places],
    order: &[usize],
) -> Result<Vec<usize, A>, AllocError>
    requires in_tree { AreThere tree.old.nodes row.now }
    requires read { All (IsRead (content_at tree.old.nodes) row.now) entries.now }
    requires order { IsPermutation (range_with_len 0 (length entries.now)) order.now }
    ensures planned { IfOk result
        (λ v. RowPlanned tree.old.nodes tree.new.nodes newline row.now entries.now order.now v.items) }
    ensures prepared { Extends tree.old.nodes tree.new.nodes }
{
    let mut plan = Plan {
        newline,
        nodes: Vec::new(alloc),
        goes_on: true,
    };
    let commas = ends_with_comma(entries);
    put_stretch(tree, &mut plan, &row[end_after(row, entries)..])?;
    let mut place = entries.len();
    while place > 0 {
        let comma = comma_before(place, entries.len(), commas);
        place -= 1;
        let number = number_at(order, entries.len(), place);
        put_entry(
            tree,
            &mut plan,
            row,
            place == 0,
            comma,
            &entries[place],
            &entries[number],
        )?;
    }
    plan.nodes.reverse();
    Ok(plan.nodes)
}
