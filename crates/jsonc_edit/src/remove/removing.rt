//! Elements that are taken out.

ghost use Rattle.std.specs.Prelude.{◌≡◌, ◌<◌, ◌≤◌, ◌+◌, [], IfErr, IfSome, IsTrue, None, OnErr, OnOk, Some, drop, if◌then◌else◌, length};
ghost use Rattle.jsonc_tree.specs.Building.{Keeps};
ghost use Rattle.jsonc_tree.specs.Changes.{Splices};
ghost use Rattle.jsonc_tree.specs.OrderedTree.{ordered_tree};
ghost use Rattle.jsonc_tree.specs.Tree.{children_at, content_at, is_container_at, parent_at, place_at};
ghost use Rattle.jsonc_layout.specs.nodes.Kinds.{is_property};
ghost use Rattle.jsonc_layout.specs.nodes.Siblings.{IsThere};
ghost use Rattle.jsonc_layout.specs.lines.Kinds.{is_array_or_object};
ghost use Rattle.jsonc_edit.specs.Due.{seen_before};
ghost use Rattle.jsonc_edit.specs.remove.Leaving.{comes_to};
ghost use Rattle.jsonc_edit.specs.remove.Removed.{blank_between, comma_in, space_needed_at_comma, space_needed_at_stretch};
ghost use Rattle.jsonc_edit.specs.remove.Removed.{hollow_from, hollow_to, is_hollow, is_next, is_node};
ghost use Rattle.jsonc_edit.specs.remove.Removed.{IsClosedUp, IsKeptFor, LosesChild, TakesElement};

use crate::remove::brackets::has_brackets;
use crate::remove::leaving::{comma_gone, first_gone, last_gone};
use crate::{
    EditError, clear_row, make_spaces, put_spaces, seen_before, set_between, space_needed_between,
};
use jsonc_layout::lines::is_array_or_object;
use jsonc_layout::nodes::{children_from, is_blank};
use jsonc_tree::{Kind, Tree};
use std::alloc::Allocator;

// The comma that is removed from before an element of a container.
fn comma_in<A: Allocator>(tree: &Tree<A>, container: usize, node: usize) -> Option<usize>
    requires container { container < length tree.now.nodes }
    requires node { node < length tree.now.nodes }
    ensures comma { result ≡ comma_in tree.now.nodes container node }
    ensures in_tree { IsThere tree.now.nodes result }
{
    if is_array_or_object(tree.kind(container)) {
        return comma_gone(tree, node);
    }
    None
}

// Whether this is the nearest sibling before a node that prints something.
fn is_next<A: Allocator>(tree: &Tree<A>, comma: usize, from: usize) -> bool
    requires { from < length tree.now.nodes }
    ensures { result ≡ is_next (seen_before tree.now.nodes from) (Some comma) }
{
    seen_before(tree, from) == Some(comma)
}

// Before which node a space is due where a comma is removed, and after it the siblings from a node on.
fn space_needed_at_comma<A: Allocator>(
    tree: &Tree<A>,
    from: usize,
    comma: Option<usize>,
) -> Option<usize>
    requires from { from < length tree.now.nodes }
    requires comma { IsThere tree.now.nodes comma }
    ensures due { result ≡ space_needed_at_comma tree.now.nodes from comma }
{
    let comma = comma?;
    if is_next(tree, comma, from) {
        return None;
    }
    space_needed_between(tree, comma, comma)
}

// Before which node a space is due where these siblings leave, and a comma before them.
fn space_needed_at_stretch<A: Allocator>(
    tree: &Tree<A>,
    from: usize,
    to: usize,
    comma: Option<usize>,
) -> Option<usize>
    requires from { from < length tree.now.nodes }
    requires to { to < length tree.now.nodes }
    requires comma { IsThere tree.now.nodes comma }
    ensures due { result ≡ space_needed_at_stretch tree.now.nodes from to comma }
{
    match comma {
        Some(comma) if is_next(tree, comma, from) => space_needed_between(tree, comma, to),
        _ => space_needed_between(tree, from, to),
    }
}

// Before which node a space is due after what is removed from a container; none is due in a property.
fn space_needed_after_gap<A: Allocator>(
    tree: &Tree<A>,
    container: usize,
    from: usize,
    to: usize,
    comma: Option<usize>,
) -> Option<usize>
    requires container { container < length tree.now.nodes }
    requires from { from < length tree.now.nodes }
    requires to { to < length tree.now.nodes }
    requires comma { IsThere tree.now.nodes comma }
    ensures due { result
        ≡ (if is_property
        (content_at tree.now.nodes container) then None else space_needed_at_stretch tree.now.nodes from to comma) }
{
    match tree.kind(container) {
        Kind::Property(_) => None,
        _ => space_needed_at_stretch(tree, from, to, comma),
    }
}

// Takes the children from one to another out.
fn take_stretch<A: Allocator>(tree: &mut Tree<A>, container: usize, first: usize, last: usize)
    requires first { parent_at tree.old.nodes first ≡ Some container }
    requires last { parent_at tree.old.nodes last ≡ Some container }
    requires order { place_at tree.old.nodes first ≤ place_at tree.old.nodes last }
    ensures taken { Splices tree.old.nodes tree.new.nodes container (place_at tree.old.nodes first)
        (place_at tree.old.nodes last + 1) [] }
{
    tree.remove_between(container, first, last);
}

// Takes one child out, if there is one.
fn take_child<A: Allocator>(tree: &mut Tree<A>, container: usize, child: Option<usize>)
    requires { IfSome child (λ n. parent_at tree.old.nodes n ≡ Some container) }
    ensures taken { LosesChild tree.old.nodes tree.new.nodes container child }
{
    if let Some(child) = child {
        take_stretch(tree, container, child, child);
    }
}

// Whether it is this node.
pub(crate) fn is_node(found: Option<usize>, node: usize) -> bool
    ensures { result ≡ is_node found node }
{
    match found {
        Some(other) => node == other,
        None => false,
    }
}

// Whether past blanks a container's children from a place on come to this node, or to the end.
fn comes_to<A: Allocator>(
    tree: &Tree<A>,
    container: usize,
    place: usize,
    last: Option<usize>,
) -> bool
    requires { container < length tree.now.nodes }
    ensures { result ≡ comes_to tree.now.nodes last (drop place (children_at tree.now.nodes container)) }
{
    for child in children_from(tree, container, place) {
        if is_node(last, child) {
            return true;
        }
        if !is_blank(tree, child) {
            return false;
        }
    }
    last.is_none()
}

// Whether nothing but blanks stands between a container's first and last child.
fn is_blank_between<A: Allocator>(tree: &Tree<A>, container: usize) -> bool
    requires { container < length tree.now.nodes }
    ensures { result ≡ blank_between tree.now.nodes (children_at tree.now.nodes container) }
{
    match tree.last_child(container) {
        Some(last) => comes_to(tree, container, 1, Some(last)),
        None => false,
    }
}

// Whether nothing but blanks is between a container's brackets, or in the root.
fn is_hollow<A: Allocator>(tree: &Tree<A>, container: usize) -> bool
    requires { container < length tree.now.nodes }
    ensures { result ≡ is_hollow tree.now.nodes container }
{
    match tree.kind(container) {
        Kind::Array(_) | Kind::Object(_) => is_blank_between(tree, container),
        Kind::Root(_) => comes_to(tree, container, 0, None),
        _ => false,
    }
}

// Takes the blanks between a container's brackets out, or those of the root.
fn empty<A: Allocator>(tree: &mut Tree<A>, container: usize)
    requires in_tree { container < length tree.old.nodes }
    requires container { IsTrue (is_container_at tree.old.nodes container) }
    requires two { IsTrue (is_array_or_object (content_at tree.old.nodes container))
        → 2 ≤ length (children_at tree.old.nodes container) }
    ensures emptied { Splices tree.old.nodes tree.new.nodes container
        (hollow_from tree.old.nodes container) (hollow_to tree.old.nodes container) [] }
{
    if is_array_or_object(tree.kind(container)) {
        set_between(tree, container, &[]);
    } else {
        clear_row(tree, container);
    }
}

// Takes blanks out that are left alone between a container's brackets, or in the root.
pub(crate) fn close_up<A: Allocator>(tree: &mut Tree<A>, container: usize)
    requires in_tree { container < length tree.old.nodes }
    requires container { IsTrue (is_container_at tree.old.nodes container) }
    ensures closed { IsClosedUp tree.old.nodes tree.new.nodes container }
{
    if is_hollow(tree, container) {
        empty(tree, container);
    }
}

/// Takes an element out of its array or object, the root's value out of the root, or a name or value out
/// of its property.
///
/// Whitespace and comments directly before it go with it, back to a newline or another sibling; so
/// does the comma after it with what stands between, and the rest of the line where nothing else
/// stands on it; where no comma stands after it, the nearest one before it goes. Blanks that are left
/// alone go too. Where two literals without quotes would come to stand directly beside each other, a
/// space is inserted between them, but not in the place of a name or value; its memory alone may be wanted, and
/// an error leaves the document, and every node that was there, as it was. A node without a parent
/// stays as it is.
pub fn remove<A: Allocator + Copy>(
    alloc: A,
    tree: &mut Tree<A>,
    node: usize,
) -> Result<(), EditError>
    requires { node < length tree.old.nodes }
    ensures taken { OnOk result (TakesElement tree.old.nodes tree.new.nodes node) }
    ensures alone { OnOk result (parent_at tree.new.nodes node ≡ None) }
    ensures untouched { parent_at tree.old.nodes node ≡ None → tree.new.nodes ≡ tree.old.nodes }
    ensures error { IfErr result (IsKeptFor tree.old.nodes node) }
    ensures kept { OnErr result (Keeps (length tree.old.nodes) tree.old.nodes tree.new.nodes) }
    ensures document { OnErr result (ordered_tree tree.new.nodes 0 ≡ ordered_tree tree.old.nodes 0) }
{
    let Some(container) = tree.parent(node) else {
        return Ok(());
    };
    if is_array_or_object(tree.kind(container)) && !has_brackets(tree, container) {
        return Err(EditError::MissingBrackets);
    }
    let first = first_gone(tree, node);
    let last = last_gone(tree, node);
    let comma = comma_in(tree, container, node);
    let before = space_needed_at_comma(tree, first, comma);
    let behind = space_needed_after_gap(tree, container, first, last, comma);
    let spaces = make_spaces(alloc, tree, before, behind)?;
    put_spaces(tree, spaces);
    take_stretch(tree, container, first, last);
    take_child(tree, container, comma);
    close_up(tree, container);
    Ok(())
}
