//! How the document tells to lay out what replaces a node of it.

ghost use Rattle.std.specs.Prelude.{◌≡◌, ◌<◌, IfOk, IsTrue, OnErr, length};
ghost use Rattle.jsonc_layout.specs.input.Views.{plain};
ghost use Rattle.jsonc_layout.specs.from_input.Laid.{laid};
ghost use Rattle.jsonc_layout.specs.from_input.Layout.{layout_of};
ghost use Rattle.jsonc_edit.specs.Reading.{commas_told_by, is_spread, layout_for};

use jsonc_layout::from_input::{Layout, holds_filled, is_filled};
use jsonc_layout::input::CstInputValue;
use jsonc_layout::lines::{indents_at, newline_kind_at, uses_trailing_commas};
use jsonc_tree::{CstNewlineKind, Kind, Tree};
use std::alloc::{AllocError, Allocator};

// The node whose containers tell whether trailing commas are used.
fn commas_told_by<A: Allocator>(tree: &Tree<A>, container: usize, node: usize) -> usize
    requires { container < length tree.now.nodes }
    ensures { result ≡ commas_told_by tree.now.nodes container node }
{
    match tree.kind(container) {
        Kind::Property(_) => node,
        _ => container,
    }
}

/// The layout for what replaces a child of a container, as the document tells.
pub fn layout_for<A: Allocator + Copy>(
    alloc: A,
    tree: &Tree<A>,
    container: usize,
    node: usize,
) -> Result<Layout<A>, AllocError>
    requires container { container < length tree.now.nodes }
    requires node { node < length tree.now.nodes }
    ensures layout { IfOk result (λ l. layout_of l ≡ layout_for tree.now.nodes container node) }
{
    let indents = indents_at(alloc, tree, container)?;
    let teller = commas_told_by(tree, container, node);
    let trailing_commas = uses_trailing_commas(tree, teller);
    let newline = newline_kind_at(tree, container);
    Ok(Layout {
        current: indents.current,
        single: indents.single,
        trailing_commas,
        newline,
    })
}

/// Whether a value is laid out on several lines.
pub fn is_spread<A: Allocator>(value: &CstInputValue<A>) -> bool
    ensures { result ≡ is_spread (plain value.now) }
{
    match value {
        CstInputValue::Array(elements) => holds_filled(elements.as_slice()),
        CstInputValue::Object(_) => is_filled(value),
        _ => false,
    }
}

/// A layout by which a value becomes what it does by that which the document tells, for what replaces a
/// child of a container. Where the value has one line the document is not asked.
pub fn layout_for_value<A: Allocator + Copy>(
    alloc: A,
    tree: &Tree<A>,
    container: usize,
    node: usize,
    value: &CstInputValue<A>,
) -> Result<Layout<A>, AllocError>
    requires container { container < length tree.now.nodes }
    requires node { node < length tree.now.nodes }
    ensures alike { IfOk result
        (λ l. laid (layout_of l) (plain value.now) ≡ laid (layout_for tree.now.nodes container node) (plain value.now)) }
    ensures oom_only_if { OnErr result (IsTrue (is_spread (plain value.now))) }
{
    if is_spread(value) {
        return layout_for(alloc, tree, container, node);
    }
    Ok(Layout {
        current: String::new(alloc),
        single: String::new(alloc),
        trailing_commas: false,
        newline: CstNewlineKind::LineFeed,
    })
}
