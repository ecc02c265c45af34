//! What a document tells of what is inserted into a container, read in the tree as it is.

ghost use Rattle.std.specs.Prelude.{◌≡◌, ◌<◌, IfOk, chars, length, option_map, string_bytes};
ghost use Rattle.jsonc_tree.specs.Tree.{children_at};
ghost use Rattle.jsonc_layout.specs.input.Views.{plain};
ghost use Rattle.jsonc_layout.specs.lines.IndentViews.{texts_of};
ghost use Rattle.jsonc_layout.specs.from_input.Layout.{layout_of};
ghost use Rattle.jsonc_insert.specs.Settings.{indents_inside, layout_inside, on_several_lines, one_deeper, outer_indent};

use jsonc_edit::is_spread;
use jsonc_layout::from_input::Layout;
use jsonc_layout::input::CstInputValue;
use jsonc_layout::lines::{Indents, indents_at, newline_kind_at, uses_trailing_commas};
use jsonc_layout::nodes::element_at;
use jsonc_tree::Tree;
use std::alloc::{AllocError, Allocator};

/// Whether a value, or a property of a name, is put on a line of its own in a container.
pub(crate) fn on_several_lines<A: Allocator>(
    tree: &Tree<A>,
    container: usize,
    name: Option<&str>,
    value: &CstInputValue<A>,
) -> bool
    requires { container < length tree.now.nodes }
    ensures { result ≡ on_several_lines tree.now.nodes (children_at tree.now.nodes container)
        (option_map (λ s. chars s.now) name.entry) (plain value.now) }
{
    name.is_some() || tree.has_line_end(container) || is_spread(value)
}

// The indents one level deeper.
fn one_deeper<A: Allocator + Copy>(indents: Indents<A>) -> Result<Indents<A>, AllocError>
    ensures { IfOk result (λ i. texts_of i ≡ one_deeper (texts_of indents)) }
{
    let mut current = indents.current;
    current.push_str(indents.single.as_str())?;
    Ok(Indents {
        current,
        single: indents.single,
    })
}

// The indents of what stands in a container.
fn indents_inside<A: Allocator + Copy>(
    alloc: A,
    tree: &Tree<A>,
    container: usize,
) -> Result<Indents<A>, AllocError>
    requires { container < length tree.now.nodes }
    ensures { IfOk result (λ i. texts_of i ≡ indents_inside tree.now.nodes container) }
{
    if let Some(element) = element_at(tree, container, 0) {
        return indents_at(alloc, tree, element);
    }
    let outer = indents_at(alloc, tree, container)?;
    one_deeper(outer)
}

/// The indent of a container's own line.
pub(crate) fn outer_indent<A: Allocator + Copy>(
    alloc: A,
    tree: &Tree<A>,
    container: usize,
) -> Result<String<A>, AllocError>
    requires { container < length tree.now.nodes }
    ensures { IfOk result (λ s. string_bytes s ≡ outer_indent tree.now.nodes container) }
{
    let indents = indents_at(alloc, tree, container)?;
    Ok(indents.current)
}

/// How what is inserted into a container is laid out.
pub(crate) fn layout_inside<A: Allocator + Copy>(
    alloc: A,
    tree: &Tree<A>,
    container: usize,
) -> Result<Layout<A>, AllocError>
    requires { container < length tree.now.nodes }
    ensures { IfOk result (λ l. layout_of l ≡ layout_inside tree.now.nodes container) }
{
    let indents = indents_inside(alloc, tree, container)?;
    let trailing_commas = uses_trailing_commas(tree, container);
    let newline = newline_kind_at(tree, container);
    Ok(Layout {
        current: indents.current,
        single: indents.single,
        trailing_commas,
        newline,
    })
}
