//! How nodes are begun, and what stands between them: lines' ends, indents, commas and spaces.

ghost use Rattle.std.specs.Prelude.{IfOk, IsTrue, OnOk};
ghost use Rattle.jsonc_tree.specs.Content.{is_container, whitespace};
ghost use Rattle.jsonc_tree.specs.Stored.{content_of};
ghost use Rattle.jsonc_layout.specs.from_input.Extending.{Gains, IsUnfinished, KeepsAll, KeepsBefore, Makes};
ghost use Rattle.jsonc_layout.specs.from_input.Given.{new_line};
ghost use Rattle.jsonc_layout.specs.from_input.Laid.{begun, comma_if, gap_if, leaf_then, spaced};

use crate::from_input::layout::Layout;
use jsonc_tree::{Kind, Tree};
use std::alloc::{AllocError, Allocator};

// Adds a node with its first leaf.
pub(crate) fn begin_node<A: Allocator + Copy>(
    tree: &mut Tree<A>,
    kind: Kind<A>,
    first: Kind<A>,
) -> Result<usize, AllocError>
    requires { IsTrue (is_container (content_of kind)) }
    ensures built { IfOk result (Makes tree.old tree.new (begun (content_of kind) (content_of first))) }
    ensures kept { KeepsAll tree.old tree.new }
{
    let node = tree.add(kind)?;
    tree.push_child(node, first)?;
    Ok(node)
}

// Adds a leaf to a node that is being built.
pub(crate) fn push_leaf<A: Allocator + Copy>(
    tree: &mut Tree<A>,
    container: usize,
    kind: Kind<A>,
) -> Result<(), AllocError>
    requires { IsUnfinished tree.old.nodes container }
    ensures added { OnOk result (Gains tree.old tree.new container (leaf_then (content_of kind))) }
    ensures kept { KeepsBefore container tree.old tree.new }
{
    tree.push_child(container, kind)?;
    Ok(())
}

// Adds a leaf of whitespace.
fn push_blanks<A: Allocator + Copy>(
    alloc: A,
    tree: &mut Tree<A>,
    container: usize,
    blanks: &str,
) -> Result<(), AllocError>
    requires { IsUnfinished tree.old.nodes container }
    ensures added { OnOk result (Gains tree.old tree.new container (leaf_then (whitespace blanks.now))) }
    ensures kept { KeepsBefore container tree.old tree.new }
{
    let blanks = String::from_str(alloc, blanks)?;
    push_leaf(tree, container, Kind::Whitespace(blanks))
}

// Adds a token and a space.
pub(crate) fn push_spaced<A: Allocator + Copy>(
    alloc: A,
    tree: &mut Tree<A>,
    container: usize,
    mark: char,
) -> Result<(), AllocError>
    requires { IsUnfinished tree.old.nodes container }
    ensures added { OnOk result (Gains tree.old tree.new container (spaced mark)) }
    ensures kept { KeepsBefore container tree.old tree.new }
{
    push_leaf(tree, container, Kind::token(mark))?;
    push_blanks(alloc, tree, container, " ")
}

// Adds a comma and a space, where nodes are to be parted.
pub(crate) fn push_gap_if<A: Allocator + Copy>(
    alloc: A,
    tree: &mut Tree<A>,
    container: usize,
    wanted: bool,
) -> Result<(), AllocError>
    requires { IsUnfinished tree.old.nodes container }
    ensures added { OnOk result (Gains tree.old tree.new container (gap_if wanted)) }
    ensures kept { KeepsBefore container tree.old tree.new }
{
    if !wanted {
        return Ok(());
    }
    push_spaced(alloc, tree, container, ',')
}

// Adds a comma where one is wanted.
pub(crate) fn push_comma_if<A: Allocator + Copy>(
    tree: &mut Tree<A>,
    container: usize,
    wanted: bool,
) -> Result<(), AllocError>
    requires { IsUnfinished tree.old.nodes container }
    ensures added { OnOk result (Gains tree.old tree.new container (comma_if wanted)) }
    ensures kept { KeepsBefore container tree.old tree.new }
{
    if !wanted {
        return Ok(());
    }
    push_leaf(tree, container, Kind::token(','))
}

// Ends a line, and begins the next one with its indent.
pub(crate) fn begin_line<A: Allocator + Copy>(
    alloc: A,
    tree: &mut Tree<A>,
    container: usize,
    layout: &Layout<A>,
) -> Result<(), AllocError>
    requires { IsUnfinished tree.old.nodes container }
    ensures added { OnOk result (Gains tree.old tree.new container (new_line layout.now)) }
    ensures kept { KeepsBefore container tree.old tree.new }
{
    push_leaf(tree, container, Kind::Newline(layout.newline))?;
    push_blanks(alloc, tree, container, layout.current.as_str())
}
