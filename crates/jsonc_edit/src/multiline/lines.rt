//! How the lines of a container are made.

ghost use Rattle.std.specs.Prelude.{◌≡◌, ◌<◌, IfOk, length};
ghost use Rattle.jsonc_edit.specs.multiline.Lines.{lines_for};
ghost use Rattle.jsonc_edit.specs.multiline.LineViews.{lines_of};

use jsonc_layout::lines::{indents_at, newline_kind_at};
use jsonc_tree::{CstNewlineKind, Tree};
use std::alloc::{AllocError, Allocator};

/// How the lines of a container are made.
#[derive(Drop)]
pub struct Lines<A: Allocator> {
    /// How a line ends.
    pub newline: CstNewlineKind,
    /// The indent of what stands in the container.
    pub inner: String<A>,
    /// The indent of the last bracket.
    pub outer: String<A>,
}

/// How the lines of a container are made, as the document tells.
pub fn lines_for<A: Allocator + Copy>(
    alloc: A,
    tree: &Tree<A>,
    container: usize,
) -> Result<Lines<A>, AllocError>
    requires { container < length tree.now.nodes }
    ensures { IfOk result (λ l. lines_of l ≡ lines_for tree.now.nodes container) }
{
    let indents = indents_at(alloc, tree, container)?;
    let newline = newline_kind_at(tree, container);
    let mut inner = String::from_str(alloc, indents.current.as_str())?;
    inner.push_str(indents.single.as_str())?;
    Ok(Lines {
        newline,
        inner,
        outer: indents.current,
    })
}
