//! A first value that is put into the root's row.

ghost use Rattle.std.specs.Prelude.{◌≡◌, ◌++◌, ◌∷◌, IfErr, IfOk, OnErr, OnOk, length, reverse, take, ℕ};
ghost use Rattle.jsonc_tree.specs.Building.{Keeps};
ghost use Rattle.jsonc_tree.specs.OrderedTree.{ordered_tree};
ghost use Rattle.jsonc_tree.specs.Siblings.{CanFill, Fills, IsGap};
ghost use Rattle.jsonc_tree.specs.Tree.{children_at};
ghost use Rattle.jsonc_layout.specs.input.Views.{plain};
ghost use Rattle.jsonc_layout.specs.nodes.Siblings.{IsThere};
ghost use Rattle.jsonc_edit.specs.Due.{listed, nearest};
ghost use Rattle.jsonc_edit.specs.Put.{Extends};
ghost use Rattle.jsonc_edit.specs.set.RootSet.{first_place, follows_comment, FirstValue, KeepsNodes, LineEndMade};

use crate::due::{seen_before, seen_last};
use crate::{EditError, layout_for};
use jsonc_layout::from_input::lay_out;
use jsonc_layout::input::CstInputValue;
use jsonc_layout::nodes::{is_comment, is_newline};
use jsonc_tree::{CstNewlineKind, Kind, Tree};
use std::alloc::{AllocError, Allocator};

// A gap of the root's row, by what stands before it and after it.
#[derive(Clone, Copy)]
struct Gap {
    before: Option<usize>,
    behind: Option<usize>,
}

// The gap that a first value is put into.
fn first_gap<A: Allocator>(tree: &Tree<A>) -> Gap
    ensures gap { IsGap tree.now.nodes 0 (first_place tree.now.nodes) result.before result.behind }
    ensures in_tree { IsThere tree.now.nodes result.behind }
{
    let Some(last) = tree.last_child(0) else {
        return Gap {
            before: None,
            behind: None,
        };
    };
    if !is_newline(tree, last) {
        return Gap {
            before: Some(last),
            behind: None,
        };
    }
    Gap {
        before: tree.previous_sibling(last),
        behind: Some(last),
    }
}

// The nearest node before a gap of the root's row that prints something.
fn seen_before_gap<A: Allocator>(tree: &Tree<A>, gap: Gap) -> Option<usize>
    requires { IsThere tree.now.nodes gap.behind }
    ensures seen { (place : ℕ) → IsGap tree.now.nodes 0 place gap.before gap.behind
        → result ≡ nearest tree.now.nodes (reverse (take place (children_at tree.now.nodes 0))) }
    ensures in_tree { IsThere tree.now.nodes result }
{
    match gap.behind {
        Some(node) => seen_before(tree, node),
        None => seen_last(tree, 0),
    }
}

// Whether that is a comment.
fn follows_comment<A: Allocator>(tree: &Tree<A>, gap: Gap) -> bool
    requires { IsThere tree.now.nodes gap.behind }
    ensures { (place : ℕ) → IsGap tree.now.nodes 0 place gap.before gap.behind
        → result ≡ follows_comment tree.now.nodes (children_at tree.now.nodes 0) place }
{
    match seen_before_gap(tree, gap) {
        Some(node) => is_comment(tree, node),
        None => false,
    }
}

// Makes a newline leaf, detached yet, where one is wanted.
fn make_line_end<A: Allocator>(
    tree: &mut Tree<A>,
    wanted: bool,
    kind: CstNewlineKind,
) -> Result<Option<usize>, AllocError>
    ensures made { IfOk result (LineEndMade tree.old.nodes tree.new.nodes wanted kind) }
    ensures prepared { Extends tree.old.nodes tree.new.nodes }
{
    if !wanted {
        return Ok(None);
    }
    let leaf = tree.add(Kind::Newline(kind))?;
    Ok(Some(leaf))
}

// Puts a value into the root's row, with the newlines that there are before and after it.
fn put_first<A: Allocator>(
    tree: &mut Tree<A>,
    gap: Gap,
    before: Option<usize>,
    value: usize,
    behind: Option<usize>,
)
    requires can { CanFill tree.old.nodes 0 gap.before gap.behind (listed before ++ value ∷ listed behind) }
    ensures put { Fills tree.old.nodes tree.new.nodes 0 gap.before gap.behind (listed before ++ value ∷ listed behind) }
{
    match (before, behind) {
        (None, None) => tree.insert_between(0, gap.before, gap.behind, &[value]),
        (Some(first), None) => tree.insert_between(0, gap.before, gap.behind, &[first, value]),
        (None, Some(last)) => tree.insert_between(0, gap.before, gap.behind, &[value, last]),
        (Some(first), Some(last)) => {
            tree.insert_between(0, gap.before, gap.behind, &[first, value, last]);
        }
    }
}

// Sets the value of a root that has none.
pub(crate) fn set_first<A: Allocator + Copy>(
    alloc: A,
    tree: &mut Tree<A>,
    value: &CstInputValue<A>,
) -> Result<usize, EditError>
    ensures first { IfOk result (FirstValue tree.old.nodes tree.new.nodes (plain value.now)) }
    ensures others { OnOk result (KeepsNodes tree.old.nodes tree.new.nodes) }
    ensures memory { IfErr result (λ e. e ≡ EditError.OutOfMemory) }
    ensures kept { OnErr result (Keeps (length tree.old.nodes) tree.old.nodes tree.new.nodes) }
    ensures document { OnErr result (ordered_tree tree.new.nodes 0 ≡ ordered_tree tree.old.nodes 0) }
{
    let layout = layout_for(alloc, tree, 0, 0)?;
    let gap = first_gap(tree);
    let before = make_line_end(tree, follows_comment(tree, gap), layout.newline)?;
    let new = lay_out(alloc, tree, value, &layout)?;
    let behind = make_line_end(tree, gap.behind.is_none(), layout.newline)?;
    put_first(tree, gap, before, new, behind);
    Ok(new)
}
