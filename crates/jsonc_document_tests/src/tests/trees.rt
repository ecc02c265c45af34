//! Changes of a tree, each through the tests that make it allowed.
ghost use Rattle.std.specs.Prelude.{◌<◌, IsTrue, length};
ghost use Rattle.jsonc_tree.specs.Tree.{is_container_at};

use failing_alloc::outcome::Outcome;
use jsonc_tree::{CstNewlineKind, Ends, Kind, Tree};
use std::alloc::Allocator;

/// Whether a node is there and may have children.
fn can_hold<A: Allocator>(tree: &Tree<A>, node: usize) -> bool
    ensures in_tree { IsTrue result → node < length tree.now.nodes }
    ensures container { IsTrue result → IsTrue (is_container_at tree.now.nodes node) }
{
    if node >= tree.len() {
        return false;
    }
    tree.kind(node).is_container()
}

fn push<A: Allocator + Copy>(
    tree: &mut Tree<A>,
    container: usize,
    kind: Kind<A>,
) -> Result<usize, Outcome> {
    if !can_hold(tree, container) {
        return Err(Outcome::Other);
    }
    Ok(tree.push_child(container, kind)?)
}

/// A new node at the end of a container.
fn attach<A: Allocator + Copy>(
    tree: &mut Tree<A>,
    container: usize,
    kind: Kind<A>,
) -> Result<(), Outcome> {
    if !can_hold(tree, container) {
        return Err(Outcome::Other);
    }
    let node = tree.add(kind)?;
    tree.append(container, node);
    Ok(())
}

/// A new node in front of a container's children.
fn put_first<A: Allocator + Copy>(
    tree: &mut Tree<A>,
    container: usize,
    kind: Kind<A>,
) -> Result<usize, Outcome> {
    if !can_hold(tree, container) {
        return Err(Outcome::Other);
    }
    let node = tree.add(kind)?;
    let first = tree.first_child(container);
    tree.insert_between(container, None, first, &[node]);
    Ok(node)
}

/// A new node in the place of a child.
fn put<A: Allocator + Copy>(
    tree: &mut Tree<A>,
    child: usize,
    kind: Kind<A>,
) -> Result<(), Outcome> {
    if child >= tree.len() {
        return Err(Outcome::Other);
    }
    let Some(container) = tree.parent(child) else {
        return Err(Outcome::Other);
    };
    if !can_hold(tree, container) {
        return Err(Outcome::Other);
    }
    let node = tree.add(kind)?;
    tree.replace(child, &[node]);
    Ok(())
}

/// Another leaf in the place of one.
fn set<A: Allocator + Copy>(tree: &mut Tree<A>, leaf: usize, kind: Kind<A>) -> Result<(), Outcome> {
    if leaf >= tree.len() || tree.kind(leaf).is_container() || kind.is_container() {
        return Err(Outcome::Other);
    }
    tree.set_leaf(leaf, kind);
    Ok(())
}

/// Fills the tree by pushing and attaching, and answers its array and the number in it.
fn fill<A: Allocator + Copy>(alloc: A, tree: &mut Tree<A>) -> Result<(usize, usize), Outcome> {
    let array = push(tree, 0, Kind::Array(Ends::none()))?;
    push(tree, array, Kind::token('['))?;
    let number = push(tree, array, Kind::Number(String::from_str(alloc, "1")?))?;
    attach(tree, array, Kind::token(']'))?;
    Ok((array, number))
}

/// Puts a comma in front of the array's children, blanks in the place of the comma, and a word in the number's.
fn change<A: Allocator + Copy>(alloc: A, tree: &mut Tree<A>) -> Result<(), Outcome> {
    let (array, number) = fill(alloc, tree)?;
    let comma = put_first(tree, array, Kind::token(','))?;
    let blanks = Kind::Whitespace(String::from_str(alloc, "  ")?);
    put(tree, comma, blanks)?;
    set(tree, number, Kind::Word(String::from_str(alloc, "a")?))
}

/// A tree that each change has a part in.
pub fn changed_tree<A: Allocator + Copy>(alloc: A) -> Outcome {
    match Tree::new(alloc) {
        Ok(tree) => is_changed(alloc, tree),
        Err(error) => Outcome::from(error),
    }
}

fn is_changed<A: Allocator + Copy>(alloc: A, tree: Tree<A>) -> Outcome {
    let mut tree = tree;
    match change(alloc, &mut tree) {
        Ok(()) => Outcome::of_text(tree.to_string(alloc), "  [a]"),
        Err(outcome) => outcome,
    }
}

// Goes on where a line ends in a container, or where none does.
fn expect_line_end<A: Allocator>(
    tree: &Tree<A>,
    container: usize,
    wanted: bool,
) -> Result<(), Outcome> {
    if container < tree.len() && tree.has_line_end(container) == wanted {
        return Ok(());
    }
    Err(Outcome::Other)
}

// The end of a line comes, becomes blanks, is what a number becomes, goes, and comes again.
fn change_lines<A: Allocator + Copy>(alloc: A, tree: &mut Tree<A>) -> Result<(), Outcome> {
    let (array, number) = fill(alloc, tree)?;
    expect_line_end(tree, array, false)?;
    let end = push(tree, array, Kind::Newline(CstNewlineKind::LineFeed))?;
    expect_line_end(tree, array, true)?;
    set(tree, end, Kind::Whitespace(String::from_str(alloc, " ")?))?;
    expect_line_end(tree, array, false)?;
    set(tree, number, Kind::Newline(CstNewlineKind::CarriageReturn))?;
    expect_line_end(tree, array, true)?;
    put(tree, number, Kind::token(','))?;
    expect_line_end(tree, array, false)?;
    attach(tree, array, Kind::Newline(CstNewlineKind::LineFeed))?;
    expect_line_end(tree, array, true)?;
    expect_line_end(tree, 0, false)
}

/// A tree that is asked after each change whether a line ends in its array.
pub fn counted_lines<A: Allocator + Copy>(alloc: A) -> Outcome {
    match Tree::new(alloc) {
        Ok(tree) => counts_lines(alloc, tree),
        Err(error) => Outcome::from(error),
    }
}

fn counts_lines<A: Allocator + Copy>(alloc: A, tree: Tree<A>) -> Outcome {
    let mut tree = tree;
    match change_lines(alloc, &mut tree) {
        Ok(()) => Outcome::Answered,
        Err(outcome) => outcome,
    }
}
