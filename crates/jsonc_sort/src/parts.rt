//! What belongs to an element after it.

ghost use Rattle.std.specs.Prelude.{◌≡◌, ◌≤◌, length};
ghost use Rattle.jsonc_tree.specs.Tree.{content_at};
ghost use Rattle.jsonc_sort.specs.Parts.{comments_on_line, is_own_line, tail_length, through_comma, up_to_spaces};
ghost use Rattle.jsonc_sort.specs.Places.{before_blank, before_comma, IsComma};

use jsonc_layout::nodes::{is_comma, is_whitespace};
use jsonc_layout::rows::{all_inline_trivia, has_newline, last_spaces, line_length};
use jsonc_tree::Tree;
use std::alloc::Allocator;

/// What is removed from a tail with its comma: a stretch, empty where there is none.
#[derive(Clone, Copy)]
pub(crate) struct Comma {
    pub(crate) from: usize,
    pub(crate) to: usize,
}

// How many nodes stand before the first comma, or all.
fn before_comma<A: Allocator>(tree: &Tree<A>, row: &[usize]) -> usize
    ensures count { result ≡ before_comma (content_at tree.now.nodes) row.now }
    ensures within { result ≤ length row.now }
{
    row.iter()
        .take_while(|node| !is_comma(tree, **node))
        .count()
}

// How many it is through the comma, if there is one.
fn through_comma<A: Allocator>(tree: &Tree<A>, row: &[usize]) -> usize
    ensures count { result ≡ through_comma (content_at tree.now.nodes) row.now }
    ensures within { result ≤ length row.now }
{
    let place = before_comma(tree, row);
    if place < row.len() { place + 1 } else { 0 }
}

// A place, or that of the whitespace leaf directly before it.
fn before_blank<A: Allocator>(tree: &Tree<A>, row: &[usize], place: usize) -> usize
    requires { place ≤ length row.now }
    ensures place { result ≡ before_blank (content_at tree.now.nodes) row.now place }
    ensures within { result ≤ place }
{
    if place > 0 && is_whitespace(tree, row[place - 1]) {
        return place - 1;
    }
    place
}

/// What is removed from a tail with its comma: that, and a whitespace leaf directly before it.
pub(crate) fn comma_in<A: Allocator>(tree: &Tree<A>, tail: &[usize]) -> Comma
    ensures { IsComma (content_at tree.now.nodes) tail.now result }
{
    let place = before_comma(tree, tail);
    if place >= tail.len() {
        return Comma {
            from: tail.len(),
            to: tail.len(),
        };
    }
    Comma {
        from: before_blank(tree, tail, place),
        to: place + 1,
    }
}

/// How many nodes it is up to the whitespace that these end with.
pub(crate) fn up_to_spaces<A: Allocator>(tree: &Tree<A>, row: &[usize]) -> usize
    ensures count { result ≡ up_to_spaces (content_at tree.now.nodes) row.now }
    ensures within { result ≤ length row.now }
{
    row.len() - last_spaces(tree, row)
}

// Whether the line that these begin with is whitespace and comments alone, up to its end or the last
// bracket.
fn is_own_line<A: Allocator>(tree: &Tree<A>, last: bool, row: &[usize]) -> bool
    ensures { result ≡ is_own_line (content_at tree.now.nodes) last row.now }
{
    (last || has_newline(tree, row)) && all_inline_trivia(tree, &row[..line_length(tree, row)])
}

// How many nodes it is through the last comment of such a line.
fn comments_on_line<A: Allocator>(tree: &Tree<A>, last: bool, row: &[usize]) -> usize
    ensures count { result ≡ comments_on_line (content_at tree.now.nodes) last row.now }
    ensures within { result ≤ length row.now }
{
    if !is_own_line(tree, last, row) {
        return 0;
    }
    up_to_spaces(tree, &row[..line_length(tree, row)])
}

/// How many nodes after an element, which is the last or not, belong to it: through its comma, and the
/// comments on its line.
pub fn tail_length<A: Allocator>(tree: &Tree<A>, last: bool, gap: &[usize]) -> usize
    ensures count { result ≡ tail_length (content_at tree.now.nodes) last gap.now }
    ensures within { result ≤ length gap.now }
{
    let through = through_comma(tree, gap);
    through + comments_on_line(tree, last, &gap[through..])
}
