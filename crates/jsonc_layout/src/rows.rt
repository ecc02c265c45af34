//! Rows: nodes by their numbers, in order, as a container has them or is to have them.

ghost use Rattle.std.specs.Prelude.{◌≡◌, ◌≤◌, length, reverse};
ghost use Rattle.std.specs.List.{list_all, list_any, position_or_len, prefix_len, suffix_len, take_while};
ghost use Rattle.jsonc_layout.specs.nodes.Kinds.{is_inline_trivia_at, is_blank_at, is_newline_at, is_whitespace_at};
ghost use Rattle.jsonc_layout.specs.nodes.Siblings.{is_no_newline_at};

use crate::nodes::{is_blank, is_inline_trivia, is_newline, is_whitespace};
use jsonc_tree::Tree;
use std::alloc::Allocator;

/// Whether a line ends in a row.
pub fn has_newline<A: Allocator>(tree: &Tree<A>, row: &[usize]) -> bool
    ensures { result ≡ list_any (is_newline_at tree.now.nodes) row.now }
{
    row.iter().any(|node| is_newline(tree, *node))
}

/// Whether nothing but whitespace and comments stands in a row.
pub fn all_inline_trivia<A: Allocator>(tree: &Tree<A>, row: &[usize]) -> bool
    ensures { result ≡ list_all (is_inline_trivia_at tree.now.nodes) row.now }
{
    row.iter().all(|node| is_inline_trivia(tree, *node))
}

/// How many nodes stand on the line that a row begins with.
pub fn line_length<A: Allocator>(tree: &Tree<A>, row: &[usize]) -> usize
    ensures count { result ≡ length (take_while (is_no_newline_at tree.now.nodes) row.now) }
    ensures place { result ≡ position_or_len (is_newline_at tree.now.nodes) row.now }
    ensures within { result ≤ length row.now }
{
    for (place, node) in row.iter().enumerate() {
        if is_newline(tree, *node) {
            return place;
        }
    }
    row.len()
}

/// How many nodes at the front of a row are whitespace or ends of lines.
pub fn blanks<A: Allocator>(tree: &Tree<A>, row: &[usize]) -> usize
    ensures count { result ≡ length (take_while (is_blank_at tree.now.nodes) row.now) }
    ensures within { result ≤ length row.now }
{
    for (place, node) in row.iter().enumerate() {
        if !is_blank(tree, *node) {
            return place;
        }
    }
    row.len()
}

/// The same at its end.
pub fn last_blanks<A: Allocator>(tree: &Tree<A>, row: &[usize]) -> usize
    ensures count { result ≡ length (take_while (is_blank_at tree.now.nodes) (reverse row.now)) }
    ensures within { result ≤ length row.now }
{
    let mut end = row.len();
    while end > 0 {
        if !is_blank(tree, row[end - 1]) {
            return row.len() - end;
        }
        end -= 1;
    }
    row.len()
}

/// How many nodes at the front of a row are whitespace.
pub fn spaces<A: Allocator>(tree: &Tree<A>, row: &[usize]) -> usize
    ensures count { result ≡ length (take_while (is_whitespace_at tree.now.nodes) row.now) }
    ensures prefix { result ≡ prefix_len (is_whitespace_at tree.now.nodes) row.now }
    ensures within { result ≤ length row.now }
{
    for (place, node) in row.iter().enumerate() {
        if !is_whitespace(tree, *node) {
            return place;
        }
    }
    row.len()
}

/// The same at its end.
pub fn last_spaces<A: Allocator>(tree: &Tree<A>, row: &[usize]) -> usize
    ensures count { result ≡ length (take_while (is_whitespace_at tree.now.nodes) (reverse row.now)) }
    ensures suffix { result ≡ suffix_len (is_whitespace_at tree.now.nodes) row.now }
    ensures within { result ≤ length row.now }
{
    let mut end = row.len();
    while end > 0 {
        if !is_whitespace(tree, row[end - 1]) {
            return row.len() - end;
        }
        end -= 1;
    }
    row.len()
}
