//! What stands before an element: what of it stays in its place, and what goes where the element goes.

ghost use Rattle.std.specs.Prelude.{◌≡◌, ◌≤◌, IsTrue, drop, length, max, take};
ghost use Rattle.std.specs.List.{list_any, suffix_len};
ghost use Rattle.jsonc_tree.specs.Tree.{content_at};
ghost use Rattle.jsonc_sort.specs.Leads.{before_comment, blank_lines, comments, has_blank_line};
ghost use Rattle.jsonc_sort.specs.Leads.{header_by, header_length, header_of, lead_parts};
ghost use Rattle.jsonc_sort.specs.Leads.{own_lead, parts_of_lines, through_last_line};
ghost use Rattle.jsonc_sort.specs.Parts.{is_newline_at, is_no_newline_at};
ghost use Rattle.jsonc_sort.specs.Places.{ended_behind, lead_of, left_behind};

use crate::parts::up_to_spaces;
use jsonc_layout::nodes::{is_comment, is_newline, is_whitespace};
use jsonc_layout::rows::{blanks, has_newline, line_length, spaces};
use jsonc_tree::Tree;
use std::alloc::Allocator;

/// A lead in three: where what travels with the element begins, and where the indent does.
#[derive(Clone, Copy)]
pub(crate) struct Lead {
    pub(crate) travels: usize,
    pub(crate) indent: usize,
}

// Whether a line has ended, with nothing but whitespace since, once a node more has been passed.
fn ended_behind<A: Allocator>(tree: &Tree<A>, node: usize, ended: bool) -> bool
    ensures { result ≡ ended_behind (content_at tree.now.nodes) node ended }
{
    if is_whitespace(tree, node) {
        return ended;
    }
    is_newline(tree, node)
}

/// Whether two ends of lines have nothing but whitespace between them.
pub(crate) fn has_blank_line<A: Allocator>(tree: &Tree<A>, row: &[usize]) -> bool
    ensures { result ≡ has_blank_line (content_at tree.now.nodes) row.now }
{
    let mut ended = false;
    for node in row {
        if ended & is_newline(tree, *node) {
            return true;
        }
        ended = ended_behind(tree, *node, ended);
    }
    false
}

/// Where what belongs to an entry begins in what stands before it: below its last blank line.
pub fn own_lead<A: Allocator>(tree: &Tree<A>, lead: &[usize]) -> usize
    ensures begins { drop result lead.now ≡ own_lead (content_at tree.now.nodes) lead.now }
    ensures within { result ≤ length lead.now }
{
    let mut start = 0;
    let mut ended = false;
    let mut place = lead.len();
    while place > 0 {
        let node = lead[place - 1];
        let ends = is_newline(tree, node);
        if ends & ended {
            return place;
        }
        if ends {
            start = place;
        }
        ended = ends | (ended & is_whitespace(tree, node));
        place -= 1;
    }
    start
}

/// How many nodes at the front are lines of blanks alone, each with its end.
pub(crate) fn blank_lines<A: Allocator>(tree: &Tree<A>, row: &[usize]) -> usize
    ensures count { result ≡ blank_lines (content_at tree.now.nodes) row.now }
    ensures within { result ≤ length row.now }
{
    up_to_spaces(tree, &row[..blanks(tree, row)])
}

/// How many comments there are.
pub(crate) fn comments<A: Allocator>(tree: &Tree<A>, row: &[usize]) -> usize
    ensures { result ≡ comments (content_at tree.now.nodes) row.now }
{
    row.iter().filter(|node| is_comment(tree, **node)).count()
}

// How many comments are still to be passed, once a node more has been.
fn left_behind<A: Allocator>(tree: &Tree<A>, node: usize, left: usize) -> usize
    ensures { result ≡ left_behind (content_at tree.now.nodes) node left }
{
    if is_comment(tree, node) {
        return left.saturating_sub(1);
    }
    left
}

// How many nodes stand before the comment of a number, or all where there are not so many.
fn before_comment<A: Allocator>(tree: &Tree<A>, number: usize, row: &[usize]) -> usize
    ensures count { take result row.now ≡ before_comment (content_at tree.now.nodes) number row.now }
    ensures within { result ≤ length row.now }
{
    let mut left = number;
    for place in 0..row.len() {
        if (left == 0) & is_comment(tree, row[place]) {
            return place;
        }
        left = left_behind(tree, row[place], left);
    }
    row.len()
}

// How many nodes at the end stand after the last end of a line, or all.
fn last_line<A: Allocator>(tree: &Tree<A>, row: &[usize]) -> usize
    ensures count { result ≡ suffix_len (is_no_newline_at (content_at tree.now.nodes)) row.now }
    ensures within { result ≤ length row.now }
{
    row.iter()
        .rev()
        .take_while(|node| !is_newline(tree, **node))
        .count()
}

// How many nodes it is through the last end of a line.
fn through_last_line<A: Allocator>(tree: &Tree<A>, row: &[usize]) -> usize
    ensures count { result ≡ through_last_line (content_at tree.now.nodes) row.now }
    ensures within { result ≤ length row.now }
{
    row.len() - last_line(tree, row)
}

fn greater(a: usize, b: usize) -> usize
    ensures { result ≡ max a b }
{
    if a < b { b } else { a }
}

// How many nodes are the header, where more comments stand than the so many that are pinned.
fn header_of<A: Allocator>(tree: &Tree<A>, count: usize, row: &[usize]) -> usize
    ensures header { result ≡ header_of (content_at tree.now.nodes) count row.now }
    ensures within { result ≤ length row.now }
{
    let blank = blank_lines(tree, row);
    if count == 0 {
        return blank;
    }
    let before = before_comment(tree, count, row);
    greater(blank, through_last_line(tree, &row[..before]))
}

// How many are, where so many comments are pinned, or none where no rule pins any.
fn header_by<A: Allocator>(tree: &Tree<A>, pinned: Option<usize>, row: &[usize]) -> usize
    ensures header { result ≡ header_by (content_at tree.now.nodes) pinned row.now }
    ensures within { result ≤ length row.now }
{
    match pinned {
        Some(count) => {
            if comments(tree, row) <= count {
                return row.len();
            }
            header_of(tree, count, row)
        }
        None => 0,
    }
}

// How many are: all, where the element begins a group.
fn header_length<A: Allocator>(
    tree: &Tree<A>,
    begins: bool,
    pinned: Option<usize>,
    row: &[usize],
) -> usize
    ensures header { result ≡ header_length (content_at tree.now.nodes) begins pinned row.now }
    ensures within { result ≤ length row.now }
{
    if begins {
        return row.len();
    }
    header_by(tree, pinned, row)
}

// A lead in which a line ends: what is through its end stays, and a header after that, and the
// whitespace before the element.
fn parts_of_lines<A: Allocator>(
    tree: &Tree<A>,
    begins: bool,
    pinned: Option<usize>,
    lead: &[usize],
) -> Lead
    requires { IsTrue (list_any (is_newline_at (content_at tree.now.nodes)) lead.now) }
    ensures parts { lead_of lead.now result ≡ parts_of_lines (content_at tree.now.nodes) begins pinned lead.now }
    ensures order { result.travels ≤ result.indent }
    ensures within { result.indent ≤ length lead.now }
{
    let first = line_length(tree, lead) + 1;
    let rest = &lead[first..];
    let indent = up_to_spaces(tree, rest);
    let header = header_length(tree, begins, pinned, &rest[..indent]);
    Lead {
        travels: first + header,
        indent: first + indent,
    }
}

/// A lead in three, where so many comments are pinned; where groups are kept, a blank line begins one.
pub(crate) fn lead_parts<A: Allocator>(
    tree: &Tree<A>,
    groups: bool,
    pinned: Option<usize>,
    lead: &[usize],
) -> Lead
    ensures parts { lead_of lead.now result ≡ lead_parts (content_at tree.now.nodes) groups pinned lead.now }
    ensures order { result.travels ≤ result.indent }
    ensures within { result.indent ≤ length lead.now }
{
    if has_newline(tree, lead) {
        let begins = groups && has_blank_line(tree, lead);
        return parts_of_lines(tree, begins, pinned, lead);
    }
    Lead {
        travels: spaces(tree, lead),
        indent: lead.len(),
    }
}
