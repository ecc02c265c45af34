//! The entries of a row: each element with what stands before it and what belongs to it.

ghost use Rattle.std.specs.Prelude.{◌≡◌, ◌<◌, ◌≤◌, IfNone, IfOk, IfSome, drop, length, nat_le};
ghost use Rattle.jsonc_tree.specs.Tree.{content_at};
ghost use Rattle.jsonc_sort.specs.Places.{AreEntries, ArePlaces, IsLast, IsNext, before_element};
ghost use Rattle.jsonc_sort.specs.Rearranged.{headers_of};
ghost use Rattle.jsonc_sort.specs.Sorting.{first_pin};

use crate::leads::{blank_lines, lead_parts};
use crate::parts::{comma_in, tail_length};
use jsonc_layout::nodes::is_element;
use jsonc_tree::Tree;
use std::alloc::{AllocError, Allocator};

/// Where an entry's parts are in a row.
#[derive(Clone, Copy)]
pub(crate) struct Places {
    /// Where what stands before the element begins.
    pub(crate) lead: usize,
    /// Where what travels with the element begins.
    pub(crate) travels: usize,
    /// The same past the blank lines at its front.
    pub(crate) solid: usize,
    /// Where the indent begins.
    pub(crate) indent: usize,
    /// The element.
    pub(crate) element: usize,
    /// Where what is removed with its comma begins.
    pub(crate) comma: usize,
    /// The place after the comma; the same where there is none.
    pub(crate) behind: usize,
    /// The end of what belongs to the element.
    pub(crate) end: usize,
}

// How many nodes stand before the first element, or all.
fn before_element<A: Allocator>(tree: &Tree<A>, row: &[usize]) -> usize
    ensures count { result ≡ before_element (content_at tree.now.nodes) row.now }
    ensures within { result ≤ length row.now }
{
    row.iter()
        .take_while(|node| !is_element(tree, **node))
        .count()
}

// Whether so many nodes are all of a row.
fn is_all(row: &[usize], count: usize) -> bool
    ensures { result ≡ nat_le (length row.now) count }
{
    row.len() <= count
}

// The places of an entry, by where its lead begins and where the element is.
fn places_of<A: Allocator>(
    tree: &Tree<A>,
    row: &[usize],
    from: usize,
    element: usize,
    groups: bool,
    pinned: Option<usize>,
) -> Places
    requires from { from ≤ element }
    requires within { element < length row.now }
    ensures { ArePlaces (content_at tree.now.nodes) row.now from element groups pinned result }
{
    let lead = lead_parts(tree, groups, pinned, &row[from..element]);
    let travels = from + lead.travels;
    let indent = from + lead.indent;
    let behind = &row[element + 1..];
    let count = before_element(tree, behind);
    let gap = &behind[..count];
    let tail = tail_length(tree, is_all(behind, count), gap);
    let comma = comma_in(tree, &gap[..tail]);
    Places {
        lead: from,
        travels,
        solid: travels + blank_lines(tree, &row[travels..indent]),
        indent,
        element,
        comma: element + 1 + comma.from,
        behind: element + 1 + comma.to,
        end: element + 1 + tail,
    }
}

// The next entry from a place of a row on, with so many comments pinned before it.
fn next_entry<A: Allocator>(
    tree: &Tree<A>,
    row: &[usize],
    from: usize,
    groups: bool,
    pinned: Option<usize>,
) -> Option<Places>
    requires { from ≤ length row.now }
    ensures next { IfSome result (IsNext (content_at tree.now.nodes) row.now from groups pinned) }
    ensures last { IfNone result (IsLast (content_at tree.now.nodes) row.now from) }
{
    let element = from + before_element(tree, &row[from..]);
    if element >= row.len() {
        return None;
    }
    Some(places_of(tree, row, from, element, groups, pinned))
}

// The number of comments that are pinned before the element of a number, if any is told.
fn pinned_at(pinned: &[Option<usize>], number: usize) -> Option<usize>
    ensures { result ≡ first_pin (drop number pinned.now) }
{
    if number < pinned.len() {
        return pinned[number];
    }
    None
}

/// The entries of a row, in order.
pub(crate) fn entries<A: Allocator>(
    alloc: A,
    tree: &Tree<A>,
    row: &[usize],
    pinned: &[Option<usize>],
    groups: bool,
) -> Result<Vec<Places, A>, AllocError>
    ensures { IfOk result (λ v. AreEntries (content_at tree.now.nodes) (headers_of pinned.now groups) row.now v.items) }
{
    let mut entries = Vec::new(alloc);
    let mut from = 0;
    while let Some(entry) = next_entry(tree, row, from, groups, pinned_at(pinned, entries.len())) {
        entries.push(entry)?;
        from = entry.end;
    }
    Ok(entries)
}
