//! The changes between the leaves that stay.

ghost use Rattle.std.specs.Prelude.{◌≡◌, ◌≤◌, IfNone, IfOk, IfSome, IsCharBoundary, OnOk, Some, slice_get, slice_range};
ghost use Rattle.jsonc_text.specs.declared.common.Range.{Range};
ghost use Rattle.jsonc_text.specs.Text.{Spans};
ghost use Rattle.jsonc_changes.specs.Changes.{Puts};
ghost use Rattle.jsonc_ranges.specs.Edits.{AreEdits, IsKept, Passes};

use crate::ranges::own_length;
use jsonc_mends::TextChange;
use jsonc_text::common::Range;
use jsonc_tree::Tree;
use std::alloc::{AllocError, Allocator};

// The text of a range, if it is one of the text.
fn part_of(text: &str, range: Range) -> Option<&str>
    ensures span { IfSome result (λ part. Spans text.now range.start range.end) }
    ensures part { IfSome result (λ part. part.now ≡ slice_range text.now range.start range.end) }
    ensures none { IfNone result (Spans text.now range.start range.end → ⊥) }
{
    if range.end < range.start {
        return None;
    }
    if !text.is_char_boundary(range.start) {
        return None;
    }
    if !text.is_char_boundary(range.end) {
        return None;
    }
    Some(&text[range.start..range.end])
}

// The range of the old text, from a place on, that has what the leaf prints in the new one, if the leaf has one.
fn kept_range(known: Option<Range>, old: &str, from: usize, new: &str, own: Range) -> Option<Range>
    ensures some { IfSome result (λ r. IsKept old.now from new.now own r) }
    ensures known { IfSome result (λ r. known ≡ Some r) }
    ensures none { IfNone result ((r : Range) → known ≡ Some r → IsKept old.now from new.now own r → ⊥) }
{
    let range = known?;
    if range.start < from || range.end <= range.start {
        return None;
    }
    let was = part_of(old, range)?;
    let now = part_of(new, own)?;
    if was != now {
        return None;
    }
    Some(range)
}

// Adds the change of a range of the old text into one of the new, where they differ.
fn push_change<'n, A: Allocator>(
    changes: &mut Vec<TextChange<'n>, A>,
    old: &str,
    range: Range,
    new: &'n str,
    written: Range,
) -> Result<(), AllocError>
    requires old { Spans old.now range.start range.end }
    requires new { Spans new.now written.start written.end }
    ensures { OnOk result (Puts old.now range new.now written changes.old.items changes.new.items) }
{
    let new_text = &new[written.start..written.end];
    if &old[range.start..range.end] == new_text {
        return Ok(());
    }
    changes.push(TextChange { range, new_text })?;
    Ok(())
}

// The range of a node, if one was noted.
fn range_at(ranges: &[Range], node: usize) -> Option<Range>
    ensures { result ≡ slice_get ranges.now node }
{
    ranges.get(node).copied()
}

// How far both texts have been compared.
#[derive(Clone, Copy)]
struct Done {
    old: usize,
    new: usize,
}

// Passes a leaf, which prints this range of the new text: where it is kept, the change before it is added.
fn pass_leaf<'n, A: Allocator>(
    changes: &mut Vec<TextChange<'n>, A>,
    known: Option<Range>,
    old: &str,
    new: &'n str,
    done: Done,
    own: Range,
) -> Result<Done, AllocError>
    requires old_place { IsCharBoundary old.now done.old }
    requires new_place { IsCharBoundary new.now done.new }
    requires order { done.new ≤ own.start }
    ensures { IfOk result (λ now. Passes known old.now new.now done own changes.old.items changes.new.items now) }
{
    let Some(kept) = kept_range(known, old, done.old, new, own) else {
        return Ok(done);
    };
    let range = Range::new(done.old, kept.start);
    let written = Range::new(done.new, own.start);
    push_change(changes, old, range, new, written)?;
    Ok(Done {
        old: kept.end,
        new: own.end,
    })
}

// The changes between two texts, where the ranges tell where nodes of the tree are in the old one.
pub(crate) fn changes_between<'n, A: Allocator, B: Allocator>(
    alloc: A,
    ranges: &[Range],
    tree: &Tree<B>,
    old: &str,
    new: &'n str,
) -> Result<Vec<TextChange<'n>, A>, AllocError>
    ensures { IfOk result (λ v. AreEdits ranges.now tree.now.nodes old.now v.items new.now) }
{
    let mut changes = Vec::new(alloc);
    let mut done = Done { old: 0, new: 0 };
    let mut at: usize = 0;
    let mut next = Some(0);
    while let Some(n) = next {
        let own = Range::new(at, at.saturating_add(own_length(tree.kind(n))));
        done = pass_leaf(&mut changes, range_at(ranges, n), old, new, done, own)?;
        at = own.end;
        next = tree.next_in_order(0, n);
    }
    let range = Range::new(done.old, old.len());
    let written = Range::new(done.new, new.len());
    push_change(&mut changes, old, range, new, written)?;
    Ok(changes)
}
