//! Changes of a text, in order and apart, and the text that they make.
ghost use Rattle.std.specs.Prelude.{◌≤◌, chars, take, IfOk, IfSome, IsCharBoundary, IsTrue, OnOk, [], ◌≡◌};
ghost use Rattle.jsonc_text.specs.Text.{Spans};
ghost use Rattle.jsonc_mend.specs.Changes.{IsMade};

use jsonc_text::common::Range;
use jsonc_text::errors::ParseErrorKind;
use std::alloc::{AllocError, Allocator};

/// A range of a text, and the range of the changed text that is in its place.
#[derive(Clone, Copy, Debug, PartialEq, Eq)]
pub struct Change {
    /// The bytes of the text that are replaced.
    pub range: Range,
    /// The bytes of the changed text in their place.
    pub written: Range,
}

/// A text after changes, with the changes in order.
#[derive(Debug, Drop)]
pub struct Changed<A: Allocator> {
    pub text: String<A>,
    pub list: Vec<Change, A>,
}

/// What is wrong with a text, and where.
#[derive(Clone, Copy, Debug, PartialEq, Eq)]
pub struct Fault {
    pub kind: ParseErrorKind,
    pub range: Range,
}

/// A fault, and a change that is proposed for it: nothing is known of either.
#[derive(Clone, Copy, Debug, PartialEq, Eq)]
pub struct Proposal {
    /// The fault that the change is for.
    pub fault: Fault,
    /// The bytes of the text that are replaced.
    pub range: Range,
    /// The bytes of the common buffer that are written in their place.
    pub written: Range,
}

// Whether a change of these bytes may be made after one that ends at `from`.
fn fits(text: &str, from: usize, range: Range) -> bool
    ensures { IsTrue result → Spans text.now range.start range.end × (from ≤ range.start) }
{
    if range.start < from || range.end < range.start {
        return false;
    }
    if !text.is_char_boundary(range.start) {
        return false;
    }
    text.is_char_boundary(range.end)
}

// The part of a text, if the range has one.
fn part_of(text: &str, range: Range) -> Option<&str> {
    let (before, _) = text.split_at_checked(range.end)?;
    let (_, part) = before.split_at_checked(range.start)?;
    Some(part)
}

// Copies what is between two places of the text, up to the first of which it is written.
fn copy<A: Allocator>(
    text: &str,
    from: usize,
    to: usize,
    changed: &mut Changed<A>,
) -> Result<(), AllocError>
    requires span { Spans text.now from to }
    requires made { IsMade (chars (take from text.now)) changed.old }
    ensures { OnOk result (IsMade (chars (take to text.now)) changed.new) }
{
    changed.text.push_str(&text[from..to])
}

// Writes the new text in the place of these bytes of the text, up to which it is written.
fn replace<A: Allocator>(
    text: &str,
    range: Range,
    new: &str,
    changed: &mut Changed<A>,
) -> Result<(), AllocError>
    requires span { Spans text.now range.start range.end }
    requires made { IsMade (chars (take range.start text.now)) changed.old }
    ensures { OnOk result (IsMade (chars (take range.end text.now)) changed.new) }
{
    let start = changed.text.len();
    changed.text.push_str(new)?;
    let written = Range {
        start,
        end: changed.text.len(),
    };
    changed.list.push(Change { range, written })?;
    Ok(())
}

/// Makes the proposed changes, where they are in order, apart and on boundaries of characters; else none is made.
///
/// Each writes a part of `buffer`.
pub fn make_changes<A: Allocator + Copy>(
    alloc: A,
    text: &str,
    proposals: &[Proposal],
    buffer: &str,
) -> Result<Option<Changed<A>>, AllocError>
    ensures { IfOk result (λ made. IfSome made (IsMade (chars text.now))) }
{
    let mut changed = Changed {
        text: String::new(alloc),
        list: Vec::new(alloc),
    };
    let mut from = 0;
    for proposal in proposals {
        let range = proposal.range;
        if !fits(text, from, range) {
            return Ok(None);
        }
        let Some(new) = part_of(buffer, proposal.written) else {
            return Ok(None);
        };
        copy(text, from, range.start, &mut changed)?;
        replace(text, range, new, &mut changed)?;
        from = range.end;
    }
    copy(text, from, text.len(), &mut changed)?;
    Ok(Some(changed))
}
