//! The gaps of two texts that differ.
ghost use Rattle.std.specs.Prelude.{◌+◌, ◌≡◌, IfNone, IfOk, IfSome, IsCharBoundary, IsTrue, OnOk, Some, not, ℕ};
ghost use Rattle.std.specs.Char.{len_utf8};
ghost use Rattle.jsonc_text.specs.Chars.{Steps};
ghost use Rattle.jsonc_text.specs.Gaps.{is_blank};
ghost use Rattle.jsonc_text.specs.Text.{Spans, next, rest};
ghost use Rattle.jsonc_changes.specs.Changes.{AreChanges, HaveInCommon, Puts};

use jsonc_mends::TextChange;
use jsonc_text::chars::{blanks_end, char_at};
use jsonc_text::common::Range;
use std::alloc::{AllocError, Allocator};

/// The character that stands at both places, where it is one and no blank.
#[inline(always)]
fn common_char(old: &str, from: usize, new: &str, at: usize) -> Option<char>
    requires old { IsCharBoundary old.now from }
    requires new { IsCharBoundary new.now at }
    ensures old { IfSome result (λ c. Steps old.now from c (from + len_utf8 c)) }
    ensures new { IfSome result (λ c. Steps new.now at c (at + len_utf8 c)) }
    ensures some { IfSome result (λ c. IsTrue (not (is_blank c))) }
    ensures none { IfNone result ((c : ℕ) → next (rest old.now from) ≡ Some c → next (rest new.now at) ≡ Some c → IsTrue (is_blank c)) }
{
    let c = char_at(old, from)?;
    let d = char_at(new, at)?;
    if c != d {
        return None;
    }
    if c.is_whitespace() {
        return None;
    }
    Some(c)
}

/// How many bytes two texts have in common from these places on, up to the first blank.
fn common_len(old: &str, from: usize, new: &str, at: usize) -> usize
    requires old { IsCharBoundary old.now from }
    requires new { IsCharBoundary new.now at }
    ensures { HaveInCommon old.now from new.now at result }
{
    let mut len = 0;
    while let Some(c) = common_char(old, from + len, new, at + len) {
        len += c.len_utf8();
    }
    len
}

/// Adds the change of a range of the old text into one of the new, where they differ.
fn push_change<'n, A: Allocator>(
    changes: &mut Vec<TextChange<'n>, A>,
    old: &str,
    range: Range,
    new: &'n str,
    written: Range,
) -> Result<(), AllocError>
    requires old { Spans old.now range.start range.end }
    requires new { Spans new.now written.start written.end }
    ensures { OnOk result (Puts old.now range new.now written changes.old.items changes.new.items) }
{
    let new_text = &new[written.start..written.end];
    if &old[range.start..range.end] == new_text {
        return Ok(());
    }
    changes.push(TextChange { range, new_text })?;
    Ok(())
}

/// The gaps that differ between a text and its formatted text, as changes of the text, in order.
///
/// With the changes made, `old` is `formatted`. Each replaces all blanks that stand between two other characters by other blanks, of
/// `formatted`, which it borrows. So it neither begins nor ends within a CR LF. Where the texts differ in more than blanks, one last change
/// replaces all from the gap before the first such difference on. An error is an allocation failure; the time is linear in both texts.
///
/// From `{"a":1}` to `{ "a": 1 }` and the end of a line there are four: a space at 1, at 5 and at 6, and the end of the line at 7.
pub fn format_changes<'n, A: Allocator>(
    alloc: A,
    old: &str,
    formatted: &'n str,
) -> Result<Vec<TextChange<'n>, A>, AllocError>
    ensures { IfOk result (λ v. AreChanges old.now v.items formatted.now) }
{
    let mut changes = Vec::new(alloc);
    let mut from = 0;
    let mut at = 0;
    'gaps: loop {
        let end = blanks_end(old, from);
        let stop = blanks_end(formatted, at);
        let common = common_len(old, end, formatted, stop);
        if common == 0 {
            let last = Range::new(from, old.len());
            let written = Range::new(at, formatted.len());
            push_change(&mut changes, old, last, formatted, written)?;
            return Ok(changes);
        }
        let range = Range::new(from, end);
        let writes = Range::new(at, stop);
        push_change(&mut changes, old, range, formatted, writes)?;
        from = end + common;
        at = stop + common;
    }
}
