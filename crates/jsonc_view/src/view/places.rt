//! What stands at places of a text and of its rows.
ghost use Rattle.std.specs.Prelude.{ℕ, ◌≡◌, List, chars, slice_range};
ghost use Rattle.jsonc_text.specs.Text.{Spans};
ghost use Rattle.jsonc_view.specs.Shown.{IsWithin, ShowsName, Stands, WasDecoded};

use crate::rows::{Name, Rows, Span};
use std::alloc::Allocator;

// The text from one place to another.
fn part_of<'a>(text: &'a str, span: Span) -> &'a str
    requires { Spans text.now span.start span.end }
    ensures { result.now ≡ slice_range text.now span.start span.end }
{
    &text[span.start as usize..span.end as usize]
}

/// The items from one place to another.
pub(super) fn items_in<'v, T>(items: &'v [T], span: Span) -> &'v [T]
    requires { IsWithin span items.now }
    ensures { result.now ≡ slice_range items.now span.start span.end }
{
    &items[span.start as usize..span.end as usize]
}

/// The text that stands there.
pub(super) fn text_at<'v, 'a, A: Allocator>(rows: &'v Rows<'a, A>, span: Span) -> &'v str
    requires { (t : List ℕ) × Stands rows.now span t }
    ensures { (t : List ℕ) → Stands rows.now span t → chars result.now ≡ t }
{
    part_of(rows.text, span)
}

/// The string of this number.
pub(super) fn decoded_at<'v, 'a, A: Allocator>(rows: &'v Rows<'a, A>, number: u32) -> &'v str
    requires { (t : List ℕ) × WasDecoded rows.now number t }
    ensures { (t : List ℕ) → WasDecoded rows.now number t → chars result.now ≡ t }
{
    let decoded = rows.decoded.as_slice();
    let number = number as usize;
    decoded[number].as_str()
}

/// The characters of a name.
pub(super) fn name_at<'v, 'a, A: Allocator>(rows: &'v Rows<'a, A>, name: Name) -> &'v str
    requires { (t : List ℕ) × ShowsName rows.now name t }
    ensures { (t : List ℕ) → ShowsName rows.now name t → chars result.now ≡ t }
{
    match name {
        Name::Lent(span) => text_at(rows, span),
        Name::Decoded(number) => decoded_at(rows, number),
    }
}
