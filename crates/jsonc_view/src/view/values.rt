//! The values of rows.
ghost use Rattle.std.specs.Prelude.{◌≡◌};
ghost use Rattle.jsonc_text.specs.Plain.{Plain, Items, Members, array, object};
ghost use Rattle.jsonc_view.specs.declared.rows.Row.TheVariants.{Array, Object};
ghost use Rattle.jsonc_view.specs.Shown.{Shows, ShowsItems, ShowsMembers};
ghost use Rattle.jsonc_view.specs.Views.{plain};

use crate::rows::{Member, Row, Rows, Span};
use crate::view::places::{decoded_at, items_in, text_at};
use crate::view::{ViewArray, ViewObject, ViewValue};
use std::alloc::Allocator;

// The object of these members.
fn object_of<'v, 'a, A: Allocator>(
    rows: &'v Rows<'a, A>,
    members: &'v [Member],
) -> ViewObject<'v, 'a, A>
    requires { (ms : Members) × ShowsMembers rows.now members.now ms }
    ensures { (ms : Members) → ShowsMembers rows.now members.now ms → result.shown.0 ≡ ms }
{
    ViewObject { rows, members }
}

// The array of these elements.
fn array_of<'v, 'a, A: Allocator>(
    rows: &'v Rows<'a, A>,
    elements: &'v [Row],
) -> ViewArray<'v, 'a, A>
    requires { (vs : Items) × ShowsItems rows.now elements.now vs }
    ensures { (vs : Items) → ShowsItems rows.now elements.now vs → result.shown.0 ≡ vs }
{
    ViewArray { rows, elements }
}

// The object whose members stand there.
fn object_at<'v, 'a, A: Allocator>(rows: &'v Rows<'a, A>, span: Span) -> ViewObject<'v, 'a, A>
    requires { (ms : Members) × Shows rows.now (Object span) (object ms) }
    ensures { (ms : Members) → Shows rows.now (Object span) (object ms) → result.shown.0 ≡ ms }
{
    let members = rows.members.as_slice();
    object_of(rows, items_in(members, span))
}

// The array whose elements stand there.
fn array_at<'v, 'a, A: Allocator>(rows: &'v Rows<'a, A>, span: Span) -> ViewArray<'v, 'a, A>
    requires { (vs : Items) × Shows rows.now (Array span) (array vs) }
    ensures { (vs : Items) → Shows rows.now (Array span) (array vs) → result.shown.0 ≡ vs }
{
    let elements = rows.elements.as_slice();
    array_of(rows, items_in(elements, span))
}

/// The value of a row.
pub(super) fn value_at<'v, 'a, A: Allocator>(
    rows: &'v Rows<'a, A>,
    row: Row,
) -> ViewValue<'v, 'a, A>
    requires { (p : Plain) × Shows rows.now row p }
    ensures { (p : Plain) → Shows rows.now row p → plain result ≡ p }
{
    match row {
        Row::Lent(span) => ViewValue::String(text_at(rows, span)),
        Row::Decoded(number) => ViewValue::String(decoded_at(rows, number)),
        Row::Number(span) => ViewValue::Number(text_at(rows, span)),
        Row::Boolean(boolean) => ViewValue::Boolean(boolean),
        Row::Object(span) => ViewValue::Object(object_at(rows, span)),
        Row::Array(span) => ViewValue::Array(array_at(rows, span)),
        Row::Null => ViewValue::Null,
    }
}
