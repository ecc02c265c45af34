//! A value of a text, read by its places.
ghost use Rattle.std.specs.Prelude.{Option};
ghost use Rattle.jsonc_text.specs.Plain.{Plain, Items, Members};
ghost use Rattle.jsonc_view.specs.Shown.{ShowsItems, ShowsMembers, ShowsRoot};
ghost use Rattle.jsonc_view.specs.Unique.{shown_items_prop, shown_members_prop, shown_root_prop};

mod array;
mod iter;
mod object;
mod places;
mod root;
mod to_value;
mod values;

use crate::rows::{Member, Row, Rows};
pub use iter::{ViewElements, ViewProperties};
use std::alloc::Allocator;

/// The value of a text, read by its places there.
#[derive(Drop)]
pub struct JsonView<'a, A: Allocator> {
    rows: Rows<'a, A>,
    root: Option<Row>,
    pub ghost shown: { (v : Option Plain) × ShowsRoot rows root v } by { shown_root_prop rows root },
}

/// An object in a view.
#[derive(Drop)]
pub struct ViewObject<'v, 'a, A: Allocator> {
    rows: &'v Rows<'a, A>,
    members: &'v [Member],
    pub ghost shown: { (ms : Members) × ShowsMembers rows.now members.now ms } by { shown_members_prop rows.now members.now },
}

/// An array in a view.
#[derive(Drop)]
pub struct ViewArray<'v, 'a, A: Allocator> {
    rows: &'v Rows<'a, A>,
    elements: &'v [Row],
    pub ghost shown: { (vs : Items) × ShowsItems rows.now elements.now vs } by { shown_items_prop rows.now elements.now },
}

/// A value in a view.
#[derive(Drop)]
pub enum ViewValue<'v, 'a, A: Allocator> {
    /// A string, with its escapes decoded.
    String(&'v str),
    /// The text of a number.
    Number(&'v str),
    Boolean(bool),
    Object(ViewObject<'v, 'a, A>),
    Array(ViewArray<'v, 'a, A>),
    Null,
}
