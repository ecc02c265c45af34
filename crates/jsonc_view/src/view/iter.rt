//! Going over what a container in a view has.
ghost use Rattle.jsonc_text.specs.Plain.{Items, Members};
ghost use Rattle.jsonc_view.specs.Shown.{ShowsItems, ShowsMembers};
ghost use Rattle.jsonc_view.specs.Unique.{shown_items_prop, shown_members_prop};

use crate::rows::{Member, Row, Rows};
use crate::view::ViewValue;
use crate::view::places::name_at;
use crate::view::values::value_at;
use std::alloc::Allocator;

/// The elements of an array, in their order.
#[derive(Drop)]
pub struct ViewElements<'v, 'a, A: Allocator> {
    pub(super) rows: &'v Rows<'a, A>,
    pub(super) rest: &'v [Row],
    pub ghost shown: { (vs : Items) × ShowsItems rows.now rest.now vs } by { shown_items_prop rows.now rest.now },
}

impl<'v, 'a, A: Allocator> Iterator for ViewElements<'v, 'a, A> {
    ghost use Rattle.std.specs.Iterator.{YieldsFirstBy, item_count};
    ghost use Rattle.jsonc_view.specs.Iter.{elements_left};
    ghost use Rattle.jsonc_view.specs.Views.{plain};

    type Item = ViewValue<'v, 'a, A>;

    ghost next_gives = { YieldsFirstBy plain elements_left };

    ghost remaining = { item_count elements_left };

    fn next(&mut self) -> Option<ViewValue<'v, 'a, A>> {
        let rows = self.rows;
        let rest = self.rest;
        let count = rest.len();
        if count == 0 {
            return None;
        }
        self.rest = &rest[1..];
        Some(value_at(rows, rest[0]))
    }
}

/// The properties of an object, in their order, each as its name and its value.
#[derive(Drop)]
pub struct ViewProperties<'v, 'a, A: Allocator> {
    pub(super) rows: &'v Rows<'a, A>,
    pub(super) rest: &'v [Member],
    pub ghost shown: { (ms : Members) × ShowsMembers rows.now rest.now ms } by { shown_members_prop rows.now rest.now },
}

impl<'v, 'a, A: Allocator> Iterator for ViewProperties<'v, 'a, A> {
    ghost use Rattle.std.specs.Iterator.{YieldsFirstBy, item_count};
    ghost use Rattle.jsonc_view.specs.Iter.{named, properties_left};

    type Item = (&'v str, ViewValue<'v, 'a, A>);

    ghost next_gives = { YieldsFirstBy named properties_left };

    ghost remaining = { item_count properties_left };

    fn next(&mut self) -> Option<(&'v str, ViewValue<'v, 'a, A>)> {
        let rows = self.rows;
        let rest = self.rest;
        let count = rest.len();
        if count == 0 {
            return None;
        }
        self.rest = &rest[1..];
        let name = name_at(rows, rest[0].name);
        Some((name, value_at(rows, rest[0].value)))
    }
}
