//! What is read of an object in a view.
ghost use Rattle.std.specs.Prelude.{ℕ, ◌≡◌, ◌<◌, ◌↔◌, IfSome, List, length, chars, option_map, slice_get, IsTrue};
ghost use Rattle.std.specs.Str.{bytes_eq};
ghost use Rattle.jsonc_text.specs.Plain.{Members};
ghost use Rattle.jsonc_view.specs.Iter.{properties_left};
ghost use Rattle.jsonc_view.specs.Lists.{pairs_of};
ghost use Rattle.jsonc_view.specs.Shown.{ShowsMembers, ShowsName};
ghost use Rattle.jsonc_view.specs.Views.{last_named, plain, properties, value_there};

use crate::rows::{Member, Rows};
use crate::view::iter::ViewProperties;
use crate::view::places::name_at;
use crate::view::values::value_at;
use crate::view::{ViewObject, ViewValue};
use std::alloc::Allocator;

// Whether a member has this name.
fn is_named<'v, 'a, A: Allocator>(rows: &'v Rows<'a, A>, member: &Member, name: &str) -> bool
    requires { (t : List ℕ) × ShowsName rows.now member.now.name t }
    ensures { (t : List ℕ) → ShowsName rows.now member.now.name t → result ≡ bytes_eq (chars name.now) t }
{
    name == name_at(rows, member.name)
}

// The place of the last member of this name.
fn place_of<'v, 'a, A: Allocator>(
    rows: &'v Rows<'a, A>,
    members: &'v [Member],
    name: &str,
) -> Option<usize>
    requires { (ms : Members) × ShowsMembers rows.now members.now ms }
    ensures place { IfSome result (λ i. i < length members.now) }
    ensures last { (ms : Members) → ShowsMembers rows.now members.now ms → value_there ms result ≡ last_named (chars name.now) (pairs_of ms) }
{
    let count = members.len();
    for behind in 0..count {
        let place = count - 1 - behind;
        if is_named(rows, &members[place], name) {
            return Some(place);
        }
    }
    None
}

impl<'v, 'a, A: Allocator> ViewObject<'v, 'a, A> {
    /// The number of properties: of several with one name each counts.
    pub fn len(&self) -> usize
        ensures { result ≡ length (properties self.now) }
    {
        self.members.len()
    }

    /// Whether there are no properties.
    pub fn is_empty(&self) -> bool
        ensures { IsTrue result ↔ (length (properties self.now) ≡ 0) }
    {
        self.len() == 0
    }

    /// The properties, in their order, each as its name and its value: of several with one name each.
    pub fn iter(&self) -> ViewProperties<'v, 'a, A>
        ensures { properties_left result ≡ properties self.now }
    {
        ViewProperties {
            rows: self.rows,
            rest: self.members,
        }
    }

    /// The name and the value of the property at this place, counted from 0, if there is one.
    pub fn get_index(&self, index: usize) -> Option<(&'v str, ViewValue<'v, 'a, A>)>
        ensures { option_map (λ p. (chars p.0.now, plain p.1)) result ≡ slice_get (properties self.now) index }
    {
        let members = self.members;
        let count = members.len();
        if index >= count {
            return None;
        }
        let name = name_at(self.rows, members[index].name);
        Some((name, value_at(self.rows, members[index].value)))
    }

    /// The value of this name: of several properties with the name that of the last.
    pub fn get(&self, name: &str) -> Option<ViewValue<'v, 'a, A>>
        ensures { option_map plain result ≡ last_named (chars name.now) (properties self.now) }
    {
        let members = self.members;
        match place_of(self.rows, members, name) {
            Some(place) => Some(value_at(self.rows, members[place].value)),
            None => None,
        }
    }
}
