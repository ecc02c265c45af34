//! Names of a few properties, compared in line.
ghost use Rattle.std.specs.Prelude.{◌≡◌, IsTrue, false};
ghost use Rattle.std.specs.List.{list_any, IsDistinct};
ghost use Rattle.std.specs.Map.{keys_of};
ghost use Rattle.jsonc_value.specs.to_value.Views.{same_name};

use crate::JsonValue;
use crate::map::FEW;
use std::alloc::Allocator;
use std::borrow::CowStr;

/// Whether two names may be the same: they are as long, and begin alike. This tells most names apart without a call.
#[inline(always)]
fn may_be_same<'a, A: Allocator>(name: &CowStr<'a, A>, other: &CowStr<'a, A>) -> bool
    ensures { result ≡ false → same_name name.now other.now ≡ false }
{
    let name = name.as_str().as_bytes();
    let other = other.as_str().as_bytes();
    if name.len() != other.len() {
        return false;
    }
    if name.is_empty() {
        return true;
    }
    name[0] == other[0]
}

/// Whether two names are the same.
#[inline(always)]
fn same_names<'a, A: Allocator>(name: &CowStr<'a, A>, other: &CowStr<'a, A>) -> bool
    ensures { result ≡ same_name name.now other.now }
{
    if may_be_same(name, other) {
        return name == other;
    }
    false
}

/// Whether no property has this name.
#[inline(always)]
fn lacks_name<'a, A: Allocator>(
    properties: &[(CowStr<'a, A>, JsonValue<'a, A>)],
    name: &CowStr<'a, A>,
) -> bool
    ensures { IsTrue result → list_any (same_name name.now) (keys_of properties.now) ≡ false }
{
    for place in 0..properties.len() {
        if same_names(name, &properties[place].0) {
            return false;
        }
    }
    true
}

/// Whether these are few properties, no two of which have the same name.
#[inline(always)]
pub(crate) fn are_few_distinct<'a, A: Allocator>(
    properties: &[(CowStr<'a, A>, JsonValue<'a, A>)],
) -> bool
    ensures { IsTrue result → IsDistinct same_name (keys_of properties.now) }
{
    if properties.len() > FEW {
        return false;
    }
    for place in 0..properties.len() {
        if !lacks_name(&properties[..place], &properties[place].0) {
            return false;
        }
    }
    true
}
