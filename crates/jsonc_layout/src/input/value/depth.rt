//! How deep what is in a value is nested.
ghost use Rattle.std.specs.Prelude.{◌≡◌, ◌≤◌, ◌↔◌, true};
ghost use Rattle.jsonc_text.specs.Plain.{around, items_around, members_around};
ghost use Rattle.jsonc_layout.specs.input.Views.{plain, items_plain, members_plain};

use super::CstInputValue;
use std::alloc::Allocator;

impl<A: Allocator> CstInputValue<A> {
    /// Whether no more containers and properties than the limit are around any value in it: an array
    /// is one around its elements, an object two with the property. It goes no deeper than the limit.
    #[cycle(within)]
    pub fn is_within(&self, limit: usize) -> bool
        ensures { (result ≡ true) ↔ around (plain self.now) ≤ limit }
    {
        match self {
            CstInputValue::Array(elements) => elements_are_within(elements.as_slice(), limit),
            CstInputValue::Object(properties) => {
                properties_are_within(properties.as_slice(), limit)
            }
            _ => true,
        }
    }
}

// Whether it is so of an array of these elements.
#[cycle(within)]
fn elements_are_within<A: Allocator>(elements: &[CstInputValue<A>], limit: usize) -> bool
    ensures { (result ≡ true) ↔ items_around (items_plain elements.now) ≤ limit }
{
    if limit < 1 {
        return elements.is_empty();
    }
    for element in elements {
        if !element.is_within(limit - 1) {
            return false;
        }
    }
    true
}

// Whether it is so of an object of these properties.
#[cycle(within)]
fn properties_are_within<A: Allocator>(
    properties: &[(String<A>, CstInputValue<A>)],
    limit: usize,
) -> bool
    ensures { (result ≡ true) ↔ members_around (members_plain properties.now) ≤ limit }
{
    if limit < 2 {
        return properties.is_empty();
    }
    for property in properties {
        if !property.1.is_within(limit - 2) {
            return false;
        }
    }
    true
}
