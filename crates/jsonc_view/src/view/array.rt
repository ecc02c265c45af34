//! What is read of an array in a view.
ghost use Rattle.std.specs.Prelude.{◌≡◌, ◌↔◌, length, option_map, slice_get, IsTrue};
ghost use Rattle.jsonc_view.specs.Iter.{elements_left};
ghost use Rattle.jsonc_view.specs.Views.{elements, plain};

use crate::view::iter::ViewElements;
use crate::view::values::value_at;
use crate::view::{ViewArray, ViewValue};
use std::alloc::Allocator;

impl<'v, 'a, A: Allocator> ViewArray<'v, 'a, A> {
    /// The number of elements.
    pub fn len(&self) -> usize
        ensures { result ≡ length (elements self.now) }
    {
        self.elements.len()
    }

    /// Whether there are no elements.
    pub fn is_empty(&self) -> bool
        ensures { IsTrue result ↔ (length (elements self.now) ≡ 0) }
    {
        self.len() == 0
    }

    /// The elements, in their order.
    pub fn iter(&self) -> ViewElements<'v, 'a, A>
        ensures { elements_left result ≡ elements self.now }
    {
        ViewElements {
            rows: self.rows,
            rest: self.elements,
        }
    }

    /// The element at this place, counted from 0, if there is one.
    pub fn get(&self, index: usize) -> Option<ViewValue<'v, 'a, A>>
        ensures { option_map plain result ≡ slice_get (elements self.now) index }
    {
        let elements = self.elements;
        let count = elements.len();
        if index >= count {
            return None;
        }
        Some(value_at(self.rows, elements[index]))
    }
}
