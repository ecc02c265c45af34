//! Values of JSON.
ghost use Rattle.std.specs.Prelude.{◌≡◌, ◌↔◌, [], length, IsTrue, IfOk, is_some, option_copied, slice_get};
ghost use Rattle.std.specs.Option.{option_and_then};
ghost use Rattle.std.specs.Map.{lookup, remove_entry};
ghost use Rattle.std.specs.Slice.Iter.{iter_rest};
ghost use Rattle.std.specs.Vec.Iter.{into_iter_items};
ghost use Rattle.jsonc_value.specs.Names.{is_named};
ghost use Rattle.jsonc_value.specs.Kinds.{properties, elements, left, as_string, as_number, as_boolean, as_object, as_array};

mod copies;

use crate::map::{self, Map};
use std::alloc::{AllocError, Allocator};
use std::borrow::CowStr;
use std::{slice, vec};

/// A JSON value.
#[cycle(json)]
#[derive(Drop)]
#[derive_where(Debug, PartialEq, Eq)]
pub enum JsonValue<'a, A: Allocator> {
    /// A string, with its escapes decoded.
    String(CowStr<'a, A>),
    /// The text of a number.
    Number(&'a str),
    Boolean(bool),
    Object(JsonObject<'a, A>),
    Array(JsonArray<'a, A>),
    Null,
}

/// An object: values by their names, in the order in which the names came.
#[cycle(json)]
#[derive(Drop)]
#[derive_where(Debug, PartialEq, Eq)]
pub struct JsonObject<'a, A: Allocator>(Map<CowStr<'a, A>, JsonValue<'a, A>, A>);

/// An array.
#[cycle(json)]
#[derive(Drop)]
#[derive_where(Debug, PartialEq, Eq)]
pub struct JsonArray<'a, A: Allocator>(Vec<JsonValue<'a, A>, A>);

impl<'a, A: Allocator + Copy> JsonObject<'a, A> {
    /// An object without properties, with room for this many.
    pub fn with_capacity(alloc: A, capacity: usize) -> Result<Self, AllocError>
        ensures { IfOk result (λ o. properties o ≡ []) }
    {
        Ok(JsonObject(Map::with_capacity(alloc, capacity)?))
    }
}

impl<'a, A: Allocator> JsonObject<'a, A> {
    /// An object of these properties.
    pub fn new(inner: Map<CowStr<'a, A>, JsonValue<'a, A>, A>) -> Self
        ensures { properties result ≡ inner.entry }
    {
        JsonObject(inner)
    }

    /// The map of its properties.
    pub fn take_inner(self) -> Map<CowStr<'a, A>, JsonValue<'a, A>, A>
        ensures { result ≡ properties self.entry }
    {
        let JsonObject(inner) = self;
        inner
    }

    /// The properties in their order, each as its name and its value.
    pub fn iter(&self) -> map::Iter<'_, CowStr<'a, A>, JsonValue<'a, A>>
        ensures { result ≡ properties self.now }
    {
        self.0.iter()
    }

    /// The number of properties.
    pub fn len(&self) -> usize
        ensures { result ≡ length (properties self.now) }
    {
        self.0.len()
    }

    /// Whether there are no properties.
    pub fn is_empty(&self) -> bool
        ensures { IsTrue result ↔ (length (properties self.now) ≡ 0) }
    {
        self.0.is_empty()
    }

    /// The value of this name.
    pub fn get(&self, name: &str) -> Option<&JsonValue<'a, A>>
        ensures { option_copied result ≡ lookup (is_named name.now) (properties self.now) }
    {
        self.0.get_named(name)
    }

    /// The value of this name, if it is a string.
    pub fn get_string(&self, name: &str) -> Option<&CowStr<'a, A>>
        ensures { option_copied result ≡ option_and_then as_string (lookup (is_named name.now) (properties self.now)) }
    {
        match self.0.get_named(name) {
            Some(JsonValue::String(string)) => Some(string),
            _ => None,
        }
    }

    /// The value of this name, if it is the text of a number.
    pub fn get_number(&self, name: &str) -> Option<&'a str>
        ensures { result ≡ option_and_then as_number (lookup (is_named name.now) (properties self.now)) }
    {
        match self.0.get_named(name) {
            Some(JsonValue::Number(number)) => Some(*number),
            _ => None,
        }
    }

    /// The value of this name, if it is a truth value.
    pub fn get_boolean(&self, name: &str) -> Option<bool>
        ensures { result ≡ option_and_then as_boolean (lookup (is_named name.now) (properties self.now)) }
    {
        match self.0.get_named(name) {
            Some(JsonValue::Boolean(boolean)) => Some(*boolean),
            _ => None,
        }
    }

    /// The value of this name, if it is an object.
    pub fn get_object(&self, name: &str) -> Option<&JsonObject<'a, A>>
        ensures { option_copied result ≡ option_and_then as_object (lookup (is_named name.now) (properties self.now)) }
    {
        match self.0.get_named(name) {
            Some(JsonValue::Object(object)) => Some(object),
            _ => None,
        }
    }

    /// The value of this name, if it is an array.
    pub fn get_array(&self, name: &str) -> Option<&JsonArray<'a, A>>
        ensures { option_copied result ≡ option_and_then as_array (lookup (is_named name.now) (properties self.now)) }
    {
        match self.0.get_named(name) {
            Some(JsonValue::Array(array)) => Some(array),
            _ => None,
        }
    }

    /// Removes this name, and answers its value. The properties after it close up.
    pub fn take(&mut self, name: &str) -> Option<JsonValue<'a, A>>
        ensures value { result ≡ lookup (is_named name.now) (properties self.old) }
        ensures entries { properties self.new ≡ remove_entry (is_named name.now) (properties self.old) }
    {
        match self.0.remove_named(name) {
            Some((_, value)) => Some(value),
            None => None,
        }
    }

    /// Removes this name if its value is a string, and answers that. Else nothing changes.
    pub fn take_string(&mut self, name: &str) -> Option<CowStr<'a, A>>
        ensures value { result ≡ option_and_then as_string (lookup (is_named name.now) (properties self.old)) }
        ensures entries { properties self.new ≡ left (is_some result) name.now (properties self.old) }
    {
        if self.get_string(name).is_none() {
            return None;
        }
        match self.take(name) {
            Some(JsonValue::String(taken)) => Some(taken),
            _ => None,
        }
    }

    /// Removes this name if its value is the text of a number, and answers that. Else nothing
    /// changes.
    pub fn take_number(&mut self, name: &str) -> Option<&'a str>
        ensures value { result ≡ option_and_then as_number (lookup (is_named name.now) (properties self.old)) }
        ensures entries { properties self.new ≡ left (is_some result) name.now (properties self.old) }
    {
        let found = self.get_number(name);
        if found.is_some() {
            drop(self.take(name));
        }
        found
    }

    /// Removes this name if its value is a truth value, and answers that. Else nothing changes.
    pub fn take_boolean(&mut self, name: &str) -> Option<bool>
        ensures value { result ≡ option_and_then as_boolean (lookup (is_named name.now) (properties self.old)) }
        ensures entries { properties self.new ≡ left (is_some result) name.now (properties self.old) }
    {
        let found = self.get_boolean(name);
        if found.is_some() {
            drop(self.take(name));
        }
        found
    }

    /// Removes this name if its value is an object, and answers that. Else nothing changes.
    pub fn take_object(&mut self, name: &str) -> Option<JsonObject<'a, A>>
        ensures value { result ≡ option_and_then as_object (lookup (is_named name.now) (properties self.old)) }
        ensures entries { properties self.new ≡ left (is_some result) name.now (properties self.old) }
    {
        if self.get_object(name).is_none() {
            return None;
        }
        match self.take(name) {
            Some(JsonValue::Object(taken)) => Some(taken),
            _ => None,
        }
    }

    /// Removes this name if its value is an array, and answers that. Else nothing changes.
    pub fn take_array(&mut self, name: &str) -> Option<JsonArray<'a, A>>
        ensures value { result ≡ option_and_then as_array (lookup (is_named name.now) (properties self.old)) }
        ensures entries { properties self.new ≡ left (is_some result) name.now (properties self.old) }
    {
        if self.get_array(name).is_none() {
            return None;
        }
        match self.take(name) {
            Some(JsonValue::Array(taken)) => Some(taken),
            _ => None,
        }
    }
}

impl<'a, A: Allocator> From<Map<CowStr<'a, A>, JsonValue<'a, A>, A>> for JsonObject<'a, A> {
    ghost from_gives = { λ inner o. properties o ≡ inner };

    fn from(inner: Map<CowStr<'a, A>, JsonValue<'a, A>, A>) -> Self {
        JsonObject::new(inner)
    }
}

impl<'a, A: Allocator> IntoIterator for JsonObject<'a, A> {
    type Item = (CowStr<'a, A>, JsonValue<'a, A>);

    type IntoIter = map::IntoIter<CowStr<'a, A>, JsonValue<'a, A>, A>;

    ghost into_iter_gives = { λ o r. r ≡ properties o };

    fn into_iter(self) -> Self::IntoIter {
        let properties = self.take_inner();
        properties.into_iter()
    }
}

impl<'b, 'a, A: Allocator> IntoIterator for &'b JsonObject<'a, A> {
    type Item = (&'b CowStr<'a, A>, &'b JsonValue<'a, A>);

    type IntoIter = map::Iter<'b, CowStr<'a, A>, JsonValue<'a, A>>;

    ghost into_iter_gives = { λ o r. r ≡ properties o.now };

    fn into_iter(self) -> Self::IntoIter {
        JsonObject::iter(self)
    }
}

impl<'a, A: Allocator> JsonArray<'a, A> {
    /// An array of these elements.
    pub fn new(inner: Vec<JsonValue<'a, A>, A>) -> Self
        ensures { elements result ≡ inner.entry.items }
    {
        JsonArray(inner)
    }

    /// The vector of its elements.
    pub fn take_inner(self) -> Vec<JsonValue<'a, A>, A>
        ensures { result.items ≡ elements self.entry }
    {
        let JsonArray(inner) = self;
        inner
    }

    /// The elements, in their order.
    pub fn iter(&self) -> slice::Iter<'_, JsonValue<'a, A>>
        ensures { iter_rest result ≡ elements self.now }
    {
        self.0.as_slice().iter()
    }

    /// The element at this place, counted from 0.
    pub fn get(&self, index: usize) -> Option<&JsonValue<'a, A>>
        ensures { option_copied result ≡ slice_get (elements self.now) index }
    {
        self.0.as_slice().get(index)
    }

    /// The number of elements.
    pub fn len(&self) -> usize
        ensures { result ≡ length (elements self.now) }
    {
        self.0.len()
    }

    /// Whether there are no elements.
    pub fn is_empty(&self) -> bool
        ensures { IsTrue result ↔ (length (elements self.now) ≡ 0) }
    {
        self.0.len() == 0
    }
}

impl<'a, A: Allocator> From<Vec<JsonValue<'a, A>, A>> for JsonArray<'a, A> {
    ghost from_gives = { λ inner a. elements a ≡ inner.items };

    fn from(inner: Vec<JsonValue<'a, A>, A>) -> Self {
        JsonArray::new(inner)
    }
}

impl<'a, A: Allocator> IntoIterator for JsonArray<'a, A> {
    type Item = JsonValue<'a, A>;

    type IntoIter = vec::IntoIter<JsonValue<'a, A>, A>;

    ghost into_iter_gives = { λ a r. into_iter_items r ≡ elements a };

    fn into_iter(self) -> Self::IntoIter {
        let elements = self.take_inner();
        elements.into_iter()
    }
}

impl<'b, 'a, A: Allocator> IntoIterator for &'b JsonArray<'a, A> {
    type Item = &'b JsonValue<'a, A>;

    type IntoIter = slice::Iter<'b, JsonValue<'a, A>>;

    ghost into_iter_gives = { λ a r. iter_rest r ≡ elements a.now };

    fn into_iter(self) -> Self::IntoIter {
        self.iter()
    }
}
