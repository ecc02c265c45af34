//! Values by their kind, and properties by their names.
ghost use Rattle.std.specs.Prelude.{◌≡◌, is_some, option_copied, true};
ghost use Rattle.std.specs.List.{position};
ghost use Rattle.std.specs.Option.{option_and_then};
ghost use Rattle.jsonc_ast.specs.Access.{as_string_lit, as_number_lit, as_boolean_lit, as_object, as_array, as_null_keyword, is_named, properties, range_of, first_named, value_named, left};

use super::{Array, BooleanLit, NullKeyword, NumberLit, Object, ObjectProp, StringLit, Value};
use std::alloc::Allocator;

impl<'a, A: Allocator> Value<'a, A> {
    /// The string, if it is one.
    pub fn as_string_lit(&self) -> Option<&StringLit<'a, A>>
        ensures { option_copied result ≡ as_string_lit self.now }
    {
        match self {
            Value::StringLit(string) => Some(string),
            _ => None,
        }
    }

    /// The number, if it is one.
    pub fn as_number_lit(&self) -> Option<&NumberLit<'a>>
        ensures { option_copied result ≡ as_number_lit self.now }
    {
        match self {
            Value::NumberLit(number) => Some(number),
            _ => None,
        }
    }

    /// The truth value, if it is one.
    pub fn as_boolean_lit(&self) -> Option<&BooleanLit>
        ensures { option_copied result ≡ as_boolean_lit self.now }
    {
        match self {
            Value::BooleanLit(boolean) => Some(boolean),
            _ => None,
        }
    }

    /// The object, if it is one.
    pub fn as_object(&self) -> Option<&Object<'a, A>>
        ensures { option_copied result ≡ as_object self.now }
    {
        match self {
            Value::Object(object) => Some(object),
            _ => None,
        }
    }

    /// The array, if it is one.
    pub fn as_array(&self) -> Option<&Array<'a, A>>
        ensures { option_copied result ≡ as_array self.now }
    {
        match self {
            Value::Array(array) => Some(array),
            _ => None,
        }
    }

    /// The `null`, if it is one.
    pub fn as_null_keyword(&self) -> Option<&NullKeyword>
        ensures { option_copied result ≡ as_null_keyword self.now }
    {
        match self {
            Value::NullKeyword(null) => Some(null),
            _ => None,
        }
    }

    // What it holds, if it is a string.
    fn into_string_lit(self) -> Option<StringLit<'a, A>>
        ensures { result ≡ as_string_lit self.entry }
    {
        let Value::StringLit(string) = self else {
            return None;
        };
        Some(string)
    }

    // What it holds, if it is a number.
    fn into_number_lit(self) -> Option<NumberLit<'a>>
        ensures { result ≡ as_number_lit self.entry }
    {
        let Value::NumberLit(number) = self else {
            return None;
        };
        Some(number)
    }

    // What it holds, if it is a truth value.
    fn into_boolean_lit(self) -> Option<BooleanLit>
        ensures { result ≡ as_boolean_lit self.entry }
    {
        let Value::BooleanLit(boolean) = self else {
            return None;
        };
        Some(boolean)
    }

    // What it holds, if it is an object.
    fn into_object(self) -> Option<Object<'a, A>>
        ensures { result ≡ as_object self.entry }
    {
        let Value::Object(object) = self else {
            return None;
        };
        Some(object)
    }

    // What it holds, if it is an array.
    fn into_array(self) -> Option<Array<'a, A>>
        ensures { result ≡ as_array self.entry }
    {
        let Value::Array(array) = self else {
            return None;
        };
        Some(array)
    }
}

impl<'a, A: Allocator> Object<'a, A> {
    // The place of the first property of this name.
    fn place(&self, name: &str) -> Option<usize>
        ensures { result ≡ position (is_named name.now) (properties self.now) }
    {
        self.properties
            .iter()
            .position(|property| name == property.name.as_str())
    }

    /// The first property of this name.
    pub fn get(&self, name: &str) -> Option<&ObjectProp<'a, A>>
        ensures { option_copied result ≡ first_named name.now self.now }
    {
        self.properties
            .iter()
            .find(|property| name == property.name.as_str())
    }

    /// The value of the first property of this name, if it is a string.
    pub fn get_string(&self, name: &str) -> Option<&StringLit<'a, A>>
        ensures { option_copied result ≡ option_and_then as_string_lit (value_named name.now self.now) }
    {
        match self.get(name) {
            Some(property) => property.value.as_string_lit(),
            None => None,
        }
    }

    /// The value of the first property of this name, if it is a number.
    pub fn get_number(&self, name: &str) -> Option<&NumberLit<'a>>
        ensures { option_copied result ≡ option_and_then as_number_lit (value_named name.now self.now) }
    {
        match self.get(name) {
            Some(property) => property.value.as_number_lit(),
            None => None,
        }
    }

    /// The value of the first property of this name, if it is a truth value.
    pub fn get_boolean(&self, name: &str) -> Option<&BooleanLit>
        ensures { option_copied result ≡ option_and_then as_boolean_lit (value_named name.now self.now) }
    {
        match self.get(name) {
            Some(property) => property.value.as_boolean_lit(),
            None => None,
        }
    }

    /// The value of the first property of this name, if it is an object.
    pub fn get_object(&self, name: &str) -> Option<&Object<'a, A>>
        ensures { option_copied result ≡ option_and_then as_object (value_named name.now self.now) }
    {
        match self.get(name) {
            Some(property) => property.value.as_object(),
            None => None,
        }
    }

    /// The value of the first property of this name, if it is an array.
    pub fn get_array(&self, name: &str) -> Option<&Array<'a, A>>
        ensures { option_copied result ≡ option_and_then as_array (value_named name.now self.now) }
    {
        match self.get(name) {
            Some(property) => property.value.as_array(),
            None => None,
        }
    }

    /// Removes the first property of this name, and answers it. The properties after it close up.
    pub fn take(&mut self, name: &str) -> Option<ObjectProp<'a, A>>
        ensures property { result ≡ first_named name.now self.old }
        ensures left { properties self.new ≡ left true name.now self.old }
        ensures range { range_of self.new ≡ range_of self.old }
    {
        match self.place(name) {
            Some(place) => Some(self.properties.remove(place)),
            None => None,
        }
    }

    /// Removes the first property of this name if its value is a string, and answers that value.
    ///
    /// Else nothing changes.
    pub fn take_string(&mut self, name: &str) -> Option<StringLit<'a, A>>
        ensures value { result ≡ option_and_then as_string_lit (value_named name.now self.old) }
        ensures left { properties self.new ≡ left (is_some result) name.now self.old }
        ensures range { range_of self.new ≡ range_of self.old }
    {
        if self.get_string(name).is_none() {
            return None;
        }
        match self.take(name) {
            Some(property) => property.value.into_string_lit(),
            None => None,
        }
    }

    /// Removes the first property of this name if its value is a number, and answers that value.
    ///
    /// Else nothing changes.
    pub fn take_number(&mut self, name: &str) -> Option<NumberLit<'a>>
        ensures value { result ≡ option_and_then as_number_lit (value_named name.now self.old) }
        ensures left { properties self.new ≡ left (is_some result) name.now self.old }
        ensures range { range_of self.new ≡ range_of self.old }
    {
        if self.get_number(name).is_none() {
            return None;
        }
        match self.take(name) {
            Some(property) => property.value.into_number_lit(),
            None => None,
        }
    }

    /// Removes the first property of this name if its value is a truth value, and answers that
    /// value.
    ///
    /// Else nothing changes.
    pub fn take_boolean(&mut self, name: &str) -> Option<BooleanLit>
        ensures value { result ≡ option_and_then as_boolean_lit (value_named name.now self.old) }
        ensures left { properties self.new ≡ left (is_some result) name.now self.old }
        ensures range { range_of self.new ≡ range_of self.old }
    {
        if self.get_boolean(name).is_none() {
            return None;
        }
        match self.take(name) {
            Some(property) => property.value.into_boolean_lit(),
            None => None,
        }
    }

    /// Removes the first property of this name if its value is an object, and answers that value.
    ///
    /// Else nothing changes.
    pub fn take_object(&mut self, name: &str) -> Option<Object<'a, A>>
        ensures value { result ≡ option_and_then as_object (value_named name.now self.old) }
        ensures left { properties self.new ≡ left (is_some result) name.now self.old }
        ensures range { range_of self.new ≡ range_of self.old }
    {
        if self.get_object(name).is_none() {
            return None;
        }
        match self.take(name) {
            Some(property) => property.value.into_object(),
            None => None,
        }
    }

    /// Removes the first property of this name if its value is an array, and answers that value.
    ///
    /// Else nothing changes.
    pub fn take_array(&mut self, name: &str) -> Option<Array<'a, A>>
        ensures value { result ≡ option_and_then as_array (value_named name.now self.old) }
        ensures left { properties self.new ≡ left (is_some result) name.now self.old }
        ensures range { range_of self.new ≡ range_of self.old }
    {
        if self.get_array(name).is_none() {
            return None;
        }
        match self.take(name) {
            Some(property) => property.value.into_array(),
            None => None,
        }
    }
}
