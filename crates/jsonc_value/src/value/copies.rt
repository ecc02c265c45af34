//! Copies of values.
ghost use Rattle.std.specs.Prelude.{◌≡◌, ◌≢◌, [], IfOk, OnErr, map};
ghost use Rattle.jsonc_value.specs.Contents.{content, named_contents, object_content, array_content};
ghost use Rattle.jsonc_value.specs.Copies.{TakesMemory};
ghost use Rattle.jsonc_value.specs.Kinds.{elements, properties};

use super::{JsonArray, JsonObject, JsonValue};
use crate::map::Map;
use std::alloc::{AllocError, Allocator};
use std::borrow::CowStr;

impl<'a, A: Allocator + Copy> JsonValue<'a, A> {
    /// A copy of the value. Its properties are in the same order. Only a string that owns its text, and what is
    /// in arrays and objects, takes memory.
    #[cycle(copy)]
    pub fn try_clone(&self) -> Result<Self, AllocError>
        ensures value { IfOk result (λ v. content v ≡ content self.now) }
        ensures memory { OnErr result (TakesMemory self.now) }
    {
        match self {
            JsonValue::String(CowStr::Borrowed(text)) => {
                Ok(JsonValue::String(CowStr::Borrowed(*text)))
            }
            JsonValue::String(CowStr::Owned(text)) => {
                Ok(JsonValue::String(CowStr::Owned(text.clone()?)))
            }
            JsonValue::Number(number) => Ok(JsonValue::Number(*number)),
            JsonValue::Boolean(boolean) => Ok(JsonValue::Boolean(*boolean)),
            JsonValue::Object(object) => Ok(JsonValue::Object(object.try_clone()?)),
            JsonValue::Array(array) => Ok(JsonValue::Array(array.try_clone()?)),
            JsonValue::Null => Ok(JsonValue::Null),
        }
    }
}

impl<'a, A: Allocator + Copy> JsonObject<'a, A> {
    /// A copy of the object. Its properties are in the same order.
    #[cycle(copy)]
    pub fn try_clone(&self) -> Result<Self, AllocError>
        ensures value { IfOk result (λ o. object_content o ≡ object_content self.now) }
        ensures memory { OnErr result (properties self.now ≢ []) }
    {
        if self.0.is_empty() {
            return Ok(JsonObject(Map::new(*self.0.allocator())));
        }
        let copies = copy_pairs(*self.0.allocator(), self.0.pairs_slice())?;
        Ok(JsonObject(self.0.with_copies(copies)?))
    }
}

impl<'a, A: Allocator + Copy> JsonArray<'a, A> {
    /// A copy of the array. Its elements are in the same order.
    #[cycle(copy)]
    pub fn try_clone(&self) -> Result<Self, AllocError>
        ensures value { IfOk result (λ a. array_content a ≡ array_content self.now) }
        ensures memory { OnErr result (elements self.now ≢ []) }
    {
        let copies = copy_all(*self.0.allocator(), self.0.as_slice())?;
        Ok(JsonArray(copies))
    }
}

// The same values again, in a vector of this allocator.
#[cycle(copy)]
fn copy_all<'a, A: Allocator + Copy>(
    alloc: A,
    values: &[JsonValue<'a, A>],
) -> Result<Vec<JsonValue<'a, A>, A>, AllocError>
    ensures values { IfOk result (λ v. map content v.items ≡ map content values.now) }
    ensures memory { OnErr result (values.now ≢ []) }
{
    let mut copies = Vec::with_capacity(alloc, values.len())?;
    for value in values {
        copies.push(value.try_clone()?)?;
    }
    Ok(copies)
}

// The same names and values again, in a vector of this allocator.
#[cycle(copy)]
fn copy_pairs<'a, A: Allocator + Copy>(
    alloc: A,
    pairs: &[(CowStr<'a, A>, JsonValue<'a, A>)],
) -> Result<Vec<(CowStr<'a, A>, JsonValue<'a, A>), A>, AllocError>
    ensures { IfOk result (λ v. named_contents v.items ≡ named_contents pairs.now) }
{
    let mut copies = Vec::with_capacity(alloc, pairs.len())?;
    for (name, value) in pairs {
        copies.push((name.clone()?, value.try_clone()?))?;
    }
    Ok(copies)
}
