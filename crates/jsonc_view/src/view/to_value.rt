//! Values of a view, made into `JsonValue`s.
ghost use Rattle.std.specs.Prelude.{◌≡◌, IfOk, option_map};
ghost use Rattle.jsonc_text.specs.Plain as text;
ghost use Rattle.jsonc_text.specs.Plain.{collapse, collapse_items, collapse_members};
ghost use Rattle.jsonc_value.specs.to_value.Views as values;
ghost use Rattle.jsonc_view.specs.Views.{plain, value_of};

use crate::view::places::name_at;
use crate::view::values::value_at;
use crate::view::{JsonView, ViewArray, ViewObject, ViewValue};
use jsonc_value::{JsonArray, JsonObject, JsonValue, Map};
use std::alloc::{AllocError, Allocator};
use std::borrow::CowStr;

// The value of an array.
#[cycle(values)]
fn array_from<'v, 'a, A: Allocator, B: Allocator + Copy>(
    alloc: B,
    array: &ViewArray<'v, 'a, A>,
) -> Result<JsonValue<'v, B>, AllocError>
    ensures { IfOk result (λ v. values.plain v ≡ text.array (collapse_items array.now.shown.0)) }
{
    let mut values = Vec::new(alloc);
    for row in array.elements {
        let value = value_at(array.rows, *row);
        let made = value_from(alloc, &value)?;
        values.push(made)?;
    }
    Ok(JsonValue::Array(JsonArray::new(values)))
}

// The value of an object: of equal names the last at the place of the first.
#[cycle(values)]
fn object_from<'v, 'a, A: Allocator, B: Allocator + Copy>(
    alloc: B,
    object: &ViewObject<'v, 'a, A>,
) -> Result<JsonValue<'v, B>, AllocError>
    ensures { IfOk result (λ v. values.plain v ≡ text.object (collapse_members object.now.shown.0)) }
{
    let mut properties = Vec::new(alloc);
    for member in object.members {
        let name = name_at(object.rows, member.name);
        let value = value_at(object.rows, member.value);
        let made = value_from(alloc, &value)?;
        properties.push((CowStr::Borrowed(name), made))?;
    }
    let map = Map::from_list(alloc, properties)?;
    Ok(JsonValue::Object(JsonObject::new(map)))
}

// The value of what is read of a view.
#[cycle(values)]
fn value_from<'v, 'a, A: Allocator, B: Allocator + Copy>(
    alloc: B,
    value: &ViewValue<'v, 'a, A>,
) -> Result<JsonValue<'v, B>, AllocError>
    ensures { IfOk result (λ v. values.plain v ≡ collapse (plain value.now)) }
{
    match value {
        ViewValue::String(text) => Ok(JsonValue::String(CowStr::Borrowed(*text))),
        ViewValue::Number(text) => Ok(JsonValue::Number(*text)),
        ViewValue::Boolean(boolean) => Ok(JsonValue::Boolean(*boolean)),
        ViewValue::Object(object) => object_from(alloc, object),
        ViewValue::Array(array) => array_from(alloc, array),
        ViewValue::Null => Ok(JsonValue::Null),
    }
}

impl<'v, 'a, A: Allocator> ViewValue<'v, 'a, A> {
    /// The value as a `JsonValue`, whose strings and names the view lends.
    pub fn to_value<B: Allocator + Copy>(&self, alloc: B) -> Result<JsonValue<'v, B>, AllocError>
        ensures { IfOk result (λ v. values.plain v ≡ collapse (plain self.now)) }
    {
        value_from(alloc, self)
    }
}

impl<'a, A: Allocator> JsonView<'a, A> {
    /// The value as the `JsonValue` that `parse_to_value` makes of the text, if it has one. The view lends its strings and names.
    pub fn to_value<B: Allocator + Copy>(
        &self,
        alloc: B,
    ) -> Result<Option<JsonValue<'_, B>>, AllocError>
        ensures { IfOk result (λ found. option_map values.plain found ≡ option_map collapse (value_of self.now)) }
    {
        match self.value() {
            Some(value) => Ok(Some(value.to_value(alloc)?)),
            None => Ok(None),
        }
    }
}
