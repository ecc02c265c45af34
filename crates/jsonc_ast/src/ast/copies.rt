//! Copies of values.
ghost use Rattle.std.specs.Prelude.{◌≡◌, ◌≢◌, ◌⊎◌, [], IfOk, Ok, OnErr, map};
ghost use Rattle.jsonc_ast.specs.Access.{properties};
ghost use Rattle.jsonc_ast.specs.Views.{located, object_located, member_of};
ghost use Rattle.jsonc_walk.specs.Name.{OwnsText};
ghost use Rattle.jsonc_ast.specs.Copies.{TakesMemory, array_located, quotes, quotes_in_array, quotes_in_object, quotes_in_property};

use super::{Array, BooleanLit, NullKeyword, NumberLit, Object, ObjectProp, Value};
use std::alloc::{AllocError, Allocator};

impl<'a> NumberLit<'a> {
    /// A copy of the number, with the same range. Nothing is allocated.
    pub fn try_clone(&self) -> Result<Self, AllocError>
        ensures { result ≡ Ok self.now }
    {
        Ok(NumberLit {
            range: self.range,
            value: self.value,
        })
    }
}

impl BooleanLit {
    /// A copy of the boolean, with the same range. Nothing is allocated.
    pub fn try_clone(&self) -> Result<Self, AllocError>
        ensures { result ≡ Ok self.now }
    {
        Ok(BooleanLit {
            range: self.range,
            value: self.value,
        })
    }
}

impl NullKeyword {
    /// A copy of the `null`, with the same range. Nothing is allocated.
    pub fn try_clone(&self) -> Result<Self, AllocError>
        ensures { result ≡ Ok self.now }
    {
        Ok(NullKeyword { range: self.range })
    }
}

impl<'a, A: Allocator + Copy> Value<'a, A> {
    /// A copy of the value, with the same ranges.
    #[cycle(copy)]
    pub fn try_clone(&self) -> Result<Self, AllocError>
        ensures value { IfOk result (λ v. located v ≡ located self.now) }
        ensures quotes { IfOk result (λ v. quotes v ≡ quotes self.now) }
        ensures memory { OnErr result (TakesMemory self.now) }
    {
        match self {
            Value::StringLit(string) => Ok(Value::StringLit(string.try_clone()?)),
            Value::NumberLit(number) => Ok(Value::NumberLit(NumberLit {
                range: number.range,
                value: number.value,
            })),
            Value::BooleanLit(boolean) => Ok(Value::BooleanLit(BooleanLit {
                range: boolean.range,
                value: boolean.value,
            })),
            Value::Object(object) => Ok(Value::Object(object.try_clone()?)),
            Value::Array(array) => Ok(Value::Array(array.try_clone()?)),
            Value::NullKeyword(null) => Ok(Value::NullKeyword(NullKeyword { range: null.range })),
        }
    }
}

impl<'a, A: Allocator + Copy> Object<'a, A> {
    /// A copy of the object, with the same ranges. Its properties are in the same order.
    #[cycle(copy)]
    pub fn try_clone(&self) -> Result<Self, AllocError>
        ensures value { IfOk result (λ o. object_located o ≡ object_located self.now) }
        ensures quotes { IfOk result (λ o. quotes_in_object o ≡ quotes_in_object self.now) }
        ensures memory { OnErr result (properties self.now ≢ []) }
    {
        let copies = copy_properties(*self.properties.allocator(), self.properties.as_slice())?;
        Ok(Object {
            range: self.range,
            properties: copies,
        })
    }
}

impl<'a, A: Allocator + Copy> ObjectProp<'a, A> {
    /// A copy of the property, with the same ranges.
    #[cycle(copy)]
    pub fn try_clone(&self) -> Result<Self, AllocError>
        ensures value { IfOk result (λ p. member_of p ≡ member_of self.now) }
        ensures quotes { IfOk result (λ p. quotes_in_property p ≡ quotes_in_property self.now) }
        ensures memory { OnErr result (OwnsText self.now.name ⊎ TakesMemory self.now.value) }
    {
        let name = self.name.try_clone()?;
        let value = self.value.try_clone()?;
        Ok(ObjectProp {
            range: self.range,
            name,
            value,
        })
    }
}

impl<'a, A: Allocator + Copy> Array<'a, A> {
    /// A copy of the array, with the same ranges. Its elements are in the same order.
    #[cycle(copy)]
    pub fn try_clone(&self) -> Result<Self, AllocError>
        ensures value { IfOk result (λ a. array_located a ≡ array_located self.now) }
        ensures quotes { IfOk result (λ a. quotes_in_array a ≡ quotes_in_array self.now) }
        ensures memory { OnErr result (self.now.elements.items ≢ []) }
    {
        let copies = copy_elements(*self.elements.allocator(), self.elements.as_slice())?;
        Ok(Array {
            range: self.range,
            elements: copies,
        })
    }
}

// The same values again, in a vector of this allocator.
#[cycle(copy)]
fn copy_elements<'a, A: Allocator + Copy>(
    alloc: A,
    values: &[Value<'a, A>],
) -> Result<Vec<Value<'a, A>, A>, AllocError>
    ensures values { IfOk result (λ v. map located v.items ≡ map located values.now) }
    ensures quotes { IfOk result (λ v. map quotes v.items ≡ map quotes values.now) }
    ensures memory { OnErr result (values.now ≢ []) }
{
    let mut copies = Vec::with_capacity(alloc, values.len())?;
    for value in values {
        copies.push(value.try_clone()?)?;
    }
    Ok(copies)
}

// The same of properties.
#[cycle(copy)]
fn copy_properties<'a, A: Allocator + Copy>(
    alloc: A,
    properties: &[ObjectProp<'a, A>],
) -> Result<Vec<ObjectProp<'a, A>, A>, AllocError>
    ensures values { IfOk result (λ v. map member_of v.items ≡ map member_of properties.now) }
    ensures quotes { IfOk result (λ v. map quotes_in_property v.items ≡ map quotes_in_property properties.now) }
    ensures memory { OnErr result (properties.now ≢ []) }
{
    let mut copies = Vec::with_capacity(alloc, properties.len())?;
    for property in properties {
        copies.push(property.try_clone()?)?;
    }
    Ok(copies)
}
