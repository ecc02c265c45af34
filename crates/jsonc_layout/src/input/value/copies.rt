//! Copies of values.
ghost use Rattle.std.specs.Prelude.{◌≡◌, ◌≢◌, [], IfOk, OnErr, map};
ghost use Rattle.jsonc_layout.specs.input.Copies.{TakesMemory};
ghost use Rattle.jsonc_layout.specs.input.Views.{plain, named};

use super::CstInputValue;
use std::alloc::{AllocError, Allocator};

impl<A: Allocator + Copy> CstInputValue<A> {
    /// A copy of the value. Only a number, a string, and what is in arrays and objects takes memory.
    #[cycle(copy)]
    pub fn try_clone(&self) -> Result<Self, AllocError>
        ensures value { IfOk result (λ v. plain v ≡ plain self.now) }
        ensures memory { OnErr result (TakesMemory self.now) }
    {
        match self {
            CstInputValue::Null => Ok(CstInputValue::Null),
            CstInputValue::Bool(value) => Ok(CstInputValue::Bool(*value)),
            CstInputValue::Number(text) => Ok(CstInputValue::Number(text.clone()?)),
            CstInputValue::String(text) => Ok(CstInputValue::String(text.clone()?)),
            CstInputValue::Array(elements) => Ok(CstInputValue::Array(copy_elements(
                *elements.allocator(),
                elements.as_slice(),
            )?)),
            CstInputValue::Object(properties) => Ok(CstInputValue::Object(copy_properties(
                *properties.allocator(),
                properties.as_slice(),
            )?)),
        }
    }
}

// The same elements again.
#[cycle(copy)]
fn copy_elements<A: Allocator + Copy>(
    alloc: A,
    elements: &[CstInputValue<A>],
) -> Result<Vec<CstInputValue<A>, A>, AllocError>
    ensures values { IfOk result (λ v. map plain v.items ≡ map plain elements.now) }
    ensures memory { OnErr result (elements.now ≢ []) }
{
    let mut copies = Vec::with_capacity(alloc, elements.len())?;
    for element in elements {
        copies.push(element.try_clone()?)?;
    }
    Ok(copies)
}

// The same names with the same values again.
#[cycle(copy)]
fn copy_properties<A: Allocator + Copy>(
    alloc: A,
    properties: &[(String<A>, CstInputValue<A>)],
) -> Result<Vec<(String<A>, CstInputValue<A>), A>, AllocError>
    ensures values { IfOk result (λ v. map named v.items ≡ map named properties.now) }
    ensures memory { OnErr result (properties.now ≢ []) }
{
    let mut copies = Vec::with_capacity(alloc, properties.len())?;
    for property in properties {
        copies.push((property.0.clone()?, property.1.try_clone()?))?;
    }
    Ok(copies)
}
