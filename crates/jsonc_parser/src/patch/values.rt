//! Values of a parsed text, taken as values for edits.

ghost use Rattle.std.specs.Prelude.{◌≡◌, ◌≢◌, ℕ, List, chars, string_bytes, IfErr, IfNone, IfOk, IfSome, OnOk};
ghost use Rattle.jsonc_walk.specs.Located.{items_at};
ghost use Rattle.jsonc_ast.specs.Views as ast;
ghost use Rattle.jsonc_ast.specs.Views.{items_located};
ghost use Rattle.jsonc_layout.specs.input.Views.{items_plain, members_plain, named, plain};
ghost use Rattle.jsonc_parser.specs.patch.Equality.{HasUniqueNames, ItemsHaveUniqueNames, MembersHaveUniqueNames};
ghost use Rattle.jsonc_parser.specs.patch.PatchFaults.{IsFaultOfNames, IsFaultOfValue};
ghost use Rattle.jsonc_parser.specs.patch.PatchReading.{pair_of, ReportsRepeated, said};
ghost use Rattle.jsonc_parser.specs.patch.PatchTexts.{NamesDiffer};
ghost use Rattle.jsonc_text.specs.Plain.{array, object, string, Items, Members};

use super::operation::OperationFault;
use indexmap::IndexSet;
use jsonc_ast::ast::{ObjectProp, Value};
use jsonc_cst::cst::CstInputValue;
use std::alloc::Allocator;
use std::hash::{BuildHasherDefault, FoldHasher};

// Names that were seen, each once.
type Names<'a, A> = IndexSet<&'a str, BuildHasherDefault<FoldHasher>, A>;

/// The text of a value that is a string.
pub(super) fn text_of<'b, A: Allocator>(value: &'b Value<'_, A>) -> Option<&'b str>
    ensures some { IfSome result (λ s. ast.plain value.now ≡ string (chars s.now)) }
    ensures none { IfNone result ((s : List ℕ) → ast.plain value.now ≢ string s) }
{
    match value {
        Value::StringLit(string) => Some(string.value.as_str()),
        Value::NumberLit(_) => None,
        Value::BooleanLit(_) => None,
        Value::Object(_) => None,
        Value::Array(_) => None,
        Value::NullKeyword(_) => None,
    }
}

/// The properties of a value that is an object.
pub(super) fn properties_of<'b, 'a, A: Allocator>(
    value: &'b Value<'a, A>,
) -> Option<&'b [ObjectProp<'a, A>]>
    ensures some { IfSome result (λ ps. ast.plain value.now ≡ object (said ps.now)) }
    ensures none { IfNone result ((ms : Members) → ast.plain value.now ≢ object ms) }
{
    match value {
        Value::StringLit(_) => None,
        Value::NumberLit(_) => None,
        Value::BooleanLit(_) => None,
        Value::Object(object) => Some(object.properties.as_slice()),
        Value::Array(_) => None,
        Value::NullKeyword(_) => None,
    }
}

/// The elements of a value that is an array.
pub(super) fn elements_in<'b, 'a, A: Allocator>(
    value: &'b Value<'a, A>,
) -> Option<&'b [Value<'a, A>]>
    ensures some { IfSome result (λ vs. ast.plain value.now ≡ array (items_at (items_located vs.now))) }
    ensures none { IfNone result ((vs : Items) → ast.plain value.now ≢ array vs) }
{
    match value {
        Value::StringLit(_) => None,
        Value::NumberLit(_) => None,
        Value::BooleanLit(_) => None,
        Value::Object(_) => None,
        Value::Array(array) => Some(array.elements.as_slice()),
        Value::NullKeyword(_) => None,
    }
}

// The fault of a name that occurs twice.
fn repeated<A: Allocator>(alloc: A, name: &str) -> OperationFault<A>
    ensures { ReportsRepeated (chars name.now) result }
{
    match String::from_str(alloc, name) {
        Ok(name) => OperationFault::RepeatedName(name),
        Err(_) => OperationFault::OutOfMemory,
    }
}

// Sees that no two properties have one name.
#[inline(never)]
pub(super) fn see_names<A: Allocator + Copy>(
    alloc: A,
    properties: &[ObjectProp<'_, A>],
) -> Result<(), OperationFault<A>>
    ensures differ { OnOk result (NamesDiffer (said properties.now)) }
    ensures repeated { IfErr result (IsFaultOfNames (said properties.now)) }
{
    let mut seen: Names<'_, A> = IndexSet::new(alloc);
    for property in properties {
        let name = property.name.as_str();
        let Ok(added) = seen.insert(name) else {
            return Err(OperationFault::OutOfMemory);
        };
        if !added {
            return Err(repeated(alloc, name));
        }
    }
    Ok(())
}

// A text of its own.
fn owned<A: Allocator>(alloc: A, text: &str) -> Result<String<A>, OperationFault<A>>
    ensures text { IfOk result (λ s. string_bytes s ≡ text.now) }
    ensures memory { IfErr result (λ fault. fault ≡ OperationFault.OutOfMemory) }
{
    match String::from_str(alloc, text) {
        Ok(text) => Ok(text),
        Err(_) => Err(OperationFault::OutOfMemory),
    }
}

// The elements.
#[inline(never)]
#[cycle(values)]
fn elements_of<A: Allocator + Copy>(
    alloc: A,
    values: &[Value<'_, A>],
) -> Result<Vec<CstInputValue<A>, A>, OperationFault<A>>
    ensures value { IfOk result (λ v. items_plain v.items ≡ items_at (items_located values.now)) }
    ensures unique { OnOk result (ItemsHaveUniqueNames (items_at (items_located values.now))) }
    ensures fault { IfErr result (IsFaultOfValue (array (items_at (items_located values.now)))) }
{
    let mut elements = Vec::new(alloc);
    for value in values {
        let element = match value_of(alloc, value) {
            Ok(element) => element,
            Err(fault) => return Err(fault),
        };
        let Ok(()) = elements.push(element) else {
            return Err(OperationFault::OutOfMemory);
        };
    }
    Ok(elements)
}

// A name with its value.
#[inline(never)]
#[cycle(values)]
fn member_of<A: Allocator + Copy>(
    alloc: A,
    property: &ObjectProp<'_, A>,
) -> Result<(String<A>, CstInputValue<A>), OperationFault<A>>
    ensures value { IfOk result (λ member. named member ≡ pair_of property.now) }
    ensures unique { OnOk result (HasUniqueNames (ast.plain property.now.value)) }
    ensures fault { IfErr result (IsFaultOfValue (ast.plain property.now.value)) }
{
    let name = match owned(alloc, property.name.as_str()) {
        Ok(name) => name,
        Err(fault) => return Err(fault),
    };
    match value_of(alloc, &property.value) {
        Ok(value) => Ok((name, value)),
        Err(fault) => Err(fault),
    }
}

// The names with their values, no name twice.
#[inline(never)]
#[cycle(values)]
fn members_of<A: Allocator + Copy>(
    alloc: A,
    properties: &[ObjectProp<'_, A>],
) -> Result<Vec<(String<A>, CstInputValue<A>), A>, OperationFault<A>>
    ensures value { IfOk result (λ v. members_plain v.items ≡ said properties.now) }
    ensures unique { OnOk result (MembersHaveUniqueNames (said properties.now)) }
    ensures fault { IfErr result (IsFaultOfValue (object (said properties.now))) }
{
    if let Err(fault) = see_names(alloc, properties) {
        return Err(fault);
    }
    let mut members = Vec::new(alloc);
    for property in properties {
        let member = match member_of(alloc, property) {
            Ok(member) => member,
            Err(fault) => return Err(fault),
        };
        let Ok(()) = members.push(member) else {
            return Err(OperationFault::OutOfMemory);
        };
    }
    Ok(members)
}

/// The value, if no name occurs twice in an object in it.
#[cycle(values)]
pub(super) fn value_of<A: Allocator + Copy>(
    alloc: A,
    value: &Value<'_, A>,
) -> Result<CstInputValue<A>, OperationFault<A>>
    ensures value { IfOk result (λ v. plain v ≡ ast.plain value.now) }
    ensures unique { OnOk result (HasUniqueNames (ast.plain value.now)) }
    ensures fault { IfErr result (IsFaultOfValue (ast.plain value.now)) }
{
    match value {
        Value::NullKeyword(_) => Ok(CstInputValue::Null),
        Value::BooleanLit(boolean) => Ok(CstInputValue::Bool(boolean.value)),
        Value::NumberLit(number) => match owned(alloc, number.value) {
            Ok(text) => Ok(CstInputValue::Number(text)),
            Err(fault) => Err(fault),
        },
        Value::StringLit(string) => match owned(alloc, string.value.as_str()) {
            Ok(text) => Ok(CstInputValue::String(text)),
            Err(fault) => Err(fault),
        },
        Value::Array(array) => match elements_of(alloc, array.elements.as_slice()) {
            Ok(elements) => Ok(CstInputValue::Array(elements)),
            Err(fault) => Err(fault),
        },
        Value::Object(object) => match members_of(alloc, object.properties.as_slice()) {
            Ok(members) => Ok(CstInputValue::Object(members)),
            Err(fault) => Err(fault),
        },
    }
}
