//! Values, and where they stand in their text.
ghost use Rattle.std.specs.Prelude.{◌≡◌, ◌++◌, ◌∷◌, [], OnErr, OnOk};
ghost use Rattle.jsonc_walk.specs.Located.{array_at, object_at, range_at};
ghost use Rattle.jsonc_ast.specs.Views.{located, object_located, items_located, member_of, members_located, Grown};
ghost use Rattle.jsonc_walk.specs.Name.{name_at};
ghost use Rattle.jsonc_ast.specs.Spelled.{spelled, spelled_in_property, spelled_in_elements, spelled_in_properties};

mod access;
mod copies;
mod node;

use jsonc_text::common::{Range, Ranged};
pub use jsonc_walk::comment::{Comment, CommentBlock, CommentKind, CommentLine};
pub use jsonc_walk::name::{ObjectPropName, StringLit, WordLit};
pub use node::{Node, NodeKind};
use std::alloc::{AllocError, Allocator};

/// A number, as `123` or `-1.2e+2`.
#[derive(Clone, Debug, PartialEq, Eq, Drop)]
pub struct NumberLit<'a> {
    pub range: Range,
    /// Its text.
    pub value: &'a str,
}

/// `true` or `false`.
#[derive(Clone, Debug, PartialEq, Eq, Drop)]
pub struct BooleanLit {
    pub range: Range,
    pub value: bool,
}

/// `null`.
#[derive(Clone, Debug, PartialEq, Eq, Drop)]
pub struct NullKeyword {
    pub range: Range,
}

/// A value.
#[cycle(ast)]
#[derive(Drop)]
#[derive_where(Debug, PartialEq, Eq)]
pub enum Value<'a, A: Allocator> {
    StringLit(StringLit<'a, A>),
    NumberLit(NumberLit<'a>),
    BooleanLit(BooleanLit),
    Object(Object<'a, A>),
    Array(Array<'a, A>),
    NullKeyword(NullKeyword),
}

/// An object, as `{ "name": 4 }`, from its `{` to its `}`.
#[cycle(ast)]
#[derive(Drop)]
#[derive_where(Debug, PartialEq, Eq)]
pub struct Object<'a, A: Allocator> {
    pub range: Range,
    pub properties: Vec<ObjectProp<'a, A>, A>,
}

/// A property of an object, from its name to its value.
#[cycle(ast)]
#[derive(Drop)]
#[derive_where(Debug, PartialEq, Eq)]
pub struct ObjectProp<'a, A: Allocator> {
    pub range: Range,
    pub name: ObjectPropName<'a, A>,
    pub value: Value<'a, A>,
}

/// An array, as `[5, 6]`, from its `[` to its `]`.
#[cycle(ast)]
#[derive(Drop)]
#[derive_where(Debug, PartialEq, Eq)]
pub struct Array<'a, A: Allocator> {
    pub range: Range,
    pub elements: Vec<Value<'a, A>, A>,
}

/// An array of these elements.
pub fn array_of<'a, A: Allocator>(range: Range, elements: Vec<Value<'a, A>, A>) -> Value<'a, A>
    ensures located { located result ≡ array_at range (items_located elements.entry.items) }
    ensures spelled { spelled result ≡ spelled_in_elements elements.entry.items }
{
    Value::Array(Array { range, elements })
}

/// An object of these properties.
pub fn object_of<'a, A: Allocator>(
    range: Range,
    properties: Vec<ObjectProp<'a, A>, A>,
) -> Value<'a, A>
    ensures located { located result ≡ object_at range (members_located properties.entry.items) }
    ensures spelled { spelled result ≡ spelled_in_properties properties.entry.items }
{
    Value::Object(Object { range, properties })
}

/// A property of this name and value.
pub fn property_of<'a, A: Allocator>(
    range: Range,
    name: ObjectPropName<'a, A>,
    value: Value<'a, A>,
) -> ObjectProp<'a, A>
    ensures located { member_of result
        ≡ record { range = range; name = name_at name.entry; value = located value.entry } }
    ensures spelled { spelled_in_property result ≡ name.entry ∷ spelled value.entry }
{
    ObjectProp { range, name, value }
}

/// Appends an element. On an error the vector stays as it is.
pub fn push_value<'a, A: Allocator>(
    elements: &mut Vec<Value<'a, A>, A>,
    value: Value<'a, A>,
) -> Result<(), AllocError>
    ensures located { OnOk result (Grown located elements.old.items elements.new.items value.entry) }
    ensures pushed { OnOk result (elements.new.items ≡ elements.old.items ++ value.entry ∷ []) }
    ensures kept { OnErr result (elements.new.items ≡ elements.old.items) }
{
    elements.push(value)?;
    Ok(())
}

/// Appends a property. On an error the vector stays as it is.
pub fn push_property<'a, A: Allocator>(
    properties: &mut Vec<ObjectProp<'a, A>, A>,
    property: ObjectProp<'a, A>,
) -> Result<(), AllocError>
    ensures located { OnOk result (Grown member_of properties.old.items properties.new.items property.entry) }
    ensures pushed { OnOk result (properties.new.items ≡ properties.old.items ++ property.entry ∷ []) }
    ensures kept { OnErr result (properties.new.items ≡ properties.old.items) }
{
    properties.push(property)?;
    Ok(())
}

impl<'a> Ranged for NumberLit<'a> {
    ghost range_of = { λ x. x.range };

    fn range(&self) -> Range {
        self.range
    }
}

impl Ranged for BooleanLit {
    ghost range_of = { λ x. x.range };

    fn range(&self) -> Range {
        self.range
    }
}

impl Ranged for NullKeyword {
    ghost range_of = { λ x. x.range };

    fn range(&self) -> Range {
        self.range
    }
}

impl<'a, A: Allocator> Ranged for Array<'a, A> {
    ghost range_of = { λ x. x.range };

    fn range(&self) -> Range {
        self.range
    }
}

impl<'a, A: Allocator> Ranged for Object<'a, A> {
    ghost range_of = { λ x. range_at (object_located x) };

    fn range(&self) -> Range {
        self.range
    }
}

impl<'a, A: Allocator> Ranged for ObjectProp<'a, A> {
    ghost range_of = { λ x. (member_of x).range };

    fn range(&self) -> Range {
        self.range
    }
}

impl<'a, A: Allocator> Ranged for Value<'a, A> {
    ghost range_of = { λ x. range_at (located x) };

    fn range(&self) -> Range {
        match self {
            Value::StringLit(value) => value.range,
            Value::NumberLit(value) => value.range,
            Value::BooleanLit(value) => value.range,
            Value::Object(value) => value.range,
            Value::Array(value) => value.range,
            Value::NullKeyword(value) => value.range,
        }
    }
}
