//! Nodes of any kind.
ghost use Rattle.std.specs.Prelude.{◌≡◌, option_copied};
ghost use Rattle.jsonc_ast.specs.Node.{held, value_held, name_held, kind_held, range_held, string_lit, number_lit, boolean_lit, object, object_prop, array, null_keyword, word_lit, held_string, held_number, held_boolean, held_object, held_object_prop, held_array, held_null, held_word};

use super::{
    Array, BooleanLit, NullKeyword, NumberLit, Object, ObjectProp, ObjectPropName, StringLit,
    Value, WordLit,
};
use jsonc_text::common::{Range, Ranged};
use std::alloc::{AllocError, Allocator};

/// A node of the syntax tree, borrowed from it.
#[derive_where(Copy, Debug, PartialEq, Eq)]
pub enum Node<'b, 'a, A: Allocator> {
    StringLit(&'b StringLit<'a, A>),
    NumberLit(&'b NumberLit<'a>),
    BooleanLit(&'b BooleanLit),
    Object(&'b Object<'a, A>),
    ObjectProp(&'b ObjectProp<'a, A>),
    Array(&'b Array<'a, A>),
    NullKeyword(&'b NullKeyword),
    WordLit(&'b WordLit<'a>),
}

impl<'b, 'a, A: Allocator> Clone for Node<'b, 'a, A> {
    ghost is_clone = { λ x y. y ≡ x };

    ghost is_infallible = { λ _. Unit {0} };

    fn clone(&self) -> Result<Self, AllocError> {
        Ok(*self)
    }
}

/// The kind of a node.
#[derive(Clone, Copy, Debug, PartialEq, Eq)]
pub enum NodeKind {
    StringLit,
    NumberLit,
    BooleanLit,
    Object,
    ObjectProp,
    Array,
    NullKeyword,
    WordLit,
}

impl<'b, 'a, A: Allocator> Node<'b, 'a, A> {
    /// Its kind.
    pub fn kind(&self) -> NodeKind
        ensures { result ≡ kind_held (held self.now) }
    {
        match self {
            Node::StringLit(_) => NodeKind::StringLit,
            Node::NumberLit(_) => NodeKind::NumberLit,
            Node::BooleanLit(_) => NodeKind::BooleanLit,
            Node::Object(_) => NodeKind::Object,
            Node::ObjectProp(_) => NodeKind::ObjectProp,
            Node::Array(_) => NodeKind::Array,
            Node::NullKeyword(_) => NodeKind::NullKeyword,
            Node::WordLit(_) => NodeKind::WordLit,
        }
    }

    /// The string, if it is one.
    pub fn as_string_lit(&self) -> Option<&'b StringLit<'a, A>>
        ensures { option_copied result ≡ held_string (held self.now) }
    {
        match self {
            Node::StringLit(string) => Some(*string),
            _ => None,
        }
    }

    /// The number, if it is one.
    pub fn as_number_lit(&self) -> Option<&'b NumberLit<'a>>
        ensures { option_copied result ≡ held_number (held self.now) }
    {
        match self {
            Node::NumberLit(number) => Some(*number),
            _ => None,
        }
    }

    /// The truth value, if it is one.
    pub fn as_boolean_lit(&self) -> Option<&'b BooleanLit>
        ensures { option_copied result ≡ held_boolean (held self.now) }
    {
        match self {
            Node::BooleanLit(boolean) => Some(*boolean),
            _ => None,
        }
    }

    /// The object, if it is one.
    pub fn as_object(&self) -> Option<&'b Object<'a, A>>
        ensures { option_copied result ≡ held_object (held self.now) }
    {
        match self {
            Node::Object(object) => Some(*object),
            _ => None,
        }
    }

    /// The property, if it is one.
    pub fn as_object_prop(&self) -> Option<&'b ObjectProp<'a, A>>
        ensures { option_copied result ≡ held_object_prop (held self.now) }
    {
        match self {
            Node::ObjectProp(property) => Some(*property),
            _ => None,
        }
    }

    /// The array, if it is one.
    pub fn as_array(&self) -> Option<&'b Array<'a, A>>
        ensures { option_copied result ≡ held_array (held self.now) }
    {
        match self {
            Node::Array(array) => Some(*array),
            _ => None,
        }
    }

    /// The `null`, if it is one.
    pub fn as_null_keyword(&self) -> Option<&'b NullKeyword>
        ensures { option_copied result ≡ held_null (held self.now) }
    {
        match self {
            Node::NullKeyword(null) => Some(*null),
            _ => None,
        }
    }

    /// The word, if it is one.
    pub fn as_word_lit(&self) -> Option<&'b WordLit<'a>>
        ensures { option_copied result ≡ held_word (held self.now) }
    {
        match self {
            Node::WordLit(word) => Some(*word),
            _ => None,
        }
    }
}

impl<'b, 'a, A: Allocator> Ranged for Node<'b, 'a, A> {
    ghost range_of = { λ x. range_held (held x) };

    fn range(&self) -> Range {
        match self {
            Node::StringLit(string) => string.range,
            Node::NumberLit(number) => number.range,
            Node::BooleanLit(boolean) => boolean.range,
            Node::Object(object) => object.range,
            Node::ObjectProp(property) => property.range,
            Node::Array(array) => array.range,
            Node::NullKeyword(null) => null.range,
            Node::WordLit(word) => word.range,
        }
    }
}

impl<'b, 'a, A: Allocator> From<&'b StringLit<'a, A>> for Node<'b, 'a, A> {
    ghost from_gives = { λ x n. held n ≡ string_lit x.now };

    fn from(string: &'b StringLit<'a, A>) -> Self {
        Node::StringLit(string)
    }
}

impl<'b, 'a, A: Allocator> From<&'b NumberLit<'a>> for Node<'b, 'a, A> {
    ghost from_gives = { λ x n. held n ≡ number_lit x.now };

    fn from(number: &'b NumberLit<'a>) -> Self {
        Node::NumberLit(number)
    }
}

impl<'b, 'a, A: Allocator> From<&'b BooleanLit> for Node<'b, 'a, A> {
    ghost from_gives = { λ x n. held n ≡ boolean_lit x.now };

    fn from(boolean: &'b BooleanLit) -> Self {
        Node::BooleanLit(boolean)
    }
}

impl<'b, 'a, A: Allocator> From<&'b Object<'a, A>> for Node<'b, 'a, A> {
    ghost from_gives = { λ x n. held n ≡ object x.now };

    fn from(object: &'b Object<'a, A>) -> Self {
        Node::Object(object)
    }
}

impl<'b, 'a, A: Allocator> From<&'b ObjectProp<'a, A>> for Node<'b, 'a, A> {
    ghost from_gives = { λ x n. held n ≡ object_prop x.now };

    fn from(property: &'b ObjectProp<'a, A>) -> Self {
        Node::ObjectProp(property)
    }
}

impl<'b, 'a, A: Allocator> From<&'b Array<'a, A>> for Node<'b, 'a, A> {
    ghost from_gives = { λ x n. held n ≡ array x.now };

    fn from(array: &'b Array<'a, A>) -> Self {
        Node::Array(array)
    }
}

impl<'b, 'a, A: Allocator> From<&'b NullKeyword> for Node<'b, 'a, A> {
    ghost from_gives = { λ x n. held n ≡ null_keyword x.now };

    fn from(null: &'b NullKeyword) -> Self {
        Node::NullKeyword(null)
    }
}

impl<'b, 'a, A: Allocator> From<&'b WordLit<'a>> for Node<'b, 'a, A> {
    ghost from_gives = { λ x n. held n ≡ word_lit x.now };

    fn from(word: &'b WordLit<'a>) -> Self {
        Node::WordLit(word)
    }
}

impl<'b, 'a, A: Allocator> From<&'b ObjectPropName<'a, A>> for Node<'b, 'a, A> {
    ghost from_gives = { λ x n. held n ≡ name_held x.now };

    fn from(name: &'b ObjectPropName<'a, A>) -> Self {
        match name {
            ObjectPropName::String(string) => Node::StringLit(string),
            ObjectPropName::Word(word) => Node::WordLit(word),
        }
    }
}

impl<'b, 'a, A: Allocator> From<&'b Value<'a, A>> for Node<'b, 'a, A> {
    ghost from_gives = { λ x n. held n ≡ value_held x.now };

    fn from(value: &'b Value<'a, A>) -> Self {
        match value {
            Value::StringLit(string) => Node::StringLit(string),
            Value::NumberLit(number) => Node::NumberLit(number),
            Value::BooleanLit(boolean) => Node::BooleanLit(boolean),
            Value::Object(object) => Node::Object(object),
            Value::Array(array) => Node::Array(array),
            Value::NullKeyword(null) => Node::NullKeyword(null),
        }
    }
}
