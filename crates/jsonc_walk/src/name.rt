//! Strings, and names of properties, with their ranges.
ghost use Rattle.std.specs.Prelude.{◌≡◌, IfOk, IfSome, Ok, OnErr, string_bytes};
ghost use Rattle.std.specs.Cow.{IsOwnedStr, cow_str_bytes};
ghost use Rattle.jsonc_walk.specs.Name.{OwnsText, in_quotes, name_at, name_text, owned_text};

use jsonc_text::common::{Range, Ranged};
use std::alloc::{AllocError, Allocator};
use std::borrow::CowStr;

/// A string, as `"name"`.
#[derive(Drop)]
#[derive_where(Debug, PartialEq, Eq)]
pub struct StringLit<'a, A: Allocator> {
    pub range: Range,
    /// What stands between the quotes, with its escapes decoded.
    pub value: CowStr<'a, A>,
}

/// A name without quotes.
#[derive(Clone, Debug, PartialEq, Eq, Drop)]
pub struct WordLit<'a> {
    pub range: Range,
    pub value: &'a str,
}

/// The name of a property, with or without quotes.
#[derive(Drop)]
#[derive_where(Debug, PartialEq, Eq)]
pub enum ObjectPropName<'a, A: Allocator> {
    String(StringLit<'a, A>),
    Word(WordLit<'a>),
}

impl<'a, A: Allocator> ObjectPropName<'a, A> {
    /// The name, without quotes and with its escapes decoded.
    pub fn as_str(&self) -> &str
        ensures { result.now ≡ name_text self.now }
    {
        match self {
            ObjectPropName::String(name) => name.value.as_str(),
            ObjectPropName::Word(name) => name.value,
        }
    }

    /// The name, as a string of its own.
    ///
    /// One that owns its text already is answered as it is, and nothing is allocated.
    pub fn into_string(self, alloc: A) -> Result<String<A>, AllocError>
        ensures text { IfOk result (λ s. string_bytes s ≡ name_text self.entry) }
        ensures owned { IfSome (owned_text self.entry) (λ s. result ≡ Ok s) }
    {
        match self {
            ObjectPropName::String(name) => match name.value {
                CowStr::Borrowed(text) => String::from_str(alloc, text),
                CowStr::Owned(text) => Ok(text),
            },
            ObjectPropName::Word(name) => String::from_str(alloc, name.value),
        }
    }
}

impl<'a, A: Allocator + Copy> StringLit<'a, A> {
    /// A copy of the string, with the same range. Only that of a string which owns its text takes memory.
    pub fn try_clone(&self) -> Result<Self, AllocError>
        ensures range { IfOk result (λ s. s.range ≡ self.now.range) }
        ensures text { IfOk result (λ s. cow_str_bytes s.value ≡ cow_str_bytes self.now.value) }
        ensures memory { OnErr result (IsOwnedStr self.now.value) }
    {
        let value = match &self.value {
            CowStr::Borrowed(text) => CowStr::Borrowed(*text),
            CowStr::Owned(text) => CowStr::Owned(text.clone()?),
        };
        Ok(StringLit {
            range: self.range,
            value,
        })
    }
}

impl<'a> WordLit<'a> {
    /// A copy of the name, with the same range. Nothing is allocated.
    pub fn try_clone(&self) -> Result<Self, AllocError>
        ensures { result ≡ Ok self.now }
    {
        Ok(WordLit {
            range: self.range,
            value: self.value,
        })
    }
}

impl<'a, A: Allocator + Copy> ObjectPropName<'a, A> {
    /// A copy of the name, with the same range. It is in quotes where the name is.
    pub fn try_clone(&self) -> Result<Self, AllocError>
        ensures name { IfOk result (λ n. name_at n ≡ name_at self.now) }
        ensures quotes { IfOk result (λ n. in_quotes n ≡ in_quotes self.now) }
        ensures memory { OnErr result (OwnsText self.now) }
    {
        match self {
            ObjectPropName::String(name) => Ok(ObjectPropName::String(name.try_clone()?)),
            ObjectPropName::Word(name) => Ok(ObjectPropName::Word(WordLit {
                range: name.range,
                value: name.value,
            })),
        }
    }
}

impl<'a, A: Allocator> Ranged for StringLit<'a, A> {
    ghost range_of = { λ x. x.range };

    fn range(&self) -> Range {
        self.range
    }
}

impl<'a> Ranged for WordLit<'a> {
    ghost range_of = { λ x. x.range };

    fn range(&self) -> Range {
        self.range
    }
}

impl<'a, A: Allocator> Ranged for ObjectPropName<'a, A> {
    ghost range_of = { λ x. (name_at x).range };

    fn range(&self) -> Range {
        match self {
            ObjectPropName::String(name) => name.range,
            ObjectPropName::Word(name) => name.range,
        }
    }
}
