//! Laws of equality: each is the contract of a function that does nothing.
ghost use Rattle.jsonc_value.specs.Contents.{content, object_content, array_content};
ghost use Rattle.jsonc_value.specs.Laws.{IsEquality, ByNames, ByPlaces, EqualWhereSame};

use crate::value::{JsonArray, JsonObject, JsonValue};
use std::alloc::Allocator;

/// Equality of values, of objects and of arrays is reflexive, mirrored and transitive.
pub fn equality<A: Allocator>()
    ensures values { IsEquality ⟦<JsonValue<'static, A> as PartialEq>⟧.eq }
    ensures objects { IsEquality ⟦<JsonObject<'static, A> as PartialEq>⟧.eq }
    ensures arrays { IsEquality ⟦<JsonArray<'static, A> as PartialEq>⟧.eq }
{}

/// Objects are equal exactly where equal names have equal values, and arrays place by place.
pub fn equality_by_parts<A: Allocator>()
    ensures objects { ByNames ⟦<JsonValue<'static, A> as PartialEq>⟧.eq ⟦<JsonObject<'static, A> as PartialEq>⟧.eq }
    ensures arrays { ByPlaces ⟦<JsonValue<'static, A> as PartialEq>⟧.eq ⟦<JsonArray<'static, A> as PartialEq>⟧.eq }
{}

/// What holds the same is equal, so each copy equals what it was made of.
pub fn equality_of_copies<A: Allocator>()
    ensures values { EqualWhereSame content ⟦<JsonValue<'static, A> as PartialEq>⟧.eq }
    ensures objects { EqualWhereSame object_content ⟦<JsonObject<'static, A> as PartialEq>⟧.eq }
    ensures arrays { EqualWhereSame array_content ⟦<JsonArray<'static, A> as PartialEq>⟧.eq }
{}
