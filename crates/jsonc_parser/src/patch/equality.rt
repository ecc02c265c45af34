//! Whether values are equal.

ghost use Rattle.std.specs.Prelude.{◌≡◌, ℕ, Bool, List, map, slice_get, string_bytes, Contains, IfNone, IfOk, IfSome, Some};
ghost use Rattle.std.specs.Bool.{Decides};
ghost use Rattle.jsonc_text.specs.Plain.{null, boolean, number, string, array, object, Items, Members};
ghost use Rattle.jsonc_layout.specs.input.Views.{chars_of, items_plain, members_plain, plain};
ghost use Rattle.jsonc_parser.specs.patch.Comparing.{same_by};
ghost use Rattle.jsonc_parser.specs.patch.Equality.{AreEqual, AreItemsEqual, HasUniqueNames, ItemsHaveUniqueNames, MembersHaveUniqueNames};

use super::numbers::same_number;
use indexmap::IndexSet;
use jsonc_cst::cst::CstInputValue;
use std::alloc::{AllocError, Allocator};
use std::hash::{BuildHasherDefault, FoldHasher};

// The names of an object's members, in their order.
type Names<'a, A> = IndexSet<&'a str, BuildHasherDefault<FoldHasher>, A>;

/// When two numbers are equal.
#[derive(Clone, Copy)]
pub(crate) enum Numbers {
    // By their texts.
    ByText,
    // By their values.
    ByValue,
}

// The truth value that a value is.
fn bool_in<A: Allocator>(value: &CstInputValue<A>) -> Option<bool>
    ensures some { IfSome result (λ b. plain value.now ≡ boolean b) }
    ensures none { IfNone result ((b : Bool) → plain value.now ≡ boolean b → ⊥) }
{
    match value {
        CstInputValue::Bool(value) => Some(*value),
        _ => None,
    }
}

// The text of the number that a value is.
fn number_in<A: Allocator>(value: &CstInputValue<A>) -> Option<&String<A>>
    ensures some { IfSome result (λ s. plain value.now ≡ number (chars_of s.now)) }
    ensures none { IfNone result ((s : List ℕ) → plain value.now ≡ number s → ⊥) }
{
    match value {
        CstInputValue::Number(text) => Some(text),
        _ => None,
    }
}

// The string that a value is.
fn string_in<A: Allocator>(value: &CstInputValue<A>) -> Option<&String<A>>
    ensures some { IfSome result (λ s. plain value.now ≡ string (chars_of s.now)) }
    ensures none { IfNone result ((s : List ℕ) → plain value.now ≡ string s → ⊥) }
{
    match value {
        CstInputValue::String(text) => Some(text),
        _ => None,
    }
}

// The elements of the array that a value is.
fn elements_in<A: Allocator>(value: &CstInputValue<A>) -> Option<&[CstInputValue<A>]>
    ensures some { IfSome result (λ vs. plain value.now ≡ array (items_plain vs.now)) }
    ensures none { IfNone result ((vs : Items) → plain value.now ≡ array vs → ⊥) }
{
    match value {
        CstInputValue::Array(elements) => Some(elements.as_slice()),
        _ => None,
    }
}

// The members of the object that a value is.
fn members_in<A: Allocator>(value: &CstInputValue<A>) -> Option<&[(String<A>, CstInputValue<A>)]>
    ensures some { IfSome result (λ ps. plain value.now ≡ object (members_plain ps.now)) }
    ensures none { IfNone result ((ms : Members) → plain value.now ≡ object ms → ⊥) }
{
    match value {
        CstInputValue::Object(members) => Some(members.as_slice()),
        _ => None,
    }
}

// Whether a value is null.
pub(super) fn is_null<A: Allocator>(value: &CstInputValue<A>) -> bool
    ensures { Decides result (plain value.now ≡ null) }
{
    matches!(value, CstInputValue::Null)
}

// Whether two texts of numbers are equal.
#[inline(never)]
fn are_numbers_equal<A: Allocator + Copy>(
    left: &String<A>,
    right: &String<A>,
    numbers: Numbers,
) -> Result<bool, AllocError>
    ensures { IfOk result (λ b. Decides b (same_by numbers (chars_of left.now) (chars_of right.now))) }
{
    match numbers {
        Numbers::ByText => Ok(left.as_str() == right.as_str()),
        Numbers::ByValue => same_number(*left.allocator(), left, right),
    }
}

// The names of members, or none where one occurs twice.
#[inline(never)]
fn names_of<'a, A: Allocator + Copy>(
    alloc: A,
    members: &'a [(String<A>, CstInputValue<A>)],
) -> Result<Option<Names<'a, A>>, AllocError>
    ensures names { IfOk result (λ o. IfSome o (λ names. map (λ name. name.now) names.keys ≡ map (λ p. string_bytes p.0) members.now)) }
    ensures repeated { IfOk result (λ o. IfNone o (MembersHaveUniqueNames (members_plain members.now) → ⊥)) }
{
    let mut names = IndexSet::new(alloc);
    for member in members {
        let Ok(added) = names.insert(member.0.as_str()) else {
            return Err(AllocError);
        };
        if !added {
            return Ok(None);
        }
    }
    Ok(Some(names))
}

// The place of a name.
#[inline(never)]
fn place_of_name<A: Allocator>(names: &Names<'_, A>, name: &str) -> Option<usize>
    ensures some { IfSome result (λ i. slice_get (map (λ n. n.now) names.now.keys) i ≡ Some name.now) }
    ensures none { IfNone result (Contains (map (λ n. n.now) names.now.keys) name.now → ⊥) }
{
    names.get_index_of(name)
}

// Whether two lists of values are equal, one by one.
#[inline(never)]
#[cycle(equality)]
fn are_elements_equal<A: Allocator + Copy>(
    left: &[CstInputValue<A>],
    right: &[CstInputValue<A>],
    numbers: Numbers,
) -> Result<bool, AllocError>
    ensures { IfOk result (λ b. ItemsHaveUniqueNames (items_plain right.now)
        → Decides b (AreItemsEqual (same_by numbers) (items_plain left.now) (items_plain right.now))) }
{
    if left.len() != right.len() {
        return Ok(false);
    }
    for (index, value) in left.iter().enumerate() {
        if !are_equal(value, &right[index], numbers)? {
            return Ok(false);
        }
    }
    Ok(true)
}

// Whether two lists of members are equal up to their order.
#[inline(never)]
#[cycle(equality)]
fn are_members_equal<A: Allocator + Copy>(
    alloc: A,
    left: &[(String<A>, CstInputValue<A>)],
    right: &[(String<A>, CstInputValue<A>)],
    numbers: Numbers,
) -> Result<bool, AllocError>
    ensures { IfOk result (λ b. MembersHaveUniqueNames (members_plain right.now)
        → Decides b (AreEqual (same_by numbers) (object (members_plain left.now)) (object (members_plain right.now)))) }
{
    if left.len() != right.len() {
        return Ok(false);
    }
    let Some(names) = names_of(alloc, right)? else {
        return Ok(false);
    };
    for member in left {
        let Some(index) = place_of_name(&names, &member.0) else {
            return Ok(false);
        };
        if !are_equal(&member.1, &right[index].1, numbers)? {
            return Ok(false);
        }
    }
    Ok(true)
}

/// Whether two values are equal, where no name occurs twice in an object of the second.
///
/// Objects are equal where they have the same names with equal values, in any order.
#[cycle(equality)]
pub(crate) fn are_equal<A: Allocator + Copy>(
    left: &CstInputValue<A>,
    right: &CstInputValue<A>,
    numbers: Numbers,
) -> Result<bool, AllocError>
    ensures { IfOk result (λ b. HasUniqueNames (plain right.now)
        → Decides b (AreEqual (same_by numbers) (plain left.now) (plain right.now))) }
{
    match left {
        CstInputValue::Null => Ok(is_null(right)),
        CstInputValue::Bool(left) => match bool_in(right) {
            Some(right) => Ok(*left == right),
            None => Ok(false),
        },
        CstInputValue::Number(left) => match number_in(right) {
            Some(right) => are_numbers_equal(left, right, numbers),
            None => Ok(false),
        },
        CstInputValue::String(left) => match string_in(right) {
            Some(right) => Ok(left.as_str() == right.as_str()),
            None => Ok(false),
        },
        CstInputValue::Array(left) => match elements_in(right) {
            Some(right) => are_elements_equal(left.as_slice(), right, numbers),
            None => Ok(false),
        },
        CstInputValue::Object(left) => match members_in(right) {
            Some(right) => are_members_equal(*left.allocator(), left.as_slice(), right, numbers),
            None => Ok(false),
        },
    }
}
