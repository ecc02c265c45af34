//! The walk over a text, by recursive descent, whatever is made of it.
ghost use Rattle.std.specs.Prelude.{ℕ, List, ◌≡◌, ◌+◌, ◌≤◌, ◌<◌, ◌⊎◌, IfOk, IfErr, OnOk, OnErr, IfSome, IfNone, IsTrue, true, false, chars, is_some};
ghost use Rattle.std.specs.Cow.{cow_str_bytes};
ghost use Rattle.std.specs.Str.{IsUtf8};
ghost use Rattle.jsonc_text.specs.Faults.{IsFault};
ghost use Rattle.jsonc_text.specs.Plain.{string};
ghost use Rattle.jsonc_walk.specs.Located.{Located, leaf_at, LocatedMember};
ghost use Rattle.jsonc_walk.specs.declared.name.ObjectPropName.TheVariants.{String as quoted};
ghost use Rattle.jsonc_walk.specs.declared.container.Container.TheVariants.{Object};
ghost use Rattle.jsonc_walk.specs.Collected.{Collects};
ghost use Rattle.jsonc_walk.specs.Context.{text_in, options_in, token_start, token_end, token_range, Keeps, AtEnd, IsToken, IsBracket, OpensNone, GivesAway, last};
ghost use Rattle.jsonc_walk.specs.Faults.{ParseFault, StopsAtContainer, StopsAtItem, StopsAtValue};
ghost use Rattle.jsonc_walk.specs.Handed.{source_of, ElementMade, Follows, IsDocumentMade, IsUnexpectedHere, IsWrongNameHere, LeafMade, MadeBetweenGaps, NameMade, PropertyMade, ReadsLeaf, ReadsMade};
ghost use Rattle.jsonc_walk.specs.Reached.{least, per_property};
ghost use Rattle.jsonc_walk.specs.Refusals.{AsksForMemory, IsAllocationFailure, IsFaultHere, NoLiteral, NoName, NoPropertyHere, NoValueHere, OutOfMemoryOr, Refuses};
ghost use Rattle.jsonc_walk.specs.Scanned.{leaf_value};
ghost use Rattle.jsonc_walk.specs.Walked.{IsRead, IsRefused};
ghost use Rattle.jsonc_walk.specs.Written.{IsLentHere, IsWritten};

use crate::container::Container;
use crate::context::{Context, MAXIMUM_NESTING};
use crate::names::hand_name;
use crate::receiver::Receiver;
use crate::stops::Stopped;
use jsonc_scan::found::TokenKind;
use jsonc_text::common::Range;
use jsonc_text::errors::ParseError;
use std::alloc::Allocator;
use std::borrow::CowStr;

// Whether no container may begin inside of so many, where containers alone count.
#[inline(always)]
fn opens_too_deep<A: Allocator, R: Receiver<String<A>>>(to: &R, around: usize) -> bool
    requires { around ≤ 512 }
    ensures apart { IsTrue result → R.whole ≡ false }
    ensures deep { IsTrue result → 512 < around + least R.whole }
    ensures within { result ≡ false → around + least R.whole ≤ 512 }
{
    !to.is_whole() && around >= MAXIMUM_NESTING
}

// Whether so many are around an element's array, or around a property, that its value is too deep, where
// properties count.
#[inline(always)]
fn holds_too_deep<A: Allocator, R: Receiver<String<A>>>(to: &R, around: usize) -> bool
    requires { around + least R.whole ≤ 513 }
    ensures whole { IsTrue result → R.whole ≡ true }
    ensures deep { IsTrue result → 512 < around + 1 }
    ensures within { result ≡ false → around + per_property R.whole ≤ 512 }
{
    to.is_whole() && around >= MAXIMUM_NESTING
}

// How many are around a property's value, where so many are around the property.
#[inline(always)]
fn around_value<A: Allocator, R: Receiver<String<A>>>(to: &R, around: usize) -> usize
    requires { around + per_property R.whole ≤ 512 }
    ensures { result ≡ around + per_property R.whole }
{
    if to.is_whole() { around + 1 } else { around }
}

// The place that faults of a container are told from: where it begins, or else where they stand.
#[inline(always)]
fn told_from<A: Allocator, R: Receiver<String<A>>>(to: &R, start: usize) -> Option<usize>
    ensures some { is_some result ≡ R.whole }
    ensures place { IfSome result (λ i. i ≡ start) }
{
    if to.is_whole() { Some(start) } else { None }
}

// A string, handed over: by its place where it has no backslash.
#[inline(always)]
fn hand_string<'a, A: Allocator, R: Receiver<String<A>>>(
    to: &mut R,
    range: Range,
    value: CowStr<'a, A>,
) -> Result<R::Item, R::Error>
    requires utf8 { IsUtf8 (R.source to.old).bytes }
    requires written { IsWritten (R.source to.old).options (R.source to.old).bytes (quoted (record { range = range; value = value })) }
    requires follows { Follows (R.source to.old) (R.reached to.old) range.start }
    ensures source { OnOk result (R.source to.new ≡ R.source to.old) }
    ensures reached { OnOk result (R.reached to.new range.end) }
    ensures made { IfOk result (λ i. R.makes to.old to.new i (leaf_at range (string (chars (cow_str_bytes value.entry))))) }
{
    match value {
        CowStr::Borrowed(_) => to.string(range),
        CowStr::Owned(value) => to.decoded(range, value),
    }
}

// The name that the last token is, where the options allow it, handed over. A string is given away.
#[inline(always)]
fn parse_name<'a, A: Allocator + Copy, R: Receiver<String<A>>>(
    context: &mut Context<'a, A>,
    to: &mut R,
    token: TokenKind,
) -> Result<R::Property, Stopped>
    requires token { IsToken context.old (last context.old token) }
    requires lent { IsLentHere context.old (Some token) }
    requires source { R.source to.old ≡ source_of context.old }
    requires follows { Follows (R.source to.old) (R.reached to.old) (token_start context.old) }
    ensures source { OnOk result (R.source to.new ≡ R.source to.old) }
    ensures reached { OnOk result (R.reached to.new (token_end context.old)) }
    ensures gives { OnOk result (GivesAway context.old context.new) }
    ensures named { IfOk result (λ p. NameMade context.old (R.names to.old to.new p)) }
    ensures refused { OnErr result (OutOfMemoryOr (NoName context.old) context.new.fault) }
    ensures fault { OnErr result (IsFaultHere context.old R.Error context.new.fault) }
    ensures error { OnErr result (IsWrongNameHere context.old (last context.old token) context.new.fault) }
{
    if let TokenKind::Passed = token {
        let range = context.range();
        let Ok(named) = to.passed_name(range) else {
            return Err(context.stop_for_memory());
        };
        return Ok(named);
    }
    if let TokenKind::Plain = token {
        let range = context.range();
        let Ok(named) = to.string_name(range) else {
            return Err(context.stop_for_memory());
        };
        return Ok(named);
    }
    let name = context.name(token)?;
    let Ok(named) = hand_name(to, name) else {
        return Err(context.stop_for_memory());
    };
    Ok(named)
}

// What the last token is by itself, handed over. A string is given away.
#[inline(always)]
fn leaf<'a, A: Allocator + Copy, R: Receiver<String<A>>>(
    context: &mut Context<'a, A>,
    to: &mut R,
    token: TokenKind,
    range: Range,
) -> Result<Option<R::Item>, R::Error>
    requires token { IsToken context.old (last context.old token) }
    requires lent { IsLentHere context.old (Some token) }
    requires place { range ≡ token_range context.old }
    requires source { R.source to.old ≡ source_of context.old }
    requires follows { Follows (R.source to.old) (R.reached to.old) range.start }
    ensures source { OnOk result (R.source to.new ≡ R.source to.old) }
    ensures reached { IfOk result (λ f. IfSome f (λ _. R.reached to.new range.end)) }
    ensures gives { GivesAway context.old context.new }
    ensures made { IfOk result
        (λ f. IfSome f (λ i. LeafMade range (last context.old token) (R.makes to.old to.new i))) }
    ensures none { IfOk result (λ f. IfNone f (leaf_value (last context.old token) ≡ None)) }
    ensures stays { IfOk result (λ f. IfNone f (context.new.content ≡ context.old.content)) }
{
    match token {
        TokenKind::String => {
            let value = context.content.take_string();
            let item = hand_string(to, range, value)?;
            Ok(Some(item))
        }
        TokenKind::Passed => {
            let item = to.passed(range)?;
            Ok(Some(item))
        }
        TokenKind::Plain => {
            let item = to.string(range)?;
            Ok(Some(item))
        }
        TokenKind::Number => {
            let item = to.number(range)?;
            Ok(Some(item))
        }
        TokenKind::True => {
            let item = to.boolean(range, true)?;
            Ok(Some(item))
        }
        TokenKind::False => {
            let item = to.boolean(range, false)?;
            Ok(Some(item))
        }
        TokenKind::Null => {
            let item = to.null(range)?;
            Ok(Some(item))
        }
        _ => Ok(None),
    }
}

// The value that the last token is by itself.
#[inline(always)]
fn parse_leaf<'a, A: Allocator + Copy, R: Receiver<String<A>>>(
    context: &mut Context<'a, A>,
    to: &mut R,
    token: TokenKind,
) -> Result<R::Item, Stopped>
    requires token { IsToken context.old (last context.old token) }
    requires lent { IsLentHere context.old (Some token) }
    requires source { R.source to.old ≡ source_of context.old }
    requires follows { Follows (R.source to.old) (R.reached to.old) (token_start context.old) }
    ensures source { OnOk result (R.source to.new ≡ R.source to.old) }
    ensures reached { OnOk result (R.reached to.new (token_end context.new)) }
    ensures gives { OnOk result (GivesAway context.old context.new) }
    ensures found { IfOk result (λ i. ReadsLeaf context.old (R.makes to.old to.new i)) }
    ensures refused { OnErr result (OutOfMemoryOr (NoLiteral context.old) context.new.fault) }
    ensures fault { OnErr result (IsFaultHere context.old R.Error context.new.fault) }
    ensures error { OnErr result (OpensNone (last context.old token)
        → IsUnexpectedHere context.old (last context.old token) context.new.fault) }
{
    let range = context.range();
    let Ok(found) = leaf(context, to, token, range) else {
        return Err(context.stop_for_memory());
    };
    let Some(value) = found else {
        return Err(context.stop_unexpected(token));
    };
    Ok(value)
}

// The value that begins with the last token, inside of so many of what counts.
#[cycle(parse)]
#[inline(always)]
fn parse_value<'a, A: Allocator + Copy, R: Receiver<String<A>>>(
    context: &mut Context<'a, A>,
    to: &mut R,
    token: TokenKind,
    count: usize,
) -> Result<R::Item, Stopped>
    requires token { IsToken context.old (last context.old token) }
    requires around { count ≤ 512 }
    requires lent { IsLentHere context.old (Some token) }
    requires source { R.source to.old ≡ source_of context.old }
    requires follows { Follows (R.source to.old) (R.reached to.old) (token_start context.old) }
    ensures read { IfOk result (λ i. IsRead context.old context.new (R.source to.old) (R.source to.new) (R.reached to.new)
        (ReadsMade context.old context.new R.whole count (R.makes to.old to.new i))) }
    ensures refused { OnErr result (IsRefused context.old R.Error (NoValueHere context.old R.whole count)
        (StopsAtValue context.old (last context.old token) R.whole count) context.new.fault) }
{
    // The results of the two calls are taken apart, so that those of literals can stay in registers.
    match token {
        TokenKind::OpenBracket => match parse_array(context, to, count) {
            Ok(value) => Ok(value),
            Err(error) => Err(error),
        },
        TokenKind::OpenBrace => match parse_object(context, to, count) {
            Ok(value) => Ok(value),
            Err(error) => Err(error),
        },
        token => parse_leaf(context, to, token),
    }
}

// The element that begins with the last token, put after the others. A string or a number is made where it
// is to stand.
#[cycle(parse)]
#[inline(always)]
fn parse_element<'a, A: Allocator + Copy, R: Receiver<String<A>>>(
    context: &mut Context<'a, A>,
    to: &mut R,
    elements: &mut R::Array,
    token: TokenKind,
    count: usize,
) -> Result<(), Stopped>
    requires token { IsToken context.old (last context.old token) }
    requires around { count ≤ 512 }
    requires held { (s : R) × (i : ℕ) × (xs : List Located) × R.holds_elements s to.old elements.old i xs }
    requires lent { IsLentHere context.old (Some token) }
    requires source { R.source to.old ≡ source_of context.old }
    requires follows { Follows (R.source to.old) (R.reached to.old) (token_start context.old) }
    ensures read { OnOk result (IsRead context.old context.new (R.source to.old) (R.source to.new) (R.reached to.new)
        ((s : R) (i : ℕ) → ElementMade context.old context.new R.whole count (R.holds_elements s to.old elements.old i)
        (R.holds_elements s to.new elements.new i))) }
    ensures refused { OnErr result (IsRefused context.old R.Error (NoValueHere context.old R.whole count)
        (StopsAtValue context.old (last context.old token) R.whole count) context.new.fault) }
{
    match token {
        TokenKind::String => {
            let range = context.range();
            let string = context.content.take_string();
            let Ok(item) = hand_string(to, range, string) else {
                return Err(context.stop_for_memory());
            };
            let Ok(()) = to.element(elements, item) else {
                return Err(context.stop_for_memory());
            };
            Ok(())
        }
        TokenKind::Number => {
            let range = context.range();
            let Ok(item) = to.number(range) else {
                return Err(context.stop_for_memory());
            };
            let Ok(()) = to.element(elements, item) else {
                return Err(context.stop_for_memory());
            };
            Ok(())
        }
        TokenKind::Plain => {
            let range = context.range();
            let Ok(item) = to.string(range) else {
                return Err(context.stop_for_memory());
            };
            let Ok(()) = to.element(elements, item) else {
                return Err(context.stop_for_memory());
            };
            Ok(())
        }
        token => {
            let value = parse_value(context, to, token, count)?;
            let Ok(()) = to.element(elements, value) else {
                return Err(context.stop_for_memory());
            };
            Ok(())
        }
    }
}

// The array that begins with the last token, a `[`.
#[cycle(parse)]
#[inline(never)]
fn parse_array<'a, A: Allocator + Copy, R: Receiver<String<A>>>(
    context: &mut Context<'a, A>,
    to: &mut R,
    count: usize,
) -> Result<R::Item, Stopped>
    requires token { IsBracket 0x5B context.old }
    requires around { count ≤ 512 }
    requires source { R.source to.old ≡ source_of context.old }
    requires follows { Follows (R.source to.old) (R.reached to.old) (token_start context.old) }
    ensures read { IfOk result (λ i. IsRead context.old context.new (R.source to.old) (R.source to.new) (R.reached to.new)
        (ReadsMade context.old context.new R.whole count (R.makes to.old to.new i))) }
    ensures refused { OnErr result (IsRefused context.old R.Error (NoValueHere context.old R.whole count)
        (StopsAtContainer context.old R.whole count) context.new.fault) }
{
    let start = context.scanner.token_start();
    if opens_too_deep(to, count) {
        return Err(context.stop_too_deep(start));
    }
    let from = told_from(to, start);
    let Ok(mut elements) = to.open_array(start) else {
        return Err(context.stop_for_memory());
    };
    let mut next = context.first_item(to, Container::Array, from)?;
    while let Some(token) = next {
        if holds_too_deep(to, count) {
            return Err(context.stop_too_deep(start));
        }
        parse_element(context, to, &mut elements, token, count + 1)?;
        next = context.next_item(to, Container::Array, from)?;
    }
    let range = Range::new(start, context.scanner.token_end());
    let Ok(array) = to.close_array(elements, range) else {
        return Err(context.stop_for_memory());
    };
    Ok(array)
}

// The object that begins with the last token, a `{`.
#[cycle(parse)]
#[inline(never)]
fn parse_object<'a, A: Allocator + Copy, R: Receiver<String<A>>>(
    context: &mut Context<'a, A>,
    to: &mut R,
    count: usize,
) -> Result<R::Item, Stopped>
    requires token { IsBracket 0x7B context.old }
    requires around { count ≤ 512 }
    requires source { R.source to.old ≡ source_of context.old }
    requires follows { Follows (R.source to.old) (R.reached to.old) (token_start context.old) }
    ensures read { IfOk result (λ i. IsRead context.old context.new (R.source to.old) (R.source to.new) (R.reached to.new)
        (ReadsMade context.old context.new R.whole count (R.makes to.old to.new i))) }
    ensures refused { OnErr result (IsRefused context.old R.Error (NoValueHere context.old R.whole count)
        (StopsAtContainer context.old R.whole count) context.new.fault) }
{
    let start = context.scanner.token_start();
    if opens_too_deep(to, count) {
        return Err(context.stop_too_deep(start));
    }
    let from = told_from(to, start);
    let Ok(mut properties) = to.open_object(start) else {
        return Err(context.stop_for_memory());
    };
    let mut next = context.first_item(to, Container::Object, from)?;
    while let Some(token) = next {
        parse_property(context, to, &mut properties, token, count + 1)?;
        next = context.next_item(to, Container::Object, from)?;
    }
    let range = Range::new(start, context.scanner.token_end());
    let Ok(object) = to.close_object(properties, range) else {
        return Err(context.stop_for_memory());
    };
    Ok(object)
}

// The property that begins with the last token, inside of so many of what counts, put among the others.
#[cycle(parse)]
#[inline(always)]
fn parse_property<'a, A: Allocator + Copy, R: Receiver<String<A>>>(
    context: &mut Context<'a, A>,
    to: &mut R,
    properties: &mut R::Object,
    token: TokenKind,
    count: usize,
) -> Result<(), Stopped>
    requires token { IsToken context.old (last context.old token) }
    requires around { count + least R.whole ≤ 513 }
    requires held { (s : R) × (i : ℕ) × (ms : List LocatedMember) × R.holds_properties s to.old properties.old i ms }
    requires lent { IsLentHere context.old (Some token) }
    requires source { R.source to.old ≡ source_of context.old }
    requires follows { Follows (R.source to.old) (R.reached to.old) (token_start context.old) }
    ensures read { OnOk result (IsRead context.old context.new (R.source to.old) (R.source to.new) (R.reached to.new)
        ((s : R) (i : ℕ) → PropertyMade context.old context.new R.whole count (R.holds_properties s to.old properties.old i)
        (R.holds_properties s to.new properties.new i))) }
    ensures refused { OnErr result (IsRefused context.old R.Error (NoPropertyHere context.old R.whole count)
        (StopsAtItem Object context.old (last context.old token) R.whole count) context.new.fault) }
{
    let start = context.scanner.token_start();
    let named = parse_name(context, to, token)?;
    context.pass_colon(to)?;
    let found = context.scan(to)?;
    if holds_too_deep(to, count) {
        return Err(context.stop_too_deep(start));
    }
    let Some(token) = found else {
        return Err(context.stop_without_value());
    };
    let around = around_value(to, count);
    let value = parse_value(context, to, token, around)?;
    let range = Range::new(start, context.scanner.token_end());
    let Ok(()) = to.property(properties, named, value, range) else {
        return Err(context.stop_for_memory());
    };
    Ok(())
}

// Reads the whole text, and answers what was made of its value, or none where it holds blanks and comments alone.
fn read_text<'a, A: Allocator + Copy, R: Receiver<String<A>>>(
    context: &mut Context<'a, A>,
    to: &mut R,
) -> Result<Option<R::Item>, Stopped>
    requires start { token_end context.old ≡ 0 }
    requires source { R.source to.old ≡ source_of context.old }
    requires reached { R.reached to.old 0 }
    ensures kept { OnOk result (Keeps context.old context.new) }
    ensures collects { OnOk result (Collects context.old context.new) }
    ensures end { OnOk result (AtEnd context.new) }
    ensures reached { OnOk result (R.reached to.new (token_end context.new)) }
    ensures found { IfOk result
        (IsDocumentMade (source_of context.old) R.whole (MadeBetweenGaps R.passes R.makes to.old to.new)) }
    ensures none { IfOk result (λ f. IfNone f (R.passes to.old to.new)) }
    ensures refused { OnErr result (Refuses (options_in context.old) R.whole (text_in context.old) context.new.fault) }
    ensures fault { OnErr result (IsFaultHere context.old R.Error context.new.fault) }
    ensures error { OnErr result (ParseFault (options_in context.old) (text_in context.old) R.whole context.new.fault) }
{
    let Some(token) = context.scan(to)? else {
        return Ok(None);
    };
    let value = parse_value(context, to, token, 0)?;
    let None = context.scan(to)? else {
        return Err(context.stop_behind_value());
    };
    Ok(Some(value))
}

/// Reads the whole text, and answers what was made of its value, or none where it holds blanks and comments alone.
pub fn read_document<'a, A: Allocator + Copy, R: Receiver<String<A>>>(
    context: &mut Context<'a, A>,
    to: &mut R,
) -> Result<Option<R::Item>, ParseError>
    requires start { token_end context.old ≡ 0 }
    requires source { R.source to.old ≡ source_of context.old }
    requires reached { R.reached to.old 0 }
    ensures kept { OnOk result (Keeps context.old context.new) }
    ensures collects { OnOk result (Collects context.old context.new) }
    ensures end { OnOk result (AtEnd context.new) }
    ensures reached { OnOk result (R.reached to.new (token_end context.new)) }
    ensures found { IfOk result
        (IsDocumentMade (source_of context.old) R.whole (MadeBetweenGaps R.passes R.makes to.old to.new)) }
    ensures none { IfOk result (λ f. IfNone f (R.passes to.old to.new)) }
    ensures refused { IfErr result (Refuses (options_in context.old) R.whole (text_in context.old)) }
    ensures fault { IfErr result (IsFault (text_in context.old)) }
    ensures memory { IfErr result (λ e. IsAllocationFailure e → AsksForMemory context.old ⊎ R.Error) }
    ensures error { IfErr result (ParseFault (options_in context.old) (text_in context.old) R.whole) }
{
    match read_text(context, to) {
        Ok(item) => Ok(item),
        Err(_) => Err(context.taken_fault()),
    }
}
