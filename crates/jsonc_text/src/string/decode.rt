//! Strings in their quotes, and what they stand for (RFC 8259, 7; JSON5, 5).
ghost use Rattle.std.specs.Prelude.{◌≡◌, ◌≢◌, ◌≤◌, ◌++◌, ◌+◌, length, IfOk, IfErr, IsCharBoundary, chars};
ghost use Rattle.std.specs.String.{string_bytes};
ghost use Rattle.std.specs.Cow.{cow_str_bytes, IsOwnedStr};
ghost use Rattle.jsonc_text.specs.Chars.{Steps};
ghost use Rattle.jsonc_text.specs.Options.{all_on};
ghost use Rattle.jsonc_text.specs.Strings.{IsQuote};
ghost use Rattle.jsonc_text.specs.Text.{Many};
ghost use Rattle.jsonc_text.specs.string.Between.{Between, LacksAt, Reaches, is_neither};
ghost use Rattle.jsonc_text.specs.string.Escapes.{IsQuoted, NoQuoted, IsLentUnescaped, StringHoldsBackslash, IsStringRefusal, given};
ghost use Rattle.jsonc_text.specs.string.Faults.{IsStringFault};

use crate::chars::has_byte;
use crate::common::Range;
use crate::errors::ParseStringErrorKind;
use crate::runs::byte_stop;
use crate::string::escape::{Literal, StringFault, read_escape, unterminated};
use crate::string::plain::plain_escape;
use crate::string::stops::stop_place;
use std::alloc::{AllocError, Allocator};
use std::borrow::CowStr;

/// A decoded string, and the place after its closing quote.
#[derive(Drop)]
pub struct Decoded<'a, A: Allocator> {
    pub string: CowStr<'a, A>,
    pub end: usize,
}

/// The string at a place, where its quote stands. It is lent by the text where no backslash is in
/// it. An allocation failure has no bytes, at the opening quote.
pub fn decode_string<'a, A: Allocator>(
    alloc: A,
    text: &'a str,
    literal: Literal,
) -> Result<Decoded<'a, A>, StringFault>
    requires boundary { IsCharBoundary text.now literal.start }
    requires opens { Steps text.now literal.start literal.quote (literal.start + 1) }
    requires quote { IsQuote all_on literal.quote }
    ensures found { IfOk result
        (λ d. Between (IsQuoted literal.extended literal.quote
        (chars (cow_str_bytes d.string))) text.now literal.start d.end) }
    ensures lent { IfOk result (λ d. IsLentUnescaped text.now literal.start d.end d.string) }
    ensures none { IfErr result (λ f. f.kind ≢ ParseStringErrorKind.OutOfMemory
        → NoQuoted literal.extended literal.quote text.now literal.start) }
    ensures places { IfErr result (IsStringRefusal text.now literal.start) }
    ensures error { IfErr result (IsStringFault literal.extended literal.quote text.now literal.start) }
    ensures place { IfErr result (λ f. f.kind ≡ ParseStringErrorKind.OutOfMemory
        → f.range ≡ record { start = literal.start; end = literal.start }) }
    ensures memory { IfErr result (λ f. f.kind ≡ ParseStringErrorKind.OutOfMemory
        → StringHoldsBackslash text.now literal.start) }
    ensures escaped { IfOk result (λ d. IsOwnedStr d.string → StringHoldsBackslash text.now literal.start) }
{
    let stop = stop_place(text, literal.start + 1, literal.quote, b'\\');
    decode_from(alloc, text, literal, stop)
}

/// The same, of a string whose first backslash or quote stands at a place, or the end of the text.
#[inline(always)]
pub fn decode_from<'a, A: Allocator>(
    alloc: A,
    text: &'a str,
    literal: Literal,
    stop: usize,
) -> Result<Decoded<'a, A>, StringFault>
    requires boundary { IsCharBoundary text.now literal.start }
    requires opens { Steps text.now literal.start literal.quote (literal.start + 1) }
    requires quote { IsQuote all_on literal.quote }
    requires run { Reaches (Many (is_neither literal.quote 0x5C)) text.now (literal.start + 1) stop }
    requires stops { LacksAt (is_neither literal.quote 0x5C) text.now stop }
    ensures found { IfOk result
        (λ d. Between (IsQuoted literal.extended literal.quote
        (chars (cow_str_bytes d.string))) text.now literal.start d.end) }
    ensures lent { IfOk result (λ d. IsLentUnescaped text.now literal.start d.end d.string) }
    ensures none { IfErr result (λ f. f.kind ≢ ParseStringErrorKind.OutOfMemory
        → NoQuoted literal.extended literal.quote text.now literal.start) }
    ensures places { IfErr result (IsStringRefusal text.now literal.start) }
    ensures error { IfErr result (IsStringFault literal.extended literal.quote text.now literal.start) }
    ensures place { IfErr result (λ f. f.kind ≡ ParseStringErrorKind.OutOfMemory
        → f.range ≡ record { start = literal.start; end = literal.start }) }
    ensures memory { IfErr result (λ f. f.kind ≡ ParseStringErrorKind.OutOfMemory
        → StringHoldsBackslash text.now literal.start) }
    ensures escaped { IfOk result (λ d. IsOwnedStr d.string → StringHoldsBackslash text.now literal.start) }
{
    if has_byte(text, stop, literal.quote) {
        return Ok(Decoded {
            string: CowStr::Borrowed(&text[literal.start + 1..stop]),
            end: stop + 1,
        });
    }
    if !has_byte(text, stop, b'\\') {
        return Err(unterminated(text, literal.start));
    }
    decode_escaped(alloc, text, literal, stop)
}

/// Appends a part of a text, and the character of an escape, if it stands for one.
#[inline(always)]
fn append<A: Allocator>(
    copy: &mut String<A>,
    front: &str,
    character: Option<char>,
) -> Result<(), AllocError>
    ensures { IfOk result (λ _. chars (string_bytes copy.new)
        ≡ (chars (string_bytes copy.old) ++ chars front.now) ++ given character) }
{
    copy.push_str(front)?;
    let Some(c) = character else {
        return Ok(());
    };
    copy.push(c)?;
    Ok(())
}

/// The place of the quote that closes a string, from its first backslash on, or the end of the text.
///
/// A string stands for no more bytes than it is written in.
fn closing_place(bytes: &[u8], first_stop: usize, quote: u8) -> usize
    requires { first_stop ≤ length bytes.now }
    ensures { first_stop ≤ result }
{
    let mut place = first_stop;
    while place < bytes.len() && bytes[place] == b'\\' {
        if bytes.len() - place < 2 {
            return bytes.len();
        }
        place = byte_stop(bytes, place + 2, quote, b'\\');
    }
    place
}

/// The same, of a string whose first backslash stands at a place: a copy.
#[inline(always)]
fn decode_escaped<'a, A: Allocator>(
    alloc: A,
    text: &'a str,
    literal: Literal,
    first_stop: usize,
) -> Result<Decoded<'a, A>, StringFault>
    requires boundary { IsCharBoundary text.now literal.start }
    requires opens { Steps text.now literal.start literal.quote (literal.start + 1) }
    requires quote { IsQuote all_on literal.quote }
    requires run { Reaches (Many (is_neither literal.quote 0x5C)) text.now (literal.start + 1) first_stop }
    requires backslash { Steps text.now first_stop 0x5C (first_stop + 1) }
    ensures found { IfOk result
        (λ d. Between (IsQuoted literal.extended literal.quote
        (chars (cow_str_bytes d.string))) text.now literal.start d.end) }
    ensures lent { IfOk result (λ d. IsLentUnescaped text.now literal.start d.end d.string) }
    ensures none { IfErr result (λ f. f.kind ≢ ParseStringErrorKind.OutOfMemory
        → NoQuoted literal.extended literal.quote text.now literal.start) }
    ensures places { IfErr result (IsStringRefusal text.now literal.start) }
    ensures error { IfErr result (IsStringFault literal.extended literal.quote text.now literal.start) }
    ensures place { IfErr result (λ f. f.kind ≡ ParseStringErrorKind.OutOfMemory
        → f.range ≡ record { start = literal.start; end = literal.start }) }
{
    let no_memory = StringFault {
        range: Range {
            start: literal.start,
            end: literal.start,
        },
        kind: ParseStringErrorKind::OutOfMemory,
    };
    let room = closing_place(text.as_bytes(), first_stop, literal.quote) - literal.start;
    let Ok(mut copy) = String::with_capacity(alloc, room) else {
        return Err(no_memory);
    };
    let mut from = literal.start + 1;
    let mut place = first_stop;
    while has_byte(text, place, b'\\') {
        let escape = match plain_escape(text, place, literal) {
            Some(escape) => escape,
            None => match read_escape(text, place, literal) {
                Ok(escape) => escape,
                Err(fault) => return Err(fault),
            },
        };
        let Ok(()) = append(&mut copy, &text[from..place], escape.character) else {
            return Err(no_memory);
        };
        from = escape.end;
        place = stop_place(text, from, literal.quote, b'\\');
    }
    if !has_byte(text, place, literal.quote) {
        return Err(unterminated(text, literal.start));
    }
    let Ok(()) = append(&mut copy, &text[from..place], None) else {
        return Err(no_memory);
    };
    Ok(Decoded {
        string: CowStr::Owned(copy),
        end: place + 1,
    })
}
