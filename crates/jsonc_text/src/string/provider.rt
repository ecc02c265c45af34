//! Decoding a string by itself, from a text or from a provider of characters.
ghost use Rattle.std.specs.Prelude.{◌≡◌, ◌≤◌, ℕ, List, true, IfOk, IfErr, OnErr, IfSome, IfNone, IsCharBoundary};
ghost use Rattle.jsonc_text.specs.Options.{all_on};
ghost use Rattle.jsonc_text.specs.string.Escapes.{StringHoldsBackslash};
ghost use Rattle.jsonc_text.specs.string.Parsed.{BeginsString, IsStringError, Parses, ParsesFront, PassesChar, StandsHere};
ghost use Rattle.jsonc_text.specs.string.Quotes.{OpensString, OpensNoString};

use crate::chars::has_byte;
use crate::errors::ParseStringErrorKind;
use crate::string::decode::{Decoded, decode_string};
use crate::string::escape::Literal;
use std::alloc::Allocator;
use std::borrow::CowStr;

/// What is wrong with a string, and where.
#[derive(Clone, Copy, Debug, PartialEq, Eq, Drop)]
pub struct ParseStringError {
    /// The place of the fault: that of the escape's backslash, or of the opening quote, which is
    /// that of an allocation failure too.
    pub byte_index: usize,
    /// What is wrong there.
    pub kind: ParseStringErrorKind,
}

/// Decodes the string at the front of a text, with the extended escapes.
///
/// What follows its closing quote is ignored. Only a string with a backslash takes memory. A text
/// that does not begin with a quote is the error `UnterminatedStringLiteral` at place 0.
pub fn parse_string<'a, A: Allocator>(
    alloc: A,
    text: &'a str,
) -> Result<CowStr<'a, A>, ParseStringError>
    ensures found { IfOk result (ParsesFront true text.now 0) }
    ensures fault { IfErr result (IsStringError true text.now 0) }
    ensures memory { IfErr result (λ e. e.kind ≡ ParseStringErrorKind.OutOfMemory → StringHoldsBackslash text.now 0) }
    ensures place { IfErr result (λ e. e.kind ≡ ParseStringErrorKind.OutOfMemory → e.byte_index ≡ 0) }
{
    let Some(quote) = opening_quote(text, 0) else {
        return Err(ParseStringError {
            byte_index: 0,
            kind: ParseStringErrorKind::UnterminatedStringLiteral,
        });
    };
    let decoded = decode_at(alloc, text, 0, quote, true)?;
    Ok(decoded.string)
}

/// The characters of a text, one after another.
pub trait CharProvider<'a> {
    ghost bytes: { Self → List ℕ };

    ghost place: { Self → ℕ };

    /// The character where the provider stands, or None at the end of the text.
    fn current_char(&mut self) -> Option<char>
        ensures text { bytes self.new ≡ bytes self.old }
        ensures place { place self.new ≡ place self.old }
        ensures here { StandsHere (bytes self.new) (place self.new) result };

    /// The place where the provider stands, in bytes of the text.
    fn byte_index(&self) -> usize
        ensures index { result ≡ place self.now }
        ensures boundary { IsCharBoundary (bytes self.now) (place self.now) };

    /// Passes the current character, and answers the next one.
    fn move_next_char(&mut self) -> Option<char>
        ensures text { bytes self.new ≡ bytes self.old }
        ensures passes { PassesChar (bytes self.old) (place self.old) (place self.new) }
        ensures next { StandsHere (bytes self.new) (place self.new) result };

    /// The whole text.
    fn text(&self) -> &'a str
        ensures { result.now ≡ bytes self.now };
}

/// Decodes the string whose opening quote is the provider's character, and passes it.
///
/// After an error the provider stands where it stood. Only a string with a backslash takes memory.
pub fn parse_string_with_char_provider<'a, A: Allocator, T: CharProvider<'a>>(
    alloc: A,
    chars: &mut T,
    allow_extended_escapes: bool,
) -> Result<CowStr<'a, A>, ParseStringError>
    requires { BeginsString (T.bytes chars.old) (T.place chars.old) }
    ensures text { T.bytes chars.new ≡ T.bytes chars.old }
    ensures found { IfOk result
        (Parses allow_extended_escapes (T.bytes chars.old) (T.place chars.old)
        (T.place chars.new)) }
    ensures fault { IfErr result (IsStringError allow_extended_escapes (T.bytes chars.old) (T.place chars.old)) }
    ensures memory { IfErr result (λ e. e.kind ≡ ParseStringErrorKind.OutOfMemory
        → StringHoldsBackslash (T.bytes chars.old) (T.place chars.old)) }
    ensures place { IfErr result (λ e. e.kind ≡ ParseStringErrorKind.OutOfMemory → e.byte_index ≡ T.place chars.old) }
    ensures stays { OnErr result (T.place chars.new ≡ T.place chars.old) }
{
    let text = chars.text();
    let start = chars.byte_index();
    let quote = quote_here(text, start);
    let decoded = decode_at(alloc, text, start, quote, allow_extended_escapes)?;
    pass_to(chars, text, decoded.end);
    Ok(decoded.string)
}

/// The quote at a place.
fn quote_here(text: &str, place: usize) -> u8
    requires boundary { IsCharBoundary text.now place }
    requires quote { BeginsString text.now place }
    ensures { OpensString all_on text.now place result }
{
    match opening_quote(text, place) {
        Some(quote) => quote,
        None => unreachable!(),
    }
}

/// Passes the characters up to a place of the provider's text.
fn pass_to<'a, T: CharProvider<'a>>(chars: &mut T, text: &'a str, end: usize)
    requires text { text.now ≡ T.bytes chars.old }
    requires boundary { IsCharBoundary text.now end }
    requires order { T.place chars.old ≤ end }
    requires place { IsCharBoundary text.now (T.place chars.old) }
    ensures text { T.bytes chars.new ≡ T.bytes chars.old }
    ensures place { T.place chars.new ≡ end }
{
    while chars.byte_index() < end {
        chars.move_next_char();
    }
}

/// The quote of either kind at a place, or none.
pub fn opening_quote(text: &str, place: usize) -> Option<u8>
    requires { IsCharBoundary text.now place }
    ensures found { IfSome result (OpensString all_on text.now place) }
    ensures none { IfNone result (OpensNoString all_on text.now place) }
{
    if has_byte(text, place, b'"') {
        return Some(b'"');
    }
    if has_byte(text, place, b'\'') {
        return Some(b'\'');
    }
    None
}

/// The string at a place, where its quote stands.
fn decode_at<'a, A: Allocator>(
    alloc: A,
    text: &'a str,
    start: usize,
    quote: u8,
    extended: bool,
) -> Result<Decoded<'a, A>, ParseStringError>
    requires boundary { IsCharBoundary text.now start }
    requires quote { OpensString all_on text.now start quote }
    ensures found { IfOk result (λ d. Parses extended text.now start d.end d.string) }
    ensures fault { IfErr result (IsStringError extended text.now start) }
    ensures memory { IfErr result (λ e. e.kind ≡ ParseStringErrorKind.OutOfMemory
        → StringHoldsBackslash text.now start) }
    ensures place { IfErr result (λ e. e.kind ≡ ParseStringErrorKind.OutOfMemory → e.byte_index ≡ start) }
{
    let literal = Literal {
        start,
        quote,
        extended,
    };
    match decode_string(alloc, text, literal) {
        Ok(decoded) => Ok(decoded),
        Err(fault) => Err(ParseStringError {
            byte_index: fault.range.start,
            kind: fault.kind,
        }),
    }
}
