//! String tokens.
ghost use Rattle.std.specs.Prelude.{◌≡◌, ◌≢◌, ◌↔◌, ◌+◌, IsCharBoundary, IfOk, IfErr, IfSome};
ghost use Rattle.jsonc_text.specs.Faults.{IsFault, kind_of};
ghost use Rattle.jsonc_text.specs.OptionsOf.{parse_options};
ghost use Rattle.jsonc_text.specs.Chars.{Steps};
ghost use Rattle.jsonc_text.specs.Lexemes.{IsScanned, lexeme, string};
ghost use Rattle.jsonc_text.specs.StringValue.{string_value};
ghost use Rattle.jsonc_text.specs.Text.{Many, Spans};
ghost use Rattle.jsonc_text.specs.string.Between.{Between, LacksAt, Reaches, is_neither};
ghost use Rattle.jsonc_text.specs.string.Escapes.{HoldsBackslash, StringHoldsBackslash};
ghost use Rattle.jsonc_scan.specs.Reads.{IsPlainString, IsStringAnyhow, IsStringPassed, IsStringRead, NothingAt};
ghost use Rattle.jsonc_scan.specs.Refusals.{IsFaultOfString, IsFaultOfStringToken, IsTextFault};
ghost use Rattle.jsonc_scan.specs.Faults.{IsTrueOf};
ghost use Rattle.jsonc_text.specs.string.Quotes.{OpensString};

use crate::faults::out_of_memory;
use jsonc_text::chars::has_byte;
use jsonc_text::errors::{ParseError, ParseErrorKind, ParseStringErrorKind};
use jsonc_text::options::ParseOptions;
use jsonc_text::string::decode::{Decoded, decode_from};
use jsonc_text::string::escape::{Literal, StringFault};
use jsonc_text::string::pass::{PassedString, pass_escaped, pass_from};
use std::alloc::Allocator;
use std::borrow::CowStr;

/// The string between double quotes at a place, if no backslash stands in it. Its first quote or backslash is known.
#[inline(always)]
pub(crate) fn plain_string<'a, A: Allocator>(
    text: &'a str,
    start: usize,
    stop: usize,
) -> Option<Decoded<'a, A>>
    requires boundary { IsCharBoundary text.now start }
    requires opens { Steps text.now start 0x22 (start + 1) }
    requires run { Reaches (Many (is_neither 0x22 0x5C)) text.now (start + 1) stop }
    ensures { IfSome result (IsStringAnyhow text.now start) }
{
    if !has_byte(text, stop, b'"') {
        return None;
    }
    Some(Decoded {
        string: CowStr::Borrowed(&text[start + 1..stop]),
        end: stop + 1,
    })
}

/// The place after the string between double quotes at a place, if no backslash stands in it. Its first quote or backslash
/// is known.
#[inline(always)]
pub(crate) fn plain_end(text: &str, start: usize, stop: usize) -> Option<usize>
    requires boundary { IsCharBoundary text.now start }
    requires opens { Steps text.now start 0x22 (start + 1) }
    requires run { Reaches (Many (is_neither 0x22 0x5C)) text.now (start + 1) stop }
    ensures { IfSome result (IsPlainString text.now start) }
{
    if !has_byte(text, stop, b'"') {
        return None;
    }
    Some(stop + 1)
}

/// The place after a string between double quotes whose first backslash is known, if all is right with it.
#[inline(never)]
pub(crate) fn escaped_end(
    text: &str,
    start: usize,
    stop: usize,
    options: &ParseOptions,
) -> Option<usize>
    requires boundary { IsCharBoundary text.now start }
    requires opens { Steps text.now start 0x22 (start + 1) }
    requires run { Reaches (Many (is_neither 0x22 0x5C)) text.now (start + 1) stop }
    requires backslash { Steps text.now stop 0x5C (stop + 1) }
    ensures stands { IfSome result (λ end. Between (IsScanned (parse_options options.now)
        (lexeme (string (string_value text.now start end)))) text.now start end) }
    ensures holds { IfSome result (HoldsBackslash text.now start) }
{
    let literal = Literal {
        start,
        quote: b'"',
        extended: options.allow_extended_string_escapes,
    };
    match pass_escaped(text, literal, stop) {
        Ok(passed) => Some(passed.end),
        Err(_) => None,
    }
}

/// The string at a place, where its quote stands, and whose first backslash or such quote is known.
#[inline(never)]
pub(crate) fn read_string<'a, A: Allocator + Copy>(
    alloc: A,
    text: &'a str,
    start: usize,
    quote: u8,
    stop: usize,
    options: &ParseOptions,
) -> Result<Decoded<'a, A>, ParseError>
    requires boundary { IsCharBoundary text.now start }
    requires quote { OpensString (parse_options options.now) text.now start quote }
    requires run { Reaches (Many (is_neither quote 0x5C)) text.now (start + 1) stop }
    requires stops { LacksAt (is_neither quote 0x5C) text.now stop }
    ensures found { IfOk result (IsStringRead (parse_options options.now) text.now start) }
    ensures none { IfErr result (λ e. kind_of e ≢ ParseErrorKind.OutOfMemory
        → NothingAt (parse_options options.now) text.now start) }
    ensures fault { IfErr result (IsFault text.now) }
    ensures error { IfErr result (IsFaultOfString (parse_options options.now) text.now start) }
    ensures memory { IfErr result (λ e. kind_of e ≡ ParseErrorKind.OutOfMemory → StringHoldsBackslash text.now start) }
{
    let literal = Literal {
        start,
        quote,
        extended: options.allow_extended_string_escapes,
    };
    match decode_from(alloc, text, literal, stop) {
        Ok(decoded) => Ok(decoded),
        Err(fault) => Err(string_error(text, fault)),
    }
}

/// The same, passed without decoding it.
pub(crate) fn pass_string_at(
    text: &str,
    start: usize,
    quote: u8,
    stop: usize,
    options: &ParseOptions,
) -> Result<PassedString, ParseError>
    requires boundary { IsCharBoundary text.now start }
    requires quote { OpensString (parse_options options.now) text.now start quote }
    requires run { Reaches (Many (is_neither quote 0x5C)) text.now (start + 1) stop }
    requires stops { LacksAt (is_neither quote 0x5C) text.now stop }
    ensures found { IfOk result (IsStringPassed (parse_options options.now) text.now start) }
    ensures none { IfErr result (λ _. NothingAt (parse_options options.now) text.now start) }
    ensures fault { IfErr result (IsTextFault text.now) }
    ensures error { IfErr result (IsTrueOf (parse_options options.now) text.now start) }
{
    let literal = Literal {
        start,
        quote,
        extended: options.allow_extended_string_escapes,
    };
    match pass_from(text, literal, stop) {
        Ok(passed) => Ok(passed),
        Err(fault) => Err(string_error(text, fault)),
    }
}

/// A string's fault as a fault of its text.
#[cold]
fn string_error(text: &str, fault: StringFault) -> ParseError
    requires { Spans text.now fault.range.start fault.range.end }
    ensures fault { IsFault text.now result }
    ensures memory { kind_of result ≡ ParseErrorKind.OutOfMemory ↔ fault.kind ≡ ParseStringErrorKind.OutOfMemory }
    ensures error { fault.kind ≢ ParseStringErrorKind.OutOfMemory → IsFaultOfStringToken fault result }
{
    match fault.kind {
        ParseStringErrorKind::OutOfMemory => out_of_memory(text),
        kind => ParseError::new(fault.range, ParseErrorKind::String(kind), text),
    }
}
