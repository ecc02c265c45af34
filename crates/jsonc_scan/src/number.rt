//! Where numbers end (RFC 8259, 6; JSON5, 6).
//!
//! A number commits: what begins as one is that number or a fault, never a shorter number.
ghost use Rattle.std.specs.Prelude.{◌≡◌, ◌↔◌, ◌+◌, ◌<◌, ◌||◌, ◌==◌, IsTrue, false, IfOk, IfErr, IfSome, IfNone, chars, codes, IsCharBoundary, length};
ghost use Rattle.jsonc_text.specs.string.Between.{Between, Reaches, LacksAt, NoneFrom};
ghost use Rattle.jsonc_scan.specs.Between.{HasAt, IsWhole};
ghost use Rattle.jsonc_text.specs.Numbers.{Whole, Fraction, Exponent, Number, NumberLit};
ghost use Rattle.jsonc_text.specs.Chars.{Steps};
ghost use Rattle.jsonc_text.specs.OptionsOf.{parse_options};
ghost use Rattle.jsonc_scan.specs.Reads.{HasHexadecimalMark, HasName, LacksHexadecimalMark, IsRead, IsReadName, IsAfterSign, IsSignedName, IsUnsigned, NoFinite, NoFraction, NoNames, NoneAfterSign, NoNumber, NoUnsigned, begins_number};
ghost use Rattle.jsonc_scan.specs.Refusals.{IsTextFault, IsBarePoint, IsExponentFault, IsFaultOfNumber, IsNumberFault, IsSignedFault, LacksFraction};
ghost use Rattle.jsonc_scan.specs.Faults.{IsName};
ghost use Rattle.jsonc_text.specs.Text.{Spans, AllOf, rest, is_digit, is_hex_digit};
ghost use Rattle.std.specs.Str.{IsAscii};

use crate::faults::{fault, fault_at};
use crate::lexeme::{Lexeme, Read};
use crate::plain::plain_number;
use crate::word::keyword_end;
use jsonc_text::chars::{digits_end, has_byte, hex_digits_end};
use jsonc_text::errors::{ParseError, ParseErrorKind};
use jsonc_text::options::ParseOptions;

/// Whether one of two ASCII characters stands at a place.
pub(crate) fn has_either(text: &str, place: usize, first: u8, second: u8) -> bool
    requires boundary { IsCharBoundary text.now place }
    requires ascii { (first < 128) × (second < 128) }
    ensures here { IsTrue result → HasAt (λ c. c == first || c == second) text.now place }
    ensures other { result ≡ false → LacksAt (λ c. c == first || c == second) text.now place }
{
    let bytes = text.as_bytes();
    if place < bytes.len() {
        let byte = bytes[place];
        (byte == first) | (byte == second)
    } else {
        false
    }
}

/// Whether a digit stands at a place.
pub(crate) fn has_digit(text: &str, place: usize) -> bool
    requires { IsCharBoundary text.now place }
    ensures here { IsTrue result → HasAt is_digit text.now place }
    ensures other { result ≡ false → LacksAt is_digit text.now place }
{
    let bytes = text.as_bytes();
    if place < bytes.len() {
        bytes[place].is_ascii_digit()
    } else {
        false
    }
}

/// Whether a hex digit stands at a place.
fn has_hex_digit(text: &str, place: usize) -> bool
    requires { IsCharBoundary text.now place }
    ensures here { IsTrue result → HasAt is_hex_digit text.now place }
    ensures other { result ≡ false → LacksAt is_hex_digit text.now place }
{
    let bytes = text.as_bytes();
    if place < bytes.len() {
        bytes[place].is_ascii_hexdigit()
    } else {
        false
    }
}

/// The place after the digits at a place, at least one, or none.
#[inline(always)]
pub(crate) fn some_digits_end(text: &str, start: usize) -> Option<usize>
    requires { IsCharBoundary text.now start }
    ensures found { IfSome result (Between (AllOf is_digit) text.now start) }
    ensures none { IfNone result (LacksAt is_digit text.now start) }
{
    if !has_digit(text, start) {
        return None;
    }
    Some(digits_end(text, start + 1))
}

/// The place after the hex digits at a place, at least one, or none.
fn some_hex_digits_end(text: &str, start: usize) -> Option<usize>
    requires { IsCharBoundary text.now start }
    ensures found { IfSome result (Between (AllOf is_hex_digit) text.now start) }
    ensures none { IfNone result (LacksAt is_hex_digit text.now start) }
{
    if !has_hex_digit(text, start) {
        return None;
    }
    Some(hex_digits_end(text, start + 1))
}

/// The place after the exponent at a place, or the place itself where no `e` stands.
#[inline(always)]
fn exponent_end(text: &str, start: usize) -> Result<usize, ParseError>
    requires { IsCharBoundary text.now start }
    ensures found { IfOk result (Reaches Exponent text.now start) }
    ensures none { IfErr result (λ _. NoneFrom Exponent text.now start) }
    ensures fault { IfErr result (IsTextFault text.now) }
    ensures error { IfErr result (IsExponentFault text.now start) }
{
    if !has_either(text, start, b'e', b'E') {
        return Ok(start);
    }
    if has_either(text, start + 1, b'+', b'-') {
        return match some_digits_end(text, start + 2) {
            Some(end) => Ok(end),
            None => Err(fault_at(text, start + 2, ParseErrorKind::ExpectedDigit)),
        };
    }
    match some_digits_end(text, start + 1) {
        Some(end) => Ok(end),
        None => {
            let kind = ParseErrorKind::ExpectedPlusMinusOrDigitInNumberLiteral;
            Err(fault_at(text, start + 1, kind))
        }
    }
}

/// The place after the fraction at a place, or the place itself where no point stands; the number began at `number`.
fn fraction_end(
    text: &str,
    number: usize,
    start: usize,
    options: &ParseOptions,
) -> Result<usize, ParseError>
    requires { Spans text.now number start }
    ensures found { IfOk result (Reaches (Fraction (parse_options options.now)) text.now start) }
    ensures none { IfErr result (λ _. NoFraction (parse_options options.now) text.now start) }
    ensures fault { IfErr result (IsTextFault text.now) }
    ensures error { IfErr result (IsBarePoint number (start + 1)) }
    ensures lacks { IfErr result (λ _. LacksFraction (parse_options options.now) text.now start) }
{
    if !has_byte(text, start, b'.') {
        return Ok(start);
    }
    match some_digits_end(text, start + 1) {
        Some(end) => Ok(end),
        None => {
            if options.allow_bare_decimal_point_numbers {
                return Ok(start + 1);
            }
            let kind = ParseErrorKind::BareDecimalPointNumbersNotAllowed;
            Err(fault(text, number, start + 1, kind))
        }
    }
}

/// The place after the decimal number whose digits before the point end at `whole`.
#[inline(always)]
fn decimal_end(
    text: &str,
    number: usize,
    start: usize,
    whole: usize,
    options: &ParseOptions,
) -> Result<usize, ParseError>
    requires sign { Spans text.now number start }
    requires whole { Between Whole text.now start whole }
    ensures found { IfOk result (IsUnsigned (parse_options options.now) text.now start) }
    ensures none { IfErr result (λ _. NoUnsigned (parse_options options.now) text.now start) }
    ensures fault { IfErr result (IsTextFault text.now) }
    ensures error { IfErr result (IsNumberFault (parse_options options.now) text.now number start) }
{
    let fraction = fraction_end(text, number, whole, options)?;
    if !has_either(text, fraction, b'e', b'E') {
        return Ok(fraction);
    }
    let end = exponent_end(text, fraction)?;
    Ok(end)
}

/// The place after the hexadecimal number at a place, where `0x` stands.
#[cold]
fn hexadecimal_end(
    text: &str,
    number: usize,
    start: usize,
    options: &ParseOptions,
) -> Result<usize, ParseError>
    requires sign { Spans text.now number start }
    requires zero { Steps text.now start 0x30 (start + 1) }
    requires x { HasAt (λ c. c == 0x78 || c == 0x58) text.now (start + 1) }
    ensures found { IfOk result (IsUnsigned (parse_options options.now) text.now start) }
    ensures none { IfErr result (λ _. NoUnsigned (parse_options options.now) text.now start) }
    ensures fault { IfErr result (IsTextFault text.now) }
    ensures error { IfErr result (IsNumberFault (parse_options options.now) text.now number start) }
{
    if !options.allow_hexadecimal_numbers {
        let kind = ParseErrorKind::HexadecimalNumbersNotAllowed;
        return Err(fault(text, number, start + 1, kind));
    }
    match some_hex_digits_end(text, start + 2) {
        Some(end) => Ok(end),
        None => Err(fault_at(text, start + 2, ParseErrorKind::ExpectedDigit)),
    }
}

/// The place after the number at a place that begins with its point, or the fault of a number that begins otherwise.
#[cold]
fn bare_end(
    text: &str,
    number: usize,
    start: usize,
    options: &ParseOptions,
) -> Result<usize, ParseError>
    requires spans { Spans text.now number start }
    requires digit { LacksAt is_digit text.now start }
    ensures found { IfOk result (IsUnsigned (parse_options options.now) text.now start) }
    ensures none { IfErr result (λ _. NoFinite (parse_options options.now) text.now start) }
    ensures fault { IfErr result (IsTextFault text.now) }
    ensures error { IfErr result (IsNumberFault (parse_options options.now) text.now number start) }
{
    let missing = ParseErrorKind::ExpectedDigitFollowingNegativeSign;
    if !has_byte(text, start, b'.') {
        return Err(fault_at(text, start, missing));
    }
    let Some(digits) = some_digits_end(text, start + 1) else {
        return Err(fault_at(text, start, missing));
    };
    if options.allow_bare_decimal_point_numbers {
        let end = exponent_end(text, digits)?;
        return Ok(end);
    }
    let kind = ParseErrorKind::BareDecimalPointNumbersNotAllowed;
    if number < start {
        return Err(fault(text, number, start, kind));
    }
    Err(fault_at(text, start, kind))
}

/// Whether `0x` stands at a place.
pub(crate) fn has_hexadecimal_mark(text: &str, start: usize) -> bool
    requires { IsCharBoundary text.now start }
    ensures here { IsTrue result → HasHexadecimalMark text.now start }
    ensures other { result ≡ false → LacksHexadecimalMark text.now start }
{
    if !has_byte(text, start, b'0') {
        return false;
    }
    has_either(text, start + 1, b'x', b'X')
}

/// The place after the digits before a point, or none where no digit stands.
#[inline(always)]
pub(crate) fn whole_part_end(text: &str, start: usize) -> Option<usize>
    requires boundary { IsCharBoundary text.now start }
    requires mark { LacksHexadecimalMark text.now start }
    ensures found { IfSome result (Between Whole text.now start) }
    ensures none { IfNone result (LacksAt is_digit text.now start) }
{
    if has_byte(text, start, b'0') {
        return Some(start + 1);
    }
    let Some(end) = some_digits_end(text, start) else {
        return None;
    };
    Some(end)
}

/// The place after the digits of a number at a place; the number's sign, if any, began at `number`.
#[inline(always)]
fn finite_end(
    text: &str,
    number: usize,
    start: usize,
    options: &ParseOptions,
) -> Result<usize, ParseError>
    requires { Spans text.now number start }
    ensures found { IfOk result (IsUnsigned (parse_options options.now) text.now start) }
    ensures none { IfErr result (λ _. NoFinite (parse_options options.now) text.now start) }
    ensures fault { IfErr result (IsTextFault text.now) }
    ensures error { IfErr result (IsNumberFault (parse_options options.now) text.now number start) }
{
    if has_hexadecimal_mark(text, start) {
        return hexadecimal_end(text, number, start, options);
    }
    match whole_part_end(text, start) {
        Some(whole) => decimal_end(text, number, start, whole, options),
        None => bare_end(text, number, start, options),
    }
}

/// The place after `Infinity` or `NaN` at a place, or none.
fn name_end(text: &str, start: usize) -> Option<usize>
    requires { IsCharBoundary text.now start }
    ensures found { IfSome result (IsSignedName text.now start) }
    ensures none { IfNone result (NoNames text.now start) }
    ensures begins { IfSome result (λ _. HasName text.now start) }
    ensures spans { IfSome result (Spans text.now start) }
    ensures name { IfSome result (λ end. IsName (rest text.now start) (rest text.now end)) }
{
    if !has_either(text, start, b'I', b'N') {
        return None;
    }
    if let Some(end) = keyword_end(text, start, "Infinity") {
        return Some(end);
    }
    let Some(end) = keyword_end(text, start, "NaN") else {
        return None;
    };
    Some(end)
}

/// The place after the number whose sign is the character at `sign`.
fn signed_end(text: &str, sign: usize, options: &ParseOptions) -> Result<usize, ParseError>
    requires { Spans text.now sign (sign + 1) }
    ensures found { IfOk result (IsAfterSign (parse_options options.now) text.now (sign + 1)) }
    ensures none { IfErr result (λ _. NoneAfterSign (parse_options options.now) text.now (sign + 1)) }
    ensures fault { IfErr result (IsTextFault text.now) }
    ensures error { IfErr result (IsSignedFault (parse_options options.now) text.now sign) }
{
    let Some(end) = name_end(text, sign + 1) else {
        return finite_end(text, sign, sign + 1, options);
    };
    if options.allow_non_finite_numbers {
        return Ok(end);
    }
    let kind = ParseErrorKind::NonFiniteNumbersNotAllowed;
    Err(fault(text, sign, end, kind))
}

/// The place after the number at a place, where a sign, a digit, or a point with a digit stands.
pub(crate) fn number_end(
    text: &str,
    start: usize,
    options: &ParseOptions,
) -> Result<usize, ParseError>
    requires { IsCharBoundary text.now start }
    ensures found { IfOk result (Between (Number (parse_options options.now)) text.now start) }
    ensures none { IfErr result (λ _. NoNumber (parse_options options.now) text.now start) }
    ensures fault { IfErr result (IsTextFault text.now) }
    ensures error { IfErr result (IsFaultOfNumber (parse_options options.now) text.now start) }
{
    if has_byte(text, start, b'-') {
        return signed_end(text, start, options);
    }
    if !has_byte(text, start, b'+') {
        return finite_end(text, start, start, options);
    }
    if options.allow_unary_plus_numbers {
        return signed_end(text, start, options);
    }
    let kind = ParseErrorKind::UnaryPlusNumbersNotAllowed;
    Err(fault(text, start, start + 1, kind))
}

/// Whether a digit, a sign, or a point before a digit stands at a place.
pub(crate) fn begins_number(text: &str, start: usize) -> bool
    requires { IsCharBoundary text.now start }
    ensures { result ≡ begins_number (rest text.now start) }
{
    if has_digit(text, start) {
        return true;
    }
    if has_either(text, start, b'+', b'-') {
        return true;
    }
    if !has_byte(text, start, b'.') {
        return false;
    }
    has_digit(text, start + 1)
}

/// The number at a place where no number of JSON stands, but a sign, a digit, or a point with a digit.
#[cold]
#[inline(never)]
fn read_other_number<'a>(
    text: &'a str,
    start: usize,
    options: &ParseOptions,
) -> Result<Read<'a>, ParseError>
    requires { IsCharBoundary text.now start }
    ensures found { IfOk result (IsRead (parse_options options.now) text.now start) }
    ensures none { IfErr result (λ _. NoNumber (parse_options options.now) text.now start) }
    ensures fault { IfErr result (IsTextFault text.now) }
    ensures error { IfErr result (IsFaultOfNumber (parse_options options.now) text.now start) }
{
    let end = number_end(text, start, options)?;
    let lexeme = Lexeme::Number(&text[start..end]);
    Ok(Read { lexeme, end })
}

/// The number at a place, where a sign, a digit, or a point with a digit stands.
#[inline(always)]
pub(crate) fn read_number<'a>(
    text: &'a str,
    start: usize,
    options: &ParseOptions,
) -> Result<Read<'a>, ParseError>
    requires { IsCharBoundary text.now start }
    ensures found { IfOk result (IsRead (parse_options options.now) text.now start) }
    ensures none { IfErr result (λ _. NoNumber (parse_options options.now) text.now start) }
    ensures fault { IfErr result (IsTextFault text.now) }
    ensures error { IfErr result (IsFaultOfNumber (parse_options options.now) text.now start) }
{
    let Some(number) = plain_number(text, start) else {
        return read_other_number(text, start, options);
    };
    Ok(Read {
        lexeme: Lexeme::Number(number.text),
        end: number.end,
    })
}

/// The place after the text `name` at a place, where it ends as an unsigned number does, or none.
fn whole_end(text: &str, start: usize, name: &str) -> Option<usize>
    requires boundary { IsCharBoundary text.now start }
    requires ascii { IsAscii name.now }
    requires nonempty { 0 < length name.now }
    ensures found { IfSome result (Between (IsWhole name.now) text.now start) }
    ensures none { IfNone result (NoneFrom (IsWhole name.now) text.now start) }
{
    let Some(end) = keyword_end(text, start, name) else {
        return None;
    };
    if has_either(text, end, b'-', b'_') {
        return None;
    }
    Some(end)
}

/// The number `Infinity` or `NaN` at a place, or none.
pub(crate) fn read_name<'a>(text: &'a str, start: usize) -> Option<Read<'a>>
    requires { IsCharBoundary text.now start }
    ensures found { IfSome result (IsReadName text.now start) }
    ensures infinity { IfNone result (NoneFrom (IsWhole (codes "Infinity")) text.now start) }
    ensures nan { IfNone result (NoneFrom (IsWhole (codes "NaN")) text.now start) }
{
    if let Some(end) = whole_end(text, start, "Infinity") {
        let lexeme = Lexeme::Number(&text[start..end]);
        return Some(Read { lexeme, end });
    }
    let Some(end) = whole_end(text, start, "NaN") else {
        return None;
    };
    let lexeme = Lexeme::Number(&text[start..end]);
    Some(Read { lexeme, end })
}

/// The place after the number at the start of a text, or none where no number begins it.
fn first_number_end(text: &str, options: &ParseOptions) -> Option<usize>
    ensures found { IfSome result (Between (Number (parse_options options.now)) text.now 0) }
    ensures none { IfNone result (NoneFrom (Number (parse_options options.now)) text.now 0) }
{
    if begins_number(text, 0) {
        return number_end(text, 0, options).ok();
    }
    if !options.allow_non_finite_numbers {
        return None;
    }
    if let Some(end) = whole_end(text, 0, "Infinity") {
        return Some(end);
    }
    whole_end(text, 0, "NaN")
}

/// Whether a text is, whole, a number that the options allow.
///
/// Nothing may stand before or after the number, blanks neither. Nothing is allocated.
pub fn is_number(text: &str, options: &ParseOptions) -> bool
    ensures { IsTrue result ↔ NumberLit (parse_options options.now) (chars text.now) }
{
    let Some(end) = first_number_end(text, options) else {
        return false;
    };
    end == text.len()
}
