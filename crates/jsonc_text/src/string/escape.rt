//! Escapes in strings (RFC 8259, 7; JSON5, 5).
ghost use Rattle.std.specs.Prelude.{◌≡◌, ◌≢◌, ◌+◌, ◌<◌, ◌≤◌, ◌||◌, [], IsTrue, IfOk, IfErr, IfSome, IfNone, IsCharBoundary, true, ℕ};
ghost use Rattle.std.specs.Char.{digit_value};
ghost use Rattle.jsonc_text.specs.Chars.{Steps};
ghost use Rattle.jsonc_text.specs.Text.{is_hex_digit, rest, Spans};
ghost use Rattle.jsonc_text.specs.Strings.{hex4, meaning, is_high_surrogate, is_low_surrogate, pair_char};
ghost use Rattle.jsonc_text.specs.string.Between.{Between, LacksAt, NoneFrom};
ghost use Rattle.jsonc_text.specs.string.Escapes.{IsUnit, IsEscape, IsEscapeAnyhow, NoPiece, NoPieceAnyhow, IsStringFault, meaning_of, is_plain};
ghost use Rattle.jsonc_text.specs.string.Faults.{IsWritten, LacksDigits, IsStringFaultOnceRead, IsStringFaultAnyhow, IsEscapeFault, past};

use crate::chars::{char_at, char_end, has_byte};
use crate::common::Range;
use crate::errors::{ParseStringErrorKind, SurrogateFault};

/// A string between two quotes: the place of the first one, both quotes, and whether the extended
/// escapes are taken.
#[derive(Clone, Copy)]
pub struct Literal {
    pub start: usize,
    pub quote: u8,
    pub extended: bool,
}

/// What is wrong with a string, and the bytes that it is told of.
#[derive(Clone, Copy)]
pub struct StringFault {
    pub range: Range,
    pub kind: ParseStringErrorKind,
}

/// What a backslash before a character means: a character, always or as an extended escape, or
/// more by what follows.
#[derive(Clone, Copy)]
pub(crate) enum Meaning {
    Gives(char),
    Extended(char),
    CodeUnit,
    CodeByte,
    Nul,
    LineEnd,
    CarriageReturn,
    Refused,
}

/// The character that an escape stands for, if any, and the place after the escape.
#[derive(Clone, Copy)]
pub(crate) struct Escape {
    pub character: Option<char>,
    pub end: usize,
}

/// A code unit of UTF-16 and the digits that write it.
#[derive(Clone, Copy)]
struct CodeUnit {
    digits: [u8; 4],
    value: u32,
}

/// What a backslash before `c` means between these quotes.
#[inline(always)]
pub(crate) fn escape_meaning(quote: u8, c: char) -> Meaning
    ensures meaning { meaning_of result ≡ meaning quote c }
    ensures unit { result ≡ Meaning.CodeUnit → c ≡ 0x75 }
    ensures byte { result ≡ Meaning.CodeByte → c ≡ 0x78 }
    ensures nul { result ≡ Meaning.Nul → c ≡ 0x30 }
    ensures cr { result ≡ Meaning.CarriageReturn → c ≡ 0x0D }
{
    match c {
        '\\' => Meaning::Gives('\\'),
        '/' => Meaning::Gives('/'),
        'b' => Meaning::Gives('\u{8}'),
        'f' => Meaning::Gives('\u{c}'),
        'n' => Meaning::Gives('\n'),
        'r' => Meaning::Gives('\r'),
        't' => Meaning::Gives('\t'),
        'u' => Meaning::CodeUnit,
        'v' => Meaning::Extended('\u{b}'),
        'x' => Meaning::CodeByte,
        '0' => Meaning::Nul,
        _ => {
            if c.is_ascii_digit() {
                return Meaning::Refused;
            }
            if (c == '\n') | (c == '\u{2028}') | (c == '\u{2029}') {
                return Meaning::LineEnd;
            }
            if c == '\r' {
                return Meaning::CarriageReturn;
            }
            if c == quote as char {
                return Meaning::Gives(c);
            }
            Meaning::Extended(c)
        }
    }
}

/// Whether an escape of this meaning is taken: it is one of JSON's, or the others are taken too.
fn is_taken(meaning: Meaning, extended: bool) -> bool
    ensures { result ≡ (is_plain (meaning_of meaning) || extended) }
{
    match meaning {
        Meaning::Gives(_) => true,
        Meaning::CodeUnit => true,
        _ => extended,
    }
}

/// The hex digit at a place, or none.
fn hex_digit_at(text: &str, place: usize) -> Option<u8>
    requires { IsCharBoundary text.now place }
    ensures digit { IfSome result (λ d. IsTrue (is_hex_digit d)) }
    ensures found { IfSome result (λ d. Steps text.now place d (place + 1)) }
    ensures none { IfNone result (LacksAt is_hex_digit text.now place) }
{
    let bytes = text.as_bytes();
    if place < bytes.len() {
        let byte = bytes[place];
        if byte.is_ascii_hexdigit() {
            return Some(byte);
        }
    }
    None
}

/// The number that a hex digit writes.
fn hex_digit_value(digit: u8) -> u32
    requires { IsTrue (is_hex_digit digit) }
    ensures value { result ≡ digit_value digit }
    ensures small { result < 16 }
{
    match (digit as char).to_digit(16) {
        Some(value) => value,
        None => unreachable!(),
    }
}

/// The number that four hex digits write.
fn hex_value(a: u8, b: u8, c: u8, d: u8) -> u32
    requires a { IsTrue (is_hex_digit a) }
    requires b { IsTrue (is_hex_digit b) }
    requires c { IsTrue (is_hex_digit c) }
    requires d { IsTrue (is_hex_digit d) }
    ensures value { result ≡ hex4 a b c d }
    ensures small { result < 65536 }
{
    let front = hex_digit_value(a) * 16 + hex_digit_value(b);
    let back = hex_digit_value(c) * 16 + hex_digit_value(d);
    front * 256 + back
}

/// The code unit whose `\u` stands at a place, or the place where a hex digit is missing.
fn read_unit(text: &str, place: usize) -> Result<CodeUnit, usize>
    requires boundary { IsCharBoundary text.now place }
    requires backslash { Steps text.now place 0x5C (place + 1) }
    requires u { Steps text.now (place + 1) 0x75 (place + 2) }
    ensures found { IfOk result (λ unit. Between (IsUnit unit.value) text.now place (place + 6)) }
    ensures last { IfOk result (λ _. Spans text.now place (place + 5)) }
    ensures through { IfOk result (λ _. past (rest text.now (place + 5)) ≡ rest text.now (place + 6)) }
    ensures small { IfOk result (λ unit. unit.value < 65536) }
    ensures digits { IfOk result (λ unit. IsWritten unit.digits unit.value text.now place) }
    ensures none { IfErr result (λ _. (n : ℕ) → NoneFrom (IsUnit n) text.now place) }
    ensures stop { IfErr result (Spans text.now place) }
    ensures few { IfErr result (LacksDigits 4 text.now (place + 2)) }
{
    let Some(a) = hex_digit_at(text, place + 2) else {
        return Err(place + 2);
    };
    let Some(b) = hex_digit_at(text, place + 3) else {
        return Err(place + 3);
    };
    let Some(c) = hex_digit_at(text, place + 4) else {
        return Err(place + 4);
    };
    let Some(d) = hex_digit_at(text, place + 5) else {
        return Err(place + 5);
    };
    Ok(CodeUnit {
        digits: [a, b, c, d],
        value: hex_value(a, b, c, d),
    })
}

/// A fault of a string, told from one place through the character at another.
fn string_fault(text: &str, start: usize, stop: usize, kind: ParseStringErrorKind) -> StringFault
    requires spans { Spans text.now start stop }
    requires kind { kind ≢ ParseStringErrorKind.OutOfMemory }
    ensures fault { IsStringFault text.now start result }
    ensures start { result.range.start ≡ start }
    ensures end { rest text.now result.range.end ≡ past (rest text.now stop) }
    ensures kind { result.kind ≡ kind }
{
    let end = char_end(text, stop);
    StringFault {
        range: Range { start, end },
        kind,
    }
}

/// The fault of a string that does not end.
pub(crate) fn unterminated(text: &str, start: usize) -> StringFault
    requires { IsCharBoundary text.now start }
    ensures fault { IsStringFault text.now start result }
    ensures start { result.range.start ≡ start }
    ensures end { rest text.now result.range.end ≡ [] }
    ensures kind { result.kind ≡ ParseStringErrorKind.UnterminatedStringLiteral }
{
    let kind = ParseStringErrorKind::UnterminatedStringLiteral;
    string_fault(text, start, text.len(), kind)
}

/// The character that two surrogates stand for.
#[inline(always)]
pub(crate) fn pair(high: u32, low: u32) -> char
    requires high { IsTrue (is_high_surrogate high) }
    requires low { IsTrue (is_low_surrogate low) }
    ensures { result ≡ pair_char high low }
{
    let code = (high - 0xD800) * 0x400 + (low - 0xDC00) + 0x1_0000;
    match char::from_u32(code) {
        Some(c) => c,
        None => unreachable!(),
    }
}

/// The escape `\u` at a place.
fn read_code_unit(text: &str, place: usize) -> Result<Escape, StringFault>
    requires boundary { IsCharBoundary text.now place }
    requires backslash { Steps text.now place 0x5C (place + 1) }
    requires u { Steps text.now (place + 1) 0x75 (place + 2) }
    ensures found { IfOk result (IsEscapeAnyhow text.now place) }
    ensures none { IfErr result (λ _. NoPieceAnyhow text.now place) }
    ensures fault { IfErr result (IsStringFault text.now place) }
    ensures error { IfErr result (IsStringFaultAnyhow text.now place) }
{
    let unit = match read_unit(text, place) {
        Ok(unit) => unit,
        Err(stop) => {
            let kind = ParseStringErrorKind::ExpectedFourHexDigits;
            return Err(string_fault(text, place, stop, kind));
        }
    };
    if (0xDC00 <= unit.value) & (unit.value <= 0xDFFF) {
        let lone = SurrogateFault::UnpairedLowSurrogate;
        let kind = ParseStringErrorKind::InvalidUnicodeEscapeSequence(unit.digits, lone);
        return Err(string_fault(text, place, place + 5, kind));
    }
    if (0xD800 <= unit.value) & (unit.value <= 0xDBFF) {
        return read_pair(text, place, unit);
    }
    match char::from_u32(unit.value) {
        Some(c) => Ok(Escape {
            character: Some(c),
            end: place + 6,
        }),
        None => unreachable!(),
    }
}

/// The pair of escapes at a place, where `high` is the unit of the first one.
fn read_pair(text: &str, place: usize, high: CodeUnit) -> Result<Escape, StringFault>
    requires boundary { IsCharBoundary text.now place }
    requires first { Between (IsUnit high.value) text.now place (place + 6) }
    requires high { IsTrue (is_high_surrogate high.value) }
    requires digits { IsWritten high.digits high.value text.now place }
    ensures found { IfOk result (IsEscapeAnyhow text.now place) }
    ensures none { IfErr result (λ _. NoPieceAnyhow text.now place) }
    ensures fault { IfErr result (IsStringFault text.now place) }
    ensures error { IfErr result (IsStringFaultAnyhow text.now place) }
{
    let unpaired = SurrogateFault::UnpairedHighSurrogate;
    if !has_byte(text, place + 6, b'\\') {
        let kind = ParseStringErrorKind::InvalidUnicodeEscapeSequence(high.digits, unpaired);
        return Err(string_fault(text, place, place + 6, kind));
    }
    if !has_byte(text, place + 7, b'u') {
        let kind = ParseStringErrorKind::InvalidUnicodeEscapeSequence(high.digits, unpaired);
        return Err(string_fault(text, place, place + 7, kind));
    }
    let low = match read_unit(text, place + 6) {
        Ok(low) => low,
        Err(stop) => {
            let kind = ParseStringErrorKind::ExpectedFourHexDigits;
            return Err(string_fault(text, place, stop, kind));
        }
    };
    if (low.value < 0xDC00) | (0xDFFF < low.value) {
        let other = SurrogateFault::HighSurrogateNotFollowedByLowSurrogate;
        let kind = ParseStringErrorKind::InvalidUnicodeEscapeSequence(high.digits, other);
        return Err(string_fault(text, place, place + 11, kind));
    }
    Ok(Escape {
        character: Some(pair(high.value, low.value)),
        end: place + 12,
    })
}

/// The escape `\x` at a place, where extended escapes are taken.
fn read_code_byte(text: &str, place: usize) -> Result<Escape, StringFault>
    requires boundary { IsCharBoundary text.now place }
    requires backslash { Steps text.now place 0x5C (place + 1) }
    requires x { Steps text.now (place + 1) 0x78 (place + 2) }
    ensures found { IfOk result (λ e. (q : ℕ) → IsEscape true q text.now place e) }
    ensures none { IfErr result (λ _. (q : ℕ) → NoPiece true q text.now place) }
    ensures fault { IfErr result (IsStringFault text.now place) }
    ensures error { IfErr result (λ f. (q : ℕ) → IsEscapeFault true q text.now place f) }
{
    let kind = ParseStringErrorKind::ExpectedTwoHexDigits;
    let Some(a) = hex_digit_at(text, place + 2) else {
        return Err(string_fault(text, place, place + 2, kind));
    };
    let Some(b) = hex_digit_at(text, place + 3) else {
        return Err(string_fault(text, place, place + 3, kind));
    };
    let value = hex_digit_value(a) * 16 + hex_digit_value(b);
    match char::from_u32(value) {
        Some(c) => Ok(Escape {
            character: Some(c),
            end: place + 4,
        }),
        None => unreachable!(),
    }
}

/// The escape `\0` at a place, where extended escapes are taken; the string begins at `start`.
fn read_nul(text: &str, start: usize, place: usize) -> Result<Escape, StringFault>
    requires spans { Spans text.now start place }
    requires backslash { Steps text.now place 0x5C (place + 1) }
    requires nul { Steps text.now (place + 1) 0x30 (place + 2) }
    ensures found { IfOk result (λ e. (q : ℕ) → IsEscape true q text.now place e) }
    ensures none { IfErr result (λ _. (q : ℕ) → NoPiece true q text.now place) }
    ensures fault { IfErr result (IsStringFault text.now start) }
    ensures error { IfErr result (λ f. (q : ℕ) → IsStringFaultOnceRead true q text.now start place f) }
{
    let Some(c) = char_at(text, place + 2) else {
        return Err(unterminated(text, start));
    };
    if c.is_ascii_digit() {
        let kind = ParseStringErrorKind::InvalidEscape;
        return Err(string_fault(text, place, place + 1, kind));
    }
    Ok(Escape {
        character: Some('\0'),
        end: place + 2,
    })
}

/// The backslash before a CR at a place, where extended escapes are taken; the string begins at `start`.
fn read_line_end(text: &str, start: usize, place: usize) -> Result<Escape, StringFault>
    requires spans { Spans text.now start place }
    requires backslash { Steps text.now place 0x5C (place + 1) }
    requires cr { Steps text.now (place + 1) 0x0D (place + 2) }
    ensures found { IfOk result (λ e. (q : ℕ) → IsEscape true q text.now place e) }
    ensures none { IfErr result (λ _. (q : ℕ) → NoPiece true q text.now place) }
    ensures fault { IfErr result (IsStringFault text.now start) }
    ensures error { IfErr result (λ f. (q : ℕ) → IsStringFaultOnceRead true q text.now start place f) }
{
    let Some(c) = char_at(text, place + 2) else {
        return Err(unterminated(text, start));
    };
    let end = if c == '\n' { place + 3 } else { place + 2 };
    Ok(Escape {
        character: None,
        end,
    })
}

/// Why a backslash may not stand before `c` where extended escapes are not taken.
fn refusal(c: char) -> ParseStringErrorKind
    ensures memory { result ≢ ParseStringErrorKind.OutOfMemory }
    ensures double { c ≡ 0x22 → result ≡ ParseStringErrorKind.InvalidEscapeInSingleQuoteString }
    ensures single { c ≡ 0x27 → result ≡ ParseStringErrorKind.InvalidEscapeInDoubleQuoteString }
    ensures other { c ≢ 0x22 → c ≢ 0x27 → result ≡ ParseStringErrorKind.InvalidEscape }
{
    match c {
        '"' => ParseStringErrorKind::InvalidEscapeInSingleQuoteString,
        '\'' => ParseStringErrorKind::InvalidEscapeInDoubleQuoteString,
        _ => ParseStringErrorKind::InvalidEscape,
    }
}

/// The escape whose backslash stands at a place.
#[cold]
#[inline(never)]
pub(crate) fn read_escape(text: &str, place: usize, literal: Literal) -> Result<Escape, StringFault>
    requires spans { Spans text.now literal.start place }
    requires backslash { Steps text.now place 0x5C (place + 1) }
    ensures found { IfOk result (IsEscape literal.extended literal.quote text.now place) }
    ensures none { IfErr result (λ _. NoPiece literal.extended literal.quote text.now place) }
    ensures fault { IfErr result (IsStringFault text.now literal.start) }
    ensures error { IfErr result (IsStringFaultOnceRead literal.extended literal.quote text.now literal.start place) }
{
    let Some(c) = char_at(text, place + 1) else {
        return Err(unterminated(text, literal.start));
    };
    let meaning = escape_meaning(literal.quote, c);
    if !is_taken(meaning, literal.extended) {
        return Err(string_fault(text, place, place + 1, refusal(c)));
    }
    let end = place + 1 + c.len_utf8();
    match meaning {
        Meaning::Gives(d) => Ok(Escape {
            character: Some(d),
            end,
        }),
        Meaning::CodeUnit => read_code_unit(text, place),
        Meaning::Extended(d) => Ok(Escape {
            character: Some(d),
            end,
        }),
        Meaning::CodeByte => read_code_byte(text, place),
        Meaning::Nul => read_nul(text, literal.start, place),
        Meaning::LineEnd => Ok(Escape {
            character: None,
            end,
        }),
        Meaning::CarriageReturn => read_line_end(text, literal.start, place),
        Meaning::Refused => {
            let kind = ParseStringErrorKind::InvalidEscape;
            Err(string_fault(text, place, place + 1, kind))
        }
    }
}
