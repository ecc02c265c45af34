//! Escapes of strings: the place after one, or what is wrong with it and where.
use crate::changes::Fault;
use crate::lexeme::fault;
use crate::reading::{char_here, has, part, place_after};
use jsonc_text::errors::{ParseErrorKind, ParseStringErrorKind, SurrogateFault};

/// The result of reading an escape.
#[derive(Clone, Copy)]
pub(crate) enum Escape {
    /// It ends at a place.
    Ends(usize),
    /// The text ends in it.
    Cut,
    Refused(Fault),
}

// A refusal of the bytes from a place on, with the character at another place.
fn refused(kind: ParseStringErrorKind, text: &str, start: usize, last: usize) -> Escape {
    Escape::Refused(fault(ParseErrorKind::String(kind), start, place_after(text, last)))
}

// How many hexadecimal digits are at a place, counted up to four.
fn digit_count(text: &str, place: usize) -> usize {
    let end = place.saturating_add(4);
    match text.as_bytes().get(place..end.min(text.len())) {
        Some(bytes) => bytes.iter().take_while(|b| b.is_ascii_hexdigit()).count(),
        None => 0,
    }
}

/// Four hexadecimal digits as they are written, and their value.
#[derive(Clone, Copy)]
struct Unit {
    digits: [u8; 4],
    value: u32,
}

// The four digits at a place.
fn unit_at(text: &str, place: usize) -> Option<Unit> {
    let end = place.saturating_add(4);
    let bytes = text.as_bytes().get(place..end)?;
    let chunk = bytes.first_chunk::<4>()?;
    let digits = *chunk;
    match u32::from_str_radix(part(text, place, end), 16) {
        Ok(value) => Some(Unit { digits, value }),
        Err(_) => None,
    }
}

// The second half of a pair, whose first half has its backslash at `start`.
fn pair_end(text: &str, start: usize, high: [u8; 4]) -> Escape {
    let second = start.saturating_add(6);
    let unpaired = ParseStringErrorKind::InvalidUnicodeEscapeSequence(
        high,
        SurrogateFault::UnpairedHighSurrogate,
    );
    if !has(text, second, '\\') {
        return refused(unpaired, text, start, second);
    }
    if !has(text, second.saturating_add(1), 'u') {
        return refused(unpaired, text, start, second.saturating_add(1));
    }
    let digits = second.saturating_add(2);
    let count = digit_count(text, digits);
    let Some(low) = unit_at(text, digits) else {
        return refused(
            ParseStringErrorKind::ExpectedFourHexDigits,
            text,
            start,
            digits.saturating_add(count),
        );
    };
    if count < 4 {
        return refused(
            ParseStringErrorKind::ExpectedFourHexDigits,
            text,
            start,
            digits.saturating_add(count),
        );
    }
    if low.value < 0xDC00 || low.value > 0xDFFF {
        let other = SurrogateFault::HighSurrogateNotFollowedByLowSurrogate;
        let kind = ParseStringErrorKind::InvalidUnicodeEscapeSequence(high, other);
        return refused(kind, text, start, digits.saturating_add(3));
    }
    Escape::Ends(digits.saturating_add(4))
}

// `\u` at a place.
fn unit_end(text: &str, start: usize) -> Escape {
    let digits = start.saturating_add(2);
    let count = digit_count(text, digits);
    let stop = digits.saturating_add(count);
    if count < 4 {
        return refused(
            ParseStringErrorKind::ExpectedFourHexDigits,
            text,
            start,
            stop,
        );
    }
    let Some(unit) = unit_at(text, digits) else {
        return refused(
            ParseStringErrorKind::ExpectedFourHexDigits,
            text,
            start,
            stop,
        );
    };
    let written = unit.digits;
    if unit.value >= 0xDC00 && unit.value <= 0xDFFF {
        let kind = ParseStringErrorKind::InvalidUnicodeEscapeSequence(
            written,
            SurrogateFault::UnpairedLowSurrogate,
        );
        return refused(kind, text, start, digits.saturating_add(3));
    }
    if unit.value >= 0xD800 && unit.value <= 0xDBFF {
        return pair_end(text, start, written);
    }
    Escape::Ends(stop)
}

// `\x` at a place.
fn byte_end(text: &str, start: usize) -> Escape {
    let digits = start.saturating_add(2);
    let count = digit_count(text, digits);
    if count < 2 {
        return refused(
            ParseStringErrorKind::ExpectedTwoHexDigits,
            text,
            start,
            digits.saturating_add(count),
        );
    }
    Escape::Ends(digits.saturating_add(2))
}

// A backslash before `c`, which ends at a place, in a string with this quote, as all options take it.
fn plain_end(text: &str, start: usize, c: char, quote: char) -> Escape {
    let next = start.saturating_add(1);
    let kind = match c {
        'u' => return unit_end(text, start),
        '"' if quote != '"' => ParseStringErrorKind::InvalidEscapeInSingleQuoteString,
        '\'' if quote == '"' => ParseStringErrorKind::InvalidEscapeInDoubleQuoteString,
        '"' | '\'' | '\\' | '/' | 'b' | 'f' | 'n' | 'r' | 't' => return Escape::Ends(place_after(
            text, next,
        )),
        _ => ParseStringErrorKind::InvalidEscape,
    };
    refused(kind, text, start, next)
}

// The same where the escapes of JSON5 are taken too.
fn extended_end(text: &str, start: usize, c: char, quote: char) -> Escape {
    let next = start.saturating_add(1);
    let after = place_after(text, next);
    match c {
        'x' => byte_end(text, start),
        'u' | 'b' | 'f' | 'n' | 'r' | 't' | '\\' | '/' => plain_end(text, start, c, quote),
        '0' => match char_here(text, after) {
            Some(d) if d.is_ascii_digit() => refused(
                ParseStringErrorKind::InvalidEscape,
                text,
                start,
                next,
            ),
            _ => Escape::Ends(after),
        },
        '1'..='9' => refused(ParseStringErrorKind::InvalidEscape, text, start, next),
        '\r' if has(text, after, '\n') => Escape::Ends(after.saturating_add(1)),
        _ => Escape::Ends(after),
    }
}

/// The escape whose backslash is at a place, in a string with this quote.
pub(crate) fn read_escape(text: &str, start: usize, quote: char, extended: bool) -> Escape {
    let Some(c) = char_here(text, start.saturating_add(1)) else {
        return Escape::Cut;
    };
    if extended {
        return extended_end(text, start, c, quote);
    }
    plain_end(text, start, c, quote)
}
