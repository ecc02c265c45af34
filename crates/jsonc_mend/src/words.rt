//! Words outside of quotes: where they end, and the literals that they are taken for.
use crate::reading::{char_here, is_mark, opens_comment, rest};
use jsonc_text::options::ParseOptions;
use std::alloc::{AllocError, Allocator};

// The end of an equals sign, or of several, with the `>` of an arrow.
fn equals_end(text: &str, start: usize) -> usize {
    let here = rest(text, start);
    let after = here.trim_start_matches('=');
    let end = start.saturating_add(here.len().saturating_sub(after.len()));
    if after.starts_with('>') {
        return end.saturating_add(1);
    }
    end
}

// Whether a character ends a word, a quote or a comment aside.
fn ends_word(c: char) -> bool {
    c.is_whitespace() || is_mark(c) || c == '"' || c == ';' || c == '='
}

/// The end of what a person takes for one word: up to a blank, a mark or a comment. A backslash takes the next
/// character with it.
pub(crate) fn word_end(text: &str, start: usize, single: bool) -> usize {
    match char_here(text, start) {
        Some(';') => return start.saturating_add(1),
        Some('=') => return equals_end(text, start),
        _ => {}
    }
    let mut escaped = false;
    for (count, c) in rest(text, start).char_indices() {
        let place = start.saturating_add(count);
        if escaped && !c.is_whitespace() {
            escaped = false;
            continue;
        }
        escaped = c == '\\';
        if ends_word(c) || c == '\'' && single || c == '/' && opens_comment(text, place) {
            return place;
        }
    }
    text.len()
}

/// A literal that a word is taken for.
#[derive(Clone, Copy)]
pub(crate) enum Spelling<'a> {
    Keyword(&'static str),
    /// A sign, and what follows it as it is written.
    Signed(&'a str, &'a str),
    /// A sign, and `0x` without digits.
    EmptyHexadecimal(&'a str, &'a str),
    /// A sign, and the value of a hexadecimal number.
    Hexadecimal(&'a str, u64),
    Decimal(Decimal<'a>),
}

/// The parts of a decimal number that are to be written.
#[derive(Clone, Copy)]
pub(crate) struct Decimal<'a> {
    sign: &'a str,
    whole: &'a str,
    has_point: bool,
    fraction: &'a str,
    exponent: Option<Exponent<'a>>,
}

/// The `e` of a number, its sign, and its digits.
#[derive(Clone, Copy)]
struct Exponent<'a> {
    mark: &'a str,
    sign: &'a str,
    digits: &'a str,
}

// A text after the first of its characters, where that is ASCII.
fn split_first(text: &str) -> (&str, &str) {
    match text.split_at_checked(1) {
        Some(parts) => parts,
        None => ("", text),
    }
}

// The sign that a word begins with, and what follows it.
fn split_sign(word: &str) -> (&str, &str) {
    if word.starts_with('+') || word.starts_with('-') {
        return split_first(word);
    }
    ("", word)
}

// The digits that a text begins with, and what follows them.
fn split_digits(text: &str) -> (&str, &str) {
    let after = text.trim_start_matches(|c: char| c.is_ascii_digit());
    match text.split_at_checked(text.len().saturating_sub(after.len())) {
        Some(parts) => parts,
        None => ("", text),
    }
}

// The exponent that a text is, or that none is there, or that it is no exponent.
fn exponent_of(text: &str) -> Option<Option<Exponent<'_>>> {
    if text.is_empty() {
        return Some(None);
    }
    if !text.starts_with('e') && !text.starts_with('E') {
        return None;
    }
    let (mark, after) = split_first(text);
    let (sign, after) = split_sign(after);
    let (digits, left) = split_digits(after);
    if !left.is_empty() {
        return None;
    }
    Some(Some(Exponent { mark, sign, digits }))
}

// The digits before a point, without zeros that lead.
fn without_zeros(whole: &str) -> &str {
    let digits = whole.trim_start_matches('0');
    if digits.is_empty() && !whole.is_empty() {
        return "0";
    }
    digits
}

// The decimal number that a word without its sign is taken for.
fn decimal_of<'a>(sign: &'a str, word: &'a str, bare: bool) -> Option<Decimal<'a>> {
    let (whole, after) = split_digits(word);
    let pointed = after.starts_with('.');
    let (fraction, after) = if pointed {
        split_digits(split_first(after).1)
    } else {
        ("", after)
    };
    let exponent = exponent_of(after)?;
    if whole.is_empty() && fraction.is_empty() {
        if pointed || exponent.is_some() {
            return None;
        }
        return Some(Decimal {
            sign,
            whole: "0",
            has_point: false,
            fraction,
            exponent,
        });
    }
    let has_point = pointed && (bare || !fraction.is_empty());
    let digits = without_zeros(whole);
    let whole = if has_point && digits.is_empty() && !bare {
        "0"
    } else {
        digits
    };
    Some(Decimal {
        sign,
        whole,
        has_point,
        fraction,
        exponent,
    })
}

// The hexadecimal number that a word without its sign is taken for; `digits` are what follows its `0x`.
fn hexadecimal_of<'a>(
    sign: &'a str,
    word: &'a str,
    digits: &'a str,
    allowed: bool,
) -> Option<Spelling<'a>> {
    if allowed {
        if digits.is_empty() {
            return Some(Spelling::EmptyHexadecimal(sign, word));
        }
        return Some(Spelling::Signed(sign, word));
    }
    if digits.is_empty() {
        return Some(Spelling::Hexadecimal(sign, 0));
    }
    match u64::from_str_radix(digits, 16) {
        Ok(value) if digits.len() <= 16 => Some(Spelling::Hexadecimal(sign, value)),
        _ => None,
    }
}

// What follows `0x` in a word of hexadecimal digits.
fn hexadecimal_digits(word: &str) -> Option<&str> {
    if !word.starts_with("0x") && !word.starts_with("0X") {
        return None;
    }
    let (_, digits) = word.split_at_checked(2)?;
    if digits.bytes().all(|b| b.is_ascii_hexdigit()) {
        return Some(digits);
    }
    None
}

// The keyword that a word is taken for.
fn keyword_of(word: &str) -> Option<&'static str> {
    for keyword in ["true", "false", "null"] {
        if word.eq_ignore_ascii_case(keyword) {
            return Some(keyword);
        }
    }
    if word == "None" || word == "undefined" || word == "nil" {
        return Some("null");
    }
    None
}

/// The literal that a word is taken for, if it is taken for one.
pub(crate) fn respelled<'a>(word: &'a str, options: &ParseOptions) -> Option<Spelling<'a>> {
    if let Some(keyword) = keyword_of(word) {
        return Some(Spelling::Keyword(keyword));
    }
    let (written, body) = split_sign(word);
    let sign = if written == "+" && !options.allow_unary_plus_numbers {
        ""
    } else {
        written
    };
    if body == "Infinity" || body == "NaN" {
        if options.allow_non_finite_numbers {
            return Some(Spelling::Signed(sign, body));
        }
        return Some(Spelling::Keyword("null"));
    }
    if let Some(digits) = hexadecimal_digits(body) {
        return hexadecimal_of(sign, body, digits, options.allow_hexadecimal_numbers);
    }
    if sign.is_empty() && body.is_empty() {
        return None;
    }
    let decimal = decimal_of(sign, body, options.allow_bare_decimal_point_numbers)?;
    Some(Spelling::Decimal(decimal))
}

// Writes a decimal number, with `0` for the digits of an exponent that has none.
fn write_decimal<A: Allocator>(
    decimal: &Decimal<'_>,
    to: &mut String<A>,
) -> Result<(), AllocError> {
    to.push_str(decimal.sign)?;
    to.push_str(decimal.whole)?;
    if decimal.has_point {
        to.push_str(".")?;
    }
    to.push_str(decimal.fraction)?;
    let Some(exponent) = decimal.exponent else {
        return Ok(());
    };
    to.push_str(exponent.mark)?;
    to.push_str(exponent.sign)?;
    to.push_str(if exponent.digits.is_empty() {
        "0"
    } else {
        exponent.digits
    })
}

/// Writes a literal.
pub(crate) fn write_spelling<A: Allocator>(
    spelling: Spelling<'_>,
    to: &mut String<A>,
) -> Result<(), AllocError> {
    match spelling {
        Spelling::Keyword(keyword) => to.push_str(keyword),
        Spelling::Signed(sign, word) => {
            to.push_str(sign)?;
            to.push_str(word)
        }
        Spelling::EmptyHexadecimal(sign, word) => {
            to.push_str(sign)?;
            to.push_str(word)?;
            to.push_str("0")
        }
        Spelling::Hexadecimal(sign, value) => {
            let mut digits = itoa::Buffer::new();
            to.push_str(sign)?;
            to.push_str(digits.format(value))
        }
        Spelling::Decimal(decimal) => write_decimal(&decimal, to),
    }
}

/// Writes a word in quotes.
pub(crate) fn write_quoted<A: Allocator>(word: &str, to: &mut String<A>) -> Result<(), AllocError> {
    to.push_str("\"")?;
    for c in word.chars() {
        if c == '"' || c == '\\' {
            to.push('\\')?;
        }
        to.push(c)?;
    }
    to.push_str("\"")
}

/// Writes the literal that a word is taken for, or the word in quotes.
pub(crate) fn write_word<A: Allocator>(
    word: &str,
    options: &ParseOptions,
    to: &mut String<A>,
) -> Result<(), AllocError> {
    match respelled(word, options) {
        Some(spelling) => write_spelling(spelling, to),
        None => write_quoted(word, to),
    }
}
