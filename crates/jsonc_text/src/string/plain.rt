//! Escapes of JSON (RFC 8259, 7), which nearly all escapes are. They are read with no room for a fault.
//!
//! What is none of these may still be an escape, or is refused: `read_escape` says which.
ghost use Rattle.std.specs.Prelude.{◌≡◌, ◌+◌, ◌<◌, IsTrue, IfSome, length};
ghost use Rattle.std.specs.Char.{digit_value};
ghost use Rattle.jsonc_text.specs.Chars.{Steps};
ghost use Rattle.jsonc_text.specs.Text.{is_hex_digit};
ghost use Rattle.jsonc_text.specs.Strings.{is_high_surrogate};
ghost use Rattle.jsonc_text.specs.string.Between.{Between};
ghost use Rattle.jsonc_text.specs.string.Escapes.{HasHexDigit, IsUnit, IsEscape, IsEscapeAnyhow};

use crate::chars::has_byte;
use crate::string::escape::{Escape, Literal, Meaning, escape_meaning, pair};

// What each byte writes as a hex digit, and 16 where it is none.
#[rattlefmt::skip]
static HEX: [u8; 256] = [
    16, 16, 16, 16, 16, 16, 16, 16, 16, 16, 16, 16, 16, 16, 16, 16,
    16, 16, 16, 16, 16, 16, 16, 16, 16, 16, 16, 16, 16, 16, 16, 16,
    16, 16, 16, 16, 16, 16, 16, 16, 16, 16, 16, 16, 16, 16, 16, 16,
    0, 1, 2, 3, 4, 5, 6, 7, 8, 9, 16, 16, 16, 16, 16, 16,
    16, 10, 11, 12, 13, 14, 15, 16, 16, 16, 16, 16, 16, 16, 16, 16,
    16, 16, 16, 16, 16, 16, 16, 16, 16, 16, 16, 16, 16, 16, 16, 16,
    16, 10, 11, 12, 13, 14, 15, 16, 16, 16, 16, 16, 16, 16, 16, 16,
    16, 16, 16, 16, 16, 16, 16, 16, 16, 16, 16, 16, 16, 16, 16, 16,
    16, 16, 16, 16, 16, 16, 16, 16, 16, 16, 16, 16, 16, 16, 16, 16,
    16, 16, 16, 16, 16, 16, 16, 16, 16, 16, 16, 16, 16, 16, 16, 16,
    16, 16, 16, 16, 16, 16, 16, 16, 16, 16, 16, 16, 16, 16, 16, 16,
    16, 16, 16, 16, 16, 16, 16, 16, 16, 16, 16, 16, 16, 16, 16, 16,
    16, 16, 16, 16, 16, 16, 16, 16, 16, 16, 16, 16, 16, 16, 16, 16,
    16, 16, 16, 16, 16, 16, 16, 16, 16, 16, 16, 16, 16, 16, 16, 16,
    16, 16, 16, 16, 16, 16, 16, 16, 16, 16, 16, 16, 16, 16, 16, 16,
    16, 16, 16, 16, 16, 16, 16, 16, 16, 16, 16, 16, 16, 16, 16, 16,
];

/// What a byte writes as a hex digit, or 16 where it is none.
#[inline(always)]
fn hex_of(byte: u8) -> u32
    ensures is_hex { result < 16 → IsTrue (is_hex_digit byte) }
    ensures value { result < 16 → result ≡ digit_value byte }
{
    HEX[byte as usize] as u32
}

/// What the hex digit at a place writes, or 16 where none stands.
#[inline(always)]
fn hex_at(text: &str, place: usize) -> u32
    requires { place < length text.now }
    ensures { result < 16 → HasHexDigit text.now place result }
{
    hex_of(text.as_bytes()[place])
}

/// The code unit whose `\u` stands at a place, if four hex digits follow.
#[inline(always)]
fn unit_at(text: &str, place: usize) -> Option<u32>
    requires backslash { Steps text.now place 0x5C (place + 1) }
    requires u { Steps text.now (place + 1) 0x75 (place + 2) }
    ensures { IfSome result (λ n. Between (IsUnit n) text.now place (place + 6)) }
{
    if text.len() < place + 6 {
        return None;
    }
    let a = hex_at(text, place + 2);
    let b = hex_at(text, place + 3);
    let c = hex_at(text, place + 4);
    let d = hex_at(text, place + 5);
    if (a > 15) | (b > 15) | (c > 15) | (d > 15) {
        return None;
    }
    Some((a * 16 + b) * 256 + (c * 16 + d))
}

/// The ASCII character at a place, if one stands there.
#[inline(always)]
fn ascii_at(text: &str, place: usize) -> Option<u8>
    ensures small { IfSome result (λ c. c < 128) }
    ensures found { IfSome result (λ c. Steps text.now place c (place + 1)) }
{
    let bytes = text.as_bytes();
    if place < bytes.len() {
        let byte = bytes[place];
        if byte < 0x80 {
            return Some(byte);
        }
    }
    None
}

/// The pair of escapes at a place, if one stands there. `high` is the unit of the first one.
#[inline(always)]
fn plain_pair(text: &str, place: usize, high: u32) -> Option<Escape>
    requires first { Between (IsUnit high) text.now place (place + 6) }
    requires high { IsTrue (is_high_surrogate high) }
    ensures { IfSome result (IsEscapeAnyhow text.now place) }
{
    if !has_byte(text, place + 6, b'\\') {
        return None;
    }
    if !has_byte(text, place + 7, b'u') {
        return None;
    }
    let Some(low) = unit_at(text, place + 6) else {
        return None;
    };
    if (low < 0xDC00) | (0xDFFF < low) {
        return None;
    }
    Some(Escape {
        character: Some(pair(high, low)),
        end: place + 12,
    })
}

/// The escape at a place where `\u` stands, if its digits write a character, or a pair with those after it.
#[inline(always)]
fn plain_unit(text: &str, place: usize) -> Option<Escape>
    requires backslash { Steps text.now place 0x5C (place + 1) }
    requires u { Steps text.now (place + 1) 0x75 (place + 2) }
    ensures { IfSome result (IsEscapeAnyhow text.now place) }
{
    let Some(unit) = unit_at(text, place) else {
        return None;
    };
    if (0xDC00 <= unit) & (unit <= 0xDFFF) {
        return None;
    }
    if (0xD800 <= unit) & (unit <= 0xDBFF) {
        return plain_pair(text, place, unit);
    }
    match char::from_u32(unit) {
        Some(c) => Some(Escape {
            character: Some(c),
            end: place + 6,
        }),
        None => None,
    }
}

/// The escape of JSON whose backslash stands at a place, if one stands there.
#[inline(always)]
pub(crate) fn plain_escape(text: &str, place: usize, literal: Literal) -> Option<Escape>
    requires backslash { Steps text.now place 0x5C (place + 1) }
    ensures { IfSome result (IsEscape literal.extended literal.quote text.now place) }
{
    let Some(c) = ascii_at(text, place + 1) else {
        return None;
    };
    match escape_meaning(literal.quote, c as char) {
        Meaning::Gives(d) => Some(Escape {
            character: Some(d),
            end: place + 2,
        }),
        Meaning::CodeUnit => plain_unit(text, place),
        _ => None,
    }
}
