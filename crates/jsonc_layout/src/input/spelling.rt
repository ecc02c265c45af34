//! How strings are spelled (RFC 8259, 7).
ghost use Rattle.std.specs.Prelude.{◌≡◌, ◌++◌, IfOk, chars, string_bytes, encode_utf8_all};
ghost use Rattle.jsonc_text.specs.Spelling.{short_escape_of, spelled_char, spelled};

use std::alloc::{AllocError, Allocator};
use std::fmt::Write;

/// The literal that is written for a string: in double quotes, with the escape of JSON for each
/// quote, backslash and control character.
///
/// A short escape is taken where JSON has one, and `\u` with four lower-case hex digits for the
/// other characters of U+0000 to U+001F and of U+007F to U+009F.
pub fn spell<A: Allocator>(alloc: A, text: &str) -> Result<String<A>, AllocError>
    ensures bytes { IfOk result (λ s. string_bytes s ≡ encode_utf8_all (spelled (chars text.now))) }
    ensures characters { IfOk result (λ s. chars (string_bytes s) ≡ spelled (chars text.now)) }
{
    let mut literal = String::new(alloc);
    literal.push('"')?;
    for character in text.chars() {
        push_spelled(&mut literal, character)?;
    }
    literal.push('"')?;
    Ok(literal)
}

/// Appends what is written for a character.
fn push_spelled<A: Allocator>(literal: &mut String<A>, character: char) -> Result<(), AllocError>
    ensures { IfOk result (λ _. string_bytes literal.new
        ≡ string_bytes literal.old ++ encode_utf8_all (spelled_char character)) }
{
    if let Some(escape) = short_escape(character) {
        literal.push('\\')?;
        return literal.push(escape);
    }
    if character.is_control() {
        return write!(literal, "\\u00{:02x}", character as u32);
    }
    literal.push(character)
}

/// The character that is written for this one after a backslash, where JSON has such an escape.
fn short_escape(character: char) -> Option<char>
    ensures { result ≡ short_escape_of character }
{
    match character {
        '"' => Some('"'),
        '\\' => Some('\\'),
        '\u{8}' => Some('b'),
        '\u{c}' => Some('f'),
        '\n' => Some('n'),
        '\r' => Some('r'),
        '\t' => Some('t'),
        _ => None,
    }
}
