//! How bytes stand in a line: printable ASCII as it is, each other byte and the backslash as `\x` and two hex digits.

use crate::error::CaseError;
use std::alloc::Global;
use std::fmt;

/// Bytes to be written with escapes.
#[derive(Clone, Copy, Drop)]
pub struct Escaped<'a> {
    bytes: &'a [u8],
    in_word: bool,
}

impl<'a> Escaped<'a> {
    /// As a field, in which a space may stand.
    pub fn field(bytes: &'a [u8]) -> Escaped<'a> {
        Escaped {
            bytes,
            in_word: false,
        }
    }

    /// As a part of a field that is cut at spaces, where a space is escaped too.
    pub fn word(text: &'a str) -> Escaped<'a> {
        Escaped {
            bytes: text.as_bytes(),
            in_word: true,
        }
    }
}

fn is_plain(byte: u8, in_word: bool) -> bool {
    match byte {
        b' ' => !in_word,
        b'\\' => false,
        _ => byte.is_ascii_graphic(),
    }
}

impl fmt::Display for Escaped<'_> {
    fn fmt<W: fmt::Write>(&self, f: &mut fmt::Formatter<W>) -> fmt::Result {
        for byte in self.bytes {
            let byte = *byte;
            if is_plain(byte, self.in_word) {
                f.write_char(byte as char)?;
            } else {
                write!(f, "\\x{byte:02X}")?;
            }
        }
        Ok(())
    }
}

fn hex_digit(byte: u8) -> Result<u8, CaseError> {
    match byte {
        b'0'..=b'9' => Ok(byte - b'0'),
        b'A'..=b'F' => Ok(byte - b'A' + 10),
        _ => Err(CaseError::Escape),
    }
}

/// Adds bytes that hold no escape.
fn push_plain(bytes: &mut Vec<u8>, plain: &[u8]) -> Result<(), CaseError> {
    if plain.contains(&b'\\') {
        return Err(CaseError::Escape);
    }
    bytes.extend_from_slice(plain)?;
    Ok(())
}

/// Adds the byte that an escape stands for, and the bytes after it; the `\x` was passed.
fn push_escape(bytes: &mut Vec<u8>, part: &[u8]) -> Result<(), CaseError> {
    match part {
        [high, low, plain @ ..] => {
            let high = hex_digit(*high)?;
            let low = hex_digit(*low)?;
            bytes.push((high << 4) | low)?;
            push_plain(bytes, plain)
        }
        _ => Err(CaseError::Escape),
    }
}

/// The bytes that a field, or a word of one, stands for.
pub fn unescaped(alloc: Global, field: &str) -> Result<Vec<u8>, CaseError> {
    let mut bytes = Vec::new(alloc);
    let mut is_first = true;
    for part in field.split("\\x") {
        if is_first {
            push_plain(&mut bytes, part.as_bytes())?;
            is_first = false;
        } else {
            push_escape(&mut bytes, part.as_bytes())?;
        }
    }
    Ok(bytes)
}

/// The text that a field, or a word of one, stands for.
pub fn unescaped_text(alloc: Global, field: &str) -> Result<String, CaseError> {
    let bytes = unescaped(alloc, field)?;
    let Ok(text) = String::from_utf8(bytes) else {
        return Err(CaseError::TextNotUtf8);
    };
    Ok(text)
}
