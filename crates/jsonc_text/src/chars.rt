//! The characters of a text by their places. A place is a number of bytes, on a character boundary.
ghost use Rattle.std.specs.Prelude.{◌≡◌, ◌+◌, ◌<◌, ◌≤◌, IsTrue, IsCharBoundary, IfNone, IfSome, false, ◌==◌, [], ◌∷◌, ℕ, List};
ghost use Rattle.std.specs.Char.{len_utf8};
ghost use Rattle.jsonc_text.specs.Text.{Many, rest, next, no, is_digit, is_hex_digit};
ghost use Rattle.jsonc_text.specs.Gaps.{is_blank};
ghost use Rattle.jsonc_text.specs.Chars.{Steps};

use crate::runs::digit_stop;

/// The character at a place, or none at the end.
#[inline(always)]
pub fn char_at(text: &str, place: usize) -> Option<char>
    requires { IsCharBoundary text.now place }
    ensures none { IfNone result (rest text.now place ≡ []) }
    ensures some { IfSome result (λ c. Steps text.now place c (place + len_utf8 c)) }
{
    let bytes = text.as_bytes();
    if place >= bytes.len() {
        return None;
    }
    let byte = bytes[place];
    if byte < 0x80 {
        return Some(byte as char);
    }
    text[place..].chars().next()
}

/// The place after the character at a place, or the place itself at the end.
pub fn char_end(text: &str, place: usize) -> usize
    requires { IsCharBoundary text.now place }
    ensures boundary { IsCharBoundary text.now result }
    ensures none { rest text.now place ≡ [] → result ≡ place }
    ensures some { (c : ℕ) (r : List ℕ) → rest text.now place ≡ c ∷ r → Steps text.now place c result }
{
    match char_at(text, place) {
        Some(c) => place + c.len_utf8(),
        None => place,
    }
}

/// Whether an ASCII character stands at a place.
pub fn has_byte(text: &str, place: usize, byte: u8) -> bool
    requires boundary { IsCharBoundary text.now place }
    requires ascii { byte < 128 }
    ensures here { IsTrue result → Steps text.now place byte (place + 1) }
    ensures other { result ≡ false → IsTrue (no (λ c. c == byte) (next (rest text.now place))) }
{
    let bytes = text.as_bytes();
    if place < bytes.len() {
        bytes[place] == byte
    } else {
        false
    }
}

/// The length of the blank at a place, or 0 where none stands.
fn blank_len(text: &str, place: usize) -> usize
    requires { IsCharBoundary text.now place }
    ensures none { result ≡ 0 → IsTrue (no is_blank (next (rest text.now place))) }
    ensures some { 0 < result → (c : ℕ) × IsTrue (is_blank c) × Steps text.now place c (place + result) }
{
    let bytes = text.as_bytes();
    if place < bytes.len() && bytes[place] < 0x80 {
        let byte = bytes[place];
        if (8 < byte) & (byte < 14) | (byte == 0x20) {
            1
        } else {
            0
        }
    } else {
        match char_at(text, place) {
            Some(c) if c.is_whitespace() => c.len_utf8(),
            _ => 0,
        }
    }
}

/// The first place from `start` on where no blank stands, by characters.
#[cold]
fn any_blanks_end(text: &str, start: usize) -> usize
    requires { IsCharBoundary text.now start }
    ensures boundary { IsCharBoundary text.now result }
    ensures order { start ≤ result }
    ensures blanks { Many is_blank (rest text.now start) (rest text.now result) }
    ensures all { IsTrue (no is_blank (next (rest text.now result))) }
{
    let mut place = start;
    let mut len = blank_len(text, place);
    while len > 0 {
        place += len;
        len = blank_len(text, place);
    }
    place
}

/// The first place from `start` on where no blank stands.
#[inline(always)]
pub fn blanks_end(text: &str, start: usize) -> usize
    requires { IsCharBoundary text.now start }
    ensures boundary { IsCharBoundary text.now result }
    ensures order { start ≤ result }
    ensures blanks { Many is_blank (rest text.now start) (rest text.now result) }
    ensures all { IsTrue (no is_blank (next (rest text.now result))) }
{
    let bytes = text.as_bytes();
    let mut place = start;
    while place < bytes.len() {
        let byte = bytes[place];
        if byte > 0x20 {
            if byte < 0x80 {
                return place;
            }
            return any_blanks_end(text, place);
        }
        if !((8 < byte) & (byte < 14) | (byte == 0x20)) {
            return place;
        }
        place += 1;
    }
    place
}

/// The first place from `start` on where no digit stands.
pub fn digits_end(text: &str, start: usize) -> usize
    requires { IsCharBoundary text.now start }
    ensures boundary { IsCharBoundary text.now result }
    ensures order { start ≤ result }
    ensures digits { Many is_digit (rest text.now start) (rest text.now result) }
    ensures all { IsTrue (no is_digit (next (rest text.now result))) }
{
    digit_stop(text.as_bytes(), start)
}

/// The first place from `start` on where no hex digit stands.
pub fn hex_digits_end(text: &str, start: usize) -> usize
    requires { IsCharBoundary text.now start }
    ensures boundary { IsCharBoundary text.now result }
    ensures order { start ≤ result }
    ensures digits { Many is_hex_digit (rest text.now start) (rest text.now result) }
    ensures all { IsTrue (no is_hex_digit (next (rest text.now result))) }
{
    let bytes = text.as_bytes();
    let mut place = start;
    while place < bytes.len() && bytes[place].is_ascii_hexdigit() {
        place += 1;
    }
    place
}
