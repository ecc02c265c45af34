//! Where keywords (RFC 8259, 3) and words (after JSON5, 3) end.
ghost use Rattle.std.specs.Prelude.{◌≡◌, ◌↔◌, ◌+◌, ◌<◌, ◌≤◌, length, drop, take, IsTrue, false, IfOk, IfErr, IfSome, IfNone, IsCharBoundary};
ghost use Rattle.std.specs.Str.{IsAscii};
ghost use Rattle.jsonc_text.specs.string.Between.{Between, LacksAt, NoneFrom};
ghost use Rattle.jsonc_scan.specs.Between.{IsAlone, PassesOne, PassesWord, may_follow_word};
ghost use Rattle.jsonc_text.specs.Letters.{is_wide_letter};
ghost use Rattle.jsonc_text.specs.OptionsOf.{parse_options};
ghost use Rattle.jsonc_scan.specs.Reads.{IsRead, IsReadAnyhow, NoName, NoWord};
ghost use Rattle.jsonc_scan.specs.Refusals.{IsTextFault, IsFaultOfNameOrWord, IsFaultOfWord};
ghost use Rattle.jsonc_text.specs.Text.{rest, next, Many};
ghost use Rattle.jsonc_text.specs.Words.{goes_on, is_in_word, begins_word, EndsWord, Keyword, IsKeyword};
ghost use Rattle.jsonc_text.specs.Faults.{kind_of};

use crate::faults::{fault, fault_at};
use crate::lexeme::{Lexeme, Read};
use jsonc_text::chars::char_at;
use jsonc_text::errors::{ParseError, ParseErrorKind};
use jsonc_text::options::ParseOptions;
use unicode::properties::{GeneralCategory, GeneralCategoryGroup, is_alphabetic};

/// Whether a character past ASCII is a letter or a digit.
#[tactic(auto, unfolding(jsonc_text::specs::Letters::is_wide_letter))]
fn is_wide_letter(c: char) -> bool
    ensures { result ≡ is_wide_letter c }
{
    if c as u32 <= 0x7F {
        return false;
    }
    if is_alphabetic(c) {
        return true;
    }
    GeneralCategoryGroup::Number.contains(GeneralCategory::for_char(c))
}

/// Whether a keyword before the character goes on.
fn goes_on(c: char) -> bool
    ensures { result ≡ goes_on c }
{
    if c.is_ascii_alphabetic() | c.is_ascii_digit() | (c == '$') {
        return true;
    }
    is_wide_letter(c)
}

/// Whether the character may stand in a word.
fn is_in_word(c: char) -> bool
    ensures { result ≡ is_in_word c }
{
    if c.is_ascii_alphabetic() | (c == '_') | (c == '$') {
        return true;
    }
    if is_wide_letter(c) {
        return true;
    }
    c.is_ascii_digit() | (c == '-')
}

/// Whether these bytes stand at a place.
#[inline(always)]
fn has_text(text: &str, start: usize, word: &str) -> bool
    requires { start ≤ length text.now }
    ensures { IsTrue result ↔ (take (length word.now) (drop start text.now) ≡ word.now) }
{
    let bytes = text.as_bytes();
    if bytes.len() - start < word.len() {
        return false;
    }
    &bytes[start..start + word.len()] == word.as_bytes()
}

/// Whether bytes begin with others, compared in line.
#[inline(always)]
fn begin_with(bytes: &[u8], others: &[u8]) -> bool
    requires { length others.now ≤ length bytes.now }
    ensures { IsTrue result → take (length others.now) bytes.now ≡ others.now }
{
    for place in 0..others.len() {
        if bytes[place] != others[place] {
            return false;
        }
    }
    true
}

/// The place after the text `word` at a place, where it ends as a keyword does, or none.
pub(crate) fn keyword_end(text: &str, start: usize, word: &str) -> Option<usize>
    requires boundary { IsCharBoundary text.now start }
    requires ascii { IsAscii word.now }
    requires nonempty { 0 < length word.now }
    ensures found { IfSome result (Between (IsAlone word.now) text.now start) }
    ensures none { IfNone result (NoneFrom (IsAlone word.now) text.now start) }
{
    if !has_text(text, start, word) {
        return None;
    }
    let end = start + word.len();
    match char_at(text, end) {
        Some(c) => {
            if goes_on(c) {
                return None;
            }
            Some(end)
        }
        None => Some(end),
    }
}

/// Whether a word may begin with the character.
fn begins_word(c: char) -> bool
    ensures { result ≡ begins_word c }
{
    if c.is_ascii_alphabetic() | (c == '_') | (c == '$') {
        return true;
    }
    is_wide_letter(c)
}

/// Whether the character may stand after a word.
fn may_follow_word(c: char) -> bool
    ensures { result ≡ may_follow_word c }
{
    if (c == ':') | (c == ' ') | (c == '\t') | (c == '\n') | (c == '\u{C}') | (c == '\r') {
        return true;
    }
    if c as u32 <= 0x7F {
        return false;
    }
    c.is_whitespace()
}

/// The place after the first character of the word at a place, or none where no word begins.
fn first_end(text: &str, start: usize) -> Option<usize>
    requires { IsCharBoundary text.now start }
    ensures found { IfSome result (PassesOne begins_word text.now start) }
    ensures none { IfNone result (LacksAt begins_word text.now start) }
{
    let c = char_at(text, start)?;
    if begins_word(c) {
        Some(start + c.len_utf8())
    } else {
        None
    }
}

/// The place after the characters of a word that stand at a place, if any.
fn word_chars_end(text: &str, start: usize) -> usize
    requires { IsCharBoundary text.now start }
    ensures boundary { IsCharBoundary text.now result }
    ensures order { start ≤ result }
    ensures chars { Many is_in_word (rest text.now start) (rest text.now result) }
    ensures all { LacksAt is_in_word text.now result }
{
    let mut place = start;
    while let Some(c) = char_at(text, place) {
        if !is_in_word(c) {
            return place;
        }
        place += c.len_utf8();
    }
    place
}

/// Whether a word may end at a place.
fn ends_word(text: &str, place: usize) -> bool
    requires { IsCharBoundary text.now place }
    ensures { IsTrue result ↔ EndsWord (next (rest text.now place)) }
{
    match char_at(text, place) {
        Some(c) => may_follow_word(c),
        None => true,
    }
}

/// The place after the word at a place, whatever keyword or number it is the text of.
pub(crate) fn word_end(text: &str, start: usize) -> Result<usize, ParseError>
    requires { IsCharBoundary text.now start }
    ensures found { IfOk result (Between PassesWord text.now start) }
    ensures none { IfErr result (λ _. NoneFrom PassesWord text.now start) }
    ensures fault { IfErr result (IsTextFault text.now) }
    ensures kind { IfErr result (λ e. kind_of e ≡ ParseErrorKind.UnexpectedToken) }
    ensures error { IfErr result (IsFaultOfWord text.now start) }
{
    let Some(first) = first_end(text, start) else {
        return Err(fault_at(text, start, ParseErrorKind::UnexpectedToken));
    };
    let end = word_chars_end(text, first);
    if ends_word(text, end) {
        return Ok(end);
    }
    Err(fault(text, start, end, ParseErrorKind::UnexpectedToken))
}

/// The place after the text `word` at a place, if a character of ASCII ends it there as a keyword. In line its bytes
/// are compared at once.
#[inline(always)]
pub(crate) fn plain_keyword_end(text: &str, start: usize, word: &str) -> Option<usize>
    requires boundary { IsCharBoundary text.now start }
    requires ascii { IsAscii word.now }
    requires nonempty { 0 < length word.now }
    ensures { IfSome result (Between (IsAlone word.now) text.now start) }
{
    let bytes = text.as_bytes();
    if bytes.len() - start <= word.len() {
        return None;
    }
    if !begin_with(&bytes[start..], word.as_bytes()) {
        return None;
    }
    let end = start + word.len();
    let byte = bytes[end];
    if byte >= 0x80 {
        return None;
    }
    if goes_on(byte as char) {
        return None;
    }
    Some(end)
}

/// The keyword at a place, or none.
pub(crate) fn read_keyword<'a>(text: &'a str, start: usize) -> Option<Read<'a>>
    requires { IsCharBoundary text.now start }
    ensures found { IfSome result (IsReadAnyhow text.now start) }
    ensures none { IfNone result ((k : Keyword) → NoneFrom (IsKeyword k) text.now start) }
{
    if let Some(end) = keyword_end(text, start, "true") {
        let lexeme = Lexeme::Boolean(true);
        return Some(Read { lexeme, end });
    }
    if let Some(end) = keyword_end(text, start, "false") {
        let lexeme = Lexeme::Boolean(false);
        return Some(Read { lexeme, end });
    }
    let Some(end) = keyword_end(text, start, "null") else {
        return None;
    };
    Some(Read {
        lexeme: Lexeme::Null,
        end,
    })
}

/// The word at a place, where neither a keyword nor a number stands.
pub(crate) fn read_word<'a>(
    text: &'a str,
    start: usize,
    options: &ParseOptions,
) -> Result<Read<'a>, ParseError>
    requires boundary { IsCharBoundary text.now start }
    requires keyword { (k : Keyword) → NoneFrom (IsKeyword k) text.now start }
    requires name { NoName (parse_options options.now) text.now start }
    ensures found { IfOk result (IsRead (parse_options options.now) text.now start) }
    ensures none { IfErr result (λ _. NoWord (parse_options options.now) text.now start) }
    ensures fault { IfErr result (IsTextFault text.now) }
    ensures error { IfErr result (IsFaultOfNameOrWord (parse_options options.now) text.now start) }
{
    let end = word_end(text, start)?;
    let lexeme = Lexeme::Word(&text[start..end]);
    Ok(Read { lexeme, end })
}
