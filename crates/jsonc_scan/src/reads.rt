//! Reading the lexeme or comment at a place.
ghost use Rattle.std.specs.Prelude.{IsCharBoundary, IfOk, IfErr, IfSome, IfNone};
ghost use Rattle.jsonc_text.specs.string.Between.{LacksAt, NoneFrom};
ghost use Rattle.jsonc_text.specs.Lexemes.{is_punctuation};
ghost use Rattle.jsonc_text.specs.OptionsOf.{parse_options};
ghost use Rattle.jsonc_scan.specs.Reads.{IsMarkAt, IsRead, IsReadAnyhow, NoNameOrWord, NothingAt};
ghost use Rattle.jsonc_text.specs.string.Quotes.{OpensNoString, OpensString};
ghost use Rattle.jsonc_scan.specs.Refusals.{IsTextFault, IsFaultOfLexeme, IsFaultOfNameOrWord};
ghost use Rattle.jsonc_text.specs.Words.{Keyword, IsKeyword};

use crate::comment::read_comment;
use crate::faults::fault;
use crate::lexeme::{Mark, Read, punctuation};
use crate::number::{begins_number, read_name, read_number};
use crate::word::{read_keyword, read_word};
use jsonc_text::chars::has_byte;
use jsonc_text::errors::{ParseError, ParseErrorKind};
use jsonc_text::options::ParseOptions;

/// The quote that opens a string at a place, or none.
pub(crate) fn quote_at(text: &str, start: usize, options: &ParseOptions) -> Option<u8>
    requires { IsCharBoundary text.now start }
    ensures found { IfSome result (OpensString (parse_options options.now) text.now start) }
    ensures none { IfNone result (OpensNoString (parse_options options.now) text.now start) }
{
    if has_byte(text, start, b'"') {
        return Some(b'"');
    }
    if !options.allow_single_quoted_strings {
        return None;
    }
    if has_byte(text, start, b'\'') {
        return Some(b'\'');
    }
    None
}

/// The lexeme or comment at a place where no string begins and no punctuation stands.
#[inline(always)]
pub(crate) fn read_lexeme<'a>(
    text: &'a str,
    start: usize,
    options: &ParseOptions,
) -> Result<Read<'a>, ParseError>
    requires boundary { IsCharBoundary text.now start }
    requires quote { OpensNoString (parse_options options.now) text.now start }
    requires mark { LacksAt is_punctuation text.now start }
    ensures found { IfOk result (IsRead (parse_options options.now) text.now start) }
    ensures none { IfErr result (λ _. NothingAt (parse_options options.now) text.now start) }
    ensures fault { IfErr result (IsTextFault text.now) }
    ensures error { IfErr result (IsFaultOfLexeme (parse_options options.now) text.now start) }
{
    if has_byte(text, start, b'/') {
        return read_comment(text, start);
    }
    if begins_number(text, start) {
        return read_number(text, start, options);
    }
    if has_byte(text, start, b'\'') {
        let kind = ParseErrorKind::SingleQuotedStringsNotAllowed;
        return Err(fault(text, start, start + 1, kind));
    }
    if let Some(read) = read_keyword(text, start) {
        return Ok(read);
    }
    read_name_or_word(text, start, options)
}

/// The punctuation at a place, or none.
pub(crate) fn read_punctuation(text: &str, start: usize) -> Option<Mark>
    requires { IsCharBoundary text.now start }
    ensures found { IfSome result (IsMarkAt text.now start) }
    ensures none { IfNone result (LacksAt is_punctuation text.now start) }
{
    let bytes = text.as_bytes();
    if start >= bytes.len() {
        return None;
    }
    let Some(mark) = punctuation(bytes[start]) else {
        return None;
    };
    Some(mark)
}

/// `Infinity` or `NaN` where these are numbers, else the word, at a place where no keyword stands.
fn read_name_or_word<'a>(
    text: &'a str,
    start: usize,
    options: &ParseOptions,
) -> Result<Read<'a>, ParseError>
    requires boundary { IsCharBoundary text.now start }
    requires keyword { (k : Keyword) → NoneFrom (IsKeyword k) text.now start }
    ensures found { IfOk result (IsRead (parse_options options.now) text.now start) }
    ensures none { IfErr result (λ _. NoNameOrWord (parse_options options.now) text.now start) }
    ensures fault { IfErr result (IsTextFault text.now) }
    ensures error { IfErr result (IsFaultOfNameOrWord (parse_options options.now) text.now start) }
{
    if !options.allow_non_finite_numbers {
        return read_word(text, start, options);
    }
    if let Some(read) = read_name(text, start) {
        return Ok(read);
    }
    read_word(text, start, options)
}
