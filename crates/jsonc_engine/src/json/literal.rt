//! Strings, numbers, words and keywords, as names and as values.
ghost use Rattle.std.specs.Prelude.{◌≡◌, ◌++◌, [], ℕ, List, OnOk, chars, false};
ghost use Rattle.jsonc_text.specs.Lexemes.{Lexeme, LexemeKind};
ghost use Rattle.jsonc_text.specs.Words.{Keyword};
ghost use Rattle.jsonc_text.specs.Options.{all_on};
ghost use Rattle.jsonc_text.specs.Spelling.{spelled};
ghost use Rattle.jsonc_text.specs.Strings.{IsString, meaning};
ghost use Rattle.jsonc_text.specs.string.Escapes.{is_plain};
ghost use Rattle.jsonc_engine.specs.Texts.{text_of, Adds};
ghost use Rattle.jsonc_engine.specs.Plain.{is_json, may_stand, plain_from};
ghost use Rattle.jsonc_engine.specs.Rewritten.{IsLiteralFor, IsNonFinite, IsStringFor};
ghost use Rattle.jsonc_engine.specs.Tokens.{IsLiteralOf};

use super::number::push_number;
use super::output::put_all;
use jsonc_layout::input::spelling::spell;
use jsonc_scan::found::TokenKind;
use std::alloc::{AllocError, Allocator};

// A literal, as it is written, and what it stands for where it is a string.
#[derive(Clone, Copy)]
pub(super) struct Literal<'a> {
    pub written: &'a str,
    pub string: &'a str,
}

// Writes a literal, as a name or as a value.
pub(super) fn push_literal<A: Allocator + Copy>(
    alloc: A,
    written: &mut String<A>,
    kind: TokenKind,
    literal: &Literal<'_>,
    is_name: bool,
) -> Result<(), AllocError>
    ensures { (k : LexemeKind) → IsLiteralOf (chars literal.now.string.now) kind k
        → Lexeme all_on k (chars literal.now.written.now) []
        → (is_name ≡ false → (s : List ℕ) → k ≡ LexemeKind.number s → IsNonFinite s → ⊥)
        → OnOk result (Adds (IsLiteralFor k is_name (chars literal.now.written.now)) (text_of written.old) (text_of written.new)) }
{
    match kind {
        TokenKind::String => push_string(alloc, written, literal),
        TokenKind::Word => push_spelled(alloc, written, literal.written),
        TokenKind::Number => push_number_as(alloc, written, literal.written, is_name),
        _ => push_keyword_as(alloc, written, literal.written, is_name),
    }
}

// Writes a number, as a name or as a value.
fn push_number_as<A: Allocator + Copy>(
    alloc: A,
    written: &mut String<A>,
    number: &str,
    is_name: bool,
) -> Result<(), AllocError>
    ensures { (s : List ℕ) → Lexeme all_on (LexemeKind.number s) (chars number.now) []
        → (is_name ≡ false → IsNonFinite s → ⊥)
        → OnOk result (Adds (IsLiteralFor (LexemeKind.number s) is_name (chars number.now)) (text_of written.old) (text_of written.new)) }
{
    if is_name {
        push_spelled(alloc, written, number)
    } else {
        push_number(alloc, written, number)
    }
}

// Writes a keyword, as a name or as a value.
fn push_keyword_as<A: Allocator + Copy>(
    alloc: A,
    written: &mut String<A>,
    keyword: &str,
    is_name: bool,
) -> Result<(), AllocError>
    ensures { (k : Keyword) → OnOk result (Adds (IsLiteralFor (LexemeKind.keyword k) is_name (chars keyword.now)) (text_of written.old) (text_of written.new)) }
{
    if is_name {
        push_spelled(alloc, written, keyword)
    } else {
        put_all(written, keyword)
    }
}

// Writes a string in double quotes.
fn push_spelled<A: Allocator + Copy>(
    alloc: A,
    written: &mut String<A>,
    string: &str,
) -> Result<(), AllocError>
    ensures { OnOk result (text_of written.new ≡ text_of written.old ++ spelled (chars string.now)) }
{
    match spell(alloc, string) {
        Ok(spelled) => put_all(written, spelled.as_str()),
        Err(error) => Err(error),
    }
}

// Writes a string as it is where it is one of JSON, and else anew.
fn push_string<A: Allocator + Copy>(
    alloc: A,
    written: &mut String<A>,
    literal: &Literal<'_>,
) -> Result<(), AllocError>
    ensures { IsString all_on (chars literal.now.written.now) (chars literal.now.string.now) []
        → OnOk result (Adds (IsStringFor (chars literal.now.written.now) (chars literal.now.string.now)) (text_of written.old) (text_of written.new)) }
{
    if is_json_string(literal.written) {
        put_all(written, literal.written)
    } else {
        push_spelled(alloc, written, literal.string)
    }
}

// Whether a string is one of JSON.
fn is_json_string(literal: &str) -> bool
    ensures { result ≡ is_json (chars literal.now) }
{
    match literal.strip_prefix('"') {
        Some(rest) => is_plain(rest),
        None => false,
    }
}

// Whether JSON has all escapes of a string, and it holds no control characters.
fn is_plain(text: &str) -> bool
    ensures { result ≡ plain_from false (chars text.now) }
{
    let mut escaped = false;
    for c in text.chars() {
        if !may_stand(escaped, c) {
            return false;
        }
        escaped = !escaped & (c == '\\');
    }
    true
}

// Whether a character of a string may stand there in JSON, behind a backslash or not.
fn may_stand(escaped: bool, c: char) -> bool
    ensures { result ≡ may_stand escaped c }
{
    if escaped { is_escape(c) } else { c >= ' ' }
}

// Whether JSON has an escape with this character behind its backslash.
fn is_escape(c: char) -> bool
    ensures { result ≡ is_plain (meaning 0x22 c) }
{
    match c {
        '"' => true,
        '\\' => true,
        '/' => true,
        'b' => true,
        'f' => true,
        'n' => true,
        'r' => true,
        't' => true,
        'u' => true,
        _ => false,
    }
}
