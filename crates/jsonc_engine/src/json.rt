//! A document as JSON (RFC 8259), for programs that read no more.
//!
//! Its comments go, each without the end of its line, and so do trailing commas; a comma that is missing is written
//! directly behind its entry. Names and strings are in double quotes, and numbers as JSON writes them, with the same
//! value. Each other byte stays, but a blank that is none of JSON becomes a space.
ghost use Rattle.std.specs.Prelude.{◌≡◌, ◌≢◌, ◌++◌, ◌∷◌, [], ℕ, List, IfErr, Option, IfOk, OnOk, Some, chars, map, false, true};
ghost use Rattle.jsonc_scan.specs.Scanner.{seen, IsThere, PassesBlanks};
ghost use Rattle.jsonc_text.specs.Grammar.{IsDocument};
ghost use Rattle.jsonc_text.specs.Plain.{Plain};
ghost use Rattle.jsonc_text.specs.Text.{rest};
ghost use Rattle.jsonc_text.specs.Lexemes.{LexemeKind, Lexeme, lexeme};
ghost use Rattle.jsonc_text.specs.Options.{Options, all_on};
ghost use Rattle.jsonc_text.specs.OptionsOf.{parse_options};
ghost use Rattle.jsonc_check.specs.Checker.{HasValueWithin};
ghost use Rattle.jsonc_engine.specs.Causes.{IsJsonCause, IsJsonOf, Stops};
ghost use Rattle.jsonc_engine.specs.declared.json.JsonError.TheVariants.{OutOfMemory};
ghost use Rattle.jsonc_engine.specs.Texts.{text_of, Adds};
ghost use Rattle.jsonc_engine.specs.Rewritten.{IsNonFinite, IsWrittenFor, Rewritten, is_closed, is_named, mark_for, missing_comma, written_blank, IsEntryFor};
ghost use Rattle.jsonc_engine.specs.Standing.{IsFound, IsReached};
ghost use Rattle.jsonc_engine.specs.Tokens.{IsLiteralOf, IsTokenOf};

mod decimal;
mod gap;
mod literal;
mod number;
mod output;

use gap::{mark_behind, push_blanks};
use jsonc_parser::check_document;
use jsonc_parser::errors::ParseError;
use jsonc_scan::found::{TokenContent, TokenKind};
use jsonc_scan::scanner::Scanner;
use jsonc_text::options::ParseOptions;
use literal::{Literal, push_literal};
use number::is_non_finite;
use output::put;
use std::alloc::{AllocError, Allocator};

/// Why a text is not written as JSON.
#[derive(Debug, Drop)]
pub enum JsonError {
    /// It is no document.
    Text(ParseError),
    /// It has no value.
    NoValue,
    /// The number at this place is `Infinity` or `NaN`, perhaps with a sign.
    NonFinite(usize),
    /// An allocation failed.
    OutOfMemory,
}

impl From<AllocError> for JsonError {
    ghost from_gives = { λ _ error. error ≡ OutOfMemory };

    fn from(_error: AllocError) -> JsonError {
        JsonError::OutOfMemory
    }
}

// A token of a text from one place to another, and the place before its blanks. A string stands for this.
#[derive(Clone, Copy)]
struct Found<'a> {
    place: usize,
    start: usize,
    end: usize,
    kind: TokenKind,
    string: &'a str,
}

/// The text of a document as JSON.
///
/// The text may hold what the options allow. Memory is needed for what is written, and for a string with a backslash.
pub fn to_json<A: Allocator + Copy>(
    alloc: A,
    text: &str,
    options: &ParseOptions,
) -> Result<String<A>, JsonError>
    ensures written { IfOk result (λ s. IsJsonOf (chars text.now) (text_of s)) }
    ensures accepted { OnOk result (HasValueWithin true (parse_options options.now) (chars text.now)) }
    ensures refused { IfErr result (IsJsonCause (parse_options options.now) text.now) }
{
    match check_document(alloc, text, options) {
        Ok(()) => write_value(alloc, text),
        Err(error) => Err(JsonError::Text(error)),
    }
}

// What is written for a document, where it has a value.
fn write_value<A: Allocator + Copy>(alloc: A, text: &str) -> Result<String<A>, JsonError>
    requires { (w : Option Plain) × IsDocument all_on (chars text.now) w }
    ensures written { IfOk result (λ s. IsJsonOf (chars text.now) (text_of s)) }
    ensures refused { (o : Options) → IfErr result (IsJsonCause o text.now) }
{
    match mark_behind(text, 0) {
        Some(_) => write_tokens(alloc, text),
        None => Err(JsonError::NoValue),
    }
}

// What is written for the tokens of a document, and the blanks between them.
fn write_tokens<A: Allocator + Copy>(alloc: A, text: &str) -> Result<String<A>, JsonError>
    ensures written { IfOk result (λ s. Rewritten [] (chars text.now) (text_of s)) }
    ensures stops { IfErr result (Stops text.now) }
{
    let mut scanner = Scanner::with_options(alloc, text, ParseOptions::default());
    let mut content = TokenContent::new();
    let mut written = String::new(alloc);
    let mut place = 0;
    'tokens: loop {
        let found = next_token(&mut scanner, &mut content)?;
        let start = scanner.token_start();
        let Some(kind) = found else {
            return end_with(written, &text[place..start]);
        };
        let end = scanner.token_end();
        let token = Found {
            place,
            start,
            end,
            kind,
            string: content.string.as_str(),
        };
        write_token(alloc, &mut written, text, &token)?;
        place = end;
    }
}

// What is written, with the blanks that end the text.
fn end_with<A: Allocator>(written: String<A>, blanks: &str) -> Result<String<A>, JsonError>
    ensures written { IfOk result (λ s. text_of s ≡ text_of written ++ map written_blank (chars blanks.now)) }
    ensures memory { IfErr result (λ e. e ≡ OutOfMemory) }
{
    let mut written = written;
    push_blanks(&mut written, blanks)?;
    Ok(written)
}

// Writes a token, and the blanks before it. A comment is not written.
fn write_token<A: Allocator + Copy>(
    alloc: A,
    written: &mut String<A>,
    text: &str,
    found: &Found<'_>,
) -> Result<(), JsonError>
    requires { IsFound text.now found.now (text_of written.old) }
    ensures written { OnOk result (Rewritten (rest text.now found.now.end) (chars text.now) (text_of written.new)) }
    ensures stops { IfErr result (Stops text.now) }
{
    push_blanks(written, &text[found.place..found.start])?;
    match found.kind {
        TokenKind::CommentLine => Ok(()),
        TokenKind::CommentBlock => Ok(()),
        _ => write_lexeme(alloc, written, text, found),
    }
}

// Writes a lexeme, where the blanks before it are written. The gap behind it is walked here alone, and not from its comments.
fn write_lexeme<A: Allocator + Copy>(
    alloc: A,
    written: &mut String<A>,
    text: &str,
    found: &Found<'_>,
) -> Result<(), JsonError>
    requires { IsReached text.now found.now (text_of written.old) }
    ensures written { OnOk result (Rewritten (rest text.now found.now.end) (chars text.now) (text_of written.new)) }
    ensures stops { IfErr result (Stops text.now) }
{
    let literal = Literal {
        written: &text[found.start..found.end],
        string: found.string,
    };
    let mark = mark_behind(text, found.end);
    if is_refused(found.kind, &literal, mark) {
        return Err(JsonError::NonFinite(found.start));
    }
    push_token(alloc, written, found.kind, &literal, mark)?;
    Ok(())
}

// The next token of a document, or none at its end. It is refused for want of memory alone.
fn next_token<'a, A: Allocator + Copy>(
    scanner: &mut Scanner<'a, A>,
    content: &mut TokenContent<'a, A>,
) -> Result<Option<TokenKind>, AllocError>
    ensures blanks { OnOk result (PassesBlanks scanner.old scanner.new) }
    ensures found { IfOk result (λ f. IsThere scanner.new (seen scanner.new content.new f)) }
    ensures plain { IfOk result (λ f. f ≢ Some TokenKind.Plain) }
    ensures passed { IfOk result (λ f. f ≢ Some TokenKind.Passed) }
{
    match scanner.step(content, true) {
        Ok(found) => Ok(found),
        Err(_) => Err(AllocError),
    }
}

// Whether a token is a number that JSON has not.
fn is_refused(kind: TokenKind, literal: &Literal<'_>, mark: Option<char>) -> bool
    ensures number { result ≡ true → kind ≡ TokenKind.Number }
    ensures value { result ≡ true → is_named mark ≡ false }
    ensures non_finite { result ≡ true → IsNonFinite (chars literal.now.written.now) }
    ensures other { result ≡ false → kind ≡ TokenKind.Number → is_named mark ≡ false → IsNonFinite (chars literal.now.written.now) → ⊥ }
{
    match kind {
        TokenKind::Number => is_refused_number(literal.written, mark),
        _ => false,
    }
}

// Whether a number is one that JSON has not, and no name.
fn is_refused_number(number: &str, mark: Option<char>) -> bool
    ensures value { result ≡ true → is_named mark ≡ false }
    ensures non_finite { result ≡ true → IsNonFinite (chars number.now) }
    ensures other { result ≡ false → is_named mark ≡ false → IsNonFinite (chars number.now) → ⊥ }
{
    if is_colon(mark) {
        return false;
    }
    is_non_finite(number)
}

// Whether a colon comes next.
fn is_colon(mark: Option<char>) -> bool
    ensures { result ≡ is_named mark }
{
    match mark {
        Some(c) => c == ':',
        None => false,
    }
}

// Writes a lexeme, which another one comes behind, with this first character, or none.
fn push_token<A: Allocator + Copy>(
    alloc: A,
    written: &mut String<A>,
    kind: TokenKind,
    literal: &Literal<'_>,
    mark: Option<char>,
) -> Result<(), AllocError>
    ensures { (k : LexemeKind) → IsTokenOf (chars literal.now.string.now) kind (lexeme k)
        → Lexeme all_on k (chars literal.now.written.now) []
        → (is_named mark ≡ false → (s : List ℕ) → k ≡ LexemeKind.number s → IsNonFinite s → ⊥)
        → OnOk result (Adds (IsWrittenFor k (chars literal.now.written.now) mark) (text_of written.old) (text_of written.new)) }
{
    match kind {
        TokenKind::OpenBrace => put(written, '{'),
        TokenKind::OpenBracket => put(written, '['),
        TokenKind::Colon => put(written, ':'),
        TokenKind::Comma => push_comma(written, mark),
        TokenKind::CloseBrace => push_close(written, '}', mark),
        TokenKind::CloseBracket => push_close(written, ']', mark),
        _ => push_entry(alloc, written, kind, literal, mark),
    }
}

// Writes a literal, and the comma that is missing behind it.
fn push_entry<A: Allocator + Copy>(
    alloc: A,
    written: &mut String<A>,
    kind: TokenKind,
    literal: &Literal<'_>,
    mark: Option<char>,
) -> Result<(), AllocError>
    ensures { (k : LexemeKind) → IsLiteralOf (chars literal.now.string.now) kind k
        → Lexeme all_on k (chars literal.now.written.now) []
        → (is_named mark ≡ false → (s : List ℕ) → k ≡ LexemeKind.number s → IsNonFinite s → ⊥)
        → OnOk result (Adds (IsEntryFor k (chars literal.now.written.now) mark) (text_of written.old) (text_of written.new)) }
{
    push_literal(alloc, written, kind, literal, is_colon(mark))?;
    push_missing_comma(written, mark)
}

// Writes a closing bracket, and the comma that is missing behind it.
fn push_close<A: Allocator>(
    written: &mut String<A>,
    bracket: char,
    mark: Option<char>,
) -> Result<(), AllocError>
    ensures { OnOk result (text_of written.new ≡ text_of written.old ++ bracket ∷ missing_comma mark) }
{
    put(written, bracket)?;
    push_missing_comma(written, mark)
}

// Writes a comma, but before a closing bracket.
fn push_comma<A: Allocator>(written: &mut String<A>, mark: Option<char>) -> Result<(), AllocError>
    ensures { OnOk result (text_of written.new ≡ text_of written.old ++ mark_for 0x2C mark) }
{
    if is_closed(mark) {
        return Ok(());
    }
    put(written, ',')
}

// Whether a closing bracket comes next.
fn is_closed(mark: Option<char>) -> bool
    ensures { result ≡ is_closed mark }
{
    match mark {
        Some(c) => (c == ']') | (c == '}'),
        None => false,
    }
}

// Writes the comma that is missing where an entry comes next.
fn push_missing_comma<A: Allocator>(
    written: &mut String<A>,
    mark: Option<char>,
) -> Result<(), AllocError>
    ensures { OnOk result (text_of written.new ≡ text_of written.old ++ missing_comma mark) }
{
    let Some(c) = mark else {
        return Ok(());
    };
    if (c == ',') | (c == ':') | (c == ']') | (c == '}') {
        return Ok(());
    }
    put(written, ',')
}
