//! How faults and tokens are shown.

use jsonc_cases::escape::Escaped;
use jsonc_parser::ParseStringErrorKind;
use jsonc_parser::errors::{ParseError, ParseErrorKind};
use jsonc_parser::tokens::Token;
use std::alloc::{AllocError, Global};
use std::borrow::CowStr;

/// The name of a string's fault.
pub fn push_string_kind(out: &mut String, kind: &ParseStringErrorKind) -> Result<(), AllocError> {
    match kind {
        ParseStringErrorKind::InvalidUnicodeEscapeSequence(_, _) => {
            out.push_str("InvalidUnicodeEscapeSequence")
        }
        kind => write!(out, "{kind:?}"),
    }
}

/// The name of a fault.
pub fn push_kind(out: &mut String, kind: &ParseErrorKind) -> Result<(), AllocError> {
    match kind {
        ParseErrorKind::String(kind) => {
            out.push_str("String/")?;
            push_string_kind(out, kind)
        }
        kind => write!(out, "{kind:?}"),
    }
}

/// A fault: its kind, its range, its line and column, and how it prints.
pub fn push_fault(alloc: Global, out: &mut String, error: &ParseError) -> Result<(), AllocError> {
    let range = error.range();
    let line = error.line_display();
    let column = error.column_display();
    out.push_str("fault ")?;
    push_kind(out, error.kind())?;
    write!(out, " {} {} {line} {column} ", range.start, range.end)?;
    push_printed(alloc, out, error)
}

fn push_printed(alloc: Global, out: &mut String, error: &ParseError) -> Result<(), AllocError> {
    let printed = error.to_string(alloc)?;
    write!(out, "{}", Escaped::field(printed.as_bytes()))
}

fn kind_of(token: &Token<'_, Global>) -> &'static str {
    match token {
        Token::OpenBrace => "OpenBrace",
        Token::CloseBrace => "CloseBrace",
        Token::OpenBracket => "OpenBracket",
        Token::CloseBracket => "CloseBracket",
        Token::Comma => "Comma",
        Token::Colon => "Colon",
        Token::String(CowStr::Borrowed(_)) => "StringBorrowed",
        Token::String(CowStr::Owned(_)) => "StringOwned",
        Token::Word(_) => "Word",
        Token::Boolean(_) => "Boolean",
        Token::Number(_) => "Number",
        Token::Null => "Null",
        Token::CommentLine(_) => "CommentLine",
        Token::CommentBlock(_) => "CommentBlock",
    }
}

/// A token: its kind, its range and its text.
pub fn push_token(
    out: &mut String,
    token: &Token<'_, Global>,
    start: usize,
    end: usize,
) -> Result<(), AllocError> {
    let kind = kind_of(token);
    let text = Escaped::field(token.as_str().as_bytes());
    write!(out, "{kind} {start} {end} {text}")
}
