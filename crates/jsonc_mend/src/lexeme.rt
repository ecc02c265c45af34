//! Lexemes of a text with faults, and what reading one leads to.
use crate::changes::Fault;
use crate::reading::rest;
use jsonc_scan::found::{TokenContent, TokenKind};
use jsonc_scan::scanner::Scanner;
use jsonc_text::common::Range;
use jsonc_text::errors::ParseErrorKind;
use jsonc_text::options::ParseOptions;
use std::alloc::Allocator;

/// What is at a place.
#[derive(Clone, Copy, Debug, PartialEq, Eq)]
pub(crate) enum Kind {
    End,
    OpenBrace,
    CloseBrace,
    OpenBracket,
    CloseBracket,
    Comma,
    Colon,
    String,
    /// A string in single quotes, which are forbidden.
    Single,
    Number,
    Keyword,
    Word,
    /// What is no lexeme, outside of strings and comments.
    Junk,
    /// A string or comment with a fault, where nothing may be.
    Bad,
}

impl Kind {
    /// Whether it opens a container.
    pub(crate) fn opens(self) -> bool {
        self == Kind::OpenBrace || self == Kind::OpenBracket
    }

    /// Whether it closes a container.
    pub(crate) fn closes(self) -> bool {
        self == Kind::CloseBrace || self == Kind::CloseBracket
    }

    /// Whether it is a number or a keyword.
    pub(crate) fn is_plain(self) -> bool {
        self == Kind::Number || self == Kind::Keyword
    }

    /// Whether a value begins with it.
    pub(crate) fn begins_value(self) -> bool {
        self == Kind::String || self.is_plain() || self.opens()
    }

    /// Whether a name may be written so under some options.
    pub(crate) fn may_be_name(self) -> bool {
        self == Kind::String || self.is_plain() || self == Kind::Word
    }

    /// Whether it is outside of strings and comments and no punctuation.
    pub(crate) fn is_bare(self) -> bool {
        self.is_plain() || self == Kind::Word || self == Kind::Junk
    }

    /// Whether it has a fault of its own.
    pub(crate) fn has_fault(self) -> bool {
        self == Kind::Junk || self == Kind::Bad || self == Kind::Single
    }

    /// The fault of one that may not be where a value is expected.
    pub(crate) fn unexpected(self) -> ParseErrorKind {
        match self {
            Kind::CloseBracket => ParseErrorKind::UnexpectedCloseBracket,
            Kind::CloseBrace => ParseErrorKind::UnexpectedCloseBrace,
            Kind::Comma => ParseErrorKind::UnexpectedComma,
            Kind::Colon => ParseErrorKind::UnexpectedColon,
            Kind::Word => ParseErrorKind::UnexpectedWord,
            _ => ParseErrorKind::UnexpectedToken,
        }
    }
}

/// The punctuation that a character is.
pub(crate) fn mark_kind(c: char) -> Option<Kind> {
    match c {
        '{' => Some(Kind::OpenBrace),
        '}' => Some(Kind::CloseBrace),
        '[' => Some(Kind::OpenBracket),
        ']' => Some(Kind::CloseBracket),
        ',' => Some(Kind::Comma),
        ':' => Some(Kind::Colon),
        _ => None,
    }
}

/// A fault between two places.
pub(crate) fn fault(kind: ParseErrorKind, start: usize, end: usize) -> Fault {
    Fault {
        kind,
        range: Range::new(start, end),
    }
}

/// A lexeme and where it is.
#[derive(Clone, Copy)]
pub(crate) struct Token {
    pub kind: Kind,
    pub start: usize,
    pub end: usize,
    /// The end of the first line of a string that goes on after it.
    pub line: Option<usize>,
    /// What is wrong with it by itself.
    pub fault: Option<Fault>,
}

impl Token {
    /// A lexeme without a fault.
    pub(crate) fn new(kind: Kind, start: usize, end: usize) -> Token {
        Token {
            kind,
            start,
            end,
            line: None,
            fault: None,
        }
    }

    /// A lexeme with a fault.
    pub(crate) fn faulty(kind: Kind, start: usize, end: usize, fault: Fault) -> Token {
        Token {
            kind,
            start,
            end,
            line: None,
            fault: Some(fault),
        }
    }

    /// The fault of the token by itself, or that of its kind here.
    pub(crate) fn fault_or(&self, kind: ParseErrorKind) -> Fault {
        match self.fault {
            Some(own) => own,
            None => fault(kind, self.start, self.end),
        }
    }
}

/// A number, keyword or word, and the place after it.
#[derive(Clone, Copy)]
pub(crate) struct Plain {
    pub kind: Kind,
    pub end: usize,
}

// What a token of the scanner is here.
fn plain_kind(found: TokenKind) -> Kind {
    match found {
        TokenKind::Number => Kind::Number,
        TokenKind::True | TokenKind::False | TokenKind::Null => Kind::Keyword,
        TokenKind::Word => Kind::Word,
        _ => Kind::Junk,
    }
}

/// The number, keyword or word at a place where neither punctuation nor a quote or comment is, or its fault.
pub(crate) fn read_plain<A: Allocator + Copy>(
    alloc: A,
    text: &str,
    place: usize,
    options: &ParseOptions,
) -> Result<Plain, Fault> {
    let mut scanner = Scanner::with_options(alloc, rest(text, place), options.copied());
    let mut content = TokenContent::new();
    match scanner.step(&mut content, false) {
        Ok(Some(found)) => Ok(Plain {
            kind: plain_kind(found),
            end: place.saturating_add(scanner.token_end()),
        }),
        Ok(None) => Err(fault(ParseErrorKind::UnexpectedToken, place, place)),
        Err(error) => {
            let range = error.range();
            let start = place.saturating_add(range.start);
            Err(fault(*error.kind(), start, place.saturating_add(range.end)))
        }
    }
}
