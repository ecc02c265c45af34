//! Containers, and what a token is to a parser.
ghost use Rattle.std.specs.Prelude.{◌≡◌, ◌≢◌, ◌↔◌, IsTrue, chars, option_map};
ghost use Rattle.jsonc_text.specs.Lexemes.{lexeme, punctuation};
ghost use Rattle.jsonc_text.specs.Places.{is_comment as is_a_comment};
ghost use Rattle.jsonc_walk.specs.Containers.{closing, unterminated_kind, begins, misplaced_kind};
ghost use Rattle.jsonc_walk.specs.Context.{last};
ghost use Rattle.jsonc_walk.specs.Scanned.{begins_value, begins_name, unexpected_kind, loose_text};

use crate::context::Context;
use jsonc_scan::found::TokenKind;
use jsonc_text::errors::ParseErrorKind;
use std::alloc::Allocator;

/// What is read alike: an array or an object.
#[derive(Clone, Copy)]
pub enum Container {
    Array,
    Object,
}

impl Container {
    /// What is wrong where the text ends in it.
    pub(crate) fn unterminated(self) -> ParseErrorKind
        ensures kind { result ≡ unterminated_kind self }
        ensures memory { result ≢ ParseErrorKind.OutOfMemory }
    {
        match self {
            Container::Array => ParseErrorKind::UnterminatedArray,
            Container::Object => ParseErrorKind::UnterminatedObject,
        }
    }
}

/// What the last token, which is of a kind, is to a parser.
impl<'a, A: Allocator> Context<'a, A> {
    /// Whether it is the bracket that closes a container.
    #[inline(always)]
    pub(crate) fn closes(&self, container: Container, token: TokenKind) -> bool
        ensures { IsTrue result ↔ (last self.now token ≡ lexeme (punctuation (closing container))) }
    {
        match container {
            Container::Array => matches!(token, TokenKind::CloseBracket),
            Container::Object => matches!(token, TokenKind::CloseBrace),
        }
    }

    /// Whether an element, or a property, may begin with it.
    pub(crate) fn begins(&self, container: Container, token: TokenKind) -> bool
        ensures { result ≡ begins container (last self.now token) }
    {
        match container {
            Container::Array => self.is_value_start(token),
            Container::Object => self.is_name_start(token),
        }
    }

    /// What is wrong with it where an element, or a property, must begin.
    pub(crate) fn misplaced(&self, container: Container, token: TokenKind) -> ParseErrorKind
        ensures kind { result ≡ misplaced_kind container (last self.now token) }
        ensures memory { result ≢ ParseErrorKind.OutOfMemory }
    {
        match container {
            Container::Array => self.unexpected(token),
            Container::Object => ParseErrorKind::UnexpectedTokenInObject,
        }
    }

    /// Whether a value may begin with it.
    fn is_value_start(&self, token: TokenKind) -> bool
        ensures { result ≡ begins_value (last self.now token) }
    {
        match token {
            TokenKind::OpenBrace => true,
            TokenKind::OpenBracket => true,
            TokenKind::String => true,
            TokenKind::Plain => true,
            TokenKind::Passed => true,
            TokenKind::Number => true,
            TokenKind::True => true,
            TokenKind::False => true,
            TokenKind::Null => true,
            _ => false,
        }
    }

    /// Whether it may be a name, where the options allow it.
    fn is_name_start(&self, token: TokenKind) -> bool
        ensures { result ≡ begins_name (last self.now token) }
    {
        match token {
            TokenKind::String => true,
            TokenKind::Plain => true,
            TokenKind::Passed => true,
            TokenKind::Word => true,
            TokenKind::Number => true,
            TokenKind::True => true,
            TokenKind::False => true,
            TokenKind::Null => true,
            _ => false,
        }
    }

    /// What is wrong with it where a value must stand.
    #[inline(always)]
    pub fn unexpected(&self, token: TokenKind) -> ParseErrorKind
        ensures kind { result ≡ unexpected_kind (last self.now token) }
        ensures memory { result ≢ ParseErrorKind.OutOfMemory }
    {
        match token {
            TokenKind::CloseBracket => ParseErrorKind::UnexpectedCloseBracket,
            TokenKind::CloseBrace => ParseErrorKind::UnexpectedCloseBrace,
            TokenKind::Comma => ParseErrorKind::UnexpectedComma,
            TokenKind::Colon => ParseErrorKind::UnexpectedColon,
            TokenKind::Word => ParseErrorKind::UnexpectedWord,
            _ => ParseErrorKind::UnexpectedToken,
        }
    }

    /// Whether it is a comment.
    #[inline(always)]
    pub(crate) fn is_comment(&self, token: TokenKind) -> bool
        ensures { result ≡ is_a_comment (last self.now token) }
    {
        match token {
            TokenKind::CommentLine => true,
            TokenKind::CommentBlock => true,
            _ => false,
        }
    }

    /// Whether it is a comma.
    #[inline(always)]
    pub(crate) fn is_comma(&self, token: TokenKind) -> bool
        ensures { IsTrue result ↔ (last self.now token ≡ lexeme (punctuation 0x2C)) }
    {
        matches!(token, TokenKind::Comma)
    }

    /// Whether it is a colon.
    #[inline(always)]
    pub(crate) fn is_colon(&self, token: TokenKind) -> bool
        ensures { IsTrue result ↔ (last self.now token ≡ lexeme (punctuation 0x3A)) }
    {
        matches!(token, TokenKind::Colon)
    }

    /// Its text, if it may be a name without quotes.
    #[inline(always)]
    pub(crate) fn loose_name(&self, token: TokenKind) -> Option<&'a str>
        ensures { option_map (λ s. chars s.now) result ≡ loose_text (last self.now token) }
    {
        match token {
            TokenKind::Word => Some(self.content.text),
            TokenKind::Number => Some(self.content.text),
            TokenKind::True => Some("true"),
            TokenKind::False => Some("false"),
            TokenKind::Null => Some("null"),
            _ => None,
        }
    }
}
