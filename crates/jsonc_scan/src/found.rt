//! What a scanner came to, for a parser: the kind of its token, and beside it what the token holds.
ghost use Rattle.std.specs.Prelude.{◌≡◌, ◌≢◌, [], Some, IfOk, OnErr};
ghost use Rattle.std.specs.Cow.{cow_str_bytes};
ghost use Rattle.jsonc_text.specs.Tokens.{scanned_of, IsOwned, lent_bytes};
ghost use Rattle.jsonc_scan.specs.Found.{token_held, LeavesOthers};
ghost use Rattle.jsonc_scan.specs.Reads.{mark_of, what_of};

use crate::lexeme::{Lexeme, Mark};
use jsonc_text::tokens::Token;
use std::alloc::{AllocError, Allocator};
use std::borrow::CowStr;
use std::mem::replace;

/// What kind of token stands at a place.
#[derive(Clone, Copy)]
pub enum TokenKind {
    OpenBrace,
    CloseBrace,
    OpenBracket,
    CloseBracket,
    Comma,
    Colon,
    String,
    /// A string without a backslash that was passed: it stands for what is between its quotes, which is not kept.
    Plain,
    /// A string with a backslash in it that was passed: what it stands for is not kept.
    Passed,
    Word,
    True,
    False,
    Number,
    Null,
    CommentLine,
    CommentBlock,
}

/// What the last token holds beside its kind. What one of another kind would hold is left as it was.
#[derive(Drop)]
pub struct TokenContent<'a, A: Allocator> {
    /// The text of a word or of a number as it is written, and of a comment inside its marks.
    pub text: &'a str,
    /// The characters that a string stands for.
    pub string: CowStr<'a, A>,
}

impl<'a, A: Allocator> TokenContent<'a, A> {
    /// Before the first token.
    pub fn new() -> TokenContent<'a, A>
        ensures text { result.text.now ≡ [] }
        ensures string { cow_str_bytes result.string ≡ [] }
    {
        TokenContent {
            text: "",
            string: CowStr::Borrowed(""),
        }
    }

    /// Gives the string away.
    #[inline(always)]
    pub fn take_string(&mut self) -> CowStr<'a, A>
        ensures string { result ≡ self.old.string }
        ensures text { self.new.text ≡ self.old.text }
    {
        replace(&mut self.string, CowStr::Borrowed(""))
    }

    /// The kind of a punctuation character, which holds nothing.
    #[inline(always)]
    pub(crate) fn mark_kind(&self, mark: Mark) -> TokenKind
        ensures held { scanned_of (token_held result self.now) ≡ mark_of mark }
        ensures plain { result ≢ TokenKind.Plain }
        ensures kept { result ≢ TokenKind.Passed }
        ensures others { LeavesOthers self.now self.now (Some result) }
    {
        match mark {
            Mark::OpenBrace => TokenKind::OpenBrace,
            Mark::CloseBrace => TokenKind::CloseBrace,
            Mark::OpenBracket => TokenKind::OpenBracket,
            Mark::CloseBracket => TokenKind::CloseBracket,
            Mark::Comma => TokenKind::Comma,
            Mark::Colon => TokenKind::Colon,
        }
    }

    /// Holds what a lexeme holds, and answers its kind.
    #[inline(always)]
    pub(crate) fn hold(&mut self, lexeme: Lexeme<'a>) -> TokenKind
        ensures held { scanned_of (token_held result self.new) ≡ what_of lexeme.entry }
        ensures plain { result ≢ TokenKind.Plain }
        ensures kept { result ≢ TokenKind.Passed }
        ensures others { LeavesOthers self.old self.new (Some result) }
    {
        match lexeme {
            Lexeme::Word(text) => {
                self.text = text;
                TokenKind::Word
            }
            Lexeme::Boolean(true) => TokenKind::True,
            Lexeme::Boolean(false) => TokenKind::False,
            Lexeme::Number(text) => {
                self.text = text;
                TokenKind::Number
            }
            Lexeme::Null => TokenKind::Null,
            Lexeme::CommentLine(text) => {
                self.text = text;
                TokenKind::CommentLine
            }
            Lexeme::CommentBlock(text) => {
                self.text = text;
                TokenKind::CommentBlock
            }
        }
    }

    /// The token of a kind that holds this.
    #[inline(always)]
    pub(crate) fn into_token(self, kind: TokenKind) -> Token<'a, A>
        ensures { result ≡ token_held kind self.entry }
    {
        match kind {
            TokenKind::OpenBrace => Token::OpenBrace,
            TokenKind::CloseBrace => Token::CloseBrace,
            TokenKind::OpenBracket => Token::OpenBracket,
            TokenKind::CloseBracket => Token::CloseBracket,
            TokenKind::Comma => Token::Comma,
            TokenKind::Colon => Token::Colon,
            TokenKind::String => Token::String(self.string),
            TokenKind::Plain => Token::Null,
            TokenKind::Passed => Token::Null,
            TokenKind::Word => Token::Word(self.text),
            TokenKind::True => Token::Boolean(true),
            TokenKind::False => Token::Boolean(false),
            TokenKind::Number => Token::Number(self.text),
            TokenKind::Null => Token::Null,
            TokenKind::CommentLine => Token::CommentLine(self.text),
            TokenKind::CommentBlock => Token::CommentBlock(self.text),
        }
    }
}

impl<'a, A: Allocator + Copy> TokenContent<'a, A> {
    /// The token of a kind that holds this, where this is still wanted. Only the copy of a string that
    /// owns its text takes memory, and can be refused.
    pub fn token(&self, kind: TokenKind) -> Result<Token<'a, A>, AllocError>
        ensures same { IfOk result (λ t. scanned_of t ≡ scanned_of (token_held kind self.now)) }
        ensures owned { IfOk result (λ t. IsOwned t → IsOwned (token_held kind self.now)) }
        ensures lent { IfOk result (λ t. lent_bytes t ≡ lent_bytes (token_held kind self.now)) }
        ensures refused { OnErr result (IsOwned (token_held kind self.now)) }
    {
        let string = match kind {
            TokenKind::String => match &self.string {
                CowStr::Borrowed(s) => CowStr::Borrowed(*s),
                CowStr::Owned(s) => CowStr::Owned(s.clone()?),
            },
            _ => CowStr::Borrowed(""),
        };
        let text = self.text;
        Ok(TokenContent { text, string }.into_token(kind))
    }
}
