//! The tokens of a text, which lend their text from it.
ghost use Rattle.std.specs.Prelude.{◌≡◌, IfOk, OnErr, chars};
ghost use Rattle.std.specs.Ordering.{on};
ghost use Rattle.std.specs.Cmp.Rules.{comparing};
ghost use Rattle.std.proofs.Common.{rules};
ghost use Rattle.std.specs.Bool.{Decides};
ghost use Rattle.jsonc_text.specs.Tokens.{scanned_of, scanned_text, scanned_class, same_scanned, IsOwned, lent_bytes};

use crate::common::{Range, Ranged};
use std::alloc::{AllocError, Allocator};
use std::borrow::CowStr;

/// A lexeme or a comment of a text.
#[derive(Drop)]
#[derive_where(Debug)]
pub enum Token<'a, A: Allocator> {
    /// `{`
    OpenBrace,
    /// `}`
    CloseBrace,
    /// `[`
    OpenBracket,
    /// `]`
    CloseBracket,
    /// `,`
    Comma,
    /// `:`
    Colon,
    /// A string, by the characters that it stands for.
    String(CowStr<'a, A>),
    /// A word that is no keyword, as it is written.
    Word(&'a str),
    /// `true` or `false`.
    Boolean(bool),
    /// A number, as it is written.
    Number(&'a str),
    /// `null`
    Null,
    /// A comment to the end of its line, by what stands after its `//`.
    CommentLine(&'a str),
    /// A comment between marks, by what stands between its `/*` and `*/`.
    CommentBlock(&'a str),
}

impl<'a, A: Allocator> Token<'a, A> {
    /// Its text.
    ///
    /// For a string that is the characters that it stands for, for a comment those inside its
    /// marks, and any other token is as it is written.
    #[tactic(auto, using(crate::proofs::TokenTexts::fixed_texts))]
    pub fn as_str(&self) -> &str
        ensures { chars result.now ≡ scanned_text (scanned_of self.now) }
    {
        match self {
            Token::OpenBrace => "{",
            Token::CloseBrace => "}",
            Token::OpenBracket => "[",
            Token::CloseBracket => "]",
            Token::Comma => ",",
            Token::Colon => ":",
            Token::String(s) => s.as_str(),
            Token::Word(s) => s,
            Token::Boolean(true) => "true",
            Token::Boolean(false) => "false",
            Token::Number(s) => s,
            Token::Null => "null",
            Token::CommentLine(s) => s,
            Token::CommentBlock(s) => s,
        }
    }

    /// A number for what kind of token it is, the punctuation being of one kind and the keywords of another.
    fn class(&self) -> u8
        ensures { result ≡ scanned_class (scanned_of self.now) }
    {
        match self {
            Token::String(_) => 0,
            Token::Number(_) => 1,
            Token::Word(_) => 2,
            Token::Boolean(_) | Token::Null => 3,
            Token::CommentLine(_) => 5,
            Token::CommentBlock(_) => 6,
            _ => 4,
        }
    }
}

impl<'a, A: Allocator> PartialEq for Token<'a, A> {
    ghost eq = { on scanned_of same_scanned };

    ghost laws = { Prim.search (comparing, rules) depth 9 };

    /// The same kind of token with the same text, whether borrowed or owned.
    fn eq(&self, other: &Token<'a, A>) -> bool
        ensures value { result ≡ same_scanned (scanned_of self.now) (scanned_of other.now) }
        ensures same { Decides result (scanned_of self.now ≡ scanned_of other.now) }
    {
        self.class() == other.class() && self.as_str() == other.as_str()
    }
}

impl<'a, A: Allocator> Eq for Token<'a, A> {
    ghost laws = { Prim.search (comparing, rules) depth 9 };
}

impl<'a, A: Allocator + Copy> Token<'a, A> {
    /// A copy of the token. Only the copy of a string that owns its text takes memory.
    pub fn try_clone(&self) -> Result<Token<'a, A>, AllocError>
        ensures same { IfOk result (λ copy. scanned_of copy ≡ scanned_of self.now) }
        ensures owned { IfOk result (λ copy. IsOwned copy → IsOwned self.now) }
        ensures lent { IfOk result (λ copy. lent_bytes copy ≡ lent_bytes self.now) }
        ensures refused { OnErr result (IsOwned self.now) }
    {
        match self {
            Token::OpenBrace => Ok(Token::OpenBrace),
            Token::CloseBrace => Ok(Token::CloseBrace),
            Token::OpenBracket => Ok(Token::OpenBracket),
            Token::CloseBracket => Ok(Token::CloseBracket),
            Token::Comma => Ok(Token::Comma),
            Token::Colon => Ok(Token::Colon),
            Token::String(CowStr::Borrowed(s)) => Ok(Token::String(CowStr::Borrowed(*s))),
            Token::String(CowStr::Owned(s)) => {
                let copy = s.clone()?;
                Ok(Token::String(CowStr::Owned(copy)))
            }
            Token::Word(s) => Ok(Token::Word(*s)),
            Token::Boolean(b) => Ok(Token::Boolean(*b)),
            Token::Number(s) => Ok(Token::Number(*s)),
            Token::Null => Ok(Token::Null),
            Token::CommentLine(s) => Ok(Token::CommentLine(*s)),
            Token::CommentBlock(s) => Ok(Token::CommentBlock(*s)),
        }
    }
}

/// A token with its range.
#[derive(Drop)]
#[derive_where(Debug)]
pub struct TokenAndRange<'a, A: Allocator> {
    /// The bytes of the text that it covers.
    pub range: Range,
    /// What stands there.
    pub token: Token<'a, A>,
}

impl<'a, A: Allocator> Ranged for TokenAndRange<'a, A> {
    ghost range_of = { λ t. t.range };

    fn range(&self) -> Range {
        self.range
    }
}
