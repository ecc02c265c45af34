//! The next token of a text with faults. Comments are passed, or removed where they are forbidden.
use crate::frame::{Inside, Stage, ValueKind};
use crate::lexeme::{Kind, Token, fault, mark_kind};
use crate::reading::{after_blanks, char_here, has, opens_comment, place_after};
use crate::recovery::Recovery;
use jsonc_text::errors::ParseErrorKind;
use std::alloc::{AllocError, Allocator};

impl<'a, A: Allocator + Copy> Recovery<'a, A> {
    /// The next token. None where a comment was passed, or a change was made.
    pub(crate) fn next(&mut self) -> Result<Option<Token>, AllocError> {
        let start = after_blanks(self.text, self.place);
        self.place = start;
        let Some(c) = char_here(self.text, start) else {
            return Ok(Some(Token::new(Kind::End, start, start)));
        };
        self.line_at_end = false;
        if opens_comment(self.text, start) {
            return self.comment(start);
        }
        if self.is_quote(c) {
            return self.string(start, c);
        }
        Ok(Some(self.bare_token(start, c)))
    }

    // The token at a place where neither a comment nor a string is.
    fn bare_token(&self, start: usize, c: char) -> Token {
        let end = place_after(self.text, start);
        if let Some(kind) = mark_kind(c) {
            return Token::new(kind, start, end);
        }
        if c == '\'' {
            let kind = ParseErrorKind::SingleQuotedStringsNotAllowed;
            return Token::faulty(Kind::Single, start, end, fault(kind, start, end));
        }
        match self.plain_at(start) {
            Ok(plain) => Token::new(plain.kind, start, plain.end),
            Err(fault) => Token::faulty(Kind::Junk, start, self.some_word_end(start), fault),
        }
    }

    // The comment at a place.
    fn comment(&mut self, start: usize) -> Result<Option<Token>, AllocError> {
        let allowed = self.options.allow_comments;
        let found = self.comment_end(start);
        if self.top.full && self.top.first.is_some() && (found.is_none() || !allowed) {
            return Ok(Some(self.comment_in_full(start, found)));
        }
        let end = match found {
            Some(end) if allowed => {
                self.line_at_end = end >= self.text.len()
                    && has(self.text, place_after(self.text, start), '/');
                end
            }
            Some(end) => self.remove_comment(start, end)?,
            None => self.close_comment(start)?,
        };
        self.place = end;
        Ok(None)
    }

    // A comment with a fault where nothing may be.
    fn comment_in_full(&self, start: usize, found: Option<usize>) -> Token {
        match found {
            Some(end) => {
                let not_allowed = fault(ParseErrorKind::CommentsNotAllowed, start, end);
                Token::faulty(Kind::Bad, start, end, not_allowed)
            }
            None => {
                let unclosed = fault(
                    ParseErrorKind::UnterminatedCommentBlock,
                    start,
                    self.text.len(),
                );
                Token::faulty(Kind::Bad, start, self.comment_cut(start), unclosed)
            }
        }
    }

    // A block comment without an end is closed, or removed where comments are forbidden.
    fn close_comment(&mut self, start: usize) -> Result<usize, AllocError> {
        let end = self.comment_cut(start);
        let unclosed = fault(
            ParseErrorKind::UnterminatedCommentBlock,
            start,
            self.text.len(),
        );
        if self.options.allow_comments {
            self.insert(unclosed, end, "*/")?;
        } else {
            self.remove(unclosed, start, end)?;
        }
        Ok(end)
    }

    // A forbidden comment is removed, with the comma before it where that would be a trailing one.
    fn remove_comment(&mut self, start: usize, end: usize) -> Result<usize, AllocError> {
        let not_allowed = fault(ParseErrorKind::CommentsNotAllowed, start, end);
        if let Some(comma) = self.removable_comma() {
            if let Some(after) = self.comments_end(end) {
                if self.is_closed_at(after_blanks(self.text, after)) {
                    self.remove(not_allowed, comma, after)?;
                    self.top.comma = None;
                    return Ok(after);
                }
            }
        }
        self.remove(not_allowed, start, end)?;
        Ok(end)
    }

    /// The comma of the text before, where it would be a trailing one that is forbidden, and may still be removed.
    pub(crate) fn removable_comma(&self) -> Option<usize> {
        let comma = self.trailing_comma()?;
        if self.last > comma {
            return None;
        }
        Some(comma)
    }

    /// The comma of the text before, where it would be a trailing one that is forbidden.
    pub(crate) fn trailing_comma(&self) -> Option<usize> {
        if self.top.stage != Stage::Entry || self.options.allow_trailing_commas {
            return None;
        }
        self.top.comma
    }

    // Whether the innermost container is closed at a place, or the text ends.
    fn is_closed_at(&self, place: usize) -> bool {
        match char_here(self.text, place) {
            Some(c) => match mark_kind(c) {
                Some(kind) => self.top.is_closed_by(kind),
                None => false,
            },
            None => self.top.inside != Inside::Document,
        }
    }

    /// A value is read whose first token this is.
    pub(crate) fn take_value(&mut self, token: Token) -> Result<(), AllocError> {
        match token.kind {
            Kind::OpenBrace => self.open_at(token, Inside::Object),
            Kind::OpenBracket => self.open_at(token, Inside::Array),
            Kind::String => {
                self.take_string(token);
                Ok(())
            }
            kind => {
                let value = if kind == Kind::Number {
                    ValueKind::Number
                } else {
                    ValueKind::Keyword
                };
                self.take_token(token);
                self.top.take_value(value, token.start, token.end);
                Ok(())
            }
        }
    }

    // A bracket is read.
    fn open_at(&mut self, token: Token, inside: Inside) -> Result<(), AllocError> {
        self.take_token(token);
        self.top.count = self.top.count.saturating_add(1);
        self.top
            .set_value(ValueKind::Container, token.start, token.start);
        self.top.comma = None;
        self.open(inside, token.start)
    }

    /// The bracket of the innermost container is read.
    pub(crate) fn close_at(&mut self, token: Token) {
        self.leave(token.end);
        self.take_token(token);
        self.top.end_entry();
    }

    /// A comma after a value is read.
    pub(crate) fn take_comma(&mut self, token: Token) {
        self.take_token(token);
        self.top.begin_entry(true);
        self.top.comma = Some(token.start);
    }
}
