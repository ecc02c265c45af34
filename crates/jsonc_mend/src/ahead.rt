//! Looking ahead, loosely: comments are passed, and a string ends with its line.
use crate::changes::Fault;
use crate::lexeme::{Kind, Plain, Token, mark_kind, read_plain};
use crate::reading::{
    after_blanks, char_here, follows, follows_with, has, line_end, opens_comment, part, place_after,
};
use crate::recovery::{Ahead, Recovery};
use crate::words::word_end;
use std::alloc::Allocator;

impl<'a, A: Allocator + Copy> Recovery<'a, A> {
    /// The number, keyword or word at a place, or its fault.
    pub(crate) fn plain_at(&self, place: usize) -> Result<Plain, Fault> {
        read_plain(self.alloc, self.text, place, self.options)
    }

    /// The end of what a person takes for one word.
    pub(crate) fn word_end(&self, place: usize) -> usize {
        word_end(self.text, place, self.options.allow_single_quoted_strings)
    }

    /// The same, after one character at least.
    pub(crate) fn some_word_end(&self, place: usize) -> usize {
        self.word_end(place).max(place_after(self.text, place))
    }

    /// Whether a character opens a string.
    pub(crate) fn is_quote(&self, c: char) -> bool {
        c == '"' || c == '\'' && self.options.allow_single_quoted_strings
    }

    /// The place after the `*/` of the comment at a place, or after its line, or none where no `*/` is left.
    pub(crate) fn comment_end(&mut self, start: usize) -> Option<usize> {
        if has(self.text, start.saturating_add(1), '/') {
            return Some(line_end(self.text, start));
        }
        let from = start.saturating_add(2);
        if from >= self.unclosed {
            return None;
        }
        let to = self.unclosed.saturating_add(1).min(self.text.len());
        let found = self.text.as_bytes().get(from..to).and_then(|bytes| bytes
            .windows(2)
            .position(|pair| pair == b"*/".as_slice()));
        match found {
            Some(count) => Some(from.saturating_add(count).saturating_add(2)),
            None => {
                self.unclosed = from;
                None
            }
        }
    }

    /// Where a block comment without an end is to end: with its line, or the last line after it that begins with `*`.
    pub(crate) fn comment_cut(&self, start: usize) -> usize {
        let from = start.saturating_add(2);
        let mut end = line_end(self.text, from);
        for _ in 0..self.text.len() {
            let next = after_blanks(self.text, end);
            if !has(self.text, next, '*') {
                break;
            }
            end = line_end(self.text, next);
        }
        let inside = part(self.text, from, end).trim_end();
        from.saturating_add(inside.len())
    }

    /// The end of the comment at a place, or where it is to end.
    pub(crate) fn comment_end_or_cut(&mut self, start: usize) -> usize {
        match self.comment_end(start) {
            Some(end) => end,
            None => self.comment_cut(start),
        }
    }

    /// The place after the comments and blanks from a place on, or none where a comment has no end.
    pub(crate) fn comments_end(&mut self, from: usize) -> Option<usize> {
        let mut place = from;
        for _ in 0..self.text.len() {
            let next = after_blanks(self.text, place);
            if !opens_comment(self.text, next) {
                break;
            }
            place = self.comment_end(next)?;
        }
        Some(place)
    }

    /// The end of a string: after its quote, or that of its line.
    pub(crate) fn string_end(&self, start: usize) -> usize {
        let Some(quote) = char_here(self.text, start) else {
            return start;
        };
        let from = place_after(self.text, start);
        let mut escaped = false;
        for (count, c) in part(self.text, from, self.text.len()).char_indices() {
            let place = from.saturating_add(count);
            if c == '\r' || c == '\n' {
                return place;
            }
            if escaped {
                escaped = false;
            } else if c == quote {
                return place.saturating_add(1);
            } else {
                escaped = c == '\\';
            }
        }
        self.text.len()
    }

    // The lexeme at a place where no comment is.
    fn lexeme_at(&self, place: usize) -> Token {
        let Some(c) = char_here(self.text, place) else {
            return Token::new(Kind::End, place, place);
        };
        if let Some(kind) = mark_kind(c) {
            return Token::new(kind, place, place_after(self.text, place));
        }
        if self.is_quote(c) {
            return Token::new(Kind::String, place, self.string_end(place));
        }
        let end = self.some_word_end(place);
        match self.plain_at(place) {
            Ok(plain) if plain.end == end => Token::new(plain.kind, place, end),
            _ => Token::new(Kind::Junk, place, end),
        }
    }

    /// The next lexeme from a place on.
    pub(crate) fn peek(&mut self, from: usize) -> Token {
        let mut place = from;
        for _ in 0..self.text.len() {
            place = after_blanks(self.text, place);
            if !opens_comment(self.text, place) {
                return self.lexeme_at(place);
            }
            place = self.comment_end_or_cut(place);
        }
        Token::new(Kind::End, self.text.len(), self.text.len())
    }

    /// Whether a name and a colon are next.
    fn is_named(&mut self, from: usize) -> bool {
        let name = self.peek(from);
        if !name.kind.may_be_name() && name.kind != Kind::Junk {
            return false;
        }
        follows_with(self.text, name.end, ':')
    }

    // What is after a bracket that ends at a place.
    fn look_after(&mut self, place: usize) -> Ahead {
        let next = self.peek(place);
        match next.kind {
            Kind::End => Ahead::End,
            Kind::CloseBracket => Ahead::CloseBracket,
            Kind::CloseBrace => Ahead::CloseBrace,
            Kind::Comma => {
                if self.is_named(next.end) {
                    return Ahead::NextProperty;
                }
                Ahead::NextElement
            }
            Kind::Colon | Kind::Junk => Ahead::Other,
            _ => Ahead::Value,
        }
    }

    /// The same, remembered of the last bracket.
    pub(crate) fn ahead_of(&mut self, place: usize) -> Ahead {
        if let Some((known, ahead)) = self.ahead {
            if known == place {
                return ahead;
            }
        }
        let ahead = self.look_after(place);
        self.ahead = Some((place, ahead));
        ahead
    }

    /// Whether the text ends after the blanks from a place on.
    pub(crate) fn ends_after(&self, place: usize) -> bool {
        follows(self.text, place).is_none()
    }
}
