//! Words and other lexemes outside of quotes, where they may not be.
use crate::changes::Fault;
use crate::escape::{Escape, read_escape};
use crate::frame::{Inside, Stage, ValueKind};
use crate::lexeme::{Kind, Token};
use crate::reading::{
    after_spaces, char_before, char_here, follows, follows_with, has, has_any, is_mark, is_symbols,
    opens_comment, part, place_after, rest,
};
use crate::recovery::Recovery;
use crate::words::{respelled, write_quoted, write_word};
use jsonc_text::common::Range;
use std::alloc::{AllocError, Allocator};

/// How many characters of a line are looked at for the closing quote of a string without an opening one.
const REACH: usize = 200;

// The end of a string in single quotes on one line.
fn single_end(text: &str, start: usize) -> Option<usize> {
    let from = place_after(text, start);
    let mut escaped = false;
    for (count, c) in rest(text, from).char_indices() {
        if escaped {
            escaped = false;
        } else if c == '\r' || c == '\n' {
            return None;
        } else if c == '\'' {
            return Some(from.saturating_add(count).saturating_add(1));
        } else {
            escaped = c == '\\';
        }
    }
    None
}

// What a backslash in single quotes becomes in double quotes, and where the string goes on.
fn respelled_escape(text: &str, place: usize, end: usize, extended: bool) -> (&str, usize) {
    let next = place.saturating_add(1);
    if has(text, next, '\'') {
        return ("'", next.saturating_add(1));
    }
    if let Escape::Ends(after) = read_escape(text, place, '\'', extended) {
        if after <= end {
            return (part(text, place, after), after);
        }
    }
    if has(text, next, '"') {
        return ("\\\"", next.saturating_add(1));
    }
    ("\\\\", next)
}

impl<'a, A: Allocator + Copy> Recovery<'a, A> {
    /// A single quote where these are forbidden: a string that becomes one in double quotes, or a part of a word.
    pub(crate) fn single(&self, token: Token) -> Token {
        let mut single = token;
        match single_end(self.text, token.start) {
            Some(end) => single.end = end,
            None => {
                single.kind = Kind::Junk;
                single.end = self.some_word_end(token.start);
            }
        }
        single
    }

    // Writes a string in single quotes in double quotes. Escapes with a fault become backslashes.
    fn write_single(&mut self, start: usize, end: usize) -> Result<(), AllocError> {
        let extended = self.options.allow_extended_string_escapes;
        let from = place_after(self.text, start);
        let close = end.saturating_sub(1);
        let mut next = from;
        self.buffer.push('"')?;
        for (count, c) in part(self.text, from, close).char_indices() {
            let place = from.saturating_add(count);
            if place < next {
                continue;
            }
            if c == '\\' {
                let (written, after) = respelled_escape(self.text, place, close, extended);
                self.buffer.push_str(written)?;
                next = after;
                continue;
            }
            if c == '"' {
                self.buffer.push('\\')?;
            }
            self.buffer.push(c)?;
        }
        self.buffer.push('"')
    }

    // The place of the closing quote, where the line has one and nothing could open a string before it.
    fn closing_quote(&self, token: Token) -> Option<usize> {
        let mut previous = char_here(self.text, token.start)?;
        let mut left = REACH;
        for (count, c) in rest(self.text, token.start).char_indices() {
            let place = token.start.saturating_add(count);
            if left == 0 || c == '\r' || c == '\n' || c == '\\' {
                return None;
            }
            left = left.saturating_sub(1);
            if self.is_quote(c) {
                return self.if_closing(token, place, previous);
            }
            if c == '/' && previous != ':' && left > 0 && opens_comment(self.text, place) {
                return None;
            }
            if !c.is_whitespace() {
                previous = c;
            }
        }
        None
    }

    // The place of a quote, where that can only close a string; `previous` is the last character before it that is no blank.
    fn if_closing(&self, token: Token, place: usize, previous: char) -> Option<usize> {
        if place == token.start || matches!(previous, '[' | '{' | ',' | ':') {
            return None;
        }
        if previous == '/' {
            match char_before(self.text, place) {
                Some('/' | '*') => return None,
                _ => {}
            }
        }
        Some(place)
    }

    /// The place of the closing quote of a string whose opening quote alone is missing. One of these marks, or the end of
    /// the text, is after it.
    pub(crate) fn lacks_opening(&self, token: Token, marks: &str) -> Option<usize> {
        if has_any(self.text, token.start, ";=") {
            return None;
        }
        let place = self.closing_quote(token)?;
        match follows(self.text, place.saturating_add(1)) {
            Some(c) if !marks.contains(c) => None,
            _ => Some(place),
        }
    }

    /// Whether a word has no meaning by itself.
    pub(crate) fn is_meaningless(&self, start: usize, end: usize) -> bool {
        let word = part(self.text, start, end);
        has_any(self.text, start, ";=")
            || is_symbols(word) && respelled(word, self.options).is_none()
    }

    // Proposes to write a word as a literal, or in quotes, after some text.
    fn change_word(
        &mut self,
        fault: Fault,
        start: usize,
        end: usize,
        before: &str,
    ) -> Result<(), AllocError> {
        let from = self.buffer.len();
        self.buffer.push_str(before)?;
        write_word(part(self.text, start, end), self.options, &mut self.buffer)?;
        self.propose(fault, start, end, from)
    }

    /// Proposes to write a word in quotes, after some text.
    pub(crate) fn quote_word(
        &mut self,
        fault: Fault,
        start: usize,
        end: usize,
        before: &str,
    ) -> Result<(), AllocError> {
        let from = self.buffer.len();
        self.buffer.push_str(before)?;
        write_quoted(part(self.text, start, end), &mut self.buffer)?;
        self.propose(fault, start, end, from)
    }

    /// Proposes to write a string in double quotes, after some text.
    pub(crate) fn change_single(
        &mut self,
        fault: Fault,
        token: Token,
        before: &str,
    ) -> Result<(), AllocError> {
        let from = self.buffer.len();
        self.buffer.push_str(before)?;
        self.write_single(token.start, token.end)?;
        self.propose(fault, token.start, token.end, from)
    }

    /// Proposes to insert the opening quote, after some text. The string's end.
    pub(crate) fn insert_opening(
        &mut self,
        fault: Fault,
        start: usize,
        close: usize,
        before: &str,
    ) -> Result<usize, AllocError> {
        let from = self.buffer.len();
        self.buffer.push_str(before)?;
        if let Some(quote) = char_here(self.text, close) {
            self.buffer.push(quote)?;
        }
        self.propose(fault, start, start, from)?;
        Ok(close.saturating_add(1))
    }

    /// Writes a string in single quotes, or a word, as a literal.
    pub(crate) fn write_misplaced(
        &mut self,
        kind: Kind,
        start: usize,
        end: usize,
    ) -> Result<(), AllocError> {
        if kind == Kind::Single {
            return self.write_single(start, end);
        }
        write_word(part(self.text, start, end), self.options, &mut self.buffer)
    }

    /// Lexemes that touch one another are one word, which is written as one literal. True where a change was made.
    pub(crate) fn join_words(&mut self, fault: Fault, token: Token) -> Result<bool, AllocError> {
        let Some(word) = self.word else {
            return Ok(false);
        };
        if word.end != token.start
            || !token.kind.is_bare()
            || word.start < self.last
            || has_any(self.text, token.start, ";=")
        {
            return Ok(false);
        }
        let start = word.start;
        let end = token.end.max(self.word_end(token.start));
        let is_named = self.top.stage == Stage::Name;
        if is_named && self.top.name.start == start {
            self.quote_word(fault, start, end, "")?;
            self.take(Kind::String, start, end);
            self.top.name = Range::new(start, end);
            return Ok(true);
        }
        if self.top.value.is_none() || self.top.value_start() < start {
            return Ok(false);
        }
        if !is_named
            && (self.top.stage == Stage::Entry
                || self.top.stage == Stage::Colon
                || self.top.has_value(ValueKind::Container))
        {
            return Ok(false);
        }
        self.change_word(fault, start, end, "")?;
        self.take(Kind::String, start, end);
        self.top.set_value(ValueKind::Written, start, end);
        self.top.end_entry();
        Ok(true)
    }

    // The end of the next word on the line, where that belongs to the words before it.
    fn next_word_end(&self, end: usize) -> Option<usize> {
        let start = after_spaces(self.text, end);
        let c = char_here(self.text, start)?;
        if start == end
            || is_mark(c)
            || matches!(c, '"' | '\r' | '\n' | ';' | '=')
            || self.is_quote(c)
        {
            return None;
        }
        if opens_comment(self.text, start) {
            return None;
        }
        let after = self.word_end(start);
        if let Ok(plain) = self.plain_at(start) {
            if plain.kind.is_plain() {
                return None;
            }
        }
        if after == start
            || is_symbols(part(self.text, start, after))
            || follows_with(self.text, after, ':')
        {
            return None;
        }
        if has_any(self.text, after, "\"'") {
            return None;
        }
        Some(after)
    }

    // The end of the words on the line.
    fn words_end(&self, end: usize) -> usize {
        let mut after = end;
        for _ in 0..self.text.len() {
            match self.next_word_end(after) {
                Some(next) => after = next,
                None => return after,
            }
        }
        after
    }

    // The end of a path or an address without quotes, whose first colon is at `colon`.
    fn address_end(&self, colon: usize) -> usize {
        let inside = rest(self.text, colon);
        match inside.find(|c: char| c.is_whitespace()
            || is_mark(c) && c != ':'
            || c == '"'
            || c == '\'')
        {
            Some(count) => colon.saturating_add(count),
            None => self.text.len(),
        }
    }

    // Whether a path or an address goes on at a place.
    fn is_in_address(&self, place: usize) -> bool {
        has(self.text, place, ':')
            && has_any(self.text, place.saturating_add(1), "/\\")
            && self.top.inside != Inside::Document
    }

    /// A word or another lexeme where a value is expected, after what is to be written before it.
    pub(crate) fn misplaced_value(
        &mut self,
        fault: Fault,
        token: Token,
        before: &str,
    ) -> Result<(), AllocError> {
        let start = token.start;
        if token.kind == Kind::Single {
            self.change_single(fault, token, before)?;
            self.take_written(ValueKind::String, start, token.end);
            return Ok(());
        }
        let at_root = self.top.stage == Stage::Entry && self.top.inside == Inside::Document;
        if let Some(close) = self.lacks_opening(token, if at_root { ",]}:" } else { ",]}" }) {
            let end = self.insert_opening(fault, start, close, before)?;
            self.take_written(ValueKind::String, start, end);
            return Ok(());
        }
        let end = token.end.max(self.word_end(start));
        if self.is_meaningless(start, end) {
            return self.misplaced_symbols(fault, start, end);
        }
        if self.is_in_address(end) {
            let end = self.address_end(end);
            self.quote_word(fault, start, end, before)?;
            self.take_written(ValueKind::Written, start, end);
            return Ok(());
        }
        if self.top.stage == Stage::Colon && follows_with(self.text, end, ':') {
            return self.insert_value_before(fault);
        }
        self.write_value(fault, start, end, before)
    }

    // Symbols where a value is expected: `null` is put in their place, or they are removed.
    fn misplaced_symbols(
        &mut self,
        fault: Fault,
        start: usize,
        end: usize,
    ) -> Result<(), AllocError> {
        let ends = match follows(self.text, end) {
            Some(c) => matches!(c, ',' | '}' | ']'),
            None => true,
        };
        if self.top.stage == Stage::Colon && ends {
            self.change(fault, start, end, "null")?;
            self.take_token(Token::new(Kind::Keyword, start, end));
            self.top.take_value(ValueKind::Keyword, start, end);
            return Ok(());
        }
        self.drop_token(fault, Token::new(Kind::Junk, start, end))
    }

    /// Inserts the value that is missing before a name.
    pub(crate) fn insert_value_before(&mut self, fault: Fault) -> Result<(), AllocError> {
        let place = self.colon_end().max(self.last);
        self.insert(fault, place, " null,")?;
        self.suspect = None;
        self.top.set_value(ValueKind::Keyword, place, place);
        self.top.stage = Stage::Entry;
        self.top.comma = None;
        Ok(())
    }

    /// The end of the last colon.
    pub(crate) fn colon_end(&self) -> usize {
        match self.top.colon {
            Some(end) => end,
            None => self.top.name.end,
        }
    }

    // Writes a word as a literal, or the words on its line in quotes.
    fn write_value(
        &mut self,
        fault: Fault,
        start: usize,
        end: usize,
        before: &str,
    ) -> Result<(), AllocError> {
        if respelled(part(self.text, start, end), self.options).is_some() {
            self.change_word(fault, start, end, before)?;
            self.take_written(ValueKind::Written, start, end);
            return Ok(());
        }
        let end = self.words_end(end);
        self.quote_word(fault, start, end, before)?;
        self.take_written(ValueKind::Written, start, end);
        Ok(())
    }
}
