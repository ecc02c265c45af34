//! One token where it may be, or the change for its fault where it may not.
use crate::changes::Fault;
use crate::frame::{Inside, Stage, ValueKind};
use crate::lexeme::{Kind, Token, fault};
use crate::reading::{
    after_blanks, char_here, follows_with, has, is_mark, is_symbols, opens_comment, part,
};
use crate::recovery::{Ahead, Recovery};
use jsonc_text::errors::ParseErrorKind;
use std::alloc::{AllocError, Allocator};

impl<'a, A: Allocator + Copy> Recovery<'a, A> {
    /// A token that is not the end of the text.
    pub(crate) fn step(&mut self, found: Token) -> Result<(), AllocError> {
        let token = if found.kind == Kind::Single && !self.top.full {
            self.single(found)
        } else {
            found
        };
        if self.top.full && self.step_in_full(token)? {
            return Ok(());
        }
        match self.top.stage {
            Stage::Entry => match self.top.inside {
                Inside::Document => self.step_at_root(token),
                _ => self.step_at_entry(token),
            },
            Stage::Name => self.step_after_name(token),
            Stage::Colon => self.step_after_colon(token),
            Stage::After => self.step_after_value(token),
            Stage::Done => self.step_after_root(token),
        }
    }

    // Whether the document's value begins with the token, or the words before it are removed.
    fn step_at_root(&mut self, token: Token) -> Result<(), AllocError> {
        if token.kind.begins_value() {
            return self.take_value(token);
        }
        let fault = token.fault_or(token.kind.unexpected());
        if token.kind.closes() || token.kind == Kind::Comma || token.kind == Kind::Colon {
            return self.remove_token(fault, token);
        }
        if token.kind != Kind::Single
            && token.start >= self.looked
            && self.lacks_opening(token, ":,").is_none()
        {
            let (end, next) = self.words_before_root(token.end);
            self.looked = end;
            if next.opens() || is_symbols(part(self.text, token.start, end)) {
                self.remove_token(fault, Token::new(Kind::Junk, token.start, end))?;
                self.word = None;
                return Ok(());
            }
        }
        self.misplaced_value(fault, token, "")
    }

    // The end of the words before the document's value, and what is after them.
    fn words_before_root(&mut self, from: usize) -> (usize, Kind) {
        let mut end = from;
        for _ in 0..self.text.len() {
            if self.is_in_word(end) {
                end = end.max(self.word_end(end));
            }
            let next = self.peek(end);
            let joined = after_blanks(self.text, end) == next.start;
            if !joined || next.kind != Kind::Word && next.kind != Kind::Junk {
                return (end, next.kind);
            }
            end = next.end;
        }
        (end, Kind::End)
    }

    // Whether what is at a place goes on with a word.
    fn is_in_word(&self, place: usize) -> bool {
        match char_here(self.text, place) {
            Some(c) => !c.is_whitespace()
                && !is_mark(c)
                && !self.is_quote(c)
                && !opens_comment(self.text, place),
            None => false,
        }
    }

    // What is after the document's value.
    fn step_after_root(&mut self, token: Token) -> Result<(), AllocError> {
        let fault = token.fault_or(ParseErrorKind::MultipleRootJsonValues);
        if self.join_words(fault, token)? || self.reread_suspect(fault, token)? {
            return Ok(());
        }
        if token.kind == Kind::Colon && self.begin_root_object(fault)? {
            return Ok(());
        }
        if token.kind == Kind::Comma && self.reopen_root(fault, token)? {
            return Ok(());
        }
        let end = self.last_token_end(token.end);
        self.drop_token(fault, Token::new(Kind::Junk, token.start, end))
    }

    // The end of the last token of the text.
    fn last_token_end(&mut self, from: usize) -> usize {
        let mut end = from;
        for _ in 0..self.text.len() {
            let next = self.peek(end);
            if next.kind == Kind::End {
                break;
            }
            end = next.end;
        }
        end
    }

    // A colon after the document's value, which is the name of an object without its bracket.
    fn begin_root_object(&mut self, fault: Fault) -> Result<bool, AllocError> {
        let Some(name) = self.top.value else {
            return Ok(false);
        };
        let loose = self.options.allow_loose_object_property_names;
        let may_be = match name.kind {
            ValueKind::String => true,
            ValueKind::Number | ValueKind::Keyword => loose,
            _ => false,
        };
        if !may_be || !self.is_free(name.start) {
            return Ok(false);
        }
        self.insert(fault, name.start, "{")?;
        self.top.stage = Stage::Entry;
        self.open(Inside::Object, name.start)?;
        self.reset_root_value(name.start);
        self.top.first = Some(name.start);
        self.top.take_name(name.start, name.end);
        self.suspect = None;
        Ok(true)
    }

    // The value of the document is the container that begins at a place.
    fn reset_root_value(&mut self, start: usize) {
        if let Some(root) = self.parents.last_mut() {
            root.set_value(ValueKind::Container, start, start);
        }
    }

    // Whether what is after a comma can be an entry of a container that was closed too soon.
    fn goes_on(&mut self, inside: Inside, from: usize) -> bool {
        let next = self.peek(from);
        let named = follows_with(self.text, next.end, ':');
        match inside {
            Inside::Object => named && (next.kind == Kind::String || next.kind == Kind::Word),
            _ => !named && next.kind.begins_value(),
        }
    }

    // A comma after the document's container, which was closed too soon.
    fn reopen_root(&mut self, fault: Fault, token: Token) -> Result<bool, AllocError> {
        let Some(closed) = self.closed else {
            return Ok(false);
        };
        let end = self.top.value_end();
        let bracket = end.saturating_sub(1);
        if !self.top.has_value(ValueKind::Container)
            || self.last > bracket
            || self.token_end != end
        {
            return Ok(false);
        }
        if closed.stage != Stage::After || closed.full || !self.goes_on(closed.inside, token.end) {
            return Ok(false);
        }
        self.remove(fault, bracket, end)?;
        let root = self.top;
        self.parents.push(root)?;
        self.top = closed;
        self.suspect = None;
        Ok(true)
    }

    // A token where an entry or the end of a container is expected.
    pub(crate) fn step_at_entry(&mut self, token: Token) -> Result<(), AllocError> {
        let kind = token.kind;
        if self.top.is_closed_by(kind) {
            self.remove_trailing_comma(token)?;
            self.close_at(token);
            return Ok(());
        }
        let in_object = self.top.inside == Inside::Object;
        if kind == Kind::String || !in_object && kind.begins_value() {
            self.top.own_comma = self.top.comma.is_some();
            return self.take_value(token);
        }
        if in_object && kind.may_be_name() {
            return self.plain_name(token);
        }
        let other = if in_object {
            ParseErrorKind::UnexpectedTokenInObject
        } else {
            kind.unexpected()
        };
        let fault = token.fault_or(other);
        if self.reread_suspect(fault, token)? {
            return Ok(());
        }
        match kind {
            Kind::Comma => self.second_comma(fault, token),
            Kind::CloseBrace | Kind::CloseBracket => self.wrong_close(fault, token),
            Kind::Colon if in_object => {
                self.insert(fault, token.start, "\"\"")?;
                self.top.take_name(token.start, token.start);
                Ok(())
            }
            Kind::Colon => self.remove_token(fault, token),
            Kind::OpenBrace | Kind::OpenBracket => self.container_for_name(fault, token),
            _ if in_object => self.misplaced_name(fault, token, ""),
            _ => {
                self.top.own_comma = self.top.comma.is_some();
                self.misplaced_value(fault, token, "")
            }
        }
    }

    // A name that is no string.
    fn plain_name(&mut self, token: Token) -> Result<(), AllocError> {
        if self.options.allow_loose_object_property_names {
            self.take_token(token);
            self.top.take_name(token.start, token.end);
            return Ok(());
        }
        let kind = ParseErrorKind::ExpectedStringObjectProperty;
        self.misplaced_name(fault(kind, token.start, token.end), token, "")
    }

    // A bracket where a name is expected.
    fn container_for_name(&mut self, fault: Fault, token: Token) -> Result<(), AllocError> {
        let is_brace = token.kind == Kind::OpenBrace;
        if is_brace && self.top.count > 0 && self.outer() == Inside::Array {
            if let (Some(comma), Some(end)) = (self.top.comma, self.top.previous_end) {
                if self.is_free(end) {
                    self.insert(fault, end, "}")?;
                    self.leave(end);
                    self.top.begin_entry(true);
                    self.top.comma = Some(comma);
                    return Ok(());
                }
            }
        }
        if is_brace && self.top.count == 0 && self.token_end == token.start {
            return self.remove_token(fault, token);
        }
        self.insert(fault, token.start, "\"\": ")?;
        self.top.take_name(token.start, token.start);
        self.top.take_colon(token.start);
        Ok(())
    }

    // A token where a colon is expected.
    fn step_after_name(&mut self, token: Token) -> Result<(), AllocError> {
        if token.kind == Kind::Colon {
            self.take_token(token);
            self.top.take_colon(token.end);
            return Ok(());
        }
        let fault = token.fault_or(ParseErrorKind::ExpectedColonAfterObjectKey);
        if self.join_words(fault, token)? || self.reread_suspect(fault, token)? {
            return Ok(());
        }
        let place = self.top.name.end.max(self.last);
        if token.kind.may_be_name() && follows_with(self.text, token.end, ':') {
            self.insert(fault, place, ": null,")?;
            self.top.set_value(ValueKind::Keyword, place, place);
            self.top.stage = Stage::Entry;
            self.suspect = None;
            return Ok(());
        }
        if token.kind.begins_value() {
            self.insert(fault, place, ":")?;
            self.top.take_colon(place);
            self.suspect = None;
            return self.take_value(token);
        }
        if self.is_for_colon(token) {
            return self.change_to_colon(fault, token.start, token.end);
        }
        if token.kind.has_fault() || token.kind == Kind::Word {
            return self.word_for_colon(fault, token);
        }
        self.insert(fault, place, ": null")?;
        self.top.stage = Stage::Colon;
        self.take_inserted(place);
        self.suspect = None;
        Ok(())
    }

    // Whether a mark is in the place of a colon: a value is after it.
    fn is_for_colon(&mut self, token: Token) -> bool {
        let semicolon = token.kind == Kind::Junk && has(self.text, token.start, ';');
        if token.kind != Kind::Comma && !token.kind.closes() && !semicolon {
            return false;
        }
        let next = self.peek(token.end);
        if !next.kind.begins_value() || next.kind == Kind::String && token.kind == Kind::Comma {
            return false;
        }
        !follows_with(self.text, next.end, ':')
    }

    // Writes a colon in the place of some bytes.
    fn change_to_colon(
        &mut self,
        fault: Fault,
        start: usize,
        end: usize,
    ) -> Result<(), AllocError> {
        self.change(fault, start, end, ":")?;
        self.take(Kind::Colon, start, end);
        self.top.take_colon(end);
        Ok(())
    }

    // A word or another lexeme where a colon is expected.
    fn word_for_colon(&mut self, fault: Fault, token: Token) -> Result<(), AllocError> {
        let start = token.start;
        if has(self.text, start, '=') {
            return self.change_to_colon(fault, start, token.end);
        }
        let is_single = token.kind == Kind::Single;
        if !is_single && (has(self.text, start, ';') || self.is_meaningless(start, token.end)) {
            return self.drop_token(fault, token);
        }
        let from = self.buffer.len();
        self.buffer.push_str(": ")?;
        let end = if is_single {
            token.end
        } else {
            token.end.max(self.word_end(start))
        };
        self.write_misplaced(token.kind, start, end)?;
        self.propose(fault, start, end, from)?;
        self.top.stage = Stage::Colon;
        self.take_written(ValueKind::Written, start, end);
        Ok(())
    }

    // A token where a value is expected.
    fn step_after_colon(&mut self, token: Token) -> Result<(), AllocError> {
        if token.kind.begins_value() {
            return self.take_value(token);
        }
        let fault = token.fault_or(token.kind.unexpected());
        if token.kind == Kind::Colon {
            return self.remove_token(fault, token);
        }
        if token.kind.closes() && self.ahead_of(token.end) == Ahead::Value {
            let is_brace = token.kind == Kind::CloseBrace;
            self.change(
                fault,
                token.start,
                token.end,
                if is_brace { "{" } else { "[" },
            )?;
            let kind = if is_brace {
                Kind::OpenBrace
            } else {
                Kind::OpenBracket
            };
            return self.take_value(Token::new(kind, token.start, token.end));
        }
        if token.kind.closes() || token.kind == Kind::Comma {
            let place = self.colon_end().max(self.last);
            self.insert(fault, place, " null")?;
            self.take_inserted(place);
            return Ok(());
        }
        self.misplaced_value(fault, token, "")
    }
}
