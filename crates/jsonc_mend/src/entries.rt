//! What is after a value: commas, brackets, and what is there in their place.
use crate::changes::Fault;
use crate::frame::{DEPTH, Inside, Stage, ValueKind};
use crate::lexeme::{Kind, Token, fault};
use crate::reading::{follows_with, is_symbols, part};
use crate::recovery::{Ahead, Recovery, other_kind};
use jsonc_text::errors::ParseErrorKind;
use std::alloc::{AllocError, Allocator};

// Whether what is after a bracket can be after an entry in a container.
fn goes_in(inside: Inside, ahead: Ahead) -> bool {
    match inside {
        Inside::Document => ahead == Ahead::End,
        Inside::Object => matches!(ahead, Ahead::CloseBrace | Ahead::NextProperty | Ahead::End),
        Inside::Array => matches!(ahead, Ahead::CloseBracket | Ahead::NextElement | Ahead::End),
    }
}

impl<'a, A: Allocator + Copy> Recovery<'a, A> {
    // Whether an entry of the innermost container begins with the token.
    fn begins_entry(&self, kind: Kind) -> bool {
        match self.top.inside {
            Inside::Object => kind.may_be_name(),
            _ => kind.begins_value(),
        }
    }

    /// A token where a comma or the end of a container is expected.
    pub(crate) fn step_after_value(&mut self, token: Token) -> Result<(), AllocError> {
        let kind = token.kind;
        if kind == Kind::Comma {
            self.take_comma(token);
            return Ok(());
        }
        if self.top.is_closed_by(kind) {
            self.close_at(token);
            return Ok(());
        }
        let begins = self.begins_entry(kind);
        if begins && self.options.allow_missing_commas {
            return self.entry_without_comma(token);
        }
        let end = self.top.value_end();
        let in_object = self.top.inside == Inside::Object;
        let other = if in_object {
            ParseErrorKind::UnexpectedTokenInObject
        } else {
            kind.unexpected()
        };
        let fault = if begins {
            fault(ParseErrorKind::ExpectedComma, end, end)
        } else {
            token.fault_or(other)
        };
        if self.join_words(fault, token)? || self.reread_suspect(fault, token)? {
            return Ok(());
        }
        if begins {
            return self.missing_comma(fault, token);
        }
        match kind {
            Kind::CloseBrace | Kind::CloseBracket => self.wrong_close(fault, token),
            Kind::Colon if in_object => self.colon_in_object(fault, token),
            Kind::Colon => self.colon_in_array(fault, token),
            Kind::OpenBrace | Kind::OpenBracket => self.container_in_object(fault, token),
            _ => self.word_after_value(fault, token),
        }
    }

    // An entry where commas may be missing.
    fn entry_without_comma(&mut self, token: Token) -> Result<(), AllocError> {
        self.top.begin_entry(false);
        let loose = self.options.allow_loose_object_property_names;
        if self.top.inside == Inside::Object && token.kind != Kind::String && !loose {
            let kind = ParseErrorKind::ExpectedStringObjectProperty;
            let fault = fault(kind, token.start, token.end);
            if self.join_words(fault, token)? || self.reread_suspect(fault, token)? {
                return Ok(());
            }
        }
        self.step_at_entry(token)
    }

    // An entry without the comma before it. In an array that is not closed before the next name, its bracket is missing.
    fn missing_comma(&mut self, fault: Fault, token: Token) -> Result<(), AllocError> {
        let in_array = self.top.inside == Inside::Array && self.outer() == Inside::Object;
        if in_array && token.kind == Kind::String && follows_with(self.text, token.end, ':') {
            let place = self.top.value_end().max(self.last);
            self.insert(fault, place, "],")?;
            self.leave(place);
            self.top.begin_entry(false);
            self.suspect = None;
            return Ok(());
        }
        self.insert_comma(fault)
    }

    // A colon after a value in an object: that value is the next name, or the colon is removed.
    fn colon_in_object(&mut self, fault: Fault, token: Token) -> Result<(), AllocError> {
        let may_be = self
            .top
            .value_may_be_name(self.options.allow_loose_object_property_names);
        if let (Some(value), Some(colon)) = (self.top.value, self.top.colon) {
            if may_be && self.last <= value.start && value.start >= colon {
                let place = colon.max(self.last);
                self.insert(fault, place, " null,")?;
                self.top.take_name(value.start, value.end);
                self.suspect = None;
                return Ok(());
            }
        }
        self.drop_token(fault, token)
    }

    // An opening bracket after a value in an object: the object was not closed before it, or a name is missing.
    fn container_in_object(&mut self, fault: Fault, token: Token) -> Result<(), AllocError> {
        let place = self.top.value_end().max(self.last);
        self.suspect = None;
        if token.kind == Kind::OpenBrace && self.outer() == Inside::Array {
            self.insert(fault, place, "},")?;
            self.leave(place);
            self.top.begin_entry(true);
            return Ok(());
        }
        self.insert(fault, token.start, ", \"\": ")?;
        self.top.take_name(token.start, token.start);
        self.top.take_colon(token.start);
        Ok(())
    }

    // A word or another lexeme after a value.
    fn word_after_value(&mut self, fault: Fault, token: Token) -> Result<(), AllocError> {
        let (start, end) = (token.start, token.end);
        if token.kind != Kind::Single && self.is_meaningless(start, end) {
            return self.symbols_after_value(fault, token);
        }
        if self.top.inside == Inside::Array {
            self.top.begin_entry(true);
            let before = if self.options.allow_missing_commas {
                ""
            } else {
                ", "
            };
            return self.misplaced_value(fault, token, before);
        }
        self.top.previous_end = Some(self.top.value_end());
        let after = end.max(self.word_end(start));
        let is_name = token.kind == Kind::Single
            || follows_with(self.text, after, ':')
            || self.lacks_opening(token, ":").is_some();
        if is_name {
            self.top.stage = Stage::Entry;
            return self.misplaced_name(fault, token, ", ");
        }
        self.drop_token(fault, Token::new(Kind::Junk, start, after))
    }

    // Symbols after a value: a comma is put in their place where an entry may be after them, or they are removed.
    fn symbols_after_value(&mut self, fault: Fault, token: Token) -> Result<(), AllocError> {
        let next = self.peek(token.end);
        let is_word = next.kind == Kind::Junk && !is_symbols(part(self.text, next.start, next.end));
        if !next.kind.begins_value() && next.kind != Kind::Word && !is_word {
            return self.drop_token(fault, token);
        }
        self.change(fault, token.start, token.end, ",")?;
        self.take(Kind::Comma, token.start, token.end);
        self.top.begin_entry(true);
        Ok(())
    }

    // A colon after an element: the array was not closed before the name, or its bracket is of the wrong kind.
    fn colon_in_array(&mut self, fault: Fault, token: Token) -> Result<(), AllocError> {
        let may_be = self
            .top
            .value_may_be_name(self.options.allow_loose_object_property_names);
        if may_be && self.close_before_name(fault)? || may_be && self.array_to_object(fault)? {
            return Ok(());
        }
        let next = self.peek(token.end);
        if next.kind.begins_value() && !self.options.allow_missing_commas {
            self.change(fault, token.start, token.end, ",")?;
            self.take_comma(token);
            self.top.comma = None;
            return Ok(());
        }
        self.drop_token(fault, token)
    }

    // Closes the array before the last element, which is the name of a property.
    fn close_before_name(&mut self, fault: Fault) -> Result<bool, AllocError> {
        let (Some(name), Some(end)) = (self.top.value, self.top.previous_end) else {
            return Ok(false);
        };
        if self.top.count < 2 || self.outer() != Inside::Object || !self.is_free(end) {
            return Ok(false);
        }
        let has_comma = self.top.own_comma || self.options.allow_missing_commas;
        self.insert(fault, end, if has_comma { "]" } else { "]," })?;
        self.leave(end);
        self.top.take_name(name.start, name.end);
        self.suspect = None;
        Ok(true)
    }

    // Which frame around the innermost container is an array, if that becomes an object.
    fn array_around(&self) -> Option<usize> {
        match self.parents.last() {
            Some(outer) => {
                let number = self.parents.len().saturating_sub(1);
                other_kind(Inside::Object, outer, number)
            }
            None => None,
        }
    }

    // Makes an object of an array, whose first element is the name of a property.
    fn array_to_object(&mut self, fault: Fault) -> Result<bool, AllocError> {
        let Some(name) = self.top.value else {
            return Ok(false);
        };
        let start = self.top.start;
        if self.top.count != 1 || !self.is_free(start) || self.top.level >= DEPTH {
            return Ok(false);
        }
        self.change(fault, start, start.saturating_add(1), "{")?;
        let other = self.array_around();
        self.top.become_object(other);
        self.top.take_name(name.start, name.end);
        self.suspect = None;
        Ok(true)
    }

    /// A second comma: the one before it is removed, or else this one.
    pub(crate) fn second_comma(&mut self, fault: Fault, token: Token) -> Result<(), AllocError> {
        if let Some(comma) = self.top.comma {
            if self.last <= comma {
                self.remove(fault, comma, comma.saturating_add(1))?;
                self.take_token(token);
                self.top.comma = Some(token.start);
                return Ok(());
            }
        }
        self.remove_token(fault, token)?;
        self.suspect = None;
        Ok(())
    }

    /// A comma before a closing bracket is removed where it is forbidden.
    pub(crate) fn remove_trailing_comma(&mut self, token: Token) -> Result<(), AllocError> {
        let Some(comma) = self.trailing_comma() else {
            return Ok(());
        };
        let end = comma.saturating_add(1);
        let fault = fault(ParseErrorKind::TrailingCommasNotAllowed, comma, end);
        if self.last <= comma {
            self.change(fault, comma, end, "")?;
        } else {
            self.insert(fault, token.start, self.top.inside.entry_text())?;
        }
        self.top.comma = None;
        Ok(())
    }

    // Whether the brackets between this one and the one that it fits are to be put before it.
    fn is_close_of(&self, number: usize, ahead: Ahead) -> bool {
        let around = match number.checked_sub(1) {
            Some(index) => self.inside_of(index),
            None => Inside::Document,
        };
        goes_in(around, ahead) || !goes_in(self.outer(), ahead) && !goes_in(self.top.inside, ahead)
    }

    // What the frame of a number is, of those around the innermost one.
    fn inside_of(&self, number: usize) -> Inside {
        match self.parents.get(number) {
            Some(frame) => frame.inside,
            None => Inside::Document,
        }
    }

    /// A closing bracket of the other kind: those that are missing are put before it, or it is changed, or removed.
    pub(crate) fn wrong_close(&mut self, fault: Fault, token: Token) -> Result<(), AllocError> {
        let ahead = self.ahead_of(token.end);
        if let Some(number) = self.top.other {
            if self.is_close_of(number, ahead) {
                return self.close_down_to(fault, token, number);
            }
        }
        if goes_in(self.outer(), ahead) && self.trailing_comma().is_none() {
            self.change(
                fault,
                token.start,
                token.end,
                self.top.inside.closing_text(),
            )?;
            self.close_at(token);
            return Ok(());
        }
        self.drop_token(fault, token)
    }

    // Puts the brackets before a token that are missing for it to close the frame of a number.
    fn close_down_to(
        &mut self,
        fault: Fault,
        token: Token,
        number: usize,
    ) -> Result<(), AllocError> {
        let from = self.buffer.len();
        let (start, end) = match self.trailing_comma() {
            Some(comma) if self.last <= comma => (comma, comma.saturating_add(1)),
            Some(_) => {
                self.buffer.push_str(self.top.inside.entry_text())?;
                (token.start, token.start)
            }
            None => {
                let place = self.token_end.max(self.last);
                (place, place)
            }
        };
        self.write_closers(number)?;
        self.propose(fault, start, end, from)?;
        let count = self.parents.len();
        for _ in number..count {
            self.leave(self.last);
            self.top.stage = Stage::After;
        }
        self.suspect = None;
        self.word = None;
        Ok(())
    }

    /// Writes the closing brackets of the frames within the one of a number, innermost first.
    pub(crate) fn write_closers(&mut self, number: usize) -> Result<(), AllocError> {
        self.buffer.push_str(self.top.inside.closing_text())?;
        let kept = number.saturating_add(1);
        for frame in self.parents.iter().skip(kept).rev() {
            self.buffer.push_str(frame.inside.closing_text())?;
        }
        Ok(())
    }
}
