//! Where the text ends, or is as deep as is taken.
use crate::changes::Fault;
use crate::frame::{Inside, Stage};
use crate::lexeme::{Kind, Token, fault};
use crate::reading::part;
use crate::recovery::Recovery;
use jsonc_text::errors::ParseErrorKind;
use std::alloc::{AllocError, Allocator};

impl<'a, A: Allocator + Copy> Recovery<'a, A> {
    // The fault of a container that is open where the text ends.
    fn fault_at_end(&self) -> Fault {
        let end = self.text.len();
        match self.top.stage {
            Stage::Colon if self.top.full => {
                fault(
                    ParseErrorKind::NestingDepthExceeded,
                    self.top.name.start,
                    end,
                )
            }
            Stage::Name => fault(ParseErrorKind::ExpectedColonAfterObjectKey, end, end),
            Stage::Colon => fault(ParseErrorKind::ExpectedObjectValue, end, end),
            _ => {
                let in_object = self.top.inside == Inside::Object;
                let kind = if in_object {
                    ParseErrorKind::UnterminatedObject
                } else {
                    ParseErrorKind::UnterminatedArray
                };
                fault(kind, self.top.start, end)
            }
        }
    }

    /// The end of the text: what is open is closed. True where nothing is left to do.
    pub(crate) fn at_end(&mut self, token: Token) -> Result<bool, AllocError> {
        if self.top.inside == Inside::Document {
            return Ok(true);
        }
        let fault = self.fault_at_end();
        if self.top.full && self.top.stage != Stage::Entry {
            self.empty_full(fault)?;
            return Ok(true);
        }
        if self.reread_suspect(fault, token)? {
            return Ok(false);
        }
        match self.top.stage {
            Stage::Name => self.complete_at_end(fault, self.top.name.end, ": null"),
            Stage::Colon => self.complete_at_end(fault, self.colon_end(), " null"),
            _ => self.close_at_end(fault),
        }
    }

    // Writes the brackets of all open containers, on a line of their own where the last line is a comment.
    fn write_all_closers(&mut self) -> Result<(), AllocError> {
        if self.line_at_end {
            self.buffer.push('\n')?;
        }
        self.write_closers(0)
    }

    // Inserts what a property lacks, and the brackets where nothing is after it.
    fn complete_at_end(&mut self, fault: Fault, end: usize, new: &str) -> Result<bool, AllocError> {
        let place = end.max(self.last);
        let from = self.buffer.len();
        let is_last = self.ends_after(place);
        self.buffer.push_str(new)?;
        if is_last {
            self.write_all_closers()?;
        }
        self.propose(fault, place, place, from)?;
        self.top.stage = Stage::Colon;
        self.take_inserted(place);
        Ok(is_last)
    }

    // Inserts the brackets of all open containers, in the place of a comma that is forbidden there.
    fn close_at_end(&mut self, fault: Fault) -> Result<bool, AllocError> {
        let end = self.text.len();
        let from = self.buffer.len();
        let Some(comma) = self.trailing_comma() else {
            self.write_all_closers()?;
            self.propose(fault, end, end, from)?;
            return Ok(true);
        };
        let after = comma.saturating_add(1);
        if self.last > comma {
            if self.line_at_end {
                self.buffer.push('\n')?;
            }
            self.buffer.push_str(self.top.inside.entry_text())?;
            self.write_closers(0)?;
            self.propose(fault, end, end, from)?;
            return Ok(true);
        }
        if self.ends_after(after) {
            self.write_all_closers()?;
            self.propose(fault, comma, after, from)?;
            return Ok(true);
        }
        self.propose(fault, comma, after, from)?;
        self.top.comma = None;
        Ok(false)
    }

    /// A token in a container in which nothing may be. True where a change was made, or the token is read.
    pub(crate) fn step_in_full(&mut self, token: Token) -> Result<bool, AllocError> {
        if token.kind.has_fault() {
            self.empty_full(token.fault_or(ParseErrorKind::UnexpectedToken))?;
            return Ok(true);
        }
        let Some(kind) = self.fault_in_full(token) else {
            return Ok(self.take_name_in_full(token));
        };
        let start = match kind {
            ParseErrorKind::NestingDepthExceeded => self.deep_start(),
            _ => token.start,
        };
        self.empty_full(fault(kind, start, token.end))?;
        Ok(true)
    }

    // Where what is nested too deep begins.
    fn deep_start(&self) -> usize {
        if self.top.inside == Inside::Object && self.top.stage == Stage::Colon {
            return self.top.name.start;
        }
        self.top.start
    }

    // The fault of a token in such a container.
    fn fault_in_full(&self, token: Token) -> Option<ParseErrorKind> {
        let kind = token.kind;
        let closes = self.top.is_closed_by(kind);
        if self.top.inside != Inside::Object {
            return if closes {
                None
            } else {
                Some(ParseErrorKind::NestingDepthExceeded)
            };
        }
        let loose = self.options.allow_loose_object_property_names;
        match self.top.stage {
            Stage::Colon => Some(ParseErrorKind::NestingDepthExceeded),
            Stage::Name if kind != Kind::Colon => Some(ParseErrorKind::ExpectedColonAfterObjectKey),
            Stage::Entry if closes || kind == Kind::String => None,
            Stage::Entry if !kind.may_be_name() => Some(ParseErrorKind::UnexpectedTokenInObject),
            Stage::Entry if !loose => Some(ParseErrorKind::ExpectedStringObjectProperty),
            _ => None,
        }
    }

    // A name that is no string.
    fn take_name_in_full(&mut self, token: Token) -> bool {
        let kind = token.kind;
        if self.top.inside != Inside::Object
            || self.top.stage != Stage::Entry
            || kind == Kind::String
            || !kind.may_be_name()
        {
            return false;
        }
        self.take_token(token);
        self.top.take_name(token.start, token.end);
        true
    }

    // The bracket of the innermost container from a place on, or the end of the text; and the end of what is before it.
    fn bracket_after(&mut self, from: usize) -> (Token, usize) {
        let mut depth = 0usize;
        let mut place = from;
        let mut token = self.peek(from);
        for _ in 0..self.text.len() {
            if token.kind == Kind::End || depth == 0 && self.top.is_closed_by(token.kind) {
                break;
            }
            if token.kind.opens() {
                depth = depth.saturating_add(1);
            } else if token.kind.closes() {
                depth = depth.saturating_sub(1);
            }
            place = token.end;
            token = self.peek(place);
        }
        (token, place)
    }

    /// Removes all that is in a container in which nothing may be.
    pub(crate) fn empty_full(&mut self, fault: Fault) -> Result<(), AllocError> {
        let first = match self.top.first {
            Some(first) => first,
            None => self.top.start.saturating_add(1),
        };
        let start = first.max(self.last);
        let (bracket, end) = self.bracket_after(start);
        self.top.stage = Stage::Entry;
        self.top.comma = None;
        self.top.count = 0;
        self.suspect = None;
        self.word = None;
        if bracket.kind == Kind::End {
            return self.empty_to_end(fault, start);
        }
        let end = if end == start || !self.options.allow_comments {
            let inside = part(self.text, start, bracket.start);
            start.saturating_add(inside.trim_end().len())
        } else {
            end
        };
        self.change(fault, start, end, "")?;
        self.pass_to(end);
        Ok(())
    }

    // The same where the text ends before the bracket.
    fn empty_to_end(&mut self, fault: Fault, start: usize) -> Result<(), AllocError> {
        let end = self.text.len();
        let from = self.buffer.len();
        self.write_closers(0)?;
        self.propose(fault, start, end, from)?;
        let count = self.parents.len();
        for _ in 0..count {
            self.leave(end);
        }
        self.top.stage = Stage::Done;
        self.place = end;
        Ok(())
    }
}
