//! Strings with faults: bad escapes, and quotes that are missing or too many.
use crate::changes::Fault;
use crate::escape::{Escape, read_escape};
use crate::frame::{Frame, Inside, Stage, ValueKind};
use crate::lexeme::{Kind, Token, fault};
use crate::reading::{
    after_blanks, char_before, char_here, follows_with, has_any, part, place_after, rest,
};
use crate::recovery::{Recovery, Suspect};
use jsonc_text::common::Range;
use jsonc_text::errors::{ParseErrorKind, ParseStringErrorKind as StringFault};
use std::alloc::{AllocError, Allocator};

/// Where reading a string stops.
#[derive(Clone, Copy)]
enum Stop {
    /// After its closing quote.
    Closed(usize),
    /// At the end of the text.
    End,
    /// At an escape with a fault.
    Refused(Fault),
}

/// Where reading a string stops, and the end of its first line, if it goes on after it.
#[derive(Clone, Copy)]
struct Stopped {
    stop: Stop,
    line: Option<usize>,
}

// Reads a string from a place in it on.
fn read_on(text: &str, from: usize, quote: char, extended: bool, first: Option<usize>) -> Stopped {
    let mut line = first;
    let mut next = from;
    for (count, c) in rest(text, from).char_indices() {
        let place = from.saturating_add(count);
        if place < next {
            continue;
        }
        if c == quote {
            let stop = Stop::Closed(place.saturating_add(1));
            return Stopped { stop, line };
        }
        if c == '\\' {
            match read_escape(text, place, quote, extended) {
                Escape::Ends(end) => next = end,
                Escape::Cut => return Stopped {
                    stop: Stop::End,
                    line,
                },
                Escape::Refused(fault) => {
                    let stop = Stop::Refused(fault);
                    return Stopped { stop, line };
                }
            }
        } else if line.is_none() && (c == '\r' || c == '\n') {
            line = Some(place);
        }
    }
    Stopped {
        stop: Stop::End,
        line,
    }
}

// The place before the spaces and tabs that a part of a text ends with.
fn before_spaces(text: &str, start: usize, end: usize) -> usize {
    start.saturating_add(part(text, start, end).trim_end_matches([' ', '\t']).len())
}

// The place before what ends a line after a value.
fn before_line_end(text: &str, start: usize, end: usize) -> usize {
    let inside = part(text, start, end);
    let value = inside.trim_end_matches(|c: char| c.is_whitespace()
        || matches!(c, ',' | ']' | '}' | ';'));
    start.saturating_add(value.len())
}

impl<'a, A: Allocator + Copy> Recovery<'a, A> {
    /// The string at a quote. None where a change was made first.
    pub(crate) fn string(
        &mut self,
        start: usize,
        quote: char,
    ) -> Result<Option<Token>, AllocError> {
        let extended = self.options.allow_extended_string_escapes;
        let mut from = place_after(self.text, start);
        let mut line = None;
        for _ in 0..self.text.len() {
            let stopped = read_on(self.text, from, quote, extended, line);
            line = stopped.line;
            let fault = match stopped.stop {
                Stop::Closed(end) => {
                    let mut token = Token::new(Kind::String, start, end);
                    token.line = line;
                    return Ok(Some(token));
                }
                Stop::End => return self.unclosed_string(
                    start,
                    unterminated(start, self.text),
                    line,
                ),
                Stop::Refused(fault) => fault,
            };
            if self.top.full || self.top.stage == Stage::Done || line.is_some() {
                return self.unclosed_string(start, fault, line);
            }
            if self.complete_before(start, fault)? {
                return Ok(None);
            }
            from = self.mend_escape(fault)?;
        }
        Ok(None)
    }

    // Mends an escape, and answers where the string goes on.
    fn mend_escape(&mut self, fault: Fault) -> Result<usize, AllocError> {
        let start = fault.range.start;
        let ParseErrorKind::String(kind) = fault.kind else {
            return Ok(fault.range.end);
        };
        match kind {
            StringFault::InvalidEscapeInSingleQuoteString
            | StringFault::InvalidEscapeInDoubleQuoteString => {
                self.change(fault, start, start.saturating_add(1), "")?;
                Ok(start.saturating_add(2))
            }
            StringFault::InvalidUnicodeEscapeSequence(_, _) => {
                let end = start.saturating_add(6);
                self.change(fault, start, end, "\\ufffd")?;
                Ok(end)
            }
            _ => {
                self.insert(fault, start, "\\")?;
                self.doubled = true;
                Ok(start.saturating_add(1))
            }
        }
    }

    // A string that does not end, or has a fault that is not on its first line.
    fn unclosed_string(
        &mut self,
        start: usize,
        fault: Fault,
        line: Option<usize>,
    ) -> Result<Option<Token>, AllocError> {
        if self.top.stage == Stage::Done && self.remove_extra_quote(fault, start)? {
            return Ok(None);
        }
        if self.top.full || self.top.stage == Stage::Done {
            let end = self.string_end(start);
            return Ok(Some(Token::faulty(Kind::Bad, start, end, fault)));
        }
        if self.complete_before(start, fault)? {
            return Ok(None);
        }
        let end = match line {
            Some(end) => end,
            None => self.text.len(),
        };
        let cut = self.cut_place(start, end, self.expects_name());
        self.close_string(fault, start, cut)?;
        Ok(Some(Token::new(Kind::String, start, cut)))
    }

    /// Removes a quote directly after a string, which would begin another one.
    pub(crate) fn remove_extra_quote(
        &mut self,
        fault: Fault,
        start: usize,
    ) -> Result<bool, AllocError> {
        let Some(suspect) = self.suspect else {
            return Ok(false);
        };
        if suspect.end != start || !self.is_free(start) {
            return Ok(false);
        }
        let end = place_after(self.text, start);
        self.change(fault, start, end, "")?;
        self.place = end;
        self.suspect = None;
        Ok(true)
    }

    // What is missing before a string that has a fault itself is put there first. True where a change was made.
    fn complete_before(&mut self, start: usize, fault: Fault) -> Result<bool, AllocError> {
        if self.remove_extra_quote(fault, start)? {
            return Ok(true);
        }
        if self.top.inside == Inside::Document || self.last > start {
            return Ok(false);
        }
        let stage = self.top.stage;
        if stage != Stage::Name && (stage != Stage::After || self.options.allow_missing_commas) {
            return Ok(false);
        }
        let end = self.string_end(start);
        if self.reread_suspect(fault, Token::new(Kind::String, start, end))? {
            return Ok(true);
        }
        if stage == Stage::After {
            self.insert_comma(fault)?;
            return Ok(true);
        }
        let place = self.top.name.end.max(self.last);
        if follows_with(self.text, end, ':') {
            self.insert(fault, place, ": null,")?;
            self.top.set_value(ValueKind::Keyword, place, place);
            self.top.stage = Stage::Entry;
        } else {
            self.insert(fault, place, ":")?;
            self.top.take_colon(place);
        }
        self.suspect = None;
        Ok(true)
    }

    /// Inserts the comma that is missing after the last value.
    pub(crate) fn insert_comma(&mut self, fault: Fault) -> Result<(), AllocError> {
        let place = self.top.value_end().max(self.last);
        self.insert(fault, place, ",")?;
        self.top.begin_entry(false);
        self.suspect = None;
        Ok(())
    }

    /// Whether a string that is next is a name.
    pub(crate) fn expects_name(&self) -> bool {
        self.top.inside == Inside::Object
            && (self.top.stage == Stage::Entry || self.top.stage == Stage::After)
    }

    // Where a string is to be closed, whose line ends at `end`: a name before its colon, a value before what ends the line.
    fn cut_place(&self, start: usize, end: usize, is_name: bool) -> usize {
        let from = place_after(self.text, start).max(self.last);
        if from >= end {
            return end;
        }
        if is_name {
            if let Some(count) = part(self.text, from, end).find(':') {
                return before_spaces(self.text, from, from.saturating_add(count));
            }
        }
        before_line_end(self.text, from, end)
    }

    // Closes a string at a place. A backslash that would take the quote is doubled.
    fn close_string(&mut self, fault: Fault, start: usize, cut: usize) -> Result<(), AllocError> {
        let inside = part(self.text, place_after(self.text, start), cut);
        let mut backslashes = inside
            .len()
            .saturating_sub(inside.trim_end_matches('\\').len());
        if self.doubled && cut.saturating_sub(backslashes) <= self.last && self.last < cut {
            backslashes = backslashes.saturating_add(1);
        }
        let from = self.buffer.len();
        if backslashes % 2 == 1 {
            self.buffer.push('\\')?;
        }
        if let Some(quote) = char_here(self.text, start) {
            self.buffer.push(quote)?;
        }
        self.propose(fault, cut, cut, from)
    }

    /// A string is read: a name or a value.
    pub(crate) fn take_string(&mut self, token: Token) {
        let frame = self.top;
        let is_name = self.expects_name();
        self.take_token(token);
        if is_name {
            self.top.take_name(token.start, token.end);
        } else {
            self.top
                .take_value(ValueKind::String, token.start, token.end);
        }
        self.suspect = Some(Suspect {
            start: token.start,
            end: token.end,
            line: token.line,
            frame,
            is_name,
        });
    }

    /// The string before a fault may lack its closing quote: then it is read anew with one. True where a change was made.
    pub(crate) fn reread_suspect(
        &mut self,
        fault: Fault,
        token: Token,
    ) -> Result<bool, AllocError> {
        let Some(suspect) = self.suspect else {
            return Ok(false);
        };
        let next = after_blanks(self.text, suspect.end);
        if token.start < suspect.end || next != token.start {
            return Ok(false);
        }
        if self.is_quote_too_many(&suspect, token) {
            self.top = suspect.frame;
            let end = place_after(self.text, suspect.start);
            self.change(fault, suspect.start, end, "")?;
            self.place = end;
            self.suspect = None;
            return Ok(true);
        }
        if self.is_quote_after(&suspect, token) && self.remove_extra_quote(fault, suspect.end)? {
            return Ok(true);
        }
        let Some(cut) = self.suspect_cut(&suspect, token) else {
            return Ok(false);
        };
        self.top = suspect.frame;
        self.close_string(fault, suspect.start, cut)?;
        self.place = cut;
        self.take_string(Token::new(Kind::String, suspect.start, cut));
        Ok(true)
    }

    // Whether an empty string is a quote too many before a string whose own opening quote is its second one.
    fn is_quote_too_many(&self, suspect: &Suspect, token: Token) -> bool {
        if suspect.end.saturating_sub(suspect.start) != 2 || token.start != suspect.end {
            return false;
        }
        if !self.is_free(suspect.start) || !token.kind.is_bare() {
            return false;
        }
        self.lacks_opening(token, ",]}:").is_some()
    }

    // Whether a string directly after another one is a quote too many.
    fn is_quote_after(&self, suspect: &Suspect, token: Token) -> bool {
        if token.kind != Kind::String || token.start != suspect.end {
            return false;
        }
        if token.line.is_some() {
            return true;
        }
        let after = place_after(self.text, suspect.end);
        let ends = if suspect.is_name { ":" } else { ",]}" };
        has_any(self.text, after_blanks(self.text, after), ends)
    }

    // Where a string that lacks its closing quote is to be closed.
    fn suspect_cut(&self, suspect: &Suspect, token: Token) -> Option<usize> {
        let close = suspect.end.saturating_sub(1);
        let before = char_before(self.text, close)?;
        if close <= place_after(self.text, suspect.start)
            || !before.is_whitespace() && !matches!(before, '{' | '[' | ',' | ':')
        {
            return None;
        }
        let cut = match suspect.line {
            Some(line) => self.cut_place(suspect.start, line, suspect.is_name),
            None => self.cut_on_line(suspect, token)?,
        };
        if self.last > cut {
            return None;
        }
        Some(cut)
    }

    // The same, of a string on one line.
    fn cut_on_line(&self, suspect: &Suspect, token: Token) -> Option<usize> {
        if token.start != suspect.end || token.kind == Kind::End {
            return None;
        }
        let from = place_after(self.text, suspect.start).max(self.last);
        let mark = if suspect.is_name { ':' } else { ',' };
        let count = part(self.text, from, suspect.end.saturating_sub(1)).find(mark)?;
        Some(before_spaces(self.text, from, from.saturating_add(count)))
    }
}

// The fault of a string without an end.
fn unterminated(start: usize, text: &str) -> Fault {
    let kind = ParseErrorKind::String(StringFault::UnterminatedStringLiteral);
    fault(kind, start, text.len())
}
