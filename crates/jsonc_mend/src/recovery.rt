//! The recovery: one walk over a text with faults, which proposes a change for each.
//!
//! Nothing that it proposes is relied on: `changes` takes changes only where they may be made.
use crate::changes::{Fault, Proposal};
use crate::frame::{Frame, Inside, Stage, ValueKind};
use crate::lexeme::{Kind, Token};
use crate::reading::{are_apart, char_before, char_here};
use jsonc_text::common::Range;
use jsonc_text::options::ParseOptions;
use std::alloc::{AllocError, Allocator};

/// A string that was just read, and may lack its closing quote.
#[derive(Clone, Copy)]
pub(crate) struct Suspect {
    pub start: usize,
    pub end: usize,
    /// The end of its first line, if it goes on after it.
    pub line: Option<usize>,
    /// The frame before it was read.
    pub frame: Frame,
    pub is_name: bool,
}

/// What is after a closing bracket.
#[derive(Clone, Copy, Debug, PartialEq, Eq)]
pub(crate) enum Ahead {
    End,
    CloseBracket,
    CloseBrace,
    /// A comma, a name and a colon.
    NextProperty,
    /// A comma, and no name with a colon.
    NextElement,
    /// A value or a word.
    Value,
    Other,
}

/// A recovery under way.
#[derive(Drop)]
pub struct Recovery<'a, A: Allocator> {
    pub(crate) alloc: A,
    pub(crate) text: &'a str,
    pub(crate) options: &'a ParseOptions,
    /// How far the text is read.
    pub(crate) place: usize,
    /// The end of the last token.
    pub(crate) token_end: usize,
    /// The containers around the innermost one, from the document on.
    pub(crate) parents: Vec<Frame, A>,
    /// The innermost container.
    pub(crate) top: Frame,
    /// The container that was closed last.
    pub(crate) closed: Option<Frame>,
    pub(crate) suspect: Option<Suspect>,
    /// The lexemes outside of strings that touch one another, up to the last one.
    pub(crate) word: Option<Range>,
    /// No `*/` begins from this place on.
    pub(crate) unclosed: usize,
    /// Whether a line comment reaches the end of the text.
    pub(crate) line_at_end: bool,
    /// What is after the closing bracket that was looked after last, by its end.
    pub(crate) ahead: Option<(usize, Ahead)>,
    /// Up to here the words before the value were looked at.
    pub(crate) looked: usize,
    pub(crate) proposals: Vec<Proposal, A>,
    /// What the changes write.
    pub(crate) buffer: String<A>,
    /// The end of the last change.
    pub(crate) last: usize,
    /// The character of the changed text before that end.
    pub(crate) last_char: Option<char>,
    /// Whether the last change is an insertion.
    pub(crate) inserted: bool,
    /// Whether it inserts one backslash.
    pub(crate) doubled: bool,
}

impl<'a, A: Allocator + Copy> Recovery<'a, A> {
    /// A recovery at the start of a text.
    pub fn new(alloc: A, text: &'a str, options: &'a ParseOptions) -> Recovery<'a, A> {
        Recovery {
            alloc,
            text,
            options,
            place: 0,
            token_end: 0,
            parents: Vec::new(alloc),
            top: Frame::new(Inside::Document, 0, 0),
            closed: None,
            suspect: None,
            word: None,
            unclosed: text.len().saturating_add(9),
            line_at_end: false,
            ahead: None,
            looked: 0,
            proposals: Vec::new(alloc),
            buffer: String::new(alloc),
            last: 0,
            last_char: None,
            inserted: false,
            doubled: false,
        }
    }

    /// What is proposed so far.
    pub fn proposals(&self) -> &[Proposal] {
        self.proposals.as_slice()
    }

    /// What the proposed changes write, one after another.
    pub fn buffer(&self) -> &str {
        self.buffer.as_str()
    }

    /// Proposes changes for all faults of the text. False where it gave up.
    pub fn run(&mut self) -> Result<bool, AllocError> {
        let steps = self.text.len().saturating_mul(8).saturating_add(100);
        for _ in 0..steps {
            if self.advance()? {
                return Ok(true);
            }
        }
        Ok(false)
    }

    // One token, or one change. True at the end.
    fn advance(&mut self) -> Result<bool, AllocError> {
        let Some(token) = self.next()? else {
            return Ok(false);
        };
        if self.top.first.is_none() {
            self.top.first = Some(token.start);
        }
        if token.kind == Kind::End {
            return self.at_end(token);
        }
        self.step(token)?;
        Ok(false)
    }

    // The character of the changed text before a place that is not before the last change.
    fn changed_before(&self, place: usize) -> Option<char> {
        if place > self.last {
            return char_before(self.text, place);
        }
        self.last_char
    }

    /// Proposes to put what the buffer has from `from` on in the place of some bytes.
    pub(crate) fn propose(
        &mut self,
        fault: Fault,
        start: usize,
        end: usize,
        from: usize,
    ) -> Result<(), AllocError> {
        let before = self.changed_before(start);
        let to = self.buffer.len();
        self.last_char = if to > from {
            char_before(self.buffer.as_str(), to)
        } else {
            before
        };
        self.last = end;
        self.inserted = start == end;
        self.doubled = false;
        let range = Range::new(start, end);
        let written = Range::new(from, to);
        self.proposals.push(Proposal {
            fault,
            range,
            written,
        })?;
        Ok(())
    }

    /// Proposes to put a text in the place of some bytes.
    pub(crate) fn change(
        &mut self,
        fault: Fault,
        start: usize,
        end: usize,
        new: &str,
    ) -> Result<(), AllocError> {
        let from = self.buffer.len();
        self.buffer.push_str(new)?;
        self.propose(fault, start, end, from)
    }

    /// Proposes to insert a text.
    pub(crate) fn insert(
        &mut self,
        fault: Fault,
        place: usize,
        new: &str,
    ) -> Result<(), AllocError> {
        self.change(fault, place, place, new)
    }

    /// Proposes to remove some bytes. A space is put in their place where two literals would meet.
    pub(crate) fn remove(
        &mut self,
        fault: Fault,
        start: usize,
        end: usize,
    ) -> Result<(), AllocError> {
        let before = self.changed_before(start);
        let apart = are_apart(before, char_here(self.text, end));
        self.change(fault, start, end, if apart { "" } else { " " })
    }

    /// The same of a token, which is passed.
    pub(crate) fn remove_token(&mut self, fault: Fault, token: Token) -> Result<(), AllocError> {
        self.remove(fault, token.start, token.end)?;
        self.pass_to(token.end);
        Ok(())
    }

    /// The same, and the string and the word before are whole.
    pub(crate) fn drop_token(&mut self, fault: Fault, token: Token) -> Result<(), AllocError> {
        self.remove_token(fault, token)?;
        self.suspect = None;
        self.word = None;
        Ok(())
    }

    /// Reading goes on from a place.
    pub(crate) fn pass_to(&mut self, place: usize) {
        self.place = place;
        self.token_end = place;
    }

    /// Whether a change may still be made at a place, before what is there.
    pub(crate) fn is_free(&self, place: usize) -> bool {
        self.last < place || self.last == place && !self.inserted
    }

    /// A token is read.
    pub(crate) fn take(&mut self, kind: Kind, start: usize, end: usize) {
        self.word = None;
        self.suspect = None;
        self.pass_to(end);
        if !kind.is_bare() {
            return;
        }
        self.word = Some(Range::new(start, end));
    }

    /// The same, of a lexeme that may touch the one before.
    pub(crate) fn take_token(&mut self, token: Token) {
        let before = self.word;
        self.take(token.kind, token.start, token.end);
        if !token.kind.is_bare() {
            return;
        }
        let Some(word) = before else {
            return;
        };
        if word.end == token.start {
            self.word = Some(Range::new(word.start, token.end));
        }
    }

    /// A value is written by a change, in the place of what is between these places.
    pub(crate) fn take_written(&mut self, kind: ValueKind, start: usize, end: usize) {
        self.take(Kind::String, start, end);
        self.top.take_value(kind, start, end);
    }

    /// A value that a change inserts.
    pub(crate) fn take_inserted(&mut self, place: usize) {
        self.top.take_value(ValueKind::Keyword, place, place);
    }

    /// A container is open.
    pub(crate) fn open(&mut self, inside: Inside, start: usize) -> Result<(), AllocError> {
        let outer = self.top;
        let mut frame = Frame::new(inside, start, outer.around().saturating_add(1));
        frame.other = other_kind(inside, &outer, self.parents.len());
        self.parents.push(outer)?;
        self.top = frame;
        Ok(())
    }

    /// The innermost container is closed, and its value ends at a place.
    pub(crate) fn leave(&mut self, end: usize) {
        let Some(outer) = self.parents.pop() else {
            return;
        };
        self.closed = Some(self.top);
        self.top = outer;
        let start = self.top.value_start();
        self.top.set_value(ValueKind::Container, start, end);
    }

    /// The frame around the innermost container.
    pub(crate) fn outer(&self) -> Inside {
        match self.parents.last() {
            Some(frame) => frame.inside,
            None => Inside::Document,
        }
    }
}

/// Which frame is the nearest around a container of one kind that is a container of the other kind; `outer` has this
/// number.
pub(crate) fn other_kind(inside: Inside, outer: &Frame, number: usize) -> Option<usize> {
    if outer.inside == Inside::Document {
        return None;
    }
    if outer.inside == inside {
        return outer.other;
    }
    Some(number)
}
