//! Open containers, and how far each is read.
use crate::lexeme::Kind;
use jsonc_text::common::Range;

/// At most so many containers and properties are around a value.
pub(crate) const DEPTH: usize = 512;

/// What a frame is.
#[derive(Clone, Copy, Debug, PartialEq, Eq)]
pub(crate) enum Inside {
    Document,
    Array,
    Object,
}

impl Inside {
    /// What closes it, as it is written.
    pub(crate) fn closing_text(self) -> &'static str {
        match self {
            Inside::Document => "",
            Inside::Array => "]",
            Inside::Object => "}",
        }
    }

    /// An entry in the place of one that is missing.
    pub(crate) fn entry_text(self) -> &'static str {
        match self {
            Inside::Object => "\"\": null",
            _ => "null",
        }
    }
}

/// What is expected next in a frame.
#[derive(Clone, Copy, Debug, PartialEq, Eq)]
pub(crate) enum Stage {
    /// An entry, or the end of the container.
    Entry,
    /// The colon after a name.
    Name,
    /// The value after a colon.
    Colon,
    /// A comma, or the end of the container.
    After,
    /// The end of the text.
    Done,
}

/// What a value is.
#[derive(Clone, Copy, Debug, PartialEq, Eq)]
pub(crate) enum ValueKind {
    Container,
    String,
    Number,
    Keyword,
    /// What a change writes, and no lexeme of the text.
    Written,
}

/// A value and where it is.
#[derive(Clone, Copy)]
pub(crate) struct Value {
    pub kind: ValueKind,
    pub start: usize,
    pub end: usize,
}

/// A document, or a container that is open.
#[derive(Clone, Copy)]
pub(crate) struct Frame {
    pub inside: Inside,
    /// Where its bracket is.
    pub start: usize,
    /// How many containers and properties are around its entries.
    pub level: usize,
    /// Whether nothing may be in it, since it is as deep as is taken.
    pub full: bool,
    pub stage: Stage,
    /// How many entries have begun.
    pub count: usize,
    /// Where its first token begins.
    pub first: Option<usize>,
    /// The comma before, where it is of the text and nothing is after it.
    pub comma: Option<usize>,
    /// The last value.
    pub value: Option<Value>,
    /// The end of the value before the last comma.
    pub previous_end: Option<usize>,
    /// The last name.
    pub name: Range,
    /// The end of the last colon.
    pub colon: Option<usize>,
    /// Whether the comma before an element is of the text.
    pub own_comma: bool,
    /// Which frame is the nearest around this one that is a container of the other kind.
    pub other: Option<usize>,
}

impl Frame {
    /// A container whose bracket is at a place, or a document.
    pub(crate) fn new(inside: Inside, start: usize, level: usize) -> Frame {
        let deepest = match inside {
            Inside::Document => false,
            Inside::Array => level > DEPTH,
            Inside::Object => level >= DEPTH,
        };
        Frame {
            inside,
            start,
            level,
            full: deepest,
            stage: Stage::Entry,
            count: 0,
            first: None,
            comma: None,
            value: None,
            previous_end: None,
            name: Range::new(start, start),
            colon: None,
            own_comma: false,
            other: None,
        }
    }

    /// How many containers and properties are around the next value.
    pub(crate) fn around(&self) -> usize {
        if self.stage == Stage::Colon {
            return self.level.saturating_add(1);
        }
        self.level
    }

    /// Whether a token closes it.
    pub(crate) fn is_closed_by(&self, kind: Kind) -> bool {
        match self.inside {
            Inside::Document => false,
            Inside::Array => kind == Kind::CloseBracket,
            Inside::Object => kind == Kind::CloseBrace,
        }
    }

    /// The end of the last value.
    pub(crate) fn value_end(&self) -> usize {
        match self.value {
            Some(value) => value.end,
            None => self.start,
        }
    }

    /// Where the last value begins.
    pub(crate) fn value_start(&self) -> usize {
        match self.value {
            Some(value) => value.start,
            None => self.start,
        }
    }

    /// Whether the last value is of this kind.
    pub(crate) fn has_value(&self, kind: ValueKind) -> bool {
        match self.value {
            Some(value) => value.kind == kind,
            None => false,
        }
    }

    /// Whether the last value could be a name: a string, or a number or keyword where these may be names.
    pub(crate) fn value_may_be_name(&self, loose: bool) -> bool {
        match self.value {
            Some(value) => match value.kind {
                ValueKind::String => true,
                ValueKind::Number | ValueKind::Keyword => loose,
                _ => false,
            },
            None => false,
        }
    }

    /// The last value becomes one between these places, and what may be after it is next.
    pub(crate) fn set_value(&mut self, kind: ValueKind, start: usize, end: usize) {
        self.value = Some(Value { kind, start, end });
    }

    /// What may be after a value is next.
    pub(crate) fn end_entry(&mut self) {
        self.stage = match self.inside {
            Inside::Document => Stage::Done,
            _ => Stage::After,
        };
    }

    /// A value is read.
    pub(crate) fn take_value(&mut self, kind: ValueKind, start: usize, end: usize) {
        if self.stage != Stage::Colon {
            self.count = self.count.saturating_add(1);
        }
        self.set_value(kind, start, end);
        self.comma = None;
        self.end_entry();
    }

    /// A name is read.
    pub(crate) fn take_name(&mut self, start: usize, end: usize) {
        self.count = self.count.saturating_add(1);
        self.name = Range::new(start, end);
        self.comma = None;
        self.stage = Stage::Name;
    }

    /// A colon is read, or a change writes one.
    pub(crate) fn take_colon(&mut self, end: usize) {
        self.stage = Stage::Colon;
        self.colon = Some(end);
    }

    /// A change writes a comma after the last value.
    pub(crate) fn begin_entry(&mut self, own_comma: bool) {
        self.previous_end = Some(self.value_end());
        self.comma = None;
        self.stage = Stage::Entry;
        self.own_comma = own_comma;
    }

    /// An array becomes an object without properties; the array that is nearest around it has this number.
    pub(crate) fn become_object(&mut self, array: Option<usize>) {
        self.inside = Inside::Object;
        self.full = false;
        self.count = 0;
        self.colon = Some(self.start);
        self.other = array;
    }
}
