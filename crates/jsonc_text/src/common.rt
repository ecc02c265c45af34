//! Places and ranges: positions in a text, counted in bytes of UTF-8 from 0.
ghost use Rattle.std.specs.Prelude.{◌≡◌, ◌+◌, ◌-◌, ◌≤◌, slice_range};
ghost use Rattle.jsonc_text.specs.declared.common.Range.{Range};
ghost use Rattle.jsonc_text.specs.Text.{Spans};

/// A range of bytes of a text, from `start` to before `end`.
#[derive(Clone, Copy, Debug, PartialEq, Eq)]
pub struct Range {
    /// The place where it begins.
    pub start: usize,
    /// The place after its last byte.
    pub end: usize,
}

impl Range {
    /// The range from one place to before another.
    pub fn new(start: usize, end: usize) -> Range
        ensures start { result.start ≡ start }
        ensures end { result.end ≡ end }
    {
        Range { start, end }
    }

    /// The empty range at a place.
    pub fn from_byte_index(pos: usize) -> Range
        ensures start { result.start ≡ pos }
        ensures end { result.end ≡ pos }
    {
        Range::new(pos, pos)
    }
}

/// A part of a text, which has a range.
pub trait Ranged {
    ghost range_of: { Self → Range };

    /// The bytes of the text that it covers.
    fn range(&self) -> Range
        ensures { result ≡ range_of self.now };

    /// The place where it begins.
    final fn start(&self) -> usize
        ensures { result ≡ (range_of self.now).start }
    {
        self.range().start
    }

    /// The place after its last byte.
    final fn end(&self) -> usize
        ensures { result ≡ (range_of self.now).end }
    {
        self.range().end
    }

    /// The part of the text that it covers.
    final fn text<'a>(&self, text: &'a str) -> &'a str
        requires { Spans text.now (range_of self.now).start (range_of self.now).end }
        ensures { result.now ≡ slice_range text.now (range_of self.now).start (range_of self.now).end }
    {
        let range = self.range();
        &text[range.start..range.end]
    }

    /// How many bytes it covers.
    final fn width(&self) -> usize
        requires { (range_of self.now).start ≤ (range_of self.now).end }
        ensures { result ≡ (range_of self.now).end - (range_of self.now).start }
    {
        let range = self.range();
        range.end - range.start
    }
}

impl Ranged for Range {
    ghost range_of = { λ range. range };

    fn range(&self) -> Range {
        *self
    }
}
