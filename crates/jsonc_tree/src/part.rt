//! Texts that stand in a longer one.

ghost use Rattle.std.specs.Prelude.{◌≡◌, IfOk, slice_range};
ghost use Rattle.std.specs.Rc.{rc_str_bytes};
ghost use Rattle.jsonc_text.specs.Text.{Spans};

use std::alloc::{AllocError, Allocator};
use std::marker::Model;
use std::rc::RcStr;

/// A part of a text, which it keeps alive and may share with other parts.
#[derive(Drop)]
pub struct Part<A: Allocator> {
    whole: RcStr<A>,
    start: usize,
    end: usize,
}

impl<A: Allocator> Model for Part<A> {
    ghost use Rattle.std.specs.Prelude.{ℕ, List, slice_range};
    ghost use Rattle.std.specs.Rc.{rc_str_bytes};
    ghost use Rattle.jsonc_text.specs.Text.{Spans};

    ghost Value = { List ℕ };

    ghost view = { λ p. slice_range (rc_str_bytes p.whole) p.start p.end };

    ghost invariant = { λ p. Spans (rc_str_bytes p.whole) p.start p.end };
}

impl<A: Allocator> Part<A> {
    /// The part of a text between two places, of which it is one more owner. It takes no memory of
    /// its own.
    ///
    /// When a text takes no more owners, the contract of its clone leaves open, and so does this one.
    pub fn new(whole: &RcStr<A>, start: usize, end: usize) -> Result<Part<A>, AllocError>
        requires { Spans (rc_str_bytes whole.now) start end }
        ensures { IfOk result (λ part. part ≡ slice_range (rc_str_bytes whole.now) start end) }
    {
        let whole = whole.clone()?;
        Ok(Part { whole, start, end })
    }

    /// One more part of the same text, between the same places.
    pub fn try_clone(&self) -> Result<Part<A>, AllocError>
        ensures { IfOk result (λ part. part ≡ self.now) }
    {
        let whole = self.whole.clone()?;
        Ok(Part {
            whole,
            start: self.start,
            end: self.end,
        })
    }

    /// The text of the part.
    pub fn as_str(&self) -> &str
        ensures { result.now ≡ self.now }
    {
        &self.whole.as_str()[self.start..self.end]
    }
}
