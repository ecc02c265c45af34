//! What is known after a piece.
ghost use Rattle.std.specs.Prelude.{◌≡◌, ◌∷◌, [], None, OnOk};

use crate::class::Class;
use std::alloc::{AllocError, Allocator};

/// An open array or object: whether it is an object, whether it is on several lines, and whether its lines have one level
/// of indent more.
#[derive(Clone, Copy, Drop)]
pub(crate) struct Frame {
    pub object: bool,
    pub spread: bool,
    pub shifted: bool,
}

/// What is known after a piece beside the open containers: whether it opened one, whether a property has begun and its
/// value has not, whether a line comment is in that property, and whether the piece is a comment, and a line comment.
#[derive(Clone, Copy, Drop)]
pub(crate) struct Beside {
    pub bare: bool,
    pub in_property: bool,
    pub shifted: bool,
    pub comment: bool,
    pub line: bool,
}

impl Beside {
    ghost use Rattle.jsonc_format.specs.Writing.{start_beside, beside_after};

    /// Before the first piece.
    pub(crate) fn start() -> Beside
        ensures { result ≡ start_beside }
    {
        Beside {
            bare: false,
            in_property: false,
            shifted: false,
            comment: false,
            line: false,
        }
    }

    /// After a piece, where the innermost open container is an object or not.
    pub(crate) fn after(self, class: Class, object: bool) -> Beside
        ensures { result ≡ beside_after class object self }
    {
        let mut next = Beside::start();
        match class {
            Class::OpenArray => next.bare = true,
            Class::OpenObject => next.bare = true,
            Class::Close => {}
            Class::Comma => {}
            Class::Colon => {
                next.in_property = true;
                next.shifted = self.shifted;
            }
            Class::Literal => next.in_property = object && !self.in_property,
            Class::BlockComment => {
                next.in_property = self.in_property;
                next.shifted = self.shifted;
                next.comment = true;
            }
            Class::LineComment => {
                next.in_property = self.in_property;
                next.shifted = self.in_property || self.shifted;
                next.comment = true;
                next.line = true;
            }
        }
        next
    }
}

/// The open containers: the innermost, and those around it, of which the last is next to it.
#[derive(Drop)]
pub(crate) struct Open<A: Allocator> {
    pub inner: Option<Frame>,
    pub outer: Vec<Frame, A>,
    pub ghost innermost: { inner ≡ None → outer.items ≡ [] },
}

impl<A: Allocator> Open<A> {
    ghost use Rattle.jsonc_format.specs.Writing.{open_frames, frame_of};
    ghost use Rattle.jsonc_format.specs.Format.{without_first, is_object};

    /// One more.
    pub(crate) fn push(&mut self, frame: Frame) -> Result<(), AllocError>
        ensures { OnOk result (open_frames self.new ≡ frame_of frame ∷ open_frames self.old) }
    {
        if let Some(inner) = self.inner {
            self.outer.push(inner)?;
        }
        self.inner = Some(frame);
        Ok(())
    }

    /// Without the innermost.
    pub(crate) fn pop(&mut self)
        ensures { open_frames self.new ≡ without_first (open_frames self.old) }
    {
        self.inner = self.outer.pop();
    }

    /// Whether the innermost is an object.
    pub(crate) fn is_object(&self) -> bool
        ensures { result ≡ is_object (open_frames self.now) }
    {
        match self.inner {
            Some(frame) => frame.object,
            None => false,
        }
    }
}
