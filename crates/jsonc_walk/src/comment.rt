//! Comments, and where they stand in their text.
ghost use Rattle.std.specs.Prelude.{◌≡◌, Ok};
ghost use Rattle.jsonc_walk.specs.Comment.{comment_text, comment_kind, comment_range};

use jsonc_text::common::{Range, Ranged};
use std::alloc::AllocError;

/// The kind of a comment.
#[derive(Clone, Copy, Debug, PartialEq, Eq)]
pub enum CommentKind {
    /// `//`, up to the end of the line.
    Line,
    /// `/*`, up to the next `*/`.
    Block,
}

/// A comment to the end of its line, as `// why`.
#[derive(Clone, Debug, PartialEq, Eq, Drop)]
pub struct CommentLine<'a> {
    pub range: Range,
    /// What stands after its `//`.
    pub text: &'a str,
}

/// A comment between marks, as `/* why */`.
#[derive(Clone, Debug, PartialEq, Eq, Drop)]
pub struct CommentBlock<'a> {
    pub range: Range,
    /// What stands between its `/*` and its `*/`.
    pub text: &'a str,
}

/// A comment.
#[derive(Clone, Debug, PartialEq, Eq, Drop)]
pub enum Comment<'a> {
    Line(CommentLine<'a>),
    Block(CommentBlock<'a>),
}

impl<'a> CommentLine<'a> {
    /// A copy of the comment, with the same range. Nothing is allocated.
    pub fn try_clone(&self) -> Result<Self, AllocError>
        ensures { result ≡ Ok self.now }
    {
        Ok(CommentLine {
            range: self.range,
            text: self.text,
        })
    }
}

impl<'a> CommentBlock<'a> {
    /// A copy of the comment, with the same range. Nothing is allocated.
    pub fn try_clone(&self) -> Result<Self, AllocError>
        ensures { result ≡ Ok self.now }
    {
        Ok(CommentBlock {
            range: self.range,
            text: self.text,
        })
    }
}

impl<'a> Comment<'a> {
    /// A copy of the comment, with the same range. Nothing is allocated.
    pub fn try_clone(&self) -> Result<Self, AllocError>
        ensures { result ≡ Ok self.now }
    {
        match self {
            Comment::Line(line) => Ok(Comment::Line(line.try_clone()?)),
            Comment::Block(block) => Ok(Comment::Block(block.try_clone()?)),
        }
    }

    /// The text between its marks.
    pub fn text(&self) -> &'a str
        ensures { result ≡ comment_text self.now }
    {
        match self {
            Comment::Line(line) => line.text,
            Comment::Block(block) => block.text,
        }
    }

    /// Its kind.
    pub fn kind(&self) -> CommentKind
        ensures { result ≡ comment_kind self.now }
    {
        match self {
            Comment::Line(_) => CommentKind::Line,
            Comment::Block(_) => CommentKind::Block,
        }
    }
}

impl<'a> Ranged for CommentLine<'a> {
    ghost range_of = { λ x. x.range };

    fn range(&self) -> Range {
        self.range
    }
}

impl<'a> Ranged for CommentBlock<'a> {
    ghost range_of = { λ x. x.range };

    fn range(&self) -> Range {
        self.range
    }
}

impl<'a> Ranged for Comment<'a> {
    ghost range_of = { λ x. comment_range x };

    fn range(&self) -> Range {
        match self {
            Comment::Line(line) => line.range,
            Comment::Block(block) => block.range,
        }
    }
}
