//! Copies of nodes.

ghost use Rattle.std.specs.Prelude.{◌≡◌, IfOk};
ghost use Rattle.jsonc_tree.specs.Stored.{content_of, first_end, last_end};

use super::{Kind, Node};
use std::alloc::{AllocError, Allocator};

impl<A: Allocator + Copy> Kind<A> {
    // A copy, with the same ends. Only that of a leaf with a text of its own takes memory.
    fn try_clone(&self) -> Result<Kind<A>, AllocError>
        ensures content { IfOk result (λ k. content_of k ≡ content_of self.now) }
        ensures first { IfOk result (λ k. first_end k ≡ first_end self.now) }
        ensures last { IfOk result (λ k. last_end k ≡ last_end self.now) }
    {
        Ok(match self {
            Kind::Root(ends) => Kind::Root(ends.copied()),
            Kind::Object(ends) => Kind::Object(ends.copied()),
            Kind::Array(ends) => Kind::Array(ends.copied()),
            Kind::Property(ends) => Kind::Property(ends.copied()),
            Kind::String(text) => Kind::String(text.clone()?),
            Kind::Word(text) => Kind::Word(text.clone()?),
            Kind::Number(text) => Kind::Number(text.clone()?),
            Kind::Boolean(value) => Kind::Boolean(*value),
            Kind::Null => Kind::Null,
            Kind::Token(c) => Kind::Token(c.copied()),
            Kind::Whitespace(text) => Kind::Whitespace(text.clone()?),
            Kind::Newline(kind) => Kind::Newline(*kind),
            Kind::Comment(text) => Kind::Comment(text.clone()?),
            Kind::StringPart(text) => Kind::StringPart(text.try_clone()?),
            Kind::WordPart(text) => Kind::WordPart(text.try_clone()?),
            Kind::NumberPart(text) => Kind::NumberPart(text.try_clone()?),
            Kind::WhitespacePart(text) => Kind::WhitespacePart(text.try_clone()?),
            Kind::CommentPart(text) => Kind::CommentPart(text.try_clone()?),
        })
    }
}

impl<A: Allocator + Copy> Node<A> {
    // A copy, with the same links.
    pub(crate) fn try_clone(&self) -> Result<Node<A>, AllocError>
        ensures { IfOk result (λ node. node ≡ self.now) }
    {
        let kind = self.kind.try_clone()?;
        Ok(Node {
            kind,
            parent: self.parent.copied(),
            previous: self.previous.copied(),
            next: self.next.copied(),
            lines: self.lines,
        })
    }
}
