//! What a node is.

ghost use Rattle.std.specs.Prelude.{◌≡◌, ◌≤◌, ◌<◌, ◌+◌, ◌-◌, ◌^◌, true, false, None, Some, option_map, IfSome};
ghost use Rattle.jsonc_tree.specs.Content.{is_container, is_newline, kept_text, newline_text};
ghost use Rattle.jsonc_tree.specs.Stored.{bare, content_of, first_end, last_end, no_ends};

mod copies;

use crate::link::{Link, WideLink};
use crate::part::Part;
use crate::token::TokenChar;
use std::alloc::Allocator;
use std::marker::Model;

/// How a line ends. By default by LF.
#[derive(Clone, Copy, PartialEq, Eq, Debug)]
pub enum CstNewlineKind {
    LineFeed,
    CarriageReturnLineFeed,
    CarriageReturn,
}

impl Default for CstNewlineKind {
    fn default() -> Self
        ensures { result ≡ CstNewlineKind.LineFeed }
    {
        CstNewlineKind::LineFeed
    }
}

impl CstNewlineKind {
    /// The text of this end of a line: `"\n"`, `"\r\n"` or `"\r"`.
    #[inline(always)]
    pub fn as_str(self) -> &'static str
        ensures { result.now ≡ newline_text self }
    {
        match self {
            CstNewlineKind::LineFeed => "\n",
            CstNewlineKind::CarriageReturnLineFeed => "\r\n",
            CstNewlineKind::CarriageReturn => "\r",
        }
    }
}

/// The first and the last child of a container, where it has any.
#[derive(Drop)]
pub struct Ends {
    first: WideLink,
    last: WideLink,
}

impl Ends {
    /// The ends of a container without children, as every container begins.
    pub fn none() -> Ends
        ensures { result ≡ no_ends }
    {
        Ends {
            first: WideLink::from_option(None),
            last: WideLink::from_option(None),
        }
    }

    fn copied(&self) -> Ends
        ensures { result ≡ self.now }
    {
        Ends {
            first: self.first.copied(),
            last: self.last.copied(),
        }
    }

    fn set_first(&mut self, to: Option<usize>)
        requires { IfSome to (λ n. n < 2 ^ 32 - 1) }
        ensures first { self.new.first ≡ to }
        ensures last { self.new.last ≡ self.old.last }
    {
        self.first = WideLink::from_option(to);
    }

    fn set_last(&mut self, to: Option<usize>)
        requires { IfSome to (λ n. n < 2 ^ 32 - 1) }
        ensures first { self.new.first ≡ self.old.first }
        ensures last { self.new.last ≡ to }
    {
        self.last = WideLink::from_option(to);
    }
}

/// What a node is, a leaf with its text, a container with its first and last child.
///
/// The text of a string has its quotes, that of a comment its marks. A leaf that was parsed has a part
/// of the document's text, one that was made anew a text of its own.
#[derive(Drop)]
pub enum Kind<A: Allocator> {
    Root(Ends),
    Object(Ends),
    Array(Ends),
    Property(Ends),
    String(String<A>),
    Word(String<A>),
    Number(String<A>),
    Boolean(bool),
    Null,
    Token(TokenChar),
    Whitespace(String<A>),
    Newline(CstNewlineKind),
    Comment(String<A>),
    StringPart(Part<A>),
    WordPart(Part<A>),
    NumberPart(Part<A>),
    WhitespacePart(Part<A>),
    CommentPart(Part<A>),
}

impl<A: Allocator> Kind<A> {
    /// A token of one character.
    pub fn token(c: char) -> Kind<A>
        ensures { result ≡ Kind.Token c }
    {
        Kind::Token(TokenChar::new(c))
    }

    /// Whether a node of this kind may have children: the root, an object, an array or a property.
    pub fn is_container(&self) -> bool
        ensures { result ≡ is_container (content_of self.now) }
    {
        match self {
            Kind::Root(_) | Kind::Object(_) | Kind::Array(_) | Kind::Property(_) => true,
            _ => false,
        }
    }

    /// Whether a node of this kind is the end of a line.
    #[inline(always)]
    pub fn is_newline(&self) -> bool
        ensures { result ≡ is_newline (content_of self.now) }
    {
        match self {
            Kind::Newline(_) => true,
            _ => false,
        }
    }

    /// The text that a leaf keeps: a string, word, number, whitespace or comment.
    pub fn text(&self) -> Option<&str>
        ensures { option_map (λ s. s.now) result ≡ kept_text (content_of self.now) }
    {
        match self {
            Kind::String(s)
            | Kind::Word(s)
            | Kind::Number(s)
            | Kind::Whitespace(s)
            | Kind::Comment(s) => Some(s.as_str()),
            Kind::StringPart(s)
            | Kind::WordPart(s)
            | Kind::NumberPart(s)
            | Kind::WhitespacePart(s)
            | Kind::CommentPart(s) => Some(s.as_str()),
            _ => None,
        }
    }

    fn first(&self) -> Option<usize>
        ensures { result ≡ first_end self.now }
    {
        match self {
            Kind::Root(ends) | Kind::Object(ends) | Kind::Array(ends) | Kind::Property(ends) => {
                ends.first.get()
            }
            _ => None,
        }
    }

    fn last(&self) -> Option<usize>
        ensures { result ≡ last_end self.now }
    {
        match self {
            Kind::Root(ends) | Kind::Object(ends) | Kind::Array(ends) | Kind::Property(ends) => {
                ends.last.get()
            }
            _ => None,
        }
    }

    // A container gets this first child.
    fn set_first(&mut self, to: Option<usize>)
        requires container { is_container (content_of self.old) ≡ true }
        requires to { IfSome to (λ n. n < 2 ^ 32 - 1) }
        ensures content { content_of self.new ≡ content_of self.old }
        ensures first { first_end self.new ≡ to }
        ensures last { last_end self.new ≡ last_end self.old }
    {
        match self {
            Kind::Root(ends) => ends.set_first(to),
            Kind::Object(ends) => ends.set_first(to),
            Kind::Array(ends) => ends.set_first(to),
            Kind::Property(ends) => ends.set_first(to),
            _ => {}
        }
    }

    // A container gets this last child.
    fn set_last(&mut self, to: Option<usize>)
        requires container { is_container (content_of self.old) ≡ true }
        requires to { IfSome to (λ n. n < 2 ^ 32 - 1) }
        ensures content { content_of self.new ≡ content_of self.old }
        ensures first { first_end self.new ≡ first_end self.old }
        ensures last { last_end self.new ≡ to }
    {
        match self {
            Kind::Root(ends) => ends.set_last(to),
            Kind::Object(ends) => ends.set_last(to),
            Kind::Array(ends) => ends.set_last(to),
            Kind::Property(ends) => ends.set_last(to),
            _ => {}
        }
    }
}

// The same kind, a container without children.
fn without_children<A: Allocator>(kind: Kind<A>) -> Kind<A>
    ensures content { content_of result ≡ content_of kind }
    ensures first { first_end result ≡ None }
    ensures last { last_end result ≡ None }
{
    match kind {
        Kind::Root(_) => Kind::Root(Ends::none()),
        Kind::Object(_) => Kind::Object(Ends::none()),
        Kind::Array(_) => Kind::Array(Ends::none()),
        Kind::Property(_) => Kind::Property(Ends::none()),
        leaf => leaf,
    }
}

// A node as it is stored: its neighbours are those among its parent's children. A container counts the
// ends of lines among its own.
#[derive(Drop)]
pub(crate) struct Node<A: Allocator> {
    kind: Kind<A>,
    parent: Link,
    previous: Link,
    next: Link,
    lines: u32,
}

impl<A: Allocator> Model for Node<A> {
    ghost use Rattle.jsonc_tree.specs.Stored.{LinkedNode, content_of, first_end, last_end};

    ghost Value = { LinkedNode };

    ghost view = { λ n. record {
      content = content_of n.kind;
      parent = n.parent;
      previous = n.previous;
      next = n.next;
      first = first_end n.kind;
      last = last_end n.kind;
      lines = n.lines;
    } };
}

// A node that is detached, and has none.
pub(crate) fn bare_node<A: Allocator>(kind: Kind<A>) -> Node<A>
    ensures { result ≡ bare (content_of kind) }
{
    Node {
        kind: without_children(kind),
        parent: Link::from_option(None),
        previous: Link::from_option(None),
        next: Link::from_option(None),
        lines: 0,
    }
}

// A node that stands after this one in a container's row, at its end.
#[inline(always)]
pub(crate) fn node_in<A: Allocator>(
    kind: Kind<A>,
    parent: usize,
    previous: Option<usize>,
) -> Node<A>
    requires parent { parent < 2 ^ 32 - 1 }
    requires previous { IfSome previous (λ n. n < 2 ^ 32 - 1) }
    ensures { result ≡ record (bare (content_of kind)) { parent = Some parent; previous = previous } }
{
    Node {
        kind: without_children(kind),
        parent: Link::from_option(Some(parent)),
        previous: Link::from_option(previous),
        next: Link::from_option(None),
        lines: 0,
    }
}

impl<A: Allocator> Node<A> {
    pub(crate) fn kind(&self) -> &Kind<A>
        ensures { content_of result.now ≡ self.now.content }
    {
        &self.kind
    }

    pub(crate) fn parent(&self) -> Option<usize>
        ensures { result ≡ self.now.parent }
    {
        self.parent.get()
    }

    pub(crate) fn previous(&self) -> Option<usize>
        ensures { result ≡ self.now.previous }
    {
        self.previous.get()
    }

    pub(crate) fn next(&self) -> Option<usize>
        ensures { result ≡ self.now.next }
    {
        self.next.get()
    }

    pub(crate) fn first(&self) -> Option<usize>
        ensures { result ≡ self.now.first }
    {
        self.kind.first()
    }

    pub(crate) fn last(&self) -> Option<usize>
        ensures { result ≡ self.now.last }
    {
        self.kind.last()
    }

    pub(crate) fn lines(&self) -> u32
        ensures { result ≡ self.now.lines }
    {
        self.lines
    }

    // A leaf becomes another.
    pub(crate) fn set_leaf(&mut self, kind: Kind<A>)
        requires leaf { is_container self.old.content ≡ false }
        requires stays { is_container (content_of kind) ≡ false }
        ensures { self.new ≡ record self.old { content = content_of kind } }
    {
        self.kind = kind;
    }

    pub(crate) fn set_first(&mut self, to: Option<usize>)
        requires container { is_container self.old.content ≡ true }
        requires to { IfSome to (λ n. n < 2 ^ 32 - 1) }
        ensures { self.new ≡ record self.old { first = to } }
    {
        self.kind.set_first(to);
    }

    pub(crate) fn set_last(&mut self, to: Option<usize>)
        requires container { is_container self.old.content ≡ true }
        requires to { IfSome to (λ n. n < 2 ^ 32 - 1) }
        ensures { self.new ≡ record self.old { last = to } }
    {
        self.kind.set_last(to);
    }

    // One more end of a line is counted.
    pub(crate) fn add_line(&mut self)
        requires { self.old.lines + 1 < 2 ^ 32 }
        ensures { self.new ≡ record self.old { lines = self.old.lines + 1 } }
    {
        self.lines += 1;
    }

    // One fewer is counted.
    pub(crate) fn remove_line(&mut self)
        requires { 1 ≤ self.old.lines }
        ensures { self.new ≡ record self.old { lines = self.old.lines - 1 } }
    {
        self.lines -= 1;
    }

    pub(crate) fn set_previous(&mut self, to: Option<usize>)
        requires { IfSome to (λ n. n < 2 ^ 32 - 1) }
        ensures { self.new ≡ record self.old { previous = to } }
    {
        self.previous = Link::from_option(to);
    }

    pub(crate) fn set_next(&mut self, to: Option<usize>)
        requires { IfSome to (λ n. n < 2 ^ 32 - 1) }
        ensures { self.new ≡ record self.old { next = to } }
    {
        self.next = Link::from_option(to);
    }

    // Its parent and its neighbours are these.
    pub(crate) fn set_place(
        &mut self,
        parent: Option<usize>,
        previous: Option<usize>,
        next: Option<usize>,
    )
        requires parent { IfSome parent (λ n. n < 2 ^ 32 - 1) }
        requires previous { IfSome previous (λ n. n < 2 ^ 32 - 1) }
        requires next { IfSome next (λ n. n < 2 ^ 32 - 1) }
        ensures { self.new ≡ record self.old { parent = parent; previous = previous; next = next } }
    {
        self.parent = Link::from_option(parent);
        self.previous = Link::from_option(previous);
        self.next = Link::from_option(next);
    }
}
