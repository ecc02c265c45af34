//! What a piece is for its layout.
ghost use Rattle.std.specs.Prelude.{◌≡◌, ◌<◌, ◌-◌, ◌^◌};
ghost use Rattle.jsonc_format.specs.Classes.{class_by, opens_by, is_brace, closes_by, separates_by};
ghost use Rattle.jsonc_format.specs.Styles.{depth_after};

use jsonc_scan::found::TokenKind;

/// A lexeme or comment, told apart as far as its layout depends on it.
#[derive(Clone, Copy, Drop)]
pub(crate) enum Class {
    OpenArray,
    OpenObject,
    Close,
    Comma,
    Colon,
    Literal,
    BlockComment,
    LineComment,
}

impl Class {
    /// Of a token of this kind.
    pub(crate) fn of(kind: TokenKind) -> Class
        ensures { result ≡ class_by kind }
    {
        match kind {
            TokenKind::OpenBrace => Class::OpenObject,
            TokenKind::OpenBracket => Class::OpenArray,
            TokenKind::CloseBrace => Class::Close,
            TokenKind::CloseBracket => Class::Close,
            TokenKind::Comma => Class::Comma,
            TokenKind::Colon => Class::Colon,
            TokenKind::CommentLine => Class::LineComment,
            TokenKind::CommentBlock => Class::BlockComment,
            TokenKind::String => Class::Literal,
            TokenKind::Plain => Class::Literal,
            TokenKind::Passed => Class::Literal,
            TokenKind::Word => Class::Literal,
            TokenKind::True => Class::Literal,
            TokenKind::False => Class::Literal,
            TokenKind::Number => Class::Literal,
            TokenKind::Null => Class::Literal,
        }
    }

    /// Whether it opens a container.
    pub(crate) fn opens(self) -> bool
        ensures { result ≡ opens_by self }
    {
        match self {
            Class::OpenArray => true,
            Class::OpenObject => true,
            _ => false,
        }
    }

    /// Whether it opens an object.
    pub(crate) fn is_brace(self) -> bool
        ensures { result ≡ is_brace self }
    {
        match self {
            Class::OpenObject => true,
            _ => false,
        }
    }

    /// Whether it closes one.
    pub(crate) fn closes(self) -> bool
        ensures { result ≡ closes_by self }
    {
        match self {
            Class::Close => true,
            _ => false,
        }
    }

    /// The number of open containers after it, where so many are open before it.
    pub(crate) fn depth_after(self, depth: usize) -> usize
        requires { depth < 2 ^ 64 - 1 }
        ensures { result ≡ depth_after (opens_by self) (closes_by self) depth }
    {
        match self {
            Class::OpenArray => depth + 1,
            Class::OpenObject => depth + 1,
            Class::Close => depth.saturating_sub(1),
            _ => depth,
        }
    }

    /// Whether it is a comma or a colon.
    pub(crate) fn separates(self) -> bool
        ensures { result ≡ separates_by self }
    {
        match self {
            Class::Comma => true,
            Class::Colon => true,
            _ => false,
        }
    }
}
