//! How a text is formatted.
ghost use Rattle.std.specs.Prelude.{◌≡◌, chars};
ghost use Rattle.jsonc_format.specs.Wishes.{line_end_text, level_text};

use std::default::Default;

/// What ends a line.
#[derive(Clone, Copy, Debug, PartialEq, Eq, Drop)]
pub enum LineEnd {
    /// LF, as on Unix.
    Lf,
    /// CR and LF, as on Windows.
    CrLf,
    /// CR alone.
    Cr,
}

impl LineEnd {
    /// Its characters.
    pub fn as_str(self) -> &'static str
        ensures { chars result.now ≡ line_end_text self }
    {
        match self {
            LineEnd::Lf => "\n",
            LineEnd::CrLf => "\r\n",
            LineEnd::Cr => "\r",
        }
    }
}

/// One level of indent.
#[derive(Clone, Copy, Debug, PartialEq, Eq, Drop)]
pub enum Level {
    /// So many spaces; more than eight are eight.
    Spaces(u8),
    /// A tab.
    Tab,
}

impl Level {
    /// Its characters.
    pub fn as_str(self) -> &'static str
        ensures { chars result.now ≡ level_text self }
    {
        match self {
            Level::Tab => "\t",
            Level::Spaces(0) => "",
            Level::Spaces(1) => " ",
            Level::Spaces(2) => "  ",
            Level::Spaces(3) => "   ",
            Level::Spaces(4) => "    ",
            Level::Spaces(5) => "     ",
            Level::Spaces(6) => "      ",
            Level::Spaces(7) => "       ",
            Level::Spaces(_) => "        ",
        }
    }
}

/// How a text is formatted. What is `None` is taken from the text.
#[derive(Clone, Copy, Debug, PartialEq, Eq, Drop)]
pub struct Style {
    /// How lines end: otherwise as the first one that ends outside of literals and comments does, or with LF.
    pub line_end: Option<LineEnd>,
    /// One level of indent: otherwise the first indent in the value that is not empty, or two spaces.
    pub level: Option<Level>,
    /// Whether each array and object that is not empty is put on several lines, also one that is on one line.
    pub expand: bool,
}

impl Default for Style {
    /// The line end and the indent of the text; what is on one line stays on it.
    fn default() -> Style {
        Style {
            line_end: None,
            level: None,
            expand: false,
        }
    }
}
