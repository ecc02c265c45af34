//! What is found in a text, and how it is printed.

ghost use Rattle.std.specs.Prelude.{◌≡◌, Some};
ghost use Rattle.std.specs.Fmt.{decimal, WritesOnOk, WritesStyledOnOk};
ghost use Rattle.jsonc_lint.specs.Messages.{first_text, kind_name};

use jsonc_parser::common::Range;
use jsonc_parser::errors::ParseErrorKind;
use jsonc_parser::patch::write_repeated_name;
use std::alloc::Allocator;
use std::fmt;

/// The first property of a name in its object.
#[derive(Clone, Copy, Debug, PartialEq, Eq, Drop)]
pub struct FirstProperty {
    /// The byte of the text where it begins.
    pub start: usize,
    /// The line of that byte, counted from 1.
    pub line: usize,
    /// Its column in characters, counted from 1.
    pub column: usize,
}

/// What is found.
///
/// Its `Display` is what is told of it, without any place: `Expected comma`, or `Name stands twice: "a"`.
#[derive(Debug, Drop)]
pub enum FindingKind<A: Allocator> {
    /// The text is no document, and this is wrong with it.
    Fault(ParseErrorKind),
    /// A property whose name an earlier property of its object has: the name, its escapes decoded, and the first
    /// property that has it.
    RepeatedName(String<A>, FirstProperty),
    /// A comment that says `TODO`.
    Todo,
    /// A comma after the last element or property.
    TrailingComma,
}

/// What is found at a place of a text.
///
/// Its `Display` is one line, without the place: `Expected comma`, or
/// `Name stands twice: "a", first on line 2 column 3`.
#[derive(Debug, Drop)]
pub struct Finding<A: Allocator> {
    /// What is found.
    pub kind: FindingKind<A>,
    /// The bytes of the text where it is: those of the fault, the property, the comment or the comma.
    pub range: Range,
    /// The line of the range's start, counted from 1.
    pub line: usize,
    /// The column of the range's start in characters, counted from 1.
    pub column: usize,
}

/// What is found in a text, in order of place.
pub type Findings<A> = Vec<Finding<A>, A>;

// Writes a number in decimal, whatever the options of the format.
fn write_number<W: fmt::Write>(number: usize, f: &mut fmt::Formatter<W>) -> fmt::Result
    ensures writes { WritesOnOk W.write_str_gives f.old result (decimal number) f.new }
    ensures styled { WritesStyledOnOk W.write_str_gives f.old result (decimal number) f.new }
{
    let mut digits = itoa::Buffer::new();
    f.write_str(digits.format(number))
}

// Writes where the first property of a name is.
fn write_first<W: fmt::Write>(first: FirstProperty, f: &mut fmt::Formatter<W>) -> fmt::Result
    ensures writes { WritesOnOk W.write_str_gives f.old result (first_text first) f.new }
    ensures styled { WritesStyledOnOk W.write_str_gives f.old result (first_text first) f.new }
{
    f.write_str(", first on line ")?;
    write_number(first.line, f)?;
    f.write_str(" column ")?;
    write_number(first.column, f)
}

impl<A: Allocator> FindingKind<A> {
    /// Its name in JSON: `fault`, `repeated-name`, `todo` or `trailing-comma`.
    pub fn name(&self) -> &'static str
        ensures { result.now ≡ kind_name self.now }
    {
        match self {
            FindingKind::Fault(_) => "fault",
            FindingKind::RepeatedName(_, _) => "repeated-name",
            FindingKind::Todo => "todo",
            FindingKind::TrailingComma => "trailing-comma",
        }
    }
}

impl<A: Allocator> fmt::Display for FindingKind<A> {
    ghost use Rattle.jsonc_lint.specs.Messages.{told};

    ghost output = { λ kind. Some (told kind) };

    ghost styled_output = { λ kind _. Some (told kind) };

    fn fmt<W: fmt::Write>(&self, f: &mut fmt::Formatter<W>) -> fmt::Result {
        match self {
            FindingKind::Fault(kind) => kind.fmt(f),
            FindingKind::RepeatedName(name, _) => write_repeated_name(name.as_str(), f),
            FindingKind::Todo => f.write_str("Comment says TODO"),
            FindingKind::TrailingComma => f.write_str("Trailing comma"),
        }
    }
}

impl<A: Allocator> fmt::Display for Finding<A> {
    ghost use Rattle.jsonc_lint.specs.Messages.{message};

    ghost output = { λ finding. Some (message finding.kind) };

    ghost styled_output = { λ finding _. Some (message finding.kind) };

    fn fmt<W: fmt::Write>(&self, f: &mut fmt::Formatter<W>) -> fmt::Result {
        match &self.kind {
            FindingKind::RepeatedName(name, first) => {
                write_repeated_name(name.as_str(), f)?;
                write_first(*first, f)
            }
            kind => kind.fmt(f),
        }
    }
}
