//! What can be wrong with a text, and where. Each fault is told of a range of bytes and prints as
//! one line, as `Expected comma on line 3 column 7`.
ghost use Rattle.std.specs.Prelude.{◌≡◌, ◌≢◌, ◌++◌, Some};
ghost use Rattle.std.specs.Fmt.{decimal, WritesOnOk, WritesStyledOnOk};
ghost use Rattle.std.specs.Prelude.{codes};
ghost use Rattle.jsonc_text.specs.Messages.{digits_text, string_kind_text, kind_text, surrogate_text, error_text};

use crate::common::Range;
use crate::line::line_and_column;
use std::error::Error;
use std::fmt;

/// Why four hex digits after `\u` stand for no character.
#[derive(Clone, Copy, Debug, PartialEq, Eq, Hash, Drop)]
pub enum SurrogateFault {
    /// The first half of a pair, which no `\u` follows.
    UnpairedHighSurrogate,
    /// The first half of a pair, which `\u` and four digits of no second half follow.
    HighSurrogateNotFollowedByLowSurrogate,
    /// The second half of a pair, which stands alone.
    UnpairedLowSurrogate,
}

impl SurrogateFault {
    fn text(&self) -> &'static str
        ensures { result.now ≡ surrogate_text self.now }
    {
        match self {
            SurrogateFault::UnpairedHighSurrogate => "unpaired high surrogate",
            SurrogateFault::HighSurrogateNotFollowedByLowSurrogate => {
                "high surrogate not followed by low surrogate"
            }
            SurrogateFault::UnpairedLowSurrogate => "unpaired low surrogate",
        }
    }
}

/// What is wrong with a string.
#[derive(Clone, Copy, Debug, PartialEq, Eq, Hash, Drop)]
pub enum ParseStringErrorKind {
    /// `\"` between single quotes, where only the escapes of JSON are taken.
    InvalidEscapeInSingleQuoteString,
    /// `\'` between double quotes, where only the escapes of JSON are taken.
    InvalidEscapeInDoubleQuoteString,
    /// `\u` without four hex digits after it.
    ExpectedFourHexDigits,
    /// `\x` without two hex digits after it.
    ExpectedTwoHexDigits,
    /// `\u` with four hex digits, these as they are written, that stand for no character, and why.
    InvalidUnicodeEscapeSequence([u8; 4], SurrogateFault),
    /// A backslash before anything else that it may not stand before.
    InvalidEscape,
    /// No closing quote before the end of the text.
    UnterminatedStringLiteral,
    /// No memory for the decoded string.
    OutOfMemory,
}

impl fmt::Display for ParseStringErrorKind {
    ghost output = { λ k. Some (string_kind_text k) };

    ghost styled_output = { λ k _. Some (string_kind_text k) };

    fn fmt<W: fmt::Write>(&self, f: &mut fmt::Formatter<W>) -> fmt::Result {
        match self {
            ParseStringErrorKind::InvalidEscapeInSingleQuoteString => f.write_str(
                "Invalid escape in single quote string",
            ),
            ParseStringErrorKind::InvalidEscapeInDoubleQuoteString => f.write_str(
                "Invalid escape in double quote string",
            ),
            ParseStringErrorKind::ExpectedFourHexDigits => f.write_str("Expected four hex digits"),
            ParseStringErrorKind::ExpectedTwoHexDigits => f.write_str("Expected two hex digits"),
            ParseStringErrorKind::InvalidUnicodeEscapeSequence(digits, fault) => {
                f.write_str("Invalid unicode escape sequence. '")?;
                write_digits(*digits, f)?;
                f.write_str(" (")?;
                f.write_str(fault.text())?;
                f.write_str(")' is not a valid UTF8 character")
            }
            ParseStringErrorKind::InvalidEscape => f.write_str("Invalid escape"),
            ParseStringErrorKind::UnterminatedStringLiteral => f.write_str(
                "Unterminated string literal",
            ),
            ParseStringErrorKind::OutOfMemory => f.write_str("Out of memory"),
        }
    }
}

/// Writes four digits as they stand in a text.
fn write_digits<W: fmt::Write>(digits: [u8; 4], f: &mut fmt::Formatter<W>) -> fmt::Result
    ensures writes { WritesOnOk W.write_str_gives f.old result (digits_text digits) f.new }
    ensures styled { WritesStyledOnOk W.write_str_gives f.old result (digits_text digits) f.new }
{
    let [a, b, c, d] = digits;
    f.write_char(a as char)?;
    f.write_char(b as char)?;
    f.write_char(c as char)?;
    f.write_char(d as char)
}

impl Error for ParseStringErrorKind {}

/// What is wrong with a text.
#[derive(Clone, Copy, Debug, PartialEq, Eq, Drop)]
pub enum ParseErrorKind {
    /// A number that begins or ends with its decimal point, where the options forbid it.
    BareDecimalPointNumbersNotAllowed,
    /// A comment, where the options forbid it.
    CommentsNotAllowed,
    /// No `:` after the name of a property.
    ExpectedColonAfterObjectKey,
    /// The text ends after the `:` of a property.
    ExpectedObjectValue,
    /// No digit after `0x`, `0X` or the sign of an exponent.
    ExpectedDigit,
    /// No number after a sign, whichever of the two.
    ExpectedDigitFollowingNegativeSign,
    /// No exponent after `e` or `E`.
    ExpectedPlusMinusOrDigitInNumberLiteral,
    /// A name of a property that is no string, where the options forbid it.
    ExpectedStringObjectProperty,
    /// A hexadecimal number, where the options forbid it.
    HexadecimalNumbersNotAllowed,
    /// No comma between two neighbours, where the options ask for it.
    ExpectedComma,
    /// More after the value of the text.
    MultipleRootJsonValues,
    /// `Infinity` or `NaN` with a sign, where the options forbid it.
    NonFiniteNumbersNotAllowed,
    /// A string in single quotes, where the options forbid it.
    SingleQuotedStringsNotAllowed,
    /// A fault inside a string.
    String(ParseStringErrorKind),
    /// A comma after the last element or property, where the options forbid it.
    TrailingCommasNotAllowed,
    /// A number with a plus sign, where the options forbid it.
    UnaryPlusNumbersNotAllowed,
    /// A `}` where a value must stand.
    UnexpectedCloseBrace,
    /// A `]` where a value must stand.
    UnexpectedCloseBracket,
    /// A `:` where a value must stand.
    UnexpectedColon,
    /// A `,` where a value must stand.
    UnexpectedComma,
    /// A character that begins no token, or a word before a character that may not follow it.
    UnexpectedToken,
    /// Punctuation where the name of a property must stand.
    UnexpectedTokenInObject,
    /// A word where a value must stand.
    UnexpectedWord,
    /// The text ends inside an array.
    UnterminatedArray,
    /// No `*/` before the end of the text.
    UnterminatedCommentBlock,
    /// The text ends inside an object.
    UnterminatedObject,
    /// Values nested deeper than is taken.
    NestingDepthExceeded,
    /// An allocation failed. It has no bytes of the text: its range is 0 to 0, its line 1, its
    /// column 1.
    OutOfMemory,
}

impl fmt::Display for ParseErrorKind {
    ghost output = { λ k. Some (kind_text k) };

    ghost styled_output = { λ k _. Some (kind_text k) };

    fn fmt<W: fmt::Write>(&self, f: &mut fmt::Formatter<W>) -> fmt::Result {
        match self {
            ParseErrorKind::String(kind) => kind.fmt(f),
            _ => f.write_str(text_outside_strings(self)),
        }
    }
}

/// The text of a kind, but for faults inside a string.
fn text_outside_strings(kind: &ParseErrorKind) -> &'static str
    ensures { ((k : ParseStringErrorKind) → kind.now ≢ ParseErrorKind.String k) → result.now ≡ kind_text kind.now }
{
    match kind {
        ParseErrorKind::BareDecimalPointNumbersNotAllowed =>
            "Leading or trailing decimal points on numbers are not allowed",
        ParseErrorKind::CommentsNotAllowed => "Comments are not allowed",
        ParseErrorKind::ExpectedColonAfterObjectKey =>
            "Expected colon after the string or word in object property",
        ParseErrorKind::ExpectedObjectValue => "Expected value after colon in object property",
        ParseErrorKind::ExpectedDigit => "Expected digit",
        ParseErrorKind::ExpectedDigitFollowingNegativeSign =>
            "Expected digit following negative sign",
        ParseErrorKind::ExpectedPlusMinusOrDigitInNumberLiteral =>
            "Expected plus, minus, or digit in number literal",
        ParseErrorKind::ExpectedStringObjectProperty => "Expected string for object property",
        ParseErrorKind::HexadecimalNumbersNotAllowed => "Hexadecimal numbers are not allowed",
        ParseErrorKind::ExpectedComma => "Expected comma",
        ParseErrorKind::MultipleRootJsonValues => "Text cannot contain more than one JSON value",
        ParseErrorKind::NonFiniteNumbersNotAllowed => "Infinity and NaN are not allowed",
        ParseErrorKind::SingleQuotedStringsNotAllowed => "Single-quoted strings are not allowed",
        ParseErrorKind::TrailingCommasNotAllowed => "Trailing commas are not allowed",
        ParseErrorKind::UnaryPlusNumbersNotAllowed => "Unary plus on numbers is not allowed",
        ParseErrorKind::UnexpectedCloseBrace => "Unexpected close brace",
        ParseErrorKind::UnexpectedCloseBracket => "Unexpected close bracket",
        ParseErrorKind::UnexpectedColon => "Unexpected colon",
        ParseErrorKind::UnexpectedComma => "Unexpected comma",
        ParseErrorKind::UnexpectedToken => "Unexpected token",
        ParseErrorKind::UnexpectedTokenInObject => "Unexpected token in object",
        ParseErrorKind::UnexpectedWord => "Unexpected word",
        ParseErrorKind::UnterminatedArray => "Unterminated array",
        ParseErrorKind::UnterminatedCommentBlock => "Unterminated comment block",
        ParseErrorKind::UnterminatedObject => "Unterminated object",
        ParseErrorKind::NestingDepthExceeded => "Maximum nesting depth exceeded",
        ParseErrorKind::OutOfMemory => "Out of memory",
        ParseErrorKind::String(_) => "",
    }
}

/// A fault of a text, and where it is.
#[derive(Debug, Drop)]
pub struct ParseError {
    range: Range,
    line_display: usize,
    column_display: usize,
    kind: ParseErrorKind,
}

impl fmt::Display for ParseError {
    ghost output = { λ e. Some (error_text e) };

    ghost styled_output = { λ e _. Some (error_text e) };

    fn fmt<W: fmt::Write>(&self, f: &mut fmt::Formatter<W>) -> fmt::Result {
        self.kind.fmt(f)?;
        f.write_str(" on line ")?;
        write_number(self.line_display, f)?;
        f.write_str(" column ")?;
        write_number(self.column_display, f)
    }
}

/// Writes a number in decimal, with no blanks or zeros before it, whatever the options of the format.
fn write_number<W: fmt::Write>(number: usize, f: &mut fmt::Formatter<W>) -> fmt::Result
    ensures writes { WritesOnOk W.write_str_gives f.old result (decimal number) f.new }
    ensures styled { WritesStyledOnOk W.write_str_gives f.old result (decimal number) f.new }
{
    let mut digits = itoa::Buffer::new();
    f.write_str(digits.format(number))
}

impl Error for ParseError {}

impl ParseError {
    ghost use Rattle.jsonc_text.specs.Faults.{range_of, line_of, column_of, kind_of, IsFault, IsOutOfMemory};
    ghost use Rattle.jsonc_text.specs.Text.{Spans};

    /// The error of a fault at these bytes of a text.
    ///
    /// Line and column are those of the range's start. Nothing is allocated, and it takes time in
    /// proportion to the range's start.
    pub fn new(range: Range, kind: ParseErrorKind, text: &str) -> ParseError
        requires range { Spans text.now range.start range.end }
        requires kind { kind ≢ ParseErrorKind.OutOfMemory }
        ensures fault { IsFault text.now result }
        ensures range { range_of result ≡ range }
        ensures kind { kind_of result ≡ kind }
    {
        let at = line_and_column(text, range.start);
        ParseError {
            range,
            line_display: at.line,
            column_display: at.column,
            kind,
        }
    }

    /// The bytes of the text where the fault is.
    pub fn range(&self) -> Range
        ensures { result ≡ range_of self.now }
    {
        self.range
    }

    /// The line of the range's start, counted from 1.
    pub fn line_display(&self) -> usize
        ensures { result ≡ line_of self.now }
    {
        self.line_display
    }

    /// The column of the range's start in characters, counted from 1.
    pub fn column_display(&self) -> usize
        ensures { result ≡ column_of self.now }
    {
        self.column_display
    }

    /// What is wrong there.
    pub fn kind(&self) -> &ParseErrorKind
        ensures { result.now ≡ kind_of self.now }
    {
        &self.kind
    }

    /// The error of an allocation failure, at no bytes.
    pub fn out_of_memory() -> ParseError
        ensures { IsOutOfMemory result }
    {
        ParseError {
            range: Range { start: 0, end: 0 },
            line_display: 1,
            column_display: 1,
            kind: ParseErrorKind::OutOfMemory,
        }
    }
}
