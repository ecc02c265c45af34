//! Why a call ends without success: a status, and of a text that is refused what is wrong with it.
ghost use Rattle.std.specs.Prelude.{◌≡◌, ◌⊎◌, ◌≤◌, take};
ghost use Rattle.jsonc_c.specs.Told.{IsTold, IsToldOf, edit_status, kind_number, no_fault, string_kind_number};

use jsonc_engine::fault::Fault;
use jsonc_parser::ParseStringErrorKind;
use jsonc_parser::cst::EditError;
use jsonc_parser::errors::{ParseError, ParseErrorKind};
use std::alloc::Global;

/// How many bytes of its printed text a fault holds.
pub(crate) const TEXT_LEN: usize = 192;

/// What is wrong with a text, a pointer or a patch. All of it is 0 where none is at fault.
#[repr(C)]
#[derive(Clone, Copy)]
pub struct JsoncFault {
    /// The number of its kind.
    pub kind: u32,
    /// How many edits of a list, or operations of a patch, were made, or read, before the one that was refused.
    pub made: usize,
    /// The byte offset at which it begins.
    pub start: usize,
    /// The byte offset at which it ends.
    pub end: usize,
    /// The line of its start, counted from 1.
    pub line: usize,
    /// The column of its start in characters, counted from 1.
    pub column: usize,
    /// How many bytes its printed text has here.
    pub text_len: usize,
    /// Its printed text, as `Expected comma on line 3 column 7`.
    pub text: [u8; TEXT_LEN],
}

/// No fault.
pub(crate) fn no_fault() -> JsoncFault
    ensures { result ≡ no_fault }
{
    JsoncFault {
        kind: 0,
        made: 0,
        start: 0,
        end: 0,
        line: 0,
        column: 0,
        text_len: 0,
        text: [0; TEXT_LEN],
    }
}

/// It succeeded.
pub(crate) const OK: u32 = 0;

/// An allocation failed.
pub(crate) const OUT_OF_MEMORY: u32 = 1;

/// A name, comment, path, pointer or JSON text is not UTF-8.
pub(crate) const WORD_NOT_UTF8: u32 = 2;

/// The text is not UTF-8.
pub(crate) const NOT_UTF8: u32 = 3;

/// The text is no document. The fault tells what is wrong with it.
pub(crate) const TEXT: u32 = 4;

/// The path is no document. The fault tells what is wrong with it.
pub(crate) const PATH: u32 = 5;

/// The path is no array of strings.
pub(crate) const NOT_NAMES: u32 = 6;

/// The JSON text of a value or patch is no document. The fault tells what is wrong with it.
pub(crate) const JSON: u32 = 7;

/// The JSON text has no value.
pub(crate) const NO_VALUE: u32 = 8;

/// The document's value is no object.
pub(crate) const NOT_OBJECT: u32 = 9;

/// The document's value is no array.
pub(crate) const NOT_ARRAY: u32 = 10;

/// Nothing stands at the path.
pub(crate) const NO_SETTING: u32 = 11;

/// A value of another kind than an object stands on the path.
pub(crate) const ON_THE_WAY: u32 = 12;

/// The path of an edit leads to nothing that it needs, or no comment has its number.
pub(crate) const NO_SUCH_PLACE: u32 = 13;

/// An array or object lacks a bracket. No call answers it of a text.
pub(crate) const MISSING_BRACKETS: u32 = 14;

/// A property lacks its name or colon. No call answers it of a text.
pub(crate) const MISSING_NAME: u32 = 15;

/// No edit has this kind.
pub(crate) const NO_SUCH_EDIT: u32 = 16;

/// The caller's buffer is too small. How long the text is stands behind the pointer for its length.
pub(crate) const NO_ROOM: u32 = 17;

/// Anything else. No call answers it.
pub(crate) const OTHER: u32 = 18;

/// The pointer is no JSON Pointer. The fault tells what is wrong with it.
pub(crate) const POINTER: u32 = 19;

/// A pointer leads to nothing.
pub(crate) const NO_SUCH_VALUE: u32 = 20;

/// A name stands twice in an object where it is looked up, or in one of a merge patch. The fault's text has the name.
pub(crate) const REPEATED_NAME: u32 = 21;

/// The patch is no array, or an operation is none. The fault tells which, and what is wrong with it.
pub(crate) const NOT_PATCH: u32 = 22;

/// A value was to be moved into itself.
pub(crate) const INTO_ITSELF: u32 = 23;

/// A value is not equal to the one that it was tested against.
pub(crate) const NOT_EQUAL: u32 = 24;

/// The text of a comment that is to be inserted is not one comment and nothing else.
pub(crate) const INVALID_COMMENT: u32 = 25;

/// A comment that ends with its line is to be inserted, and something follows there on the line.
pub(crate) const LINE_CONTINUES: u32 = 26;

/// A comment is to be inserted at a node that is no entry. No call answers it of a text.
pub(crate) const NOT_AN_ENTRY: u32 = 27;

/// A value would be nested deeper in the document than texts are parsed.
pub(crate) const NESTED_TOO_DEEP: u32 = 28;

/// The value that the pointer refers to is no string.
pub(crate) const NOT_STRING: u32 = 29;

/// The text has no value.
pub(crate) const NO_ROOT: u32 = 30;

/// A number of the text is `Infinity` or `NaN`, which JSON does not have. The fault tells where.
pub(crate) const NON_FINITE: u32 = 31;

fn string_kind_number(kind: &ParseStringErrorKind) -> u32
    ensures { result ≡ string_kind_number kind.now }
{
    match kind {
        ParseStringErrorKind::InvalidEscapeInSingleQuoteString => 101,
        ParseStringErrorKind::InvalidEscapeInDoubleQuoteString => 102,
        ParseStringErrorKind::ExpectedFourHexDigits => 103,
        ParseStringErrorKind::ExpectedTwoHexDigits => 104,
        ParseStringErrorKind::InvalidUnicodeEscapeSequence(_, _) => 105,
        ParseStringErrorKind::InvalidEscape => 106,
        ParseStringErrorKind::UnterminatedStringLiteral => 107,
        ParseStringErrorKind::OutOfMemory => 108,
    }
}

/// The number of a kind of fault.
pub(crate) fn kind_number(kind: &ParseErrorKind) -> u32
    ensures { result ≡ kind_number kind.now }
{
    match kind {
        ParseErrorKind::BareDecimalPointNumbersNotAllowed => 1,
        ParseErrorKind::CommentsNotAllowed => 2,
        ParseErrorKind::ExpectedColonAfterObjectKey => 3,
        ParseErrorKind::ExpectedObjectValue => 4,
        ParseErrorKind::ExpectedDigit => 5,
        ParseErrorKind::ExpectedDigitFollowingNegativeSign => 6,
        ParseErrorKind::ExpectedPlusMinusOrDigitInNumberLiteral => 7,
        ParseErrorKind::ExpectedStringObjectProperty => 8,
        ParseErrorKind::HexadecimalNumbersNotAllowed => 9,
        ParseErrorKind::ExpectedComma => 10,
        ParseErrorKind::MultipleRootJsonValues => 11,
        ParseErrorKind::NonFiniteNumbersNotAllowed => 12,
        ParseErrorKind::SingleQuotedStringsNotAllowed => 13,
        ParseErrorKind::String(kind) => string_kind_number(kind),
        ParseErrorKind::TrailingCommasNotAllowed => 15,
        ParseErrorKind::UnaryPlusNumbersNotAllowed => 16,
        ParseErrorKind::UnexpectedCloseBrace => 17,
        ParseErrorKind::UnexpectedCloseBracket => 18,
        ParseErrorKind::UnexpectedColon => 19,
        ParseErrorKind::UnexpectedComma => 20,
        ParseErrorKind::UnexpectedToken => 21,
        ParseErrorKind::UnexpectedTokenInObject => 22,
        ParseErrorKind::UnexpectedWord => 23,
        ParseErrorKind::UnterminatedArray => 24,
        ParseErrorKind::UnterminatedCommentBlock => 25,
        ParseErrorKind::UnterminatedObject => 26,
        ParseErrorKind::NestingDepthExceeded => 27,
        ParseErrorKind::OutOfMemory => 28,
    }
}

/// Puts the front of a text into the fault.
pub(crate) fn put_text(text: &[u8], fault: &mut JsoncFault)
    ensures text { take fault.new.text_len fault.new.text ≡ take 192 text.now }
    ensures within { fault.new.text_len ≤ 192 }
    ensures kind { fault.new.kind ≡ fault.old.kind }
    ensures start { fault.new.start ≡ fault.old.start }
    ensures end { fault.new.end ≡ fault.old.end }
    ensures line { fault.new.line ≡ fault.old.line }
    ensures column { fault.new.column ≡ fault.old.column }
    ensures made { fault.new.made ≡ fault.old.made }
{
    let count = TEXT_LEN.min(text.len());
    fault.text[..count].copy_from_slice(&text[..count]);
    fault.text_len = count;
}

/// Tells what is wrong with a text, and answers the status, or that an allocation failed, for the parse or for the
/// printed text. Then no text is at fault.
pub(crate) fn tell_error(
    alloc: Global,
    error: &ParseError,
    status: u32,
    fault: &mut JsoncFault,
) -> u32
    ensures status { (result ≡ 1) ⊎ ((result ≡ status) × IsToldOf error.now fault.new) }
    ensures untold { ¬ (result ≡ status) → fault.new ≡ fault.old }
    ensures made { fault.new.made ≡ fault.old.made }
{
    if *error.kind() == ParseErrorKind::OutOfMemory {
        return OUT_OF_MEMORY;
    }
    let Ok(text) = error.to_string(alloc) else {
        return OUT_OF_MEMORY;
    };
    let range = error.range();
    fault.kind = kind_number(error.kind());
    fault.start = range.start;
    fault.end = range.end;
    fault.line = error.line_display();
    fault.column = error.column_display();
    put_text(text.as_bytes(), fault);
    status
}

/// The status of an edit that was refused.
pub(crate) fn edit_status(error: EditError) -> u32
    ensures { result ≡ edit_status error }
{
    match error {
        EditError::OutOfMemory => OUT_OF_MEMORY,
        EditError::NoSuchPlace => NO_SUCH_PLACE,
        EditError::MissingBrackets => MISSING_BRACKETS,
        EditError::MissingName => MISSING_NAME,
        EditError::InvalidComment => INVALID_COMMENT,
        EditError::LineContinues => LINE_CONTINUES,
        EditError::NotAnEntry => NOT_AN_ENTRY,
        EditError::NestingDepthExceeded => NESTED_TOO_DEEP,
    }
}

/// Tells a fault of the engine, and answers its status.
pub(crate) fn tell(alloc: Global, told: &Fault<Global>, fault: &mut JsoncFault) -> u32
    ensures told { (result ≡ 1) ⊎ IsTold told.now result fault.new }
    ensures status { 1 ≤ result }
    ensures other { ¬ (result ≡ 17) }
    ensures untold { ¬ (result ≡ 4) → ¬ (result ≡ 5) → ¬ (result ≡ 7) → fault.new ≡ fault.old }
    ensures made { fault.new.made ≡ fault.old.made }
{
    match told {
        Fault::Input(error) => tell_error(alloc, error, TEXT, fault),
        Fault::Path(error) => tell_error(alloc, error, PATH, fault),
        Fault::Argument(error) => tell_error(alloc, error, JSON, fault),
        Fault::NotNames => NOT_NAMES,
        Fault::NoValue => NO_VALUE,
        Fault::NotObject => NOT_OBJECT,
        Fault::NotArray => NOT_ARRAY,
        Fault::NoSetting => NO_SETTING,
        Fault::OnTheWay => ON_THE_WAY,
        Fault::Edit(error) => edit_status(*error),
        Fault::NotUtf8 => NOT_UTF8,
        _ => OTHER,
    }
}
