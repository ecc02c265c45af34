//! Why a run of the program ended without success.
ghost use Rattle.std.specs.Prelude.{◌≡◌, Some};
ghost use Rattle.std.specs.Fmt.{decimal, WritesOnOk, WritesStyledOnOk};
ghost use Rattle.jsonc_engine.specs.FaultLines.{cause_text, front_of, non_finite_text, too_large_text};
ghost use Rattle.jsonc_engine.specs.Parser.{OutOfMemory};
ghost use Rattle.jsonc_engine.specs.declared.fault.Fault.TheVariants.{Edit};

use jsonc_parser::LineAndColumn;
use jsonc_parser::cst::EditError;
use jsonc_parser::errors::ParseError;
use jsonc_parser::patch::{
    MergePatchError, PatchError, PatchFault, PointerError, write_repeated_name,
};
use std::alloc::{AllocError, AllocFailed, Allocator};
use std::error::Error;
use std::fmt;
use std::fmt::Display;

const USAGE: &str =
    "usage: jsonc check|print|set NAME JSON|append JSON|remove NAME|sort|get PLACE|put PATH JSON|drop PATH|patch [--max-bytes N] PATCH|merge PATCH|json";

/// Why a run ended without success. Its `Display` is the whole line that the program prints.
#[derive(Debug, Drop)]
pub enum Fault<A: Allocator> {
    /// The input is no document.
    Input(ParseError),
    /// The command's path is no document.
    Path(ParseError),
    /// The command's path has no value, or one that is no list of strings.
    NotNames,
    /// The command's pointer is none.
    Pointer(PointerError),
    /// The command's JSON text is no document.
    Argument(ParseError),
    /// The command's JSON text has no value.
    NoValue,
    /// The command's text is no patch.
    Patch(PatchError<A>),
    /// The command's text is no merge patch.
    MergePatch(MergePatchError<A>),
    /// The command wants an object at the root.
    NotObject,
    /// The command wants an array at the root.
    NotArray,
    /// Nothing is at the path.
    NoSetting,
    /// The pointer refers to nothing.
    NoSuchValue,
    /// A value of another kind than an object is on the path.
    OnTheWay,
    /// More than one property of an object has this name, where a pointer or a merge patch names it.
    RepeatedName(String<A>),
    /// An operation of the patch was not made.
    Operation(PatchFault<A>),
    /// After the operation of this number the document would have more than so many bytes.
    TooLarge(usize, usize),
    /// The input has no value.
    NoRoot,
    /// A number of the input is `Infinity` or `NaN`.
    NonFinite(LineAndColumn),
    /// The document refused the edit, or, with `EditError::OutOfMemory`, memory ran out outside parsing.
    Edit(EditError),
    /// The input's bytes are not UTF-8.
    NotUtf8,
    /// A read failed.
    Read,
    /// A write failed.
    Write,
    /// The words name no command.
    Usage,
}

impl<A: Allocator> Fault<A> {
    /// The status that the program ends with: 2 where the words name no command, else 1.
    pub fn status(&self) -> u8
        ensures usage { self.now ≡ Fault.Usage → result ≡ 2 }
        ensures other { ¬ (self.now ≡ Fault.Usage) → result ≡ 1 }
    {
        match self {
            Fault::Usage => 2,
            _ => 1,
        }
    }
}

impl<A: Allocator> fmt::Display for Fault<A> {
    ghost use Rattle.jsonc_engine.specs.FaultLines.{fault_line};

    ghost output = { λ f. Some (fault_line f) };

    ghost styled_output = { λ f _. Some (fault_line f) };

    fn fmt<W: fmt::Write>(&self, f: &mut fmt::Formatter<W>) -> fmt::Result {
        f.write_str(front_of(self))?;
        write_cause(self, f)
    }
}

// What is before the cause in the line of a fault.
fn front_of<A: Allocator>(fault: &Fault<A>) -> &'static str
    ensures { result.now ≡ front_of fault.now }
{
    match fault {
        Fault::Usage => "",
        _ => "jsonc: ",
    }
}

// Writes what is wrong.
fn write_cause<A: Allocator, W: fmt::Write>(
    fault: &Fault<A>,
    f: &mut fmt::Formatter<W>,
) -> fmt::Result
    ensures writes { WritesOnOk W.write_str_gives f.old result (cause_text fault.now) f.new }
    ensures styled { WritesStyledOnOk W.write_str_gives f.old result (cause_text fault.now) f.new }
{
    match fault {
        Fault::Input(error) => error.fmt(f),
        Fault::Path(error) => {
            f.write_str("path: ")?;
            error.fmt(f)
        }
        Fault::NotNames => f.write_str("path is not a list of strings"),
        Fault::Pointer(error) => {
            f.write_str("pointer: ")?;
            error.fmt(f)
        }
        Fault::Argument(error) => {
            f.write_str("argument: ")?;
            error.fmt(f)
        }
        Fault::NoValue => f.write_str("argument: no value"),
        Fault::Patch(error) => {
            f.write_str("patch: ")?;
            error.fmt(f)
        }
        Fault::MergePatch(error) => {
            f.write_str("patch: ")?;
            error.fmt(f)
        }
        Fault::NotObject => f.write_str("root value is not an object"),
        Fault::NotArray => f.write_str("root value is not an array"),
        Fault::NoSetting => f.write_str("no such setting"),
        Fault::NoSuchValue => f.write_str("no such value"),
        Fault::OnTheWay => f.write_str("a value on the path is not an object"),
        Fault::RepeatedName(name) => write_repeated_name(name.as_str(), f),
        Fault::Operation(fault) => fault.fmt(f),
        Fault::TooLarge(operation, bytes) => write_too_large(*operation, *bytes, f),
        Fault::NoRoot => f.write_str("root value is missing"),
        Fault::NonFinite(at) => write_non_finite(at.line, at.column, f),
        Fault::Edit(error) => error.fmt(f),
        Fault::NotUtf8 => f.write_str("input is not UTF-8"),
        Fault::Read => f.write_str("read failed"),
        Fault::Write => f.write_str("write failed"),
        Fault::Usage => f.write_str(USAGE),
    }
}

// Writes the line of an operation after which the document would have more than so many bytes.
fn write_too_large<W: fmt::Write>(
    operation: usize,
    bytes: usize,
    f: &mut fmt::Formatter<W>,
) -> fmt::Result
    ensures writes { WritesOnOk W.write_str_gives f.old result (too_large_text operation bytes) f.new }
    ensures styled { WritesStyledOnOk W.write_str_gives f.old result (too_large_text operation bytes) f.new }
{
    f.write_str("Operation ")?;
    write_number(operation, f)?;
    f.write_str(": Document would have more bytes than ")?;
    write_number(bytes, f)
}

// Writes what is wrong with a number that JSON has not, with its line and column.
fn write_non_finite<W: fmt::Write>(
    line: usize,
    column: usize,
    f: &mut fmt::Formatter<W>,
) -> fmt::Result
    ensures writes { WritesOnOk W.write_str_gives f.old result (non_finite_text line column) f.new }
    ensures styled { WritesStyledOnOk W.write_str_gives f.old result (non_finite_text line column) f.new }
{
    f.write_str("number is not finite on line ")?;
    write_number(line, f)?;
    f.write_str(" column ")?;
    write_number(column, f)
}

// Writes a number in decimal, whatever the options of the format.
fn write_number<W: fmt::Write>(number: usize, f: &mut fmt::Formatter<W>) -> fmt::Result
    ensures writes { WritesOnOk W.write_str_gives f.old result (decimal number) f.new }
    ensures styled { WritesStyledOnOk W.write_str_gives f.old result (decimal number) f.new }
{
    let mut digits = itoa::Buffer::new();
    f.write_str(digits.format(number))
}

impl<A: Allocator + fmt::Debug> Error for Fault<A> {}

impl<A: Allocator, T: Drop> From<AllocFailed<T>> for Fault<A> {
    ghost from_gives = { λ _ fault. fault ≡ Edit OutOfMemory };

    fn from(_error: AllocFailed<T>) -> Fault<A> {
        Fault::from(AllocError)
    }
}

impl<A: Allocator> From<AllocError> for Fault<A> {
    ghost from_gives = { λ _ fault. fault ≡ Edit OutOfMemory };

    fn from(_error: AllocError) -> Fault<A> {
        Fault::Edit(EditError::OutOfMemory)
    }
}

impl<A: Allocator> From<EditError> for Fault<A> {
    ghost from_gives = { λ error fault. fault ≡ Edit error };

    fn from(error: EditError) -> Fault<A> {
        Fault::Edit(error)
    }
}
