//! The operations of a patch, and why a value is none.

ghost use Rattle.std.specs.Prelude.{◌≡◌, Some};
ghost use Rattle.jsonc_parser.specs.patch.PatchMessages.{operation_fault_text};
ghost use Rattle.jsonc_parser.specs.patch.PatchFaults.{member_name};

use super::pointer::{Pointer, PointerError};
use super::quoting::write_repeated_name;
use jsonc_cst::cst::CstInputValue;
use std::alloc::Allocator;
use std::error::Error;
use std::fmt;

/// One operation of a patch (RFC 6902, 4).
#[derive(Debug, Drop)]
pub enum Operation<A: Allocator> {
    /// Puts a value where a pointer leads: after the other elements of an array or before one of them, as a
    /// member of an object, in the place of the one that has the name, or as the document's value.
    Add(Pointer<A>, CstInputValue<A>),
    /// Removes the value that a pointer refers to.
    Remove(Pointer<A>),
    /// Replaces the value that a pointer refers to by another.
    Replace(Pointer<A>, CstInputValue<A>),
    /// Removes the value that the first pointer refers to, and adds it where the second leads.
    Move(Pointer<A>, Pointer<A>),
    /// Adds the value that the first pointer refers to where the second leads.
    Copy(Pointer<A>, Pointer<A>),
    /// Sees that the value that a pointer refers to is equal to this one.
    Test(Pointer<A>, CstInputValue<A>),
}

/// A member of an operation that the standard names.
#[derive(Clone, Copy, Debug, PartialEq, Eq, Drop)]
pub enum Member {
    /// `op`, the operation's name.
    Op,
    /// `path`, the pointer.
    Path,
    /// `from`, the pointer of `move` and `copy` to what is taken.
    From,
    /// `value`.
    Value,
}

impl Member {
    /// Its name.
    pub fn name(self) -> &'static str
        ensures { result.now ≡ member_name self }
    {
        match self {
            Member::Op => "op",
            Member::Path => "path",
            Member::From => "from",
            Member::Value => "value",
        }
    }
}

/// Why a value is no operation.
#[derive(Debug, Drop)]
pub enum OperationFault<A: Allocator> {
    /// The value is no object.
    NotAnObject,
    /// It lacks this member.
    Missing(Member),
    /// This member is of another kind, or `op` names no operation.
    Wrong(Member),
    /// This member's text is no pointer.
    Pointer(Member, PointerError),
    /// More than one member of the operation, or of an object in its value, has this name.
    RepeatedName(String<A>),
    /// An allocation failed.
    OutOfMemory,
}

impl<A: Allocator> fmt::Display for OperationFault<A> {
    ghost output = { λ e. Some (operation_fault_text e) };

    ghost styled_output = { λ e _. Some (operation_fault_text e) };

    fn fmt<W: fmt::Write>(&self, f: &mut fmt::Formatter<W>) -> fmt::Result {
        match self {
            OperationFault::NotAnObject => f.write_str("Operation is no object"),
            OperationFault::Missing(member) => {
                f.write_str("Operation lacks ")?;
                f.write_str(member.name())
            }
            OperationFault::Wrong(member) => {
                f.write_str("Operation has a wrong ")?;
                f.write_str(member.name())
            }
            OperationFault::Pointer(member, error) => {
                f.write_str(member.name())?;
                f.write_str(": ")?;
                error.fmt(f)
            }
            OperationFault::RepeatedName(name) => write_repeated_name(name.as_str(), f),
            OperationFault::OutOfMemory => f.write_str("Out of memory"),
        }
    }
}

impl<A: Allocator + fmt::Debug> Error for OperationFault<A> {}
