//! Patches, and how they are read from their texts.

ghost use Rattle.std.specs.Prelude.{◌≡◌, chars, map, IfErr, IfOk, IfNone, IfSome, Some};
ghost use Rattle.std.specs.List.{All};
ghost use Rattle.jsonc_walk.specs.Located.{items_at};
ghost use Rattle.jsonc_ast.specs.Views as ast;
ghost use Rattle.jsonc_ast.specs.Views.{items_located};
ghost use Rattle.jsonc_layout.specs.input.Views.{plain};
ghost use Rattle.jsonc_parser.specs.patch.Asked.{asked, FitsIn};
ghost use Rattle.jsonc_parser.specs.patch.Equality.{HasMember};
ghost use Rattle.jsonc_parser.specs.patch.PatchMessages.{patch_error_text};
ghost use Rattle.jsonc_parser.specs.patch.PatchFaults.{member_name, IsFaultOfItems, IsFaultOfMembers, IsFaultOfOperation, IsFaultOfPatch, IsForText, Needs};
ghost use Rattle.jsonc_parser.specs.patch.PatchReading.{kind_name, said, IsNoKind};
ghost use Rattle.jsonc_parser.specs.patch.Patches.{operations_in, operations_of};
ghost use Rattle.jsonc_parser.specs.patch.PatchTexts.{AreOperations, HasOperand, IsNamed, IsOperation, IsPatch, PointsTo, Says};
ghost use Rattle.jsonc_parser.specs.patch.Pointer.{tokens_of};
ghost use Rattle.jsonc_text.specs.OptionsOf.{parse_options};
ghost use Rattle.jsonc_text.specs.Plain.{string};

use super::operation::{Member, Operation, OperationFault};
use super::pointer::{Pointer, PointerError};
use super::values::{elements_in, properties_of, see_names, text_of, value_of};
use jsonc_ast::ast::{ObjectProp, Value};
use jsonc_ast::to_ast::parse_to_ast;
use jsonc_cst::cst::CstInputValue;
use jsonc_text::errors::ParseError;
use jsonc_text::options::ParseOptions;
use jsonc_walk::collect::CollectOptions;
use std::alloc::Allocator;
use std::error::Error;
use std::fmt;

/// A JSON Patch (RFC 6902): operations in their order.
#[derive(Debug, Drop)]
pub struct Patch<A: Allocator> {
    operations: Vec<Operation<A>, A>,
}

impl<A: Allocator + Copy> Patch<A> {
    /// The patch that a JSON text is.
    ///
    /// The text is an array of operations. Each is an object with the members `op` and `path`, and with `value` or
    /// `from` where it needs one; other members are ignored. No name may occur twice in an operation, or in an
    /// object in its value. This is one:
    ///
    /// ```text
    /// [
    ///     { "op": "test", "path": "/version", "value": "0.2.0" },
    ///     { "op": "add", "path": "/configurations/-", "value": { "name": "Launch" } },
    ///     { "op": "move", "from": "/old", "path": "/new" }
    /// ]
    /// ```
    ///
    /// It is parsed under the options as by `parse_to_ast`, with the same errors.
    pub fn from_json(
        alloc: A,
        text: &str,
        options: &ParseOptions,
    ) -> Result<Patch<A>, PatchError<A>>
        ensures patch { IfOk result (λ p. IsPatch (parse_options options.now) (chars text.now) (operations_of p)) }
        ensures fits { IfOk result (λ p. All (FitsIn (parse_options options.now)) (operations_in p)) }
        ensures fault { IfErr result (IsFaultOfPatch (parse_options options.now) text.now) }
    {
        match read_patch(alloc, text, options) {
            Ok(operations) => Ok(Patch { operations }),
            Err(error) => Err(error),
        }
    }
}

impl<A: Allocator> Patch<A> {
    /// Its operations.
    pub fn operations(&self) -> &[Operation<A>]
        ensures { result.now ≡ operations_in self.now }
    {
        &self.operations
    }
}

/// Why a text is no patch.
#[derive(Debug, Drop)]
pub enum PatchError<A: Allocator> {
    /// The text is refused under its options, or there was no memory to parse it.
    Parse(ParseError),
    /// The text's value is no array, or it has none.
    NotAnArray,
    /// The operation of this number, counted from 0, is the first that is none.
    Operation(usize, OperationFault<A>),
}

impl<A: Allocator> fmt::Display for PatchError<A> {
    ghost output = { λ e. Some (patch_error_text e) };

    ghost styled_output = { λ e _. Some (patch_error_text e) };

    fn fmt<W: fmt::Write>(&self, f: &mut fmt::Formatter<W>) -> fmt::Result {
        match self {
            PatchError::Parse(error) => error.fmt(f),
            PatchError::NotAnArray => f.write_str("Patch is no array"),
            PatchError::Operation(number, fault) => {
                f.write_str("Operation ")?;
                let mut digits = itoa::Buffer::new();
                f.write_str(digits.format(*number))?;
                f.write_str(": ")?;
                fault.fmt(f)
            }
        }
    }
}

impl<A: Allocator + fmt::Debug> Error for PatchError<A> {}

// The kinds of operations.
#[derive(Clone, Copy)]
enum Kind {
    Add,
    Remove,
    Replace,
    Move,
    Copy,
    Test,
}

// The kind of operations of a name.
fn kind_of(name: &str) -> Option<Kind>
    ensures some { IfSome result (λ kind. chars name.now ≡ kind_name kind) }
    ensures none { IfNone result (IsNoKind (chars name.now)) }
{
    match name {
        "add" => Some(Kind::Add),
        "remove" => Some(Kind::Remove),
        "replace" => Some(Kind::Replace),
        "move" => Some(Kind::Move),
        "copy" => Some(Kind::Copy),
        "test" => Some(Kind::Test),
        _ => None,
    }
}

// The value of a member.
fn member_value<'b, 'a, A: Allocator>(
    members: &'b [ObjectProp<'a, A>],
    member: Member,
) -> Result<&'b Value<'a, A>, OperationFault<A>>
    ensures found { IfOk result (λ v. HasMember (member_name member) (ast.plain v.now) (said members.now)) }
    ensures fault { IfErr result (λ fault. Needs member (said members.now) → IsFaultOfMembers (said members.now) fault) }
{
    let required = member.name();
    for property in members {
        if property.name.as_str() == required {
            return Ok(&property.value);
        }
    }
    Err(OperationFault::Missing(member))
}

// The text of a member that is a string.
fn member_text<'b, A: Allocator>(
    members: &'b [ObjectProp<'_, A>],
    member: Member,
) -> Result<&'b str, OperationFault<A>>
    requires { IsForText member }
    ensures found { IfOk result (λ text. HasMember (member_name member) (string (chars text.now)) (said members.now)) }
    ensures fault { IfErr result (λ fault. Needs member (said members.now) → IsFaultOfMembers (said members.now) fault) }
{
    match member_value(members, member) {
        Ok(value) => match text_of(value) {
            Some(text) => Ok(text),
            None => Err(OperationFault::Wrong(member)),
        },
        Err(fault) => Err(fault),
    }
}

// The pointer whose text is that of a member.
fn member_pointer<A: Allocator + Copy>(
    alloc: A,
    members: &[ObjectProp<'_, A>],
    member: Member,
) -> Result<Pointer<A>, OperationFault<A>>
    requires { IsForText member }
    ensures points { IfOk result (λ pointer. PointsTo (member_name member) (tokens_of pointer) (said members.now)) }
    ensures fault { IfErr result (λ fault. Needs member (said members.now) → IsFaultOfMembers (said members.now) fault) }
{
    match member_text(members, member) {
        Ok(text) => match Pointer::parse(alloc, text) {
            Ok(pointer) => Ok(pointer),
            Err(PointerError::OutOfMemory) => Err(OperationFault::OutOfMemory),
            Err(error) => Err(OperationFault::Pointer(member, error)),
        },
        Err(fault) => Err(fault),
    }
}

// The value of the member `value`.
fn operand<A: Allocator + Copy>(
    alloc: A,
    members: &[ObjectProp<'_, A>],
) -> Result<CstInputValue<A>, OperationFault<A>>
    ensures value { IfOk result (λ value. HasOperand (plain value) (said members.now)) }
    ensures fault { IfErr result (λ fault. Needs Member.Value (said members.now) → IsFaultOfMembers (said members.now) fault) }
{
    match member_value(members, Member::Value) {
        Ok(value) => match value_of(alloc, value) {
            Ok(value) => Ok(value),
            Err(fault) => Err(fault),
        },
        Err(fault) => Err(fault),
    }
}

// The operation of a kind, with what the other members say.
fn of_kind<A: Allocator + Copy>(
    alloc: A,
    members: &[ObjectProp<'_, A>],
    kind: Kind,
) -> Result<Operation<A>, OperationFault<A>>
    requires { IsNamed (kind_name kind) (said members.now) }
    ensures says { IfOk result (λ operation. Says (said members.now) (asked operation)) }
    ensures fault { IfErr result (IsFaultOfMembers (said members.now)) }
{
    let path = match member_pointer(alloc, members, Member::Path) {
        Ok(path) => path,
        Err(fault) => return Err(fault),
    };
    match kind {
        Kind::Add => match operand(alloc, members) {
            Ok(value) => Ok(Operation::Add(path, value)),
            Err(fault) => Err(fault),
        },
        Kind::Remove => Ok(Operation::Remove(path)),
        Kind::Replace => match operand(alloc, members) {
            Ok(value) => Ok(Operation::Replace(path, value)),
            Err(fault) => Err(fault),
        },
        Kind::Move => match member_pointer(alloc, members, Member::From) {
            Ok(from) => Ok(Operation::Move(from, path)),
            Err(fault) => Err(fault),
        },
        Kind::Copy => match member_pointer(alloc, members, Member::From) {
            Ok(from) => Ok(Operation::Copy(from, path)),
            Err(fault) => Err(fault),
        },
        Kind::Test => match operand(alloc, members) {
            Ok(value) => Ok(Operation::Test(path, value)),
            Err(fault) => Err(fault),
        },
    }
}

// The operation that members say.
fn of_members<A: Allocator + Copy>(
    alloc: A,
    members: &[ObjectProp<'_, A>],
) -> Result<Operation<A>, OperationFault<A>>
    ensures says { IfOk result (λ operation. Says (said members.now) (asked operation)) }
    ensures fault { IfErr result (IsFaultOfMembers (said members.now)) }
{
    match member_text(members, Member::Op) {
        Ok(name) => match kind_of(name) {
            Some(kind) => of_kind(alloc, members, kind),
            None => Err(OperationFault::Wrong(Member::Op)),
        },
        Err(fault) => Err(fault),
    }
}

// The operation that a value is.
fn read_operation<A: Allocator + Copy>(
    alloc: A,
    value: &Value<'_, A>,
) -> Result<Operation<A>, OperationFault<A>>
    ensures operation { IfOk result (λ operation. IsOperation (ast.plain value.now) (asked operation)) }
    ensures fault { IfErr result (IsFaultOfOperation (ast.plain value.now)) }
{
    let Some(members) = properties_of(value) else {
        return Err(OperationFault::NotAnObject);
    };
    match see_names(alloc, members) {
        Ok(()) => of_members(alloc, members),
        Err(fault) => Err(fault),
    }
}

// The operations that these values are.
fn read_operations<A: Allocator + Copy>(
    alloc: A,
    values: &[Value<'_, A>],
) -> Result<Vec<Operation<A>, A>, PatchError<A>>
    ensures operations { IfOk result (λ v. AreOperations (items_at (items_located values.now)) (map asked v.items)) }
    ensures fault { IfErr result (IsFaultOfItems (items_at (items_located values.now))) }
{
    let mut operations = Vec::new(alloc);
    for (number, value) in values.iter().enumerate() {
        let operation = match read_operation(alloc, value) {
            Ok(operation) => operation,
            Err(fault) => return Err(PatchError::Operation(number, fault)),
        };
        let Ok(()) = operations.push(operation) else {
            return Err(PatchError::Operation(number, OperationFault::OutOfMemory));
        };
    }
    Ok(operations)
}

// The operations of the patch that a text is.
fn read_patch<A: Allocator + Copy>(
    alloc: A,
    text: &str,
    options: &ParseOptions,
) -> Result<Vec<Operation<A>, A>, PatchError<A>>
    ensures patch { IfOk result (λ v. IsPatch (parse_options options.now) (chars text.now) (map asked v.items)) }
    ensures fits { IfOk result (λ v. All (FitsIn (parse_options options.now)) v.items) }
    ensures fault { IfErr result (IsFaultOfPatch (parse_options options.now) text.now) }
{
    let read = match parse_to_ast(alloc, text, &CollectOptions::default(), options) {
        Ok(read) => read,
        Err(error) => return Err(PatchError::Parse(error)),
    };
    let Some(value) = &read.value else {
        return Err(PatchError::NotAnArray);
    };
    match elements_in(value) {
        Some(values) => read_operations(alloc, values),
        None => Err(PatchError::NotAnArray),
    }
}
