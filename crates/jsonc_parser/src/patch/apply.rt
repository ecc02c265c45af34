//! Patches: lists of operations, made on a document whole or not at all.

ghost use Rattle.std.specs.Prelude.{◌≡◌, ◌<◌, [], length, true, IfErr, OnErr, OnOk, Some};
ghost use Rattle.jsonc_parser.specs.patch.Applied.{is_one_edit, FailsWhatShown, IsKept};
ghost use Rattle.jsonc_parser.specs.patch.Applied.{MakesWhatShown, PatchesWhatShown, StopsWhatShown};
ghost use Rattle.jsonc_parser.specs.patch.Asked.{asked, FitsIn};
ghost use Rattle.jsonc_parser.specs.patch.FaultMessages.{patch_fault_text};
ghost use Rattle.jsonc_parser.specs.patch.Patches.{operations_in};

use super::making::{PatchCause, make};
use super::operation::Operation;
use super::reading::Patch;
use jsonc_cst::cst::{CstRootNode, EditError};
use std::alloc::Allocator;
use std::error::Error;
use std::fmt;

/// Which operation of a patch was not made, and why.
#[derive(Debug, Drop)]
pub struct PatchFault<A: Allocator> {
    /// The operation's number, counted from 0.
    pub operation: usize,
    /// The cause.
    pub cause: PatchCause<A>,
}

impl<A: Allocator> fmt::Display for PatchFault<A> {
    ghost output = { λ e. Some (patch_fault_text e) };

    ghost styled_output = { λ e _. Some (patch_fault_text e) };

    fn fmt<W: fmt::Write>(&self, f: &mut fmt::Formatter<W>) -> fmt::Result {
        f.write_str("Operation ")?;
        let mut digits = itoa::Buffer::new();
        f.write_str(digits.format(self.operation))?;
        f.write_str(": ")?;
        self.cause.fmt(f)
    }
}

impl<A: Allocator + fmt::Debug> Error for PatchFault<A> {}

impl<A: Allocator + Copy> Patch<A> {
    /// Makes the operations in order, each in the document that the ones before it made.
    ///
    /// Each operation is one edit at the value, array or object that its pointer leads to, and no other place changes:
    /// `remove` and `replace` are the edits of these names; `add` inserts or appends, or replaces the value of the
    /// property that has the name, or sets the document's value; `copy` is an `add`. A `move` is a removal and an
    /// addition. A `test`, and a move of a value to where it is, change nothing.
    ///
    /// What is added to an object is put after its other members, or in the place of the value of the one that
    /// has the name. A value that is copied or moved is taken with all of its members, those of equal names too, and
    /// written as edits write values; but a member that is moved within its object, to a name that no member has, gets
    /// this name and stays as it is. Comments stay, but for those inside what is replaced or removed, and those that a
    /// removal takes with its entry; and so does every byte outside of what the operations change.
    ///
    /// A patch of a few lines can copy the document into itself again and again, so that it doubles each time:
    /// [`apply_within`](Patch::apply_within) has a bound.
    ///
    /// A document keeps no options: the numbers that are written are to be numbers of those that it was parsed with.
    ///
    /// On an error the answer is which operation was not made, and why, and the document and each of its nodes
    /// are as they were.
    ///
    /// One operation other than a move is made in the document; more are made on a copy of its nodes, which
    /// share its text.
    ///
    /// By `[{"op": "replace", "path": "/b/0", "value": 3}, {"op": "add", "path": "/c", "value": null}]`:
    ///
    /// ```text
    /// {                      {
    ///   "a": 1, // one         "a": 1, // one
    ///   "b": [2 /* of */]      "b": [3 /* of */],
    /// }                        "c": null
    ///                        }
    /// ```
    pub fn apply(&self, doc: &mut CstRootNode<A>) -> Result<(), PatchFault<A>>
        ensures patched { OnOk result (PatchesWhatShown doc.old (operations_in self.now) doc.new) }
        ensures kept { OnErr result (IsKept doc.old doc.new) }
        ensures stops { IfErr result (StopsWhatShown doc.old (operations_in self.now)) }
    {
        make_whole(doc, self.operations())
    }
}

// Whether an operation is one edit at most.
fn is_one_edit<A: Allocator>(operation: &Operation<A>) -> bool
    ensures { result ≡ is_one_edit operation.now }
{
    !matches!(operation, Operation::Move(_, _))
}

// Whether an operation is one edit at most, and no other follows it.
fn is_alone<A: Allocator>(operation: &Operation<A>, rest: &[Operation<A>]) -> bool
    ensures { result ≡ true → (is_one_edit operation.now ≡ true) × (rest.now ≡ []) }
{
    if !rest.is_empty() {
        return false;
    }
    is_one_edit(operation)
}

// Makes the one operation of a patch.
fn make_first<A: Allocator + Copy>(
    doc: &mut CstRootNode<A>,
    operation: &Operation<A>,
) -> Result<(), PatchFault<A>>
    requires { is_one_edit operation.now ≡ true }
    ensures made { OnOk result (MakesWhatShown doc.old (asked operation.now) (λ o. FitsIn o operation.now) doc.new) }
    ensures kept { OnErr result (IsKept doc.old doc.new) }
    ensures fails { IfErr result (λ fault. (fault.operation ≡ 0) × FailsWhatShown doc.old (asked operation.now) fault.cause) }
{
    match make(doc, operation) {
        Ok(()) => Ok(()),
        Err(cause) => Err(PatchFault {
            operation: 0,
            cause,
        }),
    }
}

// Makes operations in order.
fn make_all<A: Allocator + Copy>(
    doc: &mut CstRootNode<A>,
    operations: &[Operation<A>],
) -> Result<(), PatchFault<A>>
    ensures patched { OnOk result (PatchesWhatShown doc.old operations.now doc.new) }
    ensures stops { IfErr result (StopsWhatShown doc.old operations.now) }
{
    for (number, operation) in operations.iter().enumerate() {
        if let Err(cause) = make(doc, operation) {
            return Err(PatchFault {
                operation: number,
                cause,
            });
        }
    }
    Ok(())
}

// Makes operations in order on a copy, which takes the place of the document.
fn make_on_copy<A: Allocator + Copy>(
    doc: &mut CstRootNode<A>,
    operations: &[Operation<A>],
) -> Result<(), PatchFault<A>>
    requires { 0 < length operations.now }
    ensures patched { OnOk result (PatchesWhatShown doc.old operations.now doc.new) }
    ensures kept { OnErr result (IsKept doc.old doc.new) }
    ensures stops { IfErr result (StopsWhatShown doc.old operations.now) }
{
    let Ok(mut copy) = doc.try_clone() else {
        return Err(PatchFault {
            operation: 0,
            cause: PatchCause::Edit(EditError::OutOfMemory),
        });
    };
    match make_all(&mut copy, operations) {
        Ok(()) => {}
        Err(fault) => return Err(fault),
    }
    *doc = copy;
    Ok(())
}

// Makes operations in order, all of them or none.
fn make_whole<A: Allocator + Copy>(
    doc: &mut CstRootNode<A>,
    operations: &[Operation<A>],
) -> Result<(), PatchFault<A>>
    ensures patched { OnOk result (PatchesWhatShown doc.old operations.now doc.new) }
    ensures kept { OnErr result (IsKept doc.old doc.new) }
    ensures stops { IfErr result (StopsWhatShown doc.old operations.now) }
{
    let Some((operation, rest)) = operations.split_first() else {
        return Ok(());
    };
    if is_alone(operation, rest) {
        return make_first(doc, operation);
    }
    make_on_copy(doc, operations)
}
