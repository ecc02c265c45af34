//! The operations of a patch that move or copy a value.

ghost use Rattle.std.specs.Prelude.{◌≡◌, IfErr, OnErr, OnOk};
ghost use Rattle.std.specs.Bool.{Decides};
ghost use Rattle.jsonc_layout.specs.input.Views.{chars_of};
ghost use Rattle.jsonc_cst.specs.Document.{nodes_of};
ghost use Rattle.jsonc_parser.specs.paths.Found.{names_of};
ghost use Rattle.jsonc_parser.specs.patch.Applied.{FailsWhatShown, IsKept, LeadsOn, MakesWhatShown};
ghost use Rattle.jsonc_parser.specs.patch.Found.{IsOfShown};
ghost use Rattle.jsonc_parser.specs.patch.Operations as standard;
ghost use Rattle.jsonc_parser.specs.patch.Pointer.{tokens_of};
ghost use Rattle.jsonc_parser.specs.patch.Room.{KeepsContents};

use super::making::{PatchCause, add, remove, target, whole_at};
use super::pointer::Pointer;
use super::renaming::{rename, renaming};
use jsonc_cst::cst::CstRootNode;
use std::alloc::Allocator;

// Whether two strings have the same characters.
fn are_same<A: Allocator>(left: &String<A>, right: &String<A>) -> bool
    ensures { Decides result (chars_of left.now ≡ chars_of right.now) }
{
    left.as_str() == right.as_str()
}

// Whether the tokens of one pointer are the first of another's.
pub(super) fn leads_on<A: Allocator>(front: &[String<A>], tokens: &[String<A>]) -> bool
    ensures { Decides result (LeadsOn (names_of front.now) (names_of tokens.now)) }
{
    if front.len() > tokens.len() {
        return false;
    }
    for (index, token) in front.iter().enumerate() {
        if !are_same(token, &tokens[index]) {
            return false;
        }
    }
    true
}

// Sees that a value that is to be moved to where it is, or into itself, stays.
fn stay<A: Allocator + Copy>(
    doc: &CstRootNode<A>,
    from: &Pointer<A>,
    path: &Pointer<A>,
) -> Result<(), PatchCause<A>>
    requires { LeadsOn (tokens_of from.now) (tokens_of path.now) }
    ensures stays { OnOk result (IsOfShown doc.now (λ d. standard.Moves (tokens_of from.now) (tokens_of path.now) d.value d.value)) }
    ensures same { OnOk result (tokens_of from.now ≡ tokens_of path.now) }
    ensures fails { IfErr result (FailsWhatShown doc.now (standard.move (tokens_of from.now) (tokens_of path.now))) }
{
    match target(doc, from.tokens()) {
        Ok(_) => {}
        Err(cause) => return Err(cause),
    }
    if from.tokens().len() == path.tokens().len() {
        return Ok(());
    }
    Err(PatchCause::IntoItself)
}

// Removes the value that a pointer refers to, and adds it where another leads; or renames it within its object.
pub(super) fn move_value<A: Allocator + Copy>(
    doc: &mut CstRootNode<A>,
    from: &Pointer<A>,
    path: &Pointer<A>,
) -> Result<(), PatchCause<A>>
    ensures made { OnOk result (MakesWhatShown doc.old (standard.move (tokens_of from.now) (tokens_of path.now)) (λ o. Unit {0}) doc.new) }
    ensures contents { OnOk result (KeepsContents (nodes_of doc.old) (nodes_of doc.new)) }
    ensures fails { IfErr result (FailsWhatShown doc.old (standard.move (tokens_of from.now) (tokens_of path.now))) }
{
    if leads_on(from.tokens(), path.tokens()) {
        return stay(doc, from, path);
    }
    match renaming(doc, from, path) {
        Ok(Some((node, name))) => {
            return match rename(doc, node, name) {
                Ok(()) => Ok(()),
                Err(cause) => Err(cause),
            };
        }
        Ok(None) => {}
        Err(cause) => return Err(cause),
    }
    let value = match whole_at(doc, from) {
        Ok(value) => value,
        Err(cause) => return Err(cause),
    };
    match remove(doc, from) {
        Ok(()) => {}
        Err(cause) => return Err(cause),
    }
    match add(doc, path, &value) {
        Ok(()) => Ok(()),
        Err(cause) => Err(cause),
    }
}

// Adds the value that a pointer refers to where another leads.
pub(super) fn copy_value<A: Allocator + Copy>(
    doc: &mut CstRootNode<A>,
    from: &Pointer<A>,
    path: &Pointer<A>,
) -> Result<(), PatchCause<A>>
    ensures made { OnOk result (MakesWhatShown doc.old (standard.copy (tokens_of from.now) (tokens_of path.now)) (λ o. Unit {0}) doc.new) }
    ensures contents { OnOk result (KeepsContents (nodes_of doc.old) (nodes_of doc.new)) }
    ensures kept { OnErr result (IsKept doc.old doc.new) }
    ensures fails { IfErr result (FailsWhatShown doc.old (standard.copy (tokens_of from.now) (tokens_of path.now))) }
{
    let value = match whole_at(doc, from) {
        Ok(value) => value,
        Err(cause) => return Err(cause),
    };
    match add(doc, path, &value) {
        Ok(()) => Ok(()),
        Err(cause) => Err(cause),
    }
}
