//! Moves within one object, which give a member another name.

ghost use Rattle.std.specs.Prelude.{List, ℕ, IfErr, IfNone, IfOk, IfSome, OnOk};
ghost use Rattle.jsonc_layout.specs.input.Views.{chars_of};
ghost use Rattle.jsonc_cst.specs.Document.{nodes_of, HasNode};
ghost use Rattle.jsonc_parser.specs.paths.Found.{names_of};
ghost use Rattle.jsonc_parser.specs.patch.Applied.{FailsWhatShown};
ghost use Rattle.jsonc_parser.specs.patch.Found.{IsOfShown};
ghost use Rattle.jsonc_parser.specs.patch.Operations.{IsWithinObject};
ghost use Rattle.jsonc_parser.specs.patch.Operations as standard;
ghost use Rattle.jsonc_parser.specs.patch.Pointer.{tokens_of};
ghost use Rattle.jsonc_parser.specs.patch.Renaming.{AreBeside, FailsToRename, IsRenaming, RenamesAt};
ghost use Rattle.jsonc_parser.specs.patch.Room.{KeepsContents};

use super::making::{PatchCause, target};
use super::merging::is_object;
use super::moving::leads_on;
use super::pointer::Pointer;
use super::reference::{FindError, follow};
use jsonc_cst::cst::{CstNode, CstRootNode, EditError};
use std::alloc::Allocator;

// All tokens of two pointers but the last, if they are the same, and the last of the second.
fn beside<'p, A: Allocator>(
    from: &Pointer<A>,
    path: &'p Pointer<A>,
) -> Option<(&'p [String<A>], &'p String<A>)>
    ensures beside { IfSome result (λ r. AreBeside (tokens_of from.now) (tokens_of path.now) (names_of r.0.now) (chars_of r.1.now)) }
    ensures apart { IfNone result ((tokens : List (List ℕ)) (name : List ℕ) → AreBeside (tokens_of from.now) (tokens_of path.now) tokens name → ⊥) }
{
    let Some((_, front)) = from.tokens().split_last() else {
        return None;
    };
    let Some((name, others)) = path.tokens().split_last() else {
        return None;
    };
    if front.len() != others.len() {
        return None;
    }
    if !leads_on(front, others) {
        return None;
    }
    Some((others, name))
}

// The member that a pointer refers to, if another leads to a name that no member of its object has; and this name.
pub(super) fn renaming<'p, A: Allocator + Copy>(
    doc: &CstRootNode<A>,
    from: &Pointer<A>,
    path: &'p Pointer<A>,
) -> Result<Option<(CstNode, &'p String<A>)>, PatchCause<A>>
    ensures renames { IfOk result (λ o. IfSome o (λ r. IsRenaming doc.now (tokens_of from.now) (tokens_of path.now) r.0 (chars_of r.1.now))) }
    ensures in_document { IfOk result (λ o. IfSome o (λ r. HasNode doc.now r.0)) }
    ensures none { IfOk result (λ o. IfNone o
        (IsOfShown doc.now (λ d. ¬ (IsWithinObject (tokens_of from.now) (tokens_of path.now) d.value)))) }
    ensures fails { IfErr result (FailsWhatShown doc.now (standard.move (tokens_of from.now) (tokens_of path.now))) }
{
    let Some((front, name)) = beside(from, path) else {
        return Ok(None);
    };
    match is_object(doc, front) {
        Ok(true) => {}
        Ok(false) => return Ok(None),
        Err(cause) => return Err(cause),
    }
    let node = match target(doc, from.tokens()) {
        Ok(node) => node,
        Err(cause) => return Err(cause),
    };
    match follow(doc, path.tokens()) {
        Ok(None) => Ok(Some((node, name))),
        Ok(Some(_)) => Ok(None),
        Err(FindError::RepeatedName(_)) => Ok(None),
        Err(FindError::OutOfMemory) => Err(PatchCause::Edit(EditError::OutOfMemory)),
    }
}

// Gives a member another name.
pub(super) fn rename<A: Allocator + Copy>(
    doc: &mut CstRootNode<A>,
    node: CstNode,
    name: &String<A>,
) -> Result<(), PatchCause<A>>
    requires { HasNode doc.old node }
    ensures made { OnOk result (RenamesAt doc.old node (chars_of name.now) doc.new) }
    ensures contents { OnOk result (KeepsContents (nodes_of doc.old) (nodes_of doc.new)) }
    ensures fails { IfErr result (FailsToRename doc.old node (chars_of name.now)) }
{
    match doc.rename_there(node, name) {
        Ok(()) => Ok(()),
        Err(error) => Err(PatchCause::Edit(error)),
    }
}
