//! Edits at paths, for lists of them.

ghost use Rattle.std.specs.Prelude.{◌≡◌, false, IfErr, OnErr, OnOk};
ghost use Rattle.jsonc_tree.specs.Tree.{IsTree};
ghost use Rattle.jsonc_run.specs.Edits.{is_sort, operation_of, unsorted, EditStep};
ghost use Rattle.jsonc_run.specs.Refusals.{IsLeft, IsTooDeep, FailsWith};
ghost use Rattle.jsonc_run.specs.promise.Within.{KeepsWithin};
ghost use Rattle.jsonc_cst.specs.Document.{nodes_of};

use crate::cst::{CstRootNode, EditError};
use jsonc_run::Edit;
use std::alloc::Allocator;

impl<A: Allocator + Copy> CstRootNode<A> {
    /// Makes an edit at its path that is no sort.
    ///
    /// On an error the document and every node that was there stay as they were; of trailing commas
    /// that were to be set those of the first arrays and objects may have been. It is refused where a
    /// value would be nested deeper than `parse` accepts, so a document that can be parsed stays one.
    #[doc(hidden)]
    pub fn make(&mut self, edit: &Edit<A>) -> Result<(), EditError>
        requires unsorted { is_sort edit.now ≡ false }
        ensures made { OnOk result
            (EditStep (nodes_of self.old) (operation_of unsorted edit.now) (nodes_of self.new)) }
        ensures error { IfErr result (FailsWith (nodes_of self.old) (operation_of unsorted edit.now)) }
        ensures left { OnErr result
            (IsLeft (nodes_of self.old) (operation_of unsorted edit.now) (nodes_of self.new)) }
        ensures fits { OnOk result (¬ (IsTooDeep (nodes_of self.old) (operation_of unsorted edit.now))) }
        ensures within { OnOk result
            (KeepsWithin (nodes_of self.old) (operation_of unsorted edit.now) (nodes_of self.new)) }
    {
        jsonc_run::make(self.alloc, &mut self.tree, edit)
    }
}
