//! Edits of cases, made on documents.

use crate::edits::Step;
use crate::raw::make_raw;
use crate::refusal::Refusal;
use crate::sorted::{compare_nodes, make_sort};
use jsonc_parser::cst::{CstNode, CstRootNode, Edit, run};
use std::alloc::Global;

/// Makes an edit.
pub fn make_step(alloc: Global, doc: &mut CstRootNode<Global>, step: Step) -> Result<(), Refusal> {
    match step {
        Step::Listed(edit) => make_listed(alloc, doc, edit),
        Step::Raw(edit) => make_raw(alloc, doc, edit),
        Step::Sort(edit) => make_sort(alloc, doc, edit),
    }
}

/// Makes a list of this edit.
fn make_listed(
    alloc: Global,
    doc: &mut CstRootNode<Global>,
    edit: Edit<Global>,
) -> Result<(), Refusal> {
    let mut edits = Vec::new(alloc);
    edits.push(edit)?;
    let compare = |doc: &CstRootNode<Global>, one: CstNode, other: CstNode| compare_nodes(
        alloc, doc, one, other,
    );
    match run(doc, edits, &compare) {
        Ok(()) => Ok(()),
        Err((_, error)) => Err(error.into()),
    }
}
