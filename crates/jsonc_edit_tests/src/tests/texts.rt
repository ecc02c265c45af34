//! Texts that are edited with no document in between, and why one is not.

use crate::tests::changes::push_edits;
use crate::tests::lists::ROWS;
use crate::tests::rows::{Edits, Row};
use crate::tests::sorts::compare;
use failing_alloc::awaited::prints;
use failing_alloc::in_turn::is_refused_in_turn;
use failing_alloc::outcome::Outcome;
use jsonc_parser::ParseOptions;
use jsonc_parser::cst::{CstNode, CstRootNode, EditError, EditTextError, edit_text};
use std::alloc::Allocator;
use std::default::Default;
use std::test::Fail;

/// Edits the text of a row.
fn edited<A: Allocator + Copy>(alloc: A, row: &Row<'_>) -> Result<String<A>, EditTextError> {
    let Edits::List(steps) = row.0 else {
        return Err(EditTextError::Edit(0, EditError::MissingName));
    };
    let mut edits = Vec::new(alloc);
    if push_edits(&mut edits, alloc, steps).is_err() {
        return Err(EditTextError::Edit(0, EditError::OutOfMemory));
    }
    let compare = |doc: &CstRootNode<_>, one: CstNode, other: CstNode| compare(doc, one, other);
    edit_text(alloc, row.1, &ParseOptions::default(), edits, &compare)
}

/// The edits of a row lead to its last text, or the first that has no place, or whose comment is refused, is told by its
/// number.
fn outcome<A: Allocator + Copy>(alloc: A, row: &Row<'_>) -> Outcome {
    match edited(alloc, row) {
        Ok(text) => Outcome::of(row.2.last() == Some(&text.as_str())),
        Err(EditTextError::Parse(error)) => Outcome::from(error),
        Err(
            EditTextError::Edit(
                made,
                EditError::NoSuchPlace | EditError::InvalidComment | EditError::LineContinues,
            ),
        ) => Outcome::of(made == row.2.len()),
        Err(EditTextError::Edit(_, error)) => Outcome::from(error),
    }
}

#[test]
fn texts_are_edited_with_each_request_refused_in_turn(rt: HostRuntime) -> Result<(), Fail> {
    let alloc = rt.alloc();
    for row in &ROWS {
        assert!(rt;
            is_refused_in_turn(alloc, |heap| outcome(heap, row)),
            "{}",
            row.1
        );
    }
    Ok(())
}

#[test]
fn errors_are_told_of_the_text_or_of_an_edit(rt: HostRuntime) -> Result<(), Fail> {
    let refused = edited(rt.alloc(), &(Edits::List(&[]), "[1", &[]));
    let is_told = match refused {
        Ok(_) => false,
        Err(fault) => prints(&fault, "Unterminated array on line 1 column 1"),
    };
    assert!(rt; is_told);
    let stop = EditTextError::Edit(2, EditError::NoSuchPlace);
    assert!(rt; prints(&stop, "No such place, edits made before: 2"));
    Ok(())
}
