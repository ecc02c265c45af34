//! Copies of documents, and the memory that they want.

use crate::tests::reading::read;
use failing_alloc::awaited::prints;
use failing_alloc::in_turn::is_refused_in_turn;
use failing_alloc::outcome::Outcome;
use jsonc_parser::cst::{CstInputValue, CstRootNode, EditError};
use std::alloc::{Allocator, Global};

/// A text with leaves of many kinds.
const TEXT: &str = "// c\r\n{ a: [1, true, null], \"b\": '\\n' /* d */ }\n";

/// The same with another value, which is a string of its own text.
const CHANGED: &str = "// c\r\n\"x\"\n";

/// Sets the document's value to a string.
fn change<A: Allocator + Copy>(alloc: A, doc: &mut CstRootNode<A>) -> Result<(), EditError> {
    doc.set_value(CstInputValue::from_str(alloc, "x")?)?;
    Ok(())
}

/// A copy is edited, and copied once more: what it was made of prints as before, and the second copy as the first.
fn copied<A: Allocator + Copy>(alloc: A) -> Result<bool, Outcome> {
    let doc = read(alloc, TEXT)?;
    let mut copy = doc.try_clone()?;
    change(alloc, &mut copy)?;
    let second = copy.try_clone()?;
    Ok(prints(&doc, TEXT) && prints(&copy, CHANGED) && prints(&second, CHANGED))
}

fn are_copied<A: Allocator + Copy>(alloc: A) -> Outcome {
    Outcome::of_answer(copied(alloc), &true)
}

#[test]
fn documents_are_copied_in_turn(rt: HostRuntime) {
    assert!(rt; are_copied::<Global>(rt.alloc()) == Outcome::Answered);
    assert!(rt; is_refused_in_turn(rt.alloc(), |heap| are_copied(heap)));
}
