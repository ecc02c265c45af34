//! Trailing commas of which some are refused.

use crate::tests::changes::Change;
use crate::tests::reading::read;
use crate::tests::rows::{Edits, make};
use failing_alloc::Refusing;
use failing_alloc::awaited::prints;
use failing_alloc::in_turn::refused_in_turn;
use failing_alloc::outcome::Outcome;
use jsonc_parser::cst::{CstRootNode, EditError, TrailingCommaMode};
use std::alloc::{AllocError, Allocator, Global};
use std::test::Fail;

const SET_COMMAS: Change = Change::SetTrailingCommas(TrailingCommaMode::IfMultiline);

/// The commas of a whole document, by a list of edits and by the call on its root.
static WAYS: [Edits; 2] = [Edits::List(&[(&[], SET_COMMAS)]), Edits::Node(SET_COMMAS)];

/// How many arrays stand in the one of the text: so many that a document that was read has no room for a comma
/// in each.
const MANY: usize = 40;

/// Arrays over lines in an array over lines, with so many commas behind last elements: that of the outer array,
/// and those of the arrays that come first in it.
fn with_commas(alloc: Global, count: usize) -> Result<String, AllocError> {
    let mut text = String::from_str(alloc, "[")?;
    for place in 1..MANY {
        text.push_str(if place < count {
            "\n[\n1,\n],"
        } else {
            "\n[\n1\n],"
        })?;
    }
    text.push_str(if MANY < count {
        "\n[\n1,\n]"
    } else {
        "\n[\n1\n]"
    })?;
    text.push_str(if 0 < count { ",\n]" } else { "\n]" })?;
    Ok(text)
}

/// How many of the commas a document has.
fn commas_in<A: Allocator>(alloc: Global, doc: &CstRootNode<A>) -> Option<usize> {
    (0..MANY + 2).find(|count| match with_commas(alloc, *count) {
        Ok(text) => prints(doc, text.as_str()),
        Err(_) => false,
    })
}

/// What comes of the commas: all stand, or where one was refused those before it.
fn outcome(alloc: Global, heap: &Refusing<Global>, way: Edits) -> Outcome {
    let Ok(bare) = with_commas(alloc, 0) else {
        return Outcome::Other;
    };
    let mut doc = match read(heap, bare.as_str()) {
        Ok(doc) => doc,
        Err(outcome) => return outcome,
    };
    let (_, done) = make(&mut doc, heap, way);
    match (done, commas_in(alloc, &doc)) {
        (Ok(()), Some(count)) => Outcome::of(count == MANY + 1),
        (Err(error), Some(_)) => Outcome::from(error),
        _ => Outcome::Other,
    }
}

/// Whether some of the commas stand, and not all, where the request of this number is refused.
fn stand_in_part(alloc: Global, number: u64, way: Edits) -> bool {
    let heap = Refusing::at(alloc, number);
    let Ok(bare) = with_commas(alloc, 0) else {
        return false;
    };
    let Ok(mut doc) = read(&heap, bare.as_str()) else {
        return false;
    };
    let made = make(&mut doc, &heap, way);
    made == (0, Err(EditError::OutOfMemory)) && matches!(commas_in(alloc, &doc), Some(1..=MANY))
}

#[test]
fn commas_are_refused_in_part(rt: HostRuntime) -> Result<(), Fail> {
    let alloc = rt.alloc();
    for way in &WAYS {
        assert!(rt; refused_in_turn(alloc, |heap| outcome(alloc, heap, *way)).is_some());
        assert!(rt; (0..1000u64).any(|number| stand_in_part(alloc, number, *way)));
    }
    Ok(())
}
