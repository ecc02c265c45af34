//! Each request for memory of a call, refused in turn.

use crate::tests::edits::edited;
use crate::tests::inputs::inputs;
use crate::tests::named_values::named_values;
use crate::tests::trees::{changed_tree, counted_lines};
use crate::tests::typed::{children, names};
use failing_alloc::in_turn::is_refused_in_turn;
use failing_alloc::outcome::Outcome;
use jsonc_parser::cst::EditError;
use std::alloc::Allocator;
use std::test::Fail;

/// More numbers than a list has room for at first, pushed as in an edit.
fn numbers<A: Allocator>(alloc: A) -> Result<Vec<u8, A>, EditError> {
    let mut numbers = Vec::new(alloc);
    for number in 0..9 {
        numbers.push(number)?;
    }
    Ok(numbers)
}

/// Whether all were pushed, or their memory was wanted.
fn pushed<A: Allocator>(alloc: A) -> Outcome {
    match numbers(alloc) {
        Ok(numbers) => Outcome::of(numbers.len() == 9),
        Err(error) => Outcome::from(error),
    }
}

#[test]
fn each_request_is_refused_in_turn(rt: HostRuntime) -> Result<(), Fail> {
    let alloc = rt.alloc();
    assert!(rt; is_refused_in_turn(alloc, |heap| inputs(heap)));
    assert!(rt; is_refused_in_turn(alloc, |heap| children(heap)));
    assert!(rt; is_refused_in_turn(alloc, |heap| names(heap)));
    assert!(rt; is_refused_in_turn(alloc, |heap| named_values(heap)));
    assert!(rt; is_refused_in_turn(alloc, |heap| changed_tree(heap)));
    assert!(rt; is_refused_in_turn(alloc, |heap| counted_lines(heap)));
    assert!(rt; is_refused_in_turn(alloc, |heap| edited(heap)));
    assert!(rt; is_refused_in_turn(alloc, |heap| pushed(heap)));
    Ok(())
}
