//! Each request for memory, refused in turn.

use crate::tests::findings::{ROWS, outcome_of};
use crate::tests::lines::{Form, outcome_of_lines};
use crate::tests::whole::{WHOLE_ROWS, outcome_of_whole};
use failing_alloc::in_turn::is_refused_in_turn;
use std::test::Fail;

#[test]
fn each_request_is_refused_in_turn(rt: HostRuntime) -> Result<(), Fail> {
    for row in &ROWS {
        assert!(rt;
            is_refused_in_turn(rt.alloc(), |heap| outcome_of(heap, *row)),
            "{:?}",
            row.0
        );
    }
    Ok(())
}

#[test]
fn each_request_is_refused_in_turn_of_texts_with_faults(rt: HostRuntime) -> Result<(), Fail> {
    for row in &WHOLE_ROWS {
        assert!(rt;
            is_refused_in_turn(rt.alloc(), |heap| outcome_of_whole(heap, *row)),
            "{:?}",
            row.0
        );
    }
    Ok(())
}

#[test]
fn each_request_of_lines_is_refused_in_turn(rt: HostRuntime) -> Result<(), Fail> {
    for form in [Form::File, Form::Input, Form::Json] {
        assert!(rt; is_refused_in_turn(rt.alloc(), |heap| outcome_of_lines(heap, form)));
    }
    Ok(())
}
