//! Edits: what they write and tell, and each request for memory, refused in turn.

use crate::tests::rows::{Row, TOLD, WRITTEN};
use failing_alloc::awaited::prints;
use failing_alloc::in_turn::answers_in_turn;
use failing_alloc::outcome::Outcome;
use jsonc_engine::command::Place;
use jsonc_parser::ParseOptions;
use jsonc_program::edit::{Edit, EditFault, Target, edited};
use std::alloc::Allocator;
use std::test::Fail;

/// Whether a fault tells of memory alone.
pub fn is_of_memory<A: Allocator>(fault: &EditFault<A>) -> bool {
    match fault {
        EditFault::Engine(fault) => engine_runs::is_of_memory(fault),
        _ => false,
    }
}

/// The removal of what is there.
fn removal<'a>(target: Target<'a>, with_comments: bool, must_exist: bool) -> Edit<'a> {
    Edit::Remove {
        target,
        with_comments,
        must_exist,
    }
}

/// A comment.
fn comment<'a>(word: &'a str, text: &'a str, is_after: bool) -> Edit<'a> {
    Edit::Comment {
        place: Place::from_word(word),
        text,
        is_after,
    }
}

/// A sort.
fn sort<'a>(at: Option<Place<'a>>, is_recursive: bool, keeps_headers: bool) -> Edit<'a> {
    Edit::Sort {
        at,
        is_recursive,
        keeps_headers,
    }
}

/// The edit that words name.
fn edit_of<'a>(words: &[&'a str]) -> Option<Edit<'a>> {
    match words {
        ["put", pointer, json] => Some(Edit::Put { pointer, json }),
        ["replace", word, json] => Some(Edit::Replace {
            target: Target::At(Place::from_word(word)),
            json,
        }),
        ["set", name, json] => Some(Edit::Replace {
            target: Target::Named(name),
            json,
        }),
        ["drop", word] => Some(removal(Target::At(Place::from_word(word)), false, false)),
        ["drop", "--comments", word] => {
            Some(removal(Target::At(Place::from_word(word)), true, false))
        }
        ["remove", name] => Some(removal(Target::Named(name), false, true)),
        ["rename", word, name] => Some(Edit::Rename {
            place: Place::from_word(word),
            name,
        }),
        ["comment", word, text] => Some(comment(word, text, false)),
        ["comment", "--after", word, text] => Some(comment(word, text, true)),
        ["sort"] => Some(sort(None, false, false)),
        ["sort", "--recursive"] => Some(sort(None, true, false)),
        ["sort", "--keep-headers"] => Some(sort(None, false, true)),
        ["sort", "--at", word] => Some(sort(Some(Place::from_word(word)), false, false)),
        _ => None,
    }
}

/// What came of an edit that can succeed.
fn outcome_of<A: Allocator + Copy>(heap: A, row: &Row) -> Outcome {
    let (words, input, output) = *row;
    let Some(edit) = edit_of(words) else {
        return Outcome::Other;
    };
    match edited(heap, &ParseOptions::default(), edit, input.as_bytes()) {
        Ok(text) => Outcome::of(text.as_str() == output),
        Err(fault) if is_of_memory(&fault) => Outcome::Wanted,
        Err(_) => Outcome::Other,
    }
}

/// What came of the edit of a number.
fn outcome_at<A: Allocator + Copy>(heap: A, number: usize) -> Outcome {
    match WRITTEN.get(number) {
        Some(row) => outcome_of(heap, row),
        None => Outcome::Other,
    }
}

/// A list that is collected asks again for less where a request was refused, so an edit may be made though one was.
#[test]
fn each_request_is_refused_in_turn(rt: HostRuntime) -> Result<(), Fail> {
    for number in 0..WRITTEN.len() {
        assert!(rt;
            answers_in_turn(rt.alloc(), |heap| outcome_at(heap, number)),
            "edit {number}"
        );
    }
    Ok(())
}

/// What came of an edit that fails whatever memory there is. It tells its cause, or, of memory that was refused, that.
fn outcome_of_cause<A: Allocator + Copy>(heap: A, row: &Row) -> Outcome {
    let (words, input, line) = *row;
    let Some(edit) = edit_of(words) else {
        return Outcome::Other;
    };
    match edited(heap, &ParseOptions::default(), edit, input.as_bytes()) {
        Ok(_text) => Outcome::Other,
        Err(fault) if prints(&fault, line) => Outcome::Answered,
        Err(fault) if is_of_memory(&fault) => Outcome::Wanted,
        Err(_) => Outcome::Other,
    }
}

/// What came of the failing edit of a number.
fn cause_at<A: Allocator + Copy>(heap: A, number: usize) -> Outcome {
    match TOLD.get(number) {
        Some(row) => outcome_of_cause(heap, row),
        None => Outcome::Other,
    }
}

#[test]
fn a_cause_is_told_or_want_of_memory(rt: HostRuntime) -> Result<(), Fail> {
    for number in 0..TOLD.len() {
        assert!(rt;
            answers_in_turn(rt.alloc(), |heap| cause_at(heap, number)),
            "fault {number}"
        );
    }
    Ok(())
}

#[test]
fn a_comment_wants_options_that_allow_it(rt: HostRuntime) -> Result<(), Fail> {
    match edited(
        rt.alloc(),
        &ParseOptions::json(),
        comment("", "c", false),
        b"1",
    ) {
        Err(EditFault::NoComments) => {}
        _ => assert!(rt; false),
    }
    Ok(())
}
