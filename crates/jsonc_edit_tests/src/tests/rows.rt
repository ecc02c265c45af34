//! Rows of edits and texts, and what comes of them.

use crate::tests::changes::{Change, Step, Way, push_edits};
use crate::tests::nodes::change_node;
use crate::tests::reading::{read, value_of};
use crate::tests::sorts::{By, compare, sort_value};
use failing_alloc::Refusing;
use failing_alloc::awaited::prints;
use failing_alloc::in_turn::{answers_in_turn, is_refused_in_turn};
use failing_alloc::outcome::Outcome;
use jsonc_parser::cst::{CstNode, CstRootNode, EditError, run};
use std::alloc::{Allocator, Global};

/// What is made of a document.
#[derive(Clone, Copy)]
pub enum Edits<'a> {
    /// A list of edits.
    List(&'a [Step]),
    /// One change, by the calls on typed nodes.
    Node(Change),
    /// One sort, by the calls on typed nodes.
    Sort(By),
}

/// Edits, the text before them, and the text after each that is made: where these are fewer than the edits,
/// the next has no place, or the comment that it is to insert is refused.
pub type Row<'a> = (Edits<'a>, &'a str, &'a [&'a str]);

/// Makes a list of edits, none where there is no memory for the list.
pub fn run_steps<A: Allocator + Copy>(
    doc: &mut CstRootNode<A>,
    alloc: A,
    steps: &[Step],
) -> Result<(), (usize, EditError)> {
    let mut edits = Vec::new(alloc);
    if push_edits(&mut edits, alloc, steps).is_err() {
        return Err((0, EditError::OutOfMemory));
    }
    let compare = |doc: &CstRootNode<_>, one: CstNode, other: CstNode| compare(doc, one, other);
    run(doc, edits, &compare)
}

/// Makes edits, and tells how many were made, and why the next was not where one was refused.
pub fn make<A: Allocator + Copy>(
    doc: &mut CstRootNode<A>,
    alloc: A,
    edits: Edits<'_>,
) -> (usize, Result<(), EditError>) {
    let made = match edits {
        Edits::List(steps) => match run_steps(doc, alloc, steps) {
            Ok(()) => return (steps.len(), Ok(())),
            Err((count, error)) => return (count, Err(error)),
        },
        Edits::Node(change) => change_node(doc, alloc, change),
        Edits::Sort(by) => sort_value(doc, by),
    };
    (usize::from(made.is_ok()), made)
}

/// Whether a document is as so many edits of a row left it.
fn prints_at<A: Allocator>(doc: &CstRootNode<A>, row: &Row<'_>, made: usize) -> bool {
    let Some(place) = made.checked_sub(1) else {
        return prints(doc, row.1);
    };
    match row.2.get(place) {
        Some(text) => prints(doc, text),
        None => false,
    }
}

/// Makes the edits of a row of its text: all that have a place are made, or some for allocation failure; and the
/// document is as those left it.
fn outcome<A: Allocator + Copy>(alloc: A, row: &Row<'_>) -> Outcome {
    let mut doc = match read(alloc, row.1) {
        Ok(doc) => doc,
        Err(outcome) => return outcome,
    };
    let (made, done) = make(&mut doc, alloc, row.0);
    if !prints_at(&doc, row, made) {
        return Outcome::Other;
    }
    match done {
        Ok(())
        | Err(EditError::NoSuchPlace | EditError::InvalidComment | EditError::LineContinues) => {
            Outcome::of(made == row.2.len())
        }
        Err(error) => Outcome::from(error),
    }
}

/// Whether the edits of a row want memory or are made with each request refused in turn, and are made then.
pub fn is_made_in_turn(alloc: Global, row: &Row<'_>) -> bool {
    answers_in_turn(alloc, |heap| outcome(heap, row))
}

/// How many requests come before the edits of a row: for its text, and for what they write.
fn asked_before(alloc: Global, row: &Row<'_>) -> u64 {
    let heap = Refusing::at(alloc, u64::MAX);
    drop(read(&heap, row.1));
    match row.0 {
        Edits::List(steps) => drop(push_edits(&mut Vec::new(&heap), &heap, steps)),
        Edits::Node(Change::Value(Way::Append, text)) => drop(value_of(&heap, text)),
        _ => {}
    }
    heap.asked()
}

/// What comes of the edits of a row where every request for them is refused, and whether they make one.
fn without_memory(alloc: Global, row: &Row<'_>) -> (Outcome, bool) {
    let asked = asked_before(alloc, row);
    let heap = Refusing::after(alloc, asked);
    let outcome = outcome(&heap, row);
    (outcome, heap.asked() > asked)
}

/// The memory that the edits of a row want.
#[derive(Clone, Copy)]
pub enum Memory {
    /// The text, what is written or an edit wants some.
    Some,
    /// An edit wants some once the text is read and what is written is there.
    Edits,
    /// No edit wants any.
    None,
}

/// Whether the edits of a row want this memory, and want memory with each request refused in turn and are made
/// then.
pub fn wants(alloc: Global, memory: Memory, row: &Row<'_>) -> bool {
    let wants_it = match memory {
        Memory::Some => true,
        Memory::Edits => without_memory(alloc, row) == (Outcome::Wanted, true),
        Memory::None => without_memory(alloc, row) == (Outcome::Answered, false),
    };
    wants_it && is_refused_in_turn(alloc, |heap| outcome(heap, row))
}
