//! The changes that edits of documents make, by rows.

ghost use Rattle.std.specs.Prelude.{◌≡◌, IfOk, false};
ghost use Rattle.jsonc_run.specs.Edits.{is_sort};

use failing_alloc::in_turn::{answers_in_turn, is_refused_in_turn};
use failing_alloc::outcome::Outcome;
use jsonc_cst::cst::{CstObjectProp, CstRootNode, EditError};
use jsonc_mends::TextChange;
use jsonc_ranges::LeafRanges;
use jsonc_run::Edit;
use jsonc_text::common::Range;
use jsonc_text::options::ParseOptions;
use std::alloc::{AllocError, Allocator};
use std::default::Default;

/// An edit, at the path of one step to a place.
#[derive(Clone, Copy)]
enum One {
    Remove(usize),
    SetBoolean(usize, bool),
    RemoveComment(usize),
    EnsureMultiline,
    Clear,
}

/// An edit, or a sort of the document's object by names.
#[derive(Clone, Copy)]
enum Step {
    Make(One),
    Sort,
}

/// Where a change begins and ends, and what it writes.
type Change = (usize, usize, &'static str);

/// A text, the edits of its document, the text after them, and the changes that they make.
type Row = (
    &'static str,
    &'static [Step],
    &'static str,
    &'static [Change],
);

static ROWS: [Row; 7] = [
    ("[1, 2]", &[], "[1, 2]", &[]),
    (
        "[1,\t2, 3,\t4, 5,\t6, 7,\t8]",
        &[
            Step::Make(One::Remove(1)),
            Step::Make(One::Remove(2)),
            Step::Make(One::Remove(3)),
            Step::Make(One::Remove(4)),
        ],
        "[1, 3, 5, 7]",
        &[(3, 6, ""), (9, 12, ""), (15, 18, ""), (20, 23, "")],
    ),
    (
        "{\r\n  \"a\": 1, // c\r\n  \"b\": true\r\n}",
        &[
            Step::Make(One::RemoveComment(0)),
            Step::Make(One::SetBoolean(1, false)),
        ],
        "{\r\n  \"a\": 1,\r\n  \"b\": false\r\n}",
        &[(12, 17, ""), (26, 30, "false")],
    ),
    (
        "[\"é\",\t\"è\", true]",
        &[
            Step::Make(One::Remove(1)),
            Step::Make(One::SetBoolean(1, false)),
        ],
        "[\"é\", false]",
        &[(6, 12, ""), (13, 17, "false")],
    ),
    (
        "{\"a\": 1}",
        &[Step::Make(One::EnsureMultiline)],
        "{\n  \"a\": 1\n}",
        &[(1, 1, "\n  "), (7, 7, "\n")],
    ),
    (
        "[true, true]",
        &[
            Step::Make(One::SetBoolean(0, false)),
            Step::Make(One::SetBoolean(0, true)),
        ],
        "[true, true]",
        &[],
    ),
    ("// c\n[1]", &[Step::Make(One::Clear)], "", &[(0, 8, "")]),
];

/// Leaves in another order: those before the last one that stays are written anew.
static SORTED: Row = (
    "{\"b\":1,\"a\":2}",
    &[Step::Sort],
    "{\"a\":2,\"b\":1}",
    &[(1, 7, ""), (12, 12, ",\"b\":1")],
);

/// The path of one step.
fn path_to<A: Allocator>(alloc: A, place: usize) -> Result<Vec<usize, A>, AllocError> {
    let mut path = Vec::new(alloc);
    path.push(place)?;
    Ok(path)
}

fn edit_of<A: Allocator>(alloc: A, one: One) -> Result<Edit<A>, AllocError>
    ensures { IfOk result (λ edit. is_sort edit ≡ false) }
{
    Ok(match one {
        One::Remove(place) => Edit::Remove(path_to(alloc, place)?),
        One::SetBoolean(place, value) => Edit::SetBoolean(path_to(alloc, place)?, value),
        One::RemoveComment(number) => Edit::RemoveComment(number),
        One::EnsureMultiline => Edit::EnsureMultiline(Vec::new(alloc)),
        One::Clear => Edit::ClearRoot,
    })
}

fn make<A: Allocator + Copy>(
    alloc: A,
    doc: &mut CstRootNode<A>,
    one: One,
) -> Result<(), EditError> {
    match edit_of(alloc, one) {
        Ok(edit) => doc.make(&edit),
        Err(_) => Err(EditError::OutOfMemory),
    }
}

fn sort<A: Allocator + Copy>(doc: &mut CstRootNode<A>) -> Result<(), EditError> {
    let Some(object) = doc.object_value() else {
        return Ok(());
    };
    object.sort_properties().by_key(
        doc,
        |doc: &CstRootNode<_>, property: CstObjectProp| match property.decoded_name(doc) {
            Ok(name) => Ok(name),
            Err(_) => Err(EditError::OutOfMemory),
        },
    )
}

/// Whether a row has this change at a number.
fn is_there(changes: &[Change], number: usize, change: &TextChange<'_>) -> bool {
    match changes.get(number) {
        Some((start, end, text)) => {
            change.range == Range::new(*start, *end) && change.new_text == *text
        }
        None => false,
    }
}

/// Whether these are the row's changes.
fn are_there(changes: &[Change], found: &[TextChange<'_>]) -> bool {
    if found.len() != changes.len() {
        return false;
    }
    for (number, change) in found.iter().enumerate() {
        if !is_there(changes, number, change) {
            return false;
        }
    }
    true
}

/// Makes the edits of a row.
fn edited<A: Allocator + Copy>(
    alloc: A,
    doc: &mut CstRootNode<A>,
    steps: &[Step],
) -> Result<(), EditError> {
    for step in steps {
        match step {
            Step::Make(one) => make(alloc, doc, *one)?,
            Step::Sort => sort(doc)?,
        }
    }
    Ok(())
}

/// What came of a row under an allocator.
fn comes<A: Allocator + Copy>(alloc: A, row: &Row) -> Outcome {
    let (old, steps, new, changes) = row;
    let mut doc = match CstRootNode::parse(alloc, old, &ParseOptions::default()) {
        Ok(doc) => doc,
        Err(error) => return Outcome::from(error),
    };
    let ranges = match LeafRanges::of(alloc, &doc) {
        Ok(ranges) => ranges,
        Err(error) => return error.into(),
    };
    if let Err(error) = edited(alloc, &mut doc, steps) {
        return Outcome::from(error);
    }
    let is_new = match doc.text() {
        Ok(text) => text.as_str() == *new,
        Err(error) => return Outcome::from(error),
    };
    match ranges.changes(alloc, &doc, old, new) {
        Ok(found) => Outcome::of(is_new && are_there(changes, found.as_slice())),
        Err(error) => error.into(),
    }
}

/// What came of the row of a number.
fn comes_at<A: Allocator + Copy>(alloc: A, number: usize) -> Outcome {
    match ROWS.get(number) {
        Some(row) => comes(alloc, row),
        None => Outcome::Other,
    }
}

/// The changes to another text than the document's.
fn to_other<A: Allocator + Copy>(alloc: A) -> Outcome {
    let doc = match CstRootNode::parse(alloc, "[1]", &ParseOptions::default()) {
        Ok(doc) => doc,
        Err(error) => return Outcome::from(error),
    };
    let ranges = match LeafRanges::of(alloc, &doc) {
        Ok(ranges) => ranges,
        Err(error) => return error.into(),
    };
    match ranges.changes(alloc, &doc, "é", "[2") {
        Ok(found) => Outcome::of(are_there(&[(0, 2, "[2")], found.as_slice())),
        Err(error) => error.into(),
    }
}

#[test]
fn edits_are_changes_between_the_leaves_that_stay(rt: HostRuntime) {
    for number in 0..ROWS.len() {
        assert!(rt; is_refused_in_turn(rt.alloc(), |heap| comes_at(heap, number)));
    }
}

#[test]
fn leaves_in_another_order_are_written_anew(rt: HostRuntime) {
    assert!(rt; answers_in_turn(rt.alloc(), |heap| comes(heap, &SORTED)));
}

#[test]
fn other_texts_are_one_change(rt: HostRuntime) {
    assert!(rt; is_refused_in_turn(rt.alloc(), |heap| to_other(heap)));
}
