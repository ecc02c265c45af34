//! What is told of each fault of one text, and places of the text and of its mended text.

use jsonc_mends::{Mends, mend};
use jsonc_text::common::Range;
use jsonc_text::errors::ParseErrorKind;
use jsonc_text::options::ParseOptions;
use std::alloc::{AllocError, Allocator, Global};
use std::test::Fail;

static TEXT: &str = "{\n  \"a\": 1 \"\u{e9}\": tru,\n  \"b\": [1, 2\n}";

/// A fault's kind, its line and column, where the bytes that are replaced begin and end, and what stands in their place.
type Row = (ParseErrorKind, usize, usize, usize, usize, &'static str);

static ROWS: [Row; 3] = [
    (ParseErrorKind::ExpectedComma, 2, 9, 10, 10, ","),
    (ParseErrorKind::UnexpectedToken, 2, 15, 17, 20, "\"tru\""),
    (ParseErrorKind::UnexpectedCloseBrace, 4, 1, 34, 34, "]"),
];

/// Places of the text, and of the mended text.
static PLACES: [(usize, usize); 8] = [
    (0, 0),
    (9, 9),
    (10, 11),
    (16, 17),
    (17, 18),
    (20, 23),
    (34, 38),
    (36, 40),
];

/// Whether the mend of a number is the row's.
fn is_told<A: Allocator>(mends: &Mends<A>, number: usize, row: &Row) -> bool {
    let (kind, line, column, start, end, new) = *row;
    match (mends.list().get(number), mends.new_text(number)) {
        (Some(mend), Some(text)) => {
            mend.fault.kind == kind
                && mend.at.line == line
                && mend.at.column == column
                && mend.range.start == start
                && mend.range.end == end
                && text == new
        }
        _ => false,
    }
}

/// Whether the mends are those of the rows, and no others.
fn are_told<A: Allocator>(mends: &Mends<A>) -> bool {
    for number in 0..ROWS.len() {
        if !is_told(mends, number, &ROWS[number]) {
            return false;
        }
    }
    mends.list().len() == ROWS.len() && mends.new_text(ROWS.len()).is_none()
}

/// Whether places go with one another, both ways.
fn places_match<A: Allocator>(mends: &Mends<A>) -> bool {
    PLACES.iter().all(|(old, new)| mends.mended_place(*old) == *new
        && mends.text_place(*new) == *old)
}

fn mends_of(alloc: Global) -> Result<Mends<Global>, AllocError> {
    mend(alloc, TEXT, &ParseOptions::json())
}

#[test]
fn faults_are_told_with_their_changes(rt: HostRuntime) -> Result<(), Fail> {
    let mends = mends_of(rt.alloc())?;
    assert!(rt; are_told(&mends));
    Ok(())
}

#[test]
fn places_go_with_one_another(rt: HostRuntime) -> Result<(), Fail> {
    let mends = mends_of(rt.alloc())?;
    assert!(rt; places_match(&mends));
    assert_eq!(rt; mends.mended_place(18), 18);
    assert_eq!(rt; mends.text_place(19), 17);
    Ok(())
}

/// Ranges of the mended text, and whether one change wrote all of each.
static RANGES: [(usize, usize, bool); 7] = [
    (10, 11, true),
    (10, 12, false),
    (10, 10, false),
    (9, 11, false),
    (18, 23, true),
    (19, 20, true),
    (11, 18, false),
];

/// Whether each range was written as its row says.
fn are_written<A: Allocator>(mends: &Mends<A>) -> bool {
    RANGES.iter().all(|(start, end, written)| {
        mends.is_written(Range::new(*start, *end)) == *written
    })
}

/// Whether the change of each number is the row's.
fn are_changes<A: Allocator>(mends: &Mends<A>) -> bool {
    for number in 0..ROWS.len() {
        let (_, _, _, start, end, new) = ROWS[number];
        let Some(change) = mends.change(number) else {
            return false;
        };
        if change.range != Range::new(start, end) || change.new_text != new {
            return false;
        }
    }
    mends.change(ROWS.len()).is_none()
}

#[test]
fn changes_are_those_of_the_text(rt: HostRuntime) -> Result<(), Fail> {
    let mends = mends_of(rt.alloc())?;
    assert!(rt; are_changes(&mends));
    assert!(rt; are_written(&mends));
    let (text, list) = mends.into_parts();
    assert_eq!(rt;
        text.as_str(),
        "{\n  \"a\": 1, \"\u{e9}\": \"tru\",\n  \"b\": [1, 2]\n}"
    );
    assert_eq!(rt; list.len(), ROWS.len());
    Ok(())
}

#[test]
fn documents_have_no_mends(rt: HostRuntime) -> Result<(), Fail> {
    let mends = mend(rt.alloc(), "{\"a\": [1, 2]}", &ParseOptions::json())?;
    assert!(rt; mends.list().is_empty());
    assert!(rt; mends.text() == "{\"a\": [1, 2]}");
    Ok(())
}
