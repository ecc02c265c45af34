//! Calls on texts alone, and values read by reference.

use bumpalo::Bump;
use failing_alloc::Refusing;
use failing_alloc::in_turn::is_refused_in_turn;
use failing_alloc::outcome::Outcome;
use jsonc_parser::common::Range;
use jsonc_parser::cst::CstRootNode;
use jsonc_parser::{
    JsonObject, JsonValue, LineAndColumn, LineIndex, ParseOptions, TextChange, Utf16Change,
    line_and_column, line_and_column_utf16, parse_to_value, place_of, place_of_utf16, text_change,
    utf16_change,
};
use std::alloc::{AllocError, Allocator, Global};
use std::test::Fail;

/// An old text, a new one, and the change between them.
static CHANGED: [(&str, &str, usize, usize, &str); 7] = [
    ("{\"a\": 1}", "{\"a\": 12}", 7, 7, "2"),
    ("{\"a\": 1, \"b\": 2}", "{\"b\": 2}", 2, 10, ""),
    ("aa", "aaa", 2, 2, "a"),
    ("abab", "ab", 2, 4, ""),
    ("é", "è", 0, 2, "è"),
    ("a", "", 0, 1, ""),
    ("", "", 0, 0, ""),
];

/// An old text, a new one, and the line and UTF-16 column where the change between them begins, those where it ends, and
/// its text. No position of the Language Server Protocol is within a pair of surrogates or a CR LF.
static CHANGED_UTF16: [(&str, &str, (usize, usize), (usize, usize), &str); 13] = [
    ("{\"a\": 1}", "{\"a\": 12}", (1, 8), (1, 8), "2"),
    ("é", "è", (1, 1), (1, 2), "è"),
    ("😀", "😁", (1, 1), (1, 3), "😁"),
    ("😀a", "😀b", (1, 3), (1, 4), "b"),
    ("x\ry", "x\rz", (2, 1), (2, 2), "z"),
    ("a\r\nb", "a\nb", (1, 2), (2, 1), "\n"),
    ("a\r\nb", "a\rb", (1, 2), (2, 1), "\r"),
    ("a\nb", "a\r\nb", (1, 2), (1, 2), "\r"),
    ("a\rb", "a\r\nb", (2, 1), (2, 1), "\n"),
    ("a\r\n\r\nb", "a\r\nb", (2, 1), (3, 1), ""),
    ("\r\n\rb", "\rb", (1, 1), (2, 1), ""),
    ("\rx\r\n", "\r\n", (2, 1), (3, 1), "\n"),
    ("", "", (1, 1), (1, 1), ""),
];

/// A text, a line and a column, and the place of these.
static PLACED: [(&str, usize, usize, Option<usize>); 11] = [
    ("{\n  \"a\": 1\n}", 2, 3, Some(4)),
    ("{\n  \"a\": 1\n}", 2, 9, Some(10)),
    ("{\n  \"a\": 1\n}", 2, 10, None),
    ("{\n  \"a\": 1\n}", 3, 2, Some(12)),
    ("{\n  \"a\": 1\n}", 4, 1, None),
    ("a\r\nb", 1, 3, Some(2)),
    ("a\r\nb", 2, 1, Some(3)),
    ("a\rb", 2, 1, Some(2)),
    ("é1", 1, 2, Some(2)),
    ("", 1, 1, Some(0)),
    ("", 0, 0, None),
];

/// A text, a line and a column in UTF-16 code units, and the place of these.
static PLACED_UTF16: [(&str, usize, usize, Option<usize>); 9] = [
    ("a😀b", 1, 2, Some(1)),
    ("a😀b", 1, 3, None),
    ("a😀b", 1, 4, Some(5)),
    ("a😀b", 1, 5, Some(6)),
    ("\u{FFFF}\u{10000}", 1, 3, None),
    ("\u{FFFF}\u{10000}", 1, 4, Some(7)),
    ("😀\r\n𝄞x", 1, 4, Some(5)),
    ("😀\n", 1, 4, None),
    ("😀\r\n𝄞x", 2, 3, Some(10)),
];

#[test]
fn changes_are_the_smallest(rt: HostRuntime) {
    for (old, new, start, end, text) in &CHANGED {
        let change = text_change(old, new);
        assert!(rt; change.range == Range::new(*start, *end) && change.new_text == *text);
    }
}

#[test]
fn changes_are_told_by_lines(rt: HostRuntime) {
    for (old, new, start, end, text) in &CHANGED_UTF16 {
        let change = utf16_change(old, new);
        assert!(rt; change.start.line == start.0 && change.start.column == start.1);
        assert!(rt; change.end.line == end.0 && change.end.column == end.1);
        assert!(rt; change.new_text == *text);
    }
}

/// Whether a change begins and ends on line 2, in this column, and is on no other line.
fn is_on_line_2(change: Option<Utf16Change<'_>>, column: usize) -> bool {
    let Some(change) = change else {
        return false;
    };
    let at = LineAndColumn { line: 2, column };
    change.start == at
        && change.end == at
        && change.is_on_lines(1, 2)
        && change.is_on_lines(2, 3)
        && !change.is_on_lines(1, 1)
        && !change.is_on_lines(3, 9)
}

#[test]
fn an_index_tells_changes_by_lines(rt: HostRuntime) -> Result<(), Fail> {
    let lines = LineIndex::new(rt.alloc(), "[\n\"😀\"1]")?;
    let change = |start: usize, end: usize| TextChange {
        range: Range::new(start, end),
        new_text: " ",
    };
    assert!(rt; is_on_line_2(lines.utf16_change(change(8, 8)), 5));
    assert!(rt; lines.utf16_change(change(4, 8)) == None);
    assert!(rt; lines.utf16_change(change(8, 99)) == None);
    Ok(())
}

#[test]
fn lines_and_columns_have_places(rt: HostRuntime) {
    for (text, line, column, place) in &PLACED {
        assert!(rt; place_of(text, *line, *column) == *place);
    }
}

/// Whether the lines of a text, found under an allocator, tell this of a line, a column and a place.
fn is_indexed<A: Allocator + Copy>(
    alloc: A,
    text: &str,
    line: usize,
    column: usize,
    place: Option<usize>,
) -> Result<bool, AllocError> {
    let lines = LineIndex::new(alloc, text)?;
    let Some(place) = place else {
        return Ok(lines.place_of(line, column) == None);
    };
    let at = Some(LineAndColumn { line, column });
    Ok(lines.place_of(line, column) == Some(place) && lines.line_and_column(place) == at)
}

/// The same, where the column counts UTF-16 code units.
fn is_indexed_utf16<A: Allocator + Copy>(
    alloc: A,
    text: &str,
    line: usize,
    column: usize,
    place: Option<usize>,
) -> Result<bool, AllocError> {
    let lines = LineIndex::new(alloc, text)?;
    let Some(place) = place else {
        return Ok(lines.place_of_utf16(line, column) == None);
    };
    let at = Some(LineAndColumn { line, column });
    let is_found = lines.place_of_utf16(line, column) == Some(place);
    Ok(is_found && lines.line_and_column_utf16(place) == at)
}

#[test]
fn line_indexes_tell_the_same(rt: HostRuntime) -> Result<(), Fail> {
    for (text, line, column, place) in &PLACED {
        assert!(rt; is_indexed(rt.alloc(), text, *line, *column, *place)?);
    }
    for (text, line, column, place) in &PLACED_UTF16 {
        assert!(rt; is_indexed_utf16(rt.alloc(), text, *line, *column, *place)?);
    }
    let lines = LineIndex::new(rt.alloc(), "é\n")?;
    assert!(rt; lines.line_and_column(1) == None && lines.line_and_column_utf16(4) == None);
    Ok(())
}

/// More lines than a list has room for at first, each of one character.
const LINES: &str = "a\nb\nc\nd\ne\nf\ng\nh\ni\nj\nk\nl";

/// Whether the last of these lines is found where it is.
fn last_line<A: Allocator + Copy>(alloc: A) -> Outcome {
    Outcome::of_answer(is_indexed(alloc, LINES, 12, 1, Some(22)), &true)
}

#[test]
fn lines_are_refused_in_turn(rt: HostRuntime) -> Result<(), Fail> {
    assert!(rt; is_refused_in_turn(rt.alloc(), |heap| last_line(heap)));
    Ok(())
}

/// A line of so many pairs of characters. A pair takes six bytes, and three UTF-16 code units.
fn pairs(alloc: Global, count: usize) -> Result<String, AllocError> {
    let mut text = String::new(alloc);
    for _ in 0..count {
        text.push_str("é😀")?;
    }
    Ok(text)
}

#[test]
fn places_of_a_long_line_are_found(rt: HostRuntime) -> Result<(), Fail> {
    let text = pairs(rt.alloc(), 500)?;
    let lines = LineIndex::new(rt.alloc(), text.as_str())?;
    for pair in 0..501usize {
        let place = pair * 6;
        let (line, column) = (1, pair * 2 + 1);
        assert!(rt; lines.line_and_column(place) == Some(LineAndColumn { line, column }));
        let column = pair * 3 + 1;
        assert!(rt; lines.line_and_column_utf16(place) == Some(LineAndColumn { line, column }));
        assert!(rt; lines.line_and_column(place + 1) == None);
    }
    Ok(())
}

/// Whether the end of a text of 90 pairs, one line, is found where it is.
fn end_of_pairs<A: Allocator + Copy>(alloc: A, text: &str) -> Outcome {
    Outcome::of_answer(is_indexed(alloc, text, 1, 181, Some(540)), &true)
}

#[test]
fn marks_are_refused_in_turn(rt: HostRuntime) -> Result<(), Fail> {
    let text = pairs(rt.alloc(), 90)?;
    assert!(rt; is_refused_in_turn(rt.alloc(), |heap| end_of_pairs(heap, text.as_str())));
    Ok(())
}

#[test]
fn lines_that_are_found_take_no_more(rt: HostRuntime) -> Result<(), Fail> {
    let heap = Refusing::at(rt.alloc(), u64::MAX);
    let lines = LineIndex::new(&heap, LINES)?;
    let asked = heap.asked();
    assert!(rt;
        lines.line_and_column(22)
            == Some(LineAndColumn {
                line: 12,
                column: 1
            })
    );
    assert!(rt; lines.line_and_column_utf16(24) == None);
    assert!(rt; lines.place_of(2, 2) == Some(3) && lines.place_of_utf16(13, 1) == None);
    assert!(rt; heap.asked() == asked);
    Ok(())
}

#[test]
fn utf16_columns_have_places(rt: HostRuntime) {
    for (text, line, column, place) in &PLACED_UTF16 {
        let found = place_of_utf16(text, *line, *column);
        assert!(rt; found == *place);
        if let Some(place) = found {
            let at = line_and_column_utf16(text, place);
            assert!(rt; at.line == *line && at.column == *column);
            let in_characters = line_and_column(text, place);
            assert!(rt; place_of(text, *line, in_characters.column) == Some(place));
        }
    }
}

/// How many elements the arrays of an object have.
fn elements_of<A: Allocator>(object: &JsonObject<'_, A>) -> usize {
    let mut count = 0usize;
    for (_, value) in object.iter() {
        if let JsonValue::Array(array) = value {
            for _ in array.iter() {
                count = count.saturating_add(1);
            }
        }
    }
    count
}

/// The same by loops over what is lent.
fn lent_elements_of<A: Allocator>(object: &JsonObject<'_, A>) -> usize {
    let mut count = 0usize;
    for (_, value) in object {
        if let JsonValue::Array(array) = value {
            for _ in array {
                count = count.saturating_add(1);
            }
        }
    }
    count
}

#[test]
fn values_are_read_by_reference(rt: HostRuntime) {
    let text = "{\"a\": [1, 2], \"b\": 3, \"c\": [4]}";
    let read = parse_to_value(rt.alloc(), text, &ParseOptions::json());
    let Ok(Some(JsonValue::Object(object))) = read else {
        return assert!(rt; false);
    };
    assert!(rt; elements_of(&object) == 3);
    assert!(rt; lent_elements_of(&object) == 3);
}

/// An array of two strings, the second of so many characters.
fn array_of_strings<A: Allocator>(alloc: A, length: usize) -> Result<String<A>, AllocError> {
    let mut text = String::new(alloc);
    text.push_str("[\"a\", \"")?;
    for _ in 0..length {
        text.push('b')?;
    }
    text.push_str("\"]")?;
    Ok(text)
}

/// Whether a text is parsed to its value by an arena of 4,096 bytes, and to a document by one of so many.
fn is_parsed_within(alloc: Global, text: &str, room: usize) -> bool {
    let options = ParseOptions::json();
    let (values, documents) = (Bump::new(alloc), Bump::new(alloc));
    values.set_allocation_limit(Some(4_096));
    documents.set_allocation_limit(Some(room));
    parse_to_value(&values, text, &options).is_ok()
        && CstRootNode::parse(&documents, text, &options).is_ok()
}

#[test]
fn long_strings_want_no_room_for_entries(rt: HostRuntime) -> Result<(), Fail> {
    let text = array_of_strings(rt.alloc(), 100_000)?;
    let room = text.len().saturating_add(8_192);
    assert!(rt; is_parsed_within(rt.alloc(), text.as_str(), room));
    Ok(())
}
