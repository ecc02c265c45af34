//! Values that are put where pointers lead, and the entries that are found there.

use crate::tests::reading::{read, value_of};
use failing_alloc::in_turn::refused_in_turn;
use failing_alloc::outcome::Outcome;
use jsonc_parser::cst::{CstRootNode, EditError, Over, TypedNode};
use jsonc_parser::patch::{Pointer, PutError, entry_at, put};
use std::alloc::{Allocator, Global};
use std::test::Fail;

/// What comes of a value that is put.
#[derive(Clone, Copy)]
enum Answer<'a> {
    /// This text.
    Text(&'a str),
    /// A text of this one's value.
    Value(&'a str),
    /// This error, and the text as it was.
    Fault(PutError),
}

/// A text, a pointer, the text of the value that is put there, and what comes of them.
type Row<'a> = (&'a str, &'a str, &'a str, Over, Answer<'a>);

const KEEP: Over = Over::Keep;

static ROWS: [Row; 41] = [
    (
        "{\"a\": [1, {\"b\": 2}]}",
        "/a/1/b",
        "3",
        KEEP,
        Answer::Text("{\"a\": [1, {\"b\": 3}]}"),
    ),
    (
        "{\"a\":1,\"a\":2}",
        "/a",
        "3",
        KEEP,
        Answer::Text("{\"a\":3,\"a\":2}"),
    ),
    (
        "{\"\\u0061\":1,\"a\":2}",
        "/a",
        "3",
        KEEP,
        Answer::Text("{\"\\u0061\":3,\"a\":2}"),
    ),
    (
        "{\"a\":{\"b\":1},\"a\":[]}",
        "/a/b",
        "3",
        KEEP,
        Answer::Text("{\"a\":{\"b\":3},\"a\":[]}"),
    ),
    (
        "{\"a\":1,\"a\":{}}",
        "/a/b",
        "3",
        KEEP,
        Answer::Fault(PutError::OtherKind(1)),
    ),
    (
        "[1, /*x*/ 2 /*y*/, 3] // z",
        "/1",
        "[]",
        KEEP,
        Answer::Text("[1, /*x*/ [] /*y*/, 3] // z"),
    ),
    ("{\"0\": 1}", "/0", "2", KEEP, Answer::Text("{\"0\": 2}")),
    (
        "{\"a/b\": 1}",
        "/a~1b",
        "2",
        KEEP,
        Answer::Text("{\"a/b\": 2}"),
    ),
    ("[1, 2]", "/-", "3", KEEP, Answer::Text("[1, 2, 3]")),
    ("[1, 2]", "/2", "3", KEEP, Answer::Text("[1, 2, 3]")),
    (
        "[1, 2]",
        "/3",
        "3",
        KEEP,
        Answer::Fault(PutError::NoSuchIndex(0)),
    ),
    (
        "[1, 2]",
        "/3",
        "3",
        Over::Replace,
        Answer::Fault(PutError::NoSuchIndex(0)),
    ),
    (
        "[1, 2]",
        "/18446744073709551616",
        "3",
        KEEP,
        Answer::Fault(PutError::NoSuchIndex(0)),
    ),
    (
        "{\"a\": [[]]}",
        "/a/0/1",
        "3",
        KEEP,
        Answer::Fault(PutError::NoSuchIndex(2)),
    ),
    (
        "{\"a\": [[]]}",
        "/a/0/0",
        "3",
        KEEP,
        Answer::Value("{\"a\": [[3]]}"),
    ),
    (
        "{\"a\": {\"b\": []}}",
        "/a/b/-",
        "1",
        KEEP,
        Answer::Value("{\"a\": {\"b\": [1]}}"),
    ),
    (
        "[1, 2]",
        "/-/a",
        "3",
        KEEP,
        Answer::Value("[1, 2, {\"a\": 3}]"),
    ),
    (
        "[1, 2]",
        "/2/a/b",
        "3",
        KEEP,
        Answer::Value("[1, 2, {\"a\": {\"b\": 3}}]"),
    ),
    (
        "[1, 2]",
        "/-/0",
        "3",
        KEEP,
        Answer::Fault(PutError::AmbiguousToken(1)),
    ),
    (
        "{}",
        "/a/b",
        "1",
        KEEP,
        Answer::Value("{\"a\": {\"b\": 1}}"),
    ),
    (
        "{\"a\": 1}",
        "/b",
        "null",
        KEEP,
        Answer::Text("{\n  \"a\": 1,\n  \"b\": null\n}"),
    ),
    (
        "{}",
        "/a/b/01",
        "1",
        KEEP,
        Answer::Value("{\"a\": {\"b\": {\"01\": 1}}}"),
    ),
    ("{}", "/0", "1", KEEP, Answer::Value("{\"0\": 1}")),
    ("{}", "/-", "1", KEEP, Answer::Value("{\"-\": 1}")),
    (
        "{}",
        "/a/0",
        "1",
        KEEP,
        Answer::Fault(PutError::AmbiguousToken(1)),
    ),
    (
        "{}",
        "/a/-",
        "1",
        KEEP,
        Answer::Fault(PutError::AmbiguousToken(1)),
    ),
    (
        "{\"a\": {}}",
        "/a/b/c/10/d",
        "1",
        KEEP,
        Answer::Fault(PutError::AmbiguousToken(3)),
    ),
    ("", "/a", "1", KEEP, Answer::Text("{\n  \"a\": 1\n}\n")),
    (
        "",
        "/0",
        "1",
        KEEP,
        Answer::Fault(PutError::AmbiguousToken(0)),
    ),
    (
        "// c",
        "/a/0",
        "1",
        KEEP,
        Answer::Fault(PutError::AmbiguousToken(1)),
    ),
    ("[1]", "", "2", KEEP, Answer::Text("2")),
    ("", "", "2", KEEP, Answer::Value("2")),
    (
        "{\"a\": 1}",
        "/a/b",
        "2",
        KEEP,
        Answer::Fault(PutError::OtherKind(1)),
    ),
    (
        "{\"a\": 1}",
        "/a/0",
        "2",
        KEEP,
        Answer::Fault(PutError::OtherKind(1)),
    ),
    (
        "{\"a\": [{\"b\": 1}]}",
        "/a/0/b/c",
        "2",
        KEEP,
        Answer::Fault(PutError::OtherKind(3)),
    ),
    (
        "{\"a\": 1}",
        "/a/b",
        "2",
        Over::Replace,
        Answer::Text("{\"a\": {\n    \"b\": 2\n  }}"),
    ),
    (
        "{\"a\": 1}",
        "/a/0",
        "2",
        Over::Replace,
        Answer::Fault(PutError::AmbiguousToken(1)),
    ),
    (
        "[1]",
        "/a",
        "2",
        KEEP,
        Answer::Fault(PutError::OtherKind(0)),
    ),
    (
        "[1]",
        "/01",
        "2",
        KEEP,
        Answer::Fault(PutError::OtherKind(0)),
    ),
    ("[1]", "/a", "2", Over::Replace, Answer::Value("{\"a\": 2}")),
    (
        "[1]",
        "/01/a",
        "2",
        Over::Replace,
        Answer::Value("{\"01\": {\"a\": 2}}"),
    ),
];

/// A value is put, and the text is the one that is due.
fn made<A: Allocator + Copy>(
    alloc: A,
    doc: &mut CstRootNode<A>,
    pointer: &Pointer<A>,
    row: &Row<'_>,
) -> Outcome {
    let Ok(value) = value_of(alloc, row.2) else {
        return Outcome::Wanted;
    };
    match (put(doc, pointer, value, row.3), row.4) {
        (Ok(()), Answer::Text(text)) => Outcome::of_text(doc.text(), text),
        (Ok(()), Answer::Value(text)) => match doc.text() {
            Ok(printed) => Outcome::of_values(alloc, printed.as_str(), text),
            Err(_) => Outcome::Wanted,
        },
        (Err(PutError::Edit(EditError::OutOfMemory)), _) => {
            Outcome::of_text(doc.text(), row.0).then(Outcome::Wanted)
        }
        (Err(error), Answer::Fault(wanted)) => {
            Outcome::of(error == wanted).then(Outcome::of_text(doc.text(), row.0))
        }
        _ => Outcome::Other,
    }
}

fn outcome<A: Allocator + Copy>(alloc: A, row: &Row<'_>) -> Outcome {
    let mut doc = match read(alloc, row.0) {
        Ok(doc) => doc,
        Err(outcome) => return outcome,
    };
    match Pointer::parse(alloc, row.1) {
        Ok(pointer) => made(alloc, &mut doc, &pointer, row),
        Err(_) => Outcome::Wanted,
    }
}

#[test]
fn values_are_put_at_pointers_with_each_request_refused_in_turn(
    rt: HostRuntime,
) -> Result<(), Fail> {
    let alloc = rt.alloc();
    for row in &ROWS {
        assert!(rt;
            refused_in_turn(alloc, |heap| outcome(heap, row)).is_some(),
            "{} {}",
            row.0,
            row.1
        );
    }
    Ok(())
}

/// A text, a pointer, and the text of the entry there.
type Entry<'a> = (&'a str, &'a str, Option<&'a str>);

static ENTRIES: [Entry; 16] = [
    ("{ \"a\": /*x*/ 1, \"a\": 2}", "/a", Some("\"a\": /*x*/ 1")),
    (
        "{\"b\": 1, \"\\u0061\": 2, \"a\": 3}",
        "/a",
        Some("\"\\u0061\": 2"),
    ),
    ("[1, {\"b\": 2}]", "/1/b", Some("\"b\": 2")),
    ("[1, {\"b\": 2}]", "/1", Some("{\"b\": 2}")),
    ("{\"a\":{\"b\":1},\"a\":{\"c\":2}}", "/a/b", Some("\"b\":1")),
    ("{\"a\":{\"b\":1},\"a\":{\"c\":2}}", "/a/c", None),
    ("{\"0\": 1}", "/0", Some("\"0\": 1")),
    ("[1]", "", None),
    ("[1]", "/-", None),
    ("[1]", "/1", None),
    ("[1]", "/01", None),
    ("[1]", "/a", None),
    ("{}", "/a", None),
    ("", "/a", None),
    ("{\"a\": 1}", "/a/b", None),
    ("{\"a\": 1}", "/a/b/c", None),
];

fn entry_found<A: Allocator + Copy>(alloc: A, row: &Entry<'_>) -> Outcome {
    let doc = match read(alloc, row.0) {
        Ok(doc) => doc,
        Err(outcome) => return outcome,
    };
    let Ok(pointer) = Pointer::parse(alloc, row.1) else {
        return Outcome::Wanted;
    };
    match (entry_at(&doc, &pointer), row.2) {
        (Ok(Some(entry)), Some(text)) => {
            Outcome::of_text(format!(in alloc; "{}", entry.shown(&doc)), text)
        }
        (Ok(None), None) => Outcome::Answered,
        (Err(error), _) => Outcome::from(error),
        _ => Outcome::Other,
    }
}

#[test]
fn entries_are_found_at_pointers_with_each_request_refused_in_turn(
    rt: HostRuntime,
) -> Result<(), Fail> {
    let alloc = rt.alloc();
    for row in &ENTRIES {
        assert!(rt;
            refused_in_turn(alloc, |heap| entry_found(heap, row)).is_some(),
            "{} {}",
            row.0,
            row.1
        );
    }
    Ok(())
}

/// So many texts after one another.
fn repeated(alloc: Global, part: &str, count: usize) -> Result<String<Global>, Outcome> {
    let mut text = String::new(alloc);
    for _ in 0..count {
        text.push_str(part)?;
    }
    Ok(text)
}

/// Whether a value is put into the document of a text, which can be read again, or refused for its depth.
fn is_put(alloc: Global, text: &str, pointer: &str, json: &str) -> Result<bool, Outcome> {
    let Ok(pointer) = Pointer::parse(alloc, pointer) else {
        return Err(Outcome::Other);
    };
    let value = value_of(alloc, json)?;
    let mut doc = read(alloc, text)?;
    let answer = put(&mut doc, &pointer, value, KEEP);
    let after = doc.text()?;
    match answer {
        Ok(()) => {
            read(alloc, &after)?;
            Ok(true)
        }
        Err(PutError::Edit(EditError::NestingDepthExceeded)) if after.as_str() == text => Ok(false),
        Err(_) => Err(Outcome::Other),
    }
}

/// Whether a value is put at so many names in an object.
fn is_put_at_names(alloc: Global, count: usize) -> Result<bool, Outcome> {
    let pointer = repeated(alloc, "/a", count)?;
    is_put(alloc, "{}", &pointer, "1")
}

/// Whether a value is appended to an array in so many others.
fn is_put_in_arrays(alloc: Global, outer: usize, json: &str) -> Result<bool, Outcome> {
    let mut text = repeated(alloc, "[", outer)?;
    let close = repeated(alloc, "]", outer)?;
    text.push_str("[]")?;
    text.push_str(&close)?;
    let mut pointer = repeated(alloc, "/0", outer)?;
    pointer.push_str("/-")?;
    is_put(alloc, &text, &pointer, json)
}

#[test]
fn values_are_put_as_deep_as_texts_are_parsed(rt: HostRuntime) -> Result<(), Fail> {
    let alloc = rt.alloc();
    assert!(rt; is_put_at_names(alloc, 256) == Ok(true));
    assert!(rt; is_put_at_names(alloc, 257) == Ok(false));
    assert!(rt; is_put_at_names(alloc, 16000) == Ok(false));
    assert!(rt; is_put_in_arrays(alloc, 511, "1") == Ok(true));
    assert!(rt; is_put_in_arrays(alloc, 511, "[]") == Ok(true));
    assert!(rt; is_put_in_arrays(alloc, 511, "[1]") == Ok(false));
    Ok(())
}

#[test]
fn faults_of_puts_are_printed(rt: HostRuntime) -> Result<(), Fail> {
    let alloc = rt.alloc();
    let rows = [
        (
            PutError::OtherKind(3),
            "Value of another kind before token 3",
        ),
        (
            PutError::NoSuchIndex(0),
            "Array is shorter than the index at token 0",
        ),
        (
            PutError::AmbiguousToken(10),
            "Neither array nor object for token 10",
        ),
        (PutError::Edit(EditError::OutOfMemory), "Out of memory"),
    ];
    for (error, text) in rows {
        let printed = format!(in alloc; "{error}")?;
        assert_eq!(rt; printed.as_str(), text);
    }
    Ok(())
}
