//! Patches: the examples of their standard, and what an error leaves.

use crate::tests::reading::read;
use failing_alloc::in_turn::answers_in_turn;
use failing_alloc::outcome::Outcome;
use jsonc_parser::ParseOptions;
use jsonc_parser::cst::{CstRootNode, EditError};
use jsonc_parser::patch::{OperationFault, Patch, PatchCause, PatchError, PatchFault};
use std::alloc::Allocator;
use std::test::Fail;

/// What comes of a patch.
#[derive(Clone, Copy)]
enum Answer<'a> {
    /// A document of the value of this text.
    Value(&'a str),
    /// This very text.
    Text(&'a str),
    /// The operation of this number leads to nothing.
    Nowhere(usize),
    /// The operation of this number finds another value.
    Another(usize),
    /// The operation of this number moves a value into itself.
    Inside(usize),
    /// This name stands twice where the operation of this number looks it up.
    Twice(usize, &'a str),
    /// The document is larger than allowed after the operation of this number.
    Larger(usize),
    /// The patch is none.
    NoPatch(usize),
}

/// A document, a patch, and what comes of them.
type Row<'a> = (&'a str, &'a str, Answer<'a>);

/// Appendix A of RFC 6902, and more.
static PATCHES: [Row; 40] = [
    (
        r#"{"foo":"bar"}"#,
        r#"[{"op":"add","path":"/baz","value":"qux"}]"#,
        Answer::Value(r#"{"baz":"qux","foo":"bar"}"#),
    ),
    (
        r#"{"foo":["bar","baz"]}"#,
        r#"[{"op":"add","path":"/foo/1","value":"qux"}]"#,
        Answer::Value(r#"{"foo":["bar","qux","baz"]}"#),
    ),
    (
        r#"{"baz":"qux","foo":"bar"}"#,
        r#"[{"op":"remove","path":"/baz"}]"#,
        Answer::Value(r#"{"foo":"bar"}"#),
    ),
    (
        r#"{"foo":["bar","qux","baz"]}"#,
        r#"[{"op":"remove","path":"/foo/1"}]"#,
        Answer::Value(r#"{"foo":["bar","baz"]}"#),
    ),
    (
        r#"{"baz":"qux","foo":"bar"}"#,
        r#"[{"op":"replace","path":"/baz","value":"boo"}]"#,
        Answer::Value(r#"{"baz":"boo","foo":"bar"}"#),
    ),
    (
        r#"{"foo":{"bar":"baz","waldo":"fred"},"qux":{"corge":"grault"}}"#,
        r#"[{"op":"move","from":"/foo/waldo","path":"/qux/thud"}]"#,
        Answer::Value(r#"{"foo":{"bar":"baz"},"qux":{"corge":"grault","thud":"fred"}}"#),
    ),
    (
        r#"{"foo":["all","grass","cows","eat"]}"#,
        r#"[{"op":"move","from":"/foo/1","path":"/foo/3"}]"#,
        Answer::Value(r#"{"foo":["all","cows","eat","grass"]}"#),
    ),
    (
        r#"{"baz":"qux","foo":["a",2,"c"]}"#,
        r#"[{"op":"test","path":"/baz","value":"qux"},{"op":"test","path":"/foo/1","value":2}]"#,
        Answer::Text(r#"{"baz":"qux","foo":["a",2,"c"]}"#),
    ),
    (
        r#"{"baz":"qux"}"#,
        r#"[{"op":"test","path":"/baz","value":"bar"}]"#,
        Answer::Another(0),
    ),
    (
        r#"{"foo":"bar"}"#,
        r#"[{"op":"add","path":"/child","value":{"grandchild":{}}}]"#,
        Answer::Value(r#"{"foo":"bar","child":{"grandchild":{}}}"#),
    ),
    (
        r#"{"foo":"bar"}"#,
        r#"[{"op":"add","path":"/baz","value":"qux","xyz":123}]"#,
        Answer::Value(r#"{"foo":"bar","baz":"qux"}"#),
    ),
    (
        r#"{"foo":"bar"}"#,
        r#"[{"op":"add","path":"/baz/bat","value":"qux"}]"#,
        Answer::Nowhere(0),
    ),
    (
        r#"{"foo":"bar"}"#,
        r#"[{"op":"add","path":"/baz","value":"qux","op":"remove"}]"#,
        Answer::NoPatch(0),
    ),
    (
        r#"{"/":9,"~1":10}"#,
        r#"[{"op":"test","path":"/~01","value":10}]"#,
        Answer::Text(r#"{"/":9,"~1":10}"#),
    ),
    (
        r#"{"/":9,"~1":10}"#,
        r#"[{"op":"test","path":"/~01","value":"10"}]"#,
        Answer::Another(0),
    ),
    (
        r#"{"foo":["bar"]}"#,
        r#"[{"op":"add","path":"/foo/-","value":["abc","def"]}]"#,
        Answer::Value(r#"{"foo":["bar",["abc","def"]]}"#),
    ),
    // The document's value, and none.
    (
        "/*a*/ 1 // b",
        r#"[{"op":"replace","path":"","value":2}]"#,
        Answer::Text("/*a*/ 2 // b"),
    ),
    (
        "",
        r#"[{"op":"add","path":"","value":[]}]"#,
        Answer::Value("[]"),
    ),
    ("", r#"[{"op":"remove","path":""}]"#, Answer::Nowhere(0)),
    (
        "[1]",
        r#"[{"op":"remove","path":""},{"op":"add","path":"/0","value":1}]"#,
        Answer::Nowhere(1),
    ),
    // Comments stay.
    (
        "{\"a\": 1 /*x*/, // y\n \"b\": [/*z*/2]}",
        r#"[{"op":"replace","path":"/b/0","value":3},{"op":"replace","path":"/a","value":null}]"#,
        Answer::Text("{\"a\": null /*x*/, // y\n \"b\": [/*z*/3]}"),
    ),
    (
        "{\n  \"a\": 1, // one\n  \"b\": [2 /* of */]\n}\n",
        r#"[{"op":"replace","path":"/b/0","value":3},{"op":"add","path":"/c","value":null}]"#,
        Answer::Text("{\n  \"a\": 1, // one\n  \"b\": [3 /* of */],\n  \"c\": null\n}\n"),
    ),
    // All or nothing.
    (
        "[1, 2]",
        r#"[{"op":"replace","path":"/0","value":3},{"op":"replace","path":"/2","value":4}]"#,
        Answer::Nowhere(1),
    ),
    (
        r#"{"a":{"b":1}}"#,
        r#"[{"op":"move","from":"/a","path":"/a/b"}]"#,
        Answer::Inside(0),
    ),
    (
        r#"{"a":{"b":1}}"#,
        r#"[{"op":"move","from":"/a","path":"/a"}]"#,
        Answer::Text(r#"{"a":{"b":1}}"#),
    ),
    // Within one object the name alone is replaced, if no member has the new one.
    (
        "{a: [1 /* one */], // a\n \"b\": 2}",
        r#"[{"op":"move","from":"/a","path":"/c"}]"#,
        Answer::Text("{\"c\": [1 /* one */], // a\n \"b\": 2}"),
    ),
    (
        "{\"x\": [1 /* one */], // a\n \"\\u0061\": 2}",
        r#"[{"op":"move","from":"/x","path":"/y"}]"#,
        Answer::Text("{\"y\": [1 /* one */], // a\n \"\\u0061\": 2}"),
    ),
    (
        r#"{"o": {"x": 1 /* one */, "\u0062": 2}}"#,
        r#"[{"op":"move","from":"/o/x","path":"/o/y"}]"#,
        Answer::Text(r#"{"o": {"y": 1 /* one */, "\u0062": 2}}"#),
    ),
    (
        r#"[{"\u006f": {"\u0078": 1 /* one */}}]"#,
        r#"[{"op":"move","from":"/0/o/x","path":"/0/o/y"}]"#,
        Answer::Text(r#"[{"\u006f": {"y": 1 /* one */}}]"#),
    ),
    (
        r#"{"o": 1, "x": {"o": 2 /* two */}}"#,
        r#"[{"op":"move","from":"/x/o","path":"/p"}]"#,
        Answer::Value(r#"{"o":1,"x":{},"p":2}"#),
    ),
    // What is moved or copied keeps all of its members, those of equal names too.
    (
        "{\"x\": {\"a\": 1, \"a\": 2}}",
        r#"[{"op":"move","from":"/x","path":""}]"#,
        Answer::Text("{\n  \"a\": 1,\n  \"a\": 2\n}"),
    ),
    (
        "[\n  {\"a\": 1, \"a\": [{\"b\": 2, \"b\": 3}]}\n]",
        r#"[{"op":"copy","from":"/0","path":"/-"}]"#,
        Answer::Text(
            "[\n  {\"a\": 1, \"a\": [{\"b\": 2, \"b\": 3}]},\n  {\n    \"a\": 1,\n    \"a\": [\n      {\n        \"b\": 2,\n        \"b\": 3\n      }\n    ]\n  }\n]",
        ),
    ),
    // A test compares values, where of equal names the last is that of the name.
    (
        r#"{"x": {"a": 1, "a": 2}}"#,
        r#"[{"op":"test","path":"/x","value":{"a":2}}]"#,
        Answer::Text(r#"{"x": {"a": 1, "a": 2}}"#),
    ),
    (
        r#"{"a": 1, "b": 2}"#,
        r#"[{"op":"move","from":"/a","path":"/b"}]"#,
        Answer::Value(r#"{"b":1}"#),
    ),
    (
        r#"{"a": 1, "b": 2, "b": 3}"#,
        r#"[{"op":"move","from":"/a","path":"/b"}]"#,
        Answer::Twice(0, "b"),
    ),
    (
        "[1]",
        r#"[{"op":"remove","path":"/-"}]"#,
        Answer::Nowhere(0),
    ),
    (
        "[1]",
        r#"[{"op":"add","path":"/2","value":0}]"#,
        Answer::Nowhere(0),
    ),
    (
        r#"{"a":1,"\u0061":2}"#,
        r#"[{"op":"add","path":"/a","value":0}]"#,
        Answer::Twice(0, "a"),
    ),
    (
        r#"{"a": 1.0}"#,
        r#"[{"op":"test","path":"/a","value":10e-1}]"#,
        Answer::Text(r#"{"a": 1.0}"#),
    ),
    ("[]", r#"{"op":"remove","path":""}"#, Answer::NoPatch(0)),
];

/// A text is that of the answer, or has its value.
fn matches<A: Allocator + Copy>(alloc: A, doc: &CstRootNode<A>, answer: Answer<'_>) -> Outcome {
    let text = match doc.text() {
        Ok(text) => text,
        Err(error) => return Outcome::from(error),
    };
    let wanted = match answer {
        Answer::Text(wanted) => return Outcome::of(text.as_str() == wanted),
        Answer::Value(wanted) => wanted,
        _ => return Outcome::Other,
    };
    Outcome::of_values(alloc, &text, wanted)
}

/// What came of an operation that was refused.
fn refused<A: Allocator>(fault: &PatchFault<A>, answer: Answer<'_>) -> Outcome {
    match (&fault.cause, answer) {
        (PatchCause::NoTarget, Answer::Nowhere(number)) => Outcome::of(fault.operation == number),
        (PatchCause::NotEqual, Answer::Another(number)) => Outcome::of(fault.operation == number),
        (PatchCause::IntoItself, Answer::Inside(number)) => Outcome::of(fault.operation == number),
        (PatchCause::RepeatedName(name), Answer::Twice(number, wanted)) => {
            Outcome::of(fault.operation == number && name.as_str() == wanted)
        }
        (PatchCause::TooLarge, Answer::Larger(number)) => Outcome::of(fault.operation == number),
        (PatchCause::Edit(EditError::OutOfMemory), _) => Outcome::Wanted,
        _ => Outcome::Other,
    }
}

/// What came of a text that is no patch.
fn no_patch<A: Allocator>(error: PatchError<A>, answer: Answer<'_>) -> Outcome {
    match (error, answer) {
        (PatchError::Operation(_, OperationFault::OutOfMemory), _) => Outcome::Wanted,
        (PatchError::Operation(number, _), Answer::NoPatch(wanted)) => Outcome::of(
            number == wanted,
        ),
        (PatchError::NotAnArray, Answer::NoPatch(_)) => Outcome::Answered,
        (PatchError::Parse(error), _) => Outcome::from(error),
        _ => Outcome::Other,
    }
}

fn applied<A: Allocator + Copy>(alloc: A, row: &Row<'_>) -> Outcome {
    let mut doc = match read(alloc, row.0) {
        Ok(doc) => doc,
        Err(outcome) => return outcome,
    };
    let patch = match Patch::from_json(alloc, row.1, &ParseOptions::default()) {
        Ok(patch) => patch,
        Err(error) => return no_patch(error, row.2),
    };
    match patch.apply(&mut doc) {
        Ok(()) => matches(alloc, &doc, row.2),
        Err(fault) => refused(&fault, row.2).then(Outcome::of_text(doc.text(), row.0)),
    }
}

#[test]
fn patches_are_applied_or_leave_all_with_each_request_refused_in_turn(
    rt: HostRuntime,
) -> Result<(), Fail> {
    let alloc = rt.alloc();
    for row in &PATCHES {
        assert!(rt;
            answers_in_turn(alloc, |heap| applied(heap, row)),
            "{} {}",
            row.0,
            row.1
        );
    }
    Ok(())
}

/// A document, a patch, how many bytes the document may have, and what comes of them.
type BoundedRow<'a> = (&'a str, &'a str, usize, Answer<'a>);

/// One more element, of three bytes in all or of six with the next; a copy of the document in itself, of eight; and
/// bytes of a character that has two.
static BOUNDED: [BoundedRow; 14] = [
    (
        "[]",
        r#"[{"op":"add","path":"/-","value":1}]"#,
        3,
        Answer::Text("[1]"),
    ),
    (
        "[]",
        r#"[{"op":"add","path":"/-","value":1}]"#,
        2,
        Answer::Larger(0),
    ),
    (
        "[]",
        r#"[{"op":"add","path":"/-","value":1},{"op":"add","path":"/-","value":2}]"#,
        6,
        Answer::Text("[1, 2]"),
    ),
    (
        "[]",
        r#"[{"op":"add","path":"/-","value":1},{"op":"add","path":"/-","value":2}]"#,
        5,
        Answer::Larger(1),
    ),
    (
        "[1]",
        r#"[{"op":"copy","from":"","path":"/-"}]"#,
        8,
        Answer::Text("[1, [1]]"),
    ),
    (
        "[1]",
        r#"[{"op":"copy","from":"","path":"/-"},{"op":"copy","from":"","path":"/-"}]"#,
        8,
        Answer::Larger(1),
    ),
    (
        "[]",
        r#"[{"op":"replace","path":"","value":"é"}]"#,
        4,
        Answer::Text("\"é\""),
    ),
    (
        "[]",
        r#"[{"op":"replace","path":"","value":"é"}]"#,
        3,
        Answer::Larger(0),
    ),
    // Each operation has the bound, and not the last alone; one that makes the document smaller too, and a test.
    (
        "[1]",
        r#"[{"op":"add","path":"/-","value":2},{"op":"remove","path":"/1"}]"#,
        5,
        Answer::Larger(0),
    ),
    (
        "[1, 2]",
        r#"[{"op":"remove","path":"/1"}]"#,
        3,
        Answer::Text("[1]"),
    ),
    (
        "[1, 2]",
        r#"[{"op":"test","path":"/0","value":1}]"#,
        5,
        Answer::Larger(0),
    ),
    ("[1, 2]", "[]", 0, Answer::Text("[1, 2]")),
    // What was replaced is no part of the text, however often that was done.
    (
        r#"["aaaa"]"#,
        r#"[{"op":"replace","path":"/0","value":"bbbb"},{"op":"replace","path":"/0","value":"cccc"}]"#,
        8,
        Answer::Text(r#"["cccc"]"#),
    ),
    (
        r#"["aaaa"]"#,
        r#"[{"op":"replace","path":"/0","value":"bbbb"},{"op":"replace","path":"/0","value":"cccc"},
            {"op":"replace","path":"/0","value":"dddd"},{"op":"add","path":"/-","value":"eeee"},
            {"op":"add","path":"/-","value":"ffff"}]"#,
        20,
        Answer::Larger(4),
    ),
];

fn bounded<A: Allocator + Copy>(alloc: A, row: &BoundedRow<'_>) -> Outcome {
    let mut doc = match read(alloc, row.0) {
        Ok(doc) => doc,
        Err(outcome) => return outcome,
    };
    let patch = match Patch::from_json(alloc, row.1, &ParseOptions::default()) {
        Ok(patch) => patch,
        Err(error) => return no_patch(error, row.3),
    };
    match patch.apply_within(&mut doc, row.2) {
        Ok(()) => matches(alloc, &doc, row.3),
        Err(fault) => refused(&fault, row.3).then(Outcome::of_text(doc.text(), row.0)),
    }
}

#[test]
fn a_patch_stays_within_its_bytes_with_each_request_refused_in_turn(
    rt: HostRuntime,
) -> Result<(), Fail> {
    let alloc = rt.alloc();
    for row in &BOUNDED {
        assert!(rt;
            answers_in_turn(alloc, |heap| bounded(heap, row)),
            "{} {} {}",
            row.0,
            row.1,
            row.2
        );
    }
    Ok(())
}
