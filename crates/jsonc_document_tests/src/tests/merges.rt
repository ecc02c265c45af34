//! Merge patches: the examples of their standard, what stays, and what an error leaves.

use crate::tests::reading::read;
use failing_alloc::in_turn::answers_in_turn;
use failing_alloc::outcome::Outcome;
use jsonc_parser::cst::{CstInputValue, CstRootNode};
use jsonc_parser::patch::{MergeFault, merge};
use std::alloc::{AllocError, Allocator};
use std::test::Fail;

/// What comes of a merge.
#[derive(Clone, Copy)]
enum Answer<'a> {
    /// A document of the value of this text.
    Value(&'a str),
    /// This very text.
    Text(&'a str),
    /// This name stands twice where it is looked up.
    Twice(&'a str),
}

/// A document, a patch, and what comes of them.
type Row<'a> = (&'a str, &'a str, Answer<'a>);

/// Appendix A of RFC 7396, and more.
static MERGES: [Row; 37] = [
    (
        r#"{"a":"b"}"#,
        r#"{"a":"c"}"#,
        Answer::Value(r#"{"a":"c"}"#),
    ),
    (
        r#"{"a":"b"}"#,
        r#"{"b":"c"}"#,
        Answer::Value(r#"{"a":"b","b":"c"}"#),
    ),
    (r#"{"a":"b"}"#, r#"{"a":null}"#, Answer::Value("{}")),
    (
        r#"{"a":"b","b":"c"}"#,
        r#"{"a":null}"#,
        Answer::Value(r#"{"b":"c"}"#),
    ),
    (
        r#"{"a":["b"]}"#,
        r#"{"a":"c"}"#,
        Answer::Value(r#"{"a":"c"}"#),
    ),
    (
        r#"{"a":"c"}"#,
        r#"{"a":["b"]}"#,
        Answer::Value(r#"{"a":["b"]}"#),
    ),
    (
        r#"{"a":{"b":"c"}}"#,
        r#"{"a":{"b":"d","c":null}}"#,
        Answer::Value(r#"{"a":{"b":"d"}}"#),
    ),
    (
        r#"{"a":[{"b":"c"}]}"#,
        r#"{"a":[1]}"#,
        Answer::Value(r#"{"a":[1]}"#),
    ),
    (
        r#"["a","b"]"#,
        r#"["c","d"]"#,
        Answer::Value(r#"["c","d"]"#),
    ),
    (r#"{"a":"b"}"#, r#"["c"]"#, Answer::Value(r#"["c"]"#)),
    (r#"{"a":"foo"}"#, "null", Answer::Value("null")),
    (r#"{"a":"foo"}"#, r#""bar""#, Answer::Value(r#""bar""#)),
    (
        r#"{"e":null}"#,
        r#"{"a":1}"#,
        Answer::Value(r#"{"e":null,"a":1}"#),
    ),
    (
        "[1,2]",
        r#"{"a":"b","c":null}"#,
        Answer::Value(r#"{"a":"b"}"#),
    ),
    (
        "{}",
        r#"{"a":{"bb":{"ccc":null}}}"#,
        Answer::Value(r#"{"a":{"bb":{}}}"#),
    ),
    // Its sections 1 and 3.
    (
        r#"{"a":"b","c":{"d":"e","f":"g"}}"#,
        r#"{"a":"z","c":{"f":null}}"#,
        Answer::Value(r#"{"a":"z","c":{"d":"e"}}"#),
    ),
    (
        r#"{"title":"Goodbye!","author":{"givenName":"John","familyName":"Doe"},"tags":["example","sample"],"content":"This will be unchanged"}"#,
        r#"{"title":"Hello!","phoneNumber":"+01-123-456-7890","author":{"familyName":null},"tags":["example"]}"#,
        Answer::Value(
            r#"{"title":"Hello!","author":{"givenName":"John"},"tags":["example"],"content":"This will be unchanged","phoneNumber":"+01-123-456-7890"}"#,
        ),
    ),
    // Comments stay.
    (
        "{\n  \"a\": 1, // one\n  \"b\": {\"c\": 2 /* of */}\n}\n",
        r#"{"b":{"c":3}}"#,
        Answer::Text("{\n  \"a\": 1, // one\n  \"b\": {\"c\": 3 /* of */}\n}\n"),
    ),
    (
        "/*a*/ {\"b\": 1 /*c*/, 'd': [2]} // e",
        r#"{"d":{"f":null}}"#,
        Answer::Text("/*a*/ {\"b\": 1 /*c*/, 'd': {}} // e"),
    ),
    ("/*a*/ 1 // b", "2", Answer::Text("/*a*/ 2 // b")),
    // What does not differ is not touched.
    (
        "{'a': 0x1F, b: [ 1,2 ] /*x*/, c: {\"d\" : 'e'}}",
        r#"{"b":[1,2],"c":{"d":"e","f":null},"g":null}"#,
        Answer::Text("{'a': 0x1F, b: [ 1,2 ] /*x*/, c: {\"d\" : 'e'}}"),
    ),
    (
        r#"{"a":[1, {"x": 2, "y": 3}]}"#,
        r#"{"a":[1,{"y":3,"x":2}]}"#,
        Answer::Text(r#"{"a":[1, {"x": 2, "y": 3}]}"#),
    ),
    ("[ 1 ] // x", "[1]", Answer::Text("[ 1 ] // x")),
    // Numbers are compared by their texts.
    (r#"{"a": 1.0}"#, r#"{"a":1}"#, Answer::Text(r#"{"a": 1}"#)),
    ("1e0", "1", Answer::Text("1")),
    // Null goes into arrays, and takes the place of a whole value.
    (
        r#"{"a":1}"#,
        r#"{"a":[null,{"b":null}]}"#,
        Answer::Value(r#"{"a":[null,{"b":null}]}"#),
    ),
    ("[1]", "null", Answer::Text("null")),
    // A document without a value.
    ("", r#"{"a":null,"b":1}"#, Answer::Value(r#"{"b":1}"#)),
    ("// x\n", "null", Answer::Value("null")),
    // Where a value is no object, what merging makes of nothing takes its place.
    (
        r#"{"a":[1]}"#,
        r#"{"a":{"b":{"c":null,"d":1},"e":null}}"#,
        Answer::Value(r#"{"a":{"b":{"d":1}}}"#),
    ),
    (
        r#"{"a":null}"#,
        r#"{"a":{"b":null}}"#,
        Answer::Value(r#"{"a":{}}"#),
    ),
    // All or nothing, where a name stands twice.
    (
        r#"{"b":1,"a":1,"\u0061":2}"#,
        r#"{"b":2,"a":0}"#,
        Answer::Twice("a"),
    ),
    (
        r#"{"b":1,"c":{"a":1,"a":2}}"#,
        r#"{"b":null,"c":{"a":null}}"#,
        Answer::Twice("a"),
    ),
    (
        r#"{"c":{"a":{},"a":{}},"d":1}"#,
        r#"{"d":2,"c":{"a":{"b":1}}}"#,
        Answer::Twice("a"),
    ),
    // One that is not looked up may stand twice.
    (
        r#"{"a":1,"a":2, "b": 3}"#,
        r#"{"b":4}"#,
        Answer::Text(r#"{"a":1,"a":2, "b": 4}"#),
    ),
    (r#"{"a":1,"a":2}"#, "{}", Answer::Text(r#"{"a":1,"a":2}"#)),
    (
        r#"{"a":{"b":1,"b":2}}"#,
        r#"{"a":3}"#,
        Answer::Value(r#"{"a":3}"#),
    ),
];

/// A text is that of the answer, or has its value.
fn matches<A: Allocator + Copy>(alloc: A, doc: &CstRootNode<A>, answer: Answer<'_>) -> Outcome {
    let text = match doc.text() {
        Ok(text) => text,
        Err(error) => return Outcome::from(error),
    };
    match answer {
        Answer::Text(wanted) => Outcome::of(text.as_str() == wanted),
        Answer::Value(wanted) => Outcome::of_values(alloc, &text, wanted),
        Answer::Twice(_) => Outcome::Other,
    }
}

/// What came of a merge that was refused.
fn refused<A: Allocator>(fault: &MergeFault<A>, answer: Answer<'_>) -> Outcome {
    match (fault, answer) {
        (MergeFault::RepeatedName(name), Answer::Twice(wanted)) => Outcome::of(
            name.as_str() == wanted,
        ),
        (MergeFault::OutOfMemory, _) => Outcome::Wanted,
        _ => Outcome::Other,
    }
}

/// What comes of a patch, merged into a text.
fn merged_into<A: Allocator + Copy>(
    alloc: A,
    text: &str,
    patch: &CstInputValue<A>,
    answer: Answer<'_>,
) -> Outcome {
    let mut doc = match read(alloc, text) {
        Ok(doc) => doc,
        Err(outcome) => return outcome,
    };
    match merge(&mut doc, patch) {
        Ok(()) => matches(alloc, &doc, answer),
        Err(fault) => refused(&fault, answer).then(Outcome::of_text(doc.text(), text)),
    }
}

fn merged<A: Allocator + Copy>(alloc: A, row: &Row<'_>) -> Outcome {
    let patch = match read(alloc, row.1) {
        Ok(patch) => patch,
        Err(outcome) => return outcome,
    };
    match patch.to_value() {
        Ok(Some(patch)) => merged_into(alloc, row.0, &patch, row.2),
        Ok(None) => Outcome::Other,
        Err(error) => Outcome::from(error),
    }
}

#[test]
fn patches_are_merged_or_leave_all_with_each_request_refused_in_turn(
    rt: HostRuntime,
) -> Result<(), Fail> {
    let alloc = rt.alloc();
    for row in &MERGES {
        assert!(rt;
            answers_in_turn(alloc, |heap| merged(heap, row)),
            "{} {}",
            row.0,
            row.1
        );
    }
    Ok(())
}

/// An object in which a name stands twice, alone in another object, in an array.
fn repeating<A: Allocator + Copy>(alloc: A) -> Result<CstInputValue<A>, AllocError> {
    let mut inner = Vec::new(alloc);
    inner.push((String::from_str(alloc, "a")?, CstInputValue::Null))?;
    inner.push((String::from_str(alloc, "b")?, CstInputValue::Null))?;
    inner.push((String::from_str(alloc, "a")?, CstInputValue::Bool(true)))?;
    let mut elements = Vec::new(alloc);
    elements.push(CstInputValue::Object(inner))?;
    let mut members = Vec::new(alloc);
    members.push((
        String::from_str(alloc, "c")?,
        CstInputValue::Array(elements),
    ))?;
    Ok(CstInputValue::Object(members))
}

fn repeated<A: Allocator + Copy>(alloc: A) -> Outcome {
    match repeating(alloc) {
        Ok(patch) => merged_into(alloc, "{\"c\": 1}", &patch, Answer::Twice("a")),
        Err(_) => Outcome::Wanted,
    }
}

#[test]
fn a_patch_that_repeats_a_name_is_refused_with_each_request_refused_in_turn(
    rt: HostRuntime,
) -> Result<(), Fail> {
    let alloc = rt.alloc();
    assert!(rt; answers_in_turn(alloc, |heap| repeated(heap)));
    Ok(())
}
