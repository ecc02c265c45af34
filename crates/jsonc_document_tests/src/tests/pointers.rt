//! Pointers: texts that are read and printed, and what they refer to.

use crate::tests::reading::read;
use failing_alloc::in_turn::refused_in_turn;
use failing_alloc::outcome::Outcome;
use jsonc_parser::cst::{CstNode, CstRootNode, TypedNode};
use jsonc_parser::patch::{self, FindError, Pointer, PointerError};
use std::alloc::Allocator;
use std::test::Fail;

/// The document of RFC 6901, section 5.
const EXAMPLE: &str =
    "{\n  \"foo\": [\"bar\", \"baz\"],\n  \"\": 0,\n  \"a/b\": 1,\n  \"c%d\": 2,\n  \"e^f\": 3,\n  \
\"g|h\": 4,\n  \"i\\\\j\": 5,\n  \"k\\\"l\": 6,\n  \" \": 7,\n  \"m~n\": 8\n}";

/// Names that stand twice, one of them under an escape.
const TWICE: &str = "{\"a\": 1, b: [{\"c\": 2, \"\\u0063\": 3, d: 4}], /*x*/ \"a\": {}}";

/// What comes of a pointer's text and a document.
#[derive(Clone, Copy)]
enum Answer<'a> {
    /// This text of the document.
    Found(&'a str),
    /// Nothing.
    Nothing,
    /// This name stands twice.
    Twice(&'a str),
    /// The text is no pointer.
    Fault(PointerError),
}

/// A pointer, a text, and what comes of them.
type Row<'a> = (&'a str, &'a str, Answer<'a>);

static ROWS: [Row; 41] = [
    ("", EXAMPLE, Answer::Found(EXAMPLE)),
    ("/foo", EXAMPLE, Answer::Found("[\"bar\", \"baz\"]")),
    ("/foo/0", EXAMPLE, Answer::Found("\"bar\"")),
    ("/", EXAMPLE, Answer::Found("0")),
    ("/a~1b", EXAMPLE, Answer::Found("1")),
    ("/c%d", EXAMPLE, Answer::Found("2")),
    ("/e^f", EXAMPLE, Answer::Found("3")),
    ("/g|h", EXAMPLE, Answer::Found("4")),
    ("/i\\j", EXAMPLE, Answer::Found("5")),
    ("/k\"l", EXAMPLE, Answer::Found("6")),
    ("/ ", EXAMPLE, Answer::Found("7")),
    ("/m~0n", EXAMPLE, Answer::Found("8")),
    ("/foo/1", EXAMPLE, Answer::Found("\"baz\"")),
    ("/foo/2", EXAMPLE, Answer::Nothing),
    ("/foo/-", EXAMPLE, Answer::Nothing),
    ("/foo/01", EXAMPLE, Answer::Nothing),
    ("/foo/+1", EXAMPLE, Answer::Nothing),
    ("/foo/1e0", EXAMPLE, Answer::Nothing),
    ("/foo/", EXAMPLE, Answer::Nothing),
    ("/foo/0/0", EXAMPLE, Answer::Nothing),
    ("/foo/18446744073709551616", EXAMPLE, Answer::Nothing),
    ("/foo/18446744073709551617", EXAMPLE, Answer::Nothing),
    ("/bar", EXAMPLE, Answer::Nothing),
    ("/0", "[/*a*/ 1, // b\n 2]", Answer::Found("1")),
    ("/1", "[/*a*/ 1, // b\n 2]", Answer::Found("2")),
    (
        "/10",
        "[0,1,2,3,4,5,6,7,8,9,{x: [1,],},]",
        Answer::Found("{x: [1,],}"),
    ),
    (
        "/10/x/0",
        "[0,1,2,3,4,5,6,7,8,9,{x: [1,],},]",
        Answer::Found("1"),
    ),
    ("/~01", "{\"~1\": 1}", Answer::Found("1")),
    (
        "/\u{e9}~1\u{1d11e}",
        "{\"\u{e9}/\\ud834\\udd1e\": 1}",
        Answer::Found("1"),
    ),
    ("/0", "{\"0\": 1}", Answer::Found("1")),
    ("", "// none", Answer::Nothing),
    ("/a", "", Answer::Nothing),
    ("/a", TWICE, Answer::Twice("a")),
    ("/a/b", TWICE, Answer::Twice("a")),
    ("/b/0/c", TWICE, Answer::Twice("c")),
    ("/b/0/d", TWICE, Answer::Found("4")),
    ("/b/1/c", TWICE, Answer::Nothing),
    ("a", "1", Answer::Fault(PointerError::NoLeadingSlash)),
    (
        "/\u{e9}/~2",
        "1",
        Answer::Fault(PointerError::InvalidEscape(4)),
    ),
    ("/a~", "1", Answer::Fault(PointerError::InvalidEscape(2))),
    ("/~1/~~", "1", Answer::Fault(PointerError::InvalidEscape(4))),
];

/// What came of an error, where this name is to stand twice.
fn failed<A: Allocator>(error: &FindError<A>, answer: Answer<'_>) -> Outcome {
    match (error, answer) {
        (FindError::RepeatedName(name), Answer::Twice(wanted)) => {
            Outcome::of(name.as_str() == wanted)
        }
        (FindError::OutOfMemory, _) => Outcome::Wanted,
        _ => Outcome::Other,
    }
}

/// What was found is printed as it stands in the text.
fn found<A: Allocator + Copy>(
    alloc: A,
    doc: &CstRootNode<A>,
    pointer: &Pointer<A>,
    answer: Answer<'_>,
) -> Outcome {
    let node = match patch::find(doc, pointer) {
        Ok(node) => node,
        Err(error) => return failed(&error, answer),
    };
    match (node, answer) {
        (Some(node), Answer::Found(text)) => {
            Outcome::of_text(format!(in alloc; "{}", node.shown(doc)), text)
        }
        (None, Answer::Nothing) => Outcome::Answered,
        _ => Outcome::Other,
    }
}

/// The pointer of what was found is the one that found it.
fn told<A: Allocator + Copy>(
    alloc: A,
    doc: &CstRootNode<A>,
    pointer: &Pointer<A>,
    row: &Row<'_>,
) -> Outcome {
    let node = match patch::find(doc, pointer) {
        Ok(Some(node)) => node,
        Ok(None) => return Outcome::Answered,
        Err(error) => return failed(&error, row.2),
    };
    match patch::pointer_of(doc, node) {
        Ok(Some(told)) => Outcome::of_text(format!(in alloc; "{told}"), row.0),
        Ok(None) => Outcome::Other,
        Err(error) => Outcome::from(error),
    }
}

/// A value is read exactly where one was found.
fn value_read<A: Allocator + Copy>(
    doc: &CstRootNode<A>,
    pointer: &Pointer<A>,
    answer: Answer<'_>,
) -> Outcome {
    match patch::read(doc, pointer) {
        Ok(value) => Outcome::of(value.is_some() == matches!(answer, Answer::Found(_))),
        Err(error) => failed(&error, answer),
    }
}

/// The pointer prints its text, and its tokens make one that prints it too.
fn printed<A: Allocator + Copy>(alloc: A, pointer: &Pointer<A>, text: &str) -> Outcome {
    let mut tokens = Vec::new(alloc);
    for token in pointer.tokens() {
        let Ok(copy) = token.clone() else {
            return Outcome::Wanted;
        };
        let Ok(()) = tokens.push(copy) else {
            return Outcome::Wanted;
        };
    }
    let again = Pointer::from_tokens(tokens);
    match format!(in alloc; "{pointer}{again}") {
        Ok(twice) => Outcome::of(
            twice.len() == 2 * text.len()
                && twice.as_str().starts_with(text)
                && twice.as_str().ends_with(text),
        ),
        Err(_) => Outcome::Wanted,
    }
}

fn outcome<A: Allocator + Copy>(alloc: A, row: &Row<'_>) -> Outcome {
    let doc = match read(alloc, row.1) {
        Ok(doc) => doc,
        Err(outcome) => return outcome,
    };
    match Pointer::parse(alloc, row.0) {
        Ok(pointer) => printed(alloc, &pointer, row.0)
            .then(found(alloc, &doc, &pointer, row.2))
            .then(value_read(&doc, &pointer, row.2))
            .then(told(alloc, &doc, &pointer, row)),
        Err(PointerError::OutOfMemory) => Outcome::Wanted,
        Err(error) => match row.2 {
            Answer::Fault(wanted) => Outcome::of(error == wanted),
            _ => Outcome::Other,
        },
    }
}

#[test]
fn pointers_are_read_and_followed_with_each_request_refused_in_turn(
    rt: HostRuntime,
) -> Result<(), Fail> {
    let alloc = rt.alloc();
    for row in &ROWS {
        assert!(rt;
            refused_in_turn(alloc, |heap| outcome(heap, row)).is_some(),
            "{}",
            row.0
        );
    }
    Ok(())
}

/// The pointer of a node behind a `;`, where it has one.
fn put_pointer<A: Allocator + Copy>(
    alloc: A,
    doc: &CstRootNode<A>,
    node: CstNode,
    told: &mut String<A>,
) -> Outcome {
    if !doc.holds(node) {
        return Outcome::Other;
    }
    let pointer = match patch::pointer_of(doc, node) {
        Ok(Some(pointer)) => pointer,
        Ok(None) => return Outcome::Answered,
        Err(error) => return Outcome::from(error),
    };
    let Ok(printed) = format!(in alloc; ";{pointer}") else {
        return Outcome::Wanted;
    };
    match told.push_str(&printed) {
        Ok(()) => Outcome::Answered,
        Err(_) => Outcome::Wanted,
    }
}

/// The pointers of all nodes of a document are these.
fn all_told<A: Allocator + Copy>(alloc: A, text: &str, wanted: &str) -> Outcome {
    let doc = match read(alloc, text) {
        Ok(doc) => doc,
        Err(outcome) => return outcome,
    };
    let mut told = String::new(alloc);
    let mut outcome = Outcome::Answered;
    for node in doc.descendants(doc.root().node()) {
        outcome = outcome.then(put_pointer(alloc, &doc, node, &mut told));
    }
    match outcome {
        Outcome::Answered => Outcome::of(told.as_str() == wanted),
        other => other,
    }
}

/// A value that left has no pointer.
fn left<A: Allocator + Copy>(alloc: A) -> Outcome {
    let mut doc = match read(alloc, "[1, [2]]") {
        Ok(doc) => doc,
        Err(outcome) => return outcome,
    };
    let Ok(pointer) = Pointer::parse(alloc, "/1/0") else {
        return Outcome::Wanted;
    };
    let Ok(Some(node)) = patch::find(&doc, &pointer) else {
        return Outcome::Other;
    };
    match node.remove(&mut doc) {
        Ok(()) => {}
        Err(error) => return Outcome::from(error),
    }
    match patch::pointer_of(&doc, node) {
        Ok(told) => Outcome::of(told.is_none()),
        Err(error) => Outcome::from(error),
    }
}

#[test]
fn nodes_have_pointers_where_one_refers_to_them_with_each_request_refused_in_turn(
    rt: HostRuntime,
) -> Result<(), Fail> {
    let alloc = rt.alloc();
    let rows = [
        (TWICE, ";;/b;/b/0;/b/0/d"),
        ("/*a*/ [{\"~/\": null}, -1] // b", ";;/0;/0/~0~1;/1"),
        ("// none", ""),
    ];
    for (text, wanted) in rows {
        assert!(rt;
            refused_in_turn(alloc, |heap| all_told(heap, text, wanted)).is_some(),
            "{text}"
        );
    }
    assert!(rt; refused_in_turn(alloc, |heap| left(heap)).is_some());
    Ok(())
}

/// Names, and how a fault shows them: by RFC 8259, section 7, and by their codes where they are not seen.
static NAMES: [(&str, &str); 9] = [
    ("a b", "Name stands twice: \"a b\""),
    ("", "Name stands twice: \"\""),
    ("\"\\/", "Name stands twice: \"\\\"\\\\/\""),
    ("\u{8}\u{c}\n\r\t", "Name stands twice: \"\\b\\f\\n\\r\\t\""),
    (
        "\0\u{b}\u{1b}\u{1f} ",
        "Name stands twice: \"\\u0000\\u000b\\u001b\\u001f \"",
    ),
    (
        "~\u{7f}\u{80}\u{9f}\u{a0}",
        "Name stands twice: \"~\\u007f\\u0080\\u009f\u{a0}\"",
    ),
    (
        "\u{61b}\u{61c}\u{200d}\u{200e}\u{200f}\u{2010}",
        "Name stands twice: \"\u{61b}\\u061c\u{200d}\\u200e\\u200f\u{2010}\"",
    ),
    (
        "\u{2027}\u{2028}\u{2029}\u{202a}\u{202e}\u{202f}",
        "Name stands twice: \"\u{2027}\\u2028\\u2029\\u202a\\u202e\u{202f}\"",
    ),
    (
        "\u{2065}\u{2066}\u{2069}\u{206a}é😀",
        "Name stands twice: \"\u{2065}\\u2066\\u2069\u{206a}é😀\"",
    ),
];

#[test]
fn faults_of_pointers_are_printed(rt: HostRuntime) -> Result<(), Fail> {
    let alloc = rt.alloc();
    for (name, shown) in &NAMES {
        let name = String::from_str(alloc, name)?;
        let twice = format!(in alloc; "{}", FindError::RepeatedName(name))?;
        assert_eq!(rt; twice.as_str(), *shown);
    }
    let escape = format!(in alloc; "{}", PointerError::InvalidEscape(7))?;
    assert_eq!(rt;
        escape.as_str(),
        "Neither 0 nor 1 after the tilde at byte 7"
    );
    let slash = format!(in alloc; "{}", PointerError::NoLeadingSlash)?;
    assert_eq!(rt; slash.as_str(), "Pointer does not begin with a slash");
    assert_eq!(rt; PointerError::NoLeadingSlash.place(), Some(0));
    assert_eq!(rt; PointerError::InvalidEscape(7).place(), Some(7));
    Ok(())
}
