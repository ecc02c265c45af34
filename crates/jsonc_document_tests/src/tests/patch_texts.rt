//! The texts of patches.

use failing_alloc::in_turn::refused_in_turn;
use failing_alloc::outcome::Outcome;
use jsonc_parser::ParseOptions;
use jsonc_parser::cst::{CstInputValue, CstRootNode};
use jsonc_parser::errors::ParseErrorKind;
use jsonc_parser::patch::{
    Member, Operation, OperationFault, Patch, PatchError, Pointer, PointerError,
};
use std::alloc::Allocator;
use std::test::Fail;

/// An operation: the texts of its pointers, and of its value.
#[derive(Clone, Copy)]
enum Wanted<'a> {
    Add(&'a str, &'a str),
    Remove(&'a str),
    Replace(&'a str, &'a str),
    Move(&'a str, &'a str),
    Copy(&'a str, &'a str),
    Test(&'a str, &'a str),
}

/// What a text is.
#[derive(Clone, Copy)]
enum Answer<'a> {
    /// A patch with one operation, or with none.
    One(Wanted<'a>),
    None,
    /// A patch with so many operations.
    Many(usize),
    /// No text under its options.
    Unread,
    /// No array.
    NotAnArray,
    /// The operation of this number is no object.
    NotAnObject(usize),
    /// It lacks a member.
    Missing(usize, Member),
    /// It has a wrong one.
    Wrong(usize, Member),
    /// A member is no pointer.
    Pointer(usize, Member, PointerError),
    /// A name stands twice.
    Twice(usize, &'a str),
}

/// A text, and what it is.
type Row<'a> = (&'a str, Answer<'a>);

/// The patches of RFC 6902, appendix A, and others.
static ROWS: [Row; 46] = [
    (
        "[{ \"op\": \"add\", \"path\": \"/baz\", \"value\": \"qux\" }]",
        Answer::One(Wanted::Add("/baz", "\"qux\"")),
    ),
    (
        "[{ \"op\": \"add\", \"path\": \"/foo/1\", \"value\": \"qux\" }]",
        Answer::One(Wanted::Add("/foo/1", "\"qux\"")),
    ),
    (
        "[{ \"op\": \"remove\", \"path\": \"/baz\" }]",
        Answer::One(Wanted::Remove("/baz")),
    ),
    (
        "[{ \"op\": \"remove\", \"path\": \"/foo/1\" }]",
        Answer::One(Wanted::Remove("/foo/1")),
    ),
    (
        "[{ \"op\": \"replace\", \"path\": \"/baz\", \"value\": \"boo\" }]",
        Answer::One(Wanted::Replace("/baz", "\"boo\"")),
    ),
    (
        "[{ \"op\": \"move\", \"from\": \"/foo/waldo\", \"path\": \"/qux/thud\" }]",
        Answer::One(Wanted::Move("/foo/waldo", "/qux/thud")),
    ),
    (
        "[{ \"op\": \"move\", \"from\": \"/foo/1\", \"path\": \"/foo/3\" }]",
        Answer::One(Wanted::Move("/foo/1", "/foo/3")),
    ),
    (
        "[{ \"op\": \"test\", \"path\": \"/baz\", \"value\": \"qux\" },
{ \"op\": \"test\", \"path\": \"/foo/1\", \"value\": 2 }]",
        Answer::Many(2),
    ),
    (
        "[{ \"op\": \"test\", \"path\": \"/baz\", \"value\": \"bar\" }]",
        Answer::One(Wanted::Test("/baz", "\"bar\"")),
    ),
    (
        "[{ \"op\": \"add\", \"path\": \"/child\", \"value\": { \"grandchild\": { } } }]",
        Answer::One(Wanted::Add("/child", "{ \"grandchild\": { } }")),
    ),
    (
        "[{ \"op\": \"add\", \"path\": \"/baz\", \"value\": \"qux\", \"xyz\": 123 }]",
        Answer::One(Wanted::Add("/baz", "\"qux\"")),
    ),
    (
        "[{ \"op\": \"add\", \"path\": \"/baz/bat\", \"value\": \"qux\" }]",
        Answer::One(Wanted::Add("/baz/bat", "\"qux\"")),
    ),
    (
        "[{ \"op\": \"add\", \"path\": \"/baz\", \"value\": \"qux\", \"op\": \"remove\" }]",
        Answer::Twice(0, "op"),
    ),
    (
        "[{ \"op\": \"test\", \"path\": \"/~01\", \"value\": 10 }]",
        Answer::One(Wanted::Test("/~01", "10")),
    ),
    (
        "[{ \"op\": \"test\", \"path\": \"/~01\", \"value\": \"10\" }]",
        Answer::One(Wanted::Test("/~01", "\"10\"")),
    ),
    (
        "[{ \"op\": \"add\", \"path\": \"/foo/-\", \"value\": [\"abc\", \"def\"] }]",
        Answer::One(Wanted::Add("/foo/-", "[\"abc\", \"def\"]")),
    ),
    // Section 4, and its examples of operations.
    (
        "[{ \"op\": \"test\", \"path\": \"/a/b/c\", \"value\": \"foo\" },
{ \"op\": \"remove\", \"path\": \"/a/b/c\" },
{ \"op\": \"add\", \"path\": \"/a/b/c\", \"value\": [ \"foo\", \"bar\" ] },
{ \"op\": \"replace\", \"path\": \"/a/b/c\", \"value\": 42 },
{ \"op\": \"move\", \"from\": \"/a/b/c\", \"path\": \"/a/b/d\" },
{ \"op\": \"copy\", \"from\": \"/a/b/d\", \"path\": \"/a/b/e\" }]",
        Answer::Many(6),
    ),
    (
        "[{ \"path\": \"/a/b/c\", \"op\": \"copy\", \"from\": \"\" }]",
        Answer::One(Wanted::Copy("", "/a/b/c")),
    ),
    (
        "[{ \"value\": null, \"\\u006fp\": \"a\\u0064d\", \"path\": \"\" }]",
        Answer::One(Wanted::Add("", "null")),
    ),
    ("[]", Answer::None),
    ("// none\n[/*a*/]", Answer::None),
    (
        "[{op: 'add', path: '/a', value: {b: [true, 0x1F, 'c', {}, [],],},},]",
        Answer::One(Wanted::Add("/a", "{b: [true, 0x1F, 'c', {}, []]}")),
    ),
    ("[", Answer::Unread),
    ("", Answer::NotAnArray),
    ("{}", Answer::NotAnArray),
    ("\"[]\"", Answer::NotAnArray),
    ("[1]", Answer::NotAnObject(0)),
    (
        "[{\"op\": \"remove\", \"path\": \"\"}, []]",
        Answer::NotAnObject(1),
    ),
    ("[{}]", Answer::Missing(0, Member::Op)),
    ("[{\"path\": \"/a\"}]", Answer::Missing(0, Member::Op)),
    (
        "[{\"op\": 1, \"path\": \"/a\"}]",
        Answer::Wrong(0, Member::Op),
    ),
    (
        "[{\"op\": \"spam\", \"path\": \"/a\"}]",
        Answer::Wrong(0, Member::Op),
    ),
    (
        "[{\"op\": \"Add\", \"path\": \"/a\"}]",
        Answer::Wrong(0, Member::Op),
    ),
    ("[{\"op\": \"add\"}]", Answer::Missing(0, Member::Path)),
    (
        "[{\"op\": \"add\", \"value\": 1, \"path\": null}]",
        Answer::Wrong(0, Member::Path),
    ),
    (
        "[{\"op\": \"add\", \"path\": \"/a\"}]",
        Answer::Missing(0, Member::Value),
    ),
    (
        "[{\"op\": \"test\", \"path\": \"/a\", \"Value\": 1}]",
        Answer::Missing(0, Member::Value),
    ),
    (
        "[{\"op\": \"replace\", \"path\": \"/a\"}]",
        Answer::Missing(0, Member::Value),
    ),
    (
        "[{\"op\": \"remove\", \"path\": \"a\"}]",
        Answer::Pointer(0, Member::Path, PointerError::NoLeadingSlash),
    ),
    (
        "[{\"op\": \"move\", \"path\": \"/a\"}]",
        Answer::Missing(0, Member::From),
    ),
    (
        "[{\"op\": \"copy\", \"path\": \"/a\", \"from\": [\"a\"]}]",
        Answer::Wrong(0, Member::From),
    ),
    (
        "[{\"op\": \"copy\", \"path\": \"/a\", \"from\": \"/~2\"}]",
        Answer::Pointer(0, Member::From, PointerError::InvalidEscape(1)),
    ),
    (
        "[{\"op\": \"add\", \"path\": \"/a\", \"value\": [{\"b\": {\"c\": 1, \"\\u0063\": 1}}]}]",
        Answer::Twice(0, "c"),
    ),
    (
        "[{\"op\": \"add\", \"path\": \"/a\", \"value\": 1, \"x\": 1, \"x\": 2}]",
        Answer::Twice(0, "x"),
    ),
    (
        "[{\"op\": \"add\", \"path\": \"/a\", \"value\": 1, \"x\": {\"b\": 1, \"b\": 2}}]",
        Answer::One(Wanted::Add("/a", "1")),
    ),
    (
        "[{\"op\": \"remove\", \"path\": \"/a\", \"value\": {\"b\": 1, \"b\": 2}}]",
        Answer::One(Wanted::Remove("/a")),
    ),
];

/// A pointer prints this text.
fn prints<A: Allocator + Copy>(alloc: A, pointer: &Pointer<A>, text: &str) -> Outcome {
    Outcome::of_text(format!(in alloc; "{pointer}"), text)
}

/// A value is that of this text.
pub fn is_value<A: Allocator + Copy>(alloc: A, value: &CstInputValue<A>, text: &str) -> Outcome {
    let doc = match CstRootNode::parse(alloc, text, &ParseOptions::default()) {
        Ok(doc) => doc,
        Err(error) => return Outcome::from(error),
    };
    match doc.to_value() {
        Ok(Some(wanted)) => Outcome::of(wanted == *value),
        Ok(None) => Outcome::Other,
        Err(error) => Outcome::from(error),
    }
}

/// An operation is this one.
fn is_operation<A: Allocator + Copy>(
    alloc: A,
    operation: &Operation<A>,
    wanted: Wanted<'_>,
) -> Outcome {
    match (operation, wanted) {
        (Operation::Add(path, value), Wanted::Add(to, text)) => {
            prints(alloc, path, to).then(is_value(alloc, value, text))
        }
        (Operation::Remove(path), Wanted::Remove(to)) => prints(alloc, path, to),
        (Operation::Replace(path, value), Wanted::Replace(to, text)) => {
            prints(alloc, path, to).then(is_value(alloc, value, text))
        }
        (Operation::Move(from, path), Wanted::Move(at, to)) => {
            prints(alloc, from, at).then(prints(alloc, path, to))
        }
        (Operation::Copy(from, path), Wanted::Copy(at, to)) => {
            prints(alloc, from, at).then(prints(alloc, path, to))
        }
        (Operation::Test(path, value), Wanted::Test(to, text)) => {
            prints(alloc, path, to).then(is_value(alloc, value, text))
        }
        _ => Outcome::Other,
    }
}

/// What comes of a fault of an operation.
fn of_fault<A: Allocator>(number: usize, fault: &OperationFault<A>, answer: Answer<'_>) -> Outcome {
    match (fault, answer) {
        (OperationFault::OutOfMemory, _) => Outcome::Wanted,
        (OperationFault::NotAnObject, Answer::NotAnObject(at)) => Outcome::of(number == at),
        (OperationFault::Missing(member), Answer::Missing(at, wanted)) => {
            Outcome::of(number == at && *member == wanted)
        }
        (OperationFault::Wrong(member), Answer::Wrong(at, wanted)) => {
            Outcome::of(number == at && *member == wanted)
        }
        (OperationFault::Pointer(member, error), Answer::Pointer(at, wanted, why)) => {
            Outcome::of(number == at && *member == wanted && *error == why)
        }
        (OperationFault::RepeatedName(name), Answer::Twice(at, wanted)) => {
            Outcome::of(number == at && name.as_str() == wanted)
        }
        _ => Outcome::Other,
    }
}

fn outcome<A: Allocator + Copy>(alloc: A, row: &Row<'_>) -> Outcome {
    let patch = match Patch::from_json(alloc, row.0, &ParseOptions::default()) {
        Ok(patch) => patch,
        Err(PatchError::Parse(error)) => {
            if matches!(error.kind(), ParseErrorKind::OutOfMemory) {
                return Outcome::from(error);
            }
            return Outcome::of(matches!(row.1, Answer::Unread));
        }
        Err(PatchError::NotAnArray) => return Outcome::of(matches!(row.1, Answer::NotAnArray)),
        Err(PatchError::Operation(number, fault)) => return of_fault(number, &fault, row.1),
    };
    match (row.1, patch.operations().first()) {
        (Answer::One(wanted), Some(operation)) => {
            Outcome::of(patch.operations().len() == 1).then(is_operation(alloc, operation, wanted))
        }
        (Answer::None, None) => Outcome::Answered,
        (Answer::Many(count), Some(_)) => Outcome::of(patch.operations().len() == count),
        _ => Outcome::Other,
    }
}

#[test]
fn patches_are_read_with_each_request_refused_in_turn(rt: HostRuntime) -> Result<(), Fail> {
    let alloc = rt.alloc();
    for row in &ROWS {
        assert!(rt;
            refused_in_turn(alloc, |heap| outcome(heap, row)).is_some(),
            "{}",
            row.0
        );
    }
    Ok(())
}

/// What `from_json` answers is printed.
static PRINTED: [(&str, &str); 8] = [
    ("{}", "Patch is no array"),
    ("[null]", "Operation 0: Operation is no object"),
    ("[{}]", "Operation 0: Operation lacks op"),
    ("[{\"op\": null}]", "Operation 0: Operation has a wrong op"),
    (
        "[{\"op\": \"move\", \"path\": \"/a\", \"from\": \"/~\"}]",
        "Operation 0: from: Neither 0 nor 1 after the tilde at byte 1",
    ),
    (
        "[{\"op\": \"remove\", \"path\": \"/a\"}, {\"op\": \"remove\", \"path\": \"a\"}]",
        "Operation 1: path: Pointer does not begin with a slash",
    ),
    (
        "[{\"op\": \"add\", \"path\": \"\", \"value\": {\"a b\": 1, \"a b\": 2}}]",
        "Operation 0: Name stands twice: \"a b\"",
    ),
    (
        "[{\"op\": \"test\", \"path\": \"\"}]",
        "Operation 0: Operation lacks value",
    ),
];

#[test]
fn faults_of_patches_are_printed(rt: HostRuntime) -> Result<(), Fail> {
    let alloc = rt.alloc();
    for (text, wanted) in &PRINTED {
        match Patch::from_json(alloc, text, &ParseOptions::default()) {
            Ok(_) => assert!(rt; false, "{}", text),
            Err(error) => {
                let line = format!(in alloc; "{error}")?;
                assert_eq!(rt; line.as_str(), *wanted);
            }
        }
    }
    Ok(())
}
