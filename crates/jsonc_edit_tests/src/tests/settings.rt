//! Values that are put at names, dropped, and found there.

use crate::tests::reading::{read, value_of};
use failing_alloc::in_turn::refused_in_turn;
use failing_alloc::outcome::Outcome;
use jsonc_parser::cst::{CstLeafNode, CstNode, CstRootNode, EditError, Over, TypedNode};
use jsonc_parser::settings::{find_at, read_at, remove_at, set_at, set_last_at};
use std::alloc::Allocator;
use std::test::Fail;

/// What is asked for at names.
#[derive(Clone, Copy)]
enum Call<'a> {
    /// The value of a text is put there.
    Put(&'a str, Over),
    /// The same, where of equal names the last leads on.
    PutLast(&'a str, Over),
    /// What stands there leaves.
    Drop,
    /// What stands there is printed.
    Find,
}

/// Names, what is asked for there, a text, and the text after it, or what was found: none where nothing is
/// done, or nothing stands there.
type Row<'a> = (&'a [&'a str], Call<'a>, &'a str, Option<&'a str>);

const KEEP: Over = Over::Keep;

static ROWS: [Row; 24] = [
    (
        &["a", "b"],
        Call::Put("2", KEEP),
        "{\"a\": {\"b\": 1}}",
        Some("{\"a\": {\"b\": 2}}"),
    ),
    (
        &["a", "b"],
        Call::Put("true", KEEP),
        "",
        Some("{\n  \"a\": {\n    \"b\": true\n  }\n}\n"),
    ),
    (
        &["b"],
        Call::Put("null", KEEP),
        "{\"a\": 1}",
        Some("{\n  \"a\": 1,\n  \"b\": null\n}"),
    ),
    (&["a", "b"], Call::Put("2", KEEP), "{\"a\": 1}", None),
    (
        &["a", "b"],
        Call::Put("2", Over::Replace),
        "{\"a\": 1}",
        Some("{\"a\": {\n    \"b\": 2\n  }}"),
    ),
    (
        &["a"],
        Call::Put("3", KEEP),
        "{\"a\":1,\"a\":2}",
        Some("{\"a\":3,\"a\":2}"),
    ),
    (
        &["a"],
        Call::PutLast("3", KEEP),
        "{\"a\":1,\"a\":2}",
        Some("{\"a\":1,\"a\":3}"),
    ),
    (
        &["a"],
        Call::PutLast("3", KEEP),
        "{\"a\":1,\"\\u0061\":2, \"b\":0}",
        Some("{\"a\":1,\"\\u0061\":3, \"b\":0}"),
    ),
    (
        &["a", "b"],
        Call::PutLast("3", KEEP),
        "{\"a\":{\"b\":0},\"a\":{\"b\":1,\"b\":2}}",
        Some("{\"a\":{\"b\":0},\"a\":{\"b\":1,\"b\":3}}"),
    ),
    (
        &["a", "b"],
        Call::PutLast("3", KEEP),
        "{\"a\":{\"b\":0},\"a\":2}",
        None,
    ),
    (
        &["a", "b"],
        Call::PutLast("3", KEEP),
        "{\"a\":2,\"a\":{\"b\":0}}",
        Some("{\"a\":2,\"a\":{\"b\":3}}"),
    ),
    (
        &["a"],
        Call::PutLast("3", KEEP),
        "",
        Some("{\n  \"a\": 3\n}\n"),
    ),
    (&[], Call::Put("2", KEEP), "[1]", Some("2")),
    (&["0"], Call::Put("2", KEEP), "[1]", None),
    (
        &["a", "b"],
        Call::Drop,
        "{\"a\": {\"b\": 1, \"c\": 2}}",
        Some("{\"a\": { \"c\": 2}}"),
    ),
    (&["a"], Call::Drop, "{\"a\":1,\"a\":2}", Some("{\"a\":2}")),
    (&["a", "b"], Call::Drop, "{\"a\":1}", None),
    (&["b"], Call::Drop, "{\"a\":1}", None),
    (&[], Call::Drop, "// c", None),
    (
        &["a"],
        Call::Find,
        "{\"a\": [1, /*x*/ 2]}",
        Some("[1, /*x*/ 2]"),
    ),
    (&["b"], Call::Find, "{\"a\": 1}", None),
    (&["a"], Call::Find, "{\"a\":1,\"a\":2}", Some("1")),
    (&["0"], Call::Find, "[1]", None),
    (&["a"], Call::Find, "", None),
];

fn names_of<A: Allocator + Copy>(alloc: A, names: &[&str]) -> Result<Vec<String<A>, A>, Outcome> {
    let mut all = Vec::new(alloc);
    for name in names {
        let Ok(name) = String::from_str(alloc, name) else {
            return Err(Outcome::Wanted);
        };
        let Ok(()) = all.push(name) else {
            return Err(Outcome::Wanted);
        };
    }
    Ok(all)
}

/// The text after a change, or the same text where none was made.
fn changed<A: Allocator + Copy>(
    doc: &CstRootNode<A>,
    row: &Row<'_>,
    made: Result<bool, EditError>,
) -> Outcome {
    let is_made = match made {
        Ok(is_made) => is_made,
        Err(error) => return Outcome::of_text(doc.text(), row.2).then(Outcome::from(error)),
    };
    match row.3 {
        Some(text) if is_made => Outcome::of_text(doc.text(), text),
        None if !is_made => Outcome::of_text(doc.text(), row.2),
        _ => Outcome::Other,
    }
}

/// What was found is printed as it stands in the text, and a value is read there exactly where one was.
fn found<A: Allocator + Copy>(
    alloc: A,
    doc: &CstRootNode<A>,
    names: &[String<A>],
    row: &Row<'_>,
) -> Outcome {
    let found = match find_at(doc, names) {
        Ok(found) => found,
        Err(error) => return Outcome::from(error),
    };
    let read = match read_at(doc, names) {
        Ok(read) => Outcome::of(read.is_some() == row.3.is_some()),
        Err(error) => return Outcome::from(error),
    };
    let printed = match (found, row.3) {
        (Some(node), Some(text)) => Outcome::of_text(
            format!(in alloc; "{}", node.shown(doc)),
            text,
        ),
        (None, None) => Outcome::Answered,
        _ => Outcome::Other,
    };
    read.then(printed)
}

fn at_names<A: Allocator + Copy>(alloc: A, doc: CstRootNode<A>, row: &Row<'_>) -> Outcome {
    let mut doc = doc;
    let names = match names_of(alloc, row.0) {
        Ok(names) => names,
        Err(outcome) => return outcome,
    };
    match row.1 {
        Call::Put(json, over) => {
            let Ok(value) = value_of(alloc, json) else {
                return Outcome::Wanted;
            };
            let made = set_at(&mut doc, &names, value, over);
            changed(&doc, row, made)
        }
        Call::PutLast(json, over) => {
            let Ok(value) = value_of(alloc, json) else {
                return Outcome::Wanted;
            };
            let made = set_last_at(&mut doc, &names, value, over);
            changed(&doc, row, made)
        }
        Call::Drop => {
            let made = remove_at(&mut doc, &names);
            changed(&doc, row, made)
        }
        Call::Find => found(alloc, &doc, &names, row),
    }
}

fn outcome<A: Allocator + Copy>(alloc: A, row: &Row<'_>) -> Outcome {
    match read(alloc, row.2) {
        Ok(doc) => at_names(alloc, doc, row),
        Err(outcome) => outcome,
    }
}

#[test]
fn settings_are_put_and_found_with_each_request_refused_in_turn(
    rt: HostRuntime,
) -> Result<(), Fail> {
    let alloc = rt.alloc();
    for row in &ROWS {
        assert!(rt;
            refused_in_turn(alloc, |heap| outcome(heap, row)).is_some(),
            "{}",
            row.2
        );
    }
    Ok(())
}

/// The same of `{"a":1,"b":2}`, whose first number is no number any more.
static DAMAGED: [Row; 6] = [
    (
        &["b"],
        Call::Put("3", KEEP),
        BROKEN,
        Some("{\"a\":1 2,\"b\":3}"),
    ),
    (
        &["a"],
        Call::Put("3", KEEP),
        BROKEN,
        Some("{\"a\":3,\"b\":2}"),
    ),
    (
        &["c"],
        Call::Put("3", KEEP),
        BROKEN,
        Some("{\n  \"a\":1 2,\n  \"b\":2,\n  \"c\": 3\n}"),
    ),
    (&["a", "b"], Call::Put("3", KEEP), BROKEN, None),
    (&["a"], Call::Drop, BROKEN, Some("{\"b\":2}")),
    (&["b"], Call::Find, BROKEN, Some("2")),
];

const BROKEN: &str = "{\"a\":1 2,\"b\":2}";

/// The document of that text, which is not in the grammar.
fn broken<A: Allocator + Copy>(alloc: A) -> Result<CstRootNode<A>, Outcome> {
    let mut doc = read(alloc, "{\"a\":1,\"b\":2}")?;
    let Ok(word) = format!(in alloc; "1 2") else {
        return Err(Outcome::Wanted);
    };
    let Some(object) = doc.object_value() else {
        return Err(Outcome::Other);
    };
    let property = match object.get(&doc, "a") {
        Ok(Some(property)) => property,
        Ok(None) => return Err(Outcome::Other),
        Err(error) => return Err(Outcome::from(error)),
    };
    let Some(CstNode::Leaf(CstLeafNode::NumberLit(number))) = property.value(&doc) else {
        return Err(Outcome::Other);
    };
    number.set_raw_value(&mut doc, word);
    Ok(doc)
}

fn outcome_of_broken<A: Allocator + Copy>(alloc: A, row: &Row<'_>) -> Outcome {
    match broken(alloc) {
        Ok(doc) => at_names(alloc, doc, row),
        Err(outcome) => outcome,
    }
}

#[test]
fn damaged_documents_are_changed_at_names(rt: HostRuntime) -> Result<(), Fail> {
    for row in &DAMAGED {
        assert!(rt;
            outcome_of_broken(rt.alloc(), row) == Outcome::Answered,
            "{:?}",
            row.0
        );
    }
    Ok(())
}
