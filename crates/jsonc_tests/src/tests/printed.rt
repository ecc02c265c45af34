//! What is printed, in each format and of each reason for an error.

use failing_alloc::awaited::{Awaited, prints};
use jsonc_engine::fault::Fault;
use jsonc_parser::cst::{CstRootNode, EditError};
use jsonc_parser::{JsonObject, JsonValue, ParseOptions, parse_to_value};
use std::alloc::Global;
use std::default::Default;
use std::fmt;
use std::fmt::Write;
use std::test::Fail;

/// Why a document was not changed, and what that prints.
static EDIT_ERRORS: [(EditError, &str); 8] = [
    (EditError::OutOfMemory, "Out of memory"),
    (EditError::MissingBrackets, "Missing brackets"),
    (EditError::MissingName, "Missing name"),
    (EditError::NoSuchPlace, "No such place"),
    (EditError::InvalidComment, "Invalid comment"),
    (EditError::LineContinues, "Line continues after the comment"),
    (EditError::NotAnEntry, "Not an entry"),
    (
        EditError::NestingDepthExceeded,
        "Maximum nesting depth exceeded",
    ),
];

#[test]
fn reasons_of_edits_are_printed(rt: HostRuntime) -> Result<(), Fail> {
    for (error, text) in &EDIT_ERRORS {
        assert!(rt; prints(error, text), "{text}");
    }
    assert!(rt;
        prints(
            &Fault::<Global>::Edit(EditError::OutOfMemory),
            "jsonc: Out of memory"
        )
    );
    Ok(())
}

/// A document of fewer than 60 bytes.
const TEXT: &str = "{\"a\": [1, 0x2], // c\n b: true, 'c': null}\r\n";

/// Whether something prints this, whatever the options of the format.
fn prints_alike<T: fmt::Display>(shown: &T, text: &str) -> bool {
    let mut printed = Awaited {
        rest: text.as_bytes(),
    };
    let is_alternate = write!(printed, "{shown:#}").is_ok() && printed.rest.is_empty();
    printed.rest = text.as_bytes();
    let is_wide = write!(printed, "{shown:60}").is_ok() && printed.rest.is_empty();
    printed.rest = text.as_bytes();
    let is_precise = write!(printed, "{shown:.3}").is_ok() && printed.rest.is_empty();
    is_alternate && is_wide && is_precise
}

fn document_prints_alike(alloc: Global) -> bool {
    match CstRootNode::parse(alloc, TEXT, &ParseOptions::default()) {
        Ok(document) => prints_alike(&document, TEXT),
        Err(_) => false,
    }
}

fn fault_prints_alike(alloc: Global) -> bool {
    match parse_to_value(alloc, "[1,\n @]", &ParseOptions::default()) {
        Ok(_) => false,
        Err(error) => prints_alike(&error, "Unexpected token on line 2 column 2"),
    }
}

#[test]
fn options_of_a_format_change_nothing(rt: HostRuntime) {
    assert!(rt; document_prints_alike(rt.alloc()));
    assert!(rt; fault_prints_alike(rt.alloc()));
}

/// Whether this is what `Debug` of something prints.
fn debugs<T: fmt::Debug>(shown: &T, text: &str) -> bool {
    let mut printed = Awaited {
        rest: text.as_bytes(),
    };
    let is_printed = write!(printed, "{shown:?}").is_ok();
    is_printed && printed.rest.is_empty()
}

/// A text, and what `Debug` prints of its value, of the object that this is, and of the map of that.
const OBJECT: &str = "{\"b\": [1, null], \"a\": \"x\\n\"}";

const AS_VALUE: &str =
    "Object(JsonObject({\"b\": Array(JsonArray([Number(\"1\"), Null])), \"a\": String(\"x\\n\")}))";

const AS_OBJECT: &str =
    "JsonObject({\"b\": Array(JsonArray([Number(\"1\"), Null])), \"a\": String(\"x\\n\")})";

const AS_MAP: &str = "{\"b\": Array(JsonArray([Number(\"1\"), Null])), \"a\": String(\"x\\n\")}";

fn object_debugs(object: JsonObject<'_, Global>) -> bool {
    let is_object = debugs(&object, AS_OBJECT);
    let map = object.take_inner();
    let is_map = debugs(&map, AS_MAP);
    let value = JsonValue::Object(JsonObject::new(map));
    is_object && is_map && debugs(&value, AS_VALUE)
}

fn value_debugs(alloc: Global) -> bool {
    let Ok(Some(JsonValue::Object(object))) = parse_to_value(alloc, OBJECT, &ParseOptions::json())
    else {
        return false;
    };
    object_debugs(object)
}

fn document_debugs(alloc: Global) -> bool {
    match CstRootNode::parse(alloc, "[1, /*a*/ 2]", &ParseOptions::jsonc()) {
        Ok(document) => debugs(&document, "CstRootNode([1, /*a*/ 2])"),
        Err(_) => false,
    }
}

#[test]
fn values_and_documents_have_debug(rt: HostRuntime) {
    assert!(rt; value_debugs(rt.alloc()));
    assert!(rt; document_debugs(rt.alloc()));
}

/// Texts, and what `Debug` prints of their values.
static SHOWN: [(&str, &str); 5] = [
    ("{}", "Object(JsonObject({}))"),
    ("[]", "Array(JsonArray([]))"),
    ("[{}]", "Array(JsonArray([Object(JsonObject({}))]))"),
    ("-0.5e1", "Number(\"-0.5e1\")"),
    (
        "{\"a\":{\"b\":false}}",
        "Object(JsonObject({\"a\": Object(JsonObject({\"b\": Boolean(false)}))}))",
    ),
];

/// The same map, with `Debug` on several lines.
const OVER_LINES: &str = "{
    \"b\": Boolean(
        true,
    ),
    \"a\": Null,
}";

/// Texts, and what `Debug` prints of their documents.
static DOCUMENTS: [(&str, &str); 3] = [
    ("", "CstRootNode()"),
    (" // c\n", "CstRootNode( // c\n)"),
    ("{a: 'b',}\r\n", "CstRootNode({a: 'b',}\r\n)"),
];

fn is_shown(alloc: Global, text: &str, shown: &str) -> bool {
    match parse_to_value(alloc, text, &ParseOptions::json()) {
        Ok(Some(value)) => debugs(&value, shown),
        _ => false,
    }
}

fn is_document_shown(alloc: Global, text: &str, shown: &str) -> bool {
    match CstRootNode::parse(alloc, text, &ParseOptions::default()) {
        Ok(document) => debugs(&document, shown),
        Err(_) => false,
    }
}

fn is_shown_over_lines(alloc: Global) -> bool {
    let Ok(Some(JsonValue::Object(object))) = parse_to_value(
        alloc,
        "{\"b\": true, \"a\": null}",
        &ParseOptions::json(),
    ) else {
        return false;
    };
    let mut printed = Awaited {
        rest: OVER_LINES.as_bytes(),
    };
    let is_printed = write!(printed, "{:#?}", object.take_inner()).is_ok();
    is_printed && printed.rest.is_empty()
}

#[test]
fn maps_and_documents_have_debug(rt: HostRuntime) -> Result<(), Fail> {
    for (text, shown) in &SHOWN {
        assert!(rt; is_shown(rt.alloc(), text, shown), "{text}");
    }
    for (text, shown) in &DOCUMENTS {
        assert!(rt; is_document_shown(rt.alloc(), text, shown), "{text}");
    }
    assert!(rt; is_shown_over_lines(rt.alloc()));
    Ok(())
}
