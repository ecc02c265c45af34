//! The calls that may want memory.

use crate::tests::clones::copies;
use crate::tests::lines::laid_out;
use crate::tests::maps::changed_map;
use crate::tests::nodes::node_names;
use crate::tests::tokens::decode_provided;
use crate::tests::tree_copies::tree_copies;
use engine_runs::run_by;
use failing_alloc::awaited::Awaited;
use failing_alloc::outcome::Outcome;
use jsonc_engine::calls::{FromReader, ToWriter};
use jsonc_engine::command::{Command, Place};
use jsonc_engine::engine::run_on;
use jsonc_engine::fault::Fault;
use jsonc_parser::cst::CstRootNode;
use jsonc_parser::tokens::Token;
use jsonc_parser::{
    CollectOptions, CommentCollectionStrategy, CommentMap, JsonObject, JsonValue, ParseOptions,
    ParseResult, Scanner, ScannerOptions, parse_to_ast, parse_to_value,
};
use jsonc_text::string::provider::parse_string;
use std::alloc::Allocator;
use std::borrow::CowStr;
use std::default::Default;

/// A call that may want memory.
#[derive(Clone, Copy)]
pub enum Call {
    Decode,
    DecodeProvided,
    Scan,
    SyntaxTree,
    ManyTokens,
    SyntaxTreeCopies,
    CommentMap,
    Value,
    ValueCopies,
    Document,
    NodeNames,
    TokenCopy,
    MapChanges,
    Layout,
    BytesToBytes,
    Removal,
    Appended,
    Set,
    SetFirst,
    Sorted,
    Got,
    Put,
    PutFirst,
    Dropped,
    WholeRun,
    WholeAppend,
    WholeSet,
    WholeSetOfNew,
    WholeRemoval,
    WholeGet,
    WholePut,
    WholeDrop,
}

/// Those that want memory wherever a request is refused, each with its name.
pub static CALLS: [(Call, &str); 31] = [
    (Call::Decode, "decode"),
    (Call::DecodeProvided, "decode provided"),
    (Call::Scan, "scan"),
    (Call::SyntaxTree, "syntax tree"),
    (Call::ManyTokens, "many tokens"),
    (Call::SyntaxTreeCopies, "syntax tree copies"),
    (Call::CommentMap, "comment map"),
    (Call::Value, "value"),
    (Call::ValueCopies, "value copies"),
    (Call::Document, "document"),
    (Call::NodeNames, "node names"),
    (Call::TokenCopy, "token copy"),
    (Call::MapChanges, "map changes"),
    (Call::Layout, "layout"),
    (Call::BytesToBytes, "bytes to bytes"),
    (Call::Removal, "removal"),
    (Call::Appended, "appended"),
    (Call::Set, "set"),
    (Call::SetFirst, "set first"),
    (Call::Got, "got"),
    (Call::Put, "put"),
    (Call::PutFirst, "put first"),
    (Call::Dropped, "dropped"),
    (Call::WholeRun, "whole run"),
    (Call::WholeRemoval, "whole removal"),
    (Call::WholeAppend, "whole append"),
    (Call::WholeSet, "whole set"),
    (Call::WholeSetOfNew, "whole set of a new name"),
    (Call::WholeGet, "whole get"),
    (Call::WholePut, "whole put"),
    (Call::WholeDrop, "whole drop"),
];

/// A text of plain JSON, with more elements and properties than a list has room for at first.
const PLAIN: &str =
    "{\"a\": [1, 2.5, -3, true, false, null, []],\r\n \"b\": {}, \"c\": \"d\", \"e\": 0, \"f\": 1 }\n";

/// One without commas, and its text without the first `b`.
const SETTINGS: &str = "{a: 1 /*c*/ \"b\\u0020\": [] \"\\u0062\": 2 d: 3}";

const SETTINGS_WITHOUT: &str = "{a: 1 /*c*/ \"b\\u0020\": [] d: 3}";

/// An object with a comment behind its first property, and with its properties in the order of their names.
const UNSORTED: &str = "{\"b\": 1, // one\n \"a\": 2}";

const SORTED: &str = "{\"a\": 2,\n \"b\": 1 // one\n}";

/// The same with another value, with one property more, and with one less.
const CHANGED: &str = "{\"b\": 1, // one\n \"a\": [true]}";

const LONGER: &str = "{\"b\": 1, // one\n \"a\": 2,\n \"c\": [true]}";

const SHORTER: &str = "{\"b\": 1 // one\n}";

/// Names of a value in an object in an object, the value there, and the text with another and without it.
const INNER_PATH: &str = "[\"a\", \"\\u0062\"]";

const INNER: &str = "{\"a\": {\"b\": 1, \"c\": 2}}";

const INNER_VALUE: &str = "1\n";

const INNER_PUT: &str = "{\"a\": {\"b\": [true], \"c\": 2}}";

const INNER_DROPPED: &str = "{\"a\": { \"c\": 2}}";

/// One with comments, an escape and looser spelling.
const LOOSE: &str = "// one\n[{a: '\\x62', 0x1F: +.5, c: Infinity,}, /* two */ [NaN -1]]";

/// One with comments in three gaps, and with two in the first of them, which ends at 17.
const COMMENTED: &str = "// one\n/* two */ [1, /* three */ 2] // four";

/// One of two elements, with an escape in a name and in a string.
const VALUES: &str = "[true, {'\\x61': '\\x62', 0x1F: +.5, c: Infinity,}] // end";

/// A string with more characters than a text has room for at first, and what it decodes to.
const ESCAPES: &str = "'one\\ttwo\\u0020three'";

const DECODED: &str = "one\ttwo three";

/// An array with a comment behind its last element, and with one more element.
const COMMENT_INSIDE: &str = "[1 //c\n]";

const COMMENT_BEFORE: &str = "[1, //c\n  2\n]";

/// Forty numbers, so that the room for the rest of the tokens is taken at once.
const NUMBERS: &str =
    "[0,1,2,3,4,5,6,7,8,9,0,1,2,3,4,5,6,7,8,9,0,1,2,3,4,5,6,7,8,9,0,1,2,3,4,5,6,7,8,9]";

const REMOVAL: Command<'static> = Command::Remove { name: "b" };

const APPENDED: Command<'static> = Command::Append { json: "2" };

const SET: Command<'static> = Command::Set {
    name: "a",
    json: "1",
};

const GOT: Command<'static> = Command::Get {
    place: Place::Names(INNER_PATH),
};

const PUT: Command<'static> = Command::Put {
    names: INNER_PATH,
    json: "[true]",
};

const PUT_FIRST: Command<'static> = Command::Put {
    names: INNER_PATH,
    json: "true",
};

const DROPPED: Command<'static> = Command::Drop { names: INNER_PATH };

/// What comes of a call under an allocator.
pub fn outcome_of<A: Allocator + Copy>(call: Call, alloc: A) -> Outcome {
    match call {
        Call::Decode => decode(alloc),
        Call::DecodeProvided => decode_provided(alloc),
        Call::Scan => scan(alloc),
        Call::SyntaxTree => tokens(alloc, LOOSE, 23),
        Call::ManyTokens => tokens(alloc, NUMBERS, 81),
        Call::SyntaxTreeCopies => tree_copies(alloc),
        Call::CommentMap => comment_map(alloc),
        Call::Value => value(alloc),
        Call::ValueCopies => copies(alloc),
        Call::Document => document(alloc),
        Call::NodeNames => node_names(alloc),
        Call::TokenCopy => token_copy(alloc),
        Call::MapChanges => changed_map(alloc),
        Call::Layout => laid_out(alloc),
        Call::BytesToBytes => bytes_to_bytes(alloc),
        Call::Removal => changed(alloc, REMOVAL, SETTINGS, SETTINGS_WITHOUT),
        Call::Appended => changed(alloc, APPENDED, COMMENT_INSIDE, COMMENT_BEFORE),
        Call::Set => changed(alloc, SET, "{\"a\":0}", "{\"a\":1}"),
        Call::SetFirst => changed(alloc, SET, "", "{\n  \"a\": 1\n}\n"),
        Call::Sorted => changed(alloc, Command::Sort, UNSORTED, SORTED),
        Call::Got => changed(alloc, GOT, INNER, INNER_VALUE),
        Call::Put => changed(alloc, PUT, INNER, INNER_PUT),
        Call::PutFirst => changed(
            alloc,
            PUT_FIRST,
            "",
            "{\n  \"a\": {\n    \"b\": true\n  }\n}\n",
        ),
        Call::Dropped => changed(alloc, DROPPED, INNER, INNER_DROPPED),
        Call::WholeRun => whole_run(alloc, &["print"], PLAIN, PLAIN),
        Call::WholeAppend => whole_run(alloc, &["append", "2"], COMMENT_INSIDE, COMMENT_BEFORE),
        Call::WholeSet => whole_run(alloc, &["set", "a", "[true]"], UNSORTED, CHANGED),
        Call::WholeSetOfNew => whole_run(alloc, &["set", "c", "[true]"], UNSORTED, LONGER),
        Call::WholeRemoval => whole_run(alloc, &["remove", "a"], UNSORTED, SHORTER),
        Call::WholeGet => whole_run(alloc, &["get", INNER_PATH], INNER, INNER_VALUE),
        Call::WholePut => whole_run(alloc, &["put", INNER_PATH, "[true]"], INNER, INNER_PUT),
        Call::WholeDrop => whole_run(alloc, &["drop", INNER_PATH], INNER, INNER_DROPPED),
    }
}

fn is_owned<A: Allocator>(found: &CowStr<'_, A>, text: &str) -> Outcome {
    match found {
        CowStr::Owned(found) => Outcome::of(found.as_str() == text),
        CowStr::Borrowed(_) => Outcome::Other,
    }
}

fn decode<A: Allocator + Copy>(alloc: A) -> Outcome {
    match parse_string(alloc, ESCAPES) {
        Ok(found) => is_owned(&found, DECODED),
        Err(error) => Outcome::from(error),
    }
}

fn is_owned_string<A: Allocator>(token: Option<&Token<'_, A>>, text: &str) -> Outcome {
    match token {
        Some(Token::String(found)) => is_owned(found, text),
        _ => Outcome::Other,
    }
}

fn scan<A: Allocator + Copy>(alloc: A) -> Outcome {
    let mut scanner = Scanner::new(alloc, ESCAPES, &ScannerOptions::default());
    match scanner.scan() {
        Ok(token) => is_owned_string(token.as_ref(), DECODED),
        Err(error) => Outcome::from(error),
    }
}

/// Whether a text has a value, and so many tokens.
fn tokens<A: Allocator + Copy>(alloc: A, text: &str, count: usize) -> Outcome {
    let collect = CollectOptions {
        comments: CommentCollectionStrategy::AsTokens,
        tokens: true,
    };
    match parse_to_ast(alloc, text, &collect, &ParseOptions::default()) {
        Ok(parsed) => Outcome::of(parsed.value.is_some() && token_count(&parsed) == count),
        Err(error) => Outcome::from(error),
    }
}

fn token_count<A: Allocator>(parsed: &ParseResult<'_, A>) -> usize {
    match &parsed.tokens {
        Some(tokens) => tokens.len(),
        None => 0,
    }
}

fn comment_map<A: Allocator + Copy>(alloc: A) -> Outcome {
    let collect = CollectOptions {
        comments: CommentCollectionStrategy::Separate,
        tokens: false,
    };
    match parse_to_ast(alloc, COMMENTED, &collect, &ParseOptions::default()) {
        Ok(parsed) => are_comments(parsed.comments.as_ref()),
        Err(error) => Outcome::from(error),
    }
}

/// Whether both comments of the first gap stand under both of its ends, and there are six places.
fn are_comments<A: Allocator>(comments: Option<&CommentMap<'_, A>>) -> Outcome {
    let Some(comments) = comments else {
        return Outcome::Other;
    };
    let has_first = comment_count(comments, 0) == 2 && comment_count(comments, 17) == 2;
    Outcome::of(has_first && comments.len() == 6)
}

fn comment_count<A: Allocator>(comments: &CommentMap<'_, A>, place: usize) -> usize {
    match comments.get(&place) {
        Some(shared) => shared.len(),
        None => 0,
    }
}

fn value<A: Allocator + Copy>(alloc: A) -> Outcome {
    match parse_to_value(alloc, VALUES, &ParseOptions::default()) {
        Ok(Some(value)) => Outcome::of(is_list_read(&value)),
        Ok(None) => Outcome::Other,
        Err(error) => Outcome::from(error),
    }
}

/// Whether an array of two values has `true` before an object.
fn is_list_read<A: Allocator>(value: &JsonValue<'_, A>) -> bool {
    match value {
        JsonValue::Array(array) => {
            array.len() == 2
                && matches!(array.get(0), Some(JsonValue::Boolean(true)))
                && is_read(array.get(1))
        }
        _ => false,
    }
}

/// Whether an object of three properties has a number under its name.
fn is_read<A: Allocator>(value: Option<&JsonValue<'_, A>>) -> bool {
    match value {
        Some(JsonValue::Object(object)) => is_number_read(object),
        _ => false,
    }
}

fn is_number_read<A: Allocator>(object: &JsonObject<'_, A>) -> bool {
    object.get_number("0x1F") == Some("+.5") && object.len() == 3
}

/// The tree is built as the document is read.
fn document<A: Allocator + Copy>(alloc: A) -> Outcome {
    match CstRootNode::parse(alloc, LOOSE, &ParseOptions::default()) {
        Ok(document) => Outcome::of_text(document.text(), LOOSE),
        Err(error) => Outcome::from(error),
    }
}

fn token_copy<A: Allocator + Copy>(alloc: A) -> Outcome {
    match String::from_str(alloc, "owned") {
        Ok(text) => {
            let token = Token::String(CowStr::Owned(text));
            Outcome::of_answer(token.try_clone(), &token)
        }
        Err(error) => Outcome::from(error),
    }
}

/// What a run of the program tells of memory.
fn of_fault<A: Allocator>(fault: Fault<A>) -> Outcome {
    match fault {
        Fault::Input(error) => Outcome::from(error),
        Fault::Path(error) => Outcome::from(error),
        Fault::Argument(error) => Outcome::from(error),
        Fault::Edit(error) => Outcome::from(error),
        _ => Outcome::Other,
    }
}

fn bytes_to_bytes<A: Allocator + Copy>(alloc: A) -> Outcome {
    match run_on(alloc, Command::Print, PLAIN.as_bytes()) {
        Ok(Some(written)) => Outcome::of(written.as_str() == PLAIN),
        Ok(None) => Outcome::Other,
        Err(fault) => of_fault(fault),
    }
}

fn changed<A: Allocator + Copy>(alloc: A, command: Command, input: &str, wanted: &str) -> Outcome {
    match run_on(alloc, command, input.as_bytes()) {
        Ok(Some(written)) => Outcome::of(written.as_str() == wanted),
        Ok(None) => Outcome::Other,
        Err(fault) => of_fault(fault),
    }
}

/// What comes of a run of the program: nothing is written where allocation failed.
fn whole_run<A: Allocator + Copy>(
    alloc: A,
    words: &[&str],
    input: &'static str,
    wanted: &'static str,
) -> Outcome {
    let mut source = FromReader::new(input.as_bytes());
    let mut sink = ToWriter::new(Awaited {
        rest: wanted.as_bytes(),
    });
    match run_by(alloc, words, &mut source, &mut sink) {
        Ok(()) => Outcome::of(sink.writer.rest.is_empty()),
        Err(fault) if sink.writer.rest.len() == wanted.len() => of_fault(fault),
        Err(_) => Outcome::Other,
    }
}
