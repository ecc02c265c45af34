//! Calls that take no memory.

use failing_alloc::Refusing;
use failing_alloc::awaited::prints;
use jsonc_engine::command::Command;
use jsonc_engine::engine::run_on;
use jsonc_engine::fault::Fault;
use jsonc_parser::common::{Range, Ranged};
use jsonc_parser::cst::CstRootNode;
use jsonc_parser::errors::{ParseError, ParseErrorKind};
use jsonc_parser::tokens::Token;
use jsonc_parser::{ParseOptions, Scanner, ScannerOptions, check, check_document};
use std::alloc::{Allocator, Global};
use std::default::Default;

/// A text of 17 tokens, and then a fault.
const TOKENS: &str = "{'a': [0x1F, -Infinity, null], // c\n b: /* d */ true}@";

/// The text of each token, and where it stands.
static SCANNED: [(&str, usize, usize); 17] = [
    ("{", 0, 1),
    ("a", 1, 4),
    (":", 4, 5),
    ("[", 6, 7),
    ("0x1F", 7, 11),
    (",", 11, 12),
    ("-Infinity", 13, 22),
    (",", 22, 23),
    ("null", 24, 28),
    ("]", 28, 29),
    (",", 29, 30),
    (" c", 31, 35),
    ("b", 37, 38),
    (":", 38, 39),
    (" d ", 40, 47),
    ("true", 48, 52),
    ("}", 52, 53),
];

/// Whether the next token is that of a row and equal to its copy, and the scanner tells it and its place.
fn is_next<A: Allocator + Copy>(
    scanner: &mut Scanner<'static, A>,
    row: &(&str, usize, usize),
) -> bool {
    let Ok(Some(token)) = scanner.scan() else {
        return false;
    };
    let Ok(copy) = token.try_clone() else {
        return false;
    };
    let place = (token.as_str(), scanner.token_start(), scanner.token_end());
    place == *row && copy == token && scanner.token() == Some(&token)
}

/// Whether a fault is of the character behind the last token, at its place, and printed so.
fn is_fault(error: &ParseError) -> bool {
    let range = error.range();
    let place = (error.line_display(), error.column_display());
    range == Range::new(53, 54)
        && range.text(TOKENS) == "@"
        && place == (2, 18)
        && *error.kind() == ParseErrorKind::UnexpectedToken
        && prints(error, "Unexpected token on line 2 column 18")
}

/// The tokens come, and then the fault, after which the last token is still told.
fn is_scanned<A: Allocator + Copy>(alloc: A) -> bool {
    let mut scanner = Scanner::new(alloc, TOKENS, &ScannerOptions::default());
    for row in &SCANNED {
        if !is_next(&mut scanner, row) {
            return false;
        }
    }
    let is_told = match scanner.scan() {
        Ok(_) => false,
        Err(error) => is_fault(&error),
    };
    let is_last = matches!(scanner.token(), Some(Token::CloseBrace));
    is_told && is_last && scanner.token_start() == 53 && scanner.file_text() == TOKENS
}

#[test]
fn scanning_takes_no_memory(rt: HostRuntime) {
    let heap = Refusing::always(rt.alloc());
    assert!(rt; is_scanned(&heap) && heap.asked() == 0);
}

const TEXT: &str = " {\"a\": [1, [\"\\b\", {}], null], // c\r\n \"d\": /* e */ false }\n";

/// A text with names in single quotes and without quotes, and with escapes.
const NAMES: &str = "{'\\t': [1, ['\\u0062', {}], null], // c\r\n d: /* e */ false, 0x1F: true,}\n";

/// A text is accepted, or this fault is told of these bytes.
fn is_answer(answer: &Result<(), ParseError>, fault: &Option<(ParseErrorKind, Range)>) -> bool {
    match (answer, fault) {
        (Ok(()), None) => true,
        (Err(error), Some((kind, range))) => error.kind() == kind && error.range() == *range,
        _ => false,
    }
}

/// A check of a text, of a document and by the program accept it, or tell this fault of these bytes.
fn is_checked(
    heap: &Refusing<Global>,
    text: &str,
    fault: &Option<(ParseErrorKind, Range)>,
) -> bool {
    let options = ParseOptions::default();
    let run = match run_on(heap, Command::Check, text.as_bytes()) {
        Ok(None) => Ok(()),
        Err(Fault::Input(error)) => Err(error),
        _ => return false,
    };
    is_answer(&check(heap, text, &options), fault)
        && is_answer(&check_document(heap, text, &options), fault)
        && is_answer(&run, fault)
}

#[test]
fn checking_takes_no_memory(rt: HostRuntime) {
    let heap = Refusing::always(rt.alloc());
    assert!(rt; is_checked(&heap, TEXT, &None));
    assert!(rt; is_checked(&heap, NAMES, &None));
    assert!(rt; is_checked(&heap, " // one", &None));
    let wrong = (ParseErrorKind::UnexpectedToken, Range::new(53, 54));
    assert!(rt; is_checked(&heap, TOKENS, &Some(wrong)));
    assert!(rt; heap.asked() == 0);
}

/// The document prints its text, and asks for nothing.
fn is_printed(heap: &Refusing<Global>) -> bool {
    match CstRootNode::parse(heap, TEXT, &ParseOptions::default()) {
        Ok(document) => {
            let asked = heap.asked();
            prints(&document, TEXT) && heap.asked() == asked
        }
        Err(_) => false,
    }
}

#[test]
fn printing_takes_no_memory(rt: HostRuntime) {
    let heap = Refusing::at(rt.alloc(), u64::MAX);
    assert!(rt; is_printed(&heap));
}
