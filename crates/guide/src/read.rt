//! Recipes that read a text.

use crate::recipes::path;
use jsonc_parser::common::Ranged;
use jsonc_parser::cst::{CstInputValue, CstRootNode};
use jsonc_parser::errors::ParseError;
use jsonc_parser::numbers::parse_u64;
use jsonc_parser::settings::read_at;
use jsonc_parser::view::{ViewValue, parse_to_view};
use jsonc_parser::{CollectOptions, JsonValue, ParseOptions, parse_to_ast, parse_to_value};
use std::alloc::Allocator;
use std::default::Default;

const SETTINGS: &str = r#"{
  "fontSize": 14, // points
  "theme": "dark",
  "rulers": [80, 0x64],
  "zoom": 1, "zoom": 2
}"#;

/// The number of a name, of a text's object. None where it is none, or no whole one.
fn number_of<A: Allocator + Copy>(
    alloc: A,
    text: &str,
    name: &str,
) -> Result<Option<u64>, ParseError> {
    match parse_to_value(alloc, text, &ParseOptions::default())? {
        Some(JsonValue::Object(object)) => match object.get_number(name) {
            Some(digits) => Ok(parse_u64(digits)),
            None => Ok(None),
        },
        _ => Ok(None),
    }
}

/// Prints the elements of an array that are numbers, as they are written.
fn print_rulers<R: AllocGlobal + Print>(rt: &R, text: &str) -> anyhow::Result<()> {
    let read = parse_to_value(rt.alloc(), text, &ParseOptions::default())?;
    if let Some(JsonValue::Object(object)) = &read
        && let Some(rulers) = object.get_array("rulers")
    {
        for ruler in rulers.iter() {
            if let JsonValue::Number(digits) = ruler {
                println!(rt; "ruler {digits}")?;
            }
        }
    }
    Ok(())
}

/// Prints a string of a view, and the names of the object that it stands in.
fn print_view<R: AllocGlobal + Print>(rt: &R, text: &str) -> anyhow::Result<()> {
    let view = parse_to_view(rt.alloc(), text, &ParseOptions::default())?;
    if let Some(ViewValue::Object(object)) = view.value() {
        if let Some(ViewValue::String(theme)) = object.get("theme") {
            println!(rt; "theme {theme}")?;
        }
        for (name, _) in object.iter() {
            println!(rt; "name {name}")?;
        }
    }
    Ok(())
}

/// Prints where the value of a name stands, in bytes from the start of the text.
fn print_place<R: AllocGlobal + Print>(rt: &R, text: &str, name: &str) -> anyhow::Result<()> {
    let collect = CollectOptions::default();
    let read = parse_to_ast(rt.alloc(), text, &collect, &ParseOptions::default())?;
    if let Some(value) = &read.value
        && let Some(object) = value.as_object()
        && let Some(property) = object.get(name)
    {
        let start = property.value.start();
        let end = property.value.end();
        println!(rt; "{name}: bytes {start} to {end}")?;
    }
    Ok(())
}

/// Prints the string at names.
fn print_theme<R: AllocGlobal + Print>(rt: &R, text: &str) -> anyhow::Result<()> {
    let alloc = rt.alloc();
    let doc = CstRootNode::parse(alloc, text, &ParseOptions::default())?;
    let theme = read_at(&doc, &path(alloc, &["theme"])?)?;
    match &theme {
        Some(CstInputValue::String(theme)) => println!(rt; "theme {theme}")?,
        Some(_) => println!(rt; "theme is no string")?,
        None => println!(rt; "no theme")?,
    }
    Ok(())
}

/// JSON5.
fn json5() -> ParseOptions {
    ParseOptions {
        allow_missing_commas: false,
        ..ParseOptions::default()
    }
}

/// Prints the fault of a text with its line and column, or that it has none.
fn lint<R: AllocGlobal + Print>(
    rt: &R,
    name: &str,
    text: &str,
    options: &ParseOptions,
) -> anyhow::Result<()> {
    match parse_to_ast(rt.alloc(), text, &CollectOptions::default(), options) {
        Ok(_) => println!(rt; "{name}: {text:?}: no fault")?,
        Err(fault) => {
            let line = fault.line_display();
            let column = fault.column_display();
            println!(rt; "{name}: {text:?}: {line}:{column}: {}", fault.kind())?;
        }
    }
    Ok(())
}

/// A text without the byte order mark that may stand before it.
pub(crate) fn without_mark(text: &str) -> &str {
    match text.strip_prefix('\u{feff}') {
        Some(rest) => rest,
        None => text,
    }
}

fn print_number<R: AllocGlobal + Print>(rt: &R, name: &str) -> anyhow::Result<()> {
    match number_of(rt.alloc(), SETTINGS, name)? {
        Some(number) => println!(rt; "{name} {number}")?,
        None => println!(rt; "{name}: no whole number")?,
    }
    Ok(())
}

/// The options of the page.
#[derive(Clone, Copy)]
enum Options {
    Json,
    VsCode,
    Json5,
    Default,
}

/// Texts, and the options under which their faults are told.
static LINTED: [(Options, &str); 30] = [
    (Options::Json, ""),
    (Options::Json, "\"a\tb\""),
    (Options::Json, "{\"a\": 1, \"a\": 2}"),
    (Options::Json, "\u{b}1"),
    (Options::Json, "\u{a0}1"),
    (Options::Json, "[1,]"),
    (Options::Json, "[1] // c"),
    (Options::Json, "[01]"),
    (Options::Json, "[1 2]"),
    (Options::Json, "'a'"),
    (Options::Json, "[\n1,\n, 2]"),
    (Options::VsCode, "[1,] // c"),
    (Options::VsCode, "[1 2]"),
    (Options::VsCode, "{a: 1}"),
    (Options::VsCode, "[01]"),
    (Options::VsCode, "'a'"),
    (Options::VsCode, "[0x1F]"),
    (Options::Json5, "{a: 'x', b: [+.5, 0x1F, NaN,],}"),
    (Options::Json5, "[1 2]"),
    (Options::Json5, "[01]"),
    (Options::Json5, "{a-b: 1, 5: 2}"),
    (Options::Json5, "'a\nb'"),
    (Options::Default, "[1 2]"),
    (Options::Default, "[01]"),
    (Options::Default, "{a: 1 b: 'x'}"),
    (Options::Default, "\u{feff}1"),
    (Options::Default, "[1, 1_000]"),
    (Options::Default, "[1,,2]"),
    (Options::Default, "{\n  \"a\": 1,\n  \"b\" 2\n}"),
    (Options::Default, "[1, /* c ]"),
];

fn lint_under<R: AllocGlobal + Print>(rt: &R, options: Options, text: &str) -> anyhow::Result<()> {
    match options {
        Options::Json => lint(rt, "JSON", text, &ParseOptions::json()),
        Options::VsCode => lint(rt, "VS Code", text, &ParseOptions::jsonc()),
        Options::Json5 => lint(rt, "JSON5", text, &json5()),
        Options::Default => lint(rt, "default", text, &ParseOptions::default()),
    }
}

/// The readings of the page, in order.
pub(crate) fn readings<R: AllocGlobal + Print>(rt: &R) -> anyhow::Result<()> {
    println!(rt; "== read\n{SETTINGS}\n--")?;
    for name in ["fontSize", "theme", "tabs", "zoom"] {
        print_number(rt, name)?;
    }
    print_rulers(rt, SETTINGS)?;
    print_view(rt, SETTINGS)?;
    print_place(rt, SETTINGS, "theme")?;
    print_place(rt, SETTINGS, "zoom")?;
    print_theme(rt, SETTINGS)?;
    println!(rt; "== lint")?;
    for (options, text) in LINTED.iter() {
        lint_under(rt, *options, text)?;
    }
    Ok(())
}
