//! Recipes for texts with faults: each fault with a change for it, and an outline.

use jsonc_parser::cst::{CstContainerNode, CstNode, TypedNode};
use jsonc_parser::mend::{mend, parse_mended};
use jsonc_parser::{LineIndex, ParseOptions};

const BROKEN: &str = r#"{
  "fontSize": 14 // points
  "theme": dark,
  "rulers": [80, 100
}"#;

const TYPED: &str = r#"{
  "editor": {
    "fontSize": 14,
    "theme":
  },
  "files": {"exc
}"#;

/// Prints each fault with its line and column, the change for it, and the text with all changes made.
fn print_mends<R: AllocGlobal + Print>(rt: &R, text: &str) -> anyhow::Result<()> {
    let mends = mend(rt.alloc(), text, &ParseOptions::jsonc())?;
    for number in 0..mends.list().len() {
        if let Some(found) = mends.list().get(number)
            && let Some(change) = mends.change(number)
        {
            let (at, range, new) = (found.at, change.range, change.new_text);
            println!(rt; "{}:{}: {}", at.line, at.column, found.fault.kind)?;
            println!(rt; "  {new:?} for bytes {} to {}", range.start, range.end)?;
        }
    }
    println!(rt; "{}", mends.text())?;
    Ok(())
}

/// Prints the name of each property of a text that is being typed, at its place in that text, and whether it lacks its value.
fn print_outline<R: AllocGlobal + Print>(rt: &R, text: &str) -> anyhow::Result<()> {
    let read = parse_mended(rt.alloc(), text, &ParseOptions::jsonc())?;
    let lines = LineIndex::new(rt.alloc(), text)?;
    let doc = &read.document;
    for (node, range) in doc.descendants_with_ranges(doc.root().into()) {
        if let CstNode::Container(CstContainerNode::ObjectProp(property)) = node
            && let Some(range) = range
            && let Some(at) = lines.line_and_column(read.mends.text_place(range.start))
            && let Ok(Some(name)) = property.decoded_name(doc)
            && let Some(value) = property.value(doc)
        {
            let lacks = if read.is_inserted(value) {
                ", no value"
            } else {
                ""
            };
            println!(rt; "{}:{}: {name}{lacks}", at.line, at.column)?;
        }
    }
    Ok(())
}

/// The mends of the page.
pub(crate) fn mends<R: AllocGlobal + Print>(rt: &R) -> anyhow::Result<()> {
    println!(rt; "== print_mends\n{BROKEN}\n--")?;
    print_mends(rt, BROKEN)?;
    println!(rt; "== print_outline\n{TYPED}\n--")?;
    print_outline(rt, TYPED)
}
