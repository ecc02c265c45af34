//! A recipe that comes past each node of a document.

use jsonc_parser::cst::{CstContainerNode, CstNode, CstRootNode, TypedNode};
use jsonc_parser::{LineIndex, ParseOptions};
use std::collections::HashSet;
use std::default::Default;

const NESTED: &str = r#"{
  "on": [{"a": 1, "b": [{"c": 1, "c": 2}], "a": 3}],
  "off": {"a": 1}
}"#;

/// Prints the line and column of each property that repeats a name of its object, in order of place.
fn lint_objects<R: AllocGlobal + Print>(rt: &R, text: &str) -> anyhow::Result<()> {
    let doc = CstRootNode::parse(rt.alloc(), text, &ParseOptions::default())?;
    let lines = LineIndex::new(rt.alloc(), text)?;
    let mut repeated = HashSet::new(rt.alloc());
    for (node, range) in doc.descendants_with_ranges(doc.root().into()) {
        if let CstNode::Container(CstContainerNode::Object(object)) = node {
            for property in object.repeated_names(&doc)? {
                repeated.insert(property.node().number())?;
            }
        }
        if repeated.contains(&node.number())
            && let Some(range) = range
            && let Some(at) = lines.line_and_column(range.start)
        {
            println!(rt; "{}:{}: the name stands twice", at.line, at.column)?;
        }
    }
    Ok(())
}

/// The walk of the page.
pub(crate) fn walks<R: AllocGlobal + Print>(rt: &R) -> anyhow::Result<()> {
    println!(rt; "== lint_objects\n{NESTED}\n--")?;
    lint_objects(rt, NESTED)
}
