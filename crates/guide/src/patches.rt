//! Recipes with pointers and patches, which go through arrays.

use jsonc_parser::ParseOptions;
use jsonc_parser::cst::{CstRootNode, TypedNode};
use jsonc_parser::patch::{Patch, Pointer, find, merge, merge_patch_from_json};
use std::default::Default;

const LAUNCH: &str = r#"{
  // Run and debug.
  "configurations": [
    {
      "name": "Server", // local
      "port": 3000
    },
    {
      "name": "Tests"
    }
  ]
}"#;

const PATCH: &str = r#"[
  {"op": "test", "path": "/configurations/0/name", "value": "Server"},
  {"op": "replace", "path": "/configurations/0/port", "value": 8080},
  {"op": "add", "path": "/configurations/1/args", "value": []}
]"#;

const REFUSED: &str = r#"[
  {"op": "remove", "path": "/configurations/1"},
  {"op": "replace", "path": "/configurations/1/name", "value": "All"}
]"#;

const EDITOR: &str = r#"{
  "editor": {
    "fontSize": 14, // points
    "tabSize": 4
  },
  "theme": "dark" // at night
}"#;

const MERGED: &str = r#"{"editor": {"fontSize": 16, "tabSize": null}, "theme": "dark"}"#;

/// Prints a text before and after a JSON Patch.
fn apply_patch<R: AllocGlobal + Print>(rt: &R, text: &str, patch: &str) -> anyhow::Result<()> {
    let alloc = rt.alloc();
    let options = ParseOptions::default();
    let mut doc = CstRootNode::parse(alloc, text, &options)?;
    let patch = Patch::from_json(alloc, patch, &options)?;
    println!(rt; "== apply_patch\n{doc}\n--")?;
    match patch.apply(&mut doc) {
        Ok(()) => println!(rt; "{doc}")?,
        Err(fault) => println!(rt; "refused: {fault}")?,
    }
    Ok(())
}

/// Prints a text before and after a merge patch.
fn merge_patch<R: AllocGlobal + Print>(rt: &R, text: &str, patch: &str) -> anyhow::Result<()> {
    let alloc = rt.alloc();
    let options = ParseOptions::default();
    let mut doc = CstRootNode::parse(alloc, text, &options)?;
    println!(rt; "== merge_patch\n{doc}\n--")?;
    let patch = merge_patch_from_json(alloc, patch, &options)?;
    match merge(&mut doc, &patch) {
        Ok(()) => println!(rt; "{doc}")?,
        Err(fault) => println!(rt; "refused: {fault}")?,
    }
    Ok(())
}

/// Prints the value that a pointer refers to.
fn print_found<R: AllocGlobal + Print>(rt: &R, text: &str, pointer: &str) -> anyhow::Result<()> {
    let alloc = rt.alloc();
    let doc = CstRootNode::parse(alloc, text, &ParseOptions::default())?;
    match find(&doc, &Pointer::parse(alloc, pointer)?)? {
        Some(found) => println!(rt; "{pointer}: {}", found.shown(&doc))?,
        None => println!(rt; "{pointer}: nothing")?,
    }
    Ok(())
}

/// The recipes, one after another.
pub(crate) fn patches<R: AllocGlobal + Print>(rt: &R) -> anyhow::Result<()> {
    apply_patch(rt, LAUNCH, PATCH)?;
    apply_patch(rt, LAUNCH, REFUSED)?;
    merge_patch(rt, EDITOR, MERGED)?;
    print_found(rt, LAUNCH, "/configurations/0/name")?;
    print_found(rt, LAUNCH, "/configurations/2")
}
