//! Recipes for edits: what a language server or a fixer sends of them.

use crate::{migrate, texts};
use jsonc_parser::cst::{CstRootNode, LeafRanges};
use jsonc_parser::{LineIndex, ParseOptions};

/// Prints the changes of a text that a migration of its document makes.
fn print_edits<R: AllocGlobal + Print>(rt: &R, text: &str) -> anyhow::Result<()> {
    let mut doc = CstRootNode::parse(rt.alloc(), text, &ParseOptions::jsonc())?;
    let ranges = LeafRanges::of(rt.alloc(), &doc)?;
    migrate::migrate(&mut doc)?;
    let new = doc.text()?;
    let changes = ranges.changes(rt.alloc(), &doc, text, new.as_str())?;
    let lines = LineIndex::new(rt.alloc(), text)?;
    for change in changes.as_slice() {
        if let Some(change) = lines.utf16_change(*change) {
            let (start, end, new) = (change.start, change.end, change.new_text);
            println!(rt;
                "{}:{} to {}:{}: {new:?}",
                start.line, start.column, end.line, end.column
            )?;
        }
    }
    Ok(())
}

/// The edits of the page.
pub(crate) fn edits<R: AllocGlobal + Print>(rt: &R) -> anyhow::Result<()> {
    println!(rt; "== print_edits\n{}\n--", texts::SETTINGS)?;
    print_edits(rt, texts::SETTINGS)
}
