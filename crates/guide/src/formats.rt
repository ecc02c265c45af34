//! Recipes for formatted texts: what an editor changes.

use jsonc_parser::format::{Style, format_changes, format_text};
use jsonc_parser::{LineIndex, ParseOptions};
use std::default::Default;

const UNFORMATTED: &str = r#"{
  "fontSize": 14,   // points
"rulers":[80,100]
}
"#;

/// Prints the changes of blanks that format the lines from the first to the last of these.
fn print_format<R: AllocGlobal + Print>(
    rt: &R,
    text: &str,
    first: usize,
    last: usize,
) -> anyhow::Result<()> {
    let formatted = format_text(rt.alloc(), text, &ParseOptions::jsonc(), &Style::default())?;
    let changes = format_changes(rt.alloc(), text, formatted.as_str())?;
    let lines = LineIndex::new(rt.alloc(), text)?;
    for change in changes.as_slice() {
        if let Some(change) = lines.utf16_change(*change)
            && change.is_on_lines(first, last)
        {
            let (start, end, new) = (change.start, change.end, change.new_text);
            println!(rt;
                "{}:{} to {}:{}: {new:?}",
                start.line, start.column, end.line, end.column
            )?;
        }
    }
    Ok(())
}

/// The formats of the page.
pub(crate) fn formats<R: AllocGlobal + Print>(rt: &R) -> anyhow::Result<()> {
    println!(rt; "== print_format\n{UNFORMATTED}\n--")?;
    print_format(rt, UNFORMATTED, 3, 3)
}
