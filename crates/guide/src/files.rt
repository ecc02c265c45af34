//! Recipes that edit files.

use crate::read::without_mark;
use crate::recipes::set_font_size;
use jsonc_parser::ParseOptions;
use jsonc_parser::cst::CstRootNode;
use std::default::Default;
use std::io::Eprint;
use std::rt::Files;
use std::{fs, io};

/// Sets the font size in a file.
fn set_in<R: Files + AllocGlobal>(rt: &R, file: &str) -> anyhow::Result<()> {
    let text = fs::read_to_string(rt, file)?;
    let mut doc = CstRootNode::parse(
        rt.alloc(),
        without_mark(text.as_str()),
        &ParseOptions::default(),
    )?;
    set_font_size(&mut doc)?;
    fs::write(rt, file, doc.text()?.as_str())?;
    Ok(())
}

/// Sets it in each of these files, goes on behind one that fails, and tells whether none did.
pub(crate) fn set_in_all<R: Files + AllocGlobal + Eprint>(
    rt: &R,
    files: &[String],
) -> io::Result<bool> {
    let mut all = true;
    for file in files {
        if let Err(error) = set_in(rt, file.as_str()) {
            eprintln!(rt; "{file}: {error}")?;
            all = false;
        }
    }
    Ok(all)
}
