//! Sets the font size of settings to 16, from standard input to standard output.
#![tactic(auto)]

use jsonc_parser::ParseOptions;
use jsonc_parser::cst::{CstInputValue, CstRootNode, Over};
use jsonc_parser::settings::set_at;
use std::io;

fn main(rt: HostRuntime) -> anyhow::Result<()> {
    let alloc = rt.alloc();
    let text = io::read_to_string(alloc, rt.reader())?;
    let mut doc = CstRootNode::parse(alloc, text.as_str(), &ParseOptions::jsonc())?;
    let path = [
        String::from_str(alloc, "editor")?,
        String::from_str(alloc, "fontSize")?,
    ];
    let size = CstInputValue::from_u32(alloc, 16)?;
    if !set_at(&mut doc, &path, size, Over::Keep)? {
        anyhow::bail!("editor is no object");
    }
    print!(rt; "{doc}")?;
    Ok(())
}
