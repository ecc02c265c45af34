//! What edits make of a document.
use crate::reading::push_readings;
use crate::show::push_fault;
use jsonc_cases::edits::Step;
use jsonc_cases::escape::Escaped;
use jsonc_cases::make_step;
use jsonc_parser::ParseOptions;
use jsonc_parser::cst::CstRootNode;
use std::alloc::{AllocError, Global};

/// How the edits end, and how the document prints after those that were made, or what it tells of itself and
/// of its nodes where it is read; or the text's fault.
pub fn edited(
    alloc: Global,
    text: &str,
    options: &ParseOptions,
    edits: Vec<Step>,
    reads: bool,
) -> Result<String, AllocError> {
    let mut out = String::new(alloc);
    let mut doc = match CstRootNode::parse(alloc, text, options) {
        Ok(doc) => doc,
        Err(error) => {
            push_fault(alloc, &mut out, &error)?;
            return Ok(out);
        }
    };
    push_end(alloc, &mut out, &mut doc, edits)?;
    if reads {
        push_readings(alloc, &mut out, &doc)?;
        return Ok(out);
    }
    let printed = doc.to_string(alloc)?;
    write!(out, "\t{}", Escaped::field(printed.as_bytes()))?;
    Ok(out)
}

/// Makes the edits in turn, up to one that is refused, and writes how that ended.
fn push_end(
    alloc: Global,
    out: &mut String,
    doc: &mut CstRootNode<Global>,
    edits: Vec<Step>,
) -> Result<(), AllocError> {
    let mut made = 0usize;
    for step in edits {
        if let Err(refusal) = make_step(alloc, doc, step) {
            return write!(out, "stop {made} {}", refusal.word()?);
        }
        made = made.saturating_add(1);
    }
    out.push_str("ok")
}
