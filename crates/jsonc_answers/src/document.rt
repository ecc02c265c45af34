//! Whether the document of a text prints as the text was written.
use crate::show::push_fault;
use jsonc_cases::escape::Escaped;
use jsonc_parser::ParseOptions;
use jsonc_parser::cst::CstRootNode;
use std::alloc::{AllocError, Global};

/// Where the text's document does not print as the text, what it prints, or why there is none.
pub fn push_reprint(
    alloc: Global,
    out: &mut String,
    text: &str,
    options: &ParseOptions,
) -> Result<(), AllocError> {
    match CstRootNode::parse(alloc, text, options) {
        Ok(document) => {
            let printed = document.to_string(alloc)?;
            if printed.as_str() != text {
                write!(out, "\tprints {}", Escaped::field(printed.as_bytes()))?;
            }
        }
        Err(error) => {
            out.push_str("\tno document: ")?;
            push_fault(alloc, out, &error)?;
        }
    }
    Ok(())
}
