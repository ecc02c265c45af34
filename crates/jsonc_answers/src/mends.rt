//! The faults of a text, each with its change.

use crate::show::push_kind;
use jsonc_cases::escape::Escaped;
use jsonc_mends::{Mend, mend};
use jsonc_parser::ParseOptions;
use std::alloc::{AllocError, Global};

/// The mended text, and each fault with its range, line and column, the bytes that are replaced, and what stands in
/// their place.
pub fn mended(alloc: Global, text: &str, options: &ParseOptions) -> Result<String, AllocError> {
    let mends = mend(alloc, text, options)?;
    let mut out = String::from_str(alloc, "ok")?;
    write!(out, "\t{}", Escaped::field(mends.text().as_bytes()))?;
    for number in 0..mends.list().len() {
        if let Some(found) = mends.list().get(number)
            && let Some(new) = mends.new_text(number)
        {
            push_mend(&mut out, found, new)?;
        }
    }
    Ok(out)
}

fn push_mend(out: &mut String, mend: &Mend, new: &str) -> Result<(), AllocError> {
    let (at, fault, range) = (mend.at, mend.fault.range, mend.range);
    out.push('\t')?;
    push_kind(out, &mend.fault.kind)?;
    write!(
        out,
        " {} {} {} {}",
        fault.start, fault.end, at.line, at.column
    )?;
    write!(out, " {} {} ", range.start, range.end)?;
    write!(out, "{}", Escaped::field(new.as_bytes()))
}
