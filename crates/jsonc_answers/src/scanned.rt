//! The tokens of a text.

use crate::show::{push_fault, push_token};
use jsonc_parser::errors::ParseError;
use jsonc_parser::tokens::Token;
use jsonc_parser::{ParseOptions, Scanner};
use std::alloc::{AllocError, Global};

/// How the scan of a text ends, and each token before that.
pub fn tokens(alloc: Global, text: &str, options: &ParseOptions) -> Result<String, AllocError> {
    let mut scanner = Scanner::with_options(alloc, text, options.copied());
    let mut found = String::new(alloc);
    // Each token has a byte at least.
    for _ in 0..=text.len() {
        match scanner.scan() {
            Ok(Some(token)) => push_scanned(&mut found, &scanner, &token)?,
            Ok(None) => return ended(alloc, &scanner, found.as_str()),
            Err(error) => return refused(alloc, &scanner, &error, found.as_str()),
        }
    }
    String::from_str(alloc, "more tokens than bytes")
}

/// The last token of a scanner.
fn push_scanned(
    out: &mut String,
    scanner: &Scanner<'_, Global>,
    token: &Token<'_, Global>,
) -> Result<(), AllocError> {
    out.push('\t')?;
    push_token(out, token, scanner.token_start(), scanner.token_end())
}

/// Where a scan ended, and what was found before.
fn ended(alloc: Global, scanner: &Scanner<'_, Global>, found: &str) -> Result<String, AllocError> {
    let end = scanner.token_start();
    format!(in alloc; "ok {end}{found}")
}

/// The fault that a scan ended in, where its token began, and what was found before.
fn refused(
    alloc: Global,
    scanner: &Scanner<'_, Global>,
    error: &ParseError,
    found: &str,
) -> Result<String, AllocError> {
    let mut out = String::new(alloc);
    push_fault(alloc, &mut out, error)?;
    let start = scanner.token_start();
    write!(out, "\tat {start}{found}")?;
    Ok(out)
}
