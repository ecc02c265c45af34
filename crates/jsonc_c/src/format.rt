//! Formatted texts.
ghost use Rattle.std.specs.Prelude.{◌≡◌, [], IfErr, IfOk, OnOk, string_bytes};
ghost use Rattle.jsonc_c.specs.Formats.{IsFormattedBy, IsUnformatted, level_of, line_end_of, style_of};
ghost use Rattle.jsonc_c.specs.Options.{options_of};
ghost use Rattle.jsonc_c.specs.Told.{TellsOfTexts, no_fault};

use crate::fault::{JsoncFault, NOT_UTF8, OK, TEXT, no_fault, tell_error};
use crate::handed::hand_out;
use crate::options::options_of;
use jsonc_parser::format::{Level, LineEnd, Style, format_text};
use std::alloc::Global;

/// How a text is formatted. With all of it 0 the text tells its line end and its indent.
#[repr(C)]
#[derive(Clone, Copy)]
pub struct JsoncStyle {
    /// How lines end. With no number of a line end, as the first one that ends outside of literals and comments, or with LF.
    pub line_end: u32,
    /// What one level of indent is. With no number of a level, the first indent in the value that is not empty, or two spaces.
    pub level: u32,
    /// How many spaces it is, where it is spaces; more than eight are eight.
    pub spaces: u32,
    /// Whether each array and object that is not empty is put on several lines.
    pub expand: bool,
}

/// LF.
pub(crate) const LINE_END_LF: u32 = 1;

/// CR LF.
pub(crate) const LINE_END_CR_LF: u32 = 2;

/// CR.
pub(crate) const LINE_END_CR: u32 = 3;

/// Spaces.
pub(crate) const LEVEL_SPACES: u32 = 1;

/// A tab.
pub(crate) const LEVEL_TAB: u32 = 2;

/// The line end of a number.
fn line_end_of(number: u32) -> Option<LineEnd>
    ensures { result ≡ line_end_of number }
{
    if number == LINE_END_LF {
        return Some(LineEnd::Lf);
    }
    if number == LINE_END_CR_LF {
        return Some(LineEnd::CrLf);
    }
    if number == LINE_END_CR {
        return Some(LineEnd::Cr);
    }
    None
}

/// The level of a number, which may be so many spaces.
fn level_of(number: u32, spaces: u32) -> Option<Level>
    ensures { result ≡ level_of number spaces }
{
    if number == LEVEL_SPACES {
        return Some(Level::Spaces(spaces.min(8) as u8));
    }
    if number == LEVEL_TAB {
        return Some(Level::Tab);
    }
    None
}

/// The style of numbers.
fn style_of(style: &JsoncStyle) -> Style
    ensures { result ≡ style_of style.now }
{
    Style {
        line_end: line_end_of(style.line_end),
        level: level_of(style.level, style.spaces),
        expand: style.expand,
    }
}

/// The text of bytes, formatted.
#[tactic(auto, using(crate::proofs::Telling::tells_none, crate::proofs::Telling::tells_text))]
pub(crate) fn formatted(
    alloc: Global,
    text: &[u8],
    options: u32,
    style: &JsoncStyle,
    fault: &mut JsoncFault,
) -> Result<String, u32>
    ensures formatted { IfOk result (λ made. IsFormattedBy (options_of options) style.now text.now (string_bytes made)) }
    ensures refused { IfErr result (λ status. IsUnformatted (options_of options) text.now status fault.new) }
    ensures untold { OnOk result (fault.new ≡ no_fault) }
    ensures told { IfErr result (λ status. TellsOfTexts status fault.new) }
{
    *fault = no_fault();
    let Ok(text) = str::from_utf8(text) else {
        return Err(NOT_UTF8);
    };
    match format_text(alloc, text, &options_of(options), &style_of(style)) {
        Ok(made) => Ok(made),
        Err(error) => Err(tell_error(alloc, &error, TEXT, fault)),
    }
}

/// Hands out the text with the same literals, comments and punctuation in the same order, and with other blanks between them.
///
/// 0: it is done. 1, 3 and 4 as of `jsonc_check`. An array or object that is on one line stays on it, and any other has each entry on a
/// line of its own. The text can be longer than it was by its depth: a line begins with one level of indent for each array and object
/// that is open.
#[tactic(auto, using(crate::proofs::Telling::tells_none))]
#[unsafe(no_mangle)]
pub extern "C" fn jsonc_format(
    alloc: Global,
    text: &[u8],
    options: u32,
    style: &JsoncStyle,
    out: &mut &'static [u8],
    fault: &mut JsoncFault,
) -> u32
    ensures formatted { result ≡ 0 → IsFormattedBy (options_of options) style.now text.now out.new.now }
    ensures refused { ¬ (result ≡ 0) → IsUnformatted (options_of options) text.now result fault.new }
    ensures empty { ¬ (result ≡ 0) → out.new.now ≡ [] }
    ensures told { TellsOfTexts result fault.new }
{
    *out = &[];
    match formatted(alloc, text, options, style, fault) {
        Ok(made) => {
            hand_out(made, out);
            OK
        }
        Err(status) => status,
    }
}
