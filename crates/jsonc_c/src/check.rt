//! Whether a text is a document.
ghost use Rattle.std.specs.Prelude.{◌≡◌, IfErr, IsUtf8, OnOk};
ghost use Rattle.jsonc_text.specs.OptionsOf.{parse_options};
ghost use Rattle.jsonc_text.specs.declared.errors.ParseError.{ParseError};
ghost use Rattle.jsonc_engine.specs.Input.{IsInputOf, IsRefusalOf};
ghost use Rattle.jsonc_c.specs.Options.{options_of};
ghost use Rattle.jsonc_c.specs.Told.{IsToldOf, TellsOfTexts};

use crate::fault::{JsoncFault, NOT_UTF8, OK, TEXT, no_fault, tell_error};
use crate::options::options_of;
use jsonc_parser::errors::ParseError;
use jsonc_parser::{ParseOptions, check_document};
use std::alloc::Global;

/// Checks a text, and makes nothing of it.
fn checked(alloc: Global, text: &str, options: &ParseOptions) -> Result<(), ParseError>
    ensures accepted { OnOk result (IsInputOf (parse_options options.now) text.now) }
    ensures refused { IfErr result (IsRefusalOf (parse_options options.now) text.now) }
{
    check_document(alloc, text, options)?;
    Ok(())
}

/// Checks whether a text is a document.
///
/// 0: it is a document of the options. 1: an allocation failed. 3: it is not UTF-8. 4: it is no document within the
/// nesting, and the fault tells what is wrong with it.
#[tactic(auto, using(crate::proofs::Telling::tells_none, crate::proofs::Telling::tells_text))]
#[unsafe(no_mangle)]
pub extern "C" fn jsonc_check(
    alloc: Global,
    text: &[u8],
    options: u32,
    fault: &mut JsoncFault,
) -> u32
    ensures accepted { result ≡ 0 → IsInputOf (options_of options) text.now }
    ensures not_utf8 { result ≡ 3 → ¬ (IsUtf8 text.now) }
    ensures refused { result ≡ 4 →
        (e : ParseError) × IsRefusalOf (options_of options) text.now e × IsToldOf e fault.new }
    ensures statuses { ¬ (result ≡ 0) → ¬ (result ≡ 1) → ¬ (result ≡ 3) → result ≡ 4 }
    ensures told { TellsOfTexts result fault.new }
{
    *fault = no_fault();
    let Ok(text) = str::from_utf8(text) else {
        return NOT_UTF8;
    };
    match checked(alloc, text, &options_of(options)) {
        Ok(()) => OK,
        Err(error) => tell_error(alloc, &error, TEXT, fault),
    }
}
