//! Texts as JSON.
ghost use Rattle.std.specs.Prelude.{◌≡◌, [], IfErr, IfOk, OnOk, string_bytes};
ghost use Rattle.jsonc_engine.specs.Causes.{HasNonFinite};
ghost use Rattle.jsonc_c.specs.Json.{IsAsJson, IsNoJson, IsToldOfNumber};
ghost use Rattle.jsonc_c.specs.Options.{options_of};
ghost use Rattle.jsonc_c.specs.PatchTold.{TellsOfPatches};
ghost use Rattle.jsonc_c.specs.Told.{no_fault};

use crate::fault::{
    JsoncFault, NO_ROOT, NON_FINITE, NOT_UTF8, OK, OUT_OF_MEMORY, TEXT, no_fault, tell_error,
};
use crate::handed::hand_out;
use crate::options::options_of;
use jsonc_engine::json::{JsonError, to_json};
use jsonc_parser::line_and_column;
use std::alloc::Global;

/// Tells the place of a number that JSON does not have.
fn tell_number(text: &str, place: usize, fault: &mut JsoncFault) -> u32
    requires untold { fault.old ≡ no_fault }
    requires there { HasNonFinite text.now place }
    ensures status { result ≡ 31 }
    ensures told { IsToldOfNumber text.now place fault.new }
{
    let at = line_and_column(text, place);
    fault.start = place;
    fault.end = place;
    fault.line = at.line;
    fault.column = at.column;
    NON_FINITE
}

/// The text of bytes as JSON.
pub(crate) fn as_json(
    alloc: Global,
    text: &[u8],
    options: u32,
    fault: &mut JsoncFault,
) -> Result<String, u32>
    ensures written { IfOk result (λ made. IsAsJson text.now (string_bytes made)) }
    ensures refused { IfErr result (λ status. IsNoJson (options_of options) text.now status fault.new) }
    ensures untold { OnOk result (fault.new ≡ no_fault) }
{
    *fault = no_fault();
    let Ok(text) = str::from_utf8(text) else {
        return Err(NOT_UTF8);
    };
    match to_json(alloc, text, &options_of(options)) {
        Ok(made) => Ok(made),
        Err(JsonError::Text(error)) => Err(tell_error(alloc, &error, TEXT, fault)),
        Err(JsonError::NoValue) => Err(NO_ROOT),
        Err(JsonError::NonFinite(place)) => Err(tell_number(text, place, fault)),
        Err(JsonError::OutOfMemory) => Err(OUT_OF_MEMORY),
    }
}

/// Hands out the text as JSON (RFC 8259), with the same value, without comments and trailing commas.
///
/// 0: it is done. 1, 3 and 4 as of `jsonc_check`. 30: the text has no value. 31: a number of it is `Infinity` or `NaN`,
/// perhaps with a sign, and the fault tells its place, line and column.
#[unsafe(no_mangle)]
pub extern "C" fn jsonc_to_json(
    alloc: Global,
    text: &[u8],
    options: u32,
    out: &mut &'static [u8],
    fault: &mut JsoncFault,
) -> u32
    ensures written { result ≡ 0 → IsAsJson text.now out.new.now }
    ensures refused { ¬ (result ≡ 0) → IsNoJson (options_of options) text.now result fault.new }
    ensures empty { ¬ (result ≡ 0) → out.new.now ≡ [] }
    ensures told { TellsOfPatches result fault.new }
{
    *out = &[];
    match as_json(alloc, text, options, fault) {
        Ok(made) => {
            hand_out(made, out);
            OK
        }
        Err(status) => status,
    }
}
