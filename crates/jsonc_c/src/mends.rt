//! Every fault of a text, with the change for each.
ghost use Rattle.std.specs.Prelude.{◌≡◌, ◌⊎◌, [], IfErr, IfOk, IsUtf8, map, string_bytes};
ghost use Rattle.std.specs.declared.alloc.Global.{Global};
ghost use Rattle.jsonc_c.specs.Mends.{IsMendedBy, numbers_of};
ghost use Rattle.jsonc_c.specs.Options.{options_of};

use crate::fault::{NOT_UTF8, OK, OUT_OF_MEMORY, kind_number};
use crate::handed::hand_out;
use crate::options::options_of;
use jsonc_mends::{Mend, mend};
use std::alloc::{AllocError, Global};

/// A fault of a text, and the change for it.
#[repr(C)]
#[derive(Clone, Copy)]
pub struct JsoncMend {
    /// The number of the fault's kind.
    pub kind: u32,
    /// The byte offset of the text at which the fault begins.
    pub fault_start: usize,
    /// The byte offset at which it ends.
    pub fault_end: usize,
    /// The line of its start, counted from 1.
    pub line: usize,
    /// The column of its start in characters, counted from 1.
    pub column: usize,
    /// The byte offset of the text at which the bytes that are replaced begin.
    pub start: usize,
    /// The byte offset at which they end.
    pub end: usize,
    /// The byte offset of the mended text at which what replaces them begins.
    pub written_start: usize,
    /// The byte offset at which it ends.
    pub written_end: usize,
}

/// A mend in numbers.
fn numbers_of(mend: Mend) -> JsoncMend
    ensures { result ≡ numbers_of mend }
{
    JsoncMend {
        kind: kind_number(&mend.fault.kind),
        fault_start: mend.fault.range.start,
        fault_end: mend.fault.range.end,
        line: mend.at.line,
        column: mend.at.column,
        start: mend.range.start,
        end: mend.range.end,
        written_start: mend.written.start,
        written_end: mend.written.end,
    }
}

/// Mends in numbers, in order.
fn listed(alloc: Global, mends: &[Mend]) -> Result<Vec<JsoncMend>, AllocError>
    ensures { IfOk result (λ list. list.items ≡ map numbers_of mends.now) }
{
    mends.iter().map(|mend| numbers_of(*mend)).collect(alloc)
}

/// Hands out a list as a block of its own, which stays until the caller frees it, or none for no mends.
fn hand_out_list(list: Vec<JsoncMend>, mends: &mut &'static [JsoncMend])
    ensures { mends.new.now ≡ list.items }
{
    if list.is_empty() {
        *mends = &[];
        return;
    }
    *mends = list.leak();
}

/// The mended text of bytes, and their mends.
fn mended(alloc: Global, text: &[u8], options: u32) -> Result<(String, Vec<JsoncMend>), u32>
    ensures mended { IfOk result
        (λ made. IsMendedBy Global (options_of options) text.now (string_bytes made.0) made.1.items) }
    ensures statuses { IfErr result (λ status. (status ≡ 1) ⊎ ((status ≡ 3) × ¬ (IsUtf8 text.now))) }
{
    let Ok(text) = str::from_utf8(text) else {
        return Err(NOT_UTF8);
    };
    let Ok(mends) = mend(alloc, text, &options_of(options)) else {
        return Err(OUT_OF_MEMORY);
    };
    let (made, mends) = mends.into_parts();
    let Ok(list) = listed(alloc, mends.as_slice()) else {
        return Err(OUT_OF_MEMORY);
    };
    Ok((made, list))
}

/// Tells every fault of a text with a change for it, and hands out the text with all changes made, which is a document.
///
/// 0: it is done. 1: an allocation failed. 3: the text is not UTF-8. The mends are in order, and there are none where the
/// text is a document within the nesting. The first one's fault is the one that `jsonc_check` tells. What a mend writes
/// stands in the mended text. The list is one block of `malloc`, as the text is.
#[unsafe(no_mangle)]
pub extern "C" fn jsonc_mend(
    alloc: Global,
    text: &[u8],
    options: u32,
    out: &mut &'static [u8],
    mends: &mut &'static [JsoncMend],
) -> u32
    ensures mended { result ≡ 0 → IsMendedBy Global (options_of options) text.now out.new.now mends.new.now }
    ensures not_utf8 { result ≡ 3 → ¬ (IsUtf8 text.now) }
    ensures statuses { ¬ (result ≡ 0) → ¬ (result ≡ 1) → result ≡ 3 }
    ensures empty { ¬ (result ≡ 0) → (out.new.now ≡ []) × (mends.new.now ≡ []) }
{
    *out = &[];
    *mends = &[];
    match mended(alloc, text, options) {
        Ok((made, list)) => {
            hand_out(made, out);
            hand_out_list(list, mends);
            OK
        }
        Err(status) => status,
    }
}
