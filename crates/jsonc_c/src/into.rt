//! Texts that are written into a caller's buffer.
ghost use Rattle.std.specs.Prelude.{◌≡◌, ◌≤◌, ◌<◌, ◌⊎◌, ◌++◌, ◌∷◌, [], IsUtf8, length, take};
ghost use Rattle.std.specs.declared.alloc.Global.{Global};
ghost use Rattle.jsonc_engine.specs.Change.{IsGot, IsMadeOf};
ghost use Rattle.jsonc_engine.specs.Command as asked;
ghost use Rattle.jsonc_engine.specs.Input.{IsInputOf};
ghost use Rattle.jsonc_engine.specs.Output.{IsLeft};
ghost use Rattle.jsonc_c.specs.Commands.{HasNoText, IsRefused, asked_of};
ghost use Rattle.jsonc_c.specs.Edits.{IsEdited, IsUnedited};
ghost use Rattle.jsonc_c.specs.Formats.{IsFormattedBy, IsUnformatted};
ghost use Rattle.jsonc_c.specs.Options.{options_of};
ghost use Rattle.jsonc_c.specs.PatchTold.{TellsOfPatches};
ghost use Rattle.jsonc_c.specs.Patches.{IsFound, IsMergedBy, IsPatchedBy, IsUnfound, IsUnmerged, IsUnpatched};
ghost use Rattle.jsonc_c.specs.Told.{TellsOfEdits, TellsOfTexts};

use crate::asked::{Asked, written};
use crate::edits::JsoncEdit;
use crate::fault::{JsoncFault, NO_ROOM, OK};
use crate::format::{JsoncStyle, formatted};
use crate::handed::without_line_feed;
use crate::lists::text_after;
use crate::patches::{found, merged, patched};
use std::alloc::Global;

/// Writes bytes to the front of a buffer, if it has the room, and how many they are.
fn fill(bytes: &[u8], room: &mut [u8], len: &mut usize) -> u32
    ensures len { len.new ≡ length bytes.now }
    ensures filled { result ≡ 0 → take len.new room.new ≡ bytes.now }
    ensures no_room { ¬ (result ≡ 0) → (result ≡ 17) × (length room.old < len.new) }
    ensures unwritten { ¬ (result ≡ 0) → room.new ≡ room.old }
{
    *len = bytes.len();
    if bytes.len() > room.len() {
        return NO_ROOM;
    }
    room[..bytes.len()].copy_from_slice(bytes);
    OK
}

/// Writes what a command writes of a text into a buffer.
#[tactic(auto, using(crate::proofs::Telling::tells_none))]
fn change_into(
    alloc: Global,
    command: Asked,
    text: &[u8],
    options: u32,
    room: &mut [u8],
    len: &mut usize,
    fault: &mut JsoncFault,
) -> u32
    ensures made { result ≡ 0 →
        IsLeft Global (options_of options) (asked_of command.entry) text.now (take len.new room.new) }
    ensures accepted { result ≡ 0 → IsInputOf (options_of options) text.now }
    ensures no_room { result ≡ 17 → length room.old < len.new }
    ensures len { ¬ (result ≡ 0) → ¬ (result ≡ 17) → len.new ≡ 0 }
    ensures unwritten { ¬ (result ≡ 0) → room.new ≡ room.old }
    ensures told { TellsOfTexts result fault.new }
    ensures words { result ≡ 2 → HasNoText (asked_of command.entry) }
    ensures refused { 3 ≤ result → ¬ (result ≡ 17) →
        IsRefused (options_of options) (asked_of command.entry) text.now result fault.new }
{
    *len = 0;
    match written(alloc, command, text, options, fault) {
        Ok(made) => fill(made.as_bytes(), room, len),
        Err(status) => status,
    }
}

/// Writes the text that the document prints into a buffer, as `jsonc_print` hands it out.
///
/// 17: the buffer is too small. `len` tells how long the text is then, too.
#[unsafe(no_mangle)]
pub extern "C" fn jsonc_print_into(
    alloc: Global,
    text: &[u8],
    options: u32,
    room: &mut [u8],
    len: &mut usize,
    fault: &mut JsoncFault,
) -> u32
    ensures printed { result ≡ 0 → take len.new room.new ≡ text.now }
    ensures accepted { result ≡ 0 → IsInputOf (options_of options) text.now }
    ensures no_room { result ≡ 17 → length room.old < len.new }
    ensures len { ¬ (result ≡ 0) → ¬ (result ≡ 17) → len.new ≡ 0 }
    ensures unwritten { ¬ (result ≡ 0) → room.new ≡ room.old }
    ensures told { TellsOfTexts result fault.new }
    ensures refused { 2 ≤ result → ¬ (result ≡ 17) →
        IsRefused (options_of options) asked.print text.now result fault.new }
{
    change_into(alloc, Asked::Print, text, options, room, len, fault)
}

/// Writes the text with a property set into a buffer, as `jsonc_set` hands it out.
///
/// 17: the buffer is too small. `len` tells how long the text is then, too.
#[unsafe(no_mangle)]
pub extern "C" fn jsonc_set_into(
    alloc: Global,
    text: &[u8],
    name: &[u8],
    json: &[u8],
    options: u32,
    room: &mut [u8],
    len: &mut usize,
    fault: &mut JsoncFault,
) -> u32
    ensures set { result ≡ 0 →
        IsMadeOf (options_of options) (asked.set name.now json.now) text.now (take len.new room.new) }
    ensures accepted { result ≡ 0 → IsInputOf (options_of options) text.now }
    ensures no_room { result ≡ 17 → length room.old < len.new }
    ensures len { ¬ (result ≡ 0) → ¬ (result ≡ 17) → len.new ≡ 0 }
    ensures unwritten { ¬ (result ≡ 0) → room.new ≡ room.old }
    ensures told { TellsOfTexts result fault.new }
    ensures words { result ≡ 2 → ¬ (IsUtf8 name.now) ⊎ ¬ (IsUtf8 json.now) }
    ensures refused { 3 ≤ result → ¬ (result ≡ 17) →
        IsRefused (options_of options) (asked.set name.now json.now) text.now result fault.new }
{
    change_into(
        alloc,
        Asked::Set(name, json),
        text,
        options,
        room,
        len,
        fault,
    )
}

/// Writes the text with an element appended into a buffer, as `jsonc_append` hands it out.
///
/// 17: the buffer is too small. `len` tells how long the text is then, too.
#[unsafe(no_mangle)]
pub extern "C" fn jsonc_append_into(
    alloc: Global,
    text: &[u8],
    json: &[u8],
    options: u32,
    room: &mut [u8],
    len: &mut usize,
    fault: &mut JsoncFault,
) -> u32
    ensures appended { result ≡ 0 →
        IsMadeOf (options_of options) (asked.append json.now) text.now (take len.new room.new) }
    ensures accepted { result ≡ 0 → IsInputOf (options_of options) text.now }
    ensures no_room { result ≡ 17 → length room.old < len.new }
    ensures len { ¬ (result ≡ 0) → ¬ (result ≡ 17) → len.new ≡ 0 }
    ensures unwritten { ¬ (result ≡ 0) → room.new ≡ room.old }
    ensures told { TellsOfTexts result fault.new }
    ensures words { result ≡ 2 → ¬ (IsUtf8 json.now) }
    ensures refused { 3 ≤ result → ¬ (result ≡ 17) →
        IsRefused (options_of options) (asked.append json.now) text.now result fault.new }
{
    change_into(alloc, Asked::Append(json), text, options, room, len, fault)
}

/// Writes the text without a property into a buffer, as `jsonc_remove` hands it out.
///
/// 17: the buffer is too small. `len` tells how long the text is then, too.
#[unsafe(no_mangle)]
pub extern "C" fn jsonc_remove_into(
    alloc: Global,
    text: &[u8],
    name: &[u8],
    options: u32,
    room: &mut [u8],
    len: &mut usize,
    fault: &mut JsoncFault,
) -> u32
    ensures removed { result ≡ 0 →
        IsMadeOf (options_of options) (asked.remove name.now) text.now (take len.new room.new) }
    ensures accepted { result ≡ 0 → IsInputOf (options_of options) text.now }
    ensures no_room { result ≡ 17 → length room.old < len.new }
    ensures len { ¬ (result ≡ 0) → ¬ (result ≡ 17) → len.new ≡ 0 }
    ensures unwritten { ¬ (result ≡ 0) → room.new ≡ room.old }
    ensures told { TellsOfTexts result fault.new }
    ensures words { result ≡ 2 → ¬ (IsUtf8 name.now) }
    ensures refused { 3 ≤ result → ¬ (result ≡ 17) →
        IsRefused (options_of options) (asked.remove name.now) text.now result fault.new }
{
    change_into(alloc, Asked::Remove(name), text, options, room, len, fault)
}

/// Writes the text with its properties sorted into a buffer, as `jsonc_sort` hands it out.
///
/// 17: the buffer is too small. `len` tells how long the text is then, too.
#[unsafe(no_mangle)]
pub extern "C" fn jsonc_sort_into(
    alloc: Global,
    text: &[u8],
    options: u32,
    room: &mut [u8],
    len: &mut usize,
    fault: &mut JsoncFault,
) -> u32
    ensures sorted { result ≡ 0 →
        IsMadeOf (options_of options) asked.sort text.now (take len.new room.new) }
    ensures accepted { result ≡ 0 → IsInputOf (options_of options) text.now }
    ensures no_room { result ≡ 17 → length room.old < len.new }
    ensures len { ¬ (result ≡ 0) → ¬ (result ≡ 17) → len.new ≡ 0 }
    ensures unwritten { ¬ (result ≡ 0) → room.new ≡ room.old }
    ensures told { TellsOfTexts result fault.new }
    ensures refused { 2 ≤ result → ¬ (result ≡ 17) →
        IsRefused (options_of options) asked.sort text.now result fault.new }
{
    change_into(alloc, Asked::Sort, text, options, room, len, fault)
}

/// Writes the value at a path, as it is written, into a buffer, as `jsonc_get` hands it out.
///
/// 17: the buffer is too small. `len` tells how long the value is then, too.
#[tactic(auto, using(crate::proofs::Telling::tells_none))]
#[unsafe(no_mangle)]
pub extern "C" fn jsonc_get_into(
    alloc: Global,
    text: &[u8],
    path: &[u8],
    options: u32,
    room: &mut [u8],
    len: &mut usize,
    fault: &mut JsoncFault,
) -> u32
    ensures got { result ≡ 0 →
        IsGot (options_of options) path.now text.now (take len.new room.new ++ 0x0A ∷ []) }
    ensures accepted { result ≡ 0 → IsInputOf (options_of options) text.now }
    ensures no_room { result ≡ 17 → length room.old < len.new }
    ensures len { ¬ (result ≡ 0) → ¬ (result ≡ 17) → len.new ≡ 0 }
    ensures unwritten { ¬ (result ≡ 0) → room.new ≡ room.old }
    ensures told { TellsOfTexts result fault.new }
    ensures words { result ≡ 2 → ¬ (IsUtf8 path.now) }
    ensures refused { 3 ≤ result → ¬ (result ≡ 17) →
        IsRefused (options_of options) (asked.get path.now) text.now result fault.new }
{
    *len = 0;
    match written(alloc, Asked::Get(path), text, options, fault) {
        Ok(line) => fill(without_line_feed(line).as_slice(), room, len),
        Err(status) => status,
    }
}

/// Writes the text with a value put at a path into a buffer, as `jsonc_put` hands it out.
///
/// 17: the buffer is too small. `len` tells how long the text is then, too.
#[unsafe(no_mangle)]
pub extern "C" fn jsonc_put_into(
    alloc: Global,
    text: &[u8],
    path: &[u8],
    json: &[u8],
    options: u32,
    room: &mut [u8],
    len: &mut usize,
    fault: &mut JsoncFault,
) -> u32
    ensures put { result ≡ 0 →
        IsMadeOf (options_of options) (asked.put path.now json.now) text.now (take len.new room.new) }
    ensures accepted { result ≡ 0 → IsInputOf (options_of options) text.now }
    ensures no_room { result ≡ 17 → length room.old < len.new }
    ensures len { ¬ (result ≡ 0) → ¬ (result ≡ 17) → len.new ≡ 0 }
    ensures unwritten { ¬ (result ≡ 0) → room.new ≡ room.old }
    ensures told { TellsOfTexts result fault.new }
    ensures words { result ≡ 2 → ¬ (IsUtf8 path.now) ⊎ ¬ (IsUtf8 json.now) }
    ensures refused { 3 ≤ result → ¬ (result ≡ 17) →
        IsRefused (options_of options) (asked.put path.now json.now) text.now result fault.new }
{
    change_into(
        alloc,
        Asked::Put(path, json),
        text,
        options,
        room,
        len,
        fault,
    )
}

/// Writes the text without what stands at a path into a buffer, as `jsonc_drop` hands it out.
///
/// 17: the buffer is too small. `len` tells how long the text is then, too.
#[unsafe(no_mangle)]
pub extern "C" fn jsonc_drop_into(
    alloc: Global,
    text: &[u8],
    path: &[u8],
    options: u32,
    room: &mut [u8],
    len: &mut usize,
    fault: &mut JsoncFault,
) -> u32
    ensures dropped { result ≡ 0 →
        IsMadeOf (options_of options) (asked.drop path.now) text.now (take len.new room.new) }
    ensures accepted { result ≡ 0 → IsInputOf (options_of options) text.now }
    ensures no_room { result ≡ 17 → length room.old < len.new }
    ensures len { ¬ (result ≡ 0) → ¬ (result ≡ 17) → len.new ≡ 0 }
    ensures unwritten { ¬ (result ≡ 0) → room.new ≡ room.old }
    ensures told { TellsOfTexts result fault.new }
    ensures words { result ≡ 2 → ¬ (IsUtf8 path.now) }
    ensures refused { 3 ≤ result → ¬ (result ≡ 17) →
        IsRefused (options_of options) (asked.drop path.now) text.now result fault.new }
{
    change_into(alloc, Asked::Drop(path), text, options, room, len, fault)
}

/// Writes the text after edits into a buffer, as `jsonc_edit` hands it out.
///
/// 17: the buffer is too small. `len` tells how long the text is then, too.
#[tactic(auto, using(crate::proofs::Telling::tells_no_edits))]
#[unsafe(no_mangle)]
pub extern "C" fn jsonc_edit_into(
    alloc: Global,
    text: &[u8],
    edits: &[JsoncEdit],
    options: u32,
    room: &mut [u8],
    len: &mut usize,
    fault: &mut JsoncFault,
) -> u32
    ensures edited { result ≡ 0 →
        IsEdited Global (options_of options) text.now edits.now (take len.new room.new) }
    ensures no_room { result ≡ 17 → length room.old < len.new }
    ensures len { ¬ (result ≡ 0) → ¬ (result ≡ 17) → len.new ≡ 0 }
    ensures unwritten { ¬ (result ≡ 0) → room.new ≡ room.old }
    ensures told { TellsOfEdits result fault.new }
    ensures refused { ¬ (result ≡ 0) → ¬ (result ≡ 17) →
        IsUnedited Global (options_of options) text.now edits.now result fault.new }
{
    *len = 0;
    let made = match text_after(alloc, text, edits, options, fault) {
        Ok(made) => made,
        Err(status) => return status,
    };
    fill(made.as_bytes(), room, len)
}

/// Writes the value that a JSON Pointer refers to, as it is written, into a buffer, as `jsonc_find` hands it out.
///
/// 17: the buffer is too small. `len` tells how long the value is then, too.
#[unsafe(no_mangle)]
pub extern "C" fn jsonc_find_into(
    alloc: Global,
    text: &[u8],
    pointer: &[u8],
    options: u32,
    room: &mut [u8],
    len: &mut usize,
    fault: &mut JsoncFault,
) -> u32
    ensures found { result ≡ 0 →
        IsFound (options_of options) pointer.now text.now (take len.new room.new) }
    ensures no_room { result ≡ 17 → length room.old < len.new }
    ensures len { ¬ (result ≡ 0) → ¬ (result ≡ 17) → len.new ≡ 0 }
    ensures unwritten { ¬ (result ≡ 0) → room.new ≡ room.old }
    ensures told { TellsOfPatches result fault.new }
    ensures refused { ¬ (result ≡ 0) → ¬ (result ≡ 17) →
        IsUnfound (options_of options) pointer.now text.now result fault.new }
{
    *len = 0;
    match found(alloc, text, pointer, options, fault) {
        Ok(made) => fill(made.as_bytes(), room, len),
        Err(status) => status,
    }
}

/// Writes the text after the operations of a JSON Patch into a buffer, as `jsonc_apply_patch` hands it out.
///
/// 17: the buffer is too small. `len` tells how long the text is then, too.
#[unsafe(no_mangle)]
pub extern "C" fn jsonc_apply_patch_into(
    alloc: Global,
    text: &[u8],
    patch: &[u8],
    options: u32,
    room: &mut [u8],
    len: &mut usize,
    fault: &mut JsoncFault,
) -> u32
    ensures patched { result ≡ 0 →
        IsPatchedBy Global (options_of options) patch.now text.now (take len.new room.new) }
    ensures no_room { result ≡ 17 → length room.old < len.new }
    ensures len { ¬ (result ≡ 0) → ¬ (result ≡ 17) → len.new ≡ 0 }
    ensures unwritten { ¬ (result ≡ 0) → room.new ≡ room.old }
    ensures told { TellsOfPatches result fault.new }
    ensures refused { ¬ (result ≡ 0) → ¬ (result ≡ 17) →
        IsUnpatched Global (options_of options) patch.now text.now result fault.new }
{
    *len = 0;
    match patched(alloc, text, patch, options, fault) {
        Ok(made) => fill(made.as_bytes(), room, len),
        Err(status) => status,
    }
}

/// Writes the text after a JSON Merge Patch into a buffer, as `jsonc_merge_patch` hands it out.
///
/// 17: the buffer is too small. `len` tells how long the text is then, too.
#[unsafe(no_mangle)]
pub extern "C" fn jsonc_merge_patch_into(
    alloc: Global,
    text: &[u8],
    patch: &[u8],
    options: u32,
    room: &mut [u8],
    len: &mut usize,
    fault: &mut JsoncFault,
) -> u32
    ensures merged { result ≡ 0 →
        IsMergedBy (options_of options) patch.now text.now (take len.new room.new) }
    ensures no_room { result ≡ 17 → length room.old < len.new }
    ensures len { ¬ (result ≡ 0) → ¬ (result ≡ 17) → len.new ≡ 0 }
    ensures unwritten { ¬ (result ≡ 0) → room.new ≡ room.old }
    ensures told { TellsOfPatches result fault.new }
    ensures refused { ¬ (result ≡ 0) → ¬ (result ≡ 17) →
        IsUnmerged Global (options_of options) patch.now text.now result fault.new }
{
    *len = 0;
    match merged(alloc, text, patch, options, fault) {
        Ok(made) => fill(made.as_bytes(), room, len),
        Err(status) => status,
    }
}

/// Writes the formatted text into a buffer, as `jsonc_format` hands it out.
///
/// 17: the buffer is too small. `len` tells how long the text is then, too.
#[tactic(auto, using(crate::proofs::Telling::tells_none))]
#[unsafe(no_mangle)]
pub extern "C" fn jsonc_format_into(
    alloc: Global,
    text: &[u8],
    options: u32,
    style: &JsoncStyle,
    room: &mut [u8],
    len: &mut usize,
    fault: &mut JsoncFault,
) -> u32
    ensures formatted { result ≡ 0 →
        IsFormattedBy (options_of options) style.now text.now (take len.new room.new) }
    ensures no_room { result ≡ 17 → length room.old < len.new }
    ensures len { ¬ (result ≡ 0) → ¬ (result ≡ 17) → len.new ≡ 0 }
    ensures unwritten { ¬ (result ≡ 0) → room.new ≡ room.old }
    ensures told { TellsOfTexts result fault.new }
    ensures refused { ¬ (result ≡ 0) → ¬ (result ≡ 17) →
        IsUnformatted (options_of options) text.now result fault.new }
{
    *len = 0;
    match formatted(alloc, text, options, style, fault) {
        Ok(made) => fill(made.as_bytes(), room, len),
        Err(status) => status,
    }
}
