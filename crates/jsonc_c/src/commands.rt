//! The commands of the program `jsonc`, one call for each.
ghost use Rattle.std.specs.Prelude.{◌≡◌, ◌≤◌, ◌⊎◌, ◌++◌, ◌∷◌, [], IsUtf8};
ghost use Rattle.std.specs.declared.alloc.Global.{Global};
ghost use Rattle.jsonc_engine.specs.Change.{IsGot, IsMadeOf};
ghost use Rattle.jsonc_engine.specs.Command as asked;
ghost use Rattle.jsonc_engine.specs.Input.{IsInputOf};
ghost use Rattle.jsonc_engine.specs.Output.{IsLeft};
ghost use Rattle.jsonc_c.specs.Commands.{HasNoText, IsRefused, asked_of};
ghost use Rattle.jsonc_c.specs.Options.{options_of};
ghost use Rattle.jsonc_c.specs.Told.{TellsOfTexts};

use crate::asked::{Asked, written};
use crate::fault::{JsoncFault, OK};
use crate::handed::{hand_out, hand_out_line};
use std::alloc::Global;

/// Hands out what a command writes of a text.
#[tactic(auto, using(crate::proofs::Telling::tells_none))]
fn change(
    alloc: Global,
    command: Asked,
    text: &[u8],
    options: u32,
    out: &mut &'static [u8],
    fault: &mut JsoncFault,
) -> u32
    ensures made { result ≡ 0 → IsLeft Global (options_of options) (asked_of command.entry) text.now out.new.now }
    ensures accepted { result ≡ 0 → IsInputOf (options_of options) text.now }
    ensures words { result ≡ 2 → HasNoText (asked_of command.entry) }
    ensures refused { 3 ≤ result →
        IsRefused (options_of options) (asked_of command.entry) text.now result fault.new }
    ensures empty { 1 ≤ result → out.new.now ≡ [] }
    ensures told { TellsOfTexts result fault.new }
{
    *out = &[];
    match written(alloc, command, text, options, fault) {
        Ok(made) => {
            hand_out(made, out);
            OK
        }
        Err(status) => status,
    }
}

/// Hands out the text that the document prints, which is the text itself.
///
/// 0: it is a document of the options. 1, 3 and 4 as of `jsonc_check`.
#[unsafe(no_mangle)]
pub extern "C" fn jsonc_print(
    alloc: Global,
    text: &[u8],
    options: u32,
    out: &mut &'static [u8],
    fault: &mut JsoncFault,
) -> u32
    ensures printed { result ≡ 0 → out.new.now ≡ text.now }
    ensures accepted { result ≡ 0 → IsInputOf (options_of options) text.now }
    ensures refused { 2 ≤ result → IsRefused (options_of options) asked.print text.now result fault.new }
    ensures empty { 1 ≤ result → out.new.now ≡ [] }
    ensures told { TellsOfTexts result fault.new }
{
    change(alloc, Asked::Print, text, options, out, fault)
}

/// Sets the value of the first property of a name in the document's object to that of a JSON text, or appends such a
/// property. A document without a value gets an object.
///
/// 0: it is done. 1, 3 and 4 as of `jsonc_check`. 2: the name or JSON text is not UTF-8. 7 and 8: the JSON text is no
/// document, or has no value. 9: the document's value is another. 28: the value would be nested deeper than texts are
/// parsed.
#[unsafe(no_mangle)]
pub extern "C" fn jsonc_set(
    alloc: Global,
    text: &[u8],
    name: &[u8],
    json: &[u8],
    options: u32,
    out: &mut &'static [u8],
    fault: &mut JsoncFault,
) -> u32
    ensures set { result ≡ 0 → IsMadeOf (options_of options) (asked.set name.now json.now) text.now out.new.now }
    ensures accepted { result ≡ 0 → IsInputOf (options_of options) text.now }
    ensures words { result ≡ 2 → ¬ (IsUtf8 name.now) ⊎ ¬ (IsUtf8 json.now) }
    ensures refused { 3 ≤ result →
        IsRefused (options_of options) (asked.set name.now json.now) text.now result fault.new }
    ensures empty { 1 ≤ result → out.new.now ≡ [] }
    ensures told { TellsOfTexts result fault.new }
{
    change(alloc, Asked::Set(name, json), text, options, out, fault)
}

/// Appends the value of a JSON text to the document's array. A document without a value gets an array.
///
/// 10: the document's value is another. Else as `jsonc_set`.
#[unsafe(no_mangle)]
pub extern "C" fn jsonc_append(
    alloc: Global,
    text: &[u8],
    json: &[u8],
    options: u32,
    out: &mut &'static [u8],
    fault: &mut JsoncFault,
) -> u32
    ensures appended { result ≡ 0 → IsMadeOf (options_of options) (asked.append json.now) text.now out.new.now }
    ensures accepted { result ≡ 0 → IsInputOf (options_of options) text.now }
    ensures words { result ≡ 2 → ¬ (IsUtf8 json.now) }
    ensures refused { 3 ≤ result →
        IsRefused (options_of options) (asked.append json.now) text.now result fault.new }
    ensures empty { 1 ≤ result → out.new.now ≡ [] }
    ensures told { TellsOfTexts result fault.new }
{
    change(alloc, Asked::Append(json), text, options, out, fault)
}

/// Removes the first property of a name from the document's object. Where it has none the text stays as it is.
///
/// 0: it is done. 1, 3 and 4 as of `jsonc_check`. 2: the name is not UTF-8. 9: the document's value is no object.
#[unsafe(no_mangle)]
pub extern "C" fn jsonc_remove(
    alloc: Global,
    text: &[u8],
    name: &[u8],
    options: u32,
    out: &mut &'static [u8],
    fault: &mut JsoncFault,
) -> u32
    ensures removed { result ≡ 0 → IsMadeOf (options_of options) (asked.remove name.now) text.now out.new.now }
    ensures accepted { result ≡ 0 → IsInputOf (options_of options) text.now }
    ensures words { result ≡ 2 → ¬ (IsUtf8 name.now) }
    ensures refused { 3 ≤ result →
        IsRefused (options_of options) (asked.remove name.now) text.now result fault.new }
    ensures empty { 1 ≤ result → out.new.now ≡ [] }
    ensures told { TellsOfTexts result fault.new }
{
    change(alloc, Asked::Remove(name), text, options, out, fault)
}

/// Sorts the properties of the document's object by their names as they are written, without quotes, byte by byte.
///
/// 0: it is done. 1, 3 and 4 as of `jsonc_check`. 9: the document's value is no object.
#[unsafe(no_mangle)]
pub extern "C" fn jsonc_sort(
    alloc: Global,
    text: &[u8],
    options: u32,
    out: &mut &'static [u8],
    fault: &mut JsoncFault,
) -> u32
    ensures sorted { result ≡ 0 → IsMadeOf (options_of options) asked.sort text.now out.new.now }
    ensures accepted { result ≡ 0 → IsInputOf (options_of options) text.now }
    ensures refused { 2 ≤ result → IsRefused (options_of options) asked.sort text.now result fault.new }
    ensures empty { 1 ≤ result → out.new.now ≡ [] }
    ensures told { TellsOfTexts result fault.new }
{
    change(alloc, Asked::Sort, text, options, out, fault)
}

/// Hands out the value at a path as it is written. The path is a JSON text, an array of names.
///
/// 0: it is done. 1, 3 and 4 as of `jsonc_check`. 2: the path is not UTF-8. 5 and 6: it is no document, or no array of
/// strings. 11: nothing stands there.
#[unsafe(no_mangle)]
pub extern "C" fn jsonc_get(
    alloc: Global,
    text: &[u8],
    path: &[u8],
    options: u32,
    out: &mut &'static [u8],
    fault: &mut JsoncFault,
) -> u32
    ensures got { result ≡ 0 → IsGot (options_of options) path.now text.now (out.new.now ++ 0x0A ∷ []) }
    ensures accepted { result ≡ 0 → IsInputOf (options_of options) text.now }
    ensures words { result ≡ 2 → ¬ (IsUtf8 path.now) }
    ensures refused { 3 ≤ result →
        IsRefused (options_of options) (asked.get path.now) text.now result fault.new }
    ensures empty { 1 ≤ result → out.new.now ≡ [] }
    ensures told { TellsOfTexts result fault.new }
{
    *out = &[];
    match written(alloc, Asked::Get(path), text, options, fault) {
        Ok(line) => {
            hand_out_line(line, out);
            OK
        }
        Err(status) => status,
    }
}

/// Puts the value of a JSON text at a path. Names that are missing come with it.
///
/// 12: a value of another kind than an object stands on the path, and stays. Else as `jsonc_get` and `jsonc_set`.
#[unsafe(no_mangle)]
pub extern "C" fn jsonc_put(
    alloc: Global,
    text: &[u8],
    path: &[u8],
    json: &[u8],
    options: u32,
    out: &mut &'static [u8],
    fault: &mut JsoncFault,
) -> u32
    ensures put { result ≡ 0 → IsMadeOf (options_of options) (asked.put path.now json.now) text.now out.new.now }
    ensures accepted { result ≡ 0 → IsInputOf (options_of options) text.now }
    ensures words { result ≡ 2 → ¬ (IsUtf8 path.now) ⊎ ¬ (IsUtf8 json.now) }
    ensures refused { 3 ≤ result →
        IsRefused (options_of options) (asked.put path.now json.now) text.now result fault.new }
    ensures empty { 1 ≤ result → out.new.now ≡ [] }
    ensures told { TellsOfTexts result fault.new }
{
    change(alloc, Asked::Put(path, json), text, options, out, fault)
}

/// Drops what stands at a path. Where nothing stands there the text stays as it is.
///
/// As `jsonc_get`, but never 11.
#[unsafe(no_mangle)]
pub extern "C" fn jsonc_drop(
    alloc: Global,
    text: &[u8],
    path: &[u8],
    options: u32,
    out: &mut &'static [u8],
    fault: &mut JsoncFault,
) -> u32
    ensures dropped { result ≡ 0 → IsMadeOf (options_of options) (asked.drop path.now) text.now out.new.now }
    ensures accepted { result ≡ 0 → IsInputOf (options_of options) text.now }
    ensures words { result ≡ 2 → ¬ (IsUtf8 path.now) }
    ensures refused { 3 ≤ result →
        IsRefused (options_of options) (asked.drop path.now) text.now result fault.new }
    ensures empty { 1 ≤ result → out.new.now ≡ [] }
    ensures told { TellsOfTexts result fault.new }
{
    change(alloc, Asked::Drop(path), text, options, out, fault)
}
