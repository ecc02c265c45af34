//! Lists of edits.
ghost use Rattle.std.specs.Prelude.{◌≡◌, List, [], IfErr, IfOk, OnOk, string_bytes};
ghost use Rattle.jsonc_c.specs.declared.edits.JsoncEdit.{JsoncEdit};
ghost use Rattle.std.specs.declared.alloc.Global.{Global};
ghost use Rattle.jsonc_c.specs.Edits.{AreReadAs, IsEdited, IsUnedited};
ghost use Rattle.jsonc_c.specs.Options.{options_of};
ghost use Rattle.jsonc_c.specs.Told.{TellsOfEdits, no_fault};

use crate::compare::compare;
use crate::edits::JsoncEdit;
use crate::fault::{JsoncFault, NOT_UTF8, OK, TEXT, edit_status, no_fault, tell_error};
use crate::handed::hand_out;
use crate::options::options_of;
use crate::read::read_edits;
use jsonc_parser::cst::{CstNode, CstRootNode, Edit, EditTextError, edit_text};
use std::alloc::Global;

/// The text after edits in order.
fn edited(
    alloc: Global,
    text: &str,
    edits: Vec<Edit<Global>>,
    options: u32,
    fault: &mut JsoncFault,
) -> Result<String, u32>
    requires untold { fault.old ≡ no_fault }
    ensures edited { (listed : List JsoncEdit) → AreReadAs listed edits.items
        → IfOk result (λ made. IsEdited Global (options_of options) text.now listed (string_bytes made)) }
    ensures refused { (listed : List JsoncEdit) → AreReadAs listed edits.items
        → IfErr result (λ status. IsUnedited Global (options_of options) text.now listed status fault.new) }
    ensures untold { OnOk result (fault.new ≡ no_fault) }
    ensures told { IfErr result (λ status. TellsOfEdits status fault.new) }
{
    let compare = |document: &CstRootNode<Global>, one: CstNode, other: CstNode| compare(
        document, one, other,
    );
    match edit_text(alloc, text, &options_of(options), edits, &compare) {
        Ok(made) => Ok(made),
        Err(EditTextError::Parse(error)) => Err(tell_error(alloc, &error, TEXT, fault)),
        Err(EditTextError::Edit(made, error)) => {
            fault.made = made;
            Err(edit_status(error))
        }
    }
}

/// The text of bytes after edits that are read first.
pub(crate) fn text_after(
    alloc: Global,
    text: &[u8],
    edits: &[JsoncEdit],
    options: u32,
    fault: &mut JsoncFault,
) -> Result<String, u32>
    ensures edited { IfOk result (λ made. IsEdited Global (options_of options) text.now edits.now (string_bytes made)) }
    ensures refused { IfErr result
        (λ status. IsUnedited Global (options_of options) text.now edits.now status fault.new) }
    ensures untold { OnOk result (fault.new ≡ no_fault) }
    ensures told { IfErr result (λ status. TellsOfEdits status fault.new) }
{
    *fault = no_fault();
    let read = match read_edits(alloc, edits, fault) {
        Ok(read) => read,
        Err(status) => return Err(status),
    };
    let Ok(text) = str::from_utf8(text) else {
        return Err(NOT_UTF8);
    };
    edited(alloc, text, read, options, fault)
}

/// Makes edits in order, and hands out the text after them. Where one is refused, none is made.
///
/// 0: it is done. 1, 3 and 4 as of `jsonc_check`. 2: a name, comment or JSON text is not UTF-8. 7 and 8: a JSON text is
/// no document, or has no value. 13: an edit has no place. 16: an edit has no such kind. 25: a text to be inserted as
/// a comment is not one comment. 26: such a comment ends with its line, and something follows there on the line. The
/// fault tells how many edits stand before it.
#[tactic(auto, using(crate::proofs::Telling::tells_no_edits))]
#[unsafe(no_mangle)]
pub extern "C" fn jsonc_edit(
    alloc: Global,
    text: &[u8],
    edits: &[JsoncEdit],
    options: u32,
    out: &mut &'static [u8],
    fault: &mut JsoncFault,
) -> u32
    ensures edited { result ≡ 0 → IsEdited Global (options_of options) text.now edits.now out.new.now }
    ensures refused { ¬ (result ≡ 0) → IsUnedited Global (options_of options) text.now edits.now result fault.new }
    ensures empty { ¬ (result ≡ 0) → out.new.now ≡ [] }
    ensures told { TellsOfEdits result fault.new }
{
    *out = &[];
    match text_after(alloc, text, edits, options, fault) {
        Ok(made) => {
            hand_out(made, out);
            OK
        }
        Err(status) => status,
    }
}
