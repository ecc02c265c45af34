//! A patch of ten operations, made on settings.

use crate::documents::parsed;
use jsonc_engine::fault::Fault;
use jsonc_parser::ParseOptions;
use jsonc_parser::cst::EditError;
use jsonc_parser::patch::Patch;
use std::alloc::Global;

// At places of the settings of 1 MB.
const PATCH: &str = r#"[
  {"op": "test", "path": "/group1/limits/burst", "value": null},
  {"op": "replace", "path": "/group1800/limits/soft", "value": 1},
  {"op": "add", "path": "/group200/limits/extra", "value": 2},
  {"op": "remove", "path": "/group400/limits/burst"},
  {"op": "add", "path": "/group600/rules/allowed/-", "value": {"path": "/srv", "mode": 1}},
  {"op": "copy", "from": "/group800/limits", "path": "/group1000/more"},
  {"op": "move", "from": "/group1200/limits/hard", "path": "/group1200/hard"},
  {"op": "replace", "path": "/group1400/title", "value": "A title"},
  {"op": "add", "path": "/last", "value": [1, 2]},
  {"op": "test", "path": "/group1600/limits/burst", "value": null}
]"#;

/// The bytes printed of a document behind the patch, which is read each time.
pub fn patched(alloc: Global, text: &str) -> Result<usize, Fault<Global>> {
    let Ok(patch) = Patch::from_json(alloc, PATCH, &ParseOptions::default()) else {
        return Err(Fault::Edit(EditError::OutOfMemory));
    };
    let mut document = parsed(alloc, text)?;
    let Ok(()) = patch.apply(&mut document) else {
        return Err(Fault::Edit(EditError::NoSuchPlace));
    };
    match document.text() {
        Ok(printed) => Ok(printed.len()),
        Err(_) => Err(Fault::Edit(EditError::OutOfMemory)),
    }
}
