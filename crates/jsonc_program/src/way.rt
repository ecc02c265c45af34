//! What is told of a value in the way of a path of names.
use crate::edit::document_of;
use crate::edit::place::Way;
use crate::edit::words::way_to;
use jsonc_engine::command::Place;
use jsonc_layout::input::spelling::spell;
use jsonc_parser::ParseOptions;
use jsonc_parser::cst::CstRootNode;
use jsonc_parser::settings::find_at;
use std::alloc::{AllocError, Global};

/// What is told where a value of another kind than an object is in the way of names.
const IN_THE_WAY: &str = "a value on the path is not an object";

/// Whether these names lead to a value of another kind than an object.
fn is_in_the_way(document: &CstRootNode<Global>, names: &[String]) -> bool {
    match find_at(document, names) {
        Ok(Some(value)) => value.as_object().is_none(),
        _ => false,
    }
}

/// The number of the names that lead to the first value of another kind than an object.
fn count_to(document: &CstRootNode<Global>, names: &[String]) -> Option<usize> {
    (0..names.len()).find(|count| is_in_the_way(document, &names[..*count]))
}

/// What is told of a value in the way of a path: the name of the property that has it.
pub fn told_of_way(
    alloc: Global,
    options: &ParseOptions,
    path: &str,
    input: &[u8],
) -> Result<Option<String>, AllocError> {
    let (Ok(Way::Names(names)), Ok(document)) = (
        way_to(alloc, Place::Names(path)),
        document_of(alloc, options, input),
    ) else {
        return Ok(None);
    };
    let Some(count) = count_to(&document, &names) else {
        return Ok(None);
    };
    let Some(number) = count.checked_sub(1) else {
        return Ok(Some(format!(in alloc; "{IN_THE_WAY}: the document's")?));
    };
    match names.get(number) {
        Some(name) => {
            let name = spell(alloc, name.as_str())?;
            Ok(Some(format!(in alloc; "{IN_THE_WAY}: that of {name}")?))
        }
        None => Ok(None),
    }
}
