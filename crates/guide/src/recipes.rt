//! Recipes that edit a document.

use jsonc_parser::cst::{
    CstInputValue, CstObjectProp, CstRootNode, Edit, EditError, Over, TrailingCommaMode, TypedNode,
    run_unsorted,
};
use jsonc_parser::settings::{find_at, set_at, set_last_at};
use std::alloc::{AllocError, Allocator};

/// A path of names.
pub(crate) fn path<A: Allocator + Copy>(
    alloc: A,
    names: &[&str],
) -> Result<Vec<String<A>, A>, AllocError> {
    let mut path = Vec::new(alloc);
    for name in names {
        path.push(String::from_str(alloc, name)?)?;
    }
    Ok(path)
}

/// Sets the font size to 16.
pub(crate) fn set_font_size<A: Allocator + Copy>(
    doc: &mut CstRootNode<A>,
) -> Result<(), EditError> {
    let alloc = *doc.allocator();
    let size = CstInputValue::from_u32(alloc, 16)?;
    set_at(
        doc,
        &path(alloc, &["editor", "fontSize"])?,
        size,
        Over::Replace,
    )?;
    Ok(())
}

/// Puts a ruler behind the last one.
pub(crate) fn add_ruler<A: Allocator + Copy>(doc: &mut CstRootNode<A>) -> Result<(), EditError> {
    let alloc = *doc.allocator();
    let Some(found) = find_at(doc, &path(alloc, &["editor", "rulers"])?)? else {
        return Ok(());
    };
    if let Some(rulers) = found.as_array()
        && doc.holds(rulers.node())
    {
        rulers.append(doc, CstInputValue::from_u32(alloc, 100)?)?;
    }
    Ok(())
}

/// Puts a property before the first one, unless one of its name is there.
pub(crate) fn insert_first<A: Allocator + Copy>(doc: &mut CstRootNode<A>) -> Result<(), EditError> {
    let alloc = *doc.allocator();
    if let Some(object) = doc.object_value_or_create()?
        && object.get(doc, "theme")?.is_none()
    {
        object.insert(doc, 0, "theme", CstInputValue::from_str(alloc, "dark")?)?;
    }
    Ok(())
}

/// Removes a property.
pub(crate) fn remove_font<A: Allocator + Copy>(doc: &mut CstRootNode<A>) -> Result<(), EditError> {
    let Some(object) = doc.object_value() else {
        return Ok(());
    };
    match object.get(doc, "fontSize")? {
        Some(property) => property.remove(doc),
        None => Ok(()),
    }
}

/// Removes a property with the comments that belong to it.
pub(crate) fn remove_with_comments<A: Allocator + Copy>(
    doc: &mut CstRootNode<A>,
) -> Result<(), EditError> {
    let Some(object) = doc.object_value() else {
        return Ok(());
    };
    match object.get(doc, "fontSize")? {
        Some(property) => property.remove_with_comments(doc),
        None => Ok(()),
    }
}

/// Removes the property whose value is found, with the comments that belong to it.
pub(crate) fn remove_found<A: Allocator + Copy>(doc: &mut CstRootNode<A>) -> Result<(), EditError> {
    let alloc = *doc.allocator();
    let Some(found) = find_at(doc, &path(alloc, &["editor", "fontSize"])?)? else {
        return Ok(());
    };
    if doc.holds(found)
        && let Some(entry) = doc.entry_of(found)
    {
        entry.remove_with_comments(doc)?;
    }
    Ok(())
}

/// Sorts by name; comments above a blank line stay where they are.
pub(crate) fn sort_by_name<A: Allocator + Copy>(doc: &mut CstRootNode<A>) -> Result<(), EditError> {
    let Some(object) = doc.object_value() else {
        return Ok(());
    };
    object.sort_properties().pin_comment_headers().by_key(
        doc,
        |doc: &CstRootNode<_>, property: CstObjectProp| match property.decoded_name(doc) {
            Ok(name) => Ok(name),
            Err(_) => Err(EditError::OutOfMemory),
        },
    )
}

/// Sorts by name; comments above the last blank line before a property stay where they are.
pub(crate) fn sort_under_headers<A: Allocator + Copy>(
    doc: &mut CstRootNode<A>,
) -> Result<(), EditError> {
    let Some(object) = doc.object_value() else {
        return Ok(());
    };
    object.sort_properties().keep_headers().by_key(
        doc,
        |doc: &CstRootNode<_>, property: CstObjectProp| match property.decoded_name(doc) {
            Ok(name) => Ok(name),
            Err(_) => Err(EditError::OutOfMemory),
        },
    )
}

/// Sets the last font size to 16, which VS Code reads.
pub(crate) fn set_last_font_size<A: Allocator + Copy>(
    doc: &mut CstRootNode<A>,
) -> Result<(), EditError> {
    let alloc = *doc.allocator();
    let size = CstInputValue::from_u32(alloc, 16)?;
    let names = path(alloc, &["editor.fontSize"])?;
    set_last_at(doc, &names, size, Over::Replace)?;
    Ok(())
}

/// Sets a trailing comma wherever an array or object stands on several lines.
pub(crate) fn use_trailing_commas<A: Allocator + Copy>(
    doc: &mut CstRootNode<A>,
) -> Result<(), EditError> {
    doc.set_trailing_commas(TrailingCommaMode::IfMultiline)
}

/// The same, and none on one line.
pub(crate) fn never_then_if_multiline<A: Allocator + Copy>(
    doc: &mut CstRootNode<A>,
) -> Result<(), EditError> {
    doc.set_trailing_commas(TrailingCommaMode::Never)?;
    doc.set_trailing_commas(TrailingCommaMode::IfMultiline)
}

/// A list of one edit, which takes out the first element or property.
fn first_out<A: Allocator + Copy>(alloc: A) -> Result<Vec<Edit<A>, A>, AllocError> {
    let mut place = Vec::new(alloc);
    place.push(0)?;
    let mut edits = Vec::new(alloc);
    edits.push(Edit::Remove(place))?;
    Ok(edits)
}

/// Makes this list.
pub(crate) fn drop_first<A: Allocator + Copy>(doc: &mut CstRootNode<A>) -> Result<(), EditError> {
    let edits = first_out(*doc.allocator())?;
    match run_unsorted(doc, edits) {
        Ok(()) => Ok(()),
        Err((_, why)) => Err(why),
    }
}

/// Writes a number as it is handed in, though it is none.
pub(crate) fn write_number<A: Allocator + Copy>(doc: &mut CstRootNode<A>) -> Result<(), EditError> {
    let alloc = *doc.allocator();
    let Some(array) = doc.array_value() else {
        return Ok(());
    };
    let digits = String::from_str(alloc, "1_000")?;
    array.append(doc, CstInputValue::Number(digits))?;
    Ok(())
}
