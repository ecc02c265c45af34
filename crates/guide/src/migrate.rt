//! A recipe that brings settings to another version.

use jsonc_parser::cst::{
    CstComment, CstInputValue, CstObjectProp, CstRootNode, EditError, Place, TypedNode,
};
use std::alloc::Allocator;

type Done = Result<(), EditError>;
/// Renames a property, unless one of the new name is there.
fn rename<A: Allocator + Copy>(doc: &mut CstRootNode<A>, name: &str, to: &str) -> Done {
    if let Some(settings) = doc.object_value()
        && let Some(property) = settings.get(doc, name)?
        && settings.get(doc, to)?.is_none()
    {
        property.rename(doc, to)?;
    }
    Ok(())
}

/// Removes a property of an object, and its comments.
fn remove<A: Allocator + Copy>(doc: &mut CstRootNode<A>, of: &str, name: &str) -> Done {
    if let Some(settings) = doc.object_value()
        && let Some(object) = settings.object_value(doc, of)?
        && let Some(property) = object.get(doc, name)?
    {
        property.remove_with_comments(doc)?;
    }
    Ok(())
}

/// The comments of a property, and those in it.
fn comments<A: Allocator + Copy>(
    doc: &CstRootNode<A>,
    of: CstObjectProp,
) -> Result<Vec<CstComment, A>, EditError> {
    if !doc.holds(of.node()) {
        return Ok(Vec::new(*doc.allocator()));
    }
    let mut comments = doc.comments_of(of.node())?;
    for node in doc.descendants(of.node()) {
        if let Some(comment) = node.as_comment() {
            comments.push(comment)?;
        }
    }
    Ok(comments)
}

/// Inserts a comment of the document above a property too.
fn copy<A: Allocator + Copy>(doc: &mut CstRootNode<A>, it: CstComment, to: CstObjectProp) -> Done {
    if doc.holds(it.node()) {
        let text = String::from_str(*doc.allocator(), it.raw_value(doc))?;
        if doc.holds(to.node()) {
            to.insert_comment(doc, text.as_str(), Place::Above)?;
        }
    }
    Ok(())
}

/// Moves a property to another object, unless one of its name is there, and its comments above it.
fn shift<A: Allocator + Copy>(doc: &mut CstRootNode<A>, of: &str, name: &str, to: &str) -> Done {
    if let Some(settings) = doc.object_value()
        && let Some(object) = settings.object_value(doc, of)?
        && let Some(property) = object.get(doc, name)?
        && let Some(value) = property.to_value(doc)?
        && let Some(target) = settings.object_value_or_create(doc, to)?
        && target.get(doc, name)?.is_none()
    {
        let comments = comments(doc, property)?;
        let moved = target.append(doc, name, value)?;
        for comment in &comments {
            copy(doc, *comment, moved)?;
        }
        remove(doc, of, name)?;
    }
    Ok(())
}

/// Brings settings to version 2.
pub(crate) fn migrate<A: Allocator + Copy>(doc: &mut CstRootNode<A>) -> Done {
    rename(doc, "colour", "theme")?;
    remove(doc, "editor", "ligatures")?;
    shift(doc, "editor", "fontSize", "terminal")?;
    if let Some(settings) = doc.object_value()
        && settings.get(doc, "version")?.is_none()
    {
        let version = CstInputValue::from_u32(*doc.allocator(), 2)?;
        settings.append(doc, "version", version)?;
    }
    Ok(())
}
