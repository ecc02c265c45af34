//! An edit, as C lists it.

/// An edit: the number of its kind, and of the rest what that kind asks for.
#[repr(C)]
#[derive(Clone, Copy)]
pub struct JsoncEdit<'a> {
    /// The number of its kind.
    pub kind: u32,
    /// The steps of its path, each a place among elements or properties, from 0.
    pub path: &'a [usize],
    /// A name, or the text of a comment.
    pub name: &'a [u8],
    /// A value, as a JSON text.
    pub json: &'a [u8],
    /// The place to insert at, or the number of the comment.
    pub index: usize,
    /// An array and no object; the truth value; no trailing commas; to pin comments; or after an entry and not above it.
    pub first: bool,
    /// To replace a value of another kind; or to sort within groups.
    pub second: bool,
}

/// Replaces the value at the path.
pub(crate) const REPLACE: u32 = 0;

/// Removes the element or property at the path, or the document's value.
pub(crate) const REMOVE: u32 = 1;

/// Removes the comment of the number in `index`.
pub(crate) const REMOVE_COMMENT: u32 = 2;

/// Sets the document's value.
pub(crate) const SET_ROOT: u32 = 3;

/// Removes all that the document has.
pub(crate) const CLEAR_ROOT: u32 = 4;

/// Replaces the property at the path by one of a name and value.
pub(crate) const REPLACE_PROPERTY: u32 = 5;

/// Sees that the document has an object, or an array if `first`.
pub(crate) const ENSURE_ROOT: u32 = 6;

/// Sets the value of the property at the path.
pub(crate) const SET_VALUE: u32 = 7;

/// Sees that the property at the path has an object, or an array if `first`.
pub(crate) const ENSURE_VALUE: u32 = 8;

/// Sets the truth value at the path to `first`.
pub(crate) const SET_BOOLEAN: u32 = 9;

/// Puts the array or object at the path on several lines.
pub(crate) const ENSURE_MULTILINE: u32 = 10;

/// Inserts a value into the array at the path, at `index`.
pub(crate) const INSERT_ELEMENT: u32 = 11;

/// Appends a value to the array at the path.
pub(crate) const APPEND_ELEMENT: u32 = 12;

/// Inserts a property into the object at the path, at `index`.
pub(crate) const INSERT_PROPERTY: u32 = 13;

/// Appends a property to the object at the path.
pub(crate) const APPEND_PROPERTY: u32 = 14;

/// Sees that the object at the path has an object at the name, or an array if `first`.
pub(crate) const ENSURE_PROPERTY: u32 = 15;

/// Sets trailing commas from the path down, or removes them if `first`.
pub(crate) const SET_TRAILING_COMMAS: u32 = 16;

/// Sorts the array or object at the path.
pub(crate) const SORT: u32 = 17;

/// Gives the property at the path another name.
pub(crate) const RENAME_PROPERTY: u32 = 18;

/// Inserts the comment in `name` above the element or property at the path, or after it if `first`.
pub(crate) const INSERT_COMMENT: u32 = 19;
