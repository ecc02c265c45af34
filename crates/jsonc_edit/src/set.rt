//! Edits by the numbers of nodes that set values.
//!
//! [`set_root`] sets the document's value: another is replaced by it, or where none stands it is inserted
//! with the ends of lines that it needs (`specs/set/RootSet.antt`). [`clear_root`] takes all out of the document.
//! [`root_value_or_create`] and [`root_value_or_set`] answer the document's object or array, and set an
//! empty one where there is none (`specs/set/Kinds.antt`).
//!
//! [`replace_property`] replaces a property by one of another name and value (`specs/set/Giving.antt`), and
//! [`rename_property`] gives it another name (`specs/set/Names.antt`).
//! [`set_property_value`] sets the value of a property, and [`property_value_or_set`] answers its object
//! or array, and sets an empty one where there is none (`specs/set/PropertyValues.antt`). [`set_boolean`] lets a truth value become another in its place
//! (`specs/set/Booleans.antt`). An error leaves the document, and every node that was there, as it was.

mod booleans;
mod first;
pub mod laws;
mod names;
mod properties;
mod root;
mod shapes;
mod values;

pub use booleans::set_boolean;
pub use names::rename_property;
pub use properties::replace_property;
pub use root::{clear_root, set_root};
pub use shapes::{empty_value, has_shape, root_value_or_create, root_value_or_set};
pub use values::{property_value_or_set, set_property_value};
