//! Every fault of a text, each with a small change, and the document that all changes make.
//!
//! [`mend`] answers the faults of a text with their changes. [`parse_mended`] reads the changed text into a document, and
//! knows which of its nodes the changes wrote.

pub use jsonc_mends::{Fault, Mend, Mends, mend};
pub use jsonc_tolerant::{MendedDocument, parse_mended};
