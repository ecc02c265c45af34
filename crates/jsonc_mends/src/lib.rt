//! Every fault of a text, each with a small change, and the document that all of them make.
//!
//! [`mend`] reads the text by the checker of documents, proposes changes by `jsonc_mend`, of which nothing is relied on, and
//! reads the changed text by the checker again.
#![tactic(auto)]

pub mod laws;
mod mends;
mod places;
mod told;

pub use jsonc_mend::changes::Fault;
pub use mends::{Mends, TextChange, mend};
pub use told::Mend;
