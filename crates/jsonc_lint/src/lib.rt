//! A linter of JSONC texts.
//!
//! [`lint`] finds the fault of a text that is no document; or in its document each name that an earlier property
//! of the same object has, each comment that says `TODO` and, where the [`Rules`] ask for it, each trailing comma.
//! [`lint_all`] finds all faults of a text, and then the same in the document that small changes make of it.
#![tactic(auto)]

mod faults;
mod finding;
mod lines;
mod linting;
mod names;
mod nodes;
mod rules;
mod whole;

pub use faults::{mend_finding, mend_findings};
pub use finding::{Finding, FindingKind, Findings, FirstProperty};
pub use lines::{json_array, shown_name};
pub use linting::{fault_finding, lint};
pub use rules::Rules;
pub use whole::lint_all;
