//! The typed tree of a document: its root, which owns it, and typed numbers of its nodes.
//!
//! A call is a short body over the readings of `jsonc_layout::nodes` and `jsonc_layout::lines`, and says with
//! their words what it answers, of a node of its kind.
//!
//! [`typed`] and [`objects`] have the edits of typed nodes, and [`sorting`] their sorts; [`sorted`] says what a second sort
//! changes.
#![tactic(auto)]

pub mod cst;
pub mod laws;
pub mod objects;
pub mod sorted;
pub mod sorting;
pub mod typed;
