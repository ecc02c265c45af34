//! Faults of a text, and changes that mend them.
//!
//! [`recovery::Recovery`] reads a text with faults and proposes a change for each. What it proposes is not promised; it is
//! safe, and it ends. [`changes::make_changes`] makes changes that are in order, apart and on boundaries of characters, and
//! refuses others. [`places`] has the lines and columns of many places, by one walk over the text.
#![tactic(auto)]

mod ahead;
mod bare;
pub mod changes;
mod ends;
mod entries;
mod escape;
mod frame;
mod lexeme;
mod names;
pub mod places;
mod reading;
pub mod recovery;
mod steps;
mod strings;
mod tokens;
mod words;
