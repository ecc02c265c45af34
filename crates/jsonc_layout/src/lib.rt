//! Documents read and laid out by the numbers of their nodes.
//!
//! [`nodes`] tells who stands where in a tree, [`rows`] what stands in a list of nodes, and [`lines`] how lines are laid
//! out. [`building`] makes rows that are to be inserted. [`input`] has the values that edits write, [`from_input`] lays them out as nodes, and [`to_input`] takes the value of a node as one.
#![tactic(auto)]

pub mod building;
pub mod from_input;
pub mod input;
pub mod lines;
pub mod nodes;
pub mod rows;
pub mod to_input;
