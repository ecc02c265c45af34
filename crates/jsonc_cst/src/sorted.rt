//! What a second sort of a typed array or object does: laws, no code.
//!
//! A second sort without groups, by a comparison that answers by what the elements are, as their texts determine,
//! or by keys that are in such an order, changes no byte, whatever comments are pinned
//! (`specs/sorted/Again.antt` of `jsonc_cst::sorting`, whose `by` and `by_key` say so of what they make).

pub mod laws;
