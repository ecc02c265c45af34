//! What sorts keep of groups, and what a second sort does, by the numbers of nodes: laws, no code.
//!
//! Where blank lines part the elements, each stretch of them keeps its places (`specs/again/Parted.antt`). After a
//! sort the elements, read anew, are the old ones in the order, each with what is below it; so a second sort
//! without groups, by the same order of what the elements are, as their texts tell, changes no node, whatever
//! comments are pinned (`specs/again/Again.antt`).

pub mod laws;
