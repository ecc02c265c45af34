//! What orders of places keep of groups, and orders of places that have come in them: laws, no code.
//!
//! Where an order goes by groups first, each group keeps its places (`specs/groups/Groups.antt`). Places that have
//! come in an order already are named by it at themselves (`specs/groups/Again.antt`).

pub mod laws;
