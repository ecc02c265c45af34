//! Arrays and objects whose elements are put in another order.
//!
//! What stands between the brackets is read in parts: each element, what belongs to it after it, and
//! what is between (`specs/Parts.antt`). What stands before an element stays in its place or goes with
//! it (`specs/Leads.antt`). The row in another order is a function of the row, of the order and of the
//! comments that are pinned (`specs/Sorting.antt`): which children stand where, and which commas and
//! ends of lines are inserted. Each node but whitespace, ends of lines and commas is there as often as
//! before, values stand in the order of the sort, and a sound document stays sound (`specs/Laws.antt`).
//!
//! [`rearrange`] reads the entries of a row by their places (`specs/Places.antt`), plans the row in another
//! order from its end on (`specs/Plans.antt`), and lets it take its place at once
//! (`specs/Rearranged.antt`), so an error leaves the document as it was.
//!
//! [`read_leads`] and [`comments_above`] tell what stands before each element, for rules of headers and groups
//! (`specs/Above.antt`); [`own_lead`] and [`tail_length`] how much of what stands before and after one belongs
//! to it.
//!
//! [`ordering`] puts the places of a row in order. What an order by groups and a second sort leave is said in [`groups`] and
//! [`again`].
#![tactic(auto)]

mod above;
pub mod again;
pub mod groups;
pub mod laws;
mod leads;
mod order;
pub mod ordering;
mod parts;
mod places;
mod plan;

pub use above::{LeadRead, comments_above, read_leads};
pub use leads::own_lead;
pub use order::rearrange;
pub use parts::tail_length;
