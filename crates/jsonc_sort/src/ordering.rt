//! Places of a row put in an order by what stands there.
//!
//! A row has a node at each place, or none that can be asked of. A comparison of two nodes reads what it
//! is lent, a document; so does a key of one node. The places come in groups, which keep their order, and
//! within a group by the comparison or by the keys, stably (`specs/ordering/Order.antt`). The order names the old
//! place of each.

mod groups;
mod keys;
mod order;
mod places;

pub use groups::group_starts;
pub use keys::{KeysError, keys_of, order_by_key};
pub use order::order_by;
