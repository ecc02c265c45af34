//! Settings: values at a path of names, each of which leads from an object to the value of its first
//! property of that name.
//!
//! [`find_at`] finds the node of what is there and [`read_at`] takes its value; [`set_at`] puts a value
//! there and [`remove_at`] removes what is there, by one edit of [`cst::Edit`](crate::cst::Edit) each, or
//! none. [`set_last_at`] puts a value where readers find it that take of equal names the last.

pub use crate::paths::{find_at, read_at, remove_at, set_at, set_last_at};
