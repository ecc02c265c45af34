//! Strings in their quotes, and what they stand for.
//!
//! What they are is defined in `jsonc_text`, whose names the contracts of this crate use.

pub mod decode;
pub mod escape;
pub mod laws;
pub mod pass;
mod plain;
pub mod provider;
pub mod stops;
