//! A file of the system, which `jsonc_files` replaces: each step of `Folder` by a call of `std::fs`.
#![tactic(auto)]

mod host;

pub use host::HostFolder;
