//! The parser and editor as a static library for C and Rust.
//!
//! Each call takes whole texts as bytes, and keeps nothing when it returns. It answers a status, 0 for success
//! (`fault`), and writes what else it has to say behind the pointers that it is given. A text or path that it makes is one
//! block of the C library's `malloc`, which the caller frees with `free`; an empty one is no block. No call asks
//! anything of its arguments beyond their types, since nothing checks a caller in C.
//!
//! `include/jsonc.h` and `rust/jsonc` declare the calls; `bench/declare-calls` makes both from these sources.
#![tactic(auto)]

mod asked;
mod check;
mod commands;
mod compare;
mod edits;
mod fault;
mod format;
mod handed;
mod into;
mod json;
mod lists;
mod mends;
mod options;
mod patch_fault;
mod patches;
mod pointed;
mod read;

pub use check::jsonc_check;
pub use commands::{
    jsonc_append, jsonc_drop, jsonc_get, jsonc_print, jsonc_put, jsonc_remove, jsonc_set,
    jsonc_sort,
};
pub use edits::JsoncEdit;
pub use fault::JsoncFault;
pub use format::{JsoncStyle, jsonc_format};
pub use into::{
    jsonc_append_into, jsonc_apply_patch_into, jsonc_drop_into, jsonc_edit_into, jsonc_find_into,
    jsonc_format_into, jsonc_get_into, jsonc_merge_patch_into, jsonc_print_into, jsonc_put_into,
    jsonc_remove_into, jsonc_set_into, jsonc_sort_into,
};
pub use json::jsonc_to_json;
pub use lists::jsonc_edit;
pub use mends::{JsoncMend, jsonc_mend};
pub use patches::{jsonc_apply_patch, jsonc_find, jsonc_merge_patch};
pub use pointed::{jsonc_find_string, jsonc_path_of, jsonc_remove_with_comments};

#[cfg(test)]
mod tests;
