//! The tests, and what they share.

mod copies;
mod edits;
mod entry_comments;
mod inputs;
mod inserted_comments;
mod large;
mod merge_texts;
mod merges;
mod named_values;
mod node_edits;
mod patch_texts;
mod patches;
mod pointers;
mod raw_edits;
mod reading;
mod refusals;
mod removed_parts;
mod root_edits;
mod trees;
mod typed;
mod typed_edits;
mod typed_lines;
mod unasked;
