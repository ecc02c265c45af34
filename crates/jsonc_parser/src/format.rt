//! Formatting: a text with the same lexemes and comments in the same order, and with other blanks between them.
//!
//! [`format_text`] answers the formatted text. An editor that keeps its cursor takes the gaps that differ, by [`format_changes`], and by
//! lines and columns from [`crate::LineIndex::utf16_change`]; [`crate::Utf16Change::is_on_lines`] tells those of a selection.

pub use jsonc_changes::format_changes;
pub use jsonc_format::{Level, LineEnd, Style, format_text};
