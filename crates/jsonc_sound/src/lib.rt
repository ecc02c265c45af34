//! What edits stand on: when a document is sound, what a change makes of its text, value, leaves and
//! marks, and the laws of these definitions. There is no code here.
//!
//! - [`changes`]: where one value of a document is replaced by another (`specs/TreeChanges.antt`), one
//!   plain value does (`specs/Changes.antt`); a stretch of trivia that is replaced by another changes no
//!   value (`specs/TriviaChanges.antt`). A row is read by what stands last in each stretch of it
//!   (`specs/Rows.antt`).
//! - [`sound`]: soundness is three conditions, none of which asks for commas. Each node is what it is
//!   alone (`specs/Alone.antt`); each leaf ends before the next character that is printed
//!   (`specs/Adjacent.antt`); and each line comment ends with its line, in an array or object perhaps
//!   after whitespace (`jsonc_build`'s `specs/Lines.antt`, with laws in `specs/LooseLines.antt`).
//!   Together they are [soundness](sound::sound_trees) (`specs/SoundTrees.antt`): a parsed document has
//!   it, and a tree that has it prints a text of the grammar with its value. Only where two literals
//!   without quotes would meet does a change have to put a space between them (`specs/Spaces.antt`).
//! - [`marks`]: the marks are the literals (strings, numbers, words, `true`, `false` and `null`) and the
//!   comments, as they are written, in their order; of a line comment without the blanks that it ends
//!   with (`specs/Marks.antt`). A text has one list of them, and a sound document's tree those of the
//!   text that it prints. Where one stretch of leaves is replaced by another (`specs/MarkChanges.antt`),
//!   all marks outside of it stay.
//! - [`rows`]: what becomes of a row where an element is removed, with whitespace and comments directly
//!   before it, trivia directly after it, and one comma (`specs/Leaving.antt`); where a first value is
//!   inserted with the ends of lines that it needs (`specs/Coming.antt`); and where a property is replaced
//!   by another (`specs/Properties.antt`).
#![tactic(auto)]

pub mod changes;
pub mod marks;
pub mod rows;
pub mod sound;
