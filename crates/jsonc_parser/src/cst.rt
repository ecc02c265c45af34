//! The document: the tree of a text, which has every byte of it, and its edits.
//!
//! A [`CstRootNode`] owns its nodes and names each by a number. A caller holds a [`CstNode`], or a
//! node of one kind as [`CstObject`]: a number that says what it is the number of, and can be copied.
//! It is asked together with its document, and [`CstRootNode::holds`] answers whether that has it; all
//! nodes that a call answers are nodes of the document that was asked.
//!
//! Edits are methods of the document and of its nodes. `set_value`, `clear_children`, `object_value_or_set` and
//! its kin of a document set its value; of a property they set the property's, and of an object that of the first
//! property of a name. `append` and `insert` put a value into an array, and a property into an object;
//! `replace_with` replaces a node, `remove` removes one, and `insert_comment` inserts a comment above an entry or
//! after it; `ensure_multiline` puts an array or object on several lines, `set_trailing_commas` sets or removes
//! trailing commas, and `sort_elements` and `sort_properties` sort. `set_raw_value` and its kin write the text of one
//! leaf, which is not checked.
//! [`run`] makes a list of edits, each at its path, and [`edit_text`] does so of a text.

mod lists;
mod texts;

pub use jsonc_cst::cst::{
    AncestorIterator, CstArray, CstBooleanLit, CstComment, CstContainerNode, CstInputValue,
    CstLeafNode, CstNewline, CstNewlineKind, CstNode, CstNullKeyword, CstNumberLit, CstObject,
    CstObjectProp, CstRoot, CstRootNode, CstStringLit, CstToken, CstWhitespace, CstWordLit,
    DescendantIterator, EditError, NextSiblingIterator, ObjectPropName, ParentNode, Pieces,
    PlacedDescendantIterator, PreviousSiblingIterator, RangedDescendantIterator, Shown,
    TrailingCommaMode, TypedNode, input,
};
pub use jsonc_cst::sorting::{
    BlankLineHeaders, ElementSort, HeaderRule, HeadersBy, KeptHeaders, NoHeaders, PropertySort,
};
pub use jsonc_cst::typed::DocumentArg;
pub use jsonc_ranges::LeafRanges;
pub use jsonc_run::{Edit, Over, Place, Shape};
pub use lists::{run, run_unsorted};
pub use texts::{EditTextError, edit_text};
