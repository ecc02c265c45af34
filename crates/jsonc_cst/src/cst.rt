//! The document: the tree of a text, which keeps every byte of it.
//!
//! A [`CstRootNode`] owns its nodes and names each by a number. A caller holds a [`CstNode`], or a
//! node of one kind as [`CstObject`]: a number that says what it is the number of, and can be copied.
//! It is asked together with its document, and [`CstRootNode::holds`] answers whether that has it; all
//! nodes that a call answers are nodes of the document that was asked.
ghost use Rattle.std.specs.List.{concat};
ghost use Rattle.std.specs.Prelude.{◌≡◌, length, IfErr, IfOk, OnOk, Option, Some, true, chars, string_bytes};
ghost use Rattle.jsonc_text.specs.Faults.{IsFault};
ghost use Rattle.jsonc_text.specs.Grammar.{IsDocument};
ghost use Rattle.jsonc_text.specs.OptionsOf.{parse_options};
ghost use Rattle.jsonc_text.specs.Plain.{Plain};
ghost use Rattle.jsonc_tree.specs.OrderedTree.{leaves, pieces};
ghost use Rattle.jsonc_tree.specs.Values.{DocumentValueOf};
ghost use Rattle.jsonc_walk.specs.Refusals.{RefusesText};
ghost use Rattle.jsonc_walk.specs.Faults.{ParseFault};
ghost use Rattle.jsonc_sound.specs.Lines.{DocumentLinesEnd};
ghost use Rattle.jsonc_sound.specs.Shape.{DocumentShaped};
ghost use Rattle.jsonc_sound.specs.Documents.{ShowsText};
ghost use Rattle.jsonc_cst.specs.Document.{allocator_of, nodes_of, printed_of, tree_of, HasNoDeeperValue, LiesIn};
ghost use Rattle.jsonc_cst.specs.Tree.{NodesAreTree};

mod access;
mod comments;
mod descendants;
mod elements;
pub mod input;
mod into;
mod layout;
mod leaf;
mod names;
mod navigation;
mod node;
mod paths;
mod ranges;
mod repeats;
mod root;
mod siblings;
mod values;

pub use access::{AncestorIterator, node_at};
pub use descendants::{DescendantIterator, PlacedDescendantIterator, RangedDescendantIterator};
pub use input::CstInputValue;
use jsonc_build::parse_tree;
pub use jsonc_edit::{EditError, TrailingCommaMode};
use jsonc_text::errors::ParseError;
use jsonc_text::options::ParseOptions;
use jsonc_tree::Tree;
pub use jsonc_tree::{CstNewlineKind, Pieces, Shown};
pub use navigation::{ParentNode, TypedNode};
pub use node::{
    CstArray, CstBooleanLit, CstComment, CstContainerNode, CstLeafNode, CstNewline, CstNode,
    CstNullKeyword, CstNumberLit, CstObject, CstObjectProp, CstRoot, CstStringLit, CstToken,
    CstWhitespace, CstWordLit, ObjectPropName,
};
pub use siblings::{NextSiblingIterator, PreviousSiblingIterator};
use std::alloc::{AllocError, Allocator};
use std::fmt;

/// A document, which keeps every byte of its text, comments and blanks too.
#[derive(Drop)]
pub struct CstRootNode<A: Allocator> {
    pub(crate) tree: Tree<A>,
    pub(crate) alloc: A,
}

impl<A: Allocator + Copy> CstRootNode<A> {
    /// Parses a text into a document that keeps every byte.
    ///
    /// The document prints as the text was written. Its nodes follow one another as the grammar
    /// says: strings, numbers, words, commas, colons, brackets and comments are leaves of their
    /// own, and so are line ends, a CR LF as one, and runs of blanks. A value that more than 512
    /// containers and properties are around is an error. The error says what is wrong with the
    /// text, in which of its bytes, and in which line and column; an allocation failure is an error
    /// too.
    ///
    /// The document is sound, and shows the text with its value and its literals and comments. Each
    /// structured edit says what it makes of a document that shows a text, so edits may begin here.
    pub fn parse(alloc: A, text: &str, options: &ParseOptions) -> Result<CstRootNode<A>, ParseError>
        ensures printed { IfOk result (λ d. printed_of d ≡ text.now) }
        ensures shaped { IfOk result (λ d. DocumentShaped (parse_options options.now) (tree_of d)) }
        ensures lines { IfOk result (λ d. DocumentLinesEnd (tree_of d)) }
        ensures laid { IfOk result (λ d. LiesIn (parse_options options.now) text.now (tree_of d)) }
        ensures within { OnOk result (HasNoDeeperValue (parse_options options.now) text.now) }
        ensures value { IfOk result (λ d. (w : Option Plain)
            × IsDocument (parse_options options.now) (chars text.now) w
            × DocumentValueOf (parse_options options.now) (tree_of d) w) }
        ensures document { IfOk result
            (λ d. ShowsText (parse_options options.now) (chars text.now) (tree_of d)) }
        ensures tree { IfOk result NodesAreTree }
        ensures refused { IfErr result (RefusesText (parse_options options.now) text.now) }
        ensures fault { IfErr result (IsFault text.now) }
        ensures error { IfErr result (ParseFault (parse_options options.now) text.now true) }
    {
        let tree = parse_tree(alloc, text, options)?;
        Ok(CstRootNode { tree, alloc })
    }

    /// The document's text.
    pub fn text(&self) -> Result<String<A>, EditError>
        ensures printed { IfOk result (λ s. string_bytes s ≡ printed_of self.now) }
        ensures memory { IfErr result (λ e. e ≡ EditError.OutOfMemory) }
    {
        let Ok(text) = self.tree.text(self.alloc) else {
            return Err(EditError::OutOfMemory);
        };
        Ok(text)
    }

    /// A copy of the document, with the same nodes under the same numbers.
    ///
    /// An edit of the one does not change the other. What was parsed shares its text with the copy.
    pub fn try_clone(&self) -> Result<CstRootNode<A>, AllocError>
        ensures nodes { IfOk result (λ d. nodes_of d ≡ nodes_of self.now) }
        ensures allocator { IfOk result (λ d. allocator_of d ≡ allocator_of self.now) }
    {
        let tree = self.tree.try_clone()?;
        Ok(CstRootNode {
            tree,
            alloc: self.alloc,
        })
    }
}

impl<A: Allocator> CstRootNode<A> {
    /// An iterator over the bytes that each leaf prints, in order.
    ///
    /// A leaf that prints nothing has an empty piece. The bytes are borrowed, and nothing is allocated.
    pub fn pieces(&self) -> Pieces<'_, A>
        ensures pieces { result ≡ pieces (tree_of self.now) }
        ensures joined { concat result ≡ printed_of self.now }
        ensures count { length result ≡ length (leaves (tree_of self.now)) }
    {
        self.tree.pieces()
    }
}

/// Writes the document as its text.
impl<A: Allocator> fmt::Display for CstRootNode<A> {
    ghost output = { λ d. Some (printed_of d) };

    ghost styled_output = { λ d _. Some (printed_of d) };

    fn fmt<W: fmt::Write>(&self, f: &mut fmt::Formatter<W>) -> fmt::Result {
        self.tree.fmt(f)
    }
}

/// Writes `CstRootNode(`, the document's text as it is, and `)`.
impl<A: Allocator> fmt::Debug for CstRootNode<A> {
    fn fmt<W: fmt::Write>(&self, f: &mut fmt::Formatter<W>) -> fmt::Result {
        f.write_str("CstRootNode(")?;
        fmt::Display::fmt(&self.tree, f)?;
        f.write_str(")")
    }
}
