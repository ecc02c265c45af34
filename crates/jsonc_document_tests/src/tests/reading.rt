//! Documents, read from their texts, and their nodes.
ghost use Rattle.std.specs.Prelude.{IfSome};
ghost use Rattle.jsonc_cst.specs.Document.{HasNode};

use failing_alloc::Refusing;
use failing_alloc::outcome::Outcome;
use jsonc_parser::ParseOptions;
use jsonc_parser::cst::{CstNode, CstRootNode, ParentNode};
use std::alloc::{Allocator, Global};
use std::default::Default;

/// A text, read with all options on.
pub fn read<A: Allocator + Copy>(alloc: A, text: &str) -> Result<CstRootNode<A>, Outcome> {
    match CstRootNode::parse(alloc, text, &ParseOptions::default()) {
        Ok(doc) => Ok(doc),
        Err(error) => Err(Outcome::from(error)),
    }
}

/// How many requests a text makes.
pub fn asked_by(alloc: Global, text: &str) -> u64 {
    let heap = Refusing::at(alloc, u64::MAX);
    drop(read(&heap, text));
    heap.asked()
}

/// A text that is read, and a word that an edit of it writes.
pub fn prepared<A: Allocator + Copy>(
    alloc: A,
    text: &str,
    word: &str,
) -> Result<(CstRootNode<A>, String<A>), Outcome> {
    let word = String::from_str(alloc, word)?;
    let doc = read(alloc, text)?;
    Ok((doc, word))
}

/// The child of the document's value at a place.
pub fn child_at<A: Allocator>(doc: &CstRootNode<A>, place: usize) -> Option<CstNode>
    ensures { IfSome result (HasNode doc.now) }
{
    let value = doc.value()?;
    value.child_at_index(doc, place)
}
