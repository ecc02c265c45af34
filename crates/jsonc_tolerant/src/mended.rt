//! The document of a text's mends.
ghost use Rattle.std.specs.Bool.{Decides};
ghost use Rattle.std.specs.Prelude.{IfOk, IsUtf8, List, chars, ℕ};
ghost use Rattle.jsonc_text.specs.Options.{Options};
ghost use Rattle.jsonc_text.specs.OptionsOf.{parse_options};
ghost use Rattle.jsonc_sound.specs.Documents.{ShowsText};
ghost use Rattle.jsonc_sound.specs.Lines.{DocumentLinesEnd};
ghost use Rattle.jsonc_sound.specs.Shape.{DocumentShaped};
ghost use Rattle.jsonc_cst.specs.Document.{HasNode, LiesIn, tree_of};
ghost use Rattle.jsonc_cst.specs.Tree.{NodesAreTree};
ghost use Rattle.jsonc_mends.specs.Mends.{mended_text};
ghost use Rattle.jsonc_tolerant.specs.Mended.{IsInserted, IsMendedDocument};

use jsonc_cst::cst::{CstNode, CstRootNode};
use jsonc_mends::{Mends, mend};
use jsonc_text::errors::ParseErrorKind;
use jsonc_text::options::ParseOptions;
use std::alloc::{AllocError, Allocator};

/// The document of a text's mended text, and the mends that made it.
#[derive(Drop)]
pub struct MendedDocument<A: Allocator> {
    /// The document, which prints the mended text.
    pub document: CstRootNode<A>,
    /// The faults of the text, each with its change.
    pub mends: Mends<A>,
}

impl<A: Allocator> MendedDocument<A> {
    /// Whether the mends wrote a node: all bytes that it prints stand within what one change writes.
    ///
    /// A node that prints nothing was not written. Ask before the document is edited. The nodes before it are passed once;
    /// of many nodes, ask [`Mends::is_written`] of the ranges that the document's descendants have. Of `{"a": }` the value
    /// `null` of the document was written, and the property was not.
    pub fn is_inserted(&self, node: CstNode) -> bool
        requires { HasNode self.now.document node }
        ensures { (o : Options) (bytes : List ℕ) → IsUtf8 bytes → IsMendedDocument o bytes self.now
            → Decides result (IsInserted self.now node) }
    {
        match self.document.range(node) {
            Some(range) => self.mends.is_written(range),
            None => false,
        }
    }
}

/// The document of a text, with or without faults: that of the text with all its mends made.
///
/// It prints the mended text, and is what [`CstRootNode::parse`] makes of that. Of a text without a fault it is the
/// document of the text, and there are no mends. Each place of the document goes with one of the text
/// ([`Mends::text_place`]). An error is an allocation failure.
pub fn parse_mended<A: Allocator + Copy>(
    alloc: A,
    text: &str,
    options: &ParseOptions,
) -> Result<MendedDocument<A>, AllocError>
    ensures mended { IfOk result (IsMendedDocument (parse_options options.now) text.now) }
    ensures document { IfOk result
        (λ r. ShowsText (parse_options options.now) (chars (mended_text r.mends)) (tree_of r.document)) }
    ensures shaped { IfOk result (λ r. DocumentShaped (parse_options options.now) (tree_of r.document)) }
    ensures lines { IfOk result (λ r. DocumentLinesEnd (tree_of r.document)) }
    ensures laid { IfOk result
        (λ r. LiesIn (parse_options options.now) (mended_text r.mends) (tree_of r.document)) }
    ensures tree { IfOk result (λ r. NodesAreTree r.document) }
{
    let mends = mend(alloc, text, options)?;
    match CstRootNode::parse(alloc, mends.text(), options) {
        Ok(document) => Ok(MendedDocument { document, mends }),
        Err(error) => match error.kind() {
            ParseErrorKind::OutOfMemory => Err(AllocError),
            // The mended text is a document.
            _ => unreachable!(),
        },
    }
}
