//! Where the leaves of a document are in its text.

ghost use Rattle.std.specs.Prelude.{◌≡◌, IfOk, length};
ghost use Rattle.jsonc_tree.specs.Content.{text_of};
ghost use Rattle.jsonc_tree.specs.Stored.{content_of};
ghost use Rattle.jsonc_cst.specs.Document.{nodes_of};
ghost use Rattle.jsonc_ranges.specs.Edits.{AreEdits, AreLeafRanges};

use crate::changes::changes_between;
use jsonc_cst::cst::CstRootNode;
use jsonc_mends::TextChange;
use jsonc_text::common::Range;
use jsonc_tree::{Kind, Tree};
use std::alloc::{AllocError, Allocator};
use std::marker::Model;

/// Where each leaf of a document is in its text, noted before the document is edited.
#[derive(Drop)]
pub struct LeafRanges<A: Allocator> {
    ranges: Vec<Range, A>,
}

impl<A: Allocator> Model for LeafRanges<A> {
    ghost use Rattle.std.specs.Prelude.{List};
    ghost use Rattle.jsonc_text.specs.declared.common.Range.{Range};

    ghost Value = { List Range };

    ghost view = { λ l. l.ranges.items };
}

// How many bytes a node prints itself.
pub(crate) fn own_length<A: Allocator>(kind: &Kind<A>) -> usize
    ensures { result ≡ length (text_of (content_of kind.now)) }
{
    match kind {
        Kind::Root(_) | Kind::Object(_) | Kind::Array(_) | Kind::Property(_) => 0,
        Kind::Boolean(true) | Kind::Null => 4,
        Kind::Boolean(false) => 5,
        Kind::Token(c) => c.as_bytes().len(),
        Kind::Newline(end) => end.as_str().len(),
        Kind::String(s)
        | Kind::Word(s)
        | Kind::Number(s)
        | Kind::Whitespace(s)
        | Kind::Comment(s) => s.len(),
        Kind::StringPart(s)
        | Kind::WordPart(s)
        | Kind::NumberPart(s)
        | Kind::WhitespacePart(s)
        | Kind::CommentPart(s) => s.as_str().len(),
    }
}

// The range of each node of a tree, by their numbers.
fn ranges_in<A: Allocator, B: Allocator>(
    alloc: A,
    tree: &Tree<B>,
) -> Result<Vec<Range, A>, AllocError>
    ensures { IfOk result (λ v. AreLeafRanges tree.now.nodes v.items) }
{
    let mut ranges = Vec::from_elem(alloc, Range::new(0, 0), tree.len())?;
    let mut at: usize = 0;
    let mut next = Some(0);
    while let Some(n) = next {
        let end = at.saturating_add(own_length(tree.kind(n)));
        ranges[n] = Range::new(at, end);
        at = end;
        next = tree.next_in_order(0, n);
    }
    Ok(ranges)
}

impl<A: Allocator> LeafRanges<A> {
    /// Notes where each leaf of a document is in the text that it prints now.
    ///
    /// It takes 16 bytes for each node, and an error is an allocation failure.
    pub fn of<B: Allocator>(alloc: A, doc: &CstRootNode<B>) -> Result<LeafRanges<A>, AllocError>
        ensures { IfOk result (AreLeafRanges (nodes_of doc.now)) }
    {
        let ranges = ranges_in(alloc, doc.tree())?;
        Ok(LeafRanges { ranges })
    }

    /// The edits of the document since then, as changes of the text, in order and apart.
    ///
    /// `old` is the text that the document printed then, and `new` the text that it prints now: with the changes made, the
    /// one is the other. A leaf that stands in the old text as it does now, in its order among these, lies in no change. Of leaves
    /// in another order those are written anew that were before one that is kept. Each change lies between two leaves that are
    /// kept, and its text is borrowed from `new`. An error is an allocation failure; the time is linear in the document and both
    /// texts.
    ///
    /// Where `b` and `d` are removed from `[a, b, c, d]`, there are two changes.
    pub fn changes<'n, B: Allocator, C: Allocator>(
        &self,
        alloc: C,
        doc: &CstRootNode<B>,
        old: &str,
        new: &'n str,
    ) -> Result<Vec<TextChange<'n>, C>, AllocError>
        ensures { IfOk result (λ v. AreEdits self.now (nodes_of doc.now) old.now v.items new.now) }
    {
        changes_between(alloc, self.ranges.as_slice(), doc.tree(), old, new)
    }
}
