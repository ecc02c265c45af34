//! Patches made on a document whose text is to have at most so many bytes.

ghost use Rattle.std.specs.Prelude.{◌≡◌, ◌<◌, ◌≤◌, ◌+◌, length, IfErr, IfNone, IfOk, IfSome, OnErr, OnOk};
ghost use Rattle.std.specs.Bool.{Decides};
ghost use Rattle.jsonc_tree.specs.Content.{text_of};
ghost use Rattle.jsonc_tree.specs.Stored.{content_of};
ghost use Rattle.jsonc_cst.specs.Document.{nodes_of, printed_of};
ghost use Rattle.jsonc_parser.specs.patch.Applied.{IsKept, PatchesWhatShown};
ghost use Rattle.jsonc_parser.specs.patch.Patches.{operations_in};
ghost use Rattle.jsonc_parser.specs.patch.Room.{bytes_of_all, bytes_of_first, HasRoom};
ghost use Rattle.jsonc_parser.specs.patch.Within.{FailsWithin, LeadsTo, StaysWithin, StopsWithin};

use super::apply::PatchFault;
use super::making::{PatchCause, make};
use super::operation::Operation;
use super::reading::Patch;
use jsonc_cst::cst::{CstRootNode, EditError, TypedNode};
use jsonc_tree::{Kind, Tree};
use std::alloc::Allocator;

impl<A: Allocator + Copy> Patch<A> {
    /// Makes the operations as [`Patch::apply`], each only where the document's text has at most so many bytes after it.
    ///
    /// An operation after which it has more is a fault, [`PatchCause::TooLarge`]. A patch of a few lines that copies the
    /// document into itself doubles it with each operation; where a patch is not trusted, this bounds what it makes.
    ///
    /// All operations are made on a copy of the document's nodes, which shares its text. The bytes of all nodes are counted
    /// once, and after each operation those of the nodes that it made. Only where all nodes together, those that were
    /// removed too, have more bytes than are allowed is the document's text counted after an operation.
    pub fn apply_within(&self, doc: &mut CstRootNode<A>, bytes: usize) -> Result<(), PatchFault<A>>
        ensures patched { OnOk result (PatchesWhatShown doc.old (operations_in self.now) doc.new) }
        ensures within { OnOk result (StaysWithin bytes doc.old (operations_in self.now) doc.new) }
        ensures kept { OnErr result (IsKept doc.old doc.new) }
        ensures stops { IfErr result (StopsWithin bytes doc.old (operations_in self.now)) }
    {
        let operations = self.operations();
        if operations.is_empty() {
            return Ok(());
        }
        make_on_copy(doc, operations, bytes)
    }
}

// Whether a document's text has at most so many bytes.
fn is_within<A: Allocator>(doc: &CstRootNode<A>, bytes: usize) -> bool
    ensures { Decides result (length (printed_of doc.now) ≤ bytes) }
{
    let Some(range) = doc.range(doc.root().node()) else {
        return false;
    };
    if range.end > bytes {
        return false;
    }
    true
}

// How many bytes a node prints itself.
fn own_bytes<A: Allocator>(kind: &Kind<A>) -> usize
    ensures { result ≡ length (text_of (content_of kind.now)) }
{
    match kind {
        Kind::Root(_) | Kind::Object(_) | Kind::Array(_) | Kind::Property(_) => 0,
        Kind::String(s)
        | Kind::Word(s)
        | Kind::Number(s)
        | Kind::Whitespace(s)
        | Kind::Comment(s) => s.as_str().len(),
        Kind::StringPart(s)
        | Kind::WordPart(s)
        | Kind::NumberPart(s)
        | Kind::WhitespacePart(s)
        | Kind::CommentPart(s) => s.as_str().len(),
        Kind::Boolean(true) | Kind::Null => 4,
        Kind::Boolean(false) => 5,
        Kind::Token(c) => c.as_bytes().len(),
        Kind::Newline(kind) => kind.as_str().len(),
    }
}

// How many of so many bytes are left after those of the nodes from a number on.
fn left_after<A: Allocator>(tree: &Tree<A>, first: usize, bytes: usize) -> Option<usize>
    requires { first ≤ length tree.now.nodes }
    ensures left { IfSome result (λ left. bytes_of_all tree.now.nodes + left ≡ bytes_of_first first tree.now.nodes + bytes) }
    ensures none { IfNone result (bytes_of_first first tree.now.nodes + bytes < bytes_of_all tree.now.nodes) }
{
    let mut left = bytes;
    for node in first..tree.len() {
        let own = own_bytes(tree.kind(node));
        if own > left {
            return None;
        }
        left -= own;
    }
    Some(left)
}

// Makes one operation, after which the document's text is to have at most so many bytes. The answer is how many may be
// added then, if that is known.
fn make_within<A: Allocator + Copy>(
    doc: &mut CstRootNode<A>,
    operation: &Operation<A>,
    bytes: usize,
    room: Option<usize>,
) -> Result<Option<usize>, PatchCause<A>>
    requires { HasRoom bytes (nodes_of doc.old) room }
    ensures made { OnOk result (LeadsTo doc.old operation.now doc.new) }
    ensures within { OnOk result (length (printed_of doc.new) ≤ bytes) }
    ensures room { IfOk result (HasRoom bytes (nodes_of doc.new)) }
    ensures fails { IfErr result (FailsWithin bytes doc.old operation.now) }
{
    let first = doc.tree().len();
    match make(doc, operation) {
        Ok(()) => {}
        Err(cause) => return Err(cause),
    }
    if let Some(room) = room {
        if let Some(left) = left_after(doc.tree(), first, room) {
            return Ok(Some(left));
        }
    }
    if !is_within(doc, bytes) {
        return Err(PatchCause::TooLarge);
    }
    Ok(None)
}

// Makes operations in order.
fn make_all<A: Allocator + Copy>(
    doc: &mut CstRootNode<A>,
    operations: &[Operation<A>],
    bytes: usize,
) -> Result<(), PatchFault<A>>
    ensures within { OnOk result (StaysWithin bytes doc.old operations.now doc.new) }
    ensures stops { IfErr result (StopsWithin bytes doc.old operations.now) }
{
    let mut room = left_after(doc.tree(), 0, bytes);
    for (number, operation) in operations.iter().enumerate() {
        match make_within(doc, operation, bytes, room) {
            Ok(left) => room = left,
            Err(cause) => {
                return Err(PatchFault {
                    operation: number,
                    cause,
                });
            }
        }
    }
    Ok(())
}

// Makes operations in order on a copy, which takes the place of the document.
fn make_on_copy<A: Allocator + Copy>(
    doc: &mut CstRootNode<A>,
    operations: &[Operation<A>],
    bytes: usize,
) -> Result<(), PatchFault<A>>
    requires { 0 < length operations.now }
    ensures patched { OnOk result (PatchesWhatShown doc.old operations.now doc.new) }
    ensures within { OnOk result (StaysWithin bytes doc.old operations.now doc.new) }
    ensures kept { OnErr result (IsKept doc.old doc.new) }
    ensures stops { IfErr result (StopsWithin bytes doc.old operations.now) }
{
    let Ok(mut copy) = doc.try_clone() else {
        return Err(PatchFault {
            operation: 0,
            cause: PatchCause::Edit(EditError::OutOfMemory),
        });
    };
    match make_all(&mut copy, operations, bytes) {
        Ok(()) => {}
        Err(fault) => return Err(fault),
    }
    *doc = copy;
    Ok(())
}
