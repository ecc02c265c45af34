//! Comments that are put above an entry or after it, or refused.

ghost use Rattle.std.specs.Prelude.{◌≡◌, ◌<◌, IfErr, OnErr, OnOk, length};
ghost use Rattle.jsonc_text.specs.Options.{Options};
ghost use Rattle.jsonc_tree.specs.Building.{Keeps};
ghost use Rattle.jsonc_tree.specs.Content.{Content};
ghost use Rattle.jsonc_tree.specs.OrderedTree.{ordered_tree};
ghost use Rattle.jsonc_sound.specs.Lines.{is_line_comment};
ghost use Rattle.jsonc_edit.specs.commenting.Inserting.{holds_entries, is_entry_at, runs_on, Comes};
ghost use Rattle.jsonc_edit.specs.commenting.Inserting.{InsertsAmong, InsertsComment, IsRefusedFor, MayCome};
ghost use Rattle.jsonc_edit.specs.commenting.Whole.{is_line};

use super::above::insert_comment_above;
use super::behind::{insert_comment_behind, may_end_line};
use super::whole::{CommentKind, comment_kind};
use jsonc_layout::lines::is_array_or_object;
use jsonc_layout::nodes::is_element;
use jsonc_text::edit::{EditError, Place};
use jsonc_tree::Tree;
use std::alloc::{AllocError, Allocator};

// Whether a node is the root, an array or an object.
fn holds_entries<A: Allocator>(tree: &Tree<A>, container: Option<usize>) -> bool
    ensures { result ≡ holds_entries tree.now.nodes container }
{
    match container {
        Some(container) if container < tree.len() => {
            container == 0 || is_array_or_object(tree.kind(container))
        }
        _ => false,
    }
}

/// Whether a node is an element or a property of an array or object, or the document's value.
pub fn is_entry<A: Allocator>(tree: &Tree<A>, node: usize) -> bool
    requires in_tree { node < length tree.now.nodes }
    ensures entry { result ≡ is_entry_at tree.now.nodes node }
{
    is_element(tree, node) && holds_entries(tree, tree.parent(node))
}

// Whether the rest of a line would be read into a comment.
fn runs_on<A: Allocator>(
    tree: &Tree<A>,
    node: usize,
    text: &str,
    kind: CommentKind,
    place: Place,
) -> bool
    requires in_tree { node < length tree.now.nodes }
    requires kind { is_line kind ≡ is_line_comment (Content.comment text.now) }
    ensures { result ≡ runs_on place tree.now.nodes node text.now }
{
    match (place, kind) {
        (Place::After, CommentKind::Line) => !may_end_line(tree, node),
        _ => false,
    }
}

// Puts a comment to its place.
fn put<A: Allocator + Copy>(
    alloc: A,
    tree: &mut Tree<A>,
    node: usize,
    text: &str,
    place: Place,
) -> Result<(), AllocError>
    requires in_tree { node < length tree.old.nodes }
    ensures come { OnOk result (Comes place tree.old.nodes tree.new.nodes node text.now) }
    ensures kept { OnErr result (Keeps (length tree.old.nodes) tree.old.nodes tree.new.nodes) }
    ensures document { OnErr result (ordered_tree tree.new.nodes 0 ≡ ordered_tree tree.old.nodes 0) }
{
    match place {
        Place::Above => insert_comment_above(alloc, tree, node, text),
        Place::After => insert_comment_behind(alloc, tree, node, text),
    }
}

/// Puts a comment above an entry, on a line of its own, or after it on its line.
///
/// The text is one whole comment, from `//` without a line's end or from `/*` to the first `*/`. Of a
/// sound document whose options allow comments the text is a document again, of the same value, and of
/// its literals and comments this one alone has come. [`insert_comment_above`] and
/// [`insert_comment_behind`] say where it stands. An error leaves the document, and every node that
/// was there, as it was.
pub fn insert_comment<A: Allocator + Copy>(
    alloc: A,
    tree: &mut Tree<A>,
    node: usize,
    text: &str,
    place: Place,
) -> Result<(), EditError>
    requires in_tree { node < length tree.old.nodes }
    ensures come { OnOk result (Comes place tree.old.nodes tree.new.nodes node text.now) }
    ensures may { OnOk result (MayCome place tree.old.nodes node text.now) }
    ensures written { (o : Options) → OnOk result (InsertsComment o tree.old.nodes tree.new.nodes node text.now) }
    ensures among { OnOk result (InsertsAmong place tree.old.nodes tree.new.nodes node text.now) }
    ensures error { IfErr result (IsRefusedFor place tree.old.nodes node text.now) }
    ensures kept { OnErr result (Keeps (length tree.old.nodes) tree.old.nodes tree.new.nodes) }
    ensures document { OnErr result (ordered_tree tree.new.nodes 0 ≡ ordered_tree tree.old.nodes 0) }
{
    let Some(kind) = comment_kind(text) else {
        return Err(EditError::InvalidComment);
    };
    if !is_entry(tree, node) {
        return Err(EditError::NotAnEntry);
    }
    if runs_on(tree, node, text, kind, place) {
        return Err(EditError::LineContinues);
    }
    match put(alloc, tree, node, text, place) {
        Ok(()) => Ok(()),
        Err(_) => Err(EditError::OutOfMemory),
    }
}
