//! Truth values that become others.

ghost use Rattle.std.specs.Prelude.{◌≡◌, ◌<◌, IfErr, IsCharBoundary, OnErr, OnOk, Some, chars, length, true};
ghost use Rattle.jsonc_text.specs.Numbers.{is_x};
ghost use Rattle.jsonc_text.specs.Text.{next, rest, starts};
ghost use Rattle.jsonc_tree.specs.Building.{Keeps};
ghost use Rattle.jsonc_tree.specs.OrderedTree.{ordered_tree};
ghost use Rattle.jsonc_tree.specs.Stored.{content_of};
ghost use Rattle.jsonc_tree.specs.Tree.{content_at};
ghost use Rattle.jsonc_layout.specs.nodes.Siblings.{IsThere};
ghost use Rattle.jsonc_sound.specs.Booleans.{begins_hex, is_hexadecimal, is_hex_leaf};
ghost use Rattle.jsonc_edit.specs.set.Booleans.{space_needed_for, is_boolean, is_hex_at, BooleanSet, WantsSpaceFor};

use crate::{EditError, make_spaces, put_spaces, seen_before};
use jsonc_text::chars::has_byte;
use jsonc_tree::{Kind, Tree};
use std::alloc::Allocator;

// Whether an `x` or `X` stands at a place of a text.
fn has_x(text: &str, place: usize) -> bool
    requires { IsCharBoundary text.now place }
    ensures { result ≡ starts is_x (next (rest text.now place)) }
{
    if has_byte(text, place, b'x') {
        return true;
    }
    has_byte(text, place, b'X')
}

// Whether `0x` or `0X` does.
fn has_hex_mark(text: &str, place: usize) -> bool
    requires { IsCharBoundary text.now place }
    ensures { result ≡ begins_hex (rest text.now place) }
{
    if !has_byte(text, place, b'0') {
        return false;
    }
    has_x(text, place + 1)
}

// The place after the sign of a text, or its start.
fn behind_sign(text: &str) -> usize
    ensures boundary { IsCharBoundary text.now result }
    ensures hex { is_hexadecimal (chars text.now) ≡ begins_hex (rest text.now result) }
{
    if has_byte(text, 0, b'+') {
        return 1;
    }
    if has_byte(text, 0, b'-') {
        return 1;
    }
    0
}

// Whether a text begins with `0x` or `0X`, after its sign if it has one.
fn is_hexadecimal(text: &str) -> bool
    ensures { result ≡ is_hexadecimal (chars text.now) }
{
    has_hex_mark(text, behind_sign(text))
}

// Whether a leaf is a hexadecimal number.
fn is_hex<A: Allocator>(kind: &Kind<A>) -> bool
    ensures { result ≡ is_hex_leaf (Some (content_of kind.now)) }
{
    match kind {
        Kind::Number(s) => is_hexadecimal(s.as_str()),
        Kind::NumberPart(s) => is_hexadecimal(s.as_str()),
        Kind::Word(s) => is_hexadecimal(s.as_str()),
        Kind::WordPart(s) => is_hexadecimal(s.as_str()),
        _ => false,
    }
}

fn is_hex_at<A: Allocator>(tree: &Tree<A>, found: Option<usize>) -> bool
    requires { IsThere tree.now.nodes found }
    ensures { result ≡ is_hex_at tree.now.nodes found }
{
    match found {
        Some(leaf) => is_hex(tree.kind(leaf)),
        None => false,
    }
}

// The leaf itself, if a space is due before it where it becomes this truth value.
fn space_needed_for<A: Allocator>(tree: &Tree<A>, leaf: usize, value: bool) -> Option<usize>
    requires { leaf < length tree.now.nodes }
    ensures { result ≡ space_needed_for tree.now.nodes leaf value }
{
    if value {
        return None;
    }
    if is_hex_at(tree, seen_before(tree, leaf)) {
        return Some(leaf);
    }
    None
}

/// Lets a truth value become this one, in its place.
///
/// Where `false` would come to stand directly after a hexadecimal number, whose digits would read on
/// into it, a space is inserted between them: `[0x1true]` is `[0x1 false]` then. Its memory alone may be
/// wanted, and an error leaves the document, and every node that was there, as it was.
pub fn set_boolean<A: Allocator + Copy>(
    alloc: A,
    tree: &mut Tree<A>,
    leaf: usize,
    value: bool,
) -> Result<(), EditError>
    requires in_tree { leaf < length tree.old.nodes }
    requires boolean { is_boolean (content_at tree.old.nodes leaf) ≡ true }
    ensures set { OnOk result (BooleanSet tree.old.nodes tree.new.nodes leaf value) }
    ensures memory { IfErr result (λ e. e ≡ EditError.OutOfMemory) }
    ensures oom_only_if { OnErr result (WantsSpaceFor tree.old.nodes leaf value) }
    ensures kept { OnErr result (Keeps (length tree.old.nodes) tree.old.nodes tree.new.nodes) }
    ensures document { OnErr result (ordered_tree tree.new.nodes 0 ≡ ordered_tree tree.old.nodes 0) }
{
    let due = space_needed_for(tree, leaf, value);
    let spaces = make_spaces(alloc, tree, None, due)?;
    put_spaces(tree, spaces);
    tree.set_leaf(leaf, Kind::Boolean(value));
    Ok(())
}
