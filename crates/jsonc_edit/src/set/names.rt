//! Properties that get another name.

ghost use Rattle.std.specs.Prelude.{◌≡◌, ◌<◌, IfErr, IfOk, OnErr, OnOk, chars, false, length};
ghost use Rattle.jsonc_tree.specs.Changes.{Adds};
ghost use Rattle.jsonc_tree.specs.Content.{Content};
ghost use Rattle.jsonc_tree.specs.Tree.{content_at};
ghost use Rattle.jsonc_layout.specs.nodes.Properties.{lacks_name_at};
ghost use Rattle.jsonc_layout.specs.from_input.Laid.{string_leaf};
ghost use Rattle.jsonc_edit.specs.set.Names.{IsRenamed, RenameError};

use crate::{EditError, put_in_place};
use jsonc_layout::input::spelling::spell;
use jsonc_layout::nodes::{lacks_name, name_of};
use jsonc_tree::{Kind, Tree};
use std::alloc::{AllocError, Allocator};

// Makes a leaf of a name between quotes, which is detached.
fn add_name<A: Allocator + Copy>(
    alloc: A,
    tree: &mut Tree<A>,
    name: &str,
) -> Result<usize, AllocError>
    ensures number { IfOk result (λ n. n ≡ length tree.old.nodes) }
    ensures added { OnOk result (Adds tree.old.nodes tree.new.nodes (string_leaf (chars name.now))) }
    ensures err { OnErr result (tree.new.nodes ≡ tree.old.nodes) }
{
    let literal = spell(alloc, name)?;
    tree.add(Kind::String(literal))
}

/// Gives a property another name, and answers the number of the name's new node.
///
/// The old name is replaced by the new one between quotes, as [`jsonc_layout::from_input`] writes
/// names, and is detached then. All else stays, and no space is inserted: `{a:1b:2}` with `c` for `b` is
/// `{a:1"c":2}`. Where the property has no name, or no colon after it, the answer is `MissingName`. On
/// an error no node changes.
pub fn rename_property<A: Allocator + Copy>(
    alloc: A,
    tree: &mut Tree<A>,
    property: usize,
    name: &str,
) -> Result<usize, EditError>
    requires in_tree { property < length tree.old.nodes }
    ensures renamed { IfOk result (IsRenamed tree.old.nodes tree.new.nodes property (chars name.now)) }
    ensures named { OnOk result (lacks_name_at tree.old.nodes property ≡ false) }
    ensures error { IfErr result (RenameError tree.old.nodes property) }
    ensures untouched { OnErr result (tree.new.nodes ≡ tree.old.nodes) }
{
    if lacks_name(tree, property) {
        return Err(EditError::MissingName);
    }
    let Some(old) = name_of(tree, property) else {
        return Err(EditError::MissingName);
    };
    let new = add_name(alloc, tree, name)?;
    put_in_place(tree, property, old, new);
    Ok(new)
}
