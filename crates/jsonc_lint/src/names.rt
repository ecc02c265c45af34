//! The names of the properties that were passed, by which a repeated one is known.

ghost use Rattle.std.specs.Prelude.{◌≡◌, ◌<◌, length, IfOk};
ghost use Rattle.jsonc_tree.specs.Content.{Content};
ghost use Rattle.jsonc_tree.specs.Tree.{content_at};
ghost use Rattle.jsonc_cst.specs.Ranges.{IsBefore};
ghost use Rattle.jsonc_lint.specs.SeenNames.{IsAnswered, IsSeen};

use jsonc_layout::nodes::decoded_name;
use jsonc_tree::Tree;
use std::alloc::{AllocError, Allocator};
use std::collections::HashMap;
use std::hash::{BuildHasherDefault, FoldHasher};

/// The names of the properties that were passed, each with the number of its object, and the place where the first
/// property of the name begins there.
pub(crate) type Names<A> = HashMap<(usize, String<A>), usize, BuildHasherDefault<FoldHasher>, A>;

// The name, if the object has it already, and the place where its first property begins. A new name joins the others.
fn known_name<A: Allocator + Copy>(
    names: &mut Names<A>,
    object: usize,
    name: String<A>,
    start: usize,
) -> Result<Option<(String<A>, usize)>, AllocError>
    ensures { IfOk result (IsSeen names.old object name start names.new) }
{
    let key = (object, name);
    if let Some(first) = names.get(&key) {
        let first = *first;
        return Ok(Some((key.1, first)));
    }
    match names.insert(key, start) {
        Ok(_) => Ok(None),
        Err(_) => Err(AllocError),
    }
}

/// The name of a property, if an earlier property of its object has it, and the place where the first one begins.
pub(crate) fn repeated_name<A: Allocator + Copy>(
    alloc: A,
    tree: &Tree<A>,
    property: usize,
    start: usize,
    names: &mut Names<A>,
) -> Result<Option<(String<A>, usize)>, AllocError>
    requires in_tree { property < length tree.now.nodes }
    requires property { content_at tree.now.nodes property ≡ Content.property }
    requires start { IsBefore tree.now.nodes property start }
    ensures { IfOk result (IsAnswered tree.now.nodes property names.old names.new) }
{
    let Some(object) = tree.parent(property) else {
        return Ok(None);
    };
    match decoded_name(alloc, tree, property)? {
        Some(name) => known_name(names, object, name, start),
        None => Ok(None),
    }
}
