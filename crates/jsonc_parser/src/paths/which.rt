//! Which property of several of one name leads on.

ghost use Rattle.std.specs.Prelude.{◌≡◌, ◌<◌, chars, length, IfErr, IfOk, IfSome, OnErr};
ghost use Rattle.jsonc_layout.specs.nodes.Names.{HoldsEscapedName};
ghost use Rattle.jsonc_layout.specs.nodes.Siblings.{IsThere};
ghost use Rattle.jsonc_tree.specs.Tree.{children_at};
ghost use Rattle.jsonc_cst.specs.Document.{nodes_of, HasNode};
ghost use Rattle.jsonc_cst.specs.Nodes.{object_node, object_prop_node};
ghost use Rattle.jsonc_parser.specs.paths.Which.{IsChosenIn, IsChosenNamed, LastNamed};

use jsonc_cst::cst::{CstObject, CstObjectProp, CstRootNode, EditError, TypedNode, node_at};
use jsonc_layout::nodes::{children_from, is_named};
use std::alloc::{AllocError, Allocator};

/// Which property of several of one name leads on.
#[derive(Clone, Copy)]
pub enum Which {
    /// The first.
    First,
    /// The last, as readers see it that take of equal names the last.
    Last,
}

// The last property of a name among the children of an object. Memory is needed only for a name with a
// backslash.
fn last_number<A: Allocator + Copy>(
    doc: &CstRootNode<A>,
    object: usize,
    name: &str,
) -> Result<Option<usize>, AllocError>
    requires { object < length (nodes_of doc.now) }
    ensures found { IfOk result (LastNamed (nodes_of doc.now) (chars name.now) (children_at (nodes_of doc.now) object)) }
    ensures in_tree { IfOk result (IsThere (nodes_of doc.now)) }
    ensures memory { OnErr result (HoldsEscapedName (nodes_of doc.now) object) }
{
    let tree = doc.tree();
    let mut found = None;
    for child in children_from(tree, object, 0) {
        if !is_named(*doc.allocator(), tree, child, name)? {
            continue;
        }
        found = Some(child);
    }
    Ok(found)
}

// The last property of a name in an object.
fn last_property<A: Allocator + Copy>(
    doc: &CstRootNode<A>,
    object: CstObject,
    name: &str,
) -> Result<Option<CstObjectProp>, EditError>
    requires { HasNode doc.now (object_node object) }
    ensures found { IfOk result (IsChosenNamed Which.Last doc.now object (chars name.now)) }
    ensures in_document { IfOk result (λ o. IfSome o (λ p. HasNode doc.now (object_prop_node p))) }
    ensures memory { IfErr result (λ e. e ≡ EditError.OutOfMemory) }
    ensures escaped { OnErr result (HoldsEscapedName (nodes_of doc.now) object.number) }
{
    match last_number(doc, object.node().number(), name) {
        Ok(Some(number)) => Ok(node_at(doc.tree(), number).as_object_prop()),
        Ok(None) => Ok(None),
        Err(_) => Err(EditError::OutOfMemory),
    }
}

/// The property of a name in an object that leads on.
///
/// Memory is needed only where one of its names has a backslash.
pub(crate) fn property_of<A: Allocator + Copy>(
    doc: &CstRootNode<A>,
    object: CstObject,
    name: &str,
    which: Which,
) -> Result<Option<CstObjectProp>, EditError>
    requires { HasNode doc.now (object_node object) }
    ensures found { IfOk result (IsChosenNamed which doc.now object (chars name.now)) }
    ensures in_document { IfOk result (λ o. IfSome o (λ p. HasNode doc.now (object_prop_node p))) }
    ensures memory { IfErr result (λ e. e ≡ EditError.OutOfMemory) }
    ensures escaped { OnErr result (HoldsEscapedName (nodes_of doc.now) object.number) }
{
    match which {
        Which::First => object.get(doc, name),
        Which::Last => last_property(doc, object, name),
    }
}
