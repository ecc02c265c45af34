//! The pointer that refers to a node.

ghost use Rattle.std.specs.Prelude.{◌≡◌, ◌<◌, ℕ, length, IfErr, IfOk, IfSome};
ghost use Rattle.jsonc_tree.specs.Content.{Content};
ghost use Rattle.jsonc_edit.specs.Paths.{IsAt, IsElementOf, IsHeldBy, StepsTo};
ghost use Rattle.jsonc_cst.specs.Document.{content_of, nodes_of, HasNode};
ghost use Rattle.jsonc_cst.specs.Nodes.{number_of};
ghost use Rattle.jsonc_parser.specs.patch.Found.{IsOfShown};
ghost use Rattle.jsonc_parser.specs.patch.Locations.{AreTokensTo, IsPointerTo, IsTokenTo};

use super::pointer::Pointer;
use super::reference::{Lookup, look_up, value_under};
use jsonc_cst::cst::{CstNode, CstRootNode, EditError, TypedNode, node_at};
use jsonc_layout::nodes::{decoded_name, element_at};
use std::alloc::Allocator;

// The name that leads from an object to the value of its property, and that value.
fn name_to<A: Allocator + Copy>(
    doc: &CstRootNode<A>,
    object: CstNode,
    property: usize,
) -> Result<Option<(String<A>, CstNode)>, EditError>
    requires in_document { HasNode doc.now object }
    requires object { content_of doc.now object ≡ Content.object }
    requires property { property < length (nodes_of doc.now) }
    ensures token { IfOk result (λ found. (i q : ℕ) → IsElementOf (nodes_of doc.now) (number_of object) i property
        → IsHeldBy (nodes_of doc.now) property q → IsTokenTo doc.now object i q found) }
    ensures in_document { IfOk result (λ found. IfSome found (λ t. HasNode doc.now t.1)) }
    ensures memory { IfErr result (λ e. e ≡ EditError.OutOfMemory) }
{
    let name = match decoded_name(*doc.allocator(), doc.tree(), property) {
        Ok(Some(name)) => name,
        Ok(None) => return Ok(None),
        Err(_) => return Err(EditError::OutOfMemory),
    };
    match look_up(doc, object.number(), &name) {
        Ok(Lookup::Once(only)) => match value_under(doc, only) {
            Some(value) => Ok(Some((name, value))),
            None => Ok(None),
        },
        Ok(Lookup::Missing) => Ok(None),
        Ok(Lookup::Twice) => Ok(None),
        Err(_) => Err(EditError::OutOfMemory),
    }
}

// The token that leads from a node to what is at a place there, and the node of that.
fn token_to<A: Allocator + Copy>(
    doc: &CstRootNode<A>,
    node: CstNode,
    place: usize,
) -> Result<Option<(String<A>, CstNode)>, EditError>
    requires { HasNode doc.now node }
    ensures token { IfOk result (λ found. (q : ℕ) → StepsTo (nodes_of doc.now) (number_of node) place q
        → IsTokenTo doc.now node place q found) }
    ensures in_document { IfOk result (λ found. IfSome found (λ t. HasNode doc.now t.1)) }
    ensures memory { IfErr result (λ e. e ≡ EditError.OutOfMemory) }
{
    let Some(entry) = element_at(doc.tree(), node.number(), place) else {
        return Ok(None);
    };
    if node.as_object().is_some() {
        return name_to(doc, node, entry);
    }
    match place.to_string(*doc.allocator()) {
        Ok(token) => Ok(Some((token, node_at(doc.tree(), entry)))),
        Err(_) => Err(EditError::OutOfMemory),
    }
}

// The tokens that lead over the places of a path.
fn tokens_over<A: Allocator + Copy>(
    doc: &CstRootNode<A>,
    path: &[usize],
) -> Result<Option<Vec<String<A>, A>>, EditError>
    ensures tokens { IfOk result (λ found. (n : ℕ) → IsAt (nodes_of doc.now) path.now n
        → IsOfShown doc.now (AreTokensTo doc.now n found)) }
    ensures memory { IfErr result (λ e. e ≡ EditError.OutOfMemory) }
{
    let Some(value) = doc.value() else {
        return Ok(None);
    };
    let mut tokens = Vec::new(*doc.allocator());
    let mut node = value;
    for place in path {
        match token_to(doc, node, *place) {
            Ok(Some((token, inner))) => {
                let Ok(()) = tokens.push(token) else {
                    return Err(EditError::OutOfMemory);
                };
                node = inner;
            }
            Ok(None) => return Ok(None),
            Err(error) => return Err(error),
        }
    }
    Ok(Some(tokens))
}

/// The pointer that refers to a node: [`find`](super::find) finds the node by it.
///
/// None where no pointer refers to the node: a name on the way occurs twice in its object, or the node is
/// no value of the document, but a property, a name, a comment, blanks, a token, or what was removed or
/// replaced.
pub fn pointer_of<A: Allocator + Copy>(
    doc: &CstRootNode<A>,
    node: CstNode,
) -> Result<Option<Pointer<A>>, EditError>
    requires { HasNode doc.now node }
    ensures pointer { IfOk result (λ found. IsOfShown doc.now (IsPointerTo doc.now (number_of node) found)) }
    ensures memory { IfErr result (λ e. e ≡ EditError.OutOfMemory) }
{
    let path = match doc.path(node) {
        Ok(Some(path)) => path,
        Ok(None) => return Ok(None),
        Err(error) => return Err(error),
    };
    match tokens_over(doc, &path) {
        Ok(Some(tokens)) => Ok(Some(Pointer::from_tokens(tokens))),
        Ok(None) => Ok(None),
        Err(error) => Err(error),
    }
}
