//! What a sort reads of an array or object.

ghost use Rattle.std.specs.Prelude.{◌≡◌, ◌<◌, IfErr, IfOk, IfSome, length, map};
ghost use Rattle.std.specs.List.{All};
ghost use Rattle.jsonc_layout.specs.nodes.Siblings.{elements_at};
ghost use Rattle.jsonc_sort.specs.ordering.Groups.{group_starts};
ghost use Rattle.jsonc_cst.specs.Document.{nodes_of, HasNode};
ghost use Rattle.jsonc_cst.specs.Nodes.{number_of, object_node, object_prop_node};
ghost use Rattle.jsonc_cst.specs.sorting.Rows.{elements_asked, is_separated, properties_asked, property_if, starts_of};

use crate::cst::{
    CstContainerNode, CstNode, CstObject, CstObjectProp, CstRootNode, EditError, ParentNode,
    TypedNode,
};
use crate::sorting::headers::leads_of;
use jsonc_sort::LeadRead;
use jsonc_sort::ordering::group_starts;
use std::alloc::{AllocError, Allocator};

// Before which elements a blank line is.
fn parted<A: Allocator + Copy>(alloc: A, leads: &[LeadRead]) -> Result<Vec<bool, A>, AllocError>
    ensures { IfOk result (λ v. v.items ≡ map is_separated leads.now) }
{
    leads.iter().map(|lead| lead.blank_line).collect(alloc)
}

// Where groups begin, which blank lines part.
fn parted_starts<A: Allocator + Copy>(
    alloc: A,
    leads: &[LeadRead],
) -> Result<Vec<usize, A>, AllocError>
    ensures { IfOk result (λ v. v.items ≡ group_starts (map is_separated leads.now)) }
{
    let parted = parted(alloc, leads)?;
    group_starts(alloc, &parted)
}

// For each element of a container the place at which its group begins, where groups are kept.
pub(crate) fn starts_of<A: Allocator + Copy>(
    doc: &CstRootNode<A>,
    container: CstNode,
    groups: bool,
) -> Result<Vec<usize, A>, EditError>
    requires { HasNode doc.now container }
    ensures starts { IfOk result (λ v. v.items ≡ starts_of doc.now container groups) }
    ensures memory { IfErr result (λ e. e ≡ EditError.OutOfMemory) }
{
    if !groups {
        return Ok(Vec::new(doc.alloc));
    }
    let leads = leads_of(doc, container)?;
    let Ok(starts) = parted_starts(doc.alloc, &leads) else {
        return Err(EditError::OutOfMemory);
    };
    Ok(starts)
}

// The elements or properties of a container, as a sort of nodes asks of them.
pub(crate) fn elements_asked<A: Allocator + Copy, C: TypedNode>(
    doc: &CstRootNode<A>,
    container: C,
) -> Result<Vec<Option<CstNode>, A>, EditError>
    requires { HasNode doc.now (C.node_of container) }
    ensures nodes { IfOk result (λ v. v.items ≡ elements_asked doc.now (C.node_of container)) }
    ensures in_document { IfOk result (λ v. All (λ o. IfSome o (HasNode doc.now)) v.items) }
    ensures count { IfOk result
        (λ v. length v.items ≡ length (elements_at (nodes_of doc.now) (number_of (C.node_of container)))) }
    ensures memory { IfErr result (λ e. e ≡ EditError.OutOfMemory) }
{
    let elements = container.node().children_exclude_trivia_and_tokens(doc)?;
    let Ok(nodes) = elements.iter().map(|node| Some(*node)).collect(doc.alloc) else {
        return Err(EditError::OutOfMemory);
    };
    Ok(nodes)
}

// The node, if it is a property.
fn property_if(node: CstNode) -> Option<CstObjectProp>
    ensures { result ≡ property_if node }
{
    match node {
        CstNode::Container(CstContainerNode::ObjectProp(property)) => Some(property),
        _ => None,
    }
}

// The properties of an object, as its sort asks of them.
pub(crate) fn properties_asked<A: Allocator + Copy>(
    doc: &CstRootNode<A>,
    object: CstObject,
) -> Result<Vec<Option<CstObjectProp>, A>, EditError>
    requires { HasNode doc.now (object_node object) }
    ensures nodes { IfOk result (λ v. v.items ≡ properties_asked doc.now (object_node object)) }
    ensures in_document { IfOk result (λ v. All (λ o. IfSome o (λ p. HasNode doc.now (object_prop_node p))) v.items) }
    ensures count { IfOk result
        (λ v. length v.items ≡ length (elements_at (nodes_of doc.now) (number_of (object_node object)))) }
    ensures memory { IfErr result (λ e. e ≡ EditError.OutOfMemory) }
{
    let elements = object.children_exclude_trivia_and_tokens(doc)?;
    let Ok(nodes) = elements
        .iter()
        .map(|node| property_if(*node))
        .collect(doc.alloc)
    else {
        return Err(EditError::OutOfMemory);
    };
    Ok(nodes)
}
