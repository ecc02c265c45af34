//! Arrays and objects that are sorted by closures.

ghost use Rattle.std.specs.Prelude.{◌≡◌, IfErr, IfOk, IfSome, IsPermutation, IsTrue, OnErr, OnOk, length};
ghost use Rattle.std.specs.List.{All, range_with_len};
ghost use Rattle.jsonc_tree.specs.Building.{Keeps};
ghost use Rattle.jsonc_tree.specs.Tree.{content_at};
ghost use Rattle.jsonc_layout.specs.nodes.Siblings.{elements_at};
ghost use Rattle.jsonc_layout.specs.lines.Kinds.{is_array_or_object};
ghost use Rattle.jsonc_cst.specs.Document.{content_of, nodes_of, tree_of, HasNode};
ghost use Rattle.jsonc_cst.specs.Nodes.{number_of};
ghost use Rattle.jsonc_cst.specs.typed.Edits.{HandlesStay};
ghost use Rattle.jsonc_sort.specs.ordering.Keys.{AreKeys};
ghost use Rattle.jsonc_sort.specs.Rearranged.{headers_of};
ghost use Rattle.jsonc_cst.specs.sorting.Asking.{IsInItsOrder, IsInKeyOrder, IsUnkeyed, LacksKeys};
ghost use Rattle.jsonc_cst.specs.sorting.Asking.{MayBeCompared, MayBeKeyed};
ghost use Rattle.jsonc_cst.specs.sorting.Rows.{starts_of};
ghost use Rattle.jsonc_cst.specs.sorting.Sorted.{HasSorted};

use crate::cst::{CstNode, CstRootNode, EditError, TypedNode};
use crate::sorting::placing::put_in_order;
use crate::sorting::rows::starts_of;
use crate::typed::DocumentArg;
use jsonc_sort::ordering::{KeysError, keys_of, order_by, order_by_key};
use std::alloc::Allocator;
use std::cmp::Ordering;

// The places of nodes in the order of a comparison, group by group.
fn order_of<A: Allocator + Copy, D: DocumentArg<A>, N: TypedNode, C: Fn(&D, N, N) -> Ordering>(
    doc: &CstRootNode<A>,
    nodes: &[Option<N>],
    starts: &[usize],
    compare: &C,
) -> Result<Vec<usize, A>, EditError>
    requires in_document { All (λ o. IfSome o (λ x. HasNode doc.now (N.node_of x))) nodes.now }
    requires asked { MayBeCompared C.Fn compare.now (D.same doc.now) (λ x. HasNode doc.now (N.node_of x)) }
    ensures all { IfOk result (λ v. IsPermutation (range_with_len 0 (length nodes.now)) v.items) }
    ensures order { IfOk result (λ v. IsInItsOrder C.Fn compare.now (D.same doc.now)
        (λ x. HasNode doc.now (N.node_of x)) nodes.now starts.now v.items) }
    ensures memory { IfErr result (λ e. e ≡ EditError.OutOfMemory) }
{
    let Ok(order) = order_by(doc.alloc, D::of(doc), nodes, starts, compare) else {
        return Err(EditError::OutOfMemory);
    };
    Ok(order)
}

// Sorts an array or object by a comparison of what is in it.
pub(crate) fn sort_by<
    A: Allocator + Copy,
    D: DocumentArg<A>,
    N: TypedNode,
    C: Fn(&D, N, N) -> Ordering,
>(
    doc: &mut CstRootNode<A>,
    container: CstNode,
    nodes: &[Option<N>],
    pinned: &[Option<usize>],
    groups: bool,
    compare: &C,
) -> Result<(), EditError>
    requires in_tree { HasNode doc.old container }
    requires holds { IsTrue (is_array_or_object (content_of doc.old container)) }
    requires in_document { All (λ o. IfSome o (λ x. HasNode doc.old (N.node_of x))) nodes.now }
    requires count { length nodes.now ≡ length (elements_at (nodes_of doc.old) (number_of container)) }
    requires asked { MayBeCompared C.Fn compare.now (D.same doc.old) (λ x. HasNode doc.old (N.node_of x)) }
    ensures sorted { OnOk result (HasSorted doc.old doc.new container (headers_of pinned.now groups)
        (IsInItsOrder C.Fn compare.now (D.same doc.old) (λ x. HasNode doc.old (N.node_of x)) nodes.now
        (starts_of doc.old container groups))) }
    ensures memory { IfErr result (λ e. e ≡ EditError.OutOfMemory) }
    ensures handles { HandlesStay doc.old doc.new }
    ensures kept { OnErr result (Keeps (length (nodes_of doc.old)) (nodes_of doc.old) (nodes_of doc.new)) }
    ensures document { OnErr result (tree_of doc.new ≡ tree_of doc.old) }
{
    let starts = starts_of(doc, container, groups)?;
    let order = order_of(doc, nodes, &starts, compare)?;
    let number = container.number();
    put_in_order(doc.alloc, &mut doc.tree, number, pinned, groups, &order)
}

// The keys of nodes, or the first that is refused.
fn keys_asked<
    A: Allocator + Copy,
    D: DocumentArg<A>,
    N: TypedNode,
    K: Drop,
    F: Fn(&D, N) -> Result<K, EditError>,
>(doc: &CstRootNode<A>, nodes: &[Option<N>], key: &F) -> Result<Vec<Option<K>, A>, EditError>
    requires in_document { All (λ o. IfSome o (λ x. HasNode doc.now (N.node_of x))) nodes.now }
    requires asked { MayBeKeyed F.Fn key.now (D.same doc.now) (λ x. HasNode doc.now (N.node_of x)) }
    ensures keys { IfOk result (λ v. AreKeys F.Fn key.now (D.same doc.now) nodes.now v.items) }
    ensures refused { IfErr result (LacksKeys F.Fn key.now (D.same doc.now) nodes.now) }
{
    match keys_of(doc.alloc, D::of(doc), nodes, key) {
        Ok(keys) => Ok(keys),
        Err(KeysError::Refused(error)) => Err(error),
        Err(KeysError::OutOfMemory) => Err(EditError::OutOfMemory),
    }
}

// The places of nodes in the order of their keys, group by group.
fn order_of_keys<
    A: Allocator + Copy,
    D: DocumentArg<A>,
    N: TypedNode,
    K: Ord + Drop,
    F: Fn(&D, N) -> Result<K, EditError>,
>(
    doc: &CstRootNode<A>,
    nodes: &[Option<N>],
    starts: &[usize],
    key: &F,
) -> Result<Vec<usize, A>, EditError>
    requires in_document { All (λ o. IfSome o (λ x. HasNode doc.now (N.node_of x))) nodes.now }
    requires asked { MayBeKeyed F.Fn key.now (D.same doc.now) (λ x. HasNode doc.now (N.node_of x)) }
    ensures all { IfOk result (λ v. IsPermutation (range_with_len 0 (length nodes.now)) v.items) }
    ensures order { IfOk result
        (λ v. IsInKeyOrder F.Fn key.now (D.same doc.now) K.cmp nodes.now starts.now v.items) }
    ensures refused { IfErr result (LacksKeys F.Fn key.now (D.same doc.now) nodes.now) }
{
    let keys = keys_asked(doc, nodes, key)?;
    let Ok(order) = order_by_key(doc.alloc, &keys, starts) else {
        return Err(EditError::OutOfMemory);
    };
    Ok(order)
}

// Sorts an array or object by keys of what is in it.
pub(crate) fn sort_by_key<
    A: Allocator + Copy,
    D: DocumentArg<A>,
    N: TypedNode,
    K: Ord + Drop,
    F: Fn(&D, N) -> Result<K, EditError>,
>(
    doc: &mut CstRootNode<A>,
    container: CstNode,
    nodes: &[Option<N>],
    pinned: &[Option<usize>],
    groups: bool,
    key: &F,
) -> Result<(), EditError>
    requires in_tree { HasNode doc.old container }
    requires holds { IsTrue (is_array_or_object (content_of doc.old container)) }
    requires in_document { All (λ o. IfSome o (λ x. HasNode doc.old (N.node_of x))) nodes.now }
    requires count { length nodes.now ≡ length (elements_at (nodes_of doc.old) (number_of container)) }
    requires asked { MayBeKeyed F.Fn key.now (D.same doc.old) (λ x. HasNode doc.old (N.node_of x)) }
    ensures sorted { OnOk result (HasSorted doc.old doc.new container (headers_of pinned.now groups)
        (IsInKeyOrder F.Fn key.now (D.same doc.old) K.cmp nodes.now (starts_of doc.old container groups))) }
    ensures refused { IfErr result (IsUnkeyed F.Fn key.now (D.same doc.old) nodes.now) }
    ensures handles { HandlesStay doc.old doc.new }
    ensures kept { OnErr result (Keeps (length (nodes_of doc.old)) (nodes_of doc.old) (nodes_of doc.new)) }
    ensures document { OnErr result (tree_of doc.new ≡ tree_of doc.old) }
{
    let starts = starts_of(doc, container, groups)?;
    let order = order_of_keys(doc, nodes, &starts, key)?;
    let number = container.number();
    put_in_order(doc.alloc, &mut doc.tree, number, pinned, groups, &order)
}
