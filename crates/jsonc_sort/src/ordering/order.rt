//! Places in the order of a comparison.

ghost use Rattle.std.specs.Prelude.{◌≡◌, ℕ, Bool, IfOk, IsPermutation, length};
ghost use Rattle.std.specs.List.{range_with_len};
ghost use Rattle.std.specs.Ordering.{is_lt};
ghost use Rattle.jsonc_sort.specs.ordering.Asking.{ComparesBy, IsAmong, IsCompared, MayCompare};
ghost use Rattle.jsonc_sort.specs.ordering.Order.{comes_before, node_in, option_before, IsOrderedBy};

use crate::ordering::places::{node_at, start_at};
use std::alloc::{AllocError, Allocator};
use std::cmp::Ordering;

// Compares what stands at two places of one group.
fn compare_nodes<D, N: Copy, C: Fn(&D, N, N) -> Ordering>(
    doc: &D,
    nodes: &[Option<N>],
    compare: &C,
    a: usize,
    b: usize,
) -> Ordering
    requires asked { MayCompare C.Fn compare.now doc.now (IsAmong nodes.now) }
    ensures { (lt : N → N → Bool) → ComparesBy C.Fn compare.now doc.now (IsAmong nodes.now) lt
        → is_lt result ≡ option_before lt (node_in nodes.now a) (node_in nodes.now b) }
{
    match (node_at(nodes, a), node_at(nodes, b)) {
        (Some(x), Some(y)) => compare(doc, x, y),
        (None, Some(_)) => Ordering::Less,
        (Some(_), None) => Ordering::Greater,
        (None, None) => Ordering::Equal,
    }
}

// Compares two places, by their groups first.
fn compare_places<D, N: Copy, C: Fn(&D, N, N) -> Ordering>(
    doc: &D,
    nodes: &[Option<N>],
    starts: &[usize],
    compare: &C,
    a: usize,
    b: usize,
) -> Ordering
    requires asked { MayCompare C.Fn compare.now doc.now (IsAmong nodes.now) }
    ensures { IsCompared C.Fn compare.now doc.now nodes.now starts.now a b result }
{
    let first = start_at(starts, a);
    let second = start_at(starts, b);
    if first < second {
        return Ordering::Less;
    }
    if second < first {
        return Ordering::Greater;
    }
    compare_nodes(doc, nodes, compare, a, b)
}

// So many places, in their order.
pub(crate) fn places<A: Allocator>(alloc: A, count: usize) -> Result<Vec<usize, A>, AllocError>
    ensures { IfOk result (λ v. v.items ≡ range_with_len 0 count) }
{
    (0..count).collect(alloc)
}

/// The places of a row in the order of a comparison, group by group.
///
/// It is asked with what is lent here and with nodes of the row. Places at which no node stands come first
/// in their group.
pub fn order_by<A: Allocator, D, N: Copy, C: Fn(&D, N, N) -> Ordering>(
    alloc: A,
    doc: &D,
    nodes: &[Option<N>],
    starts: &[usize],
    compare: &C,
) -> Result<Vec<usize, A>, AllocError>
    requires asked { MayCompare C.Fn compare.now doc.now (IsAmong nodes.now) }
    ensures all { IfOk result (λ v. IsPermutation (range_with_len 0 (length nodes.now)) v.items) }
    ensures order { (lt : N → N → Bool) → ComparesBy C.Fn compare.now doc.now (IsAmong nodes.now) lt
        → IfOk result (λ v. IsOrderedBy (comes_before lt nodes.now starts.now) (length nodes.now) v.items) }
{
    let mut order = places(alloc, nodes.len())?;
    order.sort_by(|a: &usize, b: &usize| compare_places(doc, nodes, starts, compare, *a, *b))?;
    Ok(order)
}
