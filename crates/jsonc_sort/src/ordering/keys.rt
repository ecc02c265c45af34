//! Places in the order of keys.

ghost use Rattle.std.specs.Prelude.{◌≡◌, ◌<◌, IfErr, IfOk, Err, Some, length, option_map};
ghost use Rattle.std.specs.Ordering.{is_lt};
ghost use Rattle.jsonc_sort.specs.ordering.Asking.{IsAmong};
ghost use Rattle.jsonc_sort.specs.ordering.Keys.{Answers, AreKeys, IsKeyOf, MayTellKey, WhyNone};
ghost use Rattle.jsonc_sort.specs.ordering.Order.{comes_before, node_in, option_before, IsOrderedBy};

use crate::ordering::order::places;
use crate::ordering::places::{node_at, start_at};
use std::alloc::{AllocError, Allocator};
use std::cmp::Ordering;

/// Why there are no keys.
#[derive(Clone, Copy, Debug, PartialEq, Eq, Drop)]
pub enum KeysError<E> {
    /// There was not enough memory.
    OutOfMemory,
    /// A key was refused.
    Refused(E),
}

// The key of the node at a place, if one stands there.
fn key_of<D, N: Copy, K, E, F: Fn(&D, N) -> Result<K, E>>(
    doc: &D,
    nodes: &[Option<N>],
    place: usize,
    key: &F,
) -> Result<Option<K>, E>
    requires asked { MayTellKey F.Fn key.now doc.now (IsAmong nodes.now) }
    ensures key { IfOk result (IsKeyOf F.Fn key.now doc.now (node_in nodes.now place)) }
    ensures refused { IfErr result
        (λ e. (x : _) × (node_in nodes.now place ≡ Some x) × Answers F.Fn key.now doc.now x (Err e)) }
{
    let Some(node) = node_at(nodes, place) else {
        return Ok(None);
    };
    match key(doc, node) {
        Ok(key) => Ok(Some(key)),
        Err(error) => Err(error),
    }
}

/// The keys of the nodes of a row, which are asked for in turn: the first that is refused is the answer, and
/// memory is wanted only for one that was told, as were all before it.
pub fn keys_of<A: Allocator, D, N: Copy, K: Drop, E, F: Fn(&D, N) -> Result<K, E>>(
    alloc: A,
    doc: &D,
    nodes: &[Option<N>],
    key: &F,
) -> Result<Vec<Option<K>, A>, KeysError<E>>
    requires asked { MayTellKey F.Fn key.now doc.now (IsAmong nodes.now) }
    ensures keys { IfOk result (λ v. AreKeys F.Fn key.now doc.now nodes.now v.items) }
    ensures refused { IfErr result (WhyNone F.Fn key.now doc.now nodes.now) }
{
    let mut keys = Vec::new(alloc);
    for place in 0..nodes.len() {
        match key_of(doc, nodes, place, key) {
            Ok(found) => {
                let Ok(()) = keys.push(found) else {
                    return Err(KeysError::OutOfMemory);
                };
            }
            Err(error) => return Err(KeysError::Refused(error)),
        }
    }
    Ok(keys)
}

// The key at a place, if there is one.
fn key_at<K>(keys: &[Option<K>], place: usize) -> Option<&K>
    ensures { option_map (λ k. k.now) result ≡ node_in keys.now place }
{
    if place < keys.len() {
        return keys[place].as_ref();
    }
    None
}

// Compares two keys, if there are any.
fn compare_found<K: Ord>(a: Option<&K>, b: Option<&K>) -> Ordering
    ensures { is_lt result
        ≡ option_before (λ x y. is_lt (K.cmp x y)) (option_map (λ k. k.now) a.entry) (option_map (λ k. k.now) b.entry) }
{
    match (a, b) {
        (Some(x), Some(y)) => x.cmp(y),
        (None, Some(_)) => Ordering::Less,
        (Some(_), None) => Ordering::Greater,
        (None, None) => Ordering::Equal,
    }
}

// Compares two places by their keys, and by their groups first.
fn compare_keys<K: Ord>(keys: &[Option<K>], starts: &[usize], a: usize, b: usize) -> Ordering
    ensures { is_lt result ≡ comes_before (λ x y. is_lt (K.cmp x y)) keys.now starts.now a b }
{
    let first = start_at(starts, a);
    let second = start_at(starts, b);
    if first < second {
        return Ordering::Less;
    }
    if second < first {
        return Ordering::Greater;
    }
    compare_found(key_at(keys, a), key_at(keys, b))
}

/// The places of a row in the order of their keys, group by group. Places without a key come first in
/// their group.
pub fn order_by_key<A: Allocator, K: Ord>(
    alloc: A,
    keys: &[Option<K>],
    starts: &[usize],
) -> Result<Vec<usize, A>, AllocError>
    ensures { IfOk result
        (λ v. IsOrderedBy (comes_before (λ x y. is_lt (K.cmp x y)) keys.now starts.now) (length keys.now) v.items) }
{
    let mut order = places(alloc, keys.len())?;
    order.sort_by(|a: &usize, b: &usize| compare_keys(keys, starts, *a, *b))?;
    Ok(order)
}
