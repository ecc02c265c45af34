//! The place of a key among pairs.
ghost use Rattle.std.specs.Prelude.{◌≡◌, ◌<◌, length, position, is_some, IfSome};
ghost use Rattle.std.specs.List.{list_any};
ghost use Rattle.std.specs.Map.{keys_of};
ghost use Rattle.jsonc_value.specs.Hashes.{AreHashesOf};

use super::hashes::{Hashes, hash_of};
use indexmap::Equivalent;
use std::alloc::Allocator;
use std::hash::Hash;

/// The first place of this key, one pair after another.
pub(crate) fn search<K: Eq + Hash, V, Q: Equivalent<K>>(pairs: &[(K, V)], key: Q) -> Option<usize>
    ensures index { result ≡ position (Q.equivalent key) (keys_of pairs.now) }
    ensures found { is_some result ≡ list_any (Q.equivalent key) (keys_of pairs.now) }
    ensures within { IfSome result (λ i. i < length pairs.now) }
{
    for place in 0..pairs.len() {
        if key.equivalent(&pairs[place].0) {
            return Some(place);
        }
    }
    None
}

/// The first place of this key, by its hash where hashes are kept.
pub(crate) fn place_of<K: Eq + Hash, V, Q: Equivalent<K>, A: Allocator>(
    pairs: &[(K, V)],
    hashes: &Hashes<A>,
    key: Q,
) -> Option<usize>
    requires { AreHashesOf K.hash_input (keys_of pairs.now) hashes.now.keys }
    ensures index { result ≡ position (Q.equivalent key) (keys_of pairs.now) }
    ensures found { is_some result ≡ list_any (Q.equivalent key) (keys_of pairs.now) }
    ensures within { IfSome result (λ i. i < length pairs.now) }
{
    if !hashes.is_empty() {
        let Some(place) = hashes.get_index_of(&hash_of(key)) else {
            return None;
        };
        if key.equivalent(&pairs[place].0) {
            return Some(place);
        }
    }
    search(pairs, key)
}
