//! Values of a map, to write.
ghost use Rattle.std.specs.Prelude.{◌≡◌, ◌<◌, length, slice_get, None, Some, IfOk, IfErr, OnErr};
ghost use Rattle.std.specs.Borrow.{sem};
ghost use Rattle.std.specs.Option.{option_copied_mut, unwrap_or};
ghost use Rattle.std.specs.Map.{lookup, values_of};
ghost use Rattle.jsonc_value.specs.Lists.{IsPlaceOf};

use super::{Map, Store};
use std::alloc::{AllocError, AllocFailed, Allocator};
use std::hash::Hash;

/// The place of a key in a map, at its pair or after the last one.
#[derive(Drop)]
pub struct Entry<'a, K: Eq + Hash, V, A: Allocator> {
    map: &'a mut Map<K, V, A>,
    key: K,
}

impl<K: Eq + Hash, V, A: Allocator> Map<K, V, A> {
    ghost use Rattle.jsonc_value.specs.Lends.{lends_at, lends_value, rests_if_refused};

    // The value at this place, to write.
    pub(crate) fn value_mut(&mut self, index: usize) -> &mut V
        requires { index < length self.old }
        ensures* writes_back { sem 𝓛 (lends_at K.row V.row A.row K.Hash A.Allocator self.entry index result) }
        ensures value { slice_get (values_of self.old) index ≡ Some result.now }
    {
        match &mut self.store {
            Store::Few(pairs) => &mut pairs[index].1,
            Store::Many(both) => &mut both.pairs[index].1,
        }
    }

    /// The value of this key, to write.
    pub fn get_mut(&mut self, key: &K) -> Option<&mut V>
        ensures* writes_back { sem 𝓛
            (lends_value K.row V.row A.row K.Hash A.Allocator self.entry (K.eq key.now) result) }
        ensures value { option_copied_mut result ≡ lookup (K.eq key.now) self.old }
    {
        match self.find(key) {
            Some(index) => Some(self.value_mut(index)),
            None => None,
        }
    }

    // Makes room for this key, where the map lacks it.
    fn reserve_for(&mut self, key: &K) -> Result<(), AllocError>
    where
        K: Drop,
        A: Copy,
        ensures pairs { self.new ≡ self.old }
        ensures memory { OnErr result (lookup (K.eq key.now) self.old ≡ None) }
    {
        if self.find(key).is_some() {
            return Ok(());
        }
        self.reserve(1)
    }

    /// The place of this key. On an error the pairs stay as they are, and the key is given back.
    ///
    /// Only a key that has no value takes memory.
    pub fn entry(&mut self, key: K) -> Result<Entry<'_, K, V, A>, AllocFailed<K>>
    where
        K: Drop,
        A: Copy,
        ensures* unchanged_at_err { sem 𝓛 (rests_if_refused K.row V.row A.row K.Hash A.Allocator self.entry result) }
        ensures same_map { IfOk result (λ e. e.map.ghost_name ≡ self.entry.ghost_name) }
        ensures map { IfOk result (λ e. e.map.now ≡ self.old) }
        ensures key { IfOk result (λ e. e.key ≡ key) }
        ensures value_returned { IfErr result (λ y. y.value ≡ key) }
        ensures memory { OnErr result (lookup (K.eq key) self.old ≡ None) }
    {
        match self.reserve_for(&key) {
            Ok(()) => Ok(Entry { map: self, key }),
            Err(_) => Err(AllocFailed { value: key }),
        }
    }
}

impl<K: Eq + Hash + Drop, V: Drop, A: Allocator + Copy> Map<K, V, A> {
    // The place of this key, which goes last with the value where the map lacks it.
    fn place_or_insert(&mut self, key: K, value: V) -> Result<usize, AllocFailed<V>>
        ensures within { IfOk result (λ i. i < length self.new) }
        ensures place { IfOk result (λ i. IsPlaceOf K.eq key self.old self.new i) }
        ensures value { IfOk result (λ i. slice_get (values_of self.new) i
            ≡ Some (unwrap_or (lookup (K.eq key) self.old) value)) }
        ensures value_returned { IfErr result (λ y. y.value ≡ value) }
        ensures err { OnErr result (self.new ≡ self.old) }
        ensures memory { OnErr result (lookup (K.eq key) self.old ≡ None) }
    {
        if let Some(index) = self.find(&key) {
            return Ok(index);
        }
        let index = self.len();
        match self.push(key, value) {
            Ok(()) => Ok(index),
            Err(failed) => {
                let AllocFailed { value: (_, value) } = failed;
                Err(AllocFailed { value })
            }
        }
    }
}

impl<'a, K: Eq + Hash + Drop, V: Drop, A: Allocator + Copy> Entry<'a, K, V, A> {
    ghost use Rattle.jsonc_value.specs.Lends.{entry_lends};

    /// The value of the key, to write; where it has none, this one is appended.
    ///
    /// On an error the pairs stay as they are, and the value is given back. Only a key that has no value takes memory.
    pub fn or_insert(self, value: V) -> Result<&'a mut V, AllocFailed<V>>
        ensures* writes_back { sem 𝓛 (entry_lends K.row V.row A.row K.Hash A.Allocator self.entry result) }
        ensures value { IfOk result (λ v. v.now ≡ unwrap_or (lookup (K.eq self.entry.key) self.entry.map.now) value) }
        ensures value_returned { IfErr result (λ y. y.value ≡ value) }
        ensures memory { OnErr result (lookup (K.eq self.entry.key) self.entry.map.now ≡ None) }
    {
        let Entry { map, key } = self;
        match map.place_or_insert(key, value) {
            Ok(index) => Ok(map.value_mut(index)),
            Err(failed) => Err(failed),
        }
    }
}
