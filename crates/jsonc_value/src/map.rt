//! A map that keeps the order of insertion.
//!
//! A contract sees a [`Map`] as the list of its pairs in their order, whose keys are distinct. The
//! words for what a call does to that list are std's own of lists of pairs: `lookup` and
//! `lookup_entry` find a key's value or pair, `remove_entry` closes up, `insert_entry` puts a new key
//! last and gives a present one the value in its place.
ghost use Rattle.std.specs.Prelude.{◌≡◌, ◌↔◌, ◌+◌, ◌<◌, ◌≤◌, false, [], ◌∷◌, ◌++◌, length, position, remove, IsTrue, IfOk, IfErr, IfSome, OnOk, OnErr, None, Some, is_some, slice_get, option_copied};
ghost use Rattle.std.specs.Option.{option_map};
ghost use Rattle.std.specs.Map.{lookup, lookup_entry, remove_entry, keys_of, values_of};
ghost use Rattle.std.specs.Map.Iter.{deref_pair};
ghost use Rattle.std.specs.List.{IsDistinct, list_any};
ghost use Rattle.indexmap.specs.IndexMap.{insert_entry};
ghost use Rattle.jsonc_value.specs.Names.{is_named};

mod debug;
mod equality;
mod hashes;
mod iter;
mod lends;
mod lists;
mod retain;
mod search;
mod store;

pub(crate) use hashes::FEW;
use hashes::hashes_of;
use indexmap::{Equivalent, IndexSet};
pub use iter::{IntoIter, IntoKeys, IntoValues, Iter, Keys, Values};
pub use lends::Entry;
use search::search;
use std::alloc::{AllocError, AllocFailed, Allocator};
use std::borrow::CowStr;
use std::hash::Hash;
use std::marker::Model;
use std::mem;
#[doc(hidden)]
pub use store::{Hashed, Store};

/// A map whose pairs keep the order in which their keys were first inserted.
#[derive(Drop)]
pub struct Map<K: Eq + Hash, V, A: Allocator> {
    store: Store<K, V, A>,
}

impl<K: Eq + Hash, V, A: Allocator> Model for Map<K, V, A> {
    ghost use Rattle.std.specs.Prelude.{List};
    ghost use Rattle.std.specs.Map.{keys_of};
    ghost use Rattle.std.specs.List.{IsDistinct};
    ghost use Rattle.jsonc_value.specs.Stores.{pairs_in, KeepsHashes};
    ghost use base.Stored.{coded×, coded_list};

    ghost Value = { List (K × V) };

    ghost coded = { coded_list (coded× K.code V.code) };

    ghost view = { λ m. pairs_in m.store };

    ghost invariant = { λ m. IsDistinct K.eq (keys_of (pairs_in m.store)) × KeepsHashes K.hash_input m.store };
}

impl<K: Eq + Hash, V, A: Allocator + Copy> Map<K, V, A> {
    /// An empty map, which takes no memory until the first insertion.
    pub fn new(alloc: A) -> Self
        ensures { result ≡ [] }
    {
        Map {
            store: Store::Few(Vec::new(alloc)),
        }
    }

    /// An empty map with room for this many pairs.
    pub fn with_capacity(alloc: A, capacity: usize) -> Result<Self, AllocError>
    where
        K: Drop,
        ensures { IfOk result (λ m. m ≡ []) }
    {
        if capacity <= FEW {
            let pairs = Vec::with_capacity(alloc, capacity)?;
            return Ok(Map {
                store: Store::Few(pairs),
            });
        }
        let hashes = IndexSet::with_capacity(alloc, capacity)?;
        let pairs = Vec::with_capacity(alloc, capacity)?;
        let both = Hashed::without_pairs(alloc, pairs, hashes)?;
        Ok(Map {
            store: Store::Many(both),
        })
    }
}

impl<K: Eq + Hash, V, A: Allocator> Map<K, V, A> {
    /// The number of pairs.
    pub fn len(&self) -> usize
        ensures len { result ≡ length self.now }
        ensures unique { IsDistinct K.eq (keys_of self.now) }
    {
        self.store.as_slice().len()
    }

    /// Whether there are no pairs.
    pub fn is_empty(&self) -> bool
        ensures { IsTrue result ↔ (length self.now ≡ 0) }
    {
        self.len() == 0
    }

    /// How many pairs it can hold without more memory. It may hold more.
    pub fn capacity(&self) -> usize
        ensures { length self.now ≤ result }
    {
        let room = match &self.store {
            Store::Few(pairs) => pairs.capacity().min(FEW),
            Store::Many(both) => both.pairs.capacity().min(both.hashes.capacity()),
        };
        room.max(self.len())
    }

    /// Makes room for this many more pairs. On an error the pairs stay as they are.
    pub fn reserve(&mut self, additional: usize) -> Result<(), AllocError>
    where
        K: Drop,
        A: Copy,
        ensures { self.new ≡ self.old }
    {
        self.keep_hashes(additional)?;
        match &mut self.store {
            Store::Few(pairs) => pairs.reserve(additional),
            Store::Many(both) => both.reserve(additional),
        }
    }

    // Keeps hashes from now on, where keys that were few are to be more.
    fn keep_hashes(&mut self, additional: usize) -> Result<(), AllocError>
    where
        K: Drop,
        A: Copy,
        ensures { self.new ≡ self.old }
    {
        let Store::Few(pairs) = &mut self.store else {
            return Ok(());
        };
        let len = pairs.len();
        if len > FEW || additional <= FEW - len {
            return Ok(());
        }
        let alloc = *pairs.allocator();
        let room = len.saturating_add(additional);
        let Some(hashes) = hashes_of(alloc, pairs.as_slice(), room)? else {
            return Ok(());
        };
        let mut both = Hashed::without_pairs(alloc, Vec::new(alloc), hashes)?;
        mem::swap(&mut both.pairs, pairs);
        let emptied = mem::replace(&mut self.store, Store::Many(both));
        emptied.into_vec().destroy_empty();
        Ok(())
    }

    /// Removes all pairs.
    pub fn clear(&mut self)
    where
        K: Drop,
        V: Drop,
        ensures { self.new ≡ [] }
    {
        match &mut self.store {
            Store::Few(pairs) => pairs.clear(),
            Store::Many(both) => both.clear(),
        }
    }

    // The place of this key.
    fn find<Q: Equivalent<K>>(&self, key: Q) -> Option<usize>
        ensures index { result ≡ position (Q.equivalent key) (keys_of self.now) }
        ensures found { is_some result ≡ list_any (Q.equivalent key) (keys_of self.now) }
        ensures within { IfSome result (λ i. i < length self.now) }
    {
        match &self.store {
            Store::Few(pairs) => search(pairs.as_slice(), key),
            Store::Many(both) => both.find(key),
        }
    }

    // Takes out the pair at this place. The pairs after it close up.
    fn take_at(&mut self, place: usize) -> (K, V)
        requires { place < length self.old }
        ensures pair { slice_get self.old place ≡ Some result }
        ensures pairs { self.new ≡ remove self.old place }
    {
        match &mut self.store {
            Store::Few(pairs) => pairs.remove(place),
            Store::Many(both) => both.remove(place),
        }
    }

    // The pair at this place.
    fn pair_at(&self, index: usize) -> (&K, &V)
        requires { index < length self.now }
        ensures { slice_get self.now index ≡ Some (result.0.now, result.1.now) }
    {
        let (key, value) = &self.pairs_slice()[index];
        (key, value)
    }

    /// The value of this key.
    pub fn get(&self, key: &K) -> Option<&V>
        ensures { option_copied result ≡ lookup (K.eq key.now) self.now }
    {
        match self.find(key) {
            Some(index) => Some(self.pair_at(index).1),
            None => None,
        }
    }

    /// The map's own key that equals this one, with its value.
    pub fn get_key_value(&self, key: &K) -> Option<(&K, &V)>
        ensures { option_map deref_pair result ≡ lookup_entry (K.eq key.now) self.now }
    {
        match self.find(key) {
            Some(index) => Some(self.pair_at(index)),
            None => None,
        }
    }

    /// Whether the map has this key.
    pub fn contains_key(&self, key: &K) -> bool
        ensures { result ≡ is_some (lookup (K.eq key.now) self.now) }
    {
        self.get(key).is_some()
    }

    /// Removes this key, and answers it with its value. The pairs after it close up.
    pub fn remove_entry(&mut self, key: &K) -> Option<(K, V)>
        ensures entry { result ≡ lookup_entry (K.eq key.now) self.old }
        ensures entries { self.new ≡ remove_entry (K.eq key.now) self.old }
    {
        match self.find(key) {
            Some(index) => Some(self.take_at(index)),
            None => None,
        }
    }

    /// Removes this key, and answers its value. The pairs after it close up.
    pub fn remove(&mut self, key: &K) -> Option<V>
    where
        K: Drop,
        ensures value { result ≡ lookup (K.eq key.now) self.old }
        ensures entries { self.new ≡ remove_entry (K.eq key.now) self.old }
    {
        match self.remove_entry(key) {
            Some((_, value)) => Some(value),
            None => None,
        }
    }

    /// The pairs, in their order.
    pub fn iter(&self) -> Iter<'_, K, V>
        ensures { result ≡ self.now }
    {
        Iter::new(self.pairs_slice())
    }

    /// The keys, in their order.
    pub fn keys(&self) -> Keys<'_, K, V>
        ensures { result ≡ keys_of self.now }
    {
        Keys::new(self.pairs_slice())
    }

    /// The values, in their order.
    pub fn values(&self) -> Values<'_, K, V>
        ensures { result ≡ values_of self.now }
    {
        Values::new(self.pairs_slice())
    }

    /// The keys, in their order, by value.
    pub fn into_keys(self) -> IntoKeys<K, V, A>
    where
        K: Drop,
        V: Drop,
        ensures { result ≡ keys_of self }
    {
        IntoKeys::new(self.store.into_vec().into_iter())
    }

    /// The values, in their order, by value.
    pub fn into_values(self) -> IntoValues<K, V, A>
    where
        K: Drop,
        ensures { result ≡ values_of self }
    {
        IntoValues::new(self.store.into_vec().into_iter())
    }
}

impl<'a, V, A: Allocator> Map<CowStr<'a, A>, V, A> {
    /// The value of this name.
    pub(crate) fn get_named(&self, name: &str) -> Option<&V>
        ensures { option_copied result ≡ lookup (is_named name.now) self.now }
    {
        match self.find(name) {
            Some(index) => Some(self.pair_at(index).1),
            None => None,
        }
    }

    /// Removes this name, and gives it back with its value. The pairs after it close up.
    pub(crate) fn remove_named(&mut self, name: &str) -> Option<(CowStr<'a, A>, V)>
        ensures entry { result ≡ lookup_entry (is_named name.now) self.old }
        ensures entries { self.new ≡ remove_entry (is_named name.now) self.old }
    {
        match self.find(name) {
            Some(index) => Some(self.take_at(index)),
            None => None,
        }
    }
}

impl<K: Eq + Hash + Drop, V, A: Allocator + Copy> Map<K, V, A> {
    // Puts a pair last, whose key is equal to none of the others.
    fn push(&mut self, key: K, value: V) -> Result<(), AllocFailed<(K, V)>>
        requires { list_any (K.eq key) (keys_of self.old) ≡ false }
        ensures pairs { OnOk result (self.new ≡ self.old ++ (key, value) ∷ []) }
        ensures value_returned { IfErr result (λ y. y.value ≡ (key, value)) }
        ensures err { OnErr result (self.new ≡ self.old) }
    {
        if self.keep_hashes(1).is_err() {
            return Err(AllocFailed {
                value: (key, value),
            });
        }
        match &mut self.store {
            Store::Few(pairs) => pairs.push((key, value)),
            Store::Many(both) => both.push(key, value),
        }
    }

    /// Sets the value of this key, and answers the old one.
    ///
    /// A new key is appended; a present one keeps its place, and takes no memory. On an error the
    /// pair is given back, and nothing changes.
    pub fn insert(&mut self, key: K, value: V) -> Result<Option<V>, AllocFailed<(K, V)>>
        ensures old { IfOk result (λ old. old ≡ lookup (K.eq key) self.old) }
        ensures entries { OnOk result (self.new ≡ insert_entry K.eq self.old key value) }
        ensures value_returned { IfErr result (λ y. y.value ≡ (key, value)) }
        ensures err { OnErr result (self.new ≡ self.old) }
        ensures memory { OnErr result (lookup (K.eq key) self.old ≡ None) }
    {
        match self.find(&key) {
            Some(index) => Ok(Some(mem::replace(self.value_mut(index), value))),
            None => match self.push(key, value) {
                Ok(()) => Ok(None),
                Err(failed) => Err(failed),
            },
        }
    }
}
