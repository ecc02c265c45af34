//! Where a map keeps its pairs: of more than a few with the hashes of their keys, behind one pointer.
ghost use Rattle.std.specs.Prelude.{◌≡◌, ◌<◌, ◌++◌, ◌∷◌, [], length, position, remove, swap, take, is_some, slice_get, Some, IfOk, IfErr, IfSome, OnOk, OnErr};
ghost use Rattle.std.specs.List.{list_any};
ghost use Rattle.std.specs.Map.{keys_of};
ghost use Rattle.jsonc_value.specs.Hashes.{AreHashesOf};
ghost use Rattle.jsonc_value.specs.Stores.{IsHashed, pairs_in};

use super::hashes::{Hashes, push_hash};
use super::search::place_of;
use indexmap::Equivalent;
use std::alloc::{AllocError, AllocFailed, Allocator};
use std::hash::Hash;

/// The pairs of a map.
#[doc(hidden)]
#[derive(Drop)]
pub enum Store<K, V, A: Allocator> {
    /// Their keys are searched one by one.
    Few(Vec<(K, V), A>),
    /// Their keys are found by their hashes.
    Many(Box<Hashed<K, V, A>, A>),
}

/// Pairs beside the hashes of their keys.
#[doc(hidden)]
#[derive(Drop)]
pub struct Hashed<K, V, A: Allocator> {
    pub(crate) pairs: Vec<(K, V), A>,
    // None where two keys have the same.
    pub(crate) hashes: Hashes<A>,
}

impl<K, V, A: Allocator> Store<K, V, A> {
    /// The pairs, in their order.
    pub(crate) fn as_slice(&self) -> &[(K, V)]
        ensures { result.now ≡ pairs_in self.now }
    {
        match self {
            Store::Few(pairs) => pairs.as_slice(),
            Store::Many(both) => both.pairs.as_slice(),
        }
    }

    /// The pairs, by value.
    pub(crate) fn into_vec(self) -> Vec<(K, V), A>
        ensures { result.items ≡ pairs_in self }
    {
        match self {
            Store::Few(pairs) => pairs,
            Store::Many(both) => {
                let Hashed { pairs, hashes: _ } = Box::into_inner(both);
                pairs
            }
        }
    }
}

impl<K, V, A: Allocator> Hashed<K, V, A> {
    /// An empty vector beside these hashes, which are let go where there is no memory.
    pub(crate) fn without_pairs(
        alloc: A,
        pairs: Vec<(K, V), A>,
        hashes: Hashes<A>,
    ) -> Result<Box<Self, A>, AllocError>
        requires { pairs.items ≡ [] }
        ensures pairs { IfOk result (λ b. b.value.pairs ≡ pairs) }
        ensures hashes { IfOk result (λ b. b.value.hashes ≡ hashes) }
    {
        match Box::new(alloc, Hashed { pairs, hashes }) {
            Ok(both) => Ok(both),
            Err(failed) => {
                let AllocFailed { value } = failed;
                let Hashed { pairs, hashes: _ } = value;
                pairs.destroy_empty();
                Err(AllocError)
            }
        }
    }

    /// Makes room for this many more pairs.
    pub(crate) fn reserve(&mut self, additional: usize) -> Result<(), AllocError>
        ensures pairs { self.new.pairs.items ≡ self.old.pairs.items }
        ensures hashes { self.new.hashes.keys ≡ self.old.hashes.keys }
    {
        self.hashes.reserve(additional)?;
        self.pairs.reserve(additional)
    }

    /// Removes all pairs.
    pub(crate) fn clear(&mut self)
    where
        K: Drop,
        V: Drop,
        ensures pairs { self.new.pairs.items ≡ [] }
        ensures hashes { self.new.hashes.keys ≡ [] }
    {
        self.pairs.clear();
        self.hashes.clear();
    }
}

impl<K: Eq + Hash, V, A: Allocator> Hashed<K, V, A> {
    /// The first place of this key.
    pub(crate) fn find<Q: Equivalent<K>>(&self, key: Q) -> Option<usize>
        requires { IsHashed K.hash_input self.now }
        ensures index { result ≡ position (Q.equivalent key) (keys_of self.now.pairs.items) }
        ensures found { is_some result ≡ list_any (Q.equivalent key) (keys_of self.now.pairs.items) }
        ensures within { IfSome result (λ i. i < length self.now.pairs.items) }
    {
        place_of(self.pairs.as_slice(), &self.hashes, key)
    }

    /// Puts a pair last. Where another key has the same hash, none are kept any more.
    pub(crate) fn push(&mut self, key: K, value: V) -> Result<(), AllocFailed<(K, V)>>
    where
        K: Drop,
        requires { IsHashed K.hash_input self.old }
        ensures hashes { IsHashed K.hash_input self.new }
        ensures pairs { OnOk result (self.new.pairs.items ≡ self.old.pairs.items ++ (key, value) ∷ []) }
        ensures value_returned { IfErr result (λ y. y.value ≡ (key, value)) }
        ensures err { OnErr result (self.new.pairs.items ≡ self.old.pairs.items) }
    {
        let has_room = self.hashes.reserve(1).is_ok();
        if !has_room || self.pairs.reserve(1).is_err() {
            return Err(AllocFailed {
                value: (key, value),
            });
        }
        push_hash(&mut self.hashes, self.pairs.as_slice(), &key);
        self.pairs.push_reserved((key, value));
        Ok(())
    }

    /// Takes out the pair at this place. The pairs after it close up.
    pub(crate) fn remove(&mut self, place: usize) -> (K, V)
        requires within { place < length self.old.pairs.items }
        requires hashes { IsHashed K.hash_input self.old }
        ensures hashes { IsHashed K.hash_input self.new }
        ensures pair { slice_get self.old.pairs.items place ≡ Some result }
        ensures pairs { self.new.pairs.items ≡ remove self.old.pairs.items place }
    {
        let _hash = self.hashes.shift_remove_index(place);
        self.pairs.remove(place)
    }

    /// Puts the pairs at these places in each other's place.
    pub(crate) fn swap(&mut self, first: usize, second: usize)
        requires first { first < length self.old.pairs.items }
        requires second { second < length self.old.pairs.items }
        requires hashes { IsHashed K.hash_input self.old }
        ensures hashes { IsHashed K.hash_input self.new }
        ensures pairs { self.new.pairs.items ≡ swap self.old.pairs.items first second }
    {
        self.pairs.swap(first, second);
        if self.hashes.is_empty() {
            return;
        }
        self.hashes.swap_indices(first, second);
    }

    /// Keeps the first pairs, this many at most.
    pub(crate) fn truncate(&mut self, len: usize)
    where
        K: Drop,
        V: Drop,
        requires { IsHashed K.hash_input self.old }
        ensures hashes { IsHashed K.hash_input self.new }
        ensures pairs { self.new.pairs.items ≡ take len self.old.pairs.items }
    {
        self.hashes.truncate(len);
        self.pairs.truncate(len);
    }
}

impl<K: Drop, V: Drop, A: Allocator + Clone> Hashed<K, V, A> {
    /// These pairs beside a copy of the hashes.
    pub(crate) fn with_pairs(
        both: &Box<Self, A>,
        pairs: Vec<(K, V), A>,
    ) -> Result<Box<Self, A>, AllocError>
        ensures pairs { IfOk result (λ b. b.value.pairs ≡ pairs) }
        ensures hashes { IfOk result (λ b. b.value.hashes.keys ≡ both.now.value.hashes.keys) }
    {
        let hashes = both.hashes.clone()?;
        let alloc = Box::allocator(both).clone()?;
        Ok(Box::new(alloc, Hashed { pairs, hashes })?)
    }
}
