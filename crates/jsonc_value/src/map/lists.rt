//! Maps of lists of pairs, and copies of maps.
ghost use Rattle.std.specs.Prelude.{◌≡◌, [], IsTrue, IfOk, IfErr, IfSome, OnOk};
ghost use Rattle.std.specs.List.{AllZip, IsDistinct};
ghost use Rattle.std.specs.Map.{keys_of, values_of};
ghost use Rattle.indexmap.specs.IndexMap.{insert_all};
ghost use Rattle.jsonc_value.specs.Copies.{EqualsItsClones, IsPairClone};
ghost use Rattle.jsonc_value.specs.Hashes.{AreHashesOf};
ghost use Rattle.jsonc_value.specs.Lists.{BeginsWithNew, InsertsUpTo};

use super::Map;
use super::hashes::{FEW, Hashes, hashes_of};
use super::search::search;
use super::store::{Hashed, Store};
use std::alloc::{AllocError, AllocFailed, Allocator};
use std::hash::Hash;

impl<K: Eq + Hash + Drop, V: Drop, A: Allocator + Copy> Map<K, V, A> {
    /// A map of these pairs, inserted one after another.
    pub fn from_list<B: Allocator>(alloc: A, pairs: Vec<(K, V), B>) -> Result<Self, AllocError>
        ensures { IfOk result (λ m. m ≡ insert_all K.eq [] pairs.items) }
    {
        let mut map = Map::new(alloc);
        match map.extend_list(pairs) {
            Ok(()) => Ok(map),
            Err(_) => Err(AllocError),
        }
    }
}

// Whether no key of these pairs equals another.
fn are_distinct<K: Eq + Hash, V>(pairs: &[(K, V)]) -> bool
    ensures { IsTrue result → IsDistinct K.eq (keys_of pairs.now) }
{
    for place in 0..pairs.len() {
        if search(&pairs[..place], &pairs[place].0).is_some() {
            return false;
        }
    }
    true
}

// The hashes to keep of these pairs' keys, if the keys are seen to be distinct.
fn hashes_if_distinct<K: Eq + Hash, V, A: Allocator + Copy>(
    alloc: A,
    pairs: &[(K, V)],
) -> Result<Option<Option<Hashes<A>>>, AllocError>
    ensures distinct { IfOk result (λ r. IfSome r (λ _. IsDistinct K.eq (keys_of pairs.now))) }
    ensures hashes { IfOk result (λ r. IfSome r (λ h. IfSome h (λ set. AreHashesOf K.hash_input (keys_of pairs.now) set.keys))) }
{
    if pairs.len() <= FEW {
        return Ok(if are_distinct(pairs) {
            Some(None)
        } else {
            None
        });
    }
    match hashes_of(alloc, pairs, pairs.len())? {
        Some(set) => Ok(Some(Some(set))),
        None => Ok(None),
    }
}

impl<K: Eq + Hash + Drop, V: Drop, A: Allocator + Copy> Map<K, V, A> {
    /// A map of these pairs, few of them and no two of the same key: the vector itself is taken.
    pub(crate) fn of_few(pairs: Vec<(K, V), A>) -> Self
        requires { IsDistinct K.eq (keys_of pairs.items) }
        ensures { result ≡ insert_all K.eq [] pairs.items }
    {
        Map {
            store: Store::Few(pairs),
        }
    }

    /// A map of these pairs, inserted one after another. Where the keys are distinct, the vector
    /// itself is taken.
    pub(crate) fn from_vec(pairs: Vec<(K, V), A>) -> Result<Self, AllocError>
        ensures { IfOk result (λ m. m ≡ insert_all K.eq [] pairs.items) }
    {
        let alloc = *pairs.allocator();
        let kept = hashes_if_distinct(alloc, pairs.as_slice())?;
        match kept {
            Some(Some(hashes)) => {
                let both = Box::new(alloc, Hashed { pairs, hashes })?;
                Ok(Map {
                    store: Store::Many(both),
                })
            }
            Some(None) => Ok(Map {
                store: Store::Few(pairs),
            }),
            None => Map::from_list(alloc, pairs),
        }
    }
}

impl<K: Eq + Hash + Drop, V: Drop, A: Allocator + Copy> Map<K, V, A> {
    /// Inserts these pairs one after another.
    ///
    /// On an error those before the one that failed are inserted, and that one and those after it
    /// are given back. Its key is a new one.
    pub fn extend_list<B: Allocator>(
        &mut self,
        pairs: Vec<(K, V), B>,
    ) -> Result<(), AllocFailed<Vec<(K, V), B>>>
        ensures inserted { OnOk result (self.new ≡ insert_all K.eq self.old pairs.items) }
        ensures refused { IfErr result (λ y. InsertsUpTo K.eq self.old pairs.items y.value.items self.new) }
        ensures memory { IfErr result (λ y. BeginsWithNew K.eq self.new y.value.items) }
    {
        // Last first, so that the next pair is the one that `pop` gives.
        let mut rest = pairs;
        rest.reverse();
        while let Some((key, value)) = rest.pop() {
            if let Err(failed) = self.insert(key, value) {
                let AllocFailed { value: pair } = failed;
                rest.push_reserved(pair);
                rest.reverse();
                return Err(AllocFailed { value: rest });
            }
        }
        Ok(())
    }
}

impl<K: Eq + Hash + Clone + Drop, V: Clone, A: Allocator + Clone> Map<K, V, A> {
    /// A copy of the map. It has clones of the keys and values, pair by pair, in their order.
    ///
    /// A clone of a key has to equal the key, as those of texts, numbers and characters do. The one
    /// error is then an allocation failure.
    pub fn try_clone(&self) -> Result<Self, AllocError>
        requires { EqualsItsClones K.eq K.is_clone }
        ensures { IfOk result (AllZip (IsPairClone K.is_clone V.is_clone) self.now) }
    {
        match &self.store {
            Store::Few(pairs) => {
                let copies = pairs.clone()?;
                Ok(Map {
                    store: Store::Few(copies),
                })
            }
            Store::Many(both) => {
                let copies = both.pairs.clone()?;
                let copy = Hashed::with_pairs(both, copies)?;
                Ok(Map {
                    store: Store::Many(copy),
                })
            }
        }
    }
}

impl<K: Eq + Hash, V, A: Allocator> Map<K, V, A> {
    /// The pairs, in their order.
    pub(crate) fn pairs_slice(&self) -> &[(K, V)]
        ensures { result.now ≡ self.now }
    {
        self.store.as_slice()
    }

    /// What the map takes its memory from.
    pub(crate) fn allocator(&self) -> &A {
        match &self.store {
            Store::Few(pairs) => pairs.allocator(),
            Store::Many(both) => both.pairs.allocator(),
        }
    }
}

impl<K: Eq + Hash + Clone + Drop, V: Drop, A: Allocator + Clone> Map<K, V, A> {
    /// A map of these pairs, whose keys are clones of this one's, in their order.
    pub(crate) fn with_copies(&self, pairs: Vec<(K, V), A>) -> Result<Self, AllocError>
        requires keys { AllZip K.is_clone (keys_of self.now) (keys_of pairs.items) }
        requires equal { EqualsItsClones K.eq K.is_clone }
        ensures { IfOk result (λ m. m ≡ pairs.items) }
    {
        match &self.store {
            Store::Few(_) => Ok(Map {
                store: Store::Few(pairs),
            }),
            Store::Many(both) => {
                let copy = Hashed::with_pairs(both, pairs)?;
                Ok(Map {
                    store: Store::Many(copy),
                })
            }
        }
    }
}
