//! Removal of the pairs that a predicate turns down.
ghost use Rattle.std.specs.Prelude.{◌≡◌, ◌<◌, length, take, swap};
ghost use Rattle.jsonc_value.specs.Retained.{Retains, AnswersAt};

use super::{Map, Store};
use std::alloc::Allocator;
use std::hash::Hash;

impl<K: Eq + Hash, V, A: Allocator> Map<K, V, A> {
    // Puts the pairs at these places in each other's place.
    fn swap_pairs(&mut self, first: usize, second: usize)
        requires first { first < length self.old }
        requires second { second < length self.old }
        ensures { self.new ≡ swap self.old first second }
    {
        match &mut self.store {
            Store::Few(pairs) => pairs.swap(first, second),
            Store::Many(both) => both.swap(first, second),
        }
    }

    // Keeps the first pairs, this many at most.
    fn truncate(&mut self, len: usize)
    where
        K: Drop,
        V: Drop,
        ensures { self.new ≡ take len self.old }
    {
        match &mut self.store {
            Store::Few(pairs) => pairs.truncate(len),
            Store::Many(both) => both.truncate(len),
        }
    }
}

impl<K: Eq + Hash + Drop, V: Drop, A: Allocator> Map<K, V, A> {
    /// Keeps the pairs for which `keep` answers true. They stay in their order.
    pub fn retain<F: Fn(&K, &V) -> bool>(&mut self, keep: F)
        requires { F.IsAlwaysCallable keep }
        ensures { Retains (AnswersAt (F.Fn.post keep)) self.old self.new }
    {
        let len = self.len();
        let mut kept = 0;
        for place in 0..len {
            let (key, value) = self.pair_at(place);
            if !keep(key, value) {
                continue;
            }
            self.swap_pairs(kept, place);
            kept += 1;
        }
        self.truncate(kept);
    }
}
