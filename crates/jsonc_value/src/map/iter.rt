//! The iterators over the pairs of a map. Each is seen as the list of what it has left.
ghost use Rattle.std.specs.Prelude.{◌≡◌, length};
ghost use Rattle.std.specs.Iterator.{at_most};
ghost use Rattle.std.specs.Map.{keys_of, values_of};
ghost use Rattle.std.specs.Map.Iter.{TakesFirst, deref, deref_pair};
ghost use Rattle.std.specs.Vec.Iter.{into_iter_items};

use super::Map;
use std::alloc::Allocator;
use std::hash::Hash;
use std::marker::Model;
use std::{slice, vec};

/// The pairs of a map, each as `(&K, &V)`.
#[derive(Drop)]
pub struct Iter<'a, K, V> {
    pairs: slice::Iter<'a, (K, V)>,
}

impl<'a, K, V> Model for Iter<'a, K, V> {
    ghost use Rattle.std.specs.Prelude.{List};
    ghost use Rattle.std.specs.Slice.Iter.{iter_rest};

    ghost Value = { List (K × V) };

    ghost view = { λ s. iter_rest s.pairs };
}

impl<'a, K, V> Iter<'a, K, V> {
    pub(crate) fn new(pairs: &'a [(K, V)]) -> Self
        ensures { result ≡ pairs.now }
    {
        Iter {
            pairs: pairs.iter(),
        }
    }
}

impl<'a, K, V> Iterator for Iter<'a, K, V> {
    type Item = (&'a K, &'a V);

    ghost next_gives = { TakesFirst deref_pair };

    ghost remaining = { λ s. at_most (length s) };

    fn next(&mut self) -> Option<(&'a K, &'a V)> {
        let (key, value) = self.pairs.next()?;
        Some((key, value))
    }
}

/// The keys of a map.
#[derive(Drop)]
pub struct Keys<'a, K, V> {
    pairs: slice::Iter<'a, (K, V)>,
}

impl<'a, K, V> Model for Keys<'a, K, V> {
    ghost use Rattle.std.specs.Prelude.{List};
    ghost use Rattle.std.specs.Map.{keys_of};
    ghost use Rattle.std.specs.Slice.Iter.{iter_rest};

    ghost Value = { List K };

    ghost view = { λ s. keys_of (iter_rest s.pairs) };
}

impl<'a, K, V> Keys<'a, K, V> {
    pub(crate) fn new(pairs: &'a [(K, V)]) -> Self
        ensures { result ≡ keys_of pairs.now }
    {
        Keys {
            pairs: pairs.iter(),
        }
    }
}

impl<'a, K, V> Iterator for Keys<'a, K, V> {
    type Item = &'a K;

    ghost next_gives = { TakesFirst deref };

    ghost remaining = { λ s. at_most (length s) };

    fn next(&mut self) -> Option<&'a K> {
        let (key, _) = self.pairs.next()?;
        Some(key)
    }
}

/// The values of a map.
#[derive(Drop)]
pub struct Values<'a, K, V> {
    pairs: slice::Iter<'a, (K, V)>,
}

impl<'a, K, V> Model for Values<'a, K, V> {
    ghost use Rattle.std.specs.Prelude.{List};
    ghost use Rattle.std.specs.Map.{values_of};
    ghost use Rattle.std.specs.Slice.Iter.{iter_rest};

    ghost Value = { List V };

    ghost view = { λ s. values_of (iter_rest s.pairs) };
}

impl<'a, K, V> Values<'a, K, V> {
    pub(crate) fn new(pairs: &'a [(K, V)]) -> Self
        ensures { result ≡ values_of pairs.now }
    {
        Values {
            pairs: pairs.iter(),
        }
    }
}

impl<'a, K, V> Iterator for Values<'a, K, V> {
    type Item = &'a V;

    ghost next_gives = { TakesFirst deref };

    ghost remaining = { λ s. at_most (length s) };

    fn next(&mut self) -> Option<&'a V> {
        let (_, value) = self.pairs.next()?;
        Some(value)
    }
}

/// The pairs of a map, by value.
#[derive(Drop)]
pub struct IntoIter<K, V, A: Allocator> {
    pairs: vec::IntoIter<(K, V), A>,
}

impl<K, V, A: Allocator> Model for IntoIter<K, V, A> {
    ghost use Rattle.std.specs.Prelude.{List};
    ghost use Rattle.std.specs.Vec.Iter.{into_iter_items};

    ghost Value = { List (K × V) };

    ghost view = { λ s. into_iter_items s.pairs };
}

impl<K: Drop, V: Drop, A: Allocator> Iterator for IntoIter<K, V, A> {
    type Item = (K, V);

    ghost next_gives = { TakesFirst (λ p. p) };

    ghost remaining = { λ s. at_most (length s) };

    fn next(&mut self) -> Option<(K, V)> {
        self.pairs.next()
    }
}

/// The keys of a map, by value.
#[derive(Drop)]
pub struct IntoKeys<K, V, A: Allocator> {
    pairs: vec::IntoIter<(K, V), A>,
}

impl<K, V, A: Allocator> Model for IntoKeys<K, V, A> {
    ghost use Rattle.std.specs.Prelude.{List};
    ghost use Rattle.std.specs.Map.{keys_of};
    ghost use Rattle.std.specs.Vec.Iter.{into_iter_items};

    ghost Value = { List K };

    ghost view = { λ s. keys_of (into_iter_items s.pairs) };
}

impl<K, V, A: Allocator> IntoKeys<K, V, A> {
    pub(crate) fn new(pairs: vec::IntoIter<(K, V), A>) -> Self
        ensures { result ≡ keys_of (into_iter_items pairs) }
    {
        IntoKeys { pairs }
    }
}

impl<K: Drop, V: Drop, A: Allocator> Iterator for IntoKeys<K, V, A> {
    type Item = K;

    ghost next_gives = { TakesFirst (λ k. k) };

    ghost remaining = { λ s. at_most (length s) };

    fn next(&mut self) -> Option<K> {
        let (key, _) = self.pairs.next()?;
        Some(key)
    }
}

/// The values of a map, by value.
#[derive(Drop)]
pub struct IntoValues<K, V, A: Allocator> {
    pairs: vec::IntoIter<(K, V), A>,
}

impl<K, V, A: Allocator> Model for IntoValues<K, V, A> {
    ghost use Rattle.std.specs.Prelude.{List};
    ghost use Rattle.std.specs.Map.{values_of};
    ghost use Rattle.std.specs.Vec.Iter.{into_iter_items};

    ghost Value = { List V };

    ghost view = { λ s. values_of (into_iter_items s.pairs) };
}

impl<K, V, A: Allocator> IntoValues<K, V, A> {
    pub(crate) fn new(pairs: vec::IntoIter<(K, V), A>) -> Self
        ensures { result ≡ values_of (into_iter_items pairs) }
    {
        IntoValues { pairs }
    }
}

impl<K: Drop, V: Drop, A: Allocator> Iterator for IntoValues<K, V, A> {
    type Item = V;

    ghost next_gives = { TakesFirst (λ v. v) };

    ghost remaining = { λ s. at_most (length s) };

    fn next(&mut self) -> Option<V> {
        let (_, value) = self.pairs.next()?;
        Some(value)
    }
}

impl<K: Eq + Hash + Drop, V: Drop, A: Allocator> IntoIterator for Map<K, V, A> {
    type Item = (K, V);

    type IntoIter = IntoIter<K, V, A>;

    ghost into_iter_gives = { λ m r. r ≡ m };

    fn into_iter(self) -> IntoIter<K, V, A> {
        IntoIter {
            pairs: self.store.into_vec().into_iter(),
        }
    }
}

impl<'a, K: Eq + Hash, V, A: Allocator> IntoIterator for &'a Map<K, V, A> {
    type Item = (&'a K, &'a V);

    type IntoIter = Iter<'a, K, V>;

    ghost into_iter_gives = { λ m r. r ≡ m.now };

    fn into_iter(self) -> Iter<'a, K, V> {
        self.iter()
    }
}
