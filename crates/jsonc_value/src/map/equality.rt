//! Equality of maps, which does not look at the order of their pairs.
ghost use Rattle.std.specs.Cmp;
ghost use Rattle.std.specs.Cmp.{partial_equiv_from_equiv};
ghost use Rattle.std.specs.HashMap.{entries_eq};
ghost use Rattle.std.specs.HashMap.Eq.{hash_map_eq_symm, hash_map_eq_trans, hash_map_eq_refl};
ghost use Rattle.jsonc_value.specs.Equal.{as_map};

use super::Map;
use std::alloc::Allocator;
use std::hash::Hash;

impl<K: Eq + Hash, V: PartialEq, A: Allocator> PartialEq for Map<K, V, A> {
    ghost eq = { λ m n. entries_eq K.eq (λ p q. V.eq p.1 q.1) m n };

    ghost laws = { let v = V.laws in record {
      symm = λ m n. hash_map_eq_symm K.eq V.eq v.symm (as_map m) (as_map n);
      trans = λ l m n. hash_map_eq_trans K.eq V.eq K.Eq.laws v.trans (as_map l) (as_map m) (as_map n);
    } };

    fn eq(&self, other: &Map<K, V, A>) -> bool {
        let len = self.len();
        if len != other.len() {
            return false;
        }
        for i in 0..len {
            let (key, value) = self.pair_at(i);
            match other.get(key) {
                Some(theirs) => {
                    if !value.eq(theirs) {
                        return false;
                    }
                }
                None => return false,
            }
        }
        true
    }
}

impl<K: Eq + Hash, V: Eq, A: Allocator> Eq for Map<K, V, A> {
    ghost laws = { let v = V.Eq.laws in Cmp.equiv
        (record {
          symm = λ m n. hash_map_eq_symm K.eq V.eq v.symm (as_map m) (as_map n);
          trans = λ l m n. hash_map_eq_trans K.eq V.eq K.Eq.laws (partial_equiv_from_equiv v).trans
              (as_map l) (as_map m) (as_map n);
        }) (λ m. hash_map_eq_refl K.eq V.eq v.refl (as_map m)) };
}
