//! The hashes of a map's keys, by which one of many is found.
ghost use Rattle.std.specs.Prelude.{◌≡◌, ◌++◌, ◌∷◌, [], IfOk, IfSome};
ghost use Rattle.std.specs.List.{IsDistinct};
ghost use Rattle.std.specs.Map.{keys_of};
ghost use Rattle.jsonc_value.specs.Hashes.{hashed, AreHashesOf};

use indexmap::IndexSet;
use std::alloc::{AllocError, Allocator};
use std::hash::{BuildHasher, BuildHasherDefault, FoldHasher, Hash};

/// So many keys at most are searched one by one.
pub(crate) const FEW: usize = 8;

/// The hashes of keys, in the keys' order.
pub(crate) type Hashes<A> = IndexSet<u64, BuildHasherDefault<FoldHasher>, A>;

/// The hash of a key.
pub(crate) fn hash_of<Q: Hash + Copy>(key: Q) -> u64
    ensures { result ≡ hashed (Q.hash_input key) }
{
    let builder: BuildHasherDefault<FoldHasher> = BuildHasherDefault::new();
    builder.hash_one(key)
}

/// The hashes of these pairs' keys, with room for so many, unless two keys have the same.
#[cold]
pub(crate) fn hashes_of<K: Eq + Hash, V, A: Allocator + Copy>(
    alloc: A,
    pairs: &[(K, V)],
    room: usize,
) -> Result<Option<Hashes<A>>, AllocError>
    ensures hashes { IfOk result (λ h. IfSome h (λ set. AreHashesOf K.hash_input (keys_of pairs.now) set.keys)) }
    ensures distinct { IfOk result (λ h. IfSome h (λ _. IsDistinct K.eq (keys_of pairs.now))) }
{
    let mut set = IndexSet::with_capacity(alloc, room)?;
    for place in 0..pairs.len() {
        if !set.insert(hash_of(&pairs[place].0))? {
            return Ok(None);
        }
    }
    Ok(Some(set))
}

/// Keeps the hash of one more key behind those of these pairs' keys. Where another key has the same,
/// or there is no room, none are kept any more.
pub(crate) fn push_hash<K: Eq + Hash, V, A: Allocator>(
    hashes: &mut Hashes<A>,
    pairs: &[(K, V)],
    key: &K,
)
    requires { AreHashesOf K.hash_input (keys_of pairs.now) hashes.old.keys }
    ensures { AreHashesOf K.hash_input (keys_of pairs.now ++ key.now ∷ []) hashes.new.keys }
{
    if hashes.len() == pairs.len() && !matches!(hashes.insert(hash_of(key)), Ok(true)) {
        hashes.clear();
    }
}
