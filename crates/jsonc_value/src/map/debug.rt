//! `Debug` for maps.
use super::Map;
use std::alloc::Allocator;
use std::fmt::{Debug, Formatter, Result, Write};
use std::hash::Hash;

impl<K: Eq + Hash + Debug, V: Debug, A: Allocator> Debug for Map<K, V, A> {
    fn fmt<W: Write>(&self, f: &mut Formatter<W>) -> Result {
        let mut out = f.debug_map();
        for (key, value) in self.iter() {
            out.entry(key, value);
        }
        out.finish()
    }
}
