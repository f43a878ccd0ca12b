// A map that only grows, and keeps the order of insertion.
ghost use Rattle.std.specs.Prelude.{◌≡◌, List, [], ◌∷◌, ◌++◌, None, length, slice_get, option_copied, option_map, OnOk, OnErr};

use crate::memory::OutOfMemory;
use indexmap::IndexMap;
use std::alloc::Global;
use std::hash::Hash;
use std::marker::Model;

/// Pairs in the order of insertion, each key once. Contracts see it as the list of its pairs.
#[derive(Drop)]
pub struct IndexMapAppendOnly<K: Hash + Eq + Ord + Clone, V> {
    map: IndexMap<K, V>,
}

impl<K: Hash + Eq + Ord + Clone, V> Model for IndexMapAppendOnly<K, V> {
    ghost use Rattle.std.specs.Prelude.{List};

    ghost Value = { List (K × V) };

    ghost view = { λ m. m.map.entries };
}

impl<K: Hash + Eq + Ord + Clone, V> IndexMapAppendOnly<K, V> {
    ghost use Rattle.std.specs.List.{IsDistinct};
    ghost use Rattle.std.specs.Map.{keys_of, lookup};
    ghost use Rattle.std.specs.Map.Iter.{deref_pair, ShowsInOrder, GivesInOrder};

    /// A map with no pair.
    pub fn new(alloc: Global) -> Self
        ensures { result ≡ [] }
    {
        IndexMapAppendOnly {
            map: IndexMap::new(alloc),
        }
    }

    /// Appends a pair with a key that is not there. On an error the map stays as it was.
    #[tactic(auto, using(crate::proofs::Appending::appends))]
    pub fn insert(&mut self, key: K, value: V) -> Result<(), OutOfMemory>
    where
        K: Drop,
        V: Drop,
        requires { lookup (K.Eq.eq key) self.old ≡ None }
        ensures ok { OnOk result (self.new ≡ self.old ++ (key, value) ∷ []) }
        ensures err { OnErr result (self.new ≡ self.old) }
    {
        match self.map.insert(key, value) {
            Ok(old) => {
                drop(old);
                Ok(())
            }
            Err(refused) => {
                drop(refused);
                Err(OutOfMemory)
            }
        }
    }

    /// The value of the key.
    pub fn get(&self, key: &K) -> Option<&V>
        ensures { option_copied result ≡ lookup (K.Eq.eq key.now) self.now }
    {
        self.map.get(key)
    }

    /// How many pairs there are. No two of them have one key.
    pub fn len(&self) -> usize
        ensures value { result ≡ length self.now }
        ensures unique { IsDistinct K.Eq.eq (keys_of self.now) }
    {
        self.map.len()
    }

    /// The pair at this position.
    pub fn get_index(&self, k: usize) -> Option<(&K, &V)>
        ensures { option_map deref_pair result ≡ slice_get self.now k }
    {
        self.map.get_index(k)
    }

    /// The pairs, lent, in their order.
    pub fn iter(&self) -> Iter<'_, K, V>
        ensures rest { result ≡ self.now }
        ensures runs { ShowsInOrder (deref_pair {K = K} {X = V}) }
    {
        self.map.iter()
    }

    /// The pairs, in their order.
    pub fn into_iter(self) -> IntoIter<K, V>
    where
        K: Drop,
        V: Drop,
        ensures rest { result ≡ self }
    {
        self.map.into_iter()
    }
}

/// The pairs, lent, in their order.
pub type Iter<'a, K, V> = indexmap::map::Iter<'a, K, V>;

/// The pairs, in their order.
pub type IntoIter<K, V> = indexmap::map::IntoIter<K, V>;
