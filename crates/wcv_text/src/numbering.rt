// Numbers by order of first appearance.
ghost use Rattle.std.specs.Prelude.{◌≡◌, [], ◌∷◌, ◌++◌, false, length, OnOk};
ghost use Rattle.wcv_types.specs.Positions.{position_of, is_there};

use std::alloc::{AllocError, Global};
use std::hash::Hash;
use std::marker::Model;
use wcv_core::IndexMapAppendOnly;

/// Keys, numbered from 0 in the order in which they came. Contracts see it as the list of them.
#[derive(Drop)]
pub struct Numbering<K: Hash + Eq + Ord + Clone> {
    numbers: IndexMapAppendOnly<K, usize>,
}

impl<K: Hash + Eq + Ord + Clone> Model for Numbering<K> {
    ghost use Rattle.std.specs.Prelude.{List};
    ghost use Rattle.std.specs.Map.{keys_of};
    ghost use Rattle.wcv_text.specs.Numbering.{AreNumberedFrom};

    ghost Value = { List K };

    ghost view = { λ n. keys_of n.numbers };

    ghost invariant = { λ n. AreNumberedFrom 0 n.numbers };
}

impl<K: Hash + Eq + Ord + Clone> Numbering<K> {
    /// No key.
    pub fn new(alloc: Global) -> Self
        ensures { result ≡ [] }
    {
        Numbering {
            numbers: IndexMapAppendOnly::new(alloc),
        }
    }

    /// How many keys there are.
    pub fn len(&self) -> usize
        ensures { result ≡ length self.now }
    {
        self.numbers.len()
    }

    /// Whether the key has a number.
    #[tactic(auto, using(crate::proofs::Found::some_there, crate::proofs::Found::none_there))]
    pub fn has(&self, key: &K) -> bool
        ensures { result ≡ is_there K.Eq.eq key.now self.now }
    {
        match self.numbers.get(key) {
            Some(_) => true,
            None => false,
        }
    }

    /// The number of the key. One that has none would get that number next.
    #[tactic(auto, using(crate::proofs::Found::found_number, crate::proofs::Found::none_number))]
    pub fn number(&self, key: &K) -> usize
        ensures { result ≡ position_of K.Eq.eq key.now self.now }
    {
        match self.numbers.get(key) {
            Some(number) => *number,
            None => self.numbers.len(),
        }
    }

    /// Gives the next number to a key that has none.
    #[tactic(auto, using(crate::proofs::Found::none_found, crate::proofs::Found::next_numbered))]
    pub fn push(&mut self, key: K) -> Result<(), AllocError>
    where
        K: Drop,
        requires { is_there K.Eq.eq key self.old ≡ false }
        ensures { OnOk result (self.new ≡ self.old ++ key ∷ []) }
    {
        let number = self.numbers.len();
        match self.numbers.insert(key, number) {
            Ok(()) => Ok(()),
            Err(_) => Err(AllocError),
        }
    }
}
