// Sets by places of nodes, each once it was gathered.
ghost use Rattle.std.specs.Prelude.{◌≡◌, [], eqb, option_copied, OnOk, OnErr};
ghost use Rattle.std.specs.Map.{lookup};
ghost use Rattle.wcv_types.specs.Sets.{with_set};

use std::alloc::Global;
use std::marker::Model;
use wcv_core::{IndexMapAppendOnly, OutOfMemory};

/// Sets by places of nodes. Contracts see it as the list of its pairs.
#[derive(Drop)]
pub struct SetsByPlace<S> {
    sets: IndexMapAppendOnly<u64, S>,
}

impl<S> Model for SetsByPlace<S> {
    ghost use Rattle.std.specs.Prelude.{List, ℕ};

    ghost Value = { List (ℕ × S) };

    ghost view = { λ s. s.sets };
}

impl<S> SetsByPlace<S> {
    /// No set.
    pub fn new(alloc: Global) -> SetsByPlace<S>
        ensures { result ≡ [] }
    {
        SetsByPlace {
            sets: IndexMapAppendOnly::new(alloc),
        }
    }

    /// The set of the node at this place.
    pub fn get(&self, place: u64) -> Option<&S>
        ensures { option_copied result ≡ lookup (eqb place) self.now }
    {
        self.sets.get(&place)
    }

    /// One more set, unless the place has one.
    pub fn put(&mut self, place: u64, set: S) -> Result<(), OutOfMemory>
    where
        S: Drop,
        ensures ok { OnOk result (self.new ≡ with_set self.old place set) }
        ensures err { OnErr result (self.new ≡ self.old) }
    {
        if self.get(place).is_some() {
            return Ok(());
        }
        self.sets.insert(place, set)
    }
}
