// Sets of nodes, by their places in the arena.
ghost use Rattle.std.specs.Prelude.{◌≡◌, [], OnOk, OnErr};
ghost use Rattle.wcv_types.specs.Sets.{has_place, with_place};

use indexmap::IndexSet;
use std::alloc::Global;
use std::marker::Model;
use wcv_core::OutOfMemory;

/// Places of nodes, each once. Contracts see it as the list of them.
#[derive(Drop)]
pub struct PlaceSet {
    places: IndexSet<u64>,
}

impl Model for PlaceSet {
    ghost use Rattle.std.specs.Prelude.{List, ℕ};

    ghost Value = { List ℕ };

    ghost view = { λ s. s.places.keys };
}

impl PlaceSet {
    /// No place.
    pub fn new(alloc: Global) -> PlaceSet
        ensures { result ≡ [] }
    {
        PlaceSet {
            places: IndexSet::new(alloc),
        }
    }

    /// One more place. Out of memory nothing changes.
    pub fn push(&mut self, place: u64) -> Result<(), OutOfMemory>
        ensures ok { OnOk result (self.new ≡ with_place self.old place) }
        ensures err { OnErr result (self.new ≡ self.old) }
    {
        match self.places.insert(place) {
            Ok(_) => Ok(()),
            Err(_) => Err(OutOfMemory),
        }
    }

    /// Whether the set has the place.
    pub fn contains(&self, place: u64) -> bool
        ensures { result ≡ has_place self.now place }
    {
        self.places.contains(&place)
    }
}
