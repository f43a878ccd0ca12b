// The names of resources.
ghost use Rattle.std.specs.Prelude.{◌≡◌, ◌||◌, [], ◌∷◌, ◌++◌, ℕ, List, None, bytes_eq, OnOk, OnErr};
ghost use Rattle.wcv_core.specs.Label.{is_among};
ghost use Rattle.wcv_types.specs.Unfold.{reference};
ghost use Rattle.wcv_names.specs.ResourceNames.{is_named_so, name_of, names_of, reference_of};

use std::alloc::Global;
use std::marker::Model;
use wcv_core::{IndexMapAppendOnly, OutOfMemory, TextSet};
use wcv_types::AliasableResourceId;

/// The names of resources in a list of imports or of exports, each once, and of each reference the position of
/// its name among them. Contracts see each reference with its name, in order, and the names.
#[derive(Drop)]
pub struct ComponentNameContext {
    places: IndexMapAppendOnly<AliasableResourceId, usize>,
    names: TextSet,
    alloc: Global,
}

impl Model for ComponentNameContext {
    ghost use Rattle.wcv_names.specs.ResourceNames.{Named_ids, named_by, AllNamed};

    ghost Value = { Named_ids };

    ghost view = { λ c. record { references = named_by c.names c.places; names = c.names } };

    ghost invariant = { λ c. AllNamed c.names c.places };
}

impl ComponentNameContext {
    /// No name.
    pub fn new(alloc: Global) -> ComponentNameContext
        ensures { result ≡ record { references = []; names = [] } }
    {
        ComponentNameContext {
            places: IndexMapAppendOnly::new(alloc),
            names: TextSet::new(alloc),
            alloc,
        }
    }

    /// The allocator that it keeps.
    pub(crate) fn allocator(&self) -> Global {
        self.alloc
    }

    /// The reference has the name from then on. Out of memory it has none, and the name may be there.
    pub fn register(&mut self, name: &str, id: AliasableResourceId) -> Result<(), OutOfMemory>
        requires { name_of (names_of self.old) (reference_of id) ≡ None }
        ensures references { OnOk result (self.new.references ≡ self.old.references ++ (id, name.now) ∷ []) }
        ensures names { OnOk result ((t : List ℕ) → is_among t self.new.names ≡ (bytes_eq t name.now || is_among t self.old.names)) }
        ensures err { OnErr result (self.new.references ≡ self.old.references) }
    {
        let place = self.names.place_of(name)?;
        self.places.insert(id, place)
    }

    /// Whether the reference has the name.
    pub fn is_named(&self, id: &AliasableResourceId, name: &str) -> bool
        ensures { result ≡ is_named_so (names_of self.now) name.now (reference id.now) }
    {
        match self.places.get(id) {
            Some(place) => self.names.is_at(*place, name),
            None => false,
        }
    }

    /// Whether some reference has the name.
    pub fn has_name(&self, name: &str) -> bool
        ensures { result ≡ is_among name.now self.now.names }
    {
        self.names.find(name).is_some()
    }
}
