// Sets of types, by their ids.
ghost use Rattle.std.specs.Prelude.{◌≡◌, [], length, slice_get, option_copied, OnOk, OnErr};
ghost use Rattle.wcv_types.specs.Sets.{has_type, with_type};

use crate::ids::ComponentAnyTypeId;
use indexmap::IndexSet;
use std::alloc::Global;
use std::marker::Model;
use wcv_core::OutOfMemory;

/// Identities of types, each once, in the order in which they came. Contracts see it as the list of them.
#[derive(Drop)]
pub struct TypeSet {
    ids: IndexSet<ComponentAnyTypeId>,
}

impl Model for TypeSet {
    ghost use Rattle.std.specs.Prelude.{List};
    ghost use Rattle.wcv_types.specs.declared.ids.ComponentAnyTypeId.{ComponentAnyTypeId};

    ghost Value = { List ComponentAnyTypeId };

    ghost view = { λ s. s.ids.keys };
}

impl TypeSet {
    /// No type.
    pub fn new(alloc: Global) -> TypeSet
        ensures { result ≡ [] }
    {
        TypeSet {
            ids: IndexSet::new(alloc),
        }
    }

    /// One more type, behind all others. A set that has it stays as it is, and so does any set out of memory.
    pub fn push(&mut self, entry: ComponentAnyTypeId) -> Result<(), OutOfMemory>
        ensures ok { OnOk result (self.new ≡ with_type self.old entry) }
        ensures err { OnErr result (self.new ≡ self.old) }
    {
        match self.ids.insert(entry) {
            Ok(_) => Ok(()),
            Err(_) => Err(OutOfMemory),
        }
    }

    /// How many there are.
    pub fn len(&self) -> usize
        ensures { result ≡ length self.now }
    {
        self.ids.len()
    }

    /// The type at this position.
    pub fn get_index(&self, k: usize) -> Option<&ComponentAnyTypeId>
        ensures { option_copied result ≡ slice_get self.now k }
    {
        self.ids.get_index(k)
    }

    /// Whether the set has the type.
    pub fn contains(&self, entry: &ComponentAnyTypeId) -> bool
        ensures { result ≡ has_type self.now entry.now }
    {
        self.ids.contains(entry)
    }
}
