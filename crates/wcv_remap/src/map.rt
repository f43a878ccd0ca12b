// What is replaced, and what was visited.
ghost use Rattle.std.specs.Prelude.{◌≡◌, [], ◌∷◌, ◌++◌, true, false, None, OnOk, OnErr};
ghost use Rattle.std.specs.List.{IsDistinct};
ghost use Rattle.std.specs.Map.{keys_of};
ghost use Rattle.wcv_types.specs.Unfold.{any_part};
ghost use Rattle.wcv_remap.specs.Map.{entry, gives_types, is_type, reference_to, resource_to, same_part, sent_to};

use crate::ids::{id_of, part_of};
use std::alloc::Global;
use std::marker::Model;
use wcv_core::{IndexMapAppendOnly, OutOfMemory};
use wcv_types::{AliasableResourceId, ComponentAnyTypeId, Part, ResourceId};

/// Where a type goes.
#[derive(Clone, Copy)]
pub struct Kept {
    pub to: ComponentAnyTypeId,
    /// Whether where it goes was given, and not found by a rebuilding.
    pub given: bool,
}

/// What is replaced in types: resources by resources, and types by types. It keeps which types were looked at, and what became of
/// them, so that none is looked at twice. Contracts see it as a `Map`.
#[derive(Drop)]
pub struct Remapping {
    resources: IndexMapAppendOnly<ResourceId, ResourceId>,
    types: IndexMapAppendOnly<ComponentAnyTypeId, Kept>,
    /// Some type was given.
    gives: bool,
}

impl Model for Remapping {
    ghost use Rattle.std.specs.Prelude.{◌≡◌, map};
    ghost use Rattle.wcv_remap.specs.Map.{Map, gives_types, sent};

    ghost Value = { Map };

    ghost view = { λ m. record { resources = m.resources; types = map sent m.types } };

    ghost invariant = { λ m. m.gives ≡ gives_types (record { resources = m.resources; types = map sent m.types }) };
}

impl Remapping {
    /// Nothing is replaced.
    pub fn new(alloc: Global) -> Remapping
        ensures { result ≡ record { resources = []; types = [] } }
    {
        Remapping {
            resources: IndexMapAppendOnly::new(alloc),
            types: IndexMapAppendOnly::new(alloc),
            gives: false,
        }
    }

    /// From then on the one resource is replaced by the other. Out of memory nothing changes.
    pub fn push_resource(&mut self, old: ResourceId, new: ResourceId) -> Result<(), OutOfMemory>
        requires { resource_to self.old old ≡ None }
        ensures ok { OnOk result (self.new ≡ record self.old { resources = self.old.resources ++ (old, new) ∷ [] }) }
        ensures err { OnErr result (self.new ≡ self.old) }
    {
        self.resources.insert(old, new)
    }

    /// From then on the one type stands in the place of the other. Out of memory nothing changes.
    pub fn push_type(
        &mut self,
        old: ComponentAnyTypeId,
        new: ComponentAnyTypeId,
    ) -> Result<(), OutOfMemory>
        requires { entry self.old (any_part old) ≡ None }
        ensures ok { OnOk result (self.new ≡ record self.old { types = self.old.types ++ (any_part old, record { to = any_part new; given = true }) ∷ [] }) }
        ensures err { OnErr result (self.new ≡ self.old) }
    {
        let kept = Kept {
            to: new,
            given: true,
        };
        self.types.insert(old, kept)?;
        self.gives = true;
        Ok(())
    }

    /// What resources are replaced by.
    pub fn resources(&self) -> &IndexMapAppendOnly<ResourceId, ResourceId>
        ensures { result.now ≡ self.now.resources }
    {
        &self.resources
    }

    /// The reference that comes in the place of one.
    pub(crate) fn reference(&self, id: AliasableResourceId) -> AliasableResourceId
        ensures { result ≡ reference_to self.now id }
    {
        match self.resources.get(&id.resource) {
            Some(resource) => AliasableResourceId {
                resource: *resource,
                stamp: id.stamp,
            },
            None => id,
        }
    }

    /// Where the type goes, if the map has it: it was given, or a rebuilding looked at it.
    pub fn get(&self, id: ComponentAnyTypeId) -> Option<Part>
        ensures { result ≡ sent_to self.now (any_part id) }
    {
        match self.types.get(&id) {
            Some(kept) => Some(part_of(kept.to)),
            None => None,
        }
    }

    /// Whether some type was given.
    pub(crate) fn gives_types(&self) -> bool
        ensures { result ≡ gives_types self.now }
    {
        self.gives
    }

    /// The type was looked at, and became the other. Out of memory nothing changes.
    pub(crate) fn keep(&mut self, part: Part, to: Part) -> Result<(), OutOfMemory>
        requires new { entry self.old part ≡ None }
        requires part { is_type part ≡ true }
        requires to { is_type to ≡ true }
        ensures ok { OnOk result (self.new ≡ record self.old { types = self.old.types ++ (part, record { to = to; given = false }) ∷ [] }) }
        ensures err { OnErr result (self.new ≡ self.old) }
    {
        let kept = Kept {
            to: id_of(to),
            given: false,
        };
        self.types.insert(id_of(part), kept)?;
        Ok(())
    }

    /// No two entries are of one type. It does nothing.
    pub fn entries_differ(&self)
        ensures { IsDistinct same_part (keys_of self.now.types) }
    {
        let _ = self.types.len();
    }
}
