// How a comparison reads the resources of one side.
ghost use Rattle.std.specs.Prelude.{◌≡◌, cond, map, IfOk, OnOk};
ghost use Rattle.wcv_core.specs.Names.{Name, same};
ghost use Rattle.wcv_matching.specs.AtomTests.{same_atom};
ghost use Rattle.wcv_matching.specs.OnePass.{given};
ghost use Rattle.wcv_atoms.specs.Readings.{atom_of, atoms_of, over, reads, resource_name};

use std::alloc::Global;
use std::collections::BTreeMap;
use wcv_core::OutOfMemory;
use wcv_types::ResourceId;

/// What a resource is read as: itself, or one that a node around owns, by the level of that node.
#[derive(Clone, Copy)]
pub enum ResourceAtom {
    Given(ResourceId),
    /// Of an instance type, or imported by the right component.
    Owned(u64, ResourceId),
    /// Defined by the right component.
    Made(u64, ResourceId),
}

impl ResourceAtom {
    /// Whether the two are one.
    pub fn is(self, other: ResourceAtom) -> bool
        ensures { result ≡ same_atom (atom_of self) (atom_of other) }
    {
        match self {
            ResourceAtom::Given(r) => match other {
                ResourceAtom::Given(q) => r.index == q.index,
                _ => false,
            },
            ResourceAtom::Owned(j, r) => match other {
                ResourceAtom::Owned(k, q) => j == k && r.index == q.index,
                _ => false,
            },
            ResourceAtom::Made(j, r) => match other {
                ResourceAtom::Made(k, q) => j == k && r.index == q.index,
                _ => false,
            },
        }
    }
}

/// What each resource is read as.
#[derive(Drop)]
pub struct Readings {
    atoms: BTreeMap<u64, ResourceAtom>,
}

impl Readings {
    /// Each resource as it is given.
    pub fn new(alloc: Global) -> Readings
        ensures { reads result ≡ given }
    {
        Readings {
            atoms: BTreeMap::new(alloc),
        }
    }

    /// What the resource is read as.
    pub fn read(&self, resource: ResourceId) -> ResourceAtom
        ensures { atom_of result ≡ reads self.now (resource_name resource) }
    {
        match self.atoms.get(&resource.index) {
            Some(atom) => *atom,
            None => ResourceAtom::Given(resource),
        }
    }

    /// Reads the resource as that atom from now on.
    fn set(&mut self, resource: ResourceId, atom: ResourceAtom) -> Result<(), OutOfMemory>
        ensures { OnOk result ((r : Name) → reads self.new r ≡ cond (same r (resource_name resource)) (atom_of atom) (reads self.old r)) }
    {
        self.atoms.insert(resource.index, atom)?;
        Ok(())
    }

    /// Reads each of the resources as the list says first.
    pub fn enter(&mut self, entries: &[(ResourceId, ResourceAtom)]) -> Result<(), OutOfMemory>
        ensures { OnOk result (reads self.new ≡ over (atoms_of entries.now) (reads self.old)) }
    {
        let mut left = entries.len();
        while left > 0 {
            left -= 1;
            if let Some(entry) = entries.get(left) {
                self.set(entry.0, entry.1)?;
            }
        }
        Ok(())
    }

    /// What each resource of the list is read as now.
    pub(crate) fn kept(
        &self,
        alloc: Global,
        entries: &[(ResourceId, ResourceAtom)],
    ) -> Result<Vec<(ResourceId, ResourceAtom)>, OutOfMemory>
        ensures { IfOk result (λ kept. atoms_of kept.items ≡ map (λ e. (e.0, reads self.now e.0)) (atoms_of entries.now)) }
    {
        let mut kept = Vec::new(alloc);
        for entry in entries {
            kept.push((entry.0, self.read(entry.0)))?;
        }
        Ok(kept)
    }

    /// Reads each of the resources as the list says first. Gives what they were read as before.
    pub fn enter_keeping(
        &mut self,
        alloc: Global,
        entries: &[(ResourceId, ResourceAtom)],
    ) -> Result<Vec<(ResourceId, ResourceAtom)>, OutOfMemory>
        ensures entered { OnOk result (reads self.new ≡ over (atoms_of entries.now) (reads self.old)) }
        ensures back { IfOk result (λ kept. over (atoms_of kept.items) (reads self.new) ≡ reads self.old) }
    {
        let kept = self.kept(alloc, entries)?;
        self.enter(entries)?;
        Ok(kept)
    }
}
