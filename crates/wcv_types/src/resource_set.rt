// Sets of resources.
ghost use Rattle.std.specs.Prelude.{◌≡◌, [], length, slice_get, option_copied, IfOk, OnOk, OnErr};
ghost use Rattle.std.specs.List.{IsDistinct};
ghost use Rattle.wcv_types.specs.Sets.{same_resource, has_resource, with_resource};

use crate::ids::ResourceId;
use indexmap::IndexSet;
use std::alloc::Global;
use std::marker::Model;
use wcv_core::OutOfMemory;

/// Resources, each once, in the order in which they came. Contracts see it as the list of them.
///
/// Most types own none, so the set is made with the first, apart from the type: a node of the arena keeps its size.
#[derive(Drop)]
pub struct ResourceSet {
    ids: Option<Box<IndexSet<ResourceId>>>,
    alloc: Global,
}

impl Model for ResourceSet {
    ghost use Rattle.std.specs.Prelude.{List};
    ghost use Rattle.wcv_types.specs.Boxed.{keys_in_box};
    ghost use Rattle.wcv_types.specs.declared.ids.ResourceId.{ResourceId};

    ghost Value = { List ResourceId };

    ghost view = { λ s. keys_in_box s.ids };
}

impl ResourceSet {
    /// No resource. It takes no memory.
    pub fn new(alloc: Global) -> ResourceSet
        ensures { result ≡ [] }
    {
        ResourceSet { ids: None, alloc }
    }

    /// One more resource, behind all others. A set that has it stays as it is, and so does any set out of memory.
    pub fn push(&mut self, entry: ResourceId) -> Result<(), OutOfMemory>
        ensures ok { OnOk result (self.new ≡ with_resource self.old entry) }
        ensures err { OnErr result (self.new ≡ self.old) }
    {
        if self.ids.is_none() {
            self.ids = Some(Box::new(self.alloc, IndexSet::new(self.alloc))?);
        }
        match &mut self.ids {
            Some(ids) => match ids.insert(entry) {
                Ok(_) => Ok(()),
                Err(_) => Err(OutOfMemory),
            },
            None => unreachable!(),
        }
    }

    /// How many there are. No two of them are one.
    pub fn len(&self) -> usize
        ensures value { result ≡ length self.now }
        ensures unique { IsDistinct same_resource self.now }
    {
        match &self.ids {
            Some(ids) => ids.len(),
            None => 0,
        }
    }

    /// The resource at this position.
    pub fn get_index(&self, k: usize) -> Option<&ResourceId>
        ensures { option_copied result ≡ slice_get self.now k }
    {
        match &self.ids {
            Some(ids) => ids.get_index(k),
            None => None,
        }
    }

    /// Whether the set has the resource.
    pub fn contains(&self, entry: &ResourceId) -> bool
        ensures { result ≡ has_resource self.now entry.now }
    {
        match &self.ids {
            Some(ids) => ids.contains(entry),
            None => false,
        }
    }

    /// An equal set.
    pub fn copy(&self, alloc: Global) -> Result<ResourceSet, OutOfMemory>
        ensures { IfOk result (λ copied. copied ≡ self.now) }
    {
        let mut copied = ResourceSet::new(alloc);
        for k in 0..self.len() {
            match self.get_index(k) {
                Some(id) => copied.push(*id)?,
                None => unreachable!(),
            }
        }
        Ok(copied)
    }
}
