// Paths to resources.
ghost use Rattle.std.specs.Prelude.{◌≡◌, [], ◌∷◌, ◌++◌, None, length, slice_get, option_copied, option_map, OnOk, OnErr};
ghost use Rattle.std.specs.List.{IsDistinct};
ghost use Rattle.std.specs.Map.{keys_of, lookup};
ghost use Rattle.std.specs.Map.Iter.{deref_pair};

use crate::ids::ResourceId;
use std::alloc::Global;
use std::marker::Model;
use wcv_core::{IndexMapAppendOnly, OutOfMemory, Place};

/// Resources, each once, and the places where they stand among the imports or the exports, in the order in which
/// they came. Contracts see it as the list of its pairs.
///
/// Most types have none, so the map is made with the first, apart from the type: a node of the arena keeps its size.
#[derive(Drop)]
pub struct Paths {
    map: Option<Box<IndexMapAppendOnly<ResourceId, Place>>>,
    alloc: Global,
}

impl Model for Paths {
    ghost use Rattle.std.specs.Prelude.{List};
    ghost use Rattle.wcv_core.specs.Names.{Place};
    ghost use Rattle.wcv_types.specs.Boxed.{in_box};
    ghost use Rattle.wcv_types.specs.declared.ids.ResourceId.{ResourceId};

    ghost Value = { List (ResourceId × Place) };

    ghost view = { λ p. in_box p.map };
}

impl Paths {
    ghost use Rattle.wcv_types.specs.Sets.{same_resource};

    /// No path. It takes no memory.
    pub fn new(alloc: Global) -> Paths
        ensures { result ≡ [] }
    {
        Paths { map: None, alloc }
    }

    /// The path to a resource that has none. On an error the others stay as they were.
    pub fn insert(&mut self, resource: ResourceId, path: Place) -> Result<(), OutOfMemory>
        requires { lookup (same_resource resource) self.old ≡ None }
        ensures ok { OnOk result (self.new ≡ self.old ++ (resource, path) ∷ []) }
        ensures err { OnErr result (self.new ≡ self.old) }
    {
        if self.map.is_none() {
            self.map = Some(Box::new(self.alloc, IndexMapAppendOnly::new(self.alloc))?);
        }
        match &mut self.map {
            Some(map) => map.insert(resource, path),
            None => unreachable!(),
        }
    }

    /// The path to the resource.
    pub fn get(&self, resource: &ResourceId) -> Option<&Place>
        ensures { option_copied result ≡ lookup (same_resource resource.now) self.now }
    {
        match &self.map {
            Some(map) => map.get(resource),
            None => None,
        }
    }

    /// How many resources there are. No two of them are one.
    pub fn len(&self) -> usize
        ensures value { result ≡ length self.now }
        ensures unique { IsDistinct same_resource (keys_of self.now) }
    {
        match &self.map {
            Some(map) => map.len(),
            None => 0,
        }
    }

    /// The resource at this position, and its path.
    pub fn get_index(&self, k: usize) -> Option<(&ResourceId, &Place)>
        ensures { option_map deref_pair result ≡ slice_get self.now k }
    {
        match &self.map {
            Some(map) => map.get_index(k),
            None => None,
        }
    }
}
