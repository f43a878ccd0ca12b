// The index spaces of a component.
ghost use Rattle.std.specs.Prelude.{◌≡◌, ◌+◌, [], ◌∷◌, ◌++◌, length, min, OnOk, OnErr};
ghost use Rattle.wcv_spaces.specs.Parts.{lists};
ghost use Rattle.wcv_spaces.specs.Contents.{empty_spaces};
ghost use Rattle.wcv_spaces.specs.Lengths.{space_length};

use crate::core_list::CoreTypeList;
use crate::kind::Space;
use std::alloc::Global;
use wcv_core::{CoreTypeId, GlobalType, MemoryType, OutOfMemory, TableType};
use wcv_types::{
    ComponentAnyTypeId, ComponentCoreInstanceTypeId, ComponentCoreModuleTypeId,
    ComponentFuncTypeId, ComponentInstanceTypeId, ComponentTypeId, ComponentValType,
};

/// The thirteen index spaces. A value stands with whether it was used.
#[derive(Drop)]
pub struct Spaces {
    pub core_types: CoreTypeList,
    pub core_funcs: Vec<CoreTypeId>,
    pub core_tags: Vec<CoreTypeId>,
    pub core_modules: Vec<ComponentCoreModuleTypeId>,
    pub core_instances: Vec<ComponentCoreInstanceTypeId>,
    pub core_memories: Vec<MemoryType>,
    pub core_tables: Vec<TableType>,
    pub core_globals: Vec<GlobalType>,
    pub types: Vec<ComponentAnyTypeId>,
    pub funcs: Vec<ComponentFuncTypeId>,
    pub values: Vec<(ComponentValType, bool)>,
    pub instances: Vec<ComponentInstanceTypeId>,
    pub components: Vec<ComponentTypeId>,
}

/// Two lengths added.
pub fn both(a: usize, b: usize) -> usize
    ensures { result ≡ min (a + b) usize.MAX }
{
    a.saturating_add(b)
}

/// One more element, behind all others. Out of memory the list stays as it was.
pub fn append<T: Copy>(list: &mut Vec<T>, element: T) -> Result<(), OutOfMemory>
    ensures ok { OnOk result (list.new.items ≡ list.old.items ++ element ∷ []) }
    ensures err { OnErr result (list.new.items ≡ list.old.items) }
{
    match list.push(element) {
        Ok(()) => Ok(()),
        Err(_) => Err(OutOfMemory),
    }
}

impl Spaces {
    /// Thirteen empty spaces.
    pub fn new(alloc: Global) -> Spaces
        ensures { lists result ≡ empty_spaces }
    {
        Spaces {
            core_types: CoreTypeList::new(alloc),
            core_funcs: Vec::new(alloc),
            core_tags: Vec::new(alloc),
            core_modules: Vec::new(alloc),
            core_instances: Vec::new(alloc),
            core_memories: Vec::new(alloc),
            core_tables: Vec::new(alloc),
            core_globals: Vec::new(alloc),
            types: Vec::new(alloc),
            funcs: Vec::new(alloc),
            values: Vec::new(alloc),
            instances: Vec::new(alloc),
            components: Vec::new(alloc),
        }
    }

    /// The length of a space.
    pub fn len(&self, space: Space) -> usize
        ensures { result ≡ space_length space (lists self.now) }
    {
        match space {
            Space::CoreTypes => self.core_types.len() as usize,
            Space::CoreFuncs => self.core_funcs.len(),
            Space::CoreTags => self.core_tags.len(),
            Space::CoreModules => self.core_modules.len(),
            Space::CoreInstances => self.core_instances.len(),
            Space::CoreMemories => self.core_memories.len(),
            Space::CoreTables => self.core_tables.len(),
            Space::CoreGlobals => self.core_globals.len(),
            Space::Types => self.types.len(),
            Space::Funcs => self.funcs.len(),
            Space::Values => self.values.len(),
            Space::Instances => self.instances.len(),
            Space::Components => self.components.len(),
        }
    }
}
