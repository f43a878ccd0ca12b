// What stands in the core spaces.
ghost use Rattle.std.specs.Prelude.{◌≡◌, Some, slice_get, IfOk, IfErr};
ghost use Rattle.wcv_lower.specs.Checks.{missing};
ghost use Rattle.wcv_spaces.specs.Promises.{CausedBy};

use crate::state::ComponentState;
use wcv_core::{CoreTypeId, GlobalType, MemoryType, Refusal, TableType};
use wcv_spaces::indices::element_at;
use wcv_types::{ComponentCoreInstanceTypeId, ComponentCoreModuleTypeId, ComponentCoreTypeId};

impl ComponentState {
    /// The core type at that index. Refuses an index that is not below the length as `OutOfBounds`, and
    /// takes no memory. So do all that follow.
    pub fn core_type_at(
        &self,
        idx: u32,
        offset: u64,
    ) -> Result<ComponentCoreTypeId, Refusal<'static>>
        ensures ok { IfOk result (λ id. slice_get self.now.spaces.core_types idx ≡ Some id) }
        ensures err { IfErr result (CausedBy (missing (slice_get self.now.spaces.core_types idx)) offset) }
    {
        element_at(self.spaces.core_types.as_slice(), "core type", idx, offset)
    }

    /// The type of the core module at that index.
    pub fn module_at(
        &self,
        idx: u32,
        offset: u64,
    ) -> Result<ComponentCoreModuleTypeId, Refusal<'static>>
        ensures ok { IfOk result (λ id. slice_get self.now.spaces.core_modules idx ≡ Some id) }
        ensures err { IfErr result (CausedBy (missing (slice_get self.now.spaces.core_modules idx)) offset) }
    {
        element_at(&self.spaces.core_modules, "core module", idx, offset)
    }

    /// The type of the core instance at that index.
    pub fn core_instance_at(
        &self,
        idx: u32,
        offset: u64,
    ) -> Result<ComponentCoreInstanceTypeId, Refusal<'static>>
        ensures ok { IfOk result (λ id. slice_get self.now.spaces.core_instances idx ≡ Some id) }
        ensures err { IfErr result (CausedBy (missing (slice_get self.now.spaces.core_instances idx)) offset) }
    {
        element_at(&self.spaces.core_instances, "core instance", idx, offset)
    }

    /// The type of the core function at that index.
    pub fn core_function_at(&self, idx: u32, offset: u64) -> Result<CoreTypeId, Refusal<'static>>
        ensures ok { IfOk result (λ id. slice_get self.now.spaces.core_funcs idx ≡ Some id) }
        ensures err { IfErr result (CausedBy (missing (slice_get self.now.spaces.core_funcs idx)) offset) }
    {
        element_at(&self.spaces.core_funcs, "core function", idx, offset)
    }

    /// The type of the tag at that index.
    pub fn tag_at(&self, idx: u32, offset: u64) -> Result<CoreTypeId, Refusal<'static>>
        ensures ok { IfOk result (λ id. slice_get self.now.spaces.core_tags idx ≡ Some id) }
        ensures err { IfErr result (CausedBy (missing (slice_get self.now.spaces.core_tags idx)) offset) }
    {
        element_at(&self.spaces.core_tags, "tag", idx, offset)
    }

    /// The type of the memory at that index.
    pub fn memory_at(&self, idx: u32, offset: u64) -> Result<MemoryType, Refusal<'static>>
        ensures ok { IfOk result (λ ty. slice_get self.now.spaces.core_memories idx ≡ Some ty) }
        ensures err { IfErr result (CausedBy (missing (slice_get self.now.spaces.core_memories idx)) offset) }
    {
        element_at(&self.spaces.core_memories, "memory", idx, offset)
    }

    /// The type of the table at that index.
    pub fn table_at(&self, idx: u32, offset: u64) -> Result<TableType, Refusal<'static>>
        ensures ok { IfOk result (λ ty. slice_get self.now.spaces.core_tables idx ≡ Some ty) }
        ensures err { IfErr result (CausedBy (missing (slice_get self.now.spaces.core_tables idx)) offset) }
    {
        element_at(&self.spaces.core_tables, "table", idx, offset)
    }

    /// The type of the global at that index.
    pub fn global_at(&self, idx: u32, offset: u64) -> Result<GlobalType, Refusal<'static>>
        ensures ok { IfOk result (λ ty. slice_get self.now.spaces.core_globals idx ≡ Some ty) }
        ensures err { IfErr result (CausedBy (missing (slice_get self.now.spaces.core_globals idx)) offset) }
    {
        element_at(&self.spaces.core_globals, "global", idx, offset)
    }
}
