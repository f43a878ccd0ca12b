// Core types that join their space.
use crate::state::ComponentState;
use std::mem::replace;
use wcv_core::{CoreTypeId, InternRecGroup, OutOfMemory, Refusal, WasmFeatures};
use wcv_spaces::indices::sub_type_at;
use wcv_types::ComponentCoreTypeId;

/// The space of core types is the one to which a group's types join.
impl InternRecGroup for ComponentState {
    ghost use Rattle.wcv_spaces.specs.Contents.{core_entries_of, with_sub, spent};

    ghost entries = { core_entries_of };

    ghost allowed = { λ s. s.features };

    ghost with_type = { with_sub };

    ghost failed = { spent };

    fn features(&self) -> &WasmFeatures {
        &self.features
    }

    fn add_type_id(&mut self, id: CoreTypeId) -> Result<(), OutOfMemory> {
        let spent = replace(&mut self.spent, true);
        self.spaces.core_types.push(ComponentCoreTypeId::Sub(id))?;
        self.spent = spent;
        Ok(())
    }

    fn type_id_at(&self, idx: u32, offset: u64) -> Result<CoreTypeId, Refusal<'static>> {
        sub_type_at(self.spaces.core_types.as_slice(), idx, offset)
    }

    fn types_len(&self) -> u32 {
        self.spaces.core_types.len()
    }
}
