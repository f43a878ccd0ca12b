// Core types as parts. They are no nodes of the arena.
use crate::arena::TypeAlloc;
use crate::ids::Part;
use crate::info::TypeInfo;
use crate::parts::Parts;
use crate::sorts::TypeSort;
use wcv_core::{CoreTypeId, OutOfMemory};

impl TypeSort for CoreTypeId {
    ghost use Rattle.wcv_types.specs.declared.ids.Part.{Part};

    ghost as_part = { λ id. Part.Core id };

    fn part(self) -> Part {
        Part::Core(self)
    }

    fn info(self, _types: &TypeAlloc) -> TypeInfo {
        TypeInfo { size: 1, depth: 1 }
    }

    fn part_count(self, _types: &TypeAlloc) -> usize {
        0
    }

    fn rebuild(self, _types: &mut TypeAlloc, _parts: &Parts) -> Result<Self, OutOfMemory> {
        Ok(self)
    }
}
