// Core items of every sort: what stands at an index, and one more.
ghost use Rattle.std.specs.Prelude.{◌≡◌, Some, false, OnOk, OnErr, IfOk, IfErr};
ghost use Rattle.wcv_lower.specs.Checks.{missing};
ghost use Rattle.wcv_spaces.specs.Contents.{with_core_item, spent};
ghost use Rattle.wcv_spaces.specs.Looking.{core_item_in};
ghost use Rattle.wcv_spaces.specs.Promises.{CausedBy};

use crate::state::ComponentState;
use wcv_core::{EntityType, OutOfMemory, Refusal};
use wcv_syntax::ExternalKind;

impl ComponentState {
    /// The core item of that sort at that index. Refuses an index that is not below the length of the sort's
    /// space as `OutOfBounds`, and takes no memory.
    #[tactic(auto, using(wcv_spaces::proofs::CoreItems::missing_mapped))]
    pub fn core_item_at(
        &self,
        kind: ExternalKind,
        idx: u32,
        offset: u64,
    ) -> Result<EntityType, Refusal<'static>>
        ensures ok { IfOk result (λ item. core_item_in self.now.spaces kind idx ≡ Some item) }
        ensures err { IfErr result (CausedBy (missing (core_item_in self.now.spaces kind idx)) offset) }
    {
        match kind {
            ExternalKind::Func => Ok(EntityType::Func(self.core_function_at(idx, offset)?)),
            ExternalKind::Table => Ok(EntityType::Table(self.table_at(idx, offset)?)),
            ExternalKind::Memory => Ok(EntityType::Memory(self.memory_at(idx, offset)?)),
            ExternalKind::Global => Ok(EntityType::Global(self.global_at(idx, offset)?)),
            ExternalKind::Tag => Ok(EntityType::Tag(self.tag_at(idx, offset)?)),
        }
    }

    /// Appends a core item to the space of its sort, whatever the number of those there.
    pub fn push_core_item(&mut self, item: EntityType) -> Result<(), OutOfMemory>
        requires live { self.old.spent ≡ false }
        ensures ok { OnOk result (self.new ≡ with_core_item item self.old) }
        ensures err { OnErr result (self.new ≡ spent self.old) }
    {
        match item {
            EntityType::Func(ty) => self.push_core_func(ty),
            EntityType::Table(ty) => self.push_core_table(ty),
            EntityType::Memory(ty) => self.push_core_memory(ty),
            EntityType::Global(ty) => self.push_core_global(ty),
            EntityType::Tag(ty) => self.push_core_tag(ty),
        }
    }
}
