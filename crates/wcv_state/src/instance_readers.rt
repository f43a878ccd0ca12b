// What stands in the spaces of instances and of components, and items of any sort.
ghost use Rattle.std.specs.Prelude.{◌≡◌, Some, slice_get, IfOk, IfErr};
ghost use Rattle.wcv_lower.specs.Checks.{missing};
ghost use Rattle.wcv_spaces.specs.Looking.{item_id, item_id_checks};
ghost use Rattle.wcv_spaces.specs.Promises.{CausedBy};

use crate::state::ComponentState;
use wcv_core::Refusal;
use wcv_spaces::entities::item_at;
use wcv_spaces::indices::element_at;
use wcv_syntax::ComponentExternalKind;
use wcv_types::{ComponentEntityType, ComponentInstanceTypeId, ComponentTypeId};

impl ComponentState {
    /// The type of the instance at that index. Refuses an index that is not below the length as
    /// `OutOfBounds`, and takes no memory.
    pub fn instance_at(
        &self,
        idx: u32,
        offset: u64,
    ) -> Result<ComponentInstanceTypeId, Refusal<'static>>
        ensures ok { IfOk result (λ id. slice_get self.now.spaces.instances idx ≡ Some id) }
        ensures err { IfErr result (CausedBy (missing (slice_get self.now.spaces.instances idx)) offset) }
    {
        element_at(&self.spaces.instances, "instance", idx, offset)
    }

    /// The type of the component at that index. Refuses an index that is not below the length as
    /// `OutOfBounds`, and takes no memory.
    pub fn component_at(&self, idx: u32, offset: u64) -> Result<ComponentTypeId, Refusal<'static>>
        ensures ok { IfOk result (λ id. slice_get self.now.spaces.components idx ≡ Some id) }
        ensures err { IfErr result (CausedBy (missing (slice_get self.now.spaces.components idx)) offset) }
    {
        element_at(&self.spaces.components, "component", idx, offset)
    }

    /// The item of that sort at the index, as an entity: of a type both nodes are the one that stands there. Whether a
    /// value was used is not looked at. Refuses an index that is not below the length as `OutOfBounds`, and takes no
    /// memory.
    pub fn item_at(
        &self,
        kind: ComponentExternalKind,
        idx: u32,
        offset: u64,
    ) -> Result<ComponentEntityType, Refusal<'static>>
        ensures ok { IfOk result (λ x. item_id self.now.spaces kind idx ≡ Some x) }
        ensures err { IfErr result (CausedBy (item_id_checks self.now.spaces kind idx) offset) }
    {
        item_at(&self.spaces, kind, idx, offset)
    }
}
