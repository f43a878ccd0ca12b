// What core modules and core instances count by the items that they have.
ghost use Rattle.std.specs.Prelude.{◌≡◌, map, min, All};
ghost use Rattle.wcv_core.specs.CoreGroups.{total};
ghost use Rattle.wcv_core.specs.CoreSizes.{IsEntityWithin};
ghost use Rattle.wcv_types.specs.Standing.{core_items, entity_sizes, own_size};
ghost use Rattle.wcv_types.specs.declared.arena.Node.TheVariants as n;

use crate::core_shapes::ModuleType;
use wcv_core::{CoreTypes, EntityType, core_item_size};

/// What items count together, up to the greatest `u64`.
pub fn core_items_size<K>(core: &CoreTypes, items: &[(K, EntityType)]) -> u64
    requires { All (λ e. IsEntityWithin (total core.now) e.1) items.now }
    ensures { result ≡ min (entity_sizes core.now (map (λ e. e.1) items.now)) u64.MAX }
{
    let mut size = 0u64;
    for item in items {
        size = size.saturating_add(core_item_size(core, item.1));
    }
    size
}

/// What a core instance of the module counts: itself and what the module exports. That is what the module counts
/// without what it imports, as long as its size is not cut.
pub fn exporting_size(core: &CoreTypes, shape: &ModuleType) -> u32
    requires within { All (IsEntityWithin (total core.now)) (core_items (n.Module shape.now)) }
    requires stated { shape.now.info.size ≡ own_size core.now (core_items (n.Module shape.now)) }
    ensures { result ≡ own_size core.now (map (λ e. e.1) shape.now.exports) }
{
    if shape.info.size < u32::MAX {
        let imports = core_items_size(core, shape.imports.as_slice());
        return shape.info.size - imports as u32;
    }
    let exports = core_items_size(core, shape.exports.as_slice());
    exports.saturating_add(1).min(u32::MAX as u64) as u32
}
