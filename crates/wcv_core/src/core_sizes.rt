// What core items count in the types of core modules and of core instances.
ghost use Rattle.std.specs.Prelude.{◌≡◌, ◌<◌};
ghost use Rattle.wcv_core.specs.CoreGroups.{total};
ghost use Rattle.wcv_core.specs.CoreMatching.{type_at};
ghost use Rattle.wcv_core.specs.CoreSizes.{IsEntityKnown, entity_size, form_size};

use crate::core_table::CoreTypes;
use crate::core_types::{CompositeInnerType, CoreTypeId, EntityType};

/// What a function or a tag of the type counts.
fn size_of_type(core: &CoreTypes, id: CoreTypeId) -> u64
    requires { id.index < total core.now }
    ensures { result ≡ form_size (type_at core.now id.index).inner }
{
    match &core.get(id).inner {
        CompositeInnerType::Func(func) => {
            1 + func.params.len() as u64 + func.results.len() as u64
        }
        _ => 1,
    }
}

/// How large the type of a core item is as a part of the type of a module, or of a core instance.
pub fn core_item_size(core: &CoreTypes, ty: EntityType) -> u64
    requires known { IsEntityKnown (total core.now) ty }
    ensures { result ≡ entity_size core.now ty }
{
    match ty {
        EntityType::Func(id) | EntityType::Tag(id) => size_of_type(core, id),
        _ => 1,
    }
}
