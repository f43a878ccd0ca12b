// What joins of an entity: as it is, or of an instance type an instance.
ghost use Rattle.std.specs.Prelude.{◌≡◌, false, IfOk};
ghost use Rattle.wcv_types.specs.Entities.{EntityStands};
ghost use Rattle.wcv_types.specs.Standing.{Extends};
ghost use Rattle.wcv_types.specs.declared.shapes.ComponentEntityType.TheVariants as entity;
ghost use Rattle.wcv_spaces.specs.Bringing.{EntityOpened};
ghost use Rattle.wcv_instantiate.specs.Instances.{EntityMayOpen};
ghost use Rattle.wcv_spaces.specs.Promises.{is_instance_entity};

use crate::instances::instance_of;
use wcv_core::OutOfMemory;
use wcv_spaces::new_entity::{NewEntity, as_it_is};
use wcv_types::{ComponentEntityType, ComponentInstanceTypeId, TypeAlloc};

/// An instance of the type.
fn open_instance(
    types: &mut TypeAlloc,
    id: ComponentInstanceTypeId,
) -> Result<NewEntity, OutOfMemory>
    requires stands { EntityStands types.old (entity.Instance id) }
    requires opens { EntityMayOpen types.old (entity.Instance id) }
    ensures ok { IfOk result (EntityOpened types.old types.new (entity.Instance id)) }
    ensures grown { Extends types.old types.new }
{
    let made = instance_of(types, id)?;
    Ok(NewEntity {
        ty: ComponentEntityType::Instance(made.ty),
        resources: made.resources,
    })
}

/// What joins of an entity. Of an instance type it is an instance, and the resources that the type owns are new
/// there. Out of memory the arena may have grown.
pub fn open_entity(types: &mut TypeAlloc, ty: ComponentEntityType) -> Result<NewEntity, OutOfMemory>
    requires stands { EntityStands types.old ty }
    requires opens { EntityMayOpen types.old ty }
    ensures ok { IfOk result (EntityOpened types.old types.new ty) }
    ensures grown { Extends types.old types.new }
    ensures same { is_instance_entity ty ≡ false → types.new ≡ types.old }
{
    match ty {
        ComponentEntityType::Instance(id) => open_instance(types, id),
        _ => {
            let new = as_it_is(ty, types.allocator())?;
            Ok(new)
        }
    }
}
