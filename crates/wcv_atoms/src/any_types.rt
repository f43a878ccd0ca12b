// A type of any sort as an entity, or as a resource.
ghost use Rattle.std.specs.Prelude.{◌≡◌};
ghost use Rattle.wcv_atoms.specs.IdPasses.{as_entity, as_resource};

use wcv_types::{ComponentAnyTypeId, ComponentEntityType, ComponentValType, ResourceId};

/// The type as an entity, where it is no resource.
pub fn as_entity(id: ComponentAnyTypeId) -> Option<ComponentEntityType>
    ensures { result ≡ as_entity id }
{
    match id {
        ComponentAnyTypeId::Resource(_) => None,
        ComponentAnyTypeId::Defined(id) => {
            Some(ComponentEntityType::Value(ComponentValType::Ty(id)))
        }
        ComponentAnyTypeId::Func(id) => Some(ComponentEntityType::Func(id)),
        ComponentAnyTypeId::Instance(id) => Some(ComponentEntityType::Instance(id)),
        ComponentAnyTypeId::Component(id) => Some(ComponentEntityType::Component(id)),
    }
}

/// The resource that the type is, where it is one.
pub fn as_resource(id: ComponentAnyTypeId) -> Option<ResourceId>
    ensures { result ≡ as_resource id }
{
    match id {
        ComponentAnyTypeId::Resource(id) => Some(id.resource),
        _ => None,
    }
}
