// Entities as they join imports or exports.
ghost use Rattle.wcv_spaces.specs.Looking as looking;
ghost use Rattle.std.specs.Prelude.{◌≡◌, IfOk};
ghost use Rattle.wcv_types.specs.declared.shapes.ComponentEntityType.TheVariants as entity;
ghost use Rattle.wcv_spaces.specs.Looking.{introduced_id, introduced_in};

use std::alloc::Global;
use wcv_core::{OutOfMemory, Place};
use wcv_types::{AliasableResourceId, ComponentAnyTypeId, ComponentEntityType, Paths, ResourceId};

/// An entity as it joins imports or exports, and the resources that it introduces, each with its path in it.
#[derive(Drop)]
pub struct NewEntity {
    pub ty: ComponentEntityType,
    pub resources: Paths,
}

/// One that joins as it is: a type that is a new resource introduces that.
pub fn as_it_is(ty: ComponentEntityType, alloc: Global) -> Result<NewEntity, OutOfMemory>
    ensures ty { IfOk result (λ n. n.ty ≡ ty) }
    ensures resources { IfOk result (λ n. n.resources ≡ introduced_in (introduced_id ty)) }
{
    let mut resources = Paths::new(alloc);
    if let Some(resource) = introduced(&ty) {
        resources.insert(resource, Place::new(alloc, &[])?)?;
    }
    Ok(NewEntity { ty, resources })
}

/// The resource of a reference that is both types.
fn introduced_by(
    created: &ComponentAnyTypeId,
    referenced: &ComponentAnyTypeId,
) -> Option<ResourceId>
    ensures { result ≡ looking.introduced_by created.now referenced.now }
{
    if let ComponentAnyTypeId::Resource(id) = created {
        if let ComponentAnyTypeId::Resource(other) = referenced {
            if id.resource.index == other.resource.index && id.stamp == other.stamp {
                return Some(id.resource);
            }
        }
    }
    None
}

/// The resource that an entity introduces.
pub fn introduced(ty: &ComponentEntityType) -> Option<ResourceId>
    ensures { result ≡ introduced_id ty.now }
{
    match ty {
        ComponentEntityType::Ty {
            created,
            referenced,
        } => introduced_by(created, referenced),
        _ => None,
    }
}
