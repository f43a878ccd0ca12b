// The rebuilding of what is imported or exported.
ghost use Rattle.std.specs.Prelude.{◌≡◌, IfOk, OnOk, OnErr};
ghost use Rattle.std.specs.List.{IsDistinct};
ghost use Rattle.std.specs.Map.{keys_of};
ghost use Rattle.wcv_types.specs.Entities.{EntityStands};
ghost use Rattle.wcv_types.specs.Standing.{Extends};
ghost use Rattle.wcv_remap.specs.Entities.{held, with_part, EntityHygienic, EntityRemapped};
ghost use Rattle.wcv_remap.specs.Map.{same_part};
ghost use Rattle.wcv_remap.specs.Remap.{Sound};

use crate::ids::{id_of, part_of};
use crate::map::Remapping;
use crate::remap::remap_part;
use std::sync::ledger::Ledger;
use wcv_core::OutOfMemory;
use wcv_types::{ComponentEntityType, ComponentValType, NodeStore, Part, Steps};

/// The types that an entity is.
#[derive(Clone, Copy)]
pub enum Held {
    Nothing,
    One(Part),
    Two(Part, Part),
}

fn parts_held(ty: ComponentEntityType) -> Held
    ensures { result ≡ held ty }
{
    match ty {
        ComponentEntityType::Module(id) => Held::One(Part::Module(id)),
        ComponentEntityType::Func(id) => Held::One(Part::Func(id)),
        ComponentEntityType::Value(ComponentValType::Primitive(_)) => Held::Nothing,
        ComponentEntityType::Value(ComponentValType::Ty(id)) => Held::One(Part::Defined(id)),
        ComponentEntityType::Ty {
            created,
            referenced,
        } => Held::Two(part_of(created), part_of(referenced)),
        ComponentEntityType::Instance(id) => Held::One(Part::Instance(id)),
        ComponentEntityType::Component(id) => Held::One(Part::Component(id)),
    }
}

/// The entity with another type in the place of the one that it is.
fn entity_of(part: Part, ty: ComponentEntityType) -> ComponentEntityType
    ensures { result ≡ with_part part ty }
{
    match part {
        Part::Module(id) => ComponentEntityType::Module(id),
        Part::Defined(id) => ComponentEntityType::Value(ComponentValType::Ty(id)),
        Part::Func(id) => ComponentEntityType::Func(id),
        Part::Instance(id) => ComponentEntityType::Instance(id),
        Part::Component(id) => ComponentEntityType::Component(id),
        _ => ty,
    }
}

/// The entity with what the map makes of it.
fn remapped<N: NodeStore, L: Ledger>(
    types: &mut N,
    ty: ComponentEntityType,
    map: &mut Remapping,
    steps: &mut Steps<L>,
) -> Result<ComponentEntityType, OutOfMemory>
    requires stands { EntityStands (N.arena types.old) ty }
    requires sound { Sound (N.arena types.old) map.old }
    requires hygienic { EntityHygienic (N.arena types.old) map.old ty }
    ensures grown { Extends (N.arena types.old) (N.arena types.new) }
    ensures done { IfOk result (λ made. EntityRemapped (N.arena types.old) (N.arena types.new) map.old map.new steps.old steps.new ty made) }
{
    match parts_held(ty) {
        Held::Nothing => Ok(ty),
        Held::One(part) => {
            let made = remap_part(types, part, map, steps)?;
            Ok(entity_of(made, ty))
        }
        Held::Two(created, referenced) => {
            let created = remap_part(types, created, map, steps)?;
            let referenced = remap_part(types, referenced, map, steps)?;
            Ok(ComponentEntityType::Ty {
                created: id_of(created),
                referenced: id_of(referenced),
            })
        }
    }
}

/// What is imported or exported, with what the map makes of it. A node in which something goes elsewhere is made
/// again, once, and all others stay. It reads a node only where the map does not have it yet, and keeps it there.
/// Out of memory the entity stays, and the arena may have grown.
pub fn remap_component_entity<N: NodeStore, L: Ledger>(
    types: &mut N,
    ty: &mut ComponentEntityType,
    map: &mut Remapping,
    steps: &mut Steps<L>,
) -> Result<(), OutOfMemory>
    requires stands { EntityStands (N.arena types.old) ty.old }
    requires sound { Sound (N.arena types.old) map.old }
    requires hygienic { EntityHygienic (N.arena types.old) map.old ty.old }
    ensures grown { Extends (N.arena types.old) (N.arena types.new) }
    ensures done { OnOk result (EntityRemapped (N.arena types.old) (N.arena types.new) map.old map.new steps.old steps.new ty.old ty.new) }
    ensures once { OnOk result (IsDistinct same_part (keys_of map.new.types)) }
    ensures err { OnErr result (ty.new ≡ ty.old) }
{
    *ty = remapped(types, *ty, map, steps)?;
    map.entries_differ();
    Ok(())
}
