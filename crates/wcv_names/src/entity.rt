// Entities, as entries of a list.
ghost use Rattle.std.specs.Prelude.{◌≡◌, OnOk, IfOk, IfErr};
ghost use Rattle.wcv_core.specs.Checks.{IsFree, MemoryOrCausedBy};
ghost use Rattle.wcv_types.specs.Entities.{entity_tree, EntityStands, any_part};
ghost use Rattle.wcv_types.specs.Standing.{Stands};
ghost use Rattle.wcv_types.specs.Unfold.{tree_at, trees, IsInfoOf};
ghost use Rattle.wcv_names.specs.FuncTrees as trees_of;
ghost use Rattle.wcv_names.specs.Externs.{is_instance_tree, too_large_with, with_entry};

use wcv_core::Refusal;
use wcv_types::{
    ComponentAnyTypeId, ComponentEntityType, ComponentValType, TypeAlloc, TypeInfo, TypeSort,
};

fn is_instance_id(ty: &ComponentEntityType) -> bool
    ensures { result ≡ trees_of.is_instance_id ty.now }
{
    match ty {
        ComponentEntityType::Instance(_) => true,
        _ => false,
    }
}

/// Whether the entity is an instance.
#[tactic(auto, using(crate::proofs::Following::entity_instance))]
pub fn is_instance(ty: &ComponentEntityType, types: &TypeAlloc) -> bool
    requires { EntityStands types.now ty.now }
    ensures { result ≡ is_instance_tree (entity_tree (trees types.now.nodes) ty.now) }
{
    let _ = types;
    is_instance_id(ty)
}

/// The size and the depth of a type of any sort.
fn any_info(id: ComponentAnyTypeId, types: &TypeAlloc) -> TypeInfo
    requires { Stands types.now (any_part id) }
    ensures { IsInfoOf result (tree_at types.now (any_part id)) }
{
    match id {
        ComponentAnyTypeId::Resource(_) => TypeInfo { size: 1, depth: 1 },
        ComponentAnyTypeId::Defined(id) => id.info(types),
        ComponentAnyTypeId::Func(id) => id.info(types),
        ComponentAnyTypeId::Instance(id) => id.info(types),
        ComponentAnyTypeId::Component(id) => id.info(types),
    }
}

/// The size and the depth of an entity.
pub fn entity_info(ty: &ComponentEntityType, types: &TypeAlloc) -> TypeInfo
    requires { EntityStands types.now ty.now }
    ensures { IsInfoOf result (entity_tree (trees types.now.nodes) ty.now) }
{
    match ty {
        ComponentEntityType::Func(id) => id.info(types),
        ComponentEntityType::Value(ComponentValType::Primitive(_)) => TypeInfo {
            size: 1,
            depth: 1,
        },
        ComponentEntityType::Value(ComponentValType::Ty(id)) => id.info(types),
        ComponentEntityType::Ty { created, .. } => any_info(*created, types),
        ComponentEntityType::Module(id) => id.info(types),
        ComponentEntityType::Instance(id) => id.info(types),
        ComponentEntityType::Component(id) => id.info(types),
    }
}

/// The size and the depth of what is made, with one more entry. Refuses as `Limit` what becomes too large or
/// too deep.
pub fn measured(
    info: TypeInfo,
    ty: &ComponentEntityType,
    types: &TypeAlloc,
    offset: u64,
) -> Result<TypeInfo, Refusal<'static>>
    requires { EntityStands types.now ty.now }
    ensures info { IfOk result (λ i. i ≡ with_entry info (entity_tree (trees types.now.nodes) ty.now)) }
    ensures ok { OnOk result (IsFree (too_large_with info (entity_tree (trees types.now.nodes) ty.now))) }
    ensures err { IfErr result (MemoryOrCausedBy (too_large_with info (entity_tree (trees types.now.nodes) ty.now)) offset) }
{
    let mut whole = info;
    whole.combine(entity_info(ty, types), offset)?;
    Ok(whole)
}
