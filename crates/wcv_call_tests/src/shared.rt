// A function over a tuple that stands in itself eighteen times is built again. It is read as often as it is made of types,
// though its resource stands in it more than two hundred thousand times.
ghost use Rattle.std.specs.Prelude.{◌≡◌, ℕ, suc, ◌+◌, ◌<◌, ◌≤◌, length, IfOk, OnOk};
ghost use Rattle.wcv_types.specs.Entities.{EntityStands};
ghost use Rattle.wcv_types.specs.Standing.{Stands};
ghost use Rattle.wcv_types.specs.declared.ids.Part.TheVariants as part;
ghost use Rattle.wcv_call_tests.specs.MadeOf.{IsMadeOf};

use crate::counted::CountedTypes;
use bitflags::Flags;
use std::alloc::Global;
use std::marker::Brand;
use std::sync::ledger::{Blank, Ledger};
use wcv_core::{OutOfMemory, Text, WasmFeatures};
use wcv_remap::{
    Remapping, a_map_of_resources_is_sound, a_map_of_resources_replaces_no_node,
    a_rebuilding_reads_at_most_what_is_reached, remap_component_entity,
    what_spares_owned_resources_is_hygienic,
};
use wcv_types::{
    AliasableResourceId, ComponentAnyTypeId, ComponentDefinedType, ComponentDefinedTypeId,
    ComponentEntityType, ComponentFuncType, ComponentFuncTypeId, ComponentValType, ResourceId,
    ResourceSet, Steps, TypeAlloc, TypeSort,
};
use wcv_walks::FreeVariables;

/// The handle that owns a resource.
fn own(
    id: AliasableResourceId,
    types: &mut TypeAlloc,
) -> Result<ComponentDefinedTypeId, OutOfMemory>
    requires { Stands types.old (part.Resource id) }
    ensures { IfOk result (λ made. IsMadeOf types.new 2 (part.Defined made)) }
{
    let made: ComponentDefinedTypeId = types.push_ty(ComponentDefinedType::Own(id))?;
    Ok(made)
}

/// The tuple of a type twice.
fn twice(
    id: ComponentDefinedTypeId,
    types: &mut TypeAlloc,
) -> Result<ComponentDefinedTypeId, OutOfMemory>
    requires { Stands types.old (part.Defined id) }
    ensures { IfOk result (λ made. (n : ℕ) → IsMadeOf types.old n (part.Defined id) → IsMadeOf types.new (suc n) (part.Defined made)) }
{
    let ty = ComponentValType::Ty(id);
    let elements = Vec::from_array(types.allocator(), [ty, ty])?;
    let made: ComponentDefinedTypeId = types.push_ty(ComponentDefinedType::Tuple(elements))?;
    Ok(made)
}

/// The tuple of a handle twice, the tuple of that twice, and so on: eighteen tuples.
fn nested(
    id: AliasableResourceId,
    types: &mut TypeAlloc,
) -> Result<ComponentDefinedTypeId, OutOfMemory>
    requires { Stands types.old (part.Resource id) }
    ensures { IfOk result (λ made. IsMadeOf types.new 20 (part.Defined made)) }
{
    let mut made = own(id, types)?;
    for _ in 0..18u8 {
        made = twice(made, types)?;
    }
    Ok(made)
}

/// The function that takes a value of a type.
fn taking(
    id: ComponentDefinedTypeId,
    types: &mut TypeAlloc,
) -> Result<ComponentFuncTypeId, OutOfMemory>
    requires { IsMadeOf types.old 20 (part.Defined id) }
    ensures { IfOk result (λ made. IsMadeOf types.new 21 (part.Func made)) }
{
    let alloc = types.allocator();
    let mut params = Vec::new(alloc);
    let name = Text::new(alloc, "p")?;
    params.push((name, ComponentValType::Ty(id)))?;
    let function = ComponentFuncType::over(types, false, params, None);
    let made: ComponentFuncTypeId = types.push_ty(function)?;
    Ok(made)
}

/// The function with one resource in the place of another. Each type that it is made of is read at most once, and is
/// made again at most once.
fn replaced<L: Ledger>(
    id: ComponentFuncTypeId,
    old: ResourceId,
    new: ResourceId,
    types: &mut CountedTypes,
    steps: &mut Steps<L>,
) -> Result<ComponentEntityType, OutOfMemory>
    requires made { IsMadeOf types.old.types 21 (part.Func id) }
    requires new { new.index < types.old.types.resources }
    ensures stands { IfOk result (EntityStands types.new.types) }
    ensures once { OnOk result ((steps.new ≤ steps.old + 21) × (length types.new.types.nodes ≤ length types.old.types.nodes + 21)) }
{
    a_map_of_resources_is_sound();
    a_map_of_resources_replaces_no_node();
    what_spares_owned_resources_is_hygienic();
    a_rebuilding_reads_at_most_what_is_reached();
    let mut map = Remapping::new(types.types.allocator());
    map.push_resource(old, new)?;
    let mut made = ComponentEntityType::Func(id);
    remap_component_entity(types, &mut made, &mut map, steps)?;
    Ok(made)
}

/// So with steps of its own.
fn replaced_by<L: Ledger>(
    id: ComponentFuncTypeId,
    old: ResourceId,
    new: ResourceId,
    types: &mut CountedTypes,
    blank: Blank,
) -> Result<ComponentEntityType, OutOfMemory>
    requires made { IsMadeOf types.old.types 21 (part.Func id) }
    requires new { new.index < types.old.types.resources }
    requires name { blank.name ≡ L.name }
    requires parts { blank.parts ≡ L.parts }
    requires some { 0 < blank.parts }
    ensures stands { IfOk result (EntityStands types.new.types) }
{
    let mut steps: Steps<L> = Steps::new(blank);
    replaced(id, old, new, types, &mut steps)
}

/// Whether the resource is free in the function, and no other.
fn is_alone_in(id: ComponentFuncTypeId, resource: ResourceId, types: &TypeAlloc) -> bool
    requires { Stands types.now (part.Func id) }
{
    let mut free = ResourceSet::new(types.allocator());
    let _ = types.free_variables_any_type_id(ComponentAnyTypeId::Func(id), &mut free);
    [free.len() == 1, free.contains(&resource)] == [true; 2]
}

/// Whether the function is as large and as deep as is due, and has that resource.
fn is_as_due(id: ComponentFuncTypeId, resource: ResourceId, types: &TypeAlloc) -> bool
    requires { Stands types.now (part.Func id) }
{
    let info = id.info(types);
    let alone = is_alone_in(id, resource, types);
    ([info.size, info.depth], alone) == ([524_288, 20], true)
}

/// Whether a function becomes another one of the same size and depth, with at most so many reads and new nodes.
fn becomes(
    id: ComponentFuncTypeId,
    old: ResourceId,
    new: ResourceId,
    types: &mut CountedTypes,
) -> bool
    requires made { IsMadeOf types.old.types 21 (part.Func id) }
    requires new { new.index < types.old.types.resources }
{
    let before = is_as_due(id, old, &types.types);
    match replaced_by::<Brand>(id, old, new, types, Blank::new(1)) {
        Ok(ComponentEntityType::Func(made)) => {
            let after = is_as_due(made, new, &types.types);
            // the function was the last node, as its rebuild is now
            let nodes = made.index.saturating_sub(id.index);
            let reads = types.reads();
            [before, after, made != id, nodes <= 21, reads <= 21] == [true; 5]
        }
        _ => false,
    }
}

/// So of the function over such a tuple.
fn holds(types: &mut CountedTypes) -> Result<bool, OutOfMemory> {
    let old = types.types.alloc_resource_id()?;
    let tuple = nested(old, &mut types.types)?;
    let id = taking(tuple, &mut types.types)?;
    let new = types.types.alloc_resource_id()?;
    Ok(becomes(id, old.resource, new.resource, types))
}

pub fn a_shared_type_is_read_once(alloc: Global) -> bool {
    let types = TypeAlloc::new(alloc, WasmFeatures::all());
    let mut types = CountedTypes::new(types);
    matches!(holds(&mut types), Ok(true))
}
