// What the types of functions and of values need to be named.
ghost use Rattle.std.specs.Prelude.{◌≡◌, ◌++◌, cond, All, OnOk};
ghost use Rattle.wcv_types.specs.Entities.{SlotStands};
ghost use Rattle.wcv_types.specs.Named.{is_named, are_named};
ghost use Rattle.wcv_walks.specs.Needing.{are_in, beside, with_beyond, AllSeen, Needs};
ghost use Rattle.wcv_types.specs.Sets.{has_type, AllStand, identities};
ghost use Rattle.wcv_types.specs.Standing.{Stands};
ghost use Rattle.wcv_types.specs.Unfold.{option_slot, parts_of, slots_of, slot_parts, slot_tree, trees};
ghost use Rattle.wcv_types.specs.declared.arena.Node.TheVariants as n;

use crate::place_set::PlaceSet;
use wcv_core::OutOfMemory;
use wcv_types::{
    ComponentAnyTypeId, ComponentDefinedType, ComponentFuncType, ComponentValType, TypeAlloc,
    TypeSet, node_of,
};

/// A type joins what is needed, unless it was created.
fn need_beyond(
    id: ComponentAnyTypeId,
    created: &TypeSet,
    needed: &mut TypeSet,
) -> Result<(), OutOfMemory>
    ensures { OnOk result (needed.new ≡ with_beyond created.now needed.old id) }
{
    if created.contains(&id) {
        return Ok(());
    }
    needed.push(id)
}

/// A type joins what is needed, unless it is named or was created.
fn need(
    id: ComponentAnyTypeId,
    set: &TypeSet,
    created: &TypeSet,
    needed: &mut TypeSet,
) -> Result<(), OutOfMemory>
    ensures { OnOk result (needed.new ≡ cond (has_type set.now id) needed.old (with_beyond created.now needed.old id)) }
{
    if set.contains(&id) {
        return Ok(());
    }
    need_beyond(id, created, needed)
}

/// All of a set join what is needed, but for what was created.
pub fn need_all(
    types: &TypeAlloc,
    more: &TypeSet,
    created: &TypeSet,
    needed: &mut TypeSet,
) -> Result<(), OutOfMemory>
    requires more { AllStand types.now more.now }
    requires created { AllStand types.now created.now }
    requires needed { AllStand types.now needed.old }
    ensures { OnOk result (Needs types.now (λ ids. are_in (ids ++ identities created.now) (identities more.now)) needed.old needed.new) }
{
    let _ = types;
    for k in 0..more.len() {
        match more.get_index(k) {
            Some(id) => need_beyond(*id, created, needed)?,
            None => unreachable!(),
        }
    }
    Ok(())
}

/// What a value type needs, which may be left out. A type that was seen needs nothing more. From then on it was.
#[cycle(needing_values)]
fn need_value(
    types: &TypeAlloc,
    ty: Option<ComponentValType>,
    set: &TypeSet,
    created: &TypeSet,
    seen: &mut PlaceSet,
    needed: &mut TypeSet,
) -> Result<(), OutOfMemory>
    requires value { SlotStands types.now (option_slot ty) }
    requires set { AllStand types.now set.now }
    requires created { AllStand types.now created.now }
    requires needed { AllStand types.now needed.old }
    requires seen { AllSeen types.now created.now set.now needed.old seen.old }
    ensures needed { OnOk result (Needs types.now (λ ids. is_named (beside ids created.now set.now) (slot_tree (trees types.now.nodes) (option_slot ty))) needed.old needed.new) }
    ensures seen { OnOk result (AllSeen types.now created.now set.now needed.new seen.new) }
{
    let id = match node_of(ty) {
        Some(id) => id,
        None => return Ok(()),
    };
    let shape = types.get(id);
    if shape.names_itself() {
        return need(ComponentAnyTypeId::Defined(id), set, created, needed);
    }
    if seen.contains(id.index) {
        return Ok(());
    }
    need_defined(types, shape, set, created, seen, needed)?;
    seen.push(id.index)
}

/// What a defined type needs that it is made of. Each node is gone through once, however many ways lead there.
#[cycle(needing_values)]
pub fn need_defined(
    types: &TypeAlloc,
    shape: &ComponentDefinedType,
    set: &TypeSet,
    created: &TypeSet,
    seen: &mut PlaceSet,
    needed: &mut TypeSet,
) -> Result<(), OutOfMemory>
    requires stands { All (Stands types.now) (parts_of (n.Defined shape.now)) }
    requires set { AllStand types.now set.now }
    requires created { AllStand types.now created.now }
    requires needed { AllStand types.now needed.old }
    requires seen { AllSeen types.now created.now set.now needed.old seen.old }
    ensures needed { OnOk result (Needs types.now (λ ids. are_named (beside ids created.now set.now) (slot_parts (trees types.now.nodes) (slots_of (n.Defined shape.now)))) needed.old needed.new) }
    ensures seen { OnOk result (AllSeen types.now created.now set.now needed.new seen.new) }
{
    if let Some(handle) = shape.handle() {
        return need(ComponentAnyTypeId::Resource(handle), set, created, needed);
    }
    for k in 0..shape.value_count() {
        need_value(types, shape.value_at(k), set, created, seen, needed)?;
    }
    Ok(())
}

/// What the parameters and the result of a function need.
pub fn need_func(
    types: &TypeAlloc,
    shape: &ComponentFuncType,
    set: &TypeSet,
    created: &TypeSet,
    seen: &mut PlaceSet,
    needed: &mut TypeSet,
) -> Result<(), OutOfMemory>
    requires stands { All (Stands types.now) (parts_of (n.Func shape.now)) }
    requires set { AllStand types.now set.now }
    requires created { AllStand types.now created.now }
    requires needed { AllStand types.now needed.old }
    requires seen { AllSeen types.now created.now set.now needed.old seen.old }
    ensures needed { OnOk result (Needs types.now (λ ids. are_named (beside ids created.now set.now) (slot_parts (trees types.now.nodes) (slots_of (n.Func shape.now)))) needed.old needed.new) }
    ensures seen { OnOk result (AllSeen types.now created.now set.now needed.new seen.new) }
{
    for param in &shape.params {
        need_value(types, Some(param.1), set, created, seen, needed)?;
    }
    need_value(types, shape.result, set, created, seen, needed)
}
