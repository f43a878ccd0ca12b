// The resources that are free in types.
ghost use Rattle.std.specs.Prelude.{◌≡◌, ◌<◌, suc, true, false, [], All, MatchOption, IfOk, OnOk, OnErr};
ghost use Rattle.wcv_types.specs.Entities.{any_part, entity_tree, entry_trees, EntityStands, EntryStands};
ghost use Rattle.wcv_types.specs.Gathering.{Gains, Continues, FreeAmong, FreeInSome, AllGathered, AllKnown};
ghost use Rattle.wcv_types.specs.Resources.{Free};
ghost use Rattle.wcv_types.specs.Standing.{Stands, StandsBefore, Unfolds};
ghost use Rattle.wcv_types.specs.Unfold.{parts_at, rank, tree_at, tree_in, trees};

use crate::place_set::PlaceSet;
use crate::sets_by_place::SetsByPlace;
use crate::unowned::{free_outside, join};
use wcv_core::OutOfMemory;
use wcv_types::{
    ComponentAnyTypeId, ComponentEntityType, ItemMap, NodeSort, Part, Parts, ResourceSet,
    TypeAlloc, part_of_any, place_of, push_entity, push_entries,
};

/// The parts of a node of that sort, in order.
fn node_parts<S: NodeSort>(types: &TypeAlloc, id: S) -> Result<Parts, OutOfMemory>
    requires { Stands types.now (S.as_part id) }
    ensures parts { IfOk result (λ parts. parts ≡ parts_at types.now (S.as_part id)) }
    ensures unfolds { Unfolds types.now (S.as_part id) }
{
    let mut parts = Parts::new(types.allocator());
    S::parts_into(types.get(id), &mut parts)?;
    Ok(parts)
}

/// The parts of a node of any sort.
fn parts_of(types: &TypeAlloc, part: Part) -> Result<Parts, OutOfMemory>
    requires node { 0 < rank part }
    requires stands { Stands types.now part }
    ensures parts { IfOk result (λ parts. parts ≡ parts_at types.now part) }
    ensures unfolds { Unfolds types.now part }
{
    match part {
        Part::Defined(id) => node_parts(types, id),
        Part::Func(id) => node_parts(types, id),
        Part::Instance(id) => node_parts(types, id),
        Part::Component(id) => node_parts(types, id),
        Part::Module(id) => node_parts(types, id),
        Part::CoreInstance(id) => node_parts(types, id),
        Part::Resource(_) | Part::Core(_) => unreachable!(),
    }
}

/// What is free in a type that is no node joins the set.
fn free_in_leaf(types: &TypeAlloc, part: Part, free: &mut ResourceSet) -> Result<(), OutOfMemory>
    requires { rank part ≡ 0 }
    ensures ok { OnOk result (Gains (λ r. Free r (tree_at types.now part)) free.old free.new) }
    ensures err { OnErr result (Continues free.old free.new) }
{
    let _ = types;
    match part {
        Part::Resource(id) => free.push(id.resource),
        _ => Ok(()),
    }
}

/// What is free in the node at this place joins the set, where it is known. The answer is whether it is.
fn join_known(
    types: &TypeAlloc,
    place: u64,
    known: &SetsByPlace<ResourceSet>,
    free: &mut ResourceSet,
) -> Result<bool, OutOfMemory>
    requires { AllKnown types.now known.now }
    ensures known { IfOk result (λ b. b ≡ true → Gains (λ r. Free r (tree_in (trees types.now.nodes) place)) free.old free.new) }
    ensures unknown { IfOk result (λ b. b ≡ false → free.new ≡ free.old) }
    ensures err { OnErr result (Continues free.old free.new) }
{
    let _ = types;
    match known.get(place) {
        Some(set) => {
            join(set, free)?;
            Ok(true)
        }
        None => Ok(false),
    }
}

/// What is free in the type joins the set, unless the type was seen. From then on it was.
#[cycle(free_below)]
fn free_in_part(
    types: &TypeAlloc,
    part: Part,
    known: &mut SetsByPlace<ResourceSet>,
    seen: &mut PlaceSet,
    free: &mut ResourceSet,
) -> Result<(), OutOfMemory>
    requires stands { Stands types.now part }
    requires known { AllKnown types.now known.old }
    requires gathered { AllGathered types.now seen.old free.old }
    ensures ok { OnOk result (Gains (λ r. Free r (tree_at types.now part)) free.old free.new) }
    ensures known { OnOk result (AllKnown types.now known.new) }
    ensures gathered { OnOk result (AllGathered types.now seen.new free.new) }
    ensures err { OnErr result (Continues free.old free.new) }
{
    let place = match place_of(part) {
        Some(place) => place,
        None => return free_in_leaf(types, part, free),
    };
    if !types.refers(place) {
        return Ok(());
    }
    if seen.contains(place) {
        return Ok(());
    }
    free_in_node(types, part, place, known, seen, free)?;
    seen.push(place)
}

/// What is free in a node joins the set: what is free in a part, and is not its own.
#[cycle(free_below)]
fn free_in_node(
    types: &TypeAlloc,
    part: Part,
    place: u64,
    known: &mut SetsByPlace<ResourceSet>,
    seen: &mut PlaceSet,
    free: &mut ResourceSet,
) -> Result<(), OutOfMemory>
    requires place { rank part ≡ suc place }
    requires stands { Stands types.now part }
    requires known { AllKnown types.now known.old }
    requires gathered { AllGathered types.now seen.old free.old }
    ensures ok { OnOk result (Gains (λ r. Free r (tree_at types.now part)) free.old free.new) }
    ensures known { OnOk result (AllKnown types.now known.new) }
    ensures gathered { OnOk result (AllGathered types.now seen.new free.new) }
    ensures err { OnErr result (Continues free.old free.new) }
{
    match part {
        Part::Instance(_) | Part::Component(_) => { free_in_scope(types, part, place, known, free) }
        _ => {
            let parts = parts_of(types, part)?;
            free_in_list(types, parts.as_slice(), known, seen, free)
        }
    }
}

/// So of a node that may own resources. Its parts are gone through once in a walk, and what is free in it is
/// known from then on.
#[cycle(free_below)]
fn free_in_scope(
    types: &TypeAlloc,
    part: Part,
    place: u64,
    known: &mut SetsByPlace<ResourceSet>,
    free: &mut ResourceSet,
) -> Result<(), OutOfMemory>
    requires place { rank part ≡ suc place }
    requires stands { Stands types.now part }
    requires known { AllKnown types.now known.old }
    ensures ok { OnOk result (Gains (λ r. Free r (tree_at types.now part)) free.old free.new) }
    ensures known { OnOk result (AllKnown types.now known.new) }
    ensures err { OnErr result (Continues free.old free.new) }
{
    if join_known(types, place, known, free)? {
        return Ok(());
    }
    let outside = free_in_owner(types, part, known)?;
    join(&outside, free)?;
    known.put(place, outside)
}

/// What is free in a node that may own resources, in a set of its own.
#[cycle(free_below)]
fn free_in_owner(
    types: &TypeAlloc,
    part: Part,
    known: &mut SetsByPlace<ResourceSet>,
) -> Result<ResourceSet, OutOfMemory>
    requires node { 0 < rank part }
    requires stands { Stands types.now part }
    requires known { AllKnown types.now known.old }
    ensures ok { IfOk result (λ outside. Gains (λ r. Free r (tree_at types.now part)) [] outside) }
    ensures known { OnOk result (AllKnown types.now known.new) }
{
    let parts = parts_of(types, part)?;
    let inside = free_within(types, parts.as_slice(), known)?;
    let mut outside = ResourceSet::new(types.allocator());
    free_outside(types, part, &inside, &mut outside)?;
    Ok(outside)
}

/// What is free in one of the types, in a set of its own.
#[cycle(free_below)]
fn free_within(
    types: &TypeAlloc,
    parts: &[Part],
    known: &mut SetsByPlace<ResourceSet>,
) -> Result<ResourceSet, OutOfMemory>
    requires stand { All (Stands types.now) parts.now }
    requires known { AllKnown types.now known.old }
    ensures ok { IfOk result (λ inside. Gains (λ r. FreeInSome types.now r parts.now) [] inside) }
    ensures known { OnOk result (AllKnown types.now known.new) }
{
    let mut seen = PlaceSet::new(types.allocator());
    let mut inside = ResourceSet::new(types.allocator());
    free_in_list(types, parts, known, &mut seen, &mut inside)?;
    Ok(inside)
}

/// What is free in one of the types joins the set.
#[cycle(free_below)]
fn free_in_list(
    types: &TypeAlloc,
    parts: &[Part],
    known: &mut SetsByPlace<ResourceSet>,
    seen: &mut PlaceSet,
    free: &mut ResourceSet,
) -> Result<(), OutOfMemory>
    requires stand { All (Stands types.now) parts.now }
    requires known { AllKnown types.now known.old }
    requires gathered { AllGathered types.now seen.old free.old }
    ensures ok { OnOk result (Gains (λ r. FreeInSome types.now r parts.now) free.old free.new) }
    ensures known { OnOk result (AllKnown types.now known.new) }
    ensures gathered { OnOk result (AllGathered types.now seen.new free.new) }
    ensures err { OnErr result (Continues free.old free.new) }
{
    for part in parts {
        free_in_part(types, *part, known, seen, free)?;
    }
    Ok(())
}

/// So it does where no type was seen before, and nothing is known.
fn free_in_parts(
    types: &TypeAlloc,
    parts: &[Part],
    free: &mut ResourceSet,
) -> Result<(), OutOfMemory>
    requires { All (Stands types.now) parts.now }
    ensures ok { OnOk result (Gains (λ r. FreeInSome types.now r parts.now) free.old free.new) }
    ensures err { OnErr result (Continues free.old free.new) }
{
    let mut known = SetsByPlace::new(types.allocator());
    let mut seen = PlaceSet::new(types.allocator());
    free_in_list(types, parts, &mut known, &mut seen, free)
}

/// An arena that tells the free resources of types.
pub trait FreeVariables {
    ghost use Rattle.wcv_types.specs.Arena.{Arena};

    /// The arena.
    ghost arena: { Self → Arena };

    /// The resources that are free in the type join the set. Out of memory some of them may have joined it.
    fn free_variables_any_type_id(
        &self,
        id: ComponentAnyTypeId,
        free: &mut ResourceSet,
    ) -> Result<(), OutOfMemory>
        requires { Stands (arena self.now) (any_part id) }
        ensures ok { OnOk result (Gains (λ r. Free r (tree_at (arena self.now) (any_part id))) free.old free.new) }
        ensures err { OnErr result (Continues free.old free.new) };

    /// So do those that are free in the type of what is imported or exported.
    fn free_variables_component_entity(
        &self,
        ty: &ComponentEntityType,
        free: &mut ResourceSet,
    ) -> Result<(), OutOfMemory>
        requires { EntityStands (arena self.now) ty.now }
        ensures ok { OnOk result (Gains (λ r. Free r (entity_tree (trees (arena self.now).nodes) ty.now)) free.old free.new) }
        ensures err { OnErr result (Continues free.old free.new) };

    /// So do those of all items. It looks once at what a type is made of, however many items have the type.
    fn free_variables_items(
        &self,
        items: &ItemMap,
        free: &mut ResourceSet,
    ) -> Result<(), OutOfMemory>
        requires { All (EntryStands (arena self.now)) items.now }
        ensures ok { OnOk result (Gains (FreeAmong (entry_trees (trees (arena self.now).nodes) items.now)) free.old free.new) }
        ensures err { OnErr result (Continues free.old free.new) };
}

impl FreeVariables for TypeAlloc {
    ghost use Rattle.wcv_types.specs.Arena.{Arena};

    ghost arena = { λ a. a };

    fn free_variables_any_type_id(
        &self,
        id: ComponentAnyTypeId,
        free: &mut ResourceSet,
    ) -> Result<(), OutOfMemory> {
        let mut known = SetsByPlace::new(self.allocator());
        let mut seen = PlaceSet::new(self.allocator());
        free_in_part(self, part_of_any(id), &mut known, &mut seen, free)
    }

    fn free_variables_component_entity(
        &self,
        ty: &ComponentEntityType,
        free: &mut ResourceSet,
    ) -> Result<(), OutOfMemory> {
        let mut parts = Parts::new(self.allocator());
        push_entity(*ty, &mut parts)?;
        free_in_parts(self, parts.as_slice(), free)
    }

    fn free_variables_items(
        &self,
        items: &ItemMap,
        free: &mut ResourceSet,
    ) -> Result<(), OutOfMemory> {
        let mut parts = Parts::new(self.allocator());
        push_entries(items.as_slice(), &mut parts)?;
        free_in_parts(self, parts.as_slice(), free)
    }
}
