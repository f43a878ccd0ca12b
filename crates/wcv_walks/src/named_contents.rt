// Which types are made of named types, by what they need to be named.
ghost use Rattle.std.specs.Prelude.{◌≡◌, [], ◌++◌, All, IfOk, OnOk};
ghost use Rattle.wcv_types.specs.Entities.{any_part, entity_tree, EntityStands, EntryStands};
ghost use Rattle.wcv_types.specs.Named.{passes, all_pass};
ghost use Rattle.wcv_types.specs.NamedBySet.{with_created_type};
ghost use Rattle.wcv_walks.specs.Needing.{beside, AllNeeded, AllSeen, Needs};
ghost use Rattle.wcv_types.specs.Sets.{AllStand, identities};
ghost use Rattle.wcv_types.specs.Standing.{Stands};
ghost use Rattle.wcv_types.specs.Tree.{export};
ghost use Rattle.wcv_types.specs.Unfold.{entry_slots, slot_parts, tree_at, trees};
ghost use Rattle.wcv_types.specs.declared.ids.Part.TheVariants as part;

use crate::needs::{need_all, need_defined, need_func};
use crate::place_set::PlaceSet;
use crate::sets_by_place::SetsByPlace;
use wcv_core::{OutOfMemory, Text};
use wcv_types::{
    ComponentAnyTypeId, ComponentEntityType, ComponentInstanceTypeId, ComponentItem,
    ComponentValType, TypeAlloc, TypeSet,
};

/// What a type entity creates joins the set.
fn push_created(ty: ComponentEntityType, set: &mut TypeSet) -> Result<(), OutOfMemory>
    ensures { OnOk result (set.new ≡ with_created_type set.old ty) }
{
    match ty {
        ComponentEntityType::Ty { created, .. } => set.push(created),
        _ => Ok(()),
    }
}

/// What an instance type needs to pass. Its exports are gone through once.
#[cycle(needing)]
fn need_instance(
    types: &TypeAlloc,
    id: ComponentInstanceTypeId,
    set: &TypeSet,
    created: &TypeSet,
    known: &mut SetsByPlace<TypeSet>,
    needed: &mut TypeSet,
) -> Result<(), OutOfMemory>
    requires id { Stands types.now (part.Instance id) }
    requires set { AllStand types.now set.now }
    requires created { AllStand types.now created.now }
    requires known { AllNeeded types.now set.now known.old }
    requires needed { AllStand types.now needed.old }
    ensures needed { OnOk result (Needs types.now (λ ids. passes (beside ids created.now set.now) (tree_at types.now (part.Instance id))) needed.old needed.new) }
    ensures known { OnOk result (AllNeeded types.now set.now known.new) }
{
    if let Some(more) = known.get(id.index) {
        return need_all(types, more, created, needed);
    }
    let more = needs_of_exports(types, types.get(id).exports.as_slice(), set, known)?;
    need_all(types, &more, created, needed)?;
    known.put(id.index, more)
}

/// What exports need to pass in order, where what an export creates counts as named from then on. A node of their
/// functions and value types is gone through once.
#[cycle(needing)]
fn needs_of_exports(
    types: &TypeAlloc,
    exports: &[(Text, ComponentItem)],
    set: &TypeSet,
    known: &mut SetsByPlace<TypeSet>,
) -> Result<TypeSet, OutOfMemory>
    requires stand { All (EntryStands types.now) exports.now }
    requires set { AllStand types.now set.now }
    requires known { AllNeeded types.now set.now known.old }
    ensures needed { IfOk result (λ needed. Needs types.now (λ ids. all_pass (ids ++ identities set.now) (slot_parts (trees types.now.nodes) (entry_slots export exports.now))) [] needed) }
    ensures known { OnOk result (AllNeeded types.now set.now known.new) }
{
    let mut needed = TypeSet::new(types.allocator());
    need_exports(types, exports, set, known, &mut needed)?;
    Ok(needed)
}

/// The same, into a set that is empty.
#[cycle(needing)]
fn need_exports(
    types: &TypeAlloc,
    exports: &[(Text, ComponentItem)],
    set: &TypeSet,
    known: &mut SetsByPlace<TypeSet>,
    needed: &mut TypeSet,
) -> Result<(), OutOfMemory>
    requires stand { All (EntryStands types.now) exports.now }
    requires set { AllStand types.now set.now }
    requires known { AllNeeded types.now set.now known.old }
    requires needed { needed.old ≡ [] }
    ensures needed { OnOk result (Needs types.now (λ ids. all_pass (ids ++ identities set.now) (slot_parts (trees types.now.nodes) (entry_slots export exports.now))) [] needed.new) }
    ensures known { OnOk result (AllNeeded types.now set.now known.new) }
{
    let mut created = TypeSet::new(types.allocator());
    let mut seen = PlaceSet::new(types.allocator());
    need_each(types, exports, set, &mut created, known, &mut seen, needed)
}

/// The same, where nothing was created and nothing was seen before.
#[cycle(needing)]
fn need_each(
    types: &TypeAlloc,
    exports: &[(Text, ComponentItem)],
    set: &TypeSet,
    created: &mut TypeSet,
    known: &mut SetsByPlace<TypeSet>,
    seen: &mut PlaceSet,
    needed: &mut TypeSet,
) -> Result<(), OutOfMemory>
    requires stand { All (EntryStands types.now) exports.now }
    requires set { AllStand types.now set.now }
    requires created { created.old ≡ [] }
    requires known { AllNeeded types.now set.now known.old }
    requires seen { seen.old ≡ [] }
    requires needed { needed.old ≡ [] }
    ensures needed { OnOk result (Needs types.now (λ ids. all_pass (ids ++ identities set.now) (slot_parts (trees types.now.nodes) (entry_slots export exports.now))) [] needed.new) }
    ensures known { OnOk result (AllNeeded types.now set.now known.new) }
{
    for entry in exports {
        need_entity(types, entry.1.ty, set, created, known, seen, needed)?;
        push_created(entry.1.ty, created)?;
    }
    Ok(())
}

/// What a type needs to pass as an export of an instance type.
#[cycle(needing)]
fn need_type(
    types: &TypeAlloc,
    id: ComponentAnyTypeId,
    set: &TypeSet,
    created: &TypeSet,
    known: &mut SetsByPlace<TypeSet>,
    seen: &mut PlaceSet,
    needed: &mut TypeSet,
) -> Result<(), OutOfMemory>
    requires id { Stands types.now (any_part id) }
    requires set { AllStand types.now set.now }
    requires created { AllStand types.now created.now }
    requires known { AllNeeded types.now set.now known.old }
    requires needed { AllStand types.now needed.old }
    requires seen { AllSeen types.now created.now set.now needed.old seen.old }
    ensures needed { OnOk result (Needs types.now (λ ids. passes (beside ids created.now set.now) (tree_at types.now (any_part id))) needed.old needed.new) }
    ensures known { OnOk result (AllNeeded types.now set.now known.new) }
    ensures seen { OnOk result (AllSeen types.now created.now set.now needed.new seen.new) }
{
    match id {
        ComponentAnyTypeId::Resource(_) => Ok(()),
        ComponentAnyTypeId::Defined(id) => {
            need_defined(types, types.get(id), set, created, seen, needed)
        }
        ComponentAnyTypeId::Func(id) => need_func(types, types.get(id), set, created, seen, needed),
        ComponentAnyTypeId::Instance(id) => need_instance(types, id, set, created, known, needed),
        ComponentAnyTypeId::Component(_) => Ok(()),
    }
}

/// So of what is exported.
#[cycle(needing)]
fn need_entity(
    types: &TypeAlloc,
    ty: ComponentEntityType,
    set: &TypeSet,
    created: &TypeSet,
    known: &mut SetsByPlace<TypeSet>,
    seen: &mut PlaceSet,
    needed: &mut TypeSet,
) -> Result<(), OutOfMemory>
    requires stands { EntityStands types.now ty }
    requires set { AllStand types.now set.now }
    requires created { AllStand types.now created.now }
    requires known { AllNeeded types.now set.now known.old }
    requires needed { AllStand types.now needed.old }
    requires seen { AllSeen types.now created.now set.now needed.old seen.old }
    ensures needed { OnOk result (Needs types.now (λ ids. passes (beside ids created.now set.now) (entity_tree (trees types.now.nodes) ty)) needed.old needed.new) }
    ensures known { OnOk result (AllNeeded types.now set.now known.new) }
    ensures seen { OnOk result (AllSeen types.now created.now set.now needed.new seen.new) }
{
    match ty {
        ComponentEntityType::Module(_) => Ok(()),
        ComponentEntityType::Func(id) => {
            need_type(
                types,
                ComponentAnyTypeId::Func(id),
                set,
                created,
                known,
                seen,
                needed,
            )
        }
        ComponentEntityType::Value(ComponentValType::Primitive(_)) => Ok(()),
        ComponentEntityType::Value(ComponentValType::Ty(id)) => {
            need_type(
                types,
                ComponentAnyTypeId::Defined(id),
                set,
                created,
                known,
                seen,
                needed,
            )
        }
        ComponentEntityType::Ty { created: id, .. } => {
            need_type(types, id, set, created, known, seen, needed)
        }
        ComponentEntityType::Instance(id) => need_instance(types, id, set, created, known, needed),
        ComponentEntityType::Component(_) => Ok(()),
    }
}

/// Whether a type needs nothing to pass.
fn needs_none(
    types: &TypeAlloc,
    id: ComponentAnyTypeId,
    set: &TypeSet,
    created: &TypeSet,
    known: &mut SetsByPlace<TypeSet>,
    seen: &mut PlaceSet,
    needed: &mut TypeSet,
) -> Result<bool, OutOfMemory>
    requires id { Stands types.now (any_part id) }
    requires set { AllStand types.now set.now }
    requires created { created.now ≡ [] }
    requires known { AllNeeded types.now set.now known.old }
    requires seen { seen.old ≡ [] }
    requires needed { needed.old ≡ [] }
    ensures { IfOk result (λ b. b ≡ passes (identities set.now) (tree_at types.now (any_part id))) }
{
    need_type(types, id, set, created, known, seen, needed)?;
    Ok(needed.len() == 0)
}

/// Whether it passes, where nothing was seen before.
fn passes_by(
    types: &TypeAlloc,
    id: ComponentAnyTypeId,
    set: &TypeSet,
    known: &mut SetsByPlace<TypeSet>,
    seen: &mut PlaceSet,
) -> Result<bool, OutOfMemory>
    requires id { Stands types.now (any_part id) }
    requires set { AllStand types.now set.now }
    requires known { AllNeeded types.now set.now known.old }
    requires seen { seen.old ≡ [] }
    ensures { IfOk result (λ b. b ≡ passes (identities set.now) (tree_at types.now (any_part id))) }
{
    let created = TypeSet::new(types.allocator());
    let mut needed = TypeSet::new(types.allocator());
    needs_none(types, id, set, &created, known, seen, &mut needed)
}

/// An arena that tells which types a set names as a whole.
pub trait NamedContents {
    ghost use Rattle.wcv_types.specs.Arena.{Arena};

    /// The arena.
    ghost arena: { Self → Arena };

    /// Whether the contents of a type are named by a set: the parameters and the result of a function, what a
    /// defined type is made of, the exports of an instance. A resource and a component have none. The exports of
    /// each instance type are gone through once, however many ways lead there, and so is each node in its functions
    /// and value types. An instance type that is exported again costs as many steps as it needs types that the set
    /// has not. The set is not copied.
    fn all_valtypes_named(
        &self,
        id: &ComponentAnyTypeId,
        set: &TypeSet,
    ) -> Result<bool, OutOfMemory>
        requires id { Stands (arena self.now) (any_part id.now) }
        requires set { AllStand (arena self.now) set.now }
        ensures { IfOk result (λ b. b ≡ passes (identities set.now) (tree_at (arena self.now) (any_part id.now))) };
}

impl NamedContents for TypeAlloc {
    ghost use Rattle.wcv_types.specs.Arena.{Arena};

    ghost arena = { λ a. a };

    fn all_valtypes_named(
        &self,
        id: &ComponentAnyTypeId,
        set: &TypeSet,
    ) -> Result<bool, OutOfMemory> {
        let mut known = SetsByPlace::new(self.allocator());
        let mut seen = PlaceSet::new(self.allocator());
        passes_by(self, *id, set, &mut known, &mut seen)
    }
}
