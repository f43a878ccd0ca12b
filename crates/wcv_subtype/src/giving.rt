// What arguments give in the place of the types that imports create.
ghost use Rattle.std.specs.Prelude.{◌≡◌, ◌+◌, ◌*◌, ◌≤◌, true, [], ◌∷◌, ◌++◌, List, Some, OnOk};
ghost use Rattle.wcv_types.specs.Arena.{Arena};
ghost use Rattle.wcv_types.specs.Entities.{entity_tree, EntityStands, EntryStands};
ghost use Rattle.wcv_types.specs.Identity.{Identity};
ghost use Rattle.wcv_types.specs.Standing.{identity_of, Stands};
ghost use Rattle.wcv_types.specs.Unfold.{any_part, tree_at, trees, Type_tree};
ghost use Rattle.wcv_types.specs.declared.ids.Part.TheVariants as p;
ghost use Rattle.wcv_matching.specs.GivenTypes.{given_by};
ghost use Rattle.wcv_matching.specs.Matching.{named_exports};
ghost use Rattle.wcv_matching.specs.NamedPaths.{entry};
ghost use Rattle.wcv_atoms.specs.Extent.{extent};
ghost use Rattle.wcv_counterparts.specs.IdCounterparts.{AreExports};
ghost use Rattle.wcv_subtype.specs.Openings.{given_under, may_create, Gives, Passes};

use std::sync::ledger::Ledger;
use wcv_atoms::visited;
use wcv_core::{OutOfMemory, Text};
use wcv_counterparts::Exports;
use wcv_remap::Remapping;
use wcv_types::{
    ComponentAnyTypeId, ComponentEntityType, ComponentInstanceTypeId, ComponentItem, Steps,
    TypeAlloc,
};

/// Whether an import of it may create a type.
fn may_create(ty: ComponentEntityType) -> bool
    ensures { result ≡ may_create ty }
{
    matches!(
        ty,
        ComponentEntityType::Ty { .. } | ComponentEntityType::Instance(_)
    )
}

/// The one type comes in the place of the other, where none does yet.
fn give_type(
    map: &mut Remapping,
    old: ComponentAnyTypeId,
    new: ComponentAnyTypeId,
) -> Result<(), OutOfMemory>
    ensures resources { OnOk result (map.new.resources ≡ map.old.resources) }
    ensures given { OnOk result ((a : Arena) (given : List (Identity × Type_tree)) → Stands a (any_part old) → Stands a (any_part new) → Gives a given map.old → Gives a (given ++ (identity_of (any_part old), tree_at a (any_part new)) ∷ []) map.new) }
{
    match map.get(old) {
        Some(_) => Ok(()),
        None => map.push_type(old, new),
    }
}

/// What the argument creates comes in the place of what the import creates, itself and, of an instance, export by
/// export.
#[cycle(giving)]
pub(crate) fn give<'a, L: Ledger>(
    types: &'a TypeAlloc,
    seen: &mut Exports<'a>,
    argument: ComponentEntityType,
    import: ComponentEntityType,
    map: &mut Remapping,
    steps: &mut Steps<L>,
) -> Result<(), OutOfMemory>
    requires seen { AreExports types.now seen.old }
    requires argument { EntityStands types.now argument }
    requires import { EntityStands types.now import }
    requires passes { Passes types.now.core (entity_tree (trees types.now.nodes) argument) (entity_tree (trees types.now.nodes) import) }
    ensures seen { OnOk result (AreExports types.now seen.new) }
    ensures resources { OnOk result (map.new.resources ≡ map.old.resources) }
    ensures given { OnOk result ((given : List (Identity × Type_tree)) → Gives types.now given map.old → Gives types.now (given ++ given_by (entity_tree (trees types.now.nodes) argument) (entity_tree (trees types.now.nodes) import)) map.new) }
    ensures counted { steps.new ≤ steps.old + 2 * extent (entity_tree (trees types.now.nodes) import) }
    ensures fewer { may_create import ≡ true → steps.new + 1 ≤ steps.old + 2 * extent (entity_tree (trees types.now.nodes) import) }
{
    match import {
        ComponentEntityType::Ty { created: old, .. } => match argument {
            ComponentEntityType::Ty { created: new, .. } => give_type(map, old, new),
            _ => unreachable!(),
        },
        ComponentEntityType::Instance(id) => give_exports(types, seen, argument, id, map, steps),
        _ => Ok(()),
    }
}

/// So of what an instance type exports.
#[cycle(giving)]
fn give_exports<'a, L: Ledger>(
    types: &'a TypeAlloc,
    seen: &mut Exports<'a>,
    argument: ComponentEntityType,
    import: ComponentInstanceTypeId,
    map: &mut Remapping,
    steps: &mut Steps<L>,
) -> Result<(), OutOfMemory>
    requires seen { AreExports types.now seen.old }
    requires argument { EntityStands types.now argument }
    requires import { Stands types.now (p.Instance import) }
    requires passes { Passes types.now.core (entity_tree (trees types.now.nodes) argument) (tree_at types.now (p.Instance import)) }
    ensures seen { OnOk result (AreExports types.now seen.new) }
    ensures resources { OnOk result (map.new.resources ≡ map.old.resources) }
    ensures given { OnOk result ((given : List (Identity × Type_tree)) → Gives types.now given map.old → Gives types.now (given ++ given_by (entity_tree (trees types.now.nodes) argument) (tree_at types.now (p.Instance import))) map.new) }
    ensures counted { steps.new + 1 ≤ steps.old + 2 * extent (tree_at types.now (p.Instance import)) }
{
    let exports = &visited(types, import, steps).exports;
    for k in 0..exports.len() {
        match exports.get_index(k) {
            Some(entry) => give_export(types, seen, argument, entry, map, steps)?,
            None => unreachable!(),
        }
    }
    Ok(())
}

/// So of one export, where the argument has one of its name.
#[cycle(giving)]
fn give_export<'a, L: Ledger>(
    types: &'a TypeAlloc,
    seen: &mut Exports<'a>,
    argument: ComponentEntityType,
    export: &(Text, ComponentItem),
    map: &mut Remapping,
    steps: &mut Steps<L>,
) -> Result<(), OutOfMemory>
    requires seen { AreExports types.now seen.old }
    requires argument { EntityStands types.now argument }
    requires export { EntryStands types.now export.now }
    requires passes { (x : Type_tree) → entry export.now.0 (named_exports (entity_tree (trees types.now.nodes) argument)) ≡ Some x → Passes types.now.core x (entity_tree (trees types.now.nodes) export.now.1.ty) }
    ensures seen { OnOk result (AreExports types.now seen.new) }
    ensures resources { OnOk result (map.new.resources ≡ map.old.resources) }
    ensures given { OnOk result ((given : List (Identity × Type_tree)) → Gives types.now given map.old → Gives types.now (given ++ given_under (named_exports (entity_tree (trees types.now.nodes) argument)) export.now.0 (entity_tree (trees types.now.nodes) export.now.1.ty)) map.new) }
    ensures counted { steps.new ≤ steps.old + 2 * extent (entity_tree (trees types.now.nodes) export.now.1.ty) }
{
    if !may_create(export.1.ty) {
        return Ok(());
    }
    match seen.find(types, argument, &export.0, steps)? {
        Some(found) => give(types, seen, found, export.1.ty, map, steps),
        None => Ok(()),
    }
}
