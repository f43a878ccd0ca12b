// Whether what is imported, exported or given may stand where another type is expected.
ghost use Rattle.std.specs.Prelude.{◌≡◌, ◌+◌, ◌*◌, ◌≤◌, All, IfErr, IfOk, OnOk};
ghost use Rattle.std.specs.Bool.{Decides};
ghost use Rattle.wcv_core.specs.Refusal.{error_kind, error_offset};
ghost use Rattle.wcv_types.specs.ByName.{NamesDiffer};
ghost use Rattle.wcv_types.specs.Entities.{entity_tree, EntityStands, EntryStands, SlotStands};
ghost use Rattle.wcv_types.specs.Standing.{Stands};
ghost use Rattle.wcv_types.specs.declared.ids.Part.TheVariants as p;
ghost use Rattle.wcv_types.specs.Unfold.{slot_tree, tree_at, trees, value_slot};
ghost use Rattle.wcv_matching.specs.Refusals.{IsRefusal, MemoryOrMismatch};
ghost use Rattle.wcv_matching.specs.TableMatching.{TypeMatches};
ghost use Rattle.wcv_compare.specs.Compared.{ArePassed};
ghost use Rattle.wcv_atoms.specs.Extent.{entries_extent, extent};
ghost use Rattle.wcv_atoms.specs.IdPasses.{named_trees};
ghost use Rattle.wcv_atoms.specs.Readings.{reads};

use std::sync::ledger::Ledger;
use wcv_atoms::{Readings, visited};
use wcv_compare::{Compared, entity_passes};
use wcv_core::{Error, ErrorKind, Excerpt, OutOfMemory, Text};
use wcv_counterparts::{OwnAtoms, opened_atoms, owned_atoms};
use wcv_types::{
    ByName, ComponentEntityType, ComponentInstanceTypeId, ComponentItem, ComponentType,
    ComponentTypeId, ComponentValType, ItemMap, Steps, TypeAlloc,
};

/// What the entity is, as messages name it.
pub(crate) fn sort_name(ty: &ComponentEntityType) -> &'static str {
    match ty {
        ComponentEntityType::Module(_) => "a core module",
        ComponentEntityType::Func(_) => "a function",
        ComponentEntityType::Value(_) => "a value",
        ComponentEntityType::Ty { .. } => "a type",
        ComponentEntityType::Instance(_) => "an instance",
        ComponentEntityType::Component(_) => "a component",
    }
}

/// The refusal of what is not as expected.
fn unfit(a: &ComponentEntityType, b: &ComponentEntityType, offset: u64) -> Error
    ensures kind { error_kind result ≡ ErrorKind.Mismatch }
    ensures offset { error_offset result ≡ offset }
{
    Error::told(
        ErrorKind::Mismatch,
        offset,
        format_args!(
            "expected {} of another type, found {}",
            sort_name(b),
            sort_name(a)
        ),
    )
}

/// The refusal of what stands under the name, and is not as expected.
pub(crate) fn unfit_under(
    role: &str,
    name: &Text,
    found: &ComponentEntityType,
    expected: &ComponentEntityType,
    offset: u64,
) -> Error
    ensures kind { error_kind result ≡ ErrorKind.Mismatch }
    ensures offset { error_offset result ≡ offset }
{
    Error::told(
        ErrorKind::Mismatch,
        offset,
        format_args!(
            "{} `{}`: expected {} of another type, found {}",
            role,
            Excerpt(name.as_str()),
            sort_name(expected),
            sort_name(found)
        ),
    )
}

/// The refusal where nothing stands under the name. It says what there is.
pub(crate) fn absent_under(
    role: &str,
    name: &Text,
    expected: &ComponentEntityType,
    there_is: &str,
    offset: u64,
) -> Error
    ensures kind { error_kind result ≡ ErrorKind.Mismatch }
    ensures offset { error_offset result ≡ offset }
{
    Error::told(
        ErrorKind::Mismatch,
        offset,
        format_args!(
            "{} `{}`: expected {}, and there is {}",
            role,
            Excerpt(name.as_str()),
            sort_name(expected),
            there_is
        ),
    )
}

/// The refusal by an import or an export that is not there, or is not as expected.
fn unfit_entry(
    role: &str,
    name: &Text,
    found: Option<ComponentEntityType>,
    expected: &ComponentEntityType,
    offset: u64,
) -> Error
    ensures kind { error_kind result ≡ ErrorKind.Mismatch }
    ensures offset { error_offset result ≡ offset }
{
    match found {
        Some(found) => unfit_under(role, name, &found, expected, offset),
        None => absent_under(role, name, expected, "none", offset),
    }
}

/// The refusal by the first of the right entries that the left ones have not, or have with a type that does not
/// match; none where there is no such entry. The pairs that pass are kept from one entry to the next.
fn unfit_among<L: Ledger>(
    types: &TypeAlloc,
    role: &str,
    compared: &mut Compared,
    left: &mut Readings,
    right: &mut Readings,
    a: &ByName<'_, ComponentItem>,
    b: &ItemMap,
    offset: u64,
    steps: &mut Steps<L>,
) -> Result<(), Error>
    requires a { All (EntryStands types.now) a.now }
    requires b { All (EntryStands types.now) b.now }
    requires apart { NamesDiffer b.now }
    requires compared { ArePassed types.now (reads left.old) (reads right.old) compared.old }
    ensures unfit { IfErr result (IsRefusal offset) }
    ensures counted { steps.new ≤ steps.old + (entries_extent (named_trees (trees types.now.nodes) a.now) + entries_extent (named_trees (trees types.now.nodes) b.now)) }
{
    for k in 0..b.len() {
        if let Some(entry) = b.get_index(k) {
            match a.get(&entry.0) {
                Some(item) => {
                    if !entity_passes(
                        types, false, compared, left, right, 1, item.ty, entry.1.ty, steps,
                    )? {
                        return Err(unfit_entry(role, &entry.0, Some(item.ty), &entry.1.ty, offset));
                    }
                }
                None => return Err(unfit_entry(role, &entry.0, None, &entry.1.ty, offset)),
            }
        }
    }
    Ok(())
}

/// The same, beginning with no pair.
fn first_unfit<L: Ledger>(
    types: &TypeAlloc,
    role: &str,
    left: &mut Readings,
    right: &mut Readings,
    a: &ItemMap,
    b: &ItemMap,
    offset: u64,
    steps: &mut Steps<L>,
) -> Result<(), Error>
    requires a { All (EntryStands types.now) a.now }
    requires b { All (EntryStands types.now) b.now }
    requires apart { NamesDiffer b.now }
    ensures unfit { IfErr result (IsRefusal offset) }
    ensures counted { steps.new ≤ steps.old + (entries_extent (named_trees (trees types.now.nodes) a.now) + entries_extent (named_trees (trees types.now.nodes) b.now)) }
{
    let by_name = a.by_name(types.allocator())?;
    let mut compared = Compared::new(types.allocator());
    let done = unfit_among(
        types,
        role,
        &mut compared,
        left,
        right,
        &by_name,
        b,
        offset,
        steps,
    );
    drop(compared);
    drop(by_name);
    done
}

/// The refusal by the first export of the right instance type that does not match, where both sides read no resource
/// otherwise yet.
fn unfit_export<L: Ledger>(
    types: &TypeAlloc,
    left: &mut Readings,
    right: &mut Readings,
    a: ComponentInstanceTypeId,
    b: ComponentInstanceTypeId,
    offset: u64,
    steps: &mut Steps<L>,
) -> Result<(), Error>
    requires a { Stands types.now (p.Instance a) }
    requires b { Stands types.now (p.Instance b) }
    ensures unfit { IfErr result (IsRefusal offset) }
    ensures counted { steps.new ≤ steps.old + (extent (tree_at types.now (p.Instance a)) + extent (tree_at types.now (p.Instance b))) }
{
    let x = visited(types, a, steps);
    let y = visited(types, b, steps);
    let alloc = types.allocator();
    left.enter(&owned_atoms(alloc, 0, &x.defined_resources)?)?;
    right.enter(&owned_atoms(alloc, 0, &y.defined_resources)?)?;
    first_unfit(
        types, "export", left, right, &x.exports, &y.exports, offset, steps,
    )
}

/// The same, beginning with resources as they are given.
fn unfit_instance<L: Ledger>(
    types: &TypeAlloc,
    a: ComponentInstanceTypeId,
    b: ComponentInstanceTypeId,
    offset: u64,
    steps: &mut Steps<L>,
) -> Result<(), Error>
    requires a { Stands types.now (p.Instance a) }
    requires b { Stands types.now (p.Instance b) }
    ensures unfit { IfErr result (IsRefusal offset) }
    ensures counted { steps.new ≤ steps.old + (extent (tree_at types.now (p.Instance a)) + extent (tree_at types.now (p.Instance b))) }
{
    let mut left = Readings::new(types.allocator());
    let mut right = Readings::new(types.allocator());
    let done = unfit_export(types, &mut left, &mut right, a, b, offset, steps);
    drop(right);
    drop(left);
    done
}

/// The refusal by the first import of the left component type, or else the first export of the right one, that does
/// not match, where both sides read their own resources so.
fn unfit_opened<L: Ledger>(
    types: &TypeAlloc,
    left: &mut Readings,
    right: &mut Readings,
    own: &OwnAtoms,
    x: &ComponentType,
    y: &ComponentType,
    offset: u64,
    steps: &mut Steps<L>,
) -> Result<(), Error>
    requires left_imports { All (EntryStands types.now) x.now.imports }
    requires left_exports { All (EntryStands types.now) x.now.exports }
    requires right_imports { All (EntryStands types.now) y.now.imports }
    requires right_exports { All (EntryStands types.now) y.now.exports }
    requires imports_apart { NamesDiffer x.now.imports }
    requires exports_apart { NamesDiffer y.now.exports }
    ensures unfit { IfErr result (IsRefusal offset) }
    ensures counted { steps.new ≤ steps.old + ((entries_extent (named_trees (trees types.now.nodes) x.now.imports) + entries_extent (named_trees (trees types.now.nodes) x.now.exports)) + (entries_extent (named_trees (trees types.now.nodes) y.now.imports) + entries_extent (named_trees (trees types.now.nodes) y.now.exports))) }
{
    left.enter(&own.left)?;
    right.enter(&own.right)?;
    first_unfit(
        types, "import", right, left, &y.imports, &x.imports, offset, steps,
    )?;
    right.enter(&own.exports)?;
    first_unfit(
        types, "export", left, right, &x.exports, &y.exports, offset, steps,
    )
}

/// The same, where both sides read no resource otherwise yet.
fn unfit_in_component<L: Ledger>(
    types: &TypeAlloc,
    left: &mut Readings,
    right: &mut Readings,
    a: ComponentTypeId,
    b: ComponentTypeId,
    offset: u64,
    steps: &mut Steps<L>,
) -> Result<(), Error>
    requires a { Stands types.now (p.Component a) }
    requires b { Stands types.now (p.Component b) }
    ensures unfit { IfErr result (IsRefusal offset) }
    ensures counted { steps.new ≤ steps.old + (extent (tree_at types.now (p.Component a)) + extent (tree_at types.now (p.Component b))) }
{
    let x = visited(types, a, steps);
    let y = visited(types, b, steps);
    let own = match opened_atoms(types, left, right, 0, a, b, steps)? {
        Some(own) => own,
        None => return Ok(()),
    };
    let done = unfit_opened(types, left, right, &own, x, y, offset, steps);
    drop(own);
    done
}

/// The same, beginning with resources as they are given.
fn unfit_component<L: Ledger>(
    types: &TypeAlloc,
    a: ComponentTypeId,
    b: ComponentTypeId,
    offset: u64,
    steps: &mut Steps<L>,
) -> Result<(), Error>
    requires a { Stands types.now (p.Component a) }
    requires b { Stands types.now (p.Component b) }
    ensures unfit { IfErr result (IsRefusal offset) }
    ensures counted { steps.new ≤ steps.old + (extent (tree_at types.now (p.Component a)) + extent (tree_at types.now (p.Component b))) }
{
    let mut left = Readings::new(types.allocator());
    let mut right = Readings::new(types.allocator());
    let done = unfit_in_component(types, &mut left, &mut right, a, b, offset, steps);
    drop(right);
    drop(left);
    done
}

/// The refusal of an entity that does not match: of instances it names the export, and of components the import or
/// the export.
fn refusal<L: Ledger>(
    types: &TypeAlloc,
    a: &ComponentEntityType,
    b: &ComponentEntityType,
    offset: u64,
    steps: &mut Steps<L>,
) -> Error
    requires a { EntityStands types.now a.now }
    requires b { EntityStands types.now b.now }
    ensures refused { IsRefusal offset result }
    ensures counted { steps.new ≤ steps.old + (extent (entity_tree (trees types.now.nodes) a.now) + extent (entity_tree (trees types.now.nodes) b.now)) }
{
    let part = match a {
        ComponentEntityType::Instance(x) => match b {
            ComponentEntityType::Instance(y) => unfit_instance(types, *x, *y, offset, steps),
            _ => Ok(()),
        },
        ComponentEntityType::Component(x) => match b {
            ComponentEntityType::Component(y) => unfit_component(types, *x, *y, offset, steps),
            _ => Ok(()),
        },
        _ => Ok(()),
    };
    match part {
        Ok(()) => unfit(a, b, offset),
        Err(err) => err,
    }
}

/// Whether the one entity matches the other, with all resources as they are given.
fn entity_matches<L: Ledger>(
    types: &TypeAlloc,
    a: &ComponentEntityType,
    b: &ComponentEntityType,
    steps: &mut Steps<L>,
) -> Result<bool, OutOfMemory>
    requires a { EntityStands types.now a.now }
    requires b { EntityStands types.now b.now }
    ensures matches { IfOk result (λ matches. Decides matches (TypeMatches types.now.core (entity_tree (trees types.now.nodes) a.now) (entity_tree (trees types.now.nodes) b.now))) }
    ensures counted { steps.new ≤ steps.old + (extent (entity_tree (trees types.now.nodes) a.now) + extent (entity_tree (trees types.now.nodes) b.now)) }
{
    types.nodes_fit();
    let _count = types.core_types().len();
    let mut left = Readings::new(types.allocator());
    let mut right = Readings::new(types.allocator());
    let mut compared = Compared::new(types.allocator());
    let matches = entity_passes(
        types,
        false,
        &mut compared,
        &mut left,
        &mut right,
        0,
        *a,
        *b,
        steps,
    );
    drop(compared);
    drop(right);
    drop(left);
    matches
}

/// Whether the one may stand where the other is expected. It takes at most as many steps as both types are large, one for
/// each node of either that it goes into or that the path of an own resource passes. A refusal takes at most twice as
/// many, since it looks for the import or the export that it names.
pub fn component_entity_type<L: Ledger>(
    types: &TypeAlloc,
    a: &ComponentEntityType,
    b: &ComponentEntityType,
    offset: u64,
    steps: &mut Steps<L>,
) -> Result<(), Error>
    requires a { EntityStands types.now a.now }
    requires b { EntityStands types.now b.now }
    ensures ok { OnOk result (TypeMatches types.now.core (entity_tree (trees types.now.nodes) a.now) (entity_tree (trees types.now.nodes) b.now)) }
    ensures err { IfErr result (MemoryOrMismatch offset (TypeMatches types.now.core (entity_tree (trees types.now.nodes) a.now) (entity_tree (trees types.now.nodes) b.now))) }
    ensures steps { OnOk result (steps.new ≤ steps.old + (extent (entity_tree (trees types.now.nodes) a.now) + extent (entity_tree (trees types.now.nodes) b.now))) }
    ensures twice { steps.new ≤ steps.old + 2 * (extent (entity_tree (trees types.now.nodes) a.now) + extent (entity_tree (trees types.now.nodes) b.now)) }
{
    if entity_matches(types, a, b, steps)? {
        Ok(())
    } else {
        Err(refusal(types, a, b, offset, steps))
    }
}

/// Whether the one value type may stand where the other is expected: whether they are equal, identities aside.
pub fn component_val_type<L: Ledger>(
    types: &TypeAlloc,
    a: &ComponentValType,
    b: &ComponentValType,
    offset: u64,
    steps: &mut Steps<L>,
) -> Result<(), Error>
    requires a { SlotStands types.now (value_slot a.now) }
    requires b { SlotStands types.now (value_slot b.now) }
    ensures ok { OnOk result (TypeMatches types.now.core (slot_tree (trees types.now.nodes) (value_slot a.now)) (slot_tree (trees types.now.nodes) (value_slot b.now))) }
    ensures err { IfErr result (MemoryOrMismatch offset (TypeMatches types.now.core (slot_tree (trees types.now.nodes) (value_slot a.now)) (slot_tree (trees types.now.nodes) (value_slot b.now)))) }
    ensures steps { OnOk result (steps.new ≤ steps.old + (extent (slot_tree (trees types.now.nodes) (value_slot a.now)) + extent (slot_tree (trees types.now.nodes) (value_slot b.now)))) }
    ensures twice { steps.new ≤ steps.old + 2 * (extent (slot_tree (trees types.now.nodes) (value_slot a.now)) + extent (slot_tree (trees types.now.nodes) (value_slot b.now))) }
{
    component_entity_type(
        types,
        &ComponentEntityType::Value(*a),
        &ComponentEntityType::Value(*b),
        offset,
        steps,
    )
}
