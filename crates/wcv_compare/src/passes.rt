// Whether one type is the same as another, or may stand where it is expected, by one pass over both.
ghost use Rattle.std.specs.Prelude.{◌≡◌, ◌+◌, ◌≤◌, true, false, bytes_eq, cond, is_some, All, IfOk};
ghost use Rattle.std.specs.List.{list_all};
ghost use Rattle.std.specs.Map.{lookup};
ghost use Rattle.wcv_types.specs.ByName.{NamesDiffer};
ghost use Rattle.wcv_types.specs.Entities.{any_part, entity_tree, EntityStands, EntryStands};
ghost use Rattle.wcv_types.specs.Standing.{Stands};
ghost use Rattle.wcv_types.specs.Unfold.{tree_at, trees};
ghost use Rattle.wcv_types.specs.declared.ids.Part.TheVariants as p;
ghost use Rattle.wcv_compare.specs.Compared.{ArePassed, PassedIf};
ghost use Rattle.wcv_atoms.specs.Extent.{entries_extent, extent};
ghost use Rattle.wcv_atoms.specs.IdPasses.{Answers, AnswersEntries, AnswersTypes, StaysIf, same_resource, as_resource, named_trees};
ghost use Rattle.wcv_matching.specs.Matching.{Reading};
ghost use Rattle.wcv_matching.specs.OnePass.{Atom};
ghost use Rattle.wcv_atoms.specs.Readings.{atoms_of, over, reads};

use crate::compared::Compared;
use std::sync::ledger::Ledger;
use wcv_atoms::{Readings, ResourceAtom, as_entity, as_resource, visited};
use wcv_core::OutOfMemory;
use wcv_counterparts::{opened_atoms, owned_atoms, paired_atoms};
use wcv_types::{
    ByName, ComponentAnyTypeId, ComponentEntityType, ComponentInstanceTypeId, ComponentItem,
    ComponentTypeId, ComponentValType, ItemMap, ResourceId, Steps, TypeAlloc, TypeSort,
};
use wcv_values::{modules_pass, names_fit, same_func, same_owned, same_value};

/// Whether both types are resources, and are read as one.
fn same_resource(
    left: &Readings,
    right: &Readings,
    a: ComponentAnyTypeId,
    b: ComponentAnyTypeId,
) -> bool
    ensures { result ≡ same_resource (reads left.now) (reads right.now) (as_resource a) (as_resource b) }
{
    match as_resource(a) {
        Some(x) => match as_resource(b) {
            Some(y) => left.read(x).is(right.read(y)),
            None => false,
        },
        None => false,
    }
}

/// Whether each of the right entries has one of its name on the left that passes with it, where the names of the left
/// ones stand on the right if they are to be the same.
#[cycle(passing)]
fn entries_pass_by_name<L: Ledger>(
    types: &TypeAlloc,
    exact: bool,
    compared: &mut Compared,
    left: &mut Readings,
    right: &mut Readings,
    level: u64,
    a: &ByName<'_, ComponentItem>,
    b: &ItemMap,
    steps: &mut Steps<L>,
) -> Result<bool, OutOfMemory>
    requires a { All (EntryStands types.now) a.now }
    requires b { All (EntryStands types.now) b.now }
    requires apart { NamesDiffer b.now }
    requires names { cond exact (list_all (λ e. is_some (lookup (bytes_eq e.0) b.now)) a.now) true ≡ true }
    requires compared { ArePassed types.now (reads left.old) (reads right.old) compared.old }
    ensures answers { IfOk result (AnswersEntries types.now.core exact level (reads left.old) (reads right.old) (named_trees (trees types.now.nodes) a.now) (named_trees (trees types.now.nodes) b.now)) }
    ensures left { IfOk result (λ passes. StaysIf passes (reads left.old) (reads left.new)) }
    ensures right { IfOk result (λ passes. StaysIf passes (reads right.old) (reads right.new)) }
    ensures compared { IfOk result (λ passes. PassedIf passes types.now (reads left.old) (reads right.old) compared.new) }
    ensures counted { steps.new ≤ steps.old + (entries_extent (named_trees (trees types.now.nodes) a.now) + entries_extent (named_trees (trees types.now.nodes) b.now)) }
{
    for k in 0..b.len() {
        if let Some(entry) = b.get_index(k) {
            match a.get(&entry.0) {
                Some(item) => {
                    if !entity_passes(
                        types, exact, compared, left, right, level, item.ty, entry.1.ty, steps,
                    )? {
                        return Ok(false);
                    }
                }
                None => return Ok(false),
            }
        }
    }
    Ok(true)
}

/// Whether the entries of the one list pass with those of the other: each of the right one has one of its name on
/// the left that passes with it, and where they are to be the same, the names of the left one stand on the right.
#[cycle(passing)]
fn entries_pass<L: Ledger>(
    types: &TypeAlloc,
    exact: bool,
    compared: &mut Compared,
    left: &mut Readings,
    right: &mut Readings,
    level: u64,
    a: &ItemMap,
    b: &ItemMap,
    steps: &mut Steps<L>,
) -> Result<bool, OutOfMemory>
    requires a { All (EntryStands types.now) a.now }
    requires b { All (EntryStands types.now) b.now }
    requires apart { NamesDiffer b.now }
    requires compared { ArePassed types.now (reads left.old) (reads right.old) compared.old }
    ensures answers { IfOk result (AnswersEntries types.now.core exact level (reads left.old) (reads right.old) (named_trees (trees types.now.nodes) a.now) (named_trees (trees types.now.nodes) b.now)) }
    ensures left { IfOk result (λ passes. StaysIf passes (reads left.old) (reads left.new)) }
    ensures right { IfOk result (λ passes. StaysIf passes (reads right.old) (reads right.new)) }
    ensures compared { IfOk result (λ passes. PassedIf passes types.now (reads left.old) (reads right.old) compared.new) }
    ensures counted { steps.new ≤ steps.old + (entries_extent (named_trees (trees types.now.nodes) a.now) + entries_extent (named_trees (trees types.now.nodes) b.now)) }
{
    if !names_fit(types.allocator(), exact, a, b)? {
        return Ok(false);
    }
    let by_name = a.by_name(types.allocator())?;
    let passes = entries_pass_by_name(
        types, exact, compared, left, right, level, &by_name, b, steps,
    );
    drop(by_name);
    passes
}

/// A function type of up to this size is compared again rather than kept: that takes no longer than to ask for a pair.
const MAX_UNKEPT: u32 = 16;

/// Whether the entity is a function of a type so small.
fn is_small(types: &TypeAlloc, ty: ComponentEntityType) -> bool
    requires { EntityStands types.now ty }
{
    match ty {
        ComponentEntityType::Func(id) => id.info(types).size <= MAX_UNKEPT,
        _ => false,
    }
}

/// Whether the one entity passes with the other: whether they are the same where that is asked, or else whether the
/// one may stand where the other is expected. A large pair that is known to pass is not compared again.
#[cycle(passing)]
pub fn entity_passes<L: Ledger>(
    types: &TypeAlloc,
    exact: bool,
    compared: &mut Compared,
    left: &mut Readings,
    right: &mut Readings,
    level: u64,
    a: ComponentEntityType,
    b: ComponentEntityType,
    steps: &mut Steps<L>,
) -> Result<bool, OutOfMemory>
    requires a { EntityStands types.now a }
    requires b { EntityStands types.now b }
    requires compared { ArePassed types.now (reads left.old) (reads right.old) compared.old }
    ensures answers { IfOk result (Answers types.now.core exact level (reads left.old) (reads right.old) (entity_tree (trees types.now.nodes) a) (entity_tree (trees types.now.nodes) b)) }
    ensures left { IfOk result (λ passes. StaysIf passes (reads left.old) (reads left.new)) }
    ensures right { IfOk result (λ passes. StaysIf passes (reads right.old) (reads right.new)) }
    ensures compared { IfOk result (λ passes. PassedIf passes types.now (reads left.old) (reads right.old) compared.new) }
    ensures counted { steps.new ≤ steps.old + (extent (entity_tree (trees types.now.nodes) a) + extent (entity_tree (trees types.now.nodes) b)) }
{
    if is_small(types, a) {
        return entity_compared(types, exact, compared, left, right, level, a, b, steps);
    }
    if compared.knows(exact, level, a, b) {
        return Ok(true);
    }
    if !entity_compared(types, exact, compared, left, right, level, a, b, steps)? {
        return Ok(false);
    }
    compared.keep(exact, level, a, b)?;
    Ok(true)
}

/// The same of a pair that is not known.
#[cycle(passing)]
fn entity_compared<L: Ledger>(
    types: &TypeAlloc,
    exact: bool,
    compared: &mut Compared,
    left: &mut Readings,
    right: &mut Readings,
    level: u64,
    a: ComponentEntityType,
    b: ComponentEntityType,
    steps: &mut Steps<L>,
) -> Result<bool, OutOfMemory>
    requires a { EntityStands types.now a }
    requires b { EntityStands types.now b }
    requires compared { ArePassed types.now (reads left.old) (reads right.old) compared.old }
    ensures answers { IfOk result (Answers types.now.core exact level (reads left.old) (reads right.old) (entity_tree (trees types.now.nodes) a) (entity_tree (trees types.now.nodes) b)) }
    ensures left { IfOk result (λ passes. StaysIf passes (reads left.old) (reads left.new)) }
    ensures right { IfOk result (λ passes. StaysIf passes (reads right.old) (reads right.new)) }
    ensures compared { IfOk result (λ passes. PassedIf passes types.now (reads left.old) (reads right.old) compared.new) }
    ensures counted { steps.new ≤ steps.old + (extent (entity_tree (trees types.now.nodes) a) + extent (entity_tree (trees types.now.nodes) b)) }
{
    match a {
        ComponentEntityType::Module(x) => match b {
            ComponentEntityType::Module(y) => modules_pass(types, exact, x, y, steps),
            _ => Ok(false),
        },
        ComponentEntityType::Func(x) => match b {
            ComponentEntityType::Func(y) => Ok(same_func(types, left, right, x, y, steps)),
            _ => Ok(false),
        },
        ComponentEntityType::Value(x) => match b {
            ComponentEntityType::Value(y) => {
                Ok(same_value(types, left, right, Some(x), Some(y), steps))
            }
            _ => Ok(false),
        },
        ComponentEntityType::Ty { referenced: x, .. } => match b {
            ComponentEntityType::Ty { referenced: y, .. } => {
                types_pass(types, compared, left, right, level, x, y, steps)
            }
            _ => Ok(false),
        },
        ComponentEntityType::Instance(x) => match b {
            ComponentEntityType::Instance(y) => {
                instances_pass(types, exact, compared, left, right, level, x, y, steps)
            }
            _ => Ok(false),
        },
        ComponentEntityType::Component(x) => match b {
            ComponentEntityType::Component(y) => {
                components_pass(types, exact, compared, left, right, level, x, y, steps)
            }
            _ => Ok(false),
        },
    }
}

/// Whether two types that entries refer to are the same, and own the same resources.
#[cycle(passing)]
fn types_pass<L: Ledger>(
    types: &TypeAlloc,
    compared: &mut Compared,
    left: &mut Readings,
    right: &mut Readings,
    level: u64,
    a: ComponentAnyTypeId,
    b: ComponentAnyTypeId,
    steps: &mut Steps<L>,
) -> Result<bool, OutOfMemory>
    requires a { Stands types.now (any_part a) }
    requires b { Stands types.now (any_part b) }
    requires compared { ArePassed types.now (reads left.old) (reads right.old) compared.old }
    ensures answers { IfOk result (AnswersTypes types.now.core level (reads left.old) (reads right.old) (tree_at types.now (any_part a)) (tree_at types.now (any_part b))) }
    ensures left { IfOk result (λ passes. StaysIf passes (reads left.old) (reads left.new)) }
    ensures right { IfOk result (λ passes. StaysIf passes (reads right.old) (reads right.new)) }
    ensures compared { IfOk result (λ passes. PassedIf passes types.now (reads left.old) (reads right.old) compared.new) }
    ensures counted { steps.new ≤ steps.old + (extent (tree_at types.now (any_part a)) + extent (tree_at types.now (any_part b))) }
{
    match as_entity(a) {
        Some(x) => match as_entity(b) {
            Some(y) => {
                let same = entity_passes(types, true, compared, left, right, level, x, y, steps)?;
                Ok(same && same_owned(types, a, b))
            }
            None => Ok(false),
        },
        None => Ok(same_resource(left, right, a, b)),
    }
}

/// Whether two instance types pass with each other. Each reads its own resources as atoms of the level.
#[cycle(passing)]
fn instances_pass<L: Ledger>(
    types: &TypeAlloc,
    exact: bool,
    compared: &mut Compared,
    left: &mut Readings,
    right: &mut Readings,
    level: u64,
    a: ComponentInstanceTypeId,
    b: ComponentInstanceTypeId,
    steps: &mut Steps<L>,
) -> Result<bool, OutOfMemory>
    requires a { Stands types.now (p.Instance a) }
    requires b { Stands types.now (p.Instance b) }
    requires compared { ArePassed types.now (reads left.old) (reads right.old) compared.old }
    ensures answers { IfOk result (Answers types.now.core exact level (reads left.old) (reads right.old) (tree_at types.now (p.Instance a)) (tree_at types.now (p.Instance b))) }
    ensures left { IfOk result (λ passes. StaysIf passes (reads left.old) (reads left.new)) }
    ensures right { IfOk result (λ passes. StaysIf passes (reads right.old) (reads right.new)) }
    ensures compared { IfOk result (λ passes. PassedIf passes types.now (reads left.old) (reads right.old) compared.new) }
    ensures counted { steps.new ≤ steps.old + (extent (tree_at types.now (p.Instance a)) + extent (tree_at types.now (p.Instance b))) }
{
    let deeper = match level.checked_add(1) {
        Some(deeper) => deeper,
        None => return Err(OutOfMemory),
    };
    let x = visited(types, a, steps);
    let y = visited(types, b, steps);
    let alloc = types.allocator();
    let own_left = owned_atoms(alloc, level, &x.defined_resources)?;
    let own_right = owned_atoms(alloc, level, &y.defined_resources)?;
    entries_pass_under(
        types, exact, compared, left, right, deeper, &own_left, &own_right, &x.exports, &y.exports,
        steps,
    )
}

/// Whether no resource is read otherwise than before.
fn own_nothing(
    own_left: &[(ResourceId, ResourceAtom)],
    own_right: &[(ResourceId, ResourceAtom)],
) -> bool
    ensures { result ≡ true → ((f : Reading Atom) → over (atoms_of own_left.now) f ≡ f) × ((g : Reading Atom) → over (atoms_of own_right.now) g ≡ g) }
{
    if own_left.len() != 0 {
        return false;
    }
    if own_right.len() != 0 {
        return false;
    }
    true
}

/// Whether the entries pass, where each side reads its own resources as these atoms.
#[cycle(passing)]
fn entries_pass_under<L: Ledger>(
    types: &TypeAlloc,
    exact: bool,
    compared: &mut Compared,
    left: &mut Readings,
    right: &mut Readings,
    level: u64,
    own_left: &[(ResourceId, ResourceAtom)],
    own_right: &[(ResourceId, ResourceAtom)],
    a: &ItemMap,
    b: &ItemMap,
    steps: &mut Steps<L>,
) -> Result<bool, OutOfMemory>
    requires a { All (EntryStands types.now) a.now }
    requires b { All (EntryStands types.now) b.now }
    requires apart { NamesDiffer b.now }
    requires compared { ArePassed types.now (reads left.old) (reads right.old) compared.old }
    ensures answers { IfOk result (AnswersEntries types.now.core exact level (over (atoms_of own_left.now) (reads left.old)) (over (atoms_of own_right.now) (reads right.old)) (named_trees (trees types.now.nodes) a.now) (named_trees (trees types.now.nodes) b.now)) }
    ensures left { IfOk result (λ passes. StaysIf passes (reads left.old) (reads left.new)) }
    ensures right { IfOk result (λ passes. StaysIf passes (reads right.old) (reads right.new)) }
    ensures compared { IfOk result (λ passes. PassedIf passes types.now (reads left.old) (reads right.old) compared.new) }
    ensures counted { steps.new ≤ steps.old + (entries_extent (named_trees (trees types.now.nodes) a.now) + entries_extent (named_trees (trees types.now.nodes) b.now)) }
{
    if own_nothing(own_left, own_right) {
        entries_pass(types, exact, compared, left, right, level, a, b, steps)
    } else {
        entries_pass_in_scope(
            types, exact, left, right, level, own_left, own_right, a, b, steps,
        )
    }
}

/// The same where some are read otherwise than before: what is known of pairs is of no use there.
#[cycle(passing)]
fn entries_pass_in_scope<L: Ledger>(
    types: &TypeAlloc,
    exact: bool,
    left: &mut Readings,
    right: &mut Readings,
    level: u64,
    own_left: &[(ResourceId, ResourceAtom)],
    own_right: &[(ResourceId, ResourceAtom)],
    a: &ItemMap,
    b: &ItemMap,
    steps: &mut Steps<L>,
) -> Result<bool, OutOfMemory>
    requires a { All (EntryStands types.now) a.now }
    requires b { All (EntryStands types.now) b.now }
    requires apart { NamesDiffer b.now }
    ensures answers { IfOk result (AnswersEntries types.now.core exact level (over (atoms_of own_left.now) (reads left.old)) (over (atoms_of own_right.now) (reads right.old)) (named_trees (trees types.now.nodes) a.now) (named_trees (trees types.now.nodes) b.now)) }
    ensures left { IfOk result (λ passes. StaysIf passes (reads left.old) (reads left.new)) }
    ensures right { IfOk result (λ passes. StaysIf passes (reads right.old) (reads right.new)) }
    ensures counted { steps.new ≤ steps.old + (entries_extent (named_trees (trees types.now.nodes) a.now) + entries_extent (named_trees (trees types.now.nodes) b.now)) }
{
    let alloc = types.allocator();
    let kept_left = left.enter_keeping(alloc, own_left)?;
    let kept_right = right.enter_keeping(alloc, own_right)?;
    if !entries_pass_afresh(types, exact, left, right, level, a, b, steps)? {
        return Ok(false);
    }
    left.enter(&kept_left)?;
    right.enter(&kept_right)?;
    Ok(true)
}

/// Whether the entries pass, where no pair is known to pass.
#[cycle(passing)]
fn entries_pass_afresh<L: Ledger>(
    types: &TypeAlloc,
    exact: bool,
    left: &mut Readings,
    right: &mut Readings,
    level: u64,
    a: &ItemMap,
    b: &ItemMap,
    steps: &mut Steps<L>,
) -> Result<bool, OutOfMemory>
    requires a { All (EntryStands types.now) a.now }
    requires b { All (EntryStands types.now) b.now }
    requires apart { NamesDiffer b.now }
    ensures answers { IfOk result (AnswersEntries types.now.core exact level (reads left.old) (reads right.old) (named_trees (trees types.now.nodes) a.now) (named_trees (trees types.now.nodes) b.now)) }
    ensures left { IfOk result (λ passes. StaysIf passes (reads left.old) (reads left.new)) }
    ensures right { IfOk result (λ passes. StaysIf passes (reads right.old) (reads right.new)) }
    ensures counted { steps.new ≤ steps.old + (entries_extent (named_trees (trees types.now.nodes) a.now) + entries_extent (named_trees (trees types.now.nodes) b.now)) }
{
    let mut compared = Compared::new(types.allocator());
    let passes = entries_pass(types, exact, &mut compared, left, right, level, a, b, steps);
    drop(compared);
    passes
}

/// Whether two component types are the same: their own resources pair up, and with these paired so do their imports
/// and their exports.
#[cycle(passing)]
fn same_components<L: Ledger>(
    types: &TypeAlloc,
    compared: &mut Compared,
    left: &mut Readings,
    right: &mut Readings,
    level: u64,
    a: ComponentTypeId,
    b: ComponentTypeId,
    steps: &mut Steps<L>,
) -> Result<bool, OutOfMemory>
    requires a { Stands types.now (p.Component a) }
    requires b { Stands types.now (p.Component b) }
    requires compared { ArePassed types.now (reads left.old) (reads right.old) compared.old }
    ensures answers { IfOk result (Answers types.now.core true level (reads left.old) (reads right.old) (tree_at types.now (p.Component a)) (tree_at types.now (p.Component b))) }
    ensures left { IfOk result (λ passes. StaysIf passes (reads left.old) (reads left.new)) }
    ensures right { IfOk result (λ passes. StaysIf passes (reads right.old) (reads right.new)) }
    ensures compared { IfOk result (λ passes. PassedIf passes types.now (reads left.old) (reads right.old) compared.new) }
    ensures counted { steps.new ≤ steps.old + (extent (tree_at types.now (p.Component a)) + extent (tree_at types.now (p.Component b))) }
{
    let deeper = match level.checked_add(1) {
        Some(deeper) => deeper,
        None => return Err(OutOfMemory),
    };
    let x = visited(types, a, steps);
    let y = visited(types, b, steps);
    let own = match paired_atoms(types, level, a, b, steps)? {
        Some(own) => own,
        None => return Ok(false),
    };
    if !entries_pass_under(
        types, true, compared, left, right, deeper, &own.left, &own.right, &x.imports, &y.imports,
        steps,
    )? {
        return Ok(false);
    }
    entries_pass_under(
        types,
        true,
        compared,
        left,
        right,
        deeper,
        &own.exports,
        &own.right,
        &x.exports,
        &y.exports,
        steps,
    )
}

/// Whether the one component type matches the other: its imports may be given what the other imports, and it exports
/// what the other does.
#[cycle(passing)]
fn component_matches<L: Ledger>(
    types: &TypeAlloc,
    compared: &mut Compared,
    left: &mut Readings,
    right: &mut Readings,
    level: u64,
    a: ComponentTypeId,
    b: ComponentTypeId,
    steps: &mut Steps<L>,
) -> Result<bool, OutOfMemory>
    requires a { Stands types.now (p.Component a) }
    requires b { Stands types.now (p.Component b) }
    requires compared { ArePassed types.now (reads left.old) (reads right.old) compared.old }
    ensures answers { IfOk result (Answers types.now.core false level (reads left.old) (reads right.old) (tree_at types.now (p.Component a)) (tree_at types.now (p.Component b))) }
    ensures left { IfOk result (λ passes. StaysIf passes (reads left.old) (reads left.new)) }
    ensures right { IfOk result (λ passes. StaysIf passes (reads right.old) (reads right.new)) }
    ensures compared { IfOk result (λ passes. PassedIf passes types.now (reads left.old) (reads right.old) compared.new) }
    ensures counted { steps.new ≤ steps.old + (extent (tree_at types.now (p.Component a)) + extent (tree_at types.now (p.Component b))) }
{
    let deeper = match level.checked_add(1) {
        Some(deeper) => deeper,
        None => return Err(OutOfMemory),
    };
    let x = visited(types, a, steps);
    let y = visited(types, b, steps);
    let own = match opened_atoms(types, left, right, level, a, b, steps)? {
        Some(own) => own,
        None => return Ok(false),
    };
    compared.flip();
    if !entries_pass_under(
        types, false, compared, right, left, deeper, &own.right, &own.left, &y.imports, &x.imports,
        steps,
    )? {
        return Ok(false);
    }
    compared.flip();
    entries_pass_under(
        types,
        false,
        compared,
        left,
        right,
        deeper,
        &own.left,
        &own.exports,
        &x.exports,
        &y.exports,
        steps,
    )
}

/// Whether two component types pass with each other.
#[cycle(passing)]
fn components_pass<L: Ledger>(
    types: &TypeAlloc,
    exact: bool,
    compared: &mut Compared,
    left: &mut Readings,
    right: &mut Readings,
    level: u64,
    a: ComponentTypeId,
    b: ComponentTypeId,
    steps: &mut Steps<L>,
) -> Result<bool, OutOfMemory>
    requires a { Stands types.now (p.Component a) }
    requires b { Stands types.now (p.Component b) }
    requires compared { ArePassed types.now (reads left.old) (reads right.old) compared.old }
    ensures answers { IfOk result (Answers types.now.core exact level (reads left.old) (reads right.old) (tree_at types.now (p.Component a)) (tree_at types.now (p.Component b))) }
    ensures left { IfOk result (λ passes. StaysIf passes (reads left.old) (reads left.new)) }
    ensures right { IfOk result (λ passes. StaysIf passes (reads right.old) (reads right.new)) }
    ensures compared { IfOk result (λ passes. PassedIf passes types.now (reads left.old) (reads right.old) compared.new) }
    ensures counted { steps.new ≤ steps.old + (extent (tree_at types.now (p.Component a)) + extent (tree_at types.now (p.Component b))) }
{
    if exact {
        same_components(types, compared, left, right, level, a, b, steps)
    } else {
        component_matches(types, compared, left, right, level, a, b, steps)
    }
}
