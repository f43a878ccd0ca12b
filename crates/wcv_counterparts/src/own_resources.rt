// How both sides of a comparison of component types read their own resources.
ghost use Rattle.std.specs.Prelude.{◌≡◌, ◌+◌, ◌≤◌, ◌++◌, List, map, cond, true, false, IfOk, OnOk};
ghost use Rattle.std.specs.List.{list_all};
ghost use Rattle.wcv_core.specs.Names.{Name, member};
ghost use Rattle.wcv_types.specs.Sets.{resource_names};
ghost use Rattle.wcv_types.specs.Standing.{Stands};
ghost use Rattle.wcv_types.specs.Tree.{firsts, head, imported};
ghost use Rattle.wcv_types.specs.Unfold.{resource_path, tree_at};
ghost use Rattle.wcv_types.specs.declared.ids.Part.TheVariants as p;
ghost use Rattle.wcv_matching.specs.OnePass.{defined_in, imported_in, imported_paths, is_made_in, made_in, made_paths, one_to_one as are_one_to_one, owned_in};
ghost use Rattle.wcv_matching.specs.SameTypes.{defined_by};
ghost use Rattle.wcv_atoms.specs.Extent.{walks};
ghost use Rattle.wcv_counterparts.specs.IdCounterparts.{lands_on};
ghost use Rattle.wcv_counterparts.specs.OwnResources.{going, read_as, Opened, Paired};
ghost use Rattle.wcv_atoms.specs.Readings.{atoms_of, over, read_by, reads};

use crate::counterparts::counterparts;
use std::alloc::Global;
use std::collections::BTreeMap;
use std::sync::ledger::Ledger;
use wcv_atoms::{Readings, ResourceAtom};
use wcv_core::OutOfMemory;
use wcv_types::{ComponentType, ComponentTypeId, Paths, ResourceId, ResourceSet, Steps, TypeAlloc};

/// What the own resources of two component types are read as: on the left and on the right in the imports, and what
/// is read otherwise in the exports. That is the left side where both are to be the same, and else the right one.
#[derive(Drop)]
pub struct OwnAtoms {
    pub left: Vec<(ResourceId, ResourceAtom)>,
    pub right: Vec<(ResourceId, ResourceAtom)>,
    pub exports: Vec<(ResourceId, ResourceAtom)>,
}

/// The own resources of an instance type, as atoms of the level.
pub fn owned_atoms(
    alloc: Global,
    level: u64,
    owned: &ResourceSet,
) -> Result<Vec<(ResourceId, ResourceAtom)>, OutOfMemory>
    ensures { IfOk result (λ atoms. atoms_of atoms.items ≡ read_by (owned_in level) (resource_names owned.now)) }
{
    let mut atoms = Vec::new(alloc);
    for k in 0..owned.len() {
        match owned.get_index(k) {
            Some(resource) => atoms.push((*resource, ResourceAtom::Owned(level, *resource)))?,
            None => unreachable!(),
        }
    }
    Ok(atoms)
}

/// Each of the resources with itself.
fn themselves(alloc: Global, paths: &Paths) -> Result<Vec<(ResourceId, ResourceId)>, OutOfMemory>
    ensures { IfOk result (λ pairs. map lands_on pairs.items ≡ going (λ r. r) (firsts (map resource_path paths.now))) }
{
    let mut pairs = Vec::new(alloc);
    for k in 0..paths.len() {
        match paths.get_index(k) {
            Some((resource, _)) => pairs.push((*resource, *resource))?,
            None => unreachable!(),
        }
    }
    Ok(pairs)
}

/// Each resource joins the list, as the atom of the level for the one that it goes with.
fn push_own(
    atoms: &mut Vec<(ResourceId, ResourceAtom)>,
    made: bool,
    level: u64,
    pairs: &[(ResourceId, ResourceId)],
) -> Result<(), OutOfMemory>
    ensures { OnOk result (atoms_of atoms.new.items ≡ atoms_of atoms.old.items ++ read_as (cond made (made_in level) (owned_in level)) (map lands_on pairs.now)) }
{
    for pair in pairs {
        let atom = if made {
            ResourceAtom::Made(level, pair.1)
        } else {
            ResourceAtom::Owned(level, pair.1)
        };
        atoms.push((pair.0, atom))?;
    }
    Ok(())
}

/// Each resource joins the list, as what the one that it goes with is read as.
fn push_read(
    readings: &Readings,
    atoms: &mut Vec<(ResourceId, ResourceAtom)>,
    pairs: &[(ResourceId, ResourceId)],
) -> Result<(), OutOfMemory>
    ensures { OnOk result (atoms_of atoms.new.items ≡ atoms_of atoms.old.items ++ read_as (reads readings.now) (map lands_on pairs.now)) }
{
    for pair in pairs {
        atoms.push((pair.0, readings.read(pair.1)))?;
    }
    Ok(())
}

/// The same, where the readings have these of their own too.
fn push_read_under(
    alloc: Global,
    readings: &mut Readings,
    own: &[(ResourceId, ResourceAtom)],
    atoms: &mut Vec<(ResourceId, ResourceAtom)>,
    pairs: &[(ResourceId, ResourceId)],
) -> Result<(), OutOfMemory>
    ensures joined { OnOk result (atoms_of atoms.new.items ≡ atoms_of atoms.old.items ++ read_as (over (atoms_of own.now) (reads readings.old)) (map lands_on pairs.now)) }
    ensures stays { OnOk result (reads readings.new ≡ reads readings.old) }
{
    let kept = readings.enter_keeping(alloc, own)?;
    push_read(readings, atoms, pairs)?;
    readings.enter(&kept)?;
    Ok(())
}

/// Whether none is read as one that a component at the level defines.
fn none_made(level: u64, atoms: &[(ResourceId, ResourceAtom)]) -> bool
    ensures { result ≡ list_all (λ e. cond (is_made_in level e.1) false true) (atoms_of atoms.now) }
{
    for entry in atoms {
        if let ResourceAtom::Made(at, _) = entry.1 {
            if at == level {
                return false;
            }
        }
    }
    true
}

/// Whether no two resources go to one, but for those that are skipped.
fn one_to_one(
    alloc: Global,
    skipped: &Paths,
    pairs: &[(ResourceId, ResourceId)],
) -> Result<bool, OutOfMemory>
    ensures { IfOk result (λ one. (to : Name → Name) (rs : List Name) → map lands_on pairs.now ≡ going to rs → one ≡ are_one_to_one (λ r. member r (firsts (map resource_path skipped.now))) to rs) }
{
    let mut firsts = BTreeMap::new(alloc);
    for pair in pairs {
        let resource = pair.0;
        if skipped.get(&resource).is_none() {
            let first = firsts.get(&pair.1.index).copied().unwrap_or(resource.index);
            if first != resource.index {
                return Ok(false);
            }
            firsts.insert(pair.1.index, first)?;
        }
    }
    Ok(true)
}

/// What each resource that the one component type imports goes to in the other.
fn imported_counterparts<L: Ledger>(
    types: &TypeAlloc,
    a: ComponentTypeId,
    b: ComponentTypeId,
    steps: &mut Steps<L>,
) -> Result<Vec<(ResourceId, ResourceId)>, OutOfMemory>
    requires a { Stands types.now (p.Component a) }
    requires b { Stands types.now (p.Component b) }
    ensures found { IfOk result (λ found. map lands_on found.items ≡ going (imported_in (tree_at types.now (p.Component a)) (tree_at types.now (p.Component b))) (imported (tree_at types.now (p.Component a)))) }
    ensures counted { steps.new ≤ steps.old + walks (imported_paths (head (tree_at types.now (p.Component a)))) }
{
    let x = types.get(a);
    let y = types.get(b);
    let found = counterparts(types, &x.imported_resources, &x.imports, &y.imports, steps)?;
    Ok(found)
}

/// What each resource that the one component type defines goes to in the other.
fn defined_counterparts<L: Ledger>(
    types: &TypeAlloc,
    a: ComponentTypeId,
    b: ComponentTypeId,
    steps: &mut Steps<L>,
) -> Result<Vec<(ResourceId, ResourceId)>, OutOfMemory>
    requires a { Stands types.now (p.Component a) }
    requires b { Stands types.now (p.Component b) }
    ensures found { IfOk result (λ found. map lands_on found.items ≡ going (defined_in (tree_at types.now (p.Component a)) (tree_at types.now (p.Component b))) (defined_by (tree_at types.now (p.Component a)))) }
    ensures counted { steps.new ≤ steps.old + walks (made_paths (head (tree_at types.now (p.Component a)))) }
{
    let x = types.get(a);
    let y = types.get(b);
    let found = counterparts(types, &x.defined_resources, &x.exports, &y.exports, steps)?;
    Ok(found)
}

/// Resources join the list, each as the atom of the level for itself, as those that a component type defines.
fn push_made(
    alloc: Global,
    atoms: &mut Vec<(ResourceId, ResourceAtom)>,
    level: u64,
    defined: &Paths,
) -> Result<(), OutOfMemory>
    ensures { OnOk result (atoms_of atoms.new.items ≡ atoms_of atoms.old.items ++ read_as (made_in level) (going (λ r. r) (firsts (map resource_path defined.now)))) }
{
    let made = themselves(alloc, defined)?;
    push_own(atoms, true, level, &made)?;
    Ok(())
}

/// Resources, each as the atom of the level for itself, as those that a component type imports.
fn imported_atoms(
    alloc: Global,
    level: u64,
    imported: &Paths,
) -> Result<Vec<(ResourceId, ResourceAtom)>, OutOfMemory>
    ensures { IfOk result (λ atoms. atoms_of atoms.items ≡ read_as (owned_in level) (going (λ r. r) (firsts (map resource_path imported.now)))) }
{
    let owned = themselves(alloc, imported)?;
    let mut atoms = Vec::new(alloc);
    push_own(&mut atoms, false, level, &owned)?;
    Ok(atoms)
}

/// The own resources of a component type, each as the atom of the level for itself.
fn own_atoms(
    alloc: Global,
    level: u64,
    of: &ComponentType,
) -> Result<Vec<(ResourceId, ResourceAtom)>, OutOfMemory>
    ensures { IfOk result (λ atoms. atoms_of atoms.items ≡ read_as (owned_in level) (going (λ r. r) (firsts (map resource_path of.now.imported_resources))) ++ read_as (made_in level) (going (λ r. r) (firsts (map resource_path of.now.defined_resources)))) }
{
    let mut atoms = imported_atoms(alloc, level, &of.imported_resources)?;
    push_made(alloc, &mut atoms, level, &of.defined_resources)?;
    Ok(atoms)
}

/// Imported resources, each as the atom of the level for the one that it goes with, and those that a component type
/// defines, each as that for itself.
fn left_atoms(
    alloc: Global,
    level: u64,
    imported: &[(ResourceId, ResourceId)],
    of: &ComponentType,
) -> Result<Vec<(ResourceId, ResourceAtom)>, OutOfMemory>
    ensures { IfOk result (λ atoms. atoms_of atoms.items ≡ read_as (owned_in level) (map lands_on imported.now) ++ read_as (made_in level) (going (λ r. r) (firsts (map resource_path of.now.defined_resources)))) }
{
    let mut atoms = Vec::new(alloc);
    push_own(&mut atoms, false, level, imported)?;
    push_made(alloc, &mut atoms, level, &of.defined_resources)?;
    Ok(atoms)
}

/// Imported and defined resources, each as the atom of the level for the one that it goes with.
fn pair_atoms(
    alloc: Global,
    level: u64,
    imported: &[(ResourceId, ResourceId)],
    defined: &[(ResourceId, ResourceId)],
) -> Result<Vec<(ResourceId, ResourceAtom)>, OutOfMemory>
    ensures { IfOk result (λ atoms. atoms_of atoms.items ≡ read_as (owned_in level) (map lands_on imported.now) ++ read_as (made_in level) (map lands_on defined.now)) }
{
    let mut atoms = Vec::new(alloc);
    push_own(&mut atoms, false, level, imported)?;
    push_own(&mut atoms, true, level, defined)?;
    Ok(atoms)
}

/// How two component types read their own resources, where these pair up so.
fn atoms_of_pairs(
    alloc: Global,
    level: u64,
    imported: &[(ResourceId, ResourceId)],
    defined: &[(ResourceId, ResourceId)],
    x: &ComponentType,
    y: &ComponentType,
) -> Result<OwnAtoms, OutOfMemory>
    ensures left { IfOk result (λ own. atoms_of own.left.items ≡ read_as (owned_in level) (map lands_on imported.now) ++ read_as (made_in level) (going (λ r. r) (firsts (map resource_path x.now.defined_resources)))) }
    ensures right { IfOk result (λ own. atoms_of own.right.items ≡ read_as (owned_in level) (going (λ r. r) (firsts (map resource_path y.now.imported_resources))) ++ read_as (made_in level) (going (λ r. r) (firsts (map resource_path y.now.defined_resources)))) }
    ensures exports { IfOk result (λ own. atoms_of own.exports.items ≡ read_as (owned_in level) (map lands_on imported.now) ++ read_as (made_in level) (map lands_on defined.now)) }
{
    let left = left_atoms(alloc, level, imported, x)?;
    let right = own_atoms(alloc, level, y)?;
    let exports = pair_atoms(alloc, level, imported, defined)?;
    Ok(OwnAtoms {
        left,
        right,
        exports,
    })
}

/// How two component types that are to be the same read their own resources, if these pair up.
pub fn paired_atoms<L: Ledger>(
    types: &TypeAlloc,
    level: u64,
    a: ComponentTypeId,
    b: ComponentTypeId,
    steps: &mut Steps<L>,
) -> Result<Option<OwnAtoms>, OutOfMemory>
    requires a { Stands types.now (p.Component a) }
    requires b { Stands types.now (p.Component b) }
    ensures paired { IfOk result (Paired level (tree_at types.now (p.Component a)) (tree_at types.now (p.Component b))) }
    ensures counted { steps.new ≤ steps.old + (walks (imported_paths (head (tree_at types.now (p.Component a)))) + walks (made_paths (head (tree_at types.now (p.Component a))))) }
{
    let x = types.get(a);
    let y = types.get(b);
    let alloc = types.allocator();
    let imported = imported_counterparts(types, a, b, steps)?;
    if !one_to_one(alloc, &Paths::new(alloc), &imported)? {
        return Ok(None);
    }
    let defined = defined_counterparts(types, a, b, steps)?;
    if !one_to_one(alloc, &x.imported_resources, &defined)? {
        return Ok(None);
    }
    let own = atoms_of_pairs(alloc, level, &imported, &defined, x, y)?;
    Ok(Some(own))
}

/// The resources that a component type imports, as what those of another that they go with are read as, where the
/// readings have that one's own too.
fn opened_imports<L: Ledger>(
    types: &TypeAlloc,
    readings: &mut Readings,
    own: &[(ResourceId, ResourceAtom)],
    a: ComponentTypeId,
    b: ComponentTypeId,
    steps: &mut Steps<L>,
) -> Result<Vec<(ResourceId, ResourceAtom)>, OutOfMemory>
    requires a { Stands types.now (p.Component a) }
    requires b { Stands types.now (p.Component b) }
    ensures read { IfOk result (λ atoms. atoms_of atoms.items ≡ read_as (over (atoms_of own.now) (reads readings.old)) (going (imported_in (tree_at types.now (p.Component a)) (tree_at types.now (p.Component b))) (imported (tree_at types.now (p.Component a))))) }
    ensures stays { OnOk result (reads readings.new ≡ reads readings.old) }
    ensures counted { steps.new ≤ steps.old + walks (imported_paths (head (tree_at types.now (p.Component a)))) }
{
    let imported = imported_counterparts(types, a, b, steps)?;
    let mut atoms = Vec::new(types.allocator());
    push_read_under(types.allocator(), readings, own, &mut atoms, &imported)?;
    Ok(atoms)
}

/// The resources that a component type defines, as what those of another that they go with are read as, where the
/// readings have that one's own too, behind those that it imports, each as the atom of the level for itself.
fn opened_exports<L: Ledger>(
    types: &TypeAlloc,
    readings: &mut Readings,
    own: &[(ResourceId, ResourceAtom)],
    level: u64,
    a: ComponentTypeId,
    b: ComponentTypeId,
    steps: &mut Steps<L>,
) -> Result<Vec<(ResourceId, ResourceAtom)>, OutOfMemory>
    requires a { Stands types.now (p.Component a) }
    requires b { Stands types.now (p.Component b) }
    ensures read { IfOk result (λ atoms. atoms_of atoms.items ≡ read_as (owned_in level) (going (λ r. r) (imported (tree_at types.now (p.Component a)))) ++ read_as (over (atoms_of own.now) (reads readings.old)) (going (defined_in (tree_at types.now (p.Component a)) (tree_at types.now (p.Component b))) (defined_by (tree_at types.now (p.Component a))))) }
    ensures stays { OnOk result (reads readings.new ≡ reads readings.old) }
    ensures counted { steps.new ≤ steps.old + walks (made_paths (head (tree_at types.now (p.Component a)))) }
{
    let x = types.get(a);
    let defined = defined_counterparts(types, a, b, steps)?;
    let mut atoms = imported_atoms(types.allocator(), level, &x.imported_resources)?;
    push_read_under(types.allocator(), readings, own, &mut atoms, &defined)?;
    Ok(atoms)
}

/// How a component type and one that it is to match read their own resources, if none that is imported is opened by
/// one that the other defines.
pub fn opened_atoms<L: Ledger>(
    types: &TypeAlloc,
    left: &mut Readings,
    right: &mut Readings,
    level: u64,
    a: ComponentTypeId,
    b: ComponentTypeId,
    steps: &mut Steps<L>,
) -> Result<Option<OwnAtoms>, OutOfMemory>
    requires a { Stands types.now (p.Component a) }
    requires b { Stands types.now (p.Component b) }
    ensures opened { IfOk result (Opened level (reads left.old) (reads right.old) (tree_at types.now (p.Component a)) (tree_at types.now (p.Component b))) }
    ensures left { OnOk result (reads left.new ≡ reads left.old) }
    ensures right { OnOk result (reads right.new ≡ reads right.old) }
    ensures counted { steps.new ≤ steps.old + (walks (imported_paths (head (tree_at types.now (p.Component a)))) + walks (made_paths (head (tree_at types.now (p.Component b))))) }
{
    let x = types.get(a);
    let y = types.get(b);
    let right_atoms = own_atoms(types.allocator(), level, y)?;
    let mut left_atoms = opened_imports(types, right, &right_atoms, a, b, steps)?;
    if !none_made(level, &left_atoms) {
        return Ok(None);
    }
    push_made(
        types.allocator(),
        &mut left_atoms,
        level,
        &x.defined_resources,
    )?;
    let exports = opened_exports(types, left, &left_atoms, level, b, a, steps)?;
    Ok(Some(OwnAtoms {
        left: left_atoms,
        right: right_atoms,
        exports,
    }))
}
