// What opens the imports of a component.
ghost use Rattle.std.specs.Prelude.{◌≡◌, ◌+◌, ◌*◌, ◌≤◌, [], ◌∷◌, ◌++◌, List, bytes_eq, length, map, option_copied, option_map, slice_get, All, Some, true, IfErr, IfOk, OnErr, OnOk};
ghost use Rattle.std.specs.List.{IsDistinct};
ghost use Rattle.std.specs.Map.{keys_of, lookup};
ghost use Rattle.std.specs.Map.Iter.{deref_pair};
ghost use Rattle.wcv_core.specs.Names.{Name};
ghost use Rattle.wcv_core.specs.Refusal.{error_kind, error_offset};
ghost use Rattle.wcv_types.specs.Entities.{entity_tree, EntityStands, EntryStands};
ghost use Rattle.wcv_types.specs.Sets.{same_resource};
ghost use Rattle.wcv_types.specs.Standing.{Stands};
ghost use Rattle.wcv_types.specs.Unfold.{tree_at, trees};
ghost use Rattle.wcv_types.specs.declared.ids.Part.TheVariants as p;
ghost use Rattle.wcv_matching.specs.AtomTests.{id_tests};
ghost use Rattle.wcv_matching.specs.GivenTypes.{given_for};
ghost use Rattle.wcv_matching.specs.NamedPaths.{entry};
ghost use Rattle.wcv_matching.specs.OnePass.{each_passes, found_in, given, match_pass};
ghost use Rattle.wcv_matching.specs.Refusals.{MemoryOrMismatch};
ghost use Rattle.wcv_matching.specs.TableMatching.{Opens};
ghost use Rattle.wcv_compare.specs.Compared.{ArePassed};
ghost use Rattle.wcv_atoms.specs.Extent.{entries_extent, extent, found_extent, matched_extent, opening_extent};
ghost use Rattle.wcv_counterparts.specs.IdCounterparts.{AreExports};
ghost use Rattle.wcv_atoms.specs.IdPasses.{named_trees};
ghost use Rattle.wcv_subtype.specs.Openings.{named_args, ArgumentStands, Fits, Gives, IsOpening, OpensImports};
ghost use Rattle.wcv_atoms.specs.Readings.{atoms_of, given_as, reads, resource_name};

use crate::comparisons::{absent_under, unfit_under};
use crate::giving::give;
use std::alloc::Global;
use std::marker::Model;
use std::sync::ledger::Ledger;
use wcv_atoms::{Readings, ResourceAtom, visited};
use wcv_compare::{Compared, entity_passes};
use wcv_core::{Error, ErrorKind, OutOfMemory, Text};
use wcv_counterparts::{Exports, counterparts_in};
use wcv_remap::Remapping;
use wcv_types::{
    ByName, ComponentEntityType, ComponentItem, ComponentTypeId, ItemMap, ResourceId, Steps,
    TypeAlloc,
};

/// Types by name, in order: of a name that stands more than once the first counts. Contracts see it as the list of
/// its pairs.
#[derive(Drop)]
pub struct EntityMap {
    /// Each with nothing beside its name.
    items: ItemMap,
}

impl Model for EntityMap {
    ghost use Rattle.std.specs.Prelude.{List, map};
    ghost use Rattle.wcv_types.specs.Tree.{Text};
    ghost use Rattle.wcv_types.specs.declared.shapes.ComponentEntityType.{ComponentEntityType};

    ghost Value = { List (Text × ComponentEntityType) };

    ghost view = { λ m. map (λ e. (e.0, e.1.ty)) m.items };
}

impl EntityMap {
    /// A map with no pair.
    pub fn new(alloc: Global) -> EntityMap
        ensures { result ≡ [] }
    {
        EntityMap {
            items: ItemMap::new(alloc),
        }
    }

    /// Appends a pair. Out of memory nothing changes.
    pub fn push(&mut self, name: Text, ty: ComponentEntityType) -> Result<(), OutOfMemory>
        ensures ok { OnOk result (self.new ≡ self.old ++ (name, ty) ∷ []) }
        ensures err { OnErr result (self.new ≡ self.old) }
    {
        self.items.push((
            name,
            ComponentItem {
                ty,
                implements: None,
                version_suffix: None,
                external_id: None,
            },
        ))
    }

    /// How many pairs there are.
    pub fn len(&self) -> usize
        ensures { result ≡ length self.now }
    {
        self.items.len()
    }

    /// The pair at this position.
    pub fn get_index(&self, k: usize) -> Option<(&Text, &ComponentEntityType)>
        ensures { option_map deref_pair result ≡ slice_get self.now k }
    {
        match self.items.get_index(k) {
            Some(entry) => Some((&entry.0, &entry.1.ty)),
            None => None,
        }
    }

    /// The type of the first pair with this name.
    pub fn get(&self, name: &Text) -> Option<&ComponentEntityType>
        ensures { option_copied result ≡ lookup (bytes_eq name.now) self.now }
    {
        match self.items.get(name) {
            Some(item) => Some(&item.ty),
            None => None,
        }
    }
}

/// The map that replaces resources as the list says, and no type.
fn replacing(alloc: Global, found: &[(ResourceId, ResourceId)]) -> Result<Remapping, OutOfMemory>
    requires { IsDistinct same_resource (keys_of found.now) }
    ensures { IfOk result (λ m. m ≡ record { resources = found.now; types = [] }) }
{
    let mut replaced = Remapping::new(alloc);
    for k in 0..found.len() {
        replaced.push_resource(found[k].0, found[k].1)?;
    }
    Ok(replaced)
}

/// Reads each resource as the list says.
fn read_as(
    alloc: Global,
    found: &[(ResourceId, ResourceId)],
) -> Result<Vec<(ResourceId, ResourceAtom)>, OutOfMemory>
    ensures { IfOk result (λ atoms. atoms_of atoms.items ≡ map (λ e. (resource_name e.0, given (resource_name e.1))) found.now) }
{
    let mut atoms = Vec::new(alloc);
    for k in 0..found.len() {
        atoms.push((found[k].0, ResourceAtom::Given(found[k].1)))?;
    }
    Ok(atoms)
}

/// Reads each resource as the list says, and any other as it is given.
fn given_as(alloc: Global, found: &[(ResourceId, ResourceId)]) -> Result<Readings, OutOfMemory>
    ensures { IfOk result (λ readings. reads readings ≡ given_as found.now) }
{
    let mut readings = Readings::new(alloc);
    readings.enter(&read_as(alloc, found)?)?;
    Ok(readings)
}

/// The refusal of an argument that is not there, or is not as the import expects.
fn unfit_argument(
    name: &Text,
    found: Option<ComponentEntityType>,
    expected: &ComponentEntityType,
    offset: u64,
) -> Error
    ensures kind { error_kind result ≡ ErrorKind.Mismatch }
    ensures offset { error_offset result ≡ offset }
{
    match found {
        Some(found) => unfit_under("import", name, &found, expected, offset),
        None => absent_under("import", name, expected, "no argument of that name", offset),
    }
}

/// The argument for an import, where it may stand there.
fn argument_for<L: Ledger>(
    types: &TypeAlloc,
    args: &ByName<'_, ComponentItem>,
    compared: &mut Compared,
    right: &mut Readings,
    import: &(Text, ComponentItem),
    offset: u64,
    steps: &mut Steps<L>,
) -> Result<ComponentEntityType, Error>
    requires args { All (EntryStands types.now) args.now }
    requires import { EntryStands types.now import.now }
    requires compared { ArePassed types.now given (reads right.old) compared.old }
    ensures fits { IfOk result (Fits types.now (reads right.old) (named_trees (trees types.now.nodes) args.now) import.now) }
    ensures right { OnOk result (reads right.new ≡ reads right.old) }
    ensures compared { OnOk result (ArePassed types.now given (reads right.old) compared.new) }
    ensures err { IfErr result (MemoryOrMismatch offset (found_in (match_pass (id_tests types.now.core) 0 given (reads right.old)) (named_trees (trees types.now.nodes) args.now) (import.now.0, entity_tree (trees types.now.nodes) import.now.1.ty) ≡ true)) }
    ensures counted { steps.new ≤ steps.old + (found_extent (named_trees (trees types.now.nodes) args.now) import.now.0 + extent (entity_tree (trees types.now.nodes) import.now.1.ty)) }
{
    let mut left = Readings::new(types.allocator());
    match args.get(&import.0) {
        Some(item) => {
            if entity_passes(
                types,
                false,
                compared,
                &mut left,
                right,
                0,
                item.ty,
                import.1.ty,
                steps,
            )? {
                Ok(item.ty)
            } else {
                Err(unfit_argument(&import.0, Some(item.ty), &import.1.ty, offset))
            }
        }
        None => Err(unfit_argument(&import.0, None, &import.1.ty, offset)),
    }
}

/// What the arguments give for the types that the imports create joins the map, where each import has an argument that
/// may stand there. The maps of exports and the pairs that pass are kept from one import to the next.
fn open_each<'a, L: Ledger>(
    types: &'a TypeAlloc,
    seen: &mut Exports<'a>,
    compared: &mut Compared,
    args: &ByName<'_, ComponentItem>,
    imports: &ItemMap,
    right: &mut Readings,
    opening: &mut Remapping,
    offset: u64,
    steps: &mut Steps<L>,
) -> Result<(), Error>
    requires args { All (EntryStands types.now) args.now }
    requires imports { All (EntryStands types.now) imports.now }
    requires seen { AreExports types.now seen.old }
    requires compared { ArePassed types.now given (reads right.old) compared.old }
    requires none { opening.old.types ≡ [] }
    ensures passes { OnOk result (each_passes (match_pass (id_tests types.now.core) 0 given (reads right.old)) (named_trees (trees types.now.nodes) args.now) (named_trees (trees types.now.nodes) imports.now) ≡ true) }
    ensures given { OnOk result (Gives types.now (given_for (named_trees (trees types.now.nodes) args.now) (named_trees (trees types.now.nodes) imports.now)) opening.new) }
    ensures resources { OnOk result (opening.new.resources ≡ opening.old.resources) }
    ensures err { IfErr result (MemoryOrMismatch offset (each_passes (match_pass (id_tests types.now.core) 0 given (reads right.old)) (named_trees (trees types.now.nodes) args.now) (named_trees (trees types.now.nodes) imports.now) ≡ true)) }
    ensures counted { steps.new ≤ steps.old + (matched_extent (named_trees (trees types.now.nodes) args.now) (named_trees (trees types.now.nodes) imports.now) + 3 * entries_extent (named_trees (trees types.now.nodes) imports.now)) }
{
    for k in 0..imports.len() {
        match imports.get_index(k) {
            Some(import) => {
                let argument = argument_for(types, args, compared, right, import, offset, steps)?;
                give(types, seen, argument, import.1.ty, opening, steps)?;
            }
            None => unreachable!(),
        }
    }
    Ok(())
}

/// The same, beginning with no map and no pair.
fn open_imports<L: Ledger>(
    types: &TypeAlloc,
    args: &ByName<'_, ComponentItem>,
    imports: &ItemMap,
    right: &mut Readings,
    opening: &mut Remapping,
    offset: u64,
    steps: &mut Steps<L>,
) -> Result<(), Error>
    requires args { All (EntryStands types.now) args.now }
    requires imports { All (EntryStands types.now) imports.now }
    requires none { opening.old.types ≡ [] }
    ensures passes { OnOk result (each_passes (match_pass (id_tests types.now.core) 0 given (reads right.old)) (named_trees (trees types.now.nodes) args.now) (named_trees (trees types.now.nodes) imports.now) ≡ true) }
    ensures given { OnOk result (Gives types.now (given_for (named_trees (trees types.now.nodes) args.now) (named_trees (trees types.now.nodes) imports.now)) opening.new) }
    ensures resources { OnOk result (opening.new.resources ≡ opening.old.resources) }
    ensures err { IfErr result (MemoryOrMismatch offset (each_passes (match_pass (id_tests types.now.core) 0 given (reads right.old)) (named_trees (trees types.now.nodes) args.now) (named_trees (trees types.now.nodes) imports.now) ≡ true)) }
    ensures counted { steps.new ≤ steps.old + (matched_extent (named_trees (trees types.now.nodes) args.now) (named_trees (trees types.now.nodes) imports.now) + 3 * entries_extent (named_trees (trees types.now.nodes) imports.now)) }
{
    let mut seen = Exports::new(types.allocator());
    let mut compared = Compared::new(types.allocator());
    let opened = open_each(
        types,
        &mut seen,
        &mut compared,
        args,
        imports,
        right,
        opening,
        offset,
        steps,
    );
    drop(compared);
    drop(seen);
    opened
}

/// What opens the imports by the arguments, where resources go as the list says.
fn open_found<L: Ledger>(
    types: &TypeAlloc,
    args: &ByName<'_, ComponentItem>,
    imports: &ItemMap,
    found: &[(ResourceId, ResourceId)],
    offset: u64,
    steps: &mut Steps<L>,
) -> Result<Remapping, Error>
    requires args { All (EntryStands types.now) args.now }
    requires imports { All (EntryStands types.now) imports.now }
    requires found { IsDistinct same_resource (keys_of found.now) }
    ensures opens { IfOk result (OpensImports types.now (named_trees (trees types.now.nodes) args.now) (named_trees (trees types.now.nodes) imports.now) found.now) }
    ensures err { IfErr result (MemoryOrMismatch offset (each_passes (match_pass (id_tests types.now.core) 0 given (given_as found.now)) (named_trees (trees types.now.nodes) args.now) (named_trees (trees types.now.nodes) imports.now) ≡ true)) }
    ensures counted { steps.new ≤ steps.old + (matched_extent (named_trees (trees types.now.nodes) args.now) (named_trees (trees types.now.nodes) imports.now) + 3 * entries_extent (named_trees (trees types.now.nodes) imports.now)) }
{
    let alloc = types.allocator();
    let mut right = given_as(alloc, found)?;
    let mut opening = replacing(alloc, found)?;
    open_imports(
        types,
        args,
        imports,
        &mut right,
        &mut opening,
        offset,
        steps,
    )?;
    opening.entries_differ();
    Ok(opening)
}

/// What opens the imports of the component by the arguments: each imported resource is replaced by that of its
/// argument, and each type that an import creates, itself or inside an instance, by the one that the argument creates
/// there. The steps are at most those of following the paths of the imported resources, of comparing each import with its
/// argument, and of going through the imports once more.
pub fn open_instance_type<L: Ledger>(
    types: &TypeAlloc,
    args: &EntityMap,
    component: ComponentTypeId,
    offset: u64,
    steps: &mut Steps<L>,
) -> Result<Remapping, Error>
    requires args { All (ArgumentStands types.now) args.now }
    requires component { Stands types.now (p.Component component) }
    ensures ok { OnOk result ((s : Name → Name) × Opens types.now.core s (named_args types.now args.now) (tree_at types.now (p.Component component))) }
    ensures map { IfOk result (IsOpening types.now args.now component) }
    ensures err { IfErr result (MemoryOrMismatch offset ((s : Name → Name) × Opens types.now.core s (named_args types.now args.now) (tree_at types.now (p.Component component)))) }
    ensures counted { steps.new ≤ steps.old + opening_extent (named_args types.now args.now) (tree_at types.now (p.Component component)) }
{
    types.nodes_fit();
    types.names_given();
    let _count = types.core_types().len();
    let alloc = types.allocator();
    let shape = visited(types, component, steps);
    let _unique = shape.imported_resources.len();
    let by_name = args.items.by_name_beside(alloc, &shape.imports)?;
    let found = counterparts_in(
        types,
        &shape.imported_resources,
        &shape.imports,
        &by_name,
        steps,
    )?;
    open_found(types, &by_name, &shape.imports, &found, offset, steps)
}
