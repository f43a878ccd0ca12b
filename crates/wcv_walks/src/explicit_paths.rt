// The first paths that lead to resources, found in one walk.
ghost use Rattle.std.specs.Prelude.{◌≡◌, ◌++◌, [], None, All, IfOk, OnOk};
ghost use Rattle.std.specs.Map.{lookup};
ghost use Rattle.wcv_core.specs.Names.{number};
ghost use Rattle.wcv_types.specs.Entities.{entity_tree, entry_trees, EntityStands, EntryStands};
ghost use Rattle.wcv_walks.specs.ExplicitPaths.{is_type_of, ends_at, path_to, with_path, explicit_paths, Finds, AllFound};
ghost use Rattle.wcv_types.specs.FirstPath.{first_path, path_at};
ghost use Rattle.wcv_types.specs.Sets.{same_resource};
ghost use Rattle.wcv_types.specs.Standing.{Stands};
ghost use Rattle.wcv_types.specs.Unfold.{tree_at, trees};
ghost use Rattle.wcv_types.specs.declared.ids.Part.TheVariants as part;

use crate::place_set::PlaceSet;
use crate::unowned::free_outside;
use std::alloc::Global;
use wcv_core::{OutOfMemory, Place, Text};
use wcv_types::{
    ComponentAnyTypeId, ComponentEntityType, ComponentInstanceTypeId, ComponentItem, ItemMap, Part,
    Paths, ResourceId, ResourceSet, TypeAlloc,
};

/// The path joins those that were found, where its resource is of the set and has none yet.
fn find_resource(
    resource: ResourceId,
    ids: &ResourceSet,
    path: &[u64],
    alloc: Global,
    found: &mut Paths,
) -> Result<(), OutOfMemory>
    ensures { OnOk result (Finds ids.now path.now (λ r. ends_at (same_resource r resource)) found.old found.new) }
{
    if !ids.contains(&resource) {
        return Ok(());
    }
    if found.get(&resource).is_some() {
        return Ok(());
    }
    let place = Place::new(alloc, path)?;
    found.insert(resource, place)
}

/// So does that to a type, where it is a resource.
fn find_type(
    id: ComponentAnyTypeId,
    ids: &ResourceSet,
    path: &[u64],
    alloc: Global,
    found: &mut Paths,
) -> Result<(), OutOfMemory>
    ensures { OnOk result (Finds ids.now path.now (λ r. ends_at (is_type_of r id)) found.old found.new) }
{
    match id {
        ComponentAnyTypeId::Resource(id) => find_resource(id.resource, ids, path, alloc, found),
        _ => Ok(()),
    }
}

/// The first paths within an instance join those that were found, unless the instance was seen. From then on it was.
#[cycle(finding)]
fn find_in_instance(
    types: &TypeAlloc,
    id: ComponentInstanceTypeId,
    ids: &ResourceSet,
    seen: &mut PlaceSet,
    path: &mut Vec<u64>,
    found: &mut Paths,
) -> Result<(), OutOfMemory>
    requires stands { Stands types.now (part.Instance id) }
    requires seen { AllFound types.now ids.now seen.old found.old }
    ensures found { OnOk result (Finds ids.now path.old.items (λ r. path_at (number r.index) (tree_at types.now (part.Instance id))) found.old found.new) }
    ensures seen { OnOk result (AllFound types.now ids.now seen.new found.new) }
    ensures path { OnOk result (path.new.items ≡ path.old.items) }
{
    if !types.refers(id.index) {
        return Ok(());
    }
    if seen.contains(id.index) {
        return Ok(());
    }
    find_in_exports(types, id, ids, seen, path, found)?;
    seen.push(id.index)
}

/// So do those through its exports. What it owns is not looked for there, so what is seen there is for there alone.
#[cycle(finding)]
fn find_in_exports(
    types: &TypeAlloc,
    id: ComponentInstanceTypeId,
    ids: &ResourceSet,
    seen: &mut PlaceSet,
    path: &mut Vec<u64>,
    found: &mut Paths,
) -> Result<(), OutOfMemory>
    requires stands { Stands types.now (part.Instance id) }
    requires seen { AllFound types.now ids.now seen.old found.old }
    ensures found { OnOk result (Finds ids.now path.old.items (λ r. path_at (number r.index) (tree_at types.now (part.Instance id))) found.old found.new) }
    ensures seen { OnOk result (AllFound types.now ids.now seen.new found.new) }
    ensures path { OnOk result (path.new.items ≡ path.old.items) }
{
    let shape = types.get(id);
    if shape.defined_resources.len() == 0 {
        return find_among(types, shape.exports.as_slice(), ids, seen, path, found);
    }
    let mut left = ResourceSet::new(types.allocator());
    free_outside(types, Part::Instance(id), ids, &mut left)?;
    let mut inside = PlaceSet::new(types.allocator());
    find_among(
        types,
        shape.exports.as_slice(),
        &left,
        &mut inside,
        path,
        found,
    )
}

/// So do those to an entry, or through it.
#[cycle(finding)]
fn find_at(
    types: &TypeAlloc,
    ty: ComponentEntityType,
    ids: &ResourceSet,
    seen: &mut PlaceSet,
    path: &mut Vec<u64>,
    found: &mut Paths,
) -> Result<(), OutOfMemory>
    requires stands { EntityStands types.now ty }
    requires seen { AllFound types.now ids.now seen.old found.old }
    ensures found { OnOk result (Finds ids.now path.old.items (λ r. path_at (number r.index) (entity_tree (trees types.now.nodes) ty)) found.old found.new) }
    ensures seen { OnOk result (AllFound types.now ids.now seen.new found.new) }
    ensures path { OnOk result (path.new.items ≡ path.old.items) }
{
    match ty {
        ComponentEntityType::Ty { referenced, .. } => {
            find_type(referenced, ids, path.as_slice(), types.allocator(), found)
        }
        ComponentEntityType::Instance(id) => find_in_instance(types, id, ids, seen, path, found),
        _ => Ok(()),
    }
}

/// So do those among entries.
#[cycle(finding)]
fn find_among(
    types: &TypeAlloc,
    entries: &[(Text, ComponentItem)],
    ids: &ResourceSet,
    seen: &mut PlaceSet,
    path: &mut Vec<u64>,
    found: &mut Paths,
) -> Result<(), OutOfMemory>
    requires stand { All (EntryStands types.now) entries.now }
    requires seen { AllFound types.now ids.now seen.old found.old }
    ensures found { OnOk result (Finds ids.now path.old.items (λ r. first_path (number r.index) (entry_trees (trees types.now.nodes) entries.now)) found.old found.new) }
    ensures seen { OnOk result (AllFound types.now ids.now seen.new found.new) }
    ensures path { OnOk result (path.new.items ≡ path.old.items) }
{
    for k in 0..entries.len() {
        path.push(k as u64)?;
        find_at(types, entries[k].1.ty, ids, seen, path, found)?;
        let _ = path.pop();
    }
    Ok(())
}

/// The path that was found to the resource joins the paths, where there is one.
fn push_path(
    resource: ResourceId,
    found: &Paths,
    alloc: Global,
    paths: &mut Paths,
) -> Result<(), OutOfMemory>
    requires { lookup (same_resource resource) paths.old ≡ None }
    ensures { OnOk result (paths.new ≡ paths.old ++ with_path resource (path_to resource found.now)) }
{
    match found.get(&resource) {
        Some(path) => {
            let place = Place::new(alloc, path.positions())?;
            paths.insert(resource, place)
        }
        None => Ok(()),
    }
}

/// The first paths among entries to the resources of the set are found, where none was before.
fn find_all(
    types: &TypeAlloc,
    entries: &[(Text, ComponentItem)],
    ids: &ResourceSet,
    found: &mut Paths,
) -> Result<(), OutOfMemory>
    requires stand { All (EntryStands types.now) entries.now }
    requires none { found.old ≡ [] }
    ensures { OnOk result (Finds ids.now [] (λ r. first_path (number r.index) (entry_trees (trees types.now.nodes) entries.now)) [] found.new) }
{
    let mut seen = PlaceSet::new(types.allocator());
    let mut path = Vec::new(types.allocator());
    find_among(types, entries, ids, &mut seen, &mut path, found)
}

/// The paths that were found, in the order of the set.
fn in_order(
    types: &TypeAlloc,
    entries: &[(Text, ComponentItem)],
    ids: &ResourceSet,
    found: &Paths,
) -> Result<Paths, OutOfMemory>
    requires { Finds ids.now [] (λ r. first_path (number r.index) (entry_trees (trees types.now.nodes) entries.now)) [] found.now }
    ensures { IfOk result (λ paths. paths ≡ explicit_paths ids.now (entry_trees (trees types.now.nodes) entries.now)) }
{
    let _ = entries;
    let mut paths = Paths::new(types.allocator());
    for k in 0..ids.len() {
        match ids.get_index(k) {
            Some(id) => push_path(*id, found, types.allocator(), &mut paths)?,
            None => unreachable!(),
        }
    }
    Ok(paths)
}

/// An arena that tells by which paths instances export resources.
pub trait ResourcePaths {
    ghost use Rattle.wcv_types.specs.Arena.{Arena};

    /// The arena.
    ghost arena: { Self → Arena };

    /// The first path to each resource of the set that has one, in the order of the set. It looks once at what an
    /// instance exports, however many resources there are, and however many exports have its type; and once more for
    /// each instance around it that owns resources.
    fn explicit_resource_paths(
        &self,
        exports: &ItemMap,
        ids: &ResourceSet,
    ) -> Result<Paths, OutOfMemory>
        requires { All (EntryStands (arena self.now)) exports.now }
        ensures { IfOk result (λ paths. paths ≡ explicit_paths ids.now (entry_trees (trees (arena self.now).nodes) exports.now)) };
}

impl ResourcePaths for TypeAlloc {
    ghost use Rattle.wcv_types.specs.Arena.{Arena};

    ghost arena = { λ a. a };

    fn explicit_resource_paths(
        &self,
        exports: &ItemMap,
        ids: &ResourceSet,
    ) -> Result<Paths, OutOfMemory> {
        let mut found = Paths::new(self.allocator());
        find_all(self, exports.as_slice(), ids, &mut found)?;
        in_order(self, exports.as_slice(), ids, &found)
    }
}
