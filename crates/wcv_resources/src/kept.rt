// The defined resources that the type of a component keeps.
ghost use Rattle.std.specs.Prelude.{◌≡◌, [], ◌∷◌, map, All, Some, true, false, is_some, OnOk, IfOk, IfErr};
ghost use Rattle.wcv_core.specs.declared.error.ErrorKind.TheVariants as kind;
ghost use Rattle.wcv_types.specs.ComponentTrees.{resource_path, ResourceStands};
ghost use Rattle.wcv_types.specs.Entities.{entry_trees, EntryStands};
ghost use Rattle.wcv_types.specs.Sets as sets;
ghost use Rattle.wcv_types.specs.Unfold.{trees};
ghost use Rattle.wcv_lower.specs.Checks.{is_none};
ghost use Rattle.wcv_lower.specs.Ending.{any_free, kept};
ghost use Rattle.wcv_lower.specs.Trees.{tree_reader};
ghost use Rattle.wcv_spaces.specs.Contents.{defined_resource};
ghost use Rattle.wcv_resources.specs.Ending.{import_checks, kept_checks, path_of, with_kept, HasFree, HasFirst};
ghost use Rattle.wcv_spaces.specs.Looking.{has_resource};
ghost use Rattle.wcv_spaces.specs.Promises.{CausedBy, MemoryOrCausedBy};

use crate::resources::Representations;
use std::alloc::Global;
use wcv_core::{Error, ErrorKind, Excerpt, OutOfMemory, Place, Text};
use wcv_types::{ItemMap, Paths, ResourceId, ResourceSet, TypeAlloc};
use wcv_walks::{FreeVariables, ResourcePaths};

/// The resources that are free in some of the items.
fn free_among(types: &TypeAlloc, items: &ItemMap) -> Result<ResourceSet, OutOfMemory>
    requires { All (EntryStands types.now) items.now }
    ensures { IfOk result (HasFree (entry_trees (trees types.now.nodes) items.now)) }
{
    let mut free = ResourceSet::new(types.allocator());
    types.free_variables_items(items, &mut free)?;
    Ok(free)
}

// ## Imports

/// The first item in which the resource is free: its position and its name. What is free in it and in those
/// before joins the set. It is for the message alone.
fn first_with<'a>(
    types: &TypeAlloc,
    items: &'a ItemMap,
    resource: ResourceId,
    free: &mut ResourceSet,
) -> Result<Option<(usize, &'a Text)>, OutOfMemory>
    requires { All (EntryStands types.now) items.now }
{
    for k in 0..items.len() {
        match items.get_index(k) {
            Some((name, item)) => {
                types.free_variables_component_entity(&item.ty, free)?;
                if free.contains(&resource) {
                    return Ok(Some((k, name)));
                }
            }
            None => unreachable!(),
        }
    }
    Ok(None)
}

/// The refusal of an import over a resource that is defined here, the one at that position of those. It names the
/// import, unless there is no memory to look for it.
fn free_in_import(
    types: &TypeAlloc,
    imports: &ItemMap,
    resource: ResourceId,
    position: usize,
    offset: u64,
) -> Error
    requires { All (EntryStands types.now) imports.now }
    ensures { CausedBy ((kind.ResourceScope, true) ∷ []) offset result }
{
    let mut free = ResourceSet::new(types.allocator());
    let found = first_with(types, imports, resource, &mut free);
    drop(free);
    match found {
        Ok(Some((k, name))) => {
            let entry = Excerpt(name.as_str());
            Error::told(
                ErrorKind::ResourceScope,
                offset,
                format_args!(
                    "import {k} `{entry}`: its type has in it resource {position} of those that are defined here"
                ),
            )
        }
        Ok(None) | Err(OutOfMemory) => Error::told(
            ErrorKind::ResourceScope,
            offset,
            format_args!(
                "an import has in its type resource {position} of those that are defined here"
            ),
        ),
    }
}

/// The first of the resources that is in the set, and where it stands.
fn first_free(
    types: &TypeAlloc,
    imports: &ItemMap,
    defined: &Representations,
    free: &ResourceSet,
) -> Option<(usize, ResourceId)>
    requires { HasFree (entry_trees (trees types.now.nodes) imports.now) free.now }
    ensures { is_some result ≡ any_free tree_reader (map defined_resource defined.now) (entry_trees (trees types.now.nodes) imports.now) }
{
    let _ = types;
    let _ = imports;
    for k in 0..defined.len() {
        match defined.get_index(k) {
            Some((resource, _)) => {
                if free.contains(resource) {
                    return Some((k, *resource));
                }
            }
            None => unreachable!(),
        }
    }
    None
}

/// Whether no resource that is defined here is free in an import.
pub fn check_imports(
    types: &TypeAlloc,
    imports: &ItemMap,
    defined: &Representations,
    offset: u64,
) -> Result<(), Error>
    requires { All (EntryStands types.now) imports.now }
    ensures ok { OnOk result (any_free tree_reader (map defined_resource defined.now) (entry_trees (trees types.now.nodes) imports.now) ≡ false) }
    ensures err { IfErr result (MemoryOrCausedBy (import_checks defined.now (entry_trees (trees types.now.nodes) imports.now)) offset) }
{
    if defined.len() == 0 {
        return Ok(());
    }
    let free = free_among(types, imports)?;
    match first_free(types, imports, defined, &free) {
        Some((k, resource)) => Err(free_in_import(types, imports, resource, k, offset)),
        None => Ok(()),
    }
}

// ## Exports

/// A resource that is free joins the paths, with its first one. Refuses one that has none; where it stands
/// among those that are defined is for the message.
fn keep(
    paths: &mut Paths,
    resource: ResourceId,
    free: &ResourceSet,
    first: &Paths,
    position: usize,
    alloc: Global,
    offset: u64,
) -> Result<(), Error>
    requires { has_resource resource paths.old ≡ false }
    ensures ok { OnOk result (with_kept (sets.has_resource free.now resource) resource (path_of resource first.now) paths.old ≡ Some paths.new) }
    ensures err { IfErr result (MemoryOrCausedBy ((kind.ResourceScope, is_none (with_kept (sets.has_resource free.now resource) resource (path_of resource first.now) paths.old)) ∷ []) offset) }
{
    if !free.contains(&resource) {
        return Ok(());
    }
    match first.get(&resource) {
        Some(path) => {
            let place = Place::new(alloc, path.positions())?;
            paths.insert(resource, place)?;
            Ok(())
        }
        None => Err(Error::told(
            ErrorKind::ResourceScope,
            offset,
            format_args!(
                "resource {position} of those that are defined here is in the type of an export, and no export leads to it"
            ),
        )),
    }
}

/// Those of the defined resources that are free join the paths, in order, each with its first one.
fn keep_all(
    types: &TypeAlloc,
    exports: &ItemMap,
    defined: &Representations,
    free: &ResourceSet,
    first: &Paths,
    paths: &mut Paths,
    offset: u64,
) -> Result<(), Error>
    requires defined { All (λ d. ResourceStands types.now d.0) defined.now }
    requires free { HasFree (entry_trees (trees types.now.nodes) exports.now) free.now }
    requires first { HasFirst (entry_trees (trees types.now.nodes) exports.now) free.now first.now }
    requires empty { paths.old ≡ [] }
    ensures ok { OnOk result (kept tree_reader (map defined_resource defined.now) (entry_trees (trees types.now.nodes) exports.now) ≡ Some (map resource_path paths.new)) }
    ensures stands { OnOk result (All (λ p. ResourceStands types.now p.0) paths.new) }
    ensures err { IfErr result (MemoryOrCausedBy (kept_checks defined.now (entry_trees (trees types.now.nodes) exports.now)) offset) }
{
    let _ = exports;
    let alloc = types.allocator();
    for k in 0..defined.len() {
        match defined.get_index(k) {
            Some((resource, _)) => { keep(paths, *resource, free, first, k, alloc, offset)? }
            None => unreachable!(),
        }
    }
    Ok(())
}

/// They join the paths, which has none yet.
#[tactic(auto, using(crate::proofs::ExplicitPaths::path_found))]
fn fill(
    types: &TypeAlloc,
    exports: &ItemMap,
    defined: &Representations,
    paths: &mut Paths,
    offset: u64,
) -> Result<(), Error>
    requires exports { All (EntryStands types.now) exports.now }
    requires defined { All (λ d. ResourceStands types.now d.0) defined.now }
    requires empty { paths.old ≡ [] }
    ensures ok { OnOk result (kept tree_reader (map defined_resource defined.now) (entry_trees (trees types.now.nodes) exports.now) ≡ Some (map resource_path paths.new)) }
    ensures stands { OnOk result (All (λ p. ResourceStands types.now p.0) paths.new) }
    ensures err { IfErr result (MemoryOrCausedBy (kept_checks defined.now (entry_trees (trees types.now.nodes) exports.now)) offset) }
{
    if defined.len() == 0 {
        return Ok(());
    }
    let free = free_among(types, exports)?;
    let first = types.explicit_resource_paths(exports, &free)?;
    keep_all(types, exports, defined, &free, &first, paths, offset)
}

/// The defined resources that are free in an export, in order, each with its first path there. Refuses one that
/// has none.
pub fn kept_paths(
    types: &TypeAlloc,
    exports: &ItemMap,
    defined: &Representations,
    offset: u64,
) -> Result<Paths, Error>
    requires exports { All (EntryStands types.now) exports.now }
    requires defined { All (λ d. ResourceStands types.now d.0) defined.now }
    ensures ok { IfOk result (λ ps. kept tree_reader (map defined_resource defined.now) (entry_trees (trees types.now.nodes) exports.now) ≡ Some (map resource_path ps)) }
    ensures stands { IfOk result (λ ps. All (λ p. ResourceStands types.now p.0) ps) }
    ensures err { IfErr result (MemoryOrCausedBy (kept_checks defined.now (entry_trees (trees types.now.nodes) exports.now)) offset) }
{
    let mut paths = Paths::new(types.allocator());
    match fill(types, exports, defined, &mut paths, offset) {
        Ok(()) => Ok(paths),
        Err(error) => Err(error),
    }
}
