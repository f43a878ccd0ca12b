// The resources that a state imports and defines.
ghost use Rattle.std.specs.Prelude.{◌≡◌, ℕ, [], ◌∷◌, ◌++◌, take, Some, false, slice_get, OnOk, OnErr, IfOk, IfErr};
ghost use Rattle.std.specs.Option.{option_map};
ghost use Rattle.wcv_types.specs.Tree.{is_resource};
ghost use Rattle.wcv_types.specs.declared.ids.ComponentAnyTypeId.TheVariants as any;
ghost use Rattle.wcv_lower.specs.Checks.{missing_of};
ghost use Rattle.wcv_lower.specs.Context.{placed, unknown};
ghost use Rattle.wcv_spaces.specs.Bringing.{AreNewIn};
ghost use Rattle.wcv_spaces.specs.Looking as looking;
ghost use Rattle.wcv_spaces.specs.Looking.{any_sort, has_resource, local_rep_checks};
ghost use Rattle.wcv_spaces.specs.Promises.{CausedBy};

use std::alloc::Global;
use wcv_core::{Error, ErrorKind, IndexMapAppendOnly, OutOfMemory, Place, Refusal, ValType, Why};
use wcv_spaces::indices::{element_at, wrong_sort};
use wcv_types::{AliasableResourceId, ComponentAnyTypeId, Paths, ResourceId};

/// Resources, each with its representation where that is known.
pub type Representations = IndexMapAppendOnly<ResourceId, Option<ValType>>;

/// A position, and then those of a path.
fn path_behind(position: u64, path: &Place, alloc: Global) -> Result<Place, OutOfMemory>
    ensures { IfOk result (λ p. p ≡ position ∷ path.now) }
{
    let mut positions = Vec::new(alloc);
    positions.push(position)?;
    positions.extend_from_slice(path.positions())?;
    Place::new(alloc, &positions)
}

/// One of them, where none of the list is it.
fn import_one(
    resources: &mut Paths,
    resource: ResourceId,
    path: &Place,
    position: u64,
    alloc: Global,
) -> Result<(), OutOfMemory>
    requires { has_resource resource resources.old ≡ false }
    ensures ok { OnOk result (resources.new ≡ resources.old ++ (resource, position ∷ path.now) ∷ []) }
    ensures err { OnErr result (resources.new ≡ resources.old) }
{
    resources.insert(resource, path_behind(position, path, alloc)?)
}

/// The resources that an import introduces are imported, each with the import's position before its path. Out of
/// memory some of them may be.
pub fn import_resources(
    resources: &mut Paths,
    new: &Paths,
    position: u64,
    alloc: Global,
) -> Result<(), OutOfMemory>
    requires { AreNewIn resources.old new.now }
    ensures ok { OnOk result (resources.new ≡ resources.old ++ placed position new.now) }
    ensures err { OnErr result ((k : ℕ) × (resources.new ≡ resources.old ++ placed position (take k new.now))) }
{
    for k in 0..new.len() {
        match new.get_index(k) {
            Some((resource, path)) => import_one(resources, *resource, path, position, alloc)?,
            None => unreachable!(),
        }
    }
    Ok(())
}

/// The resources that an export introduces are defined, without representations. Out of memory some of them may be.
pub fn export_resources(resources: &mut Representations, new: &Paths) -> Result<(), OutOfMemory>
    requires { AreNewIn resources.old new.now }
    ensures ok { OnOk result (resources.new ≡ resources.old ++ unknown new.now) }
    ensures err { OnErr result ((k : ℕ) × (resources.new ≡ resources.old ++ unknown (take k new.now))) }
{
    for k in 0..new.len() {
        match new.get_index(k) {
            Some((resource, _)) => resources.insert(*resource, None)?,
            None => unreachable!(),
        }
    }
    Ok(())
}

/// The reference to a resource at that index of types.
pub fn resource_at(
    types: &[ComponentAnyTypeId],
    index: u32,
    offset: u64,
) -> Result<AliasableResourceId, Refusal<'static>>
    ensures ok { IfOk result (λ id. slice_get types.now index ≡ Some (any.Resource id)) }
    ensures err { IfErr result (CausedBy (missing_of is_resource (option_map any_sort (slice_get types.now index))) offset) }
{
    match element_at(types, "type", index, offset)? {
        ComponentAnyTypeId::Resource(id) => Ok(id),
        _ => Err(wrong_sort("type index %1 is not of a resource", index, offset)),
    }
}

/// The resource at that index of types, which is defined with a representation, and that.
pub fn local_rep(
    types: &[ComponentAnyTypeId],
    defined: &Representations,
    index: u32,
    offset: u64,
) -> Result<(ResourceId, ValType), Refusal<'static>>
    ensures ok { IfOk result (λ p. looking.local_rep types.now defined.now index ≡ Some p) }
    ensures err { IfErr result (CausedBy (local_rep_checks types.now defined.now index) offset) }
{
    let resource = resource_at(types, index, offset)?.resource;
    match defined.get(&resource) {
        Some(Some(rep)) => Ok((resource, *rep)),
        _ => {
            let why = Why::new(
                "type index %1 is of a resource that is not defined here with a representation",
            );
            let why = why.numbers([index as u64, 0, 0]);
            Err(Error::new(ErrorKind::ResourceScope, offset, why))
        }
    }
}
