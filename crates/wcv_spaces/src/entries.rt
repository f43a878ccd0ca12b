// Entries that join the imports or the exports.
ghost use Rattle.wcv_core.specs.Limits.{max_entries};
ghost use Rattle.std.specs.Prelude.{◌≡◌, [], ◌∷◌, ◌++◌, List, map, All, None, min, option_to_list, OnOk, OnErr, IfErr};
ghost use Rattle.wcv_types.specs.Tree.{Text, sort};
ghost use Rattle.wcv_types.specs.Entities.{entity_tree, EntityStands, EntryStands};
ghost use Rattle.wcv_types.specs.Unfold.{trees};
ghost use Rattle.wcv_names.specs.ResourceNames.{name_of, names_of, reference_of};
ghost use Rattle.wcv_lower.specs.Checks.{IsFree, full, full_if, no_room};
ghost use Rattle.wcv_lower.specs.Context.{exporting, same_side};
ghost use Rattle.wcv_lower.specs.Entries.{extern_name, lends, lent};
ghost use Rattle.wcv_lower.specs.Trees.{tree_reader};
ghost use Rattle.wcv_spaces.specs.Entering.{Admitted, Joined, Partly, entry_checks, room_counts};
ghost use Rattle.wcv_spaces.specs.Parts.{lists, AreKeys, NamesAgree};
ghost use Rattle.wcv_spaces.specs.Looking as looking;
ghost use Rattle.wcv_spaces.specs.Looking.{entered, entity_count, entity_limit, entry_of, IsUnnamedIn};
ghost use Rattle.wcv_spaces.specs.Naming.{side_of};
ghost use Rattle.wcv_spaces.specs.Promises.{MemoryOrCausedBy};

use crate::spaces::{Spaces, append, both};
use std::alloc::Global;
use wcv_core::limits::{MAX_ENTRIES, MAX_INSTANCES};
use wcv_core::{Error, ErrorKind, ExternKind, OutOfMemory, Refusal, WasmFeatures, Why};
use wcv_names::{ComponentNameContext, NameSet};
use wcv_syntax::ComponentExternName;
use wcv_types::{
    AliasableResourceId, ComponentAnyTypeId, ComponentEntityType, ComponentItem, ItemMap,
    TypeAlloc, TypeInfo,
};

/// The imports or the exports, the keys of their names, and the names that they give to resources.
#[derive(Drop)]
pub struct Entries {
    pub items: ItemMap,
    pub names: NameSet,
    pub resources: ComponentNameContext,
}

/// Whether there is room for one more where `count` of that name stand already, and `limit` may.
pub fn check_count(
    count: usize,
    limit: usize,
    name: &'static str,
    offset: u64,
) -> Result<(), Refusal<'static>>
    ensures ok { OnOk result (IsFree (full limit count)) }
    ensures err { IfErr result (MemoryOrCausedBy (full limit count) offset) }
{
    if count >= limit {
        let why = Why::new("no room for one more %w: there are %1, at most %2 are allowed");
        let why = why.word(name).numbers([count as u64, limit as u64, 0]);
        return Err(Error::new(ErrorKind::Limit, offset, why));
    }
    Ok(())
}

/// So of a list, where that is to be looked at.
fn check_list(
    limited: bool,
    count: usize,
    name: &'static str,
    offset: u64,
) -> Result<(), Refusal<'static>>
    ensures ok { OnOk result (IsFree (full_if limited max_entries count)) }
    ensures err { IfErr result (MemoryOrCausedBy (full_if limited max_entries count) offset) }
{
    if !limited {
        return Ok(());
    }
    check_count(count, MAX_ENTRIES, name, offset)
}

/// How many stand with what the entity joins.
fn room_count(spaces: &Spaces, ty: &ComponentEntityType) -> usize
    ensures { result ≡ min (entity_count (lists spaces.now) ty.now) usize.MAX }
{
    match ty {
        ComponentEntityType::Module(_) => spaces.core_modules.len(),
        ComponentEntityType::Func(_) => both(spaces.core_funcs.len(), spaces.funcs.len()),
        ComponentEntityType::Ty { .. } => spaces.types.len(),
        ComponentEntityType::Instance(_) => {
            both(spaces.core_instances.len(), spaces.instances.len())
        }
        ComponentEntityType::Component(_) => spaces.components.len(),
        ComponentEntityType::Value(_) => spaces.values.len(),
    }
}

/// How many may.
fn room_limit(ty: &ComponentEntityType) -> usize
    ensures { result ≡ entity_limit ty.now }
{
    match ty {
        ComponentEntityType::Module(_)
        | ComponentEntityType::Instance(_)
        | ComponentEntityType::Component(_)
        | ComponentEntityType::Value(_) => MAX_INSTANCES,
        _ => MAX_ENTRIES,
    }
}

/// Whether the space that the entity joins has room.
fn check_room(
    spaces: &Spaces,
    ty: &ComponentEntityType,
    types: &TypeAlloc,
    offset: u64,
) -> Result<(), Refusal<'static>>
    requires { EntityStands types.now ty.now }
    ensures ok { OnOk result (IsFree (no_room (room_counts (lists spaces.now)) (sort (entity_tree (trees types.now.nodes) ty.now)))) }
    ensures err { IfErr result (MemoryOrCausedBy (no_room (room_counts (lists spaces.now)) (sort (entity_tree (trees types.now.nodes) ty.now))) offset) }
{
    let _ = types;
    let name = match ty {
        ComponentEntityType::Module(_) => "core module",
        ComponentEntityType::Func(_) => "function or core function",
        ComponentEntityType::Instance(_) => "instance or core instance",
        ComponentEntityType::Component(_) => "component",
        ComponentEntityType::Value(_) => "value",
        _ => "type",
    };
    check_count(room_count(spaces, ty), room_limit(ty), name, offset)
}

/// Whether what joins that side counts as used, if it is a value: it is exported.
fn is_export(which: ExternKind) -> bool
    ensures { result ≡ same_side (side_of which) exporting }
{
    match which {
        ExternKind::Import => false,
        ExternKind::Export => true,
    }
}

/// Whether the entity is a value in whose type a borrowed handle stands.
#[tactic(auto, using(crate::proofs::Lending::lends_value, crate::proofs::Lending::lends_none))]
fn holds_borrow(ty: &ComponentEntityType, types: &TypeAlloc) -> bool
    requires { EntityStands types.now ty.now }
    ensures { result ≡ lends tree_reader (entity_tree (trees types.now.nodes) ty.now) }
{
    match ty {
        ComponentEntityType::Value(ty) => types.abi_info(ty).contains_borrow,
        _ => false,
    }
}

/// Whether the entity may join that side: an exported value may hold no borrowed handle.
fn check_lent(
    which: ExternKind,
    ty: &ComponentEntityType,
    types: &TypeAlloc,
    offset: u64,
) -> Result<(), Refusal<'static>>
    requires { EntityStands types.now ty.now }
    ensures ok { OnOk result (IsFree (lent tree_reader (side_of which) (entity_tree (trees types.now.nodes) ty.now))) }
    ensures err { IfErr result (MemoryOrCausedBy (lent tree_reader (side_of which) (entity_tree (trees types.now.nodes) ty.now)) offset) }
{
    if is_export(which) && holds_borrow(ty, types) {
        let why = Why::new("the type of an exported value may hold no borrowed handle");
        return Err(Error::new(ErrorKind::Borrow, offset, why));
    }
    Ok(())
}

/// The entity joins its space; a value counts as used or not.
fn enter_space(spaces: &mut Spaces, ty: ComponentEntityType, used: bool) -> Result<(), OutOfMemory>
    ensures ok { OnOk result (lists spaces.new ≡ entered used ty (lists spaces.old)) }
    ensures err { OnErr result (lists spaces.new ≡ lists spaces.old) }
{
    match ty {
        ComponentEntityType::Module(id) => append(&mut spaces.core_modules, id),
        ComponentEntityType::Func(id) => append(&mut spaces.funcs, id),
        ComponentEntityType::Ty { created, .. } => append(&mut spaces.types, created),
        ComponentEntityType::Instance(id) => append(&mut spaces.instances, id),
        ComponentEntityType::Component(id) => append(&mut spaces.components, id),
        ComponentEntityType::Value(ty) => append(&mut spaces.values, (ty, used)),
    }
}

impl Entries {
    /// None.
    pub fn new(alloc: Global) -> Entries
        ensures names { NamesAgree result }
        ensures items { result.items ≡ [] }
    {
        Entries {
            items: ItemMap::new(alloc),
            names: NameSet::new(alloc),
            resources: ComponentNameContext::new(alloc),
        }
    }
}

/// The reference that an entity creates.
fn created_reference(ty: &ComponentEntityType) -> Option<AliasableResourceId>
    ensures { option_to_list result ≡ looking.created_reference ty.now }
{
    match ty {
        ComponentEntityType::Ty {
            created: ComponentAnyTypeId::Resource(id),
            ..
        } => Some(*id),
        _ => None,
    }
}

/// A reference that an entity creates has the name from then on.
#[tactic(auto, using(crate::proofs::EntryNames::one_unnamed, crate::proofs::EntryNames::one_named, crate::proofs::EntryNames::none_named, crate::proofs::EntryNames::no_key))]
fn name_reference(
    resources: &mut ComponentNameContext,
    name: &str,
    ty: &ComponentEntityType,
) -> Result<(), OutOfMemory>
    requires { All (λ q. name_of (names_of resources.old) (reference_of q) ≡ None) (looking.created_reference ty.now) }
    ensures references { OnOk result (resources.new.references ≡ resources.old.references ++ map (λ q. (q, name.now)) (looking.created_reference ty.now)) }
    ensures names { OnOk result ((ks : List Text) → AreKeys resources.old.names ks → AreKeys resources.new.names (ks ++ map (λ q. name.now) (looking.created_reference ty.now))) }
{
    if let Some(id) = created_reference(ty) {
        resources.register(name, id)?;
    }
    Ok(())
}

/// Whether an entity may join a list under a name, and its space. A reference that it creates has the name from
/// then on, and the key of the name is one of the list's.
#[tactic(auto, using(crate::proofs::EntryNames::all_unnamed))]
fn admit(
    spaces: &Spaces,
    info: &mut TypeInfo,
    side: &mut Entries,
    which: ExternKind,
    name: &ComponentExternName,
    ty: &ComponentEntityType,
    types: &mut TypeAlloc,
    features: &WasmFeatures,
    limited: bool,
    offset: u64,
) -> Result<(), Error>
    requires entity { EntityStands types.old ty.now }
    requires entries { All (EntryStands types.old) side.old.items }
    requires names { NamesAgree side.old }
    requires unnamed { IsUnnamedIn side.old.items ty.now }
    ensures admitted { OnOk result (Admitted side.old side.new info.old info.new name.now ty.now (entity_tree (trees types.old.nodes) ty.now)) }
    ensures ok { OnOk result (IsFree (entry_checks limited features.now (side_of which) (trees types.old.nodes) (lists spaces.now) side.old.items info.old (extern_name name.now) (entity_tree (trees types.old.nodes) ty.now))) }
    ensures err { IfErr result (MemoryOrCausedBy (entry_checks limited features.now (side_of which) (trees types.old.nodes) (lists spaces.now) side.old.items info.old (extern_name name.now) (entity_tree (trees types.old.nodes) ty.now)) offset) }
    ensures items { side.new.items ≡ side.old.items }
    ensures types { types.new ≡ types.old }
{
    side.resources.check_extern(
        name,
        which,
        ty,
        types,
        offset,
        &mut side.names,
        &side.items,
        info,
        features,
    )?;
    check_list(limited, side.items.len(), which.desc(), offset)?;
    check_room(spaces, ty, types, offset)?;
    check_lent(which, ty, types, offset)?;
    name_reference(&mut side.resources, name.name.as_str(), ty)?;
    Ok(())
}

/// The entity joins its space, and the list under the name. Out of memory it may have joined its space alone.
fn join(
    spaces: &mut Spaces,
    items: &mut ItemMap,
    name: ComponentExternName,
    ty: ComponentEntityType,
    used: bool,
) -> Result<(), OutOfMemory>
    ensures spaces { OnOk result (lists spaces.new ≡ entered used ty (lists spaces.old)) }
    ensures items { OnOk result (items.new ≡ items.old ++ entry_of name ty ∷ []) }
    ensures kept { OnErr result (Partly used (lists spaces.old) (lists spaces.new) ty) }
    ensures stay { OnErr result (items.new ≡ items.old) }
{
    enter_space(spaces, ty, used)?;
    items.push((
        name.name,
        ComponentItem {
            ty,
            implements: name.implements,
            version_suffix: name.version_suffix,
            external_id: name.external_id,
        },
    ))
}

/// An entity joins a list under a name, and its space, where it may: a value that is exported counts as used. Whether it needs types that are not named is
/// looked at by the caller. Refused, the list, the size and the depth stay, and the spaces have their old entries.
pub fn enter(
    spaces: &mut Spaces,
    info: &mut TypeInfo,
    side: &mut Entries,
    which: ExternKind,
    name: ComponentExternName,
    ty: ComponentEntityType,
    types: &mut TypeAlloc,
    features: &WasmFeatures,
    limited: bool,
    offset: u64,
) -> Result<(), Error>
    requires entity { EntityStands types.old ty }
    requires entries { All (EntryStands types.old) side.old.items }
    requires names { NamesAgree side.old }
    requires unnamed { IsUnnamedIn side.old.items ty }
    ensures names { OnOk result (NamesAgree side.new) }
    ensures joined { OnOk result (Joined (same_side (side_of which) exporting) (lists spaces.old) (lists spaces.new) side.old.items side.new.items info.old info.new name ty (entity_tree (trees types.old.nodes) ty)) }
    ensures ok { OnOk result (IsFree (entry_checks limited features.now (side_of which) (trees types.old.nodes) (lists spaces.old) side.old.items info.old (extern_name name) (entity_tree (trees types.old.nodes) ty))) }
    ensures err { IfErr result (MemoryOrCausedBy (entry_checks limited features.now (side_of which) (trees types.old.nodes) (lists spaces.old) side.old.items info.old (extern_name name) (entity_tree (trees types.old.nodes) ty)) offset) }
    ensures kept { OnErr result (Partly (same_side (side_of which) exporting) (lists spaces.old) (lists spaces.new) ty) }
    ensures items { OnErr result (side.new.items ≡ side.old.items) }
    ensures info { OnErr result (info.new ≡ info.old) }
    ensures types { types.new ≡ types.old }
{
    let mut total = *info;
    admit(
        spaces, &mut total, side, which, &name, &ty, types, features, limited, offset,
    )?;
    join(spaces, &mut side.items, name, ty, is_export(which))?;
    *info = total;
    Ok(())
}
