// Core instances: of core modules, and those that list core items.
ghost use Rattle.wcv_core.specs.Limits.{max_size};
ghost use Rattle.std.specs.Prelude.{◌≡◌, ◌≤◌, ◌∷◌, [], suc, true, false, List, All, OnOk, OnErr, IfOk, IfErr};
ghost use Rattle.std.specs.List.{AllZip};
ghost use Rattle.wcv_core.specs.Checks.{all_checks};
ghost use Rattle.wcv_core.specs.CoreGroups.{total};
ghost use Rattle.wcv_core.specs.CoreSizes.{IsEntityWithin};
ghost use Rattle.wcv_core.specs.Names.{Place};
ghost use Rattle.wcv_core.specs.declared.error.ErrorKind.TheVariants as kinds;
ghost use Rattle.wcv_syntax.specs.Model.{core_instance_item, core_instantiate, core_bag};
ghost use Rattle.wcv_syntax.specs.View.{core_instance_view};
ghost use Rattle.wcv_types.specs.ByName.{texts_in};
ghost use Rattle.wcv_types.specs.Standing.{Stands, Fits, entity_sizes};
ghost use Rattle.wcv_types.specs.Tree.{is_instance};
ghost use Rattle.wcv_types.specs.Unfold.{tree_of, trees};
ghost use Rattle.wcv_types.specs.declared.arena.Node.TheVariants as node;
ghost use Rattle.wcv_types.specs.declared.ids.Part.TheVariants as part;
ghost use Rattle.wcv_lower.specs.Checks.{IsFree, has_repeat, no_room, too_many};
ghost use Rattle.wcv_lower.specs.Context.{core_instances, counts};
ghost use Rattle.wcv_lower.specs.Trees.{Tree_context};
ghost use Rattle.wcv_spaces.specs.Contents.{context_of, StateStands};
ghost use Rattle.wcv_spaces.specs.Promises.{MemoryOrCausedBy, Keeps, Grew, Refuses};
ghost use Rattle.wcv_state.specs.Stack.{IsOpen};
ghost use Rattle.wcv_module.specs.Kept.{module_depth};
ghost use Rattle.wcv_decls.specs.CoreItems.{JoinedCore};
ghost use Rattle.wcv_instances.specs.CoreInstances.{IsArg, IsItem, arg_checks, item_checks, items_of, served_checks, MadeInstance, FreeInstance, CausedInstance};

use std::alloc::Global;
use wcv_core::limits::{MAX_INSTANCES, MAX_SIZE};
use wcv_core::{CoreTypes, EntityType, Error, ErrorKind, OutOfMemory, Refusal, Text, TextSet, Why};
use wcv_matching::core_arguments;
use wcv_state::{ComponentState, check_core_sort};
use wcv_syntax::{Export, Instance, InstantiationArg};
use wcv_types::{
    ComponentCoreInstanceTypeId, ComponentCoreModuleTypeId, CoreInstanceTypeKind, ExportMap,
    InstanceType, TypeAlloc, TypeInfo, core_instance_of, core_items_size,
};

/// Whether the names of a list differ. What has them is for the message.
pub fn check_differ<V>(
    alloc: Global,
    entries: &[(Text, V)],
    what: &'static str,
    offset: u64,
) -> Result<(), Error>
    ensures ok { OnOk result (IsFree ((kinds.Conflict, has_repeat (texts_in entries.now)) ∷ [])) }
    ensures err { IfErr result (MemoryOrCausedBy ((kinds.Conflict, has_repeat (texts_in entries.now)) ∷ []) offset) }
{
    let mut seen = TextSet::new(alloc);
    for k in 0..entries.len() {
        let name = entries[k].0.as_str();
        let copy = String::from_str(alloc, name)?;
        if seen.insert(copy)?.is_some() {
            let why = Why::new("two %w have the name `%n`");
            let why = why.word(what).name(name);
            return Err(Error::from(Error::new(ErrorKind::Conflict, offset, why)));
        }
    }
    Ok(())
}

/// Whether there is room for one more instance.
pub fn check_room(
    state: &ComponentState,
    types: &TypeAlloc,
    offset: u64,
) -> Result<(), Refusal<'static>>
    ensures ok { OnOk result (IsFree (no_room (counts (context_of types.now state.now)) is_instance)) }
    ensures err { IfErr result (MemoryOrCausedBy (no_room (counts (context_of types.now state.now)) is_instance) offset) }
{
    let _ = types;
    let count = state.instance_count();
    if count >= MAX_INSTANCES {
        let why = Why::new(
            "no room for one more instance or core instance: there are %1, at most %2 are allowed",
        );
        let why = why.numbers([count as u64, MAX_INSTANCES as u64, 0]);
        return Err(Error::new(ErrorKind::Limit, offset, why));
    }
    Ok(())
}

/// The core instances of the arguments, each by the argument's name.
fn find_args(
    alloc: Global,
    args: Vec<InstantiationArg>,
    state: &ComponentState,
    offset: u64,
) -> Result<Vec<(Text, ComponentCoreInstanceTypeId)>, Error>
    ensures ok { IfOk result (λ found. AllZip (IsArg state.now.spaces) args.items found.items) }
    ensures free { OnOk result (IsFree (all_checks (arg_checks state.now.spaces) args.items)) }
    ensures err { IfErr result (MemoryOrCausedBy (all_checks (arg_checks state.now.spaces) args.items) offset) }
{
    let mut found = Vec::with_capacity(alloc, args.len())?;
    for arg in args {
        let id = state.core_instance_at(arg.index, offset)?;
        found.push((arg.name, id))?;
    }
    Ok(found)
}

/// The item that an export lists.
fn find_item(
    export: &Export,
    state: &ComponentState,
    offset: u64,
) -> Result<EntityType, Refusal<'static>>
    ensures ok { IfOk result (λ item. IsItem state.now.spaces export.now (export.now.name, item)) }
    ensures free { OnOk result (IsFree (item_checks state.now.features state.now.spaces export.now)) }
    ensures err { IfErr result (MemoryOrCausedBy (item_checks state.now.features state.now.spaces export.now) offset) }
{
    check_core_sort(export.kind, state.features(), offset)?;
    state.core_item_at(export.kind, export.index, offset)
}

/// The items that exports list, each by its name.
fn find_items(
    alloc: Global,
    exports: Vec<Export>,
    state: &ComponentState,
    offset: u64,
) -> Result<Vec<(Text, EntityType)>, Error>
    ensures ok { IfOk result (λ found. AllZip (IsItem state.now.spaces) exports.items found.items) }
    ensures free { OnOk result (IsFree (all_checks (item_checks state.now.features state.now.spaces) exports.items)) }
    ensures err { IfErr result (MemoryOrCausedBy (all_checks (item_checks state.now.features state.now.spaces) exports.items) offset) }
{
    let mut found = Vec::with_capacity(alloc, exports.len())?;
    for export in exports {
        let item = find_item(&export, state, offset)?;
        found.push((export.name, item))?;
    }
    Ok(found)
}

/// What a core instance counts that lists these items, where that is within the limit.
fn check_size(
    core: &CoreTypes,
    items: &[(Text, EntityType)],
    offset: u64,
) -> Result<u32, Refusal<'static>>
    requires { All (λ e. IsEntityWithin (total core.now) e.1) items.now }
    ensures ok { IfOk result (λ size. size ≡ suc (entity_sizes core.now (items_of items.now))) }
    ensures small { IfOk result (λ size. size ≤ max_size) }
    ensures free { OnOk result (IsFree (too_many max_size (suc (entity_sizes core.now (items_of items.now))))) }
    ensures err { IfErr result (MemoryOrCausedBy (too_many max_size (suc (entity_sizes core.now (items_of items.now)))) offset) }
{
    let size = core_items_size(core, items).saturating_add(1);
    if size > MAX_SIZE {
        let why = Why::new("the core instance would have a size above %1");
        let why = why.numbers([MAX_SIZE, 0, 0]);
        return Err(Error::new(ErrorKind::Limit, offset, why));
    }
    Ok(size as u32)
}

/// Whether the core instances serve what the core module imports.
fn check_served(
    types: &TypeAlloc,
    args: &[(Text, ComponentCoreInstanceTypeId)],
    id: ComponentCoreModuleTypeId,
    offset: u64,
) -> Result<(), Error>
    requires args { All (λ x. Stands types.now (part.CoreInstance x.1)) args.now }
    requires stands { Stands types.now (part.Module id) }
    ensures ok { OnOk result (IsFree (served_checks types.now args.now id)) }
    ensures err { IfErr result (MemoryOrCausedBy (served_checks types.now args.now id) offset) }
{
    types.nodes_fit();
    let _count = types.core_types().len();
    core_arguments(types, args, id, offset)
}

/// The type of a core instance of the core module at that index.
fn of_module(
    module_index: u32,
    args: Vec<InstantiationArg>,
    state: &ComponentState,
    types: &TypeAlloc,
    offset: u64,
) -> Result<InstanceType, Error>
    requires { StateStands types.now state.now }
    ensures made { IfOk result (MadeInstance types.now state.now (core_instantiate module_index args.items)) }
    ensures fits { IfOk result (λ shape. Fits types.now (node.CoreInstance shape)) }
    ensures free { OnOk result (FreeInstance types.now state.now (core_instantiate module_index args.items)) }
    ensures err { IfErr result (CausedInstance types.now state.now (core_instantiate module_index args.items) offset) }
{
    let alloc = types.allocator();
    let id = state.module_at(module_index, offset)?;
    let found = find_args(alloc, args, state, offset)?;
    let list = found.as_slice();
    check_differ(alloc, list, "arguments of the core instance", offset)?;
    check_room(state, types, offset)?;
    check_served(types, list, id, offset)?;
    Ok(core_instance_of(types, id))
}

/// How deep the type of a core instance is that lists these items.
#[tactic(auto, using(wcv_module::proofs::Fitting::depth_none, wcv_module::proofs::Fitting::depth_exports))]
fn depth_of(items: &[(Text, EntityType)]) -> u32
    ensures { result ≡ module_depth [] items.now }
{
    if items.is_empty() { 1 } else { 2 }
}

/// The type of a core instance that lists these items.
fn listing(items: Vec<(Text, EntityType)>, size: u32, types: &TypeAlloc) -> InstanceType
    requires within { All (λ e. IsEntityWithin (total types.now.core) e.1) items.items }
    requires size { size ≡ suc (entity_sizes types.now.core (items_of items.items)) }
    requires small { size ≤ max_size }
    ensures kind { result.kind ≡ CoreInstanceTypeKind.Exports items.items }
    ensures size { result.info.size ≡ size }
    ensures fits { Fits types.now (node.CoreInstance result) }
{
    let _ = types;
    let depth = depth_of(items.as_slice());
    InstanceType {
        info: TypeInfo { size, depth },
        kind: CoreInstanceTypeKind::Exports(ExportMap::from_entries(items)),
    }
}

/// The type of a core instance that lists what the exports name.
fn of_exports(
    exports: Vec<Export>,
    state: &ComponentState,
    types: &TypeAlloc,
    offset: u64,
) -> Result<InstanceType, Error>
    requires { StateStands types.now state.now }
    ensures made { IfOk result (MadeInstance types.now state.now (core_bag exports.items)) }
    ensures fits { IfOk result (λ shape. Fits types.now (node.CoreInstance shape)) }
    ensures free { OnOk result (FreeInstance types.now state.now (core_bag exports.items)) }
    ensures err { IfErr result (CausedInstance types.now state.now (core_bag exports.items) offset) }
{
    let alloc = types.allocator();
    let found = find_items(alloc, exports, state, offset)?;
    let list = found.as_slice();
    check_differ(alloc, list, "exports of the core instance", offset)?;
    check_room(state, types, offset)?;
    let size = check_size(types.core_types(), list, offset)?;
    Ok(listing(found, size, types))
}

/// The type of the core instance that an item makes.
fn instance_made(
    instance: Instance,
    state: &ComponentState,
    types: &TypeAlloc,
    offset: u64,
) -> Result<InstanceType, Error>
    requires { StateStands types.now state.now }
    ensures made { IfOk result (MadeInstance types.now state.now (core_instance_view instance)) }
    ensures fits { IfOk result (λ shape. Fits types.now (node.CoreInstance shape)) }
    ensures free { OnOk result (FreeInstance types.now state.now (core_instance_view instance)) }
    ensures err { IfErr result (CausedInstance types.now state.now (core_instance_view instance) offset) }
{
    match instance {
        Instance::Instantiate { module_index, args } => {
            of_module(module_index, args, state, types, offset)
        }
        Instance::FromExports(exports) => of_exports(exports, state, types, offset),
    }
}

/// The type joins the arena, and a core instance of it the state. After an error the state is spent.
fn join_instance(
    shape: InstanceType,
    state: &mut ComponentState,
    types: &mut TypeAlloc,
) -> Result<(), OutOfMemory>
    requires live { state.old.spent ≡ false }
    requires stands { StateStands types.old state.old }
    requires fits { Fits types.old (node.CoreInstance shape) }
    ensures ok { OnOk result (JoinedCore core_instances types.old types.new state.old state.new (tree_of (trees types.old.nodes) (node.CoreInstance shape))) }
    ensures spent { OnErr result (state.new.spent ≡ true) }
    ensures keeps { Keeps types.old types.new state.old state.new }
{
    let pushed: Result<ComponentCoreInstanceTypeId, OutOfMemory> = types.push_ty(shape);
    match pushed {
        Ok(id) => {
            state.push_core_instance(id)?;
            Ok(())
        }
        Err(error) => {
            state.mark_spent();
            Err(error)
        }
    }
}

/// The core instance that an item makes joins the state. After an error the state is spent.
pub fn add_core_instance(
    instance: Instance,
    state: &mut ComponentState,
    types: &mut TypeAlloc,
    offset: u64,
) -> Result<(), Error>
    requires open { IsOpen types.old state.old }
    ensures ok { OnOk result ((outer : List Tree_context) (p : Place) → Grew types.old types.new outer p state.old state.new (core_instance_item (core_instance_view instance))) }
    ensures err { IfErr result (λ e. (outer : List Tree_context) (p : Place) → Refuses types.old types.new outer p state.old state.new (core_instance_item (core_instance_view instance)) offset e) }
    ensures keeps { Keeps types.old types.new state.old state.new }
{
    match instance_made(instance, state, types, offset) {
        Ok(shape) => match join_instance(shape, state, types) {
            Ok(()) => Ok(()),
            Err(error) => Err(Error::from(error)),
        },
        Err(error) => {
            state.mark_spent();
            Err(error)
        }
    }
}
