// Instances: of components, and those that list items.
ghost use Rattle.std.specs.Prelude.{◌≡◌, ◌<◌, [], ◌∷◌, ◌++◌, ℕ, List, All, Some, true, false, OnOk, OnErr, IfOk, IfErr};
ghost use Rattle.std.specs.List.{AllZip};
ghost use Rattle.wcv_core.specs.Checks.{all_checks};
ghost use Rattle.wcv_core.specs.declared.error.ErrorKind.TheVariants as kinds;
ghost use Rattle.wcv_core.specs.Limits.{max_depth, max_size};
ghost use Rattle.wcv_core.specs.Names.{Place};
ghost use Rattle.wcv_syntax.specs.Model.{instantiate, bag, instance_item};
ghost use Rattle.wcv_syntax.specs.View.{instance_view};
ghost use Rattle.wcv_types.specs.Entities.{entry_trees, EntityStands};
ghost use Rattle.wcv_types.specs.ByName.{NamesDiffer, texts_in};
ghost use Rattle.wcv_types.specs.Standing.{Extends, Stands};
ghost use Rattle.wcv_types.specs.Unfold.{tree_at, trees};
ghost use Rattle.wcv_types.specs.declared.ids.Part.TheVariants as part;
ghost use Rattle.wcv_lower.specs.Checks.{IsFree, has_repeat, too_many};
ghost use Rattle.wcv_lower.specs.Instances as rules;
ghost use Rattle.wcv_lower.specs.Marks.{value_index};
ghost use Rattle.wcv_lower.specs.Trees.{Tree_context};
ghost use Rattle.wcv_spaces.specs.Bringing.{AreNewIn};
ghost use Rattle.wcv_spaces.specs.Contents.{spent, with_uses, StateStands};
ghost use Rattle.wcv_state.specs.Joining.{InstanceJoined};
ghost use Rattle.wcv_spaces.specs.Looking.{item_id};
ghost use Rattle.wcv_spaces.specs.Promises.{CausedBy, MemoryOrCausedBy, Grew, Keeps, Refuses};
ghost use Rattle.wcv_state.specs.Stack.{IsOpen};
ghost use Rattle.wcv_spaces.specs.Values.{uses_id_checks};
ghost use Rattle.wcv_instances.specs.ComponentInstances.{arg_checks, as_entries, item_checks, lending_checks, list_checks, size_checks, CausedInstance, IsArg, IsListed, ItemMayInstantiate, MadeInstance};

use crate::core_instances::{check_differ, check_room};
use std::alloc::Global;
use wcv_core::limits::{MAX_DEPTH, MAX_SIZE};
use wcv_core::{Error, ErrorKind, ExternKind, OutOfMemory, Refusal, Text, WasmFeatures, Why};
use wcv_names::{ComponentNameContext, NameSet};
use wcv_state::{ComponentState, NewInstance, check_kind, instance_of_component, push_instance};
use wcv_subtype::EntityMap;
use wcv_syntax::{
    ComponentExport, ComponentExternName, ComponentExternalKind, ComponentInstance,
    ComponentInstantiationArg,
};
use wcv_types::{
    ComponentEntityType, ComponentInstanceTypeId, ComponentTypeId, ItemMap, Paths, TypeAlloc,
    TypeInfo, TypeSort,
};

/// The item of an argument.
#[tactic(auto, using(wcv_core::proofs::Closing::caused_left, wcv_core::proofs::Closing::caused_right, wcv_core::proofs::Causes::free_both, crate::proofs::ItemsLooked::item_free))]
fn find_arg(
    arg: &ComponentInstantiationArg,
    state: &ComponentState,
    offset: u64,
) -> Result<ComponentEntityType, Refusal<'static>>
    ensures ok { IfOk result (λ item. item_id state.now.spaces arg.now.kind arg.now.index ≡ Some item) }
    ensures free { OnOk result (IsFree (arg_checks state.now.features state.now.spaces arg.now)) }
    ensures err { IfErr result (MemoryOrCausedBy (arg_checks state.now.features state.now.spaces arg.now) offset) }
{
    check_kind(state.features(), arg.kind, offset)?;
    state.item_at(arg.kind, arg.index, offset)
}

/// The items of the arguments, each by the argument's name.
fn find_args(
    alloc: Global,
    args: Vec<ComponentInstantiationArg>,
    state: &ComponentState,
    offset: u64,
) -> Result<Vec<(Text, ComponentEntityType)>, Error>
    ensures ok { IfOk result (λ found. AllZip (IsArg state.now.spaces) args.items found.items) }
    ensures free { OnOk result (IsFree (all_checks (arg_checks state.now.features state.now.spaces) args.items)) }
    ensures err { IfErr result (MemoryOrCausedBy (all_checks (arg_checks state.now.features state.now.spaces) args.items) offset) }
{
    let mut found = Vec::with_capacity(alloc, args.len())?;
    for arg in args {
        let item = find_arg(&arg, state, offset)?;
        found.push((arg.name, item))?;
    }
    Ok(found)
}

/// The same items, as what opens a component takes them.
fn as_map(alloc: Global, found: Vec<(Text, ComponentEntityType)>) -> Result<EntityMap, OutOfMemory>
    ensures { IfOk result (λ map. map ≡ found.items) }
{
    let mut map = EntityMap::new(alloc);
    for entry in found {
        map.push(entry.0, entry.1)?;
    }
    Ok(map)
}

/// Whether the names of the arguments differ. The imports' names do, so arguments in the order of the imports, as they are
/// mostly written, are compared with these alone.
fn check_args_differ(
    types: &TypeAlloc,
    id: ComponentTypeId,
    found: &[(Text, ComponentEntityType)],
    offset: u64,
) -> Result<(), Error>
    requires { Stands types.now (part.Component id) }
    ensures ok { OnOk result (IsFree ((kinds.Conflict, has_repeat (texts_in found.now)) ∷ [])) }
    ensures err { IfErr result (MemoryOrCausedBy ((kinds.Conflict, has_repeat (texts_in found.now)) ∷ []) offset) }
{
    types.nodes_fit();
    if types.get(id).imports.has_names(found) {
        return Ok(());
    }
    check_differ(
        types.allocator(),
        found,
        "arguments of the instance",
        offset,
    )
}

/// Whether a type of that size and depth is within the limits.
fn check_info(info: TypeInfo, offset: u64) -> Result<(), Refusal<'static>>
    ensures ok { OnOk result (IsFree (too_many max_size info.size ++ too_many max_depth info.depth)) }
    ensures err { IfErr result (MemoryOrCausedBy (too_many max_size info.size ++ too_many max_depth info.depth) offset) }
{
    let size = info.size as u64;
    if size > MAX_SIZE {
        let why = Why::new("the instance would have the size %1, at most %2 is allowed");
        let why = why.numbers([size, MAX_SIZE, 0]);
        return Err(Error::new(ErrorKind::Limit, offset, why));
    }
    let depth = info.depth as u64;
    if depth > MAX_DEPTH {
        let why = Why::new("the instance would have the depth %1, at most %2 is allowed");
        let why = why.numbers([depth, MAX_DEPTH, 0]);
        return Err(Error::new(ErrorKind::Limit, offset, why));
    }
    Ok(())
}

/// Whether the type of an instance is within the limits.
fn check_size(
    types: &TypeAlloc,
    id: ComponentInstanceTypeId,
    offset: u64,
) -> Result<(), Refusal<'static>>
    requires { Stands types.now (part.Instance id) }
    ensures ok { OnOk result (IsFree (size_checks (tree_at types.now (part.Instance id)))) }
    ensures err { IfErr result (MemoryOrCausedBy (size_checks (tree_at types.now (part.Instance id))) offset) }
{
    check_info(id.info(types), offset)
}

/// An instance of the component at that index.
fn of_component(
    component_index: u32,
    args: Vec<ComponentInstantiationArg>,
    state: &ComponentState,
    types: &mut TypeAlloc,
    offset: u64,
) -> Result<NewInstance, Error>
    requires stands { StateStands types.old state.now }
    requires opens { ItemMayInstantiate types.old state.now (instantiate component_index args.items) }
    ensures ok { IfOk result (MadeInstance types.old types.new state.now (instantiate component_index args.items)) }
    ensures err { IfErr result (CausedInstance types.old types.new state.now (instantiate component_index args.items) offset) }
    ensures grown { Extends types.old types.new }
{
    let alloc = types.allocator();
    types.nodes_fit();
    let _count = types.core_types().len();
    let id = state.component_at(component_index, offset)?;
    let found = find_args(alloc, args, state, offset)?;
    let list = found.as_slice();
    check_args_differ(types, id, list, offset)?;
    check_room(state, types, offset)?;
    let map = as_map(alloc, found)?;
    let made = instance_of_component(types, id, &map, offset)?;
    check_size(types, made.ty, offset)?;
    Ok(made)
}

/// Whether an instance may list the entity: no borrowed handle may stand in a value.
#[tactic(auto, using(wcv_spaces::proofs::Lending::lends_value, wcv_spaces::proofs::Lending::lends_none))]
fn check_lending(
    ty: &ComponentEntityType,
    types: &TypeAlloc,
    offset: u64,
) -> Result<(), Refusal<'static>>
    requires { EntityStands types.now ty.now }
    ensures ok { OnOk result (IsFree (lending_checks types.now ty.now)) }
    ensures err { IfErr result (MemoryOrCausedBy (lending_checks types.now ty.now) offset) }
{
    match ty {
        ComponentEntityType::Value(ty) if types.abi_info(ty).contains_borrow => {
            let why = Why::new("a value that an instance lists may hold no borrowed handle");
            Err(Error::new(ErrorKind::Borrow, offset, why))
        }
        _ => Ok(()),
    }
}

/// The item that an export lists, beside which no type is written.
fn find_item(
    export: &ComponentExport,
    state: &ComponentState,
    types: &TypeAlloc,
    offset: u64,
) -> Result<ComponentEntityType, Refusal<'static>>
    requires { StateStands types.now state.now }
    ensures ok { IfOk result (λ item. item_id state.now.spaces export.now.kind export.now.index ≡ Some item) }
    ensures free { OnOk result (IsFree (item_checks types.now state.now.features state.now.spaces export.now)) }
    ensures err { IfErr result (MemoryOrCausedBy (item_checks types.now state.now.features state.now.spaces export.now) offset) }
{
    check_kind(state.features(), export.kind, offset)?;
    let item = state.item_at(export.kind, export.index, offset)?;
    if export.ty.is_some() {
        let why = Why::new("no type may be written beside an item that an instance lists");
        return Err(Error::new(ErrorKind::Shape, offset, why));
    }
    check_lending(&item, types, offset)?;
    Ok(item)
}

/// The items that exports list, each by its name.
fn find_items(
    exports: Vec<ComponentExport>,
    state: &ComponentState,
    types: &TypeAlloc,
    offset: u64,
) -> Result<Vec<(ComponentExternName, ComponentEntityType)>, Error>
    requires { StateStands types.now state.now }
    ensures ok { IfOk result (λ found. AllZip (IsListed state.now.spaces) exports.items found.items) }
    ensures free { OnOk result (IsFree (all_checks (item_checks types.now state.now.features state.now.spaces) exports.items)) }
    ensures err { IfErr result (MemoryOrCausedBy (all_checks (item_checks types.now state.now.features state.now.spaces) exports.items) offset) }
{
    let mut found = Vec::with_capacity(types.allocator(), exports.len())?;
    for export in exports {
        let item = find_item(&export, state, types, offset)?;
        found.push((export.name, item))?;
    }
    Ok(found)
}

/// The items as the entries of an instance, where their names may stand beside each other and the instance is not too large.
fn list_items(
    found: &[(ComponentExternName, ComponentEntityType)],
    features: &WasmFeatures,
    types: &mut TypeAlloc,
    offset: u64,
) -> Result<ItemMap, Error>
    requires { All (λ x. EntityStands types.old x.1) found.now }
    ensures ok { IfOk result (λ items. items ≡ as_entries found.now) }
    ensures apart { OnOk result (NamesDiffer (as_entries found.now)) }
    ensures free { OnOk result (IsFree (list_checks features.now (entry_trees (trees types.old.nodes) (as_entries found.now)))) }
    ensures err { IfErr result (MemoryOrCausedBy (list_checks features.now (entry_trees (trees types.old.nodes) (as_entries found.now))) offset) }
    ensures types { types.new ≡ types.old }
{
    let alloc = types.allocator();
    let names = ComponentNameContext::new(alloc);
    let mut keys = NameSet::new(alloc);
    let mut items = ItemMap::new(alloc);
    let mut info = TypeInfo { size: 1, depth: 1 };
    for k in 0..found.len() {
        let entry = &found[k];
        names.validate_extern(
            &entry.0,
            ExternKind::Export,
            &entry.1,
            types,
            offset,
            &mut keys,
            &mut items,
            &mut info,
            features,
        )?;
    }
    Ok(items)
}

/// An instance that lists what the exports name.
fn of_exports(
    exports: Vec<ComponentExport>,
    state: &ComponentState,
    types: &mut TypeAlloc,
    offset: u64,
) -> Result<NewInstance, Error>
    requires stands { StateStands types.old state.now }
    ensures ok { IfOk result (MadeInstance types.old types.new state.now (bag exports.items)) }
    ensures err { IfErr result (CausedInstance types.old types.new state.now (bag exports.items) offset) }
    ensures grown { Extends types.old types.new }
{
    let found = find_items(exports, state, types, offset)?;
    check_room(state, types, offset)?;
    let items = list_items(found.as_slice(), state.features(), types, offset)?;
    let ty = push_instance(types, items)?;
    Ok(NewInstance {
        ty,
        resources: Paths::new(types.allocator()),
    })
}

/// The instance that an item makes.
fn instance_made(
    instance: ComponentInstance,
    state: &ComponentState,
    types: &mut TypeAlloc,
    offset: u64,
) -> Result<NewInstance, Error>
    requires stands { StateStands types.old state.now }
    requires opens { ItemMayInstantiate types.old state.now (instance_view instance) }
    ensures ok { IfOk result (MadeInstance types.old types.new state.now (instance_view instance)) }
    ensures err { IfErr result (CausedInstance types.old types.new state.now (instance_view instance) offset) }
    ensures grown { Extends types.old types.new }
{
    match instance {
        ComponentInstance::Instantiate {
            component_index,
            args,
        } => of_component(component_index, args, state, types, offset),
        ComponentInstance::FromExports(exports) => of_exports(exports, state, types, offset),
    }
}

/// The index joins the list, where the item of that sort there is a value.
fn add_value(
    values: &mut Vec<u32>,
    kind: ComponentExternalKind,
    index: u32,
) -> Result<(), OutOfMemory>
    ensures { OnOk result (values.new.items ≡ values.old.items ++ value_index kind index) }
{
    match kind {
        ComponentExternalKind::Value => {
            values.push(index)?;
            Ok(())
        }
        _ => Ok(()),
    }
}

/// The indices of the values among the arguments.
fn argument_values(
    alloc: Global,
    args: &[ComponentInstantiationArg],
) -> Result<Vec<u32>, OutOfMemory>
    ensures { IfOk result (λ values. values.items ≡ rules.argument_values args.now) }
{
    let mut values = Vec::new(alloc);
    for arg in args {
        add_value(&mut values, arg.kind, arg.index)?;
    }
    Ok(values)
}

/// The indices of the values among the listed items.
fn listed_values(alloc: Global, exports: &[ComponentExport]) -> Result<Vec<u32>, OutOfMemory>
    ensures { IfOk result (λ values. values.items ≡ rules.listed_values exports.now) }
{
    let mut values = Vec::new(alloc);
    for export in exports {
        add_value(&mut values, export.kind, export.index)?;
    }
    Ok(values)
}

/// The indices of the values that an item uses.
fn instance_values(alloc: Global, instance: &ComponentInstance) -> Result<Vec<u32>, OutOfMemory>
    ensures { IfOk result (λ values. values.items ≡ rules.instance_values (instance_view instance.now)) }
{
    match instance {
        ComponentInstance::Instantiate { args, .. } => argument_values(alloc, args.as_slice()),
        ComponentInstance::FromExports(exports) => listed_values(alloc, exports.as_slice()),
    }
}

/// The values are used from here on, in order. After an error the state is spent.
fn use_values(
    values: &[u32],
    state: &mut ComponentState,
    offset: u64,
) -> Result<(), Refusal<'static>>
    requires live { state.old.spent ≡ false }
    ensures ok { OnOk result (state.new ≡ with_uses values.now state.old) }
    ensures free { OnOk result (IsFree (uses_id_checks state.old.spaces.values values.now)) }
    ensures err { IfErr result (CausedBy (uses_id_checks state.old.spaces.values values.now) offset) }
    ensures left { OnErr result ((used : List ℕ) × (state.new ≡ spent (with_uses used state.old))) }
{
    for value in values {
        state.use_item(ComponentExternalKind::Value, *value, offset)?;
    }
    Ok(())
}

/// An instance that was made joins the state, once the values were used. After an error the state is spent.
fn join_made(
    made: &NewInstance,
    values: &[u32],
    state: &mut ComponentState,
    types: &TypeAlloc,
    offset: u64,
) -> Result<(), Error>
    requires live { state.old.spent ≡ false }
    requires stands { StateStands types.now state.old }
    requires instance { Stands types.now (part.Instance made.now.ty) }
    requires resources { All (λ r. r.0.index < types.now.resources) made.now.resources }
    requires fresh { AreNewIn state.old.defined_resources made.now.resources }
    ensures ok { OnOk result (InstanceJoined types.now (with_uses values.now state.old) state.new made.now) }
    ensures free { OnOk result (IsFree (uses_id_checks state.old.spaces.values values.now)) }
    ensures err { IfErr result (MemoryOrCausedBy (uses_id_checks state.old.spaces.values values.now) offset) }
    ensures spent { OnErr result (state.new.spent ≡ true) }
    ensures keeps { Keeps types.now types.now state.old state.new }
{
    use_values(values, state, offset)?;
    state.join_instance(made, types)?;
    Ok(())
}

/// The instance that an item makes, and the values that the item uses.
fn instance_with_values(
    instance: ComponentInstance,
    state: &ComponentState,
    types: &mut TypeAlloc,
    offset: u64,
) -> Result<(NewInstance, Vec<u32>), Error>
    requires stands { StateStands types.old state.now }
    requires opens { ItemMayInstantiate types.old state.now (instance_view instance) }
    ensures ok { IfOk result (λ r. MadeInstance types.old types.new state.now (instance_view instance) r.0) }
    ensures values { IfOk result (λ r. r.1.items ≡ rules.instance_values (instance_view instance)) }
    ensures err { IfErr result (CausedInstance types.old types.new state.now (instance_view instance) offset) }
    ensures grown { Extends types.old types.new }
{
    let values = instance_values(types.allocator(), &instance)?;
    let made = instance_made(instance, state, types, offset)?;
    Ok((made, values))
}

/// The instance that an item makes joins the state, and the values that the item names are used. After an error the
/// state is spent.
pub fn add_instance(
    instance: ComponentInstance,
    state: &mut ComponentState,
    types: &mut TypeAlloc,
    offset: u64,
) -> Result<(), Error>
    requires open { IsOpen types.old state.old }
    requires opens { ItemMayInstantiate types.old state.old (instance_view instance) }
    ensures ok { OnOk result ((outer : List Tree_context) (p : Place) → Grew types.old types.new outer p state.old state.new (instance_item (instance_view instance))) }
    ensures err { IfErr result (λ e. (outer : List Tree_context) (p : Place) → Refuses types.old types.new outer p state.old state.new (instance_item (instance_view instance)) offset e) }
    ensures keeps { Keeps types.old types.new state.old state.new }
{
    match instance_with_values(instance, state, types, offset) {
        Ok(made) => join_made(&made.0, made.1.as_slice(), state, types, offset),
        Err(error) => {
            state.mark_spent();
            Err(error)
        }
    }
}
