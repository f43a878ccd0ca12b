// Reading core types, core modules, instances, core instances, start functions, canonical functions and aliases.
ghost use Rattle.std.specs.Prelude.{map, OnOk, IfErr};
ghost use Rattle.wcv_core.specs.Limits.{max_list};
ghost use Rattle.wcv_syntax.specs.Model.{core_type_item, core_module_item, core_instance_item, instance_item, start_item, canon_item, alias_item};
ghost use Rattle.wcv_syntax.specs.View.{core_type_view, code_decl_view, core_instance_view, instance_view, canon_view};
ghost use Rattle.wcv_lower.specs.Checks.{IsFree, too_many};
ghost use Rattle.wcv_spaces.specs.Promises.{Keeps, MemoryOrCausedBy};
ghost use Rattle.wcv_decls.specs.Stack.{IsOpen};
ghost use Rattle.wcv_instances.specs.ComponentInstances.{AllMayInstantiate};
ghost use Rattle.wcv_link.specs.Progress.{IsReady, TakesItem, LeavesItem, AcceptsItem, RefusesItem};

use wcv_canon::Canon;
use wcv_core::limits::MAX_LIST;
use wcv_core::{Error, ErrorKind, Refusal, Why};
use wcv_decls::{
    Declare, add_core_module_to, check_alias_limits, check_canon_limits,
    check_component_instance_limits, check_core_limits, check_core_module_limits,
    check_instance_limits,
};
use wcv_instances::Instances;
use wcv_state::ComponentState;
use wcv_syntax::{
    CanonicalFunction, ComponentAlias, ComponentInstance, CoreType, Instance, ModuleDecl,
};
use wcv_types::TypeAlloc;

/// Reads a core type into the innermost state: a group of types, or the type of a module.
pub fn read_core_type(
    ty: CoreType,
    components: &mut Vec<ComponentState>,
    types: &mut TypeAlloc,
    offset: u64,
) -> Result<(), Error>
    requires { IsReady types.old components.old.items }
    ensures ok { OnOk result (AcceptsItem types.old types.new components.old.items components.new.items (core_type_item (core_type_view ty))) }
    ensures err { IfErr result (RefusesItem types.old types.new components.old.items (core_type_item (core_type_view ty)) offset) }
{
    check_core_limits(&ty, offset)?;
    ComponentState::add_core_type(components.as_mut_slice(), ty, types, offset)
}

/// Reads a core module.
pub fn read_core_module(
    decls: Vec<ModuleDecl>,
    state: &mut ComponentState,
    types: &mut TypeAlloc,
    offset: u64,
) -> Result<(), Error>
    requires { IsOpen types.old state.old }
    ensures ok { OnOk result (TakesItem types.old types.new state.old state.new (core_module_item (map code_decl_view decls.items))) }
    ensures err { IfErr result (LeavesItem types.old types.new state.old (core_module_item (map code_decl_view decls.items)) offset) }
    ensures keeps { Keeps types.old types.new state.old state.new }
{
    check_core_module_limits(&decls, state, types, offset)?;
    add_core_module_to(decls, state, types, offset)
}

/// Reads a core instance.
pub fn read_core_instance(
    instance: Instance,
    state: &mut ComponentState,
    types: &mut TypeAlloc,
    offset: u64,
) -> Result<(), Error>
    requires { IsOpen types.old state.old }
    ensures ok { OnOk result (TakesItem types.old types.new state.old state.new (core_instance_item (core_instance_view instance))) }
    ensures err { IfErr result (LeavesItem types.old types.new state.old (core_instance_item (core_instance_view instance)) offset) }
    ensures keeps { Keeps types.old types.new state.old state.new }
{
    check_instance_limits(&instance, offset)?;
    state.add_core_instance(instance, types, offset)
}

/// Reads an instance.
pub fn read_instance(
    instance: ComponentInstance,
    state: &mut ComponentState,
    types: &mut TypeAlloc,
    offset: u64,
) -> Result<(), Error>
    requires open { IsOpen types.old state.old }
    requires opens { AllMayInstantiate types.old state.old }
    ensures ok { OnOk result (TakesItem types.old types.new state.old state.new (instance_item (instance_view instance))) }
    ensures err { IfErr result (LeavesItem types.old types.new state.old (instance_item (instance_view instance)) offset) }
    ensures keeps { Keeps types.old types.new state.old state.new }
{
    check_component_instance_limits(&instance, offset)?;
    state.add_instance(instance, types, offset)
}

/// Whether a start function takes no more arguments than there may be.
fn check_start_limit(count: usize, offset: u64) -> Result<(), Refusal<'static>>
    ensures ok { OnOk result (IsFree (too_many max_list count)) }
    ensures err { IfErr result (MemoryOrCausedBy (too_many max_list count) offset) }
{
    if count > MAX_LIST {
        let why = Why::new("start function has %1 arguments, at most %2 are allowed");
        let why = why.numbers([count as u64, MAX_LIST as u64, 0]);
        return Err(Error::new(ErrorKind::Limit, offset, why));
    }
    Ok(())
}

/// Reads a start function.
pub fn read_start(
    func_index: u32,
    args: Vec<u32>,
    results: u32,
    state: &mut ComponentState,
    types: &TypeAlloc,
    offset: u64,
) -> Result<(), Error>
    requires { IsOpen types.now state.old }
    ensures ok { OnOk result (TakesItem types.now types.now state.old state.new (start_item func_index args.items results)) }
    ensures err { IfErr result (LeavesItem types.now types.now state.old (start_item func_index args.items results) offset) }
    ensures keeps { Keeps types.now types.now state.old state.new }
{
    check_start_limit(args.len(), offset)?;
    state.add_start(func_index, args.as_slice(), results, types, offset)
}

/// Reads a canonical function.
pub fn read_canon(
    func: CanonicalFunction,
    state: &mut ComponentState,
    types: &mut TypeAlloc,
    offset: u64,
) -> Result<(), Error>
    requires { IsOpen types.old state.old }
    ensures ok { OnOk result (TakesItem types.old types.new state.old state.new (canon_item (canon_view func))) }
    ensures err { IfErr result (LeavesItem types.old types.new state.old (canon_item (canon_view func)) offset) }
    ensures keeps { Keeps types.old types.new state.old state.new }
{
    check_canon_limits(&func, offset)?;
    state.canonical_function(func, types, offset)
}

/// Reads an alias into the innermost state.
pub fn read_alias(
    alias: ComponentAlias,
    components: &mut Vec<ComponentState>,
    types: &mut TypeAlloc,
    offset: u64,
) -> Result<(), Error>
    requires { IsReady types.old components.old.items }
    ensures ok { OnOk result (AcceptsItem types.old types.new components.old.items components.new.items (alias_item alias)) }
    ensures err { IfErr result (RefusesItem types.old types.new components.old.items (alias_item alias) offset) }
{
    check_alias_limits(&alias, offset)?;
    ComponentState::add_alias(components.as_mut_slice(), alias, types, offset)
}
