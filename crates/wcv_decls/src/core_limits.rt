// Limits that the adding of core types, core modules, core instances and aliases leaves to its caller.
ghost use Rattle.wcv_core.specs.Limits.{max_instances};
ghost use Rattle.std.specs.Prelude.{length, map, ◌++◌, OnOk, IfErr};
ghost use Rattle.wcv_syntax.specs.View.{code_decl_view, core_instance_view, core_type_view};
ghost use Rattle.wcv_lower.specs.Aliases.{alias_left};
ghost use Rattle.wcv_lower.specs.Checks.{IsFree, full, each_too_long};
ghost use Rattle.wcv_lower.specs.Context.{core_modules};
ghost use Rattle.wcv_lower.specs.CoreInstances.{arg_names, listed_names, core_instance_left};
ghost use Rattle.wcv_lower.specs.CoreItems.{core_type_left, core_module_left};
ghost use Rattle.wcv_spaces.specs.Contents.{context_of};
ghost use Rattle.wcv_spaces.specs.Promises.{MemoryOrCausedBy};

use crate::limits::check_count;
use crate::name_texts::check_text;
use wcv_core::limits::{MAX_INSTANCES, MAX_LIST};
use wcv_core::{Error, ErrorKind, Refusal, Why};
use wcv_module::{check_group, check_module_limits};
use wcv_state::{ComponentState, Space};
use wcv_syntax::{ComponentAlias, CoreType, Export, Instance, InstantiationArg, ModuleDecl};
use wcv_types::TypeAlloc;

/// Whether the lists and the texts of a core type item keep their limits.
pub fn check_core_limits(ty: &CoreType, offset: u64) -> Result<(), Refusal<'static>>
    ensures ok { OnOk result (IsFree (core_type_left (core_type_view ty.now))) }
    ensures err { IfErr result (MemoryOrCausedBy (core_type_left (core_type_view ty.now)) offset) }
{
    match ty {
        CoreType::Rec(rec) => check_group(rec, offset),
        CoreType::Module(decls) => check_module_limits(decls.as_slice(), offset),
    }
}

/// Whether there is room for one more core module.
fn check_modules(
    state: &ComponentState,
    types: &TypeAlloc,
    offset: u64,
) -> Result<(), Refusal<'static>>
    ensures ok { OnOk result (IsFree (full max_instances (length ((context_of types.now state.now).core core_modules)))) }
    ensures err { IfErr result (MemoryOrCausedBy (full max_instances (length ((context_of types.now state.now).core core_modules))) offset) }
{
    let _ = types;
    let count = state.space_len(Space::CoreModules);
    if count >= MAX_INSTANCES {
        let why = Why::new(
            "no room for one more core module: there are %1, at most %2 are allowed",
        );
        let why = why.numbers([count as u64, MAX_INSTANCES as u64, 0]);
        return Err(Error::new(ErrorKind::Limit, offset, why));
    }
    Ok(())
}

/// So of a core module, with the number of core modules.
#[tactic(auto, using(wcv_core::proofs::Closing::caused_left, wcv_core::proofs::Closing::caused_right, wcv_core::proofs::Causes::free_both))]
pub fn check_core_module_limits(
    decls: &[ModuleDecl],
    state: &ComponentState,
    types: &TypeAlloc,
    offset: u64,
) -> Result<(), Refusal<'static>>
    ensures ok { OnOk result (IsFree (core_module_left (context_of types.now state.now) (map code_decl_view decls.now))) }
    ensures err { IfErr result (MemoryOrCausedBy (core_module_left (context_of types.now state.now) (map code_decl_view decls.now)) offset) }
{
    check_module_limits(decls, offset)?;
    check_modules(state, types, offset)
}

/// Whether the names of the arguments of a core instance are not too long.
fn check_arg_names(args: &[InstantiationArg], offset: u64) -> Result<(), Refusal<'_>>
    ensures ok { OnOk result (IsFree (each_too_long (arg_names args.now))) }
    ensures err { IfErr result (MemoryOrCausedBy (each_too_long (arg_names args.now)) offset) }
{
    for k in 0..args.len() {
        check_text(&args[k].name, "argument name", offset)?;
    }
    Ok(())
}

/// So of those that it exports.
fn check_listed_names(exports: &[Export], offset: u64) -> Result<(), Refusal<'_>>
    ensures ok { OnOk result (IsFree (each_too_long (listed_names exports.now))) }
    ensures err { IfErr result (MemoryOrCausedBy (each_too_long (listed_names exports.now)) offset) }
{
    for k in 0..exports.len() {
        check_text(&exports[k].name, "export name", offset)?;
    }
    Ok(())
}

/// Whether the list and the names of a core instance keep their limits.
#[tactic(auto, using(wcv_core::proofs::Closing::caused_left, wcv_core::proofs::Closing::caused_right, wcv_core::proofs::Causes::free_both))]
pub fn check_instance_limits(instance: &Instance, offset: u64) -> Result<(), Refusal<'_>>
    ensures ok { OnOk result (IsFree (core_instance_left (core_instance_view instance.now))) }
    ensures err { IfErr result (MemoryOrCausedBy (core_instance_left (core_instance_view instance.now)) offset) }
{
    match instance {
        Instance::Instantiate { args, .. } => {
            check_count(args.len(), MAX_LIST, "core instance", "argument", offset)?;
            check_arg_names(args.as_slice(), offset)
        }
        Instance::FromExports(exports) => {
            check_count(exports.len(), MAX_LIST, "core instance", "export", offset)?;
            check_listed_names(exports.as_slice(), offset)
        }
    }
}

/// Whether the name in an alias keeps its limit.
pub fn check_alias_limits(alias: &ComponentAlias, offset: u64) -> Result<(), Refusal<'_>>
    ensures ok { OnOk result (IsFree (alias_left alias.now)) }
    ensures err { IfErr result (MemoryOrCausedBy (alias_left alias.now) offset) }
{
    match alias {
        ComponentAlias::InstanceExport { name, .. }
        | ComponentAlias::CoreInstanceExport { name, .. } => {
            check_text(name, "export name", offset)
        }
        ComponentAlias::Outer { .. } => Ok(()),
    }
}
