// A module that is made call by call, joins a state, matches itself, and is exported.
ghost use Rattle.std.specs.Prelude.{◌≡◌, IfOk, OnOk};
ghost use Rattle.wcv_decls.specs.Stack.{IsOpen};
ghost use Rattle.wcv_module.specs.Kept.{IsCounted};
ghost use Rattle.wcv_syntax.specs.declared.core_section.TypeRef.TheVariants as reference;

use crate::lists::MEMORY;
use bitflags::Flags;
use std::alloc::Global;
use wcv_core::{Error, OutOfMemory, Text, WasmFeatures};
use wcv_decls::Declare;
use wcv_matching::module_type;
use wcv_module::Module;
use wcv_state::ComponentState;
use wcv_syntax::{ComponentExport, ComponentExternName, ComponentExternalKind, Import, TypeRef};
use wcv_types::{ComponentEntityType, TypeAlloc};

/// A memory under two names.
fn memory(alloc: Global) -> Result<Import, OutOfMemory>
    ensures { IfOk result (λ import. import.ty ≡ reference.Memory MEMORY) }
{
    Ok(Import {
        module: Text::new(alloc, "m")?,
        name: Text::new(alloc, "n")?,
        ty: TypeRef::Memory(MEMORY),
    })
}

/// A module that imports it.
fn importing(alloc: Global, types: &TypeAlloc) -> Result<Module, Error>
    ensures { IfOk result (λ made. IsCounted types.now.core made) }
{
    let import = memory(alloc)?;
    let mut made = Module::new(alloc, WasmFeatures::all());
    match made.add_import(import, types.core_types(), 0) {
        Ok(()) => Ok(made),
        Err(error) => Err(Error::from(error)),
    }
}

// Whether it has one import as a type.
fn has_one_import(made: &Module) -> bool {
    match made.imports_for_module_type(9) {
        Ok(imports) => imports.len() == 1,
        Err(_) => false,
    }
}

/// A module joins a state.
fn join(made: Module, state: &mut ComponentState, types: &mut TypeAlloc) -> Result<(), Error>
    requires open { IsOpen types.old state.old }
    requires counted { IsCounted types.old.core made }
    ensures { OnOk result (IsOpen types.new state.new) }
{
    match state.add_core_module(made, types, 7) {
        Ok(()) => Ok(()),
        Err(error) => Err(error),
    }
}

// The export of the first module.
fn first(alloc: Global) -> Result<ComponentExport, OutOfMemory> {
    Ok(ComponentExport {
        name: ComponentExternName {
            name: Text::new(alloc, "c")?,
            implements: None,
            version_suffix: None,
            external_id: None,
        },
        kind: ComponentExternalKind::Module,
        index: 0,
        ty: None,
    })
}

/// The entity of an export.
fn exported(
    export: &ComponentExport,
    state: &mut ComponentState,
    types: &mut TypeAlloc,
) -> Result<ComponentEntityType, Error>
    requires { IsOpen types.old state.old }
    ensures { OnOk result (IsOpen types.new state.new) }
{
    match state.export_to_entity_type(export, types, 0) {
        Ok(ty) => Ok(ty),
        Err(error) => Err(error),
    }
}

/// The type of what was read is given.
fn is_finished(state: &mut ComponentState, types: &TypeAlloc) -> bool
    requires { IsOpen types.now state.old }
{
    match state.finish(types, 7) {
        Ok(_) => true,
        Err(_) => false,
    }
}

/// The first module is exported, and then the end is read.
fn is_exported(alloc: Global, state: &mut ComponentState, types: &mut TypeAlloc) -> bool
    requires { IsOpen types.old state.old }
{
    match first(alloc) {
        Ok(export) => match exported(&export, state, types) {
            Ok(_) => is_finished(state, types),
            Err(_) => false,
        },
        Err(_) => false,
    }
}

/// Whether the first module matches itself.
fn matches_itself(state: &ComponentState, types: &TypeAlloc) -> bool
    requires { IsOpen types.now state.now }
{
    match state.module_at(0, 7) {
        Ok(id) => match module_type(types, id, id, 7) {
            Ok(()) => true,
            Err(_) => false,
        },
        Err(_) => false,
    }
}

/// A module that imports a memory joins a state, matches itself, and is exported there.
pub fn a_module_is_exported(
    alloc: Global,
    state: &mut ComponentState,
    types: &mut TypeAlloc,
) -> bool
    requires { IsOpen types.old state.old }
{
    match importing(alloc, types) {
        Ok(made) => {
            let counts = has_one_import(&made);
            match join(made, state, types) {
                Ok(()) => {
                    counts && matches_itself(state, types) && is_exported(alloc, state, types)
                }
                Err(_) => false,
            }
        }
        Err(_) => false,
    }
}
