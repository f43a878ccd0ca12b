// Types that join the innermost of states, and what is read from it then.
ghost use Rattle.std.specs.Prelude.{OnOk};
ghost use Rattle.wcv_decls.specs.Declaring.{AreReady};
ghost use Rattle.wcv_decls.specs.Stack.{IsOpen};
ghost use Rattle.wcv_types.specs.Entities.{EntityStands, SlotStands};
ghost use Rattle.wcv_types.specs.Unfold.{value_slot};

use crate::written::written;
use std::alloc::{AllocError, Global};
use wcv_core::{Error, ValType};
use wcv_decls::Declare;
use wcv_state::{ComponentState, Space};
use wcv_syntax::{ComponentDefinedType, ComponentType};
use wcv_types::{AbiInfo, ComponentEntityType, ComponentValType, ResourceSet, TypeAlloc};
use wcv_walks::FreeVariables;

/// A type joins.
fn add(
    ty: ComponentType,
    states: &mut Vec<ComponentState>,
    types: &mut TypeAlloc,
) -> Result<(), Error>
    requires { AreReady types.old states.old.items }
    ensures { OnOk result (AreReady types.new states.new.items) }
{
    match ComponentState::add_type(states, ty, types, 0, true) {
        Ok(()) => Ok(()),
        Err(error) => Err(error),
    }
}

/// So a resource, which `i64` represents.
fn add_resource(states: &mut Vec<ComponentState>, types: &mut TypeAlloc) -> Result<(), Error>
    requires { AreReady types.old states.old.items }
    ensures { OnOk result (AreReady types.new states.new.items) }
{
    let rep = ValType::I64;
    add(ComponentType::Resource { rep, dtor: None }, states, types)
}

/// Defined types join, behind a resource and its handles.
fn add_all(
    alloc: Global,
    row: &str,
    states: &mut Vec<ComponentState>,
    types: &mut TypeAlloc,
) -> Result<(), Error>
    requires { AreReady types.old states.old.items }
    ensures { OnOk result (AreReady types.new states.new.items) }
{
    add_resource(states, types)?;
    add(
        ComponentType::Defined(ComponentDefinedType::Own(0)),
        states,
        types,
    )?;
    add(
        ComponentType::Defined(ComponentDefinedType::Borrow(0)),
        states,
        types,
    )?;
    for text in row.split(" ; ") {
        let ty = written(alloc, text)?;
        add(ComponentType::Defined(ty), states, types)?;
    }
    Ok(())
}

/// Whether a resource is free in a value of the type.
fn is_free(types: &TypeAlloc, ty: ComponentValType) -> bool
    requires { SlotStands types.now (value_slot ty) }
{
    let mut free = ResourceSet::new(types.allocator());
    let _ = types.free_variables_component_entity(&ComponentEntityType::Value(ty), &mut free);
    free.get_index(0).is_some()
}

// The numbers of a layout, and words for what stands in it.
fn layout_words(alloc: Global, abi: AbiInfo, free: bool) -> Result<String, AllocError> {
    let marks = match (abi.contains_handle, abi.contains_borrow, free) {
        (false, _, _) => "",
        (true, false, false) => " handle",
        (true, false, true) => " handle free",
        (true, true, false) => " handle borrow",
        (true, true, true) => " handle borrow free",
    };
    let pointer = if abi.contains_ptr { " pointer" } else { "" };
    let (size32, align32) = (abi.size32, abi.align32);
    let (size64, align64) = (abi.size64, abi.align64);
    format!(in alloc; "{size32} {align32} {size64} {align64}{pointer}{marks}")
}

/// The index of the last type.
fn last_index(state: &ComponentState) -> u32 {
    let last = state.space_len(Space::Types).saturating_sub(1);
    u32::try_from(last).unwrap_or(0)
}

/// Whether the last type has the layout that is due.
fn is_laid_out(alloc: Global, due: &str, state: &ComponentState, types: &TypeAlloc) -> bool
    requires { IsOpen types.now state.now }
{
    match state.defined_type_at(last_index(state), 0) {
        Ok(id) => {
            let ty = ComponentValType::Ty(id);
            match layout_words(alloc, types.abi_info(&ty), is_free(types, ty)) {
                Ok(words) => words.as_str() == due,
                Err(_) => false,
            }
        }
        Err(_) => false,
    }
}

/// So of the types of a row.
pub fn types_are_laid_out(
    alloc: Global,
    line: &str,
    states: &mut Vec<ComponentState>,
    types: &mut TypeAlloc,
) -> bool
    requires { AreReady types.old states.old.items }
{
    let (row, due) = line.split_once(" => ").unwrap_or((line, ""));
    match add_all(alloc, row, states, types) {
        Ok(()) => is_laid_out(alloc, due, &states[0], types),
        Err(_) => false,
    }
}
