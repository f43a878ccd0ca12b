// The nodes of defined types.
ghost use Rattle.std.specs.Prelude.{◌≡◌, true, None, OnOk, IfOk, IfErr};
ghost use Rattle.wcv_syntax.specs.Model.{simple};
ghost use Rattle.wcv_syntax.specs.View.{defined_view};
ghost use Rattle.wcv_syntax.specs.declared.component_type.ComponentDefinedType.TheVariants as written;
ghost use Rattle.wcv_lower.specs.Checks.{IsFree};
ghost use Rattle.wcv_lower.specs.Defined.{handle_index};
ghost use Rattle.wcv_spaces.specs.Contents.{context_of, StateStands};
ghost use Rattle.wcv_spaces.specs.Promises.{MemoryOrCausedBy};
ghost use Rattle.wcv_decls.specs.Resolved.{IsShape, IsValueShape, holds_no_list, resolve_checks};

use crate::content::{check_borrow, check_element, check_key, check_map_value};
use crate::lists::{resolve_cases, resolve_fields, resolve_items};
use crate::values::{resolve, resolve_option};
use std::alloc::Global;
use wcv_core::Refusal;
use wcv_state::ComponentState;
use wcv_syntax::{ComponentDefinedType as Written, ComponentValType as WrittenValue};
use wcv_types::{ComponentDefinedType, TypeAlloc};

/// A map, from the types of its keys and its values.
fn resolve_map(
    key: WrittenValue,
    value: WrittenValue,
    state: &ComponentState,
    types: &TypeAlloc,
    offset: u64,
) -> Result<ComponentDefinedType, Refusal<'static>>
    requires stands { StateStands types.now state.now }
    ensures ok { IfOk result (IsValueShape types.now (context_of types.now state.now) (simple (written.Map key value))) }
    ensures free { OnOk result (IsFree (resolve_checks state.now.features (context_of types.now state.now) (simple (written.Map key value)))) }
    ensures err { IfErr result (MemoryOrCausedBy (resolve_checks state.now.features (context_of types.now state.now) (simple (written.Map key value))) offset) }
{
    let key = resolve(key, state, types, offset)?;
    let value = resolve(value, state, types, offset)?;
    check_key(&key, types, offset)?;
    check_map_value(&value, types, offset)?;
    Ok(ComponentDefinedType::Map(key, value))
}

/// A future, from what it gives.
fn resolve_future(
    payload: Option<WrittenValue>,
    state: &ComponentState,
    types: &TypeAlloc,
    offset: u64,
) -> Result<ComponentDefinedType, Refusal<'static>>
    requires stands { StateStands types.now state.now }
    ensures ok { IfOk result (IsValueShape types.now (context_of types.now state.now) (simple (written.Future payload))) }
    ensures free { OnOk result (IsFree (resolve_checks state.now.features (context_of types.now state.now) (simple (written.Future payload)))) }
    ensures err { IfErr result (MemoryOrCausedBy (resolve_checks state.now.features (context_of types.now state.now) (simple (written.Future payload))) offset) }
{
    let payload = resolve_option(payload, state, types, offset)?;
    check_borrow(&payload, types, "the payload of a future", offset)?;
    Ok(ComponentDefinedType::Future(payload))
}

/// A stream, from its elements.
fn resolve_stream(
    payload: Option<WrittenValue>,
    state: &ComponentState,
    types: &TypeAlloc,
    offset: u64,
) -> Result<ComponentDefinedType, Refusal<'static>>
    requires stands { StateStands types.now state.now }
    ensures ok { IfOk result (IsValueShape types.now (context_of types.now state.now) (simple (written.Stream payload))) }
    ensures free { OnOk result (IsFree (resolve_checks state.now.features (context_of types.now state.now) (simple (written.Stream payload)))) }
    ensures err { IfErr result (MemoryOrCausedBy (resolve_checks state.now.features (context_of types.now state.now) (simple (written.Stream payload))) offset) }
{
    let payload = resolve_option(payload, state, types, offset)?;
    check_borrow(&payload, types, "the elements of a stream", offset)?;
    check_element(&payload, types, offset)?;
    Ok(ComponentDefinedType::Stream(payload))
}

/// A result, from its two payloads.
#[tactic(auto, using(crate::proofs::Shapes::two_slots, crate::proofs::Shapes::two_free, crate::proofs::Shapes::first_caused, crate::proofs::Shapes::second_caused, crate::proofs::Shapes::looked_up))]
fn resolve_result(
    ok: Option<WrittenValue>,
    err: Option<WrittenValue>,
    state: &ComponentState,
    types: &TypeAlloc,
    offset: u64,
) -> Result<ComponentDefinedType, Refusal<'static>>
    requires stands { StateStands types.now state.now }
    ensures ok { IfOk result (IsValueShape types.now (context_of types.now state.now) (simple (written.Result ok err))) }
    ensures free { OnOk result (IsFree (resolve_checks state.now.features (context_of types.now state.now) (simple (written.Result ok err)))) }
    ensures err { IfErr result (MemoryOrCausedBy (resolve_checks state.now.features (context_of types.now state.now) (simple (written.Result ok err))) offset) }
{
    let ok = resolve_option(ok, state, types, offset)?;
    let err = resolve_option(err, state, types, offset)?;
    Ok(ComponentDefinedType::Result { ok, err })
}

/// A type without a list in it.
#[tactic(auto, using(crate::proofs::Shapes::one_slot, crate::proofs::Shapes::one_free, crate::proofs::Shapes::one_caused, crate::proofs::Shapes::looked_up))]
fn resolve_simple(
    ty: Written,
    state: &ComponentState,
    types: &TypeAlloc,
    offset: u64,
) -> Result<ComponentDefinedType, Refusal<'static>>
    requires stands { StateStands types.now state.now }
    requires values { handle_index (simple ty) ≡ None }
    requires simple { holds_no_list ty ≡ true }
    ensures ok { IfOk result (IsValueShape types.now (context_of types.now state.now) (simple ty)) }
    ensures free { OnOk result (IsFree (resolve_checks state.now.features (context_of types.now state.now) (simple ty))) }
    ensures err { IfErr result (MemoryOrCausedBy (resolve_checks state.now.features (context_of types.now state.now) (simple ty)) offset) }
{
    match ty {
        Written::Primitive(primitive) => Ok(ComponentDefinedType::Primitive(primitive)),
        Written::List(ty) => Ok(ComponentDefinedType::List(resolve(ty, state, types, offset)?)),
        Written::Option(ty) => Ok(ComponentDefinedType::Option(resolve(ty, state, types, offset)?)),
        Written::FixedLengthList(ty, len) => Ok(ComponentDefinedType::FixedLengthList(
            resolve(ty, state, types, offset)?,
            len,
        )),
        Written::Map(key, value) => resolve_map(key, value, state, types, offset),
        Written::Result { ok, err } => resolve_result(ok, err, state, types, offset),
        Written::Future(payload) => resolve_future(payload, state, types, offset),
        Written::Stream(payload) => resolve_stream(payload, state, types, offset),
        _ => unreachable!(),
    }
}

/// The node of a defined type that is made of value types.
fn resolve_values(
    alloc: Global,
    ty: Written,
    state: &ComponentState,
    types: &TypeAlloc,
    offset: u64,
) -> Result<ComponentDefinedType, Refusal<'static>>
    requires stands { StateStands types.now state.now }
    requires values { handle_index (defined_view ty) ≡ None }
    ensures ok { IfOk result (IsValueShape types.now (context_of types.now state.now) (defined_view ty)) }
    ensures free { OnOk result (IsFree (resolve_checks state.now.features (context_of types.now state.now) (defined_view ty))) }
    ensures err { IfErr result (MemoryOrCausedBy (resolve_checks state.now.features (context_of types.now state.now) (defined_view ty)) offset) }
{
    match ty {
        Written::Record(fields) => Ok(ComponentDefinedType::Record(resolve_fields(
            alloc, fields, state, types, offset,
        )?)),
        Written::Variant(cases) => Ok(ComponentDefinedType::Variant(resolve_cases(
            alloc, cases, state, types, offset,
        )?)),
        Written::Tuple(items) => Ok(ComponentDefinedType::Tuple(resolve_items(
            alloc, items, state, types, offset,
        )?)),
        Written::Flags(names) => Ok(ComponentDefinedType::Flags(names)),
        Written::Enum(names) => Ok(ComponentDefinedType::Enum(names)),
        _ => resolve_simple(ty, state, types, offset),
    }
}

/// The node of a defined type.
#[tactic(auto, using(crate::proofs::Handles::value_shape))]
pub fn resolve_defined(
    alloc: Global,
    ty: Written,
    state: &ComponentState,
    types: &TypeAlloc,
    offset: u64,
) -> Result<ComponentDefinedType, Refusal<'static>>
    requires stands { StateStands types.now state.now }
    ensures ok { IfOk result (IsShape types.now (context_of types.now state.now) (defined_view ty)) }
    ensures free { OnOk result (IsFree (resolve_checks state.now.features (context_of types.now state.now) (defined_view ty))) }
    ensures err { IfErr result (MemoryOrCausedBy (resolve_checks state.now.features (context_of types.now state.now) (defined_view ty)) offset) }
{
    match ty {
        Written::Own(index) => match state.resource_at(index, offset) {
            Ok(id) => Ok(ComponentDefinedType::Own(id)),
            Err(error) => Err(error),
        },
        Written::Borrow(index) => match state.resource_at(index, offset) {
            Ok(id) => Ok(ComponentDefinedType::Borrow(id)),
            Err(error) => Err(error),
        },
        _ => match resolve_values(alloc, ty, state, types, offset) {
            Ok(shape) => Ok(shape),
            Err(error) => Err(error),
        },
    }
}
