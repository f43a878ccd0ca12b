// What rows ask of core types, of tables and of slots.
ghost use Rattle.std.specs.Prelude.{◌≡◌, ◌++◌, ◌∷◌, [], not, nat_lt, OnOk, IfErr};
ghost use Rattle.wcv_core.specs.CoreFeatures.{needs, val_needs};
ghost use Rattle.wcv_core.specs.CoreForm.{sub_form};
ghost use Rattle.wcv_core.specs.CoreGroups.{total};
ghost use Rattle.wcv_core.specs.CoreWritten.{val_checks};
ghost use Rattle.wcv_core.specs.Refusal.{error_kind, error_offset};
ghost use Rattle.wcv_core.specs.declared.core_types.ValType.{ValType};
ghost use Rattle.wcv_core.specs.declared.error.ErrorKind.TheVariants as kinds;
ghost use Rattle.wcv_matching.specs.ItemTests.{same_val};
ghost use Rattle.wcv_lower.specs.Canons as spec;
ghost use Rattle.wcv_lower.specs.Canons.{slot_type_checks};
ghost use Rattle.wcv_lower.specs.Checks.{IsFree};
ghost use Rattle.wcv_lower.specs.CoreInstances.{test_found};
ghost use Rattle.wcv_lower.specs.CoreItems.{core_entries};
ghost use Rattle.wcv_core.specs.Features.{cm_threading};
ghost use Rattle.wcv_flat.specs.Rows as row;
ghost use Rattle.wcv_spaces.specs.Contents.{StateStands, context_of};
ghost use Rattle.wcv_spaces.specs.Promises.{MemoryOrCausedBy};
ghost use Rattle.wcv_canon.specs.Operands.{asked};

use crate::items::{require, takes_and_gives};
use bitflags::Flags;
use std::fmt;
use wcv_core::{
    AbstractHeap, Error, ErrorKind, HeapType, InternRecGroup, RefType, SubType, TableType, ValType,
    WasmFeatures,
};
use wcv_matching::same_val;
use wcv_state::ComponentState;
use wcv_types::TypeAlloc;

/// The refusal of a core item that is another than is asked for.
fn other<D: fmt::Display>(message: D, offset: u64) -> Error
where
    D: Drop,
    ensures kind { error_kind result ≡ ErrorKind.Signature }
    ensures offset { error_offset result ≡ offset }
{
    Error::told(ErrorKind::Signature, offset, message)
}

/// Whether a core type is one of functions that are spawned.
fn is_spawned(ty: &SubType) -> bool
    ensures { result ≡ spec.is_spawned (sub_form ty.now) }
{
    ty.shared && takes_and_gives(ty, &[ValType::I32], &[])
}

/// Whether the core type at the index is one of functions that are spawned.
pub fn check_spawn_type(
    index: u32,
    state: &ComponentState,
    types: &TypeAlloc,
    offset: u64,
) -> Result<(), Error>
    requires stands { StateStands types.now state.now }
    ensures ok { OnOk result (IsFree (asked types.now state.now (row.spawn_type_at index))) }
    ensures err { IfErr result (MemoryOrCausedBy (asked types.now state.now (row.spawn_type_at index)) offset) }
{
    let id = state.type_id_at(index, offset)?;
    let ty = types.core_types().get(id);
    if is_spawned(ty) {
        return Ok(());
    }
    Err(other(
        format_args!(
            "core type {index} has to be a shared function that takes i32 and gives nothing, and is {ty}"
        ),
        offset,
    ))
}

/// Whether a core type is one of functions that take `i64` and give nothing.
fn takes_64_bits(ty: &SubType) -> bool
    ensures { result ≡ spec.takes_64_bits (sub_form ty.now) }
{
    takes_and_gives(ty, &[ValType::I64], &[])
}

/// Whether a core type is one of functions that start a thread.
fn is_start(ty: &SubType, features: &WasmFeatures) -> bool
    ensures { result ≡ spec.is_start features.now (sub_form ty.now) }
{
    takes_and_gives(ty, &[ValType::I32], &[])
        || takes_64_bits(ty) && features.contains(WasmFeatures::CM64)
}

/// Whether the core type at the index is one of functions that start a thread.
pub fn check_start_type(
    index: u32,
    state: &ComponentState,
    types: &TypeAlloc,
    offset: u64,
) -> Result<(), Error>
    requires stands { StateStands types.now state.now }
    ensures ok { OnOk result (IsFree (asked types.now state.now (row.start_type_at index))) }
    ensures err { IfErr result (MemoryOrCausedBy (asked types.now state.now (row.start_type_at index)) offset) }
{
    let id = state.type_id_at(index, offset)?;
    let ty = types.core_types().get(id);
    if is_start(ty, state.features()) {
        return Ok(());
    }
    let feature = WasmFeatures::CM64.name();
    Err(other(
        format_args!(
            "core type {index} has to be a function that takes i32, or i64 with the feature `{feature}`, and gives nothing, and is {ty}"
        ),
        offset,
    ))
}

/// Whether a table is one of references to functions, or to none, that are shared or not.
fn is_func_table(shared: bool, ty: &TableType) -> bool
    ensures { result ≡ spec.is_func_table shared ty.now }
{
    let element = RefType {
        nullable: true,
        shared,
        heap: HeapType::Abstract(AbstractHeap::Func),
    };
    ty.shared == shared && same_val(ValType::Ref(ty.element_type), ValType::Ref(element))
}

/// Whether a table is one of functions that are spawned.
fn is_spawn_table(ty: &TableType) -> bool
    ensures { result ≡ spec.is_spawn_table ty.now }
{
    is_func_table(true, ty) && !ty.table64
}

/// Whether the table at the index is one of functions that are spawned.
pub fn check_spawn_table(
    index: u32,
    state: &ComponentState,
    types: &TypeAlloc,
    offset: u64,
) -> Result<(), Error>
    ensures ok { OnOk result (IsFree (asked types.now state.now (row.spawn_table_at index))) }
    ensures err { IfErr result (MemoryOrCausedBy (asked types.now state.now (row.spawn_table_at index)) offset) }
{
    let _ = types;
    let ty = state.table_at(index, offset)?;
    if is_spawn_table(&ty) {
        return Ok(());
    }
    Err(other(
        format_args!(
            "table {index} has to be a shared one of 32 bits, of (ref null (shared func)), and is {ty}"
        ),
        offset,
    ))
}

/// Whether the table at the index is one of functions that start a thread.
pub fn check_start_table(
    index: u32,
    state: &ComponentState,
    types: &TypeAlloc,
    offset: u64,
) -> Result<(), Error>
    ensures ok { OnOk result (IsFree (asked types.now state.now (row.start_table_at index))) }
    ensures err { IfErr result (MemoryOrCausedBy (asked types.now state.now (row.start_table_at index)) offset) }
{
    let _ = types;
    let ty = state.table_at(index, offset)?;
    if is_func_table(false, &ty) {
        return require(
            state.features(),
            WasmFeatures::CM64,
            ty.table64,
            "a table of 64 bits",
            offset,
        );
    }
    Err(other(
        format_args!(
            "table {index} has to be one of (ref null func) that is not shared, and is {ty}"
        ),
        offset,
    ))
}

/// Whether a slot may have the type.
fn check_slot_type(
    ty: ValType,
    state: &ComponentState,
    types: &TypeAlloc,
    offset: u64,
) -> Result<(), Error>
    ensures ok { OnOk result (IsFree (val_checks (total types.now.core) (core_entries (context_of types.now state.now)) 0 ty ++ (val_needs state.now.features ty ++ slot_type_checks state.now.features ty))) }
    ensures err { IfErr result (MemoryOrCausedBy (val_checks (total types.now.core) (core_entries (context_of types.now state.now)) 0 ty ++ (val_needs state.now.features ty ++ slot_type_checks state.now.features ty)) offset) }
{
    let _ = types;
    match ty {
        ValType::I32 => Ok(()),
        ValType::I64 => require(
            state.features(),
            WasmFeatures::CM64,
            true,
            "a slot of the type i64",
            offset,
        ),
        _ => Err(Error::told(
            ErrorKind::Context,
            offset,
            format_args!("a slot has the type i32 or i64, not {ty}"),
        )),
    }
}

/// Whether the slots of the component have the type, where that is said.
fn check_said(said: Option<ValType>, ty: ValType, offset: u64) -> Result<(), Error>
    ensures ok { OnOk result (IsFree ((kinds.Context, test_found (λ (w : ValType). not (same_val w ty)) said) ∷ [])) }
    ensures err { IfErr result (MemoryOrCausedBy ((kinds.Context, test_found (λ (w : ValType). not (same_val w ty)) said) ∷ []) offset) }
{
    match said {
        Some(said) if !same_val(said, ty) => Err(Error::told(
            ErrorKind::Context,
            offset,
            format_args!("the slots of this component have the type {said}, not {ty}"),
        )),
        _ => Ok(()),
    }
}

/// Whether there is a slot of that number.
fn check_slot_number(slot: u32, features: &WasmFeatures, offset: u64) -> Result<(), Error>
    ensures ok { OnOk result (IsFree (needs features.now cm_threading (nat_lt 0 slot) ++ (kinds.Context, nat_lt 1 slot) ∷ [])) }
    ensures err { IfErr result (MemoryOrCausedBy (needs features.now cm_threading (nat_lt 0 slot) ++ (kinds.Context, nat_lt 1 slot) ∷ []) offset) }
{
    if slot > 1 {
        return Err(Error::told(
            ErrorKind::Context,
            offset,
            format_args!("there is no slot {slot}: slots are 0 and 1"),
        ));
    }
    require(
        features,
        WasmFeatures::CM_THREADING,
        slot > 0,
        "slot 1",
        offset,
    )
}

/// Whether the slot is there with the type.
pub fn check_slot(
    ty: ValType,
    slot: u32,
    state: &ComponentState,
    types: &TypeAlloc,
    offset: u64,
) -> Result<(), Error>
    ensures ok { OnOk result (IsFree (asked types.now state.now (row.slot_of ty slot))) }
    ensures err { IfErr result (MemoryOrCausedBy (asked types.now state.now (row.slot_of ty slot)) offset) }
{
    check_slot_type(ty, state, types, offset)?;
    check_said(state.context_type(), ty, offset)?;
    check_slot_number(slot, state.features(), offset)
}
