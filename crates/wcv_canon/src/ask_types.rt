// What rows ask of types: resources, streams, futures, functions and results.
ghost use Rattle.std.specs.Prelude.{◌≡◌, not, Some, OnOk, IfOk, IfErr};
ghost use Rattle.wcv_core.specs.Refusal.{error_kind, error_offset};
ghost use Rattle.wcv_syntax.specs.declared.component_type.ComponentValType.TheVariants as written;
ghost use Rattle.wcv_types.specs.Standing.{Stands};
ghost use Rattle.wcv_types.specs.Unfold.{any_part, tree_at};
ghost use Rattle.wcv_lower.specs.Canons as spec;
ghost use Rattle.wcv_lower.specs.Canons.{func_at};
ghost use Rattle.wcv_lower.specs.Checks.{IsFree, missing};
ghost use Rattle.wcv_lower.specs.CoreInstances.{test_found};
ghost use Rattle.wcv_lower.specs.Outlines.{outline, is_async_func};
ghost use Rattle.wcv_lower.specs.Trees.{Type_tree};
ghost use Rattle.wcv_lower.specs.Values.{type_at};
ghost use Rattle.wcv_flat.specs.Rows as row;
ghost use Rattle.wcv_spaces.specs.Contents.{StateStands, context_of};
ghost use Rattle.wcv_spaces.specs.Promises.{CausedBy, MemoryOrCausedBy};
ghost use Rattle.wcv_flat.specs.CodeRows.{carrier_sort, needed};
ghost use Rattle.wcv_canon.specs.Operands.{asked};
ghost use Rattle.wcv_canon.specs.Carriers as carriers;
ghost use Rattle.wcv_canon.specs.Carriers.{Carries, Shows};

use crate::items::require;
use crate::lists::stands;
use crate::options::refused;
use wcv_core::{Error, ErrorKind, PrimitiveValType, Refusal, WasmFeatures, Why};
use wcv_flat::{CarrierSort, Needed, OptionName};
use wcv_state::ComponentState;
use wcv_syntax::{CanonicalOption, ComponentValType as Written};
use wcv_types::{ComponentAnyTypeId, ComponentDefinedType, ComponentValType, TypeAlloc};

/// A stream or a future, with what it carries, or any other type.
#[derive(Clone, Copy)]
pub enum Carrier {
    Stream(Option<ComponentValType>),
    Future(Option<ComponentValType>),
    Other,
}

impl Carrier {
    fn is_stream(self) -> bool
        ensures { result ≡ carriers.is_of_stream self }
    {
        matches!(self, Carrier::Stream(_))
    }

    fn is_future(self) -> bool
        ensures { result ≡ carriers.is_of_future self }
    {
        matches!(self, Carrier::Future(_))
    }

    /// What it carries, where it is a stream, or a future.
    fn carried(self, sort: CarrierSort) -> Option<ComponentValType>
        ensures { result ≡ carriers.value_of self (carrier_sort sort) }
    {
        match (sort, self) {
            (CarrierSort::Stream, Carrier::Stream(carried)) => carried,
            (CarrierSort::Future, Carrier::Future(carried)) => carried,
            _ => None,
        }
    }
}

/// Whether a defined type is a stream or a future, and of what.
fn carrier_of(ty: &ComponentDefinedType) -> Carrier
    ensures { result ≡ carriers.carrier_of ty.now }
{
    match ty {
        ComponentDefinedType::Stream(carried) => Carrier::Stream(*carried),
        ComponentDefinedType::Future(carried) => Carrier::Future(*carried),
        _ => Carrier::Other,
    }
}

/// Whether a type is a stream or a future, and of what.
#[tactic(auto, using(crate::proofs::Carriers::other_shows))]
fn carrier_of_type(id: ComponentAnyTypeId, types: &TypeAlloc) -> Carrier
    requires stands { Stands types.now (any_part id) }
    ensures { Shows types.now (tree_at types.now (any_part id)) result }
{
    match id {
        ComponentAnyTypeId::Defined(id) => carrier_of(types.get(id)),
        _ => Carrier::Other,
    }
}

/// Whether the type at the index is a stream or a future, and of what.
fn carrier_at(
    index: u32,
    state: &ComponentState,
    types: &TypeAlloc,
    offset: u64,
) -> Result<Carrier, Refusal<'static>>
    requires stands { StateStands types.now state.now }
    ensures ok { IfOk result (Carries types.now (context_of types.now state.now) index) }
    ensures err { IfErr result (CausedBy (missing (type_at (context_of types.now state.now) index)) offset) }
{
    let id = state.component_type_at(index, offset)?;
    Ok(carrier_of_type(id, types))
}

/// The refusal of a type of another sort, by words in which its index stands.
fn wrong_sort(words: &'static str, index: u32, offset: u64) -> Error
    ensures kind { error_kind result ≡ ErrorKind.WrongSort }
    ensures offset { error_offset result ≡ offset }
{
    let why = Why::new(words).numbers([index as u64, 0, 0]);
    Error::from(Error::new(ErrorKind::WrongSort, offset, why))
}

/// Whether a stream stands at the index.
pub fn check_stream(
    index: u32,
    state: &ComponentState,
    types: &TypeAlloc,
    offset: u64,
) -> Result<(), Error>
    requires stands { StateStands types.now state.now }
    ensures ok { OnOk result (IsFree (asked types.now state.now (row.stream_at index))) }
    ensures err { IfErr result (MemoryOrCausedBy (asked types.now state.now (row.stream_at index)) offset) }
{
    let found = carrier_at(index, state, types, offset)?;
    if found.is_stream() {
        return Ok(());
    }
    Err(wrong_sort("type index %1 is not of a stream", index, offset))
}

/// Whether a future stands at the index.
pub fn check_future(
    index: u32,
    state: &ComponentState,
    types: &TypeAlloc,
    offset: u64,
) -> Result<(), Error>
    requires stands { StateStands types.now state.now }
    ensures ok { OnOk result (IsFree (asked types.now state.now (row.future_at index))) }
    ensures err { IfErr result (MemoryOrCausedBy (asked types.now state.now (row.future_at index)) offset) }
{
    let found = carrier_at(index, state, types, offset)?;
    if found.is_future() {
        return Ok(());
    }
    Err(wrong_sort("type index %1 is not of a future", index, offset))
}

/// What the stream, or the future, at the index carries, if one stands there.
fn payload_at(
    sort: CarrierSort,
    index: u32,
    state: &ComponentState,
    types: &TypeAlloc,
    offset: u64,
) -> Option<ComponentValType>
    requires stands { StateStands types.now state.now }
    ensures { carriers.IsPayload types.now (context_of types.now state.now) index (carrier_sort sort) result }
{
    match carrier_at(index, state, types, offset) {
        Ok(found) => found.carried(sort),
        Err(_) => None,
    }
}

/// Whether an option has to stand.
pub fn is_needed(when: Needed, state: &ComponentState, types: &TypeAlloc, offset: u64) -> bool
    requires stands { StateStands types.now state.now }
    ensures { result ≡ spec.is_needed (context_of types.now state.now) (needed when) }
{
    match when {
        Needed::InAnyCase => true,
        Needed::WithPayload(sort, index) => {
            payload_at(sort, index, state, types, offset).is_some()
        }
        Needed::WithPointer(sort, index) => match payload_at(sort, index, state, types, offset) {
            Some(ty) => types.abi_info(&ty).contains_ptr,
            None => false,
        },
    }
}

/// Whether a function that is not async stands at the index.
fn is_sync_at(index: u32, state: &ComponentState, types: &TypeAlloc, offset: u64) -> bool
    requires stands { StateStands types.now state.now }
    ensures { result ≡ test_found (λ (x : Type_tree). not (is_async_func (outline x))) (func_at (context_of types.now state.now) index) }
{
    match state.function_at(index, offset) {
        Ok(id) => !types.get(id).async_,
        Err(_) => false,
    }
}

/// Whether the function at the index is async, where the options have `async`.
pub fn check_async_func(
    index: u32,
    options: &[CanonicalOption],
    state: &ComponentState,
    types: &TypeAlloc,
    offset: u64,
) -> Result<(), Error>
    requires stands { StateStands types.now state.now }
    ensures ok { OnOk result (IsFree (asked types.now state.now (row.async_func index options.now))) }
    ensures err { IfErr result (MemoryOrCausedBy (asked types.now state.now (row.async_func index options.now)) offset) }
{
    if stands(OptionName::Async, options) && is_sync_at(index, state, types, offset) {
        return Err(refused(
            "option `%w` may stand for an async function alone, and this one is not",
            "async",
            offset,
        ));
    }
    Ok(())
}

/// Whether a resource stands at the index.
pub fn check_resource(
    index: u32,
    state: &ComponentState,
    types: &TypeAlloc,
    offset: u64,
) -> Result<(), Error>
    requires stands { StateStands types.now state.now }
    ensures ok { OnOk result (IsFree (asked types.now state.now (row.resource_at index))) }
    ensures err { IfErr result (MemoryOrCausedBy (asked types.now state.now (row.resource_at index)) offset) }
{
    let _ = types;
    state.resource_at(index, offset)?;
    Ok(())
}

/// Whether a resource stands at the index that the component defines, with a representation.
pub fn check_local_resource(
    index: u32,
    state: &ComponentState,
    types: &TypeAlloc,
    offset: u64,
) -> Result<(), Error>
    requires stands { StateStands types.now state.now }
    ensures ok { OnOk result (IsFree (asked types.now state.now (row.local_resource_at index))) }
    ensures err { IfErr result (MemoryOrCausedBy (asked types.now state.now (row.local_resource_at index)) offset) }
{
    let _ = types;
    state.local_rep(index, offset)?;
    Ok(())
}

/// The refusal of a borrowed handle in the result of a task.
fn borrows(index: u32, offset: u64) -> Error
    ensures kind { error_kind result ≡ ErrorKind.Borrow }
    ensures offset { error_offset result ≡ offset }
{
    let why = Why::new("type index %1 holds a borrowed handle, which no task may return");
    let why = why.numbers([index as u64, 0, 0]);
    Error::from(Error::new(ErrorKind::Borrow, offset, why))
}

/// Whether no borrowed handle stands in the type at the index, which is a value type.
fn check_result_type(
    index: u32,
    state: &ComponentState,
    types: &TypeAlloc,
    offset: u64,
) -> Result<(), Error>
    requires stands { StateStands types.now state.now }
    ensures ok { OnOk result (IsFree (asked types.now state.now (row.no_borrow (Some (written.Ty index))))) }
    ensures err { IfErr result (MemoryOrCausedBy (asked types.now state.now (row.no_borrow (Some (written.Ty index)))) offset) }
{
    let id = state.defined_type_at(index, offset)?;
    let info = types.abi_info(&ComponentValType::Ty(id));
    if info.contains_borrow {
        return Err(borrows(index, offset));
    }
    Ok(())
}

/// Whether no borrowed handle stands in the result of a task.
pub fn check_result(
    ty: Option<Written>,
    state: &ComponentState,
    types: &TypeAlloc,
    offset: u64,
) -> Result<(), Error>
    requires stands { StateStands types.now state.now }
    ensures ok { OnOk result (IsFree (asked types.now state.now (row.no_borrow ty))) }
    ensures err { IfErr result (MemoryOrCausedBy (asked types.now state.now (row.no_borrow ty)) offset) }
{
    match ty {
        Some(Written::Ty(index)) => check_result_type(index, state, types, offset),
        Some(Written::Primitive(PrimitiveValType::ErrorContext)) => require(
            state.features(),
            WasmFeatures::CM_ERROR_CONTEXT,
            true,
            "`error-context`",
            offset,
        ),
        _ => Ok(()),
    }
}
