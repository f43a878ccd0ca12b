// Lists of value types, looked up in order.
ghost use Rattle.std.specs.Prelude.{◌≡◌, map, OnOk, IfOk, IfErr};
ghost use Rattle.wcv_lower.specs.Checks.{IsFree};
ghost use Rattle.wcv_lower.specs.Values.{parts_checks};
ghost use Rattle.wcv_spaces.specs.Contents.{context_of, StateStands};
ghost use Rattle.wcv_spaces.specs.Promises.{MemoryOrCausedBy};
ghost use Rattle.wcv_types.specs.Unfold.{value_slots};
ghost use Rattle.wcv_decls.specs.Resolved.{AreSlots, written_field, field_part, written_case, case_part, written_item, item_part};

use crate::values::{resolve, resolve_option};
use std::alloc::Global;
use wcv_core::{Refusal, Text};
use wcv_state::ComponentState;
use wcv_syntax::{ComponentValType as Written, VariantCase};
use wcv_types::{ComponentValType, TypeAlloc};

/// Fields or parameters, whose names are moved.
pub fn resolve_fields(
    alloc: Global,
    fields: Vec<(Text, Written)>,
    state: &ComponentState,
    types: &TypeAlloc,
    offset: u64,
) -> Result<Vec<(Text, ComponentValType)>, Refusal<'static>>
    requires stands { StateStands types.now state.now }
    ensures ok { IfOk result (λ fs. AreSlots types.now (context_of types.now state.now) (map written_field fields.items) (value_slots (map field_part fs.items))) }
    ensures free { OnOk result (IsFree (parts_checks state.now.features (context_of types.now state.now) (map written_field fields.items))) }
    ensures err { IfErr result (MemoryOrCausedBy (parts_checks state.now.features (context_of types.now state.now) (map written_field fields.items)) offset) }
{
    let mut resolved = Vec::with_capacity(alloc, fields.len())?;
    for field in fields {
        let ty = resolve(field.1, state, types, offset)?;
        resolved.push((field.0, ty))?;
    }
    Ok(resolved)
}

/// Cases of a variant, whose names are moved.
pub fn resolve_cases(
    alloc: Global,
    cases: Vec<VariantCase>,
    state: &ComponentState,
    types: &TypeAlloc,
    offset: u64,
) -> Result<Vec<(Text, Option<ComponentValType>)>, Refusal<'static>>
    requires stands { StateStands types.now state.now }
    ensures ok { IfOk result (λ cs. AreSlots types.now (context_of types.now state.now) (map written_case cases.items) (value_slots (map case_part cs.items))) }
    ensures free { OnOk result (IsFree (parts_checks state.now.features (context_of types.now state.now) (map written_case cases.items))) }
    ensures err { IfErr result (MemoryOrCausedBy (parts_checks state.now.features (context_of types.now state.now) (map written_case cases.items)) offset) }
{
    let mut resolved = Vec::with_capacity(alloc, cases.len())?;
    for case in cases {
        let ty = resolve_option(case.ty, state, types, offset)?;
        resolved.push((case.name, ty))?;
    }
    Ok(resolved)
}

/// Items of a tuple.
pub fn resolve_items(
    alloc: Global,
    items: Vec<Written>,
    state: &ComponentState,
    types: &TypeAlloc,
    offset: u64,
) -> Result<Vec<ComponentValType>, Refusal<'static>>
    requires stands { StateStands types.now state.now }
    ensures ok { IfOk result (λ vs. AreSlots types.now (context_of types.now state.now) (map written_item items.items) (value_slots (map item_part vs.items))) }
    ensures free { OnOk result (IsFree (parts_checks state.now.features (context_of types.now state.now) (map written_item items.items))) }
    ensures err { IfErr result (MemoryOrCausedBy (parts_checks state.now.features (context_of types.now state.now) (map written_item items.items)) offset) }
{
    let mut resolved = Vec::with_capacity(alloc, items.len())?;
    for item in items {
        resolved.push(resolve(item, state, types, offset)?)?;
    }
    Ok(resolved)
}
