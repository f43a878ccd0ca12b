// Room for types, core types and components.
ghost use Rattle.std.specs.Prelude.{OnOk, IfErr};
ghost use Rattle.wcv_types.specs.Tree.{is_component};
ghost use Rattle.wcv_lower.specs.Checks.{IsFree, no_room, no_type_room, no_core_type_room};
ghost use Rattle.wcv_lower.specs.Context.{counts};
ghost use Rattle.wcv_spaces.specs.Contents.{context_of};
ghost use Rattle.wcv_spaces.specs.Promises.{MemoryOrCausedBy};

use wcv_core::limits::{MAX_ENTRIES, MAX_INSTANCES};
use wcv_core::{Error, ErrorKind, Refusal, Why};
use wcv_state::{ComponentState, Space};
use wcv_types::TypeAlloc;

/// Whether there is room for one more type, where that is to be looked at.
pub fn check_types(
    limited: bool,
    state: &ComponentState,
    types: &TypeAlloc,
    offset: u64,
) -> Result<(), Refusal<'static>>
    ensures ok { OnOk result (IsFree (no_type_room limited (counts (context_of types.now state.now)))) }
    ensures err { IfErr result (MemoryOrCausedBy (no_type_room limited (counts (context_of types.now state.now))) offset) }
{
    let _ = types;
    let count = state.type_count();
    if limited && count >= MAX_ENTRIES {
        let why = Why::new(
            "no room for one more type or core type: there are %1, at most %2 are allowed",
        );
        let why = why.numbers([count as u64, MAX_ENTRIES as u64, 0]);
        return Err(Error::new(ErrorKind::Limit, offset, why));
    }
    Ok(())
}

/// Whether there is room for so many more core types.
pub fn check_core_types(
    more: usize,
    state: &ComponentState,
    types: &TypeAlloc,
    offset: u64,
) -> Result<(), Refusal<'static>>
    ensures ok { OnOk result (IsFree (no_core_type_room more (counts (context_of types.now state.now)))) }
    ensures err { IfErr result (MemoryOrCausedBy (no_core_type_room more (counts (context_of types.now state.now))) offset) }
{
    let _ = types;
    let count = state.type_count();
    if count > MAX_ENTRIES || more > MAX_ENTRIES - count {
        let why = Why::new(
            "no room for %1 more core types: there are %2 types and core types, at most %3 are allowed",
        );
        let why = why.numbers([more as u64, count as u64, MAX_ENTRIES as u64]);
        return Err(Error::new(ErrorKind::Limit, offset, why));
    }
    Ok(())
}

/// Whether there is room for one more component.
pub fn check_components(
    state: &ComponentState,
    types: &TypeAlloc,
    offset: u64,
) -> Result<(), Refusal<'static>>
    ensures ok { OnOk result (IsFree (no_room (counts (context_of types.now state.now)) is_component)) }
    ensures err { IfErr result (MemoryOrCausedBy (no_room (counts (context_of types.now state.now)) is_component) offset) }
{
    let _ = types;
    let count = state.space_len(Space::Components);
    if count >= MAX_INSTANCES {
        let why = Why::new("no room for one more component: there are %1, at most %2 are allowed");
        let why = why.numbers([count as u64, MAX_INSTANCES as u64, 0]);
        return Err(Error::new(ErrorKind::Limit, offset, why));
    }
    Ok(())
}
