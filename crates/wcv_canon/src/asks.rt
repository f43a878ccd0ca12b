// What a row asks of the operands of a canonical function.
ghost use Rattle.std.specs.Prelude.{◌≡◌, ◌∷◌, [], false, List, map, is_some, OnOk, IfErr};
ghost use Rattle.std.specs.List.{list_any};
ghost use Rattle.wcv_core.specs.Checks.{all_checks};
ghost use Rattle.wcv_core.specs.declared.error.ErrorKind.TheVariants as kinds;
ghost use Rattle.wcv_syntax.specs.View.{canon_view};
ghost use Rattle.wcv_flat.specs.CodeRows.{name_of, barred, needed, ask_of, is_lift};
ghost use Rattle.wcv_lower.specs.CanonOptions as spec;
ghost use Rattle.wcv_lower.specs.Checks.{IsFree};
ghost use Rattle.wcv_lower.specs.Trees.{Tree_context};
ghost use Rattle.wcv_spaces.specs.Contents.{StateStands, stack_of};
ghost use Rattle.wcv_spaces.specs.Promises.{MemoryOrCausedBy};
ghost use Rattle.wcv_flat.specs.Rows as row;
ghost use Rattle.wcv_canon.specs.Operands.{asked, asked_option, operand_checks};

use crate::ask_core::{
    check_slot, check_spawn_table, check_spawn_type, check_start_table, check_start_type,
};
use crate::ask_types::{
    check_async_func, check_future, check_local_resource, check_resource, check_result,
    check_stream, is_needed,
};
use crate::items::{check_memory, require};
use crate::lists::{listed, name_word, stands};
use crate::options::refused;
use wcv_core::{Error, WasmFeatures};
use wcv_flat::{Ask, Barred, Needed, OptionName, row_of};
use wcv_state::ComponentState;
use wcv_syntax::{CanonicalFunction, CanonicalOption};
use wcv_types::TypeAlloc;

/// The first of these names under which an option stands.
fn first_standing(names: &[OptionName], options: &[CanonicalOption]) -> Option<OptionName>
    ensures { is_some result ≡ list_any (λ n. spec.stands n options.now) (map name_of names.now) }
{
    for name in names {
        if stands(*name, options) {
            return Some(*name);
        }
    }
    None
}

/// An option that stands and may not.
fn first_barred(bars: Barred, options: &[CanonicalOption]) -> Option<OptionName>
    ensures { is_some result ≡ list_any (λ n. spec.stands n options.now) (barred bars) }
{
    match bars {
        Barred::OfLifting => {
            first_standing(&[OptionName::PostReturn, OptionName::Callback], options)
        }
        Barred::Waiting => first_standing(
            &[
                OptionName::Async,
                OptionName::PostReturn,
                OptionName::Callback,
            ],
            options,
        ),
        Barred::Returning => first_standing(
            &[
                OptionName::Realloc,
                OptionName::Async,
                OptionName::PostReturn,
                OptionName::Callback,
            ],
            options,
        ),
    }
}

/// Refuses options that may not stand.
fn check_barred(bars: Barred, options: &[CanonicalOption], offset: u64) -> Result<(), Error>
    ensures ok { OnOk result (IsFree ((kinds.Options, list_any (λ n. spec.stands n options.now) (barred bars)) ∷ [])) }
    ensures err { IfErr result (MemoryOrCausedBy ((kinds.Options, list_any (λ n. spec.stands n options.now) (barred bars)) ∷ []) offset) }
{
    match first_barred(bars, options) {
        None => Ok(()),
        Some(name) => Err(refused("option `%w` may not stand here", name_word(name), offset)),
    }
}

/// Refuses that an option does not stand which has to.
fn check_needed(
    name: OptionName,
    when: Needed,
    options: &[CanonicalOption],
    state: &ComponentState,
    types: &TypeAlloc,
    offset: u64,
) -> Result<(), Error>
    requires stands { StateStands types.now state.now }
    ensures ok { OnOk result (IsFree (asked types.now state.now (row.has_to_stand (name_of name) (needed when) options.now))) }
    ensures err { IfErr result (MemoryOrCausedBy (asked types.now state.now (row.has_to_stand (name_of name) (needed when) options.now)) offset) }
{
    if is_needed(when, state, types, offset) && !stands(name, options) {
        return Err(refused(
            "option `%w` is needed and does not stand",
            name_word(name),
            offset,
        ));
    }
    Ok(())
}

/// Whether the operands are what is asked once.
fn check_ask(
    ask: Ask,
    options: &[CanonicalOption],
    state: &ComponentState,
    types: &TypeAlloc,
    offset: u64,
) -> Result<(), Error>
    requires stands { StateStands types.now state.now }
    ensures ok { OnOk result (IsFree (asked types.now state.now (ask_of options.now ask))) }
    ensures err { IfErr result (MemoryOrCausedBy (asked types.now state.now (ask_of options.now ask)) offset) }
{
    match ask {
        Ask::Feature(feature) => require(state.features(), feature, true, "it", offset),
        Ask::MoreWhere(there) => require(
            state.features(),
            WasmFeatures::CM_MORE_ASYNC_BUILTINS,
            there,
            "`async`",
            offset,
        ),
        Ask::MoreWithoutAsync => require(
            state.features(),
            WasmFeatures::CM_MORE_ASYNC_BUILTINS,
            !stands(OptionName::Async, options),
            "a list of options without `async`",
            offset,
        ),
        Ask::Bars(bars) => check_barred(bars, options, offset),
        Ask::Needs(name, when) => check_needed(name, when, options, state, types, offset),
        Ask::AsyncFunc(index) => check_async_func(index, options, state, types, offset),
        Ask::Resource(index) => check_resource(index, state, types, offset),
        Ask::LocalResource(index) => check_local_resource(index, state, types, offset),
        Ask::Stream(index) => check_stream(index, state, types, offset),
        Ask::Future(index) => check_future(index, state, types, offset),
        Ask::Memory(index) => check_memory(index, state, types, offset),
        Ask::NoBorrow(ty) => check_result(ty, state, types, offset),
        Ask::Slot(ty, slot) => check_slot(ty, slot, state, types, offset),
        Ask::SpawnType(index) => check_spawn_type(index, state, types, offset),
        Ask::StartType(index) => check_start_type(index, state, types, offset),
        Ask::SpawnTable(index) => check_spawn_table(index, state, types, offset),
        Ask::StartTable(index) => check_start_table(index, state, types, offset),
    }
}

/// Whether the operands are what is asked once, where something is asked.
fn check_some(
    ask: Option<Ask>,
    options: &[CanonicalOption],
    state: &ComponentState,
    types: &TypeAlloc,
    offset: u64,
) -> Result<(), Error>
    requires stands { StateStands types.now state.now }
    ensures ok { OnOk result (IsFree (asked_option types.now state.now options.now ask)) }
    ensures err { IfErr result (MemoryOrCausedBy (asked_option types.now state.now options.now ask) offset) }
{
    match ask {
        Some(ask) => check_ask(ask, options, state, types, offset),
        None => Ok(()),
    }
}

/// Whether the operands are all that is asked.
#[tactic(auto, using(wcv_core::proofs::Closing::free_next))]
fn check_asks(
    asks: &[Option<Ask>],
    options: &[CanonicalOption],
    state: &ComponentState,
    types: &TypeAlloc,
    offset: u64,
) -> Result<(), Error>
    requires stands { StateStands types.now state.now }
    ensures ok { OnOk result (IsFree (all_checks (asked_option types.now state.now options.now) asks.now)) }
    ensures err { IfErr result (MemoryOrCausedBy (all_checks (asked_option types.now state.now options.now) asks.now) offset) }
{
    for ask in asks {
        check_some(*ask, options, state, types, offset)?;
    }
    Ok(())
}

/// Whether the operands are what the function's row asks for.
pub fn check_operands(
    func: &CanonicalFunction,
    state: &ComponentState,
    types: &TypeAlloc,
    offset: u64,
) -> Result<(), Error>
    requires stands { StateStands types.now state.now }
    requires kind { is_lift (canon_view func.now) ≡ false }
    ensures ok { OnOk result ((outer : List Tree_context) → IsFree (operand_checks state.now.features (stack_of types.now state.now outer) (canon_view func.now))) }
    ensures err { IfErr result (λ e. (outer : List Tree_context) → MemoryOrCausedBy (operand_checks state.now.features (stack_of types.now state.now outer) (canon_view func.now)) offset e) }
{
    let row = row_of(func);
    check_asks(&row.asks, listed(func), state, types, offset)
}
