// One more canonical function.
ghost use Rattle.std.specs.Prelude.{◌≡◌, false, List, OnOk, IfErr};
ghost use Rattle.wcv_core.specs.Names.{Place};
ghost use Rattle.wcv_core.specs.Refusal.{error_kind, error_offset};
ghost use Rattle.wcv_syntax.specs.Model.{canon_item, lift};
ghost use Rattle.wcv_syntax.specs.View.{canon_view};
ghost use Rattle.wcv_flat.specs.CodeRows.{is_lift};
ghost use Rattle.wcv_flat.specs.Rows.{canon_row};
ghost use Rattle.wcv_lower.specs.Canons.{canon_checks};
ghost use Rattle.wcv_lower.specs.Checks.{IsFree};
ghost use Rattle.wcv_lower.specs.Trees.{Tree_context};
ghost use Rattle.wcv_spaces.specs.Contents.{stack_of};
ghost use Rattle.wcv_spaces.specs.Promises.{Keeps, Grew, Refuses, MemoryOrCausedBy};
ghost use Rattle.wcv_state.specs.Stack.{IsOpen};
ghost use Rattle.wcv_canon.specs.Facts.{row_facts, slots_said, early_checks};

use crate::facts::find_facts;
use crate::lift::find_lift;
use wcv_core::Error;
use wcv_flat::{RowFacts, row_signature};
use wcv_state::ComponentState;
use wcv_syntax::{CanonicalFunction, CanonicalOption, canonical_name};
use wcv_types::TypeAlloc;

/// The type of the slots is the one that the function names, where none is said yet.
fn say_slots(func: &CanonicalFunction, state: &mut ComponentState)
    ensures { state.new ≡ slots_said (canon_row (canon_view func.now)).asks state.old }
{
    match func {
        CanonicalFunction::ContextGet { ty, .. } | CanonicalFunction::ContextSet { ty, .. } => {
            if state.context_type().is_none() {
                state.set_context_type(*ty);
            }
        }
        _ => {}
    }
}

/// The core type joins the arena, and a core function of it the state.
fn join_core_func(
    func: &CanonicalFunction,
    facts: &RowFacts,
    state: &mut ComponentState,
    types: &mut TypeAlloc,
    offset: u64,
) -> Result<(), Error>
    requires open { IsOpen types.old state.old }
    requires kind { is_lift (canon_view func.now) ≡ false }
    requires facts { facts.now ≡ row_facts types.old state.old (canon_view func.now) }
    requires free { (outer : List Tree_context) → IsFree (early_checks state.old.features (stack_of types.old state.old outer) (canon_view func.now)) }
    ensures ok { OnOk result ((outer : List Tree_context) (p : Place) → Grew types.old types.new outer p state.old state.new (canon_item (canon_view func.now))) }
    ensures err { IfErr result (λ e. (outer : List Tree_context) → MemoryOrCausedBy (canon_checks state.old.features (stack_of types.old state.old outer) (canon_view func.now)) offset e) }
    ensures keeps { Keeps types.old types.new state.old state.new }
{
    let id = row_signature(func, facts, types, offset)?;
    say_slots(func, state);
    state.push_core_func(id)?;
    Ok(())
}

/// The core function of a canonical function joins the state, where no operand and no option is refused.
fn add_core_func(
    func: &CanonicalFunction,
    state: &mut ComponentState,
    types: &mut TypeAlloc,
    offset: u64,
) -> Result<(), Error>
    requires open { IsOpen types.old state.old }
    requires kind { is_lift (canon_view func.now) ≡ false }
    ensures ok { OnOk result ((outer : List Tree_context) (p : Place) → Grew types.old types.new outer p state.old state.new (canon_item (canon_view func.now))) }
    ensures err { IfErr result (λ e. (outer : List Tree_context) → MemoryOrCausedBy (canon_checks state.old.features (stack_of types.old state.old outer) (canon_view func.now)) offset e) }
    ensures keeps { Keeps types.old types.new state.old state.new }
{
    let facts = find_facts(func, state, types, offset)?;
    join_core_func(func, &facts, state, types, offset)
}

/// A function that is lifted joins the state.
fn add_lifted(
    core_index: u32,
    type_index: u32,
    options: &Vec<CanonicalOption>,
    state: &mut ComponentState,
    types: &mut TypeAlloc,
    offset: u64,
) -> Result<(), Error>
    requires open { IsOpen types.old state.old }
    ensures ok { OnOk result ((outer : List Tree_context) (p : Place) → Grew types.old types.new outer p state.old state.new (canon_item (lift core_index type_index options.now.items))) }
    ensures err { IfErr result (λ e. (outer : List Tree_context) → MemoryOrCausedBy (canon_checks state.old.features (stack_of types.old state.old outer) (lift core_index type_index options.now.items)) offset e) }
    ensures keeps { Keeps types.old types.new state.old state.new }
{
    let id = find_lift(
        core_index,
        type_index,
        options.as_slice(),
        state,
        types,
        offset,
    )?;
    state.push_func(id)?;
    Ok(())
}

/// The canonical function joins the state.
fn join_canonical_function(
    func: &CanonicalFunction,
    state: &mut ComponentState,
    types: &mut TypeAlloc,
    offset: u64,
) -> Result<(), Error>
    requires open { IsOpen types.old state.old }
    ensures ok { OnOk result ((outer : List Tree_context) (p : Place) → Grew types.old types.new outer p state.old state.new (canon_item (canon_view func.now))) }
    ensures err { IfErr result (λ e. (outer : List Tree_context) → MemoryOrCausedBy (canon_checks state.old.features (stack_of types.old state.old outer) (canon_view func.now)) offset e) }
    ensures keeps { Keeps types.old types.new state.old state.new }
{
    match func {
        CanonicalFunction::Lift {
            core_func_index,
            type_index,
            options,
        } => add_lifted(*core_func_index, *type_index, options, state, types, offset),
        _ => add_core_func(func, state, types, offset),
    }
}

/// What an error of a canonical function says, behind the function's name.
fn named(name: &'static str, err: Error) -> Error
    ensures kind { error_kind result ≡ error_kind err }
    ensures offset { error_offset result ≡ error_offset err }
{
    Error::told(err.kind(), err.offset(), format_args!("{name}: {err}"))
}

/// The canonical function joins the state. After an error the state is spent.
pub fn add_canonical_function(
    func: CanonicalFunction,
    state: &mut ComponentState,
    types: &mut TypeAlloc,
    offset: u64,
) -> Result<(), Error>
    requires open { IsOpen types.old state.old }
    ensures ok { OnOk result ((outer : List Tree_context) (p : Place) → Grew types.old types.new outer p state.old state.new (canon_item (canon_view func))) }
    ensures err { IfErr result (λ e. (outer : List Tree_context) (p : Place) → Refuses types.old types.new outer p state.old state.new (canon_item (canon_view func)) offset e) }
    ensures keeps { Keeps types.old types.new state.old state.new }
{
    match join_canonical_function(&func, state, types, offset) {
        Ok(()) => Ok(()),
        Err(error) => {
            state.mark_spent();
            Err(named(canonical_name(&func), error))
        }
    }
}
