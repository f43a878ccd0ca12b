// What the operands of a canonical function name.
ghost use Rattle.std.specs.Prelude.{◌≡◌, false, List, Some, slice_get, OnOk, IfOk, IfErr};
ghost use Rattle.std.specs.Option.{option_map, option_and_then};
ghost use Rattle.wcv_syntax.specs.View.{canon_view};
ghost use Rattle.wcv_flat.specs.CodeRows.{is_lift};
ghost use Rattle.wcv_flat.specs.RowTypes.{appended};
ghost use Rattle.wcv_flat.specs.Rows.{returning, options_in};
ghost use Rattle.wcv_lower.specs.CanonOptions as options;
ghost use Rattle.wcv_lower.specs.Canons.{memory_alone, appends_found};
ghost use Rattle.wcv_lower.specs.Checks.{IsFree, if_found, no_room};
ghost use Rattle.wcv_lower.specs.Context.{counts};
ghost use Rattle.wcv_lower.specs.Trees.{Tree_context};
ghost use Rattle.wcv_lower.specs.Values.{sort_checks};
ghost use Rattle.wcv_types.specs.Tree.{is_func, is_value};
ghost use Rattle.wcv_spaces.specs.Contents.{StateStands, context_of, stack_of};
ghost use Rattle.wcv_spaces.specs.Promises.{MemoryOrCausedBy};
ghost use Rattle.wcv_canon.specs.Facts as spec;

use crate::asks::check_operands;
use crate::lists::list_of;
use crate::options::read_options;
use wcv_core::limits::MAX_ENTRIES;
use wcv_core::{CompositeInnerType, CoreTypeId, Error, ErrorKind, Refusal, ValType, Why};
use wcv_flat::{CanonicalOptions, Concurrency, PtrSize, RowFacts, RowFunction, StringEncoding};
use wcv_state::ComponentState;
use wcv_syntax::{CanonicalFunction, CanonicalOption, ComponentValType as Written};
use wcv_types::{ComponentCoreTypeId, ComponentValType, TypeAlloc};

/// What represents the resource at that index, where it is defined here with that.
#[tactic(auto, using(crate::proofs::FoundFacts::rep_gone))]
fn rep_at(state: &ComponentState, index: u32) -> Option<ValType>
    ensures { result ≡ spec.rep_at state.now index }
{
    match state.local_rep(index, 0) {
        Ok((_, rep)) => Some(rep),
        Err(_) => None,
    }
}

/// The size of pointers into what is of 64 bits, or is not.
fn size_of(wide: bool) -> PtrSize
    ensures { result ≡ options.size_of wide }
{
    if wide { PtrSize::Ptr64 } else { PtrSize::Ptr32 }
}

/// The size of pointers into the memory at that index.
#[tactic(auto, using(crate::proofs::FoundFacts::not_there))]
fn pointers_at(state: &ComponentState, index: u32) -> PtrSize
    ensures { result ≡ spec.pointers_at state.now index }
{
    match state.memory_at(index, 0) {
        Ok(ty) => size_of(ty.memory64),
        Err(_) => PtrSize::Ptr32,
    }
}

/// The core type at that index, where it is no module type.
#[tactic(auto, using(crate::proofs::FoundFacts::not_there))]
fn id_at(state: &ComponentState, index: u32) -> Option<CoreTypeId>
    ensures { result ≡ spec.id_at state.now index }
{
    match state.core_type_at(index, 0) {
        Ok(ComponentCoreTypeId::Sub(id)) => Some(id),
        _ => None,
    }
}

/// The first parameter of the core type at that index.
fn param_at(state: &ComponentState, types: &TypeAlloc, index: u32) -> Option<ValType>
    requires { StateStands types.now state.now }
    ensures { result ≡ spec.param_at types.now state.now index }
{
    let id = id_at(state, index)?;
    match &types.core_types().get(id).inner {
        CompositeInnerType::Func(func) => func.params.first().copied(),
        _ => None,
    }
}

/// The size of the numbers of the elements of the table at that index.
#[tactic(auto, using(crate::proofs::FoundFacts::not_there))]
fn elements_at(state: &ComponentState, index: u32) -> Option<PtrSize>
    ensures { result ≡ spec.elements_at state.now index }
{
    match state.table_at(index, 0) {
        Ok(ty) => Some(size_of(ty.table64)),
        Err(_) => None,
    }
}

/// Options with the memory alone.
fn with_memory(index: u32, size: PtrSize) -> CanonicalOptions
    ensures { result ≡ memory_alone index size }
{
    CanonicalOptions {
        string_encoding: StringEncoding::default(),
        memory: Some((index, size)),
        realloc: None,
        post_return: None,
        concurrency: Concurrency::default(),
    }
}

/// What the operands say of the core type of what is appended, beside the options and the function.
fn row_facts(
    func: &CanonicalFunction,
    options: Option<CanonicalOptions>,
    function: Option<RowFunction>,
    state: &ComponentState,
    types: &TypeAlloc,
) -> RowFacts
    requires { StateStands types.now state.now }
    ensures { result ≡ spec.facts_in types.now state.now (canon_view func.now) options function }
{
    let mut facts = RowFacts {
        options,
        function,
        rep: None,
        start: None,
        start_param: None,
        table_index: None,
    };
    match func {
        CanonicalFunction::ResourceNew { resource } | CanonicalFunction::ResourceRep { resource } =>
            facts.rep = rep_at(state, *resource),
        CanonicalFunction::ThreadSpawnRef { func_ty_index }
        | CanonicalFunction::ThreadSpawnIndirect { func_ty_index, .. } => {
            facts.start = id_at(state, *func_ty_index);
        }
        CanonicalFunction::WaitableSetWait { memory }
        | CanonicalFunction::WaitableSetPoll { memory } => {
            facts.options = Some(with_memory(*memory, pointers_at(state, *memory)));
        }
        CanonicalFunction::ThreadNewIndirect {
            func_ty_index,
            table_index,
        } => {
            facts.start_param = param_at(state, types, *func_ty_index);
            facts.table_index = elements_at(state, *table_index);
        }
        _ => {}
    }
    facts
}

/// The value type at that index of types.
fn value_at(
    state: &ComponentState,
    types: &TypeAlloc,
    index: u32,
    offset: u64,
) -> Result<ComponentValType, Refusal<'static>>
    requires { StateStands types.now state.now }
    ensures ok { IfOk result (λ v. option_and_then spec.defined_value (slice_get state.now.spaces.types index) ≡ Some v) }
    ensures free { OnOk result (IsFree (sort_checks is_value (context_of types.now state.now) index)) }
    ensures err { IfErr result (MemoryOrCausedBy (sort_checks is_value (context_of types.now state.now) index) offset) }
{
    let _ = types;
    let id = state.defined_type_at(index, offset)?;
    Ok(ComponentValType::Ty(id))
}

/// The result of a task, which may be left out.
fn result_of(
    written: Option<Written>,
    state: &ComponentState,
    types: &TypeAlloc,
    offset: u64,
) -> Result<Option<ComponentValType>, Refusal<'static>>
    requires { StateStands types.now state.now }
    ensures ok { IfOk result (λ v. spec.result_at state.now written ≡ Some v) }
    ensures free { OnOk result (IsFree (appends_found (context_of types.now state.now) (returning written))) }
    ensures err { IfErr result (MemoryOrCausedBy (appends_found (context_of types.now state.now) (returning written)) offset) }
{
    match written {
        None => Ok(None),
        Some(Written::Primitive(primitive)) => Ok(Some(ComponentValType::Primitive(primitive))),
        Some(Written::Ty(index)) => Ok(Some(value_at(state, types, index, offset)?)),
    }
}

/// The function of which the core function is made, where it is made of one.
fn function_of(
    func: &CanonicalFunction,
    state: &ComponentState,
    types: &TypeAlloc,
    offset: u64,
) -> Result<Option<RowFunction>, Refusal<'static>>
    requires stands { StateStands types.now state.now }
    requires kind { is_lift (canon_view func.now) ≡ false }
    ensures ok { IfOk result (λ g. g ≡ spec.function_at state.now (appended func.now)) }
    ensures free { OnOk result (IsFree (appends_found (context_of types.now state.now) (appended func.now))) }
    ensures err { IfErr result (MemoryOrCausedBy (appends_found (context_of types.now state.now) (appended func.now)) offset) }
{
    match func {
        CanonicalFunction::Lower { func_index, .. } => {
            let id = state.function_at(*func_index, offset)?;
            Ok(Some(RowFunction::Lowered(id)))
        }
        CanonicalFunction::TaskReturn { result, .. } => {
            let value = result_of(*result, state, types, offset)?;
            Ok(Some(RowFunction::Returned(value)))
        }
        _ => Ok(None),
    }
}

/// The options that a canonical function has, where it has a list of them.
fn options_of(
    func: &CanonicalFunction,
    state: &ComponentState,
    types: &TypeAlloc,
    offset: u64,
) -> Result<Option<CanonicalOptions>, Error>
    requires stands { StateStands types.now state.now }
    ensures ok { IfOk result (λ read. read ≡ option_map (options.options_read (context_of types.now state.now)) (options_in (canon_view func.now))) }
    ensures free { OnOk result ((outer : List Tree_context) → IsFree (if_found (options.options_checks state.now.features (stack_of types.now state.now outer)) (options_in (canon_view func.now)))) }
    ensures err { IfErr result (λ e. (outer : List Tree_context) → MemoryOrCausedBy (if_found (options.options_checks state.now.features (stack_of types.now state.now outer)) (options_in (canon_view func.now))) offset e) }
{
    match list_of(func) {
        Some(list) => Ok(Some(read_options(list.as_slice(), state, types, offset)?)),
        None => Ok(None),
    }
}

/// Whether there is room for one more function or core function.
pub fn check_room(
    state: &ComponentState,
    types: &TypeAlloc,
    offset: u64,
) -> Result<(), Refusal<'static>>
    ensures ok { OnOk result (IsFree (no_room (counts (context_of types.now state.now)) is_func)) }
    ensures err { IfErr result (MemoryOrCausedBy (no_room (counts (context_of types.now state.now)) is_func) offset) }
{
    let _ = types;
    let count = state.function_count();
    if count >= MAX_ENTRIES {
        let why = Why::new(
            "no room for one more function or core function: there are %1, at most %2 are allowed",
        );
        let why = why.numbers([count as u64, MAX_ENTRIES as u64, 0]);
        return Err(Error::new(ErrorKind::Limit, offset, why));
    }
    Ok(())
}

/// What the core type of what is appended is made of, where no operand and no option is refused.
pub fn find_facts(
    func: &CanonicalFunction,
    state: &ComponentState,
    types: &TypeAlloc,
    offset: u64,
) -> Result<RowFacts, Error>
    requires stands { StateStands types.now state.now }
    requires kind { is_lift (canon_view func.now) ≡ false }
    ensures ok { IfOk result (λ facts. facts ≡ spec.row_facts types.now state.now (canon_view func.now)) }
    ensures free { OnOk result ((outer : List Tree_context) → IsFree (spec.early_checks state.now.features (stack_of types.now state.now outer) (canon_view func.now))) }
    ensures err { IfErr result (λ e. (outer : List Tree_context) → MemoryOrCausedBy (spec.early_checks state.now.features (stack_of types.now state.now outer) (canon_view func.now)) offset e) }
{
    check_operands(func, state, types, offset)?;
    let options = options_of(func, state, types, offset)?;
    let function = function_of(func, state, types, offset)?;
    check_room(state, types, offset)?;
    Ok(row_facts(func, options, function, state, types))
}
