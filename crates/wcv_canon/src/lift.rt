// What is asked where a core function is lifted.
ghost use Rattle.std.specs.Prelude.{◌≡◌, ◌<◌, ◌∷◌, [], false, List, Some, slice_get, OnOk, OnErr, IfOk, IfErr};
ghost use Rattle.wcv_core.specs.CoreForm.{func_form, sub_form};
ghost use Rattle.wcv_core.specs.CoreGroups.{IsClosed, id_of, total};
ghost use Rattle.wcv_core.specs.CoreTable.{with_group};
ghost use Rattle.wcv_core.specs.declared.core_types.EntityType.TheVariants as entity;
ghost use Rattle.wcv_core.specs.declared.error.ErrorKind.TheVariants as kinds;
ghost use Rattle.wcv_syntax.specs.Model.{lift};
ghost use Rattle.wcv_types.specs.CoreCalls.{func_group, with_core};
ghost use Rattle.wcv_types.specs.Standing.{Extends};
ghost use Rattle.wcv_types.specs.declared.ids.ComponentAnyTypeId.TheVariants as any;
ghost use Rattle.wcv_lower.specs.Canons.{canon_checks, form_results, has_other_type};
ghost use Rattle.wcv_lower.specs.Checks.{IsFree};
ghost use Rattle.wcv_lower.specs.Trees.{Tree_context};
ghost use Rattle.wcv_spaces.specs.Contents.{StateStands, stack_of};
ghost use Rattle.wcv_spaces.specs.Promises.{MemoryOrCausedBy};
ghost use Rattle.wcv_canon.specs.Lifting.{async_checks, post_checks};

use crate::facts::check_room;
use crate::items::takes_and_gives;
use crate::options::read_options;
use bitflags::Flags;
use wcv_core::{
    CompositeInnerType, CoreTypeId, Error, ErrorKind, FuncType, OutOfMemory, RecGroup, Refusal,
    SubType, ValType, WasmFeatures, Why, missing_feature,
};
use wcv_flat::{Abi, CanonicalOptions, Concurrency, lower};
use wcv_state::ComponentState;
use wcv_syntax::CanonicalOption;
use wcv_types::{ComponentFuncTypeId, TypeAlloc};

/// Whether the options may stand for a function type that is async, or is not.
fn check_async(
    options: &CanonicalOptions,
    is_async: bool,
    features: &WasmFeatures,
    offset: u64,
) -> Result<(), Refusal<'static>>
    ensures ok { OnOk result (IsFree (async_checks features.now options.now.concurrency is_async)) }
    ensures err { IfErr result (MemoryOrCausedBy (async_checks features.now options.now.concurrency is_async) offset) }
{
    match options.concurrency {
        Concurrency::Sync => Ok(()),
        Concurrency::Async { .. } if !is_async => {
            let why = Why::new("option `async` may stand for an async function type alone");
            Err(Error::new(ErrorKind::Options, offset, why))
        }
        Concurrency::Async { callback: None }
            if !features.contains(WasmFeatures::CM_ASYNC_STACKFUL) => {
            let what = "option `async` without `callback`";
            Err(missing_feature(what, "", WasmFeatures::CM_ASYNC_STACKFUL, offset))
        }
        _ => Ok(()),
    }
}

/// What a core type gives, where it is one of functions.
fn results_of(ty: &SubType) -> &[ValType]
    ensures { result.now ≡ form_results (sub_form ty.now).inner }
{
    match &ty.inner {
        CompositeInnerType::Func(func) => func.results.as_slice(),
        _ => &[],
    }
}

/// Whether the core function at the index of `post-return` takes what the lifted one gives, and gives nothing. An
/// index that has nothing is refused with the options.
fn check_post_return(
    post_return: Option<u32>,
    core: CoreTypeId,
    state: &ComponentState,
    types: &TypeAlloc,
    offset: u64,
) -> Result<(), Error>
    requires stands { StateStands types.now state.now }
    requires core { core.index < total types.now.core }
    ensures ok { OnOk result (IsFree (post_checks types.now.core state.now.spaces core post_return)) }
    ensures err { IfErr result (MemoryOrCausedBy (post_checks types.now.core state.now.spaces core post_return) offset) }
{
    let Some(index) = post_return else {
        return Ok(());
    };
    let Ok(post) = state.core_function_at(index, offset) else {
        return Ok(());
    };
    let table = types.core_types();
    let (lifted, found) = (table.get(core), table.get(post));
    if takes_and_gives(found, results_of(lifted), &[]) {
        return Ok(());
    }
    Err(Error::told(
        ErrorKind::Options,
        offset,
        format_args!(
            "option `post-return` asks for a core function that takes what {lifted} gives, and core function {index} is {found}"
        ),
    ))
}

/// The id of a function type, in a group of its own.
#[tactic(auto, using(wcv_types::proofs::Grown::extends_refl))]
fn intern_func(ty: FuncType, types: &mut TypeAlloc) -> Result<CoreTypeId, OutOfMemory>
    requires { IsClosed (total types.old.core) (func_group ty) }
    ensures id { IfOk result (λ id. id_of types.new.core (func_group ty) ≡ Some id.index) }
    ensures groups { OnOk result (types.new ≡ with_core types.old (with_group types.old.core (func_group ty))) }
    ensures err { OnErr result (types.new ≡ types.old) }
    ensures grown { Extends types.old types.new }
{
    let ty = SubType {
        is_final: true,
        supertype: None,
        shared: false,
        inner: CompositeInnerType::Func(ty),
    };
    let mut list = Vec::new(types.allocator());
    list.push(ty)?;
    types.intern_closed(RecGroup { types: list })
}

/// Whether the core function has that type, by its id. If it does, nothing is new in the arena.
fn check_signature(
    index: u32,
    core: CoreTypeId,
    ty: FuncType,
    types: &mut TypeAlloc,
    offset: u64,
) -> Result<(), Error>
    requires closed { IsClosed (total types.old.core) (func_group ty) }
    requires core { core.index < total types.old.core }
    ensures ok { OnOk result (has_other_type types.old.core (func_form ty.params.items ty.results.items) (entity.Func core) ≡ false) }
    ensures same { OnOk result (types.new ≡ types.old) }
    ensures err { IfErr result (MemoryOrCausedBy ((kinds.Signature, has_other_type types.old.core (func_form ty.params.items ty.results.items) (entity.Func core)) ∷ []) offset) }
    ensures grown { Extends types.old types.new }
{
    let id = intern_func(ty, types)?;
    if id.index == core.index {
        return Ok(());
    }
    let table = types.core_types();
    let (expected, found) = (table.get(id), table.get(core));
    Err(Error::told(
        ErrorKind::Signature,
        offset,
        format_args!("core function {index}: expected {expected}, found {found}"),
    ))
}

/// The type of the function that is lifted, where nothing is refused. Nothing is new in the arena then.
#[tactic(auto, using(wcv_types::proofs::Grown::extends_refl))]
pub fn find_lift(
    core_index: u32,
    type_index: u32,
    options: &[CanonicalOption],
    state: &ComponentState,
    types: &mut TypeAlloc,
    offset: u64,
) -> Result<ComponentFuncTypeId, Error>
    requires stands { StateStands types.old state.now }
    ensures ok { IfOk result (λ id. slice_get state.now.spaces.types type_index ≡ Some (any.Func id)) }
    ensures free { OnOk result ((outer : List Tree_context) → IsFree (canon_checks state.now.features (stack_of types.old state.now outer) (lift core_index type_index options.now))) }
    ensures err { IfErr result (λ e. (outer : List Tree_context) → MemoryOrCausedBy (canon_checks state.now.features (stack_of types.old state.now outer) (lift core_index type_index options.now)) offset e) }
    ensures same { OnOk result (types.new ≡ types.old) }
    ensures grown { Extends types.old types.new }
{
    let core = state.core_function_at(core_index, offset)?;
    let id = state.function_type_at(type_index, offset)?;
    let read = read_options(options, state, types, offset)?;
    check_room(state, types, offset)?;
    let shape = types.get(id);
    check_async(&read, shape.async_, state.features(), offset)?;
    check_post_return(read.post_return, core, state, types, offset)?;
    let lifted = lower(shape, types, &read, Abi::Lift, offset)?;
    check_signature(core_index, core, lifted, types, offset)?;
    Ok(id)
}
