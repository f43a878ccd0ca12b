// Type items of each form.
ghost use Rattle.std.specs.Prelude.{◌≡◌, [], true, false, List, cond, OnOk, OnErr, IfErr};
ghost use Rattle.wcv_core.specs.Names.{Place};
ghost use Rattle.wcv_syntax.specs.Model.{defined_type, func_type};
ghost use Rattle.wcv_syntax.specs.View.{defined_view, func_view, type_view};
ghost use Rattle.wcv_lower.specs.Checks.{IsFree};
ghost use Rattle.wcv_lower.specs.Defined.{own_checks, defined_checks};
ghost use Rattle.wcv_lower.specs.Names.{Names};
ghost use Rattle.wcv_lower.specs.Trees.{Tree_context, tree_maker};
ghost use Rattle.wcv_core.specs.Features.{cm_async};
ghost use Rattle.wcv_lower.specs.Values.{lacks};
ghost use Rattle.wcv_lower.specs.Types.{is_plain_type, func_own_checks, func_checks, tree_checks};
ghost use Rattle.wcv_spaces.specs.Contents.{context_of, stack_of, StateStands};
ghost use Rattle.wcv_spaces.specs.Promises.{MemoryOrCausedBy, Keeps};
ghost use Rattle.wcv_decls.specs.Items.{Added, Declares};

use crate::defined::resolve_defined;
use crate::features::{check_async, check_features};
use crate::func::resolve_func;
use crate::names::{check_labels, check_names};
use crate::resource::add_resource;
use crate::shape::check_shape;
use crate::store::{store_defined, store_func};
use std::alloc::Global;
use wcv_core::{Error, Refusal, WasmFeatures};
use wcv_state::{ComponentState, NameList};
use wcv_syntax::{ComponentDefinedType, ComponentFuncType, ComponentType};
use wcv_types::TypeAlloc;

/// What of a defined type needs no other type.
#[tactic(auto, using(wcv_core::proofs::Closing::caused_same))]
fn check_defined(
    alloc: Global,
    ty: &ComponentDefinedType,
    features: &WasmFeatures,
    offset: u64,
) -> Result<(), Error>
    ensures ok { OnOk result (IsFree (own_checks features.now (defined_view ty.now))) }
    ensures err { IfErr result (MemoryOrCausedBy (own_checks features.now (defined_view ty.now)) offset) }
{
    check_shape(ty, offset)?;
    check_names(alloc, ty, offset)?;
    check_features(ty, features, offset)?;
    Ok(())
}

/// A defined type.
#[tactic(auto, using(crate::proofs::Storing::unchanged))]
fn add_defined(
    ty: ComponentDefinedType,
    state: &mut ComponentState,
    types: &mut TypeAlloc,
    offset: u64,
) -> Result<(), Error>
    requires live { state.old.spent ≡ false }
    requires stands { StateStands types.old state.old }
    ensures ok { OnOk result (Added types.old types.new state.old state.new (defined_type (defined_view ty))) }
    ensures free { OnOk result ((n : Names) (p : Place) → IsFree (defined_checks state.old.features (tree_maker n p) (context_of types.old state.old) (defined_view ty))) }
    ensures err { IfErr result (λ e. (n : Names) (p : Place) → MemoryOrCausedBy (defined_checks state.old.features (tree_maker n p) (context_of types.old state.old) (defined_view ty)) offset e) }
    ensures keeps { OnErr result (Keeps types.old types.new state.old state.new) }
{
    let alloc = types.allocator();
    check_defined(alloc, &ty, state.features(), offset)?;
    let shape = resolve_defined(alloc, ty, state, types, offset)?;
    store_defined(shape, state, types, offset)?;
    Ok(())
}

/// Whether a function may be async, where it is.
fn check_mark(async_: bool, features: &WasmFeatures, offset: u64) -> Result<(), Refusal<'static>>
    ensures ok { OnOk result (IsFree (cond async_ (lacks features.now cm_async) [])) }
    ensures err { IfErr result (MemoryOrCausedBy (cond async_ (lacks features.now cm_async) []) offset) }
{
    if async_ {
        return check_async(features, "an async function", offset);
    }
    Ok(())
}

/// What of a function type needs no other type.
#[tactic(auto, using(wcv_core::proofs::Closing::caused_same))]
fn check_func(
    alloc: Global,
    func: &ComponentFuncType,
    features: &WasmFeatures,
    offset: u64,
) -> Result<(), Error>
    ensures ok { OnOk result (IsFree (func_own_checks features.now (func_view func.now))) }
    ensures err { IfErr result (MemoryOrCausedBy (func_own_checks features.now (func_view func.now)) offset) }
{
    check_mark(func.async_, features, offset)?;
    check_labels(alloc, NameList::Params(&func.params), offset)
}

/// A function type.
#[tactic(auto, using(crate::proofs::Storing::unchanged))]
fn add_func(
    func: ComponentFuncType,
    state: &mut ComponentState,
    types: &mut TypeAlloc,
    offset: u64,
) -> Result<(), Error>
    requires live { state.old.spent ≡ false }
    requires stands { StateStands types.old state.old }
    ensures ok { OnOk result (Added types.old types.new state.old state.new (func_type (func_view func))) }
    ensures free { OnOk result ((n : Names) (p : Place) → IsFree (func_checks state.old.features (tree_maker n p) (context_of types.old state.old) (func_view func))) }
    ensures err { IfErr result (λ e. (n : Names) (p : Place) → MemoryOrCausedBy (func_checks state.old.features (tree_maker n p) (context_of types.old state.old) (func_view func)) offset e) }
    ensures keeps { OnErr result (Keeps types.old types.new state.old state.new) }
{
    let alloc = types.allocator();
    check_func(alloc, &func, state.features(), offset)?;
    let shape = resolve_func(alloc, func, state, types, offset)?;
    store_func(shape, state, types, offset)?;
    Ok(())
}

/// A type that is made in one step.
pub fn add_plain(
    ty: ComponentType,
    state: &mut ComponentState,
    types: &mut TypeAlloc,
    offset: u64,
) -> Result<(), Error>
    requires live { state.old.spent ≡ false }
    requires stands { StateStands types.old state.old }
    requires plain { is_plain_type (type_view ty) ≡ true }
    ensures ok { OnOk result (Declares types.old types.new state.old state.new (type_view ty)) }
    ensures free { OnOk result ((outer : List Tree_context) (n : Names) (p : Place) → IsFree (tree_checks state.old.features (tree_maker n p) (stack_of types.old state.old outer) (type_view ty))) }
    ensures err { IfErr result (λ e. (outer : List Tree_context) (n : Names) (p : Place) → MemoryOrCausedBy (tree_checks state.old.features (tree_maker n p) (stack_of types.old state.old outer) (type_view ty)) offset e) }
    ensures keeps { OnErr result (Keeps types.old types.new state.old state.new) }
{
    match ty {
        ComponentType::Defined(ty) => add_defined(ty, state, types, offset),
        ComponentType::Func(func) => add_func(func, state, types, offset),
        ComponentType::Resource { rep, dtor } => add_resource(rep, dtor, state, types, offset),
        _ => unreachable!(),
    }
}
