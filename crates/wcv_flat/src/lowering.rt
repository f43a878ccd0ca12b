// The core type of a function that is lifted or lowered.
ghost use Rattle.std.specs.Prelude.{◌≡◌, ◌≤◌, ◌++◌, ◌||◌, take, All, OnOk, IfOk, IfErr};
ghost use Rattle.wcv_core.specs.Checks.{IsFree, CausedBy, MemoryOrCausedBy};
ghost use Rattle.wcv_core.specs.CoreForm.{func_form};
ghost use Rattle.wcv_core.specs.Names.{Name};
ghost use Rattle.wcv_types.specs.Abi.{pointer, any_contains};
ghost use Rattle.wcv_types.specs.Entities.{SlotStands};
ghost use Rattle.wcv_types.specs.Standing.{Stands};
ghost use Rattle.wcv_types.specs.Tree.{Parts};
ghost use Rattle.wcv_types.specs.Unfold.{option_slot, parts_of, slot_tree, trees};
ghost use Rattle.wcv_types.specs.Open.{listed, open_all};
ghost use Rattle.wcv_types.specs.declared.arena.Node.TheVariants as n;
ghost use Rattle.wcv_types.specs.declared.flat_type.FlatType.TheVariants as f;
ghost use Rattle.wcv_flat.specs.Functions.{func_parts};
ghost use Rattle.wcv_flat.specs.Flat.{cores};
ghost use Rattle.wcv_flat.specs.Options.{needs, pointer_size, type_checks, use_checks};
ghost use Rattle.wcv_flat.specs.RowTypes.{sync, taking};
ghost use Rattle.wcv_flat.specs.Signature as spec;
ghost use Rattle.wcv_flat.specs.declared.options.Abi.TheVariants as abi;
ghost use Rattle.wcv_flat.specs.declared.options.CanonicalOptions.{CanonicalOptions};
ghost use Rattle.wcv_flat.specs.declared.options.Concurrency.TheVariants as c;

use crate::func_types::{params_point, params_types, result_points, result_types, value_points};
use crate::options::{Abi, CanonicalOptions, Concurrency, PtrSize, core_type};
use std::alloc::Global;
use wcv_core::{Error, ErrorKind, FuncType, OutOfMemory, Refusal, ValType, Why};
use wcv_types::{ComponentFuncType, ComponentValType, FlatType, LoweredTypes, TypeAlloc};

/// The most flat types of parameters that are passed one by one.
const MAX_FLAT_FUNC_PARAMS: usize = 16;

/// The most flat types of parameters that are passed one by one where an async function is lowered.
const MAX_FLAT_ASYNC_PARAMS: usize = 4;

/// The most flat types of parameters that are passed one by one, by how the function is made.
fn param_limit(abi: Abi, concurrency: Concurrency) -> usize
    ensures limit { result ≡ spec.param_limit abi concurrency }
    ensures within { result ≤ 16 }
{
    match (abi, concurrency) {
        (Abi::Lower, Concurrency::Async { .. }) => MAX_FLAT_ASYNC_PARAMS,
        _ => MAX_FLAT_FUNC_PARAMS,
    }
}

/// The most flat types of a result that are given one by one, by how the function is made.
fn result_limit(abi: Abi, concurrency: Concurrency) -> usize
    ensures limit { result ≡ spec.result_limit abi concurrency }
    ensures within { result ≤ 16 }
{
    match (abi, concurrency) {
        (Abi::Lower, Concurrency::Async { .. }) => 0,
        _ => 1,
    }
}

/// The flat types, or a pointer to where they lie, where they are more than the limit.
fn spilled(types: &LoweredTypes, limit: usize) -> LoweredTypes
    ensures { listed result ≡ spec.spilled f.Pointer limit (listed types.now) }
{
    if types.len() > limit {
        LoweredTypes::of(FlatType::Pointer)
    } else {
        *types
    }
}

/// Where the caller of a lowered function wants the result, where it goes through memory.
fn return_pointer(abi: Abi, concurrency: Concurrency, gives: &LoweredTypes) -> LoweredTypes
    ensures { listed result ≡ spec.return_pointer f.Pointer abi concurrency (listed gives.now) }
{
    match abi {
        Abi::Lower if gives.len() > result_limit(abi, concurrency) => {
            LoweredTypes::of(FlatType::Pointer)
        }
        _ => LoweredTypes::new(),
    }
}

/// The flat types of the core parameters.
fn lowered_params(
    abi: Abi,
    concurrency: Concurrency,
    params: &LoweredTypes,
    gives: &LoweredTypes,
) -> LoweredTypes
    ensures { listed result ≡ spec.core_params f.Pointer abi concurrency (listed params.now) (listed gives.now) }
{
    let mut list = spilled(params, param_limit(abi, concurrency));
    list.append(&return_pointer(abi, concurrency, gives));
    list
}

/// The flat types of the core results.
fn lowered_results(abi: Abi, concurrency: Concurrency, gives: &LoweredTypes) -> LoweredTypes
    ensures { listed result ≡ spec.core_results f.I32 f.Pointer abi concurrency (listed gives.now) }
{
    match (abi, concurrency) {
        (Abi::Lift, Concurrency::Sync) => spilled(gives, 1),
        (Abi::Lower, Concurrency::Sync) if gives.len() <= 1 => *gives,
        (Abi::Lower, Concurrency::Sync) => LoweredTypes::new(),
        (Abi::Lift, Concurrency::Async { callback: None }) => LoweredTypes::new(),
        _ => LoweredTypes::of(FlatType::I32),
    }
}

/// The core types of flat types, with pointers of that size.
fn core_types(
    alloc: Global,
    types: &LoweredTypes,
    size: PtrSize,
) -> Result<Vec<ValType>, OutOfMemory>
    ensures { IfOk result (λ v. v.items ≡ cores size (listed types.now)) }
{
    let mut core = Vec::new(alloc);
    for k in 0..types.len() {
        if let Some(ty) = types.get(k) {
            core.push(core_type(ty, size))?;
        }
    }
    Ok(core)
}

/// Refuses that memory, or the means to ask for it, is needed and is not given.
fn check_needs(
    options: &CanonicalOptions,
    memory: bool,
    realloc: bool,
    offset: u64,
) -> Result<(), Refusal<'static>>
    ensures ok { OnOk result (IsFree (needs memory options.now.memory ++ needs realloc options.now.realloc)) }
    ensures err { IfErr result (CausedBy (needs memory options.now.memory ++ needs realloc options.now.realloc) offset) }
{
    if memory && options.memory.is_none() {
        let why = Why::new("type of the function needs the option `memory`");
        return Err(Error::new(ErrorKind::Options, offset, why));
    }
    if realloc && options.realloc.is_none() {
        let why = Why::new("type of the function needs the option `realloc`");
        return Err(Error::new(ErrorKind::Options, offset, why));
    }
    Ok(())
}

/// What is read of a function: its flat types, whether its parameters use memory, whether its result does, and
/// whether a pointer stands in the result.
#[derive(Clone, Copy)]
struct Passed {
    params: LoweredTypes,
    gives: LoweredTypes,
    by_params: bool,
    by_result: bool,
    points: bool,
}

/// Refuses options by these.
fn check_uses(
    options: &CanonicalOptions,
    abi: Abi,
    uses: &Passed,
    offset: u64,
) -> Result<(), Refusal<'static>>
    ensures ok { OnOk result (IsFree (use_checks options.now abi uses.now.by_params uses.now.by_result uses.now.points)) }
    ensures err { IfErr result (CausedBy (use_checks options.now abi uses.now.by_params uses.now.by_result uses.now.points) offset) }
{
    match (abi, options.concurrency) {
        (Abi::Lift, Concurrency::Sync) => {
            check_needs(
                options,
                uses.by_params | uses.by_result,
                uses.by_params,
                offset,
            )
        }
        (Abi::Lift, Concurrency::Async { .. }) => {
            check_needs(options, uses.by_params, uses.by_params, offset)
        }
        (Abi::Lower, _) => {
            check_needs(
                options,
                uses.by_params | uses.by_result,
                uses.points,
                offset,
            )
        }
    }
}

/// Whether the parameters use memory: there are more of these than the limit, or a pointer stands in one.
fn params_use(
    ty: &ComponentFuncType,
    types: &TypeAlloc,
    params: &LoweredTypes,
    limit: usize,
) -> bool
    requires { All (Stands types.now) (parts_of (n.Func ty.now)) }
    ensures { result ≡ (spec.exceeds limit (listed params.now) || any_contains pointer (spec.params_in (func_parts types.now ty.now))) }
{
    params.len() > limit || params_point(types, ty)
}

/// What is read of a function of the arena.
fn passed_of(
    ty: &ComponentFuncType,
    types: &TypeAlloc,
    options: &CanonicalOptions,
    abi: Abi,
) -> Passed
    requires { All (Stands types.now) (parts_of (n.Func ty.now)) }
    ensures params { listed result.params ≡ take 17 (open_all (spec.params_in (func_parts types.now ty.now))) }
    ensures gives { listed result.gives ≡ take 17 (open_all (spec.result_in (func_parts types.now ty.now))) }
    ensures uses { use_checks options.now abi result.by_params result.by_result result.points ≡ type_checks options.now abi (func_parts types.now ty.now) }
{
    let params = params_types(types, ty);
    let gives = result_types(types, ty);
    let by_params = params_use(ty, types, &params, param_limit(abi, options.concurrency));
    let points = result_points(types, ty);
    let by_result = (gives.len() > result_limit(abi, options.concurrency)) | points;
    Passed {
        params,
        gives,
        by_params,
        by_result,
        points,
    }
}

/// What is read of a function that takes the value and gives none, and is lowered without `async`.
fn passed_value(ty: Option<ComponentValType>, types: &TypeAlloc) -> Passed
    requires { SlotStands types.now (option_slot ty) }
    ensures params { listed result.params ≡ take 17 (open_all (spec.params_in (taking (slot_tree (trees types.now.nodes) (option_slot ty))))) }
    ensures gives { listed result.gives ≡ take 17 (open_all (spec.result_in (taking (slot_tree (trees types.now.nodes) (option_slot ty))))) }
    ensures uses { (o : CanonicalOptions) → use_checks (sync o) abi.Lower result.by_params result.by_result result.points ≡ type_checks (sync o) abi.Lower (taking (slot_tree (trees types.now.nodes) (option_slot ty))) }
{
    let params = types.flat_types(ty);
    let by_params = (params.len() > MAX_FLAT_FUNC_PARAMS) | value_points(types, ty);
    Passed {
        params,
        gives: LoweredTypes::new(),
        by_params,
        by_result: false,
        points: false,
    }
}

/// The core type that these flat types make.
fn func_type(
    alloc: Global,
    params: &LoweredTypes,
    results: &LoweredTypes,
    size: PtrSize,
) -> Result<FuncType, OutOfMemory>
    ensures params { IfOk result (λ core. core.params.items ≡ cores size (listed params.now)) }
    ensures results { IfOk result (λ core. core.results.items ≡ cores size (listed results.now)) }
{
    let params = core_types(alloc, params, size)?;
    let results = core_types(alloc, results, size)?;
    Ok(FuncType { params, results })
}

/// The core type of a function of which this is read, where the options give what it needs.
fn lowered(
    types: &TypeAlloc,
    options: &CanonicalOptions,
    abi: Abi,
    passed: &Passed,
    offset: u64,
) -> Result<FuncType, Refusal<'static>>
    ensures ok { (ps : Parts Name Name) → listed passed.now.params ≡ take 17 (open_all (spec.params_in ps)) → listed passed.now.gives ≡ take 17 (open_all (spec.result_in ps)) → IfOk result (λ core. func_form core.params.items core.results.items ≡ spec.core_type (pointer_size options.now) abi options.now.concurrency ps) }
    ensures free { OnOk result (IsFree (use_checks options.now abi passed.now.by_params passed.now.by_result passed.now.points)) }
    ensures err { IfErr result (MemoryOrCausedBy (use_checks options.now abi passed.now.by_params passed.now.by_result passed.now.points) offset) }
{
    check_uses(options, abi, passed, offset)?;
    let core_params = lowered_params(abi, options.concurrency, &passed.params, &passed.gives);
    let core_results = lowered_results(abi, options.concurrency, &passed.gives);
    let size = options.pointer_size();
    let core = func_type(types.allocator(), &core_params, &core_results, size)?;
    Ok(core)
}

/// The core type of a function that is lifted or lowered with the options, where these give what it needs.
pub fn lower(
    ty: &ComponentFuncType,
    types: &TypeAlloc,
    options: &CanonicalOptions,
    abi: Abi,
    offset: u64,
) -> Result<FuncType, Refusal<'static>>
    requires { All (Stands types.now) (parts_of (n.Func ty.now)) }
    ensures ok { IfOk result (λ core. func_form core.params.items core.results.items ≡ spec.core_type (pointer_size options.now) abi options.now.concurrency (func_parts types.now ty.now)) }
    ensures free { OnOk result (IsFree (type_checks options.now abi (func_parts types.now ty.now))) }
    ensures err { IfErr result (MemoryOrCausedBy (type_checks options.now abi (func_parts types.now ty.now)) offset) }
{
    lowered(
        types,
        options,
        abi,
        &passed_of(ty, types, options, abi),
        offset,
    )
}

/// The core type of a function that takes the value and gives none, where it is lowered without `async` and the
/// options give what it needs.
pub fn lower_value(
    ty: Option<ComponentValType>,
    types: &TypeAlloc,
    options: &CanonicalOptions,
    offset: u64,
) -> Result<FuncType, Refusal<'static>>
    requires { SlotStands types.now (option_slot ty) }
    ensures ok { IfOk result (λ core. func_form core.params.items core.results.items ≡ spec.core_type (pointer_size options.now) abi.Lower c.Sync (taking (slot_tree (trees types.now.nodes) (option_slot ty)))) }
    ensures free { OnOk result (IsFree (type_checks (sync options.now) abi.Lower (taking (slot_tree (trees types.now.nodes) (option_slot ty))))) }
    ensures err { IfErr result (MemoryOrCausedBy (type_checks (sync options.now) abi.Lower (taking (slot_tree (trees types.now.nodes) (option_slot ty)))) offset) }
{
    let options = CanonicalOptions {
        concurrency: Concurrency::Sync,
        ..*options
    };
    lowered(
        types,
        &options,
        Abi::Lower,
        &passed_value(ty, types),
        offset,
    )
}
