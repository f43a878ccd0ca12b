// Core items that are asked for, and features.
ghost use Rattle.std.specs.Prelude.{◌≡◌, ◌++◌, ◌∷◌, [], OnOk, IfErr};
ghost use Rattle.wcv_core.specs.CoreFeatures.{needs};
ghost use Rattle.wcv_core.specs.CoreForm.{sub_form};
ghost use Rattle.wcv_core.specs.declared.error.ErrorKind.TheVariants as kinds;
ghost use Rattle.wcv_syntax.specs.declared.core_section.ExternalKind.TheVariants as sort;
ghost use Rattle.wcv_lower.specs.CanonOptions.{memory_type_at, memory_rules, core_entity_at, is_other_func};
ghost use Rattle.wcv_lower.specs.Checks.{IsFree, if_found, missing};
ghost use Rattle.wcv_lower.specs.CoreInstances.{core_item_at};
ghost use Rattle.wcv_lower.specs.Types.{same_vals, form_takes_and_gives};
ghost use Rattle.wcv_spaces.specs.Contents.{StateStands, context_of};
ghost use Rattle.wcv_spaces.specs.Promises.{MemoryOrCausedBy};

use bitflags::Flags;
use wcv_core::{
    CompositeInnerType, Error, ErrorKind, MemoryType, Refusal, SubType, ValType, WasmFeatures, Why,
    missing_feature,
};
use wcv_matching::same_val;
use wcv_state::ComponentState;
use wcv_types::TypeAlloc;

/// Refuses that a feature is missing which something needs, if it is there.
pub fn require(
    features: &WasmFeatures,
    feature: WasmFeatures,
    there: bool,
    by: &'static str,
    offset: u64,
) -> Result<(), Error>
    ensures ok { OnOk result (IsFree (needs features.now feature.0 there)) }
    ensures err { IfErr result (MemoryOrCausedBy (needs features.now feature.0 there) offset) }
{
    if there && !features.contains(feature) {
        let refusal = missing_feature(by, "", feature, offset);
        return Err(Error::from(refusal));
    }
    Ok(())
}

/// Whether the lists are equal.
#[tactic(auto, using(crate::proofs::OptionLists::vals_fail, crate::proofs::OptionLists::vals_go, crate::proofs::OptionLists::vals_end, crate::proofs::OptionLists::vals_unequal))]
fn same_vals(a: &[ValType], b: &[ValType]) -> bool
    ensures { result ≡ same_vals a.now b.now }
{
    if a.len() != b.len() {
        return false;
    }
    for i in 0..a.len() {
        if !same_val(a[i], b[i]) {
            return false;
        }
    }
    true
}

/// Whether the core type is one of functions that take these and give those.
pub fn takes_and_gives(ty: &SubType, params: &[ValType], results: &[ValType]) -> bool
    ensures { result ≡ form_takes_and_gives params.now results.now (sub_form ty.now).inner }
{
    match &ty.inner {
        CompositeInnerType::Func(func) => {
            same_vals(params, func.params.as_slice()) && same_vals(results, func.results.as_slice())
        }
        _ => false,
    }
}

/// Whether a memory may serve: it is not shared, and has 32 bits or the feature for more.
fn check_memory_type(
    ty: MemoryType,
    index: u32,
    features: &WasmFeatures,
    offset: u64,
) -> Result<(), Error>
    ensures ok { OnOk result (IsFree (memory_rules features.now ty)) }
    ensures err { IfErr result (MemoryOrCausedBy (memory_rules features.now ty) offset) }
{
    if ty.shared {
        let why = Why::new("memory index %1 is of a shared memory, which may not stand here");
        let refusal = Error::new(
            ErrorKind::Options,
            offset,
            why.numbers([index as u64, 0, 0]),
        );
        return Err(Error::from(refusal));
    }
    require(
        features,
        WasmFeatures::CM64,
        ty.memory64,
        "a memory of 64 bits",
        offset,
    )
}

/// Whether the memory at the index may serve.
pub fn check_memory(
    index: u32,
    state: &ComponentState,
    types: &TypeAlloc,
    offset: u64,
) -> Result<(), Error>
    ensures ok { OnOk result (IsFree (missing (core_item_at (context_of types.now state.now) sort.Memory index) ++ if_found (memory_rules state.now.features) (memory_type_at (context_of types.now state.now) index))) }
    ensures err { IfErr result (MemoryOrCausedBy (missing (core_item_at (context_of types.now state.now) sort.Memory index) ++ if_found (memory_rules state.now.features) (memory_type_at (context_of types.now state.now) index)) offset) }
{
    let _ = types;
    let ty = state.memory_at(index, offset)?;
    check_memory_type(ty, index, state.features(), offset)
}

/// Whether the core function at the index, which an option names, takes these and gives those. The text says which
/// option asks for that.
pub fn check_core_func(
    asked: &'static str,
    index: u32,
    params: &[ValType],
    results: &[ValType],
    state: &ComponentState,
    types: &TypeAlloc,
    offset: u64,
) -> Result<(), Error>
    requires stands { StateStands types.now state.now }
    ensures ok { OnOk result (IsFree (missing (core_item_at (context_of types.now state.now) sort.Func index) ++ (kinds.Options, is_other_func types.now.core params.now results.now (core_entity_at (context_of types.now state.now) sort.Func index)) ∷ [])) }
    ensures err { IfErr result (MemoryOrCausedBy (missing (core_item_at (context_of types.now state.now) sort.Func index) ++ (kinds.Options, is_other_func types.now.core params.now results.now (core_entity_at (context_of types.now state.now) sort.Func index)) ∷ []) offset) }
{
    let id = state.core_function_at(index, offset)?;
    let found = types.core_types().get(id);
    if takes_and_gives(found, params, results) {
        return Ok(());
    }
    Err(Error::told(
        ErrorKind::Options,
        offset,
        format_args!("{asked}, and core function {index} is {found}"),
    ))
}
