// The features that core types need.
ghost use Rattle.std.specs.Prelude.{◌≡◌, ◌++◌, not, map, OnOk, IfErr};
ghost use Rattle.wcv_core.specs.Checks.{IsFree, CausedBy, all_checks};
ghost use Rattle.wcv_core.specs.CoreFeatures.{needs, is_gc_name, is_exn_name, heap_needs, ref_needs, val_needs, field_needs, form_needs, sub_needs, group_needs};
ghost use Rattle.wcv_core.specs.Features.{gc, function_references, shared_everything_threads};
ghost use Rattle.wcv_core.specs.Refusal.{error_kind, error_offset};
ghost use Rattle.wcv_core.specs.CoreForm.{func_form, composite_form, sub_form, group_form};

use crate::core_types::{
    AbstractHeap, CompositeInnerType, FieldType, FuncType, HeapType, RecGroup, RefType,
    StorageType, SubType, ValType,
};
use crate::error::{Error, ErrorKind, Refusal, Why};
use crate::features::WasmFeatures;
use bitflags::Flags;

/// The refusal of what needs a feature that the listing does not name. `by` says what needs it, and the name
/// stands at `%n` there, if it has one.
pub fn missing_feature<'a>(
    by: &'static str,
    name: &'a str,
    feature: WasmFeatures,
    offset: u64,
) -> Refusal<'a>
    ensures kind { error_kind result ≡ ErrorKind.Feature }
    ensures offset { error_offset result ≡ offset }
{
    let why = Why::new(by).name(name).needs(feature.name());
    Error::new(ErrorKind::Feature, offset, why)
}

/// Refuses what needs a feature that is missing, if it is there. `by` and the name say what it is, as in
/// `missing_feature`.
pub fn require_feature(
    features: &WasmFeatures,
    feature: WasmFeatures,
    there: bool,
    by: &'static str,
    name: &'static str,
    offset: u64,
) -> Result<(), Refusal<'static>>
    ensures ok { OnOk result (IsFree (needs features.now feature.0 there)) }
    ensures err { IfErr result (CausedBy (needs features.now feature.0 there) offset) }
{
    if there && !features.contains(feature) {
        return Err(missing_feature(by, name, feature, offset));
    }
    Ok(())
}

fn is_gc_name(name: AbstractHeap) -> bool
    ensures { result ≡ is_gc_name name }
{
    match name {
        AbstractHeap::Func | AbstractHeap::Extern | AbstractHeap::Exn | AbstractHeap::NoExn => {
            false
        }
        _ => true,
    }
}

fn is_exn_name(name: AbstractHeap) -> bool
    ensures { result ≡ is_exn_name name }
{
    match name {
        AbstractHeap::Exn | AbstractHeap::NoExn => true,
        _ => false,
    }
}

fn check_gc(
    features: &WasmFeatures,
    there: bool,
    by: &'static str,
    offset: u64,
) -> Result<(), Refusal<'static>>
    ensures ok { OnOk result (IsFree (needs features.now gc there)) }
    ensures err { IfErr result (CausedBy (needs features.now gc there) offset) }
{
    require_feature(features, WasmFeatures::GC, there, by, "", offset)
}

fn check_references(
    features: &WasmFeatures,
    there: bool,
    by: &'static str,
    offset: u64,
) -> Result<(), Refusal<'static>>
    ensures ok { OnOk result (IsFree (needs features.now function_references there)) }
    ensures err { IfErr result (CausedBy (needs features.now function_references there) offset) }
{
    require_feature(
        features,
        WasmFeatures::FUNCTION_REFERENCES,
        there,
        by,
        "",
        offset,
    )
}

fn check_shared(
    features: &WasmFeatures,
    there: bool,
    by: &'static str,
    offset: u64,
) -> Result<(), Refusal<'static>>
    ensures ok { OnOk result (IsFree (needs features.now shared_everything_threads there)) }
    ensures err { IfErr result (CausedBy (needs features.now shared_everything_threads there) offset) }
{
    require_feature(
        features,
        WasmFeatures::SHARED_EVERYTHING_THREADS,
        there,
        by,
        "",
        offset,
    )
}

/// Whether a heap may stand in a reference with this mark.
fn check_heap(
    features: &WasmFeatures,
    shared: bool,
    heap: HeapType,
    offset: u64,
) -> Result<(), Refusal<'static>>
    ensures ok { OnOk result (IsFree (heap_needs features.now shared heap)) }
    ensures err { IfErr result (CausedBy (heap_needs features.now shared heap) offset) }
{
    match heap {
        HeapType::Abstract(name) => {
            let by = "the heap type `%n`";
            require_feature(
                features,
                WasmFeatures::GC,
                is_gc_name(name),
                by,
                name.word(),
                offset,
            )?;
            require_feature(
                features,
                WasmFeatures::EXCEPTIONS,
                is_exn_name(name),
                by,
                name.word(),
                offset,
            )?;
            check_shared(features, shared, "a shared reference", offset)
        }
        HeapType::Index(_) | HeapType::Id(_) => {
            check_references(features, true, "a reference to a type", offset)
        }
    }
}

/// Whether a reference type may stand.
pub fn check_ref_features(
    features: &WasmFeatures,
    ty: RefType,
    offset: u64,
) -> Result<(), Refusal<'static>>
    ensures ok { OnOk result (IsFree (ref_needs features.now ty)) }
    ensures err { IfErr result (CausedBy (ref_needs features.now ty) offset) }
{
    check_references(
        features,
        !ty.nullable,
        "a reference that is never null",
        offset,
    )?;
    check_heap(features, ty.shared, ty.heap, offset)
}

/// Whether a value type may stand.
pub fn check_val_features(
    features: &WasmFeatures,
    ty: ValType,
    offset: u64,
) -> Result<(), Refusal<'static>>
    ensures ok { OnOk result (IsFree (val_needs features.now ty)) }
    ensures err { IfErr result (CausedBy (val_needs features.now ty) offset) }
{
    match ty {
        ValType::V128 => require_feature(features, WasmFeatures::SIMD, true, "`v128`", "", offset),
        ValType::Ref(r) => check_ref_features(features, r, offset),
        _ => Ok(()),
    }
}

#[tactic(auto, using(crate::proofs::Closing::free_next))]
fn check_vals(
    features: &WasmFeatures,
    types: &[ValType],
    offset: u64,
) -> Result<(), Refusal<'static>>
    ensures ok { OnOk result (IsFree (all_checks (val_needs features.now) types.now)) }
    ensures err { IfErr result (CausedBy (all_checks (val_needs features.now) types.now) offset) }
{
    for ty in types {
        check_val_features(features, *ty, offset)?;
    }
    Ok(())
}

fn check_field(
    features: &WasmFeatures,
    field: FieldType,
    offset: u64,
) -> Result<(), Refusal<'static>>
    ensures ok { OnOk result (IsFree (field_needs features.now field)) }
    ensures err { IfErr result (CausedBy (field_needs features.now field) offset) }
{
    match field.storage {
        StorageType::Val(ty) => check_val_features(features, ty, offset),
        _ => Ok(()),
    }
}

#[tactic(auto, using(crate::proofs::Closing::free_next))]
fn check_fields(
    features: &WasmFeatures,
    fields: &[FieldType],
    offset: u64,
) -> Result<(), Refusal<'static>>
    ensures ok { OnOk result (IsFree (all_checks (field_needs features.now) fields.now)) }
    ensures err { IfErr result (CausedBy (all_checks (field_needs features.now) fields.now) offset) }
{
    for field in fields {
        check_field(features, *field, offset)?;
    }
    Ok(())
}

#[tactic(auto, using(crate::proofs::Closing::caused_left, crate::proofs::Closing::caused_right, crate::proofs::Causes::free_both))]
fn check_func(features: &WasmFeatures, func: &FuncType, offset: u64) -> Result<(), Refusal<'static>>
    ensures ok { OnOk result (IsFree (form_needs features.now (func_form func.now.params.items func.now.results.items))) }
    ensures err { IfErr result (CausedBy (form_needs features.now (func_form func.now.params.items func.now.results.items)) offset) }
{
    check_vals(features, func.params.as_slice(), offset)?;
    check_vals(features, func.results.as_slice(), offset)
}

#[tactic(auto, using(crate::proofs::Closing::caused_left, crate::proofs::Closing::caused_right, crate::proofs::Causes::free_both))]
fn check_inner(
    features: &WasmFeatures,
    form: &CompositeInnerType,
    offset: u64,
) -> Result<(), Refusal<'static>>
    ensures ok { OnOk result (IsFree (form_needs features.now (composite_form form.now))) }
    ensures err { IfErr result (CausedBy (form_needs features.now (composite_form form.now)) offset) }
{
    match form {
        CompositeInnerType::Func(func) => check_func(features, func, offset),
        CompositeInnerType::Struct(ty) => {
            check_gc(features, true, "a struct", offset)?;
            check_fields(features, ty.fields.as_slice(), offset)
        }
        CompositeInnerType::Array(ty) => {
            check_gc(features, true, "an array", offset)?;
            check_field(features, ty.field, offset)
        }
    }
}

#[tactic(auto, using(crate::proofs::Closing::caused_left, crate::proofs::Closing::caused_right, crate::proofs::Causes::free_both))]
fn check_sub(features: &WasmFeatures, ty: &SubType, offset: u64) -> Result<(), Refusal<'static>>
    ensures ok { OnOk result (IsFree (sub_needs features.now (sub_form ty.now))) }
    ensures err { IfErr result (CausedBy (sub_needs features.now (sub_form ty.now)) offset) }
{
    check_gc(features, !ty.is_final, "a type that is not final", offset)?;
    check_gc(features, ty.supertype.is_some(), "a supertype", offset)?;
    check_shared(features, ty.shared, "a shared type", offset)?;
    check_inner(features, &ty.inner, offset)
}

#[tactic(auto, using(crate::proofs::Closing::free_mapped))]
fn check_subs(
    features: &WasmFeatures,
    types: &[SubType],
    offset: u64,
) -> Result<(), Refusal<'static>>
    ensures ok { OnOk result (IsFree (all_checks (sub_needs features.now) (map sub_form types.now))) }
    ensures err { IfErr result (CausedBy (all_checks (sub_needs features.now) (map sub_form types.now)) offset) }
{
    for ty in types {
        check_sub(features, ty, offset)?;
    }
    Ok(())
}

/// Whether all features that a group needs may be used.
#[tactic(auto, using(crate::proofs::Closing::caused_left, crate::proofs::Closing::caused_right, crate::proofs::Causes::free_both))]
pub fn check_group_features(
    features: &WasmFeatures,
    group: &RecGroup,
    offset: u64,
) -> Result<(), Refusal<'static>>
    ensures ok { OnOk result (IsFree (group_needs features.now (group_form group.now))) }
    ensures err { IfErr result (CausedBy (group_needs features.now (group_form group.now)) offset) }
{
    check_gc(
        features,
        group.types.len() != 1,
        "a group of another length than one",
        offset,
    )?;
    check_subs(features, group.types.as_slice(), offset)
}
