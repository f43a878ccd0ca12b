// What written types of a module come to.
ghost use Rattle.std.specs.Prelude.{◌≡◌, ◌<◌, ◌++◌, ◌+◌, Some, length, slice_get, All, IfOk, OnOk, IfErr};
ghost use Rattle.wcv_core.specs.Checks.{IsFree, CausedBy, missing};
ghost use Rattle.wcv_core.specs.CoreForm.{composite_form};
ghost use Rattle.wcv_core.specs.CoreGroups.{total, IsHeapWithin};
ghost use Rattle.wcv_core.specs.CoreJoining.{then_checks};
ghost use Rattle.wcv_core.specs.CoreMatching.{ref_shared, type_at};
ghost use Rattle.wcv_core.specs.CoreWritten.{IsKnown, heap_checks};
ghost use Rattle.wcv_module.specs.Kept.{IsEntityKnown};
ghost use Rattle.wcv_syntax.specs.CoreItems as items;
ghost use Rattle.wcv_syntax.specs.ModuleTypes.{module_entries};
ghost use Rattle.wcv_syntax.specs.CoreItems.{type_entries, func_checks, tag_checks, closed_ref, element_checks, sharing_checks, table_checks, global_checks, ref_checks, closed_table, closed_global, entity_of, entity_size, form_size};

use crate::features::{check_memory64, check_shared, check_tags};
use crate::module::Module;
use crate::sizes::{broken, check_memory, check_table_sizes};
use wcv_core::{
    CompositeInnerType, CoreTypeId, CoreTypes, EntityType, Error, ErrorKind, GlobalType, HeapType,
    RefType, Refusal, Site, TableType, WasmFeatures, Why, check_ref_features, check_val_features,
    close_heap, close_val, closed_mark,
};
use wcv_syntax::TypeRef;

/// The type at an index.
pub fn type_id_at(
    types: &[CoreTypeId],
    index: u32,
    offset: u64,
) -> Result<CoreTypeId, Refusal<'static>>
    ensures ok { IfOk result (λ t. slice_get types.now index ≡ Some t) }
    ensures err { IfErr result (CausedBy (missing (slice_get types.now index)) offset) }
{
    match types.get(index as usize) {
        Some(id) => Ok(*id),
        None => {
            let len = types.len() as u64;
            let why = Why::new(
                "core type %1 is out of bounds: %2 types stand before it in the module",
            );
            let why = why.numbers([index as u64, len, 0]);
            Err(Error::new(ErrorKind::OutOfBounds, offset, why))
        }
    }
}

fn is_func(form: &CompositeInnerType) -> bool
    ensures { result ≡ items.is_func_form (composite_form form.now) }
{
    matches!(form, CompositeInnerType::Func(_))
}

fn gives(form: &CompositeInnerType) -> bool
    ensures { result ≡ items.form_gives (composite_form form.now) }
{
    match form {
        CompositeInnerType::Func(func) => !func.results.is_empty(),
        _ => false,
    }
}

/// The function type at an index. What it is for is for the message.
fn func_type_at(
    types: &[CoreTypeId],
    core: &CoreTypes,
    index: u32,
    of: &'static str,
    offset: u64,
) -> Result<CoreTypeId, Refusal<'static>>
    requires { All (IsKnown (total core.now)) (type_entries types.now) }
    ensures ok { IfOk result (λ t. slice_get types.now index ≡ Some t) }
    ensures known { IfOk result (λ t. t.index < total core.now) }
    ensures free { OnOk result (IsFree (func_checks core.now (slice_get types.now index))) }
    ensures err { IfErr result (CausedBy (func_checks core.now (slice_get types.now index)) offset) }
{
    let id = type_id_at(types, index, offset)?;
    if !is_func(&core.get(id).inner) {
        let why = Why::new("core type %1 is no function type, and cannot be the type of %w");
        let why = why.word(of).numbers([index as u64, 0, 0]);
        return Err(Error::new(ErrorKind::WrongSort, offset, why));
    }
    Ok(id)
}

/// The type of a tag at an index.
fn tag_type_at(
    features: &WasmFeatures,
    types: &[CoreTypeId],
    core: &CoreTypes,
    index: u32,
    offset: u64,
) -> Result<CoreTypeId, Refusal<'static>>
    requires { All (IsKnown (total core.now)) (type_entries types.now) }
    ensures ok { IfOk result (λ t. slice_get types.now index ≡ Some t) }
    ensures known { IfOk result (λ t. t.index < total core.now) }
    ensures free { OnOk result (IsFree (tag_checks features.now core.now (slice_get types.now index))) }
    ensures err { IfErr result (CausedBy (tag_checks features.now core.now (slice_get types.now index)) offset) }
{
    check_tags(features, offset)?;
    let id = func_type_at(types, core, index, "a tag", offset)?;
    if gives(&core.get(id).inner) {
        let why = Why::new("core type %1 is the type of a tag, and must have no results");
        return Err(broken(why.numbers([index as u64, 0, 0]), offset));
    }
    Ok(id)
}

/// Where types are put into closed form: over this table, and in no group.
fn site(core: &CoreTypes, offset: u64) -> Site
    ensures known { result.known ≡ total core.now }
    ensures len { result.len ≡ 0 }
    ensures offset { result.offset ≡ offset }
{
    Site {
        known: core.len() as u64,
        len: 0,
        offset,
    }
}

/// A reference type in closed form.
fn close_ref(
    made: &Module,
    core: &CoreTypes,
    ty: RefType,
    offset: u64,
) -> Result<RefType, Refusal<'static>>
    ensures ok { IfOk result (λ r. r ≡ closed_ref (module_entries made.now) ty) }
    ensures free { OnOk result (IsFree (heap_checks (total core.now) (module_entries made.now) 0 ty.heap)) }
    ensures err { IfErr result (CausedBy (heap_checks (total core.now) (module_entries made.now) 0 ty.heap) offset) }
{
    let shared = closed_mark(ty.heap, ty.shared);
    let heap = close_heap(made, site(core, offset), ty.heap)?;
    Ok(RefType {
        nullable: ty.nullable,
        shared,
        heap,
    })
}

/// Whether a reference is shared: by the type that it names, or by its own mark.
fn is_shared(core: &CoreTypes, ty: RefType) -> bool
    requires { IsHeapWithin (total core.now) 0 ty.heap }
    ensures { result ≡ ref_shared core.now ty }
{
    match ty.heap {
        HeapType::Id(id) => core.get(id).shared,
        _ => ty.shared,
    }
}

/// The elements of a table in closed form.
fn close_element(
    features: &WasmFeatures,
    made: &Module,
    core: &CoreTypes,
    ty: &TableType,
    offset: u64,
) -> Result<RefType, Refusal<'static>>
    requires { All (IsKnown (total core.now)) (module_entries made.now) }
    ensures ok { IfOk result (λ r. r ≡ closed_ref (module_entries made.now) ty.now.element_type) }
    ensures free { OnOk result (IsFree (then_checks (element_checks features.now core.now (module_entries made.now) ty.now.element_type) (sharing_checks core.now (module_entries made.now) ty.now))) }
    ensures err { IfErr result (CausedBy (then_checks (element_checks features.now core.now (module_entries made.now) ty.now.element_type) (sharing_checks core.now (module_entries made.now) ty.now)) offset) }
{
    check_ref_features(features, ty.element_type, offset)?;
    let element = close_ref(made, core, ty.element_type, offset)?;
    if ty.shared && !is_shared(core, element) {
        return Err(broken(
            Why::new("a shared table has elements that are not shared"),
            offset,
        ));
    }
    Ok(element)
}

/// A table type in closed form.
fn close_table(
    features: &WasmFeatures,
    made: &Module,
    core: &CoreTypes,
    ty: &TableType,
    offset: u64,
) -> Result<TableType, Refusal<'static>>
    requires { All (IsKnown (total core.now)) (module_entries made.now) }
    ensures ok { IfOk result (λ t. t ≡ closed_table (module_entries made.now) ty.now) }
    ensures free { OnOk result (IsFree (table_checks features.now core.now (module_entries made.now) ty.now)) }
    ensures err { IfErr result (CausedBy (table_checks features.now core.now (module_entries made.now) ty.now) offset) }
{
    let by = "a table with 64-bit indices";
    check_memory64(features, ty.table64, by, offset)?;
    check_shared(features, ty.shared, "a shared table", offset)?;
    check_table_sizes(ty, offset)?;
    let element_type = close_element(features, made, core, ty, offset)?;
    Ok(TableType {
        element_type,
        initial: ty.initial,
        maximum: ty.maximum,
        table64: ty.table64,
        shared: ty.shared,
    })
}

/// A global type in closed form.
fn close_global(
    features: &WasmFeatures,
    made: &Module,
    core: &CoreTypes,
    ty: &GlobalType,
    offset: u64,
) -> Result<GlobalType, Refusal<'static>>
    ensures ok { IfOk result (λ g. g ≡ closed_global (module_entries made.now) ty.now) }
    ensures free { OnOk result (IsFree (global_checks features.now core.now (module_entries made.now) ty.now)) }
    ensures err { IfErr result (CausedBy (global_checks features.now core.now (module_entries made.now) ty.now) offset) }
{
    check_shared(features, ty.shared, "a shared global", offset)?;
    check_val_features(features, ty.content_type, offset)?;
    let content_type = close_val(made, site(core, offset), ty.content_type)?;
    Ok(GlobalType {
        content_type,
        mutable: ty.mutable,
        shared: ty.shared,
    })
}

/// What a written type comes to, over the types of a module.
pub fn written(
    features: &WasmFeatures,
    made: &Module,
    core: &CoreTypes,
    ty: &TypeRef,
    offset: u64,
) -> Result<EntityType, Refusal<'static>>
    requires { All (IsKnown (total core.now)) (module_entries made.now) }
    ensures ok { IfOk result (λ e. entity_of made.now.types ty.now ≡ Some e) }
    ensures known { IfOk result (IsEntityKnown (total core.now)) }
    ensures free { OnOk result (IsFree (ref_checks features.now core.now made.now.types ty.now)) }
    ensures err { IfErr result (CausedBy (ref_checks features.now core.now made.now.types ty.now) offset) }
{
    match ty {
        TypeRef::Func(index) => {
            let id = func_type_at(made.types(), core, *index, "a function", offset)?;
            Ok(EntityType::Func(id))
        }
        TypeRef::Tag(index) => {
            let id = tag_type_at(features, made.types(), core, *index, offset)?;
            Ok(EntityType::Tag(id))
        }
        TypeRef::Table(ty) => {
            let table = close_table(features, made, core, ty, offset)?;
            Ok(EntityType::Table(table))
        }
        TypeRef::Memory(ty) => {
            check_memory(features, ty, offset)?;
            Ok(EntityType::Memory(*ty))
        }
        TypeRef::Global(ty) => {
            let global = close_global(features, made, core, ty, offset)?;
            Ok(EntityType::Global(global))
        }
    }
}
