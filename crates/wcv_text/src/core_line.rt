// What lines say of core types.
ghost use Rattle.std.specs.Prelude.{◌≡◌, ◌++◌, [], map, codes, cond, string_bytes, Option, OnOk};
ghost use Rattle.wcv_core.specs.CoreForm.{composite_form, sub_form};
ghost use Rattle.wcv_types.specs.CoreText.{core_type_text, heap_text, mark_text, ref_text, val_text, storage_text, field_text, spaced, composite_text, super_type_text, super_text, sub_text, greatest_text, item_text};
ghost use Rattle.wcv_types.specs.Quoting.{listed};
ghost use Rattle.wcv_text.specs.Mentions.{separator};
ghost use Rattle.wcv_text.specs.Numbers.{Appends};

use crate::mentions::separator_at;
use crate::numbers::Numbers;
use std::alloc::AllocError;
use std::fmt::Write;
use wcv_core::{
    CompositeInnerType, CoreTypeId, FieldType, HeapType, RefType, StorageType, SubType, SuperType,
    ValType,
};

/// The word, where that is so.
pub fn mark(there: bool, word: &'static str) -> &'static str
    ensures { result.now ≡ mark_text there word.now }
{
    if there { word } else { "" }
}

/// Appends a type by its id.
pub fn push_id(text: &mut String, numbers: &Numbers<'_>, id: CoreTypeId) -> Result<(), AllocError>
    ensures { OnOk result (Appends numbers.now (string_bytes text.old) (string_bytes text.new) (λ w. core_type_text w.core w.groups id.index)) }
{
    let (number, place) = numbers.group(id);
    write!(text, "g{number}.{place}")
}

/// Appends what a reference points to.
fn push_heap(text: &mut String, numbers: &Numbers<'_>, heap: HeapType) -> Result<(), AllocError>
    ensures { OnOk result (Appends numbers.now (string_bytes text.old) (string_bytes text.new) (λ w. heap_text w.core w.groups heap)) }
{
    match heap {
        HeapType::Abstract(name) => write!(text, "{name}"),
        HeapType::Index(place) => write!(text, ".{place}"),
        HeapType::Id(id) => push_id(text, numbers, id),
    }
}

/// Appends a reference type.
pub fn push_ref(text: &mut String, numbers: &Numbers<'_>, ty: RefType) -> Result<(), AllocError>
    ensures { OnOk result (Appends numbers.now (string_bytes text.old) (string_bytes text.new) (λ w. ref_text w.core w.groups ty)) }
{
    text.push_str("(ref ")?;
    text.push_str(mark(ty.nullable, "null "))?;
    text.push_str(mark(ty.shared, "shared "))?;
    push_heap(text, numbers, ty.heap)?;
    text.push_str(")")
}

/// Appends a core value type.
pub fn push_val(text: &mut String, numbers: &Numbers<'_>, ty: ValType) -> Result<(), AllocError>
    ensures { OnOk result (Appends numbers.now (string_bytes text.old) (string_bytes text.new) (λ w. val_text w.core w.groups ty)) }
{
    match ty {
        ValType::I32 => text.push_str("i32"),
        ValType::I64 => text.push_str("i64"),
        ValType::F32 => text.push_str("f32"),
        ValType::F64 => text.push_str("f64"),
        ValType::V128 => text.push_str("v128"),
        ValType::Ref(ty) => push_ref(text, numbers, ty),
    }
}

/// Appends how a field is stored.
fn push_storage(text: &mut String, numbers: &Numbers<'_>, ty: StorageType) -> Result<(), AllocError>
    ensures { OnOk result (Appends numbers.now (string_bytes text.old) (string_bytes text.new) (λ w. storage_text w.core w.groups ty)) }
{
    match ty {
        StorageType::I8 => text.push_str("i8"),
        StorageType::I16 => text.push_str("i16"),
        StorageType::Val(ty) => push_val(text, numbers, ty),
    }
}

/// Appends a field.
fn push_field(text: &mut String, numbers: &Numbers<'_>, field: FieldType) -> Result<(), AllocError>
    ensures { OnOk result (Appends numbers.now (string_bytes text.old) (string_bytes text.new) (λ w. field_text w.core w.groups field)) }
{
    text.push_str(mark(field.mutable, "mut "))?;
    push_storage(text, numbers, field.storage)
}

/// Appends fields with commas between them.
fn push_fields(
    text: &mut String,
    numbers: &Numbers<'_>,
    fields: &[FieldType],
) -> Result<(), AllocError>
    ensures { OnOk result (Appends numbers.now (string_bytes text.old) (string_bytes text.new) (λ w. listed [] (map (field_text w.core w.groups) fields.now))) }
{
    for (index, field) in fields.iter().enumerate() {
        text.push_str(separator_at(", ", index))?;
        push_field(text, numbers, *field)?;
    }
    Ok(())
}

/// Appends value types with spaces between them.
fn push_vals(text: &mut String, numbers: &Numbers<'_>, types: &[ValType]) -> Result<(), AllocError>
    ensures { OnOk result (Appends numbers.now (string_bytes text.old) (string_bytes text.new) (λ w. spaced [] (map (val_text w.core w.groups) types.now))) }
{
    for (index, ty) in types.iter().enumerate() {
        text.push_str(separator_at(" ", index))?;
        push_val(text, numbers, *ty)?;
    }
    Ok(())
}

/// Appends a function type.
fn push_func(
    text: &mut String,
    numbers: &Numbers<'_>,
    params: &[ValType],
    results: &[ValType],
) -> Result<(), AllocError>
    ensures { OnOk result (Appends numbers.now (string_bytes text.old) (string_bytes text.new)
        (λ w. codes "func (" ++ spaced [] (map (val_text w.core w.groups) params.now) ++ codes ") -> (" ++ spaced [] (map (val_text w.core w.groups) results.now) ++ codes ")")) }
{
    text.push_str("func (")?;
    push_vals(text, numbers, params)?;
    text.push_str(") -> (")?;
    push_vals(text, numbers, results)?;
    text.push_str(")")
}

/// Appends a struct type.
fn push_struct(
    text: &mut String,
    numbers: &Numbers<'_>,
    fields: &[FieldType],
) -> Result<(), AllocError>
    ensures { OnOk result (Appends numbers.now (string_bytes text.old) (string_bytes text.new) (λ w. codes "struct {" ++ listed [] (map (field_text w.core w.groups) fields.now) ++ codes "}")) }
{
    text.push_str("struct {")?;
    push_fields(text, numbers, fields)?;
    text.push_str("}")
}

/// Appends the form of a type.
fn push_composite(
    text: &mut String,
    numbers: &Numbers<'_>,
    ty: &CompositeInnerType,
) -> Result<(), AllocError>
    ensures { OnOk result (Appends numbers.now (string_bytes text.old) (string_bytes text.new) (λ w. composite_text w.core w.groups (composite_form ty.now))) }
{
    match ty {
        CompositeInnerType::Func(func) => push_func(text, numbers, &func.params, &func.results),
        CompositeInnerType::Struct(ty) => push_struct(text, numbers, &ty.fields),
        CompositeInnerType::Array(array) => {
            text.push_str("array ")?;
            push_field(text, numbers, array.field)
        }
    }
}

/// Appends the type that a declared supertype is.
fn push_super_type(
    text: &mut String,
    numbers: &Numbers<'_>,
    supertype: SuperType,
) -> Result<(), AllocError>
    ensures { OnOk result (Appends numbers.now (string_bytes text.old) (string_bytes text.new) (λ w. super_type_text w.core w.groups supertype)) }
{
    match supertype {
        SuperType::Index(place) => write!(text, ".{place}"),
        SuperType::Id(id) => push_id(text, numbers, id),
    }
}

/// Appends the declared supertype, where there is one.
fn push_super(
    text: &mut String,
    numbers: &Numbers<'_>,
    supertype: Option<SuperType>,
) -> Result<(), AllocError>
    ensures { OnOk result (Appends numbers.now (string_bytes text.old) (string_bytes text.new) (λ w. super_text w.core w.groups supertype)) }
{
    if let Some(supertype) = supertype {
        text.push_str("super ")?;
        push_super_type(text, numbers, supertype)?;
        text.push_str(" ")?;
    }
    Ok(())
}

/// Appends a type of a group.
pub fn push_sub(text: &mut String, numbers: &Numbers<'_>, ty: &SubType) -> Result<(), AllocError>
    ensures { OnOk result (Appends numbers.now (string_bytes text.old) (string_bytes text.new) (λ w. sub_text w.core w.groups (sub_form ty.now))) }
{
    text.push_str(mark(!ty.is_final, "open "))?;
    push_super(text, numbers, ty.supertype)?;
    text.push_str(mark(ty.shared, "shared "))?;
    push_composite(text, numbers, &ty.inner)
}
