// Core types in groups.
ghost use Rattle.std.specs.Prelude.{◌++◌, ◌≡◌, ◌∷◌, [], OnOk, false, if◌then◌else◌, codes};
ghost use Rattle.json.specs.Token.{key, boolean};
ghost use Rattle.wcv_core.specs.CoreForm.{func_form, struct_form, array_form, sub_form, group_form};
ghost use Rattle.wcv_write.specs.CoreForms.{storage_data, field_data, core_func_data, super_data, last_members, sub_members, sub_data, group_data};
ghost use Rattle.wcv_write.specs.Json.{optional_tokens, tokens_of, tokens_of_members};

use crate::core_value::write_core_value;
use crate::indices::{Indices, Numbers};
use crate::list::{ToJson, write_list};
use crate::member::write_mark;
use crate::output::Output;
use std::alloc::AllocError;
use wcv_core::{
    CompositeInnerType, FieldType, FuncType, RecGroup, StorageType, SubType, SuperType,
};

// Writes the type of a field.
#[tactic(auto, unfolding(crate::specs::CoreForms::storage_data))]
fn write_storage(out: &mut Output, storage: &StorageType) -> Result<(), AllocError>
    ensures { OnOk result (out.new ≡ out.old ++ tokens_of (storage_data storage.now)) }
{
    match storage {
        StorageType::I8 => out.text("i8"),
        StorageType::I16 => out.text("i16"),
        StorageType::Val(value) => write_core_value(out, value),
    }
}

// Writes a field.
#[tactic(auto, unfolding(crate::specs::CoreForms::field_data))]
fn write_field(out: &mut Output, field: &FieldType) -> Result<(), AllocError>
    ensures { OnOk result (out.new ≡ out.old ++ tokens_of (field_data field.now)) }
{
    out.begin_object()?;
    write_mark(out, "mut", field.mutable)?;
    out.key("type")?;
    write_storage(out, &field.storage)?;
    out.end_object()
}

impl ToJson for FieldType {
    ghost form = { λ _ field. field_data field };

    fn write<I: Indices>(&self, out: &mut Output, _indices: &I) -> Result<(), AllocError> {
        write_field(out, self)
    }
}

// Writes parameters and results.
#[tactic(auto, unfolding(crate::specs::CoreForms::core_func_data))]
fn write_core_func(out: &mut Output, func: &FuncType) -> Result<(), AllocError>
    ensures { OnOk result (out.new ≡ out.old ++ tokens_of (core_func_data func.now.params.items func.now.results.items)) }
{
    out.begin_array()?;
    write_list(out, &Numbers, &func.params)?;
    write_list(out, &Numbers, &func.results)?;
    out.end_array()
}

// Writes that a type is not final, where it is not.
fn write_final(out: &mut Output, is_final: bool) -> Result<(), AllocError>
    ensures { OnOk result (out.new ≡ out.old ++ (if is_final then [] else key (codes "final") ∷ boolean false ∷ [])) }
{
    if is_final {
        return Ok(());
    }
    out.key("final")?;
    out.boolean(false)
}

// Writes a supertype, where there is one.
fn write_super(out: &mut Output, supertype: Option<SuperType>) -> Result<(), AllocError>
    ensures { OnOk result (out.new ≡ out.old ++ optional_tokens (codes "super") super_data supertype) }
{
    let Some(supertype) = supertype else {
        return Ok(());
    };
    out.key("super")?;
    match supertype {
        SuperType::Index(index) => out.count(index as u64),
        SuperType::Id(_) => out.null(),
    }
}

// Writes the members of a function type, and the closing brace.
fn write_func_members(out: &mut Output, func: &FuncType, ty: &SubType) -> Result<(), AllocError>
    ensures { OnOk result (out.new ≡ out.old ++ tokens_of_members (sub_members (func_form func.now.params.items func.now.results.items) (sub_form ty.now))) }
{
    write_final(out, ty.is_final)?;
    out.key("func")?;
    write_core_func(out, func)?;
    write_mark(out, "shared", ty.shared)?;
    write_super(out, ty.supertype)?;
    out.end_object()
}

// Writes the members of a struct type, and the closing brace.
fn write_struct_members(
    out: &mut Output,
    fields: &[FieldType],
    ty: &SubType,
) -> Result<(), AllocError>
    ensures { OnOk result (out.new ≡ out.old ++ tokens_of_members (sub_members (struct_form fields.now) (sub_form ty.now))) }
{
    write_final(out, ty.is_final)?;
    write_mark(out, "shared", ty.shared)?;
    out.key("struct")?;
    write_list(out, &Numbers, fields)?;
    write_super(out, ty.supertype)?;
    out.end_object()
}

// Writes the marks of a type and its supertype, and the closing brace.
fn write_last_members(out: &mut Output, ty: &SubType) -> Result<(), AllocError>
    ensures { OnOk result (out.new ≡ out.old ++ tokens_of_members (last_members (sub_form ty.now))) }
{
    write_final(out, ty.is_final)?;
    write_mark(out, "shared", ty.shared)?;
    write_super(out, ty.supertype)?;
    out.end_object()
}

// Writes the members of an array type, and the closing brace.
fn write_array_members(out: &mut Output, field: &FieldType, ty: &SubType) -> Result<(), AllocError>
    ensures { OnOk result (out.new ≡ out.old ++ tokens_of_members (sub_members (array_form field.now) (sub_form ty.now))) }
{
    out.key("array")?;
    write_field(out, field)?;
    write_last_members(out, ty)
}

// Writes a core type.
#[tactic(auto, unfolding(crate::specs::CoreForms::sub_data))]
fn write_sub(out: &mut Output, ty: &SubType) -> Result<(), AllocError>
    ensures { OnOk result (out.new ≡ out.old ++ tokens_of (sub_data (sub_form ty.now))) }
{
    out.begin_object()?;
    match &ty.inner {
        CompositeInnerType::Func(func) => write_func_members(out, func, ty),
        CompositeInnerType::Struct(ty_struct) => {
            write_struct_members(out, &ty_struct.fields, ty)
        }
        CompositeInnerType::Array(array) => write_array_members(out, &array.field, ty),
    }
}

impl ToJson for SubType {
    ghost form = { λ _ ty. sub_data (sub_form ty) };

    fn write<I: Indices>(&self, out: &mut Output, _indices: &I) -> Result<(), AllocError> {
        write_sub(out, self)
    }
}

/// Writes a group.
#[tactic(auto, using(crate::proofs::Lists::items_of_map))]
pub fn write_group(out: &mut Output, group: &RecGroup) -> Result<(), AllocError>
    ensures { OnOk result (out.new ≡ out.old ++ tokens_of (group_data (group_form group.now))) }
{
    write_list(out, &Numbers, &group.types)
}
