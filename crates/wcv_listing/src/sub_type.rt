// Core types in a group.
ghost use Rattle.std.specs.Prelude.{◌≡◌, Bool, IfOk, Option, map, option_map};
ghost use Rattle.wcv_core.specs.declared.core_types.SuperType.{SuperType};
ghost use Rattle.wcv_core.specs.CoreForm.{SubForm, func_form, composite_form, sub_form, group_form};
ghost use Rattle.wcv_listing.specs.Core.{core_value_of};
ghost use Rattle.wcv_listing.specs.CoreForms.{storage_of, field_of, core_func_of, composite_forms, composite_of, final_mark, super_of, sub_under, sub_of, rec_of};
ghost use Rattle.wcv_listing.specs.Fields.{both, first_of, mark, optional};
ghost use Rattle.wcv_listing.specs.Seen.{view};

use crate::core_value::{mark_of, read_core_value};
use crate::fields::{four_fields, two_fields};
use crate::list::{FromValue, read_list};
use crate::node::Node;
use crate::value::{bool_of, first_key, index_of, pair_of, text_of};
use std::alloc::Global;
use wcv_core::{
    ArrayType, CompositeInnerType, FieldType, FuncType, OutOfMemory, RecGroup, StorageType,
    StructType, SubType, SuperType, ValType,
};

// The type of a field.
fn read_storage(value: Node<'_, '_>) -> Option<StorageType>
    ensures { result ≡ storage_of (view value.entry) }
{
    match text_of(value) {
        Some("i8") => Some(StorageType::I8),
        Some("i16") => Some(StorageType::I16),
        _ => read_core_value(value).map(StorageType::Val),
    }
}

// A field.
fn read_field(value: Node<'_, '_>) -> Option<FieldType>
    ensures { result ≡ field_of (view value.entry) }
{
    let Some((storage, mutable)) = two_fields(value, "type", "mut") else {
        return None;
    };
    let Some(storage) = storage.and_then(read_storage) else {
        return None;
    };
    let Some(mutable) = mark_of(mutable) else {
        return None;
    };
    Some(FieldType { storage, mutable })
}

impl FromValue for FieldType {
    ghost seen = { λ field. field };

    ghost meant = { field_of };

    fn from_value(_alloc: Global, value: Node<'_, '_>) -> Result<Option<FieldType>, OutOfMemory> {
        Ok(read_field(value))
    }
}

impl FromValue for ValType {
    ghost seen = { λ ty. ty };

    ghost meant = { core_value_of };

    fn from_value(_alloc: Global, value: Node<'_, '_>) -> Result<Option<ValType>, OutOfMemory> {
        Ok(read_core_value(value))
    }
}

// A function type.
fn read_core_func(alloc: Global, value: Node<'_, '_>) -> Result<Option<FuncType>, OutOfMemory>
    ensures { IfOk result (λ func. option_map (λ f. func_form f.params.items f.results.items) func ≡ core_func_of (view value.entry)) }
{
    let Some((params, results)) = pair_of(value) else {
        return Ok(None);
    };
    let Some(params) = read_list(alloc, params)? else {
        return Ok(None);
    };
    let Some(results) = read_list(alloc, results)? else {
        return Ok(None);
    };
    Ok(Some(FuncType { params, results }))
}

// What stands under the name of a form.
fn read_composite(
    alloc: Global,
    name: &str,
    body: Node<'_, '_>,
) -> Result<Option<CompositeInnerType>, OutOfMemory>
    ensures { IfOk result (λ ty. option_map composite_form ty ≡ composite_of name.now (view body.entry)) }
{
    match name {
        "func" => Ok(read_core_func(alloc, body)?.map(CompositeInnerType::Func)),
        "struct" => {
            let Some(fields) = read_list(alloc, body)? else {
                return Ok(None);
            };
            Ok(Some(CompositeInnerType::Struct(StructType { fields })))
        }
        "array" => {
            let Some(field) = read_field(body) else {
                return Ok(None);
            };
            Ok(Some(CompositeInnerType::Array(ArrayType { field })))
        }
        _ => Ok(None),
    }
}

// The name of the form under which the value has a body.
fn form_name(value: Node<'_, '_>) -> Option<&'static str>
    ensures { option_map (λ name. name.now) result ≡ first_of (map (λ row. row.0) composite_forms) (view value.entry) }
{
    first_key(value, &["func", "struct", "array"])
}

// Whether the type is final, which it is where nothing says so, or `None` where what is there is no Boolean.
fn read_final(value: Option<Node<'_, '_>>) -> Option<bool>
    ensures { result ≡ final_mark (option_map view value.entry) }
{
    match value {
        None => Some(true),
        Some(flag) => bool_of(flag),
    }
}

// The supertype, where there is one, or `None` where what is there is no index.
fn read_super(value: Option<Node<'_, '_>>) -> Option<Option<SuperType>>
    ensures { result ≡ optional super_of (option_map view value.entry) }
{
    match value {
        None => Some(None),
        Some(index) => {
            let index = index_of(index)?;
            Some(Some(SuperType::Index(index)))
        }
    }
}

// Whether the type is final, its supertype, and whether it is shared, or `None` where one of them is none.
fn read_marks(
    is_final: Option<Node<'_, '_>>,
    supertype: Option<Node<'_, '_>>,
    shared: Option<Node<'_, '_>>,
) -> Option<(bool, Option<SuperType>, bool)>
    ensures { option_map {U = Bool × (Option SuperType × Bool)} (λ p. (p.0, (p.1, p.2))) result ≡ both (λ (final : Bool) (rest : Option SuperType × Bool). (final, rest)) (final_mark (option_map view is_final.entry)) (both (λ above shared. (above, shared)) (optional super_of (option_map view supertype.entry)) (mark (option_map view shared.entry))) }
{
    let Some(is_final) = read_final(is_final) else {
        return None;
    };
    let Some(supertype) = read_super(supertype) else {
        return None;
    };
    let Some(shared) = mark_of(shared) else {
        return None;
    };
    Some((is_final, supertype, shared))
}

// A core type whose form has this name.
fn read_under(
    alloc: Global,
    name: &str,
    value: Node<'_, '_>,
) -> Result<Option<SubType>, OutOfMemory>
    ensures { IfOk result (λ ty. option_map sub_form ty ≡ sub_under name.now (view value.entry)) }
{
    let Some((is_final, supertype, shared, body)) = four_fields(
        value, "final", "super", "shared", name,
    ) else {
        return Ok(None);
    };
    let Some((is_final, supertype, shared)) = read_marks(is_final, supertype, shared) else {
        return Ok(None);
    };
    let Some(body) = body else {
        return Ok(None);
    };
    let Some(inner) = read_composite(alloc, name, body)? else {
        return Ok(None);
    };
    Ok(Some(SubType {
        is_final,
        supertype,
        shared,
        inner,
    }))
}

// A core type with its place among the others.
impl FromValue for SubType {
    ghost Form = { SubForm };

    ghost seen = { sub_form };

    ghost meant = { sub_of };

    fn from_value(alloc: Global, value: Node<'_, '_>) -> Result<Option<SubType>, OutOfMemory> {
        match form_name(value) {
            Some(name) => read_under(alloc, name, value),
            None => Ok(None),
        }
    }
}

/// A group of core types.
pub fn read_rec(alloc: Global, value: Node<'_, '_>) -> Result<Option<RecGroup>, OutOfMemory>
    ensures { IfOk result (λ group. option_map group_form group ≡ rec_of (view value.entry)) }
{
    Ok(read_list(alloc, value)?.map(|types| RecGroup { types }))
}
