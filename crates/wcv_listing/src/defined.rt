// Defined types.
ghost use Rattle.std.specs.Prelude.{◌≡◌, IfOk, drop, option_map};
ghost use Rattle.serde_json.specs.Find.{as_str};
ghost use Rattle.wcv_listing.specs.Defined.{case_of, map_of, fixed_list_of, result_of, defined_forms, form_by, form_of, object_of, defined_of};
ghost use Rattle.wcv_listing.specs.Fields.{null_or};
ghost use Rattle.wcv_listing.specs.Seen.{view};
ghost use Rattle.wcv_listing.specs.Values.{value_of};
ghost use Rattle.wcv_syntax.specs.View.{defined_view};

use crate::fields::two_fields;
use crate::list::{FromValue, read_list};
use crate::node::Node;
use crate::value::{index_of, is_null, one_or_two_of, pair_of, sole_member, text_of};
use crate::value_type::{optional_type, primitive_of, read_params, read_value_type};
use std::alloc::Global;
use wcv_core::{OutOfMemory, Text};
use wcv_syntax::{ComponentDefinedType, ComponentValType, VariantCase};

// A case of a variant.
impl FromValue for VariantCase {
    ghost seen = { λ case. case };

    ghost meant = { case_of };

    fn from_value(alloc: Global, value: Node<'_, '_>) -> Result<Option<VariantCase>, OutOfMemory> {
        let Some((name, payload)) = one_or_two_of(value) else {
            return Ok(None);
        };
        let Some(name) = text_of(name) else {
            return Ok(None);
        };
        let Some(ty) = optional_type(payload) else {
            return Ok(None);
        };
        let name = Text::new(alloc, name)?;
        Ok(Some(VariantCase { name, ty }))
    }
}

// A name.
impl FromValue for Text {
    ghost seen = { λ name. name };

    ghost meant = { as_str };

    fn from_value(alloc: Global, value: Node<'_, '_>) -> Result<Option<Text>, OutOfMemory> {
        match text_of(value) {
            Some(name) => Ok(Some(Text::new(alloc, name)?)),
            None => Ok(None),
        }
    }
}

// A map by the types of its keys and its values.
fn read_map(value: Node<'_, '_>) -> Option<ComponentDefinedType>
    ensures { option_map defined_view result ≡ map_of (view value.entry) }
{
    let Some((key, value)) = pair_of(value) else {
        return None;
    };
    let Some(key) = read_value_type(key) else {
        return None;
    };
    let Some(value) = read_value_type(value) else {
        return None;
    };
    Some(ComponentDefinedType::Map(key, value))
}

// A list by the type of its elements and its length.
fn read_fixed_list(value: Node<'_, '_>) -> Option<ComponentDefinedType>
    ensures { option_map defined_view result ≡ fixed_list_of (view value.entry) }
{
    let Some((element, length)) = pair_of(value) else {
        return None;
    };
    let Some(element) = read_value_type(element) else {
        return None;
    };
    let Some(length) = index_of(length) else {
        return None;
    };
    Some(ComponentDefinedType::FixedLengthList(element, length))
}

// A result by the types of its payloads.
fn read_result(value: Node<'_, '_>) -> Option<ComponentDefinedType>
    ensures { option_map defined_view result ≡ result_of (view value.entry) }
{
    let Some((ok, err)) = two_fields(value, "ok", "err") else {
        return None;
    };
    let Some(ok) = optional_type(ok) else {
        return None;
    };
    let Some(err) = optional_type(err) else {
        return None;
    };
    Some(ComponentDefinedType::Result { ok, err })
}

// The type of what a future or a stream hands over, which null says is absent.
fn read_payload(value: Node<'_, '_>) -> Option<Option<ComponentValType>>
    ensures { result ≡ null_or value_of (view value.entry) }
{
    if is_null(value) {
        Some(None)
    } else {
        read_value_type(value).map(Some)
    }
}

// What stands under the name of a form behind `enum` in the table.
fn read_late_form(name: &str, body: Node<'_, '_>) -> Option<ComponentDefinedType>
    ensures { option_map defined_view result ≡ form_by (drop 8 defined_forms) name.now (view body.entry) }
{
    match name {
        "option" => read_value_type(body).map(ComponentDefinedType::Option),
        "result" => read_result(body),
        "own" => index_of(body).map(ComponentDefinedType::Own),
        "borrow" => index_of(body).map(ComponentDefinedType::Borrow),
        "future" => read_payload(body).map(ComponentDefinedType::Future),
        "stream" => read_payload(body).map(ComponentDefinedType::Stream),
        _ => None,
    }
}

// What stands under the name of a form.
fn read_form(
    alloc: Global,
    name: &str,
    body: Node<'_, '_>,
) -> Result<Option<ComponentDefinedType>, OutOfMemory>
    ensures { IfOk result (λ ty. option_map defined_view ty ≡ form_of name.now (view body.entry)) }
{
    match name {
        "record" => Ok(read_params(alloc, body)?.map(ComponentDefinedType::Record)),
        "variant" => Ok(read_list(alloc, body)?.map(ComponentDefinedType::Variant)),
        "list" => Ok(read_value_type(body).map(ComponentDefinedType::List)),
        "map" => Ok(read_map(body)),
        "fixed-list" => Ok(read_fixed_list(body)),
        "tuple" => Ok(read_list(alloc, body)?.map(ComponentDefinedType::Tuple)),
        "flags" => Ok(read_list(alloc, body)?.map(ComponentDefinedType::Flags)),
        "enum" => Ok(read_list(alloc, body)?.map(ComponentDefinedType::Enum)),
        _ => Ok(read_late_form(name, body)),
    }
}

// A defined type by the only key of an object.
fn read_object(
    alloc: Global,
    value: Node<'_, '_>,
) -> Result<Option<ComponentDefinedType>, OutOfMemory>
    ensures { IfOk result (λ ty. option_map defined_view ty ≡ object_of (view value.entry)) }
{
    match sole_member(value) {
        Some((key, body)) => read_form(alloc, key, body),
        None => Ok(None),
    }
}

/// A defined type.
pub fn read_defined(
    alloc: Global,
    value: Node<'_, '_>,
) -> Result<Option<ComponentDefinedType>, OutOfMemory>
    ensures { IfOk result (λ ty. option_map defined_view ty ≡ defined_of (view value.entry)) }
{
    match text_of(value) {
        Some(name) => Ok(primitive_of(name).map(ComponentDefinedType::Primitive)),
        None => read_object(alloc, value),
    }
}
