// The shape of a node with other parts.
ghost use Rattle.std.specs.Prelude.{◌≡◌, false, IfOk, OnOk};
ghost use Rattle.wcv_types.specs.Rebuild.{Fills, refill, after, slots_by, field_value, case_value, tuple_value, has_list};
ghost use Rattle.wcv_types.specs.Tree.{variant_of, tuple_of};
ghost use Rattle.wcv_types.specs.Unfold.{former_of, defined_slots};

use crate::refill::Refill;
use crate::shapes::{ComponentDefinedType, ComponentValType};
use std::alloc::Global;
use wcv_core::{OutOfMemory, Text};

/// A copy of the text.
pub fn copy_text(alloc: Global, text: &Text) -> Result<Text, OutOfMemory>
    ensures { IfOk result (λ t. t ≡ text.now) }
{
    Text::new(alloc, text.as_str())
}

/// Copies of the texts.
fn copy_texts(alloc: Global, texts: &[Text]) -> Result<Vec<Text>, OutOfMemory>
    ensures { IfOk result (λ ts. ts.items ≡ texts.now) }
{
    let mut copies = Vec::new(alloc);
    for text in texts {
        copies.push(copy_text(alloc, text)?)?;
    }
    Ok(copies)
}

/// The fields, or the parameters, with other value types.
pub fn fields_again(
    alloc: Global,
    fields: &[(Text, ComponentValType)],
    parts: &mut Refill<'_>,
) -> Result<Vec<(Text, ComponentValType)>, OutOfMemory>
    requires { Fills (slots_by field_value fields.now) parts.old }
    ensures slots { IfOk result (λ fs. slots_by field_value fs.items ≡ refill (slots_by field_value fields.now) parts.old) }
    ensures left { OnOk result (parts.new ≡ after (slots_by field_value fields.now) parts.old) }
{
    let mut again = Vec::new(alloc);
    for field in fields {
        let ty = parts.value(field.1);
        again.push((copy_text(alloc, &field.0)?, ty))?;
    }
    Ok(again)
}

/// The cases of a variant with other payloads.
fn variant_again(
    alloc: Global,
    cases: &[(Text, Option<ComponentValType>)],
    parts: &mut Refill<'_>,
) -> Result<ComponentDefinedType, OutOfMemory>
    requires { Fills (slots_by case_value cases.now) parts.old }
    ensures slots { IfOk result (λ s. defined_slots s ≡ refill (slots_by case_value cases.now) parts.old) }
    ensures former { IfOk result (λ s. former_of s ≡ variant_of) }
{
    let mut again = Vec::new(alloc);
    for case in cases {
        let ty = parts.option(case.1);
        again.push((copy_text(alloc, &case.0)?, ty))?;
    }
    Ok(ComponentDefinedType::Variant(again))
}

/// Other types of a tuple.
fn tuple_again(
    alloc: Global,
    types: &[ComponentValType],
    parts: &mut Refill<'_>,
) -> Result<ComponentDefinedType, OutOfMemory>
    requires { Fills (slots_by tuple_value types.now) parts.old }
    ensures slots { IfOk result (λ s. defined_slots s ≡ refill (slots_by tuple_value types.now) parts.old) }
    ensures former { IfOk result (λ s. former_of s ≡ tuple_of) }
{
    let mut again = Vec::new(alloc);
    for ty in types {
        again.push(parts.value(*ty))?;
    }
    Ok(ComponentDefinedType::Tuple(again))
}

/// The defined type of the same form with other parts, where it is not made of a list. It takes no memory.
fn values_again(shape: &ComponentDefinedType, parts: &mut Refill<'_>) -> ComponentDefinedType
    requires plain { has_list shape.now ≡ false }
    requires fills { Fills (defined_slots shape.now) parts.old }
    ensures slots { defined_slots result ≡ refill (defined_slots shape.now) parts.old }
    ensures former { former_of result ≡ former_of shape.now }
{
    match shape {
        ComponentDefinedType::Primitive(ty) => ComponentDefinedType::Primitive(*ty),
        ComponentDefinedType::List(ty) => ComponentDefinedType::List(parts.value(*ty)),
        ComponentDefinedType::Map(key, value) => {
            let key = parts.value(*key);
            ComponentDefinedType::Map(key, parts.value(*value))
        }
        ComponentDefinedType::FixedLengthList(ty, len) => {
            ComponentDefinedType::FixedLengthList(parts.value(*ty), *len)
        }
        ComponentDefinedType::Option(ty) => ComponentDefinedType::Option(parts.value(*ty)),
        ComponentDefinedType::Result { ok, err } => {
            let ok = parts.option(*ok);
            let err = parts.option(*err);
            ComponentDefinedType::Result { ok, err }
        }
        ComponentDefinedType::Own(id) => ComponentDefinedType::Own(parts.reference(*id)),
        ComponentDefinedType::Borrow(id) => ComponentDefinedType::Borrow(parts.reference(*id)),
        ComponentDefinedType::Future(ty) => ComponentDefinedType::Future(parts.option(*ty)),
        ComponentDefinedType::Stream(ty) => ComponentDefinedType::Stream(parts.option(*ty)),
        _ => unreachable!(),
    }
}

/// The defined type of the same form with other parts.
pub fn defined_again(
    alloc: Global,
    shape: &ComponentDefinedType,
    parts: &mut Refill<'_>,
) -> Result<ComponentDefinedType, OutOfMemory>
    requires { Fills (defined_slots shape.now) parts.old }
    ensures slots { IfOk result (λ s. defined_slots s ≡ refill (defined_slots shape.now) parts.old) }
    ensures former { IfOk result (λ s. former_of s ≡ former_of shape.now) }
{
    match shape {
        ComponentDefinedType::Record(fields) => {
            let fields = fields_again(alloc, fields, parts)?;
            Ok(ComponentDefinedType::Record(fields))
        }
        ComponentDefinedType::Variant(cases) => variant_again(alloc, cases, parts),
        ComponentDefinedType::Tuple(types) => tuple_again(alloc, types, parts),
        ComponentDefinedType::Flags(names) => {
            Ok(ComponentDefinedType::Flags(copy_texts(alloc, names)?))
        }
        ComponentDefinedType::Enum(names) => {
            Ok(ComponentDefinedType::Enum(copy_texts(alloc, names)?))
        }
        _ => Ok(values_again(shape, parts)),
    }
}
