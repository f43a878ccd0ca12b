// Defined types.
ghost use Rattle.std.specs.Prelude.{◌++◌, ◌≡◌, OnOk, codes};
ghost use Rattle.wcv_syntax.specs.Model.{simple};
ghost use Rattle.wcv_syntax.specs.View.{defined_view};
ghost use Rattle.wcv_write.specs.Defined.{case_data, value_or_null, result_data, simple_data, defined_data};
ghost use Rattle.wcv_write.specs.Json.{count, pair, tokens_of, under};
ghost use Rattle.wcv_write.specs.Values.{value_data};

use crate::indices::{Indices, Space};
use crate::list::{ToJson, write_under};
use crate::member::write_optional_value;
use crate::output::Output;
use crate::value::{name_of_primitive, write_index_under, write_value};
use std::alloc::AllocError;
use wcv_syntax::{ComponentDefinedType, ComponentValType, VariantCase};

impl ToJson for VariantCase {
    ghost form = { case_data };

    fn write<I: Indices>(&self, out: &mut Output, indices: &I) -> Result<(), AllocError> {
        out.begin_array()?;
        out.text(self.name.as_str())?;
        if let Some(value) = self.ty {
            write_value(out, indices, value)?;
        }
        out.end_array()
    }
}

// Writes a value type or null under a key.
fn write_nullable_under<I: Indices>(
    out: &mut Output,
    indices: &I,
    key: &str,
    value: Option<ComponentValType>,
) -> Result<(), AllocError>
    ensures { OnOk result (out.new ≡ out.old ++ tokens_of (under key.now (value_or_null (I.written indices.now) value))) }
{
    out.open(key)?;
    match value {
        None => out.null()?,
        Some(value) => write_value(out, indices, value)?,
    }
    out.end_object()
}

// Writes a map.
fn write_map<I: Indices>(
    out: &mut Output,
    indices: &I,
    key: ComponentValType,
    value: ComponentValType,
) -> Result<(), AllocError>
    ensures { OnOk result (out.new ≡ out.old ++ tokens_of (under (codes "map") (pair (value_data (I.written indices.now) key) (value_data (I.written indices.now) value)))) }
{
    out.open("map")?;
    out.begin_array()?;
    write_value(out, indices, key)?;
    write_value(out, indices, value)?;
    out.end_array()?;
    out.end_object()
}

// Writes a value type and a number.
fn write_value_and_count<I: Indices>(
    out: &mut Output,
    indices: &I,
    value: ComponentValType,
    number: u32,
) -> Result<(), AllocError>
    ensures { OnOk result (out.new ≡ out.old ++ tokens_of (pair (value_data (I.written indices.now) value) (count number))) }
{
    out.begin_array()?;
    write_value(out, indices, value)?;
    out.count(number as u64)?;
    out.end_array()
}

// Writes a list of fixed length.
fn write_fixed_list<I: Indices>(
    out: &mut Output,
    indices: &I,
    value: ComponentValType,
    length: u32,
) -> Result<(), AllocError>
    ensures { OnOk result (out.new ≡ out.old ++ tokens_of (under (codes "fixed-list") (pair (value_data (I.written indices.now) value) (count length)))) }
{
    out.open("fixed-list")?;
    write_value_and_count(out, indices, value, length)?;
    out.end_object()
}

// Writes a result.
#[tactic(auto, unfolding(crate::specs::Defined::result_data))]
fn write_result<I: Indices>(
    out: &mut Output,
    indices: &I,
    ok: Option<ComponentValType>,
    err: Option<ComponentValType>,
) -> Result<(), AllocError>
    ensures { OnOk result (out.new ≡ out.old ++ tokens_of (under (codes "result") (result_data (I.written indices.now) ok err))) }
{
    out.open("result")?;
    out.begin_object()?;
    write_optional_value(out, indices, "err", err)?;
    write_optional_value(out, indices, "ok", ok)?;
    out.end_object()?;
    out.end_object()
}

// Writes a type that is made of no list.
#[tactic(auto, unfolding(crate::specs::Defined::simple_data))]
fn write_simple<I: Indices>(
    out: &mut Output,
    indices: &I,
    ty: &ComponentDefinedType,
) -> Result<(), AllocError>
    requires { defined_view ty.now ≡ simple ty.now }
    ensures { OnOk result (out.new ≡ out.old ++ tokens_of (simple_data (I.written indices.now) ty.now)) }
{
    match ty {
        ComponentDefinedType::Primitive(primitive) => out.text(name_of_primitive(*primitive)),
        ComponentDefinedType::List(value) => write_under(out, indices, "list", value),
        ComponentDefinedType::Map(key, value) => write_map(out, indices, *key, *value),
        ComponentDefinedType::FixedLengthList(value, length) => {
            write_fixed_list(out, indices, *value, *length)
        }
        ComponentDefinedType::Option(value) => write_under(out, indices, "option", value),
        ComponentDefinedType::Result { ok, err } => write_result(out, indices, *ok, *err),
        ComponentDefinedType::Own(resource) => {
            write_index_under(out, indices, "own", Space::Ty, *resource)
        }
        ComponentDefinedType::Borrow(resource) => {
            write_index_under(out, indices, "borrow", Space::Ty, *resource)
        }
        ComponentDefinedType::Future(value) => write_nullable_under(out, indices, "future", *value),
        ComponentDefinedType::Stream(value) => write_nullable_under(out, indices, "stream", *value),
        _ => unreachable!(),
    }
}

// Writes a defined type.
#[tactic(auto, unfolding(crate::specs::Defined::defined_data))]
fn write_defined<I: Indices>(
    out: &mut Output,
    indices: &I,
    ty: &ComponentDefinedType,
) -> Result<(), AllocError>
    ensures { OnOk result (out.new ≡ out.old ++ tokens_of (defined_data (I.written indices.now) (defined_view ty.now))) }
{
    match ty {
        ComponentDefinedType::Record(fields) => write_under(out, indices, "record", fields),
        ComponentDefinedType::Variant(cases) => write_under(out, indices, "variant", cases),
        ComponentDefinedType::Tuple(types) => write_under(out, indices, "tuple", types),
        ComponentDefinedType::Flags(names) => write_under(out, indices, "flags", names),
        ComponentDefinedType::Enum(names) => write_under(out, indices, "enum", names),
        _ => write_simple(out, indices, ty),
    }
}

impl ToJson for ComponentDefinedType {
    ghost form = { λ ix ty. defined_data ix (defined_view ty) };

    fn write<I: Indices>(&self, out: &mut Output, indices: &I) -> Result<(), AllocError> {
        write_defined(out, indices, self)
    }
}
