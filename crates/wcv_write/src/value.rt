// Value types.
ghost use Rattle.std.specs.Prelude.{◌++◌, ◌≡◌, OnOk};
ghost use Rattle.wcv_write.specs.Json.{tokens_of, under};
ghost use Rattle.wcv_write.specs.Values.{primitive_name, value_data, param_data};

use crate::indices::{Indices, Space};
use crate::list::ToJson;
use crate::output::Output;
use std::alloc::AllocError;
use wcv_core::{PrimitiveValType, Text};
use wcv_syntax::ComponentValType;

/// The name of a primitive.
pub fn name_of_primitive(primitive: PrimitiveValType) -> &'static str
    ensures { result.now ≡ primitive_name primitive }
{
    match primitive {
        PrimitiveValType::Bool => "bool",
        PrimitiveValType::S8 => "s8",
        PrimitiveValType::U8 => "u8",
        PrimitiveValType::S16 => "s16",
        PrimitiveValType::U16 => "u16",
        PrimitiveValType::S32 => "s32",
        PrimitiveValType::U32 => "u32",
        PrimitiveValType::S64 => "s64",
        PrimitiveValType::U64 => "u64",
        PrimitiveValType::F32 => "f32",
        PrimitiveValType::F64 => "f64",
        PrimitiveValType::Char => "char",
        PrimitiveValType::String => "string",
        PrimitiveValType::ErrorContext => "error-context",
    }
}

/// Writes a value type.
#[tactic(auto, unfolding(crate::specs::Values::value_data))]
pub fn write_value<I: Indices>(
    out: &mut Output,
    indices: &I,
    value: ComponentValType,
) -> Result<(), AllocError>
    ensures { OnOk result (out.new ≡ out.old ++ tokens_of (value_data (I.written indices.now) value)) }
{
    match value {
        ComponentValType::Primitive(primitive) => out.text(name_of_primitive(primitive)),
        ComponentValType::Ty(index) => indices.write(out, Space::Ty, index),
    }
}

/// Writes an index under a key.
pub fn write_index_under<I: Indices>(
    out: &mut Output,
    indices: &I,
    key: &str,
    space: Space,
    index: u32,
) -> Result<(), AllocError>
    ensures { OnOk result (out.new ≡ out.old ++ tokens_of (under key.now (I.written indices.now space index))) }
{
    out.open(key)?;
    indices.write(out, space, index)?;
    out.end_object()
}

impl ToJson for (Text, ComponentValType) {
    ghost form = { param_data };

    fn write<I: Indices>(&self, out: &mut Output, indices: &I) -> Result<(), AllocError> {
        out.begin_array()?;
        out.text(self.0.as_str())?;
        write_value(out, indices, self.1)?;
        out.end_array()
    }
}

impl ToJson for ComponentValType {
    ghost form = { value_data };

    fn write<I: Indices>(&self, out: &mut Output, indices: &I) -> Result<(), AllocError> {
        write_value(out, indices, *self)
    }
}
