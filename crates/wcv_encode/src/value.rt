// Value types, defined types and function types.
ghost use Rattle.std.specs.Prelude.{◌≡◌, Some};
ghost use Rattle.wcv_syntax.specs.Model.{simple};
ghost use Rattle.wcv_syntax.specs.View.{defined_view, func_view};
ghost use Rattle.wcv_encode.specs.Bytes.{Wrote, ◌⧺◌};
ghost use Rattle.wcv_encode.specs.Values.{prim_byte, value_bytes, maybe_value, field_of, case_bytes, simple_bytes, defined_bytes, result_bytes, func_bytes};

use crate::fault::Unwritten;
use crate::list::{ToBytes, write_maybe, write_vec};
use crate::number::{write_all, write_byte, write_s33, write_u32};
use crate::text::write_text;
use wcv_core::{PrimitiveValType, Text};
use wcv_syntax::{ComponentDefinedType, ComponentFuncType, ComponentValType, VariantCase};

/// The byte of a primitive type.
#[tactic(auto, unfolding(crate::specs::Values::prim_byte))]
fn byte_of(ty: PrimitiveValType) -> u8
    ensures { result ≡ prim_byte ty }
{
    match ty {
        PrimitiveValType::Bool => 0x7f,
        PrimitiveValType::S8 => 0x7e,
        PrimitiveValType::U8 => 0x7d,
        PrimitiveValType::S16 => 0x7c,
        PrimitiveValType::U16 => 0x7b,
        PrimitiveValType::S32 => 0x7a,
        PrimitiveValType::U32 => 0x79,
        PrimitiveValType::S64 => 0x78,
        PrimitiveValType::U64 => 0x77,
        PrimitiveValType::F32 => 0x76,
        PrimitiveValType::F64 => 0x75,
        PrimitiveValType::Char => 0x74,
        PrimitiveValType::String => 0x73,
        PrimitiveValType::ErrorContext => 0x64,
    }
}

/// Writes a value type.
#[tactic(auto, using(crate::proofs::Joins::joins), unfolding(crate::specs::Values::value_bytes))]
pub(crate) fn write_value(out: &mut Vec<u8>, ty: ComponentValType) -> Result<(), Unwritten>
    ensures { Wrote result (Some out.old.items ⧺ value_bytes ty) out.new.items }
{
    match ty {
        ComponentValType::Primitive(ty) => write_byte(out, byte_of(ty)),
        ComponentValType::Ty(index) => write_s33(out, index),
    }
}

impl ToBytes for ComponentValType {
    ghost use Rattle.wcv_encode.specs.Values.{value_bytes};

    ghost spelled = { value_bytes };

    fn write(&self, out: &mut Vec<u8>) -> Result<(), Unwritten> {
        write_value(out, *self)
    }
}

impl ToBytes for Text {
    ghost use Rattle.wcv_encode.specs.Bytes.{text};

    ghost spelled = { text };

    fn write(&self, out: &mut Vec<u8>) -> Result<(), Unwritten> {
        write_text(out, self.as_str())
    }
}

impl ToBytes for (Text, ComponentValType) {
    ghost use Rattle.wcv_encode.specs.Values.{field_of};

    ghost spelled = { field_of };

    #[tactic(auto, using(crate::proofs::Joins::joins), unfolding(crate::specs::Values::field_of))]
    fn write(&self, out: &mut Vec<u8>) -> Result<(), Unwritten> {
        write_text(out, self.0.as_str())?;
        write_value(out, self.1)
    }
}

impl ToBytes for VariantCase {
    ghost use Rattle.wcv_encode.specs.Values.{case_bytes};

    ghost spelled = { case_bytes };

    #[tactic(auto, using(crate::proofs::Joins::joins), unfolding(crate::specs::Values::case_bytes))]
    fn write(&self, out: &mut Vec<u8>) -> Result<(), Unwritten> {
        write_text(out, self.name.as_str())?;
        write_maybe(out, &self.ty)?;
        write_byte(out, 0)
    }
}

/// Writes a type that is a handle or made of one or two types.
#[tactic(auto, using(crate::proofs::Joins::joins), unfolding(crate::specs::Values::simple_bytes))]
fn write_simple(out: &mut Vec<u8>, ty: &ComponentDefinedType) -> Result<(), Unwritten>
    ensures { Wrote result (Some out.old.items ⧺ simple_bytes ty.now) out.new.items }
{
    match ty {
        ComponentDefinedType::Primitive(ty) => write_byte(out, byte_of(*ty)),
        ComponentDefinedType::List(ty) => {
            write_byte(out, 0x70)?;
            write_value(out, *ty)
        }
        ComponentDefinedType::Option(ty) => {
            write_byte(out, 0x6b)?;
            write_value(out, *ty)
        }
        ComponentDefinedType::Result { ok, err } => {
            write_byte(out, 0x6a)?;
            write_maybe(out, ok)?;
            write_maybe(out, err)
        }
        ComponentDefinedType::Own(index) => {
            write_byte(out, 0x69)?;
            write_u32(out, *index)
        }
        ComponentDefinedType::Borrow(index) => {
            write_byte(out, 0x68)?;
            write_u32(out, *index)
        }
        ComponentDefinedType::FixedLengthList(ty, len) => {
            write_byte(out, 0x67)?;
            write_value(out, *ty)?;
            write_u32(out, *len)
        }
        ComponentDefinedType::Stream(ty) => {
            write_byte(out, 0x66)?;
            write_maybe(out, ty)
        }
        ComponentDefinedType::Future(ty) => {
            write_byte(out, 0x65)?;
            write_maybe(out, ty)
        }
        ComponentDefinedType::Map(key, value) => {
            write_byte(out, 0x63)?;
            write_value(out, *key)?;
            write_value(out, *value)
        }
        _ => Err(Unwritten::NoBytes),
    }
}

/// Writes a defined type.
#[tactic(auto, using(crate::proofs::Joins::joins), unfolding(crate::specs::Values::defined_bytes))]
pub(crate) fn write_defined(out: &mut Vec<u8>, ty: &ComponentDefinedType) -> Result<(), Unwritten>
    ensures { Wrote result (Some out.old.items ⧺ defined_bytes (defined_view ty.now)) out.new.items }
{
    match ty {
        ComponentDefinedType::Record(fields) => {
            write_byte(out, 0x72)?;
            write_vec(out, fields)
        }
        ComponentDefinedType::Variant(cases) => {
            write_byte(out, 0x71)?;
            write_vec(out, cases)
        }
        ComponentDefinedType::Tuple(types) => {
            write_byte(out, 0x6f)?;
            write_vec(out, types)
        }
        ComponentDefinedType::Flags(names) => {
            write_byte(out, 0x6e)?;
            write_vec(out, names)
        }
        ComponentDefinedType::Enum(names) => {
            write_byte(out, 0x6d)?;
            write_vec(out, names)
        }
        _ => write_simple(out, ty),
    }
}

/// Writes the result of a function.
#[tactic(auto, using(crate::proofs::Joins::joins), unfolding(crate::specs::Values::result_bytes))]
pub(crate) fn write_result(out: &mut Vec<u8>, ty: Option<ComponentValType>) -> Result<(), Unwritten>
    ensures { Wrote result (Some out.old.items ⧺ result_bytes ty) out.new.items }
{
    match ty {
        Some(ty) => {
            write_byte(out, 0)?;
            write_value(out, ty)
        }
        None => write_all(out, &[1, 0]),
    }
}

/// Writes a function type.
#[tactic(auto, using(crate::proofs::Joins::joins), unfolding(crate::specs::Values::func_bytes))]
pub(crate) fn write_func(out: &mut Vec<u8>, ty: &ComponentFuncType) -> Result<(), Unwritten>
    ensures { Wrote result (Some out.old.items ⧺ func_bytes (func_view ty.now)) out.new.items }
{
    write_byte(out, if ty.async_ { 0x43 } else { 0x40 })?;
    write_vec(out, &ty.params)?;
    write_result(out, ty.result)
}
