// Defined types.
ghost use Rattle.std.specs.Prelude.{◌≡◌};
ghost use Rattle.wcv_binary.specs.Defined.{simple_at, compound_at, defined_at};
ghost use Rattle.wcv_bytes.specs.Reading.{Gives};
ghost use Rattle.wcv_syntax.specs.View.{defined_view};

use crate::list::read_vec;
use crate::value::{primitive_of, read_component_val_type, read_optional_val_type};
use std::alloc::Global;
use wcv_bytes::{ReadError, Why, fault_at, read_byte, read_u32};
use wcv_syntax::ComponentDefinedType;

// One that is made of value types or of an index, and of no list.
#[tactic(auto, unfolding(crate::specs::Defined::simple_at))]
fn read_simple(bytes: &[u8]) -> Result<(ComponentDefinedType, &[u8]), ReadError>
    ensures { Gives (λ x. (defined_view x.0, x.1.now)) result (simple_at bytes.now) }
{
    let (byte, rest) = read_byte(bytes)?;
    match byte {
        0x70 => {
            let (ty, rest) = read_component_val_type(rest)?;
            Ok((ComponentDefinedType::List(ty), rest))
        }
        0x6B => {
            let (ty, rest) = read_component_val_type(rest)?;
            Ok((ComponentDefinedType::Option(ty), rest))
        }
        0x6A => {
            let (ok, rest) = read_optional_val_type(rest)?;
            let (err, rest) = read_optional_val_type(rest)?;
            Ok((ComponentDefinedType::Result { ok, err }, rest))
        }
        0x69 => {
            let (index, rest) = read_u32(rest)?;
            Ok((ComponentDefinedType::Own(index), rest))
        }
        0x68 => {
            let (index, rest) = read_u32(rest)?;
            Ok((ComponentDefinedType::Borrow(index), rest))
        }
        0x67 => {
            let (ty, rest) = read_component_val_type(rest)?;
            let (len, rest) = read_u32(rest)?;
            Ok((ComponentDefinedType::FixedLengthList(ty, len), rest))
        }
        0x66 => {
            let (ty, rest) = read_optional_val_type(rest)?;
            Ok((ComponentDefinedType::Stream(ty), rest))
        }
        0x65 => {
            let (ty, rest) = read_optional_val_type(rest)?;
            Ok((ComponentDefinedType::Future(ty), rest))
        }
        0x63 => {
            let (key, rest) = read_component_val_type(rest)?;
            let (value, rest) = read_component_val_type(rest)?;
            Ok((ComponentDefinedType::Map(key, value), rest))
        }
        _ => Err(fault_at(Why::NotType, bytes)),
    }
}

// One that is made of a list, or such a one.
#[tactic(auto, unfolding(crate::specs::Defined::compound_at))]
fn read_compound(alloc: Global, bytes: &[u8]) -> Result<(ComponentDefinedType, &[u8]), ReadError>
    ensures { Gives (λ x. (defined_view x.0, x.1.now)) result (compound_at bytes.now) }
{
    let (byte, rest) = read_byte(bytes)?;
    match byte {
        0x72 => {
            let (fields, rest) = read_vec(alloc, rest)?;
            Ok((ComponentDefinedType::Record(fields), rest))
        }
        0x71 => {
            let (cases, rest) = read_vec(alloc, rest)?;
            Ok((ComponentDefinedType::Variant(cases), rest))
        }
        0x6F => {
            let (types, rest) = read_vec(alloc, rest)?;
            Ok((ComponentDefinedType::Tuple(types), rest))
        }
        0x6E => {
            let (names, rest) = read_vec(alloc, rest)?;
            Ok((ComponentDefinedType::Flags(names), rest))
        }
        0x6D => {
            let (names, rest) = read_vec(alloc, rest)?;
            Ok((ComponentDefinedType::Enum(names), rest))
        }
        _ => read_simple(bytes),
    }
}

/// A defined type, as the component model's Binary.md has it.
#[tactic(auto, unfolding(crate::specs::Defined::defined_at))]
pub fn read_defined(alloc: Global, bytes: &[u8]) -> Result<(ComponentDefinedType, &[u8]), ReadError>
    ensures { Gives (λ x. (defined_view x.0, x.1.now)) result (defined_at bytes.now) }
{
    let (byte, rest) = read_byte(bytes)?;
    if let Some(primitive) = primitive_of(byte) {
        return Ok((ComponentDefinedType::Primitive(primitive), rest));
    }
    read_compound(alloc, bytes)
}
