// Value types.
ghost use Rattle.std.specs.Prelude.{◌≡◌};
ghost use Rattle.wcv_bytes.specs.Reading.{Gives, under_byte};
ghost use Rattle.wcv_binary.specs.Values.{primitives, val_at, optional_val_at, result_at};

use crate::list::FromBytes;
use std::alloc::Global;
use wcv_bytes::{ReadError, read_byte, read_flag, read_index, read_text, read_zero};
use wcv_core::{PrimitiveValType, Text};
use wcv_syntax::{ComponentValType, VariantCase};

/// The primitive of this byte, as the component model's Binary.md has them.
pub fn primitive_of(byte: u8) -> Option<PrimitiveValType>
    ensures { result ≡ under_byte primitives byte }
{
    match byte {
        0x7F => Some(PrimitiveValType::Bool),
        0x7E => Some(PrimitiveValType::S8),
        0x7D => Some(PrimitiveValType::U8),
        0x7C => Some(PrimitiveValType::S16),
        0x7B => Some(PrimitiveValType::U16),
        0x7A => Some(PrimitiveValType::S32),
        0x79 => Some(PrimitiveValType::U32),
        0x78 => Some(PrimitiveValType::S64),
        0x77 => Some(PrimitiveValType::U64),
        0x76 => Some(PrimitiveValType::F32),
        0x75 => Some(PrimitiveValType::F64),
        0x74 => Some(PrimitiveValType::Char),
        0x73 => Some(PrimitiveValType::String),
        0x64 => Some(PrimitiveValType::ErrorContext),
        _ => None,
    }
}

/// A value type: a primitive by its byte, or a type by its index.
#[tactic(auto, unfolding(crate::specs::Values::val_at))]
pub fn read_component_val_type(bytes: &[u8]) -> Result<(ComponentValType, &[u8]), ReadError>
    ensures { Gives (λ x. (x.0, x.1.now)) result (val_at bytes.now) }
{
    let (byte, rest) = read_byte(bytes)?;
    if let Some(primitive) = primitive_of(byte) {
        return Ok((ComponentValType::Primitive(primitive), rest));
    }
    let (index, rest) = read_index(bytes)?;
    Ok((ComponentValType::Ty(index), rest))
}

/// A value type that may be absent, behind a byte that says so.
#[tactic(auto, unfolding(crate::specs::Values::optional_val_at))]
pub fn read_optional_val_type(bytes: &[u8]) -> Result<(Option<ComponentValType>, &[u8]), ReadError>
    ensures { Gives (λ x. (x.0, x.1.now)) result (optional_val_at bytes.now) }
{
    let (there, rest) = read_flag(bytes)?;
    if !there {
        return Ok((None, rest));
    }
    let (ty, rest) = read_component_val_type(rest)?;
    Ok((Some(ty), rest))
}

/// The result of a function: a value type behind 0, or 1 and 0 for none.
#[tactic(auto, unfolding(crate::specs::Values::result_at))]
pub fn read_result(bytes: &[u8]) -> Result<(Option<ComponentValType>, &[u8]), ReadError>
    ensures { Gives (λ x. (x.0, x.1.now)) result (result_at bytes.now) }
{
    let (absent, rest) = read_flag(bytes)?;
    if absent {
        let rest = read_zero(rest)?;
        return Ok((None, rest));
    }
    let (ty, rest) = read_component_val_type(rest)?;
    Ok((Some(ty), rest))
}

impl FromBytes for ComponentValType {
    ghost use Rattle.wcv_binary.specs.Values.{val_at};

    ghost seen = { λ v. v };

    ghost meant = { val_at };

    fn from_bytes(_alloc: Global, bytes: &[u8]) -> Result<(ComponentValType, &[u8]), ReadError> {
        read_component_val_type(bytes)
    }
}

// A name and a value type.
#[tactic(auto, unfolding(crate::specs::Values::param_at))]
impl FromBytes for (Text, ComponentValType) {
    ghost use Rattle.wcv_binary.specs.Values.{param_at};

    ghost seen = { λ p. p };

    ghost meant = { param_at };

    fn from_bytes(
        alloc: Global,
        bytes: &[u8],
    ) -> Result<((Text, ComponentValType), &[u8]), ReadError> {
        let (name, rest) = read_text(bytes)?;
        let (ty, rest) = read_component_val_type(rest)?;
        let name = Text::new(alloc, name)?;
        Ok(((name, ty), rest))
    }
}

// A case of a variant.
#[tactic(auto, unfolding(crate::specs::Values::case_at))]
impl FromBytes for VariantCase {
    ghost use Rattle.wcv_binary.specs.Values.{case_at};

    ghost seen = { λ c. c };

    ghost meant = { case_at };

    fn from_bytes(alloc: Global, bytes: &[u8]) -> Result<(VariantCase, &[u8]), ReadError> {
        let (name, rest) = read_text(bytes)?;
        let (ty, rest) = read_optional_val_type(rest)?;
        let rest = read_zero(rest)?;
        let name = Text::new(alloc, name)?;
        Ok((VariantCase { name, ty }, rest))
    }
}
