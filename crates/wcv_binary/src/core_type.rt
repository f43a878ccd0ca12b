// Core types and groups of them.
ghost use Rattle.std.specs.Prelude.{◌≡◌};
ghost use Rattle.wcv_binary.specs.CoreTypes.{composite_at, core_func_at, group_at, inner_at, place_at, sub_at, super_at};
ghost use Rattle.wcv_bytes.specs.Reading.{Gives};
ghost use Rattle.wcv_core.specs.CoreForm.{SubForm, composite_form, func_form, group_form, sub_form};

use crate::core_value::read_field;
use crate::list::{FromBytes, read_vec};
use std::alloc::Global;
use wcv_bytes::{ReadError, Why, fault_at, read_byte, read_u32};
use wcv_core::{ArrayType, CompositeInnerType, FuncType, RecGroup, StructType, SubType, SuperType};

// The parameters and the results of a function type.
#[tactic(auto, unfolding(crate::specs::CoreTypes::core_func_at))]
fn read_core_func(alloc: Global, bytes: &[u8]) -> Result<(FuncType, &[u8]), ReadError>
    ensures { Gives (λ x. (func_form x.0.params.items x.0.results.items, x.1.now)) result (core_func_at bytes.now) }
{
    let (params, rest) = read_vec(alloc, bytes)?;
    let (results, rest) = read_vec(alloc, rest)?;
    Ok((FuncType { params, results }, rest))
}

// The form of a core type.
#[tactic(auto, unfolding(crate::specs::CoreTypes::inner_at))]
fn read_inner(alloc: Global, bytes: &[u8]) -> Result<(CompositeInnerType, &[u8]), ReadError>
    ensures { Gives (λ x. (composite_form x.0, x.1.now)) result (inner_at bytes.now) }
{
    let (byte, rest) = read_byte(bytes)?;
    match byte {
        0x60 => {
            let (func, rest) = read_core_func(alloc, rest)?;
            Ok((CompositeInnerType::Func(func), rest))
        }
        0x5F => {
            let (fields, rest) = read_vec(alloc, rest)?;
            Ok((CompositeInnerType::Struct(StructType { fields }), rest))
        }
        0x5E => {
            let (field, rest) = read_field(rest)?;
            Ok((CompositeInnerType::Array(ArrayType { field }), rest))
        }
        0x5D => Err(fault_at(Why::UnsupportedContinuation, bytes)),
        0x4C | 0x4D => Err(fault_at(Why::UnsupportedDescriptor, bytes)),
        _ => Err(fault_at(Why::NotCoreType, bytes)),
    }
}

// Whether the type is shared, and its form.
#[tactic(auto, unfolding(crate::specs::CoreTypes::composite_at))]
fn read_composite(
    alloc: Global,
    bytes: &[u8],
) -> Result<((bool, CompositeInnerType), &[u8]), ReadError>
    ensures { Gives (λ x. ((x.0.0, composite_form x.0.1), x.1.now)) result (composite_at bytes.now) }
{
    let (byte, rest) = read_byte(bytes)?;
    let shared = byte == 0x65;
    let (inner, rest) = read_inner(alloc, if shared { rest } else { bytes })?;
    Ok(((shared, inner), rest))
}

// A list of supertypes, which has at most one.
#[tactic(auto, unfolding(crate::specs::CoreTypes::super_at))]
fn read_super(bytes: &[u8]) -> Result<(Option<SuperType>, &[u8]), ReadError>
    ensures { Gives (λ x. (x.0, x.1.now)) result (super_at bytes.now) }
{
    let (count, rest) = read_u32(bytes)?;
    match count {
        0 => Ok((None, rest)),
        1 => {
            let (index, rest) = read_u32(rest)?;
            Ok((Some(SuperType::Index(index)), rest))
        }
        _ => Err(fault_at(Why::ManySupertypes, bytes)),
    }
}

// Whether the type is final, and its supertype.
#[tactic(auto, unfolding(crate::specs::CoreTypes::place_at))]
fn read_place(bytes: &[u8]) -> Result<((bool, Option<SuperType>), &[u8]), ReadError>
    ensures { Gives (λ x. ((x.0.0, x.0.1), x.1.now)) result (place_at bytes.now) }
{
    let (byte, rest) = read_byte(bytes)?;
    match byte {
        0x50 => {
            let (supertype, rest) = read_super(rest)?;
            Ok(((false, supertype), rest))
        }
        0x4F => {
            let (supertype, rest) = read_super(rest)?;
            Ok(((true, supertype), rest))
        }
        _ => Ok(((true, None), bytes)),
    }
}

// A core type with its place among the others.
impl FromBytes for SubType {
    ghost use Rattle.wcv_binary.specs.CoreTypes.{sub_at};
    ghost use Rattle.wcv_core.specs.CoreForm.{SubForm, sub_form};

    ghost Form = { SubForm };

    ghost seen = { sub_form };

    ghost meant = { sub_at };

    #[tactic(auto, unfolding(crate::specs::CoreTypes::sub_at))]
    fn from_bytes(alloc: Global, bytes: &[u8]) -> Result<(SubType, &[u8]), ReadError> {
        let ((is_final, supertype), rest) = read_place(bytes)?;
        let ((shared, inner), rest) = read_composite(alloc, rest)?;
        Ok((
            SubType {
                is_final,
                supertype,
                shared,
                inner,
            },
            rest,
        ))
    }
}

/// A group of core types, or one type as a group of its own, as the core specification's binary format has it.
#[tactic(auto, unfolding(crate::specs::CoreTypes::group_at))]
pub fn read_group(alloc: Global, bytes: &[u8]) -> Result<(RecGroup, &[u8]), ReadError>
    ensures { Gives (λ x. (group_form x.0, x.1.now)) result (group_at bytes.now) }
{
    let (byte, rest) = read_byte(bytes)?;
    if byte == 0x4E {
        let (types, rest) = read_vec(alloc, rest)?;
        return Ok((RecGroup { types }, rest));
    }
    let mut types = Vec::with_capacity(alloc, 1)?;
    let (ty, rest) = SubType::from_bytes(alloc, bytes)?;
    types.push_reserved(ty);
    Ok((RecGroup { types }, rest))
}
