// Core value types, reference types and types of fields.
ghost use Rattle.std.specs.Prelude.{◌≡◌};
ghost use Rattle.wcv_binary.specs.CoreValues.{core_val_at, field_at, full_ref_at, heap_at, heap_bytes, is_continuation, named_heap_at, number_bytes, packed_bytes, ref_type_at, storage_at};
ghost use Rattle.wcv_bytes.specs.Reading.{Gives, under_byte};

use crate::list::FromBytes;
use std::alloc::Global;
use wcv_bytes::{ReadError, Why, fault_at, read_byte, read_flag, read_index};
use wcv_core::{AbstractHeap, FieldType, HeapType, RefType, StorageType, ValType};

// The heap type that the byte names.
fn heap_of_byte(byte: u8) -> Option<AbstractHeap>
    ensures { result ≡ under_byte heap_bytes byte }
{
    match byte {
        0x70 => Some(AbstractHeap::Func),
        0x6F => Some(AbstractHeap::Extern),
        0x6E => Some(AbstractHeap::Any),
        0x6D => Some(AbstractHeap::Eq),
        0x6C => Some(AbstractHeap::I31),
        0x6B => Some(AbstractHeap::Struct),
        0x6A => Some(AbstractHeap::Array),
        0x71 => Some(AbstractHeap::None),
        0x72 => Some(AbstractHeap::NoExtern),
        0x73 => Some(AbstractHeap::NoFunc),
        0x69 => Some(AbstractHeap::Exn),
        0x74 => Some(AbstractHeap::NoExn),
        _ => None,
    }
}

// Whether the byte names a heap type of continuations.
fn names_continuation(byte: u8) -> bool
    ensures { result ≡ is_continuation byte }
{
    matches!(byte, 0x68 | 0x75)
}

// The heap type at the front, by its name.
#[tactic(auto, unfolding(crate::specs::CoreValues::named_heap_at))]
fn read_named_heap(bytes: &[u8]) -> Result<(AbstractHeap, &[u8]), ReadError>
    ensures { Gives (λ x. (x.0, x.1.now)) result (named_heap_at bytes.now) }
{
    let (byte, rest) = read_byte(bytes)?;
    let Some(heap) = heap_of_byte(byte) else {
        let why = if names_continuation(byte) {
            Why::UnsupportedContinuation
        } else {
            Why::NotHeap
        };
        return Err(fault_at(why, bytes));
    };
    Ok((heap, rest))
}

// The heap type at the front, by its name, or the index of a core type.
#[tactic(auto, unfolding(crate::specs::CoreValues::heap_at))]
fn read_heap(bytes: &[u8]) -> Result<(HeapType, &[u8]), ReadError>
    ensures { Gives (λ x. (x.0, x.1.now)) result (heap_at bytes.now) }
{
    let (byte, rest) = read_byte(bytes)?;
    if let Some(heap) = heap_of_byte(byte) {
        return Ok((HeapType::Abstract(heap), rest));
    }
    if names_continuation(byte) {
        return Err(fault_at(Why::UnsupportedContinuation, bytes));
    }
    if byte == 0x62 {
        return Err(fault_at(Why::UnsupportedExact, bytes));
    }
    let (index, rest) = read_index(bytes)?;
    Ok((HeapType::Index(index), rest))
}

/// What stands behind the byte of a reference type that is written in full.
#[tactic(auto, unfolding(crate::specs::CoreValues::full_ref_at))]
pub fn read_full_ref(nullable: bool, bytes: &[u8]) -> Result<(RefType, &[u8]), ReadError>
    ensures { Gives (λ x. (x.0, x.1.now)) result (full_ref_at nullable bytes.now) }
{
    let (byte, rest) = read_byte(bytes)?;
    if byte == 0x65 {
        let (heap, rest) = read_named_heap(rest)?;
        let heap = HeapType::Abstract(heap);
        return Ok((
            RefType {
                nullable,
                shared: true,
                heap,
            },
            rest,
        ));
    }
    let (heap, rest) = read_heap(bytes)?;
    Ok((
        RefType {
            nullable,
            shared: false,
            heap,
        },
        rest,
    ))
}

/// The core reference type at the front, as the core specification's binary format has it: written in full, or the
/// name of a heap type alone, which is nullable.
#[tactic(auto, unfolding(crate::specs::CoreValues::ref_type_at))]
pub fn read_ref_type(bytes: &[u8]) -> Result<(RefType, &[u8]), ReadError>
    ensures { Gives (λ x. (x.0, x.1.now)) result (ref_type_at bytes.now) }
{
    let (byte, rest) = read_byte(bytes)?;
    if byte == 0x63 {
        return read_full_ref(true, rest);
    }
    if byte == 0x64 {
        return read_full_ref(false, rest);
    }
    let Some(heap) = heap_of_byte(byte) else {
        let why = if names_continuation(byte) {
            Why::UnsupportedContinuation
        } else {
            Why::NotCoreValue
        };
        return Err(fault_at(why, bytes));
    };
    let heap = HeapType::Abstract(heap);
    Ok((
        RefType {
            nullable: true,
            shared: false,
            heap,
        },
        rest,
    ))
}

// The core value type that the byte names and that is no reference.
fn number_of_byte(byte: u8) -> Option<ValType>
    ensures { result ≡ under_byte number_bytes byte }
{
    match byte {
        0x7F => Some(ValType::I32),
        0x7E => Some(ValType::I64),
        0x7D => Some(ValType::F32),
        0x7C => Some(ValType::F64),
        0x7B => Some(ValType::V128),
        _ => None,
    }
}

/// The core value type at the front, as the core specification's binary format has it.
#[tactic(auto, unfolding(crate::specs::CoreValues::core_val_at))]
pub fn read_val_type(bytes: &[u8]) -> Result<(ValType, &[u8]), ReadError>
    ensures { Gives (λ x. (x.0, x.1.now)) result (core_val_at bytes.now) }
{
    let (byte, rest) = read_byte(bytes)?;
    if let Some(number) = number_of_byte(byte) {
        return Ok((number, rest));
    }
    let (reference, rest) = read_ref_type(bytes)?;
    Ok((ValType::Ref(reference), rest))
}

// The type of a field, without whether it can be changed.
#[tactic(auto, unfolding(crate::specs::CoreValues::storage_at))]
fn read_storage(bytes: &[u8]) -> Result<(StorageType, &[u8]), ReadError>
    ensures { Gives (λ x. (x.0, x.1.now)) result (storage_at bytes.now) }
{
    let (byte, rest) = read_byte(bytes)?;
    if byte == 0x78 {
        return Ok((StorageType::I8, rest));
    }
    if byte == 0x77 {
        return Ok((StorageType::I16, rest));
    }
    let (ty, rest) = read_val_type(bytes)?;
    Ok((StorageType::Val(ty), rest))
}

/// The type of a field at the front, as the core specification's binary format has it.
#[tactic(auto, unfolding(crate::specs::CoreValues::field_at))]
pub fn read_field(bytes: &[u8]) -> Result<(FieldType, &[u8]), ReadError>
    ensures { Gives (λ x. (x.0, x.1.now)) result (field_at bytes.now) }
{
    let (storage, rest) = read_storage(bytes)?;
    let (mutable, rest) = read_flag(rest)?;
    Ok((FieldType { storage, mutable }, rest))
}

impl FromBytes for ValType {
    ghost use Rattle.wcv_binary.specs.CoreValues.{core_val_at};

    ghost seen = { λ ty. ty };

    ghost meant = { core_val_at };

    fn from_bytes(_alloc: Global, bytes: &[u8]) -> Result<(ValType, &[u8]), ReadError> {
        read_val_type(bytes)
    }
}

impl FromBytes for FieldType {
    ghost use Rattle.wcv_binary.specs.CoreValues.{field_at};

    ghost seen = { λ field. field };

    ghost meant = { field_at };

    fn from_bytes(_alloc: Global, bytes: &[u8]) -> Result<(FieldType, &[u8]), ReadError> {
        read_field(bytes)
    }
}
