// Core types.
ghost use Rattle.std.specs.Prelude.{◌≡◌, Some, map};
ghost use Rattle.wcv_core.specs.CoreForm.{composite_form, sub_form, group_form};
ghost use Rattle.wcv_encode.specs.Bytes.{Wrote, ◌⧺◌};
ghost use Rattle.wcv_encode.specs.CoreTypes.{abstract_byte, heap_bytes, ref_bytes, val_bytes, storage_bytes, field_bytes, composite_bytes, supers, sub_mark, shared_mark, sub_bytes, group_bytes};

use crate::fault::Unwritten;
use crate::list::{ToBytes, write_each, write_vec};
use crate::number::{write_byte, write_flag, write_s33, write_u32};
use wcv_core::{
    AbstractHeap, CompositeInnerType, FieldType, HeapType, RecGroup, RefType, StorageType, SubType,
    SuperType, ValType,
};

/// The byte of a heap type that a word names.
#[tactic(auto, unfolding(crate::specs::CoreTypes::abstract_byte))]
fn byte_of(heap: AbstractHeap) -> u8
    ensures { result ≡ abstract_byte heap }
{
    match heap {
        AbstractHeap::NoExn => 0x74,
        AbstractHeap::NoFunc => 0x73,
        AbstractHeap::NoExtern => 0x72,
        AbstractHeap::None => 0x71,
        AbstractHeap::Func => 0x70,
        AbstractHeap::Extern => 0x6f,
        AbstractHeap::Any => 0x6e,
        AbstractHeap::Eq => 0x6d,
        AbstractHeap::I31 => 0x6c,
        AbstractHeap::Struct => 0x6b,
        AbstractHeap::Array => 0x6a,
        AbstractHeap::Exn => 0x69,
    }
}

/// Writes a heap type behind the byte of its reference.
#[tactic(auto, using(crate::proofs::Joins::joins), unfolding(crate::specs::CoreTypes::heap_bytes))]
pub(crate) fn write_heap(out: &mut Vec<u8>, shared: bool, heap: HeapType) -> Result<(), Unwritten>
    ensures { Wrote result (Some out.old.items ⧺ heap_bytes shared heap) out.new.items }
{
    match heap {
        HeapType::Abstract(heap) => {
            if shared {
                write_byte(out, 0x65)?;
                write_byte(out, byte_of(heap))
            } else {
                write_byte(out, byte_of(heap))
            }
        }
        HeapType::Index(index) => {
            if shared {
                Err(Unwritten::NoBytes)
            } else {
                write_s33(out, index)
            }
        }
        HeapType::Id(_) => Err(Unwritten::NoBytes),
    }
}

/// Writes a reference type.
#[tactic(auto, using(crate::proofs::Joins::joins), unfolding(crate::specs::CoreTypes::ref_form))]
pub(crate) fn write_ref(out: &mut Vec<u8>, ty: RefType) -> Result<(), Unwritten>
    ensures { Wrote result (Some out.old.items ⧺ ref_bytes ty) out.new.items }
{
    match (ty.nullable, ty.shared, ty.heap) {
        (true, false, HeapType::Abstract(heap)) => write_byte(out, byte_of(heap)),
        (true, shared, heap) => {
            write_byte(out, 0x63)?;
            write_heap(out, shared, heap)
        }
        (false, shared, heap) => {
            write_byte(out, 0x64)?;
            write_heap(out, shared, heap)
        }
    }
}

/// Writes a value type.
#[tactic(auto, using(crate::proofs::Joins::joins), unfolding(crate::specs::CoreTypes::val_bytes))]
pub(crate) fn write_val(out: &mut Vec<u8>, ty: ValType) -> Result<(), Unwritten>
    ensures { Wrote result (Some out.old.items ⧺ val_bytes ty) out.new.items }
{
    match ty {
        ValType::I32 => write_byte(out, 0x7f),
        ValType::I64 => write_byte(out, 0x7e),
        ValType::F32 => write_byte(out, 0x7d),
        ValType::F64 => write_byte(out, 0x7c),
        ValType::V128 => write_byte(out, 0x7b),
        ValType::Ref(ty) => write_ref(out, ty),
    }
}

impl ToBytes for ValType {
    ghost use Rattle.wcv_encode.specs.CoreTypes.{val_bytes};

    ghost spelled = { val_bytes };

    fn write(&self, out: &mut Vec<u8>) -> Result<(), Unwritten> {
        write_val(out, *self)
    }
}

/// Writes how a field is stored.
#[tactic(auto, using(crate::proofs::Joins::joins), unfolding(crate::specs::CoreTypes::storage_bytes))]
fn write_storage(out: &mut Vec<u8>, storage: StorageType) -> Result<(), Unwritten>
    ensures { Wrote result (Some out.old.items ⧺ storage_bytes storage) out.new.items }
{
    match storage {
        StorageType::I8 => write_byte(out, 0x78),
        StorageType::I16 => write_byte(out, 0x77),
        StorageType::Val(ty) => write_val(out, ty),
    }
}

/// Writes a field.
#[tactic(auto, using(crate::proofs::Joins::joins), unfolding(crate::specs::CoreTypes::field_bytes))]
fn write_field(out: &mut Vec<u8>, field: FieldType) -> Result<(), Unwritten>
    ensures { Wrote result (Some out.old.items ⧺ field_bytes field) out.new.items }
{
    write_storage(out, field.storage)?;
    write_flag(out, field.mutable)
}

impl ToBytes for FieldType {
    ghost use Rattle.wcv_encode.specs.CoreTypes.{field_bytes};

    ghost spelled = { field_bytes };

    fn write(&self, out: &mut Vec<u8>) -> Result<(), Unwritten> {
        write_field(out, *self)
    }
}

/// Writes the form of a type.
#[tactic(auto, using(crate::proofs::Joins::joins), unfolding(crate::specs::CoreTypes::composite_bytes))]
fn write_composite(out: &mut Vec<u8>, inner: &CompositeInnerType) -> Result<(), Unwritten>
    ensures { Wrote result (Some out.old.items ⧺ composite_bytes (composite_form inner.now)) out.new.items }
{
    match inner {
        CompositeInnerType::Func(func) => {
            write_byte(out, 0x60)?;
            write_vec(out, &func.params)?;
            write_vec(out, &func.results)
        }
        CompositeInnerType::Struct(ty) => {
            write_byte(out, 0x5f)?;
            write_vec(out, &ty.fields)
        }
        CompositeInnerType::Array(array) => {
            write_byte(out, 0x5e)?;
            write_field(out, array.field)
        }
    }
}

/// Writes the supertypes of a type.
#[tactic(auto, using(crate::proofs::Joins::joins), unfolding(crate::specs::CoreTypes::supers))]
fn write_supers(out: &mut Vec<u8>, supertype: Option<SuperType>) -> Result<(), Unwritten>
    ensures { Wrote result (Some out.old.items ⧺ supers supertype) out.new.items }
{
    match supertype {
        None => write_byte(out, 0),
        Some(SuperType::Index(index)) => {
            write_byte(out, 1)?;
            write_u32(out, index)
        }
        Some(SuperType::Id(_)) => Err(Unwritten::NoBytes),
    }
}

/// Writes what stands before the form of a type.
#[tactic(auto, using(crate::proofs::Joins::joins), unfolding(crate::specs::CoreTypes::sub_mark))]
fn write_sub_mark(
    out: &mut Vec<u8>,
    is_final: bool,
    supertype: Option<SuperType>,
) -> Result<(), Unwritten>
    ensures { Wrote result (Some out.old.items ⧺ sub_mark is_final supertype) out.new.items }
{
    match (is_final, supertype) {
        (true, None) => Ok(()),
        (true, Some(parent)) => {
            write_byte(out, 0x4f)?;
            write_supers(out, Some(parent))
        }
        (false, supertype) => {
            write_byte(out, 0x50)?;
            write_supers(out, supertype)
        }
    }
}

/// Writes the mark of what is shared.
#[tactic(auto, using(crate::proofs::Joins::joins), unfolding(crate::specs::CoreTypes::shared_mark))]
fn write_shared_mark(out: &mut Vec<u8>, shared: bool) -> Result<(), Unwritten>
    ensures { Wrote result (Some out.old.items ⧺ shared_mark shared) out.new.items }
{
    if shared {
        write_byte(out, 0x65)
    } else {
        Ok(())
    }
}

/// Writes a type with its place among the others.
#[tactic(auto, using(crate::proofs::Joins::joins), unfolding(crate::specs::CoreTypes::sub_bytes))]
fn write_sub(out: &mut Vec<u8>, ty: &SubType) -> Result<(), Unwritten>
    ensures { Wrote result (Some out.old.items ⧺ sub_bytes (sub_form ty.now)) out.new.items }
{
    write_sub_mark(out, ty.is_final, ty.supertype)?;
    write_shared_mark(out, ty.shared)?;
    write_composite(out, &ty.inner)
}

impl ToBytes for SubType {
    ghost use Rattle.wcv_core.specs.CoreForm.{sub_form};
    ghost use Rattle.wcv_encode.specs.CoreTypes.{sub_bytes};

    ghost spelled = { λ s. sub_bytes (sub_form s) };

    fn write(&self, out: &mut Vec<u8>) -> Result<(), Unwritten> {
        write_sub(out, self)
    }
}

/// Writes a group of types.
#[tactic(auto, using(crate::proofs::Joins::joins, crate::proofs::Groups::groups))]
pub(crate) fn write_group(out: &mut Vec<u8>, group: &RecGroup) -> Result<(), Unwritten>
    ensures { Wrote result (Some out.old.items ⧺ group_bytes (group_form group.now)) out.new.items }
{
    if group.types.len() == 1 {
        write_each(out, &group.types)
    } else {
        write_byte(out, 0x4e)?;
        write_vec(out, &group.types)
    }
}
