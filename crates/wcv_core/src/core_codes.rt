// The code of a group, by which the table looks groups up.
ghost use Rattle.std.specs.Prelude.{◌≡◌, ◌+◌, ◌*◌, ◌++◌, OnOk, IfOk};
ghost use Rattle.wcv_core.specs.CoreCode.{bit, abstract_number, heap_kind, heap_number, ref_mark, val_code, vals_code, storage_kind, storage_rest, field_code, fields_code, composite_code, super_kind, super_number, sub_mark, sub_code, code_of};
ghost use Rattle.wcv_core.specs.CoreForm.{func_form, composite_form, sub_form, group_form};

use crate::core_types::{
    AbstractHeap, CompositeInnerType, FieldType, FuncType, HeapType, RecGroup, RefType,
    StorageType, SubType, SuperType, ValType,
};
use std::alloc::{AllocError, Global};

fn abstract_number(name: AbstractHeap) -> u64
    ensures { result ≡ abstract_number name }
{
    match name {
        AbstractHeap::Func => 0,
        AbstractHeap::NoFunc => 1,
        AbstractHeap::Extern => 2,
        AbstractHeap::NoExtern => 3,
        AbstractHeap::Any => 4,
        AbstractHeap::Eq => 5,
        AbstractHeap::I31 => 6,
        AbstractHeap::Struct => 7,
        AbstractHeap::Array => 8,
        AbstractHeap::None => 9,
        AbstractHeap::Exn => 10,
        AbstractHeap::NoExn => 11,
    }
}

pub fn heap_number(heap: HeapType) -> u64
    ensures { result ≡ heap_number heap }
{
    match heap {
        HeapType::Abstract(name) => abstract_number(name),
        HeapType::Index(n) => n as u64,
        HeapType::Id(id) => id.index,
    }
}

pub fn ref_mark(r: RefType) -> u64
    ensures { result ≡ ref_mark r }
{
    let base: u64 = match r.heap {
        HeapType::Abstract(_) => 5,
        HeapType::Index(_) => 9,
        HeapType::Id(_) => 13,
    };
    let nullable: u64 = if r.nullable { 1 } else { 0 };
    let shared: u64 = if r.shared { 2 } else { 0 };
    base + nullable + shared
}

fn push_val(code: &mut Vec<u64>, ty: ValType) -> Result<(), AllocError>
    ensures { OnOk result (code.new.items ≡ code.old.items ++ val_code ty) }
{
    match ty {
        ValType::I32 => code.extend_from_slice(&[0]),
        ValType::I64 => code.extend_from_slice(&[1]),
        ValType::F32 => code.extend_from_slice(&[2]),
        ValType::F64 => code.extend_from_slice(&[3]),
        ValType::V128 => code.extend_from_slice(&[4]),
        ValType::Ref(r) => code.extend_from_slice(&[ref_mark(r), heap_number(r.heap)]),
    }
}

fn push_vals(code: &mut Vec<u64>, types: &[ValType]) -> Result<(), AllocError>
    ensures { OnOk result (code.new.items ≡ code.old.items ++ vals_code types.now) }
{
    for ty in types {
        push_val(code, *ty)?;
    }
    Ok(())
}

fn field_mark(field: FieldType) -> u64
    ensures { result ≡ bit field.mutable + 2 * storage_kind field.storage }
{
    let kind: u64 = match field.storage {
        StorageType::I8 => 0,
        StorageType::I16 => 2,
        StorageType::Val(_) => 4,
    };
    if field.mutable { kind + 1 } else { kind }
}

fn push_field(code: &mut Vec<u64>, field: FieldType) -> Result<(), AllocError>
    ensures { OnOk result (code.new.items ≡ code.old.items ++ field_code field) }
{
    code.extend_from_slice(&[field_mark(field)])?;
    match field.storage {
        StorageType::Val(ty) => push_val(code, ty),
        _ => Ok(()),
    }
}

fn push_fields(code: &mut Vec<u64>, fields: &[FieldType]) -> Result<(), AllocError>
    ensures { OnOk result (code.new.items ≡ code.old.items ++ fields_code fields.now) }
{
    for field in fields {
        push_field(code, *field)?;
    }
    Ok(())
}

fn push_func(code: &mut Vec<u64>, func: &FuncType) -> Result<(), AllocError>
    ensures { OnOk result (code.new.items ≡ code.old.items ++ composite_code (func_form func.now.params.items func.now.results.items)) }
{
    code.extend_from_slice(&[0, func.params.len() as u64, func.results.len() as u64])?;
    push_vals(code, func.params.as_slice())?;
    push_vals(code, func.results.as_slice())
}

fn push_composite(code: &mut Vec<u64>, ty: &CompositeInnerType) -> Result<(), AllocError>
    ensures { OnOk result (code.new.items ≡ code.old.items ++ composite_code (composite_form ty.now)) }
{
    match ty {
        CompositeInnerType::Func(func) => push_func(code, func),
        CompositeInnerType::Struct(ty) => {
            code.extend_from_slice(&[1, ty.fields.len() as u64])?;
            push_fields(code, ty.fields.as_slice())
        }
        CompositeInnerType::Array(ty) => {
            code.extend_from_slice(&[2])?;
            push_field(code, ty.field)
        }
    }
}

fn super_number(supertype: Option<SuperType>) -> u64
    ensures { result ≡ super_number supertype }
{
    match supertype {
        None => 0,
        Some(SuperType::Index(n)) => n as u64,
        Some(SuperType::Id(id)) => id.index,
    }
}

fn super_mark(supertype: Option<SuperType>) -> u64
    ensures { result ≡ 4 * super_kind supertype }
{
    match supertype {
        None => 0,
        Some(SuperType::Index(_)) => 4,
        Some(SuperType::Id(_)) => 8,
    }
}

fn sub_mark(ty: &SubType) -> u64
    ensures { result ≡ sub_mark (sub_form ty.now) }
{
    let is_final: u64 = if ty.is_final { 1 } else { 0 };
    let shared: u64 = if ty.shared { 2 } else { 0 };
    is_final + shared + super_mark(ty.supertype)
}

fn push_sub(code: &mut Vec<u64>, ty: &SubType) -> Result<(), AllocError>
    ensures { OnOk result (code.new.items ≡ code.old.items ++ sub_code (sub_form ty.now)) }
{
    code.extend_from_slice(&[sub_mark(ty), super_number(ty.supertype)])?;
    push_composite(code, &ty.inner)
}

/// The code of the group.
pub fn group_code(alloc: Global, group: &RecGroup) -> Result<Vec<u64>, AllocError>
    ensures { IfOk result (λ code. code.items ≡ code_of (group_form group.now)) }
{
    let mut code = Vec::new(alloc);
    for ty in &group.types {
        push_sub(&mut code, ty)?;
    }
    Ok(code)
}
