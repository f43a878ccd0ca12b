// Types, and the declarations of component types and instance types, which nest.
ghost use Rattle.std.specs.Prelude.{◌≡◌, map};
ghost use Rattle.wcv_bytes.specs.Reading.{Gives, list_at, of_one};
ghost use Rattle.wcv_binary.specs.Types.{destructor_at, plain_type_at, plain_decl_at, instance_decl_at, component_decl_at, type_over, type_within};
ghost use Rattle.wcv_syntax.specs.Model.{import_decl};
ghost use Rattle.wcv_binary.specs.Names.{import_at};
ghost use Rattle.wcv_syntax.specs.View.{type_view, component_decl_view, instance_decl_view};

use crate::alias::read_alias;
use crate::core_value::read_val_type;
use crate::defined::read_defined;
use crate::func::read_func;
use crate::module_type::read_core_type;
use crate::name::{own_name, read_import, read_name, read_ref};
use std::alloc::Global;
use wcv_bytes::{ReadError, Why, fault_at, read_byte, read_flag, read_u32, room_of};
use wcv_syntax::{ComponentType, ComponentTypeDeclaration, InstanceTypeDeclaration};

// A type with types nested in it, itself among them, at most so deep.
#[cycle(types)]
fn read_type_within(
    alloc: Global,
    depth: usize,
    bytes: &[u8],
) -> Result<(ComponentType, &[u8]), ReadError>
    ensures { Gives (λ x. (type_view x.0, x.1.now)) result (type_within depth bytes.now) }
{
    if depth == 0 {
        return Err(fault_at(Why::TooDeep, bytes));
    }
    read_type_over(alloc, depth - 1, bytes)
}

/// A type, as the component model's Binary.md has it, in which types nest at most so deep.
#[cycle(types)]
#[tactic(auto, using(crate::proofs::Nested::views), unfolding(crate::specs::Types::type_over, wcv_bytes::specs::Reading::vec_at))]
pub fn read_type_over(
    alloc: Global,
    depth: usize,
    bytes: &[u8],
) -> Result<(ComponentType, &[u8]), ReadError>
    ensures { Gives (λ x. (type_view x.0, x.1.now)) result (type_over (type_within depth) bytes.now) }
{
    let (byte, rest) = read_byte(bytes)?;
    match byte {
        0x41 => {
            let (count, rest) = read_u32(rest)?;
            let (decls, rest) = read_component_decls(alloc, depth, count, rest)?;
            Ok((ComponentType::Component(decls), rest))
        }
        0x42 => {
            let (count, rest) = read_u32(rest)?;
            let (decls, rest) = read_instance_decls(alloc, depth, count, rest)?;
            Ok((ComponentType::Instance(decls), rest))
        }
        _ => read_plain_type(alloc, bytes),
    }
}

// So many declarations of a component type.
#[cycle(types)]
fn read_component_decls(
    alloc: Global,
    depth: usize,
    count: u32,
    bytes: &[u8],
) -> Result<(Vec<ComponentTypeDeclaration>, &[u8]), ReadError>
    ensures { Gives (λ x. (map component_decl_view x.0.items, x.1.now)) result (list_at (component_decl_at (type_within depth)) count bytes.now) }
{
    let mut decls = Vec::with_capacity(alloc, room_of(count, bytes))?;
    let mut rest = bytes;
    for _ in 0..count {
        decls.reserve(1)?;
        let (decl, after) = read_component_decl(alloc, depth, rest)?;
        decls.push_reserved(decl);
        rest = after;
    }
    Ok((decls, rest))
}

// So many declarations of an instance type.
#[cycle(types)]
fn read_instance_decls(
    alloc: Global,
    depth: usize,
    count: u32,
    bytes: &[u8],
) -> Result<(Vec<InstanceTypeDeclaration>, &[u8]), ReadError>
    ensures { Gives (λ x. (map instance_decl_view x.0.items, x.1.now)) result (list_at (instance_decl_at (type_within depth)) count bytes.now) }
{
    let mut decls = Vec::with_capacity(alloc, room_of(count, bytes))?;
    let mut rest = bytes;
    for _ in 0..count {
        decls.reserve(1)?;
        let (decl, after) = read_instance_decl(alloc, depth, rest)?;
        decls.push_reserved(decl);
        rest = after;
    }
    Ok((decls, rest))
}

// A declaration of a component type, in which types nest at most so deep.
#[cycle(types)]
#[tactic(auto, unfolding(crate::specs::Types::component_decl_at))]
fn read_component_decl(
    alloc: Global,
    depth: usize,
    bytes: &[u8],
) -> Result<(ComponentTypeDeclaration, &[u8]), ReadError>
    ensures { Gives (λ x. (component_decl_view x.0, x.1.now)) result (component_decl_at (type_within depth) bytes.now) }
{
    let (byte, rest) = read_byte(bytes)?;
    if byte == 0x03 {
        return read_import_decl(alloc, rest);
    }
    let (decl, rest) = read_instance_decl(alloc, depth, bytes)?;
    Ok((decl.in_component_type(), rest))
}

// A declaration of an instance type, in which types nest at most so deep.
#[cycle(types)]
#[tactic(auto, using(crate::proofs::Nested::views), unfolding(crate::specs::Types::instance_decl_at))]
fn read_instance_decl(
    alloc: Global,
    depth: usize,
    bytes: &[u8],
) -> Result<(InstanceTypeDeclaration, &[u8]), ReadError>
    ensures { Gives (λ x. (instance_decl_view x.0, x.1.now)) result (instance_decl_at (type_within depth) bytes.now) }
{
    let (byte, rest) = read_byte(bytes)?;
    if byte == 0x01 {
        let (ty, rest) = read_type_within(alloc, depth, rest)?;
        return Ok((InstanceTypeDeclaration::Ty(ty), rest));
    }
    read_plain_decl(alloc, bytes)
}

// A declared import of a component type.
#[tactic(auto, using(crate::proofs::Nested::views))]
fn read_import_decl(
    alloc: Global,
    bytes: &[u8],
) -> Result<(ComponentTypeDeclaration, &[u8]), ReadError>
    ensures { Gives (λ x. (component_decl_view x.0, x.1.now)) result (of_one import_at import_decl bytes.now) }
{
    let (import, rest) = read_import(alloc, bytes)?;
    Ok((ComponentTypeDeclaration::Import(import), rest))
}

// A declaration in which no type of a component stands.
#[tactic(auto, using(crate::proofs::Nested::views), unfolding(crate::specs::Types::plain_decl_at))]
fn read_plain_decl(
    alloc: Global,
    bytes: &[u8],
) -> Result<(InstanceTypeDeclaration, &[u8]), ReadError>
    ensures { Gives (λ x. (instance_decl_view x.0, x.1.now)) result (plain_decl_at bytes.now) }
{
    let (byte, rest) = read_byte(bytes)?;
    match byte {
        0x00 => {
            let (ty, rest) = read_core_type(alloc, rest)?;
            Ok((InstanceTypeDeclaration::CoreType(ty), rest))
        }
        0x02 => {
            let (alias, rest) = read_alias(alloc, rest)?;
            Ok((InstanceTypeDeclaration::Alias(alias), rest))
        }
        0x04 => {
            let (name, rest) = read_name(rest)?;
            let (ty, rest) = read_ref(rest)?;
            let name = own_name(alloc, name)?;
            Ok((InstanceTypeDeclaration::Export { name, ty }, rest))
        }
        _ => Err(fault_at(Why::NotDeclaration, bytes)),
    }
}

// The index of a destructor, behind a byte that says whether it is there.
#[tactic(auto, unfolding(crate::specs::Types::destructor_at))]
fn read_destructor(bytes: &[u8]) -> Result<(Option<u32>, &[u8]), ReadError>
    ensures { Gives (λ x. (x.0, x.1.now)) result (destructor_at bytes.now) }
{
    let (there, rest) = read_flag(bytes)?;
    if !there {
        return Ok((None, rest));
    }
    let (index, rest) = read_u32(rest)?;
    Ok((Some(index), rest))
}

// A type without declarations.
#[tactic(auto, using(crate::proofs::Nested::views), unfolding(crate::specs::Types::plain_type_at))]
fn read_plain_type(alloc: Global, bytes: &[u8]) -> Result<(ComponentType, &[u8]), ReadError>
    ensures { Gives (λ x. (type_view x.0, x.1.now)) result (plain_type_at bytes.now) }
{
    let (byte, rest) = read_byte(bytes)?;
    match byte {
        0x40 => {
            let (ty, rest) = read_func(alloc, false, rest)?;
            Ok((ComponentType::Func(ty), rest))
        }
        0x43 => {
            let (ty, rest) = read_func(alloc, true, rest)?;
            Ok((ComponentType::Func(ty), rest))
        }
        0x3F => {
            let (rep, rest) = read_val_type(rest)?;
            let (dtor, rest) = read_destructor(rest)?;
            Ok((ComponentType::Resource { rep, dtor }, rest))
        }
        _ => {
            let (ty, rest) = read_defined(alloc, bytes)?;
            Ok((ComponentType::Defined(ty), rest))
        }
    }
}
