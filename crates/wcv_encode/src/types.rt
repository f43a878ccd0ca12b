// Types and their declarations.
ghost use Rattle.std.specs.Prelude.{◌≡◌, Some, true, false, map};
ghost use Rattle.wcv_syntax.specs.View.{type_view, component_decl_view, instance_decl_view, decls_of};
ghost use Rattle.wcv_encode.specs.Bytes.{Wrote, ◌⧺◌, maybe, u32_bytes};
ghost use Rattle.wcv_encode.specs.Types.{type_bytes, decl_bytes, decls_bytes};

use crate::core_type::write_val;
use crate::entry::{write_alias, write_import, write_name, write_ref_of};
use crate::fault::Unwritten;
use crate::module_type::write_core_type;
use crate::number::{write_byte, write_count, write_u32};
use crate::value::{write_defined, write_func};
use wcv_syntax::{ComponentType, ComponentTypeDeclaration, InstanceTypeDeclaration};

/// Writes an index, where there is one, behind a byte that says whether it is.
#[tactic(auto, using(crate::proofs::Joins::joins), unfolding(crate::specs::Bytes::maybe))]
fn write_dtor(out: &mut Vec<u8>, dtor: Option<u32>) -> Result<(), Unwritten>
    ensures { Wrote result (Some out.old.items ⧺ maybe u32_bytes dtor) out.new.items }
{
    match dtor {
        None => write_byte(out, 0),
        Some(index) => {
            write_byte(out, 1)?;
            write_u32(out, index)
        }
    }
}

/// Writes a type.
#[cycle(write_type)]
#[tactic(auto, using(crate::proofs::Joins::joins, crate::proofs::Declared::type_forms))]
pub(crate) fn write_type(out: &mut Vec<u8>, ty: &ComponentType) -> Result<(), Unwritten>
    ensures { Wrote result (Some out.old.items ⧺ type_bytes (type_view ty.now)) out.new.items }
{
    match ty {
        ComponentType::Defined(ty) => write_defined(out, ty),
        ComponentType::Func(ty) => write_func(out, ty),
        ComponentType::Component(decls) => {
            write_byte(out, 0x41)?;
            write_count(out, decls.len())?;
            write_component_decls(out, decls)
        }
        ComponentType::Instance(decls) => {
            write_byte(out, 0x42)?;
            write_count(out, decls.len())?;
            write_instance_decls(out, decls)
        }
        ComponentType::Resource { rep, dtor } => {
            write_byte(out, 0x3f)?;
            write_val(out, *rep)?;
            write_dtor(out, *dtor)
        }
    }
}

/// Writes declarations of a component type.
#[cycle(write_type)]
fn write_component_decls(
    out: &mut Vec<u8>,
    decls: &Vec<ComponentTypeDeclaration>,
) -> Result<(), Unwritten>
    ensures { Wrote result (Some out.old.items ⧺ decls_bytes true (decls_of (map component_decl_view decls.now.items))) out.new.items }
{
    for decl in decls {
        write_component_decl(out, decl)?;
    }
    Ok(())
}

/// Writes declarations of an instance type.
#[cycle(write_type)]
fn write_instance_decls(
    out: &mut Vec<u8>,
    decls: &Vec<InstanceTypeDeclaration>,
) -> Result<(), Unwritten>
    ensures { Wrote result (Some out.old.items ⧺ decls_bytes false (decls_of (map instance_decl_view decls.now.items))) out.new.items }
{
    for decl in decls {
        write_instance_decl(out, decl)?;
    }
    Ok(())
}

/// Writes a declaration of a component type.
#[cycle(write_type)]
#[tactic(auto, using(crate::proofs::Joins::joins, crate::proofs::Declared::in_components))]
fn write_component_decl(out: &mut Vec<u8>, decl: &ComponentTypeDeclaration) -> Result<(), Unwritten>
    ensures { Wrote result (Some out.old.items ⧺ decl_bytes true (component_decl_view decl.now)) out.new.items }
{
    match decl {
        ComponentTypeDeclaration::CoreType(ty) => {
            write_byte(out, 0x00)?;
            write_core_type(out, ty)
        }
        ComponentTypeDeclaration::Ty(ty) => {
            write_byte(out, 0x01)?;
            write_type(out, ty)
        }
        ComponentTypeDeclaration::Alias(alias) => {
            write_byte(out, 0x02)?;
            write_alias(out, alias)
        }
        ComponentTypeDeclaration::Export { name, ty } => {
            write_byte(out, 0x04)?;
            write_name(out, name)?;
            write_ref_of(out, *ty)
        }
        ComponentTypeDeclaration::Import(import) => {
            write_byte(out, 0x03)?;
            write_import(out, import)
        }
    }
}

/// Writes a declaration of an instance type.
#[cycle(write_type)]
#[tactic(auto, using(crate::proofs::Joins::joins, crate::proofs::Declared::in_instances))]
fn write_instance_decl(out: &mut Vec<u8>, decl: &InstanceTypeDeclaration) -> Result<(), Unwritten>
    ensures { Wrote result (Some out.old.items ⧺ decl_bytes false (instance_decl_view decl.now)) out.new.items }
{
    match decl {
        InstanceTypeDeclaration::CoreType(ty) => {
            write_byte(out, 0x00)?;
            write_core_type(out, ty)
        }
        InstanceTypeDeclaration::Ty(ty) => {
            write_byte(out, 0x01)?;
            write_type(out, ty)
        }
        InstanceTypeDeclaration::Alias(alias) => {
            write_byte(out, 0x02)?;
            write_alias(out, alias)
        }
        InstanceTypeDeclaration::Export { name, ty } => {
            write_byte(out, 0x04)?;
            write_name(out, name)?;
            write_ref_of(out, *ty)
        }
    }
}
