// Core type items.
ghost use Rattle.std.specs.Prelude.{◌≡◌, Some};
ghost use Rattle.wcv_core.specs.CoreForm.{group_form};
ghost use Rattle.wcv_syntax.specs.View.{core_type_view, module_decl_view};
ghost use Rattle.wcv_encode.specs.Bytes.{Wrote, ◌⧺◌};
ghost use Rattle.wcv_encode.specs.Modules.{entity_bytes, core_import_bytes, module_decl_bytes, open_mark, core_type_bytes};

use crate::core_type::write_group;
use crate::entity::{write_global, write_memory, write_table};
use crate::fault::Unwritten;
use crate::list::{ToBytes, write_vec};
use crate::number::{write_all, write_byte, write_u32};
use crate::text::write_text;
use wcv_core::RecGroup;
use wcv_syntax::{CoreType, Import, ModuleTypeDeclaration, TypeRef};

/// Writes what a core import or export is.
#[tactic(auto, using(crate::proofs::Joins::joins), unfolding(crate::specs::Modules::entity_bytes))]
fn write_entity(out: &mut Vec<u8>, ty: TypeRef) -> Result<(), Unwritten>
    ensures { Wrote result (Some out.old.items ⧺ entity_bytes ty) out.new.items }
{
    match ty {
        TypeRef::Func(index) => {
            write_byte(out, 0x00)?;
            write_u32(out, index)
        }
        TypeRef::Table(ty) => {
            write_byte(out, 0x01)?;
            write_table(out, ty)
        }
        TypeRef::Memory(ty) => {
            write_byte(out, 0x02)?;
            write_memory(out, ty)
        }
        TypeRef::Global(ty) => {
            write_byte(out, 0x03)?;
            write_global(out, ty)
        }
        TypeRef::Tag(index) => {
            write_byte(out, 0x04)?;
            write_byte(out, 0x00)?;
            write_u32(out, index)
        }
    }
}

/// Writes an import of a core module.
#[tactic(auto, using(crate::proofs::Joins::joins), unfolding(crate::specs::Modules::core_import_bytes))]
pub(crate) fn write_core_import(out: &mut Vec<u8>, import: &Import) -> Result<(), Unwritten>
    ensures { Wrote result (Some out.old.items ⧺ core_import_bytes import.now) out.new.items }
{
    write_text(out, import.module.as_str())?;
    write_text(out, import.name.as_str())?;
    write_entity(out, import.ty)
}

/// Writes a declaration of a module type.
#[tactic(auto, using(crate::proofs::Joins::joins), unfolding(crate::specs::Modules::module_decl_bytes))]
fn write_module_decl(out: &mut Vec<u8>, decl: &ModuleTypeDeclaration) -> Result<(), Unwritten>
    ensures { Wrote result (Some out.old.items ⧺ module_decl_bytes (module_decl_view decl.now)) out.new.items }
{
    match decl {
        ModuleTypeDeclaration::Import(import) => {
            write_byte(out, 0x00)?;
            write_core_import(out, import)
        }
        ModuleTypeDeclaration::Ty(group) => {
            write_byte(out, 0x01)?;
            write_group(out, group)
        }
        ModuleTypeDeclaration::OuterAlias { count, index } => {
            write_all(out, &[0x02, 0x10, 0x01])?;
            write_u32(out, *count)?;
            write_u32(out, *index)
        }
        ModuleTypeDeclaration::Export { name, ty } => {
            write_byte(out, 0x03)?;
            write_text(out, name.as_str())?;
            write_entity(out, *ty)
        }
    }
}

impl ToBytes for ModuleTypeDeclaration {
    ghost use Rattle.wcv_syntax.specs.View.{module_decl_view};
    ghost use Rattle.wcv_encode.specs.Modules.{module_decl_bytes};

    ghost spelled = { λ d. module_decl_bytes (module_decl_view d) };

    fn write(&self, out: &mut Vec<u8>) -> Result<(), Unwritten> {
        write_module_decl(out, self)
    }
}

/// Writes the byte before an open type that stands alone.
#[tactic(auto, using(crate::proofs::Joins::joins, crate::proofs::Groups::open_marks))]
fn write_open_mark(out: &mut Vec<u8>, group: &RecGroup) -> Result<(), Unwritten>
    ensures { Wrote result (Some out.old.items ⧺ open_mark (group_form group.now)) out.new.items }
{
    if group.types.len() == 1 {
        if group.types[0].is_final {
            Ok(())
        } else {
            write_byte(out, 0x00)
        }
    } else {
        Ok(())
    }
}

/// Writes a core type item.
#[tactic(auto, using(crate::proofs::Joins::joins, crate::proofs::Groups::module_decls), unfolding(crate::specs::Modules::core_type_bytes))]
pub(crate) fn write_core_type(out: &mut Vec<u8>, ty: &CoreType) -> Result<(), Unwritten>
    ensures { Wrote result (Some out.old.items ⧺ core_type_bytes (core_type_view ty.now)) out.new.items }
{
    match ty {
        CoreType::Rec(group) => {
            write_open_mark(out, group)?;
            write_group(out, group)
        }
        CoreType::Module(decls) => {
            write_byte(out, 0x50)?;
            write_vec(out, decls)
        }
    }
}
