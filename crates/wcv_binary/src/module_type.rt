// The types of core modules, and core type items.
ghost use Rattle.std.specs.Prelude.{◌≡◌};
ghost use Rattle.wcv_binary.specs.ModuleTypes.{core_type_at, marked_group_at, module_decl_at, module_export_at, module_outer_at};
ghost use Rattle.wcv_bytes.specs.Reading.{Gives};
ghost use Rattle.wcv_core.specs.CoreForm.{group_form};
ghost use Rattle.wcv_syntax.specs.View.{core_type_view, module_decl_view};

use crate::core_type::read_group;
use crate::entity::{read_core_import, read_entity};
use crate::list::{FromBytes, read_vec};
use std::alloc::Global;
use wcv_bytes::{ReadError, Why, expect_byte, fault_at, read_byte, read_text, read_u32};
use wcv_core::{RecGroup, Text};
use wcv_syntax::{CoreType, ModuleTypeDeclaration};

// A name and what is exported.
#[tactic(auto, unfolding(crate::specs::ModuleTypes::module_export_at))]
fn read_module_export(
    alloc: Global,
    bytes: &[u8],
) -> Result<(ModuleTypeDeclaration, &[u8]), ReadError>
    ensures { Gives (λ x. (module_decl_view x.0, x.1.now)) result (module_export_at bytes.now) }
{
    let (name, rest) = read_text(bytes)?;
    let (ty, rest) = read_entity(rest)?;
    let name = Text::new(alloc, name)?;
    Ok((ModuleTypeDeclaration::Export { name, ty }, rest))
}

// A core type from further out.
#[tactic(auto, unfolding(crate::specs::ModuleTypes::module_outer_at))]
fn read_module_outer(bytes: &[u8]) -> Result<(ModuleTypeDeclaration, &[u8]), ReadError>
    ensures { Gives (λ x. (module_decl_view x.0, x.1.now)) result (module_outer_at bytes.now) }
{
    let rest = expect_byte(bytes, 0x10, Why::NotOuter)?;
    let rest = expect_byte(rest, 0x01, Why::NotAlias)?;
    let (count, rest) = read_u32(rest)?;
    let (index, rest) = read_u32(rest)?;
    Ok((ModuleTypeDeclaration::OuterAlias { count, index }, rest))
}

// A declaration of the type of a core module.
impl FromBytes for ModuleTypeDeclaration {
    ghost use Rattle.wcv_binary.specs.ModuleTypes.{module_decl_at};
    ghost use Rattle.wcv_syntax.specs.Model.{Module_decl};
    ghost use Rattle.wcv_syntax.specs.View.{module_decl_view};

    ghost Form = { Module_decl };

    ghost seen = { module_decl_view };

    ghost meant = { module_decl_at };

    #[tactic(auto, unfolding(crate::specs::ModuleTypes::module_decl_at))]
    fn from_bytes(
        alloc: Global,
        bytes: &[u8],
    ) -> Result<(ModuleTypeDeclaration, &[u8]), ReadError> {
        let (byte, rest) = read_byte(bytes)?;
        match byte {
            0x00 => {
                let (import, rest) = read_core_import(alloc, rest)?;
                Ok((ModuleTypeDeclaration::Import(import), rest))
            }
            0x01 => {
                let (group, rest) = read_group(alloc, rest)?;
                Ok((ModuleTypeDeclaration::Ty(group), rest))
            }
            0x02 => read_module_outer(rest),
            0x03 => read_module_export(alloc, rest),
            _ => Err(fault_at(Why::NotDeclaration, bytes)),
        }
    }
}

// Core types, behind the byte 0 where an open type stands alone.
#[tactic(auto, unfolding(crate::specs::ModuleTypes::marked_group_at))]
fn read_marked_group(alloc: Global, bytes: &[u8]) -> Result<(RecGroup, &[u8]), ReadError>
    ensures { Gives (λ x. (group_form x.0, x.1.now)) result (marked_group_at bytes.now) }
{
    let (byte, rest) = read_byte(bytes)?;
    if byte != 0x00 {
        return read_group(alloc, bytes);
    }
    expect_byte(rest, 0x50, Why::NotOpenType)?;
    read_group(alloc, rest)
}

/// A core type item of a component, as the component model's Binary.md has it: core types, or the type of a core
/// module.
#[tactic(auto, unfolding(crate::specs::ModuleTypes::core_type_at))]
pub fn read_core_type(alloc: Global, bytes: &[u8]) -> Result<(CoreType, &[u8]), ReadError>
    ensures { Gives (λ x. (core_type_view x.0, x.1.now)) result (core_type_at bytes.now) }
{
    let (byte, rest) = read_byte(bytes)?;
    if byte == 0x50 {
        let (decls, rest) = read_vec(alloc, rest)?;
        return Ok((CoreType::Module(decls), rest));
    }
    let (group, rest) = read_marked_group(alloc, bytes)?;
    Ok((CoreType::Rec(group), rest))
}
