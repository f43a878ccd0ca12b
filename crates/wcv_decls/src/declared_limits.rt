// Limits of the lists and of the texts in a type, that the adding of a type leaves to its caller.
ghost use Rattle.std.specs.Prelude.{◌++◌, length, map, OnOk, IfErr};
ghost use Rattle.wcv_core.specs.Checks.{all_checks};
ghost use Rattle.wcv_core.specs.Limits.{max_list};
ghost use Rattle.wcv_syntax.specs.View.{type_view, component_decl_view, instance_decl_view};
ghost use Rattle.wcv_lower.specs.Aliases.{alias_left};
ghost use Rattle.wcv_lower.specs.Checks.{IsFree, too_many};
ghost use Rattle.wcv_lower.specs.Declared.{declared_left, decl_left};
ghost use Rattle.wcv_spaces.specs.Promises.{MemoryOrCausedBy};

use crate::core_limits::check_core_limits;
use crate::limits::{check_count, check_limits};
use crate::name_texts::{check_name, check_text};
use wcv_core::Refusal;
use wcv_core::limits::MAX_LIST;
use wcv_syntax::{
    ComponentAlias, ComponentType, ComponentTypeDeclaration, InstanceTypeDeclaration,
};

/// Whether a type item keeps the limits of its lists and of its texts, in declarations at every depth too.
#[cycle(limits)]
pub fn check_declared_limits(ty: &ComponentType, offset: u64) -> Result<(), Refusal<'_>>
    ensures ok { OnOk result (IsFree (declared_left (type_view ty.now))) }
    ensures err { IfErr result (MemoryOrCausedBy (declared_left (type_view ty.now)) offset) }
{
    match ty {
        ComponentType::Component(decls) => check_in_component(decls, offset),
        ComponentType::Instance(decls) => check_in_instance(decls, offset),
        plain => check_limits(plain, offset),
    }
}

// So of the declarations of a component type, with their number.
#[cycle(limits)]
fn check_in_component(decls: &Vec<ComponentTypeDeclaration>, offset: u64) -> Result<(), Refusal<'_>>
    ensures ok { OnOk result (IsFree (too_many max_list (length decls.now.items) ++ all_checks decl_left (map component_decl_view decls.now.items))) }
    ensures err { IfErr result (MemoryOrCausedBy (too_many max_list (length decls.now.items) ++ all_checks decl_left (map component_decl_view decls.now.items)) offset) }
{
    check_count(
        decls.len(),
        MAX_LIST,
        "component type",
        "declaration",
        offset,
    )?;
    for decl in decls {
        check_component_decl(decl, offset)?;
    }
    Ok(())
}

// So of those of an instance type.
#[cycle(limits)]
fn check_in_instance(decls: &Vec<InstanceTypeDeclaration>, offset: u64) -> Result<(), Refusal<'_>>
    ensures ok { OnOk result (IsFree (too_many max_list (length decls.now.items) ++ all_checks decl_left (map instance_decl_view decls.now.items))) }
    ensures err { IfErr result (MemoryOrCausedBy (too_many max_list (length decls.now.items) ++ all_checks decl_left (map instance_decl_view decls.now.items)) offset) }
{
    check_count(
        decls.len(),
        MAX_LIST,
        "instance type",
        "declaration",
        offset,
    )?;
    for decl in decls {
        check_instance_decl(decl, offset)?;
    }
    Ok(())
}

/// The limits of a declaration of a component type.
#[cycle(limits)]
fn check_component_decl(decl: &ComponentTypeDeclaration, offset: u64) -> Result<(), Refusal<'_>>
    ensures ok { OnOk result (IsFree (decl_left (component_decl_view decl.now))) }
    ensures err { IfErr result (MemoryOrCausedBy (decl_left (component_decl_view decl.now)) offset) }
{
    match decl {
        ComponentTypeDeclaration::CoreType(ty) => check_core_limits(ty, offset),
        ComponentTypeDeclaration::Ty(ty) => check_declared_limits(ty, offset),
        ComponentTypeDeclaration::Alias(alias) => check_alias(alias, offset),
        ComponentTypeDeclaration::Export { name, .. } => check_name(name, "export name", offset),
        ComponentTypeDeclaration::Import(import) => {
            check_name(&import.name, "import name", offset)
        }
    }
}

/// The limits of a declaration of an instance type.
#[cycle(limits)]
fn check_instance_decl(decl: &InstanceTypeDeclaration, offset: u64) -> Result<(), Refusal<'_>>
    ensures ok { OnOk result (IsFree (decl_left (instance_decl_view decl.now))) }
    ensures err { IfErr result (MemoryOrCausedBy (decl_left (instance_decl_view decl.now)) offset) }
{
    match decl {
        InstanceTypeDeclaration::CoreType(ty) => check_core_limits(ty, offset),
        InstanceTypeDeclaration::Ty(ty) => check_declared_limits(ty, offset),
        InstanceTypeDeclaration::Alias(alias) => check_alias(alias, offset),
        InstanceTypeDeclaration::Export { name, .. } => check_name(name, "export name", offset),
    }
}

/// The limits of an alias.
fn check_alias(alias: &ComponentAlias, offset: u64) -> Result<(), Refusal<'_>>
    ensures ok { OnOk result (IsFree (alias_left alias.now)) }
    ensures err { IfErr result (MemoryOrCausedBy (alias_left alias.now) offset) }
{
    match alias {
        ComponentAlias::InstanceExport { name, .. }
        | ComponentAlias::CoreInstanceExport { name, .. } => {
            check_text(name, "name of an export", offset)
        }
        ComponentAlias::Outer { .. } => Ok(()),
    }
}
