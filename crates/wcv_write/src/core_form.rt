// Core types and core modules.
ghost use Rattle.std.specs.Prelude.{◌++◌, ◌≡◌, OnOk, map};
ghost use Rattle.wcv_syntax.specs.View.{module_decl_view, code_decl_view, core_type_view};
ghost use Rattle.wcv_core.specs.CoreForm.{group_form};
ghost use Rattle.wcv_syntax.specs.Model.{module_import, module_export, module_outer};
ghost use Rattle.wcv_write.specs.CoreForms.{group_data, module_decl_data, core_type_data, core_module_data};
ghost use Rattle.wcv_write.specs.Json.{list_data, tokens_of, under};

use crate::core_entity::write_entity;
use crate::indices::{Indices, Numbers};
use crate::list::{ToJson, write_list};
use crate::output::Output;
use crate::sub_type::write_group;
use std::alloc::AllocError;
use wcv_core::{RecGroup, Text};
use wcv_syntax::{CoreType, Import, ModuleDecl, ModuleTypeDeclaration, TypeRef};

// Writes a declared import.
#[tactic(auto, unfolding(crate::specs::CoreForms::module_decl_data))]
fn write_core_import(out: &mut Output, import: &Import) -> Result<(), AllocError>
    ensures { OnOk result (out.new ≡ out.old ++ tokens_of (module_decl_data (module_import import.now))) }
{
    out.open("import")?;
    out.begin_array()?;
    out.text(import.module.as_str())?;
    out.text(import.name.as_str())?;
    write_entity(out, &import.ty)?;
    out.end_array()?;
    out.end_object()
}

// Writes a declared export.
#[tactic(auto, unfolding(crate::specs::CoreForms::module_decl_data))]
fn write_core_export(out: &mut Output, name: &Text, ty: &TypeRef) -> Result<(), AllocError>
    ensures { OnOk result (out.new ≡ out.old ++ tokens_of (module_decl_data (module_export name.now ty.now))) }
{
    out.open("export")?;
    out.begin_array()?;
    out.text(name.as_str())?;
    write_entity(out, ty)?;
    out.end_array()?;
    out.end_object()
}

// Writes a group under a key.
fn write_group_under(out: &mut Output, key: &str, group: &RecGroup) -> Result<(), AllocError>
    ensures { OnOk result (out.new ≡ out.old ++ tokens_of (under key.now (group_data (group_form group.now)))) }
{
    out.open(key)?;
    write_group(out, group)?;
    out.end_object()
}

// Writes an alias of a type further out.
#[tactic(auto, unfolding(crate::specs::CoreForms::module_decl_data))]
fn write_core_outer(out: &mut Output, steps: u32, index: u32) -> Result<(), AllocError>
    ensures { OnOk result (out.new ≡ out.old ++ tokens_of (module_decl_data (module_outer steps index))) }
{
    out.open("alias")?;
    out.begin_array()?;
    out.count(steps as u64)?;
    out.count(index as u64)?;
    out.end_array()?;
    out.end_object()
}

#[tactic(auto, unfolding(crate::specs::CoreForms::module_decl_data))]
impl ToJson for ModuleTypeDeclaration {
    ghost form = { λ _ decl. module_decl_data (module_decl_view decl) };

    fn write<I: Indices>(&self, out: &mut Output, _indices: &I) -> Result<(), AllocError> {
        match self {
            ModuleTypeDeclaration::Ty(group) => write_group_under(out, "type", group),
            ModuleTypeDeclaration::Import(import) => write_core_import(out, import),
            ModuleTypeDeclaration::Export { name, ty } => write_core_export(out, name, ty),
            ModuleTypeDeclaration::OuterAlias { count, index } => write_core_outer(
                out, *count, *index,
            ),
        }
    }
}

#[tactic(auto, unfolding(crate::specs::CoreForms::module_decl_data))]
impl ToJson for ModuleDecl {
    ghost form = { λ _ decl. module_decl_data (code_decl_view decl) };

    fn write<I: Indices>(&self, out: &mut Output, _indices: &I) -> Result<(), AllocError> {
        match self {
            ModuleDecl::Ty(group) => write_group_under(out, "type", group),
            ModuleDecl::Import(import) => write_core_import(out, import),
            ModuleDecl::Export { name, ty } => write_core_export(out, name, ty),
        }
    }
}

// Writes the type of a module.
#[tactic(auto, using(crate::proofs::Lists::items_of_map))]
fn write_module_type(out: &mut Output, decls: &[ModuleTypeDeclaration]) -> Result<(), AllocError>
    ensures { OnOk result (out.new ≡ out.old ++ tokens_of (list_data module_decl_data (map module_decl_view decls.now))) }
{
    write_list(out, &Numbers, decls)
}

/// Writes a core type.
#[tactic(auto, unfolding(crate::specs::CoreForms::core_type_data))]
pub fn write_core_type(out: &mut Output, ty: &CoreType) -> Result<(), AllocError>
    ensures { OnOk result (out.new ≡ out.old ++ tokens_of (core_type_data (core_type_view ty.now))) }
{
    match ty {
        CoreType::Rec(group) => write_group_under(out, "rec", group),
        CoreType::Module(decls) => {
            out.open("module")?;
            write_module_type(out, decls)?;
            out.end_object()
        }
    }
}

/// Writes a core module.
#[tactic(auto, using(crate::proofs::Lists::items_of_map))]
pub fn write_core_module(out: &mut Output, decls: &[ModuleDecl]) -> Result<(), AllocError>
    ensures { OnOk result (out.new ≡ out.old ++ tokens_of (core_module_data (map code_decl_view decls.now))) }
{
    write_list(out, &Numbers, decls)
}

impl ToJson for CoreType {
    ghost form = { λ _ ty. core_type_data (core_type_view ty) };

    fn write<I: Indices>(&self, out: &mut Output, _indices: &I) -> Result<(), AllocError> {
        write_core_type(out, self)
    }
}
