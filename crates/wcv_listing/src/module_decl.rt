// Declarations of core modules, and of their types.
ghost use Rattle.std.specs.Prelude.{◌≡◌, IfOk, option_map};
ghost use Rattle.wcv_listing.specs.CoreForms.{core_import_of, core_export_of, module_decl_of, core_outer_of, type_decl_of};
ghost use Rattle.wcv_listing.specs.Keyed.{under, module_decl_rows, type_decl_rows};
ghost use Rattle.wcv_listing.specs.Seen.{view};
ghost use Rattle.wcv_syntax.specs.Model.{Module_decl};
ghost use Rattle.wcv_syntax.specs.View.{module_decl_view, code_decl_view};

use crate::core_entity::read_entity;
use crate::list::FromValue;
use crate::node::Node;
use crate::sub_type::read_rec;
use crate::value::{index_of, pair_of, sole_member, text_of, triple_of};
use std::alloc::Global;
use wcv_core::{OutOfMemory, Text};
use wcv_syntax::{Import, ModuleDecl, ModuleTypeDeclaration};

// An import.
fn read_core_import(alloc: Global, value: Node<'_, '_>) -> Result<Option<Import>, OutOfMemory>
    ensures { IfOk result (λ import. import ≡ core_import_of (view value.entry)) }
{
    let Some((module, name, ty)) = triple_of(value) else {
        return Ok(None);
    };
    let Some(module) = text_of(module) else {
        return Ok(None);
    };
    let Some(name) = text_of(name) else {
        return Ok(None);
    };
    let Some(ty) = read_entity(ty) else {
        return Ok(None);
    };
    let module = Text::new(alloc, module)?;
    let name = Text::new(alloc, name)?;
    Ok(Some(Import { module, name, ty }))
}

// An export.
fn read_core_export(alloc: Global, value: Node<'_, '_>) -> Result<Option<ModuleDecl>, OutOfMemory>
    ensures { IfOk result (λ decl. option_map code_decl_view decl ≡ core_export_of (view value.entry)) }
{
    let Some((name, ty)) = pair_of(value) else {
        return Ok(None);
    };
    let Some(name) = text_of(name) else {
        return Ok(None);
    };
    let Some(ty) = read_entity(ty) else {
        return Ok(None);
    };
    let name = Text::new(alloc, name)?;
    Ok(Some(ModuleDecl::Export { name, ty }))
}

// What stands under the only key of a declaration of a core module.
fn read_decl_under(
    alloc: Global,
    key: &str,
    body: Node<'_, '_>,
) -> Result<Option<ModuleDecl>, OutOfMemory>
    ensures { IfOk result (λ decl. option_map code_decl_view decl ≡ under module_decl_rows key.now (view body.entry)) }
{
    match key {
        "type" => Ok(read_rec(alloc, body)?.map(ModuleDecl::Ty)),
        "import" => Ok(read_core_import(alloc, body)?.map(ModuleDecl::Import)),
        "export" => read_core_export(alloc, body),
        _ => Ok(None),
    }
}

// A declaration of a core module.
impl FromValue for ModuleDecl {
    ghost Form = { Module_decl };

    ghost seen = { code_decl_view };

    ghost meant = { module_decl_of };

    fn from_value(alloc: Global, value: Node<'_, '_>) -> Result<Option<ModuleDecl>, OutOfMemory> {
        match sole_member(value) {
            Some((key, body)) => read_decl_under(alloc, key, body),
            None => Ok(None),
        }
    }
}

// An outer alias of a core type.
fn read_core_outer(value: Node<'_, '_>) -> Option<ModuleTypeDeclaration>
    ensures { option_map module_decl_view result ≡ core_outer_of (view value.entry) }
{
    let Some((count, index)) = pair_of(value) else {
        return None;
    };
    let Some(count) = index_of(count) else {
        return None;
    };
    let Some(index) = index_of(index) else {
        return None;
    };
    Some(ModuleTypeDeclaration::OuterAlias { count, index })
}

// What stands under the only key of a declaration of the type of a core module.
fn read_type_decl_under(
    alloc: Global,
    key: &str,
    body: Node<'_, '_>,
) -> Result<Option<ModuleTypeDeclaration>, OutOfMemory>
    ensures { IfOk result (λ decl. option_map module_decl_view decl ≡ under type_decl_rows key.now (view body.entry)) }
{
    match key {
        "alias" => Ok(read_core_outer(body)),
        _ => Ok(read_decl_under(alloc, key, body)?.map(ModuleDecl::in_module_type)),
    }
}

// A declaration of the type of a core module.
impl FromValue for ModuleTypeDeclaration {
    ghost Form = { Module_decl };

    ghost seen = { module_decl_view };

    ghost meant = { type_decl_of };

    fn from_value(
        alloc: Global,
        value: Node<'_, '_>,
    ) -> Result<Option<ModuleTypeDeclaration>, OutOfMemory> {
        match sole_member(value) {
            Some((key, body)) => read_type_decl_under(alloc, key, body),
            None => Ok(None),
        }
    }
}
