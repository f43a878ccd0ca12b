// The body of `type`, with the declarations of component types and instance types.
ghost use Rattle.std.specs.Prelude.{◌≡◌, IfOk, map, option_map};
ghost use Rattle.wcv_listing.specs.CoreForms.{core_type_of};
ghost use Rattle.wcv_listing.specs.Fields.{array_of};
ghost use Rattle.wcv_listing.specs.Forms.{import_of, resource_of, declared_export, instance_decl_of, component_decl_of, type_over, type_within, type_of};
ghost use Rattle.wcv_listing.specs.Keyed.{under, plain_decl_rows, instance_decl_rows, component_decl_rows, plain_type_rows, type_rows};
ghost use Rattle.wcv_listing.specs.Seen.{view};
ghost use Rattle.wcv_syntax.specs.Model.{core_type_decl, import_decl};
ghost use Rattle.wcv_syntax.specs.View.{type_view, component_decl_view, instance_decl_view};

use crate::alias::read_alias;
use crate::core_form::read_core_type;
use crate::core_value::read_core_value;
use crate::defined::read_defined;
use crate::fields::two_fields;
use crate::forms::read_import;
use crate::func::read_func;
use crate::node::Node;
use crate::value::{index_of, list_of, room_of, sole_member};
use std::alloc::Global;
use wcv_core::OutOfMemory;
use wcv_syntax::{
    ComponentImport, ComponentType, ComponentTypeDeclaration, InstanceTypeDeclaration,
};

/// How deep types may nest in types, which is no less than arrays and objects may.
const MAX_NESTING: usize = 127;

/// The body of `type`.
pub fn read_type(alloc: Global, value: Node<'_, '_>) -> Result<Option<ComponentType>, OutOfMemory>
    ensures { IfOk result (λ ty. option_map type_view ty ≡ type_of (view value.entry)) }
{
    read_type_within(alloc, value, MAX_NESTING)
}

// A type, with types nested in it, itself among them, at most so deep.
#[cycle(types)]
fn read_type_within(
    alloc: Global,
    value: Node<'_, '_>,
    depth: usize,
) -> Result<Option<ComponentType>, OutOfMemory>
    ensures { IfOk result (λ ty. option_map type_view ty ≡ type_within depth (view value.entry)) }
{
    if depth == 0 {
        Ok(None)
    } else {
        read_type_over(alloc, value, depth - 1)
    }
}

// A type over types nested at most so deep.
#[cycle(types)]
fn read_type_over(
    alloc: Global,
    value: Node<'_, '_>,
    depth: usize,
) -> Result<Option<ComponentType>, OutOfMemory>
    ensures { IfOk result (λ ty. option_map type_view ty ≡ type_over (type_within depth) (view value.entry)) }
{
    match sole_member(value) {
        Some((key, body)) => read_type_under(alloc, key, body, depth),
        None => Ok(None),
    }
}

// What stands under the only key of a type, in which types nest at most so deep.
#[cycle(types)]
#[tactic(auto, using(crate::proofs::Made::component_made, crate::proofs::Made::instance_made))]
fn read_type_under(
    alloc: Global,
    key: &str,
    body: Node<'_, '_>,
    depth: usize,
) -> Result<Option<ComponentType>, OutOfMemory>
    ensures { IfOk result (λ ty. option_map type_view ty ≡ under (type_rows (type_within depth)) key.now (view body.entry)) }
{
    match key {
        "component" => Ok(read_component_decls(alloc, body, depth)?.map(ComponentType::Component)),
        "instance" => Ok(read_instance_decls(alloc, body, depth)?.map(ComponentType::Instance)),
        _ => read_plain_type(alloc, key, body),
    }
}

// The declarations of a component type.
#[cycle(types)]
fn read_component_decls(
    alloc: Global,
    value: Node<'_, '_>,
    depth: usize,
) -> Result<Option<Vec<ComponentTypeDeclaration>>, OutOfMemory>
    ensures { IfOk result (λ list. option_map (λ ds. map component_decl_view ds.items) list ≡ array_of (component_decl_of (type_within depth)) (view value.entry)) }
{
    let Some(mut values) = list_of(value) else {
        return Ok(None);
    };
    let mut list = Vec::with_capacity(alloc, room_of(value))?;
    while let Some((item, rest)) = values.next() {
        match read_component_decl(alloc, item, depth)? {
            Some(decl) => list.push(decl)?,
            None => return Ok(None),
        }
        values = rest;
    }
    Ok(Some(list))
}

// The declarations of an instance type.
#[cycle(types)]
fn read_instance_decls(
    alloc: Global,
    value: Node<'_, '_>,
    depth: usize,
) -> Result<Option<Vec<InstanceTypeDeclaration>>, OutOfMemory>
    ensures { IfOk result (λ list. option_map (λ ds. map instance_decl_view ds.items) list ≡ array_of (instance_decl_of (type_within depth)) (view value.entry)) }
{
    let Some(mut values) = list_of(value) else {
        return Ok(None);
    };
    let mut list = Vec::with_capacity(alloc, room_of(value))?;
    while let Some((item, rest)) = values.next() {
        match read_instance_decl(alloc, item, depth)? {
            Some(decl) => list.push(decl)?,
            None => return Ok(None),
        }
        values = rest;
    }
    Ok(Some(list))
}

// A declaration of a component type, in which types nest at most so deep.
#[cycle(types)]
fn read_component_decl(
    alloc: Global,
    value: Node<'_, '_>,
    depth: usize,
) -> Result<Option<ComponentTypeDeclaration>, OutOfMemory>
    ensures { IfOk result (λ decl. option_map component_decl_view decl ≡ component_decl_of (type_within depth) (view value.entry)) }
{
    match sole_member(value) {
        Some((key, body)) => read_component_decl_under(alloc, key, body, depth),
        None => Ok(None),
    }
}

// What stands under its only key.
#[cycle(types)]
fn read_component_decl_under(
    alloc: Global,
    key: &str,
    body: Node<'_, '_>,
    depth: usize,
) -> Result<Option<ComponentTypeDeclaration>, OutOfMemory>
    ensures { IfOk result (λ decl. option_map component_decl_view decl ≡ under (component_decl_rows (type_within depth)) key.now (view body.entry)) }
{
    match key {
        "import" => read_import_decl(alloc, body),
        _ => Ok(read_instance_decl_under(alloc, key, body, depth)?.map(
            InstanceTypeDeclaration::in_component_type,
        )),
    }
}

// A declaration of an instance type, in which types nest at most so deep.
#[cycle(types)]
fn read_instance_decl(
    alloc: Global,
    value: Node<'_, '_>,
    depth: usize,
) -> Result<Option<InstanceTypeDeclaration>, OutOfMemory>
    ensures { IfOk result (λ decl. option_map instance_decl_view decl ≡ instance_decl_of (type_within depth) (view value.entry)) }
{
    match sole_member(value) {
        Some((key, body)) => read_instance_decl_under(alloc, key, body, depth),
        None => Ok(None),
    }
}

// What stands under its only key.
#[cycle(types)]
#[tactic(auto, using(crate::proofs::Made::instance_ty_made))]
fn read_instance_decl_under(
    alloc: Global,
    key: &str,
    body: Node<'_, '_>,
    depth: usize,
) -> Result<Option<InstanceTypeDeclaration>, OutOfMemory>
    ensures { IfOk result (λ decl. option_map instance_decl_view decl ≡ under (instance_decl_rows (type_within depth)) key.now (view body.entry)) }
{
    match key {
        "core-type" => read_core_type_decl(alloc, body),
        "type" => Ok(read_type_within(alloc, body, depth)?.map(InstanceTypeDeclaration::Ty)),
        _ => read_plain_decl(alloc, key, body),
    }
}

// A declared export, whose body is that of an import.
#[tactic(auto, using(crate::proofs::Made::instance_export_made))]
fn as_export(body: ComponentImport) -> InstanceTypeDeclaration
    ensures { instance_decl_view result ≡ declared_export body }
{
    InstanceTypeDeclaration::Export {
        name: body.name,
        ty: body.ty,
    }
}

// A declared core type.
#[tactic(auto, using(crate::proofs::Made::instance_core_type_made))]
fn read_core_type_decl(
    alloc: Global,
    body: Node<'_, '_>,
) -> Result<Option<InstanceTypeDeclaration>, OutOfMemory>
    ensures { IfOk result (λ decl. option_map instance_decl_view decl ≡ option_map core_type_decl (core_type_of (view body.entry))) }
{
    Ok(read_core_type(alloc, body)?.map(InstanceTypeDeclaration::CoreType))
}

// What stands under the only key of a declared export or alias.
#[tactic(auto, using(crate::proofs::Made::instance_alias_made))]
fn read_plain_decl(
    alloc: Global,
    key: &str,
    body: Node<'_, '_>,
) -> Result<Option<InstanceTypeDeclaration>, OutOfMemory>
    ensures { IfOk result (λ decl. option_map instance_decl_view decl ≡ under plain_decl_rows key.now (view body.entry)) }
{
    match key {
        "export" => Ok(read_import(alloc, body)?.map(as_export)),
        "alias" => Ok(read_alias(alloc, body)?.map(InstanceTypeDeclaration::Alias)),
        _ => Ok(None),
    }
}

// A declared import of a component type.
#[tactic(auto, using(crate::proofs::Made::component_import_made))]
fn read_import_decl(
    alloc: Global,
    body: Node<'_, '_>,
) -> Result<Option<ComponentTypeDeclaration>, OutOfMemory>
    ensures { IfOk result (λ decl. option_map component_decl_view decl ≡ option_map import_decl (import_of (view body.entry))) }
{
    Ok(read_import(alloc, body)?.map(ComponentTypeDeclaration::Import))
}

// What stands under the only key of a type without declarations.
#[tactic(auto, using(crate::proofs::Made::type_made, crate::proofs::Made::defined_made))]
fn read_plain_type(
    alloc: Global,
    key: &str,
    body: Node<'_, '_>,
) -> Result<Option<ComponentType>, OutOfMemory>
    ensures { IfOk result (λ ty. option_map type_view ty ≡ under plain_type_rows key.now (view body.entry)) }
{
    match key {
        "func" => Ok(read_func(alloc, body)?.map(ComponentType::Func)),
        "defined" => Ok(read_defined(alloc, body)?.map(ComponentType::Defined)),
        "resource" => Ok(read_resource(body)),
        _ => Ok(None),
    }
}

// A resource.
#[tactic(auto, using(crate::proofs::Made::resource_made))]
fn read_resource(value: Node<'_, '_>) -> Option<ComponentType>
    ensures { option_map type_view result ≡ resource_of (view value.entry) }
{
    let Some((rep, dtor)) = two_fields(value, "rep", "dtor") else {
        return None;
    };
    let Some(rep) = rep.and_then(read_core_value) else {
        return None;
    };
    let dtor = match dtor {
        None => None,
        Some(index) => Some(index_of(index)?),
    };
    Some(ComponentType::Resource { rep, dtor })
}
