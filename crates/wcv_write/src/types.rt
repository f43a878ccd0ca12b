// Types.
ghost use Rattle.std.specs.Prelude.{◌++◌, ◌≡◌, OnOk, codes, map};
ghost use Rattle.serde_json.specs.Data.{array};
ghost use Rattle.wcv_syntax.specs.View.{func_view, decls_of, type_view, component_decl_view, instance_decl_view};
ghost use Rattle.wcv_write.specs.Indices.{numbers};
ghost use Rattle.wcv_write.specs.Json.{optional_tokens, tokens_of, under};
ghost use Rattle.wcv_write.specs.Externs.{named_ref_data};
ghost use Rattle.wcv_write.specs.Types.{func_data, resource_data, type_data, decl_data, decl_items};
ghost use Rattle.wcv_write.specs.declared.indices.Space.TheVariants.{CoreFunc};

use crate::core_value::write_core_value;
use crate::externs::write_named_ref;
use crate::indices::{Indices, Numbers, Space};
use crate::list::{ToJson, write_list, write_under};
use crate::member::{write_mark, write_optional_value};
use crate::output::Output;
use std::alloc::AllocError;
use wcv_core::ValType;
use wcv_syntax::{
    ComponentExternName, ComponentFuncType, ComponentType, ComponentTypeDeclaration,
    ComponentTypeRef, InstanceTypeDeclaration,
};

// Writes a function type.
#[tactic(auto, unfolding(crate::specs::Types::func_data))]
fn write_func<I: Indices>(
    out: &mut Output,
    indices: &I,
    func: &ComponentFuncType,
) -> Result<(), AllocError>
    ensures { OnOk result (out.new ≡ out.old ++ tokens_of (func_data (I.written indices.now) (func_view func.now))) }
{
    out.begin_object()?;
    write_mark(out, "async", func.async_)?;
    out.key("params")?;
    write_list(out, indices, &func.params)?;
    write_optional_value(out, indices, "result", func.result)?;
    out.end_object()
}

// Writes a destructor where there is one.
fn write_destructor<I: Indices>(
    out: &mut Output,
    indices: &I,
    dtor: Option<u32>,
) -> Result<(), AllocError>
    ensures { OnOk result (out.new ≡ out.old ++ optional_tokens (codes "dtor") (I.written indices.now CoreFunc) dtor) }
{
    match dtor {
        None => Ok(()),
        Some(func) => {
            out.key("dtor")?;
            indices.write(out, Space::CoreFunc, func)
        }
    }
}

// Writes a resource.
#[tactic(auto, unfolding(crate::specs::Types::resource_data))]
fn write_resource<I: Indices>(
    out: &mut Output,
    indices: &I,
    rep: &ValType,
    dtor: Option<u32>,
) -> Result<(), AllocError>
    ensures { OnOk result (out.new ≡ out.old ++ tokens_of (resource_data (I.written indices.now) rep.now dtor)) }
{
    out.begin_object()?;
    write_destructor(out, indices, dtor)?;
    out.key("rep")?;
    write_core_value(out, rep)?;
    out.end_object()
}

impl ToJson for ComponentFuncType {
    ghost form = { λ ix ty. func_data ix (func_view ty) };

    fn write<I: Indices>(&self, out: &mut Output, indices: &I) -> Result<(), AllocError> {
        write_func(out, indices, self)
    }
}

// Writes a resource under its key.
fn write_resource_item<I: Indices>(
    out: &mut Output,
    indices: &I,
    rep: &ValType,
    dtor: Option<u32>,
) -> Result<(), AllocError>
    ensures { OnOk result (out.new ≡ out.old ++ tokens_of (under (codes "resource") (resource_data (I.written indices.now) rep.now dtor))) }
{
    out.open("resource")?;
    write_resource(out, indices, rep, dtor)?;
    out.end_object()
}

// Writes a declared export or import under its key.
fn write_extern_decl(
    out: &mut Output,
    key: &str,
    name: &ComponentExternName,
    ty: ComponentTypeRef,
) -> Result<(), AllocError>
    ensures { OnOk result (out.new ≡ out.old ++ tokens_of (under key.now (named_ref_data numbers name.now ty))) }
{
    out.open(key)?;
    write_named_ref(out, &Numbers, name, ty)?;
    out.end_object()
}

// Writes a type.
fn write_type<I: Indices>(
    out: &mut Output,
    indices: &I,
    ty: &ComponentType,
) -> Result<(), AllocError>
    ensures { OnOk result (out.new ≡ out.old ++ tokens_of (type_data (I.written indices.now) (type_view ty.now))) }
{
    match ty {
        ComponentType::Defined(ty) => write_under(out, indices, "defined", ty),
        ComponentType::Func(ty) => write_under(out, indices, "func", ty),
        ComponentType::Resource { rep, dtor } => write_resource_item(out, indices, rep, *dtor),
        ComponentType::Component(decls) => write_component_type(out, decls),
        ComponentType::Instance(decls) => write_instance_type(out, decls),
    }
}

// Writes a component type under its key.
#[cycle(types)]
fn write_component_type(
    out: &mut Output,
    decls: &Vec<ComponentTypeDeclaration>,
) -> Result<(), AllocError>
    ensures { OnOk result (out.new ≡ out.old ++ tokens_of (under (codes "component") (array (decl_items (decls_of (map component_decl_view decls.now.items)))))) }
{
    out.open("component")?;
    write_component_decls(out, decls)?;
    out.end_object()
}

// Writes an instance type under its key.
#[cycle(types)]
fn write_instance_type(
    out: &mut Output,
    decls: &Vec<InstanceTypeDeclaration>,
) -> Result<(), AllocError>
    ensures { OnOk result (out.new ≡ out.old ++ tokens_of (under (codes "instance") (array (decl_items (decls_of (map instance_decl_view decls.now.items)))))) }
{
    out.open("instance")?;
    write_instance_decls(out, decls)?;
    out.end_object()
}

// Writes a type that is declared in another.
#[cycle(types)]
fn write_inner_type(out: &mut Output, ty: &ComponentType) -> Result<(), AllocError>
    ensures { OnOk result (out.new ≡ out.old ++ tokens_of (type_data numbers (type_view ty.now))) }
{
    match ty {
        ComponentType::Defined(ty) => write_under(out, &Numbers, "defined", ty),
        ComponentType::Func(ty) => write_under(out, &Numbers, "func", ty),
        ComponentType::Resource { rep, dtor } => write_resource_item(out, &Numbers, rep, *dtor),
        ComponentType::Component(decls) => write_component_type(out, decls),
        ComponentType::Instance(decls) => write_instance_type(out, decls),
    }
}

// Writes the declarations of a component type.
#[cycle(types)]
fn write_component_decls(
    out: &mut Output,
    decls: &Vec<ComponentTypeDeclaration>,
) -> Result<(), AllocError>
    ensures { OnOk result (out.new ≡ out.old ++ tokens_of (array (decl_items (decls_of (map component_decl_view decls.now.items))))) }
{
    out.begin_array()?;
    for decl in decls {
        write_component_decl(out, decl)?;
    }
    out.end_array()
}

// Writes the declarations of an instance type.
#[cycle(types)]
fn write_instance_decls(
    out: &mut Output,
    decls: &Vec<InstanceTypeDeclaration>,
) -> Result<(), AllocError>
    ensures { OnOk result (out.new ≡ out.old ++ tokens_of (array (decl_items (decls_of (map instance_decl_view decls.now.items))))) }
{
    out.begin_array()?;
    for decl in decls {
        write_instance_decl(out, decl)?;
    }
    out.end_array()
}

// Writes a declared type.
#[cycle(types)]
fn write_type_decl(out: &mut Output, ty: &ComponentType) -> Result<(), AllocError>
    ensures { OnOk result (out.new ≡ out.old ++ tokens_of (under (codes "type") (type_data numbers (type_view ty.now)))) }
{
    out.open("type")?;
    write_inner_type(out, ty)?;
    out.end_object()
}

// Writes a declaration of a component type.
#[cycle(types)]
fn write_component_decl(out: &mut Output, decl: &ComponentTypeDeclaration) -> Result<(), AllocError>
    ensures { OnOk result (out.new ≡ out.old ++ tokens_of (decl_data (component_decl_view decl.now))) }
{
    match decl {
        ComponentTypeDeclaration::CoreType(ty) => write_under(out, &Numbers, "core-type", ty),
        ComponentTypeDeclaration::Ty(ty) => write_type_decl(out, ty),
        ComponentTypeDeclaration::Alias(alias) => write_under(out, &Numbers, "alias", alias),
        ComponentTypeDeclaration::Export { name, ty } => {
            write_extern_decl(out, "export", name, *ty)
        }
        ComponentTypeDeclaration::Import(import) => { write_under(out, &Numbers, "import", import) }
    }
}

// Writes a declaration of an instance type.
#[cycle(types)]
fn write_instance_decl(out: &mut Output, decl: &InstanceTypeDeclaration) -> Result<(), AllocError>
    ensures { OnOk result (out.new ≡ out.old ++ tokens_of (decl_data (instance_decl_view decl.now))) }
{
    match decl {
        InstanceTypeDeclaration::CoreType(ty) => write_under(out, &Numbers, "core-type", ty),
        InstanceTypeDeclaration::Ty(ty) => write_type_decl(out, ty),
        InstanceTypeDeclaration::Alias(alias) => write_under(out, &Numbers, "alias", alias),
        InstanceTypeDeclaration::Export { name, ty } => write_extern_decl(out, "export", name, *ty),
    }
}

impl ToJson for ComponentType {
    ghost form = { λ ix ty. type_data ix (type_view ty) };

    fn write<I: Indices>(&self, out: &mut Output, indices: &I) -> Result<(), AllocError> {
        write_type(out, indices, self)
    }
}
