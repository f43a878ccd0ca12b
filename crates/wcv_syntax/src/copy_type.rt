// Equal types.
ghost use Rattle.std.specs.Prelude.{◌≡◌, map, IfOk};
ghost use Rattle.wcv_syntax.specs.Model.{simple};
ghost use Rattle.wcv_syntax.specs.View.{defined_view, type_view, component_decl_view, instance_decl_view};

use crate::component_type::{
    ComponentDefinedType, ComponentFuncType, ComponentType, ComponentTypeDeclaration,
    InstanceTypeDeclaration,
};
use crate::copy_core::copy_core_type;
use crate::copy_text::{CopyIn, copy_list};
use std::alloc::Global;
use wcv_core::OutOfMemory;

/// An equal defined type that is made of no list.
fn copy_values(ty: &ComponentDefinedType) -> ComponentDefinedType
    requires { defined_view ty.now ≡ simple ty.now }
    ensures { result ≡ ty.now }
{
    match ty {
        ComponentDefinedType::Primitive(ty) => ComponentDefinedType::Primitive(*ty),
        ComponentDefinedType::List(ty) => ComponentDefinedType::List(*ty),
        ComponentDefinedType::Map(key, value) => ComponentDefinedType::Map(*key, *value),
        ComponentDefinedType::FixedLengthList(ty, len) => {
            ComponentDefinedType::FixedLengthList(*ty, *len)
        }
        ComponentDefinedType::Option(ty) => ComponentDefinedType::Option(*ty),
        ComponentDefinedType::Result { ok, err } => {
            ComponentDefinedType::Result { ok: *ok, err: *err }
        }
        ComponentDefinedType::Own(index) => ComponentDefinedType::Own(*index),
        ComponentDefinedType::Borrow(index) => ComponentDefinedType::Borrow(*index),
        ComponentDefinedType::Future(ty) => ComponentDefinedType::Future(*ty),
        ComponentDefinedType::Stream(ty) => ComponentDefinedType::Stream(*ty),
        _ => unreachable!(),
    }
}

/// An equal defined type.
fn copy_defined(
    alloc: Global,
    ty: &ComponentDefinedType,
) -> Result<ComponentDefinedType, OutOfMemory>
    ensures { IfOk result (λ copied. defined_view copied ≡ defined_view ty.now) }
{
    match ty {
        ComponentDefinedType::Record(fields) => {
            Ok(ComponentDefinedType::Record(copy_list(alloc, fields)?))
        }
        ComponentDefinedType::Variant(cases) => {
            Ok(ComponentDefinedType::Variant(copy_list(alloc, cases)?))
        }
        ComponentDefinedType::Tuple(types) => {
            Ok(ComponentDefinedType::Tuple(Vec::from_slice(alloc, types)?))
        }
        ComponentDefinedType::Flags(names) => {
            Ok(ComponentDefinedType::Flags(copy_list(alloc, names)?))
        }
        ComponentDefinedType::Enum(names) => {
            Ok(ComponentDefinedType::Enum(copy_list(alloc, names)?))
        }
        _ => Ok(copy_values(ty)),
    }
}

/// An equal type item.
#[cycle(copy_type)]
pub(crate) fn copy_type(alloc: Global, ty: &ComponentType) -> Result<ComponentType, OutOfMemory>
    ensures { IfOk result (λ copied. type_view copied ≡ type_view ty.now) }
{
    match ty {
        ComponentType::Defined(ty) => Ok(ComponentType::Defined(copy_defined(alloc, ty)?)),
        ComponentType::Func(ty) => {
            let params = copy_list(alloc, &ty.params)?;
            let (async_, result) = (ty.async_, ty.result);
            Ok(ComponentType::Func(ComponentFuncType {
                async_,
                params,
                result,
            }))
        }
        ComponentType::Component(decls) => {
            Ok(ComponentType::Component(copy_component_decls(alloc, decls)?))
        }
        ComponentType::Instance(decls) => Ok(ComponentType::Instance(copy_instance_decls(
            alloc, decls,
        )?)),
        ComponentType::Resource { rep, dtor } => {
            Ok(ComponentType::Resource {
                rep: *rep,
                dtor: *dtor,
            })
        }
    }
}

/// Equal declarations of a component type.
#[cycle(copy_type)]
fn copy_component_decls(
    alloc: Global,
    decls: &Vec<ComponentTypeDeclaration>,
) -> Result<Vec<ComponentTypeDeclaration>, OutOfMemory>
    ensures { IfOk result (λ copied. map component_decl_view copied.items ≡ map component_decl_view decls.now.items) }
{
    let mut copied = Vec::new(alloc);
    for decl in decls {
        copied.push(copy_component_decl(alloc, decl)?)?;
    }
    Ok(copied)
}

/// Equal declarations of an instance type.
#[cycle(copy_type)]
fn copy_instance_decls(
    alloc: Global,
    decls: &Vec<InstanceTypeDeclaration>,
) -> Result<Vec<InstanceTypeDeclaration>, OutOfMemory>
    ensures { IfOk result (λ copied. map instance_decl_view copied.items ≡ map instance_decl_view decls.now.items) }
{
    let mut copied = Vec::new(alloc);
    for decl in decls {
        copied.push(copy_instance_decl(alloc, decl)?)?;
    }
    Ok(copied)
}

/// An equal declaration of a component type.
#[cycle(copy_type)]
fn copy_component_decl(
    alloc: Global,
    decl: &ComponentTypeDeclaration,
) -> Result<ComponentTypeDeclaration, OutOfMemory>
    ensures { IfOk result (λ copied. component_decl_view copied ≡ component_decl_view decl.now) }
{
    match decl {
        ComponentTypeDeclaration::CoreType(ty) => {
            Ok(ComponentTypeDeclaration::CoreType(copy_core_type(alloc, ty)?))
        }
        ComponentTypeDeclaration::Ty(ty) => {
            Ok(ComponentTypeDeclaration::Ty(copy_type(alloc, ty)?))
        }
        ComponentTypeDeclaration::Alias(alias) => {
            Ok(ComponentTypeDeclaration::Alias(alias.copy_in(alloc)?))
        }
        ComponentTypeDeclaration::Export { name, ty } => {
            let name = name.copy_in(alloc)?;
            Ok(ComponentTypeDeclaration::Export { name, ty: *ty })
        }
        ComponentTypeDeclaration::Import(import) => {
            Ok(ComponentTypeDeclaration::Import(import.copy_in(alloc)?))
        }
    }
}

/// An equal declaration of an instance type.
#[cycle(copy_type)]
fn copy_instance_decl(
    alloc: Global,
    decl: &InstanceTypeDeclaration,
) -> Result<InstanceTypeDeclaration, OutOfMemory>
    ensures { IfOk result (λ copied. instance_decl_view copied ≡ instance_decl_view decl.now) }
{
    match decl {
        InstanceTypeDeclaration::CoreType(ty) => {
            Ok(InstanceTypeDeclaration::CoreType(copy_core_type(alloc, ty)?))
        }
        InstanceTypeDeclaration::Ty(ty) => Ok(InstanceTypeDeclaration::Ty(copy_type(alloc, ty)?)),
        InstanceTypeDeclaration::Alias(alias) => {
            Ok(InstanceTypeDeclaration::Alias(alias.copy_in(alloc)?))
        }
        InstanceTypeDeclaration::Export { name, ty } => {
            let name = name.copy_in(alloc)?;
            Ok(InstanceTypeDeclaration::Export { name, ty: *ty })
        }
    }
}
