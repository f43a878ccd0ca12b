// Equal core types, modules and instances.
ghost use Rattle.std.specs.Prelude.{◌≡◌, map, IfOk};
ghost use Rattle.wcv_core.specs.CoreForm.{composite_form, group_form};
ghost use Rattle.wcv_syntax.specs.View.{module_decl_view, code_decl_view, core_type_view, core_instance_view};

use crate::copy_text::{CopyIn, copy_list};
use crate::core_section::{
    CoreType, Export, Import, Instance, InstantiationArg, ModuleDecl, ModuleTypeDeclaration,
};
use std::alloc::Global;
use wcv_core::{CompositeInnerType, FuncType, OutOfMemory, RecGroup, StructType, SubType};

/// The same form of a core type.
fn copy_inner(alloc: Global, inner: &CompositeInnerType) -> Result<CompositeInnerType, OutOfMemory>
    ensures { IfOk result (λ copied. composite_form copied ≡ composite_form inner.now) }
{
    match inner {
        CompositeInnerType::Func(func) => {
            let params = Vec::from_slice(alloc, &func.params)?;
            let results = Vec::from_slice(alloc, &func.results)?;
            Ok(CompositeInnerType::Func(FuncType { params, results }))
        }
        CompositeInnerType::Struct(fields) => {
            let fields = Vec::from_slice(alloc, &fields.fields)?;
            Ok(CompositeInnerType::Struct(StructType { fields }))
        }
        CompositeInnerType::Array(array) => Ok(CompositeInnerType::Array(*array)),
    }
}

/// An equal group.
fn copy_group(alloc: Global, group: &RecGroup) -> Result<RecGroup, OutOfMemory>
    ensures { IfOk result (λ copied. group_form copied ≡ group_form group.now) }
{
    let mut types = Vec::new(alloc);
    for ty in &group.types {
        types.push(SubType {
            is_final: ty.is_final,
            supertype: ty.supertype,
            shared: ty.shared,
            inner: copy_inner(alloc, &ty.inner)?,
        })?;
    }
    Ok(RecGroup { types })
}

impl CopyIn for Import {
    fn copy_in(&self, alloc: Global) -> Result<Import, OutOfMemory> {
        Ok(Import {
            module: self.module.copy_in(alloc)?,
            name: self.name.copy_in(alloc)?,
            ty: self.ty,
        })
    }
}

/// An equal declaration of a module type.
fn copy_module_decl(
    alloc: Global,
    decl: &ModuleTypeDeclaration,
) -> Result<ModuleTypeDeclaration, OutOfMemory>
    ensures { IfOk result (λ copied. module_decl_view copied ≡ module_decl_view decl.now) }
{
    match decl {
        ModuleTypeDeclaration::Ty(group) => {
            Ok(ModuleTypeDeclaration::Ty(copy_group(alloc, group)?))
        }
        ModuleTypeDeclaration::Import(import) => {
            Ok(ModuleTypeDeclaration::Import(import.copy_in(alloc)?))
        }
        ModuleTypeDeclaration::Export { name, ty } => {
            let name = name.copy_in(alloc)?;
            Ok(ModuleTypeDeclaration::Export { name, ty: *ty })
        }
        ModuleTypeDeclaration::OuterAlias { count, index } => {
            Ok(ModuleTypeDeclaration::OuterAlias {
                count: *count,
                index: *index,
            })
        }
    }
}

/// An equal core type item.
pub(crate) fn copy_core_type(alloc: Global, ty: &CoreType) -> Result<CoreType, OutOfMemory>
    ensures { IfOk result (λ copied. core_type_view copied ≡ core_type_view ty.now) }
{
    match ty {
        CoreType::Rec(group) => Ok(CoreType::Rec(copy_group(alloc, group)?)),
        CoreType::Module(decls) => {
            let mut copied = Vec::new(alloc);
            for decl in decls {
                copied.push(copy_module_decl(alloc, decl)?)?;
            }
            Ok(CoreType::Module(copied))
        }
    }
}

/// An equal declaration of a core module.
fn copy_code_decl(alloc: Global, decl: &ModuleDecl) -> Result<ModuleDecl, OutOfMemory>
    ensures { IfOk result (λ copied. code_decl_view copied ≡ code_decl_view decl.now) }
{
    match decl {
        ModuleDecl::Ty(group) => Ok(ModuleDecl::Ty(copy_group(alloc, group)?)),
        ModuleDecl::Import(import) => Ok(ModuleDecl::Import(import.copy_in(alloc)?)),
        ModuleDecl::Export { name, ty } => {
            let name = name.copy_in(alloc)?;
            Ok(ModuleDecl::Export { name, ty: *ty })
        }
    }
}

/// Equal declarations of a core module.
pub(crate) fn copy_module(
    alloc: Global,
    decls: &[ModuleDecl],
) -> Result<Vec<ModuleDecl>, OutOfMemory>
    ensures { IfOk result (λ copied. map code_decl_view copied.items ≡ map code_decl_view decls.now) }
{
    let mut copied = Vec::new(alloc);
    for decl in decls {
        copied.push(copy_code_decl(alloc, decl)?)?;
    }
    Ok(copied)
}

impl CopyIn for InstantiationArg {
    fn copy_in(&self, alloc: Global) -> Result<InstantiationArg, OutOfMemory> {
        let name = self.name.copy_in(alloc)?;
        Ok(InstantiationArg {
            name,
            index: self.index,
        })
    }
}

impl CopyIn for Export {
    fn copy_in(&self, alloc: Global) -> Result<Export, OutOfMemory> {
        Ok(Export {
            name: self.name.copy_in(alloc)?,
            kind: self.kind,
            index: self.index,
        })
    }
}

/// An equal core instance item.
pub(crate) fn copy_core_instance(
    alloc: Global,
    instance: &Instance,
) -> Result<Instance, OutOfMemory>
    ensures { IfOk result (λ copied. core_instance_view copied ≡ core_instance_view instance.now) }
{
    match instance {
        Instance::Instantiate { module_index, args } => {
            let args = copy_list(alloc, args)?;
            Ok(Instance::Instantiate {
                module_index: *module_index,
                args,
            })
        }
        Instance::FromExports(exports) => Ok(Instance::FromExports(copy_list(alloc, exports)?)),
    }
}
