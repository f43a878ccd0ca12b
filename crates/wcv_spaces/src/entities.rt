// What the parts of items name.
ghost use Rattle.std.specs.Prelude.{◌≡◌, ◌++◌, Some, slice_get, All, OnOk, OnErr, IfOk, IfErr};
ghost use Rattle.wcv_lower.specs.Checks.{IsFree, missing};
ghost use Rattle.wcv_lower.specs.Context.{in_types};
ghost use Rattle.wcv_core.specs.Features.{cm_values};
ghost use Rattle.wcv_lower.specs.Values.{lacks};
ghost use Rattle.wcv_spaces.specs.Contents.{IdStands};
ghost use Rattle.wcv_spaces.specs.Parts.{lists};
ghost use Rattle.wcv_spaces.specs.Looking.{value_id, value_id_checks, written_id_checks, item_id, item_id_checks, CreatesAgain, MakesResource, GivesWritten, GivesExported};
ghost use Rattle.wcv_spaces.specs.Promises.{CausedBy, MemoryOrCausedBy};

use crate::features::{check_primitive, check_values};
use crate::indices::{
    component_type_at, defined_type_at, element_at, func_type_at, instance_type_at, module_type_at,
};
use crate::spaces::Spaces;
use wcv_core::{OutOfMemory, Refusal, WasmFeatures};
use wcv_syntax::{
    ComponentExport, ComponentExternalKind, ComponentTypeRef, ComponentValType as Written,
    TypeBounds,
};
use wcv_types::{ComponentAnyTypeId, ComponentEntityType, ComponentValType, TypeAlloc};

/// The entity of the type at that index, which is created again.
fn create_again(
    spaces: &Spaces,
    types: &mut TypeAlloc,
    index: u32,
    offset: u64,
) -> Result<ComponentEntityType, Refusal<'static>>
    requires { All (IdStands types.old in_types) (lists spaces.now).types }
    ensures ok { IfOk result (λ x. CreatesAgain types.old types.new (slice_get (lists spaces.now).types index) x) }
    ensures err { IfErr result (MemoryOrCausedBy (missing (slice_get (lists spaces.now).types index)) offset) }
    ensures same { OnErr result (types.new ≡ types.old) }
{
    let referenced = element_at(&spaces.types, "type", index, offset)?;
    let created = types.with_unique(referenced)?;
    Ok(ComponentEntityType::Ty {
        created,
        referenced,
    })
}

/// The entity of a resource that is made.
fn make_resource(types: &mut TypeAlloc) -> Result<ComponentEntityType, OutOfMemory>
    ensures ok { IfOk result (λ x. MakesResource types.old types.new x) }
    ensures err { OnErr result (types.new ≡ types.old) }
{
    let id = ComponentAnyTypeId::Resource(types.alloc_resource_id()?);
    Ok(ComponentEntityType::Ty {
        created: id,
        referenced: id,
    })
}

/// The entity of a written value type.
fn written_value(
    spaces: &Spaces,
    ty: &Written,
    features: &WasmFeatures,
    offset: u64,
) -> Result<ComponentEntityType, Refusal<'static>>
    ensures ok { IfOk result (λ x. value_id (lists spaces.now) ty.now ≡ Some x) }
    ensures free { OnOk result (IsFree (lacks features.now cm_values ++ value_id_checks features.now (lists spaces.now) ty.now)) }
    ensures err { IfErr result (MemoryOrCausedBy (lacks features.now cm_values ++ value_id_checks features.now (lists spaces.now) ty.now) offset) }
{
    check_values(features, offset)?;
    let ty = match ty {
        Written::Primitive(primitive) => {
            check_primitive(*primitive, features, offset)?;
            ComponentValType::Primitive(*primitive)
        }
        Written::Ty(index) => ComponentValType::Ty(defined_type_at(&spaces.types, *index, offset)?),
    };
    Ok(ComponentEntityType::Value(ty))
}

/// The entity that a written type gives. On an error the arena stays as it was.
pub fn written(
    spaces: &Spaces,
    ty: &ComponentTypeRef,
    types: &mut TypeAlloc,
    features: &WasmFeatures,
    offset: u64,
) -> Result<ComponentEntityType, Refusal<'static>>
    requires { All (IdStands types.old in_types) (lists spaces.now).types }
    ensures ok { IfOk result (λ x. GivesWritten types.old types.new (lists spaces.now) ty.now x) }
    ensures free { OnOk result (IsFree (written_id_checks features.now (lists spaces.now) ty.now)) }
    ensures err { IfErr result (MemoryOrCausedBy (written_id_checks features.now (lists spaces.now) ty.now) offset) }
    ensures same { OnErr result (types.new ≡ types.old) }
{
    match ty {
        ComponentTypeRef::Module(index) => {
            let id = module_type_at(spaces.core_types.as_slice(), *index, offset)?;
            Ok(ComponentEntityType::Module(id))
        }
        ComponentTypeRef::Func(index) => {
            let id = func_type_at(&spaces.types, *index, offset)?;
            Ok(ComponentEntityType::Func(id))
        }
        ComponentTypeRef::Instance(index) => {
            let id = instance_type_at(&spaces.types, *index, offset)?;
            Ok(ComponentEntityType::Instance(id))
        }
        ComponentTypeRef::Component(index) => {
            let id = component_type_at(&spaces.types, *index, offset)?;
            Ok(ComponentEntityType::Component(id))
        }
        ComponentTypeRef::Ty(TypeBounds::Eq(index)) => {
            create_again(spaces, types, *index, offset)
        }
        ComponentTypeRef::Ty(TypeBounds::SubResource) => Ok(make_resource(types)?),
        ComponentTypeRef::Value(ty) => written_value(spaces, ty, features, offset),
    }
}

/// The item of that sort at the index, as an entity: of a type both nodes are the one that stands there.
pub fn item_at(
    spaces: &Spaces,
    kind: ComponentExternalKind,
    index: u32,
    offset: u64,
) -> Result<ComponentEntityType, Refusal<'static>>
    ensures ok { IfOk result (λ x. item_id (lists spaces.now) kind index ≡ Some x) }
    ensures err { IfErr result (CausedBy (item_id_checks (lists spaces.now) kind index) offset) }
{
    match kind {
        ComponentExternalKind::Module => {
            let id = element_at(&spaces.core_modules, "core module", index, offset)?;
            Ok(ComponentEntityType::Module(id))
        }
        ComponentExternalKind::Func => {
            let id = element_at(&spaces.funcs, "function", index, offset)?;
            Ok(ComponentEntityType::Func(id))
        }
        ComponentExternalKind::Ty => {
            let id = element_at(&spaces.types, "type", index, offset)?;
            Ok(ComponentEntityType::Ty {
                created: id,
                referenced: id,
            })
        }
        ComponentExternalKind::Instance => {
            let id = element_at(&spaces.instances, "instance", index, offset)?;
            Ok(ComponentEntityType::Instance(id))
        }
        ComponentExternalKind::Component => {
            let id = element_at(&spaces.components, "component", index, offset)?;
            Ok(ComponentEntityType::Component(id))
        }
        ComponentExternalKind::Value => {
            let (ty, _) = element_at(&spaces.values, "value", index, offset)?;
            Ok(ComponentEntityType::Value(ty))
        }
    }
}

/// An item as it is exported where no type is written: a type is created again. On an error the arena stays as it
/// was.
pub fn exported(
    spaces: &Spaces,
    export: &ComponentExport,
    types: &mut TypeAlloc,
    offset: u64,
) -> Result<ComponentEntityType, Refusal<'static>>
    requires { All (IdStands types.old in_types) (lists spaces.now).types }
    ensures ok { IfOk result (λ x. GivesExported types.old types.new (lists spaces.now) export.now.kind export.now.index x) }
    ensures err { IfErr result (MemoryOrCausedBy (item_id_checks (lists spaces.now) export.now.kind export.now.index) offset) }
    ensures same { OnErr result (types.new ≡ types.old) }
{
    match export.kind {
        ComponentExternalKind::Ty => create_again(spaces, types, export.index, offset),
        _ => {
            let item = item_at(spaces, export.kind, export.index, offset)?;
            Ok(item)
        }
    }
}
