// Equal imports, exports, aliases and instances.
ghost use Rattle.std.specs.Prelude.{◌≡◌, IfOk};
ghost use Rattle.wcv_syntax.specs.View.{instance_view};

use crate::copy_text::{CopyIn, copy_list, copy_option};
use crate::instance::{ComponentAlias, ComponentInstance, ComponentInstantiationArg};
use crate::name::{ComponentExport, ComponentExternName, ComponentImport};
use std::alloc::Global;
use wcv_core::OutOfMemory;

impl CopyIn for ComponentExternName {
    fn copy_in(&self, alloc: Global) -> Result<ComponentExternName, OutOfMemory> {
        Ok(ComponentExternName {
            name: self.name.copy_in(alloc)?,
            implements: copy_option(alloc, &self.implements)?,
            version_suffix: copy_option(alloc, &self.version_suffix)?,
            external_id: copy_option(alloc, &self.external_id)?,
        })
    }
}

impl CopyIn for ComponentImport {
    fn copy_in(&self, alloc: Global) -> Result<ComponentImport, OutOfMemory> {
        let name = self.name.copy_in(alloc)?;
        Ok(ComponentImport { name, ty: self.ty })
    }
}

impl CopyIn for ComponentExport {
    fn copy_in(&self, alloc: Global) -> Result<ComponentExport, OutOfMemory> {
        let name = self.name.copy_in(alloc)?;
        let (kind, index, ty) = (self.kind, self.index, self.ty);
        Ok(ComponentExport {
            name,
            kind,
            index,
            ty,
        })
    }
}

impl CopyIn for ComponentAlias {
    fn copy_in(&self, alloc: Global) -> Result<ComponentAlias, OutOfMemory> {
        match self {
            ComponentAlias::InstanceExport {
                kind,
                instance_index,
                name,
            } => {
                let name = name.copy_in(alloc)?;
                let (kind, instance_index) = (*kind, *instance_index);
                Ok(ComponentAlias::InstanceExport {
                    kind,
                    instance_index,
                    name,
                })
            }
            ComponentAlias::CoreInstanceExport {
                kind,
                instance_index,
                name,
            } => {
                let name = name.copy_in(alloc)?;
                let (kind, instance_index) = (*kind, *instance_index);
                Ok(ComponentAlias::CoreInstanceExport {
                    kind,
                    instance_index,
                    name,
                })
            }
            ComponentAlias::Outer { kind, count, index } => {
                let (kind, count, index) = (*kind, *count, *index);
                Ok(ComponentAlias::Outer { kind, count, index })
            }
        }
    }
}

impl CopyIn for ComponentInstantiationArg {
    fn copy_in(&self, alloc: Global) -> Result<ComponentInstantiationArg, OutOfMemory> {
        let name = self.name.copy_in(alloc)?;
        let (kind, index) = (self.kind, self.index);
        Ok(ComponentInstantiationArg { name, kind, index })
    }
}

/// An equal instance item.
pub(crate) fn copy_instance(
    alloc: Global,
    instance: &ComponentInstance,
) -> Result<ComponentInstance, OutOfMemory>
    ensures { IfOk result (λ copied. instance_view copied ≡ instance_view instance.now) }
{
    match instance {
        ComponentInstance::Instantiate {
            component_index,
            args,
        } => {
            let args = copy_list(alloc, args)?;
            let component_index = *component_index;
            Ok(ComponentInstance::Instantiate {
                component_index,
                args,
            })
        }
        ComponentInstance::FromExports(exports) => {
            Ok(ComponentInstance::FromExports(copy_list(alloc, exports)?))
        }
    }
}
