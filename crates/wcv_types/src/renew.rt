// Types under a new identity.
ghost use Rattle.std.specs.Prelude.{◌≡◌, IfOk, OnErr};
ghost use Rattle.wcv_types.specs.Entities.{any_part};
ghost use Rattle.wcv_types.specs.Given.{AllNamesGiven};
ghost use Rattle.wcv_types.specs.Renewed.{id_with, Renewed};
ghost use Rattle.wcv_types.specs.Standing.{Stands};

use crate::arena::TypeAlloc;
use crate::ids::{
    AliasableResourceId, ComponentAnyTypeId, ComponentDefinedTypeId, ComponentFuncTypeId,
    ComponentInstanceTypeId, ComponentTypeId,
};
use wcv_core::OutOfMemory;

/// The id of the same sort that has this index; of a reference to a resource, this stamp.
fn with_index(id: ComponentAnyTypeId, index: u64) -> ComponentAnyTypeId
    ensures { result ≡ id_with id index }
{
    match id {
        ComponentAnyTypeId::Resource(id) => {
            ComponentAnyTypeId::Resource(AliasableResourceId {
                resource: id.resource,
                stamp: index,
            })
        }
        ComponentAnyTypeId::Defined(_) => {
            ComponentAnyTypeId::Defined(ComponentDefinedTypeId { index })
        }
        ComponentAnyTypeId::Func(_) => ComponentAnyTypeId::Func(ComponentFuncTypeId { index }),
        ComponentAnyTypeId::Instance(_) => {
            ComponentAnyTypeId::Instance(ComponentInstanceTypeId { index })
        }
        ComponentAnyTypeId::Component(_) => {
            ComponentAnyTypeId::Component(ComponentTypeId { index })
        }
    }
}

impl TypeAlloc {
    /// The node once more, or one more stamp for a reference. Gives the place or the stamp.
    fn add_unique(&mut self, id: ComponentAnyTypeId) -> Result<u64, OutOfMemory>
        requires { Stands self.old (any_part id) }
        ensures ok { IfOk result (λ index. Renewed self.old self.new id (id_with id index)) }
        ensures err { OnErr result (self.new ≡ self.old) }
    {
        match id {
            ComponentAnyTypeId::Resource(id) => self.add_stamp(id.resource),
            ComponentAnyTypeId::Defined(id) => self.add_again(id.index),
            ComponentAnyTypeId::Func(id) => self.add_again(id.index),
            ComponentAnyTypeId::Instance(id) => self.add_again(id.index),
            ComponentAnyTypeId::Component(id) => self.add_again(id.index),
        }
    }

    /// The same type under an identity that stood nowhere; of a reference to a resource, one more reference to
    /// it. Nothing that the type is made of is copied. Out of memory nothing changes.
    pub fn with_unique(&mut self, id: ComponentAnyTypeId) -> Result<ComponentAnyTypeId, OutOfMemory>
        requires { Stands self.old (any_part id) }
        ensures ok { IfOk result (λ made. Renewed self.old self.new id made) }
        ensures given { AllNamesGiven self.old }
        ensures err { OnErr result (self.new ≡ self.old) }
    {
        self.names_given();
        let index = self.add_unique(id)?;
        Ok(with_index(id, index))
    }
}
