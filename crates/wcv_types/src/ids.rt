// The ids of types. An id is a position in a list of the arena.
use wcv_core::CoreTypeId;

/// A resource.
#[derive(Clone, Copy, Debug, PartialEq, Eq, Hash, PartialOrd, Ord)]
pub struct ResourceId {
    pub index: u64,
}

/// A reference to a resource. Its stamp tells it from other references to the same resource.
#[derive(Clone, Copy, Debug, PartialEq, Eq, Hash, PartialOrd, Ord)]
pub struct AliasableResourceId {
    pub resource: ResourceId,
    pub stamp: u64,
}

impl AliasableResourceId {
    ghost use Rattle.std.specs.Prelude.{◌≡◌};

    /// The resource without the stamp.
    pub fn resource(&self) -> ResourceId
        ensures { result ≡ self.now.resource }
    {
        self.resource
    }
}

/// The id of a defined value type.
#[derive(Clone, Copy, Debug, PartialEq, Eq, Hash, PartialOrd, Ord)]
pub struct ComponentDefinedTypeId {
    pub index: u64,
}

/// The id of a function type.
#[derive(Clone, Copy, Debug, PartialEq, Eq, Hash, PartialOrd, Ord)]
pub struct ComponentFuncTypeId {
    pub index: u64,
}

/// The id of an instance type.
#[derive(Clone, Copy, Debug, PartialEq, Eq, Hash, PartialOrd, Ord)]
pub struct ComponentInstanceTypeId {
    pub index: u64,
}

/// The id of a component type.
#[derive(Clone, Copy, Debug, PartialEq, Eq, Hash, PartialOrd, Ord)]
pub struct ComponentTypeId {
    pub index: u64,
}

/// The id of the type of a core module.
#[derive(Clone, Copy, Debug, PartialEq, Eq, Hash, PartialOrd, Ord)]
pub struct ComponentCoreModuleTypeId {
    pub index: u64,
}

/// The id of the type of a core instance.
#[derive(Clone, Copy, Debug, PartialEq, Eq, Hash, PartialOrd, Ord)]
pub struct ComponentCoreInstanceTypeId {
    pub index: u64,
}

/// The id of a type of any sort that an index space of types holds.
#[derive(Clone, Copy, Debug, PartialEq, Eq, Hash, PartialOrd, Ord)]
pub enum ComponentAnyTypeId {
    Resource(AliasableResourceId),
    Defined(ComponentDefinedTypeId),
    Func(ComponentFuncTypeId),
    Instance(ComponentInstanceTypeId),
    Component(ComponentTypeId),
}

/// The id of a core type or of the type of a core module.
#[derive(Clone, Copy, Debug, PartialEq, Eq, Hash, PartialOrd, Ord)]
pub enum ComponentCoreTypeId {
    Sub(CoreTypeId),
    Module(ComponentCoreModuleTypeId),
}

/// The id of a type of any sort that may be a part of another.
#[derive(Clone, Copy, Debug, PartialEq, Eq)]
pub enum Part {
    Defined(ComponentDefinedTypeId),
    Func(ComponentFuncTypeId),
    Instance(ComponentInstanceTypeId),
    Component(ComponentTypeId),
    Module(ComponentCoreModuleTypeId),
    CoreInstance(ComponentCoreInstanceTypeId),
    Resource(AliasableResourceId),
    Core(CoreTypeId),
}

impl From<AliasableResourceId> for ComponentAnyTypeId {
    ghost use Rattle.std.specs.Prelude.{◌≡◌};
    ghost use Rattle.wcv_types.specs.declared.ids.ComponentAnyTypeId.TheVariants as any;

    ghost from_gives = { λ id x. x ≡ any.Resource id };

    fn from(id: AliasableResourceId) -> ComponentAnyTypeId {
        ComponentAnyTypeId::Resource(id)
    }
}

impl From<ComponentDefinedTypeId> for ComponentAnyTypeId {
    ghost use Rattle.std.specs.Prelude.{◌≡◌};
    ghost use Rattle.wcv_types.specs.declared.ids.ComponentAnyTypeId.TheVariants as any;

    ghost from_gives = { λ id x. x ≡ any.Defined id };

    fn from(id: ComponentDefinedTypeId) -> ComponentAnyTypeId {
        ComponentAnyTypeId::Defined(id)
    }
}

impl From<ComponentFuncTypeId> for ComponentAnyTypeId {
    ghost use Rattle.std.specs.Prelude.{◌≡◌};
    ghost use Rattle.wcv_types.specs.declared.ids.ComponentAnyTypeId.TheVariants as any;

    ghost from_gives = { λ id x. x ≡ any.Func id };

    fn from(id: ComponentFuncTypeId) -> ComponentAnyTypeId {
        ComponentAnyTypeId::Func(id)
    }
}

impl From<ComponentInstanceTypeId> for ComponentAnyTypeId {
    ghost use Rattle.std.specs.Prelude.{◌≡◌};
    ghost use Rattle.wcv_types.specs.declared.ids.ComponentAnyTypeId.TheVariants as any;

    ghost from_gives = { λ id x. x ≡ any.Instance id };

    fn from(id: ComponentInstanceTypeId) -> ComponentAnyTypeId {
        ComponentAnyTypeId::Instance(id)
    }
}

impl From<ComponentTypeId> for ComponentAnyTypeId {
    ghost use Rattle.std.specs.Prelude.{◌≡◌};
    ghost use Rattle.wcv_types.specs.declared.ids.ComponentAnyTypeId.TheVariants as any;

    ghost from_gives = { λ id x. x ≡ any.Component id };

    fn from(id: ComponentTypeId) -> ComponentAnyTypeId {
        ComponentAnyTypeId::Component(id)
    }
}
