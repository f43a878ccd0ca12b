// What nodes of the arena are made of.
ghost use Rattle.std.specs.Prelude.{◌≡◌};
ghost use Rattle.wcv_types.specs.NamedBySet.{handle_of, names_itself, node_id};
ghost use Rattle.wcv_types.specs.Unfold.{names_node};

use crate::ids::{
    AliasableResourceId, ComponentAnyTypeId, ComponentCoreModuleTypeId, ComponentDefinedTypeId,
    ComponentFuncTypeId, ComponentInstanceTypeId, ComponentTypeId,
};
use crate::info::TypeInfo;
use wcv_core::{PrimitiveValType, Text};

/// A value type: a primitive, or a node of the arena.
#[derive(Clone, Copy)]
pub enum ComponentValType {
    Primitive(PrimitiveValType),
    Ty(ComponentDefinedTypeId),
}

impl ComponentValType {
    /// Whether the type is a node of the arena.
    pub fn is_node(&self) -> bool
        ensures { result ≡ names_node self.now }
    {
        matches!(self, ComponentValType::Ty(_))
    }
}

/// The node that the value type is, where it is there and is one.
pub fn node_of(ty: Option<ComponentValType>) -> Option<ComponentDefinedTypeId>
    ensures { result ≡ node_id ty }
{
    match ty {
        Some(ComponentValType::Ty(id)) => Some(id),
        _ => None,
    }
}

/// A defined value type.
#[derive(Drop)]
pub enum ComponentDefinedType {
    /// A primitive under a name.
    Primitive(PrimitiveValType),
    Record(Vec<(Text, ComponentValType)>),
    /// Its cases, each maybe with a payload.
    Variant(Vec<(Text, Option<ComponentValType>)>),
    List(ComponentValType),
    /// The types of its keys and of its values.
    Map(ComponentValType, ComponentValType),
    /// The type of its elements, and how many there are.
    FixedLengthList(ComponentValType, u32),
    Tuple(Vec<ComponentValType>),
    Flags(Vec<Text>),
    Enum(Vec<Text>),
    Option(ComponentValType),
    Result {
        ok: Option<ComponentValType>,
        err: Option<ComponentValType>,
    },
    Own(AliasableResourceId),
    Borrow(AliasableResourceId),
    Future(Option<ComponentValType>),
    Stream(Option<ComponentValType>),
}

/// A function type: parameters by name, and maybe a result.
#[derive(Drop)]
pub struct ComponentFuncType {
    pub async_: bool,
    pub info: TypeInfo,
    pub params: Vec<(Text, ComponentValType)>,
    pub result: Option<ComponentValType>,
}

/// The type of what is imported or exported.
#[derive(Clone, Copy)]
pub enum ComponentEntityType {
    Module(ComponentCoreModuleTypeId),
    Func(ComponentFuncTypeId),
    Value(ComponentValType),
    /// A type: the node that the entry makes, and the node that it names.
    Ty {
        created: ComponentAnyTypeId,
        referenced: ComponentAnyTypeId,
    },
    Instance(ComponentInstanceTypeId),
    Component(ComponentTypeId),
}

impl ComponentDefinedType {
    /// Whether it is named by its own identity alone, whatever it is made of.
    pub fn names_itself(&self) -> bool
        ensures { result ≡ names_itself self.now }
    {
        matches!(
            self,
            ComponentDefinedType::Record(_)
                | ComponentDefinedType::Variant(_)
                | ComponentDefinedType::Flags(_)
                | ComponentDefinedType::Enum(_)
        )
    }

    /// The reference to the resource of a handle.
    pub fn handle(&self) -> Option<AliasableResourceId>
        ensures { result ≡ handle_of self.now }
    {
        match self {
            ComponentDefinedType::Own(id) | ComponentDefinedType::Borrow(id) => Some(*id),
            _ => None,
        }
    }
}
