// How nodes are known.
ghost use Rattle.std.specs.Prelude.{◌≡◌};
ghost use Rattle.wcv_types.specs.Entities.{any_part};
ghost use Rattle.wcv_types.specs.Standing as standing;
ghost use Rattle.wcv_text.specs.Identity.{known};

use wcv_types::{AliasableResourceId, ComponentAnyTypeId, Part};

/// A node is known by its place in the arena, a reference by its resource and its stamp.
#[derive(Clone, Copy, PartialEq, Eq, Hash, PartialOrd, Ord)]
pub enum Identity {
    Node(u64),
    Reference(AliasableResourceId),
}

/// The id as a part.
pub fn as_part(id: ComponentAnyTypeId) -> Part
    ensures { result ≡ any_part id }
{
    match id {
        ComponentAnyTypeId::Resource(id) => Part::Resource(id),
        ComponentAnyTypeId::Defined(id) => Part::Defined(id),
        ComponentAnyTypeId::Func(id) => Part::Func(id),
        ComponentAnyTypeId::Instance(id) => Part::Instance(id),
        ComponentAnyTypeId::Component(id) => Part::Component(id),
    }
}

/// How the part is known.
pub fn identity_of(part: Part) -> Identity
    ensures { known result ≡ standing.identity_of part }
{
    match part {
        Part::Resource(id) => Identity::Reference(id),
        Part::Defined(id) => Identity::Node(id.index),
        Part::Func(id) => Identity::Node(id.index),
        Part::Instance(id) => Identity::Node(id.index),
        Part::Component(id) => Identity::Node(id.index),
        Part::Module(id) => Identity::Node(id.index),
        Part::CoreInstance(id) => Identity::Node(id.index),
        // A core type is no node.
        Part::Core(_) => Identity::Node(0),
    }
}
