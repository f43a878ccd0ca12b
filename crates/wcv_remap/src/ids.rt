// Parts that are ids of an index space of types.
ghost use Rattle.std.specs.Prelude.{◌≡◌, true};
ghost use Rattle.wcv_types.specs.Unfold.{any_part};
ghost use Rattle.wcv_remap.specs.Map.{is_type};

use wcv_types::{ComponentAnyTypeId, Part};

/// The id as a part.
pub fn part_of(id: ComponentAnyTypeId) -> Part
    ensures { result ≡ any_part id }
{
    match id {
        ComponentAnyTypeId::Resource(id) => Part::Resource(id),
        ComponentAnyTypeId::Defined(id) => Part::Defined(id),
        ComponentAnyTypeId::Func(id) => Part::Func(id),
        ComponentAnyTypeId::Instance(id) => Part::Instance(id),
        ComponentAnyTypeId::Component(id) => Part::Component(id),
    }
}

/// The part as an id.
pub fn id_of(part: Part) -> ComponentAnyTypeId
    requires { is_type part ≡ true }
    ensures { any_part result ≡ part }
{
    match part {
        Part::Resource(id) => ComponentAnyTypeId::Resource(id),
        Part::Defined(id) => ComponentAnyTypeId::Defined(id),
        Part::Func(id) => ComponentAnyTypeId::Func(id),
        Part::Instance(id) => ComponentAnyTypeId::Instance(id),
        Part::Component(id) => ComponentAnyTypeId::Component(id),
        Part::Module(_) | Part::CoreInstance(_) | Part::Core(_) => unreachable!(),
    }
}
