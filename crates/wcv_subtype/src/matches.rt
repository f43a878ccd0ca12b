// Matching as a call of each sort of types.
ghost use Rattle.std.specs.Prelude.{◌≡◌, IfErr, OnOk};
ghost use Rattle.wcv_types.specs.Standing.{Stands};
ghost use Rattle.wcv_types.specs.Unfold.{tree_at};
ghost use Rattle.wcv_matching.specs.Refusals.{MemoryOrMismatch};
ghost use Rattle.wcv_matching.specs.TableMatching.{TypeMatches};

use crate::comparisons::component_entity_type;
use std::sync::ledger::Ledger;
use wcv_core::Error;
use wcv_types::{
    AliasableResourceId, ComponentAnyTypeId, ComponentCoreModuleTypeId, ComponentDefinedTypeId,
    ComponentEntityType, ComponentFuncTypeId, ComponentInstanceTypeId, ComponentTypeId,
    ComponentValType, Steps, TypeAlloc, TypeSort,
};

/// A sort of types of which one may stand where another is expected.
///
/// A call answers what `component_entity_type` does of entities of the sort. That a type matches itself, that matching
/// goes on from one type to the next, and that replacing of free resources keeps it, are laws of `wcv_matching`:
/// `a_type_matches_itself`, `matching_goes_on` and `replacing_keeps_matching`.
pub trait Matches: TypeSort {
    /// Whether the type may stand where the other is expected.
    fn matches<L: Ledger>(
        self,
        expected: Self,
        types: &TypeAlloc,
        offset: u64,
        steps: &mut Steps<L>,
    ) -> Result<(), Error>
        requires found { Stands types.now (Self.as_part self) }
        requires expected { Stands types.now (Self.as_part expected) }
        ensures ok { OnOk result (TypeMatches types.now.core (tree_at types.now (Self.as_part self)) (tree_at types.now (Self.as_part expected))) }
        ensures err { IfErr result (MemoryOrMismatch offset (TypeMatches types.now.core (tree_at types.now (Self.as_part self)) (tree_at types.now (Self.as_part expected)))) };
}

impl Matches for ComponentDefinedTypeId {
    fn matches<L: Ledger>(
        self,
        expected: Self,
        types: &TypeAlloc,
        offset: u64,
        steps: &mut Steps<L>,
    ) -> Result<(), Error> {
        let found = ComponentEntityType::Value(ComponentValType::Ty(self));
        let expected = ComponentEntityType::Value(ComponentValType::Ty(expected));
        component_entity_type(types, &found, &expected, offset, steps)
    }
}

impl Matches for ComponentFuncTypeId {
    fn matches<L: Ledger>(
        self,
        expected: Self,
        types: &TypeAlloc,
        offset: u64,
        steps: &mut Steps<L>,
    ) -> Result<(), Error> {
        let found = ComponentEntityType::Func(self);
        let expected = ComponentEntityType::Func(expected);
        component_entity_type(types, &found, &expected, offset, steps)
    }
}

impl Matches for ComponentInstanceTypeId {
    fn matches<L: Ledger>(
        self,
        expected: Self,
        types: &TypeAlloc,
        offset: u64,
        steps: &mut Steps<L>,
    ) -> Result<(), Error> {
        let found = ComponentEntityType::Instance(self);
        let expected = ComponentEntityType::Instance(expected);
        component_entity_type(types, &found, &expected, offset, steps)
    }
}

impl Matches for ComponentTypeId {
    fn matches<L: Ledger>(
        self,
        expected: Self,
        types: &TypeAlloc,
        offset: u64,
        steps: &mut Steps<L>,
    ) -> Result<(), Error> {
        let found = ComponentEntityType::Component(self);
        let expected = ComponentEntityType::Component(expected);
        component_entity_type(types, &found, &expected, offset, steps)
    }
}

impl Matches for ComponentCoreModuleTypeId {
    fn matches<L: Ledger>(
        self,
        expected: Self,
        types: &TypeAlloc,
        offset: u64,
        steps: &mut Steps<L>,
    ) -> Result<(), Error> {
        let found = ComponentEntityType::Module(self);
        let expected = ComponentEntityType::Module(expected);
        component_entity_type(types, &found, &expected, offset, steps)
    }
}

/// The type of a reference to a resource, as an entity that creates it and refers to it.
fn reference_entity(id: AliasableResourceId) -> ComponentEntityType
    ensures { result ≡ ComponentEntityType.Ty (ComponentAnyTypeId.Resource id) (ComponentAnyTypeId.Resource id) }
{
    ComponentEntityType::Ty {
        created: ComponentAnyTypeId::Resource(id),
        referenced: ComponentAnyTypeId::Resource(id),
    }
}

impl Matches for AliasableResourceId {
    fn matches<L: Ledger>(
        self,
        expected: Self,
        types: &TypeAlloc,
        offset: u64,
        steps: &mut Steps<L>,
    ) -> Result<(), Error> {
        let found = reference_entity(self);
        let expected = reference_entity(expected);
        component_entity_type(types, &found, &expected, offset, steps)
    }
}
