// Which value types are named by a set of types.
ghost use Rattle.std.specs.Prelude.{◌≡◌};
ghost use Rattle.wcv_types.specs.Entities.{SlotStands};
ghost use Rattle.wcv_types.specs.Named.{is_named};
ghost use Rattle.wcv_types.specs.NamedBySet.{names_itself, handle_of};
ghost use Rattle.wcv_types.specs.Sets.{AllStand, identities};
ghost use Rattle.wcv_types.specs.Unfold.{option_slot, value_slot, slot_tree, trees};

use wcv_types::{
    AliasableResourceId, ComponentAnyTypeId, ComponentDefinedType, ComponentValType, TypeAlloc,
    TypeSet, node_of,
};

/// Whether the value type is named, or is left out.
#[tactic(auto, using(wcv_types::proofs::NamedBySet::named_next, wcv_types::proofs::NamedBySet::named_all))]
pub fn is_named_value(types: &TypeAlloc, ty: Option<ComponentValType>, set: &TypeSet) -> bool
    requires value { SlotStands types.now (option_slot ty) }
    requires set { AllStand types.now set.now }
    ensures { result ≡ is_named (identities set.now) (slot_tree (trees types.now.nodes) (option_slot ty)) }
{
    let id = match node_of(ty) {
        Some(id) => id,
        None => return true,
    };
    let shape = types.get(id);
    if shape.names_itself() {
        return set.contains(&ComponentAnyTypeId::Defined(id));
    }
    if let Some(handle) = shape.handle() {
        return set.contains(&ComponentAnyTypeId::Resource(handle));
    }
    for k in 0..shape.value_count() {
        if !is_named_value(types, shape.value_at(k), set) {
            return false;
        }
    }
    true
}

/// An arena that tells which value types a set names.
pub trait NamedValues {
    ghost use Rattle.wcv_types.specs.Arena.{Arena};

    /// The arena.
    ghost arena: { Self → Arena };

    /// Whether the value type is named by a set: by its own identity, or of those that need none by what it is
    /// made of. It takes no memory.
    fn type_named_valtype(&self, ty: &ComponentValType, set: &TypeSet) -> bool
        requires value { SlotStands (arena self.now) (value_slot ty.now) }
        requires set { AllStand (arena self.now) set.now }
        ensures { result ≡ is_named (identities set.now) (slot_tree (trees (arena self.now).nodes) (value_slot ty.now)) };
}

impl NamedValues for TypeAlloc {
    ghost use Rattle.wcv_types.specs.Arena.{Arena};

    ghost arena = { λ a. a };

    fn type_named_valtype(&self, ty: &ComponentValType, set: &TypeSet) -> bool {
        is_named_value(self, Some(*ty), set)
    }
}
