// What is known of a defined type, from the arena.
ghost use Rattle.std.specs.Prelude.{◌≡◌, ◌<◌, [], length, slice_get, Some, All};
ghost use Rattle.std.specs.Option.{option_map};
ghost use Rattle.wcv_types.specs.Entities.{SlotStands};
ghost use Rattle.wcv_types.specs.Facts.{is_plain, IsFactsOf};
ghost use Rattle.wcv_types.specs.Named.{is_named};
ghost use Rattle.wcv_types.specs.Standing.{Stands};
ghost use Rattle.wcv_types.specs.Sums.{HasAlign, HasParts, IsSumOf};
ghost use Rattle.wcv_types.specs.Unfold.{defined_slots, handles, value_parts, option_slot, parts_of, slot_parts, slot_tree, tree_of, trees};
ghost use Rattle.wcv_types.specs.declared.arena.Node.TheVariants as n;

use crate::arena::TypeAlloc;
use crate::facts::{Facts, leaf_facts, reference_facts};
use crate::layout::facts;
use crate::shapes::{ComponentDefinedType, ComponentValType};
use crate::sum::Sum;

impl ComponentDefinedType {
    /// Whether it is a handle.
    pub(crate) fn is_handle(&self) -> bool
        ensures { result ≡ handles self.now }
    {
        matches!(
            self,
            ComponentDefinedType::Own(_) | ComponentDefinedType::Borrow(_)
        )
    }

    /// How many value types it is made of.
    pub fn value_count(&self) -> usize
        ensures { result ≡ length (value_parts self.now) }
    {
        match self {
            ComponentDefinedType::Record(fields) => fields.len(),
            ComponentDefinedType::Variant(cases) => cases.len(),
            ComponentDefinedType::Tuple(types) => types.len(),
            ComponentDefinedType::List(_)
            | ComponentDefinedType::FixedLengthList(_, _)
            | ComponentDefinedType::Option(_)
            | ComponentDefinedType::Future(_)
            | ComponentDefinedType::Stream(_) => 1,
            ComponentDefinedType::Map(_, _) | ComponentDefinedType::Result { .. } => 2,
            ComponentDefinedType::Primitive(_)
            | ComponentDefinedType::Flags(_)
            | ComponentDefinedType::Enum(_)
            | ComponentDefinedType::Own(_)
            | ComponentDefinedType::Borrow(_) => 0,
        }
    }

    /// The k-th of them, where it is not left out.
    #[tactic(auto, using(crate::proofs::Knowing::tuple_value))]
    pub fn value_at(&self, k: usize) -> Option<ComponentValType>
        requires { k < length (value_parts self.now) }
        ensures { option_map (λ p. p.1) (slice_get (value_parts self.now) k) ≡ Some result }
    {
        match self {
            ComponentDefinedType::Record(fields) => Some(fields[k].1),
            ComponentDefinedType::Variant(cases) => cases[k].1,
            ComponentDefinedType::Tuple(types) => Some(types[k]),
            ComponentDefinedType::Map(key, value) => Some(if k == 0 { *key } else { *value }),
            ComponentDefinedType::Result { ok, err } => { if k == 0 { *ok } else { *err } }
            ComponentDefinedType::List(ty)
            | ComponentDefinedType::FixedLengthList(ty, _)
            | ComponentDefinedType::Option(ty) => Some(*ty),
            ComponentDefinedType::Future(ty) | ComponentDefinedType::Stream(ty) => *ty,
            _ => unreachable!(),
        }
    }
}

/// What is known of a value type, or of what is left out.
#[tactic(auto, using(crate::proofs::Knowing::value_plain))]
pub fn value_facts(types: &TypeAlloc, ty: Option<ComponentValType>) -> Facts
    requires { SlotStands types.now (option_slot ty) }
    ensures facts { IsFactsOf result (slot_tree (trees types.now.nodes) (option_slot ty)) }
    ensures plain { is_plain (slot_tree (trees types.now.nodes) (option_slot ty)) ≡ is_named [] (slot_tree (trees types.now.nodes) (option_slot ty)) }
    ensures align { HasAlign result }
{
    match ty {
        None => leaf_facts(None),
        Some(ComponentValType::Primitive(primitive)) => leaf_facts(Some(primitive)),
        Some(ComponentValType::Ty(id)) => types.nodes.facts(id.index as usize),
    }
}

/// What is known of the parts of a defined type, added up.
fn parts_sum(types: &TypeAlloc, shape: &ComponentDefinedType) -> Sum
    requires { All (Stands types.now) (parts_of (n.Defined shape.now)) }
    ensures sum { IsSumOf result (slot_parts (trees types.now.nodes) (defined_slots shape.now)) }
    ensures parts { HasParts result }
{
    let mut sum = Sum::new();
    if shape.is_handle() {
        sum.add(reference_facts());
        return sum;
    }
    for k in 0..shape.value_count() {
        sum.add(value_facts(types, shape.value_at(k)));
    }
    sum
}

/// What is known of a defined type whose parts are in the arena.
pub fn defined_facts(types: &TypeAlloc, shape: &ComponentDefinedType) -> Facts
    requires { All (Stands types.now) (parts_of (n.Defined shape.now)) }
    ensures { IsFactsOf result (tree_of (trees types.now.nodes) (n.Defined shape.now)) }
{
    facts(shape, &parts_sum(types, shape))
}
