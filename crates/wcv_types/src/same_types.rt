// Which value types are the same, identities aside.
ghost use Rattle.std.specs.Prelude.{◌≡◌, ◌<◌, length, slice_get, Some, None, IfOk, option_copied};
ghost use Rattle.std.specs.Bool.{Decides};
ghost use Rattle.std.specs.Option.{option_map};
ghost use Rattle.wcv_types.specs.Alike.{Alike, form_number, form_primitive, form_length, form_names, role_of};
ghost use Rattle.wcv_types.specs.Entities.{SlotStands};
ghost use Rattle.wcv_types.specs.NamedBySet.{node_id};
ghost use Rattle.wcv_types.specs.ShapeNumbers.{Numbered};
ghost use Rattle.wcv_types.specs.Unfold.{former_of, leaf, option_slot, value_slot, value_parts, slot_tree, trees};

use crate::arena::TypeAlloc;
use crate::shape_numbers::{ShapeNumbers, value_number};
use crate::shapes::{ComponentDefinedType, ComponentValType};
use wcv_core::{OutOfMemory, PrimitiveValType, Text};

impl ComponentDefinedType {
    /// The form, as a number.
    pub fn form(&self) -> u8
        ensures { result ≡ form_number (former_of self.now) }
    {
        match self {
            ComponentDefinedType::Primitive(_) => 0,
            ComponentDefinedType::Record(_) => 1,
            ComponentDefinedType::Variant(_) => 2,
            ComponentDefinedType::List(_) => 3,
            ComponentDefinedType::Map(_, _) => 4,
            ComponentDefinedType::Tuple(_) => 5,
            ComponentDefinedType::Option(_) => 6,
            ComponentDefinedType::Result { .. } => 7,
            ComponentDefinedType::Own(_) => 8,
            ComponentDefinedType::Borrow(_) => 9,
            ComponentDefinedType::Future(_) => 10,
            ComponentDefinedType::Stream(_) => 11,
            ComponentDefinedType::FixedLengthList(_, _) => 12,
            ComponentDefinedType::Flags(_) => 13,
            ComponentDefinedType::Enum(_) => 14,
        }
    }

    /// The primitive under the name.
    pub fn primitive(&self) -> Option<PrimitiveValType>
        ensures { result ≡ form_primitive (former_of self.now) }
    {
        match self {
            ComponentDefinedType::Primitive(primitive) => Some(*primitive),
            _ => None,
        }
    }

    /// How many elements a list of a fixed length has.
    pub fn fixed_length(&self) -> u32
        ensures { result ≡ form_length (former_of self.now) }
    {
        match self {
            ComponentDefinedType::FixedLengthList(_, len) => *len,
            _ => 0,
        }
    }

    /// The names of flags or of an enum.
    pub fn names(&self) -> &[Text]
        ensures { result.now ≡ form_names (former_of self.now) }
    {
        match self {
            ComponentDefinedType::Flags(names) | ComponentDefinedType::Enum(names) => names,
            _ => &[],
        }
    }

    /// The label of the k-th of the value types that it is made of, where they have labels.
    #[tactic(auto, using(crate::proofs::SameTypes::plain_role))]
    pub fn label_at(&self, k: usize) -> Option<&Text>
        requires { k < length (value_parts self.now) }
        ensures { option_map (λ p. p.0) (slice_get (value_parts self.now) k) ≡ Some (role_of (option_copied result)) }
    {
        match self {
            ComponentDefinedType::Record(fields) => Some(&fields[k].0),
            ComponentDefinedType::Variant(cases) => Some(&cases[k].0),
            _ => None,
        }
    }
}

/// What a value type that is no node is: a primitive, or left out.
pub fn leaf_at(ty: Option<ComponentValType>) -> Option<PrimitiveValType>
    requires { node_id ty ≡ None }
    ensures { option_slot ty ≡ leaf result }
{
    match ty {
        Some(ComponentValType::Primitive(primitive)) => Some(primitive),
        _ => None,
    }
}

/// Whether two value types are the same, or both are left out.
fn same_value(
    types: &TypeAlloc,
    numbers: &mut ShapeNumbers,
    a: Option<ComponentValType>,
    b: Option<ComponentValType>,
) -> Result<bool, OutOfMemory>
    requires a { SlotStands types.now (option_slot a) }
    requires b { SlotStands types.now (option_slot b) }
    requires numbers { Numbered types.now.nodes numbers.old }
    ensures same { IfOk result (λ same. Decides same (Alike (slot_tree (trees types.now.nodes) (option_slot a)) (slot_tree (trees types.now.nodes) (option_slot b)))) }
    ensures numbers { Numbered types.now.nodes numbers.new }
{
    let x = value_number(types, numbers, a)?;
    let y = value_number(types, numbers, b)?;
    Ok(x == y)
}

impl TypeAlloc {
    /// Whether two value types are the same, identities aside. A named primitive is the primitive, and handles
    /// are the same where their resources are. Each node has a number of its shape from the first comparison
    /// on; out of memory it may have none.
    pub fn val_type_eq(
        &mut self,
        a: &ComponentValType,
        b: &ComponentValType,
    ) -> Result<bool, OutOfMemory>
        requires a { SlotStands self.old (value_slot a.now) }
        requires b { SlotStands self.old (value_slot b.now) }
        ensures same { IfOk result (λ same. Decides same (Alike (slot_tree (trees self.old.nodes) (value_slot a.now)) (slot_tree (trees self.old.nodes) (value_slot b.now)))) }
        ensures kept { self.new ≡ self.old }
    {
        self.option_type_eq(Some(*a), Some(*b))
    }

    /// So of value types that may be left out: what is left out is the same as that alone.
    pub fn option_type_eq(
        &mut self,
        a: Option<ComponentValType>,
        b: Option<ComponentValType>,
    ) -> Result<bool, OutOfMemory>
        requires a { SlotStands self.old (option_slot a) }
        requires b { SlotStands self.old (option_slot b) }
        ensures same { IfOk result (λ same. Decides same (Alike (slot_tree (trees self.old.nodes) (option_slot a)) (slot_tree (trees self.old.nodes) (option_slot b)))) }
        ensures kept { self.new ≡ self.old }
    {
        let alloc = self.allocator();
        let mut numbers = self.nodes.take_numbers(alloc);
        let same = same_value(self, &mut numbers, a, b);
        self.nodes.put_numbers(numbers);
        same
    }
}
