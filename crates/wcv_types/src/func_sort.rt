// Function types as nodes of the arena.
ghost use Rattle.std.specs.Prelude.{◌≡◌, ◌≤◌, List, [], length, slice_get, option_to_list, All, IfOk};
ghost use Rattle.wcv_types.specs.Rebuild.{SameSorts, refill};
ghost use Rattle.wcv_types.specs.Standing.{Stands, Fits};
ghost use Rattle.wcv_types.specs.Unfold.{parts_in, parts_of, slots_of, field_slots, option_slot, slot_refs};
ghost use Rattle.wcv_types.specs.declared.arena.Node.TheVariants as n;

use crate::again::fields_again;
use crate::arena::{Node, TypeAlloc};
use crate::func_facts::func_facts;
use crate::ids::{ComponentFuncTypeId, Part};
use crate::info::TypeInfo;
use crate::parts::{Parts, push_fields, push_option};
use crate::refill::Refill;
use crate::shapes::{ComponentFuncType, ComponentValType};
use crate::sorts::{NodeSort, TypeSort};
use wcv_core::{OutOfMemory, Text};

/// The k-th of the fields' types that are nodes.
#[tactic(auto, using(crate::proofs::Slots::next_field, crate::proofs::Slots::no_field))]
fn nth_field_part(fields: &[(Text, ComponentValType)], k: usize) -> Option<Part>
    ensures { result ≡ slice_get (parts_in (field_slots fields.now [])) k }
{
    let mut left = k;
    for field in fields {
        if let ComponentValType::Ty(id) = field.1 {
            if left == 0 {
                return Some(Part::Defined(id));
            }
            left -= 1;
        }
    }
    None
}

/// How many of the fields' types are nodes.
#[tactic(auto, using(crate::proofs::Slots::length_field_parts, crate::proofs::Slots::at_most_fields))]
fn count_field_parts(fields: &[(Text, ComponentValType)]) -> usize
    ensures count { result ≡ length (parts_in (field_slots fields.now [])) }
    ensures bound { result ≤ length fields.now }
{
    fields.iter().filter(|field| field.1.is_node()).count()
}

/// The type as a part, where it is there and is a node.
pub fn option_part(ty: Option<ComponentValType>) -> Option<Part>
    ensures { option_to_list result ≡ slot_refs (option_slot ty) }
{
    match ty {
        None => None,
        Some(ComponentValType::Primitive(_)) => None,
        Some(ComponentValType::Ty(id)) => Some(Part::Defined(id)),
    }
}

/// The function type of the same form with other parts.
#[tactic(auto, using(crate::proofs::Rebuilding::params_fill, crate::proofs::Rebuilding::result_fills, crate::proofs::Rebuilding::func_refilled))]
fn func_again(
    types: &TypeAlloc,
    shape: &ComponentFuncType,
    parts: &Parts,
) -> Result<ComponentFuncType, OutOfMemory>
    requires sorts { SameSorts (parts_of (n.Func shape.now)) parts.now }
    requires stand { All (Stands types.now) parts.now }
    ensures fits { IfOk result (λ s. Fits types.now (n.Func s)) }
    ensures slots { IfOk result (λ s. slots_of (n.Func s) ≡ refill (slots_of (n.Func shape.now)) parts.now) }
    ensures mark { IfOk result (λ s. s.async_ ≡ shape.now.async_) }
{
    let mut left = Refill::new(parts);
    let params = fields_again(types.allocator(), &shape.params, &mut left)?;
    let gives = left.option(shape.result);
    Ok(ComponentFuncType::over(types, shape.async_, params, gives))
}

/// The function type that the node is.
fn func_shape(node: &Node) -> &ComponentFuncType
    requires { (s : ComponentFuncType) × (node.now ≡ Node.Func s) }
    ensures { node.now ≡ Node.Func result.now }
{
    match node {
        Node::Func(shape) => shape,
        _ => unreachable!(),
    }
}

impl TypeSort for ComponentFuncTypeId {
    ghost use Rattle.wcv_types.specs.declared.ids.Part.{Part};

    ghost as_part = { λ id. Part.Func id };

    fn part(self) -> Part {
        Part::Func(self)
    }

    fn info(self, types: &TypeAlloc) -> TypeInfo {
        types.nodes.facts(self.index as usize).info
    }

    fn part_count(self, types: &TypeAlloc) -> usize {
        let shape = Self::node(types, self);
        let count = count_field_parts(&shape.params);
        match option_part(shape.result) {
            Some(_) => count + 1,
            None => count,
        }
    }

    fn rebuild(self, types: &mut TypeAlloc, parts: &Parts) -> Result<Self, OutOfMemory> {
        let shape = func_again(types, Self::node(types, self), parts)?;
        let made = Self::store(types, shape)?;
        Ok(made)
    }
}

impl NodeSort for ComponentFuncTypeId {
    ghost use Rattle.wcv_types.specs.declared.arena.Node.{Node};

    type Shape = ComponentFuncType;

    ghost as_node = { λ s. Node.Func s };

    fn node(types: &TypeAlloc, id: Self) -> &ComponentFuncType {
        let k = id.index as usize;
        func_shape(types.nodes.get(k))
    }

    fn part_at(self, types: &TypeAlloc, k: usize) -> Part {
        let shape = Self::node(types, self);
        match nth_field_part(&shape.params, k) {
            Some(part) => part,
            None => match option_part(shape.result) {
                Some(part) => part,
                None => unreachable!(),
            },
        }
    }

    #[tactic(auto, using(crate::proofs::Slots::func_parts_after))]
    fn parts_into(shape: &ComponentFuncType, parts: &mut Parts) -> Result<(), OutOfMemory> {
        push_fields(&shape.params, parts)?;
        push_option(shape.result, parts)
    }

    fn store(types: &mut TypeAlloc, shape: ComponentFuncType) -> Result<Self, OutOfMemory> {
        let facts = func_facts(types, &shape);
        let index = types.add(Node::Func(shape), facts)?;
        Ok(ComponentFuncTypeId { index })
    }
}
