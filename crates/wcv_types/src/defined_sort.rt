// Defined value types as nodes of the arena.
ghost use Rattle.std.specs.Prelude.{◌≡◌, ◌≤◌, ◌++◌, length, slice_get, option_to_list, OnOk};
ghost use Rattle.wcv_types.specs.Unfold.{handle_parts, option_slot, value_parts, value_slots, slot_refs, parts_in};

use crate::again::defined_again;
use crate::arena::{Node, TypeAlloc};
use crate::defined_facts::defined_facts;
use crate::func_sort::option_part;
use crate::ids::{ComponentDefinedTypeId, Part};
use crate::info::TypeInfo;
use crate::parts::{Parts, push_option};
use crate::refill::Refill;
use crate::shapes::{ComponentDefinedType, ComponentValType};
use crate::sorts::{NodeSort, TypeSort};
use wcv_core::OutOfMemory;

/// The reference to a resource that a handle is made of.
fn handle_part(shape: &ComponentDefinedType) -> Option<Part>
    ensures { option_to_list result ≡ handle_parts shape.now }
{
    match shape {
        ComponentDefinedType::Own(id) | ComponentDefinedType::Borrow(id) => {
            Some(Part::Resource(*id))
        }
        _ => None,
    }
}

/// Whether the value type is a node, as a number.
fn count_node(ty: Option<ComponentValType>) -> usize
    ensures count { result ≡ length (slot_refs (option_slot ty)) }
    ensures bound { result ≤ 1 }
{
    match ty {
        Some(ComponentValType::Ty(_)) => 1,
        _ => 0,
    }
}

/// How many of the value types that it is made of are nodes.
#[tactic(auto, using(crate::proofs::Knowing::count_value, crate::proofs::Knowing::all_values))]
fn count_nodes(shape: &ComponentDefinedType) -> usize
    ensures { result ≡ length (parts_in (value_slots (value_parts shape.now))) }
{
    let mut count = 0;
    for k in 0..shape.value_count() {
        count += count_node(shape.value_at(k));
    }
    count
}

/// The k-th of them.
#[tactic(auto, using(crate::proofs::Knowing::next_part, crate::proofs::Knowing::no_value))]
fn nth_node(shape: &ComponentDefinedType, k: usize) -> Option<Part>
    ensures { result ≡ slice_get (parts_in (value_slots (value_parts shape.now))) k }
{
    let mut left = k;
    for at in 0..shape.value_count() {
        if let Some(part) = option_part(shape.value_at(at)) {
            if left == 0 {
                return Some(part);
            }
            left -= 1;
        }
    }
    None
}

/// The reference of a handle joins the parts.
fn push_handle(shape: &ComponentDefinedType, parts: &mut Parts) -> Result<(), OutOfMemory>
    ensures { OnOk result (parts.new ≡ parts.old ++ handle_parts shape.now) }
{
    match handle_part(shape) {
        Some(part) => parts.push(part),
        None => Ok(()),
    }
}

/// So do the nodes among the value types that it is made of.
#[tactic(auto, using(crate::proofs::Knowing::value_pushed, crate::proofs::Knowing::no_value))]
fn push_values(shape: &ComponentDefinedType, parts: &mut Parts) -> Result<(), OutOfMemory>
    ensures { OnOk result (parts.new ≡ parts.old ++ parts_in (value_slots (value_parts shape.now))) }
{
    for k in 0..shape.value_count() {
        push_option(shape.value_at(k), parts)?;
    }
    Ok(())
}

/// The defined type that the node is.
fn defined_shape(node: &Node) -> &ComponentDefinedType
    requires { (s : ComponentDefinedType) × (node.now ≡ Node.Defined s) }
    ensures { node.now ≡ Node.Defined result.now }
{
    match node {
        Node::Defined(shape) => shape,
        _ => unreachable!(),
    }
}

impl TypeSort for ComponentDefinedTypeId {
    ghost use Rattle.wcv_types.specs.declared.ids.Part.{Part};

    ghost as_part = { λ id. Part.Defined id };

    fn part(self) -> Part {
        Part::Defined(self)
    }

    fn info(self, types: &TypeAlloc) -> TypeInfo {
        types.nodes.facts(self.index as usize).info
    }

    fn part_count(self, types: &TypeAlloc) -> usize {
        let shape = Self::node(types, self);
        match handle_part(shape) {
            Some(_) => 1,
            None => count_nodes(shape),
        }
    }

    fn rebuild(self, types: &mut TypeAlloc, parts: &Parts) -> Result<Self, OutOfMemory> {
        let mut left = Refill::new(parts);
        let shape = defined_again(types.allocator(), Self::node(types, self), &mut left)?;
        let made = Self::store(types, shape)?;
        Ok(made)
    }
}

impl NodeSort for ComponentDefinedTypeId {
    ghost use Rattle.wcv_types.specs.declared.arena.Node.{Node};

    type Shape = ComponentDefinedType;

    ghost as_node = { λ s. Node.Defined s };

    fn node(types: &TypeAlloc, id: Self) -> &ComponentDefinedType {
        let k = id.index as usize;
        defined_shape(types.nodes.get(k))
    }

    fn part_at(self, types: &TypeAlloc, k: usize) -> Part {
        let shape = Self::node(types, self);
        match handle_part(shape) {
            Some(part) => part,
            None => match nth_node(shape, k) {
                Some(part) => part,
                None => unreachable!(),
            },
        }
    }

    #[tactic(auto, using(crate::proofs::Rebuilding::defined_parts_after))]
    fn parts_into(shape: &ComponentDefinedType, parts: &mut Parts) -> Result<(), OutOfMemory> {
        push_handle(shape, parts)?;
        push_values(shape, parts)
    }

    fn store(types: &mut TypeAlloc, shape: ComponentDefinedType) -> Result<Self, OutOfMemory> {
        let facts = defined_facts(types, &shape);
        let index = types.add(Node::Defined(shape), facts)?;
        Ok(ComponentDefinedTypeId { index })
    }
}
