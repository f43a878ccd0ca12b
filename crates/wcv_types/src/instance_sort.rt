// Instance types as nodes of the arena.
ghost use Rattle.std.specs.Prelude.{◌≡◌, All, IfOk};
ghost use Rattle.wcv_types.specs.ByName.{NamesDiffer};
ghost use Rattle.wcv_types.specs.Facts.{IsFactsOf};
ghost use Rattle.wcv_types.specs.Led.{HasPath};
ghost use Rattle.wcv_types.specs.Rebuild.{SameSorts, refill};
ghost use Rattle.wcv_types.specs.Standing.{Stands, GaveResource, Fits};
ghost use Rattle.wcv_types.specs.Tree.{export, exports_in};
ghost use Rattle.wcv_types.specs.Unfold.{entry_slots, parts_in, parts_of, resource_names, slot_parts, slots_of, tree_of, trees};
ghost use Rattle.wcv_types.specs.declared.arena.Node.TheVariants as n;

use crate::arena::{Node, TypeAlloc};
use crate::entries_again::entries_again;
use crate::entry_facts::{Total, entries_total, node_facts};
use crate::entry_parts::{count_entries, nth_entry_part, push_entries};
use crate::facts::Facts;
use crate::ids::{ComponentInstanceTypeId, Part};
use crate::info::TypeInfo;
use crate::instance_type::ComponentInstanceType;
use crate::item_map::ItemMap;
use crate::parts::Parts;
use crate::refill::Refill;
use crate::resource_set::ResourceSet;
use crate::sorts::{NodeSort, TypeSort};
use wcv_core::OutOfMemory;

impl ComponentInstanceType {
    /// The instance type with these exports, with its size and its depth.
    pub fn over(
        types: &TypeAlloc,
        defined_resources: ResourceSet,
        exports: ItemMap,
    ) -> ComponentInstanceType
        requires stand { All (Stands types.now) (parts_in (entry_slots export exports)) }
        requires owned { All (GaveResource types.now) (resource_names defined_resources) }
        requires led { All (HasPath (exports_in (slot_parts (trees types.now.nodes) (entry_slots export exports)))) (resource_names defined_resources) }
        requires apart { NamesDiffer exports }
        ensures fits { Fits types.now (n.Instance result) }
        ensures resources { result.defined_resources ≡ defined_resources }
        ensures exports { result.exports ≡ exports }
    {
        let total = entries_total(types, Total::new(), exports.as_slice());
        ComponentInstanceType {
            info: total.info(),
            defined_resources,
            exports,
        }
    }
}

/// The instance type of the same form with other parts.
fn instance_again(
    types: &TypeAlloc,
    shape: &ComponentInstanceType,
    parts: &Parts,
) -> Result<ComponentInstanceType, OutOfMemory>
    requires sorts { SameSorts (parts_of (n.Instance shape.now)) parts.now }
    requires stand { All (Stands types.now) parts.now }
    requires owned { All (GaveResource types.now) (resource_names shape.now.defined_resources) }
    requires led { All (HasPath (exports_in (slot_parts (trees types.now.nodes) (refill (slots_of (n.Instance shape.now)) parts.now)))) (resource_names shape.now.defined_resources) }
    requires apart { NamesDiffer shape.now.exports }
    ensures fits { IfOk result (λ s. Fits types.now (n.Instance s)) }
    ensures slots { IfOk result (λ s. slots_of (n.Instance s) ≡ refill (slots_of (n.Instance shape.now)) parts.now) }
    ensures resources { IfOk result (λ s. s.defined_resources ≡ shape.now.defined_resources) }
{
    let alloc = types.allocator();
    let resources = shape.defined_resources.copy(alloc)?;
    let mut left = Refill::new(parts);
    let exports = entries_again(alloc, shape.exports.as_slice(), &mut left)?;
    Ok(ComponentInstanceType::over(types, resources, exports))
}

/// What is known of an instance type that may be added to the arena.
fn instance_facts(types: &TypeAlloc, shape: &ComponentInstanceType) -> Facts
    requires { Fits types.now (n.Instance shape.now) }
    ensures { IsFactsOf result (tree_of (trees types.now.nodes) (n.Instance shape.now)) }
{
    let total = entries_total(types, Total::new(), shape.exports.as_slice());
    node_facts(shape.info, total.refers)
}

/// The instance type that the node is.
fn instance_shape(node: &Node) -> &ComponentInstanceType
    requires { (s : ComponentInstanceType) × (node.now ≡ Node.Instance s) }
    ensures { node.now ≡ Node.Instance result.now }
{
    match node {
        Node::Instance(shape) => shape,
        _ => unreachable!(),
    }
}

impl TypeSort for ComponentInstanceTypeId {
    ghost use Rattle.wcv_types.specs.declared.ids.Part.{Part};

    ghost as_part = { λ id. Part.Instance id };

    fn part(self) -> Part {
        Part::Instance(self)
    }

    fn info(self, types: &TypeAlloc) -> TypeInfo {
        types.nodes.facts(self.index as usize).info
    }

    fn part_count(self, types: &TypeAlloc) -> usize {
        count_entries(Self::node(types, self).exports.as_slice())
    }

    fn rebuild(self, types: &mut TypeAlloc, parts: &Parts) -> Result<Self, OutOfMemory> {
        types.names_given();
        types.nodes_fit();
        let shape = instance_again(types, Self::node(types, self), parts)?;
        let made = Self::store(types, shape)?;
        Ok(made)
    }
}

impl NodeSort for ComponentInstanceTypeId {
    ghost use Rattle.wcv_types.specs.declared.arena.Node.{Node};

    type Shape = ComponentInstanceType;

    ghost as_node = { λ s. Node.Instance s };

    fn node(types: &TypeAlloc, id: Self) -> &ComponentInstanceType {
        let k = id.index as usize;
        instance_shape(types.nodes.get(k))
    }

    fn part_at(self, types: &TypeAlloc, k: usize) -> Part {
        match nth_entry_part(Self::node(types, self).exports.as_slice(), k) {
            Some(part) => part,
            None => unreachable!(),
        }
    }

    fn parts_into(shape: &ComponentInstanceType, parts: &mut Parts) -> Result<(), OutOfMemory> {
        push_entries(shape.exports.as_slice(), parts)
    }

    fn store(types: &mut TypeAlloc, shape: ComponentInstanceType) -> Result<Self, OutOfMemory> {
        let facts = instance_facts(types, &shape);
        let index = types.add(Node::Instance(shape), facts)?;
        Ok(ComponentInstanceTypeId { index })
    }
}
