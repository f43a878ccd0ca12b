// Types of core instances as nodes of the arena.
ghost use Rattle.std.specs.Prelude.{◌≡◌, ◌≤◌, All, IfOk};
ghost use Rattle.wcv_types.specs.CoreParts.{exported_items};
ghost use Rattle.wcv_types.specs.Facts.{IsFactsOf};
ghost use Rattle.wcv_types.specs.Measure.{size};
ghost use Rattle.wcv_types.specs.Rebuild.{HeadCounts, SameSorts, refill};
ghost use Rattle.wcv_types.specs.Resources.{mentions_in};
ghost use Rattle.wcv_types.specs.Standing.{Stands, Fits, own_size};
ghost use Rattle.wcv_types.specs.Unfold.{head_of, parts_of, slot_parts, slots_of, tree_at, tree_of, trees};
ghost use Rattle.wcv_types.specs.declared.arena.Node.TheVariants as n;
ghost use Rattle.wcv_types.specs.declared.ids.Part.TheVariants as p;

use crate::arena::{Node, TypeAlloc};
use crate::core_maps::ExportMap;
use crate::core_shapes::{CoreInstanceTypeKind, InstanceType};
use crate::core_sizes::exporting_size;
use crate::entry_facts::node_facts;
use crate::facts::Facts;
use crate::ids::{ComponentCoreInstanceTypeId, ComponentCoreModuleTypeId, Part};
use crate::info::TypeInfo;
use crate::parts::Parts;
use crate::refill::Refill;
use crate::sorts::{NodeSort, TypeSort};
use std::alloc::Global;
use wcv_core::OutOfMemory;

/// The type of a core instance that was made of the module. It counts what the module exports, and no more than the
/// module does.
pub fn core_instance_of(types: &TypeAlloc, id: ComponentCoreModuleTypeId) -> InstanceType
    requires { Stands types.now (p.Module id) }
    ensures fits { Fits types.now (n.CoreInstance result) }
    ensures kind { result.kind ≡ CoreInstanceTypeKind.Instantiated id }
    ensures size { result.info.size ≡ own_size types.now.core (exported_items (tree_at types.now (p.Module id))) }
    ensures small { result.info.size ≤ size (tree_at types.now (p.Module id)) }
{
    types.nodes_fit();
    let info = types.nodes.facts(id.index as usize).info;
    InstanceType {
        info: TypeInfo {
            size: exporting_size(types.core_types(), types.get(id)),
            depth: info.depth.saturating_add(1),
        },
        kind: CoreInstanceTypeKind::Instantiated(id),
    }
}

/// The type of a core instance that exports the same.
fn exporting_again(
    alloc: Global,
    info: TypeInfo,
    exports: &ExportMap,
) -> Result<InstanceType, OutOfMemory>
    ensures { IfOk result (λ s. (s.info ≡ info) × (s.kind ≡ CoreInstanceTypeKind.Exports exports.now)) }
{
    let exports = exports.copy(alloc)?;
    let kind = CoreInstanceTypeKind::Exports(exports);
    Ok(InstanceType { info, kind })
}

/// The type of a core instance of the same form with other parts.
fn instance_again(
    types: &TypeAlloc,
    shape: &InstanceType,
    parts: &Parts,
) -> Result<InstanceType, OutOfMemory>
    requires fits { Fits types.now (n.CoreInstance shape.now) }
    requires sorts { SameSorts (parts_of (n.CoreInstance shape.now)) parts.now }
    requires stand { All (Stands types.now) parts.now }
    requires counts { HeadCounts types.now.core (head_of 0 (n.CoreInstance shape.now)) (slot_parts (trees types.now.nodes) (refill (slots_of (n.CoreInstance shape.now)) parts.now)) }
    ensures fits { IfOk result (λ s. Fits types.now (n.CoreInstance s)) }
    ensures slots { IfOk result (λ s. slots_of (n.CoreInstance s) ≡ refill (slots_of (n.CoreInstance shape.now)) parts.now) }
    ensures size { IfOk result (λ s. s.info.size ≡ shape.now.info.size) }
{
    match &shape.kind {
        CoreInstanceTypeKind::Instantiated(module) => {
            let mut left = Refill::new(parts);
            Ok(core_instance_of(types, left.module(*module)))
        }
        CoreInstanceTypeKind::Exports(exports) => {
            exporting_again(types.allocator(), shape.info, exports)
        }
    }
}

/// Whether a reference to a resource stands in it.
fn refers(types: &TypeAlloc, shape: &InstanceType) -> bool
    requires { All (Stands types.now) (parts_of (n.CoreInstance shape.now)) }
    ensures { result ≡ mentions_in (slot_parts (trees types.now.nodes) (slots_of (n.CoreInstance shape.now))) }
{
    match &shape.kind {
        CoreInstanceTypeKind::Instantiated(module) => types.refers(module.index),
        CoreInstanceTypeKind::Exports(_) => false,
    }
}

/// What is known of a type of a core instance that may be added to the arena.
fn core_instance_facts(types: &TypeAlloc, shape: &InstanceType) -> Facts
    requires { Fits types.now (n.CoreInstance shape.now) }
    ensures { IsFactsOf result (tree_of (trees types.now.nodes) (n.CoreInstance shape.now)) }
{
    node_facts(shape.info, refers(types, shape))
}

/// The type of a core instance that the node is.
fn core_instance_shape(node: &Node) -> &InstanceType
    requires { (s : InstanceType) × (node.now ≡ Node.CoreInstance s) }
    ensures { node.now ≡ Node.CoreInstance result.now }
{
    match node {
        Node::CoreInstance(shape) => shape,
        _ => unreachable!(),
    }
}

impl TypeSort for ComponentCoreInstanceTypeId {
    ghost use Rattle.wcv_types.specs.declared.ids.Part.{Part};

    ghost as_part = { λ id. Part.CoreInstance id };

    fn part(self) -> Part {
        Part::CoreInstance(self)
    }

    fn info(self, types: &TypeAlloc) -> TypeInfo {
        types.nodes.facts(self.index as usize).info
    }

    fn part_count(self, types: &TypeAlloc) -> usize {
        match Self::node(types, self).kind {
            CoreInstanceTypeKind::Instantiated(_) => 1,
            CoreInstanceTypeKind::Exports(_) => 0,
        }
    }

    fn rebuild(self, types: &mut TypeAlloc, parts: &Parts) -> Result<Self, OutOfMemory> {
        types.nodes_fit();
        let shape = instance_again(types, Self::node(types, self), parts)?;
        let made = Self::store(types, shape)?;
        Ok(made)
    }
}

impl NodeSort for ComponentCoreInstanceTypeId {
    ghost use Rattle.wcv_types.specs.declared.arena.Node.{Node};

    type Shape = InstanceType;

    ghost as_node = { λ s. Node.CoreInstance s };

    fn node(types: &TypeAlloc, id: Self) -> &InstanceType {
        let k = id.index as usize;
        core_instance_shape(types.nodes.get(k))
    }

    fn part_at(self, types: &TypeAlloc, _k: usize) -> Part {
        match &Self::node(types, self).kind {
            CoreInstanceTypeKind::Instantiated(module) => Part::Module(*module),
            CoreInstanceTypeKind::Exports(_) => unreachable!(),
        }
    }

    fn parts_into(shape: &InstanceType, parts: &mut Parts) -> Result<(), OutOfMemory> {
        match &shape.kind {
            CoreInstanceTypeKind::Instantiated(module) => parts.push(Part::Module(*module)),
            CoreInstanceTypeKind::Exports(_) => Ok(()),
        }
    }

    fn store(types: &mut TypeAlloc, shape: InstanceType) -> Result<Self, OutOfMemory> {
        let facts = core_instance_facts(types, &shape);
        let index = types.add(Node::CoreInstance(shape), facts)?;
        Ok(ComponentCoreInstanceTypeId { index })
    }
}
