// Types of core modules as nodes of the arena. The core types that they name are no parts.
ghost use Rattle.std.specs.Prelude.{◌≡◌, All, IfOk};
ghost use Rattle.wcv_types.specs.Facts.{IsFactsOf};
ghost use Rattle.wcv_types.specs.Standing.{Fits};
ghost use Rattle.wcv_types.specs.Unfold.{tree_of, trees};
ghost use Rattle.wcv_types.specs.declared.arena.Node.TheVariants as n;

use crate::arena::{Node, TypeAlloc};
use crate::core_shapes::ModuleType;
use crate::entry_facts::node_facts;
use crate::facts::Facts;
use crate::ids::{ComponentCoreModuleTypeId, Part};
use crate::info::TypeInfo;
use crate::parts::Parts;
use crate::sorts::{NodeSort, TypeSort};
use std::alloc::Global;
use wcv_core::OutOfMemory;

/// An equal type of a core module.
fn module_again(alloc: Global, shape: &ModuleType) -> Result<ModuleType, OutOfMemory>
    ensures info { IfOk result (λ s. s.info ≡ shape.now.info) }
    ensures imports { IfOk result (λ s. s.imports ≡ shape.now.imports) }
    ensures exports { IfOk result (λ s. s.exports ≡ shape.now.exports) }
    ensures types { IfOk result (λ s. s.types.items ≡ shape.now.types.items) }
{
    let types = Vec::from_slice(alloc, &shape.types)?;
    let exports = shape.exports.copy(alloc)?;
    Ok(ModuleType {
        info: shape.info,
        imports: shape.imports.copy(alloc)?,
        exports,
        types,
    })
}

/// What is known of a type of a core module that may be added to the arena.
fn module_facts(types: &TypeAlloc, shape: &ModuleType) -> Facts
    requires { Fits types.now (n.Module shape.now) }
    ensures { IsFactsOf result (tree_of (trees types.now.nodes) (n.Module shape.now)) }
{
    let _ = types;
    node_facts(shape.info, false)
}

/// The type of a core module that the node is.
fn module_shape(node: &Node) -> &ModuleType
    requires { (s : ModuleType) × (node.now ≡ Node.Module s) }
    ensures { node.now ≡ Node.Module result.now }
{
    match node {
        Node::Module(shape) => shape,
        _ => unreachable!(),
    }
}

impl TypeSort for ComponentCoreModuleTypeId {
    ghost use Rattle.wcv_types.specs.declared.ids.Part.{Part};

    ghost as_part = { λ id. Part.Module id };

    fn part(self) -> Part {
        Part::Module(self)
    }

    fn info(self, types: &TypeAlloc) -> TypeInfo {
        types.nodes.facts(self.index as usize).info
    }

    fn part_count(self, _types: &TypeAlloc) -> usize {
        0
    }

    fn rebuild(self, types: &mut TypeAlloc, _parts: &Parts) -> Result<Self, OutOfMemory> {
        types.nodes_fit();
        let shape = module_again(types.allocator(), Self::node(types, self))?;
        let made = Self::store(types, shape)?;
        Ok(made)
    }
}

impl NodeSort for ComponentCoreModuleTypeId {
    ghost use Rattle.wcv_types.specs.declared.arena.Node.{Node};

    type Shape = ModuleType;

    ghost as_node = { λ s. Node.Module s };

    fn node(types: &TypeAlloc, id: Self) -> &ModuleType {
        let k = id.index as usize;
        module_shape(types.nodes.get(k))
    }

    fn part_at(self, _types: &TypeAlloc, _k: usize) -> Part {
        unreachable!()
    }

    fn parts_into(_shape: &ModuleType, _parts: &mut Parts) -> Result<(), OutOfMemory> {
        Ok(())
    }

    fn store(types: &mut TypeAlloc, shape: ModuleType) -> Result<Self, OutOfMemory> {
        let facts = module_facts(types, &shape);
        let index = types.add(Node::Module(shape), facts)?;
        Ok(ComponentCoreModuleTypeId { index })
    }
}
