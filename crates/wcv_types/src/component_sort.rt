// Component types as nodes of the arena.
ghost use Rattle.std.specs.Prelude.{◌≡◌, ◌++◌, map, All, IfOk};
ghost use Rattle.std.specs.Map.{keys_of};
ghost use Rattle.wcv_core.specs.Names.{number};
ghost use Rattle.wcv_types.specs.ByName.{NamesDiffer};
ghost use Rattle.wcv_types.specs.EntrySums.{IsTotalOfParts};
ghost use Rattle.wcv_types.specs.Facts.{IsFactsOf};
ghost use Rattle.wcv_types.specs.Led.{HeadLed};
ghost use Rattle.wcv_types.specs.Rebuild.{SameSorts, refill};
ghost use Rattle.wcv_types.specs.Resources.{owned_by};
ghost use Rattle.wcv_types.specs.Standing.{Stands, AreNamesApart, GaveResource, Fits};
ghost use Rattle.wcv_types.specs.Tree.{component, export, firsts, import};
ghost use Rattle.wcv_types.specs.Unfold.{entry_slots, head_of, parts_in, parts_of, resource_path, slot_parts, slots_of, tree_of, trees};
ghost use Rattle.wcv_types.specs.declared.arena.Node.TheVariants as n;

use crate::arena::{Node, TypeAlloc};
use crate::component_type::ComponentType;
use crate::entries_again::{copy_paths, entries_again};
use crate::entry_facts::{Total, entries_total, node_facts};
use crate::entry_parts::{count_entries, nth_entry_part, push_entries};
use crate::facts::Facts;
use crate::ids::{ComponentTypeId, Part};
use crate::info::TypeInfo;
use crate::item_map::ItemMap;
use crate::parts::Parts;
use crate::paths::Paths;
use crate::refill::Refill;
use crate::sorts::{NodeSort, TypeSort};
use std::alloc::Global;
use wcv_core::OutOfMemory;

/// What is known of imports and exports, added up.
fn component_total(types: &TypeAlloc, imports: &ItemMap, exports: &ItemMap) -> Total
    requires { All (Stands types.now) (parts_in (entry_slots import imports.now ++ entry_slots export exports.now)) }
    ensures { IsTotalOfParts result (slot_parts (trees types.now.nodes) (entry_slots import imports.now ++ entry_slots export exports.now)) }
{
    let total = entries_total(types, Total::new(), imports.as_slice());
    entries_total(types, total, exports.as_slice())
}

impl ComponentType {
    /// The component type with these imports and exports, with its size and its depth.
    pub fn over(
        types: &TypeAlloc,
        imports: ItemMap,
        exports: ItemMap,
        imported_resources: Paths,
        defined_resources: Paths,
    ) -> ComponentType
        requires stand { All (Stands types.now) (parts_in (entry_slots import imports ++ entry_slots export exports)) }
        requires owned { All (GaveResource types.now) (firsts (map resource_path imported_resources) ++ firsts (map resource_path defined_resources)) }
        requires led { HeadLed (component (number 0) (map resource_path imported_resources) (map resource_path defined_resources)) (slot_parts (trees types.now.nodes) (entry_slots import imports ++ entry_slots export exports)) }
        requires apart { NamesDiffer imports × NamesDiffer exports }
        ensures fits { Fits types.now (n.Component result) }
        ensures imported { result.imported_resources ≡ imported_resources }
        ensures defined { result.defined_resources ≡ defined_resources }
        ensures imports { result.imports ≡ imports }
        ensures exports { result.exports ≡ exports }
    {
        ComponentType {
            info: component_total(types, &imports, &exports).info(),
            imports,
            exports,
            imported_resources,
            defined_resources,
        }
    }
}

/// Its imports and its exports with other parts.
fn sides_again(
    alloc: Global,
    shape: &ComponentType,
    parts: &Parts,
) -> Result<(ItemMap, ItemMap), OutOfMemory>
    requires { SameSorts (parts_of (n.Component shape.now)) parts.now }
    ensures slots { IfOk result (λ m. entry_slots import m.0 ++ entry_slots export m.1 ≡ refill (slots_of (n.Component shape.now)) parts.now) }
    ensures names { IfOk result (λ m. (keys_of m.0 ≡ keys_of shape.now.imports) × (keys_of m.1 ≡ keys_of shape.now.exports)) }
{
    let mut left = Refill::new(parts);
    let imports = entries_again(alloc, shape.imports.as_slice(), &mut left)?;
    let exports = entries_again(alloc, shape.exports.as_slice(), &mut left)?;
    Ok((imports, exports))
}

/// The component type of the same form with other parts.
fn component_again(
    types: &TypeAlloc,
    shape: &ComponentType,
    parts: &Parts,
) -> Result<ComponentType, OutOfMemory>
    requires sorts { SameSorts (parts_of (n.Component shape.now)) parts.now }
    requires stand { All (Stands types.now) parts.now }
    requires owned { All (GaveResource types.now) (owned_by (head_of 0 (n.Component shape.now))) }
    requires led { HeadLed (head_of 0 (n.Component shape.now)) (slot_parts (trees types.now.nodes) (refill (slots_of (n.Component shape.now)) parts.now)) }
    requires apart { AreNamesApart (n.Component shape.now) }
    ensures fits { IfOk result (λ s. Fits types.now (n.Component s)) }
    ensures slots { IfOk result (λ s. slots_of (n.Component s) ≡ refill (slots_of (n.Component shape.now)) parts.now) }
    ensures imported { IfOk result (λ s. s.imported_resources ≡ shape.now.imported_resources) }
    ensures defined { IfOk result (λ s. s.defined_resources ≡ shape.now.defined_resources) }
{
    let alloc = types.allocator();
    let imported = copy_paths(alloc, &shape.imported_resources)?;
    let defined = copy_paths(alloc, &shape.defined_resources)?;
    let (imports, exports) = sides_again(alloc, shape, parts)?;
    Ok(ComponentType::over(types, imports, exports, imported, defined))
}

/// What is known of a component type that may be added to the arena.
fn component_facts(types: &TypeAlloc, shape: &ComponentType) -> Facts
    requires { Fits types.now (n.Component shape.now) }
    ensures { IsFactsOf result (tree_of (trees types.now.nodes) (n.Component shape.now)) }
{
    let total = component_total(types, &shape.imports, &shape.exports);
    node_facts(shape.info, total.refers)
}

/// The component type that the node is.
fn component_shape(node: &Node) -> &ComponentType
    requires { (s : ComponentType) × (node.now ≡ Node.Component s) }
    ensures { node.now ≡ Node.Component result.now }
{
    match node {
        Node::Component(shape) => shape,
        _ => unreachable!(),
    }
}

impl TypeSort for ComponentTypeId {
    ghost use Rattle.wcv_types.specs.declared.ids.Part.{Part};

    ghost as_part = { λ id. Part.Component id };

    fn part(self) -> Part {
        Part::Component(self)
    }

    fn info(self, types: &TypeAlloc) -> TypeInfo {
        types.nodes.facts(self.index as usize).info
    }

    fn part_count(self, types: &TypeAlloc) -> usize {
        let shape = Self::node(types, self);
        count_entries(shape.imports.as_slice()) + count_entries(shape.exports.as_slice())
    }

    fn rebuild(self, types: &mut TypeAlloc, parts: &Parts) -> Result<Self, OutOfMemory> {
        types.names_given();
        types.nodes_fit();
        let shape = component_again(types, Self::node(types, self), parts)?;
        let made = Self::store(types, shape)?;
        Ok(made)
    }
}

impl NodeSort for ComponentTypeId {
    ghost use Rattle.wcv_types.specs.declared.arena.Node.{Node};

    type Shape = ComponentType;

    ghost as_node = { λ s. Node.Component s };

    fn node(types: &TypeAlloc, id: Self) -> &ComponentType {
        let k = id.index as usize;
        component_shape(types.nodes.get(k))
    }

    fn part_at(self, types: &TypeAlloc, k: usize) -> Part {
        let shape = Self::node(types, self);
        match nth_entry_part(shape.imports.as_slice(), k) {
            Some(part) => part,
            None => {
                let left = k - count_entries(shape.imports.as_slice());
                match nth_entry_part(shape.exports.as_slice(), left) {
                    Some(part) => part,
                    None => unreachable!(),
                }
            }
        }
    }

    fn parts_into(shape: &ComponentType, parts: &mut Parts) -> Result<(), OutOfMemory> {
        push_entries(shape.imports.as_slice(), parts)?;
        push_entries(shape.exports.as_slice(), parts)
    }

    fn store(types: &mut TypeAlloc, shape: ComponentType) -> Result<Self, OutOfMemory> {
        let facts = component_facts(types, &shape);
        let index = types.add(Node::Component(shape), facts)?;
        Ok(ComponentTypeId { index })
    }
}
