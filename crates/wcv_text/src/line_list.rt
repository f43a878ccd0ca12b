// Which lines a type has, in order.
ghost use Rattle.std.specs.Prelude.{◌≡◌, ◌<◌, length, slice_get, Some, All, OnOk, IfOk};
ghost use Rattle.wcv_types.specs.Arena.{Arena};
ghost use Rattle.wcv_types.specs.Entities.{entity_tree, EntityStands, EntryStands};
ghost use Rattle.wcv_types.specs.ComponentTrees.{ComponentStands};
ghost use Rattle.wcv_types.specs.Standing.{HasIdentity, Stands, Unfolds};
ghost use Rattle.wcv_types.specs.Text.{write};
ghost use Rattle.wcv_types.specs.Unfold.{parts_at, parts_of, rank, tree_at, trees};
ghost use Rattle.wcv_types.specs.declared.component_type.ComponentType.{ComponentType as AnyType};
ghost use Rattle.wcv_text.specs.Entries.{write_list, write_lines, write_path_list};
ghost use Rattle.wcv_text.specs.LineList.{Adds, entries_of, entry_word, path_word, paths_of};
ghost use Rattle.wcv_text.specs.Nodes.{NoneFrom};
ghost use Rattle.wcv_text.specs.declared.numbers.Numbers.{Numbers as AnyNumbers};

use crate::identity::{self, as_part};
use crate::numbers::Numbers;
use std::alloc::{AllocError, Global};
use wcv_types::{
    ComponentCoreInstanceTypeId, ComponentCoreModuleTypeId, ComponentDefinedTypeId,
    ComponentEntityType, ComponentFuncTypeId, ComponentInstanceTypeId, ComponentType,
    ComponentTypeId, ComponentValType, ItemMap, NodeSort, Part, Parts, Paths, TypeAlloc,
};

/// A line of a type, by what it is about.
#[derive(Clone, Copy)]
pub enum Line {
    /// A node, or a reference to a resource.
    Node(Part),
    /// The export, or the import where it is none, at that position.
    Entry(bool, usize),
    /// The path of the defined resource, or of the imported one where it is none, at that position.
    Path(bool, usize),
}

/// The parts of a node.
fn parts_in<S: NodeSort>(alloc: Global, shape: &S::Shape) -> Result<Parts, AllocError>
    ensures { IfOk result (λ ps. ps ≡ parts_of (S.as_node shape.now)) }
{
    let mut parts = Parts::new(alloc);
    match S::parts_into(shape, &mut parts) {
        Ok(()) => Ok(parts),
        Err(_) => Err(AllocError),
    }
}

/// The parts of the type, which stand before it.
fn parts(types: &TypeAlloc, part: Part) -> Result<Parts, AllocError>
    requires stands { Stands types.now part }
    requires line { HasIdentity part }
    ensures parts { IfOk result (λ ps. ps ≡ parts_at types.now part) }
    ensures unfolds { Unfolds types.now part }
{
    let alloc = types.allocator();
    match part {
        Part::Defined(id) => parts_in::<ComponentDefinedTypeId>(alloc, types.get(id)),
        Part::Func(id) => parts_in::<ComponentFuncTypeId>(alloc, types.get(id)),
        Part::Instance(id) => parts_in::<ComponentInstanceTypeId>(alloc, types.get(id)),
        Part::Component(id) => parts_in::<ComponentTypeId>(alloc, types.get(id)),
        Part::Module(id) => parts_in::<ComponentCoreModuleTypeId>(alloc, types.get(id)),
        Part::CoreInstance(id) => parts_in::<ComponentCoreInstanceTypeId>(alloc, types.get(id)),
        Part::Resource(_) => Ok(Parts::new(alloc)),
        Part::Core(_) => unreachable!(),
    }
}

/// The part at that position.
fn part_at(parts: &Parts, k: usize) -> Part
    requires { k < length parts.now }
    ensures { slice_get parts.now k ≡ Some result }
{
    parts.as_slice()[k]
}

/// Lists the lines of the type and of what it is made of, where there are none yet, parts before the whole.
fn list_node(
    lines: &mut Vec<Line>,
    seen: &mut Numbers<'_>,
    types: &TypeAlloc,
    part: Part,
) -> Result<(), AllocError>
    requires stands { Stands types.now part }
    requires line { HasIdentity part }
    ensures lists { OnOk result ((ty : AnyType) → Adds types.now ty seen.old lines.old.items seen.new lines.new.items (λ w. write w (tree_at types.now part))) }
    ensures older { OnOk result (NoneFrom (rank part) seen.old seen.new) }
{
    if seen.has_line(identity::identity_of(part)) {
        return Ok(());
    }
    let inner = parts(types, part)?;
    for k in 0..inner.len() {
        list_node(lines, seen, types, part_at(&inner, k))?;
    }
    lines.push(Line::Node(part))?;
    seen.add_line(identity::identity_of(part))
}

/// So for the nodes that an entity mentions.
fn list_entity(
    lines: &mut Vec<Line>,
    seen: &mut Numbers<'_>,
    types: &TypeAlloc,
    ty: ComponentEntityType,
) -> Result<(), AllocError>
    requires { EntityStands types.now ty }
    ensures { OnOk result ((whole : AnyType) → Adds types.now whole seen.old lines.old.items seen.new lines.new.items (λ w. write w (entity_tree (trees types.now.nodes) ty))) }
{
    match ty {
        ComponentEntityType::Module(id) => list_node(lines, seen, types, Part::Module(id)),
        ComponentEntityType::Func(id) => list_node(lines, seen, types, Part::Func(id)),
        ComponentEntityType::Value(ComponentValType::Primitive(_)) => Ok(()),
        ComponentEntityType::Value(ComponentValType::Ty(id)) => {
            list_node(lines, seen, types, Part::Defined(id))
        }
        ComponentEntityType::Ty {
            created,
            referenced,
        } => {
            list_node(lines, seen, types, as_part(created))?;
            list_node(lines, seen, types, as_part(referenced))
        }
        ComponentEntityType::Instance(id) => list_node(lines, seen, types, Part::Instance(id)),
        ComponentEntityType::Component(id) => list_node(lines, seen, types, Part::Component(id)),
    }
}

/// The imports or the exports.
pub fn entries_in(ty: &ComponentType, exported: bool) -> &ItemMap
    ensures { result.now ≡ entries_of ty.now exported }
{
    if exported { &ty.exports } else { &ty.imports }
}

/// The imported or the defined resources.
pub fn paths_in(ty: &ComponentType, defined: bool) -> &Paths
    ensures { result.now ≡ paths_of ty.now defined }
{
    if defined {
        &ty.defined_resources
    } else {
        &ty.imported_resources
    }
}

/// Lists the lines of the imports or the exports, each behind those of the nodes that it mentions.
fn list_entries(
    lines: &mut Vec<Line>,
    seen: &mut Numbers<'_>,
    types: &TypeAlloc,
    ty: &ComponentType,
    exported: bool,
) -> Result<(), AllocError>
    requires { All (EntryStands types.now) (entries_of ty.now exported) }
    ensures { OnOk result (Adds types.now ty.now seen.old lines.old.items seen.new lines.new.items (write_list (entry_word exported) (trees types.now.nodes) (entries_of ty.now exported))) }
{
    let list = entries_in(ty, exported);
    for k in 0..list.len() {
        match list.get_index(k) {
            Some(entry) => {
                list_entity(lines, seen, types, entry.1.ty)?;
                lines.push(Line::Entry(exported, k))?;
            }
            None => unreachable!(),
        }
    }
    Ok(())
}

/// Lists the lines of the imported or the defined resources.
fn list_paths(lines: &mut Vec<Line>, ty: &ComponentType, defined: bool) -> Result<(), AllocError>
    ensures { OnOk result ((a : Arena) (seen : AnyNumbers) → Adds a ty.now seen lines.old.items seen lines.new.items (write_path_list (path_word defined) (paths_of ty.now defined))) }
{
    for k in 0..paths_in(ty, defined).len() {
        lines.push(Line::Path(defined, k))?;
    }
    Ok(())
}

/// Lists the lines of a component type.
pub fn list_lines(
    lines: &mut Vec<Line>,
    seen: &mut Numbers<'_>,
    types: &TypeAlloc,
    ty: &ComponentType,
) -> Result<(), AllocError>
    requires { ComponentStands types.now ty.now }
    ensures { OnOk result (Adds types.now ty.now seen.old lines.old.items seen.new lines.new.items (write_lines types.now ty.now)) }
{
    list_entries(lines, seen, types, ty, false)?;
    list_entries(lines, seen, types, ty, true)?;
    list_paths(lines, ty, false)?;
    list_paths(lines, ty, true)
}
