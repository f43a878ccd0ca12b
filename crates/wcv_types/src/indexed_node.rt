// Nodes with the places of the names that they export.
ghost use Rattle.std.specs.Prelude.{◌≡◌, option_copied, bytes_eq, IfOk, IfSome};
ghost use Rattle.std.specs.Map.{lookup};
ghost use Rattle.wcv_types.specs.ByName.{AreFirsts, texts_in};
ghost use Rattle.wcv_types.specs.Exported.{items_of, core_exports_of, names_of};

use crate::arena::Node;
use crate::by_name::{Firsts, MAX_WALKED, firsts_of, look_up};
use crate::core_shapes::CoreInstanceTypeKind;
use crate::item_map::ComponentItem;
use std::alloc::Global;
use std::marker::Model;
use std::rc::Rc;
use wcv_core::{EntityType, OutOfMemory, Text};

/// The places of the names, where they are many.
fn firsts_of_many<V>(
    alloc: Global,
    entries: &[(Text, V)],
) -> Result<Option<Rc<Firsts>>, OutOfMemory>
    ensures { IfOk result (λ o. IfSome o (λ f. AreFirsts f.value.by_number f.value.by_bytes (texts_in entries.now))) }
{
    if entries.len() <= MAX_WALKED {
        return Ok(None);
    }
    let firsts = Rc::new(alloc, firsts_of(alloc, entries)?)?;
    Ok(Some(firsts))
}

/// The places of the names in the maps of the node, where they are many, stand there.
fn index_maps(node: &mut Node) -> Result<(), OutOfMemory>
    ensures { node.new ≡ node.old }
{
    match node {
        Node::Instance(shape) => shape.exports.index(),
        Node::Component(shape) => {
            shape.imports.index()?;
            shape.exports.index()
        }
        _ => Ok(()),
    }
}

/// The places of the names of core items that the node exports, where they are many.
fn firsts_in(alloc: Global, node: &Node) -> Result<Option<Rc<Firsts>>, OutOfMemory>
    ensures { IfOk result (λ o. IfSome o (λ f. AreFirsts f.value.by_number f.value.by_bytes (names_of node.now))) }
{
    match node {
        Node::Module(shape) => firsts_of_many(alloc, shape.exports.as_slice()),
        Node::CoreInstance(shape) => match &shape.kind {
            CoreInstanceTypeKind::Exports(exports) => firsts_of_many(alloc, exports.as_slice()),
            CoreInstanceTypeKind::Instantiated(_) => Ok(None),
        },
        _ => Ok(None),
    }
}

/// A node and, where it exports many core items, the places of their names. Contracts see it as the node.
///
/// The places stand apart, since most nodes have none. Instance types and component types have theirs in their maps.
#[derive(Drop)]
pub struct IndexedNode {
    node: Node,
    firsts: Option<Rc<Firsts>>,
}

impl Model for IndexedNode {
    ghost use Rattle.std.specs.Prelude.{IfSome};
    ghost use Rattle.wcv_types.specs.ByName.{AreFirsts};
    ghost use Rattle.wcv_types.specs.Exported.{names_of};
    ghost use Rattle.wcv_types.specs.declared.arena.Node.{Node};

    ghost Value = { Node };

    ghost view = { λ x. x.node };

    ghost invariant = { λ x. IfSome x.firsts (λ f. AreFirsts f.value.by_number f.value.by_bytes (names_of x.node)) };
}

impl IndexedNode {
    /// The node with the places of its names.
    pub fn new(alloc: Global, mut node: Node) -> Result<IndexedNode, OutOfMemory>
        ensures { IfOk result (λ x. x ≡ node) }
    {
        index_maps(&mut node)?;
        let firsts = firsts_in(alloc, &node)?;
        Ok(IndexedNode { node, firsts })
    }

    /// The node.
    pub fn node(&self) -> &Node
        ensures { result.now ≡ self.now }
    {
        &self.node
    }

    /// What an instance type exports under the name.
    pub fn export(&self, name: &Text) -> Option<&ComponentItem>
        ensures { option_copied result ≡ lookup (bytes_eq name.now) (items_of self.now) }
    {
        match &self.node {
            Node::Instance(shape) => shape.exports.get(name),
            _ => None,
        }
    }

    /// What a core module exports under the name, or what a core instance lists under it.
    pub fn core_export(&self, name: &Text) -> Option<&EntityType>
        ensures { option_copied result ≡ lookup (bytes_eq name.now) (core_exports_of self.now) }
    {
        match &self.node {
            Node::Module(shape) => look_up(&self.firsts, shape.exports.as_slice(), name),
            Node::CoreInstance(shape) => match &shape.kind {
                CoreInstanceTypeKind::Exports(exports) => {
                    look_up(&self.firsts, exports.as_slice(), name)
                }
                CoreInstanceTypeKind::Instantiated(_) => None,
            },
            _ => None,
        }
    }
}
