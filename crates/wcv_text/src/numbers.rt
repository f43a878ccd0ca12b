// Which nodes and which core groups have a line, and which resources have a number.
ghost use Rattle.std.specs.Prelude.{◌≡◌, ◌-◌, [], ◌∷◌, ◌++◌, eqb, Some, false, length, OnOk, IfOk};
ghost use Rattle.wcv_core.specs.Names.{same};
ghost use Rattle.wcv_types.specs.CoreText.{group_first};
ghost use Rattle.wcv_types.specs.Identity.{same_identity};
ghost use Rattle.wcv_types.specs.Positions.{position_of};
ghost use Rattle.wcv_types.specs.Text.{nothing_written, has_group, has_line, with_resource};
ghost use Rattle.wcv_types.specs.Tree.{Text};
ghost use Rattle.wcv_text.specs.Identity.{known};
ghost use Rattle.wcv_text.specs.Numbers.{name_of, so_far};

use crate::core_place::place;
use crate::identity::Identity;
use crate::numbering::Numbering;
use std::alloc::{AllocError, Global};
use wcv_core::{CoreTypeId, CoreTypes};
use wcv_types::ResourceId;

/// The numbers of lines and of resources, by order of first appearance, over a table of core types.
#[derive(Drop)]
pub struct Numbers<'a> {
    pub core: &'a CoreTypes,
    /// By the ids of their first types.
    pub groups: Numbering<CoreTypeId>,
    pub nodes: Numbering<Identity>,
    pub resources: Numbering<ResourceId>,
}

impl<'a> Numbers<'a> {
    /// No number is given yet.
    pub fn new(alloc: Global, core: &'a CoreTypes) -> Numbers<'a>
        ensures { so_far result [] ≡ nothing_written core.now }
    {
        Numbers {
            core,
            groups: Numbering::new(alloc),
            nodes: Numbering::new(alloc),
            resources: Numbering::new(alloc),
        }
    }

    /// How many lines there are.
    pub fn lines(&self) -> usize
        ensures { result ≡ length (so_far self.now []).nodes }
    {
        self.nodes.len()
    }

    /// Whether the node has a line.
    pub fn has_line(&self, node: Identity) -> bool
        ensures { result ≡ has_line (so_far self.now []) (Some (known node)) }
    {
        self.nodes.has(&node)
    }

    /// The number of the line of the node. One that has none would get that number next.
    pub fn line(&self, node: Identity) -> usize
        ensures { result ≡ position_of same_identity (known node) (so_far self.now []).nodes }
    {
        self.nodes.number(&node)
    }

    /// Gives the next line to a node that has none.
    pub fn add_line(&mut self, node: Identity) -> Result<(), AllocError>
        requires { has_line (so_far self.old []) (Some (known node)) ≡ false }
        ensures { OnOk result ((t : Text) → so_far self.new t ≡ record (so_far self.old t) { nodes = (so_far self.old t).nodes ++ known node ∷ [] }) }
    {
        self.nodes.push(node)
    }

    /// The number of the resource, which gets the next where it has none.
    pub fn resource(&mut self, resource: ResourceId) -> Result<usize, AllocError>
        ensures given { OnOk result ((t : Text) → so_far self.new t ≡ with_resource (so_far self.old t) (name_of resource)) }
        ensures number { IfOk result (λ n. n ≡ position_of same (name_of resource) (so_far self.new []).resources) }
    {
        if !self.resources.has(&resource) {
            self.resources.push(resource)?;
        }
        Ok(self.resources.number(&resource))
    }

    /// The number of the resource. One that has none would get that number next.
    pub fn resource_number(&self, resource: ResourceId) -> usize
        ensures { result ≡ position_of same (name_of resource) (so_far self.now []).resources }
    {
        self.resources.number(&resource)
    }

    /// The first type of the group that a core type stands in.
    fn first(&self, id: CoreTypeId) -> CoreTypeId
        ensures { result.index ≡ group_first (so_far self.now []).core id.index }
    {
        place(self.core, id).0
    }

    /// How many groups have a line.
    pub fn group_lines(&self) -> usize
        ensures { result ≡ length (so_far self.now []).groups }
    {
        self.groups.len()
    }

    /// Whether the group of the core type has a line.
    pub fn has_group(&self, id: CoreTypeId) -> bool
        ensures { result ≡ has_group (so_far self.now []) id.index }
    {
        self.groups.has(&self.first(id))
    }

    /// The number of the line of the core type's group, and its place there. A group that has none would get that number next.
    pub fn group(&self, id: CoreTypeId) -> (usize, u64)
        ensures number { result.0 ≡ position_of eqb (group_first (so_far self.now []).core id.index) (so_far self.now []).groups }
        ensures place { result.1 ≡ id.index - group_first (so_far self.now []).core id.index }
    {
        let first = self.first(id);
        (
            self.groups.number(&first),
            id.index.saturating_sub(first.index),
        )
    }

    /// Gives the next line of a group to that of the core type. It has none.
    pub fn add_group(&mut self, id: CoreTypeId) -> Result<(), AllocError>
        requires { has_group (so_far self.old []) id.index ≡ false }
        ensures core { self.new.core ≡ self.old.core }
        ensures line { OnOk result ((t : Text) → so_far self.new t ≡ record (so_far self.old t) { groups = (so_far self.old t).groups ++ group_first (so_far self.old t).core id.index ∷ [] }) }
    {
        let first = self.first(id);
        self.groups.push(first)
    }
}
