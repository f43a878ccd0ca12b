// The arena of types.
ghost use Rattle.std.specs.Map.{lookup};
ghost use Rattle.std.specs.Prelude.{◌≡◌, ℕ, suc, ◌+◌, ◌<◌, List, [], ◌∷◌, length, slice_get, option_copied, bytes_eq, take, Some, All, OnOk, OnErr, IfOk};
ghost use Rattle.wcv_types.specs.Abi.{IsAbiOf};
ghost use Rattle.wcv_types.specs.Entities.{SlotStands};
ghost use Rattle.wcv_types.specs.Exported.{exports_at, module_exports_at, listed_at};
ghost use Rattle.wcv_types.specs.Facts.{IsFactsOf};
ghost use Rattle.wcv_types.specs.Given.{AllNamesGiven};
ghost use Rattle.wcv_types.specs.Open.{open_flat, listed};
ghost use Rattle.wcv_types.specs.Renewed.{NodeAgain, with_stamp};
ghost use Rattle.wcv_types.specs.Resources.{mentions};
ghost use Rattle.wcv_types.specs.Unfold.{option_slot, place, rank, parts_of, slot_tree, tree_at, tree_in, tree_of, trees, unfolded, value_slot};
ghost use Rattle.wcv_types.specs.Standing.{AllFit, Stands, StandsBefore, Fits, KeepsTrees, with_node};
ghost use Rattle.wcv_types.specs.declared.ids.Part.TheVariants as p;

use crate::abi::AbiInfo;
use crate::component_type::ComponentType;
use crate::core_shapes::{InstanceType, ModuleType};
use crate::defined_facts::value_facts;
use crate::facts::Facts;
use crate::ids::{
    AliasableResourceId, ComponentCoreInstanceTypeId, ComponentCoreModuleTypeId,
    ComponentInstanceTypeId, ResourceId,
};
use crate::indexed_node::IndexedNode;
use crate::instance_type::ComponentInstanceType;
use crate::item_map::ComponentItem;
use crate::lowered_types::LoweredTypes;
use crate::nodes::Nodes;
use crate::shapes::{ComponentDefinedType, ComponentFuncType, ComponentValType};
use crate::sorts::NodeSort;
use std::alloc::Global;
use std::marker::Model;
use wcv_core::{CoreTypes, EntityType, OutOfMemory, Text, WasmFeatures};

/// A node of the arena.
#[derive(Drop)]
pub enum Node {
    Defined(ComponentDefinedType),
    Func(ComponentFuncType),
    Instance(ComponentInstanceType),
    Component(ComponentType),
    Module(ModuleType),
    CoreInstance(InstanceType),
}

/// An arena of types, in which parts stand before the whole. Contracts see it as its nodes, the numbers of
/// resources and of stamps that it gave, and its table of core types.
#[derive(Drop)]
pub struct TypeAlloc {
    pub(crate) nodes: Nodes,
    resources: Vec<ResourceId>,
    stamps: Vec<ResourceId>,
    pub(crate) core: CoreTypes,
    features: WasmFeatures,
    alloc: Global,
}

impl Model for TypeAlloc {
    ghost use Rattle.std.specs.Prelude.{length};
    ghost use Rattle.wcv_types.specs.Arena.{Arena};
    ghost use Rattle.wcv_types.specs.Standing.{AllFit};

    ghost Value = { Arena };

    ghost view = { λ a. record { nodes = a.nodes; resources = length a.resources.items; stamps = length a.stamps.items; core = a.core } };

    ghost invariant = { λ a. AllFit (record { nodes = a.nodes; resources = length a.resources.items; stamps = length a.stamps.items; core = a.core }) };
}

impl TypeAlloc {
    /// An arena with no node.
    pub fn new(alloc: Global, features: WasmFeatures) -> TypeAlloc
        ensures { result ≡ record { nodes = []; resources = 0; stamps = 0; core = [] } }
    {
        TypeAlloc {
            nodes: Nodes::new(alloc),
            resources: Vec::new(alloc),
            stamps: Vec::new(alloc),
            core: CoreTypes::new(alloc),
            features,
            alloc,
        }
    }

    /// The allocator that the arena keeps.
    pub fn allocator(&self) -> Global {
        self.alloc
    }

    /// A resource and a stamp that stood nowhere. Out of memory nothing changes.
    pub fn alloc_resource_id(&mut self) -> Result<AliasableResourceId, OutOfMemory>
        ensures made { OnOk result (self.new ≡ record self.old { resources = self.old.resources + 1; stamps = self.old.stamps + 1 }) }
        ensures last { IfOk result (λ id. id ≡ record { resource = record { index = self.old.resources }; stamp = self.old.stamps }) }
        ensures given { AllNamesGiven self.old }
        ensures err { OnErr result (self.new ≡ self.old) }
    {
        self.names_given();
        let index = self.resources.len() as u64;
        let stamp = self.stamps.len() as u64;
        let resource = ResourceId { index };
        self.resources.push(resource)?;
        if self.stamps.push(resource).is_err() {
            let _ = self.resources.pop();
            return Err(OutOfMemory);
        }
        Ok(AliasableResourceId { resource, stamp })
    }

    /// How many resources were made in the arena. It takes no memory.
    pub fn resources_made(&self) -> u64
        ensures { result ≡ self.now.resources }
    {
        self.resources.len() as u64
    }

    /// The names in the types of the arena are those that it gave. It does nothing.
    pub fn names_given(&self)
        ensures { AllNamesGiven self.now }
    {
        let _ = &self.nodes;
    }

    /// Each node fits those before it, and could be added once more. It does nothing.
    pub fn nodes_fit(&self)
        ensures all { AllFit self.now }
        ensures again { (k : ℕ) (x : Node) → slice_get self.now.nodes k ≡ Some x → Fits self.now x }
    {
        let _ = &self.nodes;
    }

    /// A node that fits, behind all others, and what is known of it. Gives its place.
    pub(crate) fn add(&mut self, node: Node, facts: Facts) -> Result<u64, OutOfMemory>
        requires fits { Fits self.old node }
        requires facts { IsFactsOf facts (tree_of (trees self.old.nodes) node) }
        ensures added { IfOk result (λ _. self.new ≡ with_node self.old node) }
        ensures last { IfOk result (λ place. place ≡ length self.old.nodes) }
        ensures err { OnErr result (self.new ≡ self.old) }
    {
        let node = IndexedNode::new(self.alloc, node)?;
        let place = self.nodes.len();
        self.nodes.push(node, facts)?;
        Ok(place as u64)
    }

    /// The node at that place once more, behind all others. Gives its place.
    pub(crate) fn add_again(&mut self, place: u64) -> Result<u64, OutOfMemory>
        requires { place < length self.old.nodes }
        ensures again { OnOk result (NodeAgain self.old self.new place) }
        ensures last { IfOk result (λ at. at ≡ length self.old.nodes) }
        ensures err { OnErr result (self.new ≡ self.old) }
    {
        let at = self.nodes.len();
        self.nodes.push_again(place as usize)?;
        Ok(at as u64)
    }

    /// A stamp that stood nowhere, for one more reference to the resource.
    pub(crate) fn add_stamp(&mut self, resource: ResourceId) -> Result<u64, OutOfMemory>
        ensures added { OnOk result (self.new ≡ with_stamp self.old) }
        ensures last { IfOk result (λ stamp. stamp ≡ self.old.stamps) }
        ensures err { OnErr result (self.new ≡ self.old) }
    {
        let stamp = self.stamps.len();
        self.stamps.push(resource)?;
        Ok(stamp as u64)
    }

    /// Whether a reference to a resource stands in the type at that place.
    pub fn refers(&self, place: u64) -> bool
        requires { place < length self.now.nodes }
        ensures { result ≡ mentions (tree_in (trees self.now.nodes) place) }
    {
        self.nodes.facts(place as usize).refers
    }

    /// How the value type lies in memory, and what stands in it. It takes no memory.
    pub fn abi_info(&self, ty: &ComponentValType) -> AbiInfo
        requires { SlotStands self.now (value_slot ty.now) }
        ensures { IsAbiOf result (slot_tree (trees self.now.nodes) (value_slot ty.now)) }
    {
        value_facts(self, Some(*ty)).abi
    }

    /// The first 17 flat types of the value type, or of what is left out. It takes no memory.
    pub fn flat_types(&self, ty: Option<ComponentValType>) -> LoweredTypes
        requires { SlotStands self.now (option_slot ty) }
        ensures { listed result ≡ take 17 (open_flat (slot_tree (trees self.now.nodes) (option_slot ty))) }
    {
        value_facts(self, ty).flat
    }

    /// What the instance exports under the name. However much it exports, it takes the time of one look-up.
    pub fn export_of(&self, id: ComponentInstanceTypeId, name: &Text) -> Option<&ComponentItem>
        requires { Stands self.now (p.Instance id) }
        ensures { option_copied result ≡ lookup (bytes_eq name.now) (exports_at self.now id) }
    {
        self.nodes.known(id.index as usize).node.export(name)
    }

    /// So of a core module.
    pub fn module_export_of(
        &self,
        id: ComponentCoreModuleTypeId,
        name: &Text,
    ) -> Option<&EntityType>
        requires { Stands self.now (p.Module id) }
        ensures { option_copied result ≡ lookup (bytes_eq name.now) (module_exports_at self.now id) }
    {
        self.nodes.known(id.index as usize).node.core_export(name)
    }

    /// So of what a core instance lists.
    pub fn listed_export_of(
        &self,
        id: ComponentCoreInstanceTypeId,
        name: &Text,
    ) -> Option<&EntityType>
        requires { Stands self.now (p.CoreInstance id) }
        ensures { option_copied result ≡ lookup (bytes_eq name.now) (listed_at self.now id) }
    {
        self.nodes.known(id.index as usize).node.core_export(name)
    }

    /// The node.
    pub fn get<S: NodeSort>(&self, id: S) -> &S::Shape
        requires { Stands self.now (S.as_part id) }
        ensures found { slice_get self.now.nodes (place (S.as_part id)) ≡ Some (S.as_node result.now) }
        ensures unfolds { tree_at self.now (S.as_part id) ≡ unfolded self.now (place (S.as_part id)) (S.as_node result.now) }
        ensures before { All (StandsBefore self.now (rank (S.as_part id))) (parts_of (S.as_node result.now)) }
    {
        S::node(self, id)
    }

    /// A new node, after all others.
    #[tactic(auto, using(crate::proofs::Grown::tree_at_last, crate::proofs::Grown::push_keeps))]
    pub fn push_ty<S: NodeSort>(&mut self, shape: S::Shape) -> Result<S, OutOfMemory>
        requires { Fits self.old (S.as_node shape) }
        ensures added { IfOk result (λ _. self.new ≡ with_node self.old (S.as_node shape)) }
        ensures last { IfOk result (λ id. rank (S.as_part id) ≡ suc (length self.old.nodes)) }
        ensures stands { IfOk result (λ id. Stands self.new (S.as_part id)) }
        ensures tree { IfOk result (λ id. tree_at self.new (S.as_part id) ≡ tree_of (trees self.old.nodes) (S.as_node shape)) }
        ensures stay { IfOk result (λ _. KeepsTrees self.old self.new) }
        ensures err { OnErr result (self.new ≡ self.old) }
    {
        S::store(self, shape)
    }
}
