// What is known of imports and exports, added up.
ghost use Rattle.std.specs.Prelude.{◌≡◌, ◌<◌, ◌++◌, ◌∷◌, [], ℕ, List, All, length};
ghost use Rattle.wcv_core.specs.Names.{Name};
ghost use Rattle.wcv_types.specs.Entities.{entity_tree, EntityStands, EntryStands};
ghost use Rattle.wcv_types.specs.EntrySums.{IsTotalOf, IsTotalOfParts, HasEntries};
ghost use Rattle.wcv_types.specs.Facts.{IsFactsOf};
ghost use Rattle.wcv_types.specs.Measure.{weight, whole};
ghost use Rattle.wcv_types.specs.Resources.{mentions_in};
ghost use Rattle.wcv_types.specs.Standing.{Stands};
ghost use Rattle.wcv_types.specs.Tree.{Extern_name, Head, Role, Parts, node, none};
ghost use Rattle.wcv_types.specs.Unfold.{Slot, Slots, Type_tree, any_part, entry_slots, head_of, IsInfoOf, slot_parts, slot_tree, tree_at, tree_in, trees};
ghost use Rattle.wcv_types.specs.declared.arena.Node.{Node};

use crate::arena::TypeAlloc;
use crate::defined_facts::value_facts;
use crate::facts::{Facts, nothing_abi};
use crate::ids::ComponentAnyTypeId;
use crate::info::TypeInfo;
use crate::item_map::ComponentItem;
use crate::lowered_types::LoweredTypes;
use crate::shapes::ComponentEntityType;
use wcv_core::Text;

/// What is known of entries, added up: their sizes, their greatest depth, and whether one refers to a resource.
#[derive(Clone, Copy)]
pub struct Total {
    pub size: u32,
    pub depth: u32,
    pub refers: bool,
}

impl Total {
    /// That of no entries.
    pub fn new() -> Total
        ensures { IsTotalOfParts result none }
    {
        Total {
            size: 0,
            depth: 0,
            refers: false,
        }
    }

    /// That of one node.
    fn of(facts: Facts) -> Total
        ensures { result ≡ record { size = facts.info.size; depth = facts.info.depth; refers = facts.refers } }
    {
        Total {
            size: facts.info.size,
            depth: facts.info.depth,
            refers: facts.refers,
        }
    }

    /// One more entry.
    #[tactic(auto, using(crate::proofs::Totals::total_push))]
    fn add(self, more: Total) -> Total
        ensures { (ts : List Type_tree) (ss : Slots) (s : Role × Slot) → IsTotalOfParts self (slot_parts ts ss) → IsTotalOf more (slot_tree ts s.1) → IsTotalOfParts result (slot_parts ts (ss ++ s ∷ [])) }
    {
        Total {
            size: self.size.saturating_add(more.size),
            depth: self.depth.max(more.depth),
            refers: self.refers | more.refers,
        }
    }

    /// The size and the depth of a node with these entries.
    pub fn info(self) -> TypeInfo
        ensures { (h : Head Name Name) (ps : Parts Name Name) → weight h ≡ whole → IsTotalOfParts self ps → IsInfoOf result (node h ps) }
    {
        TypeInfo {
            size: self.size.saturating_add(1),
            depth: self.depth.saturating_add(1),
        }
    }
}

/// What is known of an instance, a component, a core module or a core instance of that size and that depth.
pub fn node_facts(info: TypeInfo, refers: bool) -> Facts
    ensures { (x : Node) (k : ℕ) (ps : Parts Name Name) → HasEntries x → refers ≡ mentions_in ps → IsInfoOf info (node (head_of k x) ps) → IsFactsOf result (node (head_of k x) ps) }
{
    Facts {
        info,
        abi: nothing_abi(),
        plain: true,
        refers,
        flat: LoweredTypes::new(),
    }
}

/// What is known of the node at this place, as of one entry.
fn node_total(types: &TypeAlloc, place: u64) -> Total
    requires { place < length types.now.nodes }
    ensures { IsTotalOf result (tree_in (trees types.now.nodes) place) }
{
    Total::of(types.nodes.facts(place as usize))
}

/// So of a type.
fn any_total(types: &TypeAlloc, id: ComponentAnyTypeId) -> Total
    requires { Stands types.now (any_part id) }
    ensures { IsTotalOf result (tree_at types.now (any_part id)) }
{
    match id {
        ComponentAnyTypeId::Resource(_) => Total {
            size: 1,
            depth: 1,
            refers: true,
        },
        ComponentAnyTypeId::Defined(id) => node_total(types, id.index),
        ComponentAnyTypeId::Func(id) => node_total(types, id.index),
        ComponentAnyTypeId::Instance(id) => node_total(types, id.index),
        ComponentAnyTypeId::Component(id) => node_total(types, id.index),
    }
}

/// What is known of one entry. A type counts as the node that it makes.
fn entity_total(types: &TypeAlloc, ty: ComponentEntityType) -> Total
    requires { EntityStands types.now ty }
    ensures { IsTotalOf result (entity_tree (trees types.now.nodes) ty) }
{
    match ty {
        ComponentEntityType::Module(id) => node_total(types, id.index),
        ComponentEntityType::Func(id) => node_total(types, id.index),
        ComponentEntityType::Value(ty) => Total::of(value_facts(types, Some(ty))),
        ComponentEntityType::Ty {
            created,
            referenced,
        } => {
            let of_made = any_total(types, created);
            let of_named = any_total(types, referenced);
            Total {
                size: of_made.size,
                depth: of_made.depth,
                refers: of_made.refers | of_named.refers,
            }
        }
        ComponentEntityType::Instance(id) => node_total(types, id.index),
        ComponentEntityType::Component(id) => node_total(types, id.index),
    }
}

/// What is known of the entries, behind others.
pub fn entries_total(types: &TypeAlloc, before: Total, entries: &[(Text, ComponentItem)]) -> Total
    requires { All (EntryStands types.now) entries.now }
    ensures { (ss : Slots) (role : Extern_name → Role) → IsTotalOfParts before (slot_parts (trees types.now.nodes) ss) → IsTotalOfParts result (slot_parts (trees types.now.nodes) (ss ++ entry_slots role entries.now)) }
{
    let mut total = before;
    for entry in entries {
        total = total.add(entity_total(types, entry.1.ty));
    }
    total
}
