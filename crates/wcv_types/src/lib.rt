//! Type trees of components, their laws, and the text of a type.
#![tactic(auto)]

mod abi;
mod again;
mod arena;
mod by_name;
mod component_sort;
mod component_type;
mod core_calls;
mod core_instance_sort;
mod core_maps;
mod core_shapes;
mod core_sizes;
mod core_sort;
mod defined_facts;
mod defined_sort;
mod entries_again;
mod entry_facts;
mod entry_parts;
mod facts;
mod flat_type;
mod func_facts;
mod func_sort;
mod ids;
mod indexed_node;
mod info;
mod instance_sort;
mod instance_type;
mod item_map;
mod layout;
mod lowered_types;
mod module_sort;
mod named_items;
mod nodes;
mod parts;
mod paths;
mod reference_sort;
mod refill;
mod renew;
mod resource_set;
mod same_entities;
mod same_types;
mod shape_codes;
mod shape_numbers;
mod shape_types;
mod shapes;
mod sorts;
mod store;
mod sum;
mod type_set;

ghost use Rattle.std.specs.Prelude.{◌≡◌, ◌⊎◌, ℕ, List, Contains, true, false, Some, None};
ghost use Rattle.wcv_core.specs.CoreForm.{Group};
ghost use Rattle.wcv_core.specs.Names.{Name, number};
ghost use Rattle.wcv_types.specs.Alike.{Alike};
ghost use Rattle.wcv_types.specs.Arena.{Arena};
ghost use Rattle.wcv_types.specs.Identity.{Identity, of_node};
ghost use Rattle.wcv_types.specs.Measure.{size, depth};
ghost use Rattle.wcv_types.specs.FirstPath.{first_path};
ghost use Rattle.wcv_types.specs.Paths.{PathLeadsTo, IsFirstPath};
ghost use Rattle.wcv_types.specs.Renewed.{renewed};
ghost use Rattle.wcv_types.specs.Rename.{rename, without_identities, HasWayBack, UpToRenaming};
ghost use Rattle.wcv_types.specs.Replacing.{Replacement, new_resource, changed, changed_in, replaced, SparesOwn, GivesSame};
ghost use Rattle.wcv_types.specs.Resources.{owns, RefersTo, Free, substitute, Admits};
ghost use Rattle.wcv_types.specs.Seen.{Within, seen};
ghost use Rattle.wcv_types.specs.Rebuild.{MadeAgain, BecomesIn};
ghost use Rattle.wcv_types.specs.ShapeNumbers.{AreApart, Codes, shape_number};
ghost use Rattle.wcv_types.specs.Standing.{identity_of, Unfolds};
ghost use Rattle.wcv_types.specs.Text.{type_text};
ghost use Rattle.wcv_types.specs.Tree.{Extern_name, Tree, head};
ghost use Rattle.wcv_types.specs.Unfold.{parts_at, place, slot_parts, slots_at, tree_at, trees};
ghost use Rattle.wcv_types.specs.declared.ids.Part.{Part};

pub use abi::AbiInfo;
pub use arena::{Node, TypeAlloc};
pub use by_name::ByName;
pub use component_type::ComponentType;
pub use core_instance_sort::core_instance_of;
pub use core_maps::{ExportMap, ImportMap};
pub use core_shapes::{CoreInstanceTypeKind, InstanceType, ModuleType};
pub use core_sizes::core_items_size;
pub use entry_parts::{part_of_any, push_entity, push_entries};
pub use flat_type::FlatType;
pub use ids::{
    AliasableResourceId, ComponentAnyTypeId, ComponentCoreInstanceTypeId,
    ComponentCoreModuleTypeId, ComponentCoreTypeId, ComponentDefinedTypeId, ComponentFuncTypeId,
    ComponentInstanceTypeId, ComponentTypeId, Part, ResourceId,
};
pub use info::TypeInfo;
pub use instance_type::ComponentInstanceType;
pub use item_map::{ComponentItem, ItemMap};
pub use lowered_types::LoweredTypes;
pub use parts::{Parts, place_of};
pub use paths::Paths;
pub use resource_set::ResourceSet;
pub use shapes::{
    ComponentDefinedType, ComponentEntityType, ComponentFuncType, ComponentValType, node_of,
};
pub use sorts::{NodeSort, TypeSort};
pub use store::{NodeStore, Steps};
pub use type_set::TypeSet;

/// Types that are equal up to renaming of resources and of identities have one text.
#[tactic(auto, using(crate::proofs::SameText::same_text))]
pub fn equal_types_have_one_text()
    ensures { (gs : List Group) (s t : Tree Name Name) → UpToRenaming s t → type_text gs s ≡ type_text gs t }
{}

/// Each type is equal to itself up to renaming.
pub fn a_type_is_equal_to_itself()
    ensures { (t : Tree Name Name) → UpToRenaming t t }
{}

/// Equality up to renaming goes both ways.
pub fn equal_types_are_equal_both_ways()
    ensures { (s t : Tree Name Name) → UpToRenaming s t → UpToRenaming t s }
{}

/// Types that are equal up to renaming to one type are so to each other.
pub fn equality_goes_on()
    ensures { (s t u : Tree Name Name) → UpToRenaming s t → UpToRenaming t u → UpToRenaming s u }
{}

/// To rename all names, and then to replace the renamed free resources, is to replace and then to rename, where the renaming has a way back.
pub fn renaming_commutes_with_replacing()
    ensures { (f back g u v : Name → Name) (t : Tree Name Name) → HasWayBack f back t → ((r : Name) → Free r t → v (f r) ≡ f (u r)) →
        rename f g (substitute u t) ≡ substitute v (rename f g t) }
{}

/// The size of a type does not depend on its names.
pub fn renaming_keeps_the_size()
    ensures { (f g : Name → Name) (t : Tree Name Name) → size (rename f g t) ≡ size t }
{}

/// Nor does the depth.
pub fn renaming_keeps_the_depth()
    ensures { (f g : Name → Name) (t : Tree Name Name) → depth (rename f g t) ≡ depth t }
{}

/// Replacing of free resources keeps the size.
pub fn replacing_keeps_the_size()
    ensures { (u : Name → Name) (t : Tree Name Name) → size (substitute u t) ≡ size t }
{}

/// Replacing of free resources keeps the depth.
pub fn replacing_keeps_the_depth()
    ensures { (u : Name → Name) (t : Tree Name Name) → depth (substitute u t) ≡ depth t }
{}

/// To replace each free resource by itself changes nothing.
pub fn replacing_by_itself_changes_nothing()
    ensures { (u : Name → Name) (t : Tree Name Name) → ((r : Name) → Free r t → u r ≡ r) → substitute u t ≡ t }
{}

/// Of two replacings that agree on the free resources the results are the same.
pub fn replacing_looks_at_free_resources()
    ensures { (u v : Name → Name) (t : Tree Name Name) → ((r : Name) → Free r t → u r ≡ v r) → substitute u t ≡ substitute v t }
{}

/// Two replacings one after another are one, where the first brings in nothing that is owned inside.
pub fn replacing_twice_is_replacing_once()
    ensures { (u v w : Name → Name) (t : Tree Name Name) → Admits u t → ((r : Name) → Free r t → v (u r) ≡ w r) → substitute v (substitute u t) ≡ substitute w t }
{}

/// What is free after replacing is what a free resource became.
pub fn what_is_free_after_replacing_was_free()
    ensures { (u : Name → Name) (t : Tree Name Name) (q : Name) → Free q (substitute u t) → (r : Name) × Free r t × (u r ≡ q) }
{}

/// A rebuilding that replaces resources alone, none of them owned inside, is a replacing of free resources, identities aside.
pub fn rebuilding_is_replacing()
    ensures { (m : Replacement) (t : Tree Name Name) → ((i : Identity) → m.nodes i ≡ None) → SparesOwn m t →
        without_identities (replaced m t) ≡ without_identities (substitute (new_resource m) t) }
{}

/// A rebuilding leaves a type as it is where nothing in it goes to another.
pub fn unchanged_types_stay()
    ensures { (m : Replacement) (t : Tree Name Name) → GivesSame m t → changed m t ≡ false → replaced m t ≡ t }
{}

/// Where no two codes have one number, types whose shapes have numbers look alike exactly where these are equal.
pub fn equal_numbers_are_equal_shapes()
    ensures { (m : Codes) (s t : Tree Name Name) (a b : ℕ) → AreApart m → shape_number m s ≡ Some a → shape_number m t ≡ Some b → (a ≡ b → Alike s t) × (Alike s t → a ≡ b) }
{}

/// What is seen of a type looks at no identity.
pub fn what_is_seen_has_no_identities()
    ensures { (f : Name → Within Name) (t : Tree Name Name) → seen f (without_identities t) ≡ seen f t }
{}

/// A resource is free in a renamed type where one that became it was free, and the renaming has a way back.
pub fn renaming_keeps_what_is_free()
    ensures to { (f back g : Name → Name) (r : Name) (t : Tree Name Name) → HasWayBack f back t → Free r t → Free (f r) (rename f g t) }
    ensures back { (f back g : Name → Name) (q : Name) (t : Tree Name Name) → HasWayBack f back t → Free q (rename f g t) → (r : Name) × Free r t × (f r ≡ q) }
{}

/// The first path to a resource leads to it.
pub fn the_first_path_leads_to_its_resource()
    ensures { (r : Name) (entries : List (Extern_name × Tree Name Name)) (p : List ℕ) → first_path r entries ≡ Some p → PathLeadsTo p r entries }
{}

/// Where there is no first path, no path leads to the resource.
pub fn there_is_a_first_path()
    ensures { (r : Name) (entries : List (Extern_name × Tree Name Name)) → first_path r entries ≡ None → (p : List ℕ) → PathLeadsTo p r entries → ⊥ }
{}

/// The first path is the one that leads to the resource and comes before all others that lead there, depth first.
#[tactic(auto, using(crate::proofs::PathOrder::one_comes_first))]
pub fn the_first_path_comes_first()
    ensures first { (r : Name) (entries : List (Extern_name × Tree Name Name)) (p : List ℕ) → first_path r entries ≡ Some p → IsFirstPath p r entries }
    ensures only { (r : Name) (entries : List (Extern_name × Tree Name Name)) (p : List ℕ) → IsFirstPath p r entries → first_path r entries ≡ Some p }
{}

/// A resource is free in a type of the arena where it is that reference itself, or is free in a part and not owned by the type.
#[tactic(auto, using(crate::proofs::SortLaws::free_below, crate::proofs::SortLaws::free_above))]
pub fn what_is_free_in_a_type_is_free_in_a_part()
    ensures below { (a : Arena) (r : Name) (q : Part) → Unfolds a q → Free r (tree_at a q) → RefersTo r (head (tree_at a q)) ⊎ ((owns (head (tree_at a q)) r ≡ false) × ((p : Part) × Contains (parts_at a q) p × Free r (tree_at a p))) }
    ensures above { (a : Arena) (r : Name) (q p : Part) → Unfolds a q → owns (head (tree_at a q)) r ≡ false → Contains (parts_at a q) p → Free r (tree_at a p) → Free r (tree_at a q) }
{}

/// A type under a new identity is the same type, identities aside.
#[tactic(auto, using(crate::proofs::Renewing::renewed_unnamed))]
pub fn a_renewed_type_is_the_same_type()
    ensures { (j : Name) (t : Tree Name Name) → without_identities (renewed j t) ≡ without_identities t }
{}

/// The same resources are free in it.
pub fn renewing_keeps_what_is_free()
    ensures to { (j r : Name) (t : Tree Name Name) → Free r t → Free r (renewed j t) }
    ensures back { (j r : Name) (t : Tree Name Name) → Free r (renewed j t) → Free r t }
{}

/// The size is the same.
#[tactic(auto, using(crate::proofs::Renewing::renewed_size))]
pub fn renewing_keeps_the_size()
    ensures { (j : Name) (t : Tree Name Name) → size (renewed j t) ≡ size t }
{}

/// So is the depth.
#[tactic(auto, using(crate::proofs::Renewing::renewed_depth))]
pub fn renewing_keeps_the_depth()
    ensures { (j : Name) (t : Tree Name Name) → depth (renewed j t) ≡ depth t }
{}

/// To give a type an identity and then to rename all names is to rename them first, and to give it the renamed identity.
#[tactic(auto, using(crate::proofs::Renewing::renewed_renamed))]
pub fn renaming_commutes_with_renewing()
    ensures { (f g : Name → Name) (j : Name) (t : Tree Name Name) → rename f g (renewed j t) ≡ renewed (g j) (rename f g t) }
{}

/// Replacing of free resources keeps the identity that a type is given.
#[tactic(auto, using(crate::proofs::Renewing::renewed_substituted))]
pub fn replacing_commutes_with_renewing()
    ensures { (u : Name → Name) (j : Name) (t : Tree Name Name) → substitute u (renewed j t) ≡ renewed j (substitute u t) }
{}

/// A node that is made again with what its parts become is what the node becomes, where some part becomes another.
#[tactic(auto, using(crate::proofs::SortLaws::made_replaced))]
pub fn a_node_made_again_is_the_replaced_node()
    ensures { (a b : Arena) (m : Replacement) (q made : Part) (qs : List Part) (k : Name) → Unfolds a q → identity_of q ≡ of_node k → MadeAgain a b q qs made → m.again k ≡ number (place made) → m.nodes (of_node k) ≡ None →
        BecomesIn a m (parts_at a q) qs → changed_in m (slot_parts (trees a.nodes) (slots_at a.nodes q)) ≡ true → tree_at b made ≡ replaced m (tree_at a q) }
{}
