//! Types that are made again where a map replaces something in them.
#![tactic(auto)]

mod entity;
mod ids;
mod map;
mod remap;

ghost use Rattle.std.specs.Prelude.{◌≡◌, ℕ, ◌+◌, ◌<◌, ◌≤◌, List, [], Contains, length, true, false, None};
ghost use Rattle.std.specs.List.{IsDistinct};
ghost use Rattle.std.specs.Map.{keys_of};
ghost use Rattle.wcv_core.specs.Names.{Name};
ghost use Rattle.wcv_types.specs.Arena.{Arena};
ghost use Rattle.wcv_types.specs.Entities.{entity_slot};
ghost use Rattle.wcv_types.specs.Identity.{Identity};
ghost use Rattle.wcv_types.specs.Replacing.{Replacement, SparesOwn};
ghost use Rattle.wcv_types.specs.Tree.{Tree};
ghost use Rattle.wcv_types.specs.Unfold.{slot_refs};
ghost use Rattle.wcv_types.specs.declared.ids.Part.{Part};
ghost use Rattle.wcv_types.specs.declared.ids.ResourceId.{ResourceId};
ghost use Rattle.wcv_types.specs.declared.shapes.ComponentEntityType.{ComponentEntityType};
ghost use Rattle.wcv_remap.specs.Entities.{EntityRemapped};
ghost use Rattle.wcv_remap.specs.Hygiene.{Hygienic};
ghost use Rattle.wcv_remap.specs.Map.{Map, Sent, same_part};
ghost use Rattle.wcv_remap.specs.Remap.{ReachedFrom, Sends, Serves, Sound};

pub use entity::remap_component_entity;
pub use map::Remapping;

/// A map that replaces resources by resources of the arena, and has no entry yet, is sound.
#[tactic(auto, using(crate::proofs::Starting::sound_new))]
pub fn a_map_of_resources_is_sound()
    ensures { (a : Arena) (map : Map) → map.types ≡ [] → ((r q : ResourceId) → Contains map.resources (r, q) → q.index < a.resources) → Sound a map }
{}

/// A map that was given types, each once, which go to types of their own sorts, and that was not used yet, is sound.
pub fn a_map_of_given_types_is_sound()
    ensures { (a : Arena) (map : Map) → ((q : Part) (s : Sent) → Contains map.types (q, s) → (s.given ≡ true) × Sends a q s.to) → IsDistinct same_part (keys_of map.types) →
        ((r q : ResourceId) → Contains map.resources (r, q) → q.index < a.resources) → Sound a map }
{}

/// A map that was given no node serves as replacements of resources alone.
#[tactic(auto, using(crate::proofs::Sparing::nothing_given))]
pub fn a_map_of_resources_replaces_no_node()
    ensures { (a : Arena) (map : Map) (m : Replacement) → Serves a map m → ((q : Part) (s : Sent) → Contains map.types (q, s) → s.given ≡ false) → (i : Identity) → m.nodes i ≡ None }
{}

/// Where no node is replaced, a type is hygienic that owns no resource which is replaced.
#[tactic(auto, using(crate::proofs::Sparing::sparing_hygienic))]
pub fn what_spares_owned_resources_is_hygienic()
    ensures { (m : Replacement) (t : Tree Name Name) → ((i : Identity) → m.nodes i ≡ None) → SparesOwn m t → Hygienic m t }
{}

/// A rebuilding reads at most as many nodes as are reached, each counted once, however often it is mentioned. It makes at most as many.
pub fn a_rebuilding_reads_at_most_what_is_reached()
    ensures { (a b : Arena) (map map' : Map) (s s' : ℕ) (x y : ComponentEntityType) (reached : List Part) → EntityRemapped a b map map' s s' x y → IsDistinct same_part (keys_of map'.types) →
        ((q : Part) → ReachedFrom b (slot_refs (entity_slot x)) q → Contains reached q) → (s' ≤ s + length reached) × (length b.nodes ≤ length a.nodes + length reached) }
{}
