//! Whether types match, and what opens the imports of a component.
#![tactic(auto)]

mod comparisons;
mod giving;
mod matches;
mod openings;

ghost use Rattle.std.specs.Prelude.{◌+◌, ◌≤◌};
ghost use Rattle.wcv_core.specs.Names.{Name};
ghost use Rattle.wcv_types.specs.Measure.{size};
ghost use Rattle.wcv_types.specs.Tree.{Tree};
ghost use Rattle.wcv_atoms.specs.Extent.{extent, paths_extent, EntitiesOfOneSize};

pub use comparisons::{component_entity_type, component_val_type};
pub use matches::Matches;
pub use openings::{EntityMap, open_instance_type};
pub use wcv_core::ExternKind;
pub use wcv_matching::{entity_type, memory_type, table_type};
pub use wcv_remap::{Remapping, remap_component_entity};

/// A comparison takes at most as many steps on a side as the size of its type says, beside the paths of own resources of component types inside, where both types of each type entity are of one size.
#[tactic(auto, using(wcv_atoms::proofs::ExtentSizes::extent_within))]
pub fn a_comparison_takes_at_most_the_size_and_the_paths()
    ensures { (t : Tree Name Name) → EntitiesOfOneSize t → extent t ≤ size t + paths_extent t }
{}
