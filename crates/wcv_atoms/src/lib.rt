//! What a comparison reads the resources of each side as, which nodes it goes into, and what its answer is.
#![tactic(auto)]

mod any_types;
mod readings;
mod visits;

pub use any_types::{as_entity, as_resource};
pub use readings::{Readings, ResourceAtom};
pub use visits::visited;
