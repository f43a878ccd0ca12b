//! What stands on the other side for the own resources of a type, and what both sides read them as.
#![tactic(auto)]

mod counterparts;
mod own_resources;

pub use counterparts::{Exports, counterparts_in};
pub use own_resources::{OwnAtoms, opened_atoms, owned_atoms, paired_atoms};
