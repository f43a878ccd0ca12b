//! Instances that are made of instance types and of components, over the arena alone.
#![tactic(auto)]

pub mod ascribing;
pub mod instances;
pub mod instantiations;
pub mod opening;
