//! Instances and core instances.
#![tactic(auto)]

mod component_instances;
mod core_instances;
mod instances;

pub use instances::Instances;
