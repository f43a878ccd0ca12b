//! The resources that a component imports, defines and keeps.
#![tactic(auto)]

pub mod kept;
pub mod resources;
