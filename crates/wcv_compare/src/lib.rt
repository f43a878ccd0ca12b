//! Whether one type is the same as another, or may stand where it is expected, by one pass over both.
#![tactic(auto)]

mod compared;
mod passes;

pub use compared::Compared;
pub use passes::entity_passes;
