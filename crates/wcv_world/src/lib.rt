//! The linking machine: values, what items append to lists of them, turns, and what a run comes to. Definitions and laws alone.
#![tactic(auto)]

mod laws;
mod worked;

pub use laws::{
    an_import_takes_what_fits, growth_looks_at_no_feature, renaming_keeps_runs,
    turns_bound_instantiations, values_grow_as_their_types,
};
pub use worked::{
    a_command_runs_over_an_interface, a_root_without_items_ends, an_exported_resource_is_a_token,
    one_token_for_many_imports, worked_stuck_runs,
};
