//! Which lists of items are valid, and what items keep of the contexts that are open: laws, over the definitions alone.
#![tactic(auto)]

mod kept_laws;
mod laws;
mod reached_laws;

pub use kept_laws::{each_recorded_path_leads, growth_keeps_what_stood};
pub use laws::{
    each_free_resource_is_listed, each_instance_has_its_own_resources, each_root_has_one_answer,
};
pub use reached_laws::{
    an_ascribed_item_matches_its_type, an_instantiation_matches_where_one_substitution_opens,
    an_instantiation_replaces_what_is_free, core_arguments_serve_their_imports,
    start_arguments_match_their_parameters, valid_items_leave_a_stack_in_order,
};
