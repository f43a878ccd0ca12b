//! Whether types match, and what opens the imports of a component.
#![tactic(auto)]

mod by_name;
mod core_args;
mod core_items;
mod laws;
mod modules;

pub use core_args::{core_arguments, core_export_of};
pub use core_items::{entity_type, memory_type, same_val, table_type};
pub use laws::{
    a_type_matches_itself, at_most_one_substitution_opens, groups_behind_change_no_matching,
    matching_asks_once, matching_goes_on, matching_is_told_by_ids,
    nodes_of_an_arena_are_of_one_height, one_pass_decides_matching, one_pass_decides_openings,
    one_pass_goes_by_ids, renaming_keeps_matching, renaming_keeps_the_pass,
    replacing_keeps_matching, same_types_have_one_height, same_types_match_both_ways,
    the_tests_by_ids_are_right, what_the_types_of_an_arena_keep,
};
pub use modules::{module_type, shapes_match};
