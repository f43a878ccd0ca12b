//! Core types in closed form: the same type has one closed form, whichever table names it by an id.
#![tactic(auto)]

mod closed_laws;
mod form_laws;
mod item_laws;
mod match_laws;
mod table_laws;
mod tree_laws;

pub use closed_laws::{
    equal_closed_forms_are_one, groups_behind_change_no_closed_form, one_closed_form_for_each_type,
    two_tables_tell_the_same_types_apart,
};
pub use form_laws::{
    forms_are_shared_as_their_closed_forms, forms_are_those_of_closed_forms,
    forms_match_as_their_closed_forms, joining_groups_keep_the_same_rules,
    rules_are_those_of_closed_forms, sizes_are_those_of_closed_items,
    written_groups_have_the_same_causes,
};
pub use item_laws::{
    arguments_serve_each_module_that_matches, items_match_on, items_of_a_table_keep_their_form,
    modules_match_on,
};
pub use match_laws::{
    a_form_that_changes_breaks_matching, closed_forms_match_on, closed_forms_match_themselves,
    closed_forms_of_a_table_keep_their_form, heaps_match_as_their_closed_forms,
    heaps_match_by_the_rules, rules_keep_the_form_of_supertypes,
    supertypes_are_those_of_closed_forms, values_match_as_their_closed_forms,
    values_of_a_table_match_on,
};
pub use table_laws::{
    a_group_has_one_closed_form_in_each_table,
    a_written_group_has_one_closed_form_over_both_tables, an_interned_group_has_its_closed_form,
    interning_finds_what_has_the_closed_form, interning_keeps_the_table,
};
pub use tree_laws::{
    equal_closed_trees_are_one, groups_behind_change_no_closed_tree,
    renaming_over_one_table_is_renaming_by_ids,
};
