//! Listings of components, written as JSON.
#![tactic(auto)]

mod alias;
mod canon;
mod canon_options;
mod core_entity;
mod core_form;
mod core_instance;
mod core_value;
mod defined;
mod externs;
mod indices;
mod instance;
mod item;
mod laws;
mod list;
mod listing;
mod member;
mod output;
mod sub_type;
mod types;
mod value;

pub use indices::{Indices, Numbers, Space};
pub use laws::{
    aliases_are_read_again, canonical_functions_are_read_again, core_entities_are_read_again,
    core_groups_are_read_again, core_items_are_read_again, core_value_types_are_read_again,
    data_are_read_again, defined_types_are_read_again, exports_are_read_again,
    function_types_are_read_again, imports_are_read_again, instances_are_read_again,
    listing_texts_are_read_again, listings_are_read_again, params_are_read_again,
    resources_are_read_again, starts_are_read_again, types_are_read_again,
    value_types_are_read_again,
};
pub use listing::write_listing;
