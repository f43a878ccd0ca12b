//! Linking safety: what is to be proved of the linking machine, and laws towards it. Definitions and laws alone.
#![tactic(auto)]

mod laws;

pub use laws::{
    a_root_without_items_is_safe, aliases_keep_agreement, arguments_open_what_matches,
    canonical_functions_keep_agreement, core_instances_keep_agreement, core_types_keep_agreement,
    exports_keep_agreement, imports_keep_agreement, listing_instances_keep_agreement,
    resources_keep_agreement, start_items_keep_agreement, types_keep_agreement,
};
