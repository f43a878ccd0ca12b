//! Items of a component as the bytes of a component binary, in one fixed way.
#![tactic(auto)]

mod canon;
mod component;
mod core_type;
mod counts;
mod entity;
mod entry;
mod fault;
mod instance;
mod laws;
mod list;
mod module;
mod module_type;
mod number;
mod part;
mod sort;
mod text;
mod types;
mod value;

pub use component::write_binary;
pub use laws::{
    canonical_functions_are_read_again, core_entities_are_read_again, core_modules_are_read_again,
    core_types_are_read_again, entries_are_read_again, numbers_and_texts_are_read_again,
    places_have_no_bytes, spellings_are_read_again, types_are_read_again,
    value_types_are_read_again,
};
