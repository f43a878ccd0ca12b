//! Component binaries: what their bytes stand for.
#![tactic(auto)]

mod alias;
mod binary;
mod canon;
mod canon_options;
mod component;
mod constant;
mod core_instance;
mod core_type;
mod core_value;
mod defined;
mod entity;
mod entry;
mod func;
mod header;
mod instance;
mod item;
mod limits;
mod list;
mod module;
mod module_export;
mod module_item;
mod module_section;
mod module_type;
mod name;
mod sort;
mod types;
mod value;

pub use binary::{Binary, read_binary, read_binary_within};
pub use wcv_bytes::{BinaryError, BinaryFault, Class, Why};
