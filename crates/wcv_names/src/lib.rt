//! Names of imports and exports: which entities they may stand for, and which may stand in one list.
#![tactic(auto)]

mod conflict;
mod context;
mod entity;
mod extern_entry;
mod follows;
mod functions;
mod name_set;
mod shapes;
mod values;
mod wanted;
mod whole_name;

pub use context::ComponentNameContext;
pub use entity::entity_info;
pub use name_set::NameSet;
pub use wcv_core::ExternKind;
