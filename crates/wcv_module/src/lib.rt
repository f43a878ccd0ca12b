//! The types of core modules.
#![tactic(auto)]

mod declarations;
mod exports;
mod features;
mod limits;
mod module;
mod outer;
mod pairs;
mod sizes;
mod types;
mod typing;

pub use declarations::ModuleDeclaration;
pub use limits::{check_group, check_module_limits};
pub use module::Module;
pub use outer::{Enclosing, NoOuter, OuterTypes};
pub use wcv_types::{ExportMap, ImportMap};
