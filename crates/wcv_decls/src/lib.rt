//! Types that items declare.
#![tactic(auto)]

mod add;
mod alike;
mod canon_limits;
mod close;
mod component;
mod content;
mod core_limits;
mod core_module;
mod core_type;
mod declarations;
mod declare;
mod declared;
mod declared_limits;
mod defined;
mod features;
mod func;
mod instance_limits;
mod limits;
mod lists;
mod lower;
mod name_texts;
mod names;
mod number;
mod open;
mod resource;
mod room;
mod shape;
mod size;
mod stack;
mod store;
mod used;
mod values;

pub use canon_limits::check_canon_limits;
pub use component::{end_component, open_component};
pub use core_limits::{
    check_alias_limits, check_core_limits, check_core_module_limits, check_instance_limits,
};
pub use core_module::add_core_module_to;
pub use declared_limits::check_declared_limits;
pub use instance_limits::check_component_instance_limits;
pub use limits::check_limits;
pub use name_texts::check_name;
pub use stack::Declare;
pub use used::check_used;
