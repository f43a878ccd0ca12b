//! Value types, functions, core modules and lists of names are compared, as each side reads its resources.
#![tactic(auto)]

mod modules;
mod names;
mod owned;
mod values;

pub use modules::modules_pass;
pub use names::names_fit;
pub use owned::same_owned;
pub use values::{same_func, same_value};
