//! What is found by going through types of the arena: free resources, paths to resources, and what has to be named.
#![tactic(auto)]

mod explicit_paths;
mod free_variables;
mod named_contents;
mod named_types;
mod needs;
mod place_set;
mod sets_by_place;
mod unowned;

pub use explicit_paths::ResourcePaths;
pub use free_variables::FreeVariables;
pub use named_contents::NamedContents;
pub use named_types::NamedValues;
