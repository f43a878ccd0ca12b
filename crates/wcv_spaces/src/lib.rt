//! The index spaces of a component that is being read, its entries and their names, and what is seen of them.
#![tactic(auto)]

pub mod core_list;
pub mod core_sorts;
pub mod entities;
pub mod entries;
pub mod features;
pub mod indices;
pub mod kind;
pub mod labels;
pub mod naming;
pub mod new_entity;
pub mod spaces;
pub mod values;
