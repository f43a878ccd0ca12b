//! Canonical functions and their options.
#![tactic(auto)]

mod ask_core;
mod ask_types;
mod asks;
mod canon;
mod facts;
mod functions;
mod items;
mod lift;
mod lists;
mod options;

pub use canon::Canon;
