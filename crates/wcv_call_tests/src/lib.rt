//! Tests of the public calls that no listing reaches, and of runs over ends that fail in mid-stream. The expected values
//! were written by hand.
#![tactic(auto)]

#[cfg(test)]
mod arena;
#[cfg(test)]
mod base;
#[cfg(test)]
mod core_types;
#[cfg(test)]
mod counted;
#[cfg(test)]
mod depth;
#[cfg(test)]
mod driving;
#[cfg(test)]
mod ends;
#[cfg(test)]
mod fakes;
#[cfg(test)]
mod items;
#[cfg(test)]
mod joining;
#[cfg(test)]
mod layouts;
#[cfg(test)]
mod lists;
#[cfg(test)]
mod modules;
#[cfg(test)]
mod names;
#[cfg(test)]
mod printed;
#[cfg(test)]
mod shared;
#[cfg(test)]
mod sort_calls;
#[cfg(test)]
mod sorts;
#[cfg(test)]
mod states;
#[cfg(test)]
mod streams;
#[cfg(test)]
mod tables;
#[cfg(test)]
mod written;
