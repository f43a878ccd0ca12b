//! The program: what it reads from and writes to, how a root is validated, and the top call.
#![tactic(auto)]

mod adapter;
mod binary;
mod command;
mod ends;
mod items;
mod make;
mod memory;
mod pump;
mod reading;
mod refusal;
mod report;
mod report_lines;
mod status;
mod steady;
mod steady_run;
mod top;
mod words;

pub use adapter::{ReadAdapter, WriteAdapter};
pub use ends::{Failed, Sink, Source};
pub use memory::{MemorySink, MemorySource};
pub use status::Status;
pub use steady::{SteadySink, SteadySource};
pub use steady_run::status_of_bytes;
pub use top::run;
pub use words::Words;
