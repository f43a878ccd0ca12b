//! Numbers, texts and sections of the binary format, and why bytes stand for nothing.
#![tactic(auto)]

mod class;
mod entry;
mod fault;
mod number;
mod section;
mod text;

pub use class::Class;
pub use entry::{ReadEntry, read_entries, room_of};
pub use fault::{BinaryError, BinaryFault, Fault, ReadError, Why, fault_at};
pub use number::{expect_byte, read_byte, read_flag, read_index, read_u32, read_u64, read_zero};
pub use section::{MAX_KEPT_BYTES, count_entries, error_at, read_contents};
pub use text::read_text;
