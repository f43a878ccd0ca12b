// What the bytes of a binary stand for.
ghost use Rattle.std.specs.Prelude.{◌≡◌};
ghost use Rattle.wcv_binary.specs.Binary.{binary_of, binary_within};
ghost use Rattle.wcv_bytes.specs.Sections.{GivesAt};
ghost use Rattle.wcv_syntax.specs.View.{entries};

use crate::component::{MAX_NESTING, read_component};
use std::alloc::Global;
use wcv_bytes::{BinaryError, MAX_KEPT_BYTES};
use wcv_syntax::Item;

/// A component as it is written: its items, each at its offset, and the offset of its end.
#[derive(Drop)]
pub struct Binary {
    pub items: Vec<Item>,
    pub end: u64,
}

/// The component that the bytes are, as the component model's Binary.md has it, in which components and declared
/// types stand at most so deep in one another. Gives the first fault, from left to right, where they are none, or
/// say what no listing can, or more is to be kept than the limit.
#[tactic(auto, unfolding(crate::specs::Binary::binary_within))]
pub fn read_binary_within(alloc: Global, depth: usize, bytes: &[u8]) -> Result<Binary, BinaryError>
    ensures { GivesAt (λ b. (entries b.items.items, b.end)) result (binary_within depth bytes.now) }
{
    let end = bytes.len() as u64;
    let (items, _room) = read_component(alloc, depth, end, MAX_KEPT_BYTES, bytes)?;
    Ok(Binary { items, end })
}

/// The component that the bytes are, with 127 components and declared types in one another at most.
pub fn read_binary(alloc: Global, bytes: &[u8]) -> Result<Binary, BinaryError>
    ensures { GivesAt (λ b. (entries b.items.items, b.end)) result (binary_of bytes.now) }
{
    read_binary_within(alloc, MAX_NESTING, bytes)
}
