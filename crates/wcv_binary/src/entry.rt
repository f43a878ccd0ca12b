// The items of sections.
ghost use Rattle.std.specs.Prelude.{◌≡◌};
ghost use Rattle.wcv_binary.specs.Items.{count_at, entries_at};
ghost use Rattle.wcv_bytes.specs.Reading.{Gives};
ghost use Rattle.wcv_syntax.specs.View.{entries};

use crate::item::Items;
use std::alloc::Global;
use wcv_bytes::{ReadError, Why, fault_at, read_entries, read_u32};
use wcv_syntax::Item;

// How many items a section has: one that starts a function, or a count.
fn read_count(id: u8, bytes: &[u8]) -> Result<(u32, &[u8]), ReadError>
    ensures { Gives (λ x. (x.0, x.1.now)) result (count_at id bytes.now) }
{
    if id == 9 {
        return Ok((1, bytes));
    }
    read_u32(bytes)
}

/// The items of a section, all of its bytes, behind others.
#[tactic(auto, unfolding(crate::specs::Items::entries_at, crate::specs::Items::entry_at))]
pub fn read_listed(
    alloc: Global,
    depth: usize,
    front: Vec<Item>,
    id: u8,
    end: u64,
    bytes: &[u8],
) -> Result<Vec<Item>, ReadError>
    ensures { Gives (λ x. entries x.items) result (entries_at depth id end (entries front.items) bytes.now) }
{
    let (count, rest) = read_count(id, bytes)?;
    let items = Items { depth, id };
    let (all, rest) = read_entries(alloc, &items, front, end, count, rest)?;
    if rest.is_empty() {
        Ok(all)
    } else {
        Err(fault_at(Why::Surplus, rest))
    }
}
