// The entries of a section, each at its offset.
ghost use Rattle.std.specs.Prelude.{◌≡◌, map};
ghost use Rattle.wcv_bytes.specs.Entries.{entry_over, behind};
ghost use Rattle.wcv_bytes.specs.Reading.{Gives, list_at};

use crate::fault::ReadError;
use std::alloc::Global;

/// What reads the entries of a section.
pub trait ReadEntry {
    ghost use Rattle.std.specs.Prelude.{ℕ, List, Result};
    ghost use Rattle.wcv_bytes.specs.declared.fault.Fault.{Fault};
    ghost use Rattle.wcv_bytes.specs.Reading.{Gives};

    type Entry: Drop;

    // What contracts see of an entry.
    ghost Form: { Type 0 };

    ghost seen: { Self.Entry → Form };

    // What bytes at an offset stand for, and what is left behind.
    ghost meant: { Self → ℕ → List ℕ → Result (Form × List ℕ) Fault };

    /// The entry at the front, which is at that offset.
    fn read_entry<'a>(
        &self,
        alloc: Global,
        offset: u64,
        bytes: &'a [u8],
    ) -> Result<(Self::Entry, &'a [u8]), ReadError>
        ensures { Gives (λ x. (seen x.0, x.1.now)) result (meant self.now offset bytes.now) };
}

// The most things that room is asked for before the first of them is read.
const MAX_ROOM: usize = 4096;

/// For how many things to ask for room, by their count and the bytes that are left.
#[inline(always)]
pub fn room_of(count: u32, bytes: &[u8]) -> usize {
    (count as usize).min(bytes.len()).min(MAX_ROOM)
}

/// So many entries behind others, where the section ends at that offset.
pub fn read_entries<'a, R: ReadEntry>(
    alloc: Global,
    reader: &R,
    front: Vec<R::Entry>,
    end: u64,
    count: u32,
    bytes: &'a [u8],
) -> Result<(Vec<R::Entry>, &'a [u8]), ReadError>
    ensures { Gives (λ x. (map R.seen x.0.items, x.1.now)) result (behind (map R.seen front.items) (list_at (entry_over (R.meant reader.now) end) count bytes.now)) }
{
    let mut all = front;
    all.reserve(room_of(count, bytes))?;
    let mut rest = bytes;
    for _ in 0..count {
        let offset = end.saturating_sub(rest.len() as u64);
        all.reserve(1)?;
        let (entry, after) = reader.read_entry(alloc, offset, rest)?;
        all.push_reserved(entry);
        rest = after;
    }
    Ok((all, rest))
}
