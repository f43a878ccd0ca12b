// Sections: a byte that says what it holds, a size, and so many bytes.
ghost use Rattle.std.specs.Prelude.{◌≡◌, length};
ghost use Rattle.wcv_bytes.specs.Reading.{u32_at};
ghost use Rattle.wcv_bytes.specs.Sections.{GivesAt, told, error_told, room_behind, contents_at, more_for, counted_at};

use crate::fault::{BinaryError, BinaryFault, ReadError, Why};
use crate::number::read_u32;

/// The most bytes of a binary that are kept: all but the contents of custom sections, and of those sections of
/// core modules that hold no types, imports or exports. Entries of sections count for more than their bytes.
pub const MAX_KEPT_BYTES: u64 = 8_388_608;

/// The error of a reader, with its fault at its offset, where the bytes end at that one.
pub fn error_at(end: u64, error: ReadError) -> BinaryError
    ensures { result ≡ error_told end error }
{
    match error {
        ReadError::Memory => BinaryError::OutOfMemory,
        ReadError::Fault(fault) => BinaryError::Fault(BinaryFault {
            at: end.saturating_sub(fault.left as u64),
            why: fault.why,
        }),
    }
}

// The number at the front of bytes that end at that offset.
#[tactic(auto, using(crate::proofs::Told::fails_told))]
fn read_size(end: u64, bytes: &[u8]) -> Result<(u32, &[u8]), BinaryError>
    ensures { GivesAt (λ x. (x.0, x.1.now)) result (told end (u32_at bytes.now)) }
{
    match read_u32(bytes) {
        Ok((size, rest)) => Ok((size, rest)),
        Err(error) => Err(error_at(end, error)),
    }
}

// How many bytes may still be kept once so many were counted, or else a fault at that offset.
fn count_bytes(at: u64, room: u64, counted: u64) -> Result<u64, BinaryError>
    ensures { GivesAt (λ left. left) result (room_behind at room counted) }
{
    if room < counted {
        return Err(BinaryError::Fault(BinaryFault {
            at,
            why: Why::TooMuch,
        }));
    }
    Ok(room - counted)
}

// For how many bytes more than their own so many entries count, of which there are no more than these bytes, and the
// bytes once more where that is asked for.
fn more_of(again: bool, count: u32, bytes: &[u8]) -> u64
    ensures { result ≡ more_for again count (length bytes.now) }
{
    let left = bytes.len() as u64;
    let count = count as u64;
    let entries = if left < count { left } else { count };
    3 * entries + if again { left } else { 0 }
}

/// How many bytes may still be kept behind the contents of a section, which end at that offset and were counted: its
/// entries count for more, and its bytes once more where that is asked for.
#[tactic(auto, unfolding(crate::specs::Sections::counted_at))]
pub fn count_entries(again: bool, end: u64, room: u64, bytes: &[u8]) -> Result<u64, BinaryError>
    ensures { GivesAt (λ left. left) result (counted_at again end room bytes.now) }
{
    let (count, rest) = read_size(end, bytes)?;
    let at = end.saturating_sub(rest.len() as u64);
    count_bytes(at, room, more_of(again, count, rest))
}

/// The contents of a section, what is behind them, and how many bytes may still be kept there: from its size
/// on, in bytes that end at that offset. The contents are kept where they count.
#[tactic(auto, unfolding(crate::specs::Sections::contents_at))]
pub fn read_contents(
    counts: bool,
    end: u64,
    room: u64,
    bytes: &[u8],
) -> Result<(&[u8], &[u8], u64), BinaryError>
    ensures { GivesAt (λ x. (x.0.now, x.1.now, x.2)) result (contents_at counts end room bytes.now) }
{
    let (size, rest) = read_size(end, bytes)?;
    let size = size as usize;
    if rest.len() < size {
        return Err(BinaryError::Fault(BinaryFault {
            at: end,
            why: Why::Short,
        }));
    }
    let (contents, behind) = rest.split_at(size);
    let uncounted = if counts { behind.len() } else { rest.len() };
    let counted = 1 + bytes.len().saturating_sub(uncounted) as u64;
    let at = end.saturating_sub(rest.len() as u64);
    let room = count_bytes(at, room, counted)?;
    Ok((contents, behind, room))
}
