// The types of core tables, memories and globals.
ghost use Rattle.std.specs.Prelude.{◌≡◌};
ghost use Rattle.wcv_binary.specs.Entities.{global_type_at, has_bit, marks_at, memory_type_at, page_at, sizes_at, table_type_at};
ghost use Rattle.wcv_bytes.specs.Reading.{Gives};

use crate::core_value::{read_ref_type, read_val_type};
use wcv_bytes::{ReadError, Why, fault_at, read_byte, read_u32, read_u64};
use wcv_core::{GlobalType, MemoryType, TableType};

// A byte of marks, which is at most `most`.
#[tactic(auto, unfolding(crate::specs::Entities::marks_at))]
fn read_marks(bytes: &[u8], most: u8) -> Result<(u8, &[u8]), ReadError>
    ensures { Gives (λ x. (x.0, x.1.now)) result (marks_at most bytes.now) }
{
    let (marks, rest) = read_byte(bytes)?;
    if most < marks {
        return Err(fault_at(Why::UnknownMark, bytes));
    }
    Ok((marks, rest))
}

// The least size, and the greatest where there is one.
#[tactic(auto, unfolding(crate::specs::Entities::sizes_at))]
fn read_sizes(bytes: &[u8], bounded: bool) -> Result<((u64, Option<u64>), &[u8]), ReadError>
    ensures { Gives (λ x. (x.0, x.1.now)) result (sizes_at bounded bytes.now) }
{
    let (least, rest) = read_u64(bytes)?;
    if !bounded {
        return Ok(((least, None), rest));
    }
    let (greatest, rest) = read_u64(rest)?;
    Ok(((least, Some(greatest)), rest))
}

/// The type of a core table, as the core specification's binary format has it.
#[tactic(auto, unfolding(crate::specs::Entities::table_type_at))]
pub fn read_table_type(bytes: &[u8]) -> Result<(TableType, &[u8]), ReadError>
    ensures { Gives (λ x. (x.0, x.1.now)) result (table_type_at bytes.now) }
{
    let (element_type, rest) = read_ref_type(bytes)?;
    let (marks, rest) = read_marks(rest, 7)?;
    let ((initial, maximum), rest) = read_sizes(rest, marks & 1 != 0)?;
    Ok((
        TableType {
            element_type,
            initial,
            maximum,
            table64: marks & 4 != 0,
            shared: marks & 2 != 0,
        },
        rest,
    ))
}

// The exponent of the size of a page, which is 16 where it is not written.
#[tactic(auto, unfolding(crate::specs::Entities::page_at))]
fn read_page(bytes: &[u8], written: bool) -> Result<(u32, &[u8]), ReadError>
    ensures { Gives (λ x. (x.0, x.1.now)) result (page_at written bytes.now) }
{
    if written {
        read_u32(bytes)
    } else {
        Ok((16, bytes))
    }
}

/// The type of a core memory, as the core specification's binary format has it, with the size of a page as the
/// proposal for custom page sizes has it.
#[tactic(auto, unfolding(crate::specs::Entities::memory_type_at))]
pub fn read_memory_type(bytes: &[u8]) -> Result<(MemoryType, &[u8]), ReadError>
    ensures { Gives (λ x. (x.0, x.1.now)) result (memory_type_at bytes.now) }
{
    let (marks, rest) = read_marks(bytes, 15)?;
    let ((initial, maximum), rest) = read_sizes(rest, marks & 1 != 0)?;
    let (page_size_log2, rest) = read_page(rest, marks & 8 != 0)?;
    Ok((
        MemoryType {
            initial,
            maximum,
            memory64: marks & 4 != 0,
            shared: marks & 2 != 0,
            page_size_log2,
        },
        rest,
    ))
}

/// The type of a core global, as the core specification's binary format has it.
#[tactic(auto, unfolding(crate::specs::Entities::global_type_at))]
pub fn read_global_type(bytes: &[u8]) -> Result<(GlobalType, &[u8]), ReadError>
    ensures { Gives (λ x. (x.0, x.1.now)) result (global_type_at bytes.now) }
{
    let (content_type, rest) = read_val_type(bytes)?;
    let (marks, rest) = read_marks(rest, 3)?;
    Ok((
        GlobalType {
            content_type,
            mutable: marks & 1 != 0,
            shared: marks & 2 != 0,
        },
        rest,
    ))
}
