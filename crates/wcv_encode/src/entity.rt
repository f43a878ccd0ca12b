// Core tables, memories and globals.
ghost use Rattle.std.specs.Prelude.{◌≡◌, ◌≤◌, ◌<◌, ◌+◌, Some};
ghost use Rattle.wcv_encode.specs.Bytes.{Wrote, ◌⧺◌, if_some, u64_bytes};
ghost use Rattle.wcv_encode.specs.CoreTypes.{mark, limits, page, table_bytes, memory_bytes, global_bytes};

use crate::core_type::{write_ref, write_val};
use crate::fault::Unwritten;
use crate::number::{write_byte, write_u32, write_u64};
use wcv_core::{GlobalType, MemoryType, TableType};

/// A bit of a byte of marks.
fn mark_of(on: bool, bit: u8) -> u8
    ensures value { result ≡ mark on bit }
    ensures most { result ≤ bit }
{
    if on { bit } else { 0 }
}

/// Writes a number, where there is one.
#[tactic(auto, using(crate::proofs::Joins::joins), unfolding(crate::specs::Bytes::if_some))]
fn write_if_some(out: &mut Vec<u8>, n: Option<u64>) -> Result<(), Unwritten>
    ensures { Wrote result (Some out.old.items ⧺ if_some u64_bytes n) out.new.items }
{
    match n {
        None => Ok(()),
        Some(n) => write_u64(out, n),
    }
}

/// Writes sizes, behind a byte of marks.
#[tactic(auto, using(crate::proofs::Joins::joins), unfolding(crate::specs::CoreTypes::limits))]
fn write_limits(
    out: &mut Vec<u8>,
    marks: u8,
    initial: u64,
    maximum: Option<u64>,
) -> Result<(), Unwritten>
    requires { marks < 128 }
    ensures { Wrote result (Some out.old.items ⧺ limits marks initial maximum) out.new.items }
{
    write_byte(out, mark_of(maximum.is_some(), 1) + marks)?;
    write_u64(out, initial)?;
    write_if_some(out, maximum)
}

/// Writes a table type.
#[tactic(auto, using(crate::proofs::Joins::joins), unfolding(crate::specs::CoreTypes::table_bytes))]
pub(crate) fn write_table(out: &mut Vec<u8>, ty: TableType) -> Result<(), Unwritten>
    ensures { Wrote result (Some out.old.items ⧺ table_bytes ty) out.new.items }
{
    write_ref(out, ty.element_type)?;
    let marks = mark_of(ty.shared, 2) + mark_of(ty.table64, 4);
    write_limits(out, marks, ty.initial, ty.maximum)
}

/// Writes the exponent of a page, where it is not the usual one.
#[tactic(auto, using(crate::proofs::Joins::joins), unfolding(crate::specs::CoreTypes::page))]
fn write_page(out: &mut Vec<u8>, exponent: u32) -> Result<(), Unwritten>
    ensures { Wrote result (Some out.old.items ⧺ page exponent) out.new.items }
{
    if exponent == 16 {
        Ok(())
    } else {
        write_u32(out, exponent)
    }
}

/// Writes a memory type.
#[tactic(auto, using(crate::proofs::Joins::joins), unfolding(crate::specs::CoreTypes::memory_bytes))]
pub(crate) fn write_memory(out: &mut Vec<u8>, ty: MemoryType) -> Result<(), Unwritten>
    ensures { Wrote result (Some out.old.items ⧺ memory_bytes ty) out.new.items }
{
    let paged = ty.page_size_log2 != 16;
    let marks = mark_of(ty.shared, 2) + mark_of(ty.memory64, 4) + mark_of(paged, 8);
    write_limits(out, marks, ty.initial, ty.maximum)?;
    write_page(out, ty.page_size_log2)
}

/// Writes a global type.
#[tactic(auto, using(crate::proofs::Joins::joins), unfolding(crate::specs::CoreTypes::global_bytes))]
pub(crate) fn write_global(out: &mut Vec<u8>, ty: GlobalType) -> Result<(), Unwritten>
    ensures { Wrote result (Some out.old.items ⧺ global_bytes ty) out.new.items }
{
    write_val(out, ty.content_type)?;
    write_byte(out, mark_of(ty.mutable, 1) + mark_of(ty.shared, 2))
}
