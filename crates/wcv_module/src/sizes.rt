// Sizes of tables and memories.
ghost use Rattle.std.specs.Prelude.{◌≡◌, ◌⊎◌, ◌*◌, ◌^◌, ◌++◌, not, eqb, OnOk, IfErr};
ghost use Rattle.wcv_core.specs.Checks.{IsFree, CausedBy};
ghost use Rattle.wcv_core.specs.Refusal.{error_kind, error_offset};
ghost use Rattle.wcv_syntax.specs.CoreItems as items;
ghost use Rattle.wcv_syntax.specs.CoreItems.{table_sizes, memory_sizes, memory_checks};

use crate::features::{check_memory64, check_page_sizes, check_threads};
use wcv_core::{Error, ErrorKind, MemoryType, Refusal, TableType, WasmFeatures, Why};

/// The most elements of a table whose indices have 32 bits.
const MAX_TABLE32: u64 = 4_294_967_295;

/// The exponent of pages of 64 KiB.
const USUAL_PAGE: u32 = 16;

/// A refusal by a rule of core types.
pub fn broken(why: Why<'static>, offset: u64) -> Refusal<'static>
    ensures kind { error_kind result ≡ ErrorKind.CoreType }
    ensures offset { error_offset result ≡ offset }
{
    Error::new(ErrorKind::CoreType, offset, why)
}

/// Whether the least number is above the greatest.
fn is_above(least: u64, greatest: Option<u64>) -> bool
    ensures { result ≡ items.is_above least greatest }
{
    match greatest {
        Some(greatest) => greatest < least,
        None => false,
    }
}

/// Whether the greatest number passes a limit.
fn greatest_passes(limit: u64, greatest: Option<u64>) -> bool
    ensures { result ≡ items.greatest_passes limit greatest }
{
    match greatest {
        Some(greatest) => limit < greatest,
        None => false,
    }
}

/// Whether a table may have these sizes.
pub fn check_table_sizes(ty: &TableType, offset: u64) -> Result<(), Refusal<'static>>
    ensures ok { OnOk result (IsFree (table_sizes ty.now)) }
    ensures err { IfErr result (CausedBy (table_sizes ty.now) offset) }
{
    let min = ty.initial;
    if is_above(min, ty.maximum) {
        let why = Why::new("the `min` %1 of a table is above its `max`").numbers([min, 0, 0]);
        return Err(broken(why, offset));
    }
    if !ty.table64 && MAX_TABLE32 < min {
        let why = Why::new("the `min` %1 of a table with 32-bit indices is above %2");
        return Err(broken(why.numbers([min, MAX_TABLE32, 0]), offset));
    }
    if !ty.table64 && greatest_passes(MAX_TABLE32, ty.maximum) {
        let why = Why::new("the `max` of a table with 32-bit indices is above %1");
        return Err(broken(why.numbers([MAX_TABLE32, 0, 0]), offset));
    }
    Ok(())
}

/// The most bytes of a memory.
fn max_bytes(memory64: bool) -> u128
    ensures { result ≡ items.max_bytes memory64 }
{
    if memory64 { 1 << 64 } else { 1 << 32 }
}

/// How many bytes so many pages have.
fn bytes_of(page_size_log2: u32, pages: u64) -> u128
    requires page { (page_size_log2 ≡ 0) ⊎ (page_size_log2 ≡ 16) }
    ensures { result ≡ pages * 2 ^ page_size_log2 }
{
    if page_size_log2 == 0 {
        pages as u128
    } else {
        pages as u128 * 65_536
    }
}

/// Whether so many pages are more than the memory may have.
fn passes_bytes(ty: &MemoryType, pages: u64) -> bool
    requires page { (ty.now.page_size_log2 ≡ 0) ⊎ (ty.now.page_size_log2 ≡ 16) }
    ensures { result ≡ items.passes_bytes ty.now pages }
{
    max_bytes(ty.memory64) < bytes_of(ty.page_size_log2, pages)
}

fn greatest_passes_bytes(ty: &MemoryType, greatest: Option<u64>) -> bool
    requires page { (ty.now.page_size_log2 ≡ 0) ⊎ (ty.now.page_size_log2 ≡ 16) }
    ensures { result ≡ items.greatest_passes_bytes ty.now greatest }
{
    match greatest {
        Some(greatest) => passes_bytes(ty, greatest),
        None => false,
    }
}

/// A refusal of a memory with too many pages, by the mark of the number.
fn too_large(ty: &MemoryType, mark: &'static str, offset: u64) -> Refusal<'static>
    ensures kind { error_kind result ≡ ErrorKind.CoreType }
    ensures offset { error_offset result ≡ offset }
{
    let bits = if ty.memory64 { 64 } else { 32 };
    let page = ty.page_size_log2 as u64;
    let why = Why::new(
        "the `%w` of a memory with %1-bit indices and pages of 2^%2 bytes has more than 2^%1 bytes",
    );
    broken(why.word(mark).numbers([bits, page, 0]), offset)
}

/// Whether a memory may have these sizes.
fn check_memory_sizes(ty: &MemoryType, offset: u64) -> Result<(), Refusal<'static>>
    ensures ok { OnOk result (IsFree (memory_sizes ty.now)) }
    ensures err { IfErr result (CausedBy (memory_sizes ty.now) offset) }
{
    let page = ty.page_size_log2;
    if page != 0 && page != USUAL_PAGE {
        let why = Why::new("the page exponent %1 of a memory is neither 0 nor 16");
        return Err(broken(why.numbers([page as u64, 0, 0]), offset));
    }
    let min = ty.initial;
    if is_above(min, ty.maximum) {
        let why = Why::new("the `min` %1 of a memory is above its `max`").numbers([min, 0, 0]);
        return Err(broken(why, offset));
    }
    if passes_bytes(ty, min) {
        return Err(too_large(ty, "min", offset));
    }
    if greatest_passes_bytes(ty, ty.maximum) {
        return Err(too_large(ty, "max", offset));
    }
    if ty.shared && ty.maximum.is_none() {
        return Err(broken(Why::new("a shared memory has no `max`"), offset));
    }
    Ok(())
}

/// Whether a memory may stand.
pub fn check_memory(
    features: &WasmFeatures,
    ty: &MemoryType,
    offset: u64,
) -> Result<(), Refusal<'static>>
    ensures ok { OnOk result (IsFree (memory_checks features.now ty.now)) }
    ensures err { IfErr result (CausedBy (memory_checks features.now ty.now) offset) }
{
    let by = "a memory with 64-bit indices";
    check_memory64(features, ty.memory64, by, offset)?;
    check_threads(features, ty.shared, offset)?;
    check_page_sizes(features, ty.page_size_log2 != USUAL_PAGE, offset)?;
    check_memory_sizes(ty, offset)
}
