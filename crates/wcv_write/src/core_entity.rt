// What core modules import and export.
ghost use Rattle.std.specs.Prelude.{◌++◌, ◌≡◌, ◌==◌, ◌∷◌, [], OnOk, if◌then◌else◌, codes};
ghost use Rattle.json.specs.Token.{key};
ghost use Rattle.wcv_write.specs.CoreItems.{limit_members, table_data, memory_data, global_data, entity_data};
ghost use Rattle.wcv_write.specs.Json.{count, tokens_of, tokens_of_members, under};

use crate::core_value::{write_core_value, write_ref_type};
use crate::member::{write_mark, write_optional_count};
use crate::output::Output;
use std::alloc::AllocError;
use wcv_core::{GlobalType, MemoryType, TableType};
use wcv_syntax::TypeRef;

// Writes the sizes of a table and a mark, and the closing brace.
fn write_limit_members(out: &mut Output, table: &TableType) -> Result<(), AllocError>
    ensures { OnOk result (out.new ≡ out.old ++ tokens_of_members (limit_members table.now)) }
{
    write_optional_count(out, "max", table.maximum)?;
    out.key("min")?;
    out.count(table.initial)?;
    write_mark(out, "shared", table.shared)?;
    out.end_object()
}

// Writes a table.
#[tactic(auto, unfolding(crate::specs::CoreItems::table_data))]
fn write_table(out: &mut Output, table: &TableType) -> Result<(), AllocError>
    ensures { OnOk result (out.new ≡ out.old ++ tokens_of (table_data table.now)) }
{
    out.begin_object()?;
    write_mark(out, "64", table.table64)?;
    out.key("elem")?;
    write_ref_type(out, &table.element_type)?;
    write_limit_members(out, table)
}

// Writes the exponent of the size of a page, unless it is 16.
fn write_page(out: &mut Output, exponent: u32) -> Result<(), AllocError>
    ensures { OnOk result (out.new ≡ out.old ++ (if exponent == 16 then [] else key (codes "page") ∷ tokens_of (count exponent))) }
{
    if exponent == 16 {
        return Ok(());
    }
    out.key("page")?;
    out.count(exponent as u64)
}

// Writes a memory.
#[tactic(auto, unfolding(crate::specs::CoreItems::memory_data))]
fn write_memory(out: &mut Output, memory: &MemoryType) -> Result<(), AllocError>
    ensures { OnOk result (out.new ≡ out.old ++ tokens_of (memory_data memory.now)) }
{
    out.begin_object()?;
    write_mark(out, "64", memory.memory64)?;
    write_optional_count(out, "max", memory.maximum)?;
    out.key("min")?;
    out.count(memory.initial)?;
    write_page(out, memory.page_size_log2)?;
    write_mark(out, "shared", memory.shared)?;
    out.end_object()
}

// Writes a global.
#[tactic(auto, unfolding(crate::specs::CoreItems::global_data))]
fn write_global(out: &mut Output, global: &GlobalType) -> Result<(), AllocError>
    ensures { OnOk result (out.new ≡ out.old ++ tokens_of (global_data global.now)) }
{
    out.begin_object()?;
    write_mark(out, "mut", global.mutable)?;
    write_mark(out, "shared", global.shared)?;
    out.key("type")?;
    write_core_value(out, &global.content_type)?;
    out.end_object()
}

// Writes an object of one number.
fn write_count_under(out: &mut Output, key: &str, number: u32) -> Result<(), AllocError>
    ensures { OnOk result (out.new ≡ out.old ++ tokens_of (under key.now (count number))) }
{
    out.open(key)?;
    out.count(number as u64)?;
    out.end_object()
}

/// Writes what is imported or exported.
#[tactic(auto, unfolding(crate::specs::CoreItems::entity_data))]
pub fn write_entity(out: &mut Output, entity: &TypeRef) -> Result<(), AllocError>
    ensures { OnOk result (out.new ≡ out.old ++ tokens_of (entity_data entity.now)) }
{
    match entity {
        TypeRef::Func(index) => write_count_under(out, "func", *index),
        TypeRef::Tag(index) => write_count_under(out, "tag", *index),
        TypeRef::Table(table) => {
            out.open("table")?;
            write_table(out, table)?;
            out.end_object()
        }
        TypeRef::Memory(memory) => {
            out.open("memory")?;
            write_memory(out, memory)?;
            out.end_object()
        }
        TypeRef::Global(global) => {
            out.open("global")?;
            write_global(out, global)?;
            out.end_object()
        }
    }
}
