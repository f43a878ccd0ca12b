// Items and components.
ghost use Rattle.std.specs.Prelude.{◌≡◌, Some, IfOk};
ghost use Rattle.std.specs.Option.{option_map};
ghost use Rattle.wcv_syntax.specs.View.{section_view, item_view, entries, items_view};
ghost use Rattle.wcv_encode.specs.Bytes.{Wrote, ◌⧺◌, byte, section, vec, u32_bytes};
ghost use Rattle.wcv_encode.specs.Spelling.{component_header, form_id, one_of, contents, entry_bytes, items_bytes, spelling};

use crate::canon::write_canon;
use crate::entry::{write_alias, write_export, write_import};
use crate::fault::Unwritten;
use crate::instance::{write_core_instance, write_instance};
use crate::list::{ToBytes, write_vec};
use crate::module::write_module;
use crate::module_type::write_core_type;
use crate::number::{write_all, write_byte, write_u32};
use crate::text::write_section;
use crate::types::write_type;
use std::alloc::Global;
use wcv_core::OutOfMemory;
use wcv_syntax::{Item, Section};

impl ToBytes for u32 {
    ghost use Rattle.wcv_encode.specs.Bytes.{u32_bytes};

    ghost spelled = { u32_bytes };

    fn write(&self, out: &mut Vec<u8>) -> Result<(), Unwritten> {
        write_u32(out, *self)
    }
}

/// The id of the section of an item.
#[tactic(auto, using(crate::proofs::Forms::form_ids))]
fn section_id(section: &Section) -> u8
    ensures { result ≡ form_id (section_view section.now) }
{
    match section {
        Section::CoreModule(_) => 1,
        Section::CoreInstance(_) => 2,
        Section::CoreType(_) => 3,
        Section::Component { .. } => 4,
        Section::Instance(_) => 5,
        Section::Alias(_) => 6,
        Section::Ty(_) => 7,
        Section::Canon(_) => 8,
        Section::Start { .. } => 9,
        Section::Import(_) => 10,
        Section::Export(_) => 11,
    }
}

/// Writes the start of a component.
#[tactic(auto, using(crate::proofs::Joins::joins))]
fn write_start(out: &mut Vec<u8>, func: u32, args: &Vec<u32>, results: u32) -> Result<(), Unwritten>
    ensures { Wrote result (Some out.old.items ⧺ (u32_bytes func ⧺ vec u32_bytes args.now.items ⧺ u32_bytes results)) out.new.items }
{
    write_u32(out, func)?;
    write_vec(out, args)?;
    write_u32(out, results)
}

/// Writes an item that is one of a list.
#[tactic(auto, using(crate::proofs::Joins::joins, crate::proofs::Forms::ones))]
fn write_one(out: &mut Vec<u8>, section: &Section) -> Result<(), Unwritten>
    ensures { Wrote result (Some out.old.items ⧺ one_of (section_view section.now)) out.new.items }
{
    match section {
        Section::CoreInstance(instance) => write_core_instance(out, instance),
        Section::CoreType(ty) => write_core_type(out, ty),
        Section::Instance(instance) => write_instance(out, instance),
        Section::Alias(alias) => write_alias(out, alias),
        Section::Ty(ty) => write_type(out, ty),
        Section::Canon(func) => write_canon(out, func),
        Section::Import(import) => write_import(out, import),
        Section::Export(export) => write_export(out, export),
        Section::CoreModule(_) => Err(Unwritten::NoBytes),
        Section::Component { .. } => Err(Unwritten::NoBytes),
        Section::Start { .. } => Err(Unwritten::NoBytes),
    }
}

/// Writes an item that is one of a list, behind their number.
#[tactic(auto, using(crate::proofs::Joins::joins))]
fn write_list_of_one(out: &mut Vec<u8>, section: &Section) -> Result<(), Unwritten>
    ensures { Wrote result (Some out.old.items ⧺ (byte 1 ⧺ one_of (section_view section.now))) out.new.items }
{
    write_byte(out, 1)?;
    write_one(out, section)
}

/// Writes the contents of the section of an item.
#[cycle(write_item)]
#[tactic(auto, using(crate::proofs::Joins::joins, crate::proofs::Forms::forms))]
fn write_contents(alloc: Global, out: &mut Vec<u8>, section: &Section) -> Result<(), Unwritten>
    ensures { Wrote result (Some out.old.items ⧺ contents (section_view section.now)) out.new.items }
{
    match section {
        Section::CoreModule(decls) => write_module(alloc, out, decls),
        Section::Component { items, .. } => write_component(alloc, out, items),
        Section::Start {
            func_index,
            args,
            results,
        } => write_start(out, *func_index, args, *results),
        Section::CoreInstance(_) => write_list_of_one(out, section),
        Section::CoreType(_) => write_list_of_one(out, section),
        Section::Instance(_) => write_list_of_one(out, section),
        Section::Alias(_) => write_list_of_one(out, section),
        Section::Ty(_) => write_list_of_one(out, section),
        Section::Canon(_) => write_list_of_one(out, section),
        Section::Import(_) => write_list_of_one(out, section),
        Section::Export(_) => write_list_of_one(out, section),
    }
}

/// Writes an item: a section that holds it alone.
#[cycle(write_item)]
#[tactic(auto, using(crate::proofs::Joins::joins, crate::proofs::Sections::sections, crate::proofs::Forms::entry_of_item))]
fn write_item(alloc: Global, out: &mut Vec<u8>, item: &Item) -> Result<(), Unwritten>
    ensures { Wrote result (Some out.old.items ⧺ entry_bytes (item_view item.now)) out.new.items }
{
    let mut contents = Vec::new(alloc);
    write_contents(alloc, &mut contents, &item.section)?;
    write_section(out, section_id(&item.section), &contents)
}

/// Writes a component: its header and its items.
#[cycle(write_item)]
#[tactic(auto, using(crate::proofs::Joins::joins), unfolding(crate::specs::Spelling::component_header))]
fn write_component(alloc: Global, out: &mut Vec<u8>, items: &[Item]) -> Result<(), Unwritten>
    ensures { Wrote result (Some out.old.items ⧺ (component_header ⧺ items_bytes (items_view items.now))) out.new.items }
{
    write_all(out, &[0x00, 0x61, 0x73, 0x6d, 0x0d, 0x00, 0x01, 0x00])?;
    for item in items {
        write_item(alloc, out, item)?;
    }
    Ok(())
}

/// The bytes of a component with these items, in one fixed way, or none where an item has no bytes: a name
/// with more beside it, a forward of a stream, or a core module whose exports do not stand behind its
/// imports, and these behind its types. The format is that of the component model's Binary.md.
#[tactic(auto, using(crate::proofs::Joins::empty_join), unfolding(crate::specs::Spelling::spelling))]
pub fn write_binary(alloc: Global, items: &[Item]) -> Result<Option<Vec<u8>>, OutOfMemory>
    ensures { IfOk result (λ b. option_map (λ v. v.items) b ≡ spelling (entries items.now)) }
{
    let mut out = Vec::new(alloc);
    match write_component(alloc, &mut out, items) {
        Ok(()) => Ok(Some(out)),
        Err(Unwritten::NoBytes) => Ok(None),
        Err(Unwritten::Memory) => Err(OutOfMemory),
    }
}
