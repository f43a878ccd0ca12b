// Core modules.
ghost use Rattle.std.specs.Prelude.{◌≡◌, Some, is_some, map, length};
ghost use Rattle.wcv_syntax.specs.View.{code_decl_view};
ghost use Rattle.wcv_encode.specs.Bytes.{Wrote, ◌⧺◌, each, if_some, section};
ghost use Rattle.wcv_encode.specs.Entries.{core_export};
ghost use Rattle.wcv_encode.specs.Modules.{export_at, exports_from, no_items, is_export_of, rank, is_ordered, section_of, module_header, parts_bytes, module_bytes};

use crate::counts::{Counts, kind};
use crate::fault::Unwritten;
use crate::number::{write_all, write_byte, write_count};
use crate::part::{Part, write_part};
use crate::sort::core_byte;
use crate::text::{write_section, write_text};
use std::alloc::Global;
use wcv_syntax::ModuleDecl;

/// Writes what a declaration exports, behind so many items.
#[tactic(auto, using(crate::proofs::Joins::joins), unfolding(crate::specs::Modules::export_at, crate::specs::Entries::core_export, crate::specs::Bytes::if_some))]
fn write_export_at(out: &mut Vec<u8>, counts: Counts, decl: &ModuleDecl) -> Result<(), Unwritten>
    ensures { Wrote result (Some out.old.items ⧺ if_some core_export (export_at counts (code_decl_view decl.now))) out.new.items }
{
    match decl {
        ModuleDecl::Export { name, ty } => {
            let kind = kind(*ty);
            write_text(out, name.as_str())?;
            write_byte(out, core_byte(kind))?;
            write_count(out, counts.of(kind))
        }
        _ => Ok(()),
    }
}

/// Writes all that is exported.
fn write_exports_from(out: &mut Vec<u8>, decls: &[ModuleDecl]) -> Result<(), Unwritten>
    ensures { Wrote result (Some out.old.items ⧺ each core_export (exports_from no_items (map code_decl_view decls.now))) out.new.items }
{
    let mut counts = Counts::none();
    for decl in decls {
        write_export_at(out, counts, decl)?;
        counts = counts.behind(decl);
    }
    Ok(())
}

/// Whether a declaration exports.
fn is_export(decl: &ModuleDecl) -> bool
    ensures { result ≡ is_export_of (code_decl_view decl.now) }
{
    matches!(decl, ModuleDecl::Export { .. })
}

/// How much is exported.
#[tactic(auto, using(crate::proofs::Exports::exports_count))]
fn count_exports(decls: &[ModuleDecl]) -> usize
    ensures { result ≡ length (exports_from no_items (map code_decl_view decls.now)) }
{
    decls.iter().filter(|decl| is_export(decl)).count()
}

/// Writes the section of exports, where it would not be empty.
#[tactic(auto, using(crate::proofs::Joins::joins, crate::proofs::Sections::sections), unfolding(crate::specs::Bytes::vec))]
fn write_exports(alloc: Global, out: &mut Vec<u8>, decls: &[ModuleDecl]) -> Result<(), Unwritten>
    ensures { Wrote result (Some out.old.items ⧺ section_of 7 core_export (exports_from no_items (map code_decl_view decls.now))) out.new.items }
{
    let count = count_exports(decls);
    if count == 0 {
        return Ok(());
    }
    let mut contents = Vec::new(alloc);
    write_count(&mut contents, count)?;
    write_exports_from(&mut contents, decls)?;
    write_section(out, 7, &contents)
}

/// The place of a declaration: types, then imports, then exports.
#[tactic(auto, unfolding(crate::specs::Modules::rank))]
fn rank_of(decl: &ModuleDecl) -> u8
    ensures { result ≡ rank (code_decl_view decl.now) }
{
    match decl {
        ModuleDecl::Ty(_) => 0,
        ModuleDecl::Import(_) => 1,
        ModuleDecl::Export { .. } => 2,
    }
}

/// Whether types come first, then imports, then exports.
fn are_ordered(decls: &[ModuleDecl]) -> bool
    ensures { result ≡ is_ordered 0 (map code_decl_view decls.now) }
{
    let mut least = 0;
    for decl in decls {
        let rank = rank_of(decl);
        if rank < least {
            return false;
        }
        least = rank;
    }
    true
}

/// Writes sections, one after another.
fn write_parts(
    alloc: Global,
    out: &mut Vec<u8>,
    decls: &[ModuleDecl],
    parts: &[Part],
) -> Result<(), Unwritten>
    ensures { Wrote result (Some out.old.items ⧺ parts_bytes (map code_decl_view decls.now) parts.now) out.new.items }
{
    for part in parts {
        write_part(alloc, out, *part, decls)?;
    }
    Ok(())
}

/// Writes a core module. One whose declarations are not in order has no bytes.
#[tactic(auto, using(crate::proofs::Joins::joins), unfolding(crate::specs::Modules::module_bytes, crate::specs::Modules::module_header))]
pub(crate) fn write_module(
    alloc: Global,
    out: &mut Vec<u8>,
    decls: &[ModuleDecl],
) -> Result<(), Unwritten>
    ensures { Wrote result (Some out.old.items ⧺ module_bytes (map code_decl_view decls.now)) out.new.items }
{
    if !are_ordered(decls) {
        return Err(Unwritten::NoBytes);
    }
    write_all(out, &[0x00, 0x61, 0x73, 0x6d, 0x01, 0x00, 0x00, 0x00])?;
    let parts = [
        Part::Types,
        Part::Imports,
        Part::Functions,
        Part::Tables,
        Part::Memories,
        Part::Tags,
        Part::Globals,
    ];
    write_parts(alloc, out, decls, &parts)?;
    write_exports(alloc, out, decls)?;
    write_part(alloc, out, Part::Bodies, decls)
}
