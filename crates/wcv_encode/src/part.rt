// The sections of a core module that hold a list.
ghost use Rattle.std.specs.Prelude.{◌≡◌, Some, is_some, map, length, filter_map};
ghost use Rattle.wcv_syntax.specs.View.{code_decl_view};
ghost use Rattle.wcv_encode.specs.Bytes.{Wrote, ◌⧺◌, each};
ghost use Rattle.wcv_encode.specs.Modules.{constant, own_entry, entry, or_nothing, part_id, as_they_are, part_bytes};

use crate::core_type::{write_group, write_heap};
use crate::entity::{write_global, write_memory, write_table};
use crate::fault::Unwritten;
use crate::module_type::write_core_import;
use crate::number::{write_all, write_byte, write_count, write_u32};
use crate::text::write_section;
use std::alloc::Global;
use wcv_core::ValType;
use wcv_syntax::{ModuleDecl, TypeRef};

/// What a section holds.
#[derive(Clone, Copy)]
pub(crate) enum Part {
    Types,
    Imports,
    /// The type of each function.
    Functions,
    Tables,
    Memories,
    Tags,
    Globals,
    /// The body of each function.
    Bodies,
}

impl Part {
    /// The id of the section.
    fn id(self) -> u8
        ensures { result ≡ part_id self }
    {
        match self {
            Part::Types => 1,
            Part::Imports => 2,
            Part::Functions => 3,
            Part::Tables => 4,
            Part::Memories => 5,
            Part::Globals => 6,
            Part::Bodies => 10,
            Part::Tags => 13,
        }
    }
}

/// Writes a constant of a type.
#[tactic(auto, using(crate::proofs::Joins::joins), unfolding(crate::specs::Modules::constant))]
fn write_constant(out: &mut Vec<u8>, ty: ValType) -> Result<(), Unwritten>
    ensures { Wrote result (Some out.old.items ⧺ constant ty) out.new.items }
{
    match ty {
        ValType::I32 => write_all(out, &[0x41, 0, 0x0b]),
        ValType::I64 => write_all(out, &[0x42, 0, 0x0b]),
        ValType::F32 => write_all(out, &[0x43, 0, 0, 0, 0, 0x0b]),
        ValType::F64 => write_all(out, &[0x44, 0, 0, 0, 0, 0, 0, 0, 0, 0x0b]),
        ValType::V128 => write_all(
            out,
            &[
                0xfd, 0x0c, 0, 0, 0, 0, 0, 0, 0, 0, 0, 0, 0, 0, 0, 0, 0, 0, 0x0b,
            ],
        ),
        ValType::Ref(ty) => {
            if ty.nullable {
                write_byte(out, 0xd0)?;
                write_heap(out, ty.shared, ty.heap)?;
                write_byte(out, 0x0b)
            } else {
                write_byte(out, 0x0b)
            }
        }
    }
}

/// Writes what an export of a type adds to a section.
#[tactic(auto, using(crate::proofs::Joins::joins), unfolding(crate::specs::Modules::own_entry))]
fn write_own(out: &mut Vec<u8>, part: Part, ty: TypeRef) -> Result<(), Unwritten>
    ensures { Wrote result (Some out.old.items ⧺ or_nothing (own_entry part ty)) out.new.items }
{
    match (part, ty) {
        (Part::Functions, TypeRef::Func(index)) => write_u32(out, index),
        (Part::Bodies, TypeRef::Func(_)) => write_all(out, &[3, 0, 0, 0x0b]),
        (Part::Tables, TypeRef::Table(ty)) => write_table(out, ty),
        (Part::Memories, TypeRef::Memory(ty)) => write_memory(out, ty),
        (Part::Globals, TypeRef::Global(ty)) => {
            write_global(out, ty)?;
            write_constant(out, ty.content_type)
        }
        (Part::Tags, TypeRef::Tag(index)) => {
            write_byte(out, 0)?;
            write_u32(out, index)
        }
        _ => Ok(()),
    }
}

/// Writes what a declaration adds to a section.
#[tactic(auto, using(crate::proofs::Joins::joins), unfolding(crate::specs::Modules::entry))]
fn write_entry(out: &mut Vec<u8>, part: Part, decl: &ModuleDecl) -> Result<(), Unwritten>
    ensures { Wrote result (Some out.old.items ⧺ or_nothing (entry part (code_decl_view decl.now))) out.new.items }
{
    match (part, decl) {
        (Part::Types, ModuleDecl::Ty(group)) => write_group(out, group),
        (Part::Imports, ModuleDecl::Import(import)) => write_core_import(out, import),
        (part, ModuleDecl::Export { ty, .. }) => write_own(out, part, *ty),
        _ => Ok(()),
    }
}

/// Whether an export of a type adds to a section.
#[tactic(auto, unfolding(crate::specs::Modules::own_entry))]
fn is_own(part: Part, ty: TypeRef) -> bool
    ensures { result ≡ is_some (own_entry part ty) }
{
    matches!(
        (part, ty),
        (Part::Functions | Part::Bodies, TypeRef::Func(_))
            | (Part::Tables, TypeRef::Table(_))
            | (Part::Memories, TypeRef::Memory(_))
            | (Part::Globals, TypeRef::Global(_))
            | (Part::Tags, TypeRef::Tag(_))
    )
}

/// Whether a declaration adds to a section.
#[tactic(auto, unfolding(crate::specs::Modules::entry))]
fn is_in(part: Part, decl: &ModuleDecl) -> bool
    ensures { result ≡ is_some (entry part (code_decl_view decl.now)) }
{
    match (part, decl) {
        (Part::Types, ModuleDecl::Ty(_)) => true,
        (Part::Imports, ModuleDecl::Import(_)) => true,
        (part, ModuleDecl::Export { ty, .. }) => is_own(part, *ty),
        _ => false,
    }
}

/// How many declarations add to a section.
#[tactic(auto, using(crate::proofs::Parts::entries_count))]
fn count_entries(part: Part, decls: &[ModuleDecl]) -> usize
    ensures { result ≡ length (filter_map (entry part) (map code_decl_view decls.now)) }
{
    decls.iter().filter(|decl| is_in(part, decl)).count()
}

/// Writes what declarations add to a section.
fn write_entries(out: &mut Vec<u8>, part: Part, decls: &[ModuleDecl]) -> Result<(), Unwritten>
    ensures { Wrote result (Some out.old.items ⧺ each as_they_are (filter_map (entry part) (map code_decl_view decls.now))) out.new.items }
{
    for decl in decls {
        write_entry(out, part, decl)?;
    }
    Ok(())
}

/// Writes a section of a core module, where it would not be empty.
#[tactic(auto, using(crate::proofs::Joins::joins, crate::proofs::Sections::sections), unfolding(crate::specs::Modules::part_bytes, crate::specs::Bytes::vec))]
pub(crate) fn write_part(
    alloc: Global,
    out: &mut Vec<u8>,
    part: Part,
    decls: &[ModuleDecl],
) -> Result<(), Unwritten>
    ensures { Wrote result (Some out.old.items ⧺ part_bytes part (map code_decl_view decls.now)) out.new.items }
{
    let count = count_entries(part, decls);
    if count == 0 {
        return Ok(());
    }
    let mut contents = Vec::new(alloc);
    write_count(&mut contents, count)?;
    write_entries(&mut contents, part, decls)?;
    write_section(out, part.id(), &contents)
}
