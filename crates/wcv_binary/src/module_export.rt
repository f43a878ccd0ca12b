// What the exports of a core module name.
ghost use Rattle.std.specs.List.{filter_map};
ghost use Rattle.std.specs.Prelude.{◌≡◌, ◌++◌, map, IfOk};
ghost use Rattle.wcv_binary.specs.ModuleItems.{imported_function, imported_table, imported_memory, imported_global, imported_tag, spaces_of, item_of, export_at, exports_at};
ghost use Rattle.wcv_binary.specs.ModuleViews.{module_form, spaces_form};
ghost use Rattle.wcv_bytes.specs.Reading.{Gives, list_at, vec_at};

use crate::module_item::Tag;
use crate::module_section::Module;
use crate::sort::read_core_sort;
use std::alloc::{AllocError, Global};
use wcv_bytes::{ReadError, Why, fault_at, read_text, read_u32, room_of};
use wcv_core::{GlobalType, MemoryType, TableType, Text};
use wcv_syntax::{ExternalKind, Import, TypeRef};

// The items of a core module by sort and index: those that it imports stand first.
#[derive(Drop)]
struct Spaces {
    functions: Vec<u32>,
    tables: Vec<TableType>,
    memories: Vec<MemoryType>,
    globals: Vec<GlobalType>,
    tags: Vec<Tag>,
}

// The functions that are imported, and a module's own.
fn functions(alloc: Global, imports: &[Import], own: &[u32]) -> Result<Vec<u32>, AllocError>
    ensures { IfOk result (λ all. all.items ≡ filter_map imported_function imports.now ++ own.now) }
{
    let imported = imports.iter().filter_map(|import| match import.ty {
        TypeRef::Func(index) => Some(index),
        _ => None,
    });
    imported.chain(own.iter().copied()).collect(alloc)
}

// The tables that are imported, and a module's own.
fn tables(
    alloc: Global,
    imports: &[Import],
    own: &[TableType],
) -> Result<Vec<TableType>, AllocError>
    ensures { IfOk result (λ all. all.items ≡ filter_map imported_table imports.now ++ own.now) }
{
    let imported = imports.iter().filter_map(|import| match import.ty {
        TypeRef::Table(table) => Some(table),
        _ => None,
    });
    imported.chain(own.iter().copied()).collect(alloc)
}

// The memories that are imported, and a module's own.
fn memories(
    alloc: Global,
    imports: &[Import],
    own: &[MemoryType],
) -> Result<Vec<MemoryType>, AllocError>
    ensures { IfOk result (λ all. all.items ≡ filter_map imported_memory imports.now ++ own.now) }
{
    let imported = imports.iter().filter_map(|import| match import.ty {
        TypeRef::Memory(memory) => Some(memory),
        _ => None,
    });
    imported.chain(own.iter().copied()).collect(alloc)
}

// The globals that are imported, and a module's own.
fn globals(
    alloc: Global,
    imports: &[Import],
    own: &[GlobalType],
) -> Result<Vec<GlobalType>, AllocError>
    ensures { IfOk result (λ all. all.items ≡ filter_map imported_global imports.now ++ own.now) }
{
    let imported = imports.iter().filter_map(|import| match import.ty {
        TypeRef::Global(global) => Some(global),
        _ => None,
    });
    imported.chain(own.iter().copied()).collect(alloc)
}

// The tags that are imported, and a module's own.
fn tags(alloc: Global, imports: &[Import], own: &[Tag]) -> Result<Vec<Tag>, AllocError>
    ensures { IfOk result (λ all. all.items ≡ filter_map imported_tag imports.now ++ own.now) }
{
    let imported = imports.iter().filter_map(|import| match import.ty {
        TypeRef::Tag(func) => Some(Tag { func }),
        _ => None,
    });
    imported.chain(own.iter().copied()).collect(alloc)
}

impl Spaces {
    // Those of a module.
    fn of(alloc: Global, module: &Module) -> Result<Spaces, AllocError>
        ensures { IfOk result (λ spaces. spaces_form spaces ≡ spaces_of (module_form «module».now)) }
    {
        Ok(Spaces {
            functions: functions(alloc, &module.imports, &module.functions)?,
            tables: tables(alloc, &module.imports, &module.tables)?,
            memories: memories(alloc, &module.imports, &module.memories)?,
            globals: globals(alloc, &module.imports, &module.globals)?,
            tags: tags(alloc, &module.imports, &module.tags)?,
        })
    }

    // The item of a sort at an index.
    fn item(&self, kind: ExternalKind, index: u32) -> Option<TypeRef>
        ensures { result ≡ item_of (spaces_form self.now) kind index }
    {
        let index = index as usize;
        match kind {
            ExternalKind::Func => Some(TypeRef::Func(*self.functions.get(index)?)),
            ExternalKind::Table => Some(TypeRef::Table(*self.tables.get(index)?)),
            ExternalKind::Memory => Some(TypeRef::Memory(*self.memories.get(index)?)),
            ExternalKind::Global => Some(TypeRef::Global(*self.globals.get(index)?)),
            ExternalKind::Tag => Some(TypeRef::Tag(self.tags.get(index)?.func)),
        }
    }
}

// An export: a name, a sort and an index.
#[tactic(auto, unfolding(crate::specs::ModuleItems::export_at))]
fn read_export<'a>(
    alloc: Global,
    spaces: &Spaces,
    bytes: &'a [u8],
) -> Result<((Text, TypeRef), &'a [u8]), ReadError>
    ensures { Gives (λ x. (x.0, x.1.now)) result (export_at (spaces_form spaces.now) bytes.now) }
{
    let (name, rest) = read_text(bytes)?;
    let (kind, at_index) = read_core_sort(rest)?;
    let (index, rest) = read_u32(at_index)?;
    let Some(item) = spaces.item(kind, index) else {
        return Err(fault_at(Why::UnknownIndex, at_index));
    };
    let name = Text::new(alloc, name)?;
    Ok(((name, item), rest))
}

// So many exports.
fn read_many_exports<'a>(
    alloc: Global,
    spaces: &Spaces,
    count: u32,
    bytes: &'a [u8],
) -> Result<(Vec<(Text, TypeRef)>, &'a [u8]), ReadError>
    ensures { Gives (λ x. (x.0.items, x.1.now)) result (list_at (export_at (spaces_form spaces.now)) count bytes.now) }
{
    let mut exports = Vec::with_capacity(alloc, room_of(count, bytes))?;
    let mut rest = bytes;
    for _ in 0..count {
        exports.reserve(1)?;
        let (export, after) = read_export(alloc, spaces, rest)?;
        exports.push_reserved(export);
        rest = after;
    }
    Ok((exports, rest))
}

/// The exports of a core module, each with the item that it names.
#[tactic(auto, unfolding(wcv_bytes::specs::Reading::vec_at))]
pub fn read_exports<'a>(
    alloc: Global,
    module: &Module,
    bytes: &'a [u8],
) -> Result<(Vec<(Text, TypeRef)>, &'a [u8]), ReadError>
    ensures { Gives (λ x. (x.0.items, x.1.now)) result (exports_at (module_form «module».now) bytes.now) }
{
    let (count, rest) = read_u32(bytes)?;
    let spaces = Spaces::of(alloc, module)?;
    read_many_exports(alloc, &spaces, count, rest)
}
