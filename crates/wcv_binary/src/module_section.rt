// The sections of a core module.
ghost use Rattle.std.specs.Prelude.{◌≡◌, ◌++◌, map, IfOk};
ghost use Rattle.wcv_binary.specs.ModuleSections.{places, place_behind, is_kept, kept_at, bodies_at, said_at, no_sections, declarations};
ghost use Rattle.wcv_binary.specs.ModuleViews.{module_form};
ghost use Rattle.wcv_bytes.specs.Reading.{Gives, under_byte};
ghost use Rattle.wcv_syntax.specs.View.{code_decl_view};
ghost use Rattle.wcv_syntax.specs.declared.core_section.ModuleDecl.TheVariants as code;

use crate::list::read_vec;
use crate::module_export::read_exports;
use crate::module_item::Tag;
use std::alloc::{AllocError, Global};
use wcv_bytes::{ReadError, Why, fault_at, read_text, read_u32};
use wcv_core::{GlobalType, MemoryType, RecGroup, TableType, Text};
use wcv_syntax::{Import, ModuleDecl, TypeRef};

// The place of a section among the others.
fn place_of(id: u8) -> Option<u8>
    ensures { result ≡ under_byte places id }
{
    match id {
        1..=5 => Some(id - 1),
        13 => Some(5),
        6..=9 => Some(id),
        12 => Some(10),
        10 => Some(11),
        11 => Some(12),
        _ => None,
    }
}

// The place behind that of a section, which may be none before the next one.
fn read_place(id: u8, next: u8, bytes: &[u8]) -> Result<u8, ReadError>
    ensures { Gives (λ x. x) result (place_behind next (under_byte places id) bytes.now) }
{
    match place_of(id) {
        None => Err(fault_at(Why::UnknownSection, bytes)),
        Some(place) if place < next => Err(fault_at(Why::SectionOrder, bytes)),
        Some(place) => Ok(place + 1),
    }
}

/// Whether what a section says is kept.
pub fn keeps(id: u8) -> bool
    ensures { result ≡ is_kept id }
{
    matches!(id, 1..=7 | 13)
}

// Declarations of types, imports and exports.
fn declared(
    alloc: Global,
    groups: Vec<RecGroup>,
    imports: Vec<Import>,
    exports: Vec<(Text, TypeRef)>,
) -> Result<Vec<ModuleDecl>, AllocError>
    ensures { IfOk result (λ decls. decls.items ≡ map code.Ty groups.items ++ map code.Import imports.items ++ map (λ e. code.Export e.0 e.1) exports.items) }
{
    let types = groups.into_iter().map(|group| ModuleDecl::Ty(group));
    let imports = imports.into_iter().map(|import| ModuleDecl::Import(import));
    let exports = exports
        .into_iter()
        .map(|(name, ty)| ModuleDecl::Export { name, ty });
    types.chain(imports).chain(exports).collect(alloc)
}

/// What the sections of a core module say that were read. Functions are the indices of their types, `next` is
/// the place of the next section at the earliest, and `bodies` how many functions have a body.
#[derive(Drop)]
pub struct Module {
    pub next: u8,
    pub bodies: u32,
    pub groups: Vec<RecGroup>,
    pub imports: Vec<Import>,
    pub functions: Vec<u32>,
    pub tables: Vec<TableType>,
    pub memories: Vec<MemoryType>,
    pub tags: Vec<Tag>,
    pub globals: Vec<GlobalType>,
    pub exports: Vec<(Text, TypeRef)>,
}

impl Module {
    /// A module of which nothing was read.
    pub fn new(alloc: Global) -> Module
        ensures { module_form result ≡ no_sections }
    {
        Module {
            next: 0,
            bodies: 0,
            groups: Vec::new(alloc),
            imports: Vec::new(alloc),
            functions: Vec::new(alloc),
            tables: Vec::new(alloc),
            memories: Vec::new(alloc),
            tags: Vec::new(alloc),
            globals: Vec::new(alloc),
            exports: Vec::new(alloc),
        }
    }

    // What the start of a section says that is kept, and what is left of it.
    #[tactic(auto, unfolding(crate::specs::ModuleSections::kept_at))]
    fn read_kept<'a>(
        &mut self,
        alloc: Global,
        id: u8,
        bytes: &'a [u8],
    ) -> Result<&'a [u8], ReadError>
        ensures { Gives (λ x. (module_form self.new, x.now)) result (kept_at id (module_form self.old) bytes.now) }
    {
        match id {
            1 => {
                let (groups, rest) = read_vec(alloc, bytes)?;
                self.groups = groups;
                Ok(rest)
            }
            2 => {
                let (imports, rest) = read_vec(alloc, bytes)?;
                self.imports = imports;
                Ok(rest)
            }
            3 => {
                let (functions, rest) = read_vec(alloc, bytes)?;
                self.functions = functions;
                Ok(rest)
            }
            4 => {
                let (tables, rest) = read_vec(alloc, bytes)?;
                self.tables = tables;
                Ok(rest)
            }
            5 => {
                let (memories, rest) = read_vec(alloc, bytes)?;
                self.memories = memories;
                Ok(rest)
            }
            13 => {
                let (tags, rest) = read_vec(alloc, bytes)?;
                self.tags = tags;
                Ok(rest)
            }
            6 => {
                let (globals, rest) = read_vec(alloc, bytes)?;
                self.globals = globals;
                Ok(rest)
            }
            _ => {
                let (exports, rest) = read_exports(alloc, self, bytes)?;
                self.exports = exports;
                Ok(rest)
            }
        }
    }

    // How many bodies there are, one for each function.
    #[tactic(auto, unfolding(crate::specs::ModuleSections::bodies_at))]
    fn read_bodies(&mut self, bytes: &[u8]) -> Result<(), ReadError>
        ensures { Gives (λ _. module_form self.new) result (bodies_at (module_form self.old) bytes.now) }
    {
        let (count, _) = read_u32(bytes)?;
        if count as usize != self.functions.len() {
            return Err(fault_at(Why::CodeCount, bytes));
        }
        self.bodies = count;
        Ok(())
    }

    /// What a section says, by its byte.
    #[tactic(auto, unfolding(crate::specs::ModuleSections::said_at))]
    pub fn read_section(&mut self, alloc: Global, id: u8, bytes: &[u8]) -> Result<(), ReadError>
        ensures { Gives (λ _. module_form self.new) result (said_at id (module_form self.old) bytes.now) }
    {
        if id == 0 {
            let (_, _) = read_text(bytes)?;
            return Ok(());
        }
        self.next = read_place(id, self.next, bytes)?;
        if keeps(id) {
            let rest = self.read_kept(alloc, id, bytes)?;
            if !rest.is_empty() {
                return Err(fault_at(Why::Surplus, rest));
            }
            return Ok(());
        }
        if id == 10 {
            return self.read_bodies(bytes);
        }
        Ok(())
    }

    /// What the module declares: types, imports and exports.
    #[tactic(auto, using(crate::proofs::Declared::views))]
    pub fn declarations(self, alloc: Global) -> Result<Vec<ModuleDecl>, AllocError>
        ensures { IfOk result (λ decls. map code_decl_view decls.items ≡ declarations (module_form self)) }
    {
        let decls = declared(alloc, self.groups, self.imports, self.exports)?;
        Ok(decls)
    }
}
