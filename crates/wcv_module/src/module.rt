// The type of a core module, as its declarations make it.
ghost use Rattle.wcv_core.specs.Limits.{max_entries, max_size};
ghost use Rattle.std.specs.Prelude.{◌≡◌, ◌⊎◌, ℕ, suc, ◌+◌, ◌<◌, ◌≤◌, ◌^◌, ◌++◌, ◌∷◌, List, [], length, map, slice_get, Some, string_bytes, All, IfOk, OnOk, OnErr, IfErr};
ghost use Rattle.std.specs.Option.{option_map};
ghost use Rattle.wcv_core.specs.Checks.{IsFree, CausedBy, MemoryOrCausedBy, too_many};
ghost use Rattle.wcv_core.specs.CoreForm.{group_form};
ghost use Rattle.wcv_core.specs.CoreGroups.{total};
ghost use Rattle.wcv_core.specs.CoreJoining.{IsLeft};
ghost use Rattle.wcv_core.specs.CoreSizes.{IsEntityWithin};
ghost use Rattle.wcv_core.specs.CoreWritten.{IsKnown, closed_group};
ghost use Rattle.wcv_core.specs.Refusal.{error_kind, error_offset};
ghost use Rattle.wcv_module.specs.Kept.{IsEntityKnown, module_items};
ghost use Rattle.wcv_syntax.specs.CoreItems.{ref_checks, entity_of, entity_size};
ghost use Rattle.wcv_syntax.specs.ModuleTypes.{Module_type, empty_module, module_entries, with_type, with_import, with_export, types_checks, size_checks, import_checks, export_checks, import_joins, group_joins, with_group_of, whole_checks};
ghost use Rattle.wcv_types.specs.CoreCalls.{with_core};
ghost use Rattle.wcv_types.specs.Standing.{Extends, KeepsTrees, Fits, entity_sizes};
ghost use Rattle.wcv_types.specs.declared.arena.Node.TheVariants as node;

use crate::pairs::check_pairs;
use crate::types::{type_id_at, written};
use crate::typing::depth_of;
use std::alloc::Global;
use std::marker::Model;
use wcv_core::limits::{MAX_ENTRIES, MAX_SIZE};
use wcv_core::{
    CoreTypeId, CoreTypes, EntityType, Error, ErrorKind, InternRecGroup, LabelSet, OutOfMemory,
    RecGroup, Refusal, Text, WasmFeatures, Why, core_item_size,
};
use wcv_syntax::{Import, TypeRef};
use wcv_types::{ExportMap, ImportMap, ModuleType, TypeAlloc, TypeInfo};

/// The types of a core module or of a module type, its imports and its exports. Declarations join it in order,
/// each by a call that checks it first. Contracts see it as the type so far, over a table of core types.
///
/// After a refusal nothing has changed. Where memory ended in `add_types`, some types of the group may have joined.
#[derive(Drop)]
pub struct Module {
    features: WasmFeatures,
    types: Vec<CoreTypeId>,
    imports: ImportMap,
    exports: ExportMap,
    export_names: LabelSet,
    size: u64,
    alloc: Global,
}

impl Model for Module {
    ghost use Rattle.wcv_syntax.specs.ModuleTypes.{Module_type};
    ghost use Rattle.wcv_module.specs.Kept.{IsKept};

    ghost Value = { Module_type };

    ghost view = { λ m. record { features = m.features; types = m.types.items; imports = m.imports; exports = m.exports; size = m.size } };

    ghost invariant = { λ m. IsKept m.types.items m.exports m.export_names m.size };
}

impl InternRecGroup for Module {
    ghost use Rattle.wcv_syntax.specs.ModuleTypes.{module_entries, with_type};

    ghost entries = { module_entries };

    ghost allowed = { λ m. m.features };

    ghost with_type = { with_type };

    ghost failed = { λ m. m };

    fn features(&self) -> &WasmFeatures {
        &self.features
    }

    fn add_type_id(&mut self, id: CoreTypeId) -> Result<(), OutOfMemory> {
        self.types.push(id)?;
        Ok(())
    }

    fn type_id_at(&self, idx: u32, offset: u64) -> Result<CoreTypeId, Refusal<'static>> {
        type_id_at(self.types.as_slice(), idx, offset)
    }

    fn types_len(&self) -> u32 {
        self.types.len() as u32
    }
}

/// Whether so many more keep a limit. What they are is for the message.
fn check_room(
    len: usize,
    more: usize,
    what: &'static str,
    offset: u64,
) -> Result<(), Refusal<'static>>
    ensures ok { OnOk result (IsFree (too_many max_entries (len + more))) }
    ensures err { IfErr result (CausedBy (too_many max_entries (len + more)) offset) }
{
    if len > MAX_ENTRIES || more > MAX_ENTRIES - len {
        let why = Why::new("the module would have more than %1 %w").word(what);
        let why = why.numbers([MAX_ENTRIES as u64, 0, 0]);
        return Err(Error::new(ErrorKind::Limit, offset, why));
    }
    Ok(())
}

fn repeated(name: &str, offset: u64) -> Refusal<'_>
    ensures kind { error_kind result ≡ ErrorKind.Conflict }
    ensures offset { error_offset result ≡ offset }
{
    let why = Why::new("the module exports `%n` twice").name(name);
    Error::new(ErrorKind::Conflict, offset, why)
}

/// The name of an export, for the list and for the set.
fn export_texts(alloc: Global, name: &str) -> Result<(Text, String), OutOfMemory>
    ensures text { IfOk result (λ texts. texts.0 ≡ name.now) }
    ensures key { IfOk result (λ texts. string_bytes texts.1 ≡ name.now) }
{
    let text = Text::new(alloc, name)?;
    let key = String::from_str(alloc, name)?;
    Ok((text, key))
}

impl Module {
    /// A module with no declaration. It takes no memory.
    pub fn new(alloc: Global, features: WasmFeatures) -> Module
        ensures { result ≡ empty_module features }
    {
        Module {
            features,
            types: Vec::new(alloc),
            imports: ImportMap::new(alloc),
            exports: ExportMap::new(alloc),
            export_names: LabelSet::new(alloc),
            size: 1,
            alloc,
        }
    }

    /// The types, in order.
    pub fn types(&self) -> &[CoreTypeId]
        ensures { result.now ≡ self.now.types }
    {
        self.types.as_slice()
    }

    /// The imports, in order.
    pub fn imports(&self) -> &ImportMap
        ensures { result.now ≡ self.now.imports }
    {
        &self.imports
    }

    /// The exports, in order.
    pub fn exports(&self) -> &ExportMap
        ensures { result.now ≡ self.now.exports }
    {
        &self.exports
    }

    /// The size of the type so far.
    pub fn size(&self) -> u64
        ensures { result ≡ self.now.size }
    {
        self.size
    }

    /// What a written type comes to: in closed form, over the types so far.
    pub fn check_type_ref(
        &self,
        ty: &TypeRef,
        core: &CoreTypes,
        offset: u64,
    ) -> Result<EntityType, Refusal<'static>>
        requires known { All (IsKnown (total core.now)) (module_entries self.now) }
        ensures ok { IfOk result (λ e. entity_of self.now.types ty.now ≡ Some e) }
        ensures known { IfOk result (IsEntityKnown (total core.now)) }
        ensures free { OnOk result (IsFree (ref_checks self.now.features core.now self.now.types ty.now)) }
        ensures err { IfErr result (CausedBy (ref_checks self.now.features core.now self.now.types ty.now) offset) }
    {
        written(&self.features, self, core, ty, offset)
    }

    /// The type that the module is. It may join the arena.
    pub fn into_type(self, types: &TypeAlloc) -> ModuleType
        requires within { All (IsEntityWithin (total types.now.core)) (module_items self) }
        requires size { self.size ≡ suc (entity_sizes types.now.core (module_items self)) }
        ensures size { result.info.size ≡ self.size }
        ensures imports { result.imports ≡ self.imports }
        ensures exports { result.exports ≡ self.exports }
        ensures types { result.types.items ≡ self.types }
        ensures fits { Fits types.now (node.Module result) }
    {
        let _ = types;
        let depth = depth_of(&self.imports, &self.exports);
        ModuleType {
            info: TypeInfo {
                size: self.size as u32,
                depth,
            },
            imports: self.imports,
            exports: self.exports,
            types: self.types,
        }
    }

    /// Whether no two imports have one pair of names, as the type of a module asks.
    pub fn check_whole(&self, offset: u64) -> Result<(), Error>
        ensures free { OnOk result (IsFree (whole_checks self.now)) }
        ensures cause { IfErr result (MemoryOrCausedBy (whole_checks self.now) offset) }
    {
        check_pairs(self.alloc, self.imports.as_slice(), offset)
    }

    /// The imports, where no two of them have one pair of names.
    pub fn imports_for_module_type(&self, offset: u64) -> Result<ImportMap, Error>
        ensures ok { IfOk result (λ imports. imports ≡ self.now.imports) }
        ensures free { OnOk result (IsFree (whole_checks self.now)) }
        ensures cause { IfErr result (MemoryOrCausedBy (whole_checks self.now) offset) }
    {
        self.check_whole(offset)?;
        Ok(self.imports.copy(self.alloc)?)
    }

    /// Adds a group of types behind the others: puts it into closed form and interns it. Of the arena the table
    /// of core types alone grows.
    #[tactic(auto, using(wcv_types::proofs::Grown::extends_refl, crate::proofs::Growing::keeps_same))]
    pub fn add_types(
        &mut self,
        rec: RecGroup,
        types: &mut TypeAlloc,
        offset: u64,
    ) -> Result<(), Refusal<'static>>
        requires known { All (IsKnown (total types.old.core)) (module_entries self.old) }
        ensures ok { OnOk result ((types.new.core, self.new) ≡ with_group_of types.old.core self.old (group_form rec)) }
        ensures free { OnOk result (IsFree (group_joins types.old.core self.old (group_form rec))) }
        ensures known { All (IsKnown (total types.new.core)) (module_entries self.new) }
        ensures cause { IfErr result (MemoryOrCausedBy (group_joins types.old.core self.old (group_form rec)) offset) }
        ensures err { IfErr result (IsLeft with_type (λ m. m) self.old self.new types.old.core types.new.core (closed_group (module_entries self.old) (group_form rec))) }
        ensures rest { types.new ≡ with_core types.old types.new.core }
        ensures grown { Extends types.old types.new }
        ensures stay { KeepsTrees types.old types.new }
    {
        check_room(self.types.len(), rec.types.len(), "types", offset)?;
        match types.intern_rec_group(self, rec, offset) {
            Ok(()) => Ok(()),
            Err(err) => Err(err),
        }
    }

    /// Adds a type that stands in the table already, as an outer alias does.
    pub fn add_alias_type(&mut self, id: CoreTypeId, offset: u64) -> Result<(), Refusal<'static>>
        ensures ok { OnOk result (self.new ≡ with_type self.old id.index) }
        ensures free { OnOk result (IsFree (types_checks self.old 1)) }
        ensures cause { IfErr result (MemoryOrCausedBy (types_checks self.old 1) offset) }
        ensures err { OnErr result (self.new ≡ self.old) }
    {
        check_room(self.types.len(), 1, "types", offset)?;
        self.types.push(id)?;
        Ok(())
    }

    /// The size of the type with one more import or export, where there are so many. What these are is for the
    /// message.
    fn size_with(
        &self,
        len: usize,
        what: &'static str,
        core: &CoreTypes,
        ty: EntityType,
        offset: u64,
    ) -> Result<u64, Refusal<'static>>
        requires known { IsEntityKnown (total core.now) ty }
        ensures ok { IfOk result (λ size. size ≡ self.now.size + entity_size core.now ty) }
        ensures small { IfOk result (λ size. size ≤ max_size) }
        ensures free { OnOk result (IsFree (too_many max_entries (len + 1) ++ size_checks core.now self.now ty)) }
        ensures err { IfErr result (CausedBy (too_many max_entries (len + 1) ++ size_checks core.now self.now ty) offset) }
    {
        check_room(len, 1, what, offset)?;
        let size = core_item_size(core, ty);
        if size > MAX_SIZE - self.size {
            let why = Why::new("the type of the module would have a size above %1");
            let why = why.numbers([MAX_SIZE, 0, 0]);
            return Err(Error::new(ErrorKind::Limit, offset, why));
        }
        Ok(self.size + size)
    }

    /// What an import of that type comes to, and the size with it.
    fn check_import(
        &self,
        ty: &TypeRef,
        core: &CoreTypes,
        offset: u64,
    ) -> Result<(EntityType, u64), Refusal<'static>>
        requires known { All (IsKnown (total core.now)) (module_entries self.now) }
        ensures ok { IfOk result (λ p. entity_of self.now.types ty.now ≡ Some p.0) }
        ensures size { IfOk result (λ p. p.1 ≡ self.now.size + entity_size core.now p.0) }
        ensures small { IfOk result (λ p. p.1 ≤ max_size) }
        ensures free { OnOk result (IsFree (import_joins core.now self.now ty.now)) }
        ensures err { IfErr result (CausedBy (import_joins core.now self.now ty.now) offset) }
    {
        let entity = self.check_type_ref(ty, core, offset)?;
        let size = self.size_with(self.imports.len(), "imports", core, entity, offset)?;
        Ok((entity, size))
    }

    /// Adds an import. Whether another one has its names is looked at by `imports_for_module_type`.
    pub fn add_import(
        &mut self,
        import: Import,
        core: &CoreTypes,
        offset: u64,
    ) -> Result<(), Refusal<'static>>
        requires known { All (IsKnown (total core.now)) (module_entries self.old) }
        ensures ok { OnOk result (option_map (with_import core.now self.old (import.module, import.name)) (entity_of self.old.types import.ty) ≡ Some self.new) }
        ensures free { OnOk result (IsFree (import_joins core.now self.old import.ty)) }
        ensures cause { IfErr result (MemoryOrCausedBy (import_joins core.now self.old import.ty) offset) }
        ensures err { OnErr result (self.new ≡ self.old) }
    {
        match self.check_import(&import.ty, core, offset) {
            Ok((ty, size)) => {
                self.imports.push(((import.module, import.name), ty))?;
                self.size = size;
                Ok(())
            }
            Err(err) => Err(err),
        }
    }

    /// Adds an export of a type that `check_type_ref` gave.
    pub fn add_export<'a>(
        &mut self,
        name: &'a str,
        ty: EntityType,
        offset: u64,
        core: &CoreTypes,
    ) -> Result<(), Refusal<'a>>
        requires known { IsEntityKnown (total core.now) ty }
        ensures ok { OnOk result (self.new ≡ with_export core.now self.old name.now ty) }
        ensures free { OnOk result (IsFree (export_checks core.now self.old name.now ty)) }
        ensures cause { IfErr result (MemoryOrCausedBy (export_checks core.now self.old name.now ty) offset) }
        ensures err { OnErr result (self.new ≡ self.old) }
    {
        let len = self.exports.len();
        let size = self.size_with(len, "exports", core, ty, offset)?;
        let texts = export_texts(self.alloc, name)?;
        self.exports.push((texts.0, ty))?;
        match self.export_names.insert_text(texts.1) {
            Ok(true) => {
                self.size = size;
                Ok(())
            }
            Ok(false) => {
                self.exports.truncate(len);
                Err(repeated(name, offset))
            }
            Err(err) => {
                self.exports.truncate(len);
                Err(Refusal::from(err))
            }
        }
    }
}
