// Imports and exports that are read.
ghost use Rattle.std.specs.Prelude.{◌≡◌, false, true, List, OnOk, OnErr, IfOk, IfErr};
ghost use Rattle.wcv_core.specs.Names.{Place};
ghost use Rattle.wcv_syntax.specs.Model.{import_item, export_item};
ghost use Rattle.wcv_types.specs.Standing.{Extends};
ghost use Rattle.wcv_lower.specs.Checks.{IsFree};
ghost use Rattle.wcv_lower.specs.Entries as rules;
ghost use Rattle.wcv_lower.specs.Entries.{written_checks, found_checks, exported_values};
ghost use Rattle.wcv_lower.specs.Trees.{Tree_context};
ghost use Rattle.wcv_lower.specs.Values.{kind_checks};
ghost use Rattle.wcv_spaces.specs.Bringing.{Found};
ghost use Rattle.wcv_spaces.specs.Contents.{with_uses, context_of, StateStands};
ghost use Rattle.wcv_instantiate.specs.Instances.{MayOpen, ItemMayOpen, EntityMayOpen};
ghost use Rattle.wcv_spaces.specs.Looking.{GivesItem};
ghost use Rattle.wcv_spaces.specs.Promises.{MemoryOrCausedBy, Keeps, Grew, Refuses, RefusesBy, WrittenEntity, Exported, ItemCaused, Entered, EntryCaused, is_instance_entity, MayJoinExports};

use crate::state::ComponentState;
use wcv_core::Error;
use wcv_instantiate::ascribing::check_ascribed;
use wcv_instantiate::opening::open_entity;
use wcv_spaces::entities::{exported, item_at, written};
use wcv_spaces::features::check_kind;
use wcv_spaces::new_entity::NewEntity;
use wcv_syntax::{ComponentExport, ComponentExternName, ComponentImport, ComponentTypeRef};
use wcv_types::{ComponentEntityType, TypeAlloc};

impl ComponentState {
    /// The entity that a written type gives, which may be handed to `add_export` next. Refuses an index that is not below the length as `OutOfBounds`,
    /// a type of another sort as `WrongSort`, and what needs a missing feature as `Feature`.
    pub fn check_type_ref(
        &mut self,
        ty: &ComponentTypeRef,
        types: &mut TypeAlloc,
        offset: u64,
    ) -> Result<ComponentEntityType, Error>
        requires live { self.old.spent ≡ false }
        requires stands { StateStands types.old self.old }
        ensures ok { IfOk result (λ x. (p : Place) → WrittenEntity types.old types.new p self.old ty.now x) }
        ensures joins { IfOk result (MayJoinExports types.new self.new) }
        ensures opens { IfOk result (λ x. MayOpen types.old self.old.spaces.types ty.now → EntityMayOpen types.new x) }
        ensures same { OnOk result (self.new ≡ self.old) }
        ensures err { IfErr result (RefusesBy (written_checks self.old.features (context_of types.old self.old) ty.now) self.new offset) }
        ensures keeps { Keeps types.old types.new self.old self.new }
    {
        self.spent = true;
        let entity = written(&self.spaces, ty, types, &self.features, offset)?;
        self.spent = false;
        Ok(entity)
    }

    /// What joins for an import of that type.
    fn read_import(
        &self,
        ty: &ComponentTypeRef,
        types: &mut TypeAlloc,
        offset: u64,
    ) -> Result<NewEntity, Error>
        requires stands { StateStands types.old self.now }
        requires opens { MayOpen types.old self.now.spaces.types ty.now }
        ensures ok { IfOk result (λ n. Found types.old types.new n (λ k. written_checks self.now.features (context_of types.old self.now) ty.now) (λ k. rules.written k (context_of types.old self.now) ty.now)) }
        ensures grown { Extends types.old types.new }
        ensures err { IfErr result (MemoryOrCausedBy (written_checks self.now.features (context_of types.old self.now) ty.now) offset) }
    {
        let entity = written(&self.spaces, ty, types, &self.features, offset)?;
        let new = open_entity(types, entity)?;
        Ok(new)
    }

    /// Reads an import: the entity that its type gives joins the imports and the space of its sort. Refuses
    /// what `check_type_ref` refuses, what needs a type that is not named as `Unnamed`, a name in no form as
    /// `Name`, one that needs a missing feature as `Feature`, an entity that does not look as its name says as
    /// `MethodName`, a name whose key another import has as `Conflict`, and more entries, size or depth than
    /// there may be as `Limit`. The length of the name is left to the caller.
    pub fn add_import(
        &mut self,
        import: ComponentImport,
        types: &mut TypeAlloc,
        offset: u64,
    ) -> Result<(), Error>
        requires live { self.old.spent ≡ false }
        requires stands { StateStands types.old self.old }
        requires opens { MayOpen types.old self.old.spaces.types import.ty }
        ensures ok { OnOk result ((outer : List Tree_context) (p : Place) → Grew types.old types.new outer p self.old self.new (import_item import)) }
        ensures err { IfErr result (λ e. (outer : List Tree_context) (p : Place) → Refuses types.old types.new outer p self.old self.new (import_item import) offset e) }
        ensures keeps { Keeps types.old types.new self.old self.new }
    {
        let new = match self.read_import(&import.ty, types, offset) {
            Ok(new) => new,
            Err(error) => {
                self.spent = true;
                return Err(error);
            }
        };
        let joined = self.join_imports(import.name, &new, types, offset);
        drop(new);
        match joined {
            Ok(()) => Ok(()),
            Err(error) => Err(error),
        }
    }

    /// The entity of an exported item: what stands at the index, a type created again, or what the written type
    /// gives.
    fn exported_entity(
        &self,
        export: &ComponentExport,
        types: &mut TypeAlloc,
        offset: u64,
    ) -> Result<ComponentEntityType, Error>
        requires { StateStands types.old self.now }
        ensures ok { IfOk result (GivesItem types.old types.new self.now.features self.now.spaces export.now export.now.ty) }
        ensures kind { OnOk result (IsFree (kind_checks self.now.features export.now.kind)) }
        ensures grown { Extends types.old types.new }
        ensures err { IfErr result (λ e. (p : Place) → ItemCaused types.old types.new p self.now export.now offset e) }
    {
        check_kind(&self.features, export.kind, offset)?;
        match &export.ty {
            None => {
                let entity = exported(&self.spaces, export, types, offset)?;
                Ok(entity)
            }
            Some(ty) => {
                let item = item_at(&self.spaces, export.kind, export.index, offset)?;
                let entity = written(&self.spaces, ty, types, &self.features, offset)?;
                match check_ascribed(types, &item, &entity, offset) {
                    Ok(()) => Ok(entity),
                    Err(error) => Err(error),
                }
            }
        }
    }

    /// The entity of an exported item, which may be handed to `add_export` next: where a type is written beside it,
    /// what that gives. A value is used from here on. Refuses an index that is not below the length as `OutOfBounds`,
    /// what `check_type_ref` refuses of the written type, an item that does not match it as `Mismatch`, a value that
    /// is used as `Value`, and what needs a missing feature as `Feature`. No item matches a type that brings resources
    /// of its own.
    pub fn export_to_entity_type(
        &mut self,
        export: &ComponentExport,
        types: &mut TypeAlloc,
        offset: u64,
    ) -> Result<ComponentEntityType, Error>
        requires live { self.old.spent ≡ false }
        requires stands { StateStands types.old self.old }
        ensures ok { IfOk result (λ x. (p : Place) → Exported types.old types.new p self.old export.now x) }
        ensures joins { IfOk result (MayJoinExports types.new self.new) }
        ensures opens { IfOk result (λ x. ItemMayOpen types.old self.old.spaces.instances export.now → EntityMayOpen types.new x) }
        ensures same { OnOk result (self.new ≡ with_uses (exported_values export.now) self.old) }
        ensures spent { OnErr result (self.new.spent ≡ true) }
        ensures err { IfErr result (λ e. (p : Place) → ItemCaused types.old types.new p self.old export.now offset e) }
        ensures keeps { Keeps types.old types.new self.old self.new }
    {
        let entity = match self.exported_entity(export, types, offset) {
            Ok(entity) => entity,
            Err(error) => {
                self.spent = true;
                return Err(error);
            }
        };
        self.use_item(export.kind, export.index, offset)?;
        Ok(entity)
    }

    /// Reads an export of that entity: it joins the exports and the space of its sort. Refuses as
    /// `add_import` does by the exports' names. Where `check_limit` is false the number of exports is not
    /// looked at. The length of the name is left to the caller.
    pub fn add_export(
        &mut self,
        name: ComponentExternName,
        ty: ComponentEntityType,
        types: &mut TypeAlloc,
        offset: u64,
        check_limit: bool,
    ) -> Result<(), Error>
        requires live { self.old.spent ≡ false }
        requires stands { StateStands types.old self.old }
        requires joins { MayJoinExports types.old self.old ty }
        requires opens { EntityMayOpen types.old ty }
        ensures ok { OnOk result ((outer : List Tree_context) (p : Place) → Entered check_limit types.old types.new outer p self.old self.new name ty) }
        ensures spent { OnErr result (self.new.spent ≡ true) }
        ensures err { IfErr result (λ e. (p : Place) → EntryCaused check_limit types.old types.new p self.old name ty offset e) }
        ensures keeps { Keeps types.old types.new self.old self.new }
        ensures types { is_instance_entity ty ≡ false → types.new ≡ types.old }
    {
        let new = match open_entity(types, ty) {
            Ok(new) => new,
            Err(error) => {
                self.spent = true;
                return Err(Error::from(error));
            }
        };
        let joined = self.join_exports(name, &new, types, check_limit, offset);
        drop(new);
        match joined {
            Ok(()) => Ok(()),
            Err(error) => Err(error),
        }
    }

    /// What joins for an export item.
    fn read_export(
        &self,
        export: &ComponentExport,
        types: &mut TypeAlloc,
        offset: u64,
    ) -> Result<NewEntity, Error>
        requires stands { StateStands types.old self.now }
        requires opens { ItemMayOpen types.old self.now.spaces.instances export.now }
        ensures ok { IfOk result (λ n. Found types.old types.new n (λ k. found_checks self.now.features types.old.core k (context_of types.old self.now) export.now) (λ k. rules.exported k (context_of types.old self.now) export.now)) }
        ensures grown { Extends types.old types.new }
        ensures err { IfErr result (λ e. (p : Place) → ItemCaused types.old types.new p self.now export.now offset e) }
    {
        match self.exported_entity(export, types, offset) {
            Ok(entity) => {
                let new = open_entity(types, entity)?;
                Ok(new)
            }
            Err(error) => Err(error),
        }
    }

    /// Reads an export item: the exported item joins the exports and the space of its sort. Refuses what
    /// `export_to_entity_type` and `add_export` refuse. The length of the name is left to the caller.
    pub fn add_export_item(
        &mut self,
        export: ComponentExport,
        types: &mut TypeAlloc,
        offset: u64,
    ) -> Result<(), Error>
        requires live { self.old.spent ≡ false }
        requires stands { StateStands types.old self.old }
        requires opens { ItemMayOpen types.old self.old.spaces.instances export }
        ensures ok { OnOk result ((outer : List Tree_context) (p : Place) → Grew types.old types.new outer p self.old self.new (export_item export)) }
        ensures err { IfErr result (λ e. (outer : List Tree_context) (p : Place) → Refuses types.old types.new outer p self.old self.new (export_item export) offset e) }
        ensures keeps { Keeps types.old types.new self.old self.new }
    {
        let new = match self.read_export(&export, types, offset) {
            Ok(new) => new,
            Err(error) => {
                self.spent = true;
                return Err(error);
            }
        };
        self.use_item(export.kind, export.index, offset)?;
        let joined = self.join_exports(export.name, &new, types, true, offset);
        drop(new);
        match joined {
            Ok(()) => Ok(()),
            Err(error) => Err(error),
        }
    }
}
