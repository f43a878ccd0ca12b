// Entities that join the imports or the exports of a state.
ghost use Rattle.std.specs.Prelude.{◌≡◌, true, false, OnOk, OnErr, IfErr};
ghost use Rattle.wcv_types.specs.Entities.{entity_tree};
ghost use Rattle.wcv_types.specs.Unfold.{trees};
ghost use Rattle.wcv_lower.specs.Context.{importing, exporting};
ghost use Rattle.wcv_lower.specs.Entries.{extern_name, join_checks};
ghost use Rattle.wcv_lower.specs.Owned.{IsLed};
ghost use Rattle.wcv_spaces.specs.Bringing.{MayJoin, AreNewIn, HasJoined};
ghost use Rattle.wcv_spaces.specs.Contents.{context_of, StateStands};
ghost use Rattle.wcv_spaces.specs.Looking.{IsUnnamedIn};
ghost use Rattle.wcv_spaces.specs.Promises.{MemoryOrCausedBy, Keeps};

use crate::state::ComponentState;
use wcv_core::{Error, ExternKind};
use wcv_resources::resources::{export_resources, import_resources};
use wcv_spaces::entries::enter;
use wcv_spaces::new_entity::NewEntity;
use wcv_syntax::ComponentExternName;
use wcv_types::TypeAlloc;

impl ComponentState {
    /// An entity joins the imports under a name, and its space, where it may. The types that it needs are looked at first,
    /// what it creates is named, and the resources that it introduces are imported.
    pub(crate) fn join_imports(
        &mut self,
        name: ComponentExternName,
        new: &NewEntity,
        types: &mut TypeAlloc,
        offset: u64,
    ) -> Result<(), Error>
        requires live { self.old.spent ≡ false }
        requires stands { StateStands types.old self.old }
        requires may_join { MayJoin types.old new.now }
        requires unnamed { IsUnnamedIn self.old.imports new.now.ty }
        requires fresh { AreNewIn self.old.imported_resources new.now.resources }
        ensures ok { OnOk result (HasJoined true importing types.old self.old self.new name new.now) }
        ensures err { IfErr result (MemoryOrCausedBy (join_checks true self.old.features importing (extern_name name) (context_of types.old self.old) (entity_tree (trees types.old.nodes) new.now.ty)) offset) }
        ensures spent { OnErr result (self.new.spent ≡ true) }
        ensures keeps { Keeps types.old types.new self.old self.new }
        ensures types { types.new ≡ types.old }
    {
        self.spent = true;
        let text = name.name.as_str();
        self.named.name_entry(self.kind, ExternKind::Import, text, &new.ty, types, offset)?;
        let position = self.imports.items.len() as u64;
        enter(
            &mut self.spaces,
            &mut self.info,
            &mut self.imports,
            ExternKind::Import,
            name,
            new.ty,
            types,
            &self.features,
            true,
            offset,
        )?;
        import_resources(
            &mut self.imported_resources,
            &new.resources,
            position,
            types.allocator(),
        )?;
        self.spent = false;
        Ok(())
    }

    /// So an entity joins the exports, and what it introduces is defined. Where `limited` is false their number is not
    /// looked at.
    pub(crate) fn join_exports(
        &mut self,
        name: ComponentExternName,
        new: &NewEntity,
        types: &mut TypeAlloc,
        limited: bool,
        offset: u64,
    ) -> Result<(), Error>
        requires live { self.old.spent ≡ false }
        requires stands { StateStands types.old self.old }
        requires may_join { MayJoin types.old new.now }
        requires unnamed { IsUnnamedIn self.old.exports new.now.ty }
        requires fresh { AreNewIn self.old.defined_resources new.now.resources }
        ensures ok { OnOk result (HasJoined limited exporting types.old self.old self.new name new.now) }
        ensures led { OnOk result (IsLed (context_of types.old self.old) → IsLed (context_of types.old self.new)) }
        ensures err { IfErr result (MemoryOrCausedBy (join_checks limited self.old.features exporting (extern_name name) (context_of types.old self.old) (entity_tree (trees types.old.nodes) new.now.ty)) offset) }
        ensures spent { OnErr result (self.new.spent ≡ true) }
        ensures keeps { Keeps types.old types.new self.old self.new }
        ensures types { types.new ≡ types.old }
    {
        self.spent = true;
        let text = name.name.as_str();
        self.named.name_entry(self.kind, ExternKind::Export, text, &new.ty, types, offset)?;
        enter(
            &mut self.spaces,
            &mut self.info,
            &mut self.exports,
            ExternKind::Export,
            name,
            new.ty,
            types,
            &self.features,
            limited,
            offset,
        )?;
        export_resources(&mut self.defined_resources, &new.resources)?;
        self.spent = false;
        Ok(())
    }
}
