// Declarations that hold no type, over the states that are open.
ghost use Rattle.std.specs.Prelude.{◌≡◌, false, List, OnOk, OnErr, IfErr};
ghost use Rattle.wcv_core.specs.Names.{Place};
ghost use Rattle.wcv_syntax.specs.Model.{core_type_decl, alias_decl, export_decl, import_decl};
ghost use Rattle.wcv_syntax.specs.View.{core_type_view};
ghost use Rattle.wcv_lower.specs.Owned.{IsLed};
ghost use Rattle.wcv_lower.specs.Trees.{Tree_context};
ghost use Rattle.wcv_spaces.specs.Contents.{context_of, StateStands};
ghost use Rattle.wcv_instantiate.specs.Instances.{MayOpen};
ghost use Rattle.wcv_spaces.specs.Promises.{Keeps, ExportDeclared, ExportCaused};
ghost use Rattle.wcv_decls.specs.Declaring.{AreReady, StayReady, DeclaresInstance, MemoryOr, SameAround, ReadsDecl, RefusesDecl};
ghost use Rattle.wcv_decls.specs.Stack.{KeepsOn};

use crate::core_type::add_core_type_on;
use wcv_core::Error;
use wcv_state::ComponentState;
use wcv_syntax::{
    ComponentAlias, ComponentExternName, ComponentImport, ComponentTypeRef, CoreType,
};
use wcv_types::TypeAlloc;

/// A declared core type.
pub fn declare_core_type(
    ty: CoreType,
    components: &mut Vec<ComponentState>,
    types: &mut TypeAlloc,
    offset: u64,
) -> Result<(), Error>
    requires ready { AreReady types.old components.old.items }
    ensures ok { OnOk result (ReadsDecl types.old types.new components.old.items components.new.items (core_type_decl (core_type_view ty))) }
    ensures ready { OnOk result (StayReady types.new components.old.items components.new.items) }
    ensures declares { OnOk result (DeclaresInstance types.old components.old.items → DeclaresInstance types.new components.new.items) }
    ensures err { IfErr result (MemoryOr (RefusesDecl types.old types.new components.old.items (core_type_decl (core_type_view ty))) offset) }
    ensures around { OnErr result (SameAround components.old.items components.new.items) }
    ensures keeps { KeepsOn types.old types.new components.old.items components.new.items }
{
    add_core_type_on(components.as_mut_slice(), ty, types, offset)
}

/// A declared alias.
pub fn declare_alias(
    alias: ComponentAlias,
    components: &mut Vec<ComponentState>,
    types: &mut TypeAlloc,
    offset: u64,
) -> Result<(), Error>
    requires ready { AreReady types.old components.old.items }
    ensures ok { OnOk result (ReadsDecl types.old types.new components.old.items components.new.items (alias_decl alias)) }
    ensures ready { OnOk result (StayReady types.new components.old.items components.new.items) }
    ensures declares { OnOk result (DeclaresInstance types.old components.old.items → DeclaresInstance types.new components.new.items) }
    ensures err { IfErr result (MemoryOr (RefusesDecl types.old types.new components.old.items (alias_decl alias)) offset) }
    ensures around { OnErr result (SameAround components.old.items components.new.items) }
    ensures keeps { KeepsOn types.old types.new components.old.items components.new.items }
{
    ComponentState::add_alias(components.as_mut_slice(), alias, types, offset)
}

/// A declared export of a state.
fn add_export(
    name: ComponentExternName,
    ty: ComponentTypeRef,
    state: &mut ComponentState,
    types: &mut TypeAlloc,
    offset: u64,
) -> Result<(), Error>
    requires live { state.old.spent ≡ false }
    requires stands { StateStands types.old state.old }
    requires opens { MayOpen types.old state.old.spaces.types ty }
    ensures ok { OnOk result ((outer : List Tree_context) (p : Place) → ExportDeclared types.old types.new outer p state.old state.new name ty) }
    ensures led { OnOk result (IsLed (context_of types.old state.old) → IsLed (context_of types.new state.new)) }
    ensures live { OnOk result (state.new.spent ≡ false) }
    ensures err { IfErr result (λ e. (p : Place) → ExportCaused types.old types.new p state.old name ty offset e) }
    ensures keeps { Keeps types.old types.new state.old state.new }
{
    let entity = state.check_type_ref(&ty, types, offset)?;
    state.add_export(name, entity, types, offset, true)
}

/// A declared export.
pub fn declare_export(
    name: ComponentExternName,
    ty: ComponentTypeRef,
    components: &mut Vec<ComponentState>,
    types: &mut TypeAlloc,
    offset: u64,
) -> Result<(), Error>
    requires ready { AreReady types.old components.old.items }
    ensures ok { OnOk result (ReadsDecl types.old types.new components.old.items components.new.items (export_decl name ty)) }
    ensures ready { OnOk result (StayReady types.new components.old.items components.new.items) }
    ensures declares { OnOk result (DeclaresInstance types.old components.old.items → DeclaresInstance types.new components.new.items) }
    ensures err { IfErr result (MemoryOr (RefusesDecl types.old types.new components.old.items (export_decl name ty)) offset) }
    ensures around { OnErr result (SameAround components.old.items components.new.items) }
    ensures keeps { KeepsOn types.old types.new components.old.items components.new.items }
{
    let last = components.len() - 1;
    add_export(name, ty, &mut components[last], types, offset)
}

/// A declared import.
pub fn declare_import(
    import: ComponentImport,
    components: &mut Vec<ComponentState>,
    types: &mut TypeAlloc,
    offset: u64,
) -> Result<(), Error>
    requires ready { AreReady types.old components.old.items }
    ensures ok { OnOk result (ReadsDecl types.old types.new components.old.items components.new.items (import_decl import)) }
    ensures ready { OnOk result (StayReady types.new components.old.items components.new.items) }
    ensures err { IfErr result (MemoryOr (RefusesDecl types.old types.new components.old.items (import_decl import)) offset) }
    ensures around { OnErr result (SameAround components.old.items components.new.items) }
    ensures keeps { KeepsOn types.old types.new components.old.items components.new.items }
{
    let last = components.len() - 1;
    components[last].add_import(import, types, offset)
}
