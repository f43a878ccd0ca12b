// Declared types: each declaration is read in order, in a state on top of the others.
ghost use Rattle.std.specs.Prelude.{◌≡◌, map, OnOk, OnErr, IfErr};
ghost use Rattle.wcv_core.specs.Refusal.{error_kind, error_offset};
ghost use Rattle.wcv_syntax.specs.Model.{component_type, instance_type};
ghost use Rattle.wcv_syntax.specs.View.{decls_of, type_view, component_decl_view, instance_decl_view};
ghost use Rattle.wcv_lower.specs.Context.{declares_instance, declares_component};
ghost use Rattle.wcv_decls.specs.Declaring.{AreReady, StayReady, DeclaresInstance, MemoryOr, SameAround, ReadsType, ReadsDecl, ReadsDecls, RefusesType, RefusesDecl, RefusesDecls};
ghost use Rattle.wcv_decls.specs.Stack.{KeepsOn};

use crate::close::{end_component_type, end_instance_type, leave};
use crate::declarations::{declare_alias, declare_core_type, declare_export, declare_import};
use crate::declare::declare_plain;
use crate::open::open_type;
use wcv_core::Error;
use wcv_state::{ComponentKind, ComponentState};
use wcv_syntax::{ComponentType, ComponentTypeDeclaration, InstanceTypeDeclaration};
use wcv_types::TypeAlloc;

/// The same refusal, with the declaration's position in its message.
fn in_declaration(error: &Error, position: usize) -> Error
    ensures kind { error_kind result ≡ error_kind error.now }
    ensures offset { error_offset result ≡ error_offset error.now }
{
    Error::told(
        error.kind(),
        error.offset(),
        format_args!("declaration {position}: {error}"),
    )
}

/// A type joins the types of the innermost state.
#[cycle(declared)]
pub fn declare_type(
    ty: ComponentType,
    components: &mut Vec<ComponentState>,
    types: &mut TypeAlloc,
    offset: u64,
    check_limit: bool,
) -> Result<(), Error>
    requires ready { AreReady types.old components.old.items }
    ensures ok { OnOk result (ReadsType check_limit types.old types.new components.old.items components.new.items (type_view ty)) }
    ensures ready { OnOk result (StayReady types.new components.old.items components.new.items) }
    ensures declares { OnOk result (DeclaresInstance types.old components.old.items → DeclaresInstance types.new components.new.items) }
    ensures err { IfErr result (MemoryOr (RefusesType check_limit types.old types.new components.old.items (type_view ty)) offset) }
    ensures around { OnErr result (SameAround components.old.items components.new.items) }
    ensures keeps { KeepsOn types.old types.new components.old.items components.new.items }
{
    match ty {
        ComponentType::Component(decls) => {
            declare_component_type(decls, components, types, offset, check_limit)
        }
        ComponentType::Instance(decls) => {
            declare_instance_type(decls, components, types, offset, check_limit)
        }
        plain => declare_plain(plain, components, types, offset, check_limit),
    }
}

/// A component type.
#[cycle(declared)]
fn declare_component_type(
    decls: Vec<ComponentTypeDeclaration>,
    components: &mut Vec<ComponentState>,
    types: &mut TypeAlloc,
    offset: u64,
    check_limit: bool,
) -> Result<(), Error>
    requires ready { AreReady types.old components.old.items }
    ensures ok { OnOk result (ReadsType check_limit types.old types.new components.old.items components.new.items (component_type (decls_of (map component_decl_view decls.items)))) }
    ensures ready { OnOk result (StayReady types.new components.old.items components.new.items) }
    ensures declares { OnOk result (DeclaresInstance types.old components.old.items → DeclaresInstance types.new components.new.items) }
    ensures err { IfErr result (MemoryOr (RefusesType check_limit types.old types.new components.old.items (component_type (decls_of (map component_decl_view decls.items)))) offset) }
    ensures around { OnErr result (SameAround components.old.items components.new.items) }
    ensures keeps { KeepsOn types.old types.new components.old.items components.new.items }
{
    open_type(
        ComponentKind::ComponentType,
        components,
        types,
        offset,
        check_limit,
    )?;
    match read_component_decls(decls, components, types, offset) {
        Ok(()) => end_component_type(components, types, offset),
        Err(error) => {
            leave(components);
            Err(error)
        }
    }
}

/// An instance type.
#[cycle(declared)]
fn declare_instance_type(
    decls: Vec<InstanceTypeDeclaration>,
    components: &mut Vec<ComponentState>,
    types: &mut TypeAlloc,
    offset: u64,
    check_limit: bool,
) -> Result<(), Error>
    requires ready { AreReady types.old components.old.items }
    ensures ok { OnOk result (ReadsType check_limit types.old types.new components.old.items components.new.items (instance_type (decls_of (map instance_decl_view decls.items)))) }
    ensures ready { OnOk result (StayReady types.new components.old.items components.new.items) }
    ensures declares { OnOk result (DeclaresInstance types.old components.old.items → DeclaresInstance types.new components.new.items) }
    ensures err { IfErr result (MemoryOr (RefusesType check_limit types.old types.new components.old.items (instance_type (decls_of (map instance_decl_view decls.items)))) offset) }
    ensures around { OnErr result (SameAround components.old.items components.new.items) }
    ensures keeps { KeepsOn types.old types.new components.old.items components.new.items }
{
    open_type(
        ComponentKind::InstanceType,
        components,
        types,
        offset,
        check_limit,
    )?;
    match read_instance_decls(decls, components, types, offset) {
        Ok(()) => end_instance_type(components, types, offset),
        Err(error) => {
            leave(components);
            Err(error)
        }
    }
}

/// The declarations of a component type, in order.
#[cycle(declared)]
fn read_component_decls(
    decls: Vec<ComponentTypeDeclaration>,
    components: &mut Vec<ComponentState>,
    types: &mut TypeAlloc,
    offset: u64,
) -> Result<(), Error>
    requires ready { AreReady types.old components.old.items }
    ensures ok { OnOk result (ReadsDecls types.old types.new components.old.items components.new.items (decls_of (map component_decl_view decls.items))) }
    ensures ready { OnOk result (StayReady types.new components.old.items components.new.items) }
    ensures err { IfErr result (MemoryOr (RefusesDecls declares_component types.old types.new components.old.items (decls_of (map component_decl_view decls.items))) offset) }
    ensures around { OnErr result (SameAround components.old.items components.new.items) }
    ensures keeps { KeepsOn types.old types.new components.old.items components.new.items }
{
    let mut position = 0usize;
    for decl in decls {
        match read_component_decl(decl, components, types, offset) {
            Ok(()) => position = position.saturating_add(1),
            Err(error) => return Err(in_declaration(&error, position)),
        }
    }
    Ok(())
}

/// Those of an instance type.
#[cycle(declared)]
fn read_instance_decls(
    decls: Vec<InstanceTypeDeclaration>,
    components: &mut Vec<ComponentState>,
    types: &mut TypeAlloc,
    offset: u64,
) -> Result<(), Error>
    requires ready { AreReady types.old components.old.items }
    requires declares { DeclaresInstance types.old components.old.items }
    ensures ok { OnOk result (ReadsDecls types.old types.new components.old.items components.new.items (decls_of (map instance_decl_view decls.items))) }
    ensures ready { OnOk result (StayReady types.new components.old.items components.new.items) }
    ensures declares { OnOk result (DeclaresInstance types.new components.new.items) }
    ensures err { IfErr result (MemoryOr (RefusesDecls declares_instance types.old types.new components.old.items (decls_of (map instance_decl_view decls.items))) offset) }
    ensures around { OnErr result (SameAround components.old.items components.new.items) }
    ensures keeps { KeepsOn types.old types.new components.old.items components.new.items }
{
    let mut position = 0usize;
    for decl in decls {
        match read_instance_decl(decl, components, types, offset) {
            Ok(()) => position = position.saturating_add(1),
            Err(error) => return Err(in_declaration(&error, position)),
        }
    }
    Ok(())
}

/// A declaration of a component type.
#[cycle(declared)]
#[tactic(auto, using(wcv_syntax::proofs::Views::component_of_core_type, wcv_syntax::proofs::Views::component_of_type, wcv_syntax::proofs::Views::component_of_alias, wcv_syntax::proofs::Views::component_of_export, wcv_syntax::proofs::Views::component_of_import))]
fn read_component_decl(
    decl: ComponentTypeDeclaration,
    components: &mut Vec<ComponentState>,
    types: &mut TypeAlloc,
    offset: u64,
) -> Result<(), Error>
    requires ready { AreReady types.old components.old.items }
    ensures ok { OnOk result (ReadsDecl types.old types.new components.old.items components.new.items (component_decl_view decl)) }
    ensures ready { OnOk result (StayReady types.new components.old.items components.new.items) }
    ensures err { IfErr result (MemoryOr (RefusesDecl types.old types.new components.old.items (component_decl_view decl)) offset) }
    ensures around { OnErr result (SameAround components.old.items components.new.items) }
    ensures keeps { KeepsOn types.old types.new components.old.items components.new.items }
{
    match decl {
        ComponentTypeDeclaration::CoreType(ty) => {
            declare_core_type(ty, components, types, offset)
        }
        ComponentTypeDeclaration::Ty(ty) => declare_type(ty, components, types, offset, true),
        ComponentTypeDeclaration::Export { name, ty } => {
            declare_export(name, ty, components, types, offset)
        }
        ComponentTypeDeclaration::Import(import) => {
            declare_import(import, components, types, offset)
        }
        ComponentTypeDeclaration::Alias(alias) => declare_alias(alias, components, types, offset),
    }
}

/// One of an instance type.
#[cycle(declared)]
#[tactic(auto, using(wcv_syntax::proofs::Views::instance_of_core_type, wcv_syntax::proofs::Views::instance_of_type, wcv_syntax::proofs::Views::instance_of_alias, wcv_syntax::proofs::Views::instance_of_export))]
fn read_instance_decl(
    decl: InstanceTypeDeclaration,
    components: &mut Vec<ComponentState>,
    types: &mut TypeAlloc,
    offset: u64,
) -> Result<(), Error>
    requires ready { AreReady types.old components.old.items }
    requires declares { DeclaresInstance types.old components.old.items }
    ensures ok { OnOk result (ReadsDecl types.old types.new components.old.items components.new.items (instance_decl_view decl)) }
    ensures ready { OnOk result (StayReady types.new components.old.items components.new.items) }
    ensures declares { OnOk result (DeclaresInstance types.new components.new.items) }
    ensures err { IfErr result (MemoryOr (RefusesDecl types.old types.new components.old.items (instance_decl_view decl)) offset) }
    ensures around { OnErr result (SameAround components.old.items components.new.items) }
    ensures keeps { KeepsOn types.old types.new components.old.items components.new.items }
{
    match decl {
        InstanceTypeDeclaration::CoreType(ty) => {
            declare_core_type(ty, components, types, offset)
        }
        InstanceTypeDeclaration::Ty(ty) => declare_type(ty, components, types, offset, true),
        InstanceTypeDeclaration::Export { name, ty } => {
            declare_export(name, ty, components, types, offset)
        }
        InstanceTypeDeclaration::Alias(alias) => declare_alias(alias, components, types, offset),
    }
}
