// Imports and exports with their names.
ghost use Rattle.std.specs.Prelude.{◌≡◌, IfOk};
ghost use Rattle.wcv_binary.specs.Names.{plain, name_at, bounds_at, ref_of, ref_at, optional_ref_at, import_at, item_at, export_at};
ghost use Rattle.wcv_bytes.specs.Reading.{Gives};

use crate::sort::read_sort;
use crate::value::read_component_val_type;
use std::alloc::Global;
use wcv_bytes::{ReadError, Why, fault_at, read_byte, read_flag, read_text, read_u32};
use wcv_core::{OutOfMemory, Text};
use wcv_syntax::{
    ComponentExport, ComponentExternName, ComponentExternalKind, ComponentImport, ComponentTypeRef,
    TypeBounds,
};

/// The text of the name of an import or an export, as the component model's Binary.md has it: behind a byte 0 or 1.
#[tactic(auto, unfolding(crate::specs::Names::name_at))]
pub fn read_name(bytes: &[u8]) -> Result<(&str, &[u8]), ReadError>
    ensures { Gives (λ x. (plain x.0.now, x.1.now)) result (name_at bytes.now) }
{
    let (kind, rest) = read_byte(bytes)?;
    if kind < 2 {
        return read_text(rest);
    }
    if kind == 2 {
        return Err(fault_at(Why::UnsupportedName, bytes));
    }
    Err(fault_at(Why::NotName, bytes))
}

/// A name of this text, with nothing beside it.
pub fn own_name(alloc: Global, name: &str) -> Result<ComponentExternName, OutOfMemory>
    ensures { IfOk result (λ n. n ≡ plain name.now) }
{
    let name = Text::new(alloc, name)?;
    Ok(ComponentExternName {
        name,
        implements: None,
        version_suffix: None,
        external_id: None,
    })
}

// What a type may be: 0 and the index of an equal type, or 1 for a new resource.
#[tactic(auto, unfolding(crate::specs::Names::bounds_at))]
fn read_bounds(bytes: &[u8]) -> Result<(TypeBounds, &[u8]), ReadError>
    ensures { Gives (λ x. (x.0, x.1.now)) result (bounds_at bytes.now) }
{
    let (sub, rest) = read_flag(bytes)?;
    if sub {
        return Ok((TypeBounds::SubResource, rest));
    }
    let (index, rest) = read_u32(rest)?;
    Ok((TypeBounds::Eq(index), rest))
}

// A written type behind its sort.
fn read_ref_of(
    kind: ComponentExternalKind,
    bytes: &[u8],
) -> Result<(ComponentTypeRef, &[u8]), ReadError>
    ensures { Gives (λ x. (x.0, x.1.now)) result (ref_of kind bytes.now) }
{
    match kind {
        ComponentExternalKind::Module => {
            let (index, rest) = read_u32(bytes)?;
            Ok((ComponentTypeRef::Module(index), rest))
        }
        ComponentExternalKind::Func => {
            let (index, rest) = read_u32(bytes)?;
            Ok((ComponentTypeRef::Func(index), rest))
        }
        ComponentExternalKind::Value => {
            let (ty, rest) = read_component_val_type(bytes)?;
            Ok((ComponentTypeRef::Value(ty), rest))
        }
        ComponentExternalKind::Ty => {
            let (bounds, rest) = read_bounds(bytes)?;
            Ok((ComponentTypeRef::Ty(bounds), rest))
        }
        ComponentExternalKind::Instance => {
            let (index, rest) = read_u32(bytes)?;
            Ok((ComponentTypeRef::Instance(index), rest))
        }
        ComponentExternalKind::Component => {
            let (index, rest) = read_u32(bytes)?;
            Ok((ComponentTypeRef::Component(index), rest))
        }
    }
}

/// The type of an import or an export as it is written, as the component model's Binary.md has it.
#[tactic(auto, unfolding(crate::specs::Names::ref_at))]
pub fn read_ref(bytes: &[u8]) -> Result<(ComponentTypeRef, &[u8]), ReadError>
    ensures { Gives (λ x. (x.0, x.1.now)) result (ref_at bytes.now) }
{
    let (kind, rest) = read_sort(bytes)?;
    read_ref_of(kind, rest)
}

// A written type that may be absent, behind a byte that says so.
#[tactic(auto, unfolding(crate::specs::Names::optional_ref_at))]
fn read_optional_ref(bytes: &[u8]) -> Result<(Option<ComponentTypeRef>, &[u8]), ReadError>
    ensures { Gives (λ x. (x.0, x.1.now)) result (optional_ref_at bytes.now) }
{
    let (there, rest) = read_flag(bytes)?;
    if !there {
        return Ok((None, rest));
    }
    let (ty, rest) = read_ref(rest)?;
    Ok((Some(ty), rest))
}

/// An import.
#[tactic(auto, unfolding(crate::specs::Names::import_at))]
pub fn read_import(alloc: Global, bytes: &[u8]) -> Result<(ComponentImport, &[u8]), ReadError>
    ensures { Gives (λ x. (x.0, x.1.now)) result (import_at bytes.now) }
{
    let (name, rest) = read_name(bytes)?;
    let (ty, rest) = read_ref(rest)?;
    let name = own_name(alloc, name)?;
    Ok((ComponentImport { name, ty }, rest))
}

/// A sort and an index.
#[tactic(auto, unfolding(crate::specs::Names::item_at))]
pub fn read_item(bytes: &[u8]) -> Result<((ComponentExternalKind, u32), &[u8]), ReadError>
    ensures { Gives (λ x. (x.0, x.1.now)) result (item_at bytes.now) }
{
    let (kind, rest) = read_sort(bytes)?;
    let (index, rest) = read_u32(rest)?;
    Ok(((kind, index), rest))
}

/// An export, maybe with a type that it is given.
#[tactic(auto, unfolding(crate::specs::Names::export_at))]
pub fn read_export(alloc: Global, bytes: &[u8]) -> Result<(ComponentExport, &[u8]), ReadError>
    ensures { Gives (λ x. (x.0, x.1.now)) result (export_at bytes.now) }
{
    let (name, rest) = read_name(bytes)?;
    let ((kind, index), rest) = read_item(rest)?;
    let (ty, rest) = read_optional_ref(rest)?;
    let name = own_name(alloc, name)?;
    Ok((
        ComponentExport {
            name,
            kind,
            index,
            ty,
        },
        rest,
    ))
}
