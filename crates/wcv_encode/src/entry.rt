// Names, imports, exports and aliases.
ghost use Rattle.std.specs.Prelude.{◌≡◌, Some};
ghost use Rattle.wcv_encode.specs.Bytes.{Wrote, ◌⧺◌};
ghost use Rattle.wcv_encode.specs.Entries.{name_bytes, bounds, ref_of, import_bytes, exported, export_bytes, alias_bytes};

use crate::fault::Unwritten;
use crate::list::{ToBytes, write_maybe};
use crate::number::{write_all, write_byte, write_u32};
use crate::sort::{core_byte, write_outer_sort, write_sort};
use crate::text::write_text;
use crate::value::write_value;
use wcv_syntax::{
    ComponentAlias, ComponentExport, ComponentExternName, ComponentImport, ComponentTypeRef,
    TypeBounds,
};

/// Writes a name. One with something beside it has no bytes.
#[tactic(auto, using(crate::proofs::Joins::joins), unfolding(crate::specs::Entries::name_form))]
pub(crate) fn write_name(out: &mut Vec<u8>, name: &ComponentExternName) -> Result<(), Unwritten>
    ensures { Wrote result (Some out.old.items ⧺ name_bytes name.now) out.new.items }
{
    match (&name.implements, &name.version_suffix, &name.external_id) {
        (None, None, None) => {
            write_byte(out, 0)?;
            write_text(out, name.name.as_str())
        }
        _ => Err(Unwritten::NoBytes),
    }
}

/// Writes what the type of an import may be.
#[tactic(auto, using(crate::proofs::Joins::joins), unfolding(crate::specs::Entries::bounds))]
fn write_bounds(out: &mut Vec<u8>, ty: TypeBounds) -> Result<(), Unwritten>
    ensures { Wrote result (Some out.old.items ⧺ bounds ty) out.new.items }
{
    match ty {
        TypeBounds::Eq(index) => {
            write_byte(out, 0)?;
            write_u32(out, index)
        }
        TypeBounds::SubResource => write_byte(out, 1),
    }
}

/// Writes the type of an import or an export.
#[tactic(auto, using(crate::proofs::Joins::joins), unfolding(crate::specs::Entries::ref_of))]
pub(crate) fn write_ref_of(out: &mut Vec<u8>, ty: ComponentTypeRef) -> Result<(), Unwritten>
    ensures { Wrote result (Some out.old.items ⧺ ref_of ty) out.new.items }
{
    match ty {
        ComponentTypeRef::Module(index) => {
            write_all(out, &[0x00, 0x11])?;
            write_u32(out, index)
        }
        ComponentTypeRef::Func(index) => {
            write_byte(out, 0x01)?;
            write_u32(out, index)
        }
        ComponentTypeRef::Value(ty) => {
            write_byte(out, 0x02)?;
            write_value(out, ty)
        }
        ComponentTypeRef::Ty(bounds) => {
            write_byte(out, 0x03)?;
            write_bounds(out, bounds)
        }
        ComponentTypeRef::Component(index) => {
            write_byte(out, 0x04)?;
            write_u32(out, index)
        }
        ComponentTypeRef::Instance(index) => {
            write_byte(out, 0x05)?;
            write_u32(out, index)
        }
    }
}

impl ToBytes for ComponentTypeRef {
    ghost use Rattle.wcv_encode.specs.Entries.{ref_of};

    ghost spelled = { ref_of };

    fn write(&self, out: &mut Vec<u8>) -> Result<(), Unwritten> {
        write_ref_of(out, *self)
    }
}

/// Writes an import.
#[tactic(auto, using(crate::proofs::Joins::joins), unfolding(crate::specs::Entries::import_bytes))]
pub(crate) fn write_import(out: &mut Vec<u8>, import: &ComponentImport) -> Result<(), Unwritten>
    ensures { Wrote result (Some out.old.items ⧺ import_bytes import.now) out.new.items }
{
    write_name(out, &import.name)?;
    write_ref_of(out, import.ty)
}

/// Writes the name of an export and the item that is exported.
#[tactic(auto, using(crate::proofs::Joins::joins), unfolding(crate::specs::Entries::exported))]
pub(crate) fn write_exported(out: &mut Vec<u8>, export: &ComponentExport) -> Result<(), Unwritten>
    ensures { Wrote result (Some out.old.items ⧺ exported export.now) out.new.items }
{
    write_name(out, &export.name)?;
    write_sort(out, export.kind)?;
    write_u32(out, export.index)
}

/// Writes an export.
#[tactic(auto, using(crate::proofs::Joins::joins), unfolding(crate::specs::Entries::export_bytes))]
pub(crate) fn write_export(out: &mut Vec<u8>, export: &ComponentExport) -> Result<(), Unwritten>
    ensures { Wrote result (Some out.old.items ⧺ export_bytes export.now) out.new.items }
{
    write_exported(out, export)?;
    write_maybe(out, &export.ty)
}

/// Writes an alias.
#[tactic(auto, using(crate::proofs::Joins::joins), unfolding(crate::specs::Entries::alias_bytes))]
pub(crate) fn write_alias(out: &mut Vec<u8>, alias: &ComponentAlias) -> Result<(), Unwritten>
    ensures { Wrote result (Some out.old.items ⧺ alias_bytes alias.now) out.new.items }
{
    match alias {
        ComponentAlias::InstanceExport {
            kind,
            instance_index,
            name,
        } => {
            write_sort(out, *kind)?;
            write_byte(out, 0x00)?;
            write_u32(out, *instance_index)?;
            write_text(out, name.as_str())
        }
        ComponentAlias::CoreInstanceExport {
            kind,
            instance_index,
            name,
        } => {
            write_byte(out, 0x00)?;
            write_byte(out, core_byte(*kind))?;
            write_byte(out, 0x01)?;
            write_u32(out, *instance_index)?;
            write_text(out, name.as_str())
        }
        ComponentAlias::Outer { kind, count, index } => {
            write_outer_sort(out, *kind)?;
            write_byte(out, 0x02)?;
            write_u32(out, *count)?;
            write_u32(out, *index)
        }
    }
}
