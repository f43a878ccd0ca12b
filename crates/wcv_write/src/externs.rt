// Imports and exports.
ghost use Rattle.std.specs.Prelude.{◌++◌, ◌≡◌, OnOk, codes};
ghost use Rattle.wcv_write.specs.Externs.{bounds_data, ref_data, is_plain, name_data, named_ref_data, import_data, sort_members, export_data};
ghost use Rattle.wcv_write.specs.Json.{optional_tokens, tokens_of, tokens_of_members};

use crate::alias::{name_of_sort, space_of_sort};
use crate::indices::{Indices, Space};
use crate::list::{ToJson, write_under};
use crate::member::write_optional_text;
use crate::output::Output;
use crate::value::write_index_under;
use std::alloc::AllocError;
use wcv_syntax::{
    ComponentExport, ComponentExternName, ComponentExternalKind, ComponentImport, ComponentTypeRef,
    TypeBounds,
};

// Writes what the type of an import may be.
fn write_bounds<I: Indices>(
    out: &mut Output,
    indices: &I,
    bounds: TypeBounds,
) -> Result<(), AllocError>
    ensures { OnOk result (out.new ≡ out.old ++ tokens_of (bounds_data (I.written indices.now) bounds)) }
{
    match bounds {
        TypeBounds::Eq(ty) => write_index_under(out, indices, "eq", Space::Ty, ty),
        TypeBounds::SubResource => out.text("sub-resource"),
    }
}

/// Writes a written type.
#[tactic(auto, unfolding(crate::specs::Externs::ref_data))]
pub fn write_ref<I: Indices>(
    out: &mut Output,
    indices: &I,
    ty: ComponentTypeRef,
) -> Result<(), AllocError>
    ensures { OnOk result (out.new ≡ out.old ++ tokens_of (ref_data (I.written indices.now) ty)) }
{
    match ty {
        ComponentTypeRef::Module(index) => {
            write_index_under(out, indices, "module", Space::CoreType, index)
        }
        ComponentTypeRef::Func(index) => {
            write_index_under(out, indices, "func", Space::Ty, index)
        }
        ComponentTypeRef::Value(value) => write_under(out, indices, "value", &value),
        ComponentTypeRef::Ty(bounds) => write_bounds(out, indices, bounds),
        ComponentTypeRef::Instance(index) => {
            write_index_under(out, indices, "instance", Space::Ty, index)
        }
        ComponentTypeRef::Component(index) => {
            write_index_under(out, indices, "component", Space::Ty, index)
        }
    }
}

// Whether nothing stands beside the name.
fn is_name_alone(name: &ComponentExternName) -> bool
    ensures { result ≡ is_plain name.now }
{
    name.implements.is_none() && name.version_suffix.is_none() && name.external_id.is_none()
}

/// Writes the name of an import or an export.
#[tactic(auto, unfolding(crate::specs::Externs::name_data))]
pub fn write_name(out: &mut Output, name: &ComponentExternName) -> Result<(), AllocError>
    ensures { OnOk result (out.new ≡ out.old ++ tokens_of (name_data name.now)) }
{
    if is_name_alone(name) {
        return out.text(name.name.as_str());
    }
    out.begin_object()?;
    write_optional_text(out, "id", &name.external_id)?;
    write_optional_text(out, "implements", &name.implements)?;
    out.key("name")?;
    out.text(name.name.as_str())?;
    write_optional_text(out, "suffix", &name.version_suffix)?;
    out.end_object()
}

/// Writes an import, or a declared export.
pub fn write_named_ref<I: Indices>(
    out: &mut Output,
    indices: &I,
    name: &ComponentExternName,
    ty: ComponentTypeRef,
) -> Result<(), AllocError>
    ensures { OnOk result (out.new ≡ out.old ++ tokens_of (named_ref_data (I.written indices.now) name.now ty)) }
{
    out.open("name")?;
    write_name(out, name)?;
    out.key("type")?;
    write_ref(out, indices, ty)?;
    out.end_object()
}

// Writes a written type where there is one.
fn write_optional_ref<I: Indices>(
    out: &mut Output,
    indices: &I,
    ty: Option<ComponentTypeRef>,
) -> Result<(), AllocError>
    ensures { OnOk result (out.new ≡ out.old ++ optional_tokens (codes "type") (ref_data (I.written indices.now)) ty) }
{
    match ty {
        None => Ok(()),
        Some(ty) => {
            out.key("type")?;
            write_ref(out, indices, ty)
        }
    }
}

// Writes a sort and maybe a written type, and the closing brace.
fn write_sort_members<I: Indices>(
    out: &mut Output,
    indices: &I,
    sort: ComponentExternalKind,
    ty: Option<ComponentTypeRef>,
) -> Result<(), AllocError>
    ensures { OnOk result (out.new ≡ out.old ++ tokens_of_members (sort_members (I.written indices.now) sort ty)) }
{
    out.key("sort")?;
    out.text(name_of_sort(sort))?;
    write_optional_ref(out, indices, ty)?;
    out.end_object()
}

#[tactic(auto, unfolding(crate::specs::Externs::export_data))]
impl ToJson for ComponentExport {
    ghost form = { export_data };

    fn write<I: Indices>(&self, out: &mut Output, indices: &I) -> Result<(), AllocError> {
        out.open("index")?;
        indices.write(out, space_of_sort(self.kind), self.index)?;
        out.key("name")?;
        write_name(out, &self.name)?;
        write_sort_members(out, indices, self.kind, self.ty)
    }
}

impl ToJson for ComponentImport {
    ghost form = { import_data };

    fn write<I: Indices>(&self, out: &mut Output, indices: &I) -> Result<(), AllocError> {
        write_named_ref(out, indices, &self.name, self.ty)
    }
}
