// Sorts of items, and aliases.
ghost use Rattle.std.specs.Prelude.{◌++◌, ◌≡◌, OnOk, codes};
ghost use Rattle.serde_json.specs.Data.{string};
ghost use Rattle.wcv_write.specs.Json.{triple, count, tokens_of, under};
ghost use Rattle.wcv_write.specs.Sorts.{sort_name, sort_space, core_sort_name, core_sort_space, outer_name, alias_data};

use crate::indices::{Indices, Space};
use crate::list::ToJson;
use crate::output::Output;
use std::alloc::AllocError;
use wcv_syntax::{ComponentAlias, ComponentExternalKind, ComponentOuterAliasKind, ExternalKind};

/// The name of a sort.
pub fn name_of_sort(sort: ComponentExternalKind) -> &'static str
    ensures { result.now ≡ sort_name sort }
{
    match sort {
        ComponentExternalKind::Module => "module",
        ComponentExternalKind::Func => "func",
        ComponentExternalKind::Value => "value",
        ComponentExternalKind::Ty => "type",
        ComponentExternalKind::Instance => "instance",
        ComponentExternalKind::Component => "component",
    }
}

/// The index space of a sort.
pub fn space_of_sort(sort: ComponentExternalKind) -> Space
    ensures { result ≡ sort_space sort }
{
    match sort {
        ComponentExternalKind::Module => Space::CoreModule,
        ComponentExternalKind::Func => Space::Func,
        ComponentExternalKind::Value => Space::Value,
        ComponentExternalKind::Ty => Space::Ty,
        ComponentExternalKind::Instance => Space::Instance,
        ComponentExternalKind::Component => Space::Component,
    }
}

/// The name of a core sort.
pub fn name_of_core_sort(sort: ExternalKind) -> &'static str
    ensures { result.now ≡ core_sort_name sort }
{
    match sort {
        ExternalKind::Func => "func",
        ExternalKind::Table => "table",
        ExternalKind::Memory => "memory",
        ExternalKind::Global => "global",
        ExternalKind::Tag => "tag",
    }
}

/// The index space of a core sort.
pub fn space_of_core_sort(sort: ExternalKind) -> Space
    ensures { result ≡ core_sort_space sort }
{
    match sort {
        ExternalKind::Func => Space::CoreFunc,
        ExternalKind::Table => Space::CoreTable,
        ExternalKind::Memory => Space::CoreMemory,
        ExternalKind::Global => Space::CoreGlobal,
        ExternalKind::Tag => Space::CoreTag,
    }
}

// The name of what may be aliased from further out.
fn name_of_outer(kind: ComponentOuterAliasKind) -> &'static str
    ensures { result.now ≡ outer_name kind }
{
    match kind {
        ComponentOuterAliasKind::CoreModule => "core-module",
        ComponentOuterAliasKind::CoreType => "core-type",
        ComponentOuterAliasKind::Ty => "type",
        ComponentOuterAliasKind::Component => "component",
    }
}

// Writes an index, a sort and a name under a key.
fn write_export_alias<I: Indices>(
    out: &mut Output,
    indices: &I,
    key: &str,
    instance: (Space, u32),
    sort: &str,
    name: &str,
) -> Result<(), AllocError>
    ensures { OnOk result (out.new ≡ out.old ++ tokens_of (under key.now (triple (I.written indices.now instance.0 instance.1) (string sort.now) (string name.now)))) }
{
    out.open(key)?;
    out.begin_array()?;
    indices.write(out, instance.0, instance.1)?;
    out.text(sort)?;
    out.text(name)?;
    out.end_array()?;
    out.end_object()
}

// Writes an alias of what stands further out.
fn write_outer_alias(
    out: &mut Output,
    kind: ComponentOuterAliasKind,
    steps: u32,
    index: u32,
) -> Result<(), AllocError>
    ensures { OnOk result (out.new ≡ out.old ++ tokens_of (under (codes "outer") (triple (string (outer_name kind)) (count steps) (count index)))) }
{
    out.open("outer")?;
    out.begin_array()?;
    out.text(name_of_outer(kind))?;
    out.count(steps as u64)?;
    out.count(index as u64)?;
    out.end_array()?;
    out.end_object()
}

// Writes an alias.
#[tactic(auto, unfolding(crate::specs::Sorts::alias_data))]
fn write_alias<I: Indices>(
    out: &mut Output,
    indices: &I,
    alias: &ComponentAlias,
) -> Result<(), AllocError>
    ensures { OnOk result (out.new ≡ out.old ++ tokens_of (alias_data (I.written indices.now) alias.now)) }
{
    match alias {
        ComponentAlias::InstanceExport {
            kind,
            instance_index,
            name,
        } => {
            let instance = (Space::Instance, *instance_index);
            write_export_alias(
                out,
                indices,
                "export",
                instance,
                name_of_sort(*kind),
                name.as_str(),
            )
        }
        ComponentAlias::CoreInstanceExport {
            kind,
            instance_index,
            name,
        } => {
            let instance = (Space::CoreInstance, *instance_index);
            let sort = name_of_core_sort(*kind);
            write_export_alias(out, indices, "core-export", instance, sort, name.as_str())
        }
        ComponentAlias::Outer { kind, count, index } => {
            write_outer_alias(out, *kind, *count, *index)
        }
    }
}

impl ToJson for ComponentAlias {
    ghost form = { alias_data };

    fn write<I: Indices>(&self, out: &mut Output, indices: &I) -> Result<(), AllocError> {
        write_alias(out, indices, self)
    }
}
