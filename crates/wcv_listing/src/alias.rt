// Sorts of items, and the body of `alias`.
ghost use Rattle.std.specs.Prelude.{◌≡◌, IfOk};
ghost use Rattle.wcv_listing.specs.Aliases.{sort_of, core_sort_of, outer_of, export_alias_of, core_export_alias_of, outer_alias_of, alias_of};
ghost use Rattle.wcv_listing.specs.Keyed.{under, alias_rows};
ghost use Rattle.wcv_listing.specs.Seen.{view};

use crate::list::named_in;
use crate::node::Node;
use crate::value::{index_of, sole_member, text_of, triple_of};
use std::alloc::Global;
use wcv_core::{OutOfMemory, Text};
use wcv_syntax::{ComponentAlias, ComponentExternalKind, ComponentOuterAliasKind, ExternalKind};

/// The sort whose name the value is.
pub fn read_sort(value: Node<'_, '_>) -> Option<ComponentExternalKind>
    ensures { result ≡ sort_of (view value.entry) }
{
    named_in(
        &[
            ("module", ComponentExternalKind::Module),
            ("func", ComponentExternalKind::Func),
            ("value", ComponentExternalKind::Value),
            ("type", ComponentExternalKind::Ty),
            ("instance", ComponentExternalKind::Instance),
            ("component", ComponentExternalKind::Component),
        ],
        text_of(value)?,
    )
}

/// The core sort whose name the value is.
pub fn read_core_sort(value: Node<'_, '_>) -> Option<ExternalKind>
    ensures { result ≡ core_sort_of (view value.entry) }
{
    named_in(
        &[
            ("func", ExternalKind::Func),
            ("table", ExternalKind::Table),
            ("memory", ExternalKind::Memory),
            ("global", ExternalKind::Global),
            ("tag", ExternalKind::Tag),
        ],
        text_of(value)?,
    )
}

// What is aliased from further out, by its name.
fn read_outer_kind(value: Node<'_, '_>) -> Option<ComponentOuterAliasKind>
    ensures { result ≡ outer_of (view value.entry) }
{
    named_in(
        &[
            ("core-module", ComponentOuterAliasKind::CoreModule),
            ("core-type", ComponentOuterAliasKind::CoreType),
            ("type", ComponentOuterAliasKind::Ty),
            ("component", ComponentOuterAliasKind::Component),
        ],
        text_of(value)?,
    )
}

// An alias of an export of an instance.
fn read_export_alias(
    alloc: Global,
    value: Node<'_, '_>,
) -> Result<Option<ComponentAlias>, OutOfMemory>
    ensures { IfOk result (λ alias. alias ≡ export_alias_of (view value.entry)) }
{
    let Some((instance, sort, name)) = triple_of(value) else {
        return Ok(None);
    };
    let Some(instance_index) = index_of(instance) else {
        return Ok(None);
    };
    let Some(kind) = read_sort(sort) else {
        return Ok(None);
    };
    let Some(name) = text_of(name) else {
        return Ok(None);
    };
    let name = Text::new(alloc, name)?;
    Ok(Some(ComponentAlias::InstanceExport {
        kind,
        instance_index,
        name,
    }))
}

// An alias of an export of a core instance.
fn read_core_export_alias(
    alloc: Global,
    value: Node<'_, '_>,
) -> Result<Option<ComponentAlias>, OutOfMemory>
    ensures { IfOk result (λ alias. alias ≡ core_export_alias_of (view value.entry)) }
{
    let Some((instance, sort, name)) = triple_of(value) else {
        return Ok(None);
    };
    let Some(instance_index) = index_of(instance) else {
        return Ok(None);
    };
    let Some(kind) = read_core_sort(sort) else {
        return Ok(None);
    };
    let Some(name) = text_of(name) else {
        return Ok(None);
    };
    let name = Text::new(alloc, name)?;
    Ok(Some(ComponentAlias::CoreInstanceExport {
        kind,
        instance_index,
        name,
    }))
}

// An outer alias.
fn read_outer_alias(value: Node<'_, '_>) -> Option<ComponentAlias>
    ensures { result ≡ outer_alias_of (view value.entry) }
{
    let Some((kind, count, index)) = triple_of(value) else {
        return None;
    };
    let Some(kind) = read_outer_kind(kind) else {
        return None;
    };
    let Some(count) = index_of(count) else {
        return None;
    };
    let Some(index) = index_of(index) else {
        return None;
    };
    Some(ComponentAlias::Outer { kind, count, index })
}

// What stands under the only key of the body of `alias`.
fn read_alias_under(
    alloc: Global,
    key: &str,
    body: Node<'_, '_>,
) -> Result<Option<ComponentAlias>, OutOfMemory>
    ensures { IfOk result (λ alias. alias ≡ under alias_rows key.now (view body.entry)) }
{
    match key {
        "export" => read_export_alias(alloc, body),
        "core-export" => read_core_export_alias(alloc, body),
        "outer" => Ok(read_outer_alias(body)),
        _ => Ok(None),
    }
}

/// The body of `alias`.
pub fn read_alias(alloc: Global, value: Node<'_, '_>) -> Result<Option<ComponentAlias>, OutOfMemory>
    ensures { IfOk result (λ alias. alias ≡ alias_of (view value.entry)) }
{
    match sole_member(value) {
        Some((key, body)) => read_alias_under(alloc, key, body),
        None => Ok(None),
    }
}
