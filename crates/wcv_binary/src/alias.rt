// Aliases.
ghost use Rattle.std.specs.Prelude.{◌≡◌};
ghost use Rattle.wcv_binary.specs.Aliases.{behind_sort_at, aliased_core_sort_at, core_outer_at, outer_sort_at, export_alias_at, core_export_alias_at, outer_alias_at, alias_at};
ghost use Rattle.wcv_bytes.specs.Reading.{Gives};

use crate::sort::{read_core_sort, read_sort};
use std::alloc::Global;
use wcv_bytes::{ReadError, Why, fault_at, read_byte, read_text, read_u32, read_zero};
use wcv_core::Text;
use wcv_syntax::{ComponentAlias, ComponentOuterAliasKind, ExternalKind};

// What is behind a sort, which takes two bytes where the first is 0.
#[tactic(auto, unfolding(crate::specs::Aliases::behind_sort_at))]
fn skip_sort(bytes: &[u8]) -> Result<&[u8], ReadError>
    ensures { Gives (λ x. x.now) result (behind_sort_at bytes.now) }
{
    let (first, rest) = read_byte(bytes)?;
    if first != 0 {
        return Ok(rest);
    }
    let (_, rest) = read_byte(rest)?;
    Ok(rest)
}

// A core sort behind 0.
#[tactic(auto, unfolding(crate::specs::Aliases::aliased_core_sort_at))]
fn read_aliased_core_sort(bytes: &[u8]) -> Result<(ExternalKind, &[u8]), ReadError>
    ensures { Gives (λ x. (x.0, x.1.now)) result (aliased_core_sort_at bytes.now) }
{
    let rest = read_zero(bytes)?;
    let (byte, _) = read_byte(rest)?;
    if byte == 0x20 {
        return Err(fault_at(Why::UnsupportedExact, rest));
    }
    read_core_sort(rest)
}

// A core sort that may be aliased from further out, behind 0.
#[tactic(auto, unfolding(crate::specs::Aliases::core_outer_at))]
fn read_core_outer(bytes: &[u8]) -> Result<(ComponentOuterAliasKind, &[u8]), ReadError>
    ensures { Gives (λ x. (x.0, x.1.now)) result (core_outer_at bytes.now) }
{
    let (byte, rest) = read_byte(bytes)?;
    match byte {
        0x10 => Ok((ComponentOuterAliasKind::CoreType, rest)),
        0x11 => Ok((ComponentOuterAliasKind::CoreModule, rest)),
        _ => Err(fault_at(Why::NotOuter, bytes)),
    }
}

// A sort that may be aliased from further out.
#[tactic(auto, unfolding(crate::specs::Aliases::outer_sort_at))]
fn read_outer_sort(bytes: &[u8]) -> Result<(ComponentOuterAliasKind, &[u8]), ReadError>
    ensures { Gives (λ x. (x.0, x.1.now)) result (outer_sort_at bytes.now) }
{
    let (byte, rest) = read_byte(bytes)?;
    match byte {
        0x00 => read_core_outer(rest),
        0x03 => Ok((ComponentOuterAliasKind::Ty, rest)),
        0x04 => Ok((ComponentOuterAliasKind::Component, rest)),
        _ => Err(fault_at(Why::NotOuter, bytes)),
    }
}

// An alias of an export of an instance, by its sort and what is behind the target.
#[tactic(auto, unfolding(crate::specs::Aliases::export_alias_at))]
fn read_export_alias<'a>(
    alloc: Global,
    sort: &[u8],
    bytes: &'a [u8],
) -> Result<(ComponentAlias, &'a [u8]), ReadError>
    ensures { Gives (λ x. (x.0, x.1.now)) result (export_alias_at sort.now bytes.now) }
{
    let (kind, _) = read_sort(sort)?;
    let (instance_index, rest) = read_u32(bytes)?;
    let (name, rest) = read_text(rest)?;
    let name = Text::new(alloc, name)?;
    Ok((
        ComponentAlias::InstanceExport {
            kind,
            instance_index,
            name,
        },
        rest,
    ))
}

// An alias of an export of a core instance, by its sort and what is behind the target.
#[tactic(auto, unfolding(crate::specs::Aliases::core_export_alias_at))]
fn read_core_export_alias<'a>(
    alloc: Global,
    sort: &[u8],
    bytes: &'a [u8],
) -> Result<(ComponentAlias, &'a [u8]), ReadError>
    ensures { Gives (λ x. (x.0, x.1.now)) result (core_export_alias_at sort.now bytes.now) }
{
    let (kind, _) = read_aliased_core_sort(sort)?;
    let (instance_index, rest) = read_u32(bytes)?;
    let (name, rest) = read_text(rest)?;
    let name = Text::new(alloc, name)?;
    Ok((
        ComponentAlias::CoreInstanceExport {
            kind,
            instance_index,
            name,
        },
        rest,
    ))
}

// An outer alias, by its sort and what is behind the target.
#[tactic(auto, unfolding(crate::specs::Aliases::outer_alias_at))]
fn read_outer_alias<'a>(
    sort: &[u8],
    bytes: &'a [u8],
) -> Result<(ComponentAlias, &'a [u8]), ReadError>
    ensures { Gives (λ x. (x.0, x.1.now)) result (outer_alias_at sort.now bytes.now) }
{
    let (kind, _) = read_outer_sort(sort)?;
    let (count, rest) = read_u32(bytes)?;
    let (index, rest) = read_u32(rest)?;
    Ok((ComponentAlias::Outer { kind, count, index }, rest))
}

/// An alias, as the component model's Binary.md has it: a sort, a target, and what that asks for. Where sort and
/// target do not go together, the sort is at fault.
#[tactic(auto, unfolding(crate::specs::Aliases::alias_at))]
pub fn read_alias(alloc: Global, bytes: &[u8]) -> Result<(ComponentAlias, &[u8]), ReadError>
    ensures { Gives (λ x. (x.0, x.1.now)) result (alias_at bytes.now) }
{
    let behind = skip_sort(bytes)?;
    let (target, rest) = read_byte(behind)?;
    match target {
        0 => read_export_alias(alloc, bytes, rest),
        1 => read_core_export_alias(alloc, bytes, rest),
        2 => read_outer_alias(bytes, rest),
        _ => Err(fault_at(Why::NotAlias, behind)),
    }
}
