// Sorts of core items: their names, their features, and room for one more.
ghost use Rattle.std.specs.Prelude.{◌≡◌, OnOk, IfErr};
ghost use Rattle.wcv_lower.specs.Checks.{IsFree};
ghost use Rattle.wcv_lower.specs.CoreInstances.{sort_needs, no_item_room, is_of as is_sort_of};
ghost use Rattle.wcv_spaces.specs.Entering.{room_counts};
ghost use Rattle.wcv_spaces.specs.Parts.{lists};
ghost use Rattle.wcv_spaces.specs.Promises.{CausedBy, MemoryOrCausedBy};

use crate::entries::check_count;
use crate::spaces::{Spaces, both};
use bitflags::Flags;
use wcv_core::limits::MAX_ENTRIES;
use wcv_core::{EntityType, Refusal, WasmFeatures, missing_feature};
use wcv_syntax::ExternalKind;

/// What an item of the sort is called in messages.
pub fn sort_name(kind: ExternalKind) -> &'static str {
    match kind {
        ExternalKind::Func => "core function",
        ExternalKind::Table => "table",
        ExternalKind::Memory => "memory",
        ExternalKind::Global => "global",
        ExternalKind::Tag => "tag",
    }
}

/// Whether the item is of the sort.
pub fn is_of(kind: ExternalKind, item: &EntityType) -> bool
    ensures { result ≡ is_sort_of kind item.now }
{
    matches!(
        (kind, item),
        (ExternalKind::Func, EntityType::Func(_))
            | (ExternalKind::Table, EntityType::Table(_))
            | (ExternalKind::Memory, EntityType::Memory(_))
            | (ExternalKind::Global, EntityType::Global(_))
            | (ExternalKind::Tag, EntityType::Tag(_))
    )
}

/// Whether core items of the sort may be named: a tag needs a feature.
pub fn check_core_sort(
    kind: ExternalKind,
    features: &WasmFeatures,
    offset: u64,
) -> Result<(), Refusal<'static>>
    ensures ok { OnOk result (IsFree (sort_needs features.now kind)) }
    ensures err { IfErr result (CausedBy (sort_needs features.now kind) offset) }
{
    match kind {
        ExternalKind::Tag if !features.contains(WasmFeatures::EXCEPTIONS) => {
            Err(missing_feature("a tag", "", WasmFeatures::EXCEPTIONS, offset))
        }
        _ => Ok(()),
    }
}

/// Whether there is room for one more core item of the sort.
#[tactic(auto, using(crate::proofs::CoreItems::funcs_full))]
pub fn check_item_room(
    spaces: &Spaces,
    kind: ExternalKind,
    offset: u64,
) -> Result<(), Refusal<'static>>
    ensures ok { OnOk result (IsFree (no_item_room (room_counts (lists spaces.now)) kind)) }
    ensures err { IfErr result (MemoryOrCausedBy (no_item_room (room_counts (lists spaces.now)) kind) offset) }
{
    match kind {
        ExternalKind::Func => {
            let count = both(spaces.core_funcs.len(), spaces.funcs.len());
            check_count(count, MAX_ENTRIES, "function or core function", offset)
        }
        ExternalKind::Table => {
            check_count(spaces.core_tables.len(), MAX_ENTRIES, "table", offset)
        }
        ExternalKind::Memory => {
            check_count(spaces.core_memories.len(), MAX_ENTRIES, "memory", offset)
        }
        ExternalKind::Global => {
            check_count(spaces.core_globals.len(), MAX_ENTRIES, "global", offset)
        }
        ExternalKind::Tag => check_count(spaces.core_tags.len(), MAX_ENTRIES, "tag", offset),
    }
}
