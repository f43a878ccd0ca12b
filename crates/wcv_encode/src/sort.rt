// Sorts of items.
ghost use Rattle.std.specs.Prelude.{◌≡◌, Some};
ghost use Rattle.wcv_encode.specs.Bytes.{Wrote, ◌⧺◌};
ghost use Rattle.wcv_encode.specs.Entries.{sort, core_sort, outer_sort};

use crate::fault::Unwritten;
use crate::number::{write_all, write_byte};
use wcv_syntax::{ComponentExternalKind, ComponentOuterAliasKind, ExternalKind};

/// Writes the sort of an item.
#[tactic(auto, using(crate::proofs::Joins::joins), unfolding(crate::specs::Entries::sort))]
pub(crate) fn write_sort(out: &mut Vec<u8>, kind: ComponentExternalKind) -> Result<(), Unwritten>
    ensures { Wrote result (Some out.old.items ⧺ sort kind) out.new.items }
{
    match kind {
        ComponentExternalKind::Module => write_all(out, &[0x00, 0x11]),
        ComponentExternalKind::Func => write_byte(out, 0x01),
        ComponentExternalKind::Value => write_byte(out, 0x02),
        ComponentExternalKind::Ty => write_byte(out, 0x03),
        ComponentExternalKind::Component => write_byte(out, 0x04),
        ComponentExternalKind::Instance => write_byte(out, 0x05),
    }
}

/// The byte of the sort of a core item.
#[tactic(auto, unfolding(crate::specs::Entries::core_sort))]
pub(crate) fn core_byte(kind: ExternalKind) -> u8
    ensures { result ≡ core_sort kind }
{
    match kind {
        ExternalKind::Func => 0x00,
        ExternalKind::Table => 0x01,
        ExternalKind::Memory => 0x02,
        ExternalKind::Global => 0x03,
        ExternalKind::Tag => 0x04,
    }
}

/// Writes the sort of what is aliased from a component around this one.
#[tactic(auto, using(crate::proofs::Joins::joins), unfolding(crate::specs::Entries::outer_sort))]
pub(crate) fn write_outer_sort(
    out: &mut Vec<u8>,
    kind: ComponentOuterAliasKind,
) -> Result<(), Unwritten>
    ensures { Wrote result (Some out.old.items ⧺ outer_sort kind) out.new.items }
{
    match kind {
        ComponentOuterAliasKind::CoreType => write_all(out, &[0x00, 0x10]),
        ComponentOuterAliasKind::CoreModule => write_all(out, &[0x00, 0x11]),
        ComponentOuterAliasKind::Ty => write_byte(out, 0x03),
        ComponentOuterAliasKind::Component => write_byte(out, 0x04),
    }
}
