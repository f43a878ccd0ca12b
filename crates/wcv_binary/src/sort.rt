// Sorts of items.
ghost use Rattle.std.specs.Prelude.{◌≡◌};
ghost use Rattle.wcv_bytes.specs.Reading.{Gives};
ghost use Rattle.wcv_binary.specs.Sorts.{core_sort_at, module_sort_at, sort_at};

use wcv_bytes::{ReadError, Why, fault_at, read_byte};
use wcv_syntax::{ComponentExternalKind, ExternalKind};

/// The sort of a core item, as the component model's Binary.md has it.
#[tactic(auto, unfolding(crate::specs::Sorts::core_sort_at))]
pub fn read_core_sort(bytes: &[u8]) -> Result<(ExternalKind, &[u8]), ReadError>
    ensures { Gives (λ x. (x.0, x.1.now)) result (core_sort_at bytes.now) }
{
    let (byte, rest) = read_byte(bytes)?;
    match byte {
        0x00 => Ok((ExternalKind::Func, rest)),
        0x01 => Ok((ExternalKind::Table, rest)),
        0x02 => Ok((ExternalKind::Memory, rest)),
        0x03 => Ok((ExternalKind::Global, rest)),
        0x04 => Ok((ExternalKind::Tag, rest)),
        _ => Err(fault_at(Why::NotCoreSort, bytes)),
    }
}

// A core module, behind the byte 0 of core sorts.
#[tactic(auto, unfolding(crate::specs::Sorts::module_sort_at))]
fn read_module_sort(bytes: &[u8]) -> Result<(ComponentExternalKind, &[u8]), ReadError>
    ensures { Gives (λ x. (x.0, x.1.now)) result (module_sort_at bytes.now) }
{
    let (byte, rest) = read_byte(bytes)?;
    if byte == 0x11 {
        Ok((ComponentExternalKind::Module, rest))
    } else {
        Err(fault_at(Why::NotSort, bytes))
    }
}

/// The sort of an item, as the component model's Binary.md has it. That of a core module takes two bytes.
#[tactic(auto, unfolding(crate::specs::Sorts::sort_at))]
pub fn read_sort(bytes: &[u8]) -> Result<(ComponentExternalKind, &[u8]), ReadError>
    ensures { Gives (λ x. (x.0, x.1.now)) result (sort_at bytes.now) }
{
    let (byte, rest) = read_byte(bytes)?;
    match byte {
        0x00 => read_module_sort(rest),
        0x01 => Ok((ComponentExternalKind::Func, rest)),
        0x02 => Ok((ComponentExternalKind::Value, rest)),
        0x03 => Ok((ComponentExternalKind::Ty, rest)),
        0x04 => Ok((ComponentExternalKind::Component, rest)),
        0x05 => Ok((ComponentExternalKind::Instance, rest)),
        _ => Err(fault_at(Why::NotSort, bytes)),
    }
}
