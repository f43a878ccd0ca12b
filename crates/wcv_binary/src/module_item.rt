// Types, tables, memories, tags and globals of a core module.
ghost use Rattle.std.specs.Prelude.{◌≡◌};
ghost use Rattle.wcv_binary.specs.ModuleItems.{filled_table_at};
ghost use Rattle.wcv_bytes.specs.Reading.{Gives};

use crate::constant::skip_constant;
use crate::core_type::read_group;
use crate::limits::{read_global_type, read_memory_type, read_table_type};
use crate::list::FromBytes;
use std::alloc::Global;
use wcv_bytes::{ReadError, Why, fault_at, read_u32, read_zero};
use wcv_core::{GlobalType, MemoryType, RecGroup, TableType};

/// A tag: the index of its function type.
#[derive(Clone, Copy)]
pub struct Tag {
    pub func: u32,
}

// A table with the value of its elements, behind the byte 0x40.
#[tactic(auto, unfolding(crate::specs::ModuleItems::filled_table_at))]
fn read_filled_table(bytes: &[u8]) -> Result<(TableType, &[u8]), ReadError>
    ensures { Gives (λ x. (x.0, x.1.now)) result (filled_table_at bytes.now) }
{
    let rest = read_zero(bytes)?;
    let (ty, rest) = read_table_type(rest)?;
    let rest = skip_constant(rest)?;
    Ok((ty, rest))
}

// A group of types of a core module.
impl FromBytes for RecGroup {
    ghost use Rattle.wcv_binary.specs.CoreTypes.{group_at};
    ghost use Rattle.wcv_core.specs.CoreForm.{Group, group_form};

    ghost Form = { Group };

    ghost seen = { group_form };

    ghost meant = { group_at };

    fn from_bytes(alloc: Global, bytes: &[u8]) -> Result<(RecGroup, &[u8]), ReadError> {
        read_group(alloc, bytes)
    }
}

// A table of a core module.
impl FromBytes for TableType {
    ghost use Rattle.wcv_binary.specs.ModuleItems.{table_at};

    ghost seen = { λ ty. ty };

    ghost meant = { table_at };

    #[tactic(auto, unfolding(crate::specs::ModuleItems::table_at))]
    fn from_bytes(_alloc: Global, bytes: &[u8]) -> Result<(TableType, &[u8]), ReadError> {
        match bytes {
            [] => Err(fault_at(Why::Short, bytes)),
            [0x40, rest @ ..] => read_filled_table(rest),
            [_, ..] => read_table_type(bytes),
        }
    }
}

// A memory of a core module.
impl FromBytes for MemoryType {
    ghost use Rattle.wcv_binary.specs.Entities.{memory_type_at};

    ghost seen = { λ ty. ty };

    ghost meant = { memory_type_at };

    fn from_bytes(_alloc: Global, bytes: &[u8]) -> Result<(MemoryType, &[u8]), ReadError> {
        read_memory_type(bytes)
    }
}

// A global of a core module, with its value.
impl FromBytes for GlobalType {
    ghost use Rattle.wcv_binary.specs.ModuleItems.{global_at};

    ghost seen = { λ ty. ty };

    ghost meant = { global_at };

    #[tactic(auto, unfolding(crate::specs::ModuleItems::global_at))]
    fn from_bytes(_alloc: Global, bytes: &[u8]) -> Result<(GlobalType, &[u8]), ReadError> {
        let (ty, rest) = read_global_type(bytes)?;
        let rest = skip_constant(rest)?;
        Ok((ty, rest))
    }
}

// A tag of a core module.
impl FromBytes for Tag {
    ghost use Rattle.wcv_binary.specs.ModuleItems.{tag_at};

    ghost seen = { λ tag. tag };

    ghost meant = { tag_at };

    #[tactic(auto, unfolding(crate::specs::ModuleItems::tag_at))]
    fn from_bytes(_alloc: Global, bytes: &[u8]) -> Result<(Tag, &[u8]), ReadError> {
        let rest = read_zero(bytes)?;
        let (func, rest) = read_u32(rest)?;
        Ok((Tag { func }, rest))
    }
}
