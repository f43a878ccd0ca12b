// What core modules import and export.
ghost use Rattle.std.specs.Prelude.{◌≡◌};
ghost use Rattle.wcv_binary.specs.Entities.{core_import_at, entity_at, module_import_at, opens_many};
ghost use Rattle.wcv_bytes.specs.Reading.{Gives};

use crate::limits::{read_global_type, read_memory_type, read_table_type};
use crate::list::FromBytes;
use std::alloc::Global;
use wcv_bytes::{ReadError, Why, fault_at, read_byte, read_text, read_u32, read_zero};
use wcv_core::Text;
use wcv_syntax::{Import, TypeRef};

/// What is imported or exported, as the core specification's binary format has it.
#[tactic(auto, unfolding(crate::specs::Entities::entity_at))]
pub fn read_entity(bytes: &[u8]) -> Result<(TypeRef, &[u8]), ReadError>
    ensures { Gives (λ x. (x.0, x.1.now)) result (entity_at bytes.now) }
{
    let (sort, rest) = read_byte(bytes)?;
    match sort {
        0 => {
            let (index, rest) = read_u32(rest)?;
            Ok((TypeRef::Func(index), rest))
        }
        1 => {
            let (table, rest) = read_table_type(rest)?;
            Ok((TypeRef::Table(table), rest))
        }
        2 => {
            let (memory, rest) = read_memory_type(rest)?;
            Ok((TypeRef::Memory(memory), rest))
        }
        3 => {
            let (global, rest) = read_global_type(rest)?;
            Ok((TypeRef::Global(global), rest))
        }
        4 => {
            let rest = read_zero(rest)?;
            let (index, rest) = read_u32(rest)?;
            Ok((TypeRef::Tag(index), rest))
        }
        0x20 => Err(fault_at(Why::UnsupportedExact, bytes)),
        _ => Err(fault_at(Why::NotCoreSort, bytes)),
    }
}

/// An import in the type of a core module: the name of a module, a name in it, and what it is.
#[tactic(auto, unfolding(crate::specs::Entities::core_import_at))]
pub fn read_core_import(alloc: Global, bytes: &[u8]) -> Result<(Import, &[u8]), ReadError>
    ensures { Gives (λ x. (x.0, x.1.now)) result (core_import_at bytes.now) }
{
    let (module, rest) = read_text(bytes)?;
    let (name, rest) = read_text(rest)?;
    let (ty, rest) = read_entity(rest)?;
    let module = Text::new(alloc, module)?;
    let name = Text::new(alloc, name)?;
    Ok((Import { module, name, ty }, rest))
}

// Whether imports that are written together begin here.
fn opens_imports(bytes: &[u8]) -> bool
    ensures { result ≡ opens_many bytes.now }
{
    matches!(bytes, [0x7F | 0x7E, ..])
}

// An import of a core module.
impl FromBytes for Import {
    ghost use Rattle.wcv_binary.specs.Entities.{module_import_at};

    ghost seen = { λ import. import };

    ghost meant = { module_import_at };

    #[tactic(auto, unfolding(crate::specs::Entities::module_import_at))]
    fn from_bytes(alloc: Global, bytes: &[u8]) -> Result<(Import, &[u8]), ReadError> {
        let (module, rest) = read_text(bytes)?;
        let (name, rest) = read_text(rest)?;
        if name.is_empty() && opens_imports(rest) {
            return Err(fault_at(Why::UnsupportedImports, rest));
        }
        let (ty, rest) = read_entity(rest)?;
        let module = Text::new(alloc, module)?;
        let name = Text::new(alloc, name)?;
        Ok((Import { module, name, ty }, rest))
    }
}
