// Headers: four bytes of magic, two of a version and two of a layer.
ghost use Rattle.std.specs.Prelude.{◌≡◌, ◌≤◌, length, IfOk};
ghost use Rattle.wcv_binary.specs.Headers.{magic_at, component_header_at, module_header_at};
ghost use Rattle.wcv_bytes.specs.Reading.{Gives};

use wcv_bytes::{Fault, ReadError, Why, fault_at};

const MAGIC: [u8; 4] = [0x00, 0x61, 0x73, 0x6D];

const COMPONENT_VERSION: [u8; 4] = [0x0D, 0x00, 0x01, 0x00];

const MODULE_VERSION: [u8; 4] = [0x01, 0x00, 0x00, 0x00];

/// What is behind the magic of a header that is whole.
#[tactic(auto, unfolding(crate::specs::Headers::magic_at))]
pub fn read_magic(bytes: &[u8]) -> Result<&[u8], ReadError>
    ensures gives { Gives (λ x. x.now) result (magic_at bytes.now) }
    ensures whole { IfOk result (λ x. 4 ≤ length x.now) }
{
    if bytes.len() < 8 {
        return Err(ReadError::Fault(Fault {
            why: Why::Short,
            left: 0,
        }));
    }
    if bytes.starts_with(&MAGIC) {
        Ok(&bytes[4..])
    } else {
        Err(fault_at(Why::NotMagic, bytes))
    }
}

/// What is behind the header of a component.
#[tactic(auto, unfolding(crate::specs::Headers::component_header_at))]
pub fn read_component_header(bytes: &[u8]) -> Result<&[u8], ReadError>
    ensures { Gives (λ x. x.now) result (component_header_at bytes.now) }
{
    let rest = read_magic(bytes)?;
    if rest.starts_with(&COMPONENT_VERSION) {
        return Ok(&rest[4..]);
    }
    let why = if rest.starts_with(&MODULE_VERSION) {
        Why::IsModule
    } else {
        Why::NotVersion
    };
    Err(fault_at(why, rest))
}

/// What is behind the header of a core module.
#[tactic(auto, unfolding(crate::specs::Headers::module_header_at))]
pub fn read_module_header(bytes: &[u8]) -> Result<&[u8], ReadError>
    ensures { Gives (λ x. x.now) result (module_header_at bytes.now) }
{
    let rest = read_magic(bytes)?;
    if rest.starts_with(&MODULE_VERSION) {
        Ok(&rest[4..])
    } else {
        Err(fault_at(Why::NotVersion, rest))
    }
}
