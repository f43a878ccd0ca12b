// Core instances.
ghost use Rattle.std.specs.Prelude.{◌≡◌};
ghost use Rattle.wcv_binary.specs.CoreInstances.{core_arg_at, core_instance_at, core_listed_at, passed_at};
ghost use Rattle.wcv_bytes.specs.Reading.{Gives};
ghost use Rattle.wcv_syntax.specs.View.{core_instance_view};

use crate::list::{FromBytes, read_vec};
use crate::sort::read_core_sort;
use std::alloc::Global;
use wcv_bytes::{ReadError, Why, expect_byte, read_flag, read_text, read_u32};
use wcv_core::Text;
use wcv_syntax::{Export, Instance, InstantiationArg};

// The index of a core instance that is passed.
#[tactic(auto, unfolding(crate::specs::CoreInstances::passed_at))]
fn read_passed(bytes: &[u8]) -> Result<(u32, &[u8]), ReadError>
    ensures { Gives (λ x. (x.0, x.1.now)) result (passed_at bytes.now) }
{
    let rest = expect_byte(bytes, 0x12, Why::NotCoreInstance)?;
    read_u32(rest)
}

// A core instance under the name of a module that is imported.
impl FromBytes for InstantiationArg {
    ghost use Rattle.wcv_binary.specs.CoreInstances.{core_arg_at};

    ghost seen = { λ arg. arg };

    ghost meant = { core_arg_at };

    #[tactic(auto, unfolding(crate::specs::CoreInstances::core_arg_at))]
    fn from_bytes(alloc: Global, bytes: &[u8]) -> Result<(InstantiationArg, &[u8]), ReadError> {
        let (name, rest) = read_text(bytes)?;
        let (index, rest) = read_passed(rest)?;
        let name = Text::new(alloc, name)?;
        Ok((InstantiationArg { name, index }, rest))
    }
}

// A core item under a name.
impl FromBytes for Export {
    ghost use Rattle.wcv_binary.specs.CoreInstances.{core_listed_at};

    ghost seen = { λ listed. listed };

    ghost meant = { core_listed_at };

    #[tactic(auto, unfolding(crate::specs::CoreInstances::core_listed_at))]
    fn from_bytes(alloc: Global, bytes: &[u8]) -> Result<(Export, &[u8]), ReadError> {
        let (name, rest) = read_text(bytes)?;
        let (kind, rest) = read_core_sort(rest)?;
        let (index, rest) = read_u32(rest)?;
        let name = Text::new(alloc, name)?;
        Ok((Export { name, kind, index }, rest))
    }
}

/// A core instance item of a component, as the component model's Binary.md has it: a core module with its arguments,
/// or core items by their names.
#[tactic(auto, unfolding(crate::specs::CoreInstances::core_instance_at))]
pub fn read_core_instance(alloc: Global, bytes: &[u8]) -> Result<(Instance, &[u8]), ReadError>
    ensures { Gives (λ x. (core_instance_view x.0, x.1.now)) result (core_instance_at bytes.now) }
{
    let (listed, rest) = read_flag(bytes)?;
    if listed {
        let (exports, rest) = read_vec(alloc, rest)?;
        return Ok((Instance::FromExports(exports), rest));
    }
    let (module_index, rest) = read_u32(rest)?;
    let (args, rest) = read_vec(alloc, rest)?;
    Ok((Instance::Instantiate { module_index, args }, rest))
}
