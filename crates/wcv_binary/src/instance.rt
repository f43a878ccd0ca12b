// Instances.
ghost use Rattle.std.specs.Prelude.{◌≡◌};
ghost use Rattle.wcv_binary.specs.Names.{instantiated_at, instance_at};
ghost use Rattle.wcv_bytes.specs.Reading.{Gives};
ghost use Rattle.wcv_syntax.specs.View.{instance_view};

use crate::list::{FromBytes, read_vec};
use crate::name::{own_name, read_item, read_name};
use std::alloc::Global;
use wcv_bytes::{ReadError, read_flag, read_text, read_u32};
use wcv_core::Text;
use wcv_syntax::{ComponentExport, ComponentInstance, ComponentInstantiationArg};

// An export of an instance that lists its exports, which are given no types.
#[tactic(auto, unfolding(crate::specs::Names::listed_at))]
impl FromBytes for ComponentExport {
    ghost use Rattle.wcv_binary.specs.Names.{listed_at};

    ghost seen = { λ export. export };

    ghost meant = { listed_at };

    fn from_bytes(alloc: Global, bytes: &[u8]) -> Result<(ComponentExport, &[u8]), ReadError> {
        let (name, rest) = read_name(bytes)?;
        let ((kind, index), rest) = read_item(rest)?;
        let name = own_name(alloc, name)?;
        Ok((
            ComponentExport {
                name,
                kind,
                index,
                ty: None,
            },
            rest,
        ))
    }
}

#[tactic(auto, unfolding(crate::specs::Names::arg_at))]
impl FromBytes for ComponentInstantiationArg {
    ghost use Rattle.wcv_binary.specs.Names.{arg_at};

    ghost seen = { λ arg. arg };

    ghost meant = { arg_at };

    fn from_bytes(
        alloc: Global,
        bytes: &[u8],
    ) -> Result<(ComponentInstantiationArg, &[u8]), ReadError> {
        let (name, rest) = read_text(bytes)?;
        let ((kind, index), rest) = read_item(rest)?;
        let name = Text::new(alloc, name)?;
        Ok((ComponentInstantiationArg { name, kind, index }, rest))
    }
}

// The index of a component and its arguments.
#[tactic(auto, unfolding(crate::specs::Names::instantiated_at))]
fn read_instantiated(alloc: Global, bytes: &[u8]) -> Result<(ComponentInstance, &[u8]), ReadError>
    ensures { Gives (λ x. (instance_view x.0, x.1.now)) result (instantiated_at bytes.now) }
{
    let (component_index, rest) = read_u32(bytes)?;
    let (args, rest) = read_vec(alloc, rest)?;
    Ok((
        ComponentInstance::Instantiate {
            component_index,
            args,
        },
        rest,
    ))
}

/// An instance, as the component model's Binary.md has it.
#[tactic(auto, unfolding(crate::specs::Names::instance_at))]
pub fn read_instance(alloc: Global, bytes: &[u8]) -> Result<(ComponentInstance, &[u8]), ReadError>
    ensures { Gives (λ x. (instance_view x.0, x.1.now)) result (instance_at bytes.now) }
{
    let (listed, rest) = read_flag(bytes)?;
    if !listed {
        return read_instantiated(alloc, rest);
    }
    let (exports, rest) = read_vec(alloc, rest)?;
    Ok((ComponentInstance::FromExports(exports), rest))
}
