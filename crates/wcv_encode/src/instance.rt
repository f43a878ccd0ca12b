// Instances and core instances.
ghost use Rattle.std.specs.Prelude.{◌≡◌, Some};
ghost use Rattle.wcv_syntax.specs.View.{core_instance_view, instance_view};
ghost use Rattle.wcv_encode.specs.Bytes.{Wrote, ◌⧺◌};
ghost use Rattle.wcv_encode.specs.Entries.{core_instance_bytes, instance_bytes};

use crate::entry::write_exported;
use crate::fault::Unwritten;
use crate::list::{ToBytes, write_vec};
use crate::number::{write_byte, write_u32};
use crate::sort::{core_byte, write_sort};
use crate::text::write_text;
use wcv_syntax::{
    ComponentExport, ComponentInstance, ComponentInstantiationArg, Export, Instance,
    InstantiationArg,
};

impl ToBytes for InstantiationArg {
    ghost use Rattle.wcv_encode.specs.Entries.{core_arg};

    ghost spelled = { core_arg };

    #[tactic(auto, using(crate::proofs::Joins::joins), unfolding(crate::specs::Entries::core_arg))]
    fn write(&self, out: &mut Vec<u8>) -> Result<(), Unwritten> {
        write_text(out, self.name.as_str())?;
        write_byte(out, 0x12)?;
        write_u32(out, self.index)
    }
}

impl ToBytes for Export {
    ghost use Rattle.wcv_encode.specs.Entries.{core_export};

    ghost spelled = { core_export };

    #[tactic(auto, using(crate::proofs::Joins::joins), unfolding(crate::specs::Entries::core_export))]
    fn write(&self, out: &mut Vec<u8>) -> Result<(), Unwritten> {
        write_text(out, self.name.as_str())?;
        write_byte(out, core_byte(self.kind))?;
        write_u32(out, self.index)
    }
}

/// Writes a core instance.
#[tactic(auto, using(crate::proofs::Joins::joins), unfolding(crate::specs::Entries::core_instance_bytes))]
pub(crate) fn write_core_instance(out: &mut Vec<u8>, instance: &Instance) -> Result<(), Unwritten>
    ensures { Wrote result (Some out.old.items ⧺ core_instance_bytes (core_instance_view instance.now)) out.new.items }
{
    match instance {
        Instance::Instantiate { module_index, args } => {
            write_byte(out, 0x00)?;
            write_u32(out, *module_index)?;
            write_vec(out, args)
        }
        Instance::FromExports(exports) => {
            write_byte(out, 0x01)?;
            write_vec(out, exports)
        }
    }
}

impl ToBytes for ComponentInstantiationArg {
    ghost use Rattle.wcv_encode.specs.Entries.{arg_bytes};

    ghost spelled = { arg_bytes };

    #[tactic(auto, using(crate::proofs::Joins::joins), unfolding(crate::specs::Entries::arg_bytes))]
    fn write(&self, out: &mut Vec<u8>) -> Result<(), Unwritten> {
        write_text(out, self.name.as_str())?;
        write_sort(out, self.kind)?;
        write_u32(out, self.index)
    }
}

// An export of an instance that is made of items.
impl ToBytes for ComponentExport {
    ghost use Rattle.wcv_encode.specs.Entries.{bag_export};

    ghost spelled = { bag_export };

    #[tactic(auto, using(crate::proofs::Joins::joins), unfolding(crate::specs::Entries::untyped))]
    fn write(&self, out: &mut Vec<u8>) -> Result<(), Unwritten> {
        match &self.ty {
            None => write_exported(out, self),
            Some(_) => Err(Unwritten::NoBytes),
        }
    }
}

/// Writes an instance.
#[tactic(auto, using(crate::proofs::Joins::joins), unfolding(crate::specs::Entries::instance_bytes))]
pub(crate) fn write_instance(
    out: &mut Vec<u8>,
    instance: &ComponentInstance,
) -> Result<(), Unwritten>
    ensures { Wrote result (Some out.old.items ⧺ instance_bytes (instance_view instance.now)) out.new.items }
{
    match instance {
        ComponentInstance::Instantiate {
            component_index,
            args,
        } => {
            write_byte(out, 0x00)?;
            write_u32(out, *component_index)?;
            write_vec(out, args)
        }
        ComponentInstance::FromExports(exports) => {
            write_byte(out, 0x01)?;
            write_vec(out, exports)
        }
    }
}
