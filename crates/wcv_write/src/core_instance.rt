// Core instances.
ghost use Rattle.std.specs.Prelude.{◌++◌, ◌≡◌, OnOk};
ghost use Rattle.wcv_syntax.specs.Model.{core_instantiate};
ghost use Rattle.wcv_syntax.specs.View.{core_instance_view};
ghost use Rattle.wcv_write.specs.CoreForms.{core_arg_data, core_listed_data, core_instance_data};
ghost use Rattle.wcv_write.specs.Json.{tokens_of};

use crate::alias::{name_of_core_sort, space_of_core_sort};
use crate::indices::{Indices, Space};
use crate::list::{ToJson, write_list};
use crate::output::Output;
use std::alloc::AllocError;
use wcv_syntax::{Export, Instance, InstantiationArg};

impl ToJson for InstantiationArg {
    ghost form = { core_arg_data };

    fn write<I: Indices>(&self, out: &mut Output, indices: &I) -> Result<(), AllocError> {
        out.begin_array()?;
        out.text(self.name.as_str())?;
        indices.write(out, Space::CoreInstance, self.index)?;
        out.end_array()
    }
}

impl ToJson for Export {
    ghost form = { core_listed_data };

    fn write<I: Indices>(&self, out: &mut Output, indices: &I) -> Result<(), AllocError> {
        out.begin_array()?;
        out.text(self.name.as_str())?;
        out.text(name_of_core_sort(self.kind))?;
        indices.write(out, space_of_core_sort(self.kind), self.index)?;
        out.end_array()
    }
}

// Writes an instance of a module.
#[tactic(auto, unfolding(crate::specs::CoreForms::core_instance_data))]
fn write_core_instantiate<I: Indices>(
    out: &mut Output,
    indices: &I,
    module_index: u32,
    args: &[InstantiationArg],
) -> Result<(), AllocError>
    ensures { OnOk result (out.new ≡ out.old ++ tokens_of (core_instance_data (I.written indices.now) (core_instantiate module_index args.now))) }
{
    out.open("args")?;
    write_list(out, indices, args)?;
    out.key("module")?;
    indices.write(out, Space::CoreModule, module_index)?;
    out.end_object()
}

// Writes a core instance.
#[tactic(auto, unfolding(crate::specs::CoreForms::core_instance_data))]
fn write_core_instance<I: Indices>(
    out: &mut Output,
    indices: &I,
    instance: &Instance,
) -> Result<(), AllocError>
    ensures { OnOk result (out.new ≡ out.old ++ tokens_of (core_instance_data (I.written indices.now) (core_instance_view instance.now))) }
{
    match instance {
        Instance::Instantiate { module_index, args } => {
            write_core_instantiate(out, indices, *module_index, args)
        }
        Instance::FromExports(exports) => {
            out.open("exports")?;
            write_list(out, indices, exports)?;
            out.end_object()
        }
    }
}

impl ToJson for Instance {
    ghost form = { λ ix instance. core_instance_data ix (core_instance_view instance) };

    fn write<I: Indices>(&self, out: &mut Output, indices: &I) -> Result<(), AllocError> {
        write_core_instance(out, indices, self)
    }
}
