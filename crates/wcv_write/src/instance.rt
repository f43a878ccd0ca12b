// Instances and start items.
ghost use Rattle.std.specs.Prelude.{◌++◌, ◌≡◌, OnOk, codes};
ghost use Rattle.serde_json.specs.Data.{object, no_members, member};
ghost use Rattle.wcv_syntax.specs.View.{instance_view};
ghost use Rattle.wcv_write.specs.Items.{arg_data, instance_data, start_data};
ghost use Rattle.wcv_write.specs.Json.{list_data, tokens_of, tokens_of_members};
ghost use Rattle.wcv_write.specs.declared.indices.Space.TheVariants.{Value};

use crate::alias::{name_of_sort, space_of_sort};
use crate::indices::{Indices, Space};
use crate::list::{ToJson, write_list, write_under};
use crate::output::Output;
use std::alloc::AllocError;
use wcv_syntax::{ComponentInstance, ComponentInstantiationArg};

impl ToJson for ComponentInstantiationArg {
    ghost form = { arg_data };

    fn write<I: Indices>(&self, out: &mut Output, indices: &I) -> Result<(), AllocError> {
        out.begin_array()?;
        out.text(self.name.as_str())?;
        out.text(name_of_sort(self.kind))?;
        indices.write(out, space_of_sort(self.kind), self.index)?;
        out.end_array()
    }
}

// Writes an index under the last key of an object, and the closing brace.
fn write_last_index<I: Indices>(
    out: &mut Output,
    indices: &I,
    key: &str,
    space: Space,
    index: u32,
) -> Result<(), AllocError>
    ensures { OnOk result (out.new ≡ out.old ++ tokens_of_members (member key.now (I.written indices.now space index) no_members)) }
{
    out.key(key)?;
    indices.write(out, space, index)?;
    out.end_object()
}

// Writes arguments, and what takes them under the last key.
fn write_args<T: ToJson, I: Indices>(
    out: &mut Output,
    indices: &I,
    args: &[T],
    key: &str,
    space: Space,
    index: u32,
) -> Result<(), AllocError>
    ensures { OnOk result (out.new ≡ out.old ++ tokens_of (object (member (codes "args") (list_data (T.form (I.written indices.now)) args.now) (member key.now (I.written indices.now space index) no_members)))) }
{
    out.open("args")?;
    write_list(out, indices, args)?;
    write_last_index(out, indices, key, space, index)
}

// Writes an instance.
#[tactic(auto, unfolding(crate::specs::Items::instance_data))]
fn write_instance<I: Indices>(
    out: &mut Output,
    indices: &I,
    instance: &ComponentInstance,
) -> Result<(), AllocError>
    ensures { OnOk result (out.new ≡ out.old ++ tokens_of (instance_data (I.written indices.now) (instance_view instance.now))) }
{
    match instance {
        ComponentInstance::Instantiate {
            component_index,
            args,
        } => write_args(
            out,
            indices,
            args,
            "component",
            Space::Component,
            *component_index,
        ),
        ComponentInstance::FromExports(exports) => write_under(out, indices, "exports", exports),
    }
}

impl ToJson for ComponentInstance {
    ghost form = { λ ix instance. instance_data ix (instance_view instance) };

    fn write<I: Indices>(&self, out: &mut Output, indices: &I) -> Result<(), AllocError> {
        write_instance(out, indices, self)
    }
}

// Writes indices of values.
fn write_values<I: Indices>(out: &mut Output, indices: &I, values: &[u32]) -> Result<(), AllocError>
    ensures { OnOk result (out.new ≡ out.old ++ tokens_of (list_data (I.written indices.now Value) values.now)) }
{
    out.begin_array()?;
    for value in values {
        indices.write(out, Space::Value, *value)?;
    }
    out.end_array()
}

/// Writes what a start item holds.
#[tactic(auto, unfolding(crate::specs::Items::start_data))]
pub fn write_start<I: Indices>(
    out: &mut Output,
    indices: &I,
    func: u32,
    args: &[u32],
    results: u32,
) -> Result<(), AllocError>
    ensures { OnOk result (out.new ≡ out.old ++ tokens_of (start_data (I.written indices.now) func args.now results)) }
{
    out.open("args")?;
    write_values(out, indices, args)?;
    out.key("func")?;
    indices.write(out, Space::Func, func)?;
    out.key("results")?;
    out.count(results as u64)?;
    out.end_object()
}
