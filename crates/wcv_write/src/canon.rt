// Canonical functions.
ghost use Rattle.std.specs.Prelude.{◌++◌, ◌≡◌, OnOk, codes};
ghost use Rattle.wcv_syntax.specs.View.{canon_view};
ghost use Rattle.wcv_write.specs.Canons.{lift_data, lower_data, return_data, copying_data, context_data, slot_data, indirect_data, async_data, cancel_data, operands_data, builtin_data, canon_data};
ghost use Rattle.serde_json.specs.Data.{null};
ghost use Rattle.wcv_write.specs.Json.{tokens_of, under};
ghost use Rattle.wcv_write.specs.declared.indices.Space.TheVariants.{CoreType};

use crate::core_value::write_core_value;
use crate::indices::{Indices, Space};
use crate::list::{ToJson, write_list};
use crate::member::{write_mark, write_optional_value};
use crate::output::Output;
use crate::value::write_index_under;
use std::alloc::AllocError;
use wcv_core::ValType;
use wcv_syntax::{
    CanonicalFunction, CanonicalOperands, CanonicalOption, ComponentValType, canonical_name,
    operands_of,
};

// Writes the operands of `lift`.
fn write_lift<I: Indices>(
    out: &mut Output,
    indices: &I,
    func: u32,
    ty: u32,
    options: &[CanonicalOption],
) -> Result<(), AllocError>
    ensures { OnOk result (out.new ≡ out.old ++ tokens_of (lift_data (I.written indices.now) func ty options.now)) }
{
    out.open("core")?;
    indices.write(out, Space::CoreFunc, func)?;
    out.key("options")?;
    write_list(out, indices, options)?;
    out.key("type")?;
    indices.write(out, Space::Ty, ty)?;
    out.end_object()
}

// Writes the operands of `lower`.
fn write_lower<I: Indices>(
    out: &mut Output,
    indices: &I,
    func: u32,
    options: &[CanonicalOption],
) -> Result<(), AllocError>
    ensures { OnOk result (out.new ≡ out.old ++ tokens_of (lower_data (I.written indices.now) func options.now)) }
{
    out.open("func")?;
    indices.write(out, Space::Func, func)?;
    out.key("options")?;
    write_list(out, indices, options)?;
    out.end_object()
}

// Writes the operands of `task.return`.
fn write_return<I: Indices>(
    out: &mut Output,
    indices: &I,
    value: Option<ComponentValType>,
    options: &[CanonicalOption],
) -> Result<(), AllocError>
    ensures { OnOk result (out.new ≡ out.old ++ tokens_of (return_data (I.written indices.now) value options.now)) }
{
    out.open("options")?;
    write_list(out, indices, options)?;
    write_optional_value(out, indices, "result", value)?;
    out.end_object()
}

// Writes the operands of one that reads or writes.
fn write_copying<I: Indices>(
    out: &mut Output,
    indices: &I,
    ty: u32,
    options: &[CanonicalOption],
) -> Result<(), AllocError>
    ensures { OnOk result (out.new ≡ out.old ++ tokens_of (copying_data (I.written indices.now) ty options.now)) }
{
    out.open("options")?;
    write_list(out, indices, options)?;
    out.key("type")?;
    indices.write(out, Space::Ty, ty)?;
    out.end_object()
}

// Writes a core value type and a slot.
fn write_slot(out: &mut Output, ty: &ValType, slot: u32) -> Result<(), AllocError>
    ensures { OnOk result (out.new ≡ out.old ++ tokens_of (slot_data ty.now slot)) }
{
    out.open("slot")?;
    out.count(slot as u64)?;
    out.key("type")?;
    write_core_value(out, ty)?;
    out.end_object()
}

// Writes a core type and a table.
fn write_indirect<I: Indices>(
    out: &mut Output,
    indices: &I,
    ty: u32,
    table: u32,
) -> Result<(), AllocError>
    ensures { OnOk result (out.new ≡ out.old ++ tokens_of (indirect_data (I.written indices.now) ty table)) }
{
    out.open("table")?;
    indices.write(out, Space::CoreTable, table)?;
    out.key("type")?;
    indices.write(out, Space::CoreType, ty)?;
    out.end_object()
}

// Writes a type and whether the call is async.
fn write_cancel<I: Indices>(
    out: &mut Output,
    indices: &I,
    ty: u32,
    async_: bool,
) -> Result<(), AllocError>
    ensures { OnOk result (out.new ≡ out.old ++ tokens_of (cancel_data (I.written indices.now) ty async_)) }
{
    out.begin_object()?;
    write_mark(out, "async", async_)?;
    out.key("type")?;
    indices.write(out, Space::Ty, ty)?;
    out.end_object()
}

// Writes null under a name.
fn write_null_under(out: &mut Output, name: &str) -> Result<(), AllocError>
    ensures { OnOk result (out.new ≡ out.old ++ tokens_of (under name.now null)) }
{
    out.open(name)?;
    out.null()?;
    out.end_object()
}

// Writes a core value type and a slot under a name.
fn write_slot_under(out: &mut Output, name: &str, ty: &ValType, slot: u32) -> Result<(), AllocError>
    ensures { OnOk result (out.new ≡ out.old ++ tokens_of (under name.now (slot_data ty.now slot))) }
{
    out.open(name)?;
    write_slot(out, ty, slot)?;
    out.end_object()
}

// Writes a core type and a table under a name.
fn write_indirect_under<I: Indices>(
    out: &mut Output,
    indices: &I,
    name: &str,
    ty: u32,
    table: u32,
) -> Result<(), AllocError>
    ensures { OnOk result (out.new ≡ out.old ++ tokens_of (under name.now (indirect_data (I.written indices.now) ty table))) }
{
    out.open(name)?;
    write_indirect(out, indices, ty, table)?;
    out.end_object()
}

// Writes a type and whether the call is async under a name.
fn write_cancel_under<I: Indices>(
    out: &mut Output,
    indices: &I,
    name: &str,
    ty: u32,
    async_: bool,
) -> Result<(), AllocError>
    ensures { OnOk result (out.new ≡ out.old ++ tokens_of (under name.now (cancel_data (I.written indices.now) ty async_))) }
{
    out.open(name)?;
    write_cancel(out, indices, ty, async_)?;
    out.end_object()
}

// Writes whether the call is async.
fn write_async(out: &mut Output, async_: bool) -> Result<(), AllocError>
    ensures { OnOk result (out.new ≡ out.old ++ tokens_of (async_data async_)) }
{
    out.begin_object()?;
    write_mark(out, "async", async_)?;
    out.end_object()
}

// Writes whether the call is async under a name.
fn write_async_under(out: &mut Output, name: &str, async_: bool) -> Result<(), AllocError>
    ensures { OnOk result (out.new ≡ out.old ++ tokens_of (under name.now (async_data async_))) }
{
    out.open(name)?;
    write_async(out, async_)?;
    out.end_object()
}

// Writes a core type under a name.
fn write_core_type_under<I: Indices>(
    out: &mut Output,
    indices: &I,
    name: &str,
    ty: u32,
) -> Result<(), AllocError>
    ensures { OnOk result (out.new ≡ out.old ++ tokens_of (under name.now (under (codes "type") (I.written indices.now CoreType ty)))) }
{
    out.open(name)?;
    write_index_under(out, indices, "type", Space::CoreType, ty)?;
    out.end_object()
}

// Writes operands under a name.
fn write_operands_under<I: Indices>(
    out: &mut Output,
    indices: &I,
    name: &str,
    operands: CanonicalOperands,
) -> Result<(), AllocError>
    ensures { OnOk result (out.new ≡ out.old ++ tokens_of (under name.now (operands_data (I.written indices.now) operands))) }
{
    match operands {
        CanonicalOperands::None => write_null_under(out, name),
        CanonicalOperands::Type(index) => {
            write_index_under(out, indices, name, Space::Ty, index)
        }
        CanonicalOperands::Memory(index) => {
            write_index_under(out, indices, name, Space::CoreMemory, index)
        }
        CanonicalOperands::CoreType(ty) => write_core_type_under(out, indices, name, ty),
        CanonicalOperands::TypeAndTable(ty, table) => {
            write_indirect_under(out, indices, name, ty, table)
        }
        CanonicalOperands::TypeAndSlot(ty, slot) => write_slot_under(out, name, &ty, slot),
        CanonicalOperands::Async(async_) => write_async_under(out, name, async_),
        CanonicalOperands::TypeAndAsync(ty, async_) => {
            write_cancel_under(out, indices, name, ty, async_)
        }
    }
}

// Writes one without options.
#[tactic(auto, unfolding(crate::specs::Canons::builtin_data))]
fn write_builtin<I: Indices>(
    out: &mut Output,
    indices: &I,
    func: &CanonicalFunction,
) -> Result<(), AllocError>
    ensures { OnOk result (out.new ≡ out.old ++ tokens_of (builtin_data (I.written indices.now) func.now)) }
{
    write_operands_under(out, indices, canonical_name(func), operands_of(func))
}

// Writes the operands of `lift` under its name.
fn write_lift_under<I: Indices>(
    out: &mut Output,
    indices: &I,
    name: &str,
    func: u32,
    ty: u32,
    options: &[CanonicalOption],
) -> Result<(), AllocError>
    ensures { OnOk result (out.new ≡ out.old ++ tokens_of (under name.now (lift_data (I.written indices.now) func ty options.now))) }
{
    out.open(name)?;
    write_lift(out, indices, func, ty, options)?;
    out.end_object()
}

// Writes the operands of `lower` under its name.
fn write_lower_under<I: Indices>(
    out: &mut Output,
    indices: &I,
    name: &str,
    func: u32,
    options: &[CanonicalOption],
) -> Result<(), AllocError>
    ensures { OnOk result (out.new ≡ out.old ++ tokens_of (under name.now (lower_data (I.written indices.now) func options.now))) }
{
    out.open(name)?;
    write_lower(out, indices, func, options)?;
    out.end_object()
}

// Writes the operands of `task.return` under its name.
fn write_return_under<I: Indices>(
    out: &mut Output,
    indices: &I,
    name: &str,
    value: Option<ComponentValType>,
    options: &[CanonicalOption],
) -> Result<(), AllocError>
    ensures { OnOk result (out.new ≡ out.old ++ tokens_of (under name.now (return_data (I.written indices.now) value options.now))) }
{
    out.open(name)?;
    write_return(out, indices, value, options)?;
    out.end_object()
}

// Writes the operands of one that reads or writes under its name.
fn write_copying_under<I: Indices>(
    out: &mut Output,
    indices: &I,
    name: &str,
    ty: u32,
    options: &[CanonicalOption],
) -> Result<(), AllocError>
    ensures { OnOk result (out.new ≡ out.old ++ tokens_of (under name.now (copying_data (I.written indices.now) ty options.now))) }
{
    out.open(name)?;
    write_copying(out, indices, ty, options)?;
    out.end_object()
}

// Writes options under their key.
fn write_options<I: Indices>(
    out: &mut Output,
    indices: &I,
    options: &[CanonicalOption],
) -> Result<(), AllocError>
    ensures { OnOk result (out.new ≡ out.old ++ tokens_of (context_data (I.written indices.now) options.now)) }
{
    out.open("options")?;
    write_list(out, indices, options)?;
    out.end_object()
}

// Writes options alone under a name.
fn write_options_under<I: Indices>(
    out: &mut Output,
    indices: &I,
    name: &str,
    options: &[CanonicalOption],
) -> Result<(), AllocError>
    ensures { OnOk result (out.new ≡ out.old ++ tokens_of (under name.now (context_data (I.written indices.now) options.now))) }
{
    out.open(name)?;
    write_options(out, indices, options)?;
    out.end_object()
}

// Writes a canonical function.
#[tactic(auto, unfolding(crate::specs::Canons::canon_data))]
fn write_canon<I: Indices>(
    out: &mut Output,
    indices: &I,
    func: &CanonicalFunction,
) -> Result<(), AllocError>
    ensures { OnOk result (out.new ≡ out.old ++ tokens_of (canon_data (I.written indices.now) (canon_view func.now))) }
{
    match func {
        CanonicalFunction::Lift {
            core_func_index,
            type_index,
            options,
        } => write_lift_under(out, indices, "lift", *core_func_index, *type_index, options),
        CanonicalFunction::Lower {
            func_index,
            options,
        } => write_lower_under(out, indices, "lower", *func_index, options),
        CanonicalFunction::TaskReturn {
            result: value,
            options,
        } => { write_return_under(out, indices, "task.return", *value, options) }
        CanonicalFunction::StreamRead { ty, options } => {
            write_copying_under(out, indices, "stream.read", *ty, options)
        }
        CanonicalFunction::StreamWrite { ty, options } => {
            write_copying_under(out, indices, "stream.write", *ty, options)
        }
        CanonicalFunction::FutureRead { ty, options } => {
            write_copying_under(out, indices, "future.read", *ty, options)
        }
        CanonicalFunction::FutureWrite { ty, options } => {
            write_copying_under(out, indices, "future.write", *ty, options)
        }
        CanonicalFunction::ErrorContextNew { options } => {
            write_options_under(out, indices, "error-context.new", options)
        }
        CanonicalFunction::ErrorContextDebugMessage { options } => {
            write_options_under(out, indices, "error-context.debug-message", options)
        }
        _ => write_builtin(out, indices, func),
    }
}

impl ToJson for CanonicalFunction {
    ghost form = { λ ix func. canon_data ix (canon_view func) };

    fn write<I: Indices>(&self, out: &mut Output, indices: &I) -> Result<(), AllocError> {
        write_canon(out, indices, self)
    }
}
