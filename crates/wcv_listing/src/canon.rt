// The body of `canon`.
ghost use Rattle.std.specs.Prelude.{◌≡◌, ◌++◌, ℕ, Bool, IfOk, List, drop, option_map};
ghost use Rattle.wcv_core.specs.declared.core_types.ValType.{ValType};
ghost use Rattle.wcv_listing.specs.Canons.{copying_forms, copy_cancelling_forms, given, read_by, canon_named, canon_of};
ghost use Rattle.wcv_listing.specs.Fields.{named};
ghost use Rattle.wcv_listing.specs.Seen.{view};
ghost use Rattle.wcv_syntax.specs.CanonRows.{lift_operands, lower_operands, result_and_options, type_and_options, options_alone, type_and_slot, type_and_table, core_type_alone, async_alone, type_and_async, option_rows, operand_rows, plain_rows, type_rows, plain_forms, type_forms};
ghost use Rattle.wcv_syntax.specs.Model.{Canon_form, lift, lower, task_return, builtin};
ghost use Rattle.wcv_syntax.specs.View.{canon_view};

use crate::canon_options::options_at;
use crate::core_value::{mark_at, read_core_value};
use crate::node::Node;
use crate::value::{has_only_keys, index_at, index_of, is_null, is_one_of, member_at, sole_member};
use crate::value_type::read_optional;
use std::alloc::Global;
use wcv_core::{OutOfMemory, ValType};
use wcv_syntax::{CanonicalFunction, CanonicalOption};

// Which thread goes on, by its name.
fn thread_named(name: &str) -> Option<CanonicalFunction>
    ensures { option_map canon_view result ≡ option_map builtin (named (drop 9 plain_forms) name.now) }
{
    match name {
        "thread.index" => Some(CanonicalFunction::ThreadIndex),
        "thread.suspend" => Some(CanonicalFunction::ThreadSuspend),
        "thread.resume-later" => Some(CanonicalFunction::ThreadResumeLater),
        "thread.yield" => Some(CanonicalFunction::ThreadYield),
        "thread.suspend-then-resume" => Some(CanonicalFunction::ThreadSuspendThenResume),
        "thread.yield-then-resume" => Some(CanonicalFunction::ThreadYieldThenResume),
        "thread.suspend-then-promote" => Some(CanonicalFunction::ThreadSuspendThenPromote),
        "thread.yield-then-promote" => Some(CanonicalFunction::ThreadYieldThenPromote),
        _ => None,
    }
}

// A canonical function without operands, by its name.
fn plain_named(name: &str) -> Option<CanonicalFunction>
    ensures { option_map canon_view result ≡ option_map builtin (named plain_forms name.now) }
{
    match name {
        "thread.available-parallelism" => Some(CanonicalFunction::ThreadAvailableParallelism),
        "backpressure.inc" => Some(CanonicalFunction::BackpressureInc),
        "backpressure.dec" => Some(CanonicalFunction::BackpressureDec),
        "task.cancel" => Some(CanonicalFunction::TaskCancel),
        "subtask.drop" => Some(CanonicalFunction::SubtaskDrop),
        "error-context.drop" => Some(CanonicalFunction::ErrorContextDrop),
        "waitable-set.new" => Some(CanonicalFunction::WaitableSetNew),
        "waitable-set.drop" => Some(CanonicalFunction::WaitableSetDrop),
        "waitable.join" => Some(CanonicalFunction::WaitableJoin),
        _ => thread_named(name),
    }
}

// One of a type, by its name and the type's index.
fn typed_named(name: &str, index: u32) -> Option<CanonicalFunction>
    ensures { option_map canon_view result ≡ option_map (λ form. builtin (form index)) (named type_forms name.now) }
{
    match name {
        "resource.new" => Some(CanonicalFunction::ResourceNew { resource: index }),
        "resource.drop" => Some(CanonicalFunction::ResourceDrop { resource: index }),
        "resource.rep" => Some(CanonicalFunction::ResourceRep { resource: index }),
        "stream.new" => Some(CanonicalFunction::StreamNew { ty: index }),
        "stream.forward" => Some(CanonicalFunction::StreamForward { ty: index }),
        "stream.drop-readable" => Some(CanonicalFunction::StreamDropReadable { ty: index }),
        "stream.drop-writable" => Some(CanonicalFunction::StreamDropWritable { ty: index }),
        "future.new" => Some(CanonicalFunction::FutureNew { ty: index }),
        "future.forward" => Some(CanonicalFunction::FutureForward { ty: index }),
        "future.drop-readable" => Some(CanonicalFunction::FutureDropReadable { ty: index }),
        "future.drop-writable" => Some(CanonicalFunction::FutureDropWritable { ty: index }),
        _ => None,
    }
}

// A core value type and a slot.
fn type_and_slot_of(body: Node<'_, '_>) -> Option<(ValType, u32)>
    ensures { (form : ValType → ℕ → Canon_form) → option_map (λ p. form p.0 p.1) result ≡ given type_and_slot form (view body.entry) }
{
    if !has_only_keys(body, &["type", "slot"]) {
        return None;
    }
    let Some(ty) = read_core_value(member_at(body, "type")?) else {
        return None;
    };
    let Some(slot) = index_at(body, "slot") else {
        return None;
    };
    Some((ty, slot))
}

// A core type and a table.
fn type_and_table_of(body: Node<'_, '_>) -> Option<(u32, u32)>
    ensures { (form : ℕ → ℕ → Canon_form) → option_map (λ p. form p.0 p.1) result ≡ given type_and_table form (view body.entry) }
{
    if !has_only_keys(body, &["type", "table"]) {
        return None;
    }
    let Some(ty) = index_at(body, "type") else {
        return None;
    };
    let Some(table) = index_at(body, "table") else {
        return None;
    };
    Some((ty, table))
}

// A type and whether the call is async.
fn type_and_async_of(body: Node<'_, '_>) -> Option<(u32, bool)>
    ensures { (form : ℕ → Bool → Canon_form) → option_map (λ p. form p.0 p.1) result ≡ given type_and_async form (view body.entry) }
{
    if !has_only_keys(body, &["type", "async"]) {
        return None;
    }
    let Some(ty) = index_at(body, "type") else {
        return None;
    };
    let Some(async_) = mark_at(body, "async") else {
        return None;
    };
    Some((ty, async_))
}

// A core type alone.
fn core_type_of(body: Node<'_, '_>) -> Option<u32>
    ensures { (form : ℕ → Canon_form) → option_map form result ≡ given core_type_alone form (view body.entry) }
{
    if has_only_keys(body, &["type"]) {
        index_at(body, "type")
    } else {
        None
    }
}

// Whether the call is async, alone.
fn async_of(body: Node<'_, '_>) -> Option<bool>
    ensures { (form : Bool → Canon_form) → option_map form result ≡ given async_alone form (view body.entry) }
{
    if has_only_keys(body, &["async"]) {
        mark_at(body, "async")
    } else {
        None
    }
}

// What stands under the name of one without operands, or of one of a type alone.
fn read_simple(name: &str, body: Node<'_, '_>) -> Option<CanonicalFunction>
    ensures { option_map canon_view result ≡ read_by (plain_rows ++ type_rows) name.now (view body.entry) }
{
    if let Some(func) = plain_named(name) {
        return if is_null(body) { Some(func) } else { None };
    }
    typed_named(name, index_of(body)?)
}

// What stands under the name of one that waits, or of one behind it in the table.
fn read_waiting(name: &str, body: Node<'_, '_>) -> Option<CanonicalFunction>
    ensures { option_map canon_view result ≡ read_by (drop 10 operand_rows ++ (plain_rows ++ type_rows)) name.now (view body.entry) }
{
    match name {
        "waitable-set.wait" => {
            let memory = index_of(body)?;
            Some(CanonicalFunction::WaitableSetWait { memory })
        }
        "waitable-set.poll" => {
            let memory = index_of(body)?;
            Some(CanonicalFunction::WaitableSetPoll { memory })
        }
        _ => read_simple(name, body),
    }
}

// One that cancels a read or a write, by its name, a type and whether the call is async.
fn copy_cancelling_named(name: &str, ty: u32, async_: bool) -> Option<CanonicalFunction>
    ensures { option_map canon_view result ≡ option_map (λ form. form (ty, async_)) (named copy_cancelling_forms name.now) }
{
    match name {
        "stream.cancel-read" => Some(CanonicalFunction::StreamCancelRead { ty, async_ }),
        "stream.cancel-write" => Some(CanonicalFunction::StreamCancelWrite { ty, async_ }),
        "future.cancel-read" => Some(CanonicalFunction::FutureCancelRead { ty, async_ }),
        "future.cancel-write" => Some(CanonicalFunction::FutureCancelWrite { ty, async_ }),
        _ => None,
    }
}

// What stands under the name of one that cancels a read or a write, or of one behind it in the table.
fn read_copy_cancelling(name: &str, body: Node<'_, '_>) -> Option<CanonicalFunction>
    ensures { option_map canon_view result ≡ read_by (drop 6 operand_rows ++ (plain_rows ++ type_rows)) name.now (view body.entry) }
{
    let names = [
        "stream.cancel-read",
        "stream.cancel-write",
        "future.cancel-read",
        "future.cancel-write",
    ];
    if !is_one_of(name, &names) {
        return read_waiting(name, body);
    }
    let Some((ty, async_)) = type_and_async_of(body) else {
        return None;
    };
    copy_cancelling_named(name, ty, async_)
}

// What stands under the name of one that cancels, or of one behind it in the table.
fn read_cancelling(name: &str, body: Node<'_, '_>) -> Option<CanonicalFunction>
    ensures { option_map canon_view result ≡ read_by (drop 5 operand_rows ++ (plain_rows ++ type_rows)) name.now (view body.entry) }
{
    match name {
        "subtask.cancel" => {
            let async_ = async_of(body)?;
            Some(CanonicalFunction::SubtaskCancel { async_ })
        }
        _ => read_copy_cancelling(name, body),
    }
}

// What stands under the name of one without options.
fn read_without_options(name: &str, body: Node<'_, '_>) -> Option<CanonicalFunction>
    ensures { option_map canon_view result ≡ read_by (operand_rows ++ (plain_rows ++ type_rows)) name.now (view body.entry) }
{
    match name {
        "context.get" => {
            let (ty, slot) = type_and_slot_of(body)?;
            Some(CanonicalFunction::ContextGet { ty, slot })
        }
        "context.set" => {
            let (ty, slot) = type_and_slot_of(body)?;
            Some(CanonicalFunction::ContextSet { ty, slot })
        }
        "thread.spawn-ref" => {
            let func_ty_index = core_type_of(body)?;
            Some(CanonicalFunction::ThreadSpawnRef { func_ty_index })
        }
        "thread.spawn-indirect" => {
            let (func_ty_index, table_index) = type_and_table_of(body)?;
            Some(CanonicalFunction::ThreadSpawnIndirect {
                func_ty_index,
                table_index,
            })
        }
        "thread.new-indirect" => {
            let (func_ty_index, table_index) = type_and_table_of(body)?;
            Some(CanonicalFunction::ThreadNewIndirect {
                func_ty_index,
                table_index,
            })
        }
        _ => read_cancelling(name, body),
    }
}

// A core function, a type and options.
fn read_lift(alloc: Global, body: Node<'_, '_>) -> Result<Option<CanonicalFunction>, OutOfMemory>
    ensures { IfOk result (λ func. option_map canon_view func ≡ given lift_operands lift (view body.entry)) }
{
    if !has_only_keys(body, &["core", "type", "options"]) {
        return Ok(None);
    }
    let Some(core_func_index) = index_at(body, "core") else {
        return Ok(None);
    };
    let Some(type_index) = index_at(body, "type") else {
        return Ok(None);
    };
    let Some(options) = options_at(alloc, body)? else {
        return Ok(None);
    };
    Ok(Some(CanonicalFunction::Lift {
        core_func_index,
        type_index,
        options,
    }))
}

// A function and options.
fn read_lower(alloc: Global, body: Node<'_, '_>) -> Result<Option<CanonicalFunction>, OutOfMemory>
    ensures { IfOk result (λ func. option_map canon_view func ≡ given lower_operands lower (view body.entry)) }
{
    if !has_only_keys(body, &["func", "options"]) {
        return Ok(None);
    }
    let Some(func_index) = index_at(body, "func") else {
        return Ok(None);
    };
    let Some(options) = options_at(alloc, body)? else {
        return Ok(None);
    };
    Ok(Some(CanonicalFunction::Lower {
        func_index,
        options,
    }))
}

// The type of a result, which may be absent, and options.
fn read_task_return(
    alloc: Global,
    body: Node<'_, '_>,
) -> Result<Option<CanonicalFunction>, OutOfMemory>
    ensures { IfOk result (λ func. option_map canon_view func ≡ given result_and_options task_return (view body.entry)) }
{
    if !has_only_keys(body, &["result", "options"]) {
        return Ok(None);
    }
    let Some(result) = read_optional(body, "result") else {
        return Ok(None);
    };
    let Some(options) = options_at(alloc, body)? else {
        return Ok(None);
    };
    Ok(Some(CanonicalFunction::TaskReturn { result, options }))
}

// A type and options.
fn read_type_and_options(
    alloc: Global,
    body: Node<'_, '_>,
) -> Result<Option<(u32, Vec<CanonicalOption>)>, OutOfMemory>
    ensures { IfOk result (λ parts. (form : ℕ → List CanonicalOption → Canon_form) → option_map (λ p. form p.0 p.1.items) parts ≡ given type_and_options form (view body.entry)) }
{
    if !has_only_keys(body, &["type", "options"]) {
        return Ok(None);
    }
    let Some(ty) = index_at(body, "type") else {
        return Ok(None);
    };
    let Some(options) = options_at(alloc, body)? else {
        return Ok(None);
    };
    Ok(Some((ty, options)))
}

// Options alone.
fn read_options_alone(
    alloc: Global,
    body: Node<'_, '_>,
) -> Result<Option<Vec<CanonicalOption>>, OutOfMemory>
    ensures { IfOk result (λ options. (form : List CanonicalOption → Canon_form) → option_map (λ os. form os.items) options ≡ given options_alone form (view body.entry)) }
{
    if !has_only_keys(body, &["options"]) {
        return Ok(None);
    }
    let Some(options) = options_at(alloc, body)? else {
        return Ok(None);
    };
    Ok(Some(options))
}

// What stands under the name of one that takes an error context's options, or of one behind it in the table.
fn read_error_context(
    alloc: Global,
    name: &str,
    body: Node<'_, '_>,
) -> Result<Option<CanonicalFunction>, OutOfMemory>
    ensures { IfOk result (λ func. option_map canon_view func ≡ read_by (drop 7 option_rows ++ (operand_rows ++ (plain_rows ++ type_rows))) name.now (view body.entry)) }
{
    match name {
        "error-context.new" => {
            let Some(options) = read_options_alone(alloc, body)? else {
                return Ok(None);
            };
            Ok(Some(CanonicalFunction::ErrorContextNew { options }))
        }
        "error-context.debug-message" => {
            let Some(options) = read_options_alone(alloc, body)? else {
                return Ok(None);
            };
            Ok(Some(CanonicalFunction::ErrorContextDebugMessage { options }))
        }
        _ => Ok(read_without_options(name, body)),
    }
}

// One that reads or writes, by its name, a type and options.
fn copying_named(name: &str, ty: u32, options: Vec<CanonicalOption>) -> Option<CanonicalFunction>
    ensures { option_map canon_view result ≡ option_map (λ form. form (ty, options.items)) (named copying_forms name.now) }
{
    match name {
        "stream.read" => Some(CanonicalFunction::StreamRead { ty, options }),
        "stream.write" => Some(CanonicalFunction::StreamWrite { ty, options }),
        "future.read" => Some(CanonicalFunction::FutureRead { ty, options }),
        "future.write" => Some(CanonicalFunction::FutureWrite { ty, options }),
        _ => None,
    }
}

// What stands under the name of one that reads or writes, or of one behind it in the table.
fn read_copying(
    alloc: Global,
    name: &str,
    body: Node<'_, '_>,
) -> Result<Option<CanonicalFunction>, OutOfMemory>
    ensures { IfOk result (λ func. option_map canon_view func ≡ read_by (drop 3 option_rows ++ (operand_rows ++ (plain_rows ++ type_rows))) name.now (view body.entry)) }
{
    let names = ["stream.read", "stream.write", "future.read", "future.write"];
    if !is_one_of(name, &names) {
        return read_error_context(alloc, name, body);
    }
    let Some((ty, options)) = read_type_and_options(alloc, body)? else {
        return Ok(None);
    };
    Ok(copying_named(name, ty, options))
}

// What stands under the name of a canonical function.
#[tactic(auto, unfolding(crate::specs::Canons::canon_named, wcv_syntax::specs::CanonRows::canon_rows))]
fn read_named(
    alloc: Global,
    name: &str,
    body: Node<'_, '_>,
) -> Result<Option<CanonicalFunction>, OutOfMemory>
    ensures { IfOk result (λ func. option_map canon_view func ≡ canon_named name.now (view body.entry)) }
{
    match name {
        "lift" => read_lift(alloc, body),
        "lower" => read_lower(alloc, body),
        "task.return" => read_task_return(alloc, body),
        _ => read_copying(alloc, name, body),
    }
}

/// The body of `canon`.
pub fn read_canon(
    alloc: Global,
    value: Node<'_, '_>,
) -> Result<Option<CanonicalFunction>, OutOfMemory>
    ensures { IfOk result (λ func. option_map canon_view func ≡ canon_of (view value.entry)) }
{
    match sole_member(value) {
        Some((name, body)) => read_named(alloc, name, body),
        None => Ok(None),
    }
}
