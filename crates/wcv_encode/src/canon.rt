// Canonical functions and their options.
ghost use Rattle.std.specs.Prelude.{◌≡◌, Some};
ghost use Rattle.wcv_syntax.specs.View.{canon_view};
ghost use Rattle.wcv_encode.specs.Bytes.{Wrote, ◌⧺◌, u32_bytes, flag, byte, vec};
ghost use Rattle.wcv_encode.specs.Canons.{option_bytes, thread_bytes, waitable_bytes, stream_bytes, builtin_bytes, canon_bytes};
ghost use Rattle.wcv_encode.specs.CoreTypes.{val_bytes};

use crate::core_type::write_val;
use crate::fault::Unwritten;
use crate::list::{ToBytes, write_vec};
use crate::number::{write_byte, write_flag, write_u32};
use crate::value::write_result;
use wcv_core::ValType;
use wcv_syntax::{CanonicalFunction, CanonicalOption};

/// Writes a byte and an index.
#[tactic(auto, using(crate::proofs::Joins::joins))]
fn write_indexed(out: &mut Vec<u8>, code: u8, index: u32) -> Result<(), Unwritten>
    ensures { Wrote result (Some out.old.items ⧺ (byte code ⧺ u32_bytes index)) out.new.items }
{
    write_byte(out, code)?;
    write_u32(out, index)
}

/// Writes a byte, a type by its index, and whether the call is asynchronous.
#[tactic(auto, using(crate::proofs::Joins::joins))]
fn write_cancel(out: &mut Vec<u8>, code: u8, ty: u32, async_: bool) -> Result<(), Unwritten>
    ensures { Wrote result (Some out.old.items ⧺ (byte code ⧺ u32_bytes ty ⧺ flag async_)) out.new.items }
{
    write_byte(out, code)?;
    write_u32(out, ty)?;
    write_flag(out, async_)
}

/// Writes a byte and two indices.
#[tactic(auto, using(crate::proofs::Joins::joins))]
fn write_two(out: &mut Vec<u8>, code: u8, first: u32, second: u32) -> Result<(), Unwritten>
    ensures { Wrote result (Some out.old.items ⧺ (byte code ⧺ u32_bytes first ⧺ u32_bytes second)) out.new.items }
{
    write_byte(out, code)?;
    write_u32(out, first)?;
    write_u32(out, second)
}

/// Writes a byte, and a 0 behind it.
#[tactic(auto, using(crate::proofs::Joins::joins))]
fn write_uncancelled(out: &mut Vec<u8>, code: u8) -> Result<(), Unwritten>
    ensures { Wrote result (Some out.old.items ⧺ (byte code ⧺ byte 0)) out.new.items }
{
    write_byte(out, code)?;
    write_byte(out, 0)
}

/// Writes a byte, a 0 and an index.
#[tactic(auto, using(crate::proofs::Joins::joins))]
fn write_wait(out: &mut Vec<u8>, code: u8, memory: u32) -> Result<(), Unwritten>
    ensures { Wrote result (Some out.old.items ⧺ (byte code ⧺ byte 0 ⧺ u32_bytes memory)) out.new.items }
{
    write_byte(out, code)?;
    write_byte(out, 0)?;
    write_u32(out, memory)
}

/// Writes a byte, an index and options.
#[tactic(auto, using(crate::proofs::Joins::joins))]
fn write_with_options(
    out: &mut Vec<u8>,
    code: u8,
    index: u32,
    options: &Vec<CanonicalOption>,
) -> Result<(), Unwritten>
    ensures { Wrote result (Some out.old.items ⧺ (byte code ⧺ u32_bytes index ⧺ vec option_bytes options.now.items)) out.new.items }
{
    write_byte(out, code)?;
    write_u32(out, index)?;
    write_vec(out, options)
}

impl ToBytes for CanonicalOption {
    ghost use Rattle.wcv_encode.specs.Canons.{option_bytes};

    ghost spelled = { option_bytes };

    fn write(&self, out: &mut Vec<u8>) -> Result<(), Unwritten> {
        write_option(out, *self)
    }
}

/// Writes an option.
#[tactic(auto, using(crate::proofs::Joins::joins), unfolding(crate::specs::Canons::option_bytes))]
fn write_option(out: &mut Vec<u8>, option: CanonicalOption) -> Result<(), Unwritten>
    ensures { Wrote result (Some out.old.items ⧺ option_bytes option) out.new.items }
{
    match option {
        CanonicalOption::UTF8 => write_byte(out, 0x00),
        CanonicalOption::UTF16 => write_byte(out, 0x01),
        CanonicalOption::CompactUTF16 => write_byte(out, 0x02),
        CanonicalOption::Memory(index) => write_indexed(out, 0x03, index),
        CanonicalOption::Realloc(index) => write_indexed(out, 0x04, index),
        CanonicalOption::PostReturn(index) => write_indexed(out, 0x05, index),
        CanonicalOption::Async => write_byte(out, 0x06),
        CanonicalOption::Callback(index) => write_indexed(out, 0x07, index),
        CanonicalOption::CoreType(index) => write_indexed(out, 0x08, index),
        CanonicalOption::Gc => write_byte(out, 0x09),
    }
}

/// Writes a function of threads.
#[tactic(auto, using(crate::proofs::Joins::joins), unfolding(crate::specs::Canons::thread_bytes))]
fn write_thread(out: &mut Vec<u8>, func: &CanonicalFunction) -> Result<(), Unwritten>
    ensures { Wrote result (Some out.old.items ⧺ thread_bytes func.now) out.new.items }
{
    match func {
        CanonicalFunction::ThreadYield => write_uncancelled(out, 0x0c),
        CanonicalFunction::ThreadIndex => write_byte(out, 0x26),
        CanonicalFunction::ThreadNewIndirect {
            func_ty_index,
            table_index,
        } => write_two(out, 0x27, *func_ty_index, *table_index),
        CanonicalFunction::ThreadSuspendThenResume => write_uncancelled(out, 0x28),
        CanonicalFunction::ThreadSuspend => write_uncancelled(out, 0x29),
        CanonicalFunction::ThreadResumeLater => write_byte(out, 0x2a),
        CanonicalFunction::ThreadYieldThenResume => write_uncancelled(out, 0x2b),
        CanonicalFunction::ThreadSuspendThenPromote => write_uncancelled(out, 0x2c),
        CanonicalFunction::ThreadSpawnRef { func_ty_index } => write_indexed(
            out,
            0x40,
            *func_ty_index,
        ),
        CanonicalFunction::ThreadSpawnIndirect {
            func_ty_index,
            table_index,
        } => write_two(out, 0x41, *func_ty_index, *table_index),
        CanonicalFunction::ThreadAvailableParallelism => write_byte(out, 0x42),
        _ => Err(Unwritten::NoBytes),
    }
}

/// Writes a function of errors or of what is waited for, or else of threads.
#[tactic(auto, using(crate::proofs::Joins::joins), unfolding(crate::specs::Canons::waitable_bytes))]
fn write_waitable(out: &mut Vec<u8>, func: &CanonicalFunction) -> Result<(), Unwritten>
    ensures { Wrote result (Some out.old.items ⧺ waitable_bytes func.now) out.new.items }
{
    match func {
        CanonicalFunction::ErrorContextDrop => write_byte(out, 0x1e),
        CanonicalFunction::WaitableSetNew => write_byte(out, 0x1f),
        CanonicalFunction::WaitableSetWait { memory } => write_wait(out, 0x20, *memory),
        CanonicalFunction::WaitableSetPoll { memory } => write_wait(out, 0x21, *memory),
        CanonicalFunction::WaitableSetDrop => write_byte(out, 0x22),
        CanonicalFunction::WaitableJoin => write_byte(out, 0x23),
        CanonicalFunction::BackpressureInc => write_byte(out, 0x24),
        CanonicalFunction::BackpressureDec => write_byte(out, 0x25),
        _ => write_thread(out, func),
    }
}

/// Writes a function of streams or futures without options, or else of what is waited for.
#[tactic(auto, using(crate::proofs::Joins::joins), unfolding(crate::specs::Canons::stream_bytes))]
fn write_stream(out: &mut Vec<u8>, func: &CanonicalFunction) -> Result<(), Unwritten>
    ensures { Wrote result (Some out.old.items ⧺ stream_bytes func.now) out.new.items }
{
    match func {
        CanonicalFunction::StreamNew { ty } => write_indexed(out, 0x0e, *ty),
        CanonicalFunction::StreamCancelRead { ty, async_ } => write_cancel(out, 0x11, *ty, *async_),
        CanonicalFunction::StreamCancelWrite { ty, async_ } => write_cancel(
            out, 0x12, *ty, *async_,
        ),
        CanonicalFunction::StreamDropReadable { ty } => write_indexed(out, 0x13, *ty),
        CanonicalFunction::StreamDropWritable { ty } => write_indexed(out, 0x14, *ty),
        CanonicalFunction::FutureNew { ty } => write_indexed(out, 0x15, *ty),
        CanonicalFunction::FutureCancelRead { ty, async_ } => write_cancel(out, 0x18, *ty, *async_),
        CanonicalFunction::FutureCancelWrite { ty, async_ } => write_cancel(
            out, 0x19, *ty, *async_,
        ),
        CanonicalFunction::FutureDropReadable { ty } => write_indexed(out, 0x1a, *ty),
        CanonicalFunction::FutureDropWritable { ty } => write_indexed(out, 0x1b, *ty),
        _ => write_waitable(out, func),
    }
}

/// Writes a byte, a core value type and a slot.
#[tactic(auto, using(crate::proofs::Joins::joins))]
fn write_context(out: &mut Vec<u8>, code: u8, ty: ValType, slot: u32) -> Result<(), Unwritten>
    ensures { Wrote result (Some out.old.items ⧺ (byte code ⧺ val_bytes ty ⧺ u32_bytes slot)) out.new.items }
{
    write_byte(out, code)?;
    write_val(out, ty)?;
    write_u32(out, slot)
}

/// Writes a function without options.
#[tactic(auto, using(crate::proofs::Joins::joins), unfolding(crate::specs::Canons::builtin_bytes))]
fn write_builtin(out: &mut Vec<u8>, func: &CanonicalFunction) -> Result<(), Unwritten>
    ensures { Wrote result (Some out.old.items ⧺ builtin_bytes func.now) out.new.items }
{
    match func {
        CanonicalFunction::ResourceNew { resource } => write_indexed(out, 0x02, *resource),
        CanonicalFunction::ResourceDrop { resource } => write_indexed(out, 0x03, *resource),
        CanonicalFunction::ResourceRep { resource } => write_indexed(out, 0x04, *resource),
        CanonicalFunction::TaskCancel => write_byte(out, 0x05),
        CanonicalFunction::SubtaskCancel { async_ } => {
            write_byte(out, 0x06)?;
            write_flag(out, *async_)
        },
        CanonicalFunction::ContextGet { ty, slot } => write_context(out, 0x0a, *ty, *slot),
        CanonicalFunction::ContextSet { ty, slot } => write_context(out, 0x0b, *ty, *slot),
        CanonicalFunction::SubtaskDrop => write_byte(out, 0x0d),
        _ => write_stream(out, func),
    }
}

/// Writes a canonical function.
#[tactic(auto, using(crate::proofs::Joins::joins), unfolding(crate::specs::Canons::canon_bytes))]
pub(crate) fn write_canon(out: &mut Vec<u8>, func: &CanonicalFunction) -> Result<(), Unwritten>
    ensures { Wrote result (Some out.old.items ⧺ canon_bytes (canon_view func.now)) out.new.items }
{
    match func {
        CanonicalFunction::Lift {
            core_func_index,
            type_index,
            options,
        } => {
            write_byte(out, 0x00)?;
            write_with_options(out, 0x00, *core_func_index, options)?;
            write_u32(out, *type_index)
        },
        CanonicalFunction::Lower {
            func_index,
            options,
        } => {
            write_byte(out, 0x01)?;
            write_with_options(out, 0x00, *func_index, options)
        },
        CanonicalFunction::TaskReturn { result, options } => {
            write_byte(out, 0x09)?;
            write_result(out, *result)?;
            write_vec(out, options)
        },
        CanonicalFunction::StreamRead { ty, options } => write_with_options(
            out, 0x0f, *ty, options,
        ),
        CanonicalFunction::StreamWrite { ty, options } => write_with_options(
            out, 0x10, *ty, options,
        ),
        CanonicalFunction::FutureRead { ty, options } => write_with_options(
            out, 0x16, *ty, options,
        ),
        CanonicalFunction::FutureWrite { ty, options } => write_with_options(
            out, 0x17, *ty, options,
        ),
        CanonicalFunction::ErrorContextNew { options } => {
            write_byte(out, 0x1c)?;
            write_vec(out, options)
        },
        CanonicalFunction::ErrorContextDebugMessage { options } => {
            write_byte(out, 0x1d)?;
            write_vec(out, options)
        },
        _ => write_builtin(out, func),
    }
}
