// Canonical functions.
ghost use Rattle.std.specs.Prelude.{◌≡◌, option_map};
ghost use Rattle.wcv_binary.specs.Canons.{plain_canons, plain_canon_at, waiting_canon_at, paired_canon_at, typed_canon_at, lift_at, lower_at, canon_at};
ghost use Rattle.wcv_bytes.specs.Reading.{Gives, under_byte};
ghost use Rattle.wcv_syntax.specs.Model.{builtin};
ghost use Rattle.wcv_syntax.specs.View.{canon_view};

use crate::core_value::read_val_type;
use crate::list::read_vec;
use crate::value::read_result;
use std::alloc::Global;
use wcv_bytes::{Fault, ReadError, Why, read_byte, read_flag, read_u32, read_zero};
use wcv_syntax::CanonicalFunction;

// One without operands, by its byte.
fn plain_canon(byte: u8) -> Option<CanonicalFunction>
    ensures { option_map canon_view result ≡ option_map builtin (under_byte plain_canons byte) }
{
    match byte {
        0x05 => Some(CanonicalFunction::TaskCancel),
        0x0D => Some(CanonicalFunction::SubtaskDrop),
        0x1E => Some(CanonicalFunction::ErrorContextDrop),
        0x1F => Some(CanonicalFunction::WaitableSetNew),
        0x22 => Some(CanonicalFunction::WaitableSetDrop),
        0x23 => Some(CanonicalFunction::WaitableJoin),
        0x24 => Some(CanonicalFunction::BackpressureInc),
        0x25 => Some(CanonicalFunction::BackpressureDec),
        0x26 => Some(CanonicalFunction::ThreadIndex),
        0x2A => Some(CanonicalFunction::ThreadResumeLater),
        0x42 => Some(CanonicalFunction::ThreadAvailableParallelism),
        _ => None,
    }
}

// One of them at the front.
#[tactic(auto, unfolding(crate::specs::Canons::plain_canon_at))]
fn read_plain(bytes: &[u8]) -> Result<(CanonicalFunction, &[u8]), ReadError>
    ensures { Gives (λ x. (canon_view x.0, x.1.now)) result (plain_canon_at bytes.now) }
{
    let (byte, rest) = read_byte(bytes)?;
    match plain_canon(byte) {
        Some(func) => Ok((func, rest)),
        None => {
            let why = if byte == 0x07 {
                Why::UnsupportedAsyncDrop
            } else {
                Why::NotCanon
            };
            Err(ReadError::Fault(Fault {
                why,
                left: bytes.len(),
            }))
        }
    }
}

// One that waits or lets other threads run, or one of those above. Whether it can be cancelled is dropped.
#[tactic(auto, unfolding(crate::specs::Canons::waiting_canon_at))]
fn read_waiting(bytes: &[u8]) -> Result<(CanonicalFunction, &[u8]), ReadError>
    ensures { Gives (λ x. (canon_view x.0, x.1.now)) result (waiting_canon_at bytes.now) }
{
    let (byte, rest) = read_byte(bytes)?;
    match byte {
        0x0C => {
            let (_cancellable, rest) = read_flag(rest)?;
            Ok((CanonicalFunction::ThreadYield, rest))
        }
        0x20 => {
            let (_cancellable, rest) = read_flag(rest)?;
            let (memory, rest) = read_u32(rest)?;
            Ok((CanonicalFunction::WaitableSetWait { memory }, rest))
        }
        0x21 => {
            let (_cancellable, rest) = read_flag(rest)?;
            let (memory, rest) = read_u32(rest)?;
            Ok((CanonicalFunction::WaitableSetPoll { memory }, rest))
        }
        0x28 => {
            let (_cancellable, rest) = read_flag(rest)?;
            Ok((CanonicalFunction::ThreadSuspendThenResume, rest))
        }
        0x29 => {
            let (_cancellable, rest) = read_flag(rest)?;
            Ok((CanonicalFunction::ThreadSuspend, rest))
        }
        0x2B => {
            let (_cancellable, rest) = read_flag(rest)?;
            Ok((CanonicalFunction::ThreadYieldThenResume, rest))
        }
        0x2C => {
            let (_cancellable, rest) = read_flag(rest)?;
            Ok((CanonicalFunction::ThreadSuspendThenPromote, rest))
        }
        _ => read_plain(bytes),
    }
}

// One that cancels, one with a core type and a table or a slot, or one of those above.
#[tactic(auto, unfolding(crate::specs::Canons::paired_canon_at))]
fn read_paired(bytes: &[u8]) -> Result<(CanonicalFunction, &[u8]), ReadError>
    ensures { Gives (λ x. (canon_view x.0, x.1.now)) result (paired_canon_at bytes.now) }
{
    let (byte, rest) = read_byte(bytes)?;
    match byte {
        0x06 => {
            let (async_, rest) = read_flag(rest)?;
            Ok((CanonicalFunction::SubtaskCancel { async_ }, rest))
        }
        0x0A => {
            let (ty, rest) = read_val_type(rest)?;
            let (slot, rest) = read_u32(rest)?;
            Ok((CanonicalFunction::ContextGet { ty, slot }, rest))
        }
        0x0B => {
            let (ty, rest) = read_val_type(rest)?;
            let (slot, rest) = read_u32(rest)?;
            Ok((CanonicalFunction::ContextSet { ty, slot }, rest))
        }
        0x11 => {
            let (ty, rest) = read_u32(rest)?;
            let (async_, rest) = read_flag(rest)?;
            Ok((CanonicalFunction::StreamCancelRead { ty, async_ }, rest))
        }
        0x12 => {
            let (ty, rest) = read_u32(rest)?;
            let (async_, rest) = read_flag(rest)?;
            Ok((CanonicalFunction::StreamCancelWrite { ty, async_ }, rest))
        }
        0x18 => {
            let (ty, rest) = read_u32(rest)?;
            let (async_, rest) = read_flag(rest)?;
            Ok((CanonicalFunction::FutureCancelRead { ty, async_ }, rest))
        }
        0x19 => {
            let (ty, rest) = read_u32(rest)?;
            let (async_, rest) = read_flag(rest)?;
            Ok((CanonicalFunction::FutureCancelWrite { ty, async_ }, rest))
        }
        0x27 => {
            let (func_ty_index, rest) = read_u32(rest)?;
            let (table_index, rest) = read_u32(rest)?;
            Ok((
                CanonicalFunction::ThreadNewIndirect {
                    func_ty_index,
                    table_index,
                },
                rest,
            ))
        }
        0x41 => {
            let (func_ty_index, rest) = read_u32(rest)?;
            let (table_index, rest) = read_u32(rest)?;
            Ok((
                CanonicalFunction::ThreadSpawnIndirect {
                    func_ty_index,
                    table_index,
                },
                rest,
            ))
        }
        _ => read_waiting(bytes),
    }
}

// One of a type alone, or one of those above.
#[tactic(auto, unfolding(crate::specs::Canons::typed_canon_at))]
fn read_typed(bytes: &[u8]) -> Result<(CanonicalFunction, &[u8]), ReadError>
    ensures { Gives (λ x. (canon_view x.0, x.1.now)) result (typed_canon_at bytes.now) }
{
    let (byte, rest) = read_byte(bytes)?;
    match byte {
        0x02 => {
            let (resource, rest) = read_u32(rest)?;
            Ok((CanonicalFunction::ResourceNew { resource }, rest))
        }
        0x03 => {
            let (resource, rest) = read_u32(rest)?;
            Ok((CanonicalFunction::ResourceDrop { resource }, rest))
        }
        0x04 => {
            let (resource, rest) = read_u32(rest)?;
            Ok((CanonicalFunction::ResourceRep { resource }, rest))
        }
        0x0E => {
            let (ty, rest) = read_u32(rest)?;
            Ok((CanonicalFunction::StreamNew { ty }, rest))
        }
        0x13 => {
            let (ty, rest) = read_u32(rest)?;
            Ok((CanonicalFunction::StreamDropReadable { ty }, rest))
        }
        0x14 => {
            let (ty, rest) = read_u32(rest)?;
            Ok((CanonicalFunction::StreamDropWritable { ty }, rest))
        }
        0x15 => {
            let (ty, rest) = read_u32(rest)?;
            Ok((CanonicalFunction::FutureNew { ty }, rest))
        }
        0x1A => {
            let (ty, rest) = read_u32(rest)?;
            Ok((CanonicalFunction::FutureDropReadable { ty }, rest))
        }
        0x1B => {
            let (ty, rest) = read_u32(rest)?;
            Ok((CanonicalFunction::FutureDropWritable { ty }, rest))
        }
        0x40 => {
            let (func_ty_index, rest) = read_u32(rest)?;
            Ok((CanonicalFunction::ThreadSpawnRef { func_ty_index }, rest))
        }
        _ => read_paired(bytes),
    }
}

// A core function, options and a type, behind the sort of functions.
#[tactic(auto, unfolding(crate::specs::Canons::lift_at))]
fn read_lift(alloc: Global, bytes: &[u8]) -> Result<(CanonicalFunction, &[u8]), ReadError>
    ensures { Gives (λ x. (canon_view x.0, x.1.now)) result (lift_at bytes.now) }
{
    let rest = read_zero(bytes)?;
    let (core_func_index, rest) = read_u32(rest)?;
    let (options, rest) = read_vec(alloc, rest)?;
    let (type_index, rest) = read_u32(rest)?;
    Ok((
        CanonicalFunction::Lift {
            core_func_index,
            type_index,
            options,
        },
        rest,
    ))
}

// A function and options, behind the sort of functions.
#[tactic(auto, unfolding(crate::specs::Canons::lower_at))]
fn read_lower(alloc: Global, bytes: &[u8]) -> Result<(CanonicalFunction, &[u8]), ReadError>
    ensures { Gives (λ x. (canon_view x.0, x.1.now)) result (lower_at bytes.now) }
{
    let rest = read_zero(bytes)?;
    let (func_index, rest) = read_u32(rest)?;
    let (options, rest) = read_vec(alloc, rest)?;
    Ok((
        CanonicalFunction::Lower {
            func_index,
            options,
        },
        rest,
    ))
}

/// A canonical function, as the component model's Binary.md has them.
#[tactic(auto, unfolding(crate::specs::Canons::canon_at))]
pub fn read_canon(alloc: Global, bytes: &[u8]) -> Result<(CanonicalFunction, &[u8]), ReadError>
    ensures { Gives (λ x. (canon_view x.0, x.1.now)) result (canon_at bytes.now) }
{
    let (byte, rest) = read_byte(bytes)?;
    match byte {
        0x00 => read_lift(alloc, rest),
        0x01 => read_lower(alloc, rest),
        0x09 => {
            let (result, rest) = read_result(rest)?;
            let (options, rest) = read_vec(alloc, rest)?;
            Ok((CanonicalFunction::TaskReturn { result, options }, rest))
        }
        0x0F => {
            let (ty, rest) = read_u32(rest)?;
            let (options, rest) = read_vec(alloc, rest)?;
            Ok((CanonicalFunction::StreamRead { ty, options }, rest))
        }
        0x10 => {
            let (ty, rest) = read_u32(rest)?;
            let (options, rest) = read_vec(alloc, rest)?;
            Ok((CanonicalFunction::StreamWrite { ty, options }, rest))
        }
        0x16 => {
            let (ty, rest) = read_u32(rest)?;
            let (options, rest) = read_vec(alloc, rest)?;
            Ok((CanonicalFunction::FutureRead { ty, options }, rest))
        }
        0x17 => {
            let (ty, rest) = read_u32(rest)?;
            let (options, rest) = read_vec(alloc, rest)?;
            Ok((CanonicalFunction::FutureWrite { ty, options }, rest))
        }
        0x1C => {
            let (options, rest) = read_vec(alloc, rest)?;
            Ok((CanonicalFunction::ErrorContextNew { options }, rest))
        }
        0x1D => {
            let (options, rest) = read_vec(alloc, rest)?;
            Ok((
                CanonicalFunction::ErrorContextDebugMessage { options },
                rest,
            ))
        }
        _ => read_typed(bytes),
    }
}
