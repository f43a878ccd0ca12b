// From a source into memory, and from memory into a sink.
ghost use Rattle.std.specs.Prelude.{◌≡◌, ◌≤◌, ◌+◌, ◌<◌, ℕ, List, ◌++◌, take, drop, length, vec_len, IfOk, OnOk, OnErr, IsErrOf};
ghost use Rattle.std.specs.Io.KnownBytes.{Appends, Consumes, IsAtEnd, Keeps};
ghost use Rattle.wcv_main.specs.Faults.{Rose, HasCause};
ghost use Rattle.wcv_main.specs.Pump.{AppendsPrefix, ConsumesAtMost};
ghost use Rattle.wcv_main.specs.declared.pump.ReadError.TheVariants.{Memory};
ghost use Rattle.wcv_main.specs.declared.pump.WriteError.TheVariants as write_error;

use crate::ends::{Failed, Sink, Source};
use std::alloc::{AllocError, Global};
use wcv_core::limits::MAX_LISTING;

// How many bytes are asked for at once.
const CHUNK: usize = 65_536;

/// Why not all was read.
#[derive(Clone, Copy)]
pub enum ReadError {
    /// A read failed.
    Failed,
    /// Out of memory.
    Memory,
}

impl From<AllocError> for ReadError {
    ghost from_gives = { λ _ e. e ≡ Memory };

    fn from(_: AllocError) -> ReadError {
        ReadError::Memory
    }
}

/// Why not all was written.
#[derive(Clone, Copy)]
pub enum WriteError {
    /// A write failed.
    Failed,
    /// Out of memory.
    Memory,
}

impl From<AllocError> for WriteError {
    ghost from_gives = { λ _ e. e ≡ write_error.Memory };

    fn from(_: AllocError) -> WriteError {
        WriteError::Memory
    }
}

impl From<Failed> for WriteError {
    ghost from_gives = { λ _ e. e ≡ write_error.Failed };

    fn from(_: Failed) -> WriteError {
        WriteError::Failed
    }
}

// Reads once, and appends what was read.
fn read_some<S: Source>(
    source: &mut S,
    bytes: &mut Vec<u8>,
    chunk: &mut [u8],
) -> Result<usize, ReadError>
    requires { 0 < length chunk.old }
    ensures later { S.faults source.old ≤ S.faults source.new }
    ensures failed { IsErrOf result ReadError.Failed → Rose (S.faults source.old) (S.faults source.new) }
    ensures steady { OnOk result (S.faults source.new ≡ S.faults source.old) }
    ensures memory { IsErrOf result ReadError.Memory → S.faults source.new ≡ S.faults source.old }
    ensures bounded { ConsumesAtMost (S.left source.old) (S.left source.new) (length chunk.old) }
    ensures count { IfOk result (λ n. (n ≤ length chunk.old) × (vec_len bytes.new ≡ vec_len bytes.old + n)) }
    ensures bytes { IfOk result (λ n. (got : List ℕ) × (bytes.new.items ≡ bytes.old.items ++ got) × (length got ≡ n)
        × Consumes (S.left source.old) (S.left source.new) got × (n ≡ 0 → IsAtEnd (S.left source.new))) }
{
    let count = source.read(chunk).map_err(|_| ReadError::Failed)?;
    bytes.extend_from_slice(&chunk[..count])?;
    Ok(count)
}

/// Reads to the end, or until one byte more than the limit was given: more is never asked for. It
/// fails only where a read failed or it ran out of memory.
pub fn read_all<S: Source>(alloc: Global, source: &mut S) -> Result<Vec<u8>, ReadError>
    ensures later { S.faults source.old ≤ S.faults source.new }
    ensures failed { IsErrOf result ReadError.Failed → Rose (S.faults source.old) (S.faults source.new) }
    ensures steady { OnOk result (S.faults source.new ≡ S.faults source.old) }
    ensures memory { IsErrOf result ReadError.Memory → S.faults source.new ≡ S.faults source.old }
    ensures bounded { ConsumesAtMost (S.left source.old) (S.left source.new) (MAX_LISTING + 1) }
    ensures limit { IfOk result (λ v. length v.items ≤ MAX_LISTING + 1) }
    ensures bytes { IfOk result (λ v. Consumes (S.left source.old) (S.left source.new) v.items) }
    ensures end { IfOk result (λ v. length v.items ≤ MAX_LISTING → IsAtEnd (S.left source.new)) }
{
    let mut bytes = Vec::new(alloc);
    let mut chunk = [0u8; CHUNK];
    while bytes.len() <= MAX_LISTING {
        let room = CHUNK.min(MAX_LISTING + 1 - bytes.len());
        if read_some(source, &mut bytes, &mut chunk[..room])? == 0 {
            return Ok(bytes);
        }
    }
    Ok(bytes)
}

// Writes once, from a place in the text on.
fn write_some<K: Sink>(sink: &mut K, text: &[u8], done: usize) -> Result<usize, Failed>
    requires { done < length text.now }
    ensures count { IfOk result (λ n. (0 < n) × (done + n ≤ length text.now)) }
    ensures taken { IfOk result (λ n. Appends (K.taken sink.old) (K.taken sink.new) (take n (drop done text.now))) }
    ensures kept { OnErr result (Keeps (K.taken sink.old) (K.taken sink.new)) }
    ensures cause { HasCause (K.faults sink.old) (K.faults sink.new) result }
{
    sink.write(&text[done..])
}

/// Writes the whole text. Where a write fails, a prefix of the text was written.
pub fn write_all<K: Sink>(sink: &mut K, text: &[u8]) -> Result<(), Failed>
    ensures whole { OnOk result (Appends (K.taken sink.old) (K.taken sink.new) text.now) }
    ensures prefix { OnErr result (AppendsPrefix (K.taken sink.old) (K.taken sink.new) text.now) }
    ensures cause { HasCause (K.faults sink.old) (K.faults sink.new) result }
{
    let mut done = 0;
    while done < text.len() {
        done += write_some(sink, text, done)?;
    }
    Ok(())
}
