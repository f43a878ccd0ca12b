// The ends over memory, with calls that fail by a list.
ghost use Rattle.std.specs.Prelude.{◌≡◌, ◌≤◌, vec_len};

use crate::ends::{Failed, Sink, Source};
use std::alloc::Global;

/// Gives the bytes of a `Vec`. The calls whose numbers, counted from 1, are in `failing` fail.
#[derive(Drop)]
pub struct MemorySource {
    bytes: Vec<u8>,
    at: usize,
    failing: Vec<u64>,
    calls: u64,
    faults: u64,
    ghost within: { at ≤ vec_len bytes },
}

impl MemorySource {
    ghost use Rattle.wcv_main.specs.Memory.{bytes_left, failing_reads, reads, read_faults};

    /// A source of these bytes, which was not called yet.
    pub fn new(bytes: Vec<u8>, failing: Vec<u64>) -> MemorySource
        ensures bytes { bytes_left result ≡ bytes.items }
        ensures failing { failing_reads result ≡ failing.items }
        ensures calls { reads result ≡ 0 }
        ensures faults { read_faults result ≡ 0 }
    {
        MemorySource {
            bytes,
            at: 0,
            failing,
            calls: 0,
            faults: 0,
        }
    }
}

impl Source for MemorySource {
    ghost use Rattle.std.specs.Prelude.{Some, length, min, not, is_ok, IfOk};
    ghost use Rattle.std.specs.Io.{ReadsAtMost};
    ghost use Rattle.std.specs.Io.KnownBytes.{ReadConsumes};
    ghost use Rattle.wcv_main.specs.Faults.{HasCause};
    ghost use Rattle.wcv_main.specs.Memory.{bytes_left, failing_reads, reads, read_faults, next_call, is_failing};

    ghost left = { λ s. Some (bytes_left s) };

    ghost faults = { λ s. read_faults s };

    /// Fails only at the calls that are listed, and gives as many bytes as there is room for.
    fn read(&mut self, into: &mut [u8]) -> Result<usize, Failed>
        ensures bound { ReadsAtMost result into.new }
        ensures bytes { ReadConsumes (Some (bytes_left self.old)) (Some (bytes_left self.new)) result into.new }
        ensures cause { HasCause (read_faults self.old) (read_faults self.new) result }
        ensures turn { is_ok result ≡ not (is_failing (failing_reads self.old) (reads self.new)) }
        ensures count { IfOk result (λ n. n ≡ min (length into.old) (length (bytes_left self.old))) }
        ensures calls { reads self.new ≡ next_call (reads self.old) }
        ensures failing { failing_reads self.new ≡ failing_reads self.old }
    {
        self.calls = self.calls.saturating_add(1);
        if self.failing.contains(&self.calls) {
            self.faults = self.faults.saturating_add(1);
            return Err(Failed);
        }
        let count = into.len().min(self.bytes.len() - self.at);
        into[..count].copy_from_slice(&self.bytes[self.at..self.at + count]);
        self.at += count;
        Ok(count)
    }
}

/// Takes bytes into a `Vec`. The calls whose numbers, counted from 1, are in `failing` fail, and
/// so does a write for which there is no memory.
#[derive(Drop)]
pub struct MemorySink {
    taken: Vec<u8>,
    failing: Vec<u64>,
    calls: u64,
    faults: u64,
}

impl MemorySink {
    ghost use Rattle.std.specs.Prelude.{[]};
    ghost use Rattle.wcv_main.specs.Memory.{bytes_taken, failing_writes, writes, write_faults};

    /// A sink that took nothing yet, and was not called yet.
    pub fn new(alloc: Global, failing: Vec<u64>) -> MemorySink
        ensures taken { bytes_taken result ≡ [] }
        ensures failing { failing_writes result ≡ failing.items }
        ensures calls { writes result ≡ 0 }
        ensures faults { write_faults result ≡ 0 }
    {
        MemorySink {
            taken: Vec::new(alloc),
            failing,
            calls: 0,
            faults: 0,
        }
    }

    /// The bytes that were taken, in order.
    pub fn taken(&self) -> &[u8]
        ensures { result.now ≡ bytes_taken self.now }
    {
        &self.taken
    }
}

impl Sink for MemorySink {
    ghost use Rattle.std.specs.Prelude.{Some, ◌<◌, length, false, is_ok, IsTrue, IfOk};
    ghost use Rattle.std.specs.Io.{WritesAtMost};
    ghost use Rattle.std.specs.Io.KnownBytes.{WriteAppends};
    ghost use Rattle.wcv_main.specs.Faults.{HasCause};
    ghost use Rattle.wcv_main.specs.Memory.{bytes_taken, failing_writes, writes, write_faults, next_call, is_failing};

    ghost taken = { λ s. Some (bytes_taken s) };

    ghost faults = { λ s. write_faults s };

    /// Fails at the calls that are listed and out of memory, and else takes all bytes.
    fn write(&mut self, from: &[u8]) -> Result<usize, Failed>
        ensures bound { WritesAtMost result from.now }
        ensures bytes { WriteAppends (Some (bytes_taken self.old)) (Some (bytes_taken self.new)) result from.now }
        ensures some { IfOk result (λ n. 0 < length from.now → 0 < n) }
        ensures cause { HasCause (write_faults self.old) (write_faults self.new) result }
        ensures turn { IsTrue (is_failing (failing_writes self.old) (writes self.new)) → is_ok result ≡ false }
        ensures count { IfOk result (λ n. n ≡ length from.now) }
        ensures calls { writes self.new ≡ next_call (writes self.old) }
        ensures failing { failing_writes self.new ≡ failing_writes self.old }
    {
        self.calls = self.calls.saturating_add(1);
        if self.failing.contains(&self.calls) || self.taken.extend_from_slice(from).is_err() {
            self.faults = self.faults.saturating_add(1);
            return Err(Failed);
        }
        Ok(from.len())
    }
}
