// The ends over std's readers and writers.
ghost use Rattle.std.specs.Prelude.{◌≡◌};
ghost use Rattle.std.specs.Io.{ReadsAtMost, WritesAtMost};
ghost use Rattle.std.specs.Io.KnownBytes.{ReadConsumes, WriteAppends};
ghost use Rattle.wcv_main.specs.Adapters.{reader_of, reader_faults, writer_of, writer_faults};

use crate::ends::{Failed, Sink, Source};
use std::io::{ErrorKind, Read, Result as IoResult, Write};

// How often in a row a call that was interrupted is made again. Then it counts as one that failed.
const TRIES: u32 = 65_536;

/// Reads once. A read that is interrupted is tried again, up to 65,536 times in a row.
fn read_again<R: Read>(reader: &mut R, into: &mut [u8]) -> IoResult<usize>
    ensures bound { ReadsAtMost result into.new }
    ensures bytes { ReadConsumes (R.remaining reader.old) (R.remaining reader.new) result into.new }
{
    for _ in 1..TRIES {
        match reader.read(into) {
            Ok(count) => return Ok(count),
            Err(error) => {
                if error.kind() != ErrorKind::Interrupted {
                    return Err(error);
                }
            }
        }
    }
    reader.read(into)
}

/// Writes once. A write that is interrupted is tried again, up to 65,536 times in a row.
fn write_again<W: Write>(writer: &mut W, from: &[u8]) -> IoResult<usize>
    ensures bound { WritesAtMost result from.now }
    ensures bytes { WriteAppends (W.contents writer.old) (W.contents writer.new) result from.now }
{
    for _ in 1..TRIES {
        match writer.write(from) {
            Ok(count) => return Ok(count),
            Err(error) => {
                if error.kind() != ErrorKind::Interrupted {
                    return Err(error);
                }
            }
        }
    }
    writer.write(from)
}

/// Any reader of std as a source. It tells the bytes that the reader tells, and each error of the
/// reader is a fault. A read that is interrupted is tried again; 65,536 of them in a row are one fault.
#[derive(Drop)]
pub struct ReadAdapter<R> {
    reader: R,
    faults: u64,
}

impl<R> ReadAdapter<R> {
    /// A source over the reader, with no fault yet.
    pub fn new(reader: R) -> ReadAdapter<R>
        ensures reader { reader_of result ≡ reader }
        ensures faults { reader_faults result ≡ 0 }
    {
        ReadAdapter { reader, faults: 0 }
    }

    /// How many reads have failed, up to 2^64 - 1.
    pub fn faults(&self) -> u64
        ensures { result ≡ reader_faults self.now }
    {
        self.faults
    }
}

impl<R: Read> Source for ReadAdapter<R> {
    ghost left = { λ s. R.remaining (reader_of s) };

    ghost faults = { λ s. reader_faults s };

    fn read(&mut self, into: &mut [u8]) -> Result<usize, Failed> {
        match read_again(&mut self.reader, into) {
            Ok(count) => Ok(count),
            Err(_) => {
                self.faults = self.faults.saturating_add(1);
                Err(Failed)
            }
        }
    }
}

/// Any writer of std as a sink. It tells the bytes that the writer tells. Each error of the writer
/// is a fault, and so is a write that takes none of the bytes that it was given. A write that is
/// interrupted is tried again; 65,536 of them in a row are one fault.
#[derive(Drop)]
pub struct WriteAdapter<W> {
    writer: W,
    faults: u64,
}

impl<W> WriteAdapter<W> {
    /// A sink over the writer, with no fault yet.
    pub fn new(writer: W) -> WriteAdapter<W>
        ensures writer { writer_of result ≡ writer }
        ensures faults { writer_faults result ≡ 0 }
    {
        WriteAdapter { writer, faults: 0 }
    }

    /// How many writes have failed, up to 2^64 - 1.
    pub fn faults(&self) -> u64
        ensures { result ≡ writer_faults self.now }
    {
        self.faults
    }
}

impl<W: Write> Sink for WriteAdapter<W> {
    ghost taken = { λ s. W.contents (writer_of s) };

    ghost faults = { λ s. writer_faults s };

    fn write(&mut self, from: &[u8]) -> Result<usize, Failed> {
        if from.is_empty() {
            return Ok(0);
        }
        match write_again(&mut self.writer, from) {
            Ok(0) | Err(_) => {
                self.faults = self.faults.saturating_add(1);
                Err(Failed)
            }
            Ok(count) => Ok(count),
        }
    }
}
