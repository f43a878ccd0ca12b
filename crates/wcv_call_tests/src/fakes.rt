// A reader and a writer whose calls are written down, a sign for each: a digit gives or takes up to so many bytes, `~`
// says that the call was interrupted, and `!` fails. Where no sign is left a call gives or takes up to nine bytes.
use std::io;
use std::io::{Read, Write};

/// How many bytes the next call gives or takes at most.
fn next_call(calls: &mut &'static [u8]) -> io::Result<usize> {
    match calls.split_first() {
        None => Ok(9),
        Some((call, later)) => {
            *calls = later;
            match *call {
                b'!' => Err(io::ErrorKind::Other.into()),
                b'~' => Err(io::ErrorKind::Interrupted.into()),
                digit => Ok(usize::from(digit.saturating_sub(b'0'))),
            }
        }
    }
}

/// Gives bytes.
#[derive(Drop)]
pub struct Reads {
    pub calls: &'static [u8],
    pub bytes: &'static [u8],
}

impl Read for Reads {
    fn read(&mut self, into: &mut [u8]) -> io::Result<usize> {
        let most = next_call(&mut self.calls)?;
        let count = most.min(into.len()).min(self.bytes.len());
        into[..count].copy_from_slice(&self.bytes[..count]);
        self.bytes = &self.bytes[count..];
        Ok(count)
    }
}

/// Takes bytes.
#[derive(Drop)]
pub struct Writes<'a> {
    pub calls: &'static [u8],
    pub taken: &'a mut Vec<u8>,
}

impl Write for Writes<'_> {
    fn write(&mut self, from: &[u8]) -> io::Result<usize> {
        let most = next_call(&mut self.calls)?;
        let count = most.min(from.len());
        self.taken.extend_from_slice(&from[..count])?;
        Ok(count)
    }

    fn flush(&mut self) -> io::Result<()> {
        Ok(())
    }
}
